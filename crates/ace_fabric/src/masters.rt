//! The masters of the ports of a script.

ghost use Rattle.std.specs.Prelude.{◌≡◌, ◌<◌, ◌∷◌, ◌++◌, [], IfOk, OnOk};
ghost use Rattle.ace_model.specs.Plans.{IsRight};
ghost use Rattle.ace_master.specs.Answering.{IsByWord};
ghost use Rattle.ace_policy.specs.Chosen.{chosen_rows};
ghost use Rattle.ace_fabric.specs.Parts.{AreMasters};
ghost use Rattle.ace_fabric.specs.System.{IsMasterOf, MayPick};

use crate::PortMaster;
use ace_engine::Engine;
use ace_io::NoMemory;
use ace_master::laws::policies_go_by_their_words;
use ace_master::{AceMaster, LiteMaster};
use ace_model::kinds::is_ace;
use ace_model::{PlanView, PolicyWord};
use ace_policy::{Chosen, Listed, Mixed};
use std::alloc::Global;

/// The master of a port of a script.
pub type ScriptMaster = PortMaster<AceMaster<Chosen>, LiteMaster>;

/// The policy that the word names.
fn named(word: PolicyWord) -> Chosen
    ensures { IsByWord word (chosen_rows result) }
{
    policies_go_by_their_words();
    match word {
        PolicyWord::Keep => Chosen::Keep,
        PolicyWord::Eager => Chosen::Eager,
        PolicyWord::Mixed(n) => Chosen::Mixed(Mixed::new(n)),
    }
}

/// The policy by these numbers, where there are some, else that which the plan names.
fn policy(alloc: Global, plan: &PlanView, picks: &[u8]) -> Result<Chosen, NoMemory>
    requires { MayPick plan.now.plan picks.now }
    ensures { IfOk result (λ p. IsByWord plan.now.plan.policy (chosen_rows p)) }
{
    if picks.is_empty() {
        return Ok(named(plan.policy()));
    }
    policies_go_by_their_words();
    let listed = Listed::new(alloc, picks)?;
    Ok(Chosen::Listed(listed))
}

/// The master of the port.
fn master(alloc: Global, plan: &PlanView, port: u8, picks: &[u8]) -> Result<ScriptMaster, NoMemory>
    requires right { IsRight plan.now.plan }
    requires port { port < plan.now.plan.header.ports }
    requires picks { MayPick plan.now.plan picks.now }
    ensures { IfOk result (λ m. IsMasterOf ⟦<ScriptMaster as Engine>⟧ plan.now.plan [] port m) }
{
    if is_ace(&plan.header(), port) {
        let policy = policy(alloc, plan, picks)?;
        Ok(PortMaster::Ace(AceMaster::new(alloc, plan, port, policy)?))
    } else {
        Ok(PortMaster::Lite(LiteMaster::new(alloc, plan, port)?))
    }
}

/// Puts the master at the end.
fn add<M: Drop>(masters: &mut Vec<M>, master: M) -> Result<(), NoMemory>
    ensures { OnOk result (masters.new.items ≡ masters.old.items ++ master ∷ []) }
{
    match masters.push(master) {
        Ok(()) => Ok(()),
        Err(_) => Err(NoMemory),
    }
}

/// The masters of all ports, in order.
pub fn masters(alloc: Global, plan: &PlanView, picks: &[u8]) -> Result<Vec<ScriptMaster>, NoMemory>
    requires right { IsRight plan.now.plan }
    requires picks { MayPick plan.now.plan picks.now }
    ensures { IfOk result (λ ms. AreMasters ⟦<ScriptMaster as Engine>⟧ plan.now.plan [] ms.items) }
{
    let mut masters = Vec::new(alloc);
    for port in 0..plan.header().ports {
        let next = master(alloc, plan, port, picks)?;
        add(&mut masters, next)?;
    }
    Ok(masters)
}
