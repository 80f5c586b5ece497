//! The master of an ACE port.

ghost use Rattle.std.specs.Prelude.{◌≡◌, true, [], IfOk};
ghost use Rattle.ace_model.specs.OrderRules.{retired};
ghost use Rattle.ace_model.specs.Plans.{IsRight, Plan, longer};
ghost use Rattle.ace_model.specs.Trace.{Trace};
ghost use Rattle.ace_model.specs.Transactions.{is_ace};
ghost use Rattle.ace_master.specs.Ace.{AceStands};
ghost use Rattle.ace_master.specs.Answering.{IsByWord};

use crate::Master;
use crate::ace_port::AcePort;
use ace_engine::{Burst, Engine};
use ace_event::Event;
use ace_io::NoMemory;
use ace_model::{Op, PlanView};
use ace_policy::Policy;
use std::alloc::Global;

/// The master of an ACE port, which answers snoops as its policy picks.
#[derive(Drop)]
pub struct AceMaster<P: Policy> {
    at: AcePort,
    policy: P,
}

impl<P: Policy + Drop> AceMaster<P> {
    /// The master of the port for a plan and the empty trace. Where the word of the plan is `keep`
    /// or `eager`, the policy may pick the row of that word alone. It takes all the memory that it
    /// will need, also for the operations that it can be given.
    ///
    /// # Errors
    ///
    /// `NoMemory` where there is none.
    pub fn new(
        alloc: Global,
        plan: &PlanView,
        port: u8,
        policy: P,
    ) -> Result<AceMaster<P>, NoMemory>
        requires right { IsRight plan.now.plan }
        requires ace { is_ace plan.now.plan.header port ≡ true }
        requires picks { IsByWord plan.now.plan.policy (P.rows policy) }
        ensures stands { IfOk result (λ s. AceStands s.at (P.rows s.policy) plan.now.plan []) }
        ensures port { IfOk result (λ s. s.at.port ≡ port) }
    {
        let at = AcePort::new(alloc, plan, port)?;
        Ok(AceMaster { at, policy })
    }
}

impl<P: Policy> AceMaster<P> {
    /// How many operations of the port retired.
    pub fn retired(&self) -> u16
        ensures { (plan : Plan) (past : Trace) → AceStands self.now.at
            (P.rows self.now.policy) plan past → result ≡ retired past self.now.at.port }
    {
        self.at.retired()
    }

    /// Puts the operation at the end of those of the port. It takes no memory.
    pub fn push(&mut self, op: Op)
        requires { (plan : Plan) × (past : Trace)
            × AceStands self.old.at (P.rows self.old.policy) plan past
            × IsRight (longer plan (record { port = self.old.at.port; op = op })) }
        ensures stands { (plan : Plan) (past : Trace)
            → AceStands self.old.at (P.rows self.old.policy) plan past
            → IsRight (longer plan (record { port = self.old.at.port; op = op }))
            → AceStands self.new.at (P.rows self.new.policy)
            (longer plan (record { port = self.old.at.port; op = op })) past }
        ensures port { self.new.at.port ≡ self.old.at.port }
    {
        self.at.push(op);
    }
}

impl<P: Policy> Engine for AceMaster<P> {
    ghost use Rattle.std.specs.Prelude.{◌==◌};
    ghost use Rattle.ace_engine.specs.Engines.{Master};
    ghost use Rattle.ace_master.specs.Ace.{AceStands};
    ghost use Rattle.ace_master.specs.AceLaws.{grows, legal};

    ghost kind = { Master };

    ghost serves = { λ s p. p == s.at.port };

    ghost stands = { λ s. AceStands s.at (P.rows s.policy) };

    ghost legal = { λ s. legal s.at (P.rows s.policy) };

    ghost grows = { λ s. grows s.at (P.rows s.policy) };

    fn turn(&mut self, _port: u8, out: &mut Burst) -> bool {
        if self.at.answer(&mut self.policy, out) {
            return true;
        }
        if self.at.send(out) {
            return true;
        }
        if self.at.acknowledge(out) {
            return true;
        }
        self.at.go_on(out)
    }

    fn hear(&mut self, event: &Event) {
        self.at.hear(event);
    }
}

impl<P: Policy> Master for AceMaster<P> {
    fn push(&mut self, op: Op) {
        AceMaster::push(self, op);
    }
}
