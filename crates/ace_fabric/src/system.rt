//! A system: the masters of all ports and the interconnect, which carry out a script.

ghost use Rattle.std.specs.Prelude.{◌≡◌, ◌≢◌, ◌<◌, ◌≤◌, ◌*◌, ℕ, true, false, List, [], IfOk, length, reverse};
ghost use Rattle.ace_event.specs.declared.event.Event.{Event};
ghost use Rattle.ace_model.specs.Plans.{IsRight, IsRightAfter};
ghost use Rattle.ace_model.specs.Trace.{Trace};
ghost use Rattle.ace_runs.specs.Bursts.{onto};
ghost use Rattle.ace_runs.specs.Follows.{Done, is_done};
ghost use Rattle.ace_runs.specs.Steps.{AreSteps, Enabled, IsStep, is_enabled};
ghost use Rattle.ace_engine.specs.Engines.{IsLegal};
ghost use Rattle.ace_home.specs.Among.{HasHolders, IsStepAmong, is_enabled_among};
ghost use Rattle.ace_home.specs.Home.{HomeStands};
ghost use Rattle.ace_update.specs.Update.{UpdateStands};
ghost use Rattle.ace_order.specs.Order.{OrderStands};
ghost use Rattle.ace_fabric.specs.Parts.{AreEngines};
ghost use Rattle.ace_fabric.specs.Runs.{AreTurnsBy, continued, grown};
ghost use Rattle.ace_fabric.specs.System.{MayPick, is_mixed, plan_of, starting};

use crate::masters::{ScriptMaster, masters};
use crate::{Fabric, Turn};
use ace_engine::Engine;
use ace_event::Event;
use ace_home::Home;
use ace_io::NoMemory;
use ace_model::{Among, Op, PlanView};
use ace_order::Order;
use ace_script::Plan;
use ace_update::Update;
use std::alloc::Global;
use std::marker::Model;

/// A run of a script: its plan, the trace so far, and the engines that carry it out, the masters of
/// all ports and the interconnect.
#[derive(Drop)]
pub struct System {
    run: Fabric<Home, Update, Order, ScriptMaster>,
}

impl Model for System {
    ghost use Rattle.ace_fabric.specs.Runs.{Run};

    ghost Value = { Run };

    ghost view = { λ s. s.run };
}

/// The engines of the interconnect.
#[derive(Drop)]
struct Interconnect {
    home: Home,
    update: Update,
    order: Order,
}

/// The engines of the interconnect for the plan and the empty trace.
fn engines_for(alloc: Global, plan: &PlanView) -> Result<Interconnect, NoMemory>
    requires { IsRight plan.now.plan }
    ensures home { IfOk result (λ s. HomeStands s.home plan.now.plan []) }
    ensures update { IfOk result (λ s. UpdateStands s.update plan.now.plan []) }
    ensures order { IfOk result (λ s. OrderStands s.order plan.now.plan []) }
{
    let home = Home::new(alloc, plan)?;
    let Ok(update) = Update::new(alloc, plan) else {
        drop(home);
        return Err(NoMemory);
    };
    let Ok(order) = Order::new(alloc, plan) else {
        drop(home);
        drop(update);
        return Err(NoMemory);
    };
    Ok(Interconnect {
        home,
        update,
        order,
    })
}

/// The run of the plan with these engines, which stand for it and the empty trace.
fn run_with(
    alloc: Global,
    plan: Plan,
    engines: Interconnect,
    masters: Vec<ScriptMaster>,
) -> Result<System, NoMemory>
    requires { AreEngines ⟦<Home as Engine>⟧ ⟦<Update as Engine>⟧
        ⟦<Order as Engine>⟧ ⟦<ScriptMaster as Engine>⟧ plan.plan []
        engines.home engines.update engines.order masters.items }
    ensures { IfOk result (λ s. s ≡ starting plan) }
{
    let Interconnect {
        home,
        update,
        order,
    } = engines;
    let run = Fabric::new(alloc, plan, home, update, order, masters)?;
    Ok(System { run })
}

/// The run of the plan, before its first step. The masters of ACE ports answer snoops by these
/// numbers, where there are some, else as the policy of the plan says.
fn begin(alloc: Global, plan: &Plan, picks: &[u8]) -> Result<System, NoMemory>
    requires { MayPick plan.now.plan picks.now }
    ensures { IfOk result (λ s. s ≡ starting plan.now) }
{
    let plan = plan.copy(alloc)?;
    let Ok(engines) = engines_for(alloc, plan.view()) else {
        drop(plan);
        return Err(NoMemory);
    };
    let Ok(masters) = masters(alloc, plan.view(), picks) else {
        drop(engines);
        drop(plan);
        return Err(NoMemory);
    };
    run_with(alloc, plan, engines, masters)
}

impl System {
    /// The run of the plan, before its first step. It takes the memory for all events of the plan's
    /// operations and of those that it has room for.
    ///
    /// # Errors
    ///
    /// `NoMemory` where there is none.
    pub fn start(alloc: Global, plan: &Plan) -> Result<System, NoMemory>
        ensures { IfOk result (λ s. s ≡ starting plan.now) }
    {
        begin(alloc, plan, &[])
    }

    /// The run of a plan whose policy is `mixed`, before its first step, in which the caller
    /// chooses the answers to snoops: the master of each ACE port takes for its k-th answer to a
    /// snoop of a line, from 0, the permitted one at `picks[k mod len]` modulo their count. There
    /// has to be a number.
    ///
    /// # Errors
    ///
    /// `NoMemory` where there is none.
    pub fn start_listed(alloc: Global, plan: &Plan, picks: &[u8]) -> Result<System, NoMemory>
        requires some { picks.now ≢ [] }
        requires mixed { is_mixed plan.now.plan.policy ≡ true }
        ensures { IfOk result (λ s. s ≡ starting plan.now) }
    {
        begin(alloc, plan, picks)
    }

    /// What holds of each run: the plan is right, the trace is accepted, follows the plan so far,
    /// is lean and is a list of steps; it isn't long; and until the run is done, some port is
    /// enabled.
    pub fn keeps(&self)
        ensures legal { IsLegal self.now.plan self.now.past }
        ensures steps { AreSteps self.now.plan self.now.past }
        ensures few { length self.now.past ≤ length self.now.plan.operations * 256 }
        ensures goes_on { (Done self.now.plan self.now.past → ⊥)
            → (p : ℕ) × (p < self.now.plan.header.ports) × Enabled self.now.plan self.now.past p }
    {
        self.run.keeps();
    }

    /// A turn of the port: one step of its own, of 1 to 16 events, at the end of the trace. It is
    /// `Idle` where none is enabled, and changes nothing then. It takes no memory.
    pub fn turn(&mut self, port: u8) -> Turn
        requires { port < self.old.plan.header.ports }
        ensures moved { result ≡ Turn.Moved → (burst : List Event)
            × IsStep self.old.plan self.old.past port burst
            × (self.new ≡ continued burst self.old) }
        ensures idle { result ≡ Turn.Idle → (self.new ≡ self.old)
            × (is_enabled self.old.plan self.old.past port ≡ false) }
    {
        self.run.turn(port)
    }

    /// A turn of the port, as `turn` takes it, that snoops for each line only ports of a set, which
    /// has each ACE port whose state of the line isn't I. It takes no memory.
    pub fn turn_among<F: Among>(&mut self, port: u8, among: &F) -> Turn
        requires port { port < self.old.plan.header.ports }
        requires holders { HasHolders (F.has among.now) self.old.plan.header self.old.past }
        ensures moved { result ≡ Turn.Moved → (burst : List Event)
            × IsStepAmong (F.has among.now) self.old.plan self.old.past port burst
            × (self.new ≡ continued burst self.old) }
        ensures idle { result ≡ Turn.Idle → (self.new ≡ self.old)
            × (is_enabled_among (F.has among.now) self.old.plan self.old.past port ≡ false) }
    {
        self.run.turn_among(port, among)
    }

    /// Whether the run is done: every operation has retired, no transaction is outstanding, no
    /// snoop is unanswered, and no DVM Complete is owed.
    pub fn done(&self) -> bool
        ensures { result ≡ is_done self.now.plan self.now.past }
    {
        self.run.done()
    }

    /// Turns of the ports in order, again and again, until the run is done. It takes no memory.
    pub fn drain(&mut self)
        ensures kept { (events : List Event) × (self.new ≡ continued events self.old) }
        ensures done { Done self.new.plan self.new.past }
    {
        self.run.drain();
    }

    /// A turn for each number, one after the other, of the port of the number modulo the number of
    /// ports; then turns of the ports in order until the run is done. It takes no memory.
    pub fn drain_by(&mut self, turns: &[u8])
        ensures turns { (middle : Trace) × AreTurnsBy self.old.plan turns.now self.old.past middle
            × (events : List Event) × (self.new ≡ record self.old { past = onto events middle }) }
        ensures done { Done self.new.plan self.new.past }
    {
        self.run.drain_by(turns);
    }

    /// Puts the operation at the end of the plan, where it can stand there, and takes one from the
    /// room. The trace stays. It takes no memory.
    pub fn push(&mut self, port: u8, op: Op)
        requires room { self.old.room ≢ 0 }
        requires right { IsRightAfter self.old.plan.header self.old.plan.operations
            (record { port = port; op = op }) }
        ensures { self.new ≡ grown (record { port = port; op = op }) self.old }
    {
        self.run.push(port, op);
    }

    /// The events so far, in order.
    pub fn trace(&self) -> &[Event]
        ensures { reverse result.now ≡ self.now.past }
    {
        self.run.trace()
    }

    /// The plan, and its room.
    pub fn plan(&self) -> &Plan
        ensures { result.now ≡ plan_of self.now }
    {
        self.run.plan()
    }
}
