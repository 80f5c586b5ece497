//! The engines of a run that share one trace.

ghost use Rattle.std.specs.Prelude.{◌≡◌, ◌≢◌, ◌<◌, ◌≤◌, ◌+◌, ◌-◌, ◌*◌, ℕ, false, List, [], IfOk, IsTrue, length, reverse, vec_len, vec_capacity};
ghost use Rattle.ace_event.specs.declared.event.Event.{Event};
ghost use Rattle.ace_model.specs.Plans.{IsRight, IsRightAfter, longer};
ghost use Rattle.ace_model.specs.Trace.{Trace};
ghost use Rattle.ace_runs.specs.Bursts.{onto};
ghost use Rattle.ace_runs.specs.Follows.{Done, is_done};
ghost use Rattle.ace_runs.specs.Steps.{AreSteps, Enabled, IsStep, is_enabled};
ghost use Rattle.ace_engine.specs.Engines.{IsLegal};
ghost use Rattle.ace_home.specs.Among.{HasHolders, IsStepAmong, is_enabled_among};
ghost use Rattle.ace_fabric.specs.Parts.{AreEngines};
ghost use Rattle.ace_fabric.specs.Runs.{AreTurnsBy, continued, grown};

use crate::growing::give;
use crate::idle::IdlePorts;
use crate::left::Left;
use crate::moving::by_any;
use ace_engine::{Burst, Engine};
use ace_event::Event;
use ace_home::LineEngine;
use ace_io::NoMemory;
use ace_master::Master;
use ace_model::{AllPorts, Among, Op};
use ace_script::Plan;
use std::alloc::Global;
use std::marker::Model;

/// How many events there can be for each operation of a plan.
const MOST: usize = 256;

/// What a turn of a port did: it put a step at the end of the trace, or nothing, as none is enabled
/// for the port.
#[derive(Clone, Copy, Debug, PartialEq, Eq)]
pub enum Turn {
    Moved,
    Idle,
}

/// A plan, the trace of its run so far, and the engines that stand for both: a home, the engine of
/// memory updates, the one of barriers and DVM, and a master for each port.
#[derive(Drop)]
pub struct Fabric<H: Engine, U: Engine, O: Engine, M: Engine> {
    plan: Plan,
    /// It has room for all events that a run of the plan can have.
    events: Vec<Event>,
    home: H,
    update: U,
    order: O,
    masters: Vec<M>,
    left: Left,
    /// The events of the last turn that put a step, if it isn't empty: it stays, as a new one is
    /// written whole.
    burst: Burst,
    idle: IdlePorts,
}

impl<H: Engine, U: Engine, O: Engine, M: Engine> Model for Fabric<H, U, O, M> {
    ghost use Rattle.std.specs.Prelude.{reverse, vec_capacity};
    ghost use Rattle.ace_fabric.specs.Runs.{IsRunning, Run};

    ghost Value = { Run };

    ghost view = { λ s. record {
      plan = s.plan.plan;
      room = s.plan.room;
      past = reverse s.events.items;
    } };

    ghost invariant = { λ s. IsRunning H.Engine U.Engine O.Engine M.Engine s.plan
        (reverse s.events.items) (vec_capacity s.events) s.home s.update s.order s.masters.items
        s.left s.idle };
}

/// Empties the burst. Where it is empty, as after a turn without a step, it isn't written.
fn empty(burst: &mut Burst)
    ensures { burst.new ≡ [] }
{
    if burst.len() != 0 {
        *burst = Burst::empty();
    }
}

/// Puts the burst at the end of the events, for which there is room.
fn append(events: &mut Vec<Event>, burst: &Burst)
    requires { vec_len events.old + length burst.now ≤ vec_capacity events.old }
    ensures items { reverse events.new.items ≡ onto burst.now (reverse events.old.items) }
    ensures capacity { vec_capacity events.old ≤ vec_capacity events.new }
{
    for i in 0..burst.len() {
        events.push_reserved(burst.get(i));
    }
}

/// Puts the operation at the end of the plan, which is right then.
fn lengthen(plan: &mut Plan, port: u8, op: Op)
    requires room { plan.old.room ≢ 0 }
    requires right { IsRightAfter plan.old.plan.header plan.old.plan.operations
        (record { port = port; op = op }) }
    ensures value { plan.new ≡ record {
      plan = longer plan.old.plan
          (record { port = port; op = op });
      room = plan.old.room - 1;
    } }
    ensures right { IsRight plan.new.plan }
{
    plan.push(port, op);
    let _view = plan.view();
}

impl<H: Engine + Drop, U: Engine + Drop, O: Engine + Drop, M: Engine + Drop> Fabric<H, U, O, M> {
    /// The run of the plan with these engines, which stand for it and the empty trace. It takes the
    /// memory for all events that the plan and its room can have.
    ///
    /// # Errors
    ///
    /// `NoMemory` where there is none for the events.
    #[tactic(auto, using(crate::proofs::NoneIdle::none_idle))]
    pub fn new(
        alloc: Global,
        plan: Plan,
        home: H,
        update: U,
        order: O,
        masters: Vec<M>,
    ) -> Result<Fabric<H, U, O, M>, NoMemory>
        requires { AreEngines H.Engine U.Engine O.Engine M.Engine plan.plan
            [] home update order masters.items }
        ensures { IfOk result (λ s. s ≡ record { plan = plan.plan; room = plan.room; past = [] }) }
    {
        let left = Left::new(alloc, plan.view())?;
        let operations = usize::from(plan.view().count()) + usize::from(plan.room());
        let Ok(events) = Vec::with_capacity(alloc, operations * MOST) else {
            return Err(NoMemory);
        };
        Ok(Fabric {
            plan,
            events,
            home,
            update,
            order,
            masters,
            left,
            burst: Burst::empty(),
            idle: IdlePorts::none(),
        })
    }
}

impl<H: LineEngine, U: Engine, O: Engine, M: Engine> Fabric<H, U, O, M> {
    /// What holds of each run: the plan is right, the trace is accepted, follows the plan so far,
    /// is lean and is a list of steps; it isn't long; and until the run is done, some port is
    /// enabled.
    pub fn keeps(&self)
        ensures legal { IsLegal self.now.plan self.now.past }
        ensures steps { AreSteps self.now.plan self.now.past }
        ensures few { length self.now.past ≤ length self.now.plan.operations * 256 }
        ensures goes_on { (Done self.now.plan self.now.past → ⊥)
            → (p : ℕ) × (p < self.now.plan.header.ports) × Enabled self.now.plan self.now.past p }
    {
        let _ = &self.events;
    }

    /// The events so far, in order.
    pub fn trace(&self) -> &[Event]
        ensures { reverse result.now ≡ self.now.past }
    {
        &self.events
    }

    /// The plan, and its room.
    pub fn plan(&self) -> &Plan
        ensures { result.now ≡ record { plan = self.now.plan; room = self.now.room } }
    {
        &self.plan
    }

    /// Whether the run is done: every operation has retired, no transaction is outstanding, no
    /// snoop is unanswered, and no DVM Complete is owed.
    pub fn done(&self) -> bool
        ensures { result ≡ is_done self.now.plan self.now.past }
    {
        self.left.is_none(self.plan.view().header().ports)
    }

    /// A turn of the port: its master, the engine of memory updates, the home and the engine of
    /// barriers and DVM are asked, in this order, and the first that has a step for the port takes
    /// it. Where the last turn of the port put none, and nothing has come since, none is asked. It
    /// takes no memory.
    pub fn turn(&mut self, port: u8) -> Turn
        requires { port < self.old.plan.header.ports }
        ensures moved { result ≡ Turn.Moved → (burst : List Event)
            × IsStep self.old.plan self.old.past port burst
            × (self.new ≡ continued burst self.old) }
        ensures idle { result ≡ Turn.Idle → (self.new ≡ self.old)
            × (is_enabled self.old.plan self.old.past port ≡ false) }
    {
        if self.idle.has(port) {
            return Turn::Idle;
        }
        match self.turn_among(port, &AllPorts) {
            Turn::Moved => Turn::Moved,
            Turn::Idle => {
                self.idle.add(port);
                Turn::Idle
            }
        }
    }

    /// A turn of the port that snoops for each line only ports of a set, which has each ACE port
    /// whose state of the line isn't I. The engines are asked even where the last turn put no step,
    /// since another set may be given. It takes no memory.
    pub fn turn_among<F: Among>(&mut self, port: u8, among: &F) -> Turn
        requires port { port < self.old.plan.header.ports }
        requires holders { HasHolders (F.has among.now) self.old.plan.header self.old.past }
        ensures moved { result ≡ Turn.Moved → (burst : List Event)
            × IsStepAmong (F.has among.now) self.old.plan self.old.past port burst
            × (self.new ≡ continued burst self.old) }
        ensures idle { result ≡ Turn.Idle → (self.new ≡ self.old)
            × (is_enabled_among (F.has among.now) self.old.plan self.old.past port ≡ false) }
    {
        empty(&mut self.burst);
        if !by_any(
            &mut self.home,
            &mut self.update,
            &mut self.order,
            self.masters.as_mut_slice(),
            port,
            among,
            &mut self.burst,
        ) {
            return Turn::Idle;
        }
        append(&mut self.events, &self.burst);
        self.left.hear_all(&self.burst);
        self.idle = IdlePorts::none();
        Turn::Moved
    }

    /// A turn of each port, in order, and whether one of them put a step. Where none did, the run
    /// is done.
    fn round(&mut self) -> bool
        ensures kept { (events : List Event) × (self.new ≡ continued events self.old) }
        ensures longer { IsTrue result → length self.old.past < length self.new.past }
        ensures idle { result ≡ false → (self.new ≡ self.old) × Done self.old.plan self.old.past }
    {
        let mut moved = false;
        for port in 0..self.plan.view().header().ports {
            match self.turn(port) {
                Turn::Moved => moved = true,
                Turn::Idle => {}
            }
        }
        moved
    }

    /// Rounds of turns, until no port has a step: then the run is done. It takes no memory.
    pub fn drain(&mut self)
        ensures kept { (events : List Event) × (self.new ≡ continued events self.old) }
        ensures done { Done self.new.plan self.new.past }
    {
        while self.round() {
            self.keeps();
        }
    }

    /// A turn for each number, one after the other, of the port of the number modulo the number of
    /// ports.
    fn take_turns(&mut self, turns: &[u8])
        ensures { (events : List Event) × (self.new ≡ continued events self.old)
            × AreTurnsBy self.old.plan turns.now self.old.past self.new.past }
    {
        for number in turns {
            let ports = self.plan.view().header().ports;
            self.turn(*number % ports);
        }
    }

    /// A turn for each number, one after the other, of the port of the number modulo the number of
    /// ports; then rounds of turns until the run is done. It takes no memory.
    pub fn drain_by(&mut self, turns: &[u8])
        ensures turns { (middle : Trace) × AreTurnsBy self.old.plan turns.now self.old.past middle
            × (events : List Event) × (self.new ≡ record self.old { past = onto events middle }) }
        ensures done { Done self.new.plan self.new.past }
    {
        self.take_turns(turns);
        self.drain();
    }
}

impl<H: Engine, U: Engine, O: Engine, M: Master> Fabric<H, U, O, M> {
    /// Puts the operation at the end of the plan, where it can stand there, and takes one from the
    /// room. The trace stays. It takes no memory.
    pub fn push(&mut self, port: u8, op: Op)
        requires room { self.old.room ≢ 0 }
        requires right { IsRightAfter self.old.plan.header self.old.plan.operations
            (record { port = port; op = op }) }
        ensures { self.new ≡ grown (record { port = port; op = op }) self.old }
    {
        lengthen(&mut self.plan, port, op);
        give(self.masters.as_mut_slice(), port, op);
        self.left.push(port);
        self.idle = IdlePorts::none();
    }
}
