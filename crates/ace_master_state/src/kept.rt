//! What the master of an ACE port keeps, all in one.

ghost use Rattle.std.specs.Prelude.{◌≡◌, ◌≤◌, ◌∷◌, ℕ, [], true, Some, IfOk};
ghost use Rattle.ace_model.specs.Plans.{IsRight, Plan};
ghost use Rattle.ace_model.specs.Trace.{Trace, port_of};
ghost use Rattle.ace_model.specs.Transactions.{is_ace};
ghost use Rattle.ace_runs.specs.Segments.{is_at_port};
ghost use Rattle.ace_engine.specs.Engines.{IsLegal};
ghost use Rattle.ace_master_state.specs.Cached.{HasLowId};
ghost use Rattle.ace_master_state.specs.Kept.{KeptStands, RestStands};

use crate::{Cached, Completions, Identifiers, Monitor, Segment, Syncs};
use ace_event::Event;
use ace_event::laws::every_event_fits;
use ace_io::NoMemory;
use ace_model::{MOST_SNOOPS, PlanView};
use ace_portck::{OnePort, is_at};
use std::alloc::Global;

/// What the master of an ACE port keeps of the trace of a run.
#[derive(Drop)]
pub struct Kept {
    /// Its transactions and snoops under way.
    pub port: OnePort,
    /// The identifiers of its outstanding transactions.
    pub identifiers: Identifiers,
    /// The lines that it holds.
    pub lines: Cached,
    pub monitor: Monitor,
    /// What it has done for its next operation.
    pub segment: Segment,
    /// The DVM Completes that it owes.
    pub completions: Completions,
    /// Whether its last Sync is complete.
    pub syncs: Syncs,
}

impl Kept {
    /// What is kept of the port of a plan, an ACE port, and the empty trace. It takes all the
    /// memory that it will need.
    ///
    /// # Errors
    ///
    /// `NoMemory` where there is none.
    pub fn new(alloc: Global, plan: &PlanView, port: u8) -> Result<Kept, NoMemory>
        requires right { IsRight plan.now.plan }
        requires ace { is_ace plan.now.plan.header port ≡ true }
        ensures { IfOk result (λ s. KeptStands plan.now.plan [] port s) }
    {
        let lines = Cached::new(alloc, plan.ways())?;
        let segment = Segment::new(alloc, port)?;
        let Ok(of_port) = OnePort::new(alloc, plan.header(), port, MOST_SNOOPS) else {
            return Err(NoMemory);
        };
        Ok(Kept {
            port: of_port,
            identifiers: Identifiers::none(),
            lines,
            monitor: Monitor::new(port),
            segment,
            completions: Completions::new(port),
            syncs: Syncs::new(port),
        })
    }

    /// What is kept beside its transactions and snoops hears the next event of the trace, which is
    /// one of the port. It stands apart from the look whether that is so, since most events are of
    /// other ports.
    #[inline(never)]
    fn note_own(&mut self, event: &Event)
        ensures rest { (plan : Plan) (past : Trace) (p : ℕ) → KeptStands plan past p self.old
            → IsLegal plan (event.now ∷ past) → (port_of event.now ≡ Some p → HasLowId event.now)
            → is_at_port p event.now ≡ true
            → RestStands plan (event.now ∷ past) p self.new }
        ensures port { self.new.port ≡ self.old.port }
    {
        let place = self.port.count();
        self.identifiers.hear(&self.port, event);
        self.lines.hear(&self.port, event);
        self.monitor.hear(event, &self.lines);
        self.segment.hear(event, place);
        self.completions.hear(&self.port, event);
        self.syncs.hear(&self.port, event);
    }

    /// What is kept beside its transactions and snoops hears the next event of the trace. Of that
    /// an event of another port says nothing.
    #[inline(always)]
    fn note(&mut self, event: &Event)
        ensures rest { (plan : Plan) (past : Trace) (p : ℕ) → KeptStands plan past p self.old
            → IsLegal plan (event.now ∷ past) → (port_of event.now ≡ Some p → HasLowId event.now)
            → RestStands plan (event.now ∷ past) p self.new }
        ensures port { self.new.port ≡ self.old.port }
    {
        every_event_fits(*event);
        if !is_at(event, self.port.port()) {
            return;
        }
        self.note_own(event);
    }

    /// Hears the next event of the trace.
    #[inline(always)]
    pub fn hear(&mut self, event: &Event)
        ensures { (plan : Plan) (past : Trace) (p : ℕ) → KeptStands plan past p self.old
            → IsLegal plan (event.now ∷ past)
            → (port_of event.now ≡ Some p → HasLowId event.now)
            → KeptStands plan (event.now ∷ past) p self.new }
    {
        self.note(event);
        self.port.hear(event);
    }
}
