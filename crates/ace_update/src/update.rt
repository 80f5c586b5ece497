//! The engine of memory updates and Evicts.

ghost use Rattle.std.specs.Prelude.{◌≡◌, ◌≢◌, ◌<◌, ◌≤◌, ◌∷◌, ◌++◌, ℕ, Bool, true, false, [], List, Option, Some, None, IfOk, IsTrue, length, option_and_then, slice_get};
ghost use Rattle.ace_event.specs.declared.event.Event.{Event};
ghost use Rattle.ace_event.specs.declared.event.Channel.TheVariants.{Write};
ghost use Rattle.ace_model.specs.declared.transactions.Transaction.{Transaction};
ghost use Rattle.ace_model.specs.Plans.{IsRight, Plan};
ghost use Rattle.ace_model.specs.Progress.{evicts, updates_memory};
ghost use Rattle.ace_model.specs.Trace.{Trace};
ghost use Rattle.ace_runs.specs.Bursts.{may_begin, may_serve, onto};
ghost use Rattle.ace_runs.specs.LineSteps.{update_burst};
ghost use Rattle.ace_engine.specs.Engines.{IsLegal};
ghost use Rattle.ace_portck.specs.Pending.{pending_of};
ghost use Rattle.ace_portck.specs.Targets.{data_of_write, progress_of};
ghost use Rattle.ace_update.specs.Update.{IsDue, IsTurn, UpdateStands};

use crate::passed::PassedLines;
use ace_engine::{Burst, Engine};
use ace_event::{Channel, Event, Line};
use ace_io::NoMemory;
use ace_model::kinds::{evicts, updates_memory};
use ace_model::{MOST_SNOOPS, PlanView, Transaction};
use ace_portck::{PortCheck, Progress, WriteData};
use std::alloc::Global;

/// The engine of memory updates and Evicts: once the data of an update are whole, and the line's
/// granted transaction has no passed data, it writes them to memory and responds; to an Evict it
/// responds at once.
#[derive(Drop)]
pub struct Update {
    ports: PortCheck,
    passed: PassedLines,
}

/// The write has the AWSNOOP of a write past the cache, or of the half of a barrier. Neither a memory
/// update nor an Evict has it, so of most writes that wait this is all that is looked at.
#[inline(always)]
fn goes_past_the_cache(write: &Transaction) -> bool
    ensures updates { result ≡ true → updates_memory write.now ≡ false }
    ensures evicts { result ≡ true → evicts write.now ≡ false }
{
    write.snoop < 2
}

impl Update {
    /// The engine for a plan and the empty trace. It takes all the memory that it will need,
    /// whatever the length of the plan is.
    ///
    /// # Errors
    ///
    /// `NoMemory` where there is none.
    pub fn new(alloc: Global, plan: &PlanView) -> Result<Update, NoMemory>
        requires { IsRight plan.now.plan }
        ensures { IfOk result (λ s. UpdateStands s plan.now.plan []) }
    {
        let Ok(ports) = PortCheck::with_room(alloc, plan.header(), MOST_SNOOPS) else {
            return Err(NoMemory);
        };
        let passed = PassedLines::new(alloc)?;
        Ok(Update { ports, passed })
    }

    /// The burst of a write that has written no memory yet, where it is whole.
    fn data(&self, write: &Transaction) -> Option<WriteData>
        ensures { (plan : Plan) (past : Trace) (p : ℕ) (k : ℕ) → UpdateStands self.now plan past
            → slice_get (pending_of plan.header past p Write) k ≡ Some write.now
            → result ≡ data_of_write past write.now }
    {
        self.ports
            .burst(write.port, Channel::Write, write.id)
            .copied()
    }

    /// An outstanding write may have its burst of step 3. No granted one is an update or an Evict.
    fn is_due(&self, x: &Progress) -> bool
        ensures { (plan : Plan) (past : Trace) (p : ℕ) (k : ℕ) (y : Transaction)
            → UpdateStands self.now plan past → slice_get (pending_of plan.header past p Write) k
            ≡ Some y
            → x.now ≡ progress_of plan.header past y
            → result ≡ may_begin plan.header past (update_burst plan.header past y) }
    {
        let write = &x.transaction;
        if x.granted {
            return false;
        }
        if goes_past_the_cache(write) {
            return false;
        }
        if updates_memory(write) {
            self.data(write).is_some() && !self.passed.has(write.addr)
        } else {
            evicts(write) && !x.complete
        }
    }

    /// The first outstanding write of the port that may have its burst of step 3.
    fn due(&self, port: u8) -> Option<Transaction>
        ensures some { (x : Transaction) → result ≡ Some x → (plan : Plan) (past : Trace)
            → UpdateStands self.now plan past → IsDue plan.header past port x }
        ensures none { result ≡ None → (plan : Plan) (past : Trace)
            → UpdateStands self.now plan past → may_serve update_burst plan.header past port
            ≡ false }
    {
        let writes = self.ports.writes(port);
        for i in 0..writes.len() {
            if self.is_due(&writes[i]) {
                return Some(writes[i].transaction);
            }
        }
        None
    }

    /// Hears the next event of the trace.
    fn note(&mut self, event: &Event)
        ensures { (plan : Plan) (past : Trace) → UpdateStands self.old plan past
            → IsLegal plan (event.now ∷ past) → UpdateStands self.new plan (event.now ∷ past) }
    {
        self.passed.hear(event, &self.ports);
        self.ports.hear(event);
    }

    /// Hears the event, and puts it in the burst.
    fn put(&mut self, event: Event, out: &mut Burst)
        requires { length out.old < 16 }
        ensures stands { (plan : Plan) (past : Trace) → UpdateStands self.old plan past
            → IsLegal plan (event ∷ past) → UpdateStands self.new plan (event ∷ past) }
        ensures burst { out.new ≡ out.old ++ event ∷ [] }
    {
        self.note(&event);
        out.push(event);
    }

    /// Puts the M and the B of a memory update that may have them.
    fn write_memory(&mut self, write: &Transaction, out: &mut Burst)
        requires empty { out.old ≡ [] }
        requires updates { updates_memory write.now ≡ true }
        ensures { (plan : Plan) (past : Trace) (p : ℕ) → UpdateStands self.old plan past
            → IsDue plan.header past p write.now → IsTurn self.new plan past p out.new }
    {
        let Some(data) = self.data(write) else {
            return;
        };
        let written = Event::M {
            port: write.port,
            chan: write.chan,
            id: write.id,
            line: data.line,
        };
        self.put(written, out);
        let response = Event::B {
            port: write.port,
            id: write.id,
            resp: 0,
        };
        self.put(response, out);
    }

    /// Puts the B of an Evict that may have it.
    fn respond(&mut self, write: &Transaction, out: &mut Burst)
        requires empty { out.old ≡ [] }
        requires evicts { updates_memory write.now ≡ false }
        ensures { (plan : Plan) (past : Trace) (p : ℕ) → UpdateStands self.old plan past
            → IsDue plan.header past p write.now → IsTurn self.new plan past p out.new }
    {
        let response = Event::B {
            port: write.port,
            id: write.id,
            resp: 0,
        };
        self.put(response, out);
    }
}

impl Engine for Update {
    ghost use Rattle.std.specs.Prelude.{true};
    ghost use Rattle.ace_engine.specs.Engines.{Update as OfUpdates};
    ghost use Rattle.ace_update.specs.EngineLaws.{grows, legal};
    ghost use Rattle.ace_update.specs.Update.{UpdateStands};

    ghost kind = { OfUpdates };

    ghost serves = { λ _ _. true };

    ghost stands = { UpdateStands };

    ghost legal = { legal };

    ghost grows = { grows };

    fn turn(&mut self, port: u8, out: &mut Burst) -> bool {
        let Some(write) = self.due(port) else {
            return false;
        };
        if updates_memory(&write) {
            self.write_memory(&write, out);
        } else {
            self.respond(&write, out);
        }
        true
    }

    fn hear(&mut self, event: &Event) {
        self.note(event);
    }
}
