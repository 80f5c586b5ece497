//! How the master of an ACE port goes on with its operations.

ghost use Rattle.std.specs.Prelude.{◌≡◌, ◌∷◌, ◌||◌, ℕ, [], true, false, None, Some, IsTrue};
ghost use Rattle.ace_event.specs.declared.event.Channel.TheVariants.{Write};
ghost use Rattle.ace_tables.specs.States.{is_dirty, is_invalid};
ghost use Rattle.ace_model.specs.Plans.{Plan};
ghost use Rattle.ace_model.specs.States.{state_of};
ghost use Rattle.ace_model.specs.Trace.{Trace};
ghost use Rattle.ace_runs.specs.Closing.{closing_of};
ghost use Rattle.ace_runs.specs.MasterSteps.{may_go_on, may_send};
ghost use Rattle.ace_runs.specs.Operations.{next_operation};
ghost use Rattle.ace_runs.specs.Requests.{free_on, moves_of};
ghost use Rattle.ace_master.specs.AcePort.{AcePortStands, IsAceTurn, IsGoingOn};

use crate::ace_port::AcePort;
use crate::kept_burst::{close, hear_all};
use crate::operations::data_of;
use ace_engine::Burst;
use ace_event::Channel;
use ace_master_state::Closing;
use ace_model::Op;
use ace_tables::{is_dirty, is_invalid};

impl AcePort {
    /// Asks for what the port's next operation needs, which doesn't wait and can't end without it,
    /// and ends the operation where it can end then.
    pub fn ask(&mut self, op: Op, out: &mut Burst) -> bool
        requires { out.old ≡ [] }
        ensures turn { IsTrue result → (plan : Plan) (past : Trace)
            → IsGoingOn self.old plan past op → closing_of plan.header past self.old.port op ≡ []
            → may_send plan.header past self.old.port ≡ false
            → IsAceTurn self.new plan past out.new }
        ensures none { result ≡ false → (plan : Plan) (past : Trace)
            → IsGoingOn self.old plan past op → closing_of plan.header past self.old.port op ≡ []
            → moves_of plan.ways plan.header past self.old.port op ≡ [] }
        ensures unchanged { result ≡ false → (self.new ≡ self.old) × (out.new ≡ []) }
        ensures port { self.new.port ≡ self.old.port }
    {
        let Some(asking) = self.asking_for(op) else {
            return false;
        };
        asking.put(out);
        hear_all(&mut self.kept, out);
        close(&mut self.kept, op, false, out);
        self.unsent = data_of(op);
        true
    }

    /// No identifier is free for what the port's next operation asks for, which can't end without
    /// it. It is asked only where a channel has none left, and then looks at no outstanding
    /// transaction.
    fn lacks_identifier(&self, op: Op) -> bool
        ensures { IsTrue result → (plan : Plan) (past : Trace) → AcePortStands self.now plan past
            → next_operation plan past self.now.port ≡ Some op
            → moves_of plan.ways plan.header past self.now.port op ≡ [] }
    {
        if !self.kept.identifiers.is_used_up() {
            return false;
        }
        match self.kept.closing_of(op, false) {
            Closing::Nothing => self.asking_for(op).is_none(),
            _ => false,
        }
    }

    /// No identifier is free for a write of the line past the cache, nor to write the line back
    /// before it. A clean line is given up without one.
    fn cannot_write(&self, addr: u32) -> bool
        ensures free { IsTrue result → (plan : Plan) (past : Trace)
            → AcePortStands self.now plan past
            → free_on plan.header past self.now.port Write ≡ None }
        ensures held { IsTrue result → (plan : Plan) (past : Trace)
            → AcePortStands self.now plan past
            → (is_invalid (state_of plan.header past self.now.port addr)
            || is_dirty (state_of plan.header past self.now.port addr)) ≡ true }
    {
        if self.kept.identifiers.free_on(Channel::Write).is_some() {
            return false;
        }
        let st = self.kept.lines.state(addr);
        is_invalid(st) || is_dirty(st)
    }

    /// The port's next operation lacks an identifier for what it asks for. Of a write past the
    /// cache that is a look at its line.
    fn cannot_ask(&self, op: Op) -> bool
        ensures { IsTrue result → (plan : Plan) (past : Trace) → AcePortStands self.now plan past
            → next_operation plan past self.now.port ≡ Some op
            → moves_of plan.ways plan.header past self.now.port op ≡ [] }
    {
        match op {
            Op::Wu { addr, .. } => self.cannot_write(addr),
            Op::Wlu { addr, .. } => self.cannot_write(addr),
            _ => self.lacks_identifier(op),
        }
    }

    /// The port has asked for what its next operation needs, so that this waits. That is one look,
    /// which goes before all others.
    #[inline(always)]
    fn has_asked(&self, op: Op) -> bool
        ensures { IsTrue result → (plan : Plan) (past : Trace) → AcePortStands self.now plan past
            → next_operation plan past self.now.port ≡ Some op
            → moves_of plan.ways plan.header past self.now.port op ≡ [] }
    {
        self.kept.segment.acts() != 0
    }

    /// Goes on, where no burst of write data is unsent: issues a DVM Complete that the port owes,
    /// else ends its next operation, or asks for what that needs.
    pub fn go_on(&mut self, out: &mut Burst) -> bool
        requires { out.old ≡ [] }
        ensures turn { IsTrue result → (plan : Plan) (past : Trace)
            → AcePortStands self.old plan past → may_send plan.header past self.old.port ≡ false
            → IsAceTurn self.new plan past out.new }
        ensures none { result ≡ false → (plan : Plan) (past : Trace)
            → AcePortStands self.old plan past
            → may_go_on plan.ways (next_operation plan past self.old.port)
            plan.header past self.old.port ≡ false }
        ensures unchanged { result ≡ false → (self.new ≡ self.old) × (out.new ≡ []) }
        ensures port { self.new.port ≡ self.old.port }
    {
        if self.complete(out) {
            return true;
        }
        let Some(op) = self.next() else {
            return false;
        };
        if self.has_asked(op) || self.cannot_ask(op) || self.kept.is_waiting(op) {
            return false;
        }
        self.end(op, out) || self.ask(op, out)
    }
}
