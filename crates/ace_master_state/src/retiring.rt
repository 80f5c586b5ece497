//! When the next operation of a port may retire, and with which outcome.

ghost use Rattle.std.specs.Prelude.{◌≡◌, ℕ, not, length};
ghost use Rattle.ace_model.specs.Plans.{Plan};
ghost use Rattle.ace_model.specs.States.{state_of};
ghost use Rattle.ace_tables.specs.StartStates.{starts_write};
ghost use Rattle.ace_model.specs.Trace.{Trace};
ghost use Rattle.ace_runs.specs.Acts.{acts_of};
ghost use Rattle.ace_runs.specs.Requests.{awaits_update};
ghost use Rattle.ace_runs.specs.Retiring.{are_acts_done, is_met, may_fail, may_retire, may_skip};
ghost use Rattle.ace_master_state.specs.Kept.{KeptStands};
ghost use Rattle.ace_master_state.specs.Retiring.{IsToldOf};

use crate::Kept;
use crate::sought::Sought;
use ace_codes::AwKind;
use ace_event::Outcome;
use ace_model::Op;
use ace_tables::{is_invalid, start_write_ok};

/// How many acts an operation has.
fn count_of_acts(op: Op) -> u8
    ensures { result ≡ length (acts_of op) }
{
    match op {
        Op::Pf { .. } | Op::Wb { .. } | Op::Wc { .. } | Op::Ev { .. } | Op::We { .. } => 0,
        Op::Mb | Op::Sb | Op::Dvm2 { .. } => 2,
        _ => 1,
    }
}

impl Kept {
    /// No act that the port has made for its next operation is an outstanding transaction.
    fn are_acts_done(&self) -> bool
        ensures { (plan : Plan) (past : Trace) (p : ℕ) → KeptStands plan past p self.now
            → result ≡ are_acts_done plan.header past p }
    {
        !self.has(Sought::OpenAct)
    }

    /// A memory update that the port issued for its next operation is outstanding.
    pub fn awaits_update(&self) -> bool
        ensures { (plan : Plan) (past : Trace) (p : ℕ) → KeptStands plan past p self.now
            → result ≡ awaits_update plan.header past p }
    {
        self.has(Sought::OpenUpdate)
    }

    /// What holds beside the acts where the operation retires with `ok`.
    fn is_met(&self, op: Op) -> bool
        ensures { (plan : Plan) (past : Trace) (p : ℕ) → KeptStands plan past p self.now
            → result ≡ is_met plan.header past p op }
    {
        match op {
            Op::Pf { addr, kind } => self.has(Sought::EndedRead { kind, addr }),
            Op::Wb { addr } => self.has(Sought::Write {
                kind: AwKind::WriteBack,
                addr,
            }),
            Op::Wc { addr } => self.has(Sought::Write {
                kind: AwKind::WriteClean,
                addr,
            }),
            Op::Ev { addr } => self.has(Sought::Write {
                kind: AwKind::Evict,
                addr,
            }),
            Op::We { addr } => self.has(Sought::Write {
                kind: AwKind::WriteEvict,
                addr,
            }),
            Op::Wu { .. } | Op::Wlu { .. } => true,
            Op::Sync { .. } => self.syncs.has_answered_completion(),
            _ => self.are_acts_done(),
        }
    }

    /// The line isn't in a state from which a write of the kind may start.
    fn is_held_back(&self, kind: AwKind, addr: u32) -> bool
        ensures { (plan : Plan) (past : Trace) (p : ℕ) → KeptStands plan past p self.now
            → result ≡ not (starts_write kind (state_of plan.header past p addr)) }
    {
        !start_write_ok(kind, self.lines.state(addr))
    }

    /// The operation finds nothing to do.
    fn may_skip(&self, op: Op) -> bool
        ensures { (plan : Plan) (past : Trace) (p : ℕ) → KeptStands plan past p self.now
            → result ≡ may_skip plan.header past p op }
    {
        match op {
            Op::Pf { addr, .. } => {
                !is_invalid(self.lines.state(addr)) && !self.has(Sought::Read { addr })
            }
            Op::Wb { addr } => self.is_held_back(AwKind::WriteBack, addr),
            Op::Wc { addr } => self.is_held_back(AwKind::WriteClean, addr),
            Op::Ev { addr } => self.is_held_back(AwKind::Evict, addr),
            Op::We { addr } => self.is_held_back(AwKind::WriteEvict, addr),
            _ => false,
        }
    }

    /// The exclusive store can't be made any more. `refused` says whether the interconnect refused
    /// it.
    fn may_fail(&self, op: Op, refused: bool) -> bool
        ensures { (plan : Plan) (past : Trace) (p : ℕ) → KeptStands plan past p self.now
            → IsToldOf past p op refused → result ≡ may_fail plan.header past p op }
    {
        match op {
            Op::Stx { addr, .. } => !self.monitor.is_set(addr) || refused,
            _ => false,
        }
    }

    /// The port's next operation may retire with the outcome. `refused` says whether the
    /// interconnect refused an exclusive store of it.
    pub fn may_retire(&self, op: Op, outcome: Outcome, refused: bool) -> bool
        ensures { (plan : Plan) (past : Trace) (p : ℕ) → KeptStands plan past p self.now
            → IsToldOf past p op refused → result ≡ may_retire plan.header past p op outcome }
    {
        match outcome {
            Outcome::Ok => self.segment.acts() == count_of_acts(op) && self.is_met(op),
            Outcome::Skip => self.segment.acts() == 0 && self.may_skip(op),
            Outcome::Fail => self.segment.acts() == 0 && self.may_fail(op, refused),
        }
    }
}
