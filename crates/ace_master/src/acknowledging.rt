//! Acknowledging: a port ends a transaction that is complete (Arm IHI 0022E, C3.3 and C3.5).

ghost use Rattle.std.specs.Prelude.{◌≡◌, ◌≤◌, ◌+◌, ◌++◌, ◌∷◌, ◌==◌, ℕ, true, false, [], Some, None, IsTrue, find, length};
ghost use Rattle.std.specs.List.{list_any};
ghost use Rattle.std.specs.Option.{option_to_list};
ghost use Rattle.ace_codes.specs.declared.state.LineState.{LineState};
ghost use Rattle.ace_event.specs.declared.header.Header.{Header};
ghost use Rattle.ace_tables.specs.States.{is_among};
ghost use Rattle.ace_model.specs.Accepted.{IsAccepted};
ghost use Rattle.ace_model.specs.Exclusives.{has_failed};
ghost use Rattle.ace_model.specs.Plans.{Plan};
ghost use Rattle.ace_model.specs.ReadRules.{held_of};
ghost use Rattle.ace_model.specs.Trace.{Trace};
ghost use Rattle.ace_model.specs.Transactions.{is_ace, is_exclusive_store};
ghost use Rattle.ace_runs.specs.Bursts.{onto};
ghost use Rattle.ace_runs.specs.MasterSteps.{acknowledge, end_of, end_order, has_due, may_acknowledge};
ghost use Rattle.ace_runs.specs.Operations.{next_operation};
ghost use Rattle.ace_runs.specs.Steps.{most_events};
ghost use Rattle.ace_engine.specs.Engines.{IsLegal};
ghost use Rattle.ace_portck.specs.OnePort.{OnePortStands};
ghost use Rattle.ace_portck.specs.Targets.{progress_of};
ghost use Rattle.ace_portck.specs.declared.target.Progress.{Progress};
ghost use Rattle.ace_master_state.specs.Cached.{CachedStands};
ghost use Rattle.ace_master_state.specs.Kept.{KeptStands};
ghost use Rattle.ace_master.specs.AcePort.{AcePortStands, IsAceTurn};
ghost use Rattle.ace_master.specs.Acknowledging.{IsDue, IsMadeFor, IsTold, closing_for, lacked_and_acknowledge, lacked_for, operation_of};

use crate::ace_port::AcePort;
use crate::kept_burst::{close, hear_all};
use ace_codes::LineState::{I, SC, SD, UC, UD};
use ace_codes::{ArKind, LineState, is_shared, low_bits, passes_dirty};
use ace_engine::Burst;
use ace_event::{Channel, Event};
use ace_master_state::{Cached, Kept};
use ace_model::kinds::{is_line, is_make_unique, read_kind, write_kind};
use ace_model::{Op, Transaction};
use ace_portck::{OnePort, Progress};
use ace_tables::{StateSet, end_read, end_write};

/// A port ends a transaction in the first of these states that it may.
const END_ORDER: [LineState; 5] = [UD, UC, SD, SC, I];

/// The transaction whose acknowledge is due: the read before the write.
fn due(port: &OnePort) -> Option<Progress>
    ensures some { (h : Header) (past : Trace) (p : ℕ) → OnePortStands port.now h past p
        → is_ace h p ≡ true
        → (d : Progress) → result ≡ Some d → IsDue h past p d }
    ensures none { (h : Header) (past : Trace) (p : ℕ) → OnePortStands port.now h past p
        → is_ace h p ≡ true → result ≡ None → has_due h past p ≡ false }
{
    match port.acknowledged(Channel::Read) {
        Some(read) => Some(read),
        None => port.acknowledged(Channel::Write),
    }
}

/// An exclusive store: a CleanUnique with lock 1 (Arm IHI 0022E, C9).
fn is_exclusive_store(x: &Transaction) -> bool
    ensures { result ≡ is_exclusive_store x.now }
{
    x.lock && matches!(read_kind(x), Some(ArKind::CleanUnique))
}

/// It is an exclusive store that failed: the response says OKAY where EXOKAY says that it passed
/// (Arm IHI 0022E, C9).
fn has_failed(due: &Progress) -> bool
    ensures { (h : Header) (past : Trace) (p : ℕ) → IsAccepted h past
        → is_ace h p ≡ true → IsDue h past p due.now
        → result ≡ has_failed past due.now.transaction }
{
    is_exclusive_store(&due.transaction) && low_bits(due.response) == 0
}

/// The state that the port holds of the transaction's line; I where it is no line transaction.
fn held(lines: &Cached, x: &Transaction) -> LineState
    ensures { (h : Header) (ways : ℕ) (past : Trace) (p : ℕ) → CachedStands h ways past p lines.now
        → x.now.port ≡ p → result ≡ held_of h past x.now }
{
    if is_line(x) {
        lines.state(x.addr)
    } else {
        LineState::I
    }
}

/// The first state of the order that is one of these.
fn first_of(states: &StateSet) -> Option<LineState>
    ensures { result ≡ find (λ st. is_among st states.now) end_order }
{
    END_ORDER.iter().copied().find(|st| states.has(*st))
}

/// The state in which the port ends the transaction, if there is one (Arm IHI 0022E, C4).
fn end_state(lines: &Cached, due: &Progress) -> Option<LineState>
    ensures { (h : Header) (ways : ℕ) (past : Trace) (p : ℕ) → CachedStands h ways past p lines.now
        → IsAccepted h past → is_ace h p ≡ true
        → IsDue h past p due.now → result ≡ end_of h past due.now.transaction }
{
    let x = &due.transaction;
    let held = held(lines, x);
    let states = match read_kind(x) {
        Some(kind) => end_read(
            kind,
            held,
            is_shared(due.response),
            passes_dirty(due.response),
            has_failed(due),
        ),
        None => end_write(write_kind(x)?, held),
    };
    first_of(&states)
}

/// The RK of a read, or the WK of a write.
fn acknowledge(x: &Transaction, st: LineState) -> Event
    ensures { acknowledge x.now st ≡ result ∷ [] }
{
    match x.chan {
        Channel::Read => Event::Rk { port: x.port, st },
        Channel::Write => Event::Wk { port: x.port, st },
    }
}

/// The store that a MakeUnique lacks, which the operation makes.
fn store_lacked(due: &Progress, next: Option<Op>) -> Option<Event>
    ensures { (h : Header) (past : Trace) → due.now ≡ progress_of h past due.now.transaction
        → IsMadeFor due.now.transaction next
        → option_to_list result ≡ lacked_for h past due.now.transaction next }
{
    match next {
        Some(Op::Fill { addr, line })
            if read_kind(&due.transaction).is_some_and(is_make_unique) && !due.stored => {
            Some(Event::D {
                port: due.transaction.port,
                addr,
                strobe: u64::MAX,
                x: false,
                line,
            })
        }
        _ => None,
    }
}

/// Puts the acknowledge, and before it the store that a MakeUnique lacks.
fn put_acknowledge(due: &Progress, next: Option<Op>, st: LineState, out: &mut Burst)
    requires { out.old ≡ [] }
    ensures burst { (h : Header) (past : Trace) → due.now ≡ progress_of h past due.now.transaction
        → IsMadeFor due.now.transaction next
        → out.new ≡ lacked_and_acknowledge h past due.now.transaction next st }
    ensures few { length out.new ≤ 2 }
{
    if let Some(store) = store_lacked(due, next) {
        out.push(store);
    }
    out.push(acknowledge(&due.transaction, st));
}

/// Puts what ends the operation, if there is one that can end, and hears it. `refused` says whether
/// an exclusive store of it failed.
fn close_next(kept: &mut Kept, next: Option<Op>, refused: bool, out: &mut Burst)
    requires { length out.old + 2 ≤ most_events }
    ensures burst { (plan : Plan) (past : Trace) (p : ℕ) → KeptStands plan past p kept.old
        → IsTold past p next refused
        → out.new ≡ out.old ++ closing_for plan.header past p next }
    ensures kept { (plan : Plan) (past : Trace) (p : ℕ) → KeptStands plan past p kept.old
        → IsTold past p next refused
        → IsLegal plan (onto (closing_for plan.header past p next) past)
        → KeptStands plan (onto (closing_for plan.header past p next) past) p kept.new }
{
    if let Some(op) = next {
        close(kept, op, refused, out);
    }
}

/// The transaction is one of these.
fn is_one_of(x: &Transaction, issued: &[Transaction]) -> bool
    ensures { result ≡ list_any (λ y. x.now.place == y.place) issued.now }
{
    issued.iter().any(|y| x.place == y.place)
}

impl AcePort {
    /// The port's next operation, where the transaction was issued for it.
    fn operation_of(&self, x: &Transaction) -> Option<Op>
        ensures { (plan : Plan) (past : Trace) → AcePortStands self.now plan past
            → x.now.port ≡ self.now.port
            → result ≡ operation_of plan past self.now.port x.now }
    {
        if is_one_of(x, self.kept.segment.issued()) {
            self.next()
        } else {
            None
        }
    }

    /// Acknowledges the transaction that is due, if there is one: of a read and a write the read. A
    /// MakeUnique for a fill is stored to before. Where the transaction was issued for the port's
    /// next operation, the operation ends with it if it can.
    pub fn acknowledge(&mut self, out: &mut Burst) -> bool
        requires { out.old ≡ [] }
        ensures turn { IsTrue result → (plan : Plan) (past : Trace)
            → AcePortStands self.old plan past → IsAceTurn self.new plan past out.new }
        ensures none { result ≡ false → (plan : Plan) (past : Trace)
            → AcePortStands self.old plan past
            → may_acknowledge (next_operation plan past self.old.port) plan.header
            past self.old.port ≡ false }
        ensures unchanged { result ≡ false → (self.new ≡ self.old) × (out.new ≡ []) }
        ensures port { self.new.port ≡ self.old.port }
    {
        let Some(due) = due(&self.kept.port) else {
            return false;
        };
        let Some(st) = end_state(&self.kept.lines, &due) else {
            return false;
        };
        let next = self.operation_of(&due.transaction);
        put_acknowledge(&due, next, st, out);
        hear_all(&mut self.kept, out);
        close_next(&mut self.kept, next, has_failed(&due), out);
        true
    }
}
