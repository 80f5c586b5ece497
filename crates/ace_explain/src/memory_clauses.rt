//! The clauses of the rules of M, K24 and K25.

ghost use Rattle.std.specs.Prelude.{◌≡◌, ◌||◌, ℕ, Some, true, false};
ghost use Rattle.ace_event.specs.declared.event.Channel.{Channel as Which};
ghost use Rattle.ace_event.specs.declared.event.Event.TheVariants.{M};
ghost use Rattle.ace_event.specs.declared.line.Line.{Line};
ghost use Rattle.ace_model.specs.Grants.{is_granted};
ghost use Rattle.ace_model.specs.Kinds.{has_write_data};
ghost use Rattle.ace_model.specs.Progress.{updates_memory};
ghost use Rattle.ace_model.specs.States.{are_snoops_done};
ghost use Rattle.ace_model.specs.Trace.{is_some_and};
ghost use Rattle.ace_model.specs.Transactions.{is_read, outstanding, write_kind};
ghost use Rattle.ace_model.specs.Writes.{is_burst_whole};
ghost use Rattle.ace_portck.specs.Stands.{Stands as PortsTell};
ghost use Rattle.ace_portck.specs.Targets.{Recording, progress_of};
ghost use Rattle.ace_lineck.specs.Stands.{Stands as LinesTell};
ghost use Rattle.ace_explain.specs.Names.{Names};

use crate::line_looks::{are_snoops_done, has_passed, is_granted};
use ace_clauses::Letter;
use ace_codes::AwKind;
use ace_event::{Channel, Event};
use ace_lineck::LineCheck;
use ace_model::Transaction;
use ace_model::kinds::{has_write_data, updates_memory, write_kind};
use ace_portck::{PortCheck, Progress};

/// It is a write with data.
fn sends_data(x: &Transaction) -> bool
    ensures { result ≡ is_some_and (write_kind x.now) has_write_data }
{
    match write_kind(x) {
        None => false,
        Some(kind) => has_write_data(kind),
    }
}

/// The burst of the outstanding write with data is whole.
fn is_burst_whole(ports: &PortCheck, x: &Progress) -> bool
    ensures { (r : Recording) (p : ℕ) (c : Which) (i : ℕ) → PortsTell ports.now r
        → outstanding r.header r.past p c i ≡ Some x.now.transaction
        → x.now ≡ progress_of r.header r.past x.now.transaction
        → is_read x.now.transaction.chan ≡ false
        → is_some_and (write_kind x.now.transaction) has_write_data ≡ true
        → result ≡ is_burst_whole r.past x.now.transaction }
{
    if x.written {
        return true;
    }
    let y = &x.transaction;
    match ports.burst(y.port, y.chan, y.id) {
        None => false,
        Some(_) => true,
    }
}

/// The write is a memory update, or it has its grant.
fn has_its_grant(lines: &LineCheck, x: &Transaction) -> bool
    ensures { (r : Recording) → LinesTell lines.now r
        → result ≡ (updates_memory x.now || is_granted r.header r.past x.now) }
{
    updates_memory(x) || is_granted(lines, x)
}

/// The outstanding write is a memory update, or its snoops are done.
fn has_its_snoops(ports: &PortCheck, lines: &LineCheck, x: &Transaction) -> bool
    ensures { (r : Recording) (p : ℕ) (c : Which) (i : ℕ) → PortsTell ports.now r
        → LinesTell lines.now r → outstanding r.header r.past p c i ≡ Some x.now
        → is_read x.now.chan ≡ false
        → (updates_memory x.now || is_granted r.header r.past x.now) ≡ true
        → result ≡ (updates_memory x.now || are_snoops_done r.header r.past x.now) }
{
    updates_memory(x) || are_snoops_done(lines, ports.header(), x, false)
}

/// K24, of an M of the outstanding write with data.
fn clause_of_burst(ports: &PortCheck, lines: &LineCheck, x: &Progress) -> Letter
    ensures { (r : Recording) (p : ℕ) (c : Which) (i : ℕ) (line : Line) → PortsTell ports.now r
        → LinesTell lines.now r → outstanding r.header r.past p c i ≡ Some x.now.transaction
        → x.now ≡ progress_of r.header r.past x.now.transaction
        → is_read x.now.transaction.chan ≡ false
        → is_some_and (write_kind x.now.transaction) has_write_data ≡ true
        → Names r (M p c i line) 24 result }
{
    if !is_burst_whole(ports, x) {
        return Letter::E;
    }
    if !has_its_grant(lines, &x.transaction) {
        return Letter::F;
    }
    if !has_its_snoops(ports, lines, &x.transaction) {
        return Letter::G;
    }
    if x.written { Letter::H } else { Letter::I }
}

/// K24, of an M of the outstanding read.
fn clause_of_passed(lines: &LineCheck, x: &Progress) -> Letter
    ensures { (r : Recording) (p : ℕ) (c : Which) (i : ℕ) (line : Line) → LinesTell lines.now r
        → outstanding r.header r.past p c i ≡ Some x.now.transaction
        → x.now ≡ progress_of r.header r.past x.now.transaction
        → is_read x.now.transaction.chan ≡ true → Names r (M p c i line) 24 result }
{
    if !has_passed(lines, &x.transaction) {
        return Letter::B;
    }
    if x.transfers == 0 {
        Letter::C
    } else {
        Letter::D
    }
}

/// K24, of an M of the outstanding transaction.
fn clause_of_written(ports: &PortCheck, lines: &LineCheck, x: &Progress) -> Letter
    ensures { (r : Recording) (p : ℕ) (c : Which) (i : ℕ) (line : Line) → PortsTell ports.now r
        → LinesTell lines.now r → outstanding r.header r.past p c i ≡ Some x.now.transaction
        → x.now ≡ progress_of r.header r.past x.now.transaction
        → Names r (M p c i line) 24 result }
{
    match x.transaction.chan {
        Channel::Read => clause_of_passed(lines, x),
        Channel::Write => {
            if sends_data(&x.transaction) {
                clause_of_burst(ports, lines, x)
            } else {
                Letter::A
            }
        }
    }
}

/// K24, of an M.
fn clause_of_m(ports: &PortCheck, lines: &LineCheck, port: u8, chan: Channel, id: u8) -> Letter
    ensures { (r : Recording) (line : Line) → PortsTell ports.now r → LinesTell lines.now r
        → Names r (M port chan id line) 24 result }
{
    match ports.outstanding(port, chan, id) {
        None => Letter::A,
        Some(x) => clause_of_written(ports, lines, x),
    }
}

/// K24: an M names no outstanding transaction with data; a read that was passed no dirty line, or
/// not yet a whole one, or that has had a transfer; or a write whose burst isn't whole, that isn't
/// granted, whose snoops aren't done, that has had its M, or that waits for passed data.
pub(crate) fn clause_of_k24(ports: &PortCheck, lines: &LineCheck, event: &Event) -> Letter
    ensures { (r : Recording) → PortsTell ports.now r → LinesTell lines.now r
        → Names r event.now 24 result }
{
    match *event {
        Event::M { port, chan, id, .. } => clause_of_m(ports, lines, port, chan, id),
        _ => Letter::A,
    }
}

/// K25, of an M of the outstanding transaction.
fn clause_of_data(x: &Transaction) -> Letter
    ensures { (r : Recording) (p : ℕ) (c : Which) (i : ℕ) (line : Line)
        → outstanding r.header r.past p c i ≡ Some x.now → Names r (M p c i line) 25 result }
{
    match write_kind(x) {
        None => Letter::A,
        Some(AwKind::WriteUnique) => Letter::C,
        Some(AwKind::WriteNoSnoop) => Letter::D,
        Some(_) => Letter::B,
    }
}

/// K25: the line of an M isn't the passed line, for a read; or the burst, for a memory update or
/// WriteLineUnique; or the burst in the newest line, for a WriteUnique, or in memory, for a
/// WriteNoSnoop.
pub(crate) fn clause_of_k25(ports: &PortCheck, event: &Event) -> Letter
    ensures { (r : Recording) → PortsTell ports.now r → Names r event.now 25 result }
{
    let Event::M { port, chan, id, .. } = *event else {
        return Letter::A;
    };
    match ports.outstanding(port, chan, id) {
        None => Letter::A,
        Some(x) => clause_of_data(&x.transaction),
    }
}
