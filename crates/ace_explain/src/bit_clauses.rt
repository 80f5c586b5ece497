//! The clauses of K19: PassDirty and IsShared of an R.

ghost use Rattle.std.specs.Prelude.{◌≡◌, ◌||◌, ℕ, Bool, true, Some};
ghost use Rattle.ace_codes.specs.Responses.{is_shared, passes_dirty};
ghost use Rattle.ace_event.specs.declared.event.Channel.TheVariants.{Read};
ghost use Rattle.ace_event.specs.declared.event.Event.TheVariants.{R};
ghost use Rattle.ace_model.specs.Grants.{has_passed_data, is_granted};
ghost use Rattle.ace_model.specs.Kinds.{is_read_not_shared_dirty, may_be_shared};
ghost use Rattle.ace_model.specs.ReadRules.{must_be_shared};
ghost use Rattle.ace_model.specs.Trace.{implies, is_some_and};
ghost use Rattle.ace_model.specs.Transactions.{is_ace, is_line, outstanding, read_kind};
ghost use Rattle.ace_portck.specs.Stands.{Stands as PortsTell};
ghost use Rattle.ace_portck.specs.Targets.{Recording};
ghost use Rattle.ace_lineck.specs.Stands.{Stands as LinesTell};
ghost use Rattle.ace_clauses.specs.ReadClauses.{has_not_both};
ghost use Rattle.ace_explain.specs.Names.{Names};

use crate::read_clauses::named_read;
use ace_clauses::Letter;
use ace_codes::{ArKind, is_shared, passes_dirty};
use ace_event::{Event, Header};
use ace_lineck::LineCheck;
use ace_model::Transaction;
use ace_model::kinds::{is_ace, is_line, read_kind};
use ace_portck::PortCheck;

/// The outstanding read, which has its grant where it has a line, has passed data.
fn has_passed_data(lines: &LineCheck, x: &Transaction) -> bool
    ensures { (r : Recording) (p i : ℕ) → LinesTell lines.now r
        → outstanding r.header r.past p Read i ≡ Some x.now
        → implies (is_line x.now) (is_granted r.header r.past x.now) ≡ true
        → result ≡ has_passed_data r.header r.past x.now }
{
    if !is_line(x) {
        return false;
    }
    lines.has_passed_data(lines.place(Some(x.addr)))
}

/// The response of the outstanding read, which has its grant where it has a line, has to say
/// IsShared.
fn must_be_shared(lines: &LineCheck, x: &Transaction) -> bool
    ensures { (r : Recording) (p i : ℕ) → LinesTell lines.now r
        → outstanding r.header r.past p Read i ≡ Some x.now
        → implies (is_line x.now) (is_granted r.header r.past x.now) ≡ true
        → result ≡ is_some_and (read_kind x.now) (must_be_shared r.header r.past x.now) }
{
    if !is_line(x) {
        return false;
    }
    lines.must_be_shared(lines.place(Some(x.addr)), x)
}

/// A response to a read of this kind may say IsShared.
fn may_be_shared(kind: ArKind) -> bool
    ensures { result ≡ may_be_shared kind }
{
    matches!(
        kind,
        ArKind::ReadOnce
            | ArKind::ReadShared
            | ArKind::ReadClean
            | ArKind::ReadNotSharedDirty
            | ArKind::CleanShared
    )
}

fn is_read_not_shared_dirty(kind: ArKind) -> bool
    ensures { result ≡ is_read_not_shared_dirty kind }
{
    matches!(kind, ArKind::ReadNotSharedDirty)
}

/// PassDirty is 0 where no data were passed.
fn fits_passed(resp: u8, passed: bool) -> bool
    ensures { result ≡ implies (passes_dirty resp) passed }
{
    !passes_dirty(resp) || passed
}

/// IsShared is 0 for kinds that keep no shared line.
fn fits_sharing(resp: u8, kind: ArKind) -> bool
    ensures { result ≡ implies (is_shared resp) (may_be_shared kind) }
{
    !is_shared(resp) || may_be_shared(kind)
}

/// A ReadNotSharedDirty has not both bits.
fn has_not_both(resp: u8, kind: ArKind) -> bool
    ensures { result ≡ has_not_both resp kind }
{
    !(is_read_not_shared_dirty(kind) && passes_dirty(resp) && is_shared(resp))
}

/// An ACE-Lite port has neither bit.
fn fits_port(resp: u8, header: &Header, port: u8) -> bool
    ensures { result ≡ implies (passes_dirty resp || is_shared resp) (is_ace header.now port) }
{
    !(passes_dirty(resp) || is_shared(resp)) || is_ace(header, port)
}

/// IsShared is 1 where it has to be.
fn fits_sharer(resp: u8, told: bool) -> bool
    ensures { result ≡ implies told (is_shared resp) }
{
    !told || is_shared(resp)
}

/// K19, of an R of the outstanding read.
fn clause_of_bits(ports: &PortCheck, lines: &LineCheck, x: &Transaction, resp: u8) -> Letter
    ensures { (r : Recording) (p i : ℕ) (last : Bool) (word : ℕ) → PortsTell ports.now r
        → LinesTell lines.now r → outstanding r.header r.past p Read i ≡ Some x.now
        → Names r (R p i resp last word) 19 result }
{
    let Some(kind) = read_kind(x) else {
        return Letter::A;
    };
    if !fits_passed(resp, has_passed_data(lines, x)) {
        return Letter::A;
    }
    if !fits_sharing(resp, kind) {
        return Letter::B;
    }
    if !has_not_both(resp, kind) {
        return Letter::C;
    }
    if !fits_port(resp, ports.header(), x.port) {
        return Letter::D;
    }
    if fits_sharer(resp, must_be_shared(lines, x)) {
        Letter::F
    } else {
        Letter::E
    }
}

/// K19, of an R.
fn clause_of_upper_bits(ports: &PortCheck, lines: &LineCheck, port: u8, id: u8, resp: u8) -> Letter
    ensures { (r : Recording) (last : Bool) (word : ℕ) → PortsTell ports.now r
        → LinesTell lines.now r → Names r (R port id resp last word) 19 result }
{
    let Some(x) = named_read(ports, port, id) else {
        return Letter::A;
    };
    clause_of_bits(ports, lines, &x, resp)
}

/// K19: an R says PassDirty where no data were passed, IsShared of a kind that keeps no shared
/// line, both of a ReadNotSharedDirty, or either of an ACE-Lite port; or it doesn't say IsShared
/// where it has to, or hasn't the two bits of the first.
pub(crate) fn clause_of_k19(ports: &PortCheck, lines: &LineCheck, event: &Event) -> Letter
    ensures { (r : Recording) → PortsTell ports.now r → LinesTell lines.now r
        → Names r event.now 19 result }
{
    match *event {
        Event::R { port, id, resp, .. } => clause_of_upper_bits(ports, lines, port, id, resp),
        _ => Letter::A,
    }
}
