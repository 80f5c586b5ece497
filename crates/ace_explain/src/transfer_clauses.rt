//! The clauses of K18: when an R may come.

ghost use Rattle.std.specs.Prelude.{◌≡◌, ◌==◌, ◌+◌, nat_lt, ℕ, Bool, Some, true};
ghost use Rattle.ace_event.specs.declared.event.Channel.TheVariants.{Read};
ghost use Rattle.ace_event.specs.declared.event.Event.TheVariants.{R};
ghost use Rattle.ace_event.specs.declared.header.Header.{Header};
ghost use Rattle.ace_tables.specs.Answers.{same_test};
ghost use Rattle.ace_model.specs.Exclusives.{has_failed};
ghost use Rattle.ace_model.specs.Grants.{granted, is_granted};
ghost use Rattle.ace_model.specs.Kinds.{beats_of, takes_passed_data};
ghost use Rattle.ace_model.specs.Trace.{Trace, implies};
ghost use Rattle.ace_model.specs.Transactions.{is_line, outstanding, read_kind};
ghost use Rattle.ace_portck.specs.Stands.{Stands as PortsTell};
ghost use Rattle.ace_portck.specs.Targets.{Recording, progress_of};
ghost use Rattle.ace_lineck.specs.Stands.{Stands as LinesTell};
ghost use Rattle.ace_check.specs.Shares.{SharesTell};
ghost use Rattle.ace_clauses.specs.ReadClauses.{are_holders_snooped, are_snoop_data_whole, are_snoops_answered};
ghost use Rattle.ace_explain.specs.Names.{Names};

use crate::line_looks::{
    are_holders_snooped, are_snoop_data_whole, are_snoops_answered, is_granted,
};
use ace_check::Shares;
use ace_clauses::Letter;
use ace_codes::ArKind;
use ace_event::{Channel, Event, Header};
use ace_lineck::LineCheck;
use ace_model::Transaction;
use ace_model::kinds::{beats_of, is_line, read_kind};
use ace_portck::Progress;

/// A read of this kind has transfers left.
fn has_transfers_left(x: &Progress, kind: ArKind) -> bool
    ensures { result ≡ nat_lt x.now.transfers (beats_of kind) }
{
    x.transfers < beats_of(kind)
}

/// The transfer of a read of this kind is the last exactly where it says so.
fn is_counted(x: &Progress, kind: ArKind, last: bool) -> bool
    ensures { result ≡ same_test last (x.now.transfers + 1 == beats_of kind) }
{
    last == (u16::from(x.transfers) + 1 == u16::from(beats_of(kind)))
}

/// The transaction is of no line, or it has its grant.
fn has_its_grant(lines: &LineCheck, x: &Transaction) -> bool
    ensures { (r : Recording) → LinesTell lines.now r
        → result ≡ implies (is_line x.now) (is_granted r.header r.past x.now) }
{
    !is_line(x) || is_granted(lines, x)
}

/// A read of this kind may take passed data.
fn takes_passed_data(kind: ArKind) -> bool
    ensures { result ≡ takes_passed_data kind }
{
    matches!(
        kind,
        ArKind::ReadShared | ArKind::ReadNotSharedDirty | ArKind::ReadUnique
    )
}

/// The read has begun, or the snoops under its grant are answered.
fn is_answered(lines: &LineCheck, header: &Header, x: &Progress, failed: bool) -> bool
    ensures { (r : Recording) → LinesTell lines.now r → header.now ≡ r.header
        → granted r.header r.past x.now.transaction.addr ≡ Some x.now.transaction
        → failed ≡ has_failed r.past x.now.transaction
        → result ≡ implies (x.now.transfers == 0)
        (are_snoops_answered r.header r.past x.now.transaction) }
{
    x.transfers != 0 || are_snoops_answered(lines, header, &x.transaction, failed)
}

/// The read has begun, or the data of the snoops under its grant are whole.
fn is_sent_whole(lines: &LineCheck, header: &Header, x: &Progress, failed: bool) -> bool
    ensures { (r : Recording) → LinesTell lines.now r → header.now ≡ r.header
        → granted r.header r.past x.now.transaction.addr ≡ Some x.now.transaction
        → failed ≡ has_failed r.past x.now.transaction
        → result ≡ implies (x.now.transfers == 0)
        (are_snoop_data_whole r.header r.past x.now.transaction) }
{
    x.transfers != 0 || are_snoop_data_whole(lines, header, &x.transaction, failed)
}

/// The read has begun, or each other holder of the line was snooped under its grant.
fn is_snooped(lines: &LineCheck, header: &Header, x: &Progress, failed: bool) -> bool
    ensures { (r : Recording) → LinesTell lines.now r → header.now ≡ r.header
        → granted r.header r.past x.now.transaction.addr ≡ Some x.now.transaction
        → failed ≡ has_failed r.past x.now.transaction
        → result ≡ implies (x.now.transfers == 0)
        (are_holders_snooped r.header r.past x.now.transaction) }
{
    x.transfers != 0 || are_holders_snooped(lines, header, &x.transaction, failed)
}

/// K18, of an R of the outstanding read, which has transfers left and its grant, and which counts
/// them right.
fn clause_of_beat(
    lines: &LineCheck,
    header: &Header,
    x: &Progress,
    kind: ArKind,
    failed: bool,
) -> Letter
    ensures { (r : Recording) (p i resp : ℕ) (last : Bool) (word : ℕ) → LinesTell lines.now r
        → header.now ≡ r.header → outstanding r.header r.past p Read i ≡ Some x.now.transaction
        → x.now ≡ progress_of r.header r.past x.now.transaction
        → read_kind x.now.transaction ≡ Some kind
        → granted r.header r.past x.now.transaction.addr ≡ Some x.now.transaction
        → failed ≡ has_failed r.past x.now.transaction
        → nat_lt x.now.transfers (beats_of kind) ≡ true
        → same_test last (x.now.transfers + 1 == beats_of kind) ≡ true
        → Names r (R p i resp last word) 18 result }
{
    if !is_answered(lines, header, x, failed) {
        return Letter::E;
    }
    if !is_sent_whole(lines, header, x, failed) {
        return Letter::F;
    }
    if !is_snooped(lines, header, x, failed) {
        return Letter::G;
    }
    if takes_passed_data(kind) {
        Letter::I
    } else {
        Letter::H
    }
}

/// K18, of an R of the outstanding read. `failed` says whether the read, if it has its grant, is an
/// exclusive store that failed.
pub(crate) fn clause_of_transfer(
    lines: &LineCheck,
    header: &Header,
    x: &Progress,
    kind: ArKind,
    last: bool,
    failed: bool,
) -> Letter
    ensures { (r : Recording) (p i resp word : ℕ) → LinesTell lines.now r
        → header.now ≡ r.header → outstanding r.header r.past p Read i ≡ Some x.now.transaction
        → x.now ≡ progress_of r.header r.past x.now.transaction
        → read_kind x.now.transaction ≡ Some kind
        → (granted r.header r.past x.now.transaction.addr ≡ Some x.now.transaction
        → failed ≡ has_failed r.past x.now.transaction)
        → Names r (R p i resp last word) 18 result }
{
    if !has_transfers_left(x, kind) {
        return Letter::B;
    }
    if !is_counted(x, kind, last) {
        return Letter::C;
    }
    if !has_its_grant(lines, &x.transaction) {
        return Letter::D;
    }
    clause_of_beat(lines, header, x, kind, failed)
}

/// K18, of an R.
fn clause_of_r(shares: &Shares, port: u8, id: u8, last: bool) -> Letter
    ensures { (h : Header) (past : Trace) (resp word : ℕ) → SharesTell shares.now h past
        → Names (record { header = h; past = past }) (R port id resp last word) 18 result }
{
    let ports = shares.ports();
    let lines = shares.lines();
    let Some(x) = ports.outstanding(port, Channel::Read, id) else {
        return Letter::A;
    };
    let Some(kind) = read_kind(&x.transaction) else {
        return Letter::B;
    };
    let failed = shares.has_failed_at(lines.place(Some(x.transaction.addr)));
    clause_of_transfer(lines, ports.header(), x, kind, last, failed)
}

/// K18: an R names no outstanding read, or is one too many, or the last where it isn't or the other
/// way round; or its line read isn't granted, or has a snoop that isn't answered, data that aren't
/// whole or a holder that wasn't snooped; or there are passed data that its kind doesn't take, or
/// that it doesn't tell.
pub(crate) fn clause_of_k18(shares: &Shares, event: &Event) -> Letter
    ensures { (h : Header) (past : Trace) → SharesTell shares.now h past
        → Names (record { header = h; past = past }) event.now 18 result }
{
    match *event {
        Event::R { port, id, last, .. } => clause_of_r(shares, port, id, last),
        _ => Letter::A,
    }
}
