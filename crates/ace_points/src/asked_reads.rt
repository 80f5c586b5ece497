// The rules that AR, AW, R and RK ask in earnest.
ghost use Rattle.std.specs.Prelude.{◌≡◌, ◌&&◌, ◌||◌, ℕ, Bool, nat_lt};
ghost use Rattle.ace_codes.specs.declared.state.LineState.{LineState as State};
ghost use Rattle.ace_event.specs.declared.event.Channel.TheVariants.{Write};
ghost use Rattle.ace_event.specs.declared.event.Event.TheVariants.{R, Rk};
ghost use Rattle.ace_lineck.specs.Stands.{Stands as LinesTell};
ghost use Rattle.ace_model.specs.Lines.{is_known};
ghost use Rattle.ace_model.specs.Messages.{is_dvm_completion, is_message_part};
ghost use Rattle.ace_model.specs.Trace.{is_some_and};
ghost use Rattle.ace_model.specs.Transactions.{is_line, read_kind, write_kind};
ghost use Rattle.ace_points.specs.Asked.{asked, asked_by_issue, asked_by_rack, asked_by_transfer, awaits_answers, ends_by_case, has_line_transaction, holds, is_second_half, keeps_apart, may_hold, outstanding_count};
ghost use Rattle.ace_portck.specs.Stands.{Stands as PortsTell};
ghost use Rattle.ace_portck.specs.Targets.{Recording};
ghost use Rattle.ace_sysck.specs.Stands.{Stands as SystemTells};

use crate::asks::{asks, of_three};
use crate::barriers::{answers_early, is_second_half};
use crate::other_ports::has_other_ace;
use crate::outstanding::{has_line_transaction, outstanding_count};
use crate::point::Point;
use crate::states::holds;
use crate::under_grant::{gets_word, has_snooped, is_told};
use ace_codes::{ArKind, AwKind, is_shared, passes_dirty};
use ace_event::{Channel, Header};
use ace_lineck::LineCheck;
use ace_model::Transaction;
use ace_model::kinds::{gives_up, is_line, is_unique_write, read_kind, write_kind};
use ace_portck::{PortCheck, Progress};
use ace_sysck::SysCheck;

/// The transaction is a part of a DVM message.
pub(crate) fn is_message_part(x: &Transaction) -> bool
    ensures { result ≡ is_message_part x.now }
{
    matches!(read_kind(x), Some(ArKind::DvmMessage))
}

/// The transaction is a DVM Complete.
fn is_dvm_completion(x: &Transaction) -> bool
    ensures { result ≡ is_dvm_completion x.now }
{
    matches!(read_kind(x), Some(ArKind::DvmComplete))
}

/// Writes of this kind keep apart from others.
fn keeps_apart(kind: AwKind) -> bool
    ensures { result ≡ keeps_apart kind }
{
    gives_up(kind) || is_unique_write(kind)
}

/// The line transaction is of a line that its port holds.
fn starts_held(lines: &LineCheck, x: &Transaction) -> bool
    ensures { (r : Recording) → LinesTell lines.now r
        → result ≡ (is_line x.now && holds r.header r.past x.now.port x.now.addr) }
{
    is_line(x) && holds(lines, x.port, x.addr)
}

/// The line transaction is of a line that was named before.
fn is_again(lines: &LineCheck, x: &Transaction) -> bool
    ensures { (r : Recording) → LinesTell lines.now r
        → result ≡ (is_line x.now && is_known r.past x.now.addr) }
{
    is_line(x) && lines.knows(lines.place(Some(x.addr)))
}

/// Another transaction of the port on the channel is outstanding.
fn has_another(ports: &PortCheck, x: &Transaction) -> bool
    ensures { (r : Recording) → PortsTell ports.now r
        → result ≡ nat_lt 0 (outstanding_count r.header r.past x.now.port x.now.chan) }
{
    outstanding_count(ports, x.port, x.chan) > 0
}

/// The transaction is of a line, and another line transaction of the port is outstanding.
fn begins_beside(ports: &PortCheck, x: &Transaction) -> bool
    ensures { (r : Recording) → PortsTell ports.now r
        → result ≡ (is_line x.now && has_line_transaction r.header r.past x.now.port) }
{
    is_line(x) && has_line_transaction(ports, x.port)
}

/// The transaction is a part of a message, or a barrier half whose other half is there.
fn is_ordered(system: &SysCheck, x: &Transaction) -> bool
    ensures { (r : Recording) → SystemTells system.now r
        → result ≡ (is_message_part x.now || is_second_half r.past x.now) }
{
    is_message_part(x) || is_second_half(system, x)
}

/// The write keeps apart from others, and another write of the port is outstanding.
fn begins_apart(ports: &PortCheck, x: &Transaction) -> bool
    ensures { (r : Recording) → PortsTell ports.now r
        → result ≡ (is_some_and (write_kind x.now) keeps_apart
        && nat_lt 0 (outstanding_count r.header r.past x.now.port Write)) }
{
    let is_apart = write_kind(x).is_some_and(keeps_apart);
    is_apart && outstanding_count(ports, x.port, Channel::Write) > 0
}

/// The transaction is issued.
pub(crate) fn asked_by_issue(
    ports: &PortCheck,
    lines: &LineCheck,
    system: &SysCheck,
    x: &Transaction,
) -> [Option<Point>; 8]
    ensures { (r : Recording) → PortsTell ports.now r → LinesTell lines.now r
        → SystemTells system.now r → result ≡ asked_by_issue r.header r.past x.now }
{
    [
        asks(4, has_another(ports, x)),
        asks(5, begins_beside(ports, x)),
        asks(6, starts_held(lines, x)),
        asks(7, x.lock),
        asks(8, is_again(lines, x)),
        asks(9, is_ordered(system, x)),
        asks(10, begins_apart(ports, x)),
        asks(38, is_dvm_completion(x)),
    ]
}

/// The transaction is a part of a DVM message that another ACE port has to answer.
fn awaits_answers(header: &Header, x: &Transaction) -> bool
    ensures { result ≡ awaits_answers header.now x.now }
{
    is_message_part(x) && has_other_ace(header, x.port)
}

/// The read has a transfer.
fn asked_by_transfer(
    ports: &PortCheck,
    lines: &LineCheck,
    system: &SysCheck,
    x: &Progress,
) -> [Option<Point>; 8]
    ensures { (r : Recording) → PortsTell ports.now r → LinesTell lines.now r
        → SystemTells system.now r → result ≡ asked_by_transfer r.header r.past x.now }
{
    let header = ports.header();
    let read = &x.transaction;
    [
        asks(18, x.transfers == 0 && has_snooped(lines, header, read)),
        asks(19, is_told(lines, read)),
        asks(20, gets_word(lines, x)),
        asks(21, read.lock),
        asks(34, answers_early(ports, system, read)),
        asks(37, awaits_answers(header, read)),
        None,
        None,
    ]
}

/// An R.
pub(crate) fn asked_at_transfer(
    ports: &PortCheck,
    lines: &LineCheck,
    system: &SysCheck,
    port: u8,
    id: u8,
) -> [Option<Point>; 8]
    ensures { (r : Recording) (resp : ℕ) (last : Bool) (word : ℕ) → PortsTell ports.now r
        → LinesTell lines.now r → SystemTells system.now r
        → result ≡ asked r.header r.past (R port id resp last word) }
{
    match ports.outstanding(port, Channel::Read, id) {
        Some(x) => asked_by_transfer(ports, lines, system, x),
        None => of_three(None, None, None),
    }
}

/// A port may hold the line while a read of this kind is outstanding.
fn may_hold(kind: ArKind) -> bool
    ensures { result ≡ may_hold kind }
{
    matches!(
        kind,
        ArKind::CleanUnique | ArKind::MakeUnique | ArKind::CleanShared
    )
}

/// The end of the read depends on its response, or on what the port holds.
fn ends_by_case(x: &Progress) -> bool
    ensures { result ≡ ends_by_case x.now }
{
    is_shared(x.response)
        || passes_dirty(x.response)
        || read_kind(&x.transaction).is_some_and(may_hold)
}

/// The read is acknowledged.
fn asked_by_rack(ports: &PortCheck, x: &Progress) -> [Option<Point>; 8]
    ensures { (r : Recording) → PortsTell ports.now r
        → result ≡ asked_by_rack r.header r.past x.now }
{
    let reads = outstanding_count(ports, x.transaction.port, Channel::Read);
    of_three(asks(22, reads > 1), asks(23, ends_by_case(x)), None)
}

/// An RK.
pub(crate) fn asked_at_rack(ports: &PortCheck, port: u8) -> [Option<Point>; 8]
    ensures { (r : Recording) (st : State) → PortsTell ports.now r
        → result ≡ asked r.header r.past (Rk port st) }
{
    match ports.acknowledged(port, Channel::Read) {
        Some(x) => asked_by_rack(ports, x),
        None => of_three(None, None, None),
    }
}
