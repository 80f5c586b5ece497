// What the issue of a transaction shows.
ghost use Rattle.std.specs.Prelude.{◌≡◌, is_some};
ghost use Rattle.ace_lineck.specs.Stands.{Stands as LinesTell};
ghost use Rattle.ace_model.specs.Messages.{is_message_part, is_sync_word};
ghost use Rattle.ace_model.specs.Trace.{newer};
ghost use Rattle.ace_model.specs.Transactions.{is_ace};
ghost use Rattle.ace_points.specs.Shown.{barrier_shown, exclusive_shown, issue_shown, kind_shown, message_shown, part_shown, special_shown, start_shown};
ghost use Rattle.ace_portck.specs.Stands.{Stands as PortsTell};
ghost use Rattle.ace_portck.specs.Targets.{Recording};
ghost use Rattle.ace_sysck.specs.Stands.{Stands as SystemTells};

use crate::point::Point;
use crate::states::state_at;
use ace_codes::{ArKind, AwKind, LineState};
use ace_lineck::LineCheck;
use ace_model::Transaction;
use ace_model::kinds::{is_ace, is_line_read, is_line_write, read_kind, write_kind};
use ace_portck::PortCheck;
use ace_sysck::SysCheck;

/// The kind of the transaction.
fn kind_shown(ace: bool, read: Option<ArKind>, write: Option<AwKind>) -> Option<Point>
    ensures { result ≡ kind_shown ace read write }
{
    match (read, write) {
        (Some(kind), _) => Some(Point::Read { ace, kind }),
        (None, Some(kind)) => Some(Point::Write { ace, kind }),
        (None, None) => None,
    }
}

/// An exclusive read.
fn exclusive_shown(x: &Transaction) -> Option<Point>
    ensures { result ≡ exclusive_shown x.now }
{
    if !x.lock {
        return None;
    }
    match read_kind(x) {
        Some(kind) => Some(Point::Exclusive { kind }),
        None => None,
    }
}

/// The read half of a barrier.
fn barrier_shown(ace: bool, x: &Transaction, read: Option<ArKind>) -> Option<Point>
    ensures { result ≡ barrier_shown ace x.now read }
{
    match read {
        Some(ArKind::Barrier) => Some(Point::Barrier { ace, bar: x.bar }),
        _ => None,
    }
}

/// The word of a DVM message is that of a Sync.
#[tactic(auto, using(ace_sysck::proofs::WordLaws::sync_is))]
fn is_sync_word(word: u32) -> bool
    ensures { result ≡ is_sync_word word }
{
    word / 4096 % 8 == 4
}

/// A part of a DVM message, where a first part waits for its second or doesn't.
fn part_shown(waits: bool, x: &Transaction) -> Option<Point>
    ensures { result ≡ part_shown waits x.now }
{
    if waits {
        Some(Point::SecondPart)
    } else if is_sync_word(x.addr) {
        Some(Point::Sync)
    } else {
        None
    }
}

/// The transaction is a part of a DVM message.
fn is_message_part(x: &Transaction) -> bool
    ensures { result ≡ is_message_part x.now }
{
    matches!(read_kind(x), Some(ArKind::DvmMessage))
}

/// A part of a DVM message.
fn message_shown(system: &SysCheck, x: &Transaction) -> Option<Point>
    ensures { (r : Recording) → SystemTells system.now r → result ≡ message_shown r.past x.now }
{
    if is_message_part(x) {
        part_shown(system.messages_of(x.port).first.is_some(), x)
    } else {
        None
    }
}

/// The first of three points that is there.
fn first_of(one: Option<Point>, two: Option<Point>, three: Option<Point>) -> Option<Point>
    ensures { result ≡ newer one (newer two three) }
{
    match (one, two) {
        (Some(point), _) => Some(point),
        (None, Some(point)) => Some(point),
        (None, None) => three,
    }
}

/// What is special of the transaction.
fn special_shown(system: &SysCheck, ace: bool, x: &Transaction) -> Option<Point>
    ensures { (r : Recording) → SystemTells system.now r → ace ≡ is_ace r.header x.now.port
        → result ≡ special_shown r.header r.past x.now }
{
    first_of(
        exclusive_shown(x),
        barrier_shown(ace, x, read_kind(x)),
        message_shown(system, x),
    )
}

/// The state from which it starts.
fn start_shown(held: LineState, read: Option<ArKind>, write: Option<AwKind>) -> Option<Point>
    ensures { result ≡ start_shown held read write }
{
    match (read, write) {
        (Some(kind), _) => {
            if is_line_read(kind) {
                Some(Point::ReadStart { kind, held })
            } else {
                None
            }
        }
        (None, Some(kind)) => {
            if is_line_write(kind) {
                Some(Point::WriteStart { kind, held })
            } else {
                None
            }
        }
        (None, None) => None,
    }
}

/// The transaction is issued.
pub(crate) fn issue_shown(
    ports: &PortCheck,
    lines: &LineCheck,
    system: &SysCheck,
    x: &Transaction,
) -> [Option<Point>; 5]
    ensures { (r : Recording) → PortsTell ports.now r → LinesTell lines.now r
        → SystemTells system.now r → result ≡ issue_shown r.header r.past x.now }
{
    let ace = is_ace(ports.header(), x.port);
    let read = read_kind(x);
    let write = write_kind(x);
    let held = state_at(lines, x.port, x.addr);
    [
        kind_shown(ace, read, write),
        special_shown(system, ace, x),
        Some(Point::Bar { bar: x.bar }),
        Some(Point::Domain { domain: x.dom }),
        start_shown(held, read, write),
    ]
}
