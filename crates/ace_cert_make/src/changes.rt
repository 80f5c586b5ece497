//! What an event changes of a line.

ghost use Rattle.std.specs.Prelude.{◌≡◌, ◌+◌, ◌∷◌, ℕ, length};
ghost use Rattle.ace_event.specs.declared.header.Header.{Header};
ghost use Rattle.ace_model.specs.Trace.{Trace};
ghost use Rattle.ace_model.specs.Values.{discards_data, stores_data};
ghost use Rattle.ace_portck.specs.Stands.{Stands as Tell};
ghost use Rattle.std.specs.Option.{option_copied};
ghost use Rattle.ace_cert_make.specs.Changes.{answering, discarding, granting, writing};
ghost use Rattle.ace_cert_make.specs.Next.{IsNext};
ghost use Rattle.ace_cert_make.specs.Tracks.{changed_to, track_of};

use crate::track::{Change, LineChange};
use ace_codes::{ArKind, AwKind, transfers_data};
use ace_event::{Channel, Event};
use ace_model::kinds::{is_line, read_kind, snoops_a_line, write_kind};
use ace_model::{Snoop, Transaction};
use ace_portck::{PortCheck, Progress};

/// The write stores to its line without a cache: WriteUnique, WriteLineUnique, WriteNoSnoop.
fn stores_data(x: &Transaction) -> bool
    ensures { result ≡ stores_data x.now }
{
    matches!(
        write_kind(x),
        Some(AwKind::WriteUnique | AwKind::WriteLineUnique | AwKind::WriteNoSnoop)
    )
}

/// The transaction gives up data that are newer than memory: MakeInvalid.
fn discards_data(x: &Transaction) -> bool
    ensures { result ≡ discards_data x.now }
{
    matches!(read_kind(x), Some(ArKind::MakeInvalid))
}

/// Its line is granted to the transaction, if it has one.
fn granting(x: Option<&Progress>) -> Option<LineChange>
    ensures { result ≡ granting (option_copied x.entry) }
{
    match x {
        Some(x) if is_line(&x.transaction) => Some(LineChange {
            line: x.transaction.addr,
            change: Change::Grant,
        }),
        _ => None,
    }
}

/// The transaction writes memory of its line, if it has one.
fn writing(x: Option<&Progress>) -> Option<LineChange>
    ensures { result ≡ writing (option_copied x.entry) }
{
    match x {
        Some(x) if is_line(&x.transaction) => Some(LineChange {
            line: x.transaction.addr,
            change: Change::Write {
                stores: stores_data(&x.transaction),
            },
        }),
        _ => None,
    }
}

/// The transaction stores to its line at a beat, if it is a MakeInvalid.
fn discarding(x: Option<&Progress>) -> Option<LineChange>
    ensures { result ≡ discarding (option_copied x.entry) }
{
    match x {
        Some(x) if is_line(&x.transaction) && discards_data(&x.transaction) => Some(LineChange {
            line: x.transaction.addr,
            change: Change::Store,
        }),
        _ => None,
    }
}

/// The snoop is answered with this response, where it is one of a line and data come with it.
fn answering(resp: u8, snoop: Option<&Snoop>) -> Option<LineChange>
    ensures { result ≡ answering resp (option_copied snoop.entry) }
{
    match snoop {
        Some(snoop) if transfers_data(resp) && snoops_a_line(snoop.snoop) => Some(LineChange {
            line: snoop.addr,
            change: Change::Answer {
                snooped: snoop.place,
            },
        }),
        _ => None,
    }
}

/// What the event changes of a line. The ports are those before the event.
pub fn change_of(event: &Event, ports: &PortCheck) -> Option<LineChange>
    ensures { (h : Header) (past : Trace) → Tell ports.now (record { header = h; past = past })
        → IsNext h past event.now → (l : ℕ)
        → track_of (event.now ∷ past) l
        ≡ changed_to result (length past + 1) l (track_of past l) }
{
    match *event {
        Event::G { port, chan, id } => granting(ports.outstanding(port, chan, id)),
        Event::M { port, chan, id, .. } => writing(ports.outstanding(port, chan, id)),
        Event::R { port, id, .. } => discarding(ports.outstanding(port, Channel::Read, id)),
        Event::D { addr, .. } => Some(LineChange {
            line: addr,
            change: Change::Store,
        }),
        Event::Cr { port, resp, .. } => answering(resp, ports.answered(port)),
        _ => None,
    }
}
