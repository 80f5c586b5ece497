//! The events by which a port does what its operations ask.

ghost use Rattle.std.specs.Prelude.{◌≡◌};
ghost use Rattle.ace_runs.specs.Acts.{is_act, is_act_read, is_act_transaction, is_act_write};

use ace_codes::{ArKind, AwKind};
use ace_event::Event;
use ace_model::Transaction;
use ace_model::kinds::{read_kind, write_kind};
use ace_portck::issued;

/// A read of this kind is an act.
fn is_act_read(kind: ArKind) -> bool
    ensures { result ≡ is_act_read kind }
{
    matches!(
        kind,
        ArKind::ReadOnce
            | ArKind::ReadNoSnoop
            | ArKind::CleanShared
            | ArKind::CleanInvalid
            | ArKind::MakeInvalid
            | ArKind::DvmMessage
            | ArKind::Barrier
    )
}

/// A write of this kind is an act.
fn is_act_write(kind: AwKind) -> bool
    ensures { result ≡ is_act_write kind }
{
    matches!(
        kind,
        AwKind::WriteNoSnoop | AwKind::WriteUnique | AwKind::WriteLineUnique | AwKind::Barrier
    )
}

/// The transaction is an act.
pub fn is_act_transaction(transaction: &Transaction) -> bool
    ensures { result ≡ is_act_transaction transaction.now }
{
    read_kind(transaction).is_some_and(is_act_read)
        || write_kind(transaction).is_some_and(is_act_write)
}

/// The event is an act of its port.
pub fn is_act(event: &Event) -> bool
    ensures { result ≡ is_act event.now }
{
    match event {
        Event::L { .. } | Event::D { .. } => true,
        _ => issued(0, event).is_some_and(|x| is_act_transaction(&x)),
    }
}
