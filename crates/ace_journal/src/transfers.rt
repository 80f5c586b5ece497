// Which transfer of its transaction or of its snoop an event is, by what the checker keeps.
ghost use Rattle.std.specs.Prelude.{◌≡◌};
ghost use Rattle.std.specs.Option.{option_copied};
ghost use Rattle.ace_journal.specs.Transfers.{of_kind, of_read, of_snoop, of_write, one_behind, transfers_in};
ghost use Rattle.ace_portck.specs.Stands.{Stands};
ghost use Rattle.ace_portck.specs.Targets.{Recording};

use ace_codes::ArKind;
use ace_event::{Channel, Event};
use ace_event_words::Transfers;
use ace_model::kinds::{beats_of, read_kind};
use ace_model::{Snoop, Transaction};
use ace_portck::{PortCheck, Progress};

/// How many beats the data of a write or of a snooped line have.
const BEATS: u8 = 4;

/// The one behind so many, of a burst of so many; not numbered where they have all come.
fn one_behind(before: u8, beats: u8) -> Transfers
    ensures { result ≡ one_behind before beats }
{
    if before < beats {
        Transfers::Nth {
            number: before + 1,
            beats,
        }
    } else {
        Transfers::One
    }
}

/// Of a read of the kind.
fn of_kind(kind: Option<ArKind>, before: u8) -> Transfers
    ensures { result ≡ of_kind kind before }
{
    match kind {
        None => Transfers::One,
        Some(kind) => {
            let beats = beats_of(kind);
            if beats == 1 {
                Transfers::One
            } else {
                one_behind(before, beats)
            }
        }
    }
}

/// Of a read that has come so far.
fn of_read(read: Option<&Progress>) -> Transfers
    ensures { result ≡ of_read (option_copied read.entry) }
{
    match read {
        None => Transfers::One,
        Some(x) => of_kind(read_kind(&x.transaction), x.transfers),
    }
}

/// Of a write.
fn of_write(write: &Option<Transaction>, before: u8) -> Transfers
    ensures { result ≡ of_write write.now before }
{
    match write {
        None => Transfers::One,
        Some(_) => one_behind(before, BEATS),
    }
}

/// Of a snooped line.
fn of_snoop(snoop: &Option<Snoop>, before: u8) -> Transfers
    ensures { result ≡ of_snoop snoop.now before }
{
    match snoop {
        None => Transfers::One,
        Some(_) => one_behind(before, BEATS),
    }
}

/// Which of the transfers of its read, of its write or of a snooped line the next event is.
pub fn next_transfers(ports: &PortCheck, event: &Event) -> Transfers
    ensures { (r : Recording) → Stands ports.now r
        → result ≡ transfers_in r.header r.past event.now }
{
    match *event {
        Event::R { port, id, .. } => of_read(ports.outstanding(port, Channel::Read, id)),
        Event::W { port, .. } => of_write(&ports.next_write(port), ports.next_write_beat(port)),
        Event::Cd { port, .. } => of_snoop(&ports.sending(port), ports.next_sent_beat(port)),
        _ => Transfers::One,
    }
}
