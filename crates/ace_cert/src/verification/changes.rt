//! What an event does to a line.

ghost use Rattle.std.specs.Prelude.{◌≡◌, ◌<◌, ◌*◌, ℕ, Bool, length, min};
ghost use Rattle.ace_event.specs.declared.event.Channel.TheVariants.{Read, Write};
ghost use Rattle.ace_event.specs.declared.event.Event.TheVariants.{M, R};
ghost use Rattle.ace_model.specs.Trace.{Trace};
ghost use Rattle.ace_model.specs.Values.{discards_data, stores_data};
ghost use Rattle.ace_model.specs.Transactions.{issued};
ghost use Rattle.ace_cert.specs.Walk.{AreMarksFit, IsChangeOf, IsKept, by_address, by_memory_write};
ghost use Rattle.ace_cert.specs.Walk.{by_transfer, unchanged};

use super::bursts::{Bytes, burst_in};
use super::kept::{Kept, reading_of, writing_of};
use super::lines::Change;
use super::names::issued;
use ace_codes::{ArKind, AwKind};
use ace_event::{Channel, Event, Line};
use ace_model::Transaction;
use ace_model::kinds::{is_line, read_kind, write_kind};

/// All strobes of a line.
const FULL_LINE: u64 = u64::MAX;

/// The write stores to its line without a cache: WriteUnique, WriteLineUnique, WriteNoSnoop.
fn stores_data(x: &Transaction) -> bool
    ensures { result ≡ stores_data x.now }
{
    matches!(
        write_kind(x),
        Some(AwKind::WriteUnique | AwKind::WriteLineUnique | AwKind::WriteNoSnoop)
    )
}

/// The transaction gives up data that are newer than memory: MakeInvalid.
fn discards_data(x: &Transaction) -> bool
    ensures { result ≡ discards_data x.now }
{
    matches!(read_kind(x), Some(ArKind::MakeInvalid))
}

/// No change of the line.
fn unchanged(addr: u32) -> Change
    ensures { result ≡ unchanged addr }
{
    Change {
        addr,
        named: false,
        written: None,
        opened: None,
        store: None,
    }
}

/// What the AR or AW does to the line of its transaction.
fn by_address(place: usize, event: &Event) -> Option<Change>
    ensures { result ≡ by_address (issued place event.now) }
{
    match issued(place, event) {
        Some(x) if is_line(&x) => Some(Change {
            named: true,
            ..unchanged(x.addr)
        }),
        _ => None,
    }
}

/// What an R does to the line of its transaction, of which memory has this.
fn by_transfer(x: &Transaction, memory: Line) -> Option<Change>
    ensures { result ≡ by_transfer x.now memory }
{
    if is_line(x) && discards_data(x) {
        let store = Some(Bytes {
            strobe: FULL_LINE,
            line: memory,
        });
        return Some(Change {
            store,
            ..unchanged(x.addr)
        });
    }
    None
}

/// What an M of the line does to that of its transaction, which has this burst.
fn by_memory_write(x: &Transaction, line: Line, burst: Bytes) -> Option<Change>
    ensures { result ≡ by_memory_write x.now line burst }
{
    if is_line(x) {
        return Some(Change {
            written: Some(line),
            store: if stores_data(x) { Some(burst) } else { None },
            ..unchanged(x.addr)
        });
    }
    None
}

/// What an R does.
fn transferred(kept: &Kept, place: usize, port: u8, id: u8) -> Option<Change>
    requires few { place < 1048576 }
    requires fit { AreMarksFit kept.now.lines.heads kept.now.lines.marks.items }
    ensures { (past : Trace) (resp word : ℕ) (last : Bool) → IsKept past kept.now
        → place ≡ length past → (l : ℕ) → IsChangeOf past (R port id resp last word) result l }
{
    match reading_of(kept, port, id) {
        Some(read) => {
            let x = read.transaction;
            by_transfer(&x, kept.lines.facts_at(x.addr, place as u32).memory)
        }
        None => None,
    }
}

/// What an M of the line does for a read.
fn written_for_read(kept: &Kept, port: u8, id: u8, line: Line) -> Option<Change>
    ensures { (past : Trace) → IsKept past kept.now
        → (l : ℕ) → IsChangeOf past (M port Read id line) result l }
{
    match reading_of(kept, port, id) {
        Some(read) => {
            let none = Bytes { strobe: 0, line };
            by_memory_write(&read.transaction, line, none)
        }
        None => None,
    }
}

/// How many beats of its port come before those of a write with so many before it.
fn first_beat(earlier: u32) -> u32
    ensures { result ≡ min (earlier * 4) 4294967292 }
{
    earlier.saturating_mul(4).min(4294967292)
}

/// What an M of the line does for a write.
fn written_for_write(kept: &Kept, port: u8, id: u8, line: Line) -> Option<Change>
    ensures { (past : Trace) → IsKept past kept.now → length past < 1048576
        → (l : ℕ) → IsChangeOf past (M port Write id line) result l }
{
    match writing_of(kept, port, id) {
        Some(write) => {
            let first = first_beat(write.earlier);
            let burst = burst_in(&kept.beats, port, first);
            by_memory_write(&write.transaction, line, burst)
        }
        None => None,
    }
}

/// What an M of the line does.
fn written(kept: &Kept, port: u8, chan: Channel, id: u8, line: Line) -> Option<Change>
    ensures { (past : Trace) → IsKept past kept.now → length past < 1048576
        → (l : ℕ) → IsChangeOf past (M port chan id line) result l }
{
    match chan {
        Channel::Read => written_for_read(kept, port, id, line),
        Channel::Write => written_for_write(kept, port, id, line),
    }
}

/// What the event does to a line, with so many events before it.
pub(super) fn change_of(kept: &Kept, place: usize, event: &Event) -> Option<Change>
    requires few { place < 1048576 }
    requires fit { AreMarksFit kept.now.lines.heads kept.now.lines.marks.items }
    ensures { (past : Trace) → IsKept past kept.now → place ≡ length past
        → (l : ℕ) → IsChangeOf past event.now result l }
{
    match *event {
        Event::Ar { .. } | Event::Aw { .. } => by_address(place, event),
        Event::R { port, id, .. } => transferred(kept, place, port, id),
        Event::M {
            port,
            chan,
            id,
            line,
        } => written(kept, port, chan, id, line),
        Event::D {
            addr,
            strobe,
            line,
            ..
        } => Some(Change {
            store: Some(Bytes { strobe, line }),
            ..unchanged(addr)
        }),
        Event::Mem { addr, line } => Some(Change {
            written: Some(line),
            opened: Some(line),
            ..unchanged(addr)
        }),
        _ => None,
    }
}
