//! Whether the reads are right at their places.

ghost use Rattle.std.specs.Prelude.{◌≡◌, ◌<◌, ◌+◌, List, length, min, option_map};
ghost use Rattle.std.specs.Ordering.{nat_cmp};
ghost use Rattle.std.specs.BTreeMap.{get};
ghost use Rattle.ace_event.specs.declared.event.Channel.TheVariants.{Read};
ghost use Rattle.ace_model.specs.Copies.{is_line_read_transaction, word_of};
ghost use Rattle.ace_model.specs.Trace.{Trace, is_some_and, option_filter};
ghost use Rattle.ace_model.specs.Transactions.{transaction_of, transfers};
ghost use Rattle.ace_cert.specs.declared.cert.LineOrder.{LineOrder};
ghost use Rattle.ace_cert.specs.declared.cert.ReadPlace.{ReadPlace};
ghost use Rattle.ace_cert.specs.Checks.{lists_line, load_passes, passes, transfer_passes};
ghost use Rattle.ace_cert.specs.Walk.{AreListed, AreMarksFit, ArePlacesKept, IsKept};
ghost use Rattle.ace_cert.specs.Walk.{is_beat_right_at, seen_at};

use super::kept::{Kept, reading_of};
use super::names::{Reading, issued};
use super::tables::look_up;
use ace_codes::ArKind;
use ace_event::{Event, Line};
use ace_model::Transaction;
use ace_model::kinds::{is_line, read_kind};
use std::collections::BTreeMap;

/// Word k of the line, or 0.
fn word_of(line: &Line, k: usize) -> u128
    ensures { result ≡ word_of line.now k }
{
    if k < 4 { line.words[k] } else { 0 }
}

/// The transaction is a read of a line.
fn is_line_read(x: &Transaction) -> bool
    ensures { result ≡ is_line_read_transaction x.now }
{
    matches!(
        read_kind(x),
        Some(
            ArKind::ReadNoSnoop
                | ArKind::ReadOnce
                | ArKind::ReadShared
                | ArKind::ReadClean
                | ArKind::ReadNotSharedDirty
                | ArKind::ReadUnique
        )
    )
}

/// A load of the word is right at its place.
fn is_load_right(kept: &Kept, place: usize, addr: u32, w: u8, word: u128) -> bool
    requires few { place < 1048576 }
    requires fit { AreMarksFit kept.now.lines.heads kept.now.lines.marks.items }
    ensures { (reads : List ReadPlace) (past : Trace) → IsKept past kept.now
        → ArePlacesKept reads past kept.now.places → place ≡ length past
        → result ≡ load_passes reads past addr w word }
{
    match look_up(&kept.places, place as u64 + 1) {
        Some(placed) => {
            let facts = kept.lines.facts_at(addr, placed.place);
            placed.place as usize == place && word == word_of(&facts.value, w as usize)
        }
        None => false,
    }
}

/// The next beat of the read is right at this place.
fn is_beat_right_at(kept: &Kept, place: usize, read: &Reading, taken: u32, word: u128) -> bool
    requires fit { AreMarksFit kept.now.lines.heads kept.now.lines.marks.items }
    ensures { result ≡ is_beat_right_at kept.now place read.now taken word }
{
    match read.granted {
        Some(granted) => {
            let facts = kept.lines.facts_at(read.transaction.addr, taken);
            taken as usize <= place
                && granted <= taken
                && word == word_of(&facts.value, read.transfers as usize)
        }
        None => false,
    }
}

/// The next beat of the read is right at its place.
fn is_beat_right(kept: &Kept, place: usize, read: &Reading, word: u128) -> bool
    requires fit { AreMarksFit kept.now.lines.heads kept.now.lines.marks.items }
    ensures { result ≡ is_some_and (get nat_cmp kept.now.places
        (min (read.now.transaction.place + 1) 18446744073709551615))
        (λ p. is_beat_right_at kept.now place read.now p.place word) }
{
    let number = (read.transaction.place as u64).saturating_add(1);
    match look_up(&kept.places, number) {
        Some(placed) => is_beat_right_at(kept, place, read, placed.place, word),
        None => false,
    }
}

/// The transfer is right, if it is one of a read of a line.
fn is_transfer_right(kept: &Kept, place: usize, port: u8, id: u8, word: u128) -> bool
    requires few { place < 1048576 }
    requires fit { AreMarksFit kept.now.lines.heads kept.now.lines.marks.items }
    ensures { (reads : List ReadPlace) (past : Trace) → IsKept past kept.now
        → ArePlacesKept reads past kept.now.places → place ≡ length past → result
        ≡ transfer_passes reads past (transaction_of past port Read id) (transfers past port id)
        word }
{
    match reading_of(kept, port, id) {
        Some(read) => {
            !is_line_read(&read.transaction) || is_beat_right(kept, place, &read, word)
        }
        None => true,
    }
}

/// The event is right, if it is a load or a beat of a read of a line.
pub(super) fn passes(kept: &Kept, place: usize, event: &Event) -> bool
    requires few { place < 1048576 }
    requires fit { AreMarksFit kept.now.lines.heads kept.now.lines.marks.items }
    ensures { (reads : List ReadPlace) (past : Trace) → IsKept past kept.now
        → ArePlacesKept reads past kept.now.places → place ≡ length past
        → result ≡ passes reads past event.now }
{
    match *event {
        Event::L { addr, w, word, .. } => is_load_right(kept, place, addr, w, word),
        Event::R { port, id, word, .. } => is_transfer_right(kept, place, port, id, word),
        _ => true,
    }
}

/// The line of the transaction that the event issues is among those listed.
pub(super) fn lists_line(listed: &BTreeMap<u64, u32>, place: usize, event: &Event) -> bool
    ensures { (lines : List LineOrder) → AreListed lines listed.now
        → result ≡ lists_line lines place event.now }
{
    match issued(place, event) {
        Some(x) => !is_line(&x) || look_up(listed, u64::from(x.addr)).is_some(),
        None => true,
    }
}

/// The number of the AR of the port's last read under the identifier, if it is one of a line.
fn shown_by_transfer(kept: &Kept, port: u8, id: u8) -> Option<u64>
    ensures { (past : Trace) → IsKept past kept.now → length past < 1048576
        → result ≡ option_map (λ x. x.place + 1)
        (option_filter is_line_read_transaction (transaction_of past port Read id)) }
{
    match reading_of(kept, port, id) {
        Some(read) => {
            if is_line_read(&read.transaction) {
                Some((read.transaction.place as u64).saturating_add(1))
            } else {
                None
            }
        }
        None => None,
    }
}

/// The number of the read that the event shows: of a load its own, of a beat that of its AR.
pub(super) fn seen_at(kept: &Kept, place: usize, event: &Event) -> Option<u64>
    requires few { place < 1048576 }
    ensures { (past : Trace) → IsKept past kept.now → place ≡ length past
        → result ≡ seen_at past event.now }
{
    match *event {
        Event::L { .. } => Some(place as u64 + 1),
        Event::R { port, id, .. } => shown_by_transfer(kept, port, id),
        _ => None,
    }
}
