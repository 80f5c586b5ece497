//! Whether a certificate is one, by one pass over the trace.

ghost use Rattle.std.specs.Prelude.{◌≡◌, ◌≤◌, ◌<◌, ◌↔◌, ◌==◌, ◌&&◌, ◌∷◌, [], ℕ, true, List, length};
ghost use Rattle.std.specs.Prelude.{reverse, if◌then◌else◌, option_map, IfOk, OnOk};
ghost use Rattle.std.specs.Ordering.{nat_cmp};
ghost use Rattle.std.specs.BTreeMap.{get};
ghost use Rattle.ace_event.specs.declared.event.Event.TheVariants.{Aw};
ghost use Rattle.ace_model.specs.Trace.{Trace, is_some_and};
ghost use Rattle.ace_cert.specs.declared.cert.LineOrder.{LineOrder};
ghost use Rattle.ace_cert.specs.declared.cert.ReadPlace.{ReadPlace};
ghost use Rattle.ace_cert.specs.Certificates.{IsCertificate};
ghost use Rattle.ace_cert.specs.Checks.{all_pass, lists_line, passes};
ghost use Rattle.ace_cert.specs.Walk.{AreLinesAfter, AreLinesKept, AreListed, AreMarksFit};
ghost use Rattle.ace_cert.specs.Walk.{ArePlacesKept};
ghost use Rattle.ace_cert.specs.Walk.{HasBytes, IsKept, counts_in, seen_one};

mod bursts;
mod changes;
mod ends;
mod kept;
mod lines;
mod names;
mod places;
mod reads;
mod tables;
#[cfg(test)]
mod tests;

use crate::cert::Cert;
use ace_event::{Event, Header};
use ace_io::NoMemory;
use bursts::{Counts, counts_in, hear_beats, hear_counts};
use changes::change_of;
use ends::{are_in_order, are_orders, are_seen, lines_rise, reads_rise};
use kept::Kept;
use lines::{Change, Lines};
use names::{hear_reads, hear_writes};
use places::{Placed, listed_of, places_of, see};
use reads::{lists_line, passes, seen_at};
use std::alloc::Global;
use std::collections::BTreeMap;

/// An identifier is a byte. It does no work.
fn every_id_is_a_byte(event: &Event)
    ensures { HasBytes event.now }
{
    match *event {
        Event::Ar { id, .. } | Event::R { id, .. } | Event::Aw { id, .. } | Event::G { id, .. } => {
            let _id = id;
        }
        _ => {}
    }
}

/// Sees the read that an event shows, if it shows one.
fn see_read(places: &mut BTreeMap<u64, Placed>, number: Option<u64>) -> Result<(), NoMemory>
    ensures { OnOk result ((k : ℕ) → get nat_cmp places.new k
        ≡ (if is_some_and number (λ m. m == k) then option_map seen_one (get nat_cmp places.old k)
        else get nat_cmp places.old k)) }
{
    match number {
        Some(number) => see(places, number),
        None => Ok(()),
    }
}

/// Makes the change of the event with the number, if it makes one.
fn change_line(lines: &mut Lines, number: u32, change: Option<Change>) -> Result<(), NoMemory>
    requires { AreMarksFit lines.old.heads lines.old.marks.items }
    ensures changed { OnOk result (AreLinesAfter number change lines.old lines.new) }
    ensures fit { OnOk result (AreMarksFit lines.new.heads lines.new.marks.items) }
{
    match change {
        Some(change) => lines.apply(number, &change),
        None => Ok(()),
    }
}

/// How many writes with data the port of the event has issued, if it is an AW.
fn earlier_writes(counts: &BTreeMap<u64, Counts>, event: &Event) -> u32
    ensures { (q j addr snoop dom bar : ℕ) → event.now ≡ Aw q j addr snoop dom bar
        → result ≡ (counts_in counts.now q).writes }
{
    match *event {
        Event::Aw { port, .. } => counts_in(counts, port).writes,
        _ => 0,
    }
}

/// Hears the next event, with so many before it.
fn hear(kept: &mut Kept, place: usize, event: &Event) -> Result<(), NoMemory>
    requires few { place < 1048576 }
    requires fit { AreMarksFit kept.old.lines.heads kept.old.lines.marks.items }
    ensures kept { (reads : List ReadPlace) (past : Trace) → IsKept past kept.old
        → ArePlacesKept reads past kept.old.places → place ≡ length past
        → OnOk result (IsKept (event.now ∷ past) kept.new
        × ArePlacesKept reads (event.now ∷ past) kept.new.places) }
    ensures fit { OnOk result (AreMarksFit kept.new.lines.heads kept.new.lines.marks.items) }
{
    let seen = seen_at(kept, place, event);
    let change = change_of(kept, place, event);
    let earlier = earlier_writes(&kept.counts, event);
    every_id_is_a_byte(event);
    match see_read(&mut kept.places, seen) {
        Ok(()) => {}
        Err(none) => return Err(none),
    }
    match change_line(&mut kept.lines, place as u32 + 1, change) {
        Ok(()) => {}
        Err(none) => return Err(none),
    }
    match hear_reads(&mut kept.reads, place, event) {
        Ok(()) => {}
        Err(none) => return Err(none),
    }
    match hear_writes(&mut kept.writes, place, earlier, event) {
        Ok(()) => {}
        Err(none) => return Err(none),
    }
    match hear_beats(&mut kept.beats, &kept.counts, event) {
        Ok(()) => {}
        Err(none) => return Err(none),
    }
    hear_counts(&mut kept.counts, event)
}

/// The event is right: its line is listed, and it passes.
fn is_right(kept: &Kept, listed: &BTreeMap<u64, u32>, place: usize, event: &Event) -> bool
    requires few { place < 1048576 }
    requires fit { AreMarksFit kept.now.lines.heads kept.now.lines.marks.items }
    ensures { (lines : List LineOrder) (reads : List ReadPlace) (past : Trace)
        → IsKept past kept.now → ArePlacesKept reads past kept.now.places
        → AreListed lines listed.now → place ≡ length past
        → result ≡ (lists_line lines place event.now && passes reads past event.now) }
{
    lists_line(listed, place, event) && passes(kept, place, event)
}

/// Each event of the trace passes. What is kept stands for the empty trace at first.
fn walk(kept: &mut Kept, listed: &BTreeMap<u64, u32>, trace: &[Event]) -> Result<bool, NoMemory>
    requires few { length trace.now ≤ 1048576 }
    requires fit { AreMarksFit kept.old.lines.heads kept.old.lines.marks.items }
    ensures passes { (lines : List LineOrder) (reads : List ReadPlace) → IsKept [] kept.old
        → ArePlacesKept reads [] kept.old.places → AreListed lines listed.now
        → IfOk result (λ right. right ≡ all_pass lines reads (reverse trace.now)) }
    ensures kept { (reads : List ReadPlace) → IsKept [] kept.old
        → ArePlacesKept reads [] kept.old.places → IfOk result (λ right. right ≡ true
        → IsKept (reverse trace.now) kept.new
        × ArePlacesKept reads (reverse trace.now) kept.new.places) }
    ensures fit { IfOk result (λ right. right ≡ true
        → AreMarksFit kept.new.lines.heads kept.new.lines.marks.items) }
{
    for place in 0..trace.len() {
        let event = &trace[place];
        if !is_right(kept, listed, place, event) {
            return Ok(false);
        }
        match hear(kept, place, event) {
            Ok(()) => {}
            Err(none) => return Err(none),
        }
    }
    Ok(true)
}

/// What is kept of the lines of the empty trace.
fn no_lines(alloc: Global) -> Lines
    ensures kept { AreLinesKept [] result.heads result.marks.items result.numbers }
    ensures fit { AreMarksFit result.heads result.marks.items }
{
    let heads = BTreeMap::new(alloc);
    let marks = Vec::new(alloc);
    let numbers = BTreeMap::new(alloc);
    Lines {
        heads,
        marks,
        numbers,
    }
}

/// What is kept of the empty trace, with these places of reads.
fn nothing(alloc: Global, places: BTreeMap<u64, Placed>) -> Kept
    ensures kept { IsKept [] result }
    ensures places { result.places ≡ places }
    ensures fit { AreMarksFit result.lines.heads result.lines.marks.items }
{
    let reads = BTreeMap::new(alloc);
    let writes = BTreeMap::new(alloc);
    let counts = BTreeMap::new(alloc);
    let beats = BTreeMap::new(alloc);
    let lines = no_lines(alloc);
    Kept {
        reads,
        writes,
        counts,
        beats,
        lines,
        places,
    }
}

/// Whether the certificate is one of the trace. The header isn't looked at: it says nothing of
/// reads and stores. The time grows with the events, with the certificate, and at each beat of a
/// read with what happened to its line since its place, each by the logarithm of what is kept.
///
/// # Errors
///
/// `NoMemory`.
pub fn verify(
    alloc: Global,
    _header: &Header,
    trace: &[Event],
    cert: &Cert,
) -> Result<bool, NoMemory>
    requires { length trace.now ≤ 1048576 }
    ensures { IfOk result (λ right. (right ≡ true) ↔ IsCertificate (reverse trace.now) cert.now) }
{
    if !lines_rise(&cert.lines) {
        return Ok(false);
    }
    if !reads_rise(&cert.reads) {
        return Ok(false);
    }
    let listed = match listed_of(alloc, &cert.lines) {
        Ok(listed) => listed,
        Err(none) => return Err(none),
    };
    let places = match places_of(alloc, &cert.reads) {
        Ok(places) => places,
        Err(none) => return Err(none),
    };
    let mut kept = nothing(alloc, places);
    match walk(&mut kept, &listed, trace) {
        Ok(true) => {}
        Ok(false) => return Ok(false),
        Err(none) => return Err(none),
    }
    if !are_orders(&kept.lines, &cert.lines, trace.len() as u32) {
        return Ok(false);
    }
    if !are_seen(&kept.places, &cert.reads) {
        return Ok(false);
    }
    are_in_order(alloc, trace, &cert.reads)
}
