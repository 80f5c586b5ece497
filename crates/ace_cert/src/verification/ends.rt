//! What is looked at when the trace has ended.

ghost use Rattle.std.specs.Prelude.{◌≡◌, ◌==◌, ◌<◌, ◌≤◌, ◌↔◌, true, map, length, nat_lt, IfOk};
ghost use Rattle.std.specs.Ordering.{nat_cmp};
ghost use Rattle.std.specs.BTreeMap.{get};
ghost use Rattle.std.specs.List.{All};
ghost use Rattle.std.specs.List.Sorted.{IsStrictlyIncreasing};
ghost use Rattle.ace_model.specs.Trace.{Trace, is_some_and};
ghost use Rattle.ace_cert.specs.declared.cert.LineOrder.{LineOrder};
ghost use Rattle.ace_cert.specs.declared.cert.ReadPlace.{ReadPlace};
ghost use Rattle.ace_cert.specs.Checks.{AreInOrder, IsOrderOf, is_read_number, reader_at};
ghost use Rattle.ace_cert.specs.Walk.{AreLinesKept, AreMarksFit, ArePlacesKept};
ghost use Rattle.ace_cert.specs.Walk.{nth_of, reader_key};
ghost use Rattle.ace_cert.specs.declared.verification.places.Placed.{Placed};

use super::bursts::nth_of;
use super::lines::Lines;
use super::places::Placed;
use super::tables::{look_up, put};
use crate::cert::{LineOrder, ReadPlace};
use crate::lists::{LineList, PlaceList};
use ace_event::Event;
use ace_io::NoMemory;
use std::alloc::Global;
use std::collections::BTreeMap;

/// The addresses of the lines increase.
pub(super) fn lines_rise(lines: &LineList) -> bool
    ensures { (result ≡ true)
        ↔ IsStrictlyIncreasing (map (λ (o : LineOrder). o.addr) lines.now) }
{
    for i in 1..lines.len() {
        if lines.get(i).addr <= lines.get(i - 1).addr {
            return false;
        }
    }
    true
}

/// The numbers of the reads increase.
pub(super) fn reads_rise(reads: &PlaceList) -> bool
    ensures { (result ≡ true)
        ↔ IsStrictlyIncreasing (map (λ (r : ReadPlace). r.event) reads.now) }
{
    for i in 1..reads.len() {
        if reads.get(i).event <= reads.get(i - 1).event {
            return false;
        }
    }
    true
}

/// The k-th store to the line, from 0 on, has the number.
fn has_number(numbers: &BTreeMap<u64, u32>, addr: u32, k: u32, number: u32) -> bool
    ensures { result
        ≡ is_some_and (get nat_cmp numbers.now (nth_of addr k)) (λ n. n == number) }
{
    match look_up(numbers, nth_of(addr, k)) {
        Some(found) => found == number,
        None => false,
    }
}

/// The line is named, and its stores are these.
fn is_order(lines: &Lines, order: &LineOrder, point: u32) -> bool
    requires few { point ≤ 1048576 }
    requires fit { AreMarksFit lines.now.heads lines.now.marks.items }
    ensures { (past : Trace)
        → AreLinesKept past lines.now.heads lines.now.marks.items lines.now.numbers
        → length past ≡ point → (result ≡ true) ↔ IsOrderOf past order.now }
{
    let facts = lines.facts_at(order.addr, point);
    if !facts.named || facts.stores != order.stores.len() {
        return false;
    }
    for k in 0..order.stores.len() {
        if !has_number(&lines.numbers, order.addr, k, *order.stores.get(k)) {
            return false;
        }
    }
    true
}

/// Each line is named, and has its stores.
pub(super) fn are_orders(lines: &Lines, orders: &LineList, point: u32) -> bool
    requires few { point ≤ 1048576 }
    requires fit { AreMarksFit lines.now.heads lines.now.marks.items }
    ensures { (past : Trace)
        → AreLinesKept past lines.now.heads lines.now.marks.items lines.now.numbers
        → length past ≡ point → (result ≡ true) ↔ All (IsOrderOf past) orders.now }
{
    for i in 0..orders.len() {
        if !is_order(lines, orders.get(i), point) {
            return false;
        }
    }
    true
}

/// The trace has had the read with the number.
fn is_seen(places: &BTreeMap<u64, Placed>, number: u32) -> bool
    ensures { result
        ≡ is_some_and (get nat_cmp places.now number) (λ (p : Placed). p.seen) }
{
    match look_up(places, u64::from(number)) {
        Some(placed) => placed.seen,
        None => false,
    }
}

/// The trace has had each read.
pub(super) fn are_seen(places: &BTreeMap<u64, Placed>, reads: &PlaceList) -> bool
    ensures { (past : Trace) → ArePlacesKept reads.now past places.now → (result ≡ true)
        ↔ All (λ (r : ReadPlace). is_read_number past r.event ≡ true) reads.now }
{
    for i in 0..reads.len() {
        if !is_seen(places, reads.get(i).event) {
            return false;
        }
    }
    true
}

/// Whose the read is: its port and its line, as one number.
fn reader_of(trace: &[Event], read: &ReadPlace) -> u64
    ensures key { result ≡ reader_key (reader_at trace.now read.now) }
    ensures fits { (reader_at trace.now read.now).addr < 4294967296 }
{
    let place = (read.event as usize).saturating_sub(1);
    if place < trace.len() {
        match trace[place] {
            Event::L { port, addr, .. } | Event::Ar { port, addr, .. } => {
                return nth_of(u32::from(port), addr);
            }
            _ => {}
        }
    }
    0
}

/// The place is before that of the reader's last read.
fn goes_back(last: &BTreeMap<u64, u32>, reader: u64, place: u32) -> bool
    ensures { result ≡ is_some_and (get nat_cmp last.now reader) (λ p. nat_lt place p) }
{
    match look_up(last, reader) {
        Some(before) => place < before,
        None => false,
    }
}

/// For each port and line the places never go back.
pub(super) fn are_in_order(
    alloc: Global,
    trace: &[Event],
    reads: &PlaceList,
) -> Result<bool, NoMemory>
    ensures { IfOk result (λ right. (right ≡ true) ↔ AreInOrder trace.now reads.now) }
{
    let mut last = BTreeMap::new(alloc);
    for i in 0..reads.len() {
        let read = *reads.get(i);
        let reader = reader_of(trace, &read);
        if goes_back(&last, reader, read.place) {
            return Ok(false);
        }
        match put(&mut last, reader, read.place) {
            Ok(()) => {}
            Err(none) => return Err(none),
        }
    }
    Ok(true)
}
