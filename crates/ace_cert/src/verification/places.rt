//! The places that a certificate gives reads, and the lines that it names.

ghost use Rattle.std.specs.Prelude.{◌≡◌, ◌==◌, ◌&&◌, ℕ, [], false, if◌then◌else◌, Some};
ghost use Rattle.std.specs.Prelude.{is_none, option_map, IfOk, OnOk};
ghost use Rattle.std.specs.Ordering.{nat_cmp};
ghost use Rattle.std.specs.BTreeMap.{get};
ghost use Rattle.ace_cert.specs.Walk.{AreListed, ArePlacesKept, seen_one};

use super::tables::{look_up, put};
use crate::cert::ReadPlace;
use crate::lists::{LineList, PlaceList};
use ace_io::NoMemory;
use std::alloc::Global;
use std::collections::BTreeMap;

/// The place of a read, and whether the trace has had its load or a beat of it.
#[derive(Clone, Copy)]
pub struct Placed {
    pub place: u32,
    pub seen: bool,
}

/// Gives the read its place, if no earlier one has its number.
fn place_read(places: &mut BTreeMap<u64, Placed>, read: &ReadPlace) -> Result<(), NoMemory>
    ensures { OnOk result ((k : ℕ) → get nat_cmp places.new k
        ≡ (if (read.now.event == k) && is_none (get nat_cmp places.old k)
        then Some (record { place = read.now.place; seen = false })
        else get nat_cmp places.old k)) }
{
    let number = u64::from(read.event);
    match look_up(places, number) {
        Some(_earlier) => Ok(()),
        None => {
            let placed = Placed {
                place: read.place,
                seen: false,
            };
            put(places, number, placed)
        }
    }
}

/// Lists the line with the number.
fn list_line(listed: &mut BTreeMap<u64, u32>, addr: u32, number: u32) -> Result<(), NoMemory>
    ensures { OnOk result ((k : ℕ) → get nat_cmp listed.new k
        ≡ (if addr == k then Some number else get nat_cmp listed.old k)) }
{
    put(listed, u64::from(addr), number)
}

/// The places of the reads by their numbers, before the trace has had any.
pub(super) fn places_of(alloc: Global, reads: &PlaceList) -> Result<BTreeMap<u64, Placed>, NoMemory>
    ensures { IfOk result (λ places. ArePlacesKept reads.now [] places) }
{
    let mut places = BTreeMap::new(alloc);
    for i in 0..reads.len() {
        match place_read(&mut places, reads.get(i)) {
            Ok(()) => {}
            Err(none) => return Err(none),
        }
    }
    Ok(places)
}

/// The lines by their addresses.
pub(super) fn listed_of(alloc: Global, lines: &LineList) -> Result<BTreeMap<u64, u32>, NoMemory>
    ensures { IfOk result (λ listed. AreListed lines.now listed) }
{
    let mut listed = BTreeMap::new(alloc);
    for i in 0..lines.len() {
        match list_line(&mut listed, lines.get(i).addr, i) {
            Ok(()) => {}
            Err(none) => return Err(none),
        }
    }
    Ok(listed)
}

/// Sees the load, or a beat of the read, with the number.
pub(super) fn see(places: &mut BTreeMap<u64, Placed>, number: u64) -> Result<(), NoMemory>
    ensures { OnOk result ((k : ℕ) → get nat_cmp places.new k
        ≡ (if number == k then option_map seen_one (get nat_cmp places.old k)
        else get nat_cmp places.old k)) }
{
    match look_up(places, number) {
        Some(placed) => put(
            places,
            number,
            Placed {
                seen: true,
                ..placed
            },
        ),
        None => Ok(()),
    }
}
