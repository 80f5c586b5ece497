//! The places of reads.

ghost use Rattle.std.specs.Prelude.{◌≡◌, ◌+◌, ◌++◌, ◌∷◌, ℕ, [], length, map, option_map, IfOk, OnOk};
ghost use Rattle.std.specs.Option.{option_copied};
ghost use Rattle.std.specs.Ordering.{nat_cmp};
ghost use Rattle.std.specs.BTreeMap.{IsOrdered, get};
ghost use Rattle.ace_event.specs.declared.header.Header.{Header};
ghost use Rattle.ace_model.specs.Copies.{is_line_read_transaction};
ghost use Rattle.ace_model.specs.Trace.{Trace};
ghost use Rattle.ace_portck.specs.Stands.{Stands as Tell};
ghost use Rattle.ace_cert_make.specs.Next.{IsNext};
ghost use Rattle.ace_cert_make.specs.Places.{placed_by, placed_or};
ghost use Rattle.ace_cert_make.specs.Tracks.{IsEarly, LinesStand, PlacesStand, place_of_beat, read_of};

use crate::lines::next_place;
use crate::track::{LineTrack, number_of, one_less};
use ace_cert::{PlaceList, ReadPlace};
use ace_codes::ArKind;
use ace_event::{Channel, Event};
use ace_io::NoMemory;
use ace_model::Transaction;
use ace_model::kinds::read_kind;
use ace_portck::{PortCheck, Progress};
use std::alloc::Global;
use std::collections::BTreeMap;

/// The transaction is a read of a line, of four beats.
fn is_line_read(x: &Transaction) -> bool
    ensures { result ≡ is_line_read_transaction x.now }
{
    matches!(
        read_kind(x),
        Some(
            ArKind::ReadNoSnoop
                | ArKind::ReadOnce
                | ArKind::ReadShared
                | ArKind::ReadClean
                | ArKind::ReadNotSharedDirty
                | ArKind::ReadUnique
        )
    )
}

/// The place that a read gets by a beat, if it is one of a line and the beat is its first.
fn place_of_beat(x: Option<&Progress>, lines: &BTreeMap<u32, LineTrack>) -> Option<ReadPlace>
    ensures { IsEarly (option_copied x.entry)
        → result ≡ place_of_beat (option_copied x.entry) lines.now }
{
    match x {
        Some(x) if x.transfers == 0 && is_line_read(&x.transaction) => Some(ReadPlace {
            event: number_of(x.transaction.place),
            place: next_place(lines, x.transaction.addr),
        }),
        _ => None,
    }
}

/// The read that gets its place by the event with this number. The ports and lines are those before
/// it.
fn placed_by(
    event: &Event,
    ports: &PortCheck,
    lines: &BTreeMap<u32, LineTrack>,
    number: u32,
) -> Option<ReadPlace>
    ensures { (h : Header) (past : Trace) → Tell ports.now (record { header = h; past = past })
        → LinesStand past lines.now → IsNext h past event.now → number ≡ length past + 1
        → result ≡ placed_by past event.now }
{
    match *event {
        Event::L { .. } => Some(ReadPlace {
            event: number,
            place: one_less(number),
        }),
        Event::R { port, id, .. } => {
            place_of_beat(ports.outstanding(port, Channel::Read, id), lines)
        }
        _ => None,
    }
}

/// Keeps the place of a read under its number, if there is one.
fn keep(reads: &mut BTreeMap<u32, u32>, placed: Option<ReadPlace>) -> Result<(), NoMemory>
    ensures { OnOk result ((number : ℕ) → get nat_cmp reads.new number
        ≡ placed_or placed number (get nat_cmp reads.old number)) }
{
    match placed {
        Some(read) => match reads.insert(read.event, read.place) {
            Ok(_) => Ok(()),
            Err(_) => Err(NoMemory),
        },
        None => Ok(()),
    }
}

/// Hears the next event of an accepted trace, with its number, and the ports and lines before it.
pub fn hear_read(
    reads: &mut BTreeMap<u32, u32>,
    lines: &BTreeMap<u32, LineTrack>,
    event: &Event,
    ports: &PortCheck,
    number: u32,
) -> Result<(), NoMemory>
    ensures { (h : Header) (past : Trace) → Tell ports.now (record { header = h; past = past })
        → LinesStand past lines.now → PlacesStand past reads.old → IsNext h past event.now
        → number ≡ length past + 1 → OnOk result (PlacesStand (event.now ∷ past) reads.new) }
{
    keep(reads, placed_by(event, ports, lines, number))
}

/// Puts the element at the end. There is no memory for it also where the list is full.
fn add(list: &mut PlaceList, read: ReadPlace) -> Result<(), NoMemory>
    ensures { OnOk result (list.new ≡ list.old ++ read ∷ []) }
{
    if list.len() == u32::MAX {
        return Err(NoMemory);
    }
    list.push(read)
}

/// The reads in the order of their numbers, each with its place.
pub fn list_reads(alloc: Global, reads: &BTreeMap<u32, u32>) -> Result<PlaceList, NoMemory>
    ensures listed { IfOk result (λ list. list ≡ map read_of reads.now.entries) }
    ensures ordered { IsOrdered nat_cmp reads.now }
{
    let mut list = PlaceList::new(alloc);
    for (number, place) in reads.iter() {
        let read = ReadPlace {
            event: *number,
            place: *place,
        };
        match add(&mut list, read) {
            Ok(()) => {}
            Err(none) => return Err(none),
        }
    }
    Ok(list)
}
