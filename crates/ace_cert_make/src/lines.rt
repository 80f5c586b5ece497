//! What is kept of the lines that transactions name.

ghost use Rattle.std.specs.Prelude.{◌≡◌, ◌==◌, ◌+◌, ◌∷◌, ℕ, [], None, Some, if◌then◌else◌, length, map, option_map, unwrap_or, ◌++◌, IfOk, OnOk};
ghost use Rattle.std.specs.Ordering.{nat_cmp};
ghost use Rattle.std.specs.BTreeMap.{IsOrdered, get};
ghost use Rattle.ace_event.specs.declared.header.Header.{Header};
ghost use Rattle.ace_model.specs.Trace.{Trace, is_some_and};
ghost use Rattle.ace_model.specs.Transactions.{issued};
ghost use Rattle.ace_portck.specs.Stands.{Stands as Tell};
ghost use Rattle.ace_portck.specs.Targets.{begun, line_of};
ghost use Rattle.ace_cert_make.specs.Next.{IsNext};
ghost use Rattle.ace_cert_make.specs.Tracks.{LinesStand, changed_to, order_of, place_kept};

use crate::changes::change_of;
use crate::track::{LineChange, LineTrack};
use ace_cert::{LineList, LineOrder};
use ace_event::Event;
use ace_io::NoMemory;
use ace_model::kinds::is_line;
use ace_portck::{PortCheck, issued};
use std::alloc::Global;
use std::collections::BTreeMap;

/// The line is there from now on.
fn name(lines: &mut BTreeMap<u32, LineTrack>, alloc: Global, line: u32) -> Result<(), NoMemory>
    ensures { OnOk result ((l : ℕ) → get nat_cmp lines.new l ≡ (if line == l
        then Some (unwrap_or (get nat_cmp lines.old l)
        (record { stores = []; granted = 0; memory = 0; sent = None }))
        else get nat_cmp lines.old l)) }
{
    match lines.entry(line) {
        Ok(entry) => {
            let _track = entry.or_insert(LineTrack::untouched(alloc));
            Ok(())
        }
        Err(_) => Err(NoMemory),
    }
}

/// The line is there from now on, if there is one.
fn name_line(
    lines: &mut BTreeMap<u32, LineTrack>,
    alloc: Global,
    line: Option<u32>,
) -> Result<(), NoMemory>
    ensures { OnOk result ((l : ℕ) → get nat_cmp lines.new l ≡ (if is_some_and line (λ m. m == l)
        then Some (unwrap_or (get nat_cmp lines.old l)
        (record { stores = []; granted = 0; memory = 0; sent = None }))
        else get nat_cmp lines.old l)) }
{
    match line {
        Some(line) => name(lines, alloc, line),
        None => Ok(()),
    }
}

/// The event with this number changes what is kept of its line.
fn change(
    lines: &mut BTreeMap<u32, LineTrack>,
    change: &LineChange,
    number: u32,
) -> Result<(), NoMemory>
    ensures { OnOk result ((l : ℕ) → get nat_cmp lines.new l
        ≡ option_map (changed_to (Some change.now) number l) (get nat_cmp lines.old l)) }
{
    match lines.get_mut(&change.line) {
        Some(track) => track.apply(change.change, number),
        None => Ok(()),
    }
}

/// The same, where it changes a line.
fn change_line(
    lines: &mut BTreeMap<u32, LineTrack>,
    changed: Option<LineChange>,
    number: u32,
) -> Result<(), NoMemory>
    ensures { OnOk result ((l : ℕ) → get nat_cmp lines.new l
        ≡ option_map (changed_to changed number l) (get nat_cmp lines.old l)) }
{
    match changed {
        Some(changed) => change(lines, &changed, number),
        None => Ok(()),
    }
}

/// The line of the transaction that the event issues, if it issues one of a line.
fn line_begun(place: usize, event: &Event) -> Option<u32>
    ensures { result ≡ line_of (option_map begun (issued place event.now)) }
{
    match issued(place, event) {
        Some(x) if is_line(&x) => Some(x.addr),
        _ => None,
    }
}

/// Hears the next event of an accepted trace, with its number and the ports before it.
pub fn hear_line(
    lines: &mut BTreeMap<u32, LineTrack>,
    alloc: Global,
    event: &Event,
    ports: &PortCheck,
    number: u32,
) -> Result<(), NoMemory>
    ensures { (h : Header) (past : Trace) → Tell ports.now (record { header = h; past = past })
        → LinesStand past lines.old → IsNext h past event.now → number ≡ length past + 1
        → OnOk result (LinesStand (event.now ∷ past) lines.new) }
{
    match event {
        Event::Ar { .. } | Event::Aw { .. } => {
            name_line(lines, alloc, line_begun(ports.place(), event))
        }
        _ => change_line(lines, change_of(event, ports), number),
    }
}

/// The place of a read of the line whose first beat comes next.
pub fn next_place(lines: &BTreeMap<u32, LineTrack>, line: u32) -> u32
    ensures { result ≡ place_kept (get nat_cmp lines.now line) }
{
    match lines.get(&line) {
        Some(track) => match track.sent {
            Some(place) => place,
            None => track.memory,
        },
        None => 0,
    }
}

/// Puts the element at the end. There is no memory for it also where the list is full.
fn add(list: &mut LineList, order: LineOrder) -> Result<(), NoMemory>
    ensures { OnOk result (list.new ≡ list.old ++ order ∷ []) }
{
    if list.len() == u32::MAX {
        return Err(NoMemory);
    }
    list.push(order)
}

/// The lines in order of address, each with its stores.
pub fn list_lines(alloc: Global, lines: BTreeMap<u32, LineTrack>) -> Result<LineList, NoMemory>
    ensures listed { IfOk result (λ list. list ≡ map order_of lines.entries) }
    ensures ordered { IsOrdered nat_cmp lines }
{
    let mut list = LineList::new(alloc);
    for (addr, track) in lines {
        let order = LineOrder {
            addr,
            stores: track.stores,
        };
        match add(&mut list, order) {
            Ok(()) => {}
            Err(none) => return Err(none),
        }
    }
    Ok(list)
}
