//! The stores and the value of each line that a transaction names.

ghost use Rattle.std.specs.Prelude.{◌≡◌, ◌==◌, if◌then◌else◌, ℕ, ◌∷◌, None, Some, option_map, unwrap_or, OnOk, OnErr};
ghost use Rattle.std.specs.Ordering.{nat_cmp};
ghost use Rattle.std.specs.BTreeMap.{get};
ghost use Rattle.std.specs.Option.{option_copied};
ghost use Rattle.ace_event.specs.declared.header.Header.{Header};
ghost use Rattle.ace_model.specs.Trace.{Trace, is_some_and};
ghost use Rattle.ace_report.specs.Heard.{LinesStand, with_store, stored, bytes_to, written_bytes};
ghost use Rattle.ace_model.specs.Transactions.{issued};
ghost use Rattle.ace_portck.specs.Stands.{Stands as Tell};
ghost use Rattle.ace_portck.specs.Targets.{begun, line_of};
ghost use Rattle.ace_report.specs.Next.{IsNext, IsAbsent, AddsEntry, absent_line, discarded_line, wanted_line};

use crate::stores::{discards_data, whole, written_bytes};
use crate::tally::LineTally;
use ace_event::{Channel, Event, Line, merge};
use ace_io::NoMemory;
use ace_model::kinds::is_line;
use ace_portck::{PortCheck, Progress, WriteData, issued};
use std::collections::BTreeMap;

/// Makes the tally of a line that is named for the first time.
#[inline(never)]
fn name(lines: &mut BTreeMap<u32, LineTally>, line: u32, memory: Line) -> Result<(), NoMemory>
    ensures named { OnOk result ((l : ℕ) → get nat_cmp lines.new l ≡ (if line == l
        then Some (unwrap_or (get nat_cmp lines.old l) (record { stores = 0; value = memory }))
        else get nat_cmp lines.old l)) }
    ensures cause { OnErr result (get nat_cmp lines.old line ≡ None) }
{
    let untouched = LineTally {
        stores: 0,
        value: memory,
    };
    match lines.entry(line) {
        Ok(entry) => {
            let _tally = entry.or_insert(untouched);
            Ok(())
        }
        Err(_) => Err(NoMemory),
    }
}

/// Adds a store to the tally of its line.
#[inline(never)]
fn store(lines: &mut BTreeMap<u32, LineTally>, line: u32, bytes: &WriteData)
    ensures { (l : ℕ) → get nat_cmp lines.new l ≡ (if line == l
        then option_map (with_store bytes.now) (get nat_cmp lines.old l)
        else get nat_cmp lines.old l) }
{
    if let Some(tally) = lines.get_mut(&line) {
        tally.stores = tally.stores.saturating_add(1);
        tally.value = merge(tally.value, bytes.strobe, bytes.line);
    }
}

/// Adds a store to the tally of its line, if there is one.
#[inline(always)]
fn add_store(lines: &mut BTreeMap<u32, LineTally>, line: Option<u32>, bytes: Option<WriteData>)
    ensures { (l : ℕ) → get nat_cmp lines.new l
        ≡ option_map (stored (bytes_to line bytes l)) (get nat_cmp lines.old l) }
{
    if let (Some(line), Some(bytes)) = (line, bytes) {
        store(lines, line, &bytes);
    }
}

/// Makes the tally of a line that is named for the first time, if a line is named.
#[inline(always)]
fn name_line(
    lines: &mut BTreeMap<u32, LineTally>,
    line: Option<u32>,
    memory: Line,
) -> Result<(), NoMemory>
    ensures named { OnOk result ((l : ℕ) → get nat_cmp lines.new l
        ≡ (if is_some_and line (λ m. m == l)
        then Some (unwrap_or (get nat_cmp lines.old l) (record { stores = 0; value = memory }))
        else get nat_cmp lines.old l)) }
    ensures cause { OnErr result (IsAbsent lines.old line) }
{
    match line {
        Some(line) => name(lines, line, memory),
        None => Ok(()),
    }
}

/// The line of a transaction, if it has one.
fn line_of(x: Option<&Progress>) -> Option<u32>
    ensures { result ≡ line_of (option_copied x.entry) }
{
    match x {
        Some(x) if is_line(&x.transaction) => Some(x.transaction.addr),
        _ => None,
    }
}

/// The line of the transaction that the event issues, with `place` events before it.
fn line_begun(place: usize, event: &Event) -> Option<u32>
    ensures { result ≡ line_of (option_map begun (issued place event.now)) }
{
    match issued(place, event) {
        Some(x) if is_line(&x) => Some(x.addr),
        _ => None,
    }
}

/// The line, where it has no tally yet.
fn without_tally(lines: &BTreeMap<u32, LineTally>, line: Option<u32>) -> Option<u32>
    ensures { result ≡ absent_line lines.now line }
{
    match line {
        Some(line) if !lines.contains_key(&line) => Some(line),
        _ => None,
    }
}

/// The line that the event names first, with `place` events before it. It takes a copy, so that the
/// caller keeps the event's fields where they are.
#[inline(never)]
fn line_named(lines: &BTreeMap<u32, LineTally>, place: usize, event: Event) -> Option<u32>
    ensures { result ≡ absent_line lines.now (line_of (option_map begun (issued place event))) }
{
    without_tally(lines, line_begun(place, &event))
}

/// The line of a MakeInvalid.
#[inline(never)]
fn line_discarded(x: Option<&Progress>) -> Option<u32>
    ensures { result ≡ discarded_line (option_copied x.entry) }
{
    match x {
        Some(read) if discards_data(&read.transaction) => line_of(x),
        _ => None,
    }
}

/// The line of whose memory before the event a report has to be told: that which an AR or AW names
/// first, or that of a MakeInvalid at its R. The ports are those before the event.
#[inline(always)]
pub(crate) fn wanted_line(
    lines: &BTreeMap<u32, LineTally>,
    event: &Event,
    ports: &PortCheck,
) -> Option<u32>
    ensures { (h : Header) (past : Trace) → Tell ports.now (record { header = h; past = past })
        → LinesStand past lines.now → result ≡ wanted_line h past event.now }
{
    match *event {
        Event::Ar { .. } | Event::Aw { .. } => line_named(lines, ports.place(), *event),
        Event::R { port, id, .. } => line_discarded(ports.outstanding(port, Channel::Read, id)),
        _ => None,
    }
}

/// Adds the store of a write that stores, at its M.
#[inline(never)]
fn store_burst(
    lines: &mut BTreeMap<u32, LineTally>,
    write: Option<&Progress>,
    burst: Option<&WriteData>,
)
    ensures { (l : ℕ) → get nat_cmp lines.new l
        ≡ option_map (stored (bytes_to (line_of (option_copied write.entry))
        (written_bytes (option_copied write.entry) (option_copied burst.entry)) l))
        (get nat_cmp lines.old l) }
{
    add_store(lines, line_of(write), written_bytes(write, burst));
}

/// Hears the next event of an accepted trace, with the line of whose memory it wants to be told,
/// and that memory. There is no memory for it only where it names a line first.
#[inline(always)]
pub(crate) fn hear_line(
    lines: &mut BTreeMap<u32, LineTally>,
    event: &Event,
    ports: &PortCheck,
    line: Option<u32>,
    memory: Line,
) -> Result<(), NoMemory>
    ensures stands { (h : Header) (past : Trace)
        → Tell ports.now (record { header = h; past = past })
        → line ≡ wanted_line h past event.now → LinesStand past lines.old
        → IsNext h past event.now memory
        → OnOk result (LinesStand (event.now ∷ past) lines.new) }
    ensures cause { OnErr result ((h : Header) (past : Trace) → line ≡ wanted_line h past event.now
        → LinesStand past lines.old → AddsEntry h past event.now) }
{
    match *event {
        Event::Ar { .. } | Event::Aw { .. } => name_line(lines, line, memory),
        Event::R { .. } => {
            add_store(lines, line, Some(whole(memory)));
            Ok(())
        }
        Event::M { port, chan, id, .. } => {
            store_burst(
                lines,
                ports.outstanding(port, chan, id),
                ports.burst(port, chan, id),
            );
            Ok(())
        }
        Event::D {
            addr,
            strobe,
            line: value,
            ..
        } => {
            let bytes = WriteData {
                strobe,
                line: value,
            };
            add_store(lines, Some(addr), Some(bytes));
            Ok(())
        }
        _ => Ok(()),
    }
}
