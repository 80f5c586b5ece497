//! The text of a report is put to a sink, in large pieces.

ghost use Rattle.std.specs.Prelude.{◌≡◌, ◌≤◌, ◌++◌, [], length, OnOk, OnErr};
ghost use Rattle.std.specs.Io.KnownBytes.{Appends};
ghost use Rattle.std.specs.List.{flat_map};
ghost use Rattle.ace_io.specs.Faults.{HasCause};
ghost use Rattle.ace_report.specs.Lines.{ports_text, line_line, load_line};
ghost use Rattle.ace_report.specs.Put.{AppendsPart, Puts, PutsPart};

use crate::tally::{LineTally, Load, PortTally};
use crate::text::{LINE_LIMIT, push_line, push_load, push_port};
use ace_io::{Failed, Sink, give_all};
use ace_writer::{TEXT_ROOM, TextBuf};
use std::collections::btree_map::Iter;

/// Gives what stands on the page, where it has more bytes than these.
pub fn give_over<K: Sink>(sink: &mut K, page: &mut TextBuf, most: usize) -> Result<(), Failed>
    ensures whole { OnOk result (Puts (K.held sink.old) page.old [] (K.held sink.new) page.new []) }
    ensures part { OnErr result (PutsPart (K.held sink.old) page.old [] (K.held sink.new)) }
    ensures room { OnOk result (length page.new ≤ most) }
    ensures cause { HasCause (K.faults sink.old) (K.faults sink.new) result }
{
    if page.len() <= most {
        return Ok(());
    }
    if give_all(sink, page.bytes()) < page.len() {
        return Err(Failed);
    }
    page.clear();
    Ok(())
}

/// Makes room on the page for one more line.
pub fn make_room<K: Sink>(sink: &mut K, page: &mut TextBuf) -> Result<(), Failed>
    ensures whole { OnOk result (Puts (K.held sink.old) page.old [] (K.held sink.new) page.new []) }
    ensures part { OnErr result (PutsPart (K.held sink.old) page.old [] (K.held sink.new)) }
    ensures room { OnOk result (length page.new ≤ 3796) }
    ensures cause { HasCause (K.faults sink.old) (K.faults sink.new) result }
{
    give_over(sink, page, TEXT_ROOM - LINE_LIMIT)
}

/// Puts the line of each port.
fn put_ports<K: Sink>(sink: &mut K, page: &mut TextBuf, ports: &[PortTally]) -> Result<(), Failed>
    ensures whole { OnOk result (Puts (K.held sink.old) page.old
        (ports_text 0 ports.now) (K.held sink.new) page.new []) }
    ensures part { OnErr result (PutsPart (K.held sink.old) page.old
        (ports_text 0 ports.now) (K.held sink.new)) }
    ensures cause { HasCause (K.faults sink.old) (K.faults sink.new) result }
{
    for (port, tally) in ports.iter().enumerate() {
        match make_room(sink, page) {
            Ok(()) => push_port(page, port, tally),
            Err(failed) => return Err(failed),
        }
    }
    Ok(())
}

/// Puts the line of each line of memory.
fn put_lines<K: Sink>(
    sink: &mut K,
    page: &mut TextBuf,
    lines: Iter<'_, u32, LineTally>,
) -> Result<(), Failed>
    ensures whole { OnOk result (Puts (K.held sink.old) page.old
        (flat_map line_line lines.entry) (K.held sink.new) page.new []) }
    ensures part { OnErr result (PutsPart (K.held sink.old) page.old
        (flat_map line_line lines.entry) (K.held sink.new)) }
    ensures cause { HasCause (K.faults sink.old) (K.faults sink.new) result }
{
    for (line, tally) in lines {
        match make_room(sink, page) {
            Ok(()) => push_line(page, *line, tally),
            Err(failed) => return Err(failed),
        }
    }
    Ok(())
}

/// Puts the line of each load.
fn put_loads<K: Sink>(sink: &mut K, page: &mut TextBuf, loads: &[Load]) -> Result<(), Failed>
    ensures whole { OnOk result (Puts (K.held sink.old) page.old
        (flat_map load_line loads.now) (K.held sink.new) page.new []) }
    ensures part { OnErr result (PutsPart (K.held sink.old) page.old
        (flat_map load_line loads.now) (K.held sink.new)) }
    ensures cause { HasCause (K.faults sink.old) (K.faults sink.new) result }
{
    for load in loads {
        match make_room(sink, page) {
            Ok(()) => push_load(page, load),
            Err(failed) => return Err(failed),
        }
    }
    Ok(())
}

/// Puts the lines of the ports, of the lines of memory and of the loads, and gives all that stands
/// on the page, which is empty at first.
pub(crate) fn put_all<K: Sink>(
    sink: &mut K,
    ports: &[PortTally],
    lines: Iter<'_, u32, LineTally>,
    loads: &[Load],
) -> Result<(), Failed>
    ensures whole { OnOk result (Appends (K.held sink.old) (K.held sink.new)
        (ports_text 0 ports.now ++ (flat_map line_line lines.entry
        ++ flat_map load_line loads.now))) }
    ensures part { OnErr result (AppendsPart (K.held sink.old) (K.held sink.new)
        (ports_text 0 ports.now ++ (flat_map line_line lines.entry
        ++ flat_map load_line loads.now))) }
    ensures cause { HasCause (K.faults sink.old) (K.faults sink.new) result }
{
    let mut page = TextBuf::empty();
    match put_ports(sink, &mut page, ports) {
        Ok(()) => {}
        Err(failed) => return Err(failed),
    }
    match put_lines(sink, &mut page, lines) {
        Ok(()) => {}
        Err(failed) => return Err(failed),
    }
    match put_loads(sink, &mut page, loads) {
        Ok(()) => give_over(sink, &mut page, 0),
        Err(failed) => Err(failed),
    }
}
