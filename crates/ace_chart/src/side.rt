// What a side file tells beside a chart.
ghost use Rattle.std.specs.Prelude.{◌≡◌, ◌≤◌, ◌++◌, OnOk, codes, length, option_map, take};
ghost use Rattle.std.specs.Option.{option_copied};
ghost use Rattle.ace_chart.specs.Side.{below_port, column, column_end, column_text, margin, name_of, time_text, times_text, unit_text};
ghost use Rattle.ace_side_facts.specs.Facts.{times_in, unit_in};

use crate::places::y_of;
use ace_io::NoMemory;
use ace_side_facts::SideFacts;
use ace_svg::{Point, push, push_words};
use itoa::Buffer;

/// The name of a port, if it is told.
fn name_of<'a>(facts: Option<&'a SideFacts>, port: u8) -> Option<&'a [u8]>
    ensures { option_map (λ it. it.now) result ≡ name_of (option_copied facts.entry) port }
{
    match facts {
        Some(facts) => facts.name(port),
        None => None,
    }
}

/// The first characters of a name, so many at most.
fn front(name: &[u8], count: usize) -> &[u8]
    ensures { result.now ≡ take count name.now }
{
    &name[..count.min(name.len())]
}

/// What stands below the number of a port in its head.
pub(crate) fn below_port<'a>(
    facts: Option<&'a SideFacts>,
    port: u8,
    kind: &'static [u8],
) -> &'a [u8]
    ensures { result.now ≡ below_port (name_of (option_copied facts.entry) port) kind.now }
{
    match name_of(facts, port) {
        Some(name) => front(name, 32),
        None => kind,
    }
}

/// How much wider the picture is at the left.
pub(crate) fn margin(facts: Option<&SideFacts>) -> u64
    ensures value { result ≡ margin (option_copied facts.entry) }
    ensures small { result ≤ 84 }
{
    if facts.is_some() { 84 } else { 0 }
}

/// Adds the unit of the times, if it is told.
fn push_unit(text: &mut Vec<u8>, unit: Option<&[u8]>) -> Result<(), NoMemory>
    ensures { OnOk result (text.new.items ≡ text.old.items
        ++ unit_text (option_map (λ it. it.now) unit.entry)) }
{
    match unit {
        Some(unit) => push_words(text, b"time", Point { x: 12, y: 100 }, unit),
        None => Ok(()),
    }
}

/// Adds the time of a row, if it is told.
fn push_time(text: &mut Vec<u8>, row: u64, time: &Option<u64>) -> Result<(), NoMemory>
    requires { row ≤ 1000001 }
    ensures { OnOk result (text.new.items ≡ text.old.items ++ time_text row time.now) }
{
    let Some(time) = time else {
        return Ok(());
    };
    let place = Point {
        x: 12,
        y: y_of(row) + 4,
    };
    let mut digits = Buffer::new();
    push_words(text, b"time", place, digits.format(*time).as_bytes())
}

/// Adds the times of rows.
fn push_times(text: &mut Vec<u8>, times: &[Option<u64>]) -> Result<(), NoMemory>
    requires { length times.now ≤ 1000001 }
    ensures { OnOk result (text.new.items ≡ text.old.items ++ times_text 0 times.now) }
{
    for (row, time) in times.iter().enumerate() {
        push_time(text, row as u64, time)?;
    }
    Ok(())
}

/// The first of these times, so many at most.
fn first_of(times: &[Option<u64>], rows: u64) -> &[Option<u64>]
    ensures { result.now ≡ take rows times.now }
{
    let count = times.len().min(rows as usize);
    &times[..count]
}

/// Adds the column of so many rows, and the beginning of what stands right of it.
#[tactic(auto, unfolding(crate::specs::Side::column_text))]
fn push_column_text(text: &mut Vec<u8>, facts: &SideFacts, rows: u64) -> Result<(), NoMemory>
    requires { rows ≤ 1000001 }
    ensures { OnOk result (text.new.items ≡ text.old.items ++ column_text facts.now rows) }
{
    push_unit(text, facts.unit())?;
    push_times(text, first_of(facts.times(), rows))?;
    push(text, b"<g transform=\"translate(84)\">\n")
}

/// The same, if there is a column.
pub(crate) fn push_column(
    text: &mut Vec<u8>,
    facts: Option<&SideFacts>,
    rows: u64,
) -> Result<(), NoMemory>
    requires { rows ≤ 1000001 }
    ensures { OnOk result (text.new.items
        ≡ text.old.items ++ column (option_copied facts.entry) rows) }
{
    match facts {
        Some(facts) => push_column_text(text, facts, rows),
        None => Ok(()),
    }
}

/// Adds the end of what stands right of the column, if there is one.
pub(crate) fn push_column_end(text: &mut Vec<u8>, facts: Option<&SideFacts>) -> Result<(), NoMemory>
    ensures { OnOk result (text.new.items
        ≡ text.old.items ++ column_end (option_copied facts.entry)) }
{
    if facts.is_some() {
        push(text, b"</g>\n")
    } else {
        Ok(())
    }
}
