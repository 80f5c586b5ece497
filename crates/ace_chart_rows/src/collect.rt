// Collects the rows of a chart.
ghost use Rattle.std.specs.Prelude.{◌≡◌, ◌<◌, ◌≤◌, ◌-◌, ◌^◌, if◌then◌else◌, ℕ, [], Option, None, Some, IfOk, OnOk, length};
ghost use Rattle.ace_chart.specs.Charts.{IsDrawable};
ghost use Rattle.ace_chart_rows.specs.Charts.{AreDrawn, HasFollowed, HasHeard, IsChartOf, row_at_end, rule_at_end};
ghost use Rattle.ace_chart_rows.specs.Rows.{done_with, left_out, left_with, newest_with, part_at, put, row_of, takes_in};
ghost use Rattle.ace_chart_rows.specs.Values.{told_on, values_of, values_with};
ghost use Rattle.ace_chart_rows.specs.declared.selection.Selection.{Selection as Selected};
ghost use Rattle.ace_check.specs.Run.{StandsWithin};
ghost use Rattle.ace_event.specs.Ports.{IsHeader};
ghost use Rattle.ace_event.specs.declared.header.Header.{Header as Head};
ghost use Rattle.ace_model.specs.Trace.{Trace, more};
ghost use Rattle.ace_model.specs.declared.breaks.Break.{Break};

use crate::bursts::{burst_of, joined};
use crate::selection::{Part, Selection, is_asked, part_of};
use crate::told::{feed, look_now, next_transfers};
use crate::values::{Told, Values, keep, opening, told_on, version_of};
use ace_belongs::{next_line, next_number, next_serves};
use ace_chart::{Chart, Row};
use ace_check::Checker;
use ace_event::{Event, Header};
use ace_io::NoMemory;
use std::alloc::Global;

/// Why there is no chart.
#[derive(Clone, Copy, Debug, PartialEq, Eq)]
pub enum ChartErr {
    /// There is no memory for it.
    NoMemory,
    /// It has more rows than it may have.
    TooManyRows,
}

/// The rows so far.
#[derive(Drop)]
struct Collected {
    /// Those before the newest.
    done: Vec<Row>,
    /// The newest, with which the next transfer of its burst may go on.
    newest: Option<Row>,
    /// How many events of the line are left out behind them.
    left_out: u64,
    /// What the line has been.
    values: Values,
}

/// An event that breaks a rule.
#[derive(Clone, Copy)]
struct Stop {
    row: Row,
    /// The least rule that it breaks.
    rule: u8,
}

/// What becomes of the next event of the trace that the checker stands for.
fn part_at(checker: &Checker, line: Option<u32>, selection: &Selection, event: &Event) -> Part
    ensures { (most : ℕ) (h : Head) (past : Trace) (b : Option Break)
        → StandsWithin most checker.now h past b
        → result ≡ part_at h past line selection.now event.now }
{
    let asked = is_asked(line, next_line(checker, event));
    part_of(selection, asked, next_number(checker), event)
}

/// The row of the next event of the trace that the checker stands for, where so many events are
/// left out before it, the line had these values, and it tells this of them.
fn row_of(
    checker: &Checker,
    line: Option<u32>,
    count: u64,
    values: &Values,
    told: &Told,
    event: &Event,
) -> Row
    ensures { (most : ℕ) (h : Head) (past : Trace) (b : Option Break) (s : Selected)
        → StandsWithin most checker.now h past b → count ≡ left_out h past line s
        → values.now.kept.items ≡ values_of h past line
        → told.now ≡ told_on h past line (values_of h past line) event.now
        → result ≡ row_of h past line s event.now }
{
    let number = next_number(checker);
    Row {
        number,
        last: number,
        event: *event,
        burst: burst_of(next_transfers(checker, event)),
        version: version_of(values, told),
        serves: next_serves(checker, event),
        look: look_now(checker, values, line),
        left_out: count,
    }
}

/// Adds the newest row to those that are done, if there is one.
fn finish(done: &mut Vec<Row>, newest: &Option<Row>) -> Result<(), ChartErr>
    ensures { OnOk result (done.new.items ≡ more done.old.items newest.now) }
{
    let Some(newest) = newest else {
        return Ok(());
    };
    match done.push(*newest) {
        Ok(()) => Ok(()),
        Err(_) => Err(ChartErr::NoMemory),
    }
}

/// Adds a row behind the newest, where no more than so many are there with it.
fn begin_row(
    done: &mut Vec<Row>,
    newest: &mut Option<Row>,
    most: usize,
    row: Row,
) -> Result<(), ChartErr>
    ensures done { OnOk result (done.new.items ≡ more done.old.items newest.old) }
    ensures newest { OnOk result (newest.new ≡ Some row) }
    ensures few { OnOk result (length (more done.new.items newest.new) ≤ most) }
{
    finish(done, newest)?;
    if done.len() >= most {
        return Err(ChartErr::TooManyRows);
    }
    *newest = Some(row);
    Ok(())
}

/// The newest row with the next one, where it takes that in.
fn taken_in(newest: &Option<Row>, next: &Row) -> Option<Row>
    ensures { result ≡ (if takes_in newest.now next.now then Some (put newest.now next.now)
        else None) }
{
    match newest {
        Some(newest) => joined(newest, next),
        None => None,
    }
}

/// Adds a row, where no more than so many are there with it: transfers of a burst one after another
/// are one row.
fn put_row(
    done: &mut Vec<Row>,
    newest: &mut Option<Row>,
    most: usize,
    row: Row,
) -> Result<(), ChartErr>
    ensures done { OnOk result (done.new.items
        ≡ (if takes_in newest.old row then done.old.items else more done.old.items newest.old)) }
    ensures newest { OnOk result (newest.new ≡ Some (put newest.old row)) }
    ensures few { length (more done.old.items newest.old) ≤ most
        → OnOk result (length (more done.new.items newest.new) ≤ most) }
{
    match taken_in(newest, &row) {
        Some(taken) => {
            *newest = Some(taken);
            Ok(())
        }
        None => begin_row(done, newest, most, row),
    }
}

/// Adds the row of an event that is drawn, and counts one that is left out.
fn add_event(collected: &mut Collected, most: usize, part: Part, row: Row) -> Result<(), ChartErr>
    ensures done { OnOk result (collected.new.done.items
        ≡ done_with collected.old.done.items collected.old.newest row part) }
    ensures newest { OnOk result (collected.new.newest
        ≡ newest_with collected.old.newest row part) }
    ensures counted { OnOk result (collected.old.left_out < 2 ^ 64 - 1
        → collected.new.left_out ≡ left_with collected.old.left_out part) }
    ensures values { collected.new.values ≡ collected.old.values }
    ensures few { length (more collected.old.done.items collected.old.newest) ≤ most
        → OnOk result (length (more collected.new.done.items collected.new.newest) ≤ most) }
{
    match part {
        Part::Drawn => {
            collected.left_out = 0;
            put_row(&mut collected.done, &mut collected.newest, most, row)
        }
        Part::LeftOut => {
            collected.left_out = collected.left_out.saturating_add(1);
            Ok(())
        }
        Part::Elsewhere => Ok(()),
    }
}

/// Adds an event that breaks no rule, and keeps the value that it makes.
fn take_event(
    collected: &mut Collected,
    most: usize,
    part: Part,
    row: Row,
    told: &Told,
) -> Result<(), ChartErr>
    ensures done { OnOk result (collected.new.done.items
        ≡ done_with collected.old.done.items collected.old.newest row part) }
    ensures newest { OnOk result (collected.new.newest
        ≡ newest_with collected.old.newest row part) }
    ensures counted { OnOk result (collected.old.left_out < 2 ^ 64 - 1
        → collected.new.left_out ≡ left_with collected.old.left_out part) }
    ensures values { OnOk result (collected.new.values.kept.items
        ≡ values_with collected.old.values.kept.items told.now) }
    ensures few { length (more collected.old.done.items collected.old.newest) ≤ most
        → OnOk result (length (more collected.new.done.items collected.new.newest) ≤ most) }
{
    match keep(&mut collected.values, told) {
        Ok(()) => add_event(collected, most, part, row),
        Err(NoMemory) => Err(ChartErr::NoMemory),
    }
}

/// Hears the next event of the trace, and adds its row where it is selected and of the line. An
/// event that breaks a rule is returned instead.
fn hear(
    checker: &mut Checker,
    collected: &mut Collected,
    most: usize,
    line: Option<u32>,
    selection: &Selection,
    event: &Event,
) -> Result<Option<Stop>, ChartErr>
    ensures heard { (h : Head) (past : Trace) → StandsWithin (2 ^ 64 - 1) checker.old h past None
        → length past < 2 ^ 64 - 2 → AreDrawn h past line selection.now collected.old
        → IfOk result (HasHeard h past event.now line selection.now checker.new collected.new) }
    ensures few { length (more collected.old.done.items collected.old.newest) ≤ most
        → IfOk result (λ _. length (more collected.new.done.items collected.new.newest) ≤ most) }
{
    let told = told_on(checker, line, &collected.values, event);
    let row = row_of(
        checker,
        line,
        collected.left_out,
        &collected.values,
        &told,
        event,
    );
    let part = part_at(checker, line, selection, event);
    match feed(checker, event) {
        Ok(None) => match take_event(collected, most, part, row, &told) {
            Ok(()) => Ok(None),
            Err(error) => Err(error),
        },
        Ok(Some(rule)) => Ok(Some(Stop { row, rule })),
        Err(NoMemory) => Err(ChartErr::NoMemory),
    }
}

/// Hears the events up to the first that breaks a rule, and adds the rows of those that are
/// selected and of the line. The event that breaks a rule is returned.
fn follow(
    checker: &mut Checker,
    collected: &mut Collected,
    most: usize,
    line: Option<u32>,
    selection: &Selection,
    header: &Header,
    events: &[Event],
) -> Result<Option<Stop>, ChartErr>
    requires stands { StandsWithin (2 ^ 64 - 1) checker.old header.now [] None }
    requires none { collected.old.done.items ≡ [] }
    requires nothing { collected.old.newest ≡ None }
    requires whole { collected.old.left_out ≡ 0 }
    requires opens { collected.old.values.kept.items ≡ values_of header.now [] line }
    ensures followed { IfOk result (HasFollowed header.now events.now line selection.now
        checker.new collected.new) }
    ensures few { IfOk result (λ _. length (more collected.new.done.items collected.new.newest)
        ≤ most) }
{
    for event in events {
        match hear(checker, collected, most, line, selection, event) {
            Ok(None) => {}
            Ok(Some(stop)) => return Ok(Some(stop)),
            Err(error) => return Err(error),
        }
    }
    Ok(None)
}

/// The row of the event that breaks a rule.
fn row_at_end(stop: &Option<Stop>) -> Option<Row>
    ensures { result ≡ row_at_end stop.now }
{
    match stop {
        Some(stop) => Some(stop.row),
        None => None,
    }
}

/// The least rule that it breaks.
fn rule_at_end(stop: &Option<Stop>) -> Option<u8>
    ensures { result ≡ rule_at_end stop.now }
{
    match stop {
        Some(stop) => Some(stop.rule),
        None => None,
    }
}

/// The chart of the events of a trace, oldest first, which draws the selected ones of the line, or
/// of all where none is asked for: up to the first that breaks a rule, and that one.
///
/// # Errors
///
/// `TooManyRows` where more events than so many would be drawn before one that breaks a rule, and
/// `NoMemory` where there is none.
pub fn chart_of(
    alloc: Global,
    header: Header,
    events: &[Event],
    line: Option<u32>,
    selection: &Selection,
    most: usize,
) -> Result<Chart, ChartErr>
    requires header { IsHeader header }
    requires most { most ≤ 1000000 }
    ensures chart { IfOk result (IsChartOf header events.now line selection.now) }
    ensures drawable { IfOk result IsDrawable }
{
    let Ok(mut checker) = Checker::with_lines(alloc, header, usize::MAX) else {
        return Err(ChartErr::NoMemory);
    };
    let Ok(values) = opening(alloc, line) else {
        return Err(ChartErr::NoMemory);
    };
    let mut collected = Collected {
        done: Vec::new(alloc),
        newest: None,
        left_out: 0,
        values,
    };
    let stop = follow(
        &mut checker,
        &mut collected,
        most,
        line,
        selection,
        &header,
        events,
    )?;
    let last = look_now(&checker, &collected.values, line);
    let Collected {
        done,
        newest,
        left_out,
        ..
    } = collected;
    let mut rows = done;
    finish(&mut rows, &newest)?;
    Ok(Chart {
        header,
        line,
        rows,
        left_out,
        stop: row_at_end(&stop),
        rule: rule_at_end(&stop),
        last,
    })
}
