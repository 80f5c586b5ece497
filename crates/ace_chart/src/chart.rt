// The text of a chart.
ghost use Rattle.std.specs.Prelude.{◌≡◌, ◌≤◌, ◌++◌, IfOk, OnOk, codes, length};
ghost use Rattle.std.specs.List.{AllByRecursion};
ghost use Rattle.ace_chart.specs.Charts.{IsDrawable, bands, chart_text, count_of, events, frame, line_bars, numbers_of};
ghost use Rattle.std.specs.Option.{option_copied};

use crate::cells::{push_cells, push_last};
use crate::frame::{Below, push_foot, push_heading, push_page};
use crate::lifelines::push_lifelines;
use crate::marks::{push_band, push_gap, push_rows, push_stop};
use crate::places::y_of;
use crate::rows::Chart;
use crate::side::{margin, push_column, push_column_end};
use ace_io::NoMemory;
use ace_side_facts::SideFacts;
use ace_svg::push;
use std::alloc::Global;

/// How many rows the chart has, the event that breaks a rule among them.
fn count_of(chart: &Chart) -> u64
    requires { length chart.now.rows.items ≤ 1000000 }
    ensures value { result ≡ count_of chart.now }
    ensures few { result ≤ 1000001 }
{
    let rows = chart.rows.len() as u64;
    if chart.stop.is_some() { rows + 1 } else { rows }
}

/// Adds what is behind the events: the page, the heading, the column of times and the lifelines.
#[tactic(auto, unfolding(crate::specs::Charts::frame))]
fn push_frame(
    text: &mut Vec<u8>,
    chart: &Chart,
    name: &[u8],
    verdict: &[u8],
    side: Option<&SideFacts>,
) -> Result<(), NoMemory>
    requires { IsDrawable chart.now }
    ensures { OnOk result (text.new.items ≡ text.old.items
        ++ frame chart.now name.now verdict.now (option_copied side.entry)) }
{
    let rows = count_of(chart);
    push_page(text, chart.header.ports, rows, margin(side))?;
    push_heading(text, name, verdict)?;
    push_column(text, side, rows)?;
    push_lifelines(text, &chart.header, side, y_of(rows))
}

/// Adds the bars of the line, if there is one.
#[tactic(auto, unfolding(crate::specs::Charts::line_bars))]
fn push_line_bars(text: &mut Vec<u8>, chart: &Chart) -> Result<(), NoMemory>
    requires { IsDrawable chart.now }
    ensures { OnOk result (text.new.items ≡ text.old.items ++ line_bars chart.now) }
{
    if chart.line.is_none() {
        return Ok(());
    }
    let ports = chart.header.ports;
    let rows = chart.rows.len() as u64;
    push_cells(text, ports, &chart.rows)?;
    push_last(text, ports, rows, &chart.stop, &chart.last)
}

/// Adds the band of the event that breaks a rule, if there is one.
#[tactic(auto, unfolding(crate::specs::Charts::bands))]
fn push_bands(text: &mut Vec<u8>, chart: &Chart) -> Result<(), NoMemory>
    requires { IsDrawable chart.now }
    ensures { OnOk result (text.new.items ≡ text.old.items ++ bands chart.now) }
{
    if chart.stop.is_none() {
        return Ok(());
    }
    push_band(text, chart.header.ports, chart.rows.len() as u64)
}

/// Adds the events, and what is left out between them.
#[tactic(auto, unfolding(crate::specs::Charts::events))]
fn push_events(alloc: Global, text: &mut Vec<u8>, chart: &Chart) -> Result<(), NoMemory>
    requires { IsDrawable chart.now }
    ensures { OnOk result (text.new.items ≡ text.old.items ++ events chart.now) }
{
    let ports = chart.header.ports;
    let rows = chart.rows.len() as u64;
    push_rows(alloc, text, ports, &chart.stop, &chart.rows)?;
    push_gap(alloc, text, ports, rows, chart.left_out)?;
    push_stop(alloc, text, ports, rows, &chart.stop)
}

/// Adds the chart.
#[tactic(auto, unfolding(crate::specs::Charts::chart_text))]
fn push_chart(
    alloc: Global,
    text: &mut Vec<u8>,
    chart: &Chart,
    name: &[u8],
    verdict: &[u8],
    below: &Below<'_>,
    side: Option<&SideFacts>,
) -> Result<(), NoMemory>
    requires { IsDrawable chart.now }
    ensures { OnOk result (text.new.items ≡ text.old.items
        ++ chart_text chart.now name.now verdict.now below.now.wrong.now below.now.kept.now
        below.now.expected.now below.now.got.now (option_copied side.entry)) }
{
    push_frame(text, chart, name, verdict, side)?;
    push_bands(text, chart)?;
    push_line_bars(text, chart)?;
    push_events(alloc, text, chart)?;
    push_column_end(text, side)?;
    push_foot(text, count_of(chart), below)?;
    push(text, b"</svg>\n")
}

/// The number of the last event of each row, the event that breaks a rule among them: those whose
/// times are drawn.
///
/// # Errors
///
/// `NoMemory` where there is none for them.
pub fn row_numbers(alloc: Global, chart: &Chart) -> Result<Vec<u64>, NoMemory>
    ensures { IfOk result (λ numbers. numbers.items ≡ numbers_of chart.now) }
{
    let mut numbers = Vec::new(alloc);
    for row in &chart.rows {
        if numbers.push(row.last).is_err() {
            return Err(NoMemory);
        }
    }
    if let Some(row) = &chart.stop {
        if numbers.push(row.last).is_err() {
            return Err(NoMemory);
        }
    }
    Ok(numbers)
}

/// The chart as SVG, under the name of its trace and the verdict on it, with what is told below it,
/// and, where there is a side file, the names of ports and the times that it tells of the rows.
///
/// # Errors
///
/// `NoMemory` where there is none for the text.
pub fn chart_text(
    alloc: Global,
    chart: &Chart,
    name: &[u8],
    verdict: &[u8],
    below: &Below<'_>,
    side: Option<&SideFacts>,
) -> Result<Vec<u8>, NoMemory>
    requires { IsDrawable chart.now }
    ensures { IfOk result (λ text. text.items
        ≡ chart_text chart.now name.now verdict.now below.now.wrong.now below.now.kept.now
        below.now.expected.now below.now.got.now (option_copied side.entry)) }
{
    let mut text = Vec::new(alloc);
    push_chart(alloc, &mut text, chart, name, verdict, below, side)?;
    Ok(text)
}
