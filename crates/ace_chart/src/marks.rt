// The events of a chart: arrows and steps, with their numbers and labels.
ghost use Rattle.std.specs.Prelude.{◌≡◌, ◌≤◌, ◌++◌, ◌+◌, ◌==◌, if◌then◌else◌, [], IfOk, OnOk, codes, decimal, length};
ghost use Rattle.ace_chart.specs.Marks.{IsNumber, IsNumbered, IsStopNumbered, about_words, arrow, band, beside_class, event_text, gap, gap_text, label_class, left_out_words, mark_of, mark_text, message, number_words, numbers_text, numbers_words, row_text, rows_text, step, stop_text, style_word};
ghost use Rattle.ace_chart.specs.Labels.{label};
ghost use Rattle.ace_svg.specs.Elements.{title};
ghost use Rattle.std.specs.List.{AllByRecursion};

use crate::labels::label;
use crate::places::{Lifeline, far_x, lane_x, near_x, width, x_of, y_of};
use crate::reasons::push_reason;
use crate::rows::Row;
use ace_event::Event;
use ace_io::NoMemory;
use ace_svg::{Point, Size, push, push_line, push_number, push_rectangle, push_title, push_words};
use std::alloc::Global;

/// What a message or a step is about, and so how it looks.
#[derive(Clone, Copy, Debug, PartialEq, Eq)]
pub enum Style {
    /// An address: AR, AW.
    Address,
    /// Data: R, W, CD.
    Data,
    /// A response or an acknowledge: B, RK, WK.
    Response,
    /// A snoop or its answer: AC, CR.
    Snoop,
    /// A write of memory, or its opening: M, MEM.
    Memory,
    /// A grant: G.
    Grant,
    /// What a master does by itself: L, D, S, OP.
    Local,
}

/// How an event is drawn.
#[derive(Clone, Copy, Debug, PartialEq, Eq)]
pub enum Mark {
    /// A message from the lifeline to the interconnect.
    Sent { at: Lifeline, style: Style },
    /// A message from the interconnect to the lifeline.
    Received { at: Lifeline, style: Style },
    /// What happens at the lifeline alone.
    Step { at: Lifeline, style: Style },
}

/// How the event is drawn.
fn mark_of(event: &Event) -> Mark
    ensures { result ≡ mark_of event.now }
{
    match *event {
        Event::Ar { port, .. } | Event::Aw { port, .. } => Mark::Sent {
            at: Lifeline::Port(port),
            style: Style::Address,
        },
        Event::W { port, .. } | Event::Cd { port, .. } => Mark::Sent {
            at: Lifeline::Port(port),
            style: Style::Data,
        },
        Event::Rk { port, .. } | Event::Wk { port, .. } => Mark::Sent {
            at: Lifeline::Port(port),
            style: Style::Response,
        },
        Event::Cr { port, .. } => Mark::Sent {
            at: Lifeline::Port(port),
            style: Style::Snoop,
        },
        Event::R { port, .. } => Mark::Received {
            at: Lifeline::Port(port),
            style: Style::Data,
        },
        Event::B { port, .. } => Mark::Received {
            at: Lifeline::Port(port),
            style: Style::Response,
        },
        Event::Ac { port, .. } => Mark::Received {
            at: Lifeline::Port(port),
            style: Style::Snoop,
        },
        Event::M { .. } => Mark::Received {
            at: Lifeline::Memory,
            style: Style::Memory,
        },
        Event::Mem { .. } => Mark::Step {
            at: Lifeline::Memory,
            style: Style::Memory,
        },
        Event::G { .. } => Mark::Step {
            at: Lifeline::Interconnect,
            style: Style::Grant,
        },
        Event::S { port, .. }
        | Event::L { port, .. }
        | Event::D { port, .. }
        | Event::Op { port, .. } => Mark::Step {
            at: Lifeline::Port(port),
            style: Style::Local,
        },
    }
}

/// The class of a message or step; the event that breaks a rule has its own.
fn style_word(stop: bool, style: Style) -> &'static [u8]
    ensures { result.now ≡ style_word stop style }
{
    if stop {
        return b"stop";
    }
    match style {
        Style::Address => b"address",
        Style::Data => b"data",
        Style::Response => b"response",
        Style::Snoop => b"snoop",
        Style::Memory => b"memory",
        Style::Grant => b"granting",
        Style::Local => b"local",
    }
}

/// The class of a label.
fn label_class(stop: bool) -> &'static [u8]
    ensures { result.now ≡ label_class stop }
{
    if stop { b"stop-label" } else { b"label" }
}

/// The class of a label that stands beside a step.
fn beside_class(stop: bool) -> &'static [u8]
    ensures { result.now ≡ beside_class stop }
{
    if stop { b"stop-beside" } else { b"beside" }
}

/// Adds an arrow between the lifeline and the interconnect.
#[tactic(auto, unfolding(crate::specs::Marks::arrow))]
fn push_arrow(
    text: &mut Vec<u8>,
    ports: u8,
    class: &[u8],
    at: Lifeline,
    y: u64,
    sent: bool,
) -> Result<(), NoMemory>
    ensures { OnOk result (text.new.items ≡ text.old.items ++ arrow ports class.now at y sent) }
{
    let x = x_of(ports, at);
    let middle = x_of(ports, Lifeline::Interconnect);
    let near = Point {
        x: near_x(x, middle),
        y,
    };
    let far = Point {
        x: far_x(x, middle),
        y,
    };
    if sent {
        push_line(text, class, near, far)
    } else {
        push_line(text, class, far, near)
    }
}

/// Adds a message: its arrow, and its label in the lane beside the lifeline.
#[tactic(auto, unfolding(crate::specs::Marks::message))]
fn push_message(
    text: &mut Vec<u8>,
    ports: u8,
    row: u64,
    stop: bool,
    at: Lifeline,
    style: Style,
    sent: bool,
    words: &[u8],
) -> Result<(), NoMemory>
    requires { row ≤ 1000000 }
    ensures { OnOk result (text.new.items
        ≡ text.old.items ++ message ports row stop at style sent words.now) }
{
    let y = y_of(row);
    push_arrow(text, ports, style_word(stop, style), at, y, sent)?;
    let place = Point {
        x: lane_x(x_of(ports, at), x_of(ports, Lifeline::Interconnect)),
        y: y - 4,
    };
    push_words(text, label_class(stop), place, words)
}

/// Adds a step: a square, and its label beside it.
#[tactic(auto, unfolding(crate::specs::Marks::step))]
fn push_step(
    text: &mut Vec<u8>,
    ports: u8,
    row: u64,
    stop: bool,
    at: Lifeline,
    style: Style,
    words: &[u8],
) -> Result<(), NoMemory>
    requires { row ≤ 1000000 }
    ensures { OnOk result (text.new.items
        ≡ text.old.items ++ step ports row stop at style words.now) }
{
    let x = x_of(ports, at);
    let y = y_of(row);
    let corner = Point { x: x - 5, y: y - 5 };
    let size = Size {
        width: 10,
        height: 10,
    };
    push_rectangle(text, style_word(stop, style), corner, size)?;
    let place = Point {
        x: x + 16,
        y: y + 4,
    };
    push_words(text, beside_class(stop), place, words)
}

/// Adds what is drawn of an event.
#[tactic(auto, unfolding(crate::specs::Marks::mark_text))]
fn push_mark(
    text: &mut Vec<u8>,
    ports: u8,
    row: u64,
    stop: bool,
    mark: Mark,
    words: &[u8],
) -> Result<(), NoMemory>
    requires { row ≤ 1000000 }
    ensures { OnOk result (text.new.items
        ≡ text.old.items ++ mark_text ports row stop mark words.now) }
{
    match mark {
        Mark::Sent { at, style } => push_message(text, ports, row, stop, at, style, true, words),
        Mark::Received { at, style } => {
            push_message(text, ports, row, stop, at, style, false, words)
        }
        Mark::Step { at, style } => push_step(text, ports, row, stop, at, style, words),
    }
}

/// Adds the number of an event and the line of the trace that it is.
#[tactic(auto, unfolding(crate::specs::Marks::number_words))]
fn push_number_words(words: &mut Vec<u8>, number: u64) -> Result<(), NoMemory>
    requires { IsNumber number }
    ensures { OnOk result (words.new.items ≡ words.old.items ++ number_words number) }
{
    push(words, b"event ")?;
    push_number(words, number)?;
    push(words, b", line ")?;
    push_number(words, number + 2)?;
    push(words, b" of the trace")
}

/// Adds the same of the last of several, which isn't the first.
fn push_to(words: &mut Vec<u8>, number: u64, last: u64) -> Result<(), NoMemory>
    requires { IsNumber last }
    ensures { OnOk result (words.new.items ≡ words.old.items
        ++ (if number == last then [] else codes ", to " ++ number_words last)) }
{
    if number == last {
        return Ok(());
    }
    push(words, b", to ")?;
    push_number_words(words, last)
}

/// The words for the numbers of a row and the lines of the trace that they are.
#[tactic(auto, unfolding(crate::specs::Marks::about_words))]
fn about_words(alloc: Global, number: u64, last: u64) -> Result<Vec<u8>, NoMemory>
    requires { IsNumber number × IsNumber last }
    ensures { IfOk result (λ words. words.items ≡ about_words number last) }
{
    let mut words = Vec::new(alloc);
    push_number_words(&mut words, number)?;
    push_to(&mut words, number, last)?;
    Ok(words)
}

/// Adds the title of a row.
fn push_about(alloc: Global, text: &mut Vec<u8>, number: u64, last: u64) -> Result<(), NoMemory>
    requires { IsNumber number × IsNumber last }
    ensures { OnOk result (text.new.items ≡ text.old.items ++ title (about_words number last)) }
{
    let words = about_words(alloc, number, last)?;
    push_title(text, &words)
}

/// Adds the number of the last event of a row, if it isn't the first.
fn push_last(words: &mut Vec<u8>, number: u64, last: u64) -> Result<(), NoMemory>
    ensures { OnOk result (words.new.items ≡ words.old.items
        ++ (if number == last then [] else codes "-" ++ decimal last)) }
{
    if number == last {
        return Ok(());
    }
    push(words, b"-")?;
    push_number(words, last)
}

/// The words for the numbers of a row.
#[tactic(auto, unfolding(crate::specs::Marks::numbers_words))]
fn numbers_words(alloc: Global, number: u64, last: u64) -> Result<Vec<u8>, NoMemory>
    ensures { IfOk result (λ words. words.items ≡ numbers_words number last) }
{
    let mut words = Vec::new(alloc);
    push_number(&mut words, number)?;
    push_last(&mut words, number, last)?;
    Ok(words)
}

/// Adds the numbers of a row at the left.
#[tactic(auto, unfolding(crate::specs::Marks::numbers_text))]
fn push_left(
    alloc: Global,
    text: &mut Vec<u8>,
    row: u64,
    number: u64,
    last: u64,
) -> Result<(), NoMemory>
    requires { row ≤ 1000000 }
    ensures { OnOk result (text.new.items ≡ text.old.items ++ numbers_text row number last) }
{
    let place = Point {
        x: 96,
        y: y_of(row) + 4,
    };
    let words = numbers_words(alloc, number, last)?;
    push_words(text, b"number", place, &words)
}

/// Adds the mark of an event with its label.
fn push_labelled(
    alloc: Global,
    text: &mut Vec<u8>,
    ports: u8,
    row: u64,
    stop: bool,
    drawn: &Row,
) -> Result<(), NoMemory>
    requires { row ≤ 1000000 }
    ensures { OnOk result (text.new.items ≡ text.old.items
        ++ mark_text ports row stop (mark_of drawn.now.event) (label drawn.now)) }
{
    let words = label(alloc, drawn)?;
    push_mark(text, ports, row, stop, mark_of(&drawn.event), &words)
}

/// Adds an event.
#[tactic(auto, unfolding(crate::specs::Marks::row_text))]
fn push_row(
    alloc: Global,
    text: &mut Vec<u8>,
    ports: u8,
    row: u64,
    stop: bool,
    drawn: &Row,
) -> Result<(), NoMemory>
    requires row { row ≤ 1000000 }
    requires number { IsNumbered drawn.now }
    ensures { OnOk result (text.new.items ≡ text.old.items ++ row_text ports row stop drawn.now) }
{
    push(text, b"<g>")?;
    push_about(alloc, text, drawn.number, drawn.last)?;
    push_left(alloc, text, row, drawn.number, drawn.last)?;
    push_labelled(alloc, text, ports, row, stop, drawn)?;
    push(text, b"</g>\n")
}

/// The words for events that are left out.
#[tactic(auto, unfolding(crate::specs::Marks::left_out_words))]
fn left_out_words(alloc: Global, count: u64) -> Result<Vec<u8>, NoMemory>
    ensures { IfOk result (λ words. words.items ≡ left_out_words count) }
{
    let mut words = Vec::new(alloc);
    push_number(&mut words, count)?;
    push(&mut words, b" left out")?;
    Ok(words)
}

/// Adds a dotted rule above a row, with the number of events that are left out there.
#[tactic(auto, unfolding(crate::specs::Marks::gap))]
fn push_rule(
    alloc: Global,
    text: &mut Vec<u8>,
    ports: u8,
    row: u64,
    count: u64,
) -> Result<(), NoMemory>
    requires { row ≤ 1000000 }
    ensures { OnOk result (text.new.items ≡ text.old.items ++ gap ports row count) }
{
    let y = y_of(row);
    let from = Point { x: 16, y: y - 19 };
    let to = Point {
        x: width(ports) - 16,
        y: y - 19,
    };
    push_line(text, b"gap", from, to)?;
    let words = left_out_words(alloc, count)?;
    push_words(text, b"gap", Point { x: 16, y: y - 9 }, &words)
}

/// Adds what is left out above a row, if any is.
#[tactic(auto, unfolding(crate::specs::Marks::gap_text))]
pub(crate) fn push_gap(
    alloc: Global,
    text: &mut Vec<u8>,
    ports: u8,
    row: u64,
    count: u64,
) -> Result<(), NoMemory>
    requires { row ≤ 1000000 }
    ensures { OnOk result (text.new.items ≡ text.old.items ++ gap_text ports row count) }
{
    if count == 0 {
        Ok(())
    } else {
        push_rule(alloc, text, ports, row, count)
    }
}

/// Adds an event, below what is left out before it, and why it is marked, where an event that
/// breaks a rule is drawn.
#[tactic(auto, unfolding(crate::specs::Marks::event_text))]
fn push_event(
    alloc: Global,
    text: &mut Vec<u8>,
    ports: u8,
    stop: &Option<Row>,
    row: u64,
    drawn: &Row,
) -> Result<(), NoMemory>
    requires row { row ≤ 1000000 }
    requires number { IsNumbered drawn.now }
    ensures { OnOk result (text.new.items
        ≡ text.old.items ++ event_text ports stop.now row drawn.now) }
{
    push_gap(alloc, text, ports, row, drawn.left_out)?;
    push_row(alloc, text, ports, row, false, drawn)?;
    push_reason(text, ports, row, stop, drawn)
}

/// Adds the events.
pub(crate) fn push_rows(
    alloc: Global,
    text: &mut Vec<u8>,
    ports: u8,
    stop: &Option<Row>,
    rows: &[Row],
) -> Result<(), NoMemory>
    requires few { length rows.now ≤ 1000000 }
    requires numbers { AllByRecursion IsNumbered rows.now }
    ensures { OnOk result (text.new.items
        ≡ text.old.items ++ rows_text ports stop.now 0 rows.now) }
{
    for (row, drawn) in rows.iter().enumerate() {
        push_event(alloc, text, ports, stop, row as u64, drawn)?;
    }
    Ok(())
}

/// Adds the band behind the event that breaks a rule.
#[tactic(auto, unfolding(crate::specs::Marks::band))]
pub(crate) fn push_band(text: &mut Vec<u8>, ports: u8, row: u64) -> Result<(), NoMemory>
    requires { row ≤ 1000000 }
    ensures { OnOk result (text.new.items ≡ text.old.items ++ band ports row) }
{
    let corner = Point {
        x: 8,
        y: y_of(row) - 18,
    };
    let size = Size {
        width: width(ports) - 16,
        height: 30,
    };
    push_rectangle(text, b"band", corner, size)
}

/// Adds the event that breaks a rule, on its band.
#[tactic(auto, unfolding(crate::specs::Marks::stop_text))]
pub(crate) fn push_stop(
    alloc: Global,
    text: &mut Vec<u8>,
    ports: u8,
    row: u64,
    stop: &Option<Row>,
) -> Result<(), NoMemory>
    requires row { row ≤ 1000000 }
    requires number { IsStopNumbered stop.now }
    ensures { OnOk result (text.new.items ≡ text.old.items ++ stop_text ports row stop.now) }
{
    match stop {
        Some(drawn) => push_row(alloc, text, ports, row, true, drawn),
        None => Ok(()),
    }
}
