// The bars of a chart: the states of the line, its grant, and whether memory is behind. Each row
// has its part of them, which ends at its event.
ghost use Rattle.std.specs.Prelude.{◌≡◌, ◌≤◌, ◌++◌, ◌+◌, OnOk, codes, length};
ghost use Rattle.ace_chart.specs.Cells.{bar, behind_cell, grant_cell, grant_title, granted_to, half_width, has_the_line, last_cells, look_cells, memory_class, memory_words, rows_cells, state_cell, state_cells, state_title};

use crate::places::{Lifeline, x_of, y_of};
use crate::rows::{Look, Row};
use ace_codes::LineState;
use ace_event_words::transaction_words;
use ace_io::NoMemory;
use ace_model::Transaction;
use ace_svg::{
    Point, Size, push, push_number, push_rectangle, push_title, push_words, title_end, title_start,
};
use ace_tables::{is_invalid, is_unique};
use ace_words::state_word;

/// Half of the width of a bar: wide where the line is unique.
fn half_width(state: LineState) -> u64
    ensures { result ≡ half_width state }
{
    if is_unique(state) { 9 } else { 5 }
}

/// Adds a part of a bar at the lifeline, which ends at the event of the row.
#[tactic(auto, unfolding(crate::specs::Cells::bar))]
fn push_bar(
    text: &mut Vec<u8>,
    ports: u8,
    row: u64,
    at: Lifeline,
    class: &[u8],
    half: u64,
) -> Result<(), NoMemory>
    requires row { row ≤ 1000001 }
    requires half { half ≤ 20 }
    ensures { OnOk result (text.new.items ≡ text.old.items ++ bar ports row at class.now half) }
{
    let corner = Point {
        x: x_of(ports, at) - half,
        y: y_of(row) - 24,
    };
    let size = Size {
        width: 2 * half,
        height: 24,
    };
    push_rectangle(text, class, corner, size)
}

/// The words between a port and the state in which it has the line.
#[tactic(auto, unfolding(crate::specs::Cells::has_the_line))]
fn has_the_line() -> &'static [u8]
    ensures { result.now ≡ has_the_line }
{
    b" has the line in "
}

/// Adds the title of a state.
#[tactic(auto, unfolding(crate::specs::Cells::state_title))]
fn push_state_title(text: &mut Vec<u8>, port: u8, state: LineState) -> Result<(), NoMemory>
    ensures { OnOk result (text.new.items ≡ text.old.items ++ state_title port state) }
{
    push(text, title_start())?;
    push(text, b"port ")?;
    push_number(text, u64::from(port))?;
    push(text, has_the_line())?;
    push(text, state_word(state))?;
    push(text, title_end())
}

/// Adds the part of the bar of a port that the row has: none where the port doesn't hold the line.
#[tactic(auto, unfolding(crate::specs::Cells::state_cell))]
fn push_state(
    text: &mut Vec<u8>,
    ports: u8,
    row: u64,
    port: u8,
    state: LineState,
) -> Result<(), NoMemory>
    requires { row ≤ 1000001 }
    ensures { OnOk result (text.new.items ≡ text.old.items ++ state_cell ports row port state) }
{
    if is_invalid(state) {
        return Ok(());
    }
    let at = Lifeline::Port(port);
    push(text, b"<g>")?;
    push_state_title(text, port, state)?;
    push_bar(text, ports, row, at, state_word(state), half_width(state))?;
    let place = Point {
        x: x_of(ports, at),
        y: y_of(row) - 9,
    };
    push_words(text, b"state", place, state_word(state))?;
    push(text, b"</g>\n")
}

/// Adds the parts of the bars of all ports that the row has.
fn push_states(
    text: &mut Vec<u8>,
    ports: u8,
    row: u64,
    states: &[LineState; 32],
) -> Result<(), NoMemory>
    requires { row ≤ 1000001 }
    ensures { OnOk result (text.new.items
        ≡ text.old.items ++ state_cells ports row 0 states.now) }
{
    for port in 0..32u8 {
        push_state(text, ports, row, port, states[usize::from(port)])?;
    }
    Ok(())
}

/// The words before the transaction of a grant.
#[tactic(auto, unfolding(crate::specs::Cells::granted_to))]
fn granted_to() -> &'static [u8]
    ensures { result.now ≡ granted_to }
{
    b"granted to "
}

/// Adds the title of a grant.
#[tactic(auto, unfolding(crate::specs::Cells::grant_title))]
fn push_grant_title(text: &mut Vec<u8>, transaction: &Transaction) -> Result<(), NoMemory>
    ensures { OnOk result (text.new.items ≡ text.old.items ++ grant_title transaction.now) }
{
    push(text, title_start())?;
    push(text, granted_to())?;
    push(text, transaction_words(transaction))?;
    push(text, b" of port ")?;
    push_number(text, u64::from(transaction.port))?;
    push(text, title_end())
}

/// Adds the part of the block of a grant that the row has.
#[tactic(auto, unfolding(crate::specs::Cells::grant_cell))]
fn push_grant(
    text: &mut Vec<u8>,
    ports: u8,
    row: u64,
    granted: &Option<Transaction>,
) -> Result<(), NoMemory>
    requires { row ≤ 1000001 }
    ensures { OnOk result (text.new.items ≡ text.old.items ++ grant_cell ports row granted.now) }
{
    let Some(transaction) = granted else {
        return Ok(());
    };
    push(text, b"<g>")?;
    push_grant_title(text, transaction)?;
    push_bar(text, ports, row, Lifeline::Interconnect, b"grant", 11)?;
    push(text, b"</g>\n")
}

/// What is told of memory.
#[tactic(auto, unfolding(crate::specs::Cells::memory_words))]
fn memory_words(behind: bool) -> &'static [u8]
    ensures { result.now ≡ memory_words behind }
{
    if behind {
        b"memory lacks the newest value of the line"
    } else {
        b"memory has the newest value of the line"
    }
}

/// The class of the bar of memory.
#[tactic(auto, unfolding(crate::specs::Cells::memory_class))]
fn memory_class(behind: bool) -> &'static [u8]
    ensures { result.now ≡ memory_class behind }
{
    if behind { b"behind" } else { b"current" }
}

/// Adds the part of the bar of memory that the row has.
#[tactic(auto, unfolding(crate::specs::Cells::behind_cell))]
fn push_memory(text: &mut Vec<u8>, ports: u8, row: u64, behind: bool) -> Result<(), NoMemory>
    requires { row ≤ 1000001 }
    ensures { OnOk result (text.new.items ≡ text.old.items ++ behind_cell ports row behind) }
{
    push(text, b"<g>")?;
    push_title(text, memory_words(behind))?;
    push_bar(text, ports, row, Lifeline::Memory, memory_class(behind), 4)?;
    push(text, b"</g>\n")
}

/// Adds what the row has of the bars.
#[tactic(auto, unfolding(crate::specs::Cells::look_cells))]
fn push_look(text: &mut Vec<u8>, ports: u8, row: u64, look: &Look) -> Result<(), NoMemory>
    requires { row ≤ 1000001 }
    ensures { OnOk result (text.new.items ≡ text.old.items ++ look_cells ports row look.now) }
{
    push_states(text, ports, row, &look.states)?;
    push_grant(text, ports, row, &look.granted)?;
    push_memory(text, ports, row, look.behind)
}

/// Adds what all rows have of the bars.
pub(crate) fn push_cells(text: &mut Vec<u8>, ports: u8, rows: &[Row]) -> Result<(), NoMemory>
    requires { length rows.now ≤ 1000000 }
    ensures { OnOk result (text.new.items ≡ text.old.items ++ rows_cells ports 0 rows.now) }
{
    for (row, drawn) in rows.iter().enumerate() {
        push_look(text, ports, row as u64, &drawn.look)?;
    }
    Ok(())
}

/// Adds the ends of the bars, behind so many rows.
#[tactic(auto, unfolding(crate::specs::Cells::last_cells))]
pub(crate) fn push_last(
    text: &mut Vec<u8>,
    ports: u8,
    rows: u64,
    stop: &Option<Row>,
    last: &Look,
) -> Result<(), NoMemory>
    requires { rows ≤ 1000000 }
    ensures { OnOk result (text.new.items
        ≡ text.old.items ++ last_cells ports rows stop.now last.now) }
{
    match stop {
        None => push_look(text, ports, rows, last),
        Some(drawn) => {
            push_look(text, ports, rows, &drawn.look)?;
            push_look(text, ports, rows + 1, last)
        }
    }
}
