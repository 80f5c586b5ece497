// The text of what led to an event.
ghost use Rattle.std.specs.Prelude.{◌≡◌, ◌++◌, IfOk, OnOk, codes, if◌then◌else◌};
ghost use Rattle.ace_journal.specs.LedTexts.{earlier_row, earlier_words, event_words, gap_start, heading_text, heading_words, is_many, led_text, line_words, marked_row, numbers_text, own_row, right_of, row_text, rows_text, told_words, transfers_of, width_of};
ghost use Rattle.ace_model.specs.AddressRules.{is_aligned};

use crate::led::Led;
use crate::looks::Looks;
use crate::marks::{looks_for, port_of, push_marks};
use crate::rows::{Row, earlier_than};
use crate::side_text::{push_real, push_time_column, push_time_of};
use ace_clauses::Letter;
use ace_event_words::{Deed, Transfers, push_deed, record_column};
use ace_io::NoMemory;
use ace_malformed::{push, push_number};
use ace_side_facts::SideFacts;
use ace_writer::TextBuf;
use std::alloc::Global;

/// How wide the numbers are.
const COLUMNS: usize = 9;

/// The row stands for more than one event.
fn is_many(row: &Row) -> bool
    ensures { result ≡ is_many row.now }
{
    row.first != row.last
}

/// Adds the number of its event, or of the first and the last.
#[tactic(auto, unfolding(crate::specs::LedTexts::numbers_text))]
fn push_numbers(text: &mut Vec<u8>, row: &Row) -> Result<(), NoMemory>
    ensures { OnOk result (text.new.items ≡ text.old.items ++ numbers_text row.now) }
{
    push_number(text, row.first)?;
    if is_many(row) {
        push(text, b"-")?;
        push_number(text, row.last)?;
    }
    Ok(())
}

/// Adds the words at the right of nine columns.
#[tactic(auto, unfolding(crate::specs::LedTexts::right_of))]
fn push_right(text: &mut Vec<u8>, words: &[u8]) -> Result<(), NoMemory>
    ensures { OnOk result (text.new.items ≡ text.old.items ++ right_of words.now) }
{
    let spaces = [b' '; COLUMNS];
    push(text, &spaces[..COLUMNS.saturating_sub(words.len())])?;
    push(text, words)
}

/// How many transfers the row tells of, if it tells of any.
pub fn transfers_of(row: &Row) -> Transfers
    ensures { result ≡ transfers_of row.now }
{
    if is_many(row) {
        Transfers::Several
    } else {
        Transfers::One
    }
}

/// Adds the record, and what it does.
#[tactic(auto, unfolding(crate::specs::LedTexts::told_words))]
fn push_told(text: &mut Vec<u8>, transfers: Transfers, deed: &Deed) -> Result<(), NoMemory>
    ensures { OnOk result (text.new.items ≡ text.old.items ++ told_words transfers deed.now) }
{
    push(text, record_column(deed))?;
    push_deed(text, transfers, deed)
}

/// Adds a row behind what it begins with, which tells of so many transfers, up to its marks.
#[tactic(auto, unfolding(crate::specs::LedTexts::row_text))]
fn push_row(
    alloc: Global,
    text: &mut Vec<u8>,
    facts: &SideFacts,
    width: usize,
    start: &[u8],
    transfers: Transfers,
    row: &Row,
) -> Result<(), NoMemory>
    ensures { OnOk result (text.new.items
        ≡ text.old.items ++ row_text facts.now width start.now transfers row.now) }
{
    let mut numbers = Vec::new(alloc);
    push_numbers(&mut numbers, row)?;
    push(text, start)?;
    push_right(text, numbers.as_slice())?;
    push(text, b"  ")?;
    push_time_column(alloc, text, facts, width, row.last)?;
    push_told(text, transfers, &row.deed)
}

/// The address is that of a line.
fn is_aligned(address: u32) -> bool
    ensures { result ≡ is_aligned address }
{
    address % 64 == 0
}

/// What stands before an address.
fn address_words(address: u32) -> &'static [u8]
    ensures { result.now ≡ (if is_aligned address then codes ", line " else codes ", address ") }
{
    if is_aligned(address) {
        b", line "
    } else {
        b", address "
    }
}

/// Adds the line, if there is one.
#[tactic(auto, unfolding(crate::specs::LedTexts::line_words))]
fn push_line(text: &mut Vec<u8>, line: Option<u32>) -> Result<(), NoMemory>
    ensures { OnOk result (text.new.items ≡ text.old.items ++ line_words line) }
{
    if let Some(line) = line {
        let mut digits = TextBuf::empty();
        digits.push_digits(8, u128::from(line));
        push(text, address_words(line))?;
        push(text, digits.bytes())?;
    }
    Ok(())
}

/// Adds the event in words, with the address that its line has in the design, where that is known.
///
/// # Errors
///
/// `NoMemory` where there is none for the longer text.
#[tactic(auto, unfolding(crate::specs::LedTexts::event_words))]
pub fn push_event_words(text: &mut Vec<u8>, facts: &SideFacts, led: &Led) -> Result<(), NoMemory>
    ensures { OnOk result (text.new.items ≡ text.old.items ++ event_words facts.now led.now) }
{
    push(text, b"  ")?;
    push_deed(text, led.transfers, &led.own.deed)?;
    push_line(text, led.line)?;
    push_real(text, facts, led.line)?;
    push(text, b"\n")
}

/// What stands before the rows.
#[tactic(auto, unfolding(crate::specs::LedTexts::heading_words))]
fn heading_words() -> &'static [u8]
    ensures { result.now ≡ heading_words }
{
    b"\n  What led here"
}

/// Adds the heading.
#[tactic(auto, unfolding(crate::specs::LedTexts::heading_text))]
fn push_heading(text: &mut Vec<u8>, line: Option<u32>) -> Result<(), NoMemory>
    ensures { OnOk result (text.new.items ≡ text.old.items ++ heading_text line) }
{
    push(text, heading_words())?;
    push_line(text, line)?;
    push(text, b"\n")
}

/// Adds the row, behind which these newer ones stand, with its marks.
#[tactic(auto, unfolding(crate::specs::LedTexts::marked_row))]
fn push_marked(
    alloc: Global,
    text: &mut Vec<u8>,
    facts: &SideFacts,
    width: usize,
    looks: &Looks,
    port: u8,
    newer: &[Row],
    row: &Row,
) -> Result<(), NoMemory>
    ensures { OnOk result (text.new.items
        ≡ text.old.items ++ marked_row facts.now width looks.now port newer.now row.now) }
{
    push_row(alloc, text, facts, width, b"    ", transfers_of(row), row)?;
    push_marks(text, looks, port, newer, row)?;
    push(text, b"\n")
}

/// Adds the rows, the oldest first.
#[tactic(auto, using(crate::proofs::RowSteps::rows_step))]
fn push_rows(
    alloc: Global,
    text: &mut Vec<u8>,
    facts: &SideFacts,
    width: usize,
    looks: &Looks,
    port: u8,
    rows: &[Row],
) -> Result<(), NoMemory>
    ensures { OnOk result (text.new.items
        ≡ text.old.items ++ rows_text facts.now width looks.now port rows.now 0 rows.now) }
{
    let mut left = rows.len();
    while left > 0 {
        left -= 1;
        push_marked(
            alloc,
            text,
            facts,
            width,
            looks,
            port,
            &rows[..left],
            &rows[left],
        )?;
    }
    Ok(())
}

/// How wide the column of times is: as the time of the event itself.
fn width_of(alloc: Global, facts: &SideFacts, led: &Led) -> Result<usize, NoMemory>
    ensures { IfOk result (λ width. width ≡ width_of facts.now led.now) }
{
    let mut time = Vec::new(alloc);
    push_time_of(&mut time, facts, led.own.last)?;
    Ok(time.len())
}

/// What so many earlier events are called: those of a line, or those without one.
#[tactic(auto, unfolding(crate::specs::LedTexts::earlier_words))]
fn push_earlier_words(text: &mut Vec<u8>, line: Option<u32>, count: u64) -> Result<(), NoMemory>
    ensures { OnOk result (text.new.items ≡ text.old.items ++ earlier_words line count) }
{
    if count == 1 {
        push(text, b" earlier event")?;
    } else {
        push(text, b" earlier events")?;
    }
    match line {
        Some(_) => push(text, b" of the line\n"),
        None => push(text, b" without a line\n"),
    }
}

/// What the row begins with that tells of earlier events.
#[tactic(auto, unfolding(crate::specs::LedTexts::gap_start))]
fn gap_start() -> &'static [u8]
    ensures { result.now ≡ gap_start }
{
    b"          ...  "
}

/// Adds that so many events came before the rows, if any did.
#[tactic(auto, unfolding(crate::specs::LedTexts::earlier_row))]
fn push_earlier(text: &mut Vec<u8>, line: Option<u32>, count: u64) -> Result<(), NoMemory>
    ensures { OnOk result (text.new.items ≡ text.old.items ++ earlier_row line count) }
{
    if count == 0 {
        return Ok(());
    }
    push(text, gap_start())?;
    push_number(text, count)?;
    push_earlier_words(text, line, count)
}

/// Adds the row of the event itself.
#[tactic(auto, unfolding(crate::specs::LedTexts::own_row))]
fn push_own(
    alloc: Global,
    text: &mut Vec<u8>,
    facts: &SideFacts,
    width: usize,
    led: &Led,
) -> Result<(), NoMemory>
    requires { width ≡ width_of facts.now led.now }
    ensures { OnOk result (text.new.items ≡ text.old.items ++ own_row facts.now led.now) }
{
    push_row(alloc, text, facts, width, b"  > ", led.transfers, &led.own)?;
    push(text, b"\n")
}

/// Adds what led to the event, which breaks this clause, and the event itself, with their times,
/// where those are known; nothing where nothing led there.
///
/// # Errors
///
/// `NoMemory` where there is none for the longer text.
#[tactic(auto, unfolding(crate::specs::LedTexts::led_text))]
pub fn push_led(
    alloc: Global,
    text: &mut Vec<u8>,
    facts: &SideFacts,
    rule: u8,
    letter: Letter,
    led: &Led,
) -> Result<(), NoMemory>
    ensures { OnOk result (text.new.items
        ≡ text.old.items ++ led_text facts.now rule letter led.now) }
{
    if led.count == 0 {
        return Ok(());
    }
    let looks = looks_for(led.line, rule, letter);
    let width = width_of(alloc, facts, led)?;
    let port = port_of(&led.own.deed);
    let rows = &led.rows[..led.count];
    push_heading(text, led.line)?;
    push_earlier(text, led.line, earlier_than(rows))?;
    push_rows(alloc, text, facts, width, &looks, port, rows)?;
    push_own(alloc, text, facts, width, led)
}
