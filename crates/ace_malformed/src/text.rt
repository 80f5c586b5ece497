// What is told of a malformed line.
ghost use Rattle.std.specs.Prelude.{◌≡◌, ◌-◌, ◌++◌, IfOk, OnOk, drop, replicate, take};
ghost use Rattle.ace_malformed.specs.Places.{column_of};
ghost use Rattle.ace_malformed.specs.Sentences.{expected};
ghost use Rattle.ace_malformed.specs.Texts.{bad_line_text, caret, events_read, expected_line, first_line, hidden, line_part, line_shown, place_text, read_line, reason_part, rest_of_text, verdict_words, window};

use crate::bad_line::BadLine;
use crate::expected::push_expected;
use crate::place::column_of;
use crate::pushing::{push, push_number};
use crate::shown::push_shown;
use crate::wrong::{front, push_wrong};
use ace_io::NoMemory;
use std::alloc::Global;

/// What stands before a caret.
static SPACES: [u8; 64] = [b' '; 64];

/// Adds a place in a file.
#[tactic(auto, unfolding(crate::specs::Texts::place_text))]
fn push_place(text: &mut Vec<u8>, name: &[u8], line: u64, column: usize) -> Result<(), NoMemory>
    ensures { OnOk result (text.new.items ≡ text.old.items ++ place_text name.now line column) }
{
    push(text, name)?;
    push(text, b":")?;
    push_number(text, line)?;
    push(text, b":")?;
    push_number(text, column as u64)
}

/// What stands before the number of the line.
#[tactic(auto, unfolding(crate::specs::Texts::verdict_words))]
fn verdict_words() -> &'static [u8]
    ensures { result.now ≡ verdict_words }
{
    b": malformed line "
}

/// Adds which line is malformed.
#[tactic(auto, unfolding(crate::specs::Texts::line_part))]
fn push_number_of_line(text: &mut Vec<u8>, line: u64) -> Result<(), NoMemory>
    ensures { OnOk result (text.new.items ≡ text.old.items ++ line_part line) }
{
    push(text, verdict_words())?;
    push_number(text, line)
}

/// Adds the reason.
#[tactic(auto, unfolding(crate::specs::Texts::reason_part))]
fn push_reason(text: &mut Vec<u8>, reason: u8) -> Result<(), NoMemory>
    ensures { OnOk result (text.new.items ≡ text.old.items ++ reason_part reason) }
{
    push(text, b": F")?;
    push_number(text, u64::from(reason))?;
    push(text, b": ")
}

/// Adds the first line.
#[tactic(auto, unfolding(crate::specs::Texts::first_line))]
fn push_first(text: &mut Vec<u8>, name: &[u8], bad: &BadLine) -> Result<(), NoMemory>
    ensures { OnOk result (text.new.items ≡ text.old.items ++ first_line name.now bad.now) }
{
    push_place(text, name, bad.number, column_of(bad))?;
    push_number_of_line(text, bad.number)?;
    push_reason(text, bad.reason.number())?;
    push_wrong(text, bad)?;
    push(text, b"\n")
}

/// How many bytes of the line stand before those that are shown.
#[tactic(auto, unfolding(crate::specs::Texts::hidden))]
fn hidden(bad: &BadLine) -> usize
    ensures { result ≡ hidden bad.now }
{
    column_of(bad).saturating_sub(51)
}

/// The bytes behind so many.
#[tactic(auto, using(crate::proofs::Slices::slices))]
fn behind(line: &[u8], start: usize) -> &[u8]
    ensures { result.now ≡ drop start line.now }
{
    if start < line.len() {
        &line[start..]
    } else {
        b""
    }
}

/// Up to 100 bytes behind so many.
#[tactic(auto, unfolding(crate::specs::Texts::window))]
fn window(line: &[u8], start: usize) -> &[u8]
    ensures { result.now ≡ window start line.now }
{
    front(behind(line, start), 100)
}

/// Adds the line, up to 100 bytes of it.
#[tactic(auto, unfolding(crate::specs::Texts::line_shown))]
fn push_line(text: &mut Vec<u8>, bad: &BadLine) -> Result<(), NoMemory>
    ensures { OnOk result (text.new.items ≡ text.old.items ++ line_shown bad.now) }
{
    push(text, b"\n  ")?;
    push_shown(text, window(bad.line.bytes(), hidden(bad)))?;
    push(text, b"\n")
}

/// What stands before the caret.
#[tactic(auto, unfolding(crate::specs::Texts::hidden))]
fn spaces(bad: &BadLine) -> &'static [u8]
    ensures { result.now ≡ take (column_of bad.now - 1 - hidden bad.now) (replicate 64 32) }
{
    let before = column_of(bad).saturating_sub(1).saturating_sub(hidden(bad));
    &SPACES[..before]
}

/// Adds a caret below the column.
#[tactic(auto, unfolding(crate::specs::Texts::caret))]
fn push_caret(text: &mut Vec<u8>, bad: &BadLine) -> Result<(), NoMemory>
    ensures { OnOk result (text.new.items ≡ text.old.items ++ caret bad.now) }
{
    push(text, b"  ")?;
    push(text, spaces(bad))?;
    push(text, b"^\n")
}

/// Adds what may stand there.
#[tactic(auto, unfolding(crate::specs::Texts::expected_line))]
fn push_expected_line(alloc: Global, text: &mut Vec<u8>, bad: &BadLine) -> Result<(), NoMemory>
    ensures { OnOk result (text.new.items ≡ text.old.items ++ expected_line (expected bad.now)) }
{
    let mut words = Vec::new(alloc);
    push_expected(&mut words, bad)?;
    if words.is_empty() {
        return Ok(());
    }
    push(text, b"  expected  ")?;
    push(text, words.as_slice())?;
    push(text, b"\n")
}

/// Adds that so many events were read.
#[tactic(auto, unfolding(crate::specs::Texts::events_read))]
fn push_events(text: &mut Vec<u8>, count: u64) -> Result<(), NoMemory>
    ensures { OnOk result (text.new.items ≡ text.old.items ++ events_read count) }
{
    push(text, b"  Events 1 to ")?;
    push_number(text, count)?;
    push(text, b" were read, and break no rule.\n")
}

/// Adds how many events were read before the line of this number.
#[tactic(auto, unfolding(crate::specs::Texts::read_line))]
fn push_read(text: &mut Vec<u8>, number: u64) -> Result<(), NoMemory>
    ensures { OnOk result (text.new.items ≡ text.old.items ++ read_line number) }
{
    if number < 3 {
        Ok(())
    } else if number == 3 {
        push(text, b"  No event was read.\n")
    } else if number == 4 {
        push(text, b"  Event 1 was read, and breaks no rule.\n")
    } else {
        push_events(text, number - 3)
    }
}

/// Adds the line with its place, and what may stand there.
#[tactic(auto, unfolding(crate::specs::Texts::rest_of_text))]
fn push_rest(alloc: Global, text: &mut Vec<u8>, bad: &BadLine) -> Result<(), NoMemory>
    ensures { OnOk result (text.new.items ≡ text.old.items ++ rest_of_text bad.now) }
{
    push_line(text, bad)?;
    push_caret(text, bad)?;
    push_expected_line(alloc, text, bad)?;
    push_read(text, bad.number)
}

/// Adds what is told of the line.
#[tactic(auto, unfolding(crate::specs::Texts::bad_line_text))]
fn push_bad_line(
    alloc: Global,
    text: &mut Vec<u8>,
    name: &[u8],
    short: bool,
    bad: &BadLine,
) -> Result<(), NoMemory>
    ensures { OnOk result (text.new.items ≡ text.old.items
        ++ bad_line_text name.now short bad.now) }
{
    push_first(text, name, bad)?;
    if !short {
        push_rest(alloc, text, bad)?;
    }
    Ok(())
}

/// What is told of the malformed line in the trace of this name: the first line alone where that
/// was asked for.
///
/// # Errors
///
/// `NoMemory` where there is none for the text.
pub fn bad_line_text(
    alloc: Global,
    name: &[u8],
    short: bool,
    bad: &BadLine,
) -> Result<Vec<u8>, NoMemory>
    ensures { IfOk result (λ text. text.items ≡ bad_line_text name.now short bad.now) }
{
    let mut text = Vec::new(alloc);
    push_bad_line(alloc, &mut text, name, short, bad)?;
    Ok(text)
}
