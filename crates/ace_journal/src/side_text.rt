// What a side file tells, in words.
ghost use Rattle.std.specs.Prelude.{◌≡◌, ◌++◌, OnOk};
ghost use Rattle.ace_journal.specs.SideTexts.{moment, note_text, real_part, real_words, right_in, time_column, time_text, time_words};

use ace_io::NoMemory;
use ace_malformed::{push, push_number};
use ace_side::Digits;
use ace_side_facts::SideFacts;
use ace_writer::TextBuf;
use std::alloc::Global;

/// How many spaces stand before a time at most.
const COLUMNS: usize = 64;

/// Adds the time with its unit, if there is one.
#[tactic(auto, unfolding(crate::specs::SideTexts::time_words))]
fn push_time(text: &mut Vec<u8>, facts: &SideFacts, time: Option<u64>) -> Result<(), NoMemory>
    ensures { OnOk result (text.new.items ≡ text.old.items ++ time_words facts.now time) }
{
    let Some(time) = time else {
        return Ok(());
    };
    push_number(text, time)?;
    match facts.unit() {
        None => Ok(()),
        Some(unit) => {
            push(text, b" ")?;
            push(text, unit)
        }
    }
}

/// Adds the time of the event with its unit, if it has one.
pub(crate) fn push_time_of(
    text: &mut Vec<u8>,
    facts: &SideFacts,
    event: u64,
) -> Result<(), NoMemory>
    ensures { OnOk result (text.new.items ≡ text.old.items ++ time_text facts.now event) }
{
    push_time(text, facts, facts.time(event))
}

/// Adds the words at the right of so many columns.
#[tactic(auto, unfolding(crate::specs::SideTexts::right_in))]
fn push_right(text: &mut Vec<u8>, width: usize, words: &[u8]) -> Result<(), NoMemory>
    ensures { OnOk result (text.new.items ≡ text.old.items ++ right_in width words.now) }
{
    let spaces = [b' '; COLUMNS];
    push(
        text,
        &spaces[..width.saturating_sub(words.len()).min(COLUMNS)],
    )?;
    push(text, words)
}

/// Adds the time of the event in a column of this width, if there is one.
#[tactic(auto, unfolding(crate::specs::SideTexts::time_column))]
pub(crate) fn push_time_column(
    alloc: Global,
    text: &mut Vec<u8>,
    facts: &SideFacts,
    width: usize,
    event: u64,
) -> Result<(), NoMemory>
    ensures { OnOk result (text.new.items ≡ text.old.items ++ time_column facts.now width event) }
{
    if width == 0 {
        return Ok(());
    }
    let mut time = Vec::new(alloc);
    push_time_of(&mut time, facts, event)?;
    push_right(text, width, time.as_slice())?;
    push(text, b"  ")
}

/// Adds the address in the design, if it is known.
fn push_address(text: &mut Vec<u8>, real: Option<Digits>) -> Result<(), NoMemory>
    ensures { OnOk result (text.new.items ≡ text.old.items ++ real_part real) }
{
    let Some(real) = real else {
        return Ok(());
    };
    let mut digits = TextBuf::empty();
    digits.push_digits(16, u128::from(real.value));
    push(text, b" (real address ")?;
    push(text, digits.bytes())?;
    push(text, b")")
}

/// Adds the address that the line has in the design, if it is known.
pub(crate) fn push_real(
    text: &mut Vec<u8>,
    facts: &SideFacts,
    line: Option<u32>,
) -> Result<(), NoMemory>
    ensures { OnOk result (text.new.items ≡ text.old.items ++ real_words facts.now line) }
{
    match line {
        None => Ok(()),
        Some(line) => push_address(text, facts.real(line)),
    }
}

/// Adds the remark at the event, if there is one, in a line of its own.
///
/// # Errors
///
/// `NoMemory` where there is none for the longer text.
pub fn push_note(text: &mut Vec<u8>, facts: &SideFacts, event: u64) -> Result<(), NoMemory>
    ensures { OnOk result (text.new.items ≡ text.old.items ++ note_text facts.now event) }
{
    match facts.note(event) {
        None => Ok(()),
        Some(note) => {
            push(text, b"  note: ")?;
            push(text, note)?;
            push(text, b"\n")
        }
    }
}

/// Adds at which time the event is, if that is known.
///
/// # Errors
///
/// `NoMemory` where there is none for the longer text.
#[tactic(auto, unfolding(crate::specs::SideTexts::moment))]
pub fn push_moment(
    alloc: Global,
    text: &mut Vec<u8>,
    facts: &SideFacts,
    event: u64,
) -> Result<(), NoMemory>
    ensures { OnOk result (text.new.items ≡ text.old.items ++ moment facts.now event) }
{
    let mut time = Vec::new(alloc);
    push_time_of(&mut time, facts, event)?;
    if time.is_empty() {
        return Ok(());
    }
    push(text, b"    at ")?;
    push(text, time.as_slice())
}
