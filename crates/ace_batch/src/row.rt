// The line of a trace.
ghost use Rattle.std.specs.Prelude.{◌≡◌, ◌++◌, flat_map, OnOk};
ghost use Rattle.ace_batch.specs.Rows.{head_text, line_part, padded, place_text, row_text, row_width, rows_text, shown_row, what_text};

use crate::entry::Entry;
use crate::push::{push, push_number, push_spaces};
use ace_io::NoMemory;

/// How wide the names of traces and the numbers of their lines stand at least, and at most.
const LEAST: usize = 8;

const MOST: usize = 64;

/// Adds a colon and the number of the line, if there is one.
fn push_line(text: &mut Vec<u8>, line: Option<u64>) -> Result<(), NoMemory>
    ensures { OnOk result (text.new.items ≡ text.old.items ++ line_part line) }
{
    match line {
        Some(line) => {
            push(text, b":")?;
            push_number(text, line)
        }
        None => Ok(()),
    }
}

/// Adds the path, and the number of the line if there is one.
#[tactic(auto, unfolding(crate::specs::Rows::place_text))]
pub(crate) fn push_place(text: &mut Vec<u8>, entry: &Entry) -> Result<(), NoMemory>
    ensures { OnOk result (text.new.items ≡ text.old.items ++ place_text entry.now) }
{
    push(text, entry.path.as_bytes())?;
    push_line(text, entry.line)
}

/// Adds what is told.
#[tactic(auto, unfolding(crate::specs::Rows::what_text))]
fn push_what(text: &mut Vec<u8>, entry: &Entry) -> Result<(), NoMemory>
    ensures { OnOk result (text.new.items ≡ text.old.items ++ what_text entry.now) }
{
    if entry.outcome.has_name() {
        push(text, entry.signature.as_slice())?;
        push(text, b": ")?;
    }
    push(text, entry.message.as_slice())
}

/// Adds the path and the line, in so many columns at least.
#[tactic(auto, unfolding(crate::specs::Rows::padded))]
fn push_padded_place(text: &mut Vec<u8>, width: usize, entry: &Entry) -> Result<(), NoMemory>
    ensures { OnOk result (text.new.items ≡ text.old.items
        ++ padded width (place_text entry.now)) }
{
    let start = text.len();
    push_place(text, entry)?;
    push_spaces(text, width.saturating_sub(text.len() - start))
}

/// Adds the word that says how the check came out, and the place in so many columns at least.
#[tactic(auto, unfolding(crate::specs::Rows::head_text))]
fn push_head(text: &mut Vec<u8>, width: usize, entry: &Entry) -> Result<(), NoMemory>
    ensures { OnOk result (text.new.items ≡ text.old.items ++ head_text width entry.now) }
{
    push(text, entry.outcome.word())?;
    push_padded_place(text, width, entry)?;
    push(text, b"  ")
}

/// Adds the line of the trace, with its place in so many columns at least.
#[tactic(auto, unfolding(crate::specs::Rows::row_text))]
fn push_row(text: &mut Vec<u8>, width: usize, entry: &Entry) -> Result<(), NoMemory>
    ensures { OnOk result (text.new.items ≡ text.old.items ++ row_text width entry.now) }
{
    push_head(text, width, entry)?;
    push_what(text, entry)?;
    push(text, b"\n")
}

/// In how many columns the places of these traces stand.
#[tactic(auto, using(crate::proofs::RowSteps::width_step))]
fn row_width(entries: &[Entry]) -> usize
    ensures { result ≡ row_width entries.now }
{
    let mut width = LEAST;
    for entry in entries {
        width = width.max(entry.path.len());
    }
    width.min(MOST - 5) + 5
}

/// Adds the line of the trace, unless those of accepted ones are left out.
#[tactic(auto, unfolding(crate::specs::Rows::shown_row))]
fn push_shown(text: &mut Vec<u8>, failed: bool, width: usize, entry: &Entry) -> Result<(), NoMemory>
    ensures { OnOk result (text.new.items ≡ text.old.items
        ++ shown_row failed width entry.now) }
{
    if failed && entry.outcome.status() == 0 {
        return Ok(());
    }
    push_row(text, width, entry)
}

/// Adds the line of each trace, or only of those that aren't accepted.
#[tactic(auto, using(crate::proofs::RowSteps::row_step))]
fn push_each(
    text: &mut Vec<u8>,
    failed: bool,
    width: usize,
    entries: &[Entry],
) -> Result<(), NoMemory>
    ensures { OnOk result (text.new.items ≡ text.old.items
        ++ flat_map (shown_row failed width) entries.now) }
{
    for entry in entries {
        push_shown(text, failed, width, entry)?;
    }
    Ok(())
}

/// Adds the line of each trace, or only of those that aren't accepted.
///
/// # Errors
///
/// `NoMemory` where there is none for the longer text.
#[tactic(auto, unfolding(crate::specs::Rows::rows_text))]
pub fn push_rows(text: &mut Vec<u8>, failed: bool, entries: &[Entry]) -> Result<(), NoMemory>
    ensures { OnOk result (text.new.items ≡ text.old.items ++ rows_text failed entries.now) }
{
    push_each(text, failed, row_width(entries), entries)
}
