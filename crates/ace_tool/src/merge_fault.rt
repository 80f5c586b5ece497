// Why results can't be put together, in words.
ghost use Rattle.std.specs.Prelude.{◌≢◌};
ghost use Rattle.ace_tool.specs.Merging.{IsFault};

use crate::list_file::ListErr;
use crate::report::open_text;
use ace_io::NoMemory;
use ace_parts::{MergeErr, PartErr};
use itoa::Buffer;
use std::alloc::Global;

/// Why results can't be put together.
#[derive(Clone, Copy)]
pub(crate) enum MergeFault {
    /// The file at this place could not be had.
    File { place: usize, error: ListErr },
    /// The texts aren't the results of the parts of one list.
    Parts { error: MergeErr },
}

/// The status where they can't.
pub(crate) fn status_of_fault(fault: MergeFault) -> u8
    ensures fault { IsFault result }
    ensures no_write_fault { result ≢ 5 }
{
    match fault {
        MergeFault::File {
            error: ListErr::NoMemory,
            ..
        } => 7,
        MergeFault::File { .. } => 4,
        MergeFault::Parts { error } => match error {
            MergeErr::NoMemory => 7,
            MergeErr::Part {
                error: PartErr::Wrong { .. },
                ..
            } => 3,
            _ => 4,
        },
    }
}

/// Adds the text.
fn push(text: &mut String, more: &str) -> Result<(), NoMemory> {
    match text.push_str(more) {
        Ok(()) => Ok(()),
        Err(_) => Err(NoMemory),
    }
}

/// Adds the number between two texts.
fn push_count(text: &mut String, front: &str, count: u64, back: &str) -> Result<(), NoMemory> {
    let mut digits = Buffer::new();
    push(text, front)?;
    push(text, digits.format(count))?;
    push(text, back)
}

/// Adds why a file could not be had.
fn push_error(text: &mut String, error: ListErr) -> Result<(), NoMemory> {
    match error {
        ListErr::Shut { error } => push(text, open_text(error)),
        ListErr::ReadFault => push(text, "read fault"),
        ListErr::NoText => push(text, "not UTF-8"),
        ListErr::NoMemory => push(text, "out of memory"),
    }
}

/// Adds the name of the file at this place.
fn push_name(text: &mut String, words: &[String], place: usize) -> Result<(), NoMemory> {
    match words.get(place) {
        Some(word) => push(text, word.as_str()),
        None => Ok(()),
    }
}

/// What stands behind the number of traces of a part that were not looked at.
fn left_end(count: u64) -> &'static str {
    if count == 1 {
        " trace of its part was not looked at"
    } else {
        " traces of its part were not looked at"
    }
}

/// Adds why the text of a file isn't the results of a part.
fn push_part_error(text: &mut String, error: PartErr) -> Result<(), NoMemory> {
    match error {
        PartErr::Cut => push(text, ": cut off: the last line of results is missing"),
        PartErr::Wrong { line } => push_count(
            text,
            ":",
            line,
            ": not as `acetool batch` writes it",
        ),
        PartErr::Left { count } => push_count(text, ": ", count, left_end(count)),
        PartErr::NoMemory => push(text, ": out of memory"),
    }
}

/// Adds why the texts of files aren't the results of the parts of one list.
fn push_merge_error(text: &mut String, words: &[String], error: MergeErr) -> Result<(), NoMemory> {
    match error {
        MergeErr::Part { place, error } => {
            push_name(text, words, place)?;
            push_part_error(text, error)
        }
        MergeErr::OtherParts { place, parts } => {
            push_name(text, words, place)?;
            push_count(text, ": one of ", parts as u64, " parts, and there are ")?;
            push_count(text, "", words.len() as u64, " files")
        }
        MergeErr::Missing { part } => push_count(text, "part ", part as u64, " is missing"),
        MergeErr::Unfit { part } => {
            push_count(
                text,
                "part ",
                part as u64,
                " is of another list than the others",
            )
        }
        MergeErr::NoMemory => push(text, "out of memory"),
    }
}

/// The line that tells why results in files of these names can't be put together.
///
/// # Errors
///
/// `NoMemory` where there is none for it.
pub(crate) fn fault_line(
    alloc: Global,
    words: &[String],
    fault: MergeFault,
) -> Result<String, NoMemory> {
    let mut text = String::new(alloc);
    match fault {
        MergeFault::File { place, error } => {
            push_name(&mut text, words, place)?;
            push(&mut text, ": ")?;
            push_error(&mut text, error)?;
        }
        MergeFault::Parts { error } => push_merge_error(&mut text, words, error)?,
    }
    push(&mut text, "\n")?;
    Ok(text)
}
