// The line of a trace in a list of results.
use crate::cursor::Cursor;
use ace_batch::{Entry, Outcome};
use ace_io::NoMemory;
use std::alloc::Global;

/// How a check came out that is called so in a list of results.
fn outcome_of(verdict: &[u8]) -> Option<Outcome> {
    match verdict {
        b"accepted" => Some(Outcome::Accepted),
        b"refused" => Some(Outcome::Refused),
        b"malformed" => Some(Outcome::Malformed),
        b"unfinished" => Some(Outcome::Unfinished),
        b"limit" => Some(Outcome::Limited),
        b"unreadable" => Some(Outcome::Unreadable),
        b"memory" => Some(Outcome::NoMemory),
        _ => None,
    }
}

/// Takes a number, or that there is none.
fn take_optional(cursor: &mut Cursor<'_>) -> Option<u64> {
    if cursor.skip(b"null") {
        None
    } else {
        Some(cursor.number())
    }
}

/// A path, if it is a text.
fn path_of(alloc: Global, bytes: &[u8]) -> Result<Option<String>, NoMemory> {
    let Ok(path) = str::from_utf8(bytes) else {
        return Ok(None);
    };
    match String::from_str(alloc, path) {
        Ok(path) => Ok(Some(path)),
        Err(_) => Err(NoMemory),
    }
}

/// The numbers of a line.
#[derive(Clone, Copy)]
struct Numbers {
    events: u64,
    outstanding: Option<u64>,
    line: Option<u64>,
}

/// Takes the numbers.
fn take_numbers(cursor: &mut Cursor<'_>) -> Option<Numbers> {
    if !cursor.skip(b"\",\"events\":") {
        return None;
    }
    let events = cursor.number();
    if !cursor.skip(b",\"outstanding\":") {
        return None;
    }
    let outstanding = take_optional(cursor);
    if !cursor.skip(b",\"line\":") {
        return None;
    }
    let line = take_optional(cursor);
    Some(Numbers {
        events,
        outstanding,
        line,
    })
}

/// Takes the text of a member, behind its name and before the next.
fn take_member(
    alloc: Global,
    cursor: &mut Cursor<'_>,
    name: &[u8],
) -> Result<Option<Vec<u8>>, NoMemory> {
    if !cursor.skip(name) {
        return Ok(None);
    }
    match cursor.text(alloc) {
        Ok(text) => Ok(Some(text)),
        Err(NoMemory) => Err(NoMemory),
    }
}

/// The texts of a line.
#[derive(Drop)]
struct Words {
    signature: Vec<u8>,
    message: Vec<u8>,
    text: Vec<u8>,
}

/// Takes the texts behind the numbers, and the end of the line.
fn take_words(alloc: Global, cursor: &mut Cursor<'_>) -> Result<Option<Words>, NoMemory> {
    let Some(signature) = take_member(alloc, cursor, b",\"signature\":\"")? else {
        return Ok(None);
    };
    let Some(message) = take_member(alloc, cursor, b"\",\"message\":\"")? else {
        return Ok(None);
    };
    let Some(text) = take_member(alloc, cursor, b"\",\"text\":\"")? else {
        return Ok(None);
    };
    if !cursor.skip(b"\"}\n") {
        return Ok(None);
    }
    Ok(Some(Words {
        signature,
        message,
        text,
    }))
}

/// The names of a line: which trace it is of, and how its check came out.
#[derive(Drop)]
struct Names {
    path: String,
    outcome: Outcome,
}

/// Takes the names.
fn take_names(alloc: Global, cursor: &mut Cursor<'_>) -> Result<Option<Names>, NoMemory> {
    let Some(path) = take_member(alloc, cursor, b"{\"file\":\"")? else {
        return Ok(None);
    };
    let Some(path) = path_of(alloc, path.as_slice())? else {
        return Ok(None);
    };
    let Some(verdict) = take_member(alloc, cursor, b"\",\"verdict\":\"")? else {
        return Ok(None);
    };
    match outcome_of(verdict.as_slice()) {
        Some(outcome) => Ok(Some(Names { path, outcome })),
        None => Ok(None),
    }
}

/// Takes the line of a trace, if one comes next.
///
/// # Errors
///
/// `NoMemory` where there is none for it.
pub(crate) fn take_entry(
    alloc: Global,
    cursor: &mut Cursor<'_>,
) -> Result<Option<Entry>, NoMemory> {
    let Some(names) = take_names(alloc, cursor)? else {
        return Ok(None);
    };
    let Some(numbers) = take_numbers(cursor) else {
        return Ok(None);
    };
    let Some(words) = take_words(alloc, cursor)? else {
        return Ok(None);
    };
    Ok(Some(Entry {
        path: names.path,
        outcome: names.outcome,
        events: numbers.events,
        outstanding: numbers.outstanding,
        line: numbers.line,
        signature: words.signature,
        message: words.message,
        text: words.text,
    }))
}
