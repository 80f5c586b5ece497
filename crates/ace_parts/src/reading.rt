// The results of a part of a list of traces.
ghost use Rattle.std.specs.Prelude.{◌≡◌, IfOk};
ghost use Rattle.ace_batch.specs.Json.{results_json};

use crate::cursor::Cursor;
use crate::part::{Part, PartErr};
use crate::read_entry::take_entry;
use ace_batch::{Entry, Shard, push_results};
use ace_io::NoMemory;
use std::alloc::Global;

/// Why the results can't be read on at the line behind so many.
fn wrong_at(cursor: &Cursor<'_>, lines: u64) -> PartErr {
    if cursor.is_at_end() {
        PartErr::Cut
    } else {
        PartErr::Wrong {
            line: lines.saturating_add(1),
        }
    }
}

/// The first line: which part it is, and how many traces follow.
#[derive(Clone, Copy)]
struct Head {
    shard: Shard,
    count: u64,
}

/// The part of so many, if there is one.
fn shard_in(part: u64, parts: u64) -> Option<Shard> {
    if 0 < part && part <= parts {
        Some(Shard {
            part: part as usize,
            parts: parts as usize,
        })
    } else {
        None
    }
}

/// Takes the first line.
fn take_head(cursor: &mut Cursor<'_>) -> Option<Head> {
    if !cursor.skip(b"{\"format\":\"ace batch 1\",\"shard\":\"") {
        return None;
    }
    let part = cursor.number();
    if !cursor.skip(b"/") {
        return None;
    }
    let parts = cursor.number();
    if !cursor.skip(b"\",\"traces\":") {
        return None;
    }
    let count = cursor.number();
    if !cursor.skip(b"}\n") {
        return None;
    }
    match shard_in(part, parts) {
        Some(shard) => Some(Head { shard, count }),
        None => None,
    }
}

/// Takes the lines of so many traces.
fn take_entries(alloc: Global, cursor: &mut Cursor<'_>, count: u64) -> Result<Vec<Entry>, PartErr> {
    let mut entries = Vec::new(alloc);
    for place in 0..count {
        match take_entry(alloc, cursor) {
            Ok(Some(entry)) => {
                if entries.push(entry).is_err() {
                    return Err(PartErr::NoMemory);
                }
            }
            Ok(None) => return Err(wrong_at(cursor, place.saturating_add(1))),
            Err(NoMemory) => return Err(PartErr::NoMemory),
        }
    }
    Ok(entries)
}

/// Takes what stands behind the front of the last line, and says whether it ends the text.
fn take_end(cursor: &mut Cursor<'_>) -> bool {
    if !cursor.skip(b"end\":") {
        return false;
    }
    let _count = cursor.number();
    cursor.skip(b"}\n") && cursor.is_at_end()
}

/// Takes the last line, behind so many others.
fn take_tail(cursor: &mut Cursor<'_>, lines: u64) -> Result<(), PartErr> {
    if !cursor.skip(b"{\"") {
        return Err(wrong_at(cursor, lines));
    }
    if cursor.skip(b"left\":") {
        return Err(PartErr::Left {
            count: cursor.number(),
        });
    }
    if take_end(cursor) {
        Ok(())
    } else {
        Err(wrong_at(cursor, lines))
    }
}

/// What the text may be the results of.
fn take_part(alloc: Global, bytes: &[u8]) -> Result<Part, PartErr> {
    let mut cursor = Cursor::new(bytes);
    let Some(head) = take_head(&mut cursor) else {
        return Err(wrong_at(&cursor, 0));
    };
    let entries = take_entries(alloc, &mut cursor, head.count)?;
    take_tail(&mut cursor, head.count.saturating_add(1))?;
    Ok(Part {
        shard: head.shard,
        entries,
    })
}

/// The text of the results of the part.
fn text_of(alloc: Global, part: &Part) -> Result<Vec<u8>, NoMemory>
    ensures { IfOk result (λ text. text.items ≡ results_json part.now.shard.part
        part.now.shard.parts 0 part.now.entries.items) }
{
    let mut text = Vec::new(alloc);
    push_results(&mut text, &part.shard, 0, part.entries.as_slice())?;
    Ok(text)
}

/// The part whose results the text is, which holds nothing else, where all of its traces were looked
/// at.
///
/// # Errors
///
/// Why it is none; a text that reads as results and isn't written so is wrong in its first line.
pub fn read_part(alloc: Global, bytes: &[u8]) -> Result<Part, PartErr>
    ensures { IfOk result (λ part. bytes.now ≡ results_json part.shard.part part.shard.parts 0
        part.entries.items) }
{
    let part = take_part(alloc, bytes)?;
    match text_of(alloc, &part) {
        Ok(text) => {
            if text.as_slice() == bytes {
                Ok(part)
            } else {
                Err(PartErr::Wrong { line: 1 })
            }
        }
        Err(NoMemory) => Err(PartErr::NoMemory),
    }
}
