// Puts the results of the parts of a list together.
ghost use Rattle.std.specs.Prelude.{◌≡◌, None, bytes_eq, IfOk};
ghost use Rattle.std.specs.List.{list_any};
ghost use Rattle.ace_parts.specs.Merging.{ArePartsOf, part_text, texts_of};

use crate::part::{Part, PartErr};
use crate::reading::read_part;
use crate::whole::whole_of;
use ace_batch::{Entry, Shard, push_part_results};
use ace_io::NoMemory;
use std::alloc::Global;

/// Why texts aren't the results of the parts of one list.
#[derive(Clone, Copy, Debug, PartialEq, Eq)]
pub enum MergeErr {
    /// The text at this place isn't the results of a part.
    Part { place: usize, error: PartErr },
    /// The text at this place is the results of a part of another number of parts than there are
    /// texts.
    OtherParts { place: usize, parts: usize },
    /// None of the texts is the results of this part, counted from 1.
    Missing { part: usize },
    /// The results of this part don't fit those of the others: they are of different lists.
    Unfit { part: usize },
    /// There was no memory.
    NoMemory,
}

/// The parts whose results these are.
fn read_all(alloc: Global, texts: &[&[u8]]) -> Result<Vec<Part>, MergeErr> {
    let mut parts = Vec::new(alloc);
    for place in 0..texts.len() {
        match read_part(alloc, texts[place]) {
            Ok(part) => {
                if part.shard.parts != texts.len() {
                    return Err(MergeErr::OtherParts {
                        place,
                        parts: part.shard.parts,
                    });
                }
                if parts.push(part).is_err() {
                    return Err(MergeErr::NoMemory);
                }
            }
            Err(PartErr::NoMemory) => return Err(MergeErr::NoMemory),
            Err(error) => return Err(MergeErr::Part { place, error }),
        }
    }
    Ok(parts)
}

/// The text is one of these.
fn has_text(texts: &[&[u8]], text: &[u8]) -> bool
    ensures { result ≡ list_any (bytes_eq text.now) (texts_of texts.now) }
{
    for other in texts {
        if text == *other {
            return true;
        }
    }
    false
}

/// What is written of the results of this part of the list.
fn text_in(alloc: Global, shard: &Shard, entries: &[Entry]) -> Result<Vec<u8>, NoMemory>
    ensures { IfOk result (λ text. text.items
        ≡ part_text shard.now.part shard.now.parts entries.now) }
{
    let mut text = Vec::new(alloc);
    push_part_results(&mut text, shard, entries)?;
    Ok(text)
}

/// Whether what is written of the results of this part of the list is one of the texts.
fn has_part(
    alloc: Global,
    shard: &Shard,
    texts: &[&[u8]],
    entries: &[Entry],
) -> Result<bool, NoMemory>
    ensures { IfOk result (λ has. has ≡ list_any (bytes_eq (part_text shard.now.part
        shard.now.parts entries.now)) (texts_of texts.now)) }
{
    let text = text_in(alloc, shard, entries)?;
    Ok(has_text(texts, text.as_slice()))
}

/// The results are those of this part.
fn is_part(part: &Part, number: usize) -> bool {
    part.shard.part == number
}

/// One of the results is that of this part.
fn has_number(parts: &[Part], number: usize) -> bool {
    for part in parts {
        if is_part(part, number) {
            return true;
        }
    }
    false
}

/// The first part of which there are no results.
fn first_missing(parts: &[Part]) -> Option<usize> {
    for place in 0..parts.len() {
        if !has_number(parts, place + 1) {
            return Some(place + 1);
        }
    }
    None
}

/// The first part whose results aren't among the texts, where these are of the list.
fn first_unfit(alloc: Global, texts: &[&[u8]], entries: &[Entry]) -> Result<Option<usize>, NoMemory>
    ensures { IfOk result (λ unfit. unfit ≡ None
        → ArePartsOf (texts_of texts.now) entries.now) }
{
    let parts = texts.len();
    for place in 0..parts {
        let shard = Shard {
            part: place + 1,
            parts,
        };
        if !has_part(alloc, &shard, texts, entries)? {
            return Ok(Some(place + 1));
        }
    }
    Ok(None)
}

/// The results of a list of traces whose parts have these results, where no two are of one part.
///
/// # Errors
///
/// Why they aren't the results of the parts of one list.
pub fn merge(alloc: Global, texts: &[&[u8]]) -> Result<Vec<Entry>, MergeErr>
    ensures { IfOk result (λ entries. ArePartsOf (texts_of texts.now) entries.items) }
{
    let mut parts = read_all(alloc, texts)?;
    if let Some(part) = first_missing(parts.as_slice()) {
        return Err(MergeErr::Missing { part });
    }
    let Ok(entries) = whole_of(alloc, parts.as_mut_slice()) else {
        return Err(MergeErr::NoMemory);
    };
    match first_unfit(alloc, texts, entries.as_slice()) {
        Ok(None) => Ok(entries),
        Ok(Some(part)) => Err(MergeErr::Unfit { part }),
        Err(NoMemory) => Err(MergeErr::NoMemory),
    }
}
