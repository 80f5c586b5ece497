// The results of a whole list, from those of its parts.
use crate::part::Part;
use ace_batch::Entry;
use ace_io::NoMemory;
use std::alloc::Global;

/// How many traces the parts have.
fn count_all(parts: &[Part]) -> usize {
    let mut count = 0usize;
    for part in parts {
        count = count.saturating_add(part.entries.len());
    }
    count
}

/// The result of the trace at this place of the list, taken from the part that has it as the last
/// one.
fn take_last(parts: &mut [Part], place: usize) -> Option<Entry> {
    let count = parts.len();
    if count == 0 {
        return None;
    }
    let number = place % count + 1;
    for part in parts {
        if part.shard.part == number {
            return part.entries.pop();
        }
    }
    None
}

/// The results of the list in the order of its traces, the last first, as far as the parts have
/// them.
fn take_backwards(alloc: Global, parts: &mut [Part]) -> Result<Vec<Entry>, NoMemory> {
    let count = count_all(parts);
    let mut entries = Vec::new(alloc);
    for place in (0..count).rev() {
        if let Some(entry) = take_last(parts, place) {
            if entries.push(entry).is_err() {
                return Err(NoMemory);
            }
        }
    }
    Ok(entries)
}

/// What the results of the whole list may be.
pub(crate) fn whole_of(alloc: Global, parts: &mut [Part]) -> Result<Vec<Entry>, NoMemory> {
    let mut entries = take_backwards(alloc, parts)?;
    entries.reverse();
    Ok(entries)
}
