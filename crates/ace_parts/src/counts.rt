// What is counted of traces, read back.
ghost use Rattle.std.specs.Prelude.{◌≡◌, IfOk};
ghost use Rattle.ace_cover.specs.Json.{cover_json};

use crate::cursor::Cursor;
use ace_cover::{Group, Totals, all_hits, all_points, groups_of, push_json, push_name};
use ace_io::NoMemory;
use ace_points::Point;
use std::alloc::Global;

/// Why a text isn't counts of traces.
#[derive(Clone, Copy, Debug, PartialEq, Eq)]
pub enum CountsErr {
    /// This line, counted from 1, is the first that isn't of them.
    Wrong { line: u64 },
    /// There was no memory for them.
    NoMemory,
}

/// What stands before the count of a point: a comma, where one of its group came before it, and its
/// name.
fn key_of(alloc: Global, point: &Point, is_first: bool) -> Result<Vec<u8>, NoMemory> {
    let mut key = Vec::new(alloc);
    let front: &[u8] = if is_first { b"\"" } else { b",\"" };
    if key.extend_from_slice(front).is_err() {
        return Err(NoMemory);
    }
    push_name(&mut key, point)?;
    match key.extend_from_slice(b"\":") {
        Ok(()) => Ok(key),
        Err(_) => Err(NoMemory),
    }
}

/// Takes the counts of the points of a group that come next; those of the others are 0.
fn take_hits(
    alloc: Global,
    cursor: &mut Cursor<'_>,
    group: &Group<'_>,
    counts: &mut Vec<u64>,
) -> Result<(), NoMemory> {
    let mut is_first = true;
    for hit in group.hits {
        let key = key_of(alloc, &hit.point, is_first)?;
        let comes = cursor.skip_whole(key.as_slice());
        let count = if comes { cursor.number() } else { 0 };
        is_first = is_first && !comes;
        if counts.push(count).is_err() {
            return Err(NoMemory);
        }
    }
    Ok(())
}

/// Takes the counts of the points of each group, and what stands around them.
fn take_groups(
    alloc: Global,
    cursor: &mut Cursor<'_>,
    groups: &[Group<'_>],
    counts: &mut Vec<u64>,
) -> Result<bool, NoMemory> {
    let mut front: &[u8] = b"\"";
    for group in groups {
        if !cursor.skip(front) || !cursor.skip(group.title) || !cursor.skip(b"\":{") {
            return Ok(false);
        }
        take_hits(alloc, cursor, group, counts)?;
        front = b"},\"";
    }
    Ok(cursor.skip(b"}}}\n"))
}

/// The number behind this text, if it comes next.
fn number_behind(cursor: &mut Cursor<'_>, front: &[u8]) -> Option<u64> {
    if cursor.skip(front) {
        Some(cursor.number())
    } else {
        None
    }
}

/// What the text may tell in its first line.
fn take_totals(alloc: Global, bytes: &[u8]) -> Result<Option<Totals>, NoMemory> {
    let mut cursor = Cursor::new(bytes);
    let front = b"{\"format\":\"ace cover 1\",\"traces\":";
    let Some(traces) = number_behind(&mut cursor, front) else {
        return Ok(None);
    };
    let Some(events) = number_behind(&mut cursor, b",\"events\":") else {
        return Ok(None);
    };
    if !cursor.skip(b",\"hits\":{") {
        return Ok(None);
    }
    let points = all_points(alloc)?;
    let nothing = Totals::none(alloc, points.as_slice())?;
    let hits = all_hits(alloc, &nothing)?;
    let mut counts = Vec::new(alloc);
    if !take_groups(alloc, &mut cursor, &groups_of(hits.as_slice()), &mut counts)? {
        return Ok(None);
    }
    Ok(Some(Totals {
        traces,
        events,
        hits: counts,
    }))
}

/// The text that tells these counts.
fn text_of(alloc: Global, totals: &Totals) -> Result<Vec<u8>, NoMemory>
    ensures { IfOk result (λ text. text.items ≡ cover_json totals.now) }
{
    let mut text = Vec::new(alloc);
    push_json(alloc, &mut text, totals)?;
    Ok(text)
}

/// The first line of the text that isn't as in this one, which has one line.
fn wrong_line(bytes: &[u8], text: &[u8]) -> u64 {
    if bytes.starts_with(text) { 2 } else { 1 }
}

/// The counts that the text tells, which tells nothing else.
///
/// # Errors
///
/// Why it tells none: it isn't as `push_json` writes them.
pub fn read_counts(alloc: Global, bytes: &[u8]) -> Result<Totals, CountsErr>
    ensures { IfOk result (λ totals. bytes.now ≡ cover_json totals) }
{
    let totals = match take_totals(alloc, bytes) {
        Ok(Some(totals)) => totals,
        Ok(None) => return Err(CountsErr::Wrong { line: 1 }),
        Err(NoMemory) => return Err(CountsErr::NoMemory),
    };
    match text_of(alloc, &totals) {
        Ok(text) => {
            if text.as_slice() == bytes {
                Ok(totals)
            } else {
                Err(CountsErr::Wrong {
                    line: wrong_line(bytes, text.as_slice()),
                })
            }
        }
        Err(NoMemory) => Err(CountsErr::NoMemory),
    }
}
