// The points that a table names.
ghost use Rattle.std.specs.Prelude.{◌≡◌, ◌++◌, flat_map, length, OnOk};
ghost use Rattle.ace_cover.specs.GroupViews.{view_of, views_of};
ghost use Rattle.ace_cover.specs.Tables.{counts_of, counts_text, hit_line, missing_by, missing_head, missing_line, missing_lines, missing_of, missing_text, more_text, more_words};

use crate::columns::push_column;
use crate::groups::{Group, groups_of};
use crate::hit::{Hit, hit_count, never_hit};
use crate::names::push_name;
use crate::push::{push, push_number, push_two};
use ace_io::NoMemory;
use std::alloc::Global;

/// Adds a point that was never hit.
#[tactic(auto, unfolding(crate::specs::Tables::missing_line))]
fn push_missing_line(text: &mut Vec<u8>, hit: &Hit) -> Result<(), NoMemory>
    ensures { OnOk result (text.new.items ≡ text.old.items ++ missing_line hit.now) }
{
    push(text, b"    ")?;
    push_name(text, &hit.point)?;
    push(text, b"\n")
}

/// Adds each of such points.
fn push_each_missing(text: &mut Vec<u8>, missing: &[Hit]) -> Result<(), NoMemory>
    ensures { OnOk result (text.new.items ≡ text.old.items ++ flat_map missing_line missing.now) }
{
    for hit in missing {
        push_missing_line(text, hit)?;
    }
    Ok(())
}

/// What stands behind how many more there are.
#[tactic(auto, unfolding(crate::specs::Tables::more_words))]
fn more_words() -> &'static [u8]
    ensures { result.now ≡ more_words }
{
    b" more: acetool cover --all\n"
}

/// Adds how many more there are.
#[tactic(auto, unfolding(crate::specs::Tables::more_text))]
fn push_more(text: &mut Vec<u8>, more: usize) -> Result<(), NoMemory>
    ensures { OnOk result (text.new.items ≡ text.old.items ++ more_text more) }
{
    push(text, b"    .. and ")?;
    push_number(text, more as u64)?;
    push(text, more_words())
}

/// Adds such points of a group: all of them, or the first twelve.
#[tactic(auto, unfolding(crate::specs::Tables::missing_lines))]
fn push_missing_lines(text: &mut Vec<u8>, missing: &[Hit], every: bool) -> Result<(), NoMemory>
    ensures { OnOk result (text.new.items ≡ text.old.items ++ missing_lines every missing.now) }
{
    if every || missing.len() < 13 {
        return push_each_missing(text, missing);
    }
    push_each_missing(text, &missing[..12])?;
    push_more(text, missing.len() - 12)
}

/// Adds the title of a group, and how many of its points were never hit.
#[tactic(auto, unfolding(crate::specs::Tables::missing_head))]
fn push_missing_head(text: &mut Vec<u8>, title: &[u8], count: usize) -> Result<(), NoMemory>
    ensures { OnOk result (text.new.items ≡ text.old.items ++ missing_head title.now count) }
{
    push_two(text, b"  ", title)?;
    push(text, b" (")?;
    push_number(text, count as u64)?;
    push(text, b")\n")
}

/// Adds such points of a group under its title, if there are any.
#[tactic(auto, using(crate::proofs::Listings::missings))]
fn push_titled(
    text: &mut Vec<u8>,
    title: &[u8],
    missing: &[Hit],
    every: bool,
) -> Result<(), NoMemory>
    ensures { OnOk result (text.new.items
        ≡ text.old.items ++ missing_by every title.now missing.now) }
{
    if missing.is_empty() {
        return Ok(());
    }
    push_missing_head(text, title, missing.len())?;
    push_missing_lines(text, missing, every)
}

/// Adds the points of a group that were never hit, if there are any.
#[tactic(auto, unfolding(crate::specs::Tables::missing_of))]
fn push_missing_of(
    alloc: Global,
    text: &mut Vec<u8>,
    group: &Group<'_>,
    every: bool,
) -> Result<(), NoMemory>
    ensures { OnOk result (text.new.items
        ≡ text.old.items ++ missing_of every (view_of group.now)) }
{
    let missing = never_hit(alloc, group.hits)?;
    push_titled(text, group.title, missing.as_slice(), every)
}

/// Adds the same of each group.
fn push_missing_of_each(
    alloc: Global,
    text: &mut Vec<u8>,
    groups: &[Group<'_>],
    every: bool,
) -> Result<(), NoMemory>
    ensures { OnOk result (text.new.items
        ≡ text.old.items ++ flat_map (missing_of every) (views_of groups.now)) }
{
    for group in groups {
        push_missing_of(alloc, text, group, every)?;
    }
    Ok(())
}

/// Adds the points that were never hit, if there are any: all of them, or the first twelve of each
/// group.
#[tactic(auto, unfolding(crate::specs::Tables::missing_text))]
pub(crate) fn push_missing(
    alloc: Global,
    text: &mut Vec<u8>,
    hits: &[Hit],
    every: bool,
) -> Result<(), NoMemory>
    ensures { OnOk result (text.new.items ≡ text.old.items ++ missing_text every hits.now) }
{
    if hit_count(hits) == hits.len() {
        return Ok(());
    }
    let groups = groups_of(hits);
    push(text, b"\nNever hit\n")?;
    push_missing_of_each(alloc, text, &groups, every)
}

/// Adds a point with its count.
#[tactic(auto, unfolding(crate::specs::Tables::hit_line))]
fn push_hit_line(text: &mut Vec<u8>, hit: &Hit) -> Result<(), NoMemory>
    ensures { OnOk result (text.new.items ≡ text.old.items ++ hit_line hit.now) }
{
    push_column(text, 12, hit.count)?;
    push(text, b"  ")?;
    push_name(text, &hit.point)?;
    push(text, b"\n")
}

/// Adds points with their counts.
fn push_each_hit(text: &mut Vec<u8>, hits: &[Hit]) -> Result<(), NoMemory>
    ensures { OnOk result (text.new.items ≡ text.old.items ++ flat_map hit_line hits.now) }
{
    for hit in hits {
        push_hit_line(text, hit)?;
    }
    Ok(())
}

/// Adds the points of a group with their counts.
#[tactic(auto, unfolding(crate::specs::Tables::counts_of))]
fn push_counts_of(text: &mut Vec<u8>, group: &Group<'_>) -> Result<(), NoMemory>
    ensures { OnOk result (text.new.items ≡ text.old.items ++ counts_of (view_of group.now)) }
{
    push_two(text, b"  ", group.title)?;
    push(text, b"\n")?;
    push_each_hit(text, group.hits)
}

/// Adds those of each group.
fn push_counts_of_each(text: &mut Vec<u8>, groups: &[Group<'_>]) -> Result<(), NoMemory>
    ensures { OnOk result (text.new.items
        ≡ text.old.items ++ flat_map counts_of (views_of groups.now)) }
{
    for group in groups {
        push_counts_of(text, group)?;
    }
    Ok(())
}

/// Adds every point with its count.
#[tactic(auto, unfolding(crate::specs::Tables::counts_text))]
pub(crate) fn push_counts(text: &mut Vec<u8>, hits: &[Hit]) -> Result<(), NoMemory>
    ensures { OnOk result (text.new.items ≡ text.old.items ++ counts_text hits.now) }
{
    let groups = groups_of(hits);
    push(text, b"\nHits\n")?;
    push_counts_of_each(text, &groups)
}
