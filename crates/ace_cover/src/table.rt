// The table of what was hit.
ghost use Rattle.std.specs.Prelude.{◌≡◌, ◌≤◌, ◌++◌, flat_map, length, IfOk, OnOk};
ghost use Rattle.ace_cover.specs.GroupViews.{view_of, views_of};
ghost use Rattle.ace_cover.specs.Groups.{all_hits};
ghost use Rattle.ace_cover.specs.Tables.{count_text, events_text, head_text, heading, listing_text, percent_of, row_text, rows_text, sum_text, table_text, traces_text};

use crate::columns::{push_bar, push_column, push_left};
use crate::groups::{Group, groups_of};
use crate::hit::{Hit, hit_count, hits_of};
use crate::listed::{push_counts, push_missing};
use crate::listing::Listing;
use crate::push::{push, push_number};
use crate::totals::{Totals, all_points};
use ace_io::NoMemory;
use std::alloc::Global;

/// How many of a hundred these are of so many.
fn percent_of(hit: usize, all: usize) -> u64
    requires { hit ≤ all }
    ensures { result ≡ percent_of hit all }
{
    if all == 0 {
        100
    } else {
        (hit as u128 * 100 / all as u128) as u64
    }
}

/// Adds a title, and how many points of how many were hit.
#[tactic(auto, unfolding(crate::specs::Tables::count_text))]
fn push_count(text: &mut Vec<u8>, title: &[u8], hit: usize, all: usize) -> Result<(), NoMemory>
    requires { hit ≤ all }
    ensures { OnOk result (text.new.items ≡ text.old.items ++ count_text title.now hit all) }
{
    push_left(text, 44, title)?;
    push_column(text, 6, hit as u64)?;
    push_column(text, 6, all as u64)?;
    push_column(text, 7, percent_of(hit, all))?;
    push(text, b"%")
}

/// Adds the row of a group.
#[tactic(auto, unfolding(crate::specs::Tables::row_text))]
fn push_row(text: &mut Vec<u8>, group: &Group<'_>) -> Result<(), NoMemory>
    ensures { OnOk result (text.new.items ≡ text.old.items ++ row_text (view_of group.now)) }
{
    let hit = hit_count(group.hits);
    let all = group.hits.len();
    push_count(text, group.title, hit, all)?;
    push_bar(text, percent_of(hit, all))?;
    push(text, b"\n")
}

/// Adds the row of each group.
fn push_each(text: &mut Vec<u8>, groups: &[Group<'_>]) -> Result<(), NoMemory>
    ensures { OnOk result
        (text.new.items ≡ text.old.items ++ flat_map row_text (views_of groups.now)) }
{
    for group in groups {
        push_row(text, group)?;
    }
    Ok(())
}

/// Adds the row of all points.
#[tactic(auto, unfolding(crate::specs::Tables::sum_text))]
fn push_sum(text: &mut Vec<u8>, hits: &[Hit]) -> Result<(), NoMemory>
    ensures { OnOk result (text.new.items ≡ text.old.items ++ sum_text hits.now) }
{
    push_count(text, b"all", hit_count(hits), hits.len())?;
    push(text, b"\n")
}

/// Adds the rows.
#[tactic(auto, unfolding(crate::specs::Tables::rows_text))]
fn push_rows(text: &mut Vec<u8>, hits: &[Hit]) -> Result<(), NoMemory>
    ensures { OnOk result (text.new.items ≡ text.old.items ++ rows_text hits.now) }
{
    let groups = groups_of(hits);
    push_each(text, &groups)?;
    push_sum(text, hits)
}

/// Adds how many traces there are.
#[tactic(auto, unfolding(crate::specs::Tables::traces_text))]
fn push_traces(text: &mut Vec<u8>, traces: u64) -> Result<(), NoMemory>
    ensures { OnOk result (text.new.items ≡ text.old.items ++ traces_text traces) }
{
    push_number(text, traces)?;
    if traces == 1 {
        push(text, b" accepted trace, ")
    } else {
        push(text, b" accepted traces, ")
    }
}

/// Adds how many events they have.
#[tactic(auto, unfolding(crate::specs::Tables::events_text))]
fn push_events(text: &mut Vec<u8>, events: u64) -> Result<(), NoMemory>
    ensures { OnOk result (text.new.items ≡ text.old.items ++ events_text events) }
{
    push_number(text, events)?;
    if events == 1 {
        push(text, b" event\n")
    } else {
        push(text, b" events\n")
    }
}

/// What stands above the columns.
#[tactic(auto, unfolding(crate::specs::Tables::heading))]
fn heading() -> &'static [u8]
    ensures { result.now ≡ heading }
{
    b"\n                                               hit    of\n"
}

/// Adds what stands above the rows.
#[tactic(auto, unfolding(crate::specs::Tables::head_text))]
fn push_head(text: &mut Vec<u8>, traces: u64, events: u64) -> Result<(), NoMemory>
    ensures { OnOk result (text.new.items ≡ text.old.items ++ head_text traces events) }
{
    push_traces(text, traces)?;
    push_events(text, events)?;
    push(text, heading())
}

/// Adds what is told of the points.
fn push_listing(
    alloc: Global,
    text: &mut Vec<u8>,
    hits: &[Hit],
    listing: Listing,
) -> Result<(), NoMemory>
    ensures { OnOk result (text.new.items ≡ text.old.items ++ listing_text listing hits.now) }
{
    match listing {
        Listing::Few => push_missing(alloc, text, hits, false),
        Listing::All => push_missing(alloc, text, hits, true),
        Listing::Counts => push_counts(text, hits),
    }
}

/// All points with their counts.
///
/// # Errors
///
/// `NoMemory` where there is none for them.
pub fn all_hits(alloc: Global, totals: &Totals) -> Result<Vec<Hit>, NoMemory>
    ensures { IfOk result (λ hits. hits.items ≡ all_hits totals.now) }
{
    let points = all_points(alloc)?;
    hits_of(alloc, points.as_slice(), totals.hits.as_slice())
}

/// Adds the table: how many points of each group were hit, and below it those that it names.
///
/// # Errors
///
/// `NoMemory` where there is none for the longer text.
#[tactic(auto, unfolding(crate::specs::Tables::table_text))]
pub fn push_table(
    alloc: Global,
    text: &mut Vec<u8>,
    totals: &Totals,
    listing: Listing,
) -> Result<(), NoMemory>
    ensures { OnOk result
        (text.new.items ≡ text.old.items ++ table_text listing totals.now) }
{
    let hits = all_hits(alloc, totals)?;
    push_head(text, totals.traces, totals.events)?;
    push_rows(text, hits.as_slice())?;
    push_listing(alloc, text, hits.as_slice(), listing)
}
