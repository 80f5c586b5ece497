// The counts as JSON.
ghost use Rattle.std.specs.Prelude.{◌≡◌, ◌++◌, flat_map, map, OnOk};
ghost use Rattle.ace_cover.specs.GroupViews.{view_of, views_of};
ghost use Rattle.ace_cover.specs.Json.{behind_comma, cover_json, group_json, head_json, hit_json, hits_json, with_commas};

use crate::groups::{Group, groups_of};
use crate::hit::{Hit, were_hit};
use crate::names::push_name;
use crate::push::{push, push_number, push_three};
use crate::table::all_hits;
use crate::totals::Totals;
use ace_io::NoMemory;
use std::alloc::Global;

/// Adds the count of a point.
#[tactic(auto, unfolding(crate::specs::Json::hit_json))]
fn push_hit(text: &mut Vec<u8>, hit: &Hit) -> Result<(), NoMemory>
    ensures { OnOk result (text.new.items ≡ text.old.items ++ hit_json hit.now) }
{
    push(text, b"\"")?;
    push_name(text, &hit.point)?;
    push(text, b"\":")?;
    push_number(text, hit.count)
}

/// Adds it behind a comma.
#[tactic(auto, unfolding(crate::specs::Json::behind_comma))]
fn push_next_hit(text: &mut Vec<u8>, hit: &Hit) -> Result<(), NoMemory>
    ensures { OnOk result (text.new.items ≡ text.old.items ++ behind_comma (hit_json hit.now)) }
{
    push(text, b",")?;
    push_hit(text, hit)
}

/// Adds each of these behind a comma.
fn push_next_hits(text: &mut Vec<u8>, hits: &[Hit]) -> Result<(), NoMemory>
    ensures { OnOk result (text.new.items
        ≡ text.old.items ++ flat_map behind_comma (map hit_json hits.now)) }
{
    for hit in hits {
        push_next_hit(text, hit)?;
    }
    Ok(())
}

/// Adds the counts of these points.
fn push_hits(text: &mut Vec<u8>, hits: &[Hit]) -> Result<(), NoMemory>
    ensures { OnOk result (text.new.items
        ≡ text.old.items ++ with_commas (map hit_json hits.now)) }
{
    if hits.is_empty() {
        return Ok(());
    }
    push_hit(text, &hits[0])?;
    push_next_hits(text, &hits[1..])
}

/// Adds the counts of the points of a group that were hit.
#[tactic(auto, unfolding(crate::specs::Json::group_json))]
fn push_group(alloc: Global, text: &mut Vec<u8>, group: &Group<'_>) -> Result<(), NoMemory>
    ensures { OnOk result (text.new.items ≡ text.old.items ++ group_json (view_of group.now)) }
{
    let hits = were_hit(alloc, group.hits)?;
    push_three(text, b"\"", group.title, b"\":{")?;
    push_hits(text, hits.as_slice())?;
    push(text, b"}")
}

/// Adds them behind a comma.
#[tactic(auto, unfolding(crate::specs::Json::behind_comma))]
fn push_next_group(alloc: Global, text: &mut Vec<u8>, group: &Group<'_>) -> Result<(), NoMemory>
    ensures { OnOk result (text.new.items
        ≡ text.old.items ++ behind_comma (group_json (view_of group.now))) }
{
    push(text, b",")?;
    push_group(alloc, text, group)
}

/// Adds those of each of these groups behind a comma.
fn push_next_groups(alloc: Global, text: &mut Vec<u8>, groups: &[Group<'_>]) -> Result<(), NoMemory>
    ensures { OnOk result (text.new.items ≡ text.old.items
        ++ flat_map behind_comma (map group_json (views_of groups.now))) }
{
    for group in groups {
        push_next_group(alloc, text, group)?;
    }
    Ok(())
}

/// Adds the counts of the points of each group that were hit.
fn push_groups(alloc: Global, text: &mut Vec<u8>, groups: &[Group<'_>]) -> Result<(), NoMemory>
    ensures { OnOk result (text.new.items
        ≡ text.old.items ++ with_commas (map group_json (views_of groups.now))) }
{
    if groups.is_empty() {
        return Ok(());
    }
    push_group(alloc, text, &groups[0])?;
    push_next_groups(alloc, text, &groups[1..])
}

/// Adds how many traces and events there are.
#[tactic(auto, unfolding(crate::specs::Json::head_json))]
fn push_head(text: &mut Vec<u8>, traces: u64, events: u64) -> Result<(), NoMemory>
    ensures { OnOk result (text.new.items ≡ text.old.items ++ head_json traces events) }
{
    push(text, b"{\"format\":\"ace cover 1\",\"traces\":")?;
    push_number(text, traces)?;
    push(text, b",\"events\":")?;
    push_number(text, events)?;
    push(text, b",\"hits\":{")
}

/// Adds the objects of all groups.
#[tactic(auto, unfolding(crate::specs::Json::hits_json))]
fn push_all_groups(alloc: Global, text: &mut Vec<u8>, hits: &[Hit]) -> Result<(), NoMemory>
    ensures { OnOk result (text.new.items ≡ text.old.items ++ hits_json hits.now) }
{
    let groups = groups_of(hits);
    push_groups(alloc, text, &groups)?;
    push(text, b"}}\n")
}

/// Adds the counts as JSON: an object for each group, with the count of each point that was hit.
///
/// # Errors
///
/// `NoMemory` where there is none for the longer text.
#[tactic(auto, unfolding(crate::specs::Json::cover_json))]
pub fn push_json(alloc: Global, text: &mut Vec<u8>, totals: &Totals) -> Result<(), NoMemory>
    ensures { OnOk result (text.new.items ≡ text.old.items ++ cover_json totals.now) }
{
    let hits = all_hits(alloc, totals)?;
    push_head(text, totals.traces, totals.events)?;
    push_all_groups(alloc, text, hits.as_slice())
}
