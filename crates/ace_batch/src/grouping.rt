// Traces that failed alike.
ghost use Rattle.std.specs.Prelude.{◌≡◌, ◌≤◌, ◌++◌, [], ◌∷◌, count_by, fold, length, map, IfOk, OnOk};
ghost use Rattle.std.specs.List.{list_any};
ghost use Rattle.ace_batch.specs.Groups.{earlier_like, group_of, groups_of, is_like, kinds_of, number_or_zero, with_group, with_kind};
ghost use Rattle.ace_batch.specs.GroupViews.{entries_of, view_of, views_of};

use crate::entry::Entry;
use ace_io::NoMemory;
use std::alloc::Global;

/// Traces that failed alike.
#[derive(Clone, Copy)]
pub struct Group<'a> {
    /// The one to look at, which fails at the earliest line.
    pub first: &'a Entry,
    /// How many they are.
    pub count: usize,
}

/// The other trace isn't accepted, and has the same signature.
fn is_like(entry: &Entry, other: &Entry) -> bool
    ensures { result ≡ is_like entry.now other.now }
{
    other.outcome.status() != 0 && entry.signature.as_slice() == other.signature.as_slice()
}

/// The line that is refused or malformed, or else 0.
fn number_or_zero(line: Option<u64>) -> u64
    ensures { result ≡ number_or_zero line }
{
    line.unwrap_or(0)
}

/// Of the one and another, if that is like the first, the one that fails at an earlier line.
fn earlier_like<'a>(entry: &Entry, best: &'a Entry, other: &'a Entry) -> &'a Entry
    ensures { result.now ≡ earlier_like entry.now best.entry.now other.entry.now }
{
    if is_like(entry, other) && number_or_zero(other.line) < number_or_zero(best.line) {
        other
    } else {
        best
    }
}

/// Of those that failed as this trace did, the one that fails at the earliest line.
#[tactic(auto, using(crate::proofs::GroupSteps::earliest_step))]
fn earliest_like<'a>(entries: &'a [Entry], entry: &'a Entry) -> &'a Entry
    ensures { result.now ≡ fold (earlier_like entry.entry.now) entry.entry.now entries.entry.now }
{
    let mut best = entry;
    for other in entries {
        best = earlier_like(entry, best, other);
    }
    best
}

/// How many failed as this trace did.
#[tactic(auto, using(crate::proofs::GroupSteps::likes))]
fn count_like(entries: &[Entry], entry: &Entry) -> usize
    ensures { result ≡ count_by (is_like entry.now) entries.now }
{
    let mut count = 0;
    for other in entries {
        if is_like(entry, other) {
            count += 1;
        }
    }
    count
}

/// The group of this trace.
fn group_of<'a>(entries: &'a [Entry], entry: &'a Entry) -> Group<'a>
    ensures { view_of result ≡ group_of entries.entry.now entry.entry.now }
{
    Group {
        first: earliest_like(entries, entry),
        count: count_like(entries, entry),
    }
}

/// One of these traces failed as this one did.
#[tactic(auto, using(crate::proofs::GroupSteps::any_steps))]
fn is_like_any(kinds: &[&Entry], entry: &Entry) -> bool
    ensures { result ≡ list_any (λ kind. is_like kind entry.now) (entries_of kinds.now) }
{
    for kind in kinds {
        if is_like(kind, entry) {
            return true;
        }
    }
    false
}

/// Adds the trace, if it isn't accepted and none of these is like it.
#[tactic(auto, using(crate::proofs::GroupSteps::entries_push))]
fn add_kind<'a>(kinds: &mut Vec<&'a Entry>, entry: &'a Entry) -> Result<(), NoMemory>
    ensures { OnOk result (entries_of kinds.new.items
        ≡ with_kind (entries_of kinds.old.items) entry.entry.now) }
{
    if entry.outcome.status() == 0 || is_like_any(kinds.as_slice(), entry) {
        return Ok(());
    }
    match kinds.push(entry) {
        Ok(()) => Ok(()),
        Err(_) => Err(NoMemory),
    }
}

/// The first trace of each group.
#[tactic(auto, using(crate::proofs::GroupSteps::kind_step))]
fn kinds_of<'a>(alloc: Global, entries: &'a [Entry]) -> Result<Vec<&'a Entry>, NoMemory>
    ensures { IfOk result (λ kinds. entries_of kinds.items ≡ kinds_of entries.entry.now) }
{
    let mut kinds = Vec::new(alloc);
    for entry in entries {
        add_kind(&mut kinds, entry)?;
    }
    Ok(kinds)
}

/// Adds the group before those that have fewer.
#[tactic(auto, using(crate::proofs::GroupSteps::placing))]
fn add_group<'a>(groups: &mut Vec<Group<'a>>, group: Group<'a>) -> Result<(), NoMemory>
    ensures { OnOk result (views_of groups.new.items
        ≡ with_group (views_of groups.old.items) (view_of group.entry)) }
{
    let mut place = 0;
    while place < groups.len() && groups[place].count >= group.count {
        place += 1;
    }
    match groups.insert(place, group) {
        Ok(()) => Ok(()),
        Err(_) => Err(NoMemory),
    }
}

/// The groups of the traces that aren't accepted, the most frequent first.
///
/// # Errors
///
/// `NoMemory` where there is none for them.
#[tactic(auto, using(crate::proofs::GroupSteps::group_step))]
pub(crate) fn groups_of<'a>(alloc: Global, entries: &'a [Entry]) -> Result<Vec<Group<'a>>, NoMemory>
    ensures { IfOk result (λ groups. views_of groups.items ≡ groups_of entries.entry.now) }
{
    let kinds = kinds_of(alloc, entries)?;
    let mut groups = Vec::new(alloc);
    for kind in kinds.as_slice() {
        add_group(&mut groups, group_of(entries, kind))?;
    }
    Ok(groups)
}
