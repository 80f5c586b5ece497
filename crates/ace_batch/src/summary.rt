// What is told of many traces.
ghost use Rattle.std.specs.Prelude.{◌≡◌, ◌++◌, decimal, flat_map, IfOk, OnOk};
ghost use Rattle.ace_batch.specs.GroupViews.{view_of, views_of};
ghost use Rattle.ace_batch.specs.Rows.{padded};
ghost use Rattle.ace_batch.specs.Summaries.{beyond_words, count_part, counts_line, events_text, first_text, group_text, groups_text, heading_end, heading_text, hindered_text, open_end, open_text, outcomes_text, plural, findings_text, left_end, left_text, right_of, signature_text, summary_text, told_text, traces_text, unread_text, with_commas, wrong_text};

use crate::counting::{count_of, events_of, open_count};
use crate::entry::Entry;
use crate::grouping::{Group, groups_of};
use crate::push::{push, push_number, push_spaces};
use crate::row::{push_place, push_rows};
use ace_io::NoMemory;
use itoa::Buffer;
use std::alloc::Global;

/// Adds the digits with a comma before each three that are left.
#[tactic(auto, using(crate::proofs::Commas::commas))]
fn push_with_commas(text: &mut Vec<u8>, digits: &[u8]) -> Result<(), NoMemory>
    ensures { OnOk result (text.new.items ≡ text.old.items ++ with_commas digits.now) }
{
    for place in 0..digits.len() {
        let left = digits.len() - place - 1;
        push(text, &[digits[place]])?;
        if left > 0 && left % 3 == 0 {
            push(text, b",")?;
        }
    }
    Ok(())
}

/// Adds the number with commas.
fn push_large(text: &mut Vec<u8>, number: u128) -> Result<(), NoMemory>
    ensures { OnOk result (text.new.items ≡ text.old.items ++ with_commas (decimal number)) }
{
    let mut digits = Buffer::new();
    push_with_commas(text, digits.format(number).as_bytes())
}

/// An s, where there isn't just one.
fn plural(count: usize) -> &'static [u8]
    ensures { result.now ≡ plural count }
{
    if count == 1 { b"" } else { b"s" }
}

/// Adds that there are so many of some kind, if there are any.
#[tactic(auto, unfolding(crate::specs::Summaries::count_part))]
fn push_count(text: &mut Vec<u8>, count: usize, kind: &[u8]) -> Result<(), NoMemory>
    ensures { OnOk result (text.new.items ≡ text.old.items ++ count_part count kind.now) }
{
    if count == 0 {
        return Ok(());
    }
    push(text, b", ")?;
    push_number(text, count as u64)?;
    push(text, kind)
}

/// Adds how many failed the check.
#[tactic(auto, unfolding(crate::specs::Summaries::wrong_text))]
fn push_wrong(text: &mut Vec<u8>, entries: &[Entry]) -> Result<(), NoMemory>
    ensures { OnOk result (text.new.items ≡ text.old.items ++ wrong_text entries.now) }
{
    push_count(text, count_of(1, entries), b" refused")?;
    push_count(text, count_of(3, entries), b" malformed")?;
    push_count(text, count_of(8, entries), b" unfinished")
}

/// Adds how many could not be read.
#[tactic(auto, unfolding(crate::specs::Summaries::unread_text))]
fn push_unread(text: &mut Vec<u8>, entries: &[Entry]) -> Result<(), NoMemory>
    ensures { OnOk result (text.new.items ≡ text.old.items ++ unread_text entries.now) }
{
    push_count(text, count_of(4, entries), b" unreadable")?;
    push_count(text, count_of(7, entries), b" out of memory")
}

/// What traces are that have too much.
#[tactic(auto, unfolding(crate::specs::Summaries::beyond_words))]
fn beyond_words() -> &'static [u8]
    ensures { result.now ≡ beyond_words }
{
    b" beyond a limit"
}

/// Adds how many could not be checked.
#[tactic(auto, unfolding(crate::specs::Summaries::hindered_text))]
fn push_hindered(text: &mut Vec<u8>, entries: &[Entry]) -> Result<(), NoMemory>
    ensures { OnOk result (text.new.items ≡ text.old.items ++ hindered_text entries.now) }
{
    push_count(text, count_of(6, entries), beyond_words())?;
    push_unread(text, entries)
}

/// Adds how many came out how.
#[tactic(auto, unfolding(crate::specs::Summaries::outcomes_text))]
fn push_outcomes(text: &mut Vec<u8>, entries: &[Entry]) -> Result<(), NoMemory>
    ensures { OnOk result (text.new.items ≡ text.old.items ++ outcomes_text entries.now) }
{
    push_number(text, count_of(0, entries) as u64)?;
    push(text, b" accepted")?;
    push_wrong(text, entries)?;
    push_hindered(text, entries)
}

/// Adds how many traces there are.
#[tactic(auto, unfolding(crate::specs::Summaries::traces_text))]
fn push_traces(text: &mut Vec<u8>, count: usize) -> Result<(), NoMemory>
    ensures { OnOk result (text.new.items ≡ text.old.items ++ traces_text count) }
{
    push_number(text, count as u64)?;
    push(text, b" trace")?;
    push(text, plural(count))?;
    push(text, b": ")
}

/// Adds how many events were judged.
#[tactic(auto, unfolding(crate::specs::Summaries::events_text))]
fn push_events(text: &mut Vec<u8>, events: u128) -> Result<(), NoMemory>
    ensures { OnOk result (text.new.items ≡ text.old.items ++ events_text events) }
{
    push(text, b"; ")?;
    push_large(text, events)?;
    push(text, b" events\n")
}

/// Adds the line that counts traces and events.
#[tactic(auto, unfolding(crate::specs::Summaries::counts_line))]
fn push_counts(text: &mut Vec<u8>, entries: &[Entry]) -> Result<(), NoMemory>
    ensures { OnOk result (text.new.items ≡ text.old.items ++ counts_line entries.now) }
{
    push_traces(text, entries.len())?;
    push_outcomes(text, entries)?;
    push_events(text, events_of(entries))
}

/// Adds the number at the right of five columns.
#[tactic(auto, unfolding(crate::specs::Summaries::right_of))]
fn push_right(text: &mut Vec<u8>, number: u64) -> Result<(), NoMemory>
    ensures { OnOk result (text.new.items ≡ text.old.items ++ right_of 5 (decimal number)) }
{
    let mut digits = Buffer::new();
    let shown = digits.format(number).as_bytes();
    push_spaces(text, 5usize.saturating_sub(shown.len()))?;
    push(text, shown)
}

/// Adds the text in 28 columns at least.
#[tactic(auto, unfolding(crate::specs::Rows::padded))]
fn push_padded(text: &mut Vec<u8>, given: &[u8]) -> Result<(), NoMemory>
    ensures { OnOk result (text.new.items ≡ text.old.items ++ padded 28 given.now) }
{
    push(text, given)?;
    push_spaces(text, 28usize.saturating_sub(given.len()))
}

/// Adds how many traces a group has, and their signature.
#[tactic(auto, unfolding(crate::specs::Summaries::signature_text))]
fn push_signature(text: &mut Vec<u8>, group: &Group<'_>) -> Result<(), NoMemory>
    ensures { OnOk result
        (text.new.items ≡ text.old.items ++ signature_text (view_of group.now)) }
{
    push_right(text, group.count as u64)?;
    push(text, b"  ")?;
    push_padded(text, group.first.signature.as_slice())?;
    push(text, b" ")
}

/// Adds the trace to look at, and what is wrong there.
#[tactic(auto, unfolding(crate::specs::Summaries::first_text))]
fn push_first(text: &mut Vec<u8>, first: &Entry) -> Result<(), NoMemory>
    ensures { OnOk result (text.new.items ≡ text.old.items ++ first_text first.now) }
{
    push_place(text, first)?;
    push(text, b"\n       ")?;
    push(text, first.message.as_slice())?;
    push(text, b"\n")
}

/// Adds what is told of a group.
#[tactic(auto, unfolding(crate::specs::Summaries::group_text))]
fn push_group(text: &mut Vec<u8>, group: &Group<'_>) -> Result<(), NoMemory>
    ensures { OnOk result
        (text.new.items ≡ text.old.items ++ group_text (view_of group.now)) }
{
    push_signature(text, group)?;
    push_first(text, group.first)
}

/// Adds what is told of each group.
#[tactic(auto, using(crate::proofs::GroupTexts::text_step))]
fn push_each(text: &mut Vec<u8>, groups: &[Group<'_>]) -> Result<(), NoMemory>
    ensures { OnOk result (text.new.items ≡ text.old.items
        ++ flat_map group_text (views_of groups.now)) }
{
    for group in groups {
        push_group(text, group)?;
    }
    Ok(())
}

/// What stands behind the number of groups.
#[tactic(auto, unfolding(crate::specs::Summaries::heading_end))]
fn heading_end(count: usize) -> &'static [u8]
    ensures { result.now ≡ heading_end count }
{
    if count == 1 {
        b" distinct failure, most frequent first\n"
    } else {
        b" distinct failures, most frequent first\n"
    }
}

/// Adds how many groups there are.
#[tactic(auto, unfolding(crate::specs::Summaries::heading_text))]
fn push_heading(text: &mut Vec<u8>, count: usize) -> Result<(), NoMemory>
    ensures { OnOk result (text.new.items ≡ text.old.items ++ heading_text count) }
{
    push(text, b"\n")?;
    push_number(text, count as u64)?;
    push(text, heading_end(count))
}

/// Adds how many groups there are, and each of them, where there are any.
#[tactic(auto, using(crate::proofs::GroupTexts::group_texts))]
fn push_groups(text: &mut Vec<u8>, groups: &[Group<'_>]) -> Result<(), NoMemory>
    ensures { OnOk result (text.new.items ≡ text.old.items ++ groups_text (views_of groups.now)) }
{
    if groups.is_empty() {
        return Ok(());
    }
    push_heading(text, groups.len())?;
    push_each(text, groups)
}

/// What stands behind the number of accepted traces that end with transactions outstanding.
#[tactic(auto, unfolding(crate::specs::Summaries::open_end))]
fn open_end(count: usize) -> &'static [u8]
    ensures { result.now ≡ open_end count }
{
    if count == 1 {
        b" accepted trace ends with transactions outstanding\n"
    } else {
        b" accepted traces end with transactions outstanding\n"
    }
}

/// Adds how many accepted traces end with transactions outstanding, if there are any.
#[tactic(auto, unfolding(crate::specs::Summaries::open_text))]
fn push_open(text: &mut Vec<u8>, count: usize) -> Result<(), NoMemory>
    ensures { OnOk result (text.new.items ≡ text.old.items ++ open_text count) }
{
    if count == 0 {
        return Ok(());
    }
    push(text, b"\n")?;
    push_number(text, count as u64)?;
    push(text, open_end(count))
}

/// What stands behind the number of traces that were not looked at.
#[tactic(auto, unfolding(crate::specs::Summaries::left_end))]
fn left_end(left: usize) -> &'static [u8]
    ensures { result.now ≡ left_end left }
{
    if left == 1 {
        b" trace was not looked at\n"
    } else {
        b" traces were not looked at\n"
    }
}

/// Adds how many traces were not looked at, if some were not.
#[tactic(auto, unfolding(crate::specs::Summaries::left_text))]
fn push_left(text: &mut Vec<u8>, left: usize) -> Result<(), NoMemory>
    ensures { OnOk result (text.new.items ≡ text.old.items ++ left_text left) }
{
    if left == 0 {
        return Ok(());
    }
    push_number(text, left as u64)?;
    push(text, left_end(left))
}

/// Adds the groups of traces that failed alike, and how many end with transactions outstanding.
#[tactic(auto, unfolding(crate::specs::Summaries::findings_text))]
fn push_findings(alloc: Global, text: &mut Vec<u8>, entries: &[Entry]) -> Result<(), NoMemory>
    ensures { OnOk result (text.new.items ≡ text.old.items ++ findings_text entries.now) }
{
    let groups = groups_of(alloc, entries)?;
    push_groups(text, groups.as_slice())?;
    push_open(text, open_count(entries))
}

/// Adds the summary of the traces that were looked at, with an empty line before it, where so many
/// were not.
///
/// # Errors
///
/// `NoMemory` where there is none for the longer text.
#[tactic(auto, unfolding(crate::specs::Summaries::summary_text))]
pub fn push_summary(
    alloc: Global,
    text: &mut Vec<u8>,
    left: usize,
    entries: &[Entry],
) -> Result<(), NoMemory>
    ensures { OnOk result (text.new.items ≡ text.old.items ++ summary_text left entries.now) }
{
    push(text, b"\n")?;
    push_counts(text, entries)?;
    push_left(text, left)?;
    push_findings(alloc, text, entries)
}

/// What is told of the traces that were looked at, where so many were not: the line of each, or
/// only of those that aren't accepted, and the summary.
///
/// # Errors
///
/// `NoMemory` where there is none for the text.
#[tactic(auto, unfolding(crate::specs::Summaries::told_text))]
pub fn told_text(
    alloc: Global,
    failed: bool,
    left: usize,
    entries: &[Entry],
) -> Result<Vec<u8>, NoMemory>
    ensures { IfOk result (λ text. text.items ≡ told_text failed left entries.now) }
{
    let mut text = Vec::new(alloc);
    push_rows(&mut text, failed, entries)?;
    push_summary(alloc, &mut text, left, entries)?;
    Ok(text)
}
