// The results of many traces as JSON, an object a line.
ghost use Rattle.std.specs.Prelude.{◌≡◌, ◌≤◌, ◌++◌, [], flat_map, if◌then◌else◌, length, OnOk};
ghost use Rattle.ace_batch.specs.Shards.{is_in, part_of};
ghost use Rattle.ace_batch.specs.Json.{count_json, end_json, entry_json, events_json, head_json, left_json, member_json, message_name, number_json, numbers_json, outstanding_name, part_json, results_json, signature_name, tail_json, traces_name, which_json, why_json, words_json};

use crate::entry::Entry;
use crate::escape::push_json;
use crate::push::{push, push_number};
use crate::shard::Shard;
use ace_io::NoMemory;

/// Adds the number, or that there is none.
///
/// # Errors
///
/// `NoMemory` where there is none for the longer text.
pub fn push_optional(text: &mut Vec<u8>, number: Option<u64>) -> Result<(), NoMemory>
    ensures { OnOk result (text.new.items ≡ text.old.items ++ number_json number) }
{
    match number {
        Some(number) => push_number(text, number),
        None => push(text, b"null"),
    }
}

/// Adds a member whose value is a text, behind its name.
#[tactic(auto, unfolding(crate::specs::Json::member_json))]
fn push_member(text: &mut Vec<u8>, name: &[u8], value: &[u8]) -> Result<(), NoMemory>
    ensures { OnOk result (text.new.items ≡ text.old.items ++ member_json name.now value.now) }
{
    push(text, name)?;
    push_json(text, value)?;
    push(text, b"\"")
}

/// Adds which trace it is, and how its check came out.
#[tactic(auto, unfolding(crate::specs::Json::which_json))]
fn push_which(text: &mut Vec<u8>, entry: &Entry) -> Result<(), NoMemory>
    ensures { OnOk result (text.new.items ≡ text.old.items ++ which_json entry.now) }
{
    push_member(text, b"{\"file\":\"", entry.path.as_bytes())?;
    push_member(text, b",\"verdict\":\"", entry.outcome.verdict())
}

/// The name of the member for what is outstanding.
#[tactic(auto, unfolding(crate::specs::Json::outstanding_name))]
fn outstanding_name() -> &'static [u8]
    ensures { result.now ≡ outstanding_name }
{
    b",\"outstanding\":"
}

/// Adds how many events were judged, and how many transactions are outstanding behind them.
#[tactic(auto, unfolding(crate::specs::Json::events_json))]
fn push_events(text: &mut Vec<u8>, entry: &Entry) -> Result<(), NoMemory>
    ensures { OnOk result (text.new.items ≡ text.old.items ++ events_json entry.now) }
{
    push(text, b",\"events\":")?;
    push_number(text, entry.events)?;
    push(text, outstanding_name())?;
    push_optional(text, entry.outstanding)
}

/// Adds the same, and the line that is refused or malformed.
#[tactic(auto, unfolding(crate::specs::Json::numbers_json))]
fn push_numbers(text: &mut Vec<u8>, entry: &Entry) -> Result<(), NoMemory>
    ensures { OnOk result (text.new.items ≡ text.old.items ++ numbers_json entry.now) }
{
    push_events(text, entry)?;
    push(text, b",\"line\":")?;
    push_optional(text, entry.line)
}

/// The name of the member for the signature.
#[tactic(auto, unfolding(crate::specs::Json::signature_name))]
fn signature_name() -> &'static [u8]
    ensures { result.now ≡ signature_name }
{
    b",\"signature\":\""
}

/// That for what is wrong.
#[tactic(auto, unfolding(crate::specs::Json::message_name))]
fn message_name() -> &'static [u8]
    ensures { result.now ≡ message_name }
{
    b",\"message\":\""
}

/// Adds what is wrong with the trace.
#[tactic(auto, unfolding(crate::specs::Json::why_json))]
fn push_why(text: &mut Vec<u8>, entry: &Entry) -> Result<(), NoMemory>
    ensures { OnOk result (text.new.items ≡ text.old.items ++ why_json entry.now) }
{
    push_member(text, signature_name(), entry.signature.as_slice())?;
    push_member(text, message_name(), entry.message.as_slice())
}

/// Adds the same, and all that is told of it.
#[tactic(auto, unfolding(crate::specs::Json::words_json))]
fn push_words(text: &mut Vec<u8>, entry: &Entry) -> Result<(), NoMemory>
    ensures { OnOk result (text.new.items ≡ text.old.items ++ words_json entry.now) }
{
    push_why(text, entry)?;
    push_member(text, b",\"text\":\"", entry.text.as_slice())
}

/// Adds the line of the trace.
#[tactic(auto, unfolding(crate::specs::Json::entry_json))]
fn push_entry(text: &mut Vec<u8>, entry: &Entry) -> Result<(), NoMemory>
    ensures { OnOk result (text.new.items ≡ text.old.items ++ entry_json entry.now) }
{
    push_which(text, entry)?;
    push_numbers(text, entry)?;
    push_words(text, entry)?;
    push(text, b"}\n")
}

/// Adds the line of each trace.
#[tactic(auto, using(crate::proofs::JsonLines::entry_step))]
fn push_entries(text: &mut Vec<u8>, entries: &[Entry]) -> Result<(), NoMemory>
    ensures { OnOk result (text.new.items ≡ text.old.items ++ flat_map entry_json entries.now) }
{
    for entry in entries {
        push_entry(text, entry)?;
    }
    Ok(())
}

/// One, where the place is in this part, and else none.
fn one_in(shard: &Shard, place: usize) -> usize
    ensures value { result ≡ (if is_in shard.now.part shard.now.parts place then 1 else 0) }
    ensures bound { result ≤ 1 }
{
    if shard.has(place) { 1 } else { 0 }
}

/// How many of the traces are in this part of their list.
#[tactic(auto, using(crate::proofs::PartSteps::counts))]
fn count_in(shard: &Shard, entries: &[Entry]) -> usize
    ensures { result ≡ length (part_of shard.now.part shard.now.parts entries.now) }
{
    let mut count = 0;
    for place in 0..entries.len() {
        count += one_in(shard, place);
    }
    count
}

/// Adds the line of the trace at this place, if it is in this part.
fn push_entry_in(
    text: &mut Vec<u8>,
    shard: &Shard,
    place: usize,
    entry: &Entry,
) -> Result<(), NoMemory>
    ensures { OnOk result (text.new.items ≡ text.old.items
        ++ (if is_in shard.now.part shard.now.parts place then entry_json entry.now else [])) }
{
    if shard.has(place) {
        push_entry(text, entry)
    } else {
        Ok(())
    }
}

/// Adds the lines of those that are in this part.
#[tactic(auto, using(crate::proofs::PartSteps::lines))]
fn push_entries_in(text: &mut Vec<u8>, shard: &Shard, entries: &[Entry]) -> Result<(), NoMemory>
    ensures { OnOk result (text.new.items ≡ text.old.items ++ flat_map entry_json
        (part_of shard.now.part shard.now.parts entries.now)) }
{
    for place in 0..entries.len() {
        push_entry_in(text, shard, place, &entries[place])?;
    }
    Ok(())
}

/// Adds which part of the list it is.
#[tactic(auto, unfolding(crate::specs::Json::part_json))]
fn push_part(text: &mut Vec<u8>, shard: &Shard) -> Result<(), NoMemory>
    ensures { OnOk result (text.new.items ≡ text.old.items
        ++ part_json shard.now.part shard.now.parts) }
{
    push(text, b"{\"format\":\"ace batch 1\",\"shard\":\"")?;
    push_number(text, shard.part as u64)?;
    push(text, b"/")?;
    push_number(text, shard.parts as u64)
}

/// The name of the member for the number of traces.
#[tactic(auto, unfolding(crate::specs::Json::traces_name))]
fn traces_name() -> &'static [u8]
    ensures { result.now ≡ traces_name }
{
    b"\",\"traces\":"
}

/// Adds how many traces follow.
#[tactic(auto, unfolding(crate::specs::Json::count_json))]
fn push_count(text: &mut Vec<u8>, count: u64) -> Result<(), NoMemory>
    ensures { OnOk result (text.new.items ≡ text.old.items ++ count_json count) }
{
    push(text, traces_name())?;
    push_number(text, count)?;
    push(text, b"}\n")
}

/// Adds the first line.
#[tactic(auto, unfolding(crate::specs::Json::head_json))]
fn push_head(text: &mut Vec<u8>, shard: &Shard, count: u64) -> Result<(), NoMemory>
    ensures { OnOk result (text.new.items ≡ text.old.items
        ++ head_json shard.now.part shard.now.parts count) }
{
    push_part(text, shard)?;
    push_count(text, count)
}

/// Adds how many traces were not looked at, if some were not.
#[tactic(auto, unfolding(crate::specs::Json::left_json))]
fn push_left(text: &mut Vec<u8>, left: u64) -> Result<(), NoMemory>
    ensures { OnOk result (text.new.items ≡ text.old.items ++ left_json left) }
{
    if left == 0 {
        return Ok(());
    }
    push(text, b"{\"left\":")?;
    push_number(text, left)?;
    push(text, b"}\n")
}

/// Adds the last line.
#[tactic(auto, unfolding(crate::specs::Json::end_json))]
fn push_end(text: &mut Vec<u8>, count: u64) -> Result<(), NoMemory>
    ensures { OnOk result (text.new.items ≡ text.old.items ++ end_json count) }
{
    push(text, b"{\"end\":")?;
    push_number(text, count)?;
    push(text, b"}\n")
}

/// Adds the lines behind those of the traces.
#[tactic(auto, unfolding(crate::specs::Json::tail_json))]
fn push_tail(text: &mut Vec<u8>, left: u64, count: u64) -> Result<(), NoMemory>
    ensures { OnOk result (text.new.items ≡ text.old.items ++ tail_json left count) }
{
    push_left(text, left)?;
    push_end(text, count)
}

/// Adds the results of the traces that were looked at as JSON, an object a line: first which part
/// of the list they are of and how many, then each trace, then how many of the part were not looked
/// at, if some were not, and last that these were all.
///
/// # Errors
///
/// `NoMemory` where there is none for the longer text.
#[tactic(auto, unfolding(crate::specs::Json::results_json))]
pub fn push_results(
    text: &mut Vec<u8>,
    shard: &Shard,
    left: usize,
    entries: &[Entry],
) -> Result<(), NoMemory>
    ensures { OnOk result (text.new.items ≡ text.old.items
        ++ results_json shard.now.part shard.now.parts left entries.now) }
{
    push_head(text, shard, entries.len() as u64)?;
    push_entries(text, entries)?;
    push_tail(text, left as u64, entries.len() as u64)
}

/// Adds the results of those traces of a list that are in this part of it, as `push_results` adds
/// those of the part alone, where all of them were looked at.
///
/// # Errors
///
/// `NoMemory` where there is none for the longer text.
#[tactic(auto, unfolding(crate::specs::Json::results_json))]
pub fn push_part_results(
    text: &mut Vec<u8>,
    shard: &Shard,
    entries: &[Entry],
) -> Result<(), NoMemory>
    ensures { OnOk result (text.new.items ≡ text.old.items ++ results_json shard.now.part
        shard.now.parts 0 (part_of shard.now.part shard.now.parts entries.now)) }
{
    let count = count_in(shard, entries) as u64;
    push_head(text, shard, count)?;
    push_entries_in(text, shard, entries)?;
    push_tail(text, 0, count)
}
