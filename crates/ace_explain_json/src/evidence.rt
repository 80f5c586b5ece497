// What led to an event.
ghost use Rattle.std.specs.Prelude.{◌≡◌, ◌++◌, OnOk};
ghost use Rattle.ace_explain_json.specs.Events.{earlier_in, earlier_json, evidence_json, marked_json, marks_json, numbers_json, row_json, row_time_json, rows_json, second_json, text_json, what_json, words_json};

use crate::members::{push_line_of, push_quoted, push_record};
use ace_batch::push_optional;
use ace_clauses::Letter;
use ace_event_words::{Transfers, push_deed};
use ace_io::NoMemory;
use ace_journal::{Led, Looks, Row, earlier_than, looks_for, mark_by, port_of, transfers_of};
use ace_malformed::{push, push_number};
use ace_side_facts::SideFacts;
use std::alloc::Global;

/// Adds the first event of a row, its last one, and the line of the first.
#[tactic(auto, unfolding(crate::specs::Events::numbers_json))]
fn push_numbers(text: &mut Vec<u8>, row: &Row) -> Result<(), NoMemory>
    ensures { OnOk result (text.new.items ≡ text.old.items ++ numbers_json row.now) }
{
    push(text, b"{\"event\":")?;
    push_number(text, row.first)?;
    push(text, b",\"last\":")?;
    push_number(text, row.last)?;
    push(text, b",\"line\":")?;
    push_line_of(text, row.first)
}

/// Adds what its events do, as so many transfers.
#[tactic(auto, unfolding(crate::specs::Events::words_json))]
fn push_words(
    alloc: Global,
    text: &mut Vec<u8>,
    transfers: Transfers,
    row: &Row,
) -> Result<(), NoMemory>
    ensures { OnOk result (text.new.items ≡ text.old.items ++ words_json transfers row.now) }
{
    let mut words = Vec::new(alloc);
    push_deed(&mut words, transfers, &row.deed)?;
    push_quoted(text, words.as_slice())
}

/// Adds its record.
#[tactic(auto, unfolding(crate::specs::Events::what_json))]
fn push_what(text: &mut Vec<u8>, row: &Row) -> Result<(), NoMemory>
    ensures { OnOk result (text.new.items ≡ text.old.items ++ what_json row.now) }
{
    push(text, b",\"what\":")?;
    push_record(text, &row.deed)
}

/// Adds the member with what its events do.
#[tactic(auto, unfolding(crate::specs::Events::text_json))]
fn push_text(
    alloc: Global,
    text: &mut Vec<u8>,
    transfers: Transfers,
    row: &Row,
) -> Result<(), NoMemory>
    ensures { OnOk result (text.new.items ≡ text.old.items ++ text_json transfers row.now) }
{
    push(text, b",\"text\":")?;
    push_words(alloc, text, transfers, row)
}

/// Adds the time of its last event, if that is known.
#[tactic(auto, unfolding(crate::specs::Events::row_time_json))]
fn push_row_time(text: &mut Vec<u8>, facts: &SideFacts, row: &Row) -> Result<(), NoMemory>
    ensures { OnOk result (text.new.items
        ≡ text.old.items ++ row_time_json facts.now row.now) }
{
    push(text, b",\"time\":")?;
    push_optional(text, facts.time(row.last))?;
    push(text, b"}")
}

/// Adds the second of its marks, if it has one, behind the first.
#[tactic(auto, unfolding(crate::specs::Events::second_json))]
fn push_second(text: &mut Vec<u8>, first: &[u8], second: &[u8]) -> Result<(), NoMemory>
    ensures { OnOk result (text.new.items
        ≡ text.old.items ++ second_json first.now second.now) }
{
    if second.is_empty() {
        return Ok(());
    }
    if !first.is_empty() {
        push(text, b",")?;
    }
    push_quoted(text, second)
}

/// Adds its marks, which are empty where it has none.
#[tactic(auto, unfolding(crate::specs::Events::marks_json))]
fn push_marks(text: &mut Vec<u8>, first: &[u8], second: &[u8]) -> Result<(), NoMemory>
    ensures { OnOk result (text.new.items ≡ text.old.items ++ marks_json first.now second.now) }
{
    push(text, b",\"marks\":[")?;
    if !first.is_empty() {
        push_quoted(text, first)?;
    }
    push_second(text, first, second)?;
    push(text, b"]")
}

/// Adds a row with these marks, which tells of so many transfers.
#[tactic(auto, unfolding(crate::specs::Events::row_json))]
fn push_row(
    alloc: Global,
    text: &mut Vec<u8>,
    facts: &SideFacts,
    first: &[u8],
    second: &[u8],
    transfers: Transfers,
    row: &Row,
) -> Result<(), NoMemory>
    ensures { OnOk result (text.new.items
        ≡ text.old.items ++ row_json facts.now first.now second.now transfers row.now) }
{
    push_numbers(text, row)?;
    push_what(text, row)?;
    push_marks(text, first, second)?;
    push_text(alloc, text, transfers, row)?;
    push_row_time(text, facts, row)
}

/// Adds the row, behind which these newer ones stand, with its marks and a comma.
#[tactic(auto, unfolding(crate::specs::Events::marked_json))]
fn push_marked(
    alloc: Global,
    text: &mut Vec<u8>,
    facts: &SideFacts,
    looks: &Looks,
    port: u8,
    newer: &[Row],
    row: &Row,
) -> Result<(), NoMemory>
    ensures { OnOk result (text.new.items
        ≡ text.old.items ++ marked_json facts.now looks.now port newer.now row.now) }
{
    let first = mark_by(looks.first, port, newer, row);
    let second = mark_by(looks.second, port, newer, row);
    push_row(alloc, text, facts, first, second, transfers_of(row), row)?;
    push(text, b",")
}

/// Adds the rows, the oldest first.
#[tactic(auto, using(crate::proofs::RowSteps::rows_step))]
fn push_rows(
    alloc: Global,
    text: &mut Vec<u8>,
    facts: &SideFacts,
    looks: &Looks,
    port: u8,
    rows: &[Row],
) -> Result<(), NoMemory>
    ensures { OnOk result (text.new.items
        ≡ text.old.items ++ rows_json facts.now looks.now port rows.now 0 rows.now) }
{
    let mut left = rows.len();
    while left > 0 {
        left -= 1;
        push_marked(alloc, text, facts, looks, port, &rows[..left], &rows[left])?;
    }
    Ok(())
}

/// How many earlier events of the line there are than those of the rows.
pub(crate) fn earlier_in(led: &Led) -> u64
    ensures { result ≡ earlier_in led.now }
{
    earlier_than(&led.rows[..led.count])
}

/// Adds that there are so many.
#[tactic(auto, unfolding(crate::specs::Events::earlier_json))]
pub(crate) fn push_earlier(text: &mut Vec<u8>, count: u64) -> Result<(), NoMemory>
    ensures { OnOk result (text.new.items ≡ text.old.items ++ earlier_json count) }
{
    push(text, b",\"earlier\":")?;
    push_number(text, count)
}

/// Adds what led to the event, which breaks this clause, and the event itself; nothing where
/// nothing led there.
#[tactic(auto, unfolding(crate::specs::Events::evidence_json))]
pub(crate) fn push_evidence(
    alloc: Global,
    text: &mut Vec<u8>,
    facts: &SideFacts,
    rule: u8,
    letter: Letter,
    led: &Led,
) -> Result<(), NoMemory>
    ensures { OnOk result (text.new.items
        ≡ text.old.items ++ evidence_json facts.now rule letter led.now) }
{
    if led.count == 0 {
        return push(text, b"[]");
    }
    let looks = looks_for(led.line, rule, letter);
    let port = port_of(&led.own.deed);
    push(text, b"[")?;
    let rows = &led.rows[..led.count];
    push_rows(alloc, text, facts, &looks, port, rows)?;
    push_row(alloc, text, facts, b"", b"", led.transfers, &led.own)?;
    push(text, b"]")
}
