// What a clause expects, and what it got.
ghost use Rattle.std.specs.Prelude.{◌≡◌, ◌++◌, OnOk};
ghost use Rattle.ace_expected.specs.Texts.{expected_text, got_text};
ghost use Rattle.ace_explain_json.specs.Events.{both_json, no_values, note_json, told_json, values_json};

use crate::members::push_quoted;
use ace_expected::{Expectation, expected_text, got_text};
use ace_io::NoMemory;
use ace_malformed::push;
use ace_origins::{Origin, push_origin};
use std::alloc::Global;

/// Where no value is expected.
#[tactic(auto, unfolding(crate::specs::Events::no_values))]
fn no_values() -> &'static [u8]
    ensures { result.now ≡ no_values }
{
    b",\"expected\":null,\"got\":null"
}

/// Adds a text, or that there is none.
#[tactic(auto, unfolding(crate::specs::Events::told_json))]
fn push_told(text: &mut Vec<u8>, told: &[u8]) -> Result<(), NoMemory>
    ensures { OnOk result (text.new.items ≡ text.old.items ++ told_json told.now) }
{
    if told.is_empty() {
        push(text, b"null")
    } else {
        push_quoted(text, told)
    }
}

/// Adds both.
#[tactic(auto, unfolding(crate::specs::Events::both_json))]
fn push_both(text: &mut Vec<u8>, expected: &[u8], got: &[u8]) -> Result<(), NoMemory>
    ensures { OnOk result (text.new.items
        ≡ text.old.items ++ both_json expected.now got.now) }
{
    push(text, b",\"expected\":")?;
    push_told(text, expected)?;
    push(text, b",\"got\":")?;
    push_quoted(text, got)
}

/// Adds what the clause expects, and what it got.
fn push_expectation(alloc: Global, text: &mut Vec<u8>, x: &Expectation) -> Result<(), NoMemory>
    ensures { OnOk result (text.new.items
        ≡ text.old.items ++ both_json (expected_text x.now) (got_text x.now)) }
{
    let expected = expected_text(alloc, x)?;
    let got = got_text(alloc, x)?;
    push_both(text, expected.as_slice(), got.as_slice())
}

/// Adds what the clause expects, and what it got, if it expects a value.
pub(crate) fn push_values(
    alloc: Global,
    text: &mut Vec<u8>,
    expected: &Option<Expectation>,
) -> Result<(), NoMemory>
    ensures { OnOk result (text.new.items ≡ text.old.items ++ values_json expected.now) }
{
    match expected {
        None => push(text, no_values()),
        Some(x) => push_expectation(alloc, text, x),
    }
}

/// Adds where the word stands that came, if that is told.
#[tactic(auto, unfolding(crate::specs::Events::note_json))]
pub(crate) fn push_note(
    alloc: Global,
    text: &mut Vec<u8>,
    origin: Option<Origin>,
) -> Result<(), NoMemory>
    ensures { OnOk result (text.new.items ≡ text.old.items ++ note_json origin) }
{
    match origin {
        None => push(text, b"null"),
        Some(origin) => {
            let mut words = Vec::new(alloc);
            push_origin(&mut words, origin)?;
            push_quoted(text, words.as_slice())
        }
    }
}
