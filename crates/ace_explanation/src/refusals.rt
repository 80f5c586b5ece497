// What is told of an event that breaks a rule.
ghost use Rattle.std.specs.Prelude.{◌≡◌, ◌++◌, None, codes, decimal, IfOk, OnOk};
ghost use Rattle.ace_journal.specs.LedTexts.{led_text};
ghost use Rattle.ace_side_facts.specs.Facts.{fault_in};
ghost use Rattle.ace_pages.specs.Pages.{page_name};
ghost use Rattle.ace_explanation.specs.Refusals.{HasLine, before_part, event_part, evidence, expected_part, fault_line, kept_part, kept_sentence, origin_part, place_text, refusal_line, refusal_text, rest_of, rule_line, title, wrong_part, wrong_sentence};

use crate::event_line::push_event_text;
use crate::refusal::Refusal;
use ace_before::{LineBefore, push_line_before};
use ace_clauses::{ClauseName, Letter};
use ace_event::Header;
use ace_expected::{Expectation, push_expectation};
use ace_io::NoMemory;
use ace_journal::{push_event_words, push_led, push_moment, push_note};
use ace_malformed::{push, push_number};
use ace_origins::{Origin, push_origin};
use ace_pages::{page_name, push_advice};
use ace_side_facts::SideFacts;
use ace_words::{kept_where, rule_title, wrong_with};
use std::alloc::Global;

/// What is wrong where the clause is broken.
#[tactic(auto, unfolding(crate::specs::Refusals::wrong_sentence))]
pub fn wrong_sentence(rule: u8, letter: Letter) -> &'static [u8]
    ensures { result.now ≡ wrong_sentence rule letter }
{
    wrong_with(ClauseName { rule, letter })
}

/// Where the clause is kept.
#[tactic(auto, unfolding(crate::specs::Refusals::kept_sentence))]
pub fn kept_sentence(rule: u8, letter: Letter) -> &'static [u8]
    ensures { result.now ≡ kept_sentence rule letter }
{
    kept_where(ClauseName { rule, letter })
}

/// The title of the rule.
#[tactic(auto, unfolding(crate::specs::Refusals::title))]
pub fn title(rule: u8) -> &'static [u8]
    ensures { result.now ≡ title rule }
{
    rule_title(rule)
}

/// Adds what the rule is called, or the clause of it if one is named.
fn push_name(text: &mut Vec<u8>, rule: u8, letter: Option<Letter>) -> Result<(), NoMemory>
    ensures { OnOk result (text.new.items ≡ text.old.items ++ page_name rule letter) }
{
    let name = page_name(rule, letter);
    push(text, name.as_bytes())
}

/// Adds a colon, a space and the sentence.
fn push_sentence(text: &mut Vec<u8>, sentence: &[u8]) -> Result<(), NoMemory>
    ensures { OnOk result (text.new.items ≡ text.old.items ++ (codes ": " ++ sentence.now)) }
{
    push(text, b": ")?;
    push(text, sentence)
}

/// Adds what is wrong.
#[tactic(auto, unfolding(crate::specs::Refusals::wrong_part))]
fn push_wrong(text: &mut Vec<u8>, rule: u8, letter: Letter) -> Result<(), NoMemory>
    ensures { OnOk result (text.new.items ≡ text.old.items ++ wrong_part rule letter) }
{
    push_sentence(text, wrong_sentence(rule, letter))
}

/// Adds where the clause is kept.
#[tactic(auto, unfolding(crate::specs::Refusals::kept_part))]
fn push_kept(text: &mut Vec<u8>, rule: u8, letter: Letter) -> Result<(), NoMemory>
    ensures { OnOk result (text.new.items ≡ text.old.items ++ kept_part rule letter) }
{
    push_sentence(text, kept_sentence(rule, letter))
}

/// Adds a place in a file.
#[tactic(auto, unfolding(crate::specs::Refusals::place_text))]
fn push_place(text: &mut Vec<u8>, name: &[u8], line: u64) -> Result<(), NoMemory>
    ensures { OnOk result (text.new.items ≡ text.old.items ++ place_text name.now line) }
{
    push(text, name)?;
    push(text, b":")?;
    push_number(text, line)
}

/// Adds the verdict on the event.
fn push_verdict(text: &mut Vec<u8>, index: u64, rule: u8) -> Result<(), NoMemory>
    ensures { OnOk result (text.new.items ≡ text.old.items
        ++ (codes ": refused event " ++ decimal index ++ codes ": " ++ page_name rule None)) }
{
    push(text, b": refused event ")?;
    push_number(text, index)?;
    push(text, b": ")?;
    push_name(text, rule, None)
}

/// Adds the first line.
#[tactic(auto, unfolding(crate::specs::Refusals::refusal_line))]
fn push_line(text: &mut Vec<u8>, name: &[u8], refusal: &Refusal) -> Result<(), NoMemory>
    requires { HasLine refusal.now }
    ensures { OnOk result (text.new.items ≡ text.old.items ++ refusal_line name.now refusal.now) }
{
    push_place(text, name, refusal.index + 2)?;
    push_verdict(text, refusal.index, refusal.rule)?;
    push_wrong(text, refusal.rule, refusal.letter)?;
    push(text, b"\n")
}

/// Adds what the rule asks.
#[tactic(auto, unfolding(crate::specs::Refusals::rule_line))]
fn push_rule(text: &mut Vec<u8>, refusal: &Refusal) -> Result<(), NoMemory>
    ensures { OnOk result (text.new.items ≡ text.old.items ++ rule_line refusal.now) }
{
    push(text, b"  ")?;
    push_name(text, refusal.rule, Some(refusal.letter))?;
    push(text, b"  ")?;
    push(text, title(refusal.rule))?;
    push_kept(text, refusal.rule, refusal.letter)?;
    push(text, b"\n")
}

/// Adds what the clause expects, and what it got.
#[tactic(auto, unfolding(crate::specs::Refusals::expected_part))]
fn push_expected(
    alloc: Global,
    text: &mut Vec<u8>,
    expected: &Option<Expectation>,
) -> Result<(), NoMemory>
    ensures { OnOk result (text.new.items ≡ text.old.items ++ expected_part expected.now) }
{
    match expected {
        None => Ok(()),
        Some(x) => push_expectation(alloc, text, x),
    }
}

/// Adds where the word stands that came, if that is told.
#[tactic(auto, unfolding(crate::specs::Refusals::origin_part))]
fn push_origin_of(text: &mut Vec<u8>, origin: Option<Origin>) -> Result<(), NoMemory>
    ensures { OnOk result (text.new.items ≡ text.old.items ++ origin_part origin) }
{
    match origin {
        None => Ok(()),
        Some(origin) => {
            push(text, b"  note      ")?;
            push_origin(text, origin)?;
            push(text, b"\n")
        }
    }
}

/// Adds what there is of the line of the event before it.
#[tactic(auto, unfolding(crate::specs::Refusals::before_part))]
fn push_before(
    alloc: Global,
    text: &mut Vec<u8>,
    facts: &SideFacts,
    index: u64,
    header: &Header,
    before: &Option<LineBefore>,
) -> Result<(), NoMemory>
    ensures { OnOk result (text.new.items
        ≡ text.old.items ++ before_part facts.now index header.now before.now) }
{
    match before {
        None => Ok(()),
        Some(before) => {
            push(text, b"\n")?;
            push_line_before(alloc, text, facts, index, header, before)
        }
    }
}

/// Adds the event as it stands in the trace, when it is, in words, and what is remarked there.
#[tactic(auto, unfolding(crate::specs::Refusals::event_part))]
fn push_event(
    alloc: Global,
    text: &mut Vec<u8>,
    facts: &SideFacts,
    refusal: &Refusal,
) -> Result<(), NoMemory>
    requires { HasLine refusal.now }
    ensures { OnOk result (text.new.items ≡ text.old.items ++ event_part facts.now refusal.now) }
{
    push(text, b"  ")?;
    push_event_text(alloc, text, &refusal.header, &refusal.event)?;
    push_moment(alloc, text, facts, refusal.index)?;
    push(text, b"\n")?;
    push_event_words(text, facts, &refusal.led)?;
    push_note(text, facts, refusal.index)
}

/// Adds the event; what the rule asks, expects and got, and where that stands; and what there is of
/// its line before it.
#[tactic(auto, unfolding(crate::specs::Refusals::evidence))]
fn push_evidence(
    alloc: Global,
    text: &mut Vec<u8>,
    facts: &SideFacts,
    refusal: &Refusal,
) -> Result<(), NoMemory>
    requires { HasLine refusal.now }
    ensures { OnOk result (text.new.items ≡ text.old.items ++ evidence facts.now refusal.now) }
{
    push(text, b"\n")?;
    push_event(alloc, text, facts, refusal)?;
    push(text, b"\n")?;
    push_rule(text, refusal)?;
    push_expected(alloc, text, &refusal.expected)?;
    push_origin_of(text, refusal.origin)?;
    push_before(
        alloc,
        text,
        facts,
        refusal.index,
        &refusal.header,
        &refusal.before,
    )
}

/// Adds that the side file can't be read, and why.
fn push_fault(text: &mut Vec<u8>, facts: &SideFacts) -> Result<(), NoMemory>
    ensures { OnOk result (text.new.items ≡ text.old.items ++ fault_line (fault_in facts.now)) }
{
    match facts.fault() {
        None => Ok(()),
        Some(why) => {
            push(text, b"\n  note: ")?;
            push(text, why)?;
            push(text, b"\n")
        }
    }
}

/// Adds what is told behind the first line.
#[tactic(auto, unfolding(crate::specs::Refusals::rest_of))]
fn push_rest(
    alloc: Global,
    text: &mut Vec<u8>,
    facts: &SideFacts,
    refusal: &Refusal,
) -> Result<(), NoMemory>
    requires { HasLine refusal.now }
    ensures { OnOk result (text.new.items ≡ text.old.items ++ rest_of facts.now refusal.now) }
{
    push_evidence(alloc, text, facts, refusal)?;
    push_led(
        alloc,
        text,
        facts,
        refusal.rule,
        refusal.letter,
        &refusal.led,
    )?;
    push_advice(text, refusal.rule)?;
    push_fault(text, facts)
}

/// Adds what is told of the event.
#[tactic(auto, unfolding(crate::specs::Refusals::refusal_text))]
fn push_refusal(
    alloc: Global,
    text: &mut Vec<u8>,
    name: &[u8],
    short: bool,
    facts: &SideFacts,
    refusal: &Refusal,
) -> Result<(), NoMemory>
    requires { HasLine refusal.now }
    ensures { OnOk result (text.new.items ≡ text.old.items
        ++ refusal_text facts.now name.now short refusal.now) }
{
    push_line(text, name, refusal)?;
    if !short {
        push_rest(alloc, text, facts, refusal)?;
    }
    Ok(())
}

/// What is told of the event in the trace of this name, with what its side file tells: the first
/// line alone where that was asked for.
///
/// # Errors
///
/// `NoMemory` where there is none for the text.
pub fn refusal_text(
    alloc: Global,
    name: &[u8],
    short: bool,
    facts: &SideFacts,
    refusal: &Refusal,
) -> Result<Vec<u8>, NoMemory>
    requires { HasLine refusal.now }
    ensures { IfOk result (λ text. text.items ≡ refusal_text facts.now name.now short refusal.now) }
{
    let mut text = Vec::new(alloc);
    push_refusal(alloc, &mut text, name, short, facts, refusal)?;
    Ok(text)
}
