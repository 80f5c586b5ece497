// What there is to say of an event that breaks a rule.
ghost use Rattle.std.specs.Prelude.{◌≡◌, ◌++◌, OnOk};
ghost use Rattle.ace_explain_json.specs.Members.{quoted};
ghost use Rattle.ace_pages.specs.Pages.{page_name};
ghost use Rattle.ace_explain_json.specs.Events.{clause_json, event_json, place_json, sentences_json};

use crate::members::{
    kind_in, push_address, push_line_of, push_port, push_quoted, push_quoted_if, push_record,
};
use ace_clauses::Letter;
use ace_explanation::{Refusal, kept_sentence, title, wrong_sentence};
use ace_io::NoMemory;
use ace_malformed::{push, push_number};
use ace_model::port_of;
use ace_pages::page_name;

/// Adds the line of the trace, and the number of the event.
#[tactic(auto, unfolding(crate::specs::Events::place_json))]
pub(crate) fn push_place(text: &mut Vec<u8>, index: u64) -> Result<(), NoMemory>
    ensures { OnOk result (text.new.items ≡ text.old.items ++ place_json index) }
{
    push(text, b",\"line\":")?;
    push_line_of(text, index)?;
    push(text, b",\"column\":null,\"event\":")?;
    push_number(text, index)
}

/// Adds what the rule is called, or the clause of it if one is named.
fn push_name(text: &mut Vec<u8>, rule: u8, letter: Option<Letter>) -> Result<(), NoMemory>
    ensures { OnOk result (text.new.items ≡ text.old.items ++ quoted (page_name rule letter)) }
{
    let name = page_name(rule, letter);
    push_quoted(text, name.as_bytes())
}

/// Adds the rule, and the clause of it.
#[tactic(auto, unfolding(crate::specs::Events::clause_json))]
pub(crate) fn push_clause(text: &mut Vec<u8>, refusal: &Refusal) -> Result<(), NoMemory>
    ensures { OnOk result (text.new.items ≡ text.old.items ++ clause_json refusal.now) }
{
    push(text, b",\"rule\":")?;
    push_name(text, refusal.rule, None)?;
    push(text, b",\"clause\":")?;
    push_name(text, refusal.rule, Some(refusal.letter))
}

/// Adds what the rule is called, where the clause is kept, and what is wrong.
#[tactic(auto, unfolding(crate::specs::Events::sentences_json))]
pub(crate) fn push_sentences(text: &mut Vec<u8>, refusal: &Refusal) -> Result<(), NoMemory>
    ensures { OnOk result (text.new.items ≡ text.old.items ++ sentences_json refusal.now) }
{
    push(text, b",\"title\":")?;
    push_quoted(text, title(refusal.rule))?;
    push(text, b",\"sentence\":")?;
    push_quoted(text, kept_sentence(refusal.rule, refusal.letter))?;
    push(text, b",\"message\":")?;
    push_quoted(text, wrong_sentence(refusal.rule, refusal.letter))
}

/// Adds the record, the port and the transaction of the event, and its line.
#[tactic(auto, unfolding(crate::specs::Events::event_json))]
pub(crate) fn push_event(text: &mut Vec<u8>, refusal: &Refusal) -> Result<(), NoMemory>
    ensures { OnOk result (text.new.items ≡ text.old.items ++ event_json refusal.now) }
{
    push(text, b",\"record\":")?;
    push_record(text, &refusal.led.own.deed)?;
    push(text, b",\"port\":")?;
    push_port(text, port_of(&refusal.event))?;
    push(text, b",\"kind\":")?;
    push_quoted_if(text, kind_in(&refusal.led.own.deed))?;
    push(text, b",\"address\":")?;
    push_address(text, refusal.led.line)
}
