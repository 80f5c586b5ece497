// What there is to say of a trace, as a JSON object in one line.
ghost use Rattle.std.specs.Prelude.{◌≡◌, ◌++◌, None, Some, IfOk, OnOk, option_map};
ghost use Rattle.ace_batch.specs.declared.outcome.Outcome.TheVariants.{Unfinished};
ghost use Rattle.ace_explanation.specs.Texts.{verdict_text};
ghost use Rattle.ace_explain_json.specs.Outcomes.{outcome_of_verdict};
ghost use Rattle.ace_explain_json.specs.Objects.{accepted_json, behind_json, counts_json, column_json, end_json, explanation_json, malformed_json, no_clause, no_event, no_evidence, no_memory_json, no_place, no_values, number_part, outstanding_json, plain_json, reason_json, reason_name, refusal_json, rule_json, side_json, time_json, which_json};
ghost use Rattle.ace_explain_json.specs.Members.{quoted};
ghost use Rattle.ace_malformed.specs.Sentences.{wrong_sentence};

use crate::event::{push_clause, push_event, push_place, push_sentences};
use crate::evidence::{earlier_in, push_earlier, push_evidence};
use crate::members::{push_quoted, push_quoted_if};
use crate::outcome::outcome_of_verdict;
use crate::places::push_before;
use crate::values::{push_note, push_values};
use ace_batch::{Outcome, push_optional};
use ace_explanation::{Explanation, Refusal, verdict_text};
use ace_io::NoMemory;
use ace_malformed::{BadLine, column_of, push, push_number, push_wrong};
use ace_side_facts::SideFacts;
use ace_verdict::Verdict;
use std::alloc::Global;

/// Adds the file, and how its check came out.
#[tactic(auto, unfolding(crate::specs::Objects::which_json))]
fn push_which(text: &mut Vec<u8>, name: &[u8], outcome: Outcome) -> Result<(), NoMemory>
    ensures { OnOk result (text.new.items ≡ text.old.items ++ which_json name.now outcome) }
{
    push(text, b"{\"file\":")?;
    push_quoted(text, name)?;
    push(text, b",\"verdict\":")?;
    push_quoted(text, outcome.verdict())
}

/// Adds when the event is, if that is known.
#[tactic(auto, unfolding(crate::specs::Objects::time_json))]
fn push_time(text: &mut Vec<u8>, time: Option<u64>) -> Result<(), NoMemory>
    ensures { OnOk result (text.new.items ≡ text.old.items ++ time_json time) }
{
    push(text, b",\"time\":")?;
    push_optional(text, time)
}

/// Adds how many events are accepted, if they are.
#[tactic(auto, unfolding(crate::specs::Objects::accepted_json))]
fn push_accepted(text: &mut Vec<u8>, accepted: Option<u64>) -> Result<(), NoMemory>
    ensures { OnOk result (text.new.items ≡ text.old.items ++ accepted_json accepted) }
{
    push(text, b",\"accepted\":")?;
    push_optional(text, accepted)
}

/// Adds how many transactions are outstanding behind them.
#[tactic(auto, unfolding(crate::specs::Objects::outstanding_json))]
fn push_outstanding(text: &mut Vec<u8>, outstanding: Option<u64>) -> Result<(), NoMemory>
    ensures { OnOk result (text.new.items ≡ text.old.items ++ outstanding_json outstanding) }
{
    push(text, b",\"outstanding\":")?;
    push_optional(text, outstanding)
}

/// Adds both.
#[tactic(auto, unfolding(crate::specs::Objects::counts_json))]
fn push_counts(
    text: &mut Vec<u8>,
    accepted: Option<u64>,
    outstanding: Option<u64>,
) -> Result<(), NoMemory>
    ensures { OnOk result (text.new.items
        ≡ text.old.items ++ counts_json accepted outstanding) }
{
    push_accepted(text, accepted)?;
    push_outstanding(text, outstanding)
}

/// Adds why the side file can't be read, if that is so, and the end of the object.
#[tactic(auto, unfolding(crate::specs::Objects::side_json))]
fn push_side(text: &mut Vec<u8>, side: Option<&[u8]>) -> Result<(), NoMemory>
    ensures { OnOk result (text.new.items
        ≡ text.old.items ++ side_json (option_map (λ it. it.now) side.entry)) }
{
    push(text, b",\"side\":")?;
    push_quoted_if(text, side)?;
    push(text, b"}\n")
}

/// Adds all of these.
#[tactic(auto, unfolding(crate::specs::Objects::end_json))]
fn push_end(
    text: &mut Vec<u8>,
    time: Option<u64>,
    accepted: Option<u64>,
    outstanding: Option<u64>,
    side: Option<&[u8]>,
) -> Result<(), NoMemory>
    ensures { OnOk result (text.new.items ≡ text.old.items
        ++ end_json time accepted outstanding (option_map (λ it. it.now) side.entry)) }
{
    push_time(text, time)?;
    push_counts(text, accepted, outstanding)?;
    push_side(text, side)
}

/// Adds which rule the event breaks, and what the event is.
#[tactic(auto, unfolding(crate::specs::Objects::rule_json))]
fn push_rule(alloc: Global, text: &mut Vec<u8>, refusal: &Refusal) -> Result<(), NoMemory>
    ensures { OnOk result (text.new.items ≡ text.old.items ++ rule_json refusal.now) }
{
    push_place(text, refusal.index)?;
    push_clause(text, refusal)?;
    push_sentences(text, refusal)?;
    push_event(text, refusal)?;
    push_values(alloc, text, &refusal.expected)
}

/// Adds the note, what led to the event, and what there was of its line before it.
#[tactic(auto, unfolding(crate::specs::Objects::behind_json))]
fn push_behind(
    alloc: Global,
    text: &mut Vec<u8>,
    facts: &SideFacts,
    refusal: &Refusal,
) -> Result<(), NoMemory>
    ensures { OnOk result (text.new.items
        ≡ text.old.items ++ behind_json facts.now refusal.now) }
{
    push(text, b",\"note\":")?;
    push_note(alloc, text, refusal.origin)?;
    push_earlier(text, earlier_in(&refusal.led))?;
    push(text, b",\"evidence\":")?;
    push_evidence(
        alloc,
        text,
        facts,
        refusal.rule,
        refusal.letter,
        &refusal.led,
    )?;
    push_before(alloc, text, &refusal.header, &refusal.before)
}

/// Adds what there is to say of an event that breaks a rule.
#[tactic(auto, unfolding(crate::specs::Objects::refusal_json))]
fn push_refusal(
    alloc: Global,
    text: &mut Vec<u8>,
    name: &[u8],
    facts: &SideFacts,
    refusal: &Refusal,
) -> Result<(), NoMemory>
    ensures { OnOk result (text.new.items ≡ text.old.items
        ++ refusal_json name.now facts.now refusal.now) }
{
    push_which(text, name, Outcome::Refused)?;
    push_rule(alloc, text, refusal)?;
    push_behind(alloc, text, facts, refusal)?;
    push_end(text, facts.time(refusal.index), None, None, facts.fault())
}

/// No event breaks a rule.
#[tactic(auto, unfolding(crate::specs::Objects::no_event))]
fn no_event() -> &'static [u8]
    ensures { result.now ≡ no_event }
{
    b",\"record\":null,\"port\":null,\"kind\":null,\"address\":null"
}

/// So there are no values, and nothing led there.
#[tactic(auto, unfolding(crate::specs::Objects::no_values))]
fn no_values() -> &'static [u8]
    ensures { result.now ≡ no_values }
{
    b",\"expected\":null,\"got\":null,\"note\":null,\"earlier\":null,\"evidence\":[],\"states\":null"
}

/// Adds that there is no such event.
#[tactic(auto, unfolding(crate::specs::Objects::no_evidence))]
fn push_no_evidence(text: &mut Vec<u8>) -> Result<(), NoMemory>
    ensures { OnOk result (text.new.items ≡ text.old.items ++ no_evidence) }
{
    push(text, no_event())?;
    push(text, no_values())?;
    push(text, b",\"grant\":null")
}

/// There is no clause.
#[tactic(auto, unfolding(crate::specs::Objects::no_clause))]
fn no_clause() -> &'static [u8]
    ensures { result.now ≡ no_clause }
{
    b",\"clause\":null,\"title\":null,\"sentence\":null,\"message\":"
}

/// Adds where a line is malformed.
#[tactic(auto, unfolding(crate::specs::Objects::column_json))]
fn push_column(text: &mut Vec<u8>, bad: &BadLine) -> Result<(), NoMemory>
    ensures { OnOk result (text.new.items ≡ text.old.items ++ column_json bad.now) }
{
    push(text, b",\"line\":")?;
    push_number(text, bad.number)?;
    push(text, b",\"column\":")?;
    push_number(text, column_of(bad) as u64)
}

/// Adds what is wrong there.
fn push_wrong_quoted(alloc: Global, text: &mut Vec<u8>, bad: &BadLine) -> Result<(), NoMemory>
    ensures { OnOk result (text.new.items ≡ text.old.items ++ quoted (wrong_sentence bad.now)) }
{
    let mut words = Vec::new(alloc);
    push_wrong(&mut words, bad)?;
    push_quoted(text, words.as_slice())
}

/// The name of the member for a reason, and the letter of its name.
#[tactic(auto, unfolding(crate::specs::Objects::reason_name))]
fn reason_name() -> &'static [u8]
    ensures { result.now ≡ reason_name }
{
    b",\"event\":null,\"rule\":\"F"
}

/// Adds the number of the reason for which it is malformed.
#[tactic(auto, unfolding(crate::specs::Objects::number_part))]
fn push_reason_number(text: &mut Vec<u8>, reason: u8) -> Result<(), NoMemory>
    ensures { OnOk result (text.new.items ≡ text.old.items ++ number_part reason) }
{
    push(text, reason_name())?;
    push_number(text, u64::from(reason))?;
    push(text, b"\"")
}

/// Adds the reason, and what is wrong.
#[tactic(auto, unfolding(crate::specs::Objects::reason_json))]
fn push_reason(alloc: Global, text: &mut Vec<u8>, bad: &BadLine) -> Result<(), NoMemory>
    ensures { OnOk result (text.new.items ≡ text.old.items ++ reason_json bad.now) }
{
    push_reason_number(text, bad.reason.number())?;
    push(text, no_clause())?;
    push_wrong_quoted(alloc, text, bad)
}

/// Adds what there is to say of a malformed line.
#[tactic(auto, unfolding(crate::specs::Objects::malformed_json))]
fn push_malformed(
    alloc: Global,
    text: &mut Vec<u8>,
    name: &[u8],
    bad: &BadLine,
) -> Result<(), NoMemory>
    ensures { OnOk result (text.new.items ≡ text.old.items ++ malformed_json name.now bad.now) }
{
    push_which(text, name, Outcome::Malformed)?;
    push_column(text, bad)?;
    push_reason(alloc, text, bad)?;
    push_no_evidence(text)?;
    push_end(text, None, None, None, None)
}

/// There is no line.
#[tactic(auto, unfolding(crate::specs::Objects::no_place))]
fn no_place() -> &'static [u8]
    ensures { result.now ≡ no_place }
{
    b",\"line\":null,\"column\":null,\"event\":null,\"rule\":null"
}

/// Adds what there is to say of any other trace.
#[tactic(auto, unfolding(crate::specs::Objects::plain_json))]
fn push_plain(
    text: &mut Vec<u8>,
    name: &[u8],
    outcome: Outcome,
    message: Option<&[u8]>,
    accepted: Option<u64>,
    outstanding: Option<u64>,
) -> Result<(), NoMemory>
    ensures { OnOk result (text.new.items ≡ text.old.items ++ plain_json name.now outcome
        (option_map (λ it. it.now) message.entry) accepted outstanding) }
{
    push_which(text, name, outcome)?;
    push(text, no_place())?;
    push(text, no_clause())?;
    push_quoted_if(text, message)?;
    push_no_evidence(text)?;
    push_end(text, None, accepted, outstanding, None)
}

/// Adds what is told of a trace by a verdict that says all.
fn push_other(text: &mut Vec<u8>, name: &[u8], verdict: Verdict) -> Result<(), NoMemory>
    ensures { OnOk result (text.new.items ≡ text.old.items ++ plain_json name.now
        (outcome_of_verdict verdict) (Some (verdict_text verdict)) None None) }
{
    let words = verdict_text(verdict);
    let outcome = outcome_of_verdict(verdict);
    push_plain(text, name, outcome, Some(words.as_bytes()), None, None)
}

/// Adds all that there is to say of the trace of this name.
fn push_explanation(
    alloc: Global,
    text: &mut Vec<u8>,
    name: &[u8],
    facts: &SideFacts,
    explanation: &Explanation,
) -> Result<(), NoMemory>
    ensures { OnOk result (text.new.items ≡ text.old.items ++ explanation_json name.now facts.now
        explanation.now) }
{
    match explanation {
        Explanation::Refused { refusal } => { push_refusal(alloc, text, name, facts, refusal) }
        Explanation::Malformed { bad } => push_malformed(alloc, text, name, bad),
        Explanation::Accepted {
            events,
            outstanding,
        } => push_plain(
            text,
            name,
            Outcome::Accepted,
            None,
            Some(*events),
            Some(*outstanding),
        ),
        Explanation::Other { verdict } => push_other(text, name, *verdict),
    }
}

/// All that there is to say of the trace of this name, with what its side file tells, as a JSON
/// object in one line.
///
/// # Errors
///
/// `NoMemory` where there is none for the text.
pub fn explanation_json(
    alloc: Global,
    name: &[u8],
    facts: &SideFacts,
    explanation: &Explanation,
) -> Result<Vec<u8>, NoMemory>
    ensures { IfOk result (λ text. text.items ≡ explanation_json name.now facts.now
        explanation.now) }
{
    let mut text = Vec::new(alloc);
    push_explanation(alloc, &mut text, name, facts, explanation)?;
    Ok(text)
}

/// The object of a trace of this name of which no more is told than a message.
///
/// # Errors
///
/// `NoMemory` where there is none for the text.
pub fn plain_json(
    alloc: Global,
    name: &[u8],
    outcome: Outcome,
    message: &[u8],
) -> Result<Vec<u8>, NoMemory>
    ensures { IfOk result (λ text. text.items
        ≡ plain_json name.now outcome (Some message.now) None None) }
{
    let mut text = Vec::new(alloc);
    push_plain(&mut text, name, outcome, Some(message), None, None)?;
    Ok(text)
}

/// The object of an accepted trace of this name, of so many events, whose recording isn't whole; the
/// message tells why.
///
/// # Errors
///
/// `NoMemory` where there is none for the text.
pub fn unfinished_json(
    alloc: Global,
    name: &[u8],
    events: u64,
    message: &[u8],
) -> Result<Vec<u8>, NoMemory>
    ensures { IfOk result (λ text. text.items
        ≡ plain_json name.now Unfinished (Some message.now) (Some events) None) }
{
    let mut text = Vec::new(alloc);
    let outcome = Outcome::Unfinished;
    push_plain(&mut text, name, outcome, Some(message), Some(events), None)?;
    Ok(text)
}

/// What is told where there is no memory for that.
#[tactic(auto, unfolding(crate::specs::Objects::no_memory_json))]
pub fn no_memory_json() -> &'static [u8]
    ensures { result.now ≡ no_memory_json }
{
    b"{\"file\":null,\"verdict\":\"memory\",\"line\":null,\"column\":null,\"event\":null,\"rule\":null,\"clause\":null,\"title\":null,\"sentence\":null,\"message\":\"out of memory\",\"record\":null,\"port\":null,\"kind\":null,\"address\":null,\"expected\":null,\"got\":null,\"note\":null,\"earlier\":null,\"evidence\":[],\"states\":null,\"grant\":null,\"time\":null,\"accepted\":null,\"outstanding\":null,\"side\":null}\n"
}
