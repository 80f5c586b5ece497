// What was found of a trace, as a JSON object.
ghost use Rattle.std.specs.Prelude.{◌≡◌, ◌≢◌, ◌⊎◌, ℕ, List, None, Some, IfOk, OnErr};
ghost use Rattle.std.specs.Io.KnownBytes.{Appends};
ghost use Rattle.ace_convert.specs.Output.{AppendsPart};
ghost use Rattle.ace_io.specs.Faults.{HasCause};
ghost use Rattle.ace_batch.specs.declared.outcome.Outcome.TheVariants.{Unreadable};
ghost use Rattle.ace_explain_json.specs.Objects.{plain_json};
ghost use Rattle.ace_tool.specs.Beside.{fault_json, fault_words, gap_json};
ghost use Rattle.ace_tool.specs.Explaining.{TellsJson, TellsJsonPart, finding_json, packed_words, status_of_finding, told_name};
ghost use Rattle.ace_tool.specs.Reports.{status_of_fault};
ghost use Rattle.ace_tool.specs.Told.{side_of};

use crate::check_options::SideChoice;
use crate::explain::told_name;
use crate::finding::Finding;
use crate::gap::Gap;
use crate::line::{shown_name, side_pieces};
use crate::packing::{Packing, advice_of};
use crate::report::{open_text, status_of_fault, status_of_verdict};
use crate::result_parts::outcome_of_fault;
use crate::side::SideFault;
use crate::side_text::{fault_text, gap_text};
use ace_batch::Outcome;
use ace_call::give_text;
use ace_explain_json::{explanation_json, no_memory_json, plain_json, unfinished_json};
use ace_io::{Failed, NoMemory, Sink};
use ace_malformed::push;
use ace_side_facts::SideFacts;
use std::alloc::Global;

/// The status of what was found.
fn status_of_finding(finding: &Finding) -> u8
    ensures { result ≡ status_of_finding finding.now }
{
    match finding {
        Finding::Explained { explanation } => status_of_verdict(explanation.verdict()),
        Finding::Shut { .. } | Finding::Compressed { .. } => 4,
    }
}

/// What is told of a file that is compressed.
fn packed_words(alloc: Global, name: &str, packing: Packing) -> Result<Vec<u8>, NoMemory>
    ensures { IfOk result (λ text. text.items ≡ packed_words name.now packing) }
{
    let mut text = Vec::new(alloc);
    push(&mut text, advice_of(packing).as_bytes())?;
    push(&mut text, shown_name(name).as_bytes())?;
    push(&mut text, b" | acetool explain -")?;
    Ok(text)
}

/// The object of a file that is compressed.
fn packed_json(alloc: Global, name: &str, packing: Packing) -> Result<Vec<u8>, NoMemory>
    ensures { IfOk result (λ text. text.items ≡ plain_json (told_name name.now) Unreadable
        (Some (packed_words name.now packing)) None None) }
{
    let words = packed_words(alloc, name, packing)?;
    let told = told_name(name).as_bytes();
    plain_json(alloc, told, Outcome::Unreadable, words.as_slice())
}

/// The object of what was found of the trace of this name, with what its side file tells.
fn finding_json(
    alloc: Global,
    name: &str,
    facts: &SideFacts,
    finding: &Finding,
) -> Result<Vec<u8>, NoMemory>
    ensures { IfOk result (λ text. text.items ≡ finding_json facts.now name.now finding.now) }
{
    let told = told_name(name).as_bytes();
    match finding {
        Finding::Explained { explanation } => explanation_json(alloc, told, facts, explanation),
        Finding::Shut { error } => {
            let words = open_text(*error).as_bytes();
            plain_json(alloc, told, Outcome::Unreadable, words)
        }
        Finding::Compressed { packing } => packed_json(alloc, name, *packing),
    }
}

/// Gives the text, and returns the status.
pub(crate) fn give<K: Sink>(out: &mut K, text: &[u8], status: u8) -> Result<u8, Failed>
    ensures whole { IfOk result (λ told. Appends (K.held out.old) (K.held out.new) text.now
        × (told ≡ status)) }
    ensures part { OnErr result (AppendsPart (K.held out.old) (K.held out.new) text.now) }
    ensures cause { HasCause (K.faults out.old) (K.faults out.new) result }
{
    match give_text(out, text) {
        Ok(()) => Ok(status),
        Err(failed) => Err(failed),
    }
}

/// Gives the object, if there was memory for it, and returns the status that is due then; or says
/// that there was none.
fn give_object<K: Sink>(
    out: &mut K,
    object: Result<Vec<u8>, NoMemory>,
    due: u8,
) -> Result<u8, Failed>
    ensures whole { (text : List ℕ) → IfOk object (λ made. made.items ≡ text)
        → IfOk result (TellsJson text (K.held out.old) (K.held out.new) due) }
    ensures part { (text : List ℕ) → IfOk object (λ made. made.items ≡ text)
        → OnErr result (TellsJsonPart text (K.held out.old) (K.held out.new)) }
    ensures status { IfOk result (λ status. (status ≡ due) ⊎ (status ≡ 7)) }
    ensures cause { HasCause (K.faults out.old) (K.faults out.new) result }
{
    match object {
        Ok(text) => give(out, text.as_slice(), due),
        Err(NoMemory) => give(out, no_memory_json(), 7),
    }
}

/// Tells what was found of the trace of this name, with what its side file tells, or that there was
/// no memory for that, and returns the status.
///
/// # Errors
///
/// `Failed` where the output failed.
pub(crate) fn tell_json<K: Sink>(
    alloc: Global,
    out: &mut K,
    name: &str,
    facts: &SideFacts,
    finding: &Finding,
) -> Result<u8, Failed>
    ensures whole { IfOk result (TellsJson (finding_json facts.now name.now finding.now)
        (K.held out.old) (K.held out.new) (status_of_finding finding.now)) }
    ensures part { OnErr result (TellsJsonPart (finding_json facts.now name.now finding.now)
        (K.held out.old) (K.held out.new)) }
    ensures no_write_fault { IfOk result (λ status. status ≢ 5) }
    ensures cause { HasCause (K.faults out.old) (K.faults out.new) result }
{
    let object = finding_json(alloc, name, facts, finding);
    give_object(out, object, status_of_finding(finding))
}

/// The object of a trace of this name whose recording of so many events isn't whole.
fn gap_json(alloc: Global, name: &str, events: u64, gap: Gap) -> Result<Vec<u8>, NoMemory>
    ensures { IfOk result (λ text. text.items ≡ gap_json name.now events gap) }
{
    let words = gap_text(events, gap);
    unfinished_json(alloc, told_name(name).as_bytes(), events, words.as_bytes())
}

/// Tells that the recording of so many events isn't whole, or that there was no memory for that,
/// and returns the status.
///
/// # Errors
///
/// `Failed` where the output failed.
pub(crate) fn tell_gap_json<K: Sink>(
    alloc: Global,
    out: &mut K,
    name: &str,
    events: u64,
    gap: Gap,
) -> Result<u8, Failed>
    ensures whole { IfOk result (TellsJson (gap_json name.now events gap) (K.held out.old)
        (K.held out.new) 8) }
    ensures part { OnErr result (TellsJsonPart (gap_json name.now events gap) (K.held out.old)
        (K.held out.new)) }
    ensures no_write_fault { IfOk result (λ status. status ≢ 5) }
    ensures cause { HasCause (K.faults out.old) (K.faults out.new) result }
{
    let object = gap_json(alloc, name, events, gap);
    give_object(out, object, 8)
}

/// Why the side file of a trace of this name can't be read.
fn fault_words(
    alloc: Global,
    side: SideChoice<'_>,
    name: &str,
    fault: SideFault,
) -> Result<Vec<u8>, NoMemory>
    ensures { IfOk result (λ text. text.items ≡ fault_words (side_of side.entry) name.now fault) }
{
    let (front, back) = side_pieces(side, name);
    let mut text = Vec::new(alloc);
    push(&mut text, front.as_bytes())?;
    push(&mut text, back.as_bytes())?;
    push(&mut text, fault_text(fault).as_bytes())?;
    Ok(text)
}

/// The object of a trace of this name whose side file can't be read.
fn fault_json(
    alloc: Global,
    side: SideChoice<'_>,
    name: &str,
    fault: SideFault,
) -> Result<Vec<u8>, NoMemory>
    ensures { IfOk result (λ text. text.items ≡ fault_json (side_of side.entry) name.now fault) }
{
    let words = fault_words(alloc, side, name, fault)?;
    let told = told_name(name).as_bytes();
    plain_json(alloc, told, outcome_of_fault(fault), words.as_slice())
}

/// Tells that the side file of the trace can't be read, or that there was no memory for that, and
/// returns the status.
///
/// # Errors
///
/// `Failed` where the output failed.
pub(crate) fn tell_fault_json<K: Sink>(
    alloc: Global,
    out: &mut K,
    side: SideChoice<'_>,
    name: &str,
    fault: SideFault,
) -> Result<u8, Failed>
    ensures whole { IfOk result (TellsJson (fault_json (side_of side.entry) name.now fault)
        (K.held out.old) (K.held out.new) (status_of_fault fault)) }
    ensures part { OnErr result (TellsJsonPart (fault_json (side_of side.entry) name.now fault)
        (K.held out.old) (K.held out.new)) }
    ensures no_write_fault { IfOk result (λ status. status ≢ 5) }
    ensures cause { HasCause (K.faults out.old) (K.faults out.new) result }
{
    let object = fault_json(alloc, side, name, fault);
    give_object(out, object, status_of_fault(fault))
}
