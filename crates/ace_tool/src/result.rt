// The entry of a trace in a list of results.
ghost use Rattle.std.specs.Prelude.{◌≡◌, false, IfOk};
ghost use Rattle.ace_explanation.specs.Refusals.{HasLine, refusal_text};
ghost use Rattle.ace_tool.specs.Explaining.{HasNoSide, MayBeTold};
ghost use Rattle.ace_tool.specs.Results.{IsEntryOf, IsResult, IsText, message_of, signature_of};
ghost use Rattle.ace_tool.specs.Told.{options_of};

use crate::check_options::CheckOptions;
use crate::examined::{Examined, examine_file};
use crate::finding::Finding;
use crate::folder::Folder;
use crate::report::Report;
use crate::result_parts::{
    events_of, line_of_result, outcome_of, outstanding_of, push_message, push_signature,
};
use ace_batch::Entry;
use ace_explanation::{Explanation, Refusal, refusal_text};
use ace_io::NoMemory;
use ace_malformed::bad_line_text;
use ace_side_facts::SideFacts;
use std::alloc::Global;

/// What traces that failed alike have in common.
fn signature_of(alloc: Global, finding: &Finding, report: &Report) -> Result<Vec<u8>, NoMemory>
    ensures { IfOk result (λ text. text.items ≡ signature_of finding.now report.now) }
{
    let mut text = Vec::new(alloc);
    push_signature(&mut text, finding, report)?;
    Ok(text)
}

/// What is wrong.
fn message_of(
    alloc: Global,
    name: &str,
    finding: &Finding,
    report: &Report,
) -> Result<Vec<u8>, NoMemory>
    ensures { IfOk result (λ text. text.items ≡ message_of name.now finding.now report.now) }
{
    let mut text = Vec::new(alloc);
    push_message(&mut text, name, finding, report)?;
    Ok(text)
}

/// All that is told of the event that breaks a rule, without a side file.
fn text_of_refusal(alloc: Global, name: &str, refusal: &Refusal) -> Result<Vec<u8>, NoMemory>
    requires { HasLine refusal.now }
    ensures { IfOk result (λ text. (f : SideFacts) × HasNoSide f
        × (text.items ≡ refusal_text f name.now false refusal.now)) }
{
    let facts = SideFacts::none(alloc);
    match refusal_text(alloc, name.as_bytes(), false, &facts, refusal) {
        Ok(text) => Ok(text),
        Err(NoMemory) => Err(NoMemory),
    }
}

/// All that is told of the trace.
fn text_of(
    alloc: Global,
    name: &str,
    finding: &Finding,
    report: &Report,
) -> Result<Vec<u8>, NoMemory>
    requires { MayBeTold finding.now }
    ensures { IfOk result (λ text. IsText name.now finding.now report.now text.items) }
{
    match finding {
        Finding::Explained { explanation } => match explanation {
            Explanation::Refused { refusal } => { text_of_refusal(alloc, name, refusal) }
            Explanation::Malformed { bad } => bad_line_text(alloc, name.as_bytes(), false, bad),
            _ => message_of(alloc, name, finding, report),
        },
        _ => message_of(alloc, name, finding, report),
    }
}

/// The entry of the trace of this name, by what was found and is told of it.
fn entry_of(alloc: Global, name: &str, examined: Examined) -> Result<Entry, NoMemory>
    requires { MayBeTold examined.finding }
    ensures { IfOk result (IsEntryOf name.now examined.finding examined.report) }
{
    let finding = examined.finding;
    let report = examined.report;
    let Ok(path) = String::from_str(alloc, name) else {
        return Err(NoMemory);
    };
    let signature = signature_of(alloc, &finding, &report)?;
    let message = message_of(alloc, name, &finding, &report)?;
    let text = text_of(alloc, name, &finding, &report)?;
    Ok(Entry {
        path,
        outcome: outcome_of(&report),
        events: events_of(&report),
        outstanding: outstanding_of(&report),
        line: line_of_result(&finding),
        signature,
        message,
        text,
    })
}

/// The result of the trace in the file of this path: what `check` and `explain` tell of it.
///
/// # Errors
///
/// `NoMemory` where there is none for what is told.
pub fn result_in<F: Folder>(
    alloc: Global,
    files: &F,
    path: &str,
    options: &CheckOptions<'_>,
) -> Result<Entry, NoMemory>
    ensures { IfOk result (IsResult (options_of options.now) (F.holds files.now) path.now) }
{
    let examined = examine_file(alloc, files, path, options);
    entry_of(alloc, path, examined)
}
