// Explains a trace.
ghost use Rattle.std.specs.Prelude.{◌≡◌, ◌≢◌, ◌++◌, ℕ, true, IfOk, OnErr, OnOk, codes};
ghost use Rattle.std.specs.Io.KnownBytes.{Appends};
ghost use Rattle.ace_convert.specs.Output.{AppendsPart};
ghost use Rattle.ace_io.specs.Faults.{HasCause};
ghost use Rattle.ace_tool.specs.Beside.{Explains, ExplainsPart, TellsFault, TellsFaultPart, TellsFound, TellsFoundPart, TellsGap, TellsGapPart, TellsReport, TellsReportPart, fault_words, gap_line, no_memory_text};
ghost use Rattle.ace_tool.specs.Explaining.{MayBeTold, TellsAs, TellsFinding, TellsPart, TellsPartAs, TellsPartWith, TellsWith, packed_line, shut_line, told_name};
ghost use Rattle.ace_tool.specs.Reports.{status_of_fault};
ghost use Rattle.ace_tool.specs.Told.{explain_of, side_of};
ghost use Rattle.ace_tool.specs.declared.explain_words.Form.TheVariants.{Json as AsJson};
ghost use Rattle.ace_tool.specs.declared.finding.Finding.TheVariants.{Explained};

use crate::beside::facts_beside;
use crate::check_options::SideChoice;
use crate::check_words::is_input;
use crate::examined::{report_beside, report_of};
use crate::explain_json::{give, tell_fault_json, tell_gap_json, tell_json};
use crate::explain_words::{ExplainCall, Form};
use crate::finding::{Finding, find_named};
use crate::folder::{Folder, OpenErr};
use crate::gap::Gap;
use crate::line::{shown_name, side_pieces};
use crate::packing::{Packing, advice_of};
use crate::report::{Report, open_text, status_of_fault, status_of_verdict};
use crate::side::SideFault;
use crate::side_text::{fault_text, gap_text};
use ace_call::give_pieces;
use ace_explain_json::no_memory_json;
use ace_explanation::{Explanation, tell};
use ace_io::{Failed, NoMemory, Sink, Source};
use ace_side_facts::SideFacts;
use std::alloc::Global;

/// The name by which a trace is told of.
pub(crate) fn told_name<'a>(name: &'a str) -> &'a str
    ensures { result.now ≡ told_name name.entry.now }
{
    if is_input(name) { "<stdin>" } else { name }
}

/// Gives five pieces as one text.
#[tactic(auto, using(crate::proofs::Lines::lines))]
pub(crate) fn give_five<'a, K: Sink>(
    out: &mut K,
    name: &'a str,
    colon: &'a str,
    text: &'a str,
    more: &'a str,
    end: &'a str,
) -> Result<(), Failed>
    ensures whole { OnOk result (Appends (K.held out.old) (K.held out.new) (name.entry.now
        ++ (colon.entry.now ++ (text.entry.now ++ (more.entry.now ++ end.entry.now))))) }
    ensures part { OnErr result (AppendsPart (K.held out.old) (K.held out.new) (name.entry.now
        ++ (colon.entry.now ++ (text.entry.now ++ (more.entry.now ++ end.entry.now))))) }
    ensures cause { HasCause (K.faults out.old) (K.faults out.new) result }
{
    give_pieces(out, &[name, colon, text, more, end])
}

/// Tells that the file of this name could not be opened.
pub(crate) fn tell_shut<K: Sink>(out: &mut K, name: &str, error: OpenErr) -> Result<(), Failed>
    ensures whole { OnOk result (Appends (K.held out.old) (K.held out.new)
        (shut_line name.now error)) }
    ensures part { OnErr result (AppendsPart (K.held out.old) (K.held out.new)
        (shut_line name.now error)) }
    ensures cause { HasCause (K.faults out.old) (K.faults out.new) result }
{
    give_five(out, told_name(name), ": ", open_text(error), "", "\n")
}

/// Tells that the file of this name is compressed.
fn tell_packed<K: Sink>(out: &mut K, name: &str, packing: Packing) -> Result<(), Failed>
    ensures whole { OnOk result (Appends (K.held out.old) (K.held out.new)
        (packed_line name.now packing)) }
    ensures part { OnErr result (AppendsPart (K.held out.old) (K.held out.new)
        (packed_line name.now packing)) }
    ensures cause { HasCause (K.faults out.old) (K.faults out.new) result }
{
    give_five(
        out,
        told_name(name),
        ": ",
        advice_of(packing),
        shown_name(name),
        " | acetool explain -\n",
    )
}

/// Gives two pieces as one text.
#[tactic(auto, using(crate::proofs::Lines::lines))]
fn give_two<'a, K: Sink>(out: &mut K, one: &'a str, other: &'a str) -> Result<(), Failed>
    ensures whole { OnOk result (Appends (K.held out.old) (K.held out.new)
        (one.entry.now ++ other.entry.now)) }
    ensures part { OnErr result (AppendsPart (K.held out.old) (K.held out.new)
        (one.entry.now ++ other.entry.now)) }
    ensures cause { HasCause (K.faults out.old) (K.faults out.new) result }
{
    give_pieces(out, &[one, other])
}

/// Gives three pieces, a line feed behind them, as one text.
#[tactic(auto, using(crate::proofs::Lines::lines))]
fn give_line<'a, K: Sink>(
    out: &mut K,
    one: &'a str,
    other: &'a str,
    last: &'a str,
) -> Result<(), Failed>
    ensures whole { OnOk result (Appends (K.held out.old) (K.held out.new)
        (one.entry.now ++ other.entry.now ++ last.entry.now ++ codes "\n")) }
    ensures part { OnErr result (AppendsPart (K.held out.old) (K.held out.new)
        (one.entry.now ++ other.entry.now ++ last.entry.now ++ codes "\n")) }
    ensures cause { HasCause (K.faults out.old) (K.faults out.new) result }
{
    give_pieces(out, &[one, other, last, "\n"])
}

/// Tells that the recording of so many events isn't whole, and why, and returns the status.
fn tell_gap_line<K: Sink>(out: &mut K, name: &str, events: u64, gap: Gap) -> Result<u8, Failed>
    ensures whole { IfOk result (λ status. Appends (K.held out.old) (K.held out.new)
        (gap_line name.now events gap) × (status ≡ 8)) }
    ensures part { OnErr result (AppendsPart (K.held out.old) (K.held out.new)
        (gap_line name.now events gap)) }
    ensures no_write_fault { IfOk result (λ status. status ≢ 5) }
    ensures cause { HasCause (K.faults out.old) (K.faults out.new) result }
{
    let text = gap_text(events, gap);
    match give_line(out, told_name(name), ": ", text.as_str()) {
        Ok(()) => Ok(8),
        Err(failed) => Err(failed),
    }
}

/// Tells that the side file of the trace can't be read, and why, and returns the status.
fn tell_fault_line<K: Sink>(
    out: &mut K,
    side: SideChoice<'_>,
    name: &str,
    fault: SideFault,
) -> Result<u8, Failed>
    ensures whole { IfOk result (λ status. Appends (K.held out.old) (K.held out.new)
        (fault_words (side_of side.entry) name.now fault ++ codes "\n")
        × (status ≡ status_of_fault fault)) }
    ensures part { OnErr result (AppendsPart (K.held out.old) (K.held out.new)
        (fault_words (side_of side.entry) name.now fault ++ codes "\n")) }
    ensures no_write_fault { IfOk result (λ status. status ≢ 5) }
    ensures cause { HasCause (K.faults out.old) (K.faults out.new) result }
{
    let (front, back) = side_pieces(side, name);
    let text = fault_text(fault);
    match give_line(out, front, back, text.as_str()) {
        Ok(()) => Ok(status_of_fault(fault)),
        Err(failed) => Err(failed),
    }
}

/// Tells the explanation of the trace of this name, with what its side file tells.
fn tell_with<K: Sink>(
    alloc: Global,
    out: &mut K,
    name: &str,
    short: bool,
    facts: &SideFacts,
    explanation: Explanation,
) -> Result<u8, Failed>
    requires { MayBeTold (Explained explanation) }
    ensures whole { IfOk result (TellsWith facts.now name.now short
        (Explained explanation) (K.held out.old) (K.held out.new)) }
    ensures part { OnErr result (TellsPartWith facts.now name.now short
        (Explained explanation) (K.held out.old) (K.held out.new)) }
    ensures no_write_fault { IfOk result (λ status. status ≢ 5) }
    ensures cause { HasCause (K.faults out.old) (K.faults out.new) result }
{
    match tell(alloc, out, told_name(name), short, facts, explanation) {
        Ok(verdict) => Ok(status_of_verdict(verdict)),
        Err(failed) => Err(failed),
    }
}

/// Tells the explanation of the trace of this name.
#[tactic(auto, using(crate::proofs::Without::without))]
pub(crate) fn tell_explanation<K: Sink>(
    alloc: Global,
    out: &mut K,
    name: &str,
    short: bool,
    explanation: Explanation,
) -> Result<u8, Failed>
    requires { MayBeTold (Explained explanation) }
    ensures whole { IfOk result (TellsFinding name.now short
        (Explained explanation) (K.held out.old) (K.held out.new)) }
    ensures part { OnErr result (TellsPart name.now short
        (Explained explanation) (K.held out.old) (K.held out.new)) }
    ensures no_write_fault { IfOk result (λ status. status ≢ 5) }
    ensures cause { HasCause (K.faults out.old) (K.faults out.new) result }
{
    let facts = SideFacts::none(alloc);
    tell_with(alloc, out, name, short, &facts, explanation)
}

/// Tells what was found of the trace of this name, with what its side file tells, and returns the
/// status.
fn tell_finding<K: Sink>(
    alloc: Global,
    out: &mut K,
    name: &str,
    short: bool,
    facts: &SideFacts,
    finding: Finding,
) -> Result<u8, Failed>
    requires { MayBeTold finding }
    ensures whole { IfOk result (TellsWith facts.now name.now short finding (K.held out.old)
        (K.held out.new)) }
    ensures part { OnErr result (TellsPartWith facts.now name.now short finding (K.held out.old)
        (K.held out.new)) }
    ensures no_write_fault { IfOk result (λ status. status ≢ 5) }
    ensures cause { HasCause (K.faults out.old) (K.faults out.new) result }
{
    match finding {
        Finding::Explained { explanation } => tell_with(
            alloc,
            out,
            name,
            short,
            facts,
            explanation,
        ),
        Finding::Shut { error } => match tell_shut(out, name, error) {
            Ok(()) => Ok(4),
            Err(failed) => Err(failed),
        },
        Finding::Compressed { packing } => match tell_packed(out, name, packing) {
            Ok(()) => Ok(4),
            Err(failed) => Err(failed),
        },
    }
}

/// Tells what was found of the trace in this form, with what its side file tells, and returns the
/// status.
fn tell_as<K: Sink>(
    alloc: Global,
    out: &mut K,
    form: Form,
    facts: &SideFacts,
    name: &str,
    finding: Finding,
) -> Result<u8, Failed>
    requires { MayBeTold finding }
    ensures whole { IfOk result (TellsAs form facts.now name.now finding (K.held out.old)
        (K.held out.new)) }
    ensures part { OnErr result (TellsPartAs form facts.now name.now finding (K.held out.old)
        (K.held out.new)) }
    ensures no_write_fault { IfOk result (λ status. status ≢ 5) }
    ensures cause { HasCause (K.faults out.old) (K.faults out.new) result }
{
    match form {
        Form::Whole => tell_finding(alloc, out, name, false, facts, finding),
        Form::Short => tell_finding(alloc, out, name, true, facts, finding),
        Form::Json => tell_json(alloc, out, name, facts, &finding),
    }
}

/// Tells of the trace of this name that there was no memory for what is told, and returns the
/// status.
fn tell_no_room_line<K: Sink>(out: &mut K, name: &str) -> Result<u8, Failed>
    ensures whole { IfOk result (λ status. Appends (K.held out.old) (K.held out.new)
        (told_name name.now ++ codes ": out of memory\n") × (status ≡ 7)) }
    ensures part { OnErr result (AppendsPart (K.held out.old) (K.held out.new)
        (told_name name.now ++ codes ": out of memory\n")) }
    ensures no_write_fault { IfOk result (λ status. status ≢ 5) }
    ensures cause { HasCause (K.faults out.old) (K.faults out.new) result }
{
    match give_two(out, told_name(name), ": out of memory\n") {
        Ok(()) => Ok(7),
        Err(failed) => Err(failed),
    }
}

/// Tells in this form that there was no memory for what is told, and returns the status.
fn tell_no_room<K: Sink>(out: &mut K, form: Form, name: &str) -> Result<u8, Failed>
    ensures whole { IfOk result (λ status. Appends (K.held out.old) (K.held out.new)
        (no_memory_text form name.now) × (status ≡ 7)) }
    ensures part { OnErr result (AppendsPart (K.held out.old) (K.held out.new)
        (no_memory_text form name.now)) }
    ensures no_write_fault { IfOk result (λ status. status ≢ 5) }
    ensures cause { HasCause (K.faults out.old) (K.faults out.new) result }
{
    match form {
        Form::Json => give(out, no_memory_json(), 7),
        Form::Whole => tell_no_room_line(out, name),
        Form::Short => tell_no_room_line(out, name),
    }
}

/// Tells what was found of the trace that is asked for, with what its side file tells, and returns
/// the status.
#[tactic(auto, using(crate::proofs::Without::found))]
fn tell_found<F: Folder, K: Sink>(
    alloc: Global,
    files: &F,
    out: &mut K,
    call: &ExplainCall<'_>,
    finding: Finding,
) -> Result<u8, Failed>
    requires { MayBeTold finding }
    ensures whole { IfOk result (TellsFound (F.holds files.now) (explain_of call.now) finding
        (K.held out.old) (K.held out.new)) }
    ensures part { OnErr result (TellsFoundPart (F.holds files.now) (explain_of call.now) finding
        (K.held out.old) (K.held out.new)) }
    ensures no_write_fault { IfOk result (λ status. status ≢ 5) }
    ensures cause { HasCause (K.faults out.old) (K.faults out.new) result }
{
    match facts_beside(alloc, files, call, &finding) {
        Ok(facts) => tell_as(alloc, out, call.form, &facts, call.trace, finding),
        Err(NoMemory) => tell_no_room(out, call.form, call.trace),
    }
}

/// Tells in this form that the recording of so many events isn't whole, and why, and returns the
/// status.
fn tell_gap<K: Sink>(
    alloc: Global,
    out: &mut K,
    form: Form,
    name: &str,
    events: u64,
    gap: Gap,
) -> Result<u8, Failed>
    ensures whole { IfOk result (TellsGap form name.now events gap (K.held out.old)
        (K.held out.new)) }
    ensures part { OnErr result (TellsGapPart form name.now events gap (K.held out.old)
        (K.held out.new)) }
    ensures no_write_fault { IfOk result (λ status. status ≢ 5) }
    ensures cause { HasCause (K.faults out.old) (K.faults out.new) result }
{
    match form {
        Form::Json => tell_gap_json(alloc, out, name, events, gap),
        Form::Whole => tell_gap_line(out, name, events, gap),
        Form::Short => tell_gap_line(out, name, events, gap),
    }
}

/// Tells in this form that the side file of the trace can't be read, and why, and returns the
/// status.
fn tell_fault<K: Sink>(
    alloc: Global,
    out: &mut K,
    form: Form,
    side: SideChoice<'_>,
    name: &str,
    fault: SideFault,
) -> Result<u8, Failed>
    ensures whole { IfOk result (TellsFault form (side_of side.entry) name.now fault
        (K.held out.old) (K.held out.new)) }
    ensures part { OnErr result (TellsFaultPart form (side_of side.entry) name.now fault
        (K.held out.old) (K.held out.new)) }
    ensures no_write_fault { IfOk result (λ status. status ≢ 5) }
    ensures cause { HasCause (K.faults out.old) (K.faults out.new) result }
{
    match form {
        Form::Json => tell_fault_json(alloc, out, side, name, fault),
        Form::Whole => tell_fault_line(out, side, name, fault),
        Form::Short => tell_fault_line(out, side, name, fault),
    }
}

/// Tells of the trace by its report, and returns the status.
fn tell_report<F: Folder, K: Sink>(
    alloc: Global,
    files: &F,
    out: &mut K,
    call: &ExplainCall<'_>,
    finding: Finding,
    report: Report,
) -> Result<u8, Failed>
    requires { MayBeTold finding }
    ensures whole { IfOk result (TellsReport (F.holds files.now) (explain_of call.now) finding
        report (K.held out.old) (K.held out.new)) }
    ensures part { OnErr result (TellsReportPart (F.holds files.now) (explain_of call.now)
        finding report (K.held out.old) (K.held out.new)) }
    ensures no_write_fault { IfOk result (λ status. status ≢ 5) }
    ensures cause { HasCause (K.faults out.old) (K.faults out.new) result }
{
    match report {
        Report::Unfinished { events, gap } => {
            tell_gap(alloc, out, call.form, call.trace, events, gap)
        }
        Report::BadSide { fault } => tell_fault(
            alloc,
            out,
            call.form,
            call.options.side,
            call.trace,
            fault,
        ),
        Report::Told { .. } | Report::Shut { .. } | Report::Compressed { .. } => {
            tell_found(alloc, files, out, call, finding)
        }
    }
}

/// Explains the trace as it is asked, and returns the status.
///
/// # Errors
///
/// `Failed` where the output failed.
pub(crate) fn explain_trace<F: Folder, I: Source, K: Sink>(
    alloc: Global,
    files: &F,
    input: &mut I,
    out: &mut K,
    call: &ExplainCall<'_>,
) -> Result<u8, Failed>
    ensures whole { IfOk result (Explains (F.holds files.now) (explain_of call.now)
        (I.left input.old) (I.left input.new) (K.held out.old) (K.held out.new)) }
    ensures part { OnErr result (ExplainsPart (F.holds files.now) (explain_of call.now)
        (I.left input.old) (I.left input.new) (K.held out.old) (K.held out.new)) }
    ensures no_write_fault { IfOk result (λ status. status ≢ 5) }
    ensures cause { HasCause (K.faults out.old) (K.faults out.new) result }
{
    let options = &call.options;
    let finding = find_named(alloc, files, input, call.trace, options.limits);
    let report = report_beside(alloc, files, call.trace, options, report_of(finding));
    tell_report(alloc, files, out, call, finding, report)
}
