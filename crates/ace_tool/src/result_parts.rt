// What an entry of a list of results says.
ghost use Rattle.std.specs.Prelude.{◌≡◌, ◌++◌, decimal, OnOk};
ghost use Rattle.ace_explanation.specs.Refusals.{wrong_sentence};
ghost use Rattle.ace_tool.specs.Explaining.{MayBeTold};
ghost use Rattle.ace_tool.specs.Reports.{report_text};
ghost use Rattle.ace_tool.specs.Results.{events_of, line_of_result, message_of, message_of_report, outcome_of, outcome_of_fault, outstanding_of, side_line, side_line_words, side_words, signature_of, signature_of_report};

use crate::finding::Finding;
use crate::line::said_of;
use crate::report::Report;
use crate::side::SideFault;
use ace_batch::Outcome;
use ace_clauses::{ClauseName, Letter};
use ace_explain_json::outcome_of_verdict;
use ace_explanation::Explanation;
use ace_io::NoMemory;
use ace_malformed::push_wrong;
use ace_pages::page_name;
use ace_verdict::Verdict;
use ace_words::wrong_with;
use itoa::Buffer;

/// How a check came out, where the side file tells nothing.
pub(crate) fn outcome_of_fault(fault: SideFault) -> Outcome
    ensures { result ≡ outcome_of_fault fault }
{
    match fault {
        SideFault::Malformed { .. } => Outcome::Malformed,
        SideFault::ReadFault | SideFault::Shut { .. } => Outcome::Unreadable,
        SideFault::NoMemory => Outcome::NoMemory,
    }
}

/// How a check came out.
pub(crate) fn outcome_of(report: &Report) -> Outcome
    ensures { result ≡ outcome_of report.now }
{
    match report {
        Report::Told { verdict, .. } => outcome_of_verdict(*verdict),
        Report::Shut { .. } | Report::Compressed { .. } => Outcome::Unreadable,
        Report::Unfinished { .. } => Outcome::Unfinished,
        Report::BadSide { fault } => outcome_of_fault(*fault),
    }
}

/// How many events were judged.
pub(crate) fn events_of(report: &Report) -> u64
    ensures { result ≡ events_of report.now }
{
    match report {
        Report::Told {
            verdict: Verdict::Accepted { events },
            ..
        } => *events,
        Report::Told {
            verdict: Verdict::Refused { index, .. },
            ..
        } => *index,
        Report::Unfinished { events, .. } => *events,
        _ => 0,
    }
}

/// How many transactions are outstanding at the end of an accepted trace.
pub(crate) fn outstanding_of(report: &Report) -> Option<u64>
    ensures { result ≡ outstanding_of report.now }
{
    match report {
        Report::Told {
            verdict: Verdict::Accepted { .. },
            outstanding,
        } => Some(*outstanding),
        _ => None,
    }
}

/// The line that is refused or malformed.
pub(crate) fn line_of_result(finding: &Finding) -> Option<u64>
    requires { MayBeTold finding.now }
    ensures { result ≡ line_of_result finding.now }
{
    match finding {
        Finding::Explained {
            explanation: Explanation::Refused { refusal },
        } => Some(refusal.index + 2),
        Finding::Explained {
            explanation: Explanation::Malformed { bad },
        } => Some(bad.number),
        _ => None,
    }
}

/// Adds the text at the end.
fn push(text: &mut Vec<u8>, more: &str) -> Result<(), NoMemory>
    ensures { OnOk result (text.new.items ≡ text.old.items ++ more.now) }
{
    match text.extend_from_slice(more.as_bytes()) {
        Ok(()) => Ok(()),
        Err(_) => Err(NoMemory),
    }
}

/// Adds a letter and the number of a reason.
fn push_reason(text: &mut Vec<u8>, letter: &str, number: u8) -> Result<(), NoMemory>
    ensures { OnOk result (text.new.items ≡ text.old.items ++ (letter.now ++ decimal number)) }
{
    let mut digits = Buffer::new();
    push(text, letter)?;
    push(text, digits.format(number))
}

/// Adds what is told of a trace behind its name.
fn push_report(text: &mut Vec<u8>, name: &str, report: &Report) -> Result<(), NoMemory>
    ensures { OnOk result (text.new.items ≡ text.old.items ++ report_text name.now report.now) }
{
    let said = said_of(name, *report);
    push(text, said.made.as_str())?;
    push(text, said.front)?;
    push(text, said.name)?;
    push(text, said.back)
}

/// Adds what traces that failed alike have in common, where no event breaks a rule.
fn push_signature_of_report(text: &mut Vec<u8>, report: &Report) -> Result<(), NoMemory>
    ensures { OnOk result (text.new.items ≡ text.old.items ++ signature_of_report report.now) }
{
    match report {
        Report::Told {
            verdict: Verdict::Malformed { reason, .. },
            ..
        } => push_reason(text, "F", reason.number()),
        Report::Told {
            verdict: Verdict::Accepted { .. },
            ..
        } => Ok(()),
        Report::Told { .. } => push_report(text, "", report),
        Report::Shut { .. } => push(text, "cannot be opened"),
        Report::Compressed { .. } => push(text, "compressed"),
        Report::Unfinished { .. } => push(text, "unfinished"),
        Report::BadSide {
            fault: SideFault::Malformed { reason, .. },
        } => push_reason(text, "S", reason.number()),
        Report::BadSide { .. } => push(text, "side file"),
    }
}

/// Adds what traces that failed alike have in common.
pub(crate) fn push_signature(
    text: &mut Vec<u8>,
    finding: &Finding,
    report: &Report,
) -> Result<(), NoMemory>
    ensures { OnOk result (text.new.items ≡ text.old.items
        ++ signature_of finding.now report.now) }
{
    match finding {
        Finding::Explained {
            explanation: Explanation::Refused { refusal },
        } => {
            let name = page_name(refusal.rule, Some(refusal.letter));
            push(text, name.as_str())
        }
        _ => push_signature_of_report(text, report),
    }
}

/// What stands before the number of a line of a side file.
#[tactic(auto, unfolding(crate::specs::Results::side_line_words))]
fn side_line_words() -> &'static str
    ensures { result.now ≡ side_line_words }
{
    "malformed side line "
}

/// What stands before what is told of a side file.
#[tactic(auto, unfolding(crate::specs::Results::side_words))]
fn side_words() -> &'static str
    ensures { result.now ≡ side_words }
{
    "the side file"
}

/// Adds what is told of a side file.
fn push_side_report(text: &mut Vec<u8>, name: &str, report: &Report) -> Result<(), NoMemory>
    ensures { OnOk result (text.new.items ≡ text.old.items
        ++ (side_words ++ report_text name.now report.now)) }
{
    push(text, side_words())?;
    push_report(text, name, report)
}

/// Adds that this line of the side file is malformed.
#[tactic(auto, unfolding(crate::specs::Results::side_line))]
fn push_side_line(text: &mut Vec<u8>, line: u64) -> Result<(), NoMemory>
    ensures { OnOk result (text.new.items ≡ text.old.items ++ side_line line) }
{
    let mut digits = Buffer::new();
    push(text, side_line_words())?;
    push(text, digits.format(line))
}

/// Adds what is wrong, where no event breaks a rule.
fn push_message_of_report(text: &mut Vec<u8>, name: &str, report: &Report) -> Result<(), NoMemory>
    ensures { OnOk result (text.new.items ≡ text.old.items
        ++ message_of_report name.now report.now) }
{
    match report {
        Report::BadSide {
            fault: SideFault::Malformed { line, .. },
        } => push_side_line(text, *line),
        Report::BadSide { .. } => push_side_report(text, name, report),
        _ => push_report(text, name, report),
    }
}

/// What is wrong where the clause is broken.
#[tactic(auto, unfolding(ace_explanation::specs::Refusals::wrong_sentence))]
pub(crate) fn wrong_sentence(rule: u8, letter: Letter) -> &'static [u8]
    ensures { result.now ≡ wrong_sentence rule letter }
{
    wrong_with(ClauseName { rule, letter })
}

/// Adds what is wrong.
pub(crate) fn push_message(
    text: &mut Vec<u8>,
    name: &str,
    finding: &Finding,
    report: &Report,
) -> Result<(), NoMemory>
    ensures { OnOk result (text.new.items ≡ text.old.items
        ++ message_of name.now finding.now report.now) }
{
    match finding {
        Finding::Explained {
            explanation: Explanation::Refused { refusal },
        } => match text.extend_from_slice(wrong_sentence(refusal.rule, refusal.letter)) {
            Ok(()) => Ok(()),
            Err(_) => Err(NoMemory),
        },
        Finding::Explained {
            explanation: Explanation::Malformed { bad },
        } => push_wrong(text, bad),
        _ => push_message_of_report(text, name, report),
    }
}
