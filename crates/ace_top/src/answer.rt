// The answers of the program: their statuses and texts.
ghost use Rattle.std.specs.Prelude.{◌≡◌, ◌≢◌, ◌≤◌, ◌++◌, codes, decimal, length};
ghost use Rattle.ace_top.specs.Results.{end_answer, plan_answer, verdict_answer};
ghost use Rattle.ace_top.specs.Texts.{status_of, out_text_of, notes_text_of};

use ace_bin::BinReason;
use ace_convert::TraceEnd;
use ace_grammar::Reason;
use ace_script::PlanErr;
use ace_verdict::Verdict;
use arrayvec::ArrayString;
use itoa::Buffer;

/// What a call of the program answers, unless an output fails.
#[derive(Clone, Copy)]
pub enum Answer {
    /// The trace was read to its end, and none of its events breaks a rule.
    Accepted {
        events: u64,
    },
    /// This event, counted from 1, is the first that breaks a rule, and this is the least rule that
    /// it breaks.
    Refused {
        index: u64,
        rule: u8,
    },
    /// The trace was written to its end.
    Shown,
    /// The account of an accepted trace that was asked for was written.
    Reported,
    /// The script that is made from a number was written.
    Generated,
    /// The trace of a run of a script was written.
    Ran,
    /// The script of this number was run, and its trace has so many events.
    Tried {
        number: u64,
        events: u64,
    },
    /// The words of the command line name no command.
    Usage,
    /// This line, counted from 1, is the first that is outside the grammar, for this reason.
    Malformed {
        line: u64,
        reason: Reason,
    },
    /// The same of a script.
    MalformedScript {
        line: u64,
        reason: ace_script::Reason,
    },
    /// Behind so many bytes stands the first header or record of a binary trace that is malformed,
    /// for this reason.
    MalformedRecord {
        byte: u64,
        reason: BinReason,
    },
    /// The input failed.
    ReadFault,
    /// The input goes on after as many events as a trace may have.
    LimitEvents,
    /// An event breaks no rule and names one line more than a trace may have.
    LimitLines,
    /// The input goes on after as many operations as a script may have.
    LimitOperations,
    /// There was no memory.
    NoMemory,
}

/// The answer to a verdict.
pub fn verdict_answer(verdict: Verdict) -> Answer
    ensures { result ≡ verdict_answer verdict }
{
    match verdict {
        Verdict::Accepted { events } => Answer::Accepted { events },
        Verdict::Refused { index, rule } => Answer::Refused { index, rule },
        Verdict::Malformed { line, reason } => Answer::Malformed { line, reason },
        Verdict::ReadFault => Answer::ReadFault,
        Verdict::LimitEvents => Answer::LimitEvents,
        Verdict::LimitLines => Answer::LimitLines,
        Verdict::NoMemory => Answer::NoMemory,
    }
}

/// The answer as the reading of a trace that is written ends.
pub fn end_answer(end: TraceEnd) -> Answer
    ensures { result ≡ end_answer end }
{
    match end {
        TraceEnd::Whole => Answer::Shown,
        TraceEnd::BadLine { line, reason } => Answer::Malformed { line, reason },
        TraceEnd::BadRecord { byte, reason } => Answer::MalformedRecord { byte, reason },
        TraceEnd::Full => Answer::LimitEvents,
        TraceEnd::ReadFault => Answer::ReadFault,
        TraceEnd::NoMemory => Answer::NoMemory,
    }
}

/// The answer where a script could not be read.
pub fn plan_answer(error: PlanErr) -> Answer
    ensures { result ≡ plan_answer error }
{
    match error {
        PlanErr::Malformed { line, reason } => Answer::MalformedScript { line, reason },
        PlanErr::TooManyOps => Answer::LimitOperations,
        PlanErr::ReadFault => Answer::ReadFault,
        PlanErr::NoMemory => Answer::NoMemory,
    }
}

/// The status with which the program ends.
pub fn status_of(answer: Answer) -> u8
    ensures value { result ≡ status_of answer }
    ensures no_write_fault { result ≢ 5 }
{
    match answer {
        Answer::Accepted { .. }
        | Answer::Shown
        | Answer::Reported
        | Answer::Generated
        | Answer::Ran
        | Answer::Tried { .. } => 0,
        Answer::Refused { .. } => 1,
        Answer::Usage => 2,
        Answer::Malformed { .. }
        | Answer::MalformedScript { .. }
        | Answer::MalformedRecord { .. } => 3,
        Answer::ReadFault => 4,
        Answer::LimitEvents | Answer::LimitLines | Answer::LimitOperations => 6,
        Answer::NoMemory => 7,
    }
}

/// The text of a verdict for the standard output, with its line feed.
pub fn out_text(answer: Answer) -> ArrayString<96>
    ensures { result.bytes ≡ out_text_of answer }
{
    let mut text = ArrayString::new();
    let mut digits = Buffer::new();
    match answer {
        Answer::Accepted { events } => {
            text.push_str("accepted ");
            text.push_str(digits.format(events));
            text.push_str("\n");
        }
        Answer::Refused { index, rule } => {
            text.push_str("refused event ");
            text.push_str(digits.format(index));
            text.push_str(": K");
            text.push_str(digits.format(rule));
            text.push_str("\n");
        }
        Answer::Tried { number, events } => {
            text.push_str("trial ");
            text.push_str(digits.format(number));
            text.push_str(": 512 operations, ");
            text.push_str(digits.format(events));
            text.push_str(" events, accepted\n");
        }
        _ => {}
    }
    text
}

/// What is malformed, as the line or byte of this number, and for which reason: the letter of its
/// kind, and its number.
fn malformed_text(what: &str, place: u64, letter: &str, number: u8) -> ArrayString<96>
    requires what { length what.now ≤ 4 }
    requires letter { length letter.now ≤ 2 }
    ensures { result.bytes
        ≡ codes "malformed " ++ what.now ++ codes " " ++ decimal place ++ codes ": " ++ letter.now
        ++ decimal number ++ codes "\n" }
{
    let mut text = ArrayString::new();
    let mut digits = Buffer::new();
    text.push_str("malformed ");
    text.push_str(what);
    text.push_str(" ");
    text.push_str(digits.format(place));
    text.push_str(": ");
    text.push_str(letter);
    text.push_str(digits.format(number));
    text.push_str("\n");
    text
}

/// The text for the standard error, with its line feed.
pub fn notes_text(answer: Answer) -> ArrayString<96>
    ensures { result.bytes ≡ notes_text_of answer }
{
    let mut text = ArrayString::new();
    match answer {
        Answer::Malformed { line, reason } => {
            return malformed_text("line", line, "F", reason.number());
        }
        Answer::MalformedScript { line, reason } => {
            return malformed_text("line", line, "P", reason.number());
        }
        Answer::MalformedRecord { byte, reason } => {
            return malformed_text("byte", byte, "Z", reason.number());
        }
        Answer::Usage => {
            text.push_str(
                "usage: ace check|run [filter]|show|migrate|pack|unpack|report|order|gen N|trial N\n",
            );
        }
        Answer::ReadFault => text.push_str("read fault\n"),
        Answer::LimitEvents => text.push_str("limit events\n"),
        Answer::LimitLines => text.push_str("limit lines\n"),
        Answer::LimitOperations => text.push_str("limit operations\n"),
        Answer::NoMemory => text.push_str("out of memory\n"),
        _ => {}
    }
    text
}
