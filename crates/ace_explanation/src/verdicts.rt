// What is told of a verdict.
ghost use Rattle.std.specs.Prelude.{◌≡◌, ◌++◌, [], codes, if◌then◌else◌, OnOk, OnErr};
ghost use Rattle.ace_outstanding.specs.Words.{outstanding_note};
ghost use Rattle.std.specs.Io.KnownBytes.{Appends};
ghost use Rattle.ace_io.specs.Faults.{HasCause};
ghost use Rattle.ace_convert.specs.Output.{AppendsPart};
ghost use Rattle.ace_explanation.specs.Texts.{accepted_text, verdict_line, verdict_text};

use ace_call::give_pieces;
use ace_io::{Failed, Sink};
use ace_outstanding::outstanding_note;
use ace_verdict::Verdict;
use arrayvec::ArrayString;
use itoa::Buffer;

/// The verdict, as `ace check` says it.
pub fn verdict_text(verdict: Verdict) -> ArrayString<64>
    ensures { result.bytes ≡ verdict_text verdict }
{
    let mut text = ArrayString::new();
    let mut digits = Buffer::new();
    match verdict {
        Verdict::Accepted { events } => {
            text.push_str("accepted ");
            text.push_str(digits.format(events));
        }
        Verdict::Refused { index, rule } => {
            text.push_str("refused event ");
            text.push_str(digits.format(index));
            text.push_str(": K");
            text.push_str(digits.format(rule));
        }
        Verdict::Malformed { line, reason } => {
            text.push_str("malformed line ");
            text.push_str(digits.format(line));
            text.push_str(": F");
            text.push_str(digits.format(reason.number()));
        }
        Verdict::ReadFault => text.push_str("read fault"),
        Verdict::LimitEvents => text.push_str("limit events"),
        Verdict::LimitLines => text.push_str("limit lines"),
        Verdict::NoMemory => text.push_str("out of memory"),
    }
    text
}

/// Gives three pieces as the text of a line.
#[tactic(auto, using(crate::proofs::Lines::lines))]
fn give_three<'a, K: Sink>(
    out: &mut K,
    name: &'a str,
    colon: &'a str,
    verdict: &'a str,
) -> Result<(), Failed>
    ensures whole { OnOk result (Appends (K.held out.old) (K.held out.new)
        (name.entry.now ++ (colon.entry.now ++ (verdict.entry.now ++ codes "\n")))) }
    ensures part { OnErr result (AppendsPart (K.held out.old) (K.held out.new)
        (name.entry.now ++ (colon.entry.now ++ (verdict.entry.now ++ codes "\n")))) }
    ensures cause { HasCause (K.faults out.old) (K.faults out.new) result }
{
    give_pieces(out, &[name, colon, verdict, "\n"])
}

/// Gives the line of the verdict on the trace of this name.
///
/// # Errors
///
/// `Failed` where the sink failed: a front of the line was given.
pub(crate) fn give_verdict<K: Sink>(out: &mut K, name: &str, verdict: Verdict) -> Result<(), Failed>
    ensures whole { OnOk result (Appends (K.held out.old) (K.held out.new)
        (verdict_line name.now verdict)) }
    ensures part { OnErr result (AppendsPart (K.held out.old) (K.held out.new)
        (verdict_line name.now verdict)) }
    ensures cause { HasCause (K.faults out.old) (K.faults out.new) result }
{
    let text = verdict_text(verdict);
    give_three(out, name, ": ", text.as_str())
}

/// The note on what is outstanding, unless the first line alone was asked for.
fn note_of(short: bool, outstanding: u64) -> ArrayString<96>
    ensures { result.bytes ≡ (if short then [] else outstanding_note outstanding) }
{
    if short {
        ArrayString::new()
    } else {
        outstanding_note(outstanding)
    }
}

/// Gives three pieces as the text of a line, and a note behind it.
fn give_noted<'a, K: Sink>(
    out: &mut K,
    name: &'a str,
    verdict: &'a str,
    note: &'a str,
) -> Result<(), Failed>
    ensures whole { OnOk result (Appends (K.held out.old) (K.held out.new)
        ((name.entry.now ++ (codes ": " ++ (verdict.entry.now ++ codes "\n")))
        ++ note.entry.now)) }
    ensures part { OnErr result (AppendsPart (K.held out.old) (K.held out.new)
        ((name.entry.now ++ (codes ": " ++ (verdict.entry.now ++ codes "\n")))
        ++ note.entry.now)) }
    ensures cause { HasCause (K.faults out.old) (K.faults out.new) result }
{
    give_pieces(out, &[name, ": ", verdict, "\n", note])
}

/// Gives the line of an accepted trace of this name, and the note on what is outstanding at its
/// end, unless the first line alone was asked for.
///
/// # Errors
///
/// `Failed` where the sink failed: a front of the text was given.
pub(crate) fn give_accepted<K: Sink>(
    out: &mut K,
    name: &str,
    short: bool,
    events: u64,
    outstanding: u64,
) -> Result<(), Failed>
    ensures whole { OnOk result (Appends (K.held out.old) (K.held out.new)
        (accepted_text name.now short events outstanding)) }
    ensures part { OnErr result (AppendsPart (K.held out.old) (K.held out.new)
        (accepted_text name.now short events outstanding)) }
    ensures cause { HasCause (K.faults out.old) (K.faults out.new) result }
{
    let verdict = verdict_text(Verdict::Accepted { events });
    let note = note_of(short, outstanding);
    give_noted(out, name, verdict.as_str(), note.as_str())
}
