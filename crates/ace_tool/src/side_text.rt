// What is said of the recording of a trace, and of its side file.
ghost use Rattle.std.specs.Prelude.{◌≡◌, ◌++◌, ◌≤◌, ℕ, length, codes, decimal};
ghost use Rattle.ace_tool.specs.Reports.{fault_text, gap_text};
ghost use Rattle.ace_tool.specs.declared.gap.Gap.TheVariants.{Open, Stopped};

use crate::gap::Gap;
use crate::report::open_text;
use crate::side::SideFault;
use ace_outstanding::outstanding_words;
use arrayvec::ArrayString;
use itoa::Buffer;

/// A number of events between two texts, of which the second is short.
fn count_text(front: &str, count: u64, back: &str) -> ArrayString<384>
    requires short_front { length front.now ≤ 40 }
    requires short_back { length back.now ≤ 40 }
    ensures value { result.bytes ≡ front.now ++ decimal count ++ back.now }
    ensures short { length result.bytes ≤ 100 }
{
    let mut text = ArrayString::new();
    let mut digits = Buffer::new();
    text.push_str(front);
    text.push_str(digits.format(count));
    text.push_str(back);
    text
}

/// That a last line has this number of events, and the trace another one.
fn other_count_text(front: &str, count: u64, events: u64) -> ArrayString<384>
    requires { length front.now ≤ 40 }
    ensures { result.bytes ≡ front.now ++ decimal count ++ codes ", and the trace has "
        ++ decimal events ++ codes " events" }
{
    let mut text = ArrayString::new();
    let mut digits = Buffer::new();
    text.push_str(front);
    text.push_str(digits.format(count));
    text.push_str(", and the trace has ");
    text.push_str(digits.format(events));
    text.push_str(" events");
    text
}

/// That the recorder stopped after so many events, with its last note.
fn stopped_text(count: u64, note: Option<ArrayString<256>>) -> ArrayString<384>
    ensures { (events : ℕ) → result.bytes ≡ gap_text events (Stopped count note) }
{
    let mut text = count_text("unfinished: the recorder stopped after ", count, " events");
    match note {
        Some(note) => {
            text.push_str(": ");
            text.push_str(note.as_str());
            text
        }
        None => text,
    }
}

/// That so many transactions are outstanding at the end.
fn outstanding_text(events: u64, outstanding: u64) -> ArrayString<384>
    ensures { result.bytes ≡ gap_text events (Open outstanding) }
{
    let mut text = count_text("unfinished: ", events, " events, and ");
    let words = outstanding_words(outstanding);
    text.push_str(words.as_str());
    text.push_str(" at the end");
    text
}

/// That a recording of so many events isn't whole, and why.
pub(crate) fn gap_text(events: u64, gap: Gap) -> ArrayString<384>
    ensures { result.bytes ≡ gap_text events gap }
{
    match gap {
        Gap::NoSide => count_text("unfinished: ", events, " events, and there is no side file"),
        Gap::NoEnd => count_text(
            "unfinished: ",
            events,
            " events, and the side file has no END",
        ),
        Gap::OtherEnd { count } => {
            other_count_text("unfinished: the side file says END ", count, events)
        }
        Gap::OtherCut { count } => {
            other_count_text("unfinished: the side file says CUT ", count, events)
        }
        Gap::Stopped { count, note } => stopped_text(count, note),
        Gap::Cut { count } => count_text("unfinished: cut after ", count, " events on demand"),
        Gap::Open { outstanding } => outstanding_text(events, outstanding),
    }
}

/// What is said behind the name of a side file that tells nothing.
pub(crate) fn fault_text(fault: SideFault) -> ArrayString<384>
    ensures { result.bytes ≡ fault_text fault }
{
    let mut text = ArrayString::new();
    let mut digits = Buffer::new();
    match fault {
        SideFault::Malformed { line, reason } => {
            text.push_str(":");
            text.push_str(digits.format(line));
            text.push_str(": malformed side line ");
            text.push_str(digits.format(line));
            text.push_str(": S");
            text.push_str(digits.format(reason.number()));
        }
        SideFault::ReadFault => text.push_str(": read fault"),
        SideFault::NoMemory => text.push_str(": out of memory"),
        SideFault::Shut { error } => {
            text.push_str(": ");
            text.push_str(open_text(error));
        }
    }
    text
}
