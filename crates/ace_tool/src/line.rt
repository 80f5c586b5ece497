// The line of a trace.
ghost use Rattle.std.specs.Prelude.{◌≡◌, ◌++◌, [], codes, OnOk, OnErr};
ghost use Rattle.std.specs.Io.KnownBytes.{Appends};
ghost use Rattle.ace_io.specs.Faults.{HasCause};
ghost use Rattle.ace_convert.specs.Output.{AppendsPart};
ghost use Rattle.ace_tool.specs.Reports.{line_of, name_text, note_of, report_text, shown_name, side_name};
ghost use Rattle.ace_tool.specs.Told.{side_of};

use crate::check_options::SideChoice;
use crate::check_words::is_input;
use crate::packing::advice_of;
use crate::report::{Report, open_text, verdict_text};
use crate::side_text::{fault_text, gap_text};
use ace_call::give_pieces;
use ace_io::{Failed, Sink};
use ace_outstanding::outstanding_note;
use arrayvec::ArrayString;

/// What is said of a trace: a text that is made for it, and three that are there.
#[derive(Drop)]
pub(crate) struct Said<'a> {
    pub(crate) made: ArrayString<384>,
    pub(crate) front: &'a str,
    pub(crate) name: &'a str,
    pub(crate) back: &'a str,
}

/// Gives six pieces, a line feed and a note as one text.
#[tactic(auto, using(crate::proofs::Lines::lines))]
fn give_seven<'a, K: Sink>(
    out: &mut K,
    file: &'a str,
    colon: &'a str,
    made: &'a str,
    front: &'a str,
    name: &'a str,
    back: &'a str,
    note: &'a str,
) -> Result<(), Failed>
    ensures whole { OnOk result (Appends (K.held out.old) (K.held out.new)
        ((file.entry.now ++ colon.entry.now) ++ (made.entry.now ++ front.entry.now
        ++ name.entry.now ++ back.entry.now) ++ codes "\n" ++ note.entry.now)) }
    ensures part { OnErr result (AppendsPart (K.held out.old) (K.held out.new)
        ((file.entry.now ++ colon.entry.now) ++ (made.entry.now ++ front.entry.now
        ++ name.entry.now ++ back.entry.now) ++ codes "\n" ++ note.entry.now)) }
    ensures cause { HasCause (K.faults out.old) (K.faults out.new) result }
{
    give_pieces(out, &[file, colon, made, front, name, back, "\n", note])
}

/// What is said of the trace of the file of this name.
pub(crate) fn said_of<'a>(name: &'a str, report: Report) -> Said<'a>
    ensures { result.made.bytes ++ result.front.now ++ result.name.now ++ result.back.now
        ≡ report_text name.entry.now report }
{
    match report {
        Report::Told { verdict, .. } => Said {
            made: verdict_text(verdict),
            front: "",
            name: "",
            back: "",
        },
        Report::Shut { error } => Said {
            made: ArrayString::new(),
            front: open_text(error),
            name: "",
            back: "",
        },
        Report::Compressed { packing } => Said {
            made: ArrayString::new(),
            front: advice_of(packing),
            name,
            back: " | acetool check -",
        },
        Report::Unfinished { events, gap } => Said {
            made: gap_text(events, gap),
            front: "",
            name: "",
            back: "",
        },
        Report::BadSide { fault } => Said {
            made: fault_text(fault),
            front: "",
            name: "",
            back: "",
        },
    }
}

/// The name of the side file of a trace, in two pieces.
pub(crate) fn side_pieces<'a>(side: SideChoice<'a>, name: &'a str) -> (&'a str, &'a str)
    ensures { result.0.now ++ result.1.now ≡ side_name (side_of side.entry) name.entry.now }
{
    match side {
        SideChoice::Named { name } => (name, ""),
        SideChoice::Beside | SideChoice::Nowhere => (name, ".side"),
    }
}

/// What stands before a report in the line of the trace of this name, in two pieces.
fn name_pieces<'a>(side: SideChoice<'a>, name: &'a str, report: &Report) -> (&'a str, &'a str)
    ensures { result.0.now ++ result.1.now
        ≡ name_text (side_of side.entry) name.entry.now report.now }
{
    match report {
        Report::BadSide { .. } => side_pieces(side, name),
        _ => {
            if is_input(name) {
                ("", "")
            } else {
                (name, ": ")
            }
        }
    }
}

/// The name that a report speaks of.
pub(crate) fn shown_name<'a>(name: &'a str) -> &'a str
    ensures { result.now ≡ shown_name name.entry.now }
{
    if is_input(name) { "FILE" } else { name }
}

/// The note behind the line of a trace.
fn note_of(report: &Report) -> ArrayString<96>
    ensures { result.bytes ≡ note_of report.now }
{
    match report {
        Report::Told { outstanding, .. } => outstanding_note(*outstanding),
        _ => ArrayString::new(),
    }
}

/// Gives the line of the trace of this name, and its note.
///
/// # Errors
///
/// `Failed` where the sink failed: a front of the line was given.
pub(crate) fn give_line<K: Sink>(
    out: &mut K,
    side: SideChoice<'_>,
    name: &str,
    report: &Report,
) -> Result<(), Failed>
    ensures whole { OnOk result (Appends (K.held out.old) (K.held out.new)
        (line_of (side_of side.entry) name.now report.now)) }
    ensures part { OnErr result (AppendsPart (K.held out.old) (K.held out.new)
        (line_of (side_of side.entry) name.now report.now)) }
    ensures cause { HasCause (K.faults out.old) (K.faults out.new) result }
{
    let (file, colon) = name_pieces(side, name, report);
    let said = said_of(shown_name(name), *report);
    let note = note_of(report);
    give_seven(
        out,
        file,
        colon,
        said.made.as_str(),
        said.front,
        said.name,
        said.back,
        note.as_str(),
    )
}
