// Traces that are counted, one after another.
ghost use Rattle.std.specs.Prelude.{◌≡◌, ◌≢◌, ◌++◌, List, ℕ, [], codes, IfErr, IfOk, OnErr, OnOk};
ghost use Rattle.std.specs.Io.KnownBytes.{Appends};
ghost use Rattle.ace_cover.specs.Tallies.{no_tally};
ghost use Rattle.ace_io.specs.Faults.{HasCause};
ghost use Rattle.ace_paths.specs.Lists.{texts_of};
ghost use Rattle.ace_points.specs.Points.{all_points};
ghost use Rattle.ace_tool.specs.Checked.{accepted_of};
ghost use Rattle.ace_tool.specs.Covered.{IsCounted, note_by, uncounted_line, with_accepted};
ghost use Rattle.ace_tool.specs.Covering.{AddsTrace, CountsTraces, Stops};

use crate::check::accepted_of;
use crate::cover_read::cover_named;
use crate::explain::told_name;
use crate::folder::Folder;
use crate::line::{said_of, shown_name};
use crate::packing::advice_of;
use crate::report::Report;
use crate::seen::Seen;
use ace_call::give_pieces;
use ace_cover::{Totals, no_hits};
use ace_io::{Failed, Sink, Source};
use ace_points::Point;
use std::alloc::Global;

/// Why nothing is told.
#[derive(Clone, Copy)]
pub enum Stop {
    NoMemory,
    Failed,
}

/// Tells that the trace of this name counts for nothing, and why: eight pieces as one text.
#[tactic(auto, using(crate::proofs::Lines::lines))]
fn give_note<'a, E: Sink>(
    notes: &mut E,
    name: &'a str,
    made: &'a str,
    front: &'a str,
    file: &'a str,
    back: &'a str,
) -> Result<(), Failed>
    ensures whole { OnOk result (Appends (E.held notes.old) (E.held notes.new)
        (codes "acetool: " ++ (name.entry.now ++ (codes ": " ++ ((made.entry.now
        ++ front.entry.now ++ file.entry.now ++ back.entry.now)
        ++ codes ": counts for nothing\n"))))) }
    ensures cause { HasCause (E.faults notes.old) (E.faults notes.new) result }
{
    let end = ": counts for nothing\n";
    give_pieces(
        notes,
        &["acetool: ", name, ": ", made, front, file, back, end],
    )
}

/// Tells that the trace counts for nothing, and why.
#[tactic(auto, unfolding(crate::specs::Covered::uncounted_line))]
fn tell_uncounted<E: Sink>(notes: &mut E, name: &str, report: Report) -> Result<(), Failed>
    ensures whole { OnOk result (Appends (E.held notes.old) (E.held notes.new)
        (uncounted_line name.now report)) }
    ensures cause { HasCause (E.faults notes.old) (E.faults notes.new) result }
{
    let told = told_name(name);
    let file = shown_name(name);
    if let Report::Compressed { packing } = report {
        return give_note(
            notes,
            told,
            advice_of(packing),
            file,
            " | acetool cover -",
            "",
        );
    }
    let said = said_of(file, report);
    give_note(
        notes,
        told,
        said.made.as_str(),
        said.front,
        said.name,
        said.back,
    )
}

/// Counts what was counted of a trace, where it is accepted, and tells of it where it isn't.
fn add_report<E: Sink>(
    notes: &mut E,
    name: &str,
    report: &Report,
    hits: &[u64],
    totals: &mut Totals,
) -> Result<(), Failed>
    ensures total { OnOk result (totals.new
        ≡ with_accepted totals.old (accepted_of report.now) hits.now) }
    ensures noted { OnOk result (Appends (E.held notes.old) (E.held notes.new)
        (note_by name.now report.now (accepted_of report.now))) }
    ensures cause { HasCause (E.faults notes.old) (E.faults notes.new) result }
{
    match accepted_of(report) {
        Some(accepted) => {
            totals.add(accepted.events, hits);
            Ok(())
        }
        None => tell_uncounted(notes, name, *report),
    }
}

/// Counts what the trace of this name shows, where it is accepted, and tells of it where it isn't.
#[tactic(auto, using(crate::proofs::Covering::covering))]
fn add_trace<F: Folder, I: Source, E: Sink>(
    alloc: Global,
    files: &F,
    input: &mut I,
    notes: &mut E,
    name: &str,
    points: &[Point],
    totals: &mut Totals,
) -> Result<Report, Stop>
    requires { points.now ≡ all_points }
    ensures whole { IfOk result (λ report. AddsTrace (F.holds files.now) name.now
        (I.left input.old) (I.left input.new) (E.held notes.old) (E.held notes.new) totals.old
        totals.new report) }
    ensures steady { OnOk result (E.faults notes.new ≡ E.faults notes.old) }
    ensures stop { IfErr result (Stops (E.held notes.old) (E.held notes.new)
        (E.faults notes.old) (E.faults notes.new)) }
{
    let Ok(mut hits) = no_hits(alloc, points) else {
        return Err(Stop::NoMemory);
    };
    let report = cover_named(alloc, files, input, name, points, &mut hits);
    match add_report(notes, name, &report, hits.as_slice(), totals) {
        Ok(()) => Ok(report),
        Err(_) => Err(Stop::Failed),
    }
}

/// Counts what the traces show, and returns the status of all of them.
///
/// # Errors
///
/// Why it was not done: there was no memory, or the notes failed.
#[tactic(auto, using(crate::proofs::Covering::covering))]
pub(crate) fn add_traces<F: Folder, I: Source, E: Sink>(
    alloc: Global,
    files: &F,
    input: &mut I,
    notes: &mut E,
    names: &[&str],
    points: &[Point],
    totals: &mut Totals,
) -> Result<u8, Stop>
    requires all { points.now ≡ all_points }
    requires none { totals.old ≡ no_tally all_points }
    ensures whole { IfOk result (CountsTraces (F.holds files.now) (texts_of names.now)
        (I.left input.old) (E.held notes.old) (E.held notes.new) totals.new) }
    ensures steady { OnOk result (E.faults notes.new ≡ E.faults notes.old) }
    ensures no_write_fault { IfOk result (λ status. status ≢ 5) }
    ensures stop { IfErr result (Stops (E.held notes.old) (E.held notes.new)
        (E.faults notes.old) (E.faults notes.new)) }
{
    let mut seen = Seen::new();
    for name in names {
        match add_trace(alloc, files, input, notes, name, points, totals) {
            Ok(report) => seen.add(&report),
            Err(stop) => return Err(stop),
        }
    }
    Ok(seen.status())
}
