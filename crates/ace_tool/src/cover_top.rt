// Counts what traces show.
ghost use Rattle.std.specs.Prelude.{◌≡◌, ◌≢◌, ◌⊎◌, ℕ, List, Option, map, string_bytes, IfErr, IfOk, OnOk};
ghost use Rattle.ace_cover.specs.Tallies.{no_tally};
ghost use Rattle.ace_io.specs.Faults.{Rose};
ghost use Rattle.ace_paths.specs.Lists.{texts_of};
ghost use Rattle.ace_points.specs.Points.{all_points};
ghost use Rattle.ace_tool.specs.Covering.{AddsCounts, Counts, CountsTraces, CoversNames, DoesCover, EndsEarly, Stops, TellsTally, cover_text, status_of_counts, status_with};
ghost use Rattle.ace_tool.specs.CoverTold.{cover_of};
ghost use Rattle.ace_tool.specs.Covers.{Covers};

use crate::batch_texts::list_note;
use crate::batch_top::{all_paths, list_text};
use crate::conclude::note;
use crate::cover_counts::{add_counts, note_uncounted};
use crate::cover_text::cover_help;
use crate::cover_traces::{Stop, add_traces};
use crate::cover_words::{CoverCall, cover_call};
use crate::folder::Folder;
use crate::list_file::ListErr;
use crate::request::is_help;
use ace_call::{break_off, give_text};
use ace_cover::{Totals, all_points, push_json, push_table};
use ace_io::{NoMemory, Sink, Source};
use ace_points::Point;
use std::alloc::Global;

/// The text that is asked for.
fn text_of(alloc: Global, call: &CoverCall<'_>, totals: &Totals) -> Result<Vec<u8>, NoMemory>
    ensures { IfOk result (λ text. text.items ≡ cover_text (cover_of call.now) totals.now) }
{
    let mut text = Vec::new(alloc);
    if call.json {
        push_json(alloc, &mut text, totals)?;
    } else {
        push_table(alloc, &mut text, totals, call.listing)?;
    }
    Ok(text)
}

/// The status of all, by that of the files.
fn status_with(call: &CoverCall<'_>, totals: &Totals, status: u8) -> u8
    requires { status ≢ 5 }
    ensures value { result ≡ status_with (cover_of call.now) totals.now status }
    ensures no_write_fault { result ≢ 5 }
{
    if status == 0 && totals.is_below(call.least) {
        1
    } else {
        status
    }
}

/// Notes why nothing is told of traces, and returns the status.
fn note_stop<E: Sink>(notes: &mut E, stop: Stop) -> u8
    ensures { (first : Option (List ℕ)) (before : ℕ)
        → Stops first (E.held notes.old) before (E.faults notes.old) stop
        → EndsEarly first (E.held notes.new) before (E.faults notes.new) result }
{
    match stop {
        Stop::NoMemory => note(notes, "out of memory\n", 7),
        Stop::Failed => break_off(notes),
    }
}

/// Tells what was counted, and returns the status, by that of the files.
fn tell_totals<K: Sink, E: Sink>(
    alloc: Global,
    call: &CoverCall<'_>,
    totals: &Totals,
    out: &mut K,
    notes: &mut E,
    status: u8,
) -> u8
    requires { status ≢ 5 }
    ensures told { result ≢ 5 → TellsTally (cover_of call.now) totals.now status (K.held out.old)
        (K.held out.new) (E.held notes.old) (E.held notes.new) result }
    ensures fault { result ≡ 5 → Rose (K.faults out.old) (K.faults out.new)
        ⊎ Rose (E.faults notes.old) (E.faults notes.new) }
{
    match text_of(alloc, call, totals) {
        Ok(text) => match give_text(out, text.as_slice()) {
            Ok(()) => status_with(call, totals, status),
            Err(_) => break_off(notes),
        },
        Err(NoMemory) => note(notes, "out of memory\n", 7),
    }
}

/// The status of counts that were added, which are of these files.
fn status_of_counts(names: &[&str]) -> u8
    ensures { result ≡ status_of_counts (texts_of names.now) }
{
    if names.is_empty() { 2 } else { 0 }
}

/// Adds the counts that the files of these names tell to those of no trace, and returns the status.
///
/// # Errors
///
/// The status where they could not be had, which was noted.
fn count_counts<F: Folder, E: Sink>(
    alloc: Global,
    files: &F,
    notes: &mut E,
    names: &[&str],
    totals: &mut Totals,
) -> Result<u8, u8>
    requires { totals.old ≡ no_tally all_points }
    ensures whole { IfOk result (λ status. AddsCounts (F.holds files.now) (texts_of names.now)
        totals.new × (status ≡ status_of_counts (texts_of names.now))) }
    ensures silent { OnOk result (notes.new ≡ notes.old) }
    ensures early { IfErr result (EndsEarly (E.held notes.old) (E.held notes.new)
        (E.faults notes.old) (E.faults notes.new)) }
{
    match add_counts(alloc, files, names, totals) {
        Ok(()) => Ok(status_of_counts(names)),
        Err(uncounted) => Err(note_uncounted(notes, uncounted)),
    }
}

/// Counts what the traces of these names show, and returns the status of all of them.
///
/// # Errors
///
/// The status where that could not be done, which was noted.
fn count_traces<F: Folder, I: Source, E: Sink>(
    alloc: Global,
    files: &F,
    input: &mut I,
    notes: &mut E,
    names: &[&str],
    points: &[Point],
    totals: &mut Totals,
) -> Result<u8, u8>
    requires all { points.now ≡ all_points }
    requires none { totals.old ≡ no_tally all_points }
    ensures whole { IfOk result (CountsTraces (F.holds files.now) (texts_of names.now)
        (I.left input.old) (E.held notes.old) (E.held notes.new) totals.new) }
    ensures steady { OnOk result (E.faults notes.new ≡ E.faults notes.old) }
    ensures no_write_fault { IfOk result (λ status. status ≢ 5) }
    ensures early { IfErr result (EndsEarly (E.held notes.old) (E.held notes.new)
        (E.faults notes.old) (E.faults notes.new)) }
{
    match add_traces(alloc, files, input, notes, names, points, totals) {
        Ok(status) => Ok(status),
        Err(stop) => Err(note_stop(notes, stop)),
    }
}

/// Counts what the files of these names tell, traces or counts, and returns the status.
///
/// # Errors
///
/// The status where that could not be done, which was noted.
fn count_names<F: Folder, I: Source, E: Sink>(
    alloc: Global,
    merge: bool,
    files: &F,
    input: &mut I,
    notes: &mut E,
    names: &[&str],
    points: &[Point],
    totals: &mut Totals,
) -> Result<u8, u8>
    requires all { points.now ≡ all_points }
    requires none { totals.old ≡ no_tally all_points }
    ensures whole { IfOk result (Counts merge (F.holds files.now) (texts_of names.now)
        (I.left input.old) (E.held notes.old) (E.held notes.new) totals.new) }
    ensures steady { OnOk result (E.faults notes.new ≡ E.faults notes.old) }
    ensures no_write_fault { IfOk result (λ status. status ≢ 5) }
    ensures early { IfErr result (EndsEarly (E.held notes.old) (E.held notes.new)
        (E.faults notes.old) (E.faults notes.new)) }
{
    if merge {
        count_counts(alloc, files, notes, names, totals)
    } else {
        count_traces(alloc, files, input, notes, names, points, totals)
    }
}

/// Counts what the files of these names tell, tells it, and returns the status.
fn cover_names<F: Folder, I: Source, K: Sink, E: Sink>(
    alloc: Global,
    call: &CoverCall<'_>,
    files: &F,
    input: &mut I,
    out: &mut K,
    notes: &mut E,
    names: &[&str],
) -> u8
    ensures done { result ≢ 5 → CoversNames (F.holds files.now) (cover_of call.now)
        (texts_of names.now) (I.left input.old) (K.held out.old) (K.held out.new)
        (E.held notes.old) (E.held notes.new) result }
    ensures fault { result ≡ 5 → Rose (K.faults out.old) (K.faults out.new)
        ⊎ Rose (E.faults notes.old) (E.faults notes.new) }
{
    let Ok(points) = all_points(alloc) else {
        return note(notes, "out of memory\n", 7);
    };
    let points = points.as_slice();
    let Ok(mut totals) = Totals::none(alloc, points) else {
        return note(notes, "out of memory\n", 7);
    };
    let merge = call.merge;
    match count_names(
        alloc,
        merge,
        files,
        input,
        notes,
        names,
        points,
        &mut totals,
    ) {
        Ok(status) => tell_totals(alloc, call, &totals, out, notes, status),
        Err(status) => status,
    }
}

/// Does what the words behind `cover` ask, and returns the status.
fn do_cover<F: Folder, I: Source, K: Sink, E: Sink>(
    alloc: Global,
    call: &CoverCall<'_>,
    files: &F,
    input: &mut I,
    out: &mut K,
    notes: &mut E,
) -> u8
    ensures done { result ≢ 5 → DoesCover (F.holds files.now) (cover_of call.now)
        (I.left input.old) (K.held out.old) (K.held out.new) (E.held notes.old) (E.held notes.new)
        result }
    ensures fault { result ≡ 5 → Rose (K.faults out.old) (K.faults out.new)
        ⊎ Rose (E.faults notes.old) (E.faults notes.new) }
{
    let list = match list_text(alloc, files, input, call.list) {
        Ok(list) => list,
        Err(ListErr::NoMemory) => return note(notes, "out of memory\n", 7),
        Err(error) => return note(notes, list_note(error), 4),
    };
    match all_paths(alloc, call.names.as_slice(), list.as_str()) {
        Ok(names) => cover_names(alloc, call, files, input, out, notes, names.as_slice()),
        Err(NoMemory) => note(notes, "out of memory\n", 7),
    }
}

/// Does what the words behind `cover` ask, and returns the status.
#[tactic(auto, using(crate::proofs::CoverDone::done))]
pub fn cover<F: Folder, I: Source, K: Sink, E: Sink>(
    alloc: Global,
    words: &[String],
    files: &F,
    input: &mut I,
    out: &mut K,
    notes: &mut E,
) -> u8
    // Where no output failed, what the words ask was done, or they ask nothing and the usage was
    // told.
    ensures answer { result ≢ 5 → Covers (F.holds files.now) (map string_bytes words.now)
        (I.left input.old) (K.held out.old) (K.held out.new) (E.held notes.old) (E.held notes.new)
        result }

    // A write fault is answered only where an output failed.
    ensures write_fault { result ≡ 5 → Rose (K.faults out.old) (K.faults out.new)
        ⊎ Rose (E.faults notes.old) (E.faults notes.new) }
{
    if is_help(words) {
        return match give_text(out, cover_help().as_bytes()) {
            Ok(()) => 0,
            Err(_) => break_off(notes),
        };
    }
    match cover_call(alloc, words) {
        Ok(Some(call)) => do_cover(alloc, &call, files, input, out, notes),
        Ok(None) => note(notes, cover_help(), 2),
        Err(NoMemory) => note(notes, "out of memory\n", 7),
    }
}
