// Draws a trace.
ghost use Rattle.std.specs.Prelude.{◌≡◌, ◌≢◌, ◌⊎◌, map, option_map, string_bytes, IfOk, OnErr, OnOk};
ghost use Rattle.ace_io.specs.Faults.{HasCause, Rose};
ghost use Rattle.ace_tool.specs.ChartTold.{chart_of};
ghost use Rattle.ace_tool.specs.Charting.{Charts, Draws, Notes, Puts, Shows};
ghost use Rattle.ace_tool.specs.Pictures.{MayBeNoted, MayBeShown};
ghost use Rattle.ace_tool.specs.declared.picture.NoPicture.TheVariants.{BadSide};

use crate::chart_call::ChartCall;
use crate::chart_texts::{chart_help, tell_packed_to_draw, tell_rows};
use crate::chart_words::chart_call;
use crate::conclude::note;
use crate::explain::{tell_explanation, tell_shut};
use crate::folder::Folder;
use crate::line::give_line;
use crate::picture::{NoPicture, Picture, picture_named};
use crate::report::{Report, status_of};
use crate::request::is_help;
use crate::shelf::Shelf;
use crate::side::SideFault;
use ace_call::{break_off, give_text};
use ace_io::{Failed, Sink, Source};
use std::alloc::Global;

/// Notes why the side file tells nothing, and returns the status.
fn tell_bad_side<E: Sink>(
    notes: &mut E,
    call: &ChartCall<'_>,
    fault: SideFault,
) -> Result<u8, Failed>
    ensures whole { IfOk result (Notes (chart_of call.now) (BadSide fault) (E.held notes.old)
        (E.held notes.new)) }
    ensures no_write_fault { IfOk result (λ status. status ≢ 5) }
    ensures cause { HasCause (E.faults notes.old) (E.faults notes.new) result }
{
    let report = Report::BadSide { fault };
    match give_line(notes, call.side, call.trace, &report) {
        Ok(()) => Ok(status_of(&report)),
        Err(failed) => Err(failed),
    }
}

/// Notes why there is no picture, and returns the status.
fn note_reason<E: Sink>(
    alloc: Global,
    notes: &mut E,
    call: &ChartCall<'_>,
    reason: NoPicture,
) -> Result<u8, Failed>
    requires { MayBeNoted reason }
    ensures whole { IfOk result (Notes (chart_of call.now) reason (E.held notes.old)
        (E.held notes.new)) }
    ensures no_write_fault { IfOk result (λ status. status ≢ 5) }
    ensures cause { HasCause (E.faults notes.old) (E.faults notes.new) result }
{
    match reason {
        NoPicture::Explained { explanation } => {
            tell_explanation(alloc, notes, call.trace, true, explanation)
        }
        NoPicture::TooManyRows => match tell_rows(notes, call.trace, call.rows) {
            Ok(()) => Ok(6),
            Err(failed) => Err(failed),
        },
        NoPicture::BadSide { fault } => tell_bad_side(notes, call, fault),
        NoPicture::Shut { error } => match tell_shut(notes, call.trace, error) {
            Ok(()) => Ok(4),
            Err(failed) => Err(failed),
        },
        NoPicture::Compressed { packing } => match tell_packed_to_draw(notes, call.trace, packing) {
            Ok(()) => Ok(4),
            Err(failed) => Err(failed),
        },
    }
}

/// Writes the text into the file of this name, if one is asked for, or else tells it.
fn put<W: Shelf, K: Sink>(
    shelf: &mut W,
    out: &mut K,
    name: Option<&str>,
    text: &[u8],
) -> Result<(), Failed>
    ensures whole { OnOk result (Puts (option_map (λ n. n.now) name.entry) text.now (K.held out.old)
        (K.held out.new) (W.written shelf.old) (W.written shelf.new)) }
    ensures cause { OnErr result (Rose (K.faults out.old) (K.faults out.new)
        ⊎ Rose (W.faults shelf.old) (W.faults shelf.new)) }
{
    match name {
        Some(name) => shelf.put(name, text),
        None => give_text(out, text),
    }
}

/// Shows the picture, or notes why there is none, and returns the status.
fn show<W: Shelf, K: Sink, E: Sink>(
    alloc: Global,
    call: &ChartCall<'_>,
    picture: &Picture,
    shelf: &mut W,
    out: &mut K,
    notes: &mut E,
) -> u8
    requires { MayBeShown picture.now }
    ensures done { result ≢ 5 → Shows (chart_of call.now) picture.now (K.held out.old)
        (K.held out.new) (E.held notes.old) (E.held notes.new) (W.written shelf.old)
        (W.written shelf.new) result }
    ensures fault { result ≡ 5 → Rose (K.faults out.old) (K.faults out.new)
        ⊎ Rose (E.faults notes.old) (E.faults notes.new)
        ⊎ Rose (W.faults shelf.old) (W.faults shelf.new) }
{
    match picture {
        Picture::Drawn { text } => match put(shelf, out, call.out, text.as_slice()) {
            Ok(()) => 0,
            Err(_) => break_off(notes),
        },
        Picture::Undrawn { reason } => match note_reason(alloc, notes, call, *reason) {
            Ok(status) => status,
            Err(_) => break_off(notes),
        },
    }
}

/// Does what the words behind `chart` ask, and returns the status.
pub fn chart<F: Folder, W: Shelf, I: Source, K: Sink, E: Sink>(
    alloc: Global,
    words: &[String],
    files: &F,
    shelf: &mut W,
    input: &mut I,
    out: &mut K,
    notes: &mut E,
) -> u8
    // Where no output failed, what the words ask was done, or they ask nothing and the usage
    // was told.
    ensures answer { result ≢ 5 → Charts (F.holds files.now) (map string_bytes words.now)
        (I.left input.old) (K.held out.old) (K.held out.new) (E.held notes.old) (E.held notes.new)
        (W.written shelf.old) (W.written shelf.new) result }

    // A write fault is answered only where an output failed.
    ensures write_fault { result ≡ 5 → Rose (K.faults out.old) (K.faults out.new)
        ⊎ Rose (E.faults notes.old) (E.faults notes.new)
        ⊎ Rose (W.faults shelf.old) (W.faults shelf.new) }
{
    if is_help(words) {
        return match give_text(out, chart_help().as_bytes()) {
            Ok(()) => 0,
            Err(_) => break_off(notes),
        };
    }
    match chart_call(words) {
        Some(call) => {
            let picture = picture_named(alloc, &call, files, input);
            show(alloc, &call, &picture, shelf, out, notes)
        }
        None => note(notes, chart_help(), 2),
    }
}
