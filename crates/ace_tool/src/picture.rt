// The picture of a trace.
ghost use Rattle.std.specs.Prelude.{◌≡◌, ℕ, List, Ok, IfSome};
ghost use Rattle.ace_chart.specs.Charts.{IsDrawable};
ghost use Rattle.ace_drawing.specs.Drawings.{IsDrawing, IsDrawn, MayBeDrawn};
ghost use Rattle.ace_explanation.specs.declared.explanation.Explanation.TheVariants.{Other};
ghost use Rattle.ace_tool.specs.Asked.{is_input};
ghost use Rattle.ace_tool.specs.ChartSides.{IsSideOf};
ghost use Rattle.ace_tool.specs.ChartTold.{chart_of};
ghost use Rattle.ace_tool.specs.Explaining.{no_limits};
ghost use Rattle.ace_tool.specs.Held.{Held, told_of};
ghost use Rattle.ace_tool.specs.declared.picture.NoPicture.TheVariants.{Explained};
ghost use Rattle.ace_tool.specs.declared.picture.Picture.TheVariants.{Undrawn};
ghost use Rattle.ace_tool.specs.Pictures.{IsPicture, IsPictureIn, IsPictureOpen, MayBeShown};

use crate::chart_call::ChartCall;
use crate::chart_side::side_of_chart;
use crate::chart_texts::picture_text;
use crate::check_words::is_input;
use crate::finding::no_limits;
use crate::folder::{Folder, OpenErr};
use crate::list_file::{ListErr, take_all};
use crate::packing::{Packing, packing_of};
use crate::side::SideFault;
use ace_chart::Chart;
use ace_drawing::{Drawing, drawing_of};
use ace_explanation::Explanation;
use ace_io::{NoMemory, Source};
use ace_side_facts::SideFacts;
use ace_verdict::Verdict;
use std::alloc::Global;

/// Why there is no picture of a trace.
#[derive(Clone, Copy)]
pub enum NoPicture {
    /// It is neither accepted nor refused.
    Explained { explanation: Explanation },
    /// Its chart would have more rows than it may have.
    TooManyRows,
    /// Its side file tells nothing.
    BadSide { fault: SideFault },
    /// Its file could not be opened.
    Shut { error: OpenErr },
    /// Its file is compressed.
    Compressed { packing: Packing },
}

/// The picture of a trace.
#[derive(Drop)]
pub enum Picture {
    /// Its text.
    Drawn { text: Vec<u8> },
    /// There is none.
    Undrawn { reason: NoPicture },
}

/// There is none for this verdict, which says all.
fn undrawn(verdict: Verdict) -> Picture
    ensures { result ≡ Undrawn (Explained (Other verdict)) }
{
    Picture::Undrawn {
        reason: NoPicture::Explained {
            explanation: Explanation::Other { verdict },
        },
    }
}

/// The picture of a chart, and of what there is to say of the trace, with what its side file tells.
fn picture_with(
    alloc: Global,
    call: &ChartCall<'_>,
    chart: &Chart,
    explanation: &Explanation,
    side: Option<SideFacts>,
) -> Picture
    requires { IsDrawable chart.now }
    ensures right { (holds : List ℕ → Held) (bytes : List ℕ)
        → IsDrawn no_limits bytes call.now.line call.now.selection chart.now explanation.now
        → IsSideOf holds (chart_of call.now) chart.now (Ok side)
        → IsPictureIn holds (chart_of call.now) bytes result }
    ensures line { MayBeShown result }
{
    let facts = side.as_ref();
    let text = picture_text(alloc, call.trace, call.title, chart, explanation, facts);
    drop(side);
    match text {
        Ok(text) => Picture::Drawn { text },
        Err(NoMemory) => undrawn(Verdict::NoMemory),
    }
}

/// The picture of a chart, and of what there is to say of the trace.
fn picture_of_chart<F: Folder>(
    alloc: Global,
    call: &ChartCall<'_>,
    files: &F,
    chart: &Chart,
    explanation: &Explanation,
) -> Picture
    requires { IsDrawable chart.now }
    ensures right { (bytes : List ℕ)
        → IsDrawn no_limits bytes call.now.line call.now.selection chart.now explanation.now
        → IsPictureIn (F.holds files.now) (chart_of call.now) bytes result }
    ensures line { MayBeShown result }
{
    match side_of_chart(alloc, files, call, chart) {
        Ok(side) => picture_with(alloc, call, chart, explanation, side),
        Err(fault) => Picture::Undrawn {
            reason: NoPicture::BadSide { fault },
        },
    }
}

/// The picture of what is drawn.
fn picture_of<F: Folder>(
    alloc: Global,
    call: &ChartCall<'_>,
    files: &F,
    drawing: &Drawing,
) -> Picture
    requires { MayBeDrawn drawing.now }
    ensures right { (bytes : List ℕ)
        → IsDrawing no_limits bytes call.now.line call.now.selection drawing.now
        → IsPictureIn (F.holds files.now) (chart_of call.now) bytes result }
    ensures line { MayBeShown result }
{
    match drawing {
        Drawing::Drawn { chart, explanation } => {
            picture_of_chart(alloc, call, files, chart, explanation)
        }
        Drawing::Undrawn { explanation } => Picture::Undrawn {
            reason: NoPicture::Explained {
                explanation: *explanation,
            },
        },
        Drawing::TooManyRows => Picture::Undrawn {
            reason: NoPicture::TooManyRows,
        },
    }
}

/// The picture of the trace in these bytes.
fn picture_in<F: Folder>(alloc: Global, call: &ChartCall<'_>, files: &F, bytes: &[u8]) -> Picture
    ensures right { IsPictureIn (F.holds files.now) (chart_of call.now) bytes.now result }
    ensures line { MayBeShown result }
{
    match packing_of(bytes) {
        Some(packing) => Picture::Undrawn {
            reason: NoPicture::Compressed { packing },
        },
        None => {
            let drawing = drawing_of(
                alloc,
                bytes,
                no_limits(),
                call.line,
                &call.selection,
                call.rows,
            );
            picture_of(alloc, call, files, &drawing)
        }
    }
}

/// The picture of the trace that the source gives.
fn read_picture<F: Folder, S: Source>(
    alloc: Global,
    call: &ChartCall<'_>,
    files: &F,
    source: &mut S,
) -> Picture
    ensures right { IfSome (S.left source.old)
        (λ bytes. IsPictureIn (F.holds files.now) (chart_of call.now) bytes result) }
    ensures line { MayBeShown result }
{
    match take_all(alloc, source) {
        Ok(bytes) => picture_in(alloc, call, files, bytes.as_slice()),
        Err(ListErr::ReadFault) => undrawn(Verdict::ReadFault),
        Err(_) => undrawn(Verdict::NoMemory),
    }
}

/// The picture of the trace in the file.
fn open_picture<F: Folder>(alloc: Global, call: &ChartCall<'_>, files: &F) -> Picture
    ensures right { IsPictureOpen (F.holds files.now) (chart_of call.now)
        (told_of (F.holds files.now call.now.trace.now)) result }
    ensures line { MayBeShown result }
{
    match files.open(call.trace) {
        Ok(mut file) => read_picture(alloc, call, files, &mut file),
        Err(error) => Picture::Undrawn {
            reason: NoPicture::Shut { error },
        },
    }
}

/// The picture that is asked for.
pub(crate) fn picture_named<F: Folder, I: Source>(
    alloc: Global,
    call: &ChartCall<'_>,
    files: &F,
    input: &mut I,
) -> Picture
    ensures right { IsPicture (F.holds files.now) (chart_of call.now) (is_input call.now.trace.now)
        (told_of (F.holds files.now call.now.trace.now)) (I.left input.old) result }
    ensures line { MayBeShown result }
{
    if is_input(call.trace) {
        read_picture(alloc, call, files, input)
    } else {
        open_picture(alloc, call, files)
    }
}
