// What a trace shows, and what is told of it.
ghost use Rattle.std.specs.Prelude.{◌≡◌, map, IfSome};
ghost use Rattle.ace_cover.specs.Counts.{AreCounts};
ghost use Rattle.ace_io.specs.Faults.{Rose};
ghost use Rattle.ace_io.specs.Line.{in_front};
ghost use Rattle.ace_points.specs.Points.{all_points};
ghost use Rattle.ace_verdict.specs.Verdict.{IsVerdictWithin};
ghost use Rattle.ace_verdict.specs.declared.verdict.Verdict.TheVariants.{ReadFault};
ghost use Rattle.ace_tool.specs.Asked.{is_input};
ghost use Rattle.ace_tool.specs.Covered.{IsCounted, IsCountedBy, IsCountedIn, IsCountedOf};
ghost use Rattle.ace_tool.specs.Explaining.{no_limits};
ghost use Rattle.ace_tool.specs.Held.{told_of};

use crate::check_words::is_input;
use crate::finding::no_limits;
use crate::folder::Folder;
use crate::packing::packing_of;
use crate::peeked::{FRONT, Peeked, take_front};
use crate::report::Report;
use ace_cover::cover_within;
use ace_io::Source;
use ace_points::Point;
use ace_verdict::Verdict;
use arrayvec::ArrayVec;
use std::alloc::Global;

/// The verdict on the trace that the source gives, of which these first bytes were taken, and in
/// `hits` what its events show.
fn cover_behind<S: Source>(
    alloc: Global,
    source: &mut S,
    front: ArrayVec<u8, FRONT>,
    points: &[Point],
    hits: &mut Vec<u64>,
) -> Verdict
    requires fresh { hits.old.items ≡ map (λ _. 0) points.now }
    ensures verdict { IfSome (in_front front.items (S.left source.old))
        (λ bytes. IsVerdictWithin no_limits bytes result
        × AreCounts no_limits points.now bytes hits.new.items result) }
    // Where it is a read fault, the source failed.
    ensures fault { result ≡ ReadFault → (after : S) × Rose (S.faults source.old) (S.faults after) }
{
    let mut peeked = Peeked::new(source, front);
    cover_within(alloc, &mut peeked, no_limits(), points, hits)
}

/// What is to be told of the trace that the source gives, and what its events show.
#[tactic(auto, using(crate::proofs::CoverReading::counting))]
fn cover_source<S: Source>(
    alloc: Global,
    source: &mut S,
    points: &[Point],
    hits: &mut Vec<u64>,
) -> Report
    requires all { points.now ≡ all_points }
    requires fresh { hits.old.items ≡ map (λ _. 0) points.now }
    ensures { IfSome (S.left source.old) (λ bytes. IsCountedIn bytes result hits.new.items) }
{
    match take_front(source) {
        Ok(front) => match packing_of(front.as_slice()) {
            Some(packing) => Report::Compressed { packing },
            // Coverage tells nothing of what is outstanding.
            None => Report::Told {
                verdict: cover_behind(alloc, source, front, points, hits),
                outstanding: 0,
            },
        },
        Err(_) => Report::Told {
            verdict: Verdict::ReadFault,
            outstanding: 0,
        },
    }
}

/// The same of the trace in the file of this name.
fn cover_file<F: Folder>(
    alloc: Global,
    files: &F,
    name: &str,
    points: &[Point],
    hits: &mut Vec<u64>,
) -> Report
    requires all { points.now ≡ all_points }
    requires fresh { hits.old.items ≡ map (λ _. 0) points.now }
    ensures { IsCountedOf (told_of (F.holds files.now name.now)) result hits.new.items }
{
    match files.open(name) {
        Ok(mut file) => cover_source(alloc, &mut file, points, hits),
        Err(error) => Report::Shut { error },
    }
}

/// What is to be told of the trace of this name, and what its events show: `hits`, which begin with
/// 0, are counts where it is accepted.
pub(crate) fn cover_named<F: Folder, I: Source>(
    alloc: Global,
    files: &F,
    input: &mut I,
    name: &str,
    points: &[Point],
    hits: &mut Vec<u64>,
) -> Report
    requires all { points.now ≡ all_points }
    requires fresh { hits.old.items ≡ map (λ _. 0) points.now }
    ensures { IsCounted (F.holds files.now) name.now (I.left input.old) result hits.new.items
        (I.left input.new) }
{
    if is_input(name) {
        cover_source(alloc, input, points, hits)
    } else {
        cover_file(alloc, files, name, points, hits)
    }
}
