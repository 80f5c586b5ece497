// What is told of one trace alone.
ghost use Rattle.std.specs.Prelude.{◌≡◌, ◌≤◌, ℕ, List, Option, IfSome};
ghost use Rattle.ace_grammar.specs.Reading.{most_counted};
ghost use Rattle.ace_io.specs.Faults.{Rose};
ghost use Rattle.ace_io.specs.Line.{in_front};
ghost use Rattle.ace_verdict.specs.Ended.{IsOutstanding};
ghost use Rattle.ace_verdict.specs.Verdict.{IsVerdictWithin};
ghost use Rattle.ace_verdict.specs.declared.verdict.Verdict.TheVariants.{ReadFault};
ghost use Rattle.ace_tool.specs.declared.report.Report.TheVariants.{Told};
ghost use Rattle.ace_tool.specs.Asked.{is_input};
ghost use Rattle.ace_tool.specs.Held.{told_of};
ghost use Rattle.ace_tool.specs.Checked.{IsNextBy, IsOpened, IsRead};

use crate::check_words::is_input;
use crate::folder::Folder;
use crate::packing::packing_of;
use crate::peeked::{FRONT, Peeked, take_front};
use crate::report::Report;
use ace_io::Source;
use ace_verdict::{Ended, Limits, Verdict, ended_within};
use arrayvec::ArrayVec;
use std::alloc::Global;

/// The verdict on the trace that the source gives, of which these first bytes were taken, and what
/// is outstanding at its end.
fn ended_behind<S: Source>(
    alloc: Global,
    source: &mut S,
    front: ArrayVec<u8, FRONT>,
    limits: Limits,
) -> Ended
    requires { limits.events ≤ most_counted }
    ensures verdict { IfSome (in_front front.items (S.left source.old))
        (λ bytes. IsVerdictWithin limits bytes result.verdict) }
    ensures outstanding { IfSome (in_front front.items (S.left source.old))
        (λ bytes. IsOutstanding bytes result.verdict result.outstanding) }
    // Where it is a read fault, the source failed.
    ensures fault { result.verdict ≡ ReadFault
        → (after : S) × Rose (S.faults source.old) (S.faults after) }
{
    let mut peeked = Peeked::new(source, front);
    ended_within(alloc, &mut peeked, limits)
}

/// That it ended so is told of a trace.
fn told_of(ended: Ended) -> Report
    ensures { result ≡ Told ended.verdict ended.outstanding }
{
    Report::Told {
        verdict: ended.verdict,
        outstanding: ended.outstanding,
    }
}

/// What is to be told of the trace that the source gives.
#[tactic(auto, using(crate::proofs::Reading::reading))]
fn read_trace<S: Source>(alloc: Global, source: &mut S, limits: Limits) -> Report
    requires { limits.events ≤ most_counted }
    ensures read { IfSome (S.left source.old) (λ bytes. IsRead limits bytes result) }
    ensures fault { (outstanding : ℕ) → result ≡ Told ReadFault outstanding → (after : S)
        × Rose (S.faults source.old) (S.faults after) }
{
    match take_front(source) {
        Ok(front) => match packing_of(front.as_slice()) {
            Some(packing) => Report::Compressed { packing },
            None => told_of(ended_behind(alloc, source, front, limits)),
        },
        Err(_) => Report::Told {
            verdict: Verdict::ReadFault,
            outstanding: 0,
        },
    }
}

/// What is to be told of the trace in the file of this name.
fn open_trace<F: Folder>(alloc: Global, files: &F, name: &str, limits: Limits) -> Report
    requires { limits.events ≤ most_counted }
    ensures { IsOpened limits (told_of (F.holds files.now name.now)) result }
{
    match files.open(name) {
        Ok(mut file) => read_trace(alloc, &mut file, limits),
        Err(error) => Report::Shut { error },
    }
}

/// What is to be told of the trace of this name alone.
pub(crate) fn read_named<F: Folder, I: Source>(
    alloc: Global,
    files: &F,
    input: &mut I,
    name: &str,
    limits: Limits,
) -> Report
    requires { limits.events ≤ most_counted }
    ensures { IsNextBy limits (is_input name.now) (told_of (F.holds files.now name.now))
        (I.left input.old) result (I.left input.new) }
{
    if is_input(name) {
        read_trace(alloc, input, limits)
    } else {
        open_trace(alloc, files, name, limits)
    }
}
