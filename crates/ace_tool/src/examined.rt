// What is found in the file of a trace, and what is to be told of it.
ghost use Rattle.std.specs.Prelude.{◌≡◌, ◌≤◌, IfSome};
ghost use Rattle.ace_explanation.specs.Explanations.{HasAnyLine, IsExplanationWithin, verdict_of};
ghost use Rattle.ace_grammar.specs.Reading.{most_counted};
ghost use Rattle.ace_io.specs.Line.{in_front};
ghost use Rattle.ace_tool.specs.Checked.{IsJudged, accepted_of};
ghost use Rattle.ace_tool.specs.Explaining.{IsReadFault, MayBeTold};
ghost use Rattle.ace_io.specs.Faults.{Rose};
ghost use Rattle.ace_verdict.specs.declared.verdict.Verdict.TheVariants.{ReadFault};
ghost use Rattle.ace_tool.specs.Held.{told_of};
ghost use Rattle.ace_tool.specs.Examined.{IsExamined, IsFoundFile, IsFoundWithin, report_of};
ghost use Rattle.ace_tool.specs.Told.{options_of};

use crate::check::accepted_of;
use crate::check_options::CheckOptions;
use crate::finding::Finding;
use crate::folder::Folder;
use crate::gap::judge;
use crate::packing::packing_of;
use crate::peeked::{FRONT, Peeked, take_front};
use crate::report::Report;
use crate::side::find_side;
use ace_explanation::{Explanation, explanation_within};
use ace_io::Source;
use ace_verdict::{Limits, Verdict};
use arrayvec::ArrayVec;
use std::alloc::Global;

/// What was found in a file, and what is told of it.
#[derive(Clone, Copy)]
pub(crate) struct Examined {
    pub(crate) finding: Finding,
    pub(crate) report: Report,
}

/// The explanation within limits of the trace that the source gives, of which these first bytes
/// were taken.
fn explained_behind<S: Source>(
    alloc: Global,
    source: &mut S,
    front: ArrayVec<u8, FRONT>,
    limits: Limits,
) -> Explanation
    requires { limits.events ≤ most_counted }
    ensures right { IfSome (in_front front.items (S.left source.old))
        (λ bytes. IsExplanationWithin limits bytes result) }
    ensures line { HasAnyLine result }
    // Where it tells a read fault, the source failed.
    ensures fault { verdict_of result ≡ ReadFault → (after : S)
        × Rose (S.faults source.old) (S.faults after) }
{
    let mut peeked = Peeked::new(source, front);
    explanation_within(alloc, &mut peeked, limits)
}

/// What is found in the trace that the source gives.
#[tactic(auto, using(crate::proofs::Examining::examining))]
pub(crate) fn find_within<S: Source>(alloc: Global, source: &mut S, limits: Limits) -> Finding
    requires { limits.events ≤ most_counted }
    ensures found { IfSome (S.left source.old) (λ bytes. IsFoundWithin limits bytes result) }
    ensures line { MayBeTold result }
    ensures fault { IsReadFault result → (after : S) × Rose (S.faults source.old) (S.faults after) }
{
    match take_front(source) {
        Ok(front) => match packing_of(front.as_slice()) {
            Some(packing) => Finding::Compressed { packing },
            None => Finding::Explained {
                explanation: explained_behind(alloc, source, front, limits),
            },
        },
        Err(_) => Finding::Explained {
            explanation: Explanation::Other {
                verdict: Verdict::ReadFault,
            },
        },
    }
}

/// What is found in the file of this name.
#[tactic(auto, using(crate::proofs::Examining::examining))]
pub(crate) fn find_file<F: Folder>(alloc: Global, files: &F, name: &str, limits: Limits) -> Finding
    requires { limits.events ≤ most_counted }
    ensures found { IsFoundFile limits (told_of (F.holds files.now name.now)) result }
    ensures line { MayBeTold result }
{
    match files.open(name) {
        Ok(mut file) => find_within(alloc, &mut file, limits),
        Err(error) => Finding::Shut { error },
    }
}

/// What `check` tells of a trace alone, by what was found in it.
pub(crate) fn report_of(finding: Finding) -> Report
    ensures { result ≡ report_of finding }
{
    match finding {
        Finding::Explained { explanation } => Report::Told {
            verdict: explanation.verdict(),
            outstanding: explanation.outstanding(),
        },
        Finding::Shut { error } => Report::Shut { error },
        Finding::Compressed { packing } => Report::Compressed { packing },
    }
}

/// What is told of the trace of this name, by its side file too, where this is told of it alone.
pub(crate) fn report_beside<F: Folder>(
    alloc: Global,
    files: &F,
    name: &str,
    options: &CheckOptions<'_>,
    told: Report,
) -> Report
    ensures { IsJudged (options_of options.now) (F.holds files.now) name.now (accepted_of told) told
        result }
{
    match accepted_of(&told) {
        Some(accepted) => judge(
            options.ends,
            accepted,
            find_side(alloc, files, options.side, name),
        ),
        None => told,
    }
}

/// What is found in the file of this name, and what is told of it, by its side file too.
#[tactic(auto, using(crate::proofs::Examining::opened))]
pub(crate) fn examine_file<F: Folder>(
    alloc: Global,
    files: &F,
    name: &str,
    options: &CheckOptions<'_>,
) -> Examined
    ensures right { IsExamined (options_of options.now) (F.holds files.now) name.now
        result.finding result.report }
    ensures line { MayBeTold result.finding }
{
    let finding = find_file(alloc, files, name, options.limits);
    let report = report_beside(alloc, files, name, options, report_of(finding));
    Examined { finding, report }
}
