// Follows a trace event by event, and counts what its events show.
ghost use Rattle.std.specs.Prelude.{◌≡◌, ◌<◌, ◌≤◌, ◌-◌, ◌^◌, ℕ, List, [], Option, None, length, map, IfSome};
ghost use Rattle.ace_check.specs.Run.{StandsWithin};
ghost use Rattle.ace_cover.specs.Counts.{AreCounts};
ghost use Rattle.ace_cover.specs.Following.{HasCounted, HasHeard};
ghost use Rattle.ace_event.specs.declared.header.Header.{Header as Head};
ghost use Rattle.ace_grammar.specs.Reading.{most_counted};
ghost use Rattle.ace_io.specs.Reader.{source_of, waiting};
ghost use Rattle.ace_model.specs.Trace.{Trace};
ghost use Rattle.ace_model.specs.declared.breaks.Break.{Break};
ghost use Rattle.ace_points.specs.Shown.{points_of, shown};
ghost use Rattle.ace_verdict.specs.Errors.{refusal_of};
ghost use Rattle.ace_verdict.specs.Progress.{HasReadCause, IsStop, StandsAt};
ghost use Rattle.ace_verdict.specs.Verdict.{IsVerdictWithin};
ghost use Rattle.ace_verdict.specs.declared.limits.Limits.{Limits as Bounds};

use crate::hits::count_shown;
use ace_check::{CheckErr, Checker, Step};
use ace_event::{Event, Header};
use ace_grammar::ReadErr;
use ace_io::{LineBuf, LineReader, NoMemory, Source};
use ace_malformed::{next_event, read_header};
use ace_points::{Point, PointsShown, shown};
use ace_verdict::{Limits, Verdict};
use std::alloc::Global;

/// What the next event shows.
fn shown_now(checker: &Checker, event: &Event) -> PointsShown
    ensures { (lines : ℕ) (h : Head) (past : Trace) (b : Option Break)
        → StandsWithin lines checker.now h past b → points_of result ≡ shown h past event.now }
{
    let shares = checker.shares();
    shown(shares.ports(), shares.lines(), shares.system(), event)
}

/// Hears the next event of a trace, and counts what it shows. The verdict, where it ends the check.
#[tactic(auto, using(crate::proofs::Hearing::hearing))]
fn hear(
    checker: &mut Checker,
    points: &[Point],
    hits: &mut Vec<u64>,
    event: &Event,
) -> Option<Verdict>
    ensures heard { (lines : ℕ) (h : Head) (past : Trace)
        → HasCounted lines checker.old h past points.now hits.old.items
        → length past < 2 ^ 64 - 2
        → HasHeard lines checker.new h past event.now points.now hits.new.items result }
    ensures stop { IfSome result IsStop }
{
    let shown = shown_now(checker, event);
    match checker.feed(event) {
        Ok(Step::Fine) => {
            count_shown(points, hits, &shown);
            None
        }
        Ok(Step::Broken { index, rule }) => Some(Verdict::Refused { index, rule }),
        Err(CheckErr::NoMemory) => Some(Verdict::NoMemory),
        Err(CheckErr::TooManyLines) => Some(Verdict::LimitLines),
    }
}

/// The verdict on a trace that could not be read on.
fn refusal_of(error: ReadErr) -> Verdict
    ensures { result ≡ refusal_of error }
{
    match error {
        ReadErr::Malformed { line, reason } => Verdict::Malformed { line, reason },
        ReadErr::TooManyEvents => Verdict::LimitEvents,
        ReadErr::ReadFault => Verdict::ReadFault,
        ReadErr::NoMemory => Verdict::NoMemory,
    }
}

/// Follows the events of a trace, which are at most so many, to its end, or to one that ends the
/// check. `line` is room for a line.
#[tactic(auto, using(crate::proofs::Ends::ends))]
fn follow<S: Source>(
    checker: &mut Checker,
    points: &[Point],
    hits: &mut Vec<u64>,
    lines: &mut LineReader<S>,
    line: &mut LineBuf,
    header: Header,
    most: u64,
) -> Verdict
    requires counted { most ≤ most_counted }
    ensures same_source { (source_of lines.new).ghost_name ≡ (source_of lines.old).ghost_name }
    ensures right { (limits : Bounds) (told : Option (List ℕ)) → limits.events ≡ most
        → HasCounted limits.lines checker.old header [] points.now hits.old.items
        → StandsAt limits.lines told header [] (waiting S.left lines.old)
        → IfSome told (λ bytes. IsVerdictWithin limits bytes result
        × AreCounts limits points.now bytes hits.new.items result) }
    ensures cause { HasReadCause (S.faults (source_of lines.old).now)
        (S.faults (source_of lines.new).now) result }
{
    let mut events = 0;
    'events: loop {
        match next_event(lines, line, most, events, header.version) {
            Ok(Some(event)) => {
                if let Some(stop) = hear(checker, points, hits, &event) {
                    return stop;
                }
                events += 1;
            }
            Ok(None) => return Verdict::Accepted { events },
            Err(error) => return refusal_of(error),
        }
    }
}

/// The same of the trace whose lines these are, which may have so much.
#[tactic(auto, using(crate::proofs::Ends::starts))]
fn cover_lines<S: Source>(
    alloc: Global,
    points: &[Point],
    hits: &mut Vec<u64>,
    lines: &mut LineReader<S>,
    limits: Limits,
) -> Verdict
    requires counted { limits.events ≤ most_counted }
    requires fresh { hits.old.items ≡ map (λ _. 0) points.now }
    ensures same_source { (source_of lines.new).ghost_name ≡ (source_of lines.old).ghost_name }
    ensures right { IfSome (waiting S.left lines.old)
        (λ bytes. IsVerdictWithin limits bytes result
        × AreCounts limits points.now bytes hits.new.items result) }
    ensures cause { HasReadCause (S.faults (source_of lines.old).now)
        (S.faults (source_of lines.new).now) result }
{
    let mut line = LineBuf::empty();
    match read_header(lines, &mut line) {
        Ok(header) => match Checker::with_lines(alloc, header, limits.lines) {
            Ok(mut checker) => {
                let verdict = follow(
                    &mut checker,
                    points,
                    hits,
                    lines,
                    &mut line,
                    header,
                    limits.events,
                );
                drop(checker);
                verdict
            }
            Err(_) => Verdict::NoMemory,
        },
        Err(none) => refusal_of(none.error),
    }
}

/// Follows the trace that the input gives, which may have so much, and counts in `hits`, which
/// begin with 0, how many of its events show each of the points. They say so where the verdict is
/// that the trace is accepted.
pub fn cover_within<S: Source>(
    alloc: Global,
    input: &mut S,
    limits: Limits,
    points: &[Point],
    hits: &mut Vec<u64>,
) -> Verdict
    requires counted { limits.events ≤ most_counted }
    requires fresh { hits.old.items ≡ map (λ _. 0) points.now }
    // The verdict is the one on the bytes, where the input tells them, and the hits are the counts
    // of the events of an accepted trace.
    ensures right { IfSome (S.left input.old) (λ bytes. IsVerdictWithin limits bytes result
        × AreCounts limits points.now bytes hits.new.items result) }
    // A read fault is told exactly where the input failed.
    ensures cause { HasReadCause (S.faults input.old) (S.faults input.new) result }
{
    match LineReader::start(alloc, input) {
        Ok(mut lines) => cover_lines(alloc, points, hits, &mut lines, limits),
        Err(NoMemory) => unreachable!(),
    }
}
