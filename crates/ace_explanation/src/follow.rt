// Follows a trace event by event to its explanation.
ghost use Rattle.std.specs.Prelude.{◌≡◌, true, false, ◌<◌, ◌≤◌, ◌-◌, ◌^◌, ℕ, List, [], Option, Some, None, length, IfSome, OnOk, ◌∷◌};
ghost use Rattle.ace_belongs.specs.Belongs.{event_line};
ghost use Rattle.ace_check.specs.Run.{StandsWithin};
ghost use Rattle.ace_event.specs.Ports.{IsHeader};
ghost use Rattle.ace_event.specs.declared.header.Header.{Header, Header as Head};
ghost use Rattle.ace_explain.specs.LastLoads.{LoadsStand};
ghost use Rattle.ace_explanation.specs.Explanations.{HasAnyLine, IsExplanationWithin, ShowsPlace, verdict_of};
ghost use Rattle.ace_explanation.specs.declared.explanation.Explanation.TheVariants.{Accepted, Other};
ghost use Rattle.ace_explanation.specs.Following.{BreaksAt, HasFollowed, HasHeard, told_unless};
ghost use Rattle.ace_grammar.specs.Reading.{most_counted};
ghost use Rattle.ace_io.specs.Reader.{source_of, waiting};
ghost use Rattle.ace_journal.specs.Journals.{JournalStands};
ghost use Rattle.ace_journal.specs.Rows.{row_of};
ghost use Rattle.ace_malformed.specs.Cut.{IsLineOf, ShowsLine};
ghost use Rattle.ace_model.specs.Accepted.{least_broken};
ghost use Rattle.ace_model.specs.Trace.{Trace};
ghost use Rattle.ace_model.specs.declared.breaks.Break.{Break};
ghost use Rattle.ace_outstanding.specs.Outstanding.{outstanding_count};
ghost use Rattle.ace_since.specs.Kept.{SinceStands};
ghost use Rattle.ace_verdict.specs.Errors.{refusal_of};
ghost use Rattle.ace_verdict.specs.Progress.{HasReadCause, IsStop, StandsAt};
ghost use Rattle.ace_verdict.specs.declared.limits.Limits.{Limits as Bounds};
ghost use Rattle.ace_verdict.specs.declared.verdict.Verdict.TheVariants.{Refused};
ghost use Rattle.ace_verdict.specs.declared.verdict.Verdict.TheVariants as verdict;

use crate::explanation::Explanation;
use crate::listener::Listener;
use crate::next::next_row;
use crate::refusal::Refusal;
use ace_before::before_event;
use ace_belongs::next_line;
use ace_check::{CheckErr, Checker, Step};
use ace_event::{Event, Header};
use ace_expected::expectation;
use ace_explain::{LastLoads, clause};
use ace_grammar::{ReadErr, Reason};
use ace_io::{LineBuf, LineReader, NoMemory, Source};
use ace_journal::{Journal, Row, next_transfers};
use ace_malformed::{BadLine, LineText, next_event, read_header};
use ace_origins::origin;
use ace_outstanding::count_outstanding;
use ace_since::Since;
use ace_verdict::{Limits, Verdict};
use std::alloc::Global;

/// The event breaks a rule: `told` is what there is to say. It stands apart from `hear`, so that
/// this needs no room for it.
#[inline(never)]
fn refuse(
    listener: &Listener,
    header: Header,
    event: &Event,
    index: u64,
    rule: u8,
    line: Option<u32>,
    row: Row,
    told: &mut Explanation,
)
    ensures verdict { verdict_of told.new ≡ Refused index rule }
    ensures breaks { (lines : ℕ) (past : Trace) (b : Option Break)
        → StandsWithin lines listener.now.checker header past b
        → LoadsStand past listener.now.loads → JournalStands header past listener.now.journal
        → SinceStands header past listener.now.since → line ≡ event_line header past event.now
        → row ≡ row_of header past event.now → least_broken header past event.now ≡ Some rule
        → BreaksAt header past event.now told.new }
{
    let shares = listener.checker.shares();
    let ports = shares.ports();
    let lines = shares.lines();
    let found = clause(shares, &listener.loads, event, rule);
    *told = Explanation::Refused {
        refusal: Refusal {
            header,
            event: *event,
            index,
            rule,
            letter: found,
            expected: expectation(ports, lines, shares.system(), event, rule, found),
            origin: origin(
                ports,
                lines,
                &listener.since,
                &listener.journal,
                line,
                event,
                rule,
                found,
            ),
            before: before_event(ports, lines, &listener.since, event),
            led: listener
                .journal
                .led(line, row, next_transfers(ports, event)),
        },
    };
}

/// The verdict, which says all, is what there is to say.
#[inline(never)]
fn stop(verdict: Verdict, told: &mut Explanation)
    ensures { told.new ≡ Other verdict }
{
    *told = Explanation::Other { verdict };
}

/// Keeps what the next event, which breaks no rule and has this row, does to its line.
fn keep_line(
    listener: &mut Listener,
    event: &Event,
    line: Option<u32>,
    row: Row,
) -> Result<(), NoMemory>
    ensures checker { listener.new.checker ≡ listener.old.checker }
    ensures loads { listener.new.loads ≡ listener.old.loads }
    ensures journal { OnOk result ((h : Head) (past : Trace)
        → JournalStands h past listener.old.journal
        → line ≡ event_line h past event.now → row ≡ row_of h past event.now
        → JournalStands h (event.now ∷ past) listener.new.journal) }
    ensures since { OnOk result ((lines : ℕ) (h : Head) (past : Trace)
        → SinceStands h past listener.old.since
        → StandsWithin lines listener.old.checker h (event.now ∷ past) None
        → line ≡ event_line h past event.now
        → SinceStands h (event.now ∷ past) listener.new.since) }
{
    listener.journal.hear(line, event, row)?;
    listener.since.hear(&listener.checker, line, event)
}

/// Keeps the next event, which breaks no rule and has this row, and says whether the check goes on.
/// Where there is no memory for the event, `told` says that.
fn keep(
    listener: &mut Listener,
    event: &Event,
    line: Option<u32>,
    row: Row,
    told: &mut Explanation,
) -> bool
    ensures checker { listener.new.checker ≡ listener.old.checker }
    ensures loads { (past : Trace) → LoadsStand past listener.old.loads
        → LoadsStand (event.now ∷ past) listener.new.loads }
    ensures journal { result ≡ true → (h : Head) (past : Trace)
        → JournalStands h past listener.old.journal
        → line ≡ event_line h past event.now → row ≡ row_of h past event.now
        → JournalStands h (event.now ∷ past) listener.new.journal }
    ensures since { result ≡ true → (lines : ℕ) (h : Head) (past : Trace)
        → SinceStands h past listener.old.since
        → StandsWithin lines listener.old.checker h (event.now ∷ past) None
        → line ≡ event_line h past event.now → SinceStands h (event.now ∷ past) listener.new.since }
    ensures none { result ≡ false → told.new ≡ Other verdict.NoMemory }
{
    listener.loads.hear(event);
    match keep_line(listener, event, line, row) {
        Ok(()) => true,
        Err(NoMemory) => {
            stop(Verdict::NoMemory, told);
            false
        }
    }
}

/// Hears the next event of a trace with this header, and says whether the check goes on. Where the
/// event ends it, `told` is what there is to say.
#[tactic(auto, using(crate::proofs::Hearing::hearing))]
fn hear(listener: &mut Listener, header: Header, event: &Event, told: &mut Explanation) -> bool
    ensures heard { (lines : ℕ) (past : Trace) → HasFollowed lines listener.old header past
        → length past < 2 ^ 64 - 2
        → HasHeard lines listener.new header past event.now (told_unless result told.new) }
    ensures stop { result ≡ false → IsStop (verdict_of told.new) }
{
    let line = next_line(&listener.checker, event);
    let row = next_row(&listener.checker, event);
    match listener.checker.feed(event) {
        Ok(Step::Fine) => keep(listener, event, line, row, told),
        Ok(Step::Broken { index, rule }) => {
            refuse(listener, header, event, index, rule, line, row, told);
            false
        }
        Err(CheckErr::NoMemory) => {
            stop(Verdict::NoMemory, told);
            false
        }
        Err(CheckErr::TooManyLines) => {
            stop(Verdict::LimitLines, told);
            false
        }
    }
}

/// The line is malformed: `line` is it.
fn malformed(number: u64, reason: Reason, version: u8, line: &LineBuf) -> Explanation
    ensures verdict { verdict_of result ≡ verdict.Malformed number reason }
    ensures place { (bytes : List ℕ) → IsLineOf bytes version number line.now
        → ShowsPlace bytes result }
    ensures line { HasAnyLine result }
{
    Explanation::Malformed {
        bad: BadLine {
            number,
            reason,
            version,
            line: LineText::of(line),
        },
    }
}

/// What there is to say where a trace of a version could not be read on. After `Malformed` `line`
/// is the line that is so.
#[tactic(auto, using(crate::proofs::Unread::unread))]
fn unreadable(error: ReadErr, version: u8, line: &LineBuf) -> Explanation
    ensures verdict { verdict_of result ≡ refusal_of error }
    ensures place { (told : Option (List ℕ)) → ShowsLine told version line.now error
        → IfSome told (λ bytes. ShowsPlace bytes result) }
    ensures line { HasAnyLine result }
{
    match error {
        ReadErr::Malformed {
            line: number,
            reason,
        } => malformed(number, reason, version, line),
        ReadErr::TooManyEvents => Explanation::Other {
            verdict: Verdict::LimitEvents,
        },
        ReadErr::ReadFault => Explanation::Other {
            verdict: Verdict::ReadFault,
        },
        ReadErr::NoMemory => Explanation::Other {
            verdict: Verdict::NoMemory,
        },
    }
}

/// Each of so many events, which are the trace, is accepted.
fn accepted(listener: &Listener, events: u64) -> Explanation
    ensures verdict { verdict_of result ≡ verdict.Accepted events }
    ensures value { (lines : ℕ) (header : Header) (past : Trace)
        → HasFollowed lines listener.now header past
        → result ≡ Accepted events (outstanding_count header past) }
    ensures line { HasAnyLine result }
{
    Explanation::Accepted {
        events,
        outstanding: count_outstanding(listener.checker.ports()),
    }
}

/// Follows the events of a trace, which are at most so many, to its end, or to one that ends the
/// check. `line` is room for a line.
#[tactic(auto, using(crate::proofs::Ends::ends))]
fn follow<S: Source>(
    listener: &mut Listener,
    lines: &mut LineReader<S>,
    line: &mut LineBuf,
    header: Header,
    most: u64,
) -> Explanation
    requires counted { most ≤ most_counted }
    ensures same_source { (source_of lines.new).ghost_name ≡ (source_of lines.old).ghost_name }
    ensures right { (limits : Bounds) (told : Option (List ℕ)) → limits.events ≡ most
        → HasFollowed limits.lines listener.old header []
        → StandsAt limits.lines told header [] (waiting S.left lines.old)
        → IfSome told (λ bytes. IsExplanationWithin limits bytes result) }
    ensures line { (limits : Bounds) → limits.events ≡ most
        → HasFollowed limits.lines listener.old header [] → IsHeader header → HasAnyLine result }
    ensures cause { HasReadCause (S.faults (source_of lines.old).now)
        (S.faults (source_of lines.new).now) (verdict_of result) }
{
    let mut events = 0;
    let mut told = Explanation::Other {
        verdict: Verdict::NoMemory,
    };
    'events: loop {
        match next_event(lines, line, most, events, header.version) {
            Ok(Some(event)) => {
                if !hear(listener, header, &event, &mut told) {
                    return told;
                }
                events += 1;
            }
            Ok(None) => return accepted(listener, events),
            Err(error) => return unreadable(error, header.version, line),
        }
    }
}

/// What there is to say of the trace whose lines these are, which may have so much.
#[tactic(auto, using(crate::proofs::Ends::starts))]
fn explanation_of<S: Source>(
    alloc: Global,
    lines: &mut LineReader<S>,
    limits: Limits,
) -> Explanation
    requires counted { limits.events ≤ most_counted }
    ensures same_source { (source_of lines.new).ghost_name ≡ (source_of lines.old).ghost_name }
    ensures right { IfSome (waiting S.left lines.old)
        (λ bytes. IsExplanationWithin limits bytes result) }
    ensures line { HasAnyLine result }
    ensures cause { HasReadCause (S.faults (source_of lines.old).now)
        (S.faults (source_of lines.new).now) (verdict_of result) }
{
    let mut line = LineBuf::empty();
    match read_header(lines, &mut line) {
        Ok(header) => match Checker::with_lines(alloc, header, limits.lines) {
            Ok(checker) => {
                let loads = LastLoads::new();
                let journal = Journal::new(alloc);
                let since = Since::new(alloc);
                let mut listener = Listener {
                    checker,
                    loads,
                    journal,
                    since,
                };
                let explanation = follow(&mut listener, lines, &mut line, header, limits.events);
                drop(listener);
                explanation
            }
            Err(_) => Explanation::Other {
                verdict: Verdict::NoMemory,
            },
        },
        Err(none) => unreadable(none.error, none.version, &line),
    }
}

/// What there is to say of the trace that the input gives, which may have so much.
pub fn explanation_within<S: Source>(alloc: Global, input: &mut S, limits: Limits) -> Explanation
    requires counted { limits.events ≤ most_counted }
    // It is right of the bytes, where the input tells them: the verdict is the one on them; of a
    // trace that is refused the event is the first that breaks a rule, that rule the least that it
    // breaks, and the clause the first of the rule that is false; and of one that is malformed the
    // line is that of the bytes.
    ensures right { IfSome (S.left input.old) (λ bytes. IsExplanationWithin limits bytes result) }
    ensures line { HasAnyLine result }
    // A read fault is told exactly where the input failed.
    ensures cause { HasReadCause (S.faults input.old) (S.faults input.new) (verdict_of result) }
{
    match LineReader::start(alloc, input) {
        Ok(mut lines) => explanation_of(alloc, &mut lines, limits),
        Err(NoMemory) => unreachable!(),
    }
}
