// The header and the events of a trace, line by line.
ghost use Rattle.std.specs.Prelude.{◌≡◌, ℕ, ◌<◌, ◌≤◌, None, length, IfOk, IfErr, IfNone, OnOk, OnErr, IsTrue, false};
ghost use Rattle.std.specs.Io.KnownBytes.{Consumes};
ghost use Rattle.ace_io.specs.Faults.{Rose};
ghost use Rattle.ace_io.specs.Line.{HasNoLf, IsPending};
ghost use Rattle.ace_io.specs.Reader.{source_of, waiting};
ghost use Rattle.ace_event.specs.declared.event.Event.{Event};
ghost use Rattle.ace_event.specs.Text.{line_text, header_text};
ghost use Rattle.ace_grammar.specs.Errors.{HasNoHeader, HasFaultCause, StandsNextWithin, TakesFront};
ghost use Rattle.ace_grammar.specs.Lines.{HasNoLine};
ghost use Rattle.ace_grammar.specs.Reader.{answer_at, given, lasting};
ghost use Rattle.ace_grammar.specs.Reading.{IsReadableHeader, IfTold, most_counted};

use crate::event::read_into;
use crate::stage::Stage;
use crate::{ReadErr, Reason, parse_ports, parse_version};
use ace_event::{Event, Header};
use ace_io::{Failed, LineBuf, LineEnd, LineReader, Source};

/// The most events of a trace, where nothing else is said.
pub const MOST_EVENTS: u64 = 1_048_576;

/// The most events that a reader counts, 2^64 - 3, as a line has a number below 2^64: no limit for
/// what a program can count.
pub const MOST_COUNTED: u64 = 0xffff_ffff_ffff_fffd;

/// Takes the next line with its line feed, and says whether there is one.
#[tactic(auto, using(crate::proofs::Readings::Taken::cut_front))]
pub fn take_line<S: Source>(lines: &mut LineReader<S>, line: &mut LineBuf) -> Result<bool, Failed>
    ensures same_source { (source_of lines.new).ghost_name ≡ (source_of lines.old).ghost_name }
    ensures no_lf { HasNoLf line.new }
    ensures taken { IfOk result (λ whole. IsTrue whole →
        (length line.new < 256) × Consumes (waiting S.left lines.old)
        (waiting S.left lines.new) (line_text line.new)) }
    ensures none { IfOk result (λ whole. whole ≡ false
        → IfTold (waiting S.left lines.old) HasNoLine) }
    ensures front { OnOk result (TakesFront (waiting S.left lines.old)
        (S.left (source_of lines.new).now)) }
    ensures steady { OnOk result (S.faults (source_of lines.new).now
        ≡ S.faults (source_of lines.old).now) }
    ensures fault { OnErr result (Rose (S.faults (source_of lines.old).now)
        (S.faults (source_of lines.new).now)) }
    ensures pending { OnErr result (IsPending (waiting S.left lines.old)
        (S.left (source_of lines.new).now)) }
{
    match lines.next(line) {
        Ok(LineEnd::Whole) => Ok(true),
        Ok(LineEnd::NoLf | LineEnd::End) => Ok(false),
        Err(failed) => Err(failed),
    }
}

/// Reads the two header lines. After an error read no more. `line` is room for a line.
#[tactic(auto, using(crate::proofs::FirstLines::NoHeader::no_header))]
pub fn read_header<S: Source>(
    lines: &mut LineReader<S>,
    line: &mut LineBuf,
) -> Result<Header, ReadErr>
    ensures same_source { (source_of lines.new).ghost_name ≡ (source_of lines.old).ghost_name }
    ensures readable { IfOk result (λ header. IsReadableHeader header) }
    ensures header { IfOk result (λ header. Consumes (waiting S.left lines.old)
        (waiting S.left lines.new) (header_text header)) }
    ensures steady { OnOk result (S.faults (source_of lines.new).now
        ≡ S.faults (source_of lines.old).now) }
    ensures none { IfErr result (λ error. HasNoHeader error (waiting S.left lines.old)
        (S.faults (source_of lines.old).now)
        (S.left (source_of lines.new).now) (S.faults (source_of lines.new).now)) }
{
    match take_line(lines, line) {
        Ok(true) => {}
        Ok(false) => return Err(ReadErr::Malformed {
            line: 1,
            reason: Reason::F1,
        }),
        Err(_) => return Err(ReadErr::ReadFault),
    }
    let version = match parse_version(line.bytes()) {
        Some(version) => version,
        None => return Err(ReadErr::Malformed {
            line: 1,
            reason: Reason::F7,
        }),
    };
    match take_line(lines, line) {
        Ok(true) => {}
        Ok(false) => return Err(ReadErr::Malformed {
            line: 2,
            reason: Reason::F1,
        }),
        Err(_) => return Err(ReadErr::ReadFault),
    }
    match parse_ports(line.bytes(), version) {
        Some(header) => Ok(header),
        None => Err(ReadErr::Malformed {
            line: 2,
            reason: Reason::F7,
        }),
    }
}

/// Reads what stands after as many events as a trace may have: the end of the input, or more.
#[tactic(auto, using(crate::proofs::Readings::Taken::cut_end))]
#[cold]
#[inline(never)]
fn read_end<S: Source>(lines: &mut LineReader<S>, line: &mut LineBuf, stage: &mut Stage)
    ensures same_source { (source_of lines.new).ghost_name ≡ (source_of lines.old).ghost_name }
    ensures next { (most version : ℕ) (event : Event)
        → StandsNextWithin most version (given false event (answer_at stage.new)) most
        (waiting S.left lines.old) (waiting S.left lines.new)
        (S.left (source_of lines.new).now) }
    ensures last { (event : Event) → answer_at stage.new
        ≡ lasting (given false event (answer_at stage.new)) }
    ensures cause { (event : Event) → HasFaultCause (given false event (answer_at stage.new))
        (S.faults (source_of lines.old).now) (S.faults (source_of lines.new).now) }
{
    *stage = match lines.next(line) {
        Ok(LineEnd::End) => Stage::Ended,
        Ok(_) => Stage::Failed(ReadErr::TooManyEvents),
        Err(_) => Stage::Failed(ReadErr::ReadFault),
    };
}

/// Reads the next event of a trace of a version and of at most so many events, after a count of
/// them, into its place, and says whether there was one. Where there was none, the place stays, and
/// the stage tells why: then read no more. `line` is room for a line.
#[tactic(auto, using(crate::proofs::Readings::Taken::cut_end))]
#[inline(always)]
pub fn read_event<S: Source>(
    lines: &mut LineReader<S>,
    line: &mut LineBuf,
    most: u64,
    count: u64,
    version: u8,
    event: &mut Event,
    stage: &mut Stage,
) -> bool
    requires counted { most ≤ most_counted }
    requires few { count ≤ most }
    requires reads_on { answer_at stage.old ≡ None }
    ensures same_source { (source_of lines.new).ghost_name ≡ (source_of lines.old).ghost_name }
    ensures next { StandsNextWithin most version (given result event.new (answer_at stage.new))
        count (waiting S.left lines.old) (waiting S.left lines.new)
        (S.left (source_of lines.new).now) }
    ensures last { answer_at stage.new ≡ lasting (given result event.new (answer_at stage.new)) }
    ensures stays { result ≡ false → event.new ≡ event.old }
    ensures cause { HasFaultCause (given result event.new (answer_at stage.new))
        (S.faults (source_of lines.old).now) (S.faults (source_of lines.new).now) }
{
    if count == most {
        read_end(lines, line, stage);
        return false;
    }
    match lines.next_in_place(line) {
        Ok((LineEnd::Whole, lent)) => match read_into(lines.line_at(lent, line), version, event) {
            Ok(()) => return true,
            Err(reason) => stage.meet_malformed(count, reason),
        },
        Ok((LineEnd::NoLf, _)) => stage.meet_malformed(count, Reason::F1),
        Ok((LineEnd::End, _)) => stage.end(),
        Err(_) => stage.meet_fault(),
    }
    false
}
