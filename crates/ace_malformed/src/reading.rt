// A trace is read line by line, and the line that was read last stays at hand.
ghost use Rattle.std.specs.Prelude.{◌≡◌, ◌+◌, ◌<◌, ◌≤◌, ℕ, List, Option, false, length, IfErr, IfOk, IsTrue, OnErr, OnOk};
ghost use Rattle.std.specs.Io.KnownBytes.{Consumes};
ghost use Rattle.ace_event.specs.Text.{header_text, line_text, version_text};
ghost use Rattle.ace_grammar.specs.declared.error.ReadErr.TheVariants.{Malformed};
ghost use Rattle.ace_grammar.specs.Errors.{HasFaultCause, HasNoHeader, StandsNextWithin, TakesFront};
ghost use Rattle.ace_grammar.specs.Lines.{HasNoLine};
ghost use Rattle.ace_grammar.specs.Reading.{IfTold, IsReadableHeader, IsVersion, most_counted, ports_text};
ghost use Rattle.ace_io.specs.Faults.{Rose};
ghost use Rattle.ace_io.specs.Line.{HasNoLf, IsPending};
ghost use Rattle.ace_io.specs.Reader.{source_of, waiting};
ghost use Rattle.ace_malformed.specs.Cut.{IsFirstCut, ShowsCut, ShowsLine};

use ace_event::{Event, Header};
use ace_grammar::{ReadErr, Reason, parse_event, parse_ports, parse_version};
use ace_io::{Failed, LineBuf, LineEnd, LineReader, Source};

/// The number of the line of the first event, behind those of the header.
const FIRST_EVENT_LINE: u64 = 3;

/// Takes the next line with its line feed, and says whether there is one. Where there is none, the
/// line is what stands there.
#[tactic(auto, using(crate::proofs::Cuts::lines))]
fn take_line<S: Source>(lines: &mut LineReader<S>, line: &mut LineBuf) -> Result<bool, Failed>
    ensures same_source { (source_of lines.new).ghost_name ≡ (source_of lines.old).ghost_name }
    ensures no_lf { HasNoLf line.new }
    ensures cut { OnOk result (IfTold (waiting S.left lines.old) (IsFirstCut line.new)) }
    ensures taken { IfOk result (λ whole. IsTrue whole → (length line.new < 256)
        × Consumes (waiting S.left lines.old) (waiting S.left lines.new) (line_text line.new)) }
    ensures none { IfOk result (λ whole. whole ≡ false
        → IfTold (waiting S.left lines.old) HasNoLine) }
    ensures front { OnOk result
        (TakesFront (waiting S.left lines.old) (S.left (source_of lines.new).now)) }
    ensures steady { OnOk result
        (S.faults (source_of lines.new).now ≡ S.faults (source_of lines.old).now) }
    ensures fault { OnErr result
        (Rose (S.faults (source_of lines.old).now) (S.faults (source_of lines.new).now)) }
    ensures pending { OnErr result
        (IsPending (waiting S.left lines.old) (S.left (source_of lines.new).now)) }
{
    match lines.next(line) {
        Ok(LineEnd::Whole) => Ok(true),
        Ok(LineEnd::NoLf) => Ok(false),
        Ok(LineEnd::End) => Ok(false),
        Err(failed) => Err(failed),
    }
}

/// Reads the first line of a header, and says which version it names.
#[tactic(auto, using(crate::proofs::Headers::versions))]
fn read_version<S: Source>(lines: &mut LineReader<S>, line: &mut LineBuf) -> Result<u8, ReadErr>
    ensures same_source { (source_of lines.new).ghost_name ≡ (source_of lines.old).ghost_name }
    ensures is_version { IfOk result IsVersion }
    ensures version { IfOk result (λ version. Consumes (waiting S.left lines.old)
        (waiting S.left lines.new) (line_text (version_text version))) }
    ensures steady { OnOk result
        (S.faults (source_of lines.new).now ≡ S.faults (source_of lines.old).now) }
    ensures none { IfErr result (λ error. HasNoHeader error (waiting S.left lines.old)
        (S.faults (source_of lines.old).now) (S.left (source_of lines.new).now)
        (S.faults (source_of lines.new).now)) }
    ensures shown { IfErr result (ShowsLine (waiting S.left lines.old) 1 line.new) }
{
    match take_line(lines, line) {
        Ok(true) => match parse_version(line.bytes()) {
            Some(version) => Ok(version),
            None => Err(ReadErr::Malformed {
                line: 1,
                reason: Reason::F7,
            }),
        },
        Ok(false) => Err(ReadErr::Malformed {
            line: 1,
            reason: Reason::F1,
        }),
        Err(_) => Err(ReadErr::ReadFault),
    }
}

/// Reads the second line of a header of a version.
#[tactic(auto, using(crate::proofs::Headers::ports))]
fn read_ports<S: Source>(
    lines: &mut LineReader<S>,
    line: &mut LineBuf,
    version: u8,
) -> Result<Header, ReadErr>
    requires { IsVersion version }
    ensures same_source { (source_of lines.new).ghost_name ≡ (source_of lines.old).ghost_name }
    ensures readable { IfOk result IsReadableHeader }
    ensures version { IfOk result (λ header. header.version ≡ version) }
    ensures ports { IfOk result (λ header. Consumes (waiting S.left lines.old)
        (waiting S.left lines.new) (line_text (ports_text header))) }
    ensures steady { OnOk result
        (S.faults (source_of lines.new).now ≡ S.faults (source_of lines.old).now) }
    ensures none { (first : Option (List ℕ))
        → Consumes first (waiting S.left lines.old) (line_text (version_text version))
        → IfErr result (λ error. HasNoHeader error first (S.faults (source_of lines.old).now)
        (S.left (source_of lines.new).now) (S.faults (source_of lines.new).now)) }
    ensures shown { (first : Option (List ℕ))
        → Consumes first (waiting S.left lines.old) (line_text (version_text version))
        → IfErr result (ShowsLine first version line.new) }
{
    match take_line(lines, line) {
        Ok(true) => match parse_ports(line.bytes(), version) {
            Some(header) => Ok(header),
            None => Err(ReadErr::Malformed {
                line: 2,
                reason: Reason::F7,
            }),
        },
        Ok(false) => Err(ReadErr::Malformed {
            line: 2,
            reason: Reason::F1,
        }),
        Err(_) => Err(ReadErr::ReadFault),
    }
}

/// Why a trace has no header.
#[derive(Clone, Copy)]
pub struct NoHeader {
    /// What was wrong.
    pub error: ReadErr,
    /// The version that the first line names, or 1 where it names none.
    pub version: u8,
}

/// Reads the two header lines of a trace. After an error read no more. `line` is room for a line,
/// and after `Malformed` the line that is so.
///
/// # Errors
///
/// `Malformed` exactly where the first malformed one of the two lines has this number and this
/// reason; `ReadFault` only where the source's count of faults rose in this call.
#[tactic(auto, using(crate::proofs::Headers::headers))]
pub fn read_header<S: Source>(
    lines: &mut LineReader<S>,
    line: &mut LineBuf,
) -> Result<Header, NoHeader>
    ensures same_source { (source_of lines.new).ghost_name ≡ (source_of lines.old).ghost_name }
    ensures readable { IfOk result (λ header. IsReadableHeader header) }
    ensures header { IfOk result (λ header. Consumes (waiting S.left lines.old)
        (waiting S.left lines.new) (header_text header)) }
    ensures steady { OnOk result
        (S.faults (source_of lines.new).now ≡ S.faults (source_of lines.old).now) }
    ensures none { IfErr result (λ none. HasNoHeader none.error (waiting S.left lines.old)
        (S.faults (source_of lines.old).now) (S.left (source_of lines.new).now)
        (S.faults (source_of lines.new).now)) }
    ensures shown { IfErr result (λ none.
        ShowsLine (waiting S.left lines.old) none.version line.new none.error) }
{
    match read_version(lines, line) {
        Ok(version) => match read_ports(lines, line, version) {
            Ok(header) => Ok(header),
            Err(error) => Err(NoHeader { error, version }),
        },
        Err(error) => Err(NoHeader { error, version: 1 }),
    }
}

/// The line behind so many events is malformed.
fn malformed(count: u64, reason: Reason) -> ReadErr
    requires { count < most_counted }
    ensures { result ≡ Malformed (count + 3) reason }
{
    ReadErr::Malformed {
        line: count + FIRST_EVENT_LINE,
        reason,
    }
}

/// Reads what stands after as many events as a trace may have: the end of the input, or more.
#[tactic(auto, using(crate::proofs::Cuts::cuts))]
fn read_end<S: Source>(
    lines: &mut LineReader<S>,
    line: &mut LineBuf,
) -> Result<Option<Event>, ReadErr>
    ensures same_source { (source_of lines.new).ghost_name ≡ (source_of lines.old).ghost_name }
    ensures next { (most version : ℕ) → StandsNextWithin most version result most
        (waiting S.left lines.old) (waiting S.left lines.new) (S.left (source_of lines.new).now) }
    ensures cut { (told : Option (List ℕ)) → IfErr result (ShowsCut told line.new) }
    ensures cause { HasFaultCause result (S.faults (source_of lines.old).now)
        (S.faults (source_of lines.new).now) }
{
    match lines.next(line) {
        Ok(LineEnd::End) => Ok(None),
        Ok(_) => Err(ReadErr::TooManyEvents),
        Err(_) => Err(ReadErr::ReadFault),
    }
}

/// Reads the next event of a trace of a version and of at most so many events, after a count of
/// them; None where the trace has ended. After an answer that is no event read no more. `line` is
/// room for a line, and after `Malformed` the line that is so.
///
/// # Errors
///
/// Those of the reader of ace_grammar.
#[tactic(auto, using(crate::proofs::Cuts::cuts))]
pub fn next_event<S: Source>(
    lines: &mut LineReader<S>,
    line: &mut LineBuf,
    most: u64,
    count: u64,
    version: u8,
) -> Result<Option<Event>, ReadErr>
    requires counted { most ≤ most_counted }
    requires few { count ≤ most }
    ensures same_source { (source_of lines.new).ghost_name ≡ (source_of lines.old).ghost_name }
    ensures next { StandsNextWithin most version result count (waiting S.left lines.old)
        (waiting S.left lines.new) (S.left (source_of lines.new).now) }
    ensures cut { IfErr result (ShowsCut (waiting S.left lines.old) line.new) }
    ensures cause { HasFaultCause result (S.faults (source_of lines.old).now)
        (S.faults (source_of lines.new).now) }
{
    if count == most {
        return read_end(lines, line);
    }
    match lines.next(line) {
        Ok(LineEnd::Whole) => match parse_event(line.bytes(), version) {
            Ok(event) => Ok(Some(event)),
            Err(reason) => Err(malformed(count, reason)),
        },
        Ok(LineEnd::NoLf) => Err(malformed(count, Reason::F1)),
        Ok(LineEnd::End) => Ok(None),
        Err(_) => Err(ReadErr::ReadFault),
    }
}
