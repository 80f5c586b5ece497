// The lines of a script, one by one, from a source.
ghost use Rattle.std.specs.Prelude.{◌≡◌, ◌<◌, ◌≤◌, ◌+◌, List, ℕ, Option, Ok, length, IfOk, IfErr, OnOk, true, false, [], ◌∷◌, ◌++◌};
ghost use Rattle.std.specs.Io.KnownBytes.{Consumes, IsAtEnd};
ghost use Rattle.ace_io.specs.Line.{HasNoLf};
ghost use Rattle.ace_io.specs.Reader.{source_of, waiting};
ghost use Rattle.ace_event.specs.Ports.{IsHeader};
ghost use Rattle.ace_event.specs.Text.{line_text};
ghost use Rattle.ace_grammar.specs.Reading.{ports_text};
ghost use Rattle.ace_model.specs.Plans.{Plan, most_operations};
ghost use Rattle.ace_script.specs.Text.{first_text, cache_text, policy_text, plan_text};
ghost use Rattle.ace_script.specs.Grammar.{PolicyFits, IsScript};
ghost use Rattle.ace_script.specs.Reading.{HeaderLine, VersionLine, PortsLine, CacheLine, PolicyLine, header_lines};
ghost use Rattle.ace_script.specs.Errors.{HasNoHeader, HasNoNext, HasNoOperation, HasNoPlan, IsOneMore, TakesOne};

use crate::header::{is_text, parse_cache, parse_policy};
use crate::operation::parse_operation;
use crate::{PlanErr, Reason};
use ace_event::Header;
use ace_grammar::{parse_ports, take_line};
use ace_io::{LineBuf, LineEnd, LineReader, Source};
use ace_model::{PlanView, PolicyWord};

/// The most operations of a script.
const MOST_OPERATIONS: u16 = 4096;

/// The number of the line of the first operation, behind those of the header.
const FIRST_OPERATION_LINE: u64 = 5;

/// Takes the header line of this number, with its line feed.
#[tactic(auto, using(crate::proofs::HeaderReads::header_steps))]
fn header_line<S: Source>(
    lines: &mut LineReader<S>,
    line: &mut LineBuf,
    number: u64,
) -> Result<(), PlanErr>
    ensures same_source { (source_of lines.new).ghost_name ≡ (source_of lines.old).ghost_name }
    ensures no_lf { HasNoLf line.new }
    ensures short { OnOk result (length line.new < 256) }
    ensures taken { OnOk result (Consumes (waiting S.left lines.old)
        (waiting S.left lines.new) (line_text line.new)) }
    ensures steady { OnOk result (S.faults (source_of lines.new).now
        ≡ S.faults (source_of lines.old).now) }
    ensures none { IfErr result (λ error. (kind : HeaderLine) (kinds : List HeaderLine)
        → HasNoHeader (kind ∷ kinds) number error
        (waiting S.left lines.old) (S.faults (source_of lines.old).now)
        (S.faults (source_of lines.new).now)) }
{
    match take_line(lines, line) {
        Ok(true) => Ok(()),
        Ok(false) => Err(PlanErr::Malformed {
            line: number,
            reason: Reason::P1,
        }),
        Err(_) => Err(PlanErr::ReadFault),
    }
}

/// Reads the fourth header line.
#[tactic(auto, using(crate::proofs::HeaderReads::header_steps))]
fn read_policy<S: Source>(
    lines: &mut LineReader<S>,
    line: &mut LineBuf,
) -> Result<PolicyWord, PlanErr>
    ensures same_source { (source_of lines.new).ghost_name ≡ (source_of lines.old).ghost_name }
    ensures fits { IfOk result PolicyFits }
    ensures text { IfOk result (λ policy. Consumes (waiting S.left lines.old)
        (waiting S.left lines.new) (line_text (policy_text policy))) }
    ensures steady { OnOk result (S.faults (source_of lines.new).now
        ≡ S.faults (source_of lines.old).now) }
    ensures none { IfErr result (λ error. HasNoHeader (PolicyLine ∷ []) 4 error
        (waiting S.left lines.old) (S.faults (source_of lines.old).now)
        (S.faults (source_of lines.new).now)) }
{
    match header_line(lines, line, 4) {
        Ok(()) => {}
        Err(error) => return Err(error),
    }
    match parse_policy(line.bytes()) {
        Some(policy) => Ok(policy),
        None => Err(PlanErr::Malformed {
            line: 4,
            reason: Reason::P7,
        }),
    }
}

/// Reads the third and the fourth header line.
#[tactic(auto, using(crate::proofs::HeaderReads::header_steps))]
fn read_cache<S: Source>(
    lines: &mut LineReader<S>,
    line: &mut LineBuf,
) -> Result<(u8, PolicyWord), PlanErr>
    ensures same_source { (source_of lines.new).ghost_name ≡ (source_of lines.old).ghost_name }
    ensures some { IfOk result (λ x. 1 ≤ x.0) }
    ensures most { IfOk result (λ x. x.0 ≤ 32) }
    ensures fits { IfOk result (λ x. PolicyFits x.1) }
    ensures text { IfOk result (λ x. Consumes (waiting S.left lines.old) (waiting S.left lines.new)
        (line_text (cache_text x.0) ++ line_text (policy_text x.1))) }
    ensures steady { OnOk result (S.faults (source_of lines.new).now
        ≡ S.faults (source_of lines.old).now) }
    ensures none { IfErr result (λ error. HasNoHeader (CacheLine ∷ PolicyLine ∷ []) 3 error
        (waiting S.left lines.old) (S.faults (source_of lines.old).now)
        (S.faults (source_of lines.new).now)) }
{
    match header_line(lines, line, 3) {
        Ok(()) => {}
        Err(error) => return Err(error),
    }
    let ways = match parse_cache(line.bytes()) {
        Some(ways) => ways,
        None => return Err(PlanErr::Malformed {
            line: 3,
            reason: Reason::P7,
        }),
    };
    match read_policy(lines, line) {
        Ok(policy) => Ok((ways, policy)),
        Err(error) => Err(error),
    }
}

/// Reads the header lines from the second on.
#[tactic(auto, using(crate::proofs::HeaderReads::header_steps))]
fn read_ports<S: Source>(
    lines: &mut LineReader<S>,
    line: &mut LineBuf,
) -> Result<(Header, (u8, PolicyWord)), PlanErr>
    ensures same_source { (source_of lines.new).ghost_name ≡ (source_of lines.old).ghost_name }
    ensures header { IfOk result (λ x. IsHeader x.0) }
    ensures version { IfOk result (λ x. x.0.version ≡ 1) }
    ensures some { IfOk result (λ x. 1 ≤ x.1.0) }
    ensures most { IfOk result (λ x. x.1.0 ≤ 32) }
    ensures fits { IfOk result (λ x. PolicyFits x.1.1) }
    ensures text { IfOk result (λ x. Consumes (waiting S.left lines.old) (waiting S.left lines.new)
        (line_text (ports_text x.0) ++ line_text (cache_text x.1.0)
        ++ line_text (policy_text x.1.1))) }
    ensures steady { OnOk result (S.faults (source_of lines.new).now
        ≡ S.faults (source_of lines.old).now) }
    ensures none { IfErr result (λ error. HasNoHeader (PortsLine
        ∷ CacheLine ∷ PolicyLine ∷ []) 2 error
        (waiting S.left lines.old) (S.faults (source_of lines.old).now)
        (S.faults (source_of lines.new).now)) }
{
    match header_line(lines, line, 2) {
        Ok(()) => {}
        Err(error) => return Err(error),
    }
    let header = match parse_ports(line.bytes(), 1) {
        Some(header) => header,
        None => return Err(PlanErr::Malformed {
            line: 2,
            reason: Reason::P7,
        }),
    };
    match read_cache(lines, line) {
        Ok(rest) => Ok((header, rest)),
        Err(error) => Err(error),
    }
}

/// Reads the four header lines: the ports, the number of lines of a cache, and how snoops are
/// answered.
#[tactic(auto, using(crate::proofs::HeaderReads::header_steps))]
pub fn read_header<S: Source>(
    lines: &mut LineReader<S>,
    line: &mut LineBuf,
) -> Result<(Header, (u8, PolicyWord)), PlanErr>
    ensures same_source { (source_of lines.new).ghost_name ≡ (source_of lines.old).ghost_name }
    ensures header { IfOk result (λ x. IsHeader x.0) }
    ensures version { IfOk result (λ x. x.0.version ≡ 1) }
    ensures some { IfOk result (λ x. 1 ≤ x.1.0) }
    ensures most { IfOk result (λ x. x.1.0 ≤ 32) }
    ensures fits { IfOk result (λ x. PolicyFits x.1.1) }
    ensures text { IfOk result (λ x. Consumes (waiting S.left lines.old) (waiting S.left lines.new)
        (line_text first_text ++ line_text (ports_text x.0) ++ line_text (cache_text x.1.0)
        ++ line_text (policy_text x.1.1))) }
    ensures steady { OnOk result (S.faults (source_of lines.new).now
        ≡ S.faults (source_of lines.old).now) }
    ensures none { IfErr result (λ error. HasNoHeader header_lines 1 error
        (waiting S.left lines.old) (S.faults (source_of lines.old).now)
        (S.faults (source_of lines.new).now)) }
{
    match header_line(lines, line, 1) {
        Ok(()) => {}
        Err(error) => return Err(error),
    }
    if !is_text(line.bytes(), b"ACE SCRIPT 1") {
        return Err(PlanErr::Malformed {
            line: 1,
            reason: Reason::P7,
        });
    }
    match read_ports(lines, line) {
        Ok(header) => Ok(header),
        Err(error) => Err(error),
    }
}

/// Adds the operation of this line, without its line feed, to the plan. At an error the plan stays.
fn add_operation(line: &[u8], view: &mut PlanView) -> Result<(), PlanErr>
    requires no_room { view.old.room ≡ 0 }
    requires script { IsScript view.old.plan }
    requires few { length view.old.plan.operations < most_operations }
    ensures operation { OnOk result (IsOneMore view.old.plan view.new.plan line.now) }
    ensures room { view.new.room ≡ 0 }
    ensures none { IfErr result (λ error. HasNoOperation view.old.plan error line.now) }
{
    let number = u64::from(view.count()) + FIRST_OPERATION_LINE;
    match parse_operation(line, &view.header(), view.operations()) {
        Ok(o) => match view.add(o) {
            Ok(()) => Ok(()),
            Err(_) => Err(PlanErr::NoMemory),
        },
        Err(reason) => Err(PlanErr::Malformed {
            line: number,
            reason,
        }),
    }
}

/// What stands behind as many operations as a script may have: the end of the input, or more.
fn read_end<S: Source>(lines: &mut LineReader<S>, line: &mut LineBuf) -> Result<bool, PlanErr>
    ensures same_source { (source_of lines.new).ghost_name ≡ (source_of lines.old).ghost_name }
    ensures ended { IfOk result (λ more. more ≡ false) }
    ensures kept { OnOk result (Consumes (waiting S.left lines.old) (waiting S.left lines.new) []) }
    ensures end { OnOk result (IsAtEnd (waiting S.left lines.new)) }
    ensures steady { OnOk result (S.faults (source_of lines.new).now
        ≡ S.faults (source_of lines.old).now) }
    ensures none { IfErr result (λ error. (plan : Plan) → length plan.operations ≡ most_operations
        → HasNoNext plan error
        (waiting S.left lines.old) (S.faults (source_of lines.old).now)
        (S.faults (source_of lines.new).now)) }
{
    match lines.next(line) {
        Ok(LineEnd::End) => Ok(false),
        Ok(_) => Err(PlanErr::TooManyOps),
        Err(_) => Err(PlanErr::ReadFault),
    }
}

/// Reads the line of one more operation, and says whether there was one. After an error read no
/// more.
#[tactic(auto, using(crate::proofs::HeaderReads::other_line_is_bad))]
fn read_next<S: Source>(
    lines: &mut LineReader<S>,
    line: &mut LineBuf,
    view: &mut PlanView,
) -> Result<bool, PlanErr>
    requires no_room { view.old.room ≡ 0 }
    requires script { IsScript view.old.plan }
    ensures same_source { (source_of lines.new).ghost_name ≡ (source_of lines.old).ghost_name }
    ensures room { view.new.room ≡ 0 }
    ensures more { result ≡ Ok true → TakesOne view.old.plan view.new.plan
        (waiting S.left lines.old) (waiting S.left lines.new) }
    ensures ended { result ≡ Ok false → view.new ≡ view.old }
    ensures kept { result ≡ Ok false
        → Consumes (waiting S.left lines.old) (waiting S.left lines.new) [] }
    ensures end { result ≡ Ok false → IsAtEnd (waiting S.left lines.new) }
    ensures steady { OnOk result (S.faults (source_of lines.new).now
        ≡ S.faults (source_of lines.old).now) }
    ensures none { IfErr result (λ error. HasNoNext view.old.plan error
        (waiting S.left lines.old) (S.faults (source_of lines.old).now)
        (S.faults (source_of lines.new).now)) }
{
    let count = view.count();
    if count == MOST_OPERATIONS {
        return read_end(lines, line);
    }
    match lines.next(line) {
        Ok(LineEnd::Whole) => match add_operation(line.bytes(), view) {
            Ok(()) => Ok(true),
            Err(error) => Err(error),
        },
        Ok(LineEnd::NoLf) => Err(PlanErr::Malformed {
            line: u64::from(count) + FIRST_OPERATION_LINE,
            reason: Reason::P1,
        }),
        Ok(LineEnd::End) => Ok(false),
        Err(_) => Err(PlanErr::ReadFault),
    }
}

/// Reads the lines of operations to the end of the source, and adds each to the plan. After an
/// error read no more.
#[tactic(auto, using(crate::proofs::OperationReads::reading_steps))]
pub fn read_operations<S: Source>(
    lines: &mut LineReader<S>,
    line: &mut LineBuf,
    view: &mut PlanView,
) -> Result<(), PlanErr>
    requires no_room { view.old.room ≡ 0 }
    requires script { IsScript view.old.plan }
    ensures same_source { (source_of lines.new).ghost_name ≡ (source_of lines.old).ghost_name }
    ensures room { view.new.room ≡ 0 }
    ensures script { OnOk result (IsScript view.new.plan) }
    ensures read { (bytes : Option (List ℕ))
        → Consumes bytes (waiting S.left lines.old) (plan_text view.old.plan)
        → OnOk result (Consumes bytes (waiting S.left lines.new) (plan_text view.new.plan)) }
    ensures end { OnOk result (IsAtEnd (waiting S.left lines.new)) }
    ensures steady { OnOk result (S.faults (source_of lines.new).now
        ≡ S.faults (source_of lines.old).now) }
    ensures none { IfErr result (λ error. (bytes : Option (List ℕ))
        → Consumes bytes (waiting S.left lines.old) (plan_text view.old.plan)
        → HasNoPlan error bytes (S.faults (source_of lines.old).now)
        (S.faults (source_of lines.new).now)) }
{
    'operations: loop {
        match read_next(lines, line, view) {
            Ok(true) => {}
            Ok(false) => return Ok(()),
            Err(error) => return Err(error),
        }
    }
}
