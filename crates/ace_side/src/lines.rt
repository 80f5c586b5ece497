// The lines of a side file, one by one.
ghost use Rattle.std.specs.Prelude.{◌≡◌, ◌<◌, ◌∷◌, List, None, length, IfOk, IfErr, IfSome, OnOk};
ghost use Rattle.std.specs.Io.KnownBytes.{Consumes};
ghost use Rattle.ace_event.specs.Text.{line_text};
ghost use Rattle.ace_io.specs.Reader.{source_of, waiting};
ghost use Rattle.ace_side.specs.declared.line.SideLine.{SideLine};
ghost use Rattle.ace_side.specs.Kept.{Stands};
ghost use Rattle.ace_side.specs.Order.{order_reason};
ghost use Rattle.ace_side.specs.Errors.{IsOutOfOrder};
ghost use Rattle.ace_side.specs.Reasons.{IsTextOf};
ghost use Rattle.ace_side.specs.Errors.{HasFaultCause, HasNoStart, IsRefused, StandsNext};
ghost use Rattle.ace_side.specs.Text.{first_text};

use crate::error::LineErr;
use crate::order::Order;
use crate::parse::parse_line;
use crate::{Reason, SideErr, SideLine};
use ace_grammar::take_line;
use ace_io::{LineBuf, LineEnd, LineReader, NoMemory, Source};

/// The first line, without its line feed.
const FIRST_LINE: &[u8] = b"ACE SIDE 1";

/// Keeps what is to be kept of a line, where it may stand behind those before it.
fn keep(order: &mut Order, line: &SideLine) -> Result<(), LineErr>
    ensures stands { OnOk result ((past : List SideLine) → Stands past order.old
        → (order_reason past line.now ≡ None) × Stands (line.now ∷ past) order.new) }
    ensures none { IfErr result (λ error. (past : List SideLine) → Stands past order.old
        → IsOutOfOrder past line.now error) }
{
    if !order.permits(line) {
        return Err(LineErr::Malformed(Reason::S5));
    }
    if order.ending().is_some() {
        return Err(LineErr::Malformed(Reason::S6));
    }
    match order.note(line) {
        Ok(()) => Ok(()),
        Err(NoMemory) => Err(LineErr::NoMemory),
    }
}

/// The line of which these bytes are the text, without its line feed, which is kept.
fn add_line(order: &mut Order, bytes: &[u8]) -> Result<SideLine, LineErr>
    requires { length bytes.now < 256 }
    ensures line { IfOk result (λ line. IsTextOf line bytes.now) }
    ensures stands { IfOk result (λ line. (past : List SideLine) → Stands past order.old
        → (order_reason past line ≡ None) × Stands (line ∷ past) order.new) }
    ensures none { IfErr result (λ error. (past : List SideLine) → Stands past order.old
        → IsRefused past bytes.now error) }
{
    let line = match parse_line(bytes) {
        Ok(line) => line,
        Err(reason) => return Err(LineErr::Malformed(reason)),
    };
    match keep(order, &line) {
        Ok(()) => Ok(line),
        Err(error) => Err(error),
    }
}

/// Reads the next line, which has this number. After an error read no more. `line` is room for a
/// line.
pub fn read_next<S: Source>(
    lines: &mut LineReader<S>,
    line: &mut LineBuf,
    order: &mut Order,
    number: u64,
) -> Result<Option<SideLine>, SideErr>
    ensures same_source { (source_of lines.new).ghost_name ≡ (source_of lines.old).ghost_name }
    ensures next { (past : List SideLine) → Stands past order.old
        → StandsNext past number result (waiting S.left lines.old) (waiting S.left lines.new)
        (S.left (source_of lines.new).now) }
    ensures kept { IfOk result (λ next. IfSome next (λ line. (past : List SideLine)
        → Stands past order.old
        → Stands (line ∷ past) order.new)) }
    ensures cause { HasFaultCause result (S.faults (source_of lines.old).now) (S.faults
        (source_of lines.new).now) }
{
    match lines.next(line) {
        Ok(LineEnd::Whole) => match add_line(order, line.bytes()) {
            Ok(line) => Ok(Some(line)),
            Err(LineErr::Malformed(reason)) => Err(SideErr::Malformed {
                line: number,
                reason,
            }),
            Err(LineErr::NoMemory) => Err(SideErr::NoMemory),
        },
        Ok(LineEnd::NoLf) => Err(SideErr::Malformed {
            line: number,
            reason: Reason::S1,
        }),
        Ok(LineEnd::End) => Ok(None),
        Err(_) => Err(SideErr::ReadFault),
    }
}

/// Reads the first line. After an error read no more. `line` is room for a line.
pub fn read_first<S: Source>(lines: &mut LineReader<S>, line: &mut LineBuf) -> Result<(), SideErr>
    ensures same_source { (source_of lines.new).ghost_name ≡ (source_of lines.old).ghost_name }
    ensures text { OnOk result (Consumes (waiting S.left lines.old) (waiting S.left lines.new)
        (line_text first_text)) }
    ensures steady { OnOk result (S.faults (source_of lines.new).now ≡ S.faults
        (source_of lines.old).now) }
    ensures none { IfErr result (λ error. HasNoStart error (waiting S.left lines.old) (S.faults
        (source_of lines.old).now)
        (S.left (source_of lines.new).now) (S.faults (source_of lines.new).now)) }
{
    let whole = match take_line(lines, line) {
        Ok(whole) => whole,
        Err(_) => return Err(SideErr::ReadFault),
    };
    if whole && line.bytes() == FIRST_LINE {
        Ok(())
    } else {
        Err(SideErr::Malformed {
            line: 1,
            reason: Reason::S1,
        })
    }
}
