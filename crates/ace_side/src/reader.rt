// A side file is read from a source: its first line at once, and then line by line.
ghost use Rattle.std.specs.Prelude.{◌≡◌, ℕ, List, [], Option, None, Some, Result, IfOk, IfErr};
ghost use Rattle.ace_side.specs.declared.error.SideErr.{SideErr};
ghost use Rattle.ace_side.specs.declared.line.SideLine.{SideLine};
ghost use Rattle.ace_side.specs.Errors.{HasNoStart, HasFaultCause, StandsNext};
ghost use Rattle.ace_side.specs.Order.{ending};

use crate::lines::{read_first, read_next};
use crate::order::Order;
use crate::stage::Stage;
use crate::{SideEnd, SideErr, SideLine};
use ace_io::{LineBuf, LineReader, NoMemory, Source};
use std::alloc::Global;

/// Why there is no reader, and the source that was lent to it.
#[derive(Drop)]
pub struct SideStartErr<'a, S: Source> {
    pub error: SideErr,
    pub source: &'a mut S,
}

/// Reads a side file from a source. Of the lines it keeps what their order asks for: the last
/// numbers, and the ports and addresses that were named.
#[derive(Drop)]
pub struct SideReader<'a, S: Source> {
    lines: LineReader<'a, S>,
    line: LineBuf,
    order: Order,
    /// The number of the next line.
    number: u64,
    stage: Stage,
}

impl<'a, S: Source> SideReader<'a, S> {
    ghost use Rattle.ace_side.specs.declared.stage.Stage.TheVariants.{Reading};
    ghost use Rattle.ace_side.specs.Reader.{source_of, unread, stage_of, stage_after, answer_at, number_behind, HasRead, IsReading};

    /// Reads the first line.
    ///
    /// # Errors
    ///
    /// `Malformed` exactly where the first line is missing or another one; `ReadFault` only where
    /// the source's count of faults rose in this call, and then what was taken from it is less
    /// than a line; `NoMemory` never. The error hands the source back.
    pub fn start(alloc: Global, source: &'a mut S) -> Result<SideReader<'a, S>, SideStartErr<'a, S>>
        ensures same_source { IfOk result (λ r. (source_of r).ghost_name
            ≡ source.entry.ghost_name) }
        ensures read { IfOk result (HasRead S.left (S.left source.entry.now) []) }
        ensures reads_on { IfOk result (λ r. stage_of r ≡ Reading) }
        ensures steady { IfOk result (λ r. S.faults (source_of r).now ≡ S.faults source.entry.now) }
        ensures handed_back { IfErr result (λ e. e.source.ghost_name ≡ source.entry.ghost_name) }
        ensures none { IfErr result (λ e. HasNoStart e.error (S.left source.entry.now)
            (S.faults source.entry.now)
            (S.left e.source.now) (S.faults e.source.now)) }
    {
        let mut lines = match LineReader::start(alloc, source) {
            Ok(lines) => lines,
            Err(NoMemory) => unreachable!(),
        };
        let mut line = LineBuf::empty();
        match read_first(&mut lines, &mut line) {
            Ok(()) => Ok(SideReader {
                lines,
                line,
                order: Order::new(alloc),
                number: 2,
                stage: Stage::Reading,
            }),
            Err(error) => Err(SideStartErr {
                error,
                source: lines.into_source(),
            }),
        }
    }

    /// The next line, or None at the end of the input after a whole line. An answer that is no
    /// line stays: each later call gives it again, and takes nothing from the source.
    ///
    /// # Errors
    ///
    /// `Malformed` exactly where a line stands next that is malformed, with its number and the
    /// least reason that applies. `ReadFault` only where the source's count of faults rose in the
    /// first call that answers so, and what was taken by then and not given is less than a line.
    /// `NoMemory` where there is none for what is kept of the line.
    pub fn next(&mut self) -> Result<Option<SideLine>, SideErr>
        ensures same_source { (source_of self.new).ghost_name ≡ (source_of self.old).ghost_name }
        ensures next { stage_of self.old ≡ Reading → (first : Option (List ℕ))
            (past : List SideLine)
            → HasRead S.left first past self.old
            → StandsNext past (number_behind past) result (unread S.left self.old)
            (unread S.left self.new) (S.left (source_of self.new).now) }
        ensures reads { stage_of self.old ≡ Reading
            → (first : Option (List ℕ)) (past : List SideLine)
            → HasRead S.left first past self.old → IsReading S.left first past self.new result }
        ensures stage { stage_of self.new ≡ stage_after result }
        ensures again { (answer : Result (Option SideLine) SideErr)
            → answer_at (stage_of self.old) ≡ Some answer
            → (result ≡ answer) × (self.new ≡ self.old) }
        ensures cause { stage_of self.old ≡ Reading
            → HasFaultCause result (S.faults (source_of self.old).now) (S.faults
            (source_of self.new).now) }
    {
        match self.stage {
            Stage::Reading => self.read_on(),
            Stage::Ended => Ok(None),
            Stage::Failed(error) => Err(error),
        }
    }

    /// The next line of a reader that reads on.
    fn read_on(&mut self) -> Result<Option<SideLine>, SideErr>
        ensures same_source { (source_of self.new).ghost_name ≡ (source_of self.old).ghost_name }
        ensures next { (first : Option (List ℕ)) (past : List SideLine)
            → HasRead S.left first past self.old
            → StandsNext past (number_behind past) result (unread S.left self.old)
            (unread S.left self.new) (S.left (source_of self.new).now) }
        ensures reads { (first : Option (List ℕ)) (past : List SideLine)
            → HasRead S.left first past self.old → IsReading S.left first past self.new result }
        ensures stage { stage_of self.new ≡ stage_after result }
        ensures cause { HasFaultCause result (S.faults (source_of self.old).now) (S.faults
            (source_of self.new).now) }
    {
        match read_next(
            &mut self.lines,
            &mut self.line,
            &mut self.order,
            self.number,
        ) {
            Ok(Some(line)) => {
                self.number = self.number.saturating_add(1);
                self.stage = Stage::Reading;
                Ok(Some(line))
            }
            Ok(None) => {
                self.stage = Stage::Ended;
                Ok(None)
            }
            Err(error) => {
                self.stage = Stage::Failed(error);
                Err(error)
            }
        }
    }

    /// How the lines so far end: None where no END, BROKEN or CUT is among them.
    pub fn ending(&self) -> Option<SideEnd>
        ensures { (first : Option (List ℕ)) (past : List SideLine)
            → HasRead S.left first past self.now → result ≡ ending past }
    {
        self.order.ending()
    }

    /// The source that was lent to the reader. What it took and didn't give is lost.
    pub fn into_source(self) -> &'a mut S
        ensures same_source { result.ghost_name ≡ (source_of self.entry).ghost_name }
        ensures kept { result.now ≡ (source_of self.entry).now }
    {
        let SideReader { lines, .. } = self;
        lines.into_source()
    }
}
