// A script is read as a plan.
ghost use Rattle.std.specs.Prelude.{◌≡◌, IfOk, IfErr, OnOk};
ghost use Rattle.std.specs.Io.KnownBytes.{IsAtEnd};
ghost use Rattle.ace_grammar.specs.Reading.{IfTold};
ghost use Rattle.ace_script.specs.Reading.{Reads, Whole};
ghost use Rattle.ace_script.specs.Errors.{HasNoPlan};

use crate::lines::{read_header, read_operations};
use crate::{Plan, PlanErr};
use ace_io::{LineBuf, LineReader, NoMemory, Source};
use ace_model::PlanView;
use std::alloc::Global;

impl Plan {
    /// Reads a script to the end of the source.
    ///
    /// # Errors
    ///
    /// `Malformed` exactly where the first malformed line has this number and this least reason;
    /// `TooManyOps` exactly where 4,096 operations were read and a byte stands next; `ReadFault`
    /// only where the source's count of faults rose in this call; `NoMemory` where there is none
    /// for the plan.
    #[tactic(auto, using(crate::proofs::OperationReads::whole_steps))]
    pub fn read<S: Source>(alloc: Global, source: &mut S) -> Result<Plan, PlanErr>
        ensures plan { IfOk result (λ plan. IfTold (S.left source.old)
            (λ bytes. Reads bytes plan.plan Whole)) }
        ensures room { IfOk result (λ plan. plan.room ≡ 0) }
        ensures end { OnOk result (IsAtEnd (S.left source.new)) }
        ensures steady { OnOk result (S.faults source.new ≡ S.faults source.old) }
        ensures none { IfErr result (λ error. HasNoPlan error (S.left source.old)
            (S.faults source.old) (S.faults source.new)) }
    {
        let mut lines = match LineReader::start(alloc, source) {
            Ok(lines) => lines,
            Err(NoMemory) => unreachable!(),
        };
        let mut line = LineBuf::empty();
        let (header, (ways, policy)) = match read_header(&mut lines, &mut line) {
            Ok(header) => header,
            Err(error) => return Err(error),
        };
        let mut view = PlanView::new(alloc, header, ways, policy);
        match read_operations(&mut lines, &mut line, &mut view) {
            Ok(()) => Ok(Plan::of_view(view)),
            Err(error) => Err(error),
        }
    }
}
