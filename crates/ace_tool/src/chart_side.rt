// What the side file of a trace tells of the rows of its chart.
ghost use Rattle.std.specs.Prelude.{◌≡◌, ◌≢◌, ◌++◌, codes, false, IfErr, IfOk, IfSome};
ghost use Rattle.ace_side_facts.specs.Facts.{TellsOf};
ghost use Rattle.ace_tool.specs.ChartSides.{IsReadAt, IsReadIn, IsSideOf};
ghost use Rattle.ace_tool.specs.ChartTold.{chart_of};
ghost use Rattle.ace_tool.specs.Sides.{IsFoundIn, place_of};
ghost use Rattle.ace_tool.specs.Told.{side_of};
ghost use Rattle.ace_tool.specs.declared.folder.OpenErr.{OpenErr};
ghost use Rattle.ace_tool.specs.declared.side.SideFault.TheVariants.{Shut};
ghost use Rattle.ace_tool.specs.declared.side.SideFound.TheVariants.{Faulty};

use crate::chart_call::ChartCall;
use crate::check_options::SideChoice;
use crate::check_words::is_input;
use crate::folder::Folder;
use crate::side::{SideFault, fault_of, name_beside};
use ace_chart::{Chart, row_numbers};
use ace_io::{NoMemory, Source};
use ace_side_facts::{Query, SideFacts, read_facts};
use std::alloc::Global;

/// What a side file that the source gives tells of what is asked.
fn facts_in<S: Source>(
    alloc: Global,
    source: &mut S,
    query: &Query<'_>,
) -> Result<SideFacts, SideFault>
    ensures told { IfOk result (λ f. IfSome (S.left source.old) (λ bytes. TellsOf query.now bytes
        f)) }
    ensures fault { IfErr result (λ fault. IfSome (S.left source.old) (λ bytes. IsFoundIn bytes
        (Faulty fault))) }
    ensures opened { IfErr result (λ fault. (error : OpenErr) → fault ≢ Shut error) }
{
    match read_facts(alloc, source, query) {
        Ok(facts) => Ok(facts),
        Err(error) => Err(fault_of(error)),
    }
}

/// The same of the file of this name; nothing where it isn't there and needn't be.
fn facts_at<F: Folder>(
    alloc: Global,
    files: &F,
    name: &str,
    has_to_be: bool,
    query: &Query<'_>,
) -> Result<Option<SideFacts>, SideFault>
    ensures { IsReadAt (F.holds files.now name.now) has_to_be query.now result }
{
    match files.open(name) {
        Ok(mut file) => match facts_in(alloc, &mut file, query) {
            Ok(facts) => Ok(Some(facts)),
            Err(fault) => Err(fault),
        },
        Err(error) => {
            if !has_to_be && error.is_absence() {
                Ok(None)
            } else {
                Err(SideFault::Shut { error })
            }
        }
    }
}

/// The same of the file beside the trace of this name.
fn facts_beside<F: Folder>(
    alloc: Global,
    files: &F,
    name: &str,
    query: &Query<'_>,
) -> Result<Option<SideFacts>, SideFault>
    ensures { IsReadAt (F.holds files.now (name.now ++ codes ".side")) false query.now result }
{
    match name_beside(alloc, name) {
        Ok(file) => facts_at(alloc, files, file.as_str(), false, query),
        Err(NoMemory) => Err(SideFault::NoMemory),
    }
}

/// The same of the side file of the trace of this name.
fn facts_where<F: Folder>(
    alloc: Global,
    files: &F,
    side: SideChoice<'_>,
    name: &str,
    query: &Query<'_>,
) -> Result<Option<SideFacts>, SideFault>
    ensures { IsReadIn (F.holds files.now) (place_of (side_of side.entry) name.now) query.now
        result }
{
    match side {
        SideChoice::Named { name } => facts_at(alloc, files, name, true, query),
        SideChoice::Beside if !is_input(name) => facts_beside(alloc, files, name, query),
        SideChoice::Beside | SideChoice::Nowhere => Ok(None),
    }
}

/// What the side file of the trace tells of the rows of its chart.
#[tactic(auto, using(crate::proofs::ChartSideSteps::sides))]
pub(crate) fn side_of_chart<F: Folder>(
    alloc: Global,
    files: &F,
    call: &ChartCall<'_>,
    chart: &Chart,
) -> Result<Option<SideFacts>, SideFault>
    ensures { IsSideOf (F.holds files.now) (chart_of call.now) chart.now result }
{
    let Ok(numbers) = row_numbers(alloc, chart) else {
        return Err(SideFault::NoMemory);
    };
    let query = Query {
        events: numbers.as_slice(),
        notes: &[],
        lines: &[],
    };
    facts_where(alloc, files, call.side, call.trace, &query)
}
