// What the side file of a refused trace tells.
ghost use Rattle.std.specs.Prelude.{◌≡◌, ◌++◌, ◌≢◌, codes, false, IfErr, IfOk, IfSome, option_to_list};
ghost use Rattle.ace_side_facts.specs.Facts.{TellsOf};
ghost use Rattle.ace_tool.specs.Beside.{IsBeside, IsReadAt, IsToldOf, TellsAt, TellsIn, TellsOfFinding};
ghost use Rattle.ace_tool.specs.Reports.{fault_text};
ghost use Rattle.ace_tool.specs.Sides.{IsFoundIn, place_of};
ghost use Rattle.ace_tool.specs.Told.{explain_of, side_of};
ghost use Rattle.ace_tool.specs.declared.side.SideFound.TheVariants.{Faulty};
ghost use Rattle.ace_tool.specs.declared.folder.OpenErr.{OpenErr};
ghost use Rattle.ace_tool.specs.declared.side.SideFault.TheVariants.{Shut};

use crate::check_options::SideChoice;
use crate::check_words::is_input;
use crate::explain_words::{ExplainCall, Form};
use crate::finding::Finding;
use crate::folder::Folder;
use crate::side::{SideFault, fault_of, name_beside};
use crate::side_text::fault_text;
use ace_explanation::{Explanation, Refusal, shown_events};
use ace_io::{NoMemory, Source};
use ace_malformed::push;
use ace_side_facts::{Query, SideFacts, read_facts};
use std::alloc::Global;
use std::slice::from_ref;

/// What a side file that the source gives tells of what is asked.
fn facts_in<S: Source>(
    alloc: Global,
    source: &mut S,
    query: &Query<'_>,
) -> Result<SideFacts, SideFault>
    ensures told { IfOk result (λ f. IfSome (S.left source.old) (λ bytes. TellsOf query.now bytes
        f)) }
    ensures fault { IfErr result (λ fault. IfSome (S.left source.old) (λ bytes. IsFoundIn bytes
        (Faulty fault))) }
    ensures opened { IfErr result (λ fault. (error : OpenErr) → fault ≢ Shut error) }
{
    match read_facts(alloc, source, query) {
        Ok(facts) => Ok(facts),
        Err(error) => Err(fault_of(error)),
    }
}

/// The same of the file of this name; nothing where it isn't there and needn't be.
fn facts_at<F: Folder>(
    alloc: Global,
    files: &F,
    name: &str,
    has_to_be: bool,
    query: &Query<'_>,
) -> Result<Option<SideFacts>, SideFault>
    ensures { IsReadAt (F.holds files.now name.now) has_to_be query.now result }
{
    match files.open(name) {
        Ok(mut file) => match facts_in(alloc, &mut file, query) {
            Ok(facts) => Ok(Some(facts)),
            Err(fault) => Err(fault),
        },
        Err(error) => {
            if !has_to_be && error.is_absence() {
                Ok(None)
            } else {
                Err(SideFault::Shut { error })
            }
        }
    }
}

/// Why a side file of this name can't be read.
fn fault_words(alloc: Global, name: &str, fault: SideFault) -> Result<Vec<u8>, NoMemory>
    ensures { IfOk result (λ text. text.items ≡ name.now ++ fault_text fault) }
{
    let mut text = Vec::new(alloc);
    push(&mut text, name.as_bytes())?;
    push(&mut text, fault_text(fault).as_bytes())?;
    Ok(text)
}

/// What is told by what was read in the file of this name.
fn told_of(
    alloc: Global,
    name: &str,
    read: Result<Option<SideFacts>, SideFault>,
) -> Result<SideFacts, NoMemory>
    ensures { IfOk result (IsToldOf name.now read) }
{
    match read {
        Ok(Some(facts)) => Ok(facts),
        Ok(None) => Ok(SideFacts::none(alloc)),
        Err(fault) => {
            let words = fault_words(alloc, name, fault)?;
            Ok(SideFacts::silent(alloc, words))
        }
    }
}

/// The line, if there is one.
fn some_line(line: &Option<u32>) -> &[u32]
    ensures { result.now ≡ option_to_list line.now }
{
    match line {
        Some(line) => from_ref(line),
        None => &[],
    }
}

/// What the file of this name tells of the refused trace.
#[tactic(auto, using(crate::proofs::BesideSteps::beside))]
fn facts_in_place<F: Folder>(
    alloc: Global,
    files: &F,
    name: &str,
    has_to_be: bool,
    refusal: &Refusal,
) -> Result<SideFacts, NoMemory>
    ensures { IfOk result
        (TellsAt (F.holds files.now name.now) name.now has_to_be refusal.now) }
{
    let events = shown_events(alloc, refusal)?;
    let note = [refusal.index];
    let query = Query {
        events: events.as_slice(),
        notes: &note,
        lines: some_line(&refusal.led.line),
    };
    let read = facts_at(alloc, files, name, has_to_be, &query);
    told_of(alloc, name, read)
}

/// What the file beside the refused trace of this name tells of it.
fn facts_beside_it<F: Folder>(
    alloc: Global,
    files: &F,
    name: &str,
    refusal: &Refusal,
) -> Result<SideFacts, NoMemory>
    ensures { IfOk result (TellsAt (F.holds files.now (name.now ++ codes ".side"))
        (name.now ++ codes ".side") false refusal.now) }
{
    let file = name_beside(alloc, name)?;
    facts_in_place(alloc, files, file.as_str(), false, refusal)
}

/// What the side file of the refused trace of this name tells of it.
fn facts_of_refusal<F: Folder>(
    alloc: Global,
    files: &F,
    side: SideChoice<'_>,
    name: &str,
    refusal: &Refusal,
) -> Result<SideFacts, NoMemory>
    ensures { IfOk result (TellsIn (F.holds files.now) (place_of (side_of side.entry) name.now)
        refusal.now) }
{
    match side {
        SideChoice::Named { name } => facts_in_place(alloc, files, name, true, refusal),
        SideChoice::Beside if !is_input(name) => facts_beside_it(alloc, files, name, refusal),
        SideChoice::Beside | SideChoice::Nowhere => Ok(SideFacts::none(alloc)),
    }
}

/// What the side file of a trace tells of what was found of it.
fn facts_of_finding<F: Folder>(
    alloc: Global,
    files: &F,
    call: &ExplainCall<'_>,
    finding: &Finding,
) -> Result<SideFacts, NoMemory>
    ensures { IfOk result (TellsOfFinding (F.holds files.now) (explain_of call.now) finding.now) }
{
    match finding {
        Finding::Explained {
            explanation: Explanation::Refused { refusal },
        } => facts_of_refusal(alloc, files, call.options.side, call.trace, refusal),
        _ => Ok(SideFacts::none(alloc)),
    }
}

/// What is told beside what was found of a trace.
///
/// # Errors
///
/// `NoMemory` where there is none for that.
pub(crate) fn facts_beside<F: Folder>(
    alloc: Global,
    files: &F,
    call: &ExplainCall<'_>,
    finding: &Finding,
) -> Result<SideFacts, NoMemory>
    ensures { IfOk result (IsBeside (F.holds files.now) (explain_of call.now) call.now.form
        finding.now) }
{
    match call.form {
        Form::Whole | Form::Json => facts_of_finding(alloc, files, call, finding),
        Form::Short => Ok(SideFacts::none(alloc)),
    }
}
