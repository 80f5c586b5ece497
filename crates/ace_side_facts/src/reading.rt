// A side file is read once for what is asked of it.
ghost use Rattle.std.specs.Prelude.{◌≡◌, ℕ, [], List, Option, IfErr, IfOk, IfSome};
ghost use Rattle.ace_side.specs.Reader.{HasRead, stage_of};
ghost use Rattle.ace_side.specs.declared.stage.Stage.TheVariants.{Reading};
ghost use Rattle.ace_side_facts.specs.Facts.{IsUnread, TellsOf};
ghost use Rattle.ace_side_facts.specs.Gathered.{Stands};

use crate::gathering::Gathering;
use crate::{Query, SideFacts};
use ace_io::{NoMemory, Source};
use ace_side::{SideErr, SideReader};
use std::alloc::Global;

/// Reads the lines of a side file to its end. More than can be counted want more memory than there
/// is.
#[tactic(auto, using(crate::proofs::Lines::lines))]
fn read_lines<S: Source>(
    reader: &mut SideReader<S>,
    query: &Query<'_>,
    mut gathered: Gathering,
) -> Result<SideFacts, SideErr>
    requires reads_on { stage_of reader.old ≡ Reading }
    requires nothing { Stands query.now [] gathered }
    ensures facts { (first : Option (List ℕ)) → HasRead S.left first [] reader.old
        → IfOk result (λ f. IfSome first (λ bytes. TellsOf query.now bytes f)) }
    ensures unread { (first : Option (List ℕ)) → HasRead S.left first [] reader.old
        → IfErr result (λ e. IfSome first (λ bytes. IsUnread bytes e)) }
{
    'lines: for _ in 0..u64::MAX {
        let end = reader.ending();
        match reader.next() {
            Ok(Some(line)) => match gathered.hear(query, line) {
                Ok(()) => {}
                Err(NoMemory) => return Err(SideErr::NoMemory),
            },
            Ok(None) => {
                return match gathered.finish(end) {
                    Ok(facts) => Ok(facts),
                    Err(NoMemory) => Err(SideErr::NoMemory),
                };
            }
            Err(error) => return Err(error),
        }
    }
    Err(SideErr::NoMemory)
}

/// What a side file that the source gives tells of what is asked. It is read once, and what is kept
/// of it grows with what is asked, beside the ports and addresses that it names.
///
/// # Errors
///
/// `Malformed` where a line is malformed, with the number of the first and its reason; `ReadFault`
/// where the source failed; `NoMemory`.
pub fn read_facts<S: Source>(
    alloc: Global,
    source: &mut S,
    query: &Query<'_>,
) -> Result<SideFacts, SideErr>
    ensures facts { IfOk result (λ f. IfSome (S.left source.old) (λ bytes. TellsOf query.now bytes
        f)) }
    ensures unread { IfErr result (λ e. IfSome (S.left source.old) (λ bytes. IsUnread bytes e)) }
{
    let Ok(gathered) = Gathering::new(alloc, query) else {
        return Err(SideErr::NoMemory);
    };
    match SideReader::start(alloc, source) {
        Ok(mut reader) => {
            let facts = read_lines(&mut reader, query, gathered);
            drop(reader);
            facts
        }
        Err(failed) => Err(failed.error),
    }
}
