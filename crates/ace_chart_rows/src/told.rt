// What a checker tells of the trace that it stands for.
ghost use Rattle.std.specs.Prelude.{◌≡◌, ◌<◌, ◌-◌, ◌^◌, ℕ, Option, None, IfOk, length};
ghost use Rattle.ace_chart_rows.specs.Fed.{HasFed, rule_of};
ghost use Rattle.ace_chart_rows.specs.Looks.{look_on};
ghost use Rattle.ace_chart_rows.specs.Values.{values_of};
ghost use Rattle.ace_check.specs.Run.{StandsWithin};
ghost use Rattle.ace_event.specs.declared.header.Header.{Header};
ghost use Rattle.ace_journal.specs.Transfers.{transfers_in};
ghost use Rattle.ace_model.specs.Copies.{memory_of};
ghost use Rattle.ace_model.specs.Trace.{Trace};
ghost use Rattle.ace_model.specs.declared.breaks.Break.{Break};

use crate::looks::look_on;
use crate::values::Values;
use ace_chart::Look;
use ace_check::{Checker, Step};
use ace_event::{Event, Line};
use ace_event_words::Transfers;
use ace_io::NoMemory;

/// What there is of the line that is asked for, which had these values.
pub(crate) fn look_now(checker: &Checker, values: &Values, line: Option<u32>) -> Look
    ensures { (most : ℕ) (h : Header) (past : Trace) (b : Option Break)
        → StandsWithin most checker.now h past b
        → values.now.kept.items ≡ values_of h past line → result ≡ look_on h past line }
{
    look_on(checker.shares().lines(), values, line)
}

/// What memory has of the line.
pub(crate) fn memory_now(checker: &Checker, line: u32) -> Line
    ensures { (most : ℕ) (h : Header) (past : Trace) (b : Option Break)
        → StandsWithin most checker.now h past b → result ≡ memory_of past line }
{
    checker.shares().lines().memory(line)
}

/// Which of the transfers of its read, of its write or of a snooped line the next event is.
pub(crate) fn next_transfers(checker: &Checker, event: &Event) -> Transfers
    ensures { (most : ℕ) (h : Header) (past : Trace) (b : Option Break)
        → StandsWithin most checker.now h past b → result ≡ transfers_in h past event.now }
{
    ace_journal::next_transfers(checker.ports(), event)
}

/// The least rule that is broken, if one is.
fn rule_of(step: Step) -> Option<u8>
    ensures { result ≡ rule_of step }
{
    match step {
        Step::Fine => None,
        Step::Broken { rule, .. } => Some(rule),
    }
}

/// Hears the next event. The least rule that it breaks, if it breaks one.
pub(crate) fn feed(checker: &mut Checker, event: &Event) -> Result<Option<u8>, NoMemory>
    ensures { (h : Header) (past : Trace) → StandsWithin (2 ^ 64 - 1) checker.old h past None
        → length past < 2 ^ 64 - 2 → IfOk result (HasFed h past event.now checker.new) }
{
    match checker.feed(event) {
        Ok(step) => Ok(rule_of(step)),
        Err(_) => Err(NoMemory),
    }
}
