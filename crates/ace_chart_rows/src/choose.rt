// Chooses the line of a chart.
ghost use Rattle.std.specs.Prelude.{◌≡◌, ◌-◌, ◌^◌, [], None, IfOk};
ghost use Rattle.ace_chart_rows.specs.Choice.{IsChosen};
ghost use Rattle.ace_check.specs.Run.{StandsWithin};
ghost use Rattle.ace_event.specs.Ports.{IsHeader};
ghost use Rattle.ace_model.specs.Trace.{newer};

use crate::told::feed;
use ace_belongs::next_line;
use ace_check::Checker;
use ace_event::{Event, Header};
use ace_io::NoMemory;
use std::alloc::Global;

/// The first line, if there is one, or else the other.
fn first_of(first: Option<u32>, line: Option<u32>) -> Option<u32>
    ensures { result ≡ newer first line }
{
    match first {
        Some(first) => Some(first),
        None => line,
    }
}

/// Hears the events up to the first that breaks a rule. The line of that one; where there is none,
/// the first line.
fn find(checker: &mut Checker, header: &Header, events: &[Event]) -> Result<Option<u32>, NoMemory>
    requires stands { StandsWithin (2 ^ 64 - 1) checker.old header.now [] None }
    ensures { IfOk result (IsChosen header.now events.now) }
{
    let mut first = None;
    for event in events {
        let line = next_line(checker, event);
        match feed(checker, event) {
            Ok(None) => first = first_of(first, line),
            Ok(Some(_)) => return Ok(line),
            Err(NoMemory) => return Err(NoMemory),
        }
    }
    Ok(first)
}

/// The line that a chart of a trace is of where none is asked for: that of the first event that
/// breaks a rule, if it has one; of a trace without such an event the first line.
///
/// # Errors
///
/// `NoMemory` where there is none.
pub fn chosen_line(alloc: Global, header: Header, events: &[Event]) -> Result<Option<u32>, NoMemory>
    requires { IsHeader header }
    ensures { IfOk result (IsChosen header events.now) }
{
    match Checker::with_lines(alloc, header, usize::MAX) {
        Ok(mut checker) => find(&mut checker, &header, events),
        Err(_) => Err(NoMemory),
    }
}
