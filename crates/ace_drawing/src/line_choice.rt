// Chooses the line that is drawn.
ghost use Rattle.std.specs.Prelude.{IfOk};
ghost use Rattle.ace_drawing.specs.Lines.{IsLineOf};
ghost use Rattle.ace_event.specs.Ports.{IsHeader};

use ace_chart_rows::chosen_line;
use ace_event::{Event, Header};
use ace_io::NoMemory;
use std::alloc::Global;

/// Which line of a trace is drawn.
#[derive(Clone, Copy)]
pub enum LineChoice {
    /// That of the event that breaks a rule, or else the first line.
    Chosen,
    /// All lines, without bars.
    All,
    /// The line of this address.
    Line { addr: u32 },
}

/// The line of these events that is drawn; None where all are.
pub(crate) fn line_of(
    alloc: Global,
    choice: LineChoice,
    header: Header,
    events: &[Event],
) -> Result<Option<u32>, NoMemory>
    requires { IsHeader header }
    ensures { IfOk result (IsLineOf choice header events.now) }
{
    match choice {
        LineChoice::Chosen => chosen_line(alloc, header, events),
        LineChoice::All => Ok(None),
        LineChoice::Line { addr } => Ok(Some(addr)),
    }
}
