// What an event changes of its line.
ghost use Rattle.std.specs.Prelude.{◌≡◌};
ghost use Rattle.ace_lineck.specs.Stands.{Stands};
ghost use Rattle.ace_portck.specs.Targets.{Recording};
ghost use Rattle.ace_since.specs.Changes.{change_by, state_by};

use ace_codes::LineState;
use ace_event::Event;
use ace_lineck::LineCheck;

/// What an event may have changed of its line.
#[derive(Clone, Copy)]
pub enum Change {
    /// The state of the line at the port, which is this one now.
    State { port: u8, state: LineState },
    /// Memory was written.
    Memory,
    /// The line was granted.
    Grant,
}

/// The state of the line at the port.
fn state_by(lines: &LineCheck, line: u32, port: u8) -> Option<Change>
    ensures { (r : Recording) → Stands lines.now r → result ≡ state_by r.header r.past line port }
{
    Some(Change::State {
        port,
        state: lines.state(lines.place(Some(line)), port),
    })
}

/// What the last event of a trace may have changed of its line.
pub(crate) fn change_by(lines: &LineCheck, line: u32, event: &Event) -> Option<Change>
    ensures { (r : Recording) → Stands lines.now r
        → result ≡ change_by r.header r.past line event.now }
{
    match *event {
        Event::Rk { port, .. }
        | Event::Wk { port, .. }
        | Event::Cr { port, .. }
        | Event::S { port, .. }
        | Event::D { port, .. } => state_by(lines, line, port),
        Event::M { .. } | Event::Mem { .. } => Some(Change::Memory),
        Event::G { .. } => Some(Change::Grant),
        _ => None,
    }
}
