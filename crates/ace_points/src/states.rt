// The state of a line at a port.
ghost use Rattle.std.specs.Prelude.{◌≡◌};
ghost use Rattle.ace_lineck.specs.Stands.{Stands as LinesTell};
ghost use Rattle.ace_model.specs.States.{state_of};
ghost use Rattle.ace_points.specs.Asked.{holds};
ghost use Rattle.ace_portck.specs.Targets.{Recording};

use ace_codes::LineState;
use ace_lineck::LineCheck;
use ace_tables::is_invalid;

/// The state in which the port holds the line.
pub(crate) fn state_at(lines: &LineCheck, port: u8, line: u32) -> LineState
    ensures { (r : Recording) → LinesTell lines.now r
        → result ≡ state_of r.header r.past port line }
{
    lines.state(lines.place(Some(line)), port)
}

/// The port holds the line.
pub(crate) fn holds(lines: &LineCheck, port: u8, line: u32) -> bool
    ensures { (r : Recording) → LinesTell lines.now r
        → result ≡ holds r.header r.past port line }
{
    !is_invalid(state_at(lines, port, line))
}
