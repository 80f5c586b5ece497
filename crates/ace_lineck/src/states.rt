//! The states in which the ports have a line.

ghost use Rattle.std.specs.Prelude.{◌≡◌};
ghost use Rattle.ace_lineck.specs.States.{state_at, IsInState};

use ace_codes::LineState;

/// The state in which the port has the line: a port that isn't there doesn't have it.
#[inline(always)]
pub fn state_at(states: &[LineState; 32], port: u8) -> LineState
    ensures { result ≡ state_at states.now port }
{
    match states.get(usize::from(port)) {
        Some(state) => *state,
        None => LineState::I,
    }
}

/// The port has the line in this state. A port that isn't there has none.
#[inline(always)]
pub fn set_state(states: &mut [LineState; 32], port: u8, st: LineState)
    ensures { IsInState states.old states.new port st }
{
    if usize::from(port) < 32 {
        states[usize::from(port)] = st;
    }
}
