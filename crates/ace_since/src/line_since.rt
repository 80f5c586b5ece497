// Since when a line is as it is.
ghost use Rattle.std.specs.Prelude.{◌≡◌};
ghost use Rattle.ace_since.specs.Kept.{HasChanged, IsMoved, stay_after, stay_at, untouched};
ghost use Rattle.ace_tables.specs.States.{same_state};

use crate::change::Change;
use ace_codes::LineState;

/// The state in which a port has a line, and since when: the number of the event that changed it
/// last, or 0.
#[derive(Clone, Copy)]
pub struct Stay {
    pub state: LineState,
    pub since: u64,
}

/// Since when a line is as it is: the numbers of events, or 0 where none came.
#[derive(Clone, Copy, Drop)]
pub struct LineSince {
    /// At each port, by its number.
    pub ports: [Stay; 32],
    /// The last event that wrote its memory.
    pub memory: u64,
    /// The last event that granted it.
    pub grant: u64,
}

/// Of a port to which no line has come.
const NEVER: Stay = Stay {
    state: LineState::I,
    since: 0,
};

impl LineSince {
    /// Of a line of which nothing has changed.
    pub(crate) const UNTOUCHED: LineSince = LineSince {
        ports: [NEVER; 32],
        memory: 0,
        grant: 0,
    };
}

/// What is kept of the port: of one that isn't there nothing is.
pub(crate) fn stay_at(ports: &[Stay; 32], port: u8) -> Stay
    ensures { result ≡ stay_at ports.now port }
{
    match ports.get(usize::from(port)) {
        Some(stay) => *stay,
        None => NEVER,
    }
}

/// Both are the same state.
fn same_state(state: LineState, other: LineState) -> bool
    ensures { result ≡ same_state state other }
{
    match (state, other) {
        (LineState::I, LineState::I)
        | (LineState::UC, LineState::UC)
        | (LineState::UD, LineState::UD)
        | (LineState::SC, LineState::SC)
        | (LineState::SD, LineState::SD) => true,
        _ => false,
    }
}

/// A port has this state at the event of this number.
fn stay_after(number: u64, state: LineState, stay: Stay) -> Stay
    ensures { result ≡ stay_after number state stay }
{
    if same_state(state, stay.state) {
        stay
    } else {
        Stay {
            state,
            since: number,
        }
    }
}

/// The port has this state at the event of this number. A port that isn't there has none.
fn move_port(ports: &mut [Stay; 32], port: u8, state: LineState, number: u64)
    ensures { IsMoved ports.old ports.new port state number }
{
    if usize::from(port) < 32 {
        ports[usize::from(port)] = stay_after(number, state, stay_at(ports, port));
    }
}

/// The event of this number has changed this.
pub(crate) fn apply(x: &mut LineSince, change: Change, number: u64)
    ensures { HasChanged number change x.old x.new }
{
    match change {
        Change::State { port, state } => move_port(&mut x.ports, port, state, number),
        Change::Memory => x.memory = number,
        Change::Grant => x.grant = number,
    }
}
