use ace_codes::LineState;
use ace_event::Line;

/// A line in a cache: its address, its state (Arm IHI 0022E, C1.2.3), its bytes, and whether a
/// transaction of the master on it is under way. A busy Way in state I keeps room for the line that
/// its transaction brings.
#[derive(Clone, Copy, Debug, PartialEq, Eq)]
pub struct Way {
    pub addr: u32,
    pub st: LineState,
    pub line: Line,
    pub busy: bool,
}
