use ace_codes::LineState;
use ace_event::Line;
use ace_portck::Progress;

/// How far the snoop of a port has come under the grant of a line.
#[derive(Clone, Copy)]
pub enum SnoopBefore {
    /// The port wasn't snooped, or no transaction is granted.
    Unsnooped,
    /// It owes its answer.
    Unanswered,
    /// It answered with data, which aren't whole.
    Short,
    /// It answered, and its data are whole, if it sends any.
    Answered,
}

/// What there is of a line at a port.
#[derive(Clone, Copy)]
pub struct PortBefore {
    /// The state in which the port has the line.
    pub state: LineState,
    /// The number of the event that changed this state last, or 0.
    pub since: u64,
    /// What it has of its data.
    pub copy: Line,
    /// Its outstanding transaction on the line, and how far that has come.
    pub own: Option<Progress>,
    /// How far its snoop has come.
    pub snoop: SnoopBefore,
}

/// What there is of a line before an event.
#[derive(Clone, Copy)]
pub struct LineBefore {
    /// The address of the line.
    pub line: u32,
    /// What there is of it at each port, by the number of the port.
    pub ports: [PortBefore; 32],
    /// What memory has of it.
    pub memory: Line,
    /// The number of the event that wrote this, or 0.
    pub written: u64,
    /// The transaction that is granted on the line, and how far it has come.
    pub granted: Option<Progress>,
    /// The number of the last grant of the line, or 0.
    pub grant: u64,
    /// The dirty data that a snooped port passed for it, as long as they are under way.
    pub passed: Option<Line>,
}

/// No data.
const ZERO_LINE: Line = Line { words: [0; 4] };

impl PortBefore {
    /// Of a port that has nothing of the line.
    pub(crate) const NOTHING: PortBefore = PortBefore {
        state: LineState::I,
        since: 0,
        copy: ZERO_LINE,
        own: None,
        snoop: SnoopBefore::Unsnooped,
    };
}
