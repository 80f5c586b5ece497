use ace_codes::LineState;
use ace_event::{Event, Header};
use ace_model::Transaction;

/// What there is of a line at a point of a trace.
#[derive(Clone, Copy, Debug, PartialEq, Eq)]
pub struct Look {
    /// The state in which each port has the line, by the number of the port.
    pub states: [LineState; 32],
    /// The transaction that is granted on the line.
    pub granted: Option<Transaction>,
    /// Memory lacks the newest value of the line.
    pub behind: bool,
}

/// Which transfers of a burst are told of: those from one to another, numbered from 1.
#[derive(Clone, Copy, Debug, PartialEq, Eq)]
pub struct Burst {
    pub first: u8,
    pub last: u8,
    /// How many the burst has.
    pub beats: u8,
}

/// Which value of its line an event carries, makes or finds.
#[derive(Clone, Copy, Debug, PartialEq, Eq)]
pub enum Version {
    /// That behind so many stores to the line; behind none it is what the line opens with.
    Known { stores: u64 },
    /// None that the line has had.
    Unknown,
}

/// An event of the line, or transfers of one burst one after another, and what there was of the
/// line before.
#[derive(Clone, Copy, Debug, PartialEq, Eq)]
pub struct Row {
    /// The number of the event in its trace, from 1, or of the first transfer.
    pub number: u64,
    /// The number of the last transfer; that of the event, where it is alone.
    pub last: u64,
    /// The event, or the first transfer.
    pub event: Event,
    /// Which transfers of a burst they are, if they are some.
    pub burst: Option<Burst>,
    /// Which value of the line that is drawn the data are, if it is told.
    pub version: Option<Version>,
    /// The transaction that it begins or belongs to.
    pub serves: Option<Transaction>,
    /// What there was of the line before it.
    pub look: Look,
    /// How many events of the line are left out between the row before and this one.
    pub left_out: u64,
}

/// What is drawn of a trace.
#[derive(Drop)]
pub struct Chart {
    /// The header of the trace.
    pub header: Header,
    /// The line whose bars are drawn, if there is one.
    pub line: Option<u32>,
    /// The events, in order.
    pub rows: Vec<Row>,
    /// How many events of the line are left out behind them.
    pub left_out: u64,
    /// The event that breaks a rule, behind all these.
    pub stop: Option<Row>,
    /// The least rule that it breaks, from 1 to 40.
    pub rule: Option<u8>,
    /// What there is of the line at the end.
    pub last: Look,
}
