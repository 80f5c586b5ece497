// What led to an event.
ghost use Rattle.std.specs.Prelude.{◌≤◌};

use crate::rows::{MOST_ROWS, Row};
use ace_event_words::Transfers;

/// What led to an event.
#[derive(Clone, Copy)]
pub struct Led {
    /// The last rows of its line, the newest first, and then any.
    pub rows: [Row; MOST_ROWS],
    /// How many of them there are.
    pub count: usize,
    /// The row of the event itself.
    pub own: Row,
    /// Which transfer the event is.
    pub transfers: Transfers,
    /// Its line, if it has one.
    pub line: Option<u32>,
    ghost few: { count ≤ 16 },
}
