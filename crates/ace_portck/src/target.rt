//! How far a transaction has come, and the data of a write.

use ace_event::Line;
use ace_model::Transaction;

/// A transaction, and how far it has come.
#[derive(Clone, Copy, Debug, PartialEq, Eq)]
pub struct Progress {
    pub transaction: Transaction,
    /// How many R transfers it has had.
    pub transfers: u8,
    /// The response of the first of them; 0 before it.
    pub response: u8,
    /// It has had its last R, or its B.
    pub complete: bool,
    /// It has had its G.
    pub granted: bool,
    /// It has had its M.
    pub written: bool,
    /// It is a MakeUnique that has had its D.
    pub stored: bool,
}

/// The whole burst of a write: the four strobes as one strobe of the line, and the four words.
#[derive(Clone, Copy, Debug, PartialEq, Eq)]
pub struct WriteData {
    pub strobe: u64,
    pub line: Line,
}
