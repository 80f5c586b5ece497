use crate::Reason;
use thiserror::Error;

/// Why a trace, or its next event, could not be read.
#[derive(Clone, Copy, Debug, PartialEq, Eq, Error)]
pub enum ReadErr {
    /// The line of this number, from 1, is the first that is malformed, and of the reasons this is
    /// the least that applies: `F1` or `F7` of the lines 1 and 2, which are those of the header,
    /// and `F1` to `F6` of the others.
    #[error("a malformed line")]
    Malformed { line: u64, reason: Reason },
    /// The input goes on behind the most events that the reader gives: 1,048,576, unless it was
    /// started within another number.
    #[error("more events than a trace may have")]
    TooManyEvents,
    /// The source of the bytes failed.
    #[error("the input failed")]
    ReadFault,
    /// There was no memory for a reader.
    #[error("no memory")]
    NoMemory,
}
