use crate::Reason;
use thiserror::Error;

/// Why a side file could not be read on.
#[derive(Clone, Copy, Debug, PartialEq, Eq, Error)]
pub enum SideErr {
    /// The line of this number, from 1, is the first that is malformed, and of the reasons this is
    /// the least that applies. From 18446744073709551615 on each line counts as that of that
    /// number.
    #[error("a malformed line")]
    Malformed { line: u64, reason: Reason },
    /// The source of the bytes failed.
    #[error("the input failed")]
    ReadFault,
    /// There was no memory for what is kept of the lines.
    #[error("no memory")]
    NoMemory,
}

/// Why a line was not taken.
#[derive(Clone, Copy)]
pub enum LineErr {
    Malformed(Reason),
    NoMemory,
}
