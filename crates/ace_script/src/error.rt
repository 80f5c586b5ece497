use crate::Reason;
use thiserror::Error;

/// Why a script could not be read as a plan.
#[derive(Clone, Copy, Debug, PartialEq, Eq, Error)]
pub enum PlanErr {
    /// The line of this number, from 1, is the first that is malformed, and of the reasons this is
    /// the least that applies. The header has the lines 1 to 4.
    #[error("a malformed line")]
    Malformed { line: u64, reason: Reason },
    /// The input goes on after 4,096 operations.
    #[error("more operations than a script may have")]
    TooManyOps,
    /// The source of the bytes failed.
    #[error("the input failed")]
    ReadFault,
    /// There was no memory for the plan.
    #[error("no memory")]
    NoMemory,
}
