use crate::BinReason;
use thiserror::Error;

/// Why a binary trace, or its next event, could not be read.
#[derive(Clone, Copy, Debug, PartialEq, Eq, Error)]
pub enum BinErr {
    /// The header or record behind so many bytes is malformed, and of the reasons this is the least
    /// that applies: `Z1` or `Z2` of the header, which stands at byte 0, and `Z1`, `Z3` or `Z4` of
    /// a record.
    #[error("a malformed header or record")]
    Malformed { byte: u64, reason: BinReason },
    /// The input goes on after 1,048,576 events.
    #[error("more events than a trace may have")]
    TooManyEvents,
    /// The source of the bytes failed.
    #[error("the input failed")]
    ReadFault,
}

/// Why a binary trace could not be written.
#[derive(Clone, Copy, Debug, PartialEq, Eq, Error)]
pub enum WriteErr {
    /// The sink of the bytes failed, in this call or in an earlier one.
    #[error("the output failed")]
    WriteFault,
}
