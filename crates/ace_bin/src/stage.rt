// How far a reader has come.
use crate::BinErr;

/// How far a reader has come.
#[derive(Clone, Copy)]
pub enum Stage {
    /// It reads on.
    Reading,
    /// It has read the whole trace.
    Ended,
    /// It has met this error.
    Failed(BinErr),
}
