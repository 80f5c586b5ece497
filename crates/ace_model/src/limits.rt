//! How much a checker keeps of one trace.

/// The most lines that the transactions of a trace may name.
pub const MOST_LINES: usize = 4096;

/// The most snoops that a run may have at one port.
pub const MOST_SNOOPS: usize = 24576;
