use crate::line_text::LineText;
use ace_grammar::Reason;

/// A malformed line of a trace.
#[derive(Clone, Copy)]
pub struct BadLine {
    /// Its number, from 1.
    pub number: u64,
    /// The least reason that applies.
    pub reason: Reason,
    /// The version of the trace, and 1 where its first line names none.
    pub version: u8,
    /// The line, up to its line feed or its end, and 256 bytes of it at most.
    pub line: LineText,
}
