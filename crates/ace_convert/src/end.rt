// How the reading of a trace ends.
ghost use Rattle.std.specs.Prelude.{◌≡◌};
ghost use Rattle.ace_convert.specs.Ends.{of_text, of_binary, text_end, binary_end};

use ace_bin::{BinErr, BinReason};
use ace_grammar::{ReadErr, Reason};

/// How the reading of a trace ends.
#[derive(Clone, Copy, Debug, PartialEq, Eq)]
pub enum TraceEnd {
    /// At the end of a whole trace.
    Whole,
    /// Before this line, counted from 1, the first that is outside the grammar, for this reason.
    BadLine { line: u64, reason: Reason },
    /// Behind so many bytes, before the first header or record that is malformed, for this reason.
    BadRecord { byte: u64, reason: BinReason },
    /// After as many events as a trace may have, where the input goes on.
    Full,
    /// Where the input failed.
    ReadFault,
    /// Before it began, since there was no memory for it.
    NoMemory,
}

/// How it ends where a trace of text can't be read on.
pub fn text_end(error: ReadErr) -> TraceEnd
    ensures { result ≡ text_end error }
{
    match error {
        ReadErr::Malformed { line, reason } => TraceEnd::BadLine { line, reason },
        ReadErr::TooManyEvents => TraceEnd::Full,
        ReadErr::ReadFault => TraceEnd::ReadFault,
        ReadErr::NoMemory => TraceEnd::NoMemory,
    }
}

/// The same of a binary trace.
pub fn binary_end(error: BinErr) -> TraceEnd
    ensures { result ≡ binary_end error }
{
    match error {
        BinErr::Malformed { byte, reason } => TraceEnd::BadRecord { byte, reason },
        BinErr::TooManyEvents => TraceEnd::Full,
        BinErr::ReadFault => TraceEnd::ReadFault,
    }
}

/// Whether there was an event of a text, or how its reading ends, by the answer of its reader.
#[inline(always)]
pub fn of_text(next: Result<Option<()>, ReadErr>) -> Result<(), TraceEnd>
    ensures { result ≡ of_text next }
{
    match next {
        Ok(Some(())) => Ok(()),
        Ok(None) => Err(TraceEnd::Whole),
        Err(error) => Err(text_end(error)),
    }
}

/// The same of a binary trace.
#[inline(always)]
pub fn of_binary(next: Result<Option<()>, BinErr>) -> Result<(), TraceEnd>
    ensures { result ≡ of_binary next }
{
    match next {
        Ok(Some(())) => Ok(()),
        Ok(None) => Err(TraceEnd::Whole),
        Err(error) => Err(binary_end(error)),
    }
}
