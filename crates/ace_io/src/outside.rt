// The traits through which everything outside is reached, each with its meaning and its count of
// faults.
ghost use Rattle.std.specs.Prelude.{◌<◌, List, Option, ℕ, length};
ghost use Rattle.ace_io.specs.Faults.{HasCause, Takes, Gives};

use thiserror::Error;

/// The source or the sink failed.
#[derive(Clone, Copy, Debug, PartialEq, Eq, Error)]
#[error("the input or output failed")]
pub struct Failed;

/// There was no memory.
#[derive(Clone, Copy, Debug, PartialEq, Eq, Error)]
#[error("out of memory")]
pub struct NoMemory;

/// What gives bytes.
pub trait Source {
    /// The bytes that are left, where they are told.
    ghost left: { Self → Option (List ℕ) };

    /// How often it has failed. The count never falls, and may stop at 18446744073709551615.
    ghost faults: { Self → ℕ };

    /// Moves the first of the bytes that are left into the front of the slice, which isn't empty,
    /// and says how many. None moved is the end of the bytes.
    ///
    /// # Errors
    ///
    /// `Failed` only where the count of faults rose in this call, or stood at its last value
    /// before. No byte was taken then.
    fn take(&mut self, into: &mut [u8]) -> Result<usize, Failed>
        requires { 0 < length into.old }
        ensures bytes { Takes (left self.old) (left self.new) result into.new }
        ensures cause { HasCause (faults self.old) (faults self.new) result };
}

/// What takes bytes.
pub trait Sink {
    /// The bytes that it holds, where they are told.
    ghost held: { Self → Option (List ℕ) };

    /// How often it has failed. The count never falls, and may stop at 18446744073709551615.
    ghost faults: { Self → ℕ };

    /// Appends the front of the piece, and says how many bytes: at least one of a piece that isn't
    /// empty.
    ///
    /// # Errors
    ///
    /// `Failed` only where the count of faults rose in this call, or stood at its last value
    /// before. Nothing was appended then.
    fn give(&mut self, piece: &[u8]) -> Result<usize, Failed>
        ensures bytes { Gives (held self.old) (held self.new) result piece.now }
        ensures cause { HasCause (faults self.old) (faults self.new) result };
}

/// What a worker passes before each of its turns.
pub trait Gate {
    /// Called without any lock, with the worker's port and the number of its turn. It returns
    /// nothing, and changes nothing that a contract names.
    fn pass(&self, port: u8, turn: u32);
}

/// A gate that returns at once.
#[derive(Drop)]
pub struct Free;

impl Gate for Free {
    fn pass(&self, _port: u8, _turn: u32) {}
}
