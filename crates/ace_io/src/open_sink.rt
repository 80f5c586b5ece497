// A sink that keeps nothing.
ghost use Rattle.std.specs.Prelude.{◌≡◌, None, Ok, length};
ghost use Rattle.ace_io.specs.Faults.{HasCause, Gives};

use crate::{Failed, Sink};

/// Takes every piece whole, and keeps nothing of it. It tells no bytes and never fails.
#[derive(Drop)]
pub struct OpenSink;

impl OpenSink {
    /// A sink that keeps nothing.
    pub fn new() -> OpenSink {
        OpenSink
    }
}

impl Sink for OpenSink {
    ghost held = { λ _. None };

    ghost faults = { λ _. 0 };

    /// The whole piece.
    fn give(&mut self, piece: &[u8]) -> Result<usize, Failed>
        ensures bytes { Gives None None result piece.now }
        ensures cause { HasCause 0 0 result }
        ensures whole { result ≡ Ok (length piece.now) }
    {
        Ok(piece.len())
    }
}
