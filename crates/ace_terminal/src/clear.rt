// A sink that clears the line that shows how far a call is.
ghost use Rattle.std.specs.Prelude.{◌≡◌};

use crate::shown_line::Progress;
use ace_io::{Failed, Sink};
use std::io::Eprint;
use std::time::Clock;

/// Gives a sink what it is given, once the line that is shown was cleared.
#[derive(Drop)]
pub struct Clearing<'a, K, R> {
    inner: K,
    progress: &'a Progress<'a, R>,
}

impl<'a, K, R: Clock + Eprint> Clearing<'a, K, R> {
    ghost use Rattle.ace_terminal.specs.Watching.{cleared_of};

    /// The sink behind this line.
    pub fn new(inner: K, progress: &'a Progress<'a, R>) -> Clearing<'a, K, R>
        ensures { cleared_of result ≡ inner }
    {
        Clearing { inner, progress }
    }
}

impl<'a, K: Sink, R: Clock + Eprint> Sink for Clearing<'a, K, R> {
    ghost use Rattle.ace_terminal.specs.Watching.{cleared_of};

    ghost held = { λ c. K.held (cleared_of c) };

    ghost faults = { λ c. K.faults (cleared_of c) };

    fn give(&mut self, piece: &[u8]) -> Result<usize, Failed> {
        self.progress.wipe();
        self.inner.give(piece)
    }
}
