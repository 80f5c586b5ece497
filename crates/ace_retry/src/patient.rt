//! A reader or a writer that is called again where its call was interrupted.

ghost use Rattle.std.specs.Prelude.{◌≡◌};

use std::io::{Error, ErrorKind, Read, Result, Write};

/// How often one call is made at most, where each is interrupted.
pub const TRIES: u32 = 1000;

/// A reader or a writer whose calls are made again where they fail with `ErrorKind::Interrupted`,
/// as those of a system do that a signal comes to: a call of it answers as the first call does that
/// isn't interrupted. After so many that are, it answers as the last one.
#[derive(Drop)]
pub struct Patient<T> {
    inner: T,
}

impl<T> Patient<T> {
    ghost use Rattle.ace_retry.specs.Patient.{inner_of};

    /// The same reader or writer, with patience.
    pub fn new(inner: T) -> Patient<T>
        ensures { inner_of result ≡ inner }
    {
        Patient { inner }
    }
}

/// A signal interrupted the call.
fn is_interrupted(error: &Error) -> bool {
    error.kind() == ErrorKind::Interrupted
}

impl<R: Read> Read for Patient<R> {
    ghost use Rattle.ace_retry.specs.Patient.{inner_of};

    ghost remaining = { λ p. R.remaining (inner_of p) };

    fn read(&mut self, buf: &mut [u8]) -> Result<usize> {
        for _try in 1..TRIES {
            match self.inner.read(buf) {
                Err(error) if is_interrupted(&error) => {}
                result => return result,
            }
        }
        self.inner.read(buf)
    }
}

impl<W: Write> Write for Patient<W> {
    ghost use Rattle.ace_retry.specs.Patient.{inner_of};

    ghost contents = { λ p. W.contents (inner_of p) };

    fn write(&mut self, buf: &[u8]) -> Result<usize> {
        for _try in 1..TRIES {
            match self.inner.write(buf) {
                Err(error) if is_interrupted(&error) => {}
                result => return result,
            }
        }
        self.inner.write(buf)
    }

    fn flush(&mut self) -> Result<()> {
        for _try in 1..TRIES {
            match self.inner.flush() {
                Err(error) if is_interrupted(&error) => {}
                result => return result,
            }
        }
        self.inner.flush()
    }
}
