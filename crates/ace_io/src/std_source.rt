// A source over any reader of std: the edge to the outside.
ghost use Rattle.std.specs.Prelude.{◌≡◌, ◌<◌, length, OnErr};
ghost use Rattle.ace_io.specs.Faults.{HasCause, Takes, raised};

use crate::counts::count_on;
use crate::{Failed, Source};
use std::io::Read;

/// The bytes of a reader. It tells the bytes that the reader tells, as one over memory does and
/// standard input doesn't. Each error of the reader is a fault.
#[derive(Drop)]
pub struct StdSource<R: Read> {
    inner: R,
    faults: u64,
}

impl<R: Read> StdSource<R> {
    ghost use Rattle.ace_io.specs.StdSource.{reader_of, source_faults};

    /// A source over this reader, without a fault so far.
    pub fn new(inner: R) -> StdSource<R>
        ensures inner { reader_of result ≡ inner }
        ensures faults { source_faults result ≡ 0 }
    {
        StdSource { inner, faults: 0 }
    }
}

impl<R: Read> Source for StdSource<R> {
    ghost use Rattle.ace_io.specs.StdSource.{reader_of, source_faults};

    ghost left = { λ s. R.remaining (reader_of s) };

    ghost faults = { source_faults };

    /// What one read of the reader gives. At its error the count of faults rises by one, or stands
    /// at its last value.
    fn take(&mut self, into: &mut [u8]) -> Result<usize, Failed>
        requires { 0 < length into.old }
        ensures bytes { Takes (R.remaining (reader_of self.old))
            (R.remaining (reader_of self.new)) result into.new }
        ensures cause { HasCause (source_faults self.old) (source_faults self.new) result }
        ensures raised { OnErr result (source_faults self.new ≡ raised (source_faults self.old)) }
    {
        match self.inner.read(into) {
            Ok(count) => Ok(count),
            Err(_) => {
                self.faults = count_on(self.faults);
                Err(Failed)
            }
        }
    }
}
