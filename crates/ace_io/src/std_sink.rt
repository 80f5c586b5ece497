// A sink over any writer of std: the edge to the outside.
ghost use Rattle.std.specs.Prelude.{◌≡◌, OnErr};
ghost use Rattle.ace_io.specs.Faults.{HasCause, Gives, raised};

use crate::counts::count_on;
use crate::{Failed, Sink};
use std::io::Write;

/// Hands bytes to a writer. It tells the bytes that the writer tells, as one over memory does and
/// standard output doesn't. Each error of the writer is a fault, and so is a write of nothing of a
/// piece that isn't empty.
#[derive(Drop)]
pub struct StdSink<W: Write> {
    inner: W,
    faults: u64,
}

impl<W: Write> StdSink<W> {
    ghost use Rattle.ace_io.specs.StdSink.{writer_of, sink_faults};

    /// A sink over this writer, without a fault so far.
    pub fn new(inner: W) -> StdSink<W>
        ensures inner { writer_of result ≡ inner }
        ensures faults { sink_faults result ≡ 0 }
    {
        StdSink { inner, faults: 0 }
    }
}

impl<W: Write> Sink for StdSink<W> {
    ghost use Rattle.ace_io.specs.StdSink.{writer_of, sink_faults};

    ghost held = { λ s. W.contents (writer_of s) };

    ghost faults = { sink_faults };

    /// What one write of the writer takes. At a fault the count rises by one, or stands at its last
    /// value.
    fn give(&mut self, piece: &[u8]) -> Result<usize, Failed>
        ensures bytes { Gives (W.contents (writer_of self.old))
            (W.contents (writer_of self.new)) result piece.now }
        ensures cause { HasCause (sink_faults self.old) (sink_faults self.new) result }
        ensures raised { OnErr result (sink_faults self.new ≡ raised (sink_faults self.old)) }
    {
        match self.inner.write(piece) {
            Ok(count) if count > 0 || piece.is_empty() => Ok(count),
            _ => {
                self.faults = count_on(self.faults);
                Err(Failed)
            }
        }
    }
}
