// A text is given to a sink.
ghost use Rattle.std.specs.Prelude.{◌≡◌, ◌<◌, ◌≤◌, length, take};
ghost use Rattle.std.specs.Io.KnownBytes.{Appends};
ghost use Rattle.ace_io.specs.Faults.{Rose};

use crate::Sink;

/// Gives the text, piece by piece, up to its end or to a fault, and says how many bytes of it were
/// given.
pub fn give_all<K: Sink>(sink: &mut K, text: &[u8]) -> usize
    ensures fits { result ≤ length text.now }
    ensures given { Appends (K.held sink.old) (K.held sink.new) (take result text.now) }
    ensures whole { result ≡ length text.now → K.faults sink.new ≡ K.faults sink.old }
    ensures fault { result < length text.now → Rose (K.faults sink.old) (K.faults sink.new) }
    ensures later { K.faults sink.old ≤ K.faults sink.new }
{
    let mut given = 0;
    while given < text.len() {
        match sink.give(&text[given..]) {
            Ok(count) => given += count,
            Err(_) => break,
        }
    }
    given
}
