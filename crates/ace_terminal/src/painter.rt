// A sink that paints what it is given.
ghost use Rattle.std.specs.Prelude.{◌≡◌, ℕ, IfOk, OnErr, take, true};
ghost use Rattle.std.specs.Io.KnownBytes.{Appends};
ghost use Rattle.ace_io.specs.Faults.{HasCause, Gives};
ghost use Rattle.ace_terminal.specs.Painters.{Shows};

use crate::painting::paint;
use ace_io::{Failed, Sink, give_all};
use std::alloc::Global;

/// Gives a sink what it is given: painted, or, where it doesn't paint, as it is. Where there is no
/// memory for a painted piece, that is given as it is too. A piece is painted by itself: where a
/// line comes in two pieces, each is painted as a line.
#[derive(Drop)]
pub struct Painter<K> {
    inner: K,
    paints: bool,
    alloc: Global,
}

impl<K> Painter<K> {
    ghost use Rattle.ace_terminal.specs.Painters.{is_painting, sink_of};

    /// A painter before this sink.
    pub fn new(alloc: Global, inner: K, paints: bool) -> Painter<K>
        ensures sink { sink_of result ≡ inner }
        ensures paints { is_painting result ≡ paints }
    {
        Painter {
            inner,
            paints,
            alloc,
        }
    }

    /// The sink.
    pub fn sink(&self) -> &K
        ensures { result.now ≡ sink_of self.now }
    {
        &self.inner
    }
}

/// Gives the whole text, which shows so many bytes, and says how many those are.
fn give_shown<K: Sink>(sink: &mut K, text: &[u8], count: usize) -> Result<usize, Failed>
    ensures count { IfOk result (λ n. n ≡ count) }
    ensures whole { IfOk result (λ n. Appends (K.held sink.old) (K.held sink.new) text.now) }
    ensures part { OnErr result ((n : ℕ) × Appends (K.held sink.old) (K.held sink.new)
        (take n text.now)) }
    ensures cause { HasCause (K.faults sink.old) (K.faults sink.new) result }
{
    if give_all(sink, text) < text.len() {
        return Err(Failed);
    }
    Ok(count)
}

/// Gives the piece painted.
fn give_painted<K: Sink>(alloc: Global, sink: &mut K, piece: &[u8]) -> Result<usize, Failed>
    ensures shows { Shows (K.held sink.old) (K.held sink.new) result piece.now }
    ensures cause { HasCause (K.faults sink.old) (K.faults sink.new) result }
{
    match paint(alloc, piece) {
        Ok(text) => give_shown(sink, text.as_slice(), piece.len()),
        Err(_) => give_shown(sink, piece, piece.len()),
    }
}

impl<K: Sink> Sink for Painter<K> {
    ghost use Rattle.ace_terminal.specs.Painters.{given_to, is_painting, sink_of};

    ghost held = { given_to K.held };

    ghost faults = { λ p. K.faults (sink_of p) };

    /// All of the piece where it paints, and else what its sink takes.
    fn give(&mut self, piece: &[u8]) -> Result<usize, Failed>
        ensures bytes { Gives (given_to K.held self.old) (given_to K.held self.new) result
            piece.now }
        ensures cause { HasCause (K.faults (sink_of self.old)) (K.faults (sink_of self.new))
            result }
        ensures painted { is_painting self.old ≡ true
            → Shows (K.held (sink_of self.old)) (K.held (sink_of self.new)) result piece.now }
        ensures steady { is_painting self.new ≡ is_painting self.old }
    {
        if self.paints {
            give_painted(self.alloc, &mut self.inner, piece)
        } else {
            self.inner.give(piece)
        }
    }
}
