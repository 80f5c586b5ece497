// A source whose first bytes were looked at.
ghost use Rattle.std.specs.Prelude.{◌≡◌, ◌<◌, ◌≤◌, ◌+◌, List, ℕ, None, length, option_to_list, IfOk, OnErr};
ghost use Rattle.std.specs.Io.KnownBytes.{Consumes, IsAtEnd, Keeps};
ghost use Rattle.ace_io.specs.Faults.{HasCause, Takes};

use ace_io::{Failed, Source};
use arrayvec::ArrayVec;

/// How many bytes are looked at.
pub(crate) const FRONT: usize = 4;

/// The next byte of the source, if it has one left.
fn next_byte<S: Source>(source: &mut S) -> Result<Option<u8>, Failed>
    ensures taken { IfOk result
        (λ byte. Consumes (S.left source.old) (S.left source.new) (option_to_list byte)) }
    ensures end { IfOk result (λ byte. byte ≡ None → IsAtEnd (S.left source.new)) }
    ensures kept { OnErr result (Keeps (S.left source.old) (S.left source.new)) }
    ensures cause { HasCause (S.faults source.old) (S.faults source.new) result }
{
    let mut byte = [0];
    match source.take(&mut byte) {
        Ok(0) => Ok(None),
        Ok(_) => Ok(Some(byte[0])),
        Err(failed) => Err(failed),
    }
}

/// Takes the first bytes of the source: four, if it has as many.
#[tactic(auto, using(crate::proofs::Peeking::peeking))]
pub(crate) fn take_front<S: Source>(source: &mut S) -> Result<ArrayVec<u8, FRONT>, Failed>
    ensures taken { IfOk result
        (λ front. Consumes (S.left source.old) (S.left source.new) front.items) }
    ensures whole { IfOk result (λ front. length front.items < 4 → IsAtEnd (S.left source.new)) }
    ensures cause { HasCause (S.faults source.old) (S.faults source.new) result }
{
    let mut front = ArrayVec::new();
    while !front.is_full() {
        match next_byte(source) {
            Ok(Some(byte)) => front.push(byte),
            Ok(None) => return Ok(front),
            Err(failed) => return Err(failed),
        }
    }
    Ok(front)
}

/// Gives the first bytes of a source, which were taken from it, and then the others.
#[derive(Drop)]
pub(crate) struct Peeked<'a, S: Source> {
    source: &'a mut S,
    front: ArrayVec<u8, FRONT>,
    given: usize,
    ghost given_in_range: { given ≤ length front.items },
}

impl<'a, S: Source> Peeked<'a, S> {
    ghost use Rattle.ace_tool.specs.Peeked.{front_of, source_of};

    /// The source behind these bytes.
    pub(crate) fn new(source: &'a mut S, front: ArrayVec<u8, FRONT>) -> Peeked<'a, S>
        ensures same_source { (source_of result).ghost_name ≡ source.entry.ghost_name }
        ensures source { (source_of result).now ≡ source.entry.now }
        ensures front { front_of result ≡ front.items }
    {
        Peeked {
            source,
            front,
            given: 0,
        }
    }

    /// The bytes that were taken from the source, and not given.
    #[tactic(auto, using(crate::proofs::Peeking::rests))]
    fn rest(&self) -> &[u8]
        ensures value { result.now ≡ front_of self.now }
        ensures fits { length result.now + self.now.given ≤ 4 }
    {
        &self.front.as_slice()[self.given..]
    }
}

impl<'a, S: Source> Source for Peeked<'a, S> {
    ghost use Rattle.ace_tool.specs.Peeked.{left_of, source_of};

    ghost left = { left_of S.left };

    ghost faults = { λ p. S.faults (source_of p).now };

    fn take(&mut self, into: &mut [u8]) -> Result<usize, Failed>
        requires { 0 < length into.old }
        ensures bytes { Takes (left_of S.left self.old) (left_of S.left self.new) result into.new }
        ensures cause { HasCause (S.faults (source_of self.old).now) (S.faults
            (source_of self.new).now) result }
    {
        let front = self.rest();
        if front.is_empty() {
            return self.source.take(into);
        }
        let count = front.len().min(into.len());
        into[..count].copy_from_slice(&front[..count]);
        self.given += count;
        Ok(count)
    }
}
