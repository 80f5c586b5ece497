// A source over bytes in memory, which come in pieces and with faults as it is told.
ghost use Rattle.std.specs.Prelude.{◌≡◌, ◌<◌, Some, length, is_ok, not, All, IfOk, OnErr};
ghost use Rattle.ace_io.specs.Faults.{HasCause, Takes, raised};
ghost use Rattle.ace_io.specs.MemSource.{fails_next, next_count};

use crate::counts::{count_on, names_call};
use crate::{Failed, NoMemory, Source};
use std::alloc::Global;
use std::marker::Model;

/// Bytes of its own, given in pieces of listed sizes in turn. The takes of a list fail.
///
/// Takes are numbered from 0; from 18446744073709551615 on each counts as the take of that number.
#[derive(Drop)]
pub struct MemSource {
    bytes: Vec<u8>,
    given: usize,
    pieces: Vec<usize>,
    fails: Vec<u32>,
    takes: u64,
    faults: u64,
}

impl Model for MemSource {
    ghost use Rattle.std.specs.Prelude.{drop};
    ghost use Rattle.ace_io.specs.MemSource.{SourceInMemory, GivesPieces};

    ghost Value = { SourceInMemory };

    ghost view = { λ s. record {
      left = drop s.given s.bytes.items;
      pieces = s.pieces.items;
      fails = s.fails.items;
      takes = s.takes;
      faults = s.faults;
    } };

    ghost invariant = { λ s. GivesPieces s.bytes.items s.given s.pieces.items };
}

impl MemSource {
    /// A source of a copy of these bytes. The take of number k, from 0, gives at most
    /// `pieces[k % pieces.len()]` bytes, and fails where `fails` names k.
    ///
    /// # Errors
    ///
    /// `NoMemory` where there is none for the copies.
    pub fn new(
        alloc: Global,
        bytes: &[u8],
        pieces: &[usize],
        fails: &[u32],
    ) -> Result<MemSource, NoMemory>
        requires some { 0 < length pieces.now }
        requires positive { All (λ piece. 0 < piece) pieces.now }
        ensures left { IfOk result (λ s. s.left ≡ bytes.now) }
        ensures pieces { IfOk result (λ s. s.pieces ≡ pieces.now) }
        ensures fails { IfOk result (λ s. s.fails ≡ fails.now) }
        ensures takes { IfOk result (λ s. s.takes ≡ 0) }
        ensures faults { IfOk result (λ s. s.faults ≡ 0) }
    {
        let bytes = bytes.to_vec(alloc).map_err(|_| NoMemory)?;
        let pieces = pieces.to_vec(alloc).map_err(|_| NoMemory)?;
        let fails = fails.to_vec(alloc).map_err(|_| NoMemory)?;
        Ok(MemSource {
            bytes,
            given: 0,
            pieces,
            fails,
            takes: 0,
            faults: 0,
        })
    }
}

impl Source for MemSource {
    ghost left = { λ s. Some s.left };

    ghost faults = { λ s. s.faults };

    /// The next piece, as far as it fits. The takes of the list fail, and the count of faults then
    /// rises by one, or stands at its last value.
    fn take(&mut self, into: &mut [u8]) -> Result<usize, Failed>
        requires { 0 < length into.old }
        ensures bytes { Takes (Some self.old.left) (Some self.new.left) result into.new }
        ensures cause { HasCause self.old.faults self.new.faults result }
        ensures fails { is_ok result ≡ not (fails_next self.old) }
        ensures count { IfOk result (λ n. n ≡ next_count self.old (length into.old)) }
        ensures raised { OnErr result (self.new.faults ≡ raised self.old.faults) }
        ensures takes { self.new.takes ≡ raised self.old.takes }
        ensures same_pieces { self.new.pieces ≡ self.old.pieces }
        ensures same_fails { self.new.fails ≡ self.old.fails }
    {
        let take = self.takes;
        self.takes = count_on(take);
        if names_call(&self.fails, take) {
            self.faults = count_on(self.faults);
            return Err(Failed);
        }
        let size = self.pieces[(take % self.pieces.len() as u64) as usize];
        let rest = &self.bytes[self.given..];
        let count = size.min(into.len()).min(rest.len());
        into[..count].copy_from_slice(&rest[..count]);
        self.given += count;
        Ok(count)
    }
}
