// A source over bytes that are lent to it.
ghost use Rattle.std.specs.Prelude.{◌≡◌, ◌<◌, List, ℕ, Some, Ok, length, min};
ghost use Rattle.ace_io.specs.Faults.{HasCause, Takes};

use crate::{Failed, Source};
use std::marker::Model;

/// The bytes of a slice, as many at once as fit. It never fails.
#[derive(Drop)]
pub struct HonestSource<'a> {
    bytes: &'a [u8],
}

impl<'a> Model for HonestSource<'a> {
    ghost Value = { List ℕ };

    ghost view = { λ s. s.bytes.now };
}

impl<'a> HonestSource<'a> {
    /// A source of these bytes, none of them given yet.
    pub fn new(bytes: &'a [u8]) -> HonestSource<'a>
        ensures { result ≡ bytes.entry.now }
    {
        HonestSource { bytes }
    }
}

impl<'a> Source for HonestSource<'a> {
    ghost left = { λ s. Some s };

    ghost faults = { λ _. 0 };

    /// As many of the bytes as fit into the slice.
    fn take(&mut self, into: &mut [u8]) -> Result<usize, Failed>
        requires { 0 < length into.old }
        ensures bytes { Takes (Some self.old) (Some self.new) result into.new }
        ensures cause { HasCause 0 0 result }
        ensures count { result ≡ Ok (min (length self.old) (length into.old)) }
    {
        let count = self.bytes.len().min(into.len());
        let (front, rest) = self.bytes.split_at(count);
        into[..count].copy_from_slice(front);
        self.bytes = rest;
        Ok(count)
    }
}
