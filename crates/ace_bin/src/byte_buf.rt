// Bytes that wait to be given.
ghost use Rattle.std.specs.Prelude.{◌≡◌, ◌≤◌, ◌+◌, ◌++◌, [], List, ℕ, length, take};
ghost use Rattle.ace_bin.specs.Binary.{header_bytes};
ghost use Rattle.ace_bin.specs.Records.{event_bytes};
ghost use Rattle.ace_bin.specs.declared.byte_buf.TheConstants.{BYTE_ROOM};

use crate::put_records::{put_event, put_header};
use ace_event::{Event, Header};
use std::marker::Model;

/// How many bytes wait at most.
pub const BYTE_ROOM: usize = 4096;

/// Up to so many bytes.
#[derive(Drop)]
pub struct ByteBuf {
    bytes: [u8; BYTE_ROOM],
    len: usize,
}

impl Model for ByteBuf {
    ghost Value = { List ℕ };

    ghost view = { λ b. take b.len b.bytes };

    ghost invariant = { λ b. b.len ≤ BYTE_ROOM };
}

impl ByteBuf {
    /// No bytes.
    pub fn empty() -> ByteBuf
        ensures { result ≡ [] }
    {
        ByteBuf {
            bytes: [0; BYTE_ROOM],
            len: 0,
        }
    }

    /// The bytes.
    pub fn bytes(&self) -> &[u8]
        ensures { result.now ≡ self.now }
    {
        &self.bytes[..self.len]
    }

    /// How many bytes there are.
    #[inline(always)]
    pub fn len(&self) -> usize
        ensures value { result ≡ length self.now }
        ensures bound { result ≤ BYTE_ROOM }
    {
        self.len
    }

    /// Lets the bytes go.
    pub fn clear(&mut self)
        ensures { self.new ≡ [] }
    {
        self.len = 0;
    }

    /// Adds the ten bytes of a header.
    #[tactic(auto, using(crate::proofs::Windows::from_first))]
    pub fn push_header(&mut self, header: &Header)
        requires { length self.old + 79 ≤ BYTE_ROOM }
        ensures { self.new ≡ self.old ++ header_bytes header.now }
    {
        let size = put_header(&mut self.bytes[self.len..], header);
        self.len += size;
    }

    /// Adds the record of an event.
    #[inline(always)]
    pub fn push_event(&mut self, event: &Event)
        requires { length self.old + 79 ≤ BYTE_ROOM }
        ensures { self.new ≡ self.old ++ event_bytes event.now }
    {
        let size = put_event(&mut self.bytes[self.len..], event);
        self.len += size;
    }
}
