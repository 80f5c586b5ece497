// A line of at most 256 bytes, and how a line ends.
ghost use Rattle.std.specs.Prelude.{◌≡◌, ◌≤◌, ◌+◌, ◌++◌, [], List, ℕ, length, take};

use std::marker::Model;

/// A line without its line feed: up to 256 bytes.
#[derive(Drop)]
pub struct LineBuf {
    bytes: [u8; 256],
    len: usize,
}

impl Model for LineBuf {
    ghost Value = { List ℕ };

    ghost view = { λ b. take b.len b.bytes };

    ghost invariant = { λ b. b.len ≤ 256 };
}

impl LineBuf {
    /// A line of no bytes.
    pub fn empty() -> LineBuf
        ensures { result ≡ [] }
    {
        LineBuf {
            bytes: [0; 256],
            len: 0,
        }
    }

    /// The bytes of the line, without its line feed.
    pub fn bytes(&self) -> &[u8]
        ensures value { result.now ≡ self.now }
        ensures bound { length self.now ≤ 256 }
    {
        &self.bytes[..self.len]
    }

    /// How many bytes the line has.
    pub(crate) fn len(&self) -> usize
        ensures value { result ≡ length self.now }
        ensures bound { result ≤ 256 }
    {
        self.len
    }

    /// Lets all bytes go.
    pub(crate) fn clear(&mut self)
        ensures { self.new ≡ [] }
    {
        self.len = 0;
    }

    /// Adds a piece that there is room for at the end.
    pub(crate) fn append(&mut self, piece: &[u8])
        requires { length self.old + length piece.now ≤ 256 }
        ensures { self.new ≡ self.old ++ piece.now }
    {
        let end = self.len + piece.len();
        self.bytes[self.len..end].copy_from_slice(piece);
        self.len = end;
    }
}

/// How a line ends.
#[derive(Clone, Copy, Debug, PartialEq, Eq)]
pub enum LineEnd {
    /// With its line feed.
    Whole,
    /// The input ended after at least one byte of the line, or its first 256 bytes hold no line
    /// feed.
    NoLf,
    /// No byte was left.
    End,
}
