// Text that waits to be given.
ghost use Rattle.std.specs.Prelude.{◌≡◌, ◌<◌, ◌≤◌, ◌+◌, ◌++◌, ◌∷◌, [], List, ℕ, length, take};

use std::marker::Model;

/// How many bytes of text wait at most.
pub const TEXT_ROOM: usize = 4096;

/// Up to 4096 bytes of text.
#[derive(Drop)]
pub struct TextBuf {
    bytes: [u8; TEXT_ROOM],
    len: usize,
}

impl Model for TextBuf {
    ghost Value = { List ℕ };

    ghost view = { λ b. take b.len b.bytes };

    ghost invariant = { λ b. b.len ≤ 4096 };
}

impl TextBuf {
    /// No text.
    pub fn empty() -> TextBuf
        ensures { result ≡ [] }
    {
        TextBuf {
            bytes: [0; TEXT_ROOM],
            len: 0,
        }
    }

    /// The text.
    pub fn bytes(&self) -> &[u8]
        ensures { result.now ≡ self.now }
    {
        &self.bytes[..self.len]
    }

    /// How many bytes the text has.
    #[inline(always)]
    pub fn len(&self) -> usize
        ensures value { result ≡ length self.now }
        ensures bound { result ≤ 4096 }
    {
        self.len
    }

    /// Lets the text go.
    pub fn clear(&mut self)
        ensures { self.new ≡ [] }
    {
        self.len = 0;
    }

    /// Adds a byte that there is room for at the end.
    #[inline(always)]
    pub fn push(&mut self, byte: u8)
        requires { length self.old < 4096 }
        ensures value { self.new ≡ self.old ++ byte ∷ [] }
        ensures len { length self.new ≡ length self.old + 1 }
    {
        self.bytes[self.len] = byte;
        self.len += 1;
    }

    /// Adds a piece that there is room for at the end.
    #[inline(always)]
    pub fn append(&mut self, piece: &[u8])
        requires { length self.old + length piece.now ≤ 4096 }
        ensures value { self.new ≡ self.old ++ piece.now }
        ensures len { length self.new ≡ length self.old + length piece.now }
    {
        let end = self.len + piece.len();
        self.bytes[self.len..end].copy_from_slice(piece);
        self.len = end;
    }
}
