// A short text of its own.
ghost use Rattle.std.specs.Prelude.{◌≡◌, ◌<◌, length};

use std::marker::Model;

/// A text of fewer than 256 bytes.
#[derive(Drop)]
pub struct ShortText {
    bytes: [u8; 256],
    len: usize,
}

impl Model for ShortText {
    ghost use Rattle.std.specs.Prelude.{List, ℕ, ◌<◌, take};

    ghost Value = { List ℕ };

    ghost view = { λ t. take t.len t.bytes };

    ghost invariant = { λ t. t.len < 256 };
}

impl ShortText {
    /// The text of these bytes.
    pub fn of(bytes: &[u8]) -> ShortText
        requires { length bytes.now < 256 }
        ensures { result ≡ bytes.now }
    {
        let mut kept = [0; 256];
        kept[..bytes.len()].copy_from_slice(bytes);
        ShortText {
            bytes: kept,
            len: bytes.len(),
        }
    }

    /// Its bytes.
    pub fn bytes(&self) -> &[u8]
        ensures value { result.now ≡ self.now }
        ensures bound { length self.now < 256 }
    {
        &self.bytes[..self.len]
    }
}
