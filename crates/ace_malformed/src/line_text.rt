// The text of a line, which can be copied.
ghost use Rattle.std.specs.Prelude.{◌≡◌, ◌≤◌, length};

use ace_io::LineBuf;

/// The most bytes of a line.
const ROOM: usize = 256;

/// A line without its line feed: up to 256 bytes.
#[derive(Clone, Copy)]
pub struct LineText {
    bytes: [u8; ROOM],
    len: usize,
    ghost len_in_range: { len ≤ 256 },
}

impl LineText {
    ghost use Rattle.ace_malformed.specs.Lines.{text_of};

    /// The text of this line.
    pub fn of(line: &LineBuf) -> LineText
        ensures { text_of result ≡ line.now }
    {
        let text = line.bytes();
        let len = text.len();
        let mut bytes = [0; ROOM];
        bytes[..len].copy_from_slice(text);
        LineText { bytes, len }
    }

    /// The bytes of the line.
    pub fn bytes(&self) -> &[u8]
        ensures value { result.now ≡ text_of self.now }
        ensures bound { length (text_of self.now) ≤ 256 }
    {
        &self.bytes[..self.len]
    }
}
