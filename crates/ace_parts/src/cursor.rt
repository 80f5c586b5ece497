// Takes a text apart from its front. What it takes is compared with the text when all is read, so
// it promises nothing here.

use ace_io::NoMemory;
use std::alloc::Global;

/// Where the reading of a text stands.
#[derive(Drop)]
pub(crate) struct Cursor<'a> {
    bytes: &'a [u8],
    place: usize,
}

/// The value of a digit of a hexadecimal number, or 0.
fn hex_value(digit: u8) -> u8 {
    match digit {
        b'0'..=b'9' => digit.wrapping_sub(b'0'),
        b'a'..=b'f' => digit.wrapping_sub(b'a').wrapping_add(10),
        _ => 0,
    }
}

/// Adds the byte.
fn push_byte(text: &mut Vec<u8>, byte: u8) -> Result<(), NoMemory> {
    match text.push(byte) {
        Ok(()) => Ok(()),
        Err(_) => Err(NoMemory),
    }
}

impl<'a> Cursor<'a> {
    /// At the start of the text.
    pub(crate) fn new(bytes: &'a [u8]) -> Cursor<'a> {
        Cursor { bytes, place: 0 }
    }

    /// At its end.
    pub(crate) fn is_at_end(&self) -> bool {
        self.place >= self.bytes.len()
    }

    /// The next byte, if there is one.
    fn peek(&self) -> Option<u8> {
        self.bytes.get(self.place).copied()
    }

    /// Takes the next byte.
    fn step(&mut self) {
        self.place = self.place.saturating_add(1);
    }

    /// Takes these bytes, as far as they come next, and says whether all of them do.
    pub(crate) fn skip(&mut self, front: &[u8]) -> bool {
        for byte in front {
            if self.peek() != Some(*byte) {
                return false;
            }
            self.step();
        }
        true
    }

    /// Takes these bytes if all of them come next, and says whether they do.
    pub(crate) fn skip_whole(&mut self, front: &[u8]) -> bool {
        let rest = &self.bytes[self.place.min(self.bytes.len())..];
        let comes = rest.starts_with(front);
        if comes {
            self.place = self.place.saturating_add(front.len());
        }
        comes
    }

    /// Takes the digits that come next, as a number.
    pub(crate) fn number(&mut self) -> u64 {
        let mut number = 0u64;
        for place in self.place..self.bytes.len() {
            match self.peek() {
                Some(digit @ b'0'..=b'9') => {
                    let value = u64::from(digit.wrapping_sub(b'0'));
                    number = number.wrapping_mul(10).wrapping_add(value);
                    self.step();
                }
                _ => return number,
            }
        }
        number
    }

    /// Takes the byte that two digits of a hexadecimal number say.
    fn hex_byte(&mut self) -> u8 {
        let first = hex_value(self.peek().unwrap_or(0));
        self.step();
        let second = hex_value(self.peek().unwrap_or(0));
        self.step();
        first.wrapping_mul(16).wrapping_add(second)
    }

    /// Takes what stands behind a backslash in a text.
    fn escaped(&mut self) -> u8 {
        let byte = self.peek().unwrap_or(0);
        self.step();
        match byte {
            b'n' => b'\n',
            b'u' => { if self.skip(b"00") { self.hex_byte() } else { 0 } }
            _ => byte,
        }
    }

    /// Takes a text, up to the quote behind it.
    pub(crate) fn text(&mut self, alloc: Global) -> Result<Vec<u8>, NoMemory> {
        let mut text = Vec::new(alloc);
        for place in self.place..self.bytes.len() {
            match self.peek() {
                None | Some(b'"') => return Ok(text),
                Some(b'\\') => {
                    self.step();
                    let byte = self.escaped();
                    push_byte(&mut text, byte)?;
                }
                Some(byte) => {
                    self.step();
                    push_byte(&mut text, byte)?;
                }
            }
        }
        Ok(text)
    }
}
