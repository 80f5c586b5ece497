// A reader whose reading is shown.
ghost use Rattle.std.specs.Prelude.{◌≡◌};

use crate::shown_line::{LINE, Progress};
use arrayvec::ArrayString;
use itoa::Buffer;
use std::io::{Eprint, Read, Result};
use std::time::Clock;

/// The most bytes of a name that is shown.
const NAME: usize = 40;

/// A name of an input as it is shown: where it is long or holds other bytes than those of printable
/// ASCII, it is left out.
fn shown_name(name: &str) -> ArrayString<NAME> {
    let mut shown = ArrayString::new();
    let is_plain = name
        .as_bytes()
        .iter()
        .all(|byte| byte.is_ascii_graphic() || *byte == b' ');
    if !is_plain || shown.try_push_str(name).is_err() {
        let _ = shown.try_push_str("a trace");
    }
    shown
}

/// How many bytes these are, in thousands or in millions.
fn amount_of(read: u64) -> ArrayString<32> {
    let mut digits = Buffer::new();
    let mut text = ArrayString::new();
    let (count, unit) = if read < 1_000_000 {
        (read / 1_000, " kB")
    } else {
        (read / 1_000_000, " MB")
    };
    let _ = text.try_push_str(digits.format(count));
    let _ = text.try_push_str(unit);
    text
}

/// How much of so many bytes was read, in percents, where the size is known.
fn part_of(read: u64, size: u64) -> ArrayString<32> {
    let mut digits = Buffer::new();
    let mut text = ArrayString::new();
    if size == 0 {
        return text;
    }
    let percent = (read.saturating_mul(100) / size).min(100);
    let _ = text.try_push_str(", ");
    let _ = text.try_push_str(digits.format(percent));
    let _ = text.try_push_str("%");
    text
}

/// How far a reading is: `x.trace: 340 MB, 48%`, and without the percents where the size isn't
/// known.
fn line_of(name: &str, read: u64, size: u64) -> ArrayString<LINE> {
    let mut line = ArrayString::new();
    let _ = line.try_push_str(name);
    let _ = line.try_push_str(": ");
    let _ = line.try_push_str(amount_of(read).as_str());
    let _ = line.try_push_str(part_of(read, size).as_str());
    line
}

/// A reader whose reading is shown.
#[derive(Drop)]
pub struct Watched<'a, T, R> {
    inner: T,
    progress: Option<&'a Progress<'a, R>>,
    name: ArrayString<NAME>,
    size: u64,
    read: u64,
}

impl<'a, T, R: Clock + Eprint> Watched<'a, T, R> {
    ghost use Rattle.ace_terminal.specs.Watching.{inner_of};

    /// This reader, which reads the input of this name, and so many bytes, or 0 where that isn't
    /// known.
    pub fn new(
        inner: T,
        progress: Option<&'a Progress<'a, R>>,
        name: &str,
        size: u64,
    ) -> Watched<'a, T, R>
        ensures { inner_of result ≡ inner }
    {
        Watched {
            inner,
            progress,
            name: shown_name(name),
            size,
            read: 0,
        }
    }

    /// So many bytes more were read.
    fn note(&mut self, count: usize)
        ensures { inner_of self.new ≡ inner_of self.old }
    {
        self.read = self.read.saturating_add(count as u64);
        if let Some(progress) = self.progress {
            if progress.is_due() {
                progress.show(line_of(self.name.as_str(), self.read, self.size).as_str());
            }
        }
    }
}

impl<'a, T: Read, R: Clock + Eprint> Read for Watched<'a, T, R> {
    ghost use Rattle.ace_terminal.specs.Watching.{inner_of};

    ghost remaining = { λ w. T.remaining (inner_of w) };

    fn read(&mut self, buf: &mut [u8]) -> Result<usize> {
        let result = self.inner.read(buf);
        if self.progress.is_some() {
            if let Ok(count) = &result {
                self.note(*count);
            }
        }
        result
    }
}
