//! The lines of the report, as they are put on a page.

ghost use Rattle.std.specs.Prelude.{◌≡◌, ◌≤◌, ◌+◌, ◌++◌, length, decimal};
ghost use Rattle.ace_report.specs.Lines.{port_line, line_line, load_line};

use crate::tally::{LineTally, Load, PortTally};
use ace_writer::TextBuf;
use itoa::Buffer;

/// The most bytes of a line.
pub(crate) const LINE_LIMIT: usize = 300;

/// A word and a number.
pub fn push_count(page: &mut TextBuf, word: &[u8], count: u64)
    requires { length page.old + length word.now + 40 ≤ 4096 }
    ensures value { page.new ≡ page.old ++ word.now ++ decimal count }
    ensures len { length page.new ≤ length page.old + length word.now + 40 }
{
    let mut digits = Buffer::new();
    page.append(word);
    page.append(digits.format(count).as_bytes());
}

/// What a port did.
pub(crate) fn push_port(page: &mut TextBuf, port: usize, tally: &PortTally)
    requires { length page.old + 300 ≤ 4096 }
    ensures { page.new ≡ page.old ++ port_line port tally.now }
{
    push_count(page, b"port ", port as u64);
    push_count(page, b" loads ", tally.loads);
    push_count(page, b" stores ", tally.stores);
    push_count(page, b" reads ", tally.reads);
    push_count(page, b" writes ", tally.writes);
    page.append(b"\n");
}

/// What was stored to a line.
pub(crate) fn push_line(page: &mut TextBuf, line: u32, tally: &LineTally)
    requires { length page.old + 300 ≤ 4096 }
    ensures { page.new ≡ page.old ++ line_line (line, tally.now) }
{
    page.append(b"line");
    page.push_number(8, u128::from(line));
    push_count(page, b" stores ", tally.stores);
    page.append(b" value");
    page.push_line(&tally.value);
    page.append(b"\n");
}

/// A load.
pub(crate) fn push_load(page: &mut TextBuf, load: &Load)
    requires { length page.old + 300 ≤ 4096 }
    ensures { page.new ≡ page.old ++ load_line load.now }
{
    push_count(page, b"load ", load.event);
    push_count(page, b" ", u64::from(load.port));
    page.push_number(8, u128::from(load.addr));
    push_count(page, b" ", load.stores);
    page.append(b"\n");
}
