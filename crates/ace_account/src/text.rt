//! The lines of a certificate, as they are put on a page.

ghost use Rattle.std.specs.Prelude.{◌≡◌, ◌≤◌, ◌+◌, ◌++◌, length};
ghost use Rattle.ace_account.specs.Certificate.{store_line, place_line};

use ace_cert::ReadPlace;
use ace_report::push_count;
use ace_writer::TextBuf;

/// A store to the line, by the number of its event.
pub(crate) fn push_store(page: &mut TextBuf, addr: u32, event: u32)
    requires { length page.old + 300 ≤ 4096 }
    ensures { page.new ≡ page.old ++ store_line addr event }
{
    page.append(b"store");
    page.push_number(8, u128::from(addr));
    push_count(page, b" ", u64::from(event));
    page.append(b"\n");
}

/// A read and its place.
pub(crate) fn push_place(page: &mut TextBuf, read: &ReadPlace)
    requires { length page.old + 300 ≤ 4096 }
    ensures { page.new ≡ page.old ++ place_line read.now }
{
    push_count(page, b"place ", u64::from(read.event));
    push_count(page, b" ", u64::from(read.place));
    page.append(b"\n");
}
