//! The lines that the transactions of a port take and give up, by their identifiers.

ghost use Rattle.std.specs.Prelude.{◌≡◌, ◌==◌, ◌&&◌, ℕ, Some, None, if◌then◌else◌};
ghost use Rattle.ace_codes.specs.Reads.{ar_kind_of};
ghost use Rattle.ace_codes.specs.Writes.{aw_kind_of};
ghost use Rattle.ace_model.specs.Kinds.{is_line_read, is_line_write};
ghost use Rattle.ace_model.specs.Snoops.{snoops_a_line};
ghost use Rattle.ace_model.specs.Trace.{is_some_and};
ghost use Rattle.ace_model.specs.Kept.{takes_line, drops_line};
ghost use Rattle.ace_filter.specs.Port.{begun_line, line_under};

use ace_codes::{ArKind, AwKind, read_ar, read_aw};
use ace_event::Event;
use ace_model::kinds::{is_line_read, is_line_write, snoops_a_line};

/// A read of this kind takes its line into the cache of its port.
fn takes_line(kind: ArKind) -> bool
    ensures { result ≡ takes_line kind }
{
    matches!(
        kind,
        ArKind::ReadShared
            | ArKind::ReadClean
            | ArKind::ReadNotSharedDirty
            | ArKind::ReadUnique
            | ArKind::MakeUnique
    )
}

/// A write of this kind gives its line up.
fn drops_line(kind: AwKind) -> bool
    ensures { result ≡ drops_line kind }
{
    matches!(kind, AwKind::WriteBack | AwKind::WriteEvict | AwKind::Evict)
}

/// The line that a read takes, if it takes one.
pub fn taken_line(addr: u32, snoop: u8, dom: u8, bar: u8) -> Option<u32>
    ensures { result
        ≡ (if is_some_and (ar_kind_of snoop dom bar) takes_line then Some addr else None) }
{
    if read_ar(snoop, dom, bar).is_some_and(takes_line) {
        Some(addr)
    } else {
        None
    }
}

/// The line that a write gives up, if it gives one up.
pub fn dropped_line(addr: u32, snoop: u8, dom: u8, bar: u8) -> Option<u32>
    ensures { result
        ≡ (if is_some_and (aw_kind_of snoop dom bar) drops_line then Some addr else None) }
{
    if read_aw(snoop, dom, bar).is_some_and(drops_line) {
        Some(addr)
    } else {
        None
    }
}

/// The line that a snoop names, if it is a line snoop.
pub fn snooped_line(addr: u32, snoop: u8) -> Option<u32>
    ensures { result ≡ (if snoops_a_line snoop then Some addr else None) }
{
    if snoops_a_line(snoop) {
        Some(addr)
    } else {
        None
    }
}

/// The line of the line transaction that the event issues.
pub fn begun_line(event: &Event) -> Option<u32>
    ensures { result ≡ begun_line event.now }
{
    match *event {
        Event::Ar {
            addr,
            snoop,
            dom,
            bar,
            ..
        } if read_ar(snoop, dom, bar).is_some_and(is_line_read) => Some(addr),
        Event::Aw {
            addr,
            snoop,
            dom,
            bar,
            ..
        } if read_aw(snoop, dom, bar).is_some_and(is_line_write) => Some(addr),
        _ => None,
    }
}

/// The line that is kept under the identifier.
pub fn line_under(lines: &[Option<u32>; 256], id: u8) -> Option<u32>
    ensures { result ≡ line_under lines.now id }
{
    match lines.get(usize::from(id)) {
        Some(line) => *line,
        None => None,
    }
}

/// Under the identifier this line is kept from now on.
pub fn set_line(lines: &mut [Option<u32>; 256], id: u8, line: Option<u32>)
    ensures { (i : ℕ) → line_under lines.new i
        ≡ (if id == i then line else line_under lines.old i) }
{
    lines[usize::from(id)] = line;
}
