//! The events by which a port issues transactions.

ghost use Rattle.std.specs.Prelude.{◌≡◌};
ghost use Rattle.ace_model.specs.Kinds.{is_no_snoop_write};
ghost use Rattle.ace_master.specs.Issues.{aw_of, ar_of, barrier_ar, barrier_aw};

use ace_codes::{ArKind, AwKind, ar_code, aw_code};
use ace_event::Event;

/// A write of a line that no cache holds.
pub fn is_no_snoop_write(kind: AwKind) -> bool
    ensures { result ≡ is_no_snoop_write kind }
{
    matches!(kind, AwKind::WriteNoSnoop)
}

/// The AR of a read of the line.
pub fn ar_of(port: u8, id: u8, kind: ArKind, addr: u32, lock: bool) -> Event
    ensures { result ≡ ar_of port id kind addr lock }
{
    Event::Ar {
        port,
        id,
        addr,
        snoop: ar_code(kind),
        dom: u8::from(kind != ArKind::ReadNoSnoop),
        bar: 0,
        lock,
    }
}

/// The AW of a write of the line.
pub fn aw_of(port: u8, id: u8, kind: AwKind, addr: u32) -> Event
    ensures { result ≡ aw_of port id kind addr }
{
    Event::Aw {
        port,
        id,
        addr,
        snoop: aw_code(kind),
        dom: u8::from(!is_no_snoop_write(kind)),
        bar: 0,
    }
}

/// The half of a barrier on the read channel.
pub fn barrier_ar(port: u8, id: u8, bar: u8) -> Event
    ensures { result ≡ barrier_ar port id bar }
{
    Event::Ar {
        port,
        id,
        addr: 0,
        snoop: ar_code(ArKind::Barrier),
        dom: 1,
        bar,
        lock: false,
    }
}

/// The half of a barrier on the write channel.
pub fn barrier_aw(port: u8, id: u8, bar: u8) -> Event
    ensures { result ≡ barrier_aw port id bar }
{
    Event::Aw {
        port,
        id,
        addr: 0,
        snoop: aw_code(AwKind::Barrier),
        dom: 1,
        bar,
    }
}
