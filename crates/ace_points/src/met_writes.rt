// The situations that AC, R, W and M show.
ghost use Rattle.std.specs.Prelude.{◌≡◌, ℕ, Bool};
ghost use Rattle.ace_event.specs.declared.event.Event.TheVariants.{Ac, M, R, W};
ghost use Rattle.ace_event.specs.declared.line.Line.{Line as Data};
ghost use Rattle.ace_lineck.specs.Stands.{Stands as LinesTell};
ghost use Rattle.ace_model.specs.Trace.{is_some_and};
ghost use Rattle.ace_model.specs.Transactions.{write_kind};
ghost use Rattle.ace_points.specs.Situations.{ends_wide_sync, gets_passed, is_beside_grant, is_write_evict, is_write_unique, leaves_bytes, merges_passed, met, met_by_memory_write};
ghost use Rattle.ace_portck.specs.Stands.{Stands as PortsTell};
ghost use Rattle.ace_portck.specs.Targets.{Recording};

use crate::asked_lines::is_complete_snoop;
use crate::meets::{meets, of_two};
use crate::other_ports::two_other_ace;
use crate::point::Point;
use crate::situation::Situation;
use crate::under_grant::gets_passed;
use ace_codes::AwKind;
use ace_event::{Channel, Header};
use ace_lineck::LineCheck;
use ace_model::Transaction;
use ace_model::kinds::write_kind;
use ace_portck::PortCheck;

/// A Sync is completed of which two other ports were told.
fn ends_wide_sync(header: &Header, port: u8, snoop: u8) -> bool
    ensures { result ≡ ends_wide_sync header.now port snoop }
{
    is_complete_snoop(snoop) && two_other_ace(header, port)
}

/// An AC.
pub(crate) fn met_at_snoop(ports: &PortCheck, port: u8, snoop: u8) -> [Option<Point>; 5]
    ensures { (r : Recording) (addr : ℕ) → PortsTell ports.now r
        → result ≡ met r.header r.past (Ac port addr snoop) }
{
    let is_wide = ends_wide_sync(ports.header(), port, snoop);
    of_two(
        meets(Situation::SnoopWaits, ports.answered(port).is_some()),
        meets(Situation::SyncOfThree, is_wide),
    )
}

/// An R.
pub(crate) fn met_at_transfer(
    ports: &PortCheck,
    lines: &LineCheck,
    port: u8,
    id: u8,
) -> [Option<Point>; 5]
    ensures { (r : Recording) (resp : ℕ) (last : Bool) (word : ℕ) → PortsTell ports.now r
        → LinesTell lines.now r → result ≡ met r.header r.past (R port id resp last word) }
{
    let is_passed = match ports.outstanding(port, Channel::Read, id) {
        Some(x) => gets_passed(lines, x),
        None => false,
    };
    of_two(meets(Situation::DirtyLinePassed, is_passed), None)
}

/// A WriteUnique.
fn is_write_unique(x: &Transaction) -> bool
    ensures { result ≡ is_some_and (write_kind x.now) is_write_unique }
{
    matches!(write_kind(x), Some(AwKind::WriteUnique))
}

/// A WriteEvict.
fn is_write_evict(x: &Transaction) -> bool
    ensures { result ≡ is_some_and (write_kind x.now) is_write_evict }
{
    matches!(write_kind(x), Some(AwKind::WriteEvict))
}

/// A word with this strobe leaves bytes of a WriteUnique out.
fn leaves_bytes(strobe: u16, x: &Transaction) -> bool
    ensures { result ≡ leaves_bytes strobe x.now }
{
    is_write_unique(x) && strobe != 0xffff
}

/// A W.
pub(crate) fn met_at_write(ports: &PortCheck, port: u8, strobe: u16) -> [Option<Point>; 5]
    ensures { (r : Recording) (last : Bool) (word : ℕ) → PortsTell ports.now r
        → result ≡ met r.header r.past (W port strobe last word) }
{
    let is_part = match ports.next_write(port) {
        Some(x) => leaves_bytes(strobe, &x),
        None => false,
    };
    of_two(meets(Situation::BytesLeftOut, is_part), None)
}

/// The WriteUnique is merged into data that were passed.
fn merges_passed(lines: &LineCheck, x: &Transaction) -> bool
    ensures { (r : Recording) → LinesTell lines.now r
        → result ≡ merges_passed r.header r.past x.now }
{
    is_write_unique(x) && lines.has_passed_data(lines.place(Some(x.addr)))
}

/// The line of the WriteEvict is granted.
fn is_beside_grant(lines: &LineCheck, x: &Transaction) -> bool
    ensures { (r : Recording) → LinesTell lines.now r
        → result ≡ is_beside_grant r.header r.past x.now }
{
    is_write_evict(x)
        && lines
            .granted_transaction(lines.place(Some(x.addr)))
            .is_some()
}

/// The transaction writes memory.
fn met_by_memory_write(lines: &LineCheck, x: &Transaction) -> [Option<Point>; 5]
    ensures { (r : Recording) → LinesTell lines.now r
        → result ≡ met_by_memory_write r.header r.past x.now }
{
    let is_read = matches!(x.chan, Channel::Read);
    [
        meets(Situation::PassedLineWritten, is_read),
        meets(Situation::WriteUniqueMerged, merges_passed(lines, x)),
        meets(Situation::WriteEvictBesideGrant, is_beside_grant(lines, x)),
        None,
        None,
    ]
}

/// An M.
pub(crate) fn met_at_memory_write(
    ports: &PortCheck,
    lines: &LineCheck,
    port: u8,
    chan: Channel,
    id: u8,
) -> [Option<Point>; 5]
    ensures { (r : Recording) (line : Data) → PortsTell ports.now r → LinesTell lines.now r
        → result ≡ met r.header r.past (M port chan id line) }
{
    match ports.outstanding(port, chan, id) {
        Some(x) => met_by_memory_write(lines, &x.transaction),
        None => of_two(None, None),
    }
}
