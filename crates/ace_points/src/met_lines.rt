// The situations that the end of a read, loads and stores show.
ghost use Rattle.std.specs.Prelude.{◌≡◌, ◌||◌, ◌&&◌, ℕ, Bool};
ghost use Rattle.std.specs.List.{list_any};
ghost use Rattle.ace_event.specs.declared.event.Event.TheVariants.{D, L, Rk};
ghost use Rattle.ace_event.specs.declared.line.Line.{Line as Data};
ghost use Rattle.ace_lineck.specs.Stands.{Stands as LinesTell};
ghost use Rattle.ace_model.specs.Grants.{ports_below};
ghost use Rattle.ace_points.specs.Situations.{holds_too, is_between, is_reading, loads_behind, makes_three, met, met_by_rack, owns_dirty, shares_dirt, some_two};
ghost use Rattle.ace_portck.specs.Stands.{Stands as PortsTell};
ghost use Rattle.ace_portck.specs.Targets.{Recording};

use crate::meets::{meets, of_two};
use crate::point::Point;
use crate::situation::Situation;
use crate::states::{holds, state_at};
use ace_codes::LineState;
use ace_event::Channel;
use ace_lineck::LineCheck;
use ace_model::Transaction;
use ace_model::kinds::is_line;
use ace_portck::{PortCheck, Progress};
use ace_tables::is_invalid;

/// The read is in the middle of its transfers.
fn is_between(y: &Progress) -> bool
    ensures { result ≡ is_between y.now }
{
    matches!(y.transaction.chan, Channel::Read) && y.transfers != 0 && !y.complete
}

/// The port is another one, whose read of the line is in the middle of its transfers.
fn is_reading(ports: &PortCheck, own: u8, line: u32, port: u8) -> bool
    ensures { (r : Recording) → PortsTell ports.now r
        → result ≡ is_reading r.header r.past own line port }
{
    match ports.own(port, line) {
        Some(y) => port != own && is_between(y),
        None => false,
    }
}

/// A port below this number reads the line.
fn some_reading(ports: &PortCheck, own: u8, line: u32, count: u8) -> bool
    ensures { (r : Recording) → PortsTell ports.now r
        → result ≡ list_any (is_reading r.header r.past own line) (ports_below count) }
{
    let mut any = false;
    for port in 0..count {
        any = is_reading(ports, own, line, port) || any;
    }
    any
}

/// A D.
pub(crate) fn met_at_store(ports: &PortCheck, port: u8, addr: u32) -> [Option<Point>; 5]
    ensures { (r : Recording) (strobe : ℕ) (x : Bool) (line : Data) → PortsTell ports.now r
        → result ≡ met r.header r.past (D port addr strobe x line) }
{
    let is_read = some_reading(ports, port, addr, ports.header().ports);
    of_two(meets(Situation::ReadMeetsStore, is_read), None)
}

/// The port is another one, and holds the line.
fn holds_too(lines: &LineCheck, own: u8, line: u32, port: u8) -> bool
    ensures { (r : Recording) → LinesTell lines.now r
        → result ≡ holds_too r.header r.past own line port }
{
    port != own && holds(lines, port, line)
}

/// Two other ports below this number hold the line.
fn two_hold(lines: &LineCheck, own: u8, line: u32, count: u8) -> bool
    ensures { (r : Recording) → LinesTell lines.now r
        → result ≡ some_two (holds_too r.header r.past own line) (ports_below count) }
{
    let mut any = false;
    let mut two = false;
    for port in 0..count {
        let holds = holds_too(lines, own, line, port);
        two = (holds && any) || two;
        any = holds || any;
    }
    two
}

/// The port is another one, and holds the line as SharedDirty.
fn owns_dirty(lines: &LineCheck, own: u8, line: u32, port: u8) -> bool
    ensures { (r : Recording) → LinesTell lines.now r
        → result ≡ owns_dirty r.header r.past own line port }
{
    port != own && matches!(state_at(lines, port, line), LineState::SD)
}

/// Another port below this number holds the line as SharedDirty.
fn some_owns_dirty(lines: &LineCheck, own: u8, line: u32, count: u8) -> bool
    ensures { (r : Recording) → LinesTell lines.now r
        → result ≡ list_any (owns_dirty r.header r.past own line) (ports_below count) }
{
    let mut any = false;
    for port in 0..count {
        any = owns_dirty(lines, own, line, port) || any;
    }
    any
}

/// The read leaves its port a sharer of a line that another port holds as SharedDirty.
fn shares_dirt(lines: &LineCheck, x: &Transaction, st: LineState, count: u8) -> bool
    ensures { (r : Recording) → LinesTell lines.now r → count ≡ r.header.ports
        → result ≡ shares_dirt r.header r.past x.now st }
{
    is_line(x) && matches!(st, LineState::SC) && some_owns_dirty(lines, x.port, x.addr, count)
}

/// The read leaves its port a holder of a line that two others hold.
fn makes_three(lines: &LineCheck, x: &Transaction, st: LineState, count: u8) -> bool
    ensures { (r : Recording) → LinesTell lines.now r → count ≡ r.header.ports
        → result ≡ makes_three r.header r.past x.now st }
{
    is_line(x) && !is_invalid(st) && two_hold(lines, x.port, x.addr, count)
}

/// The read is acknowledged.
fn met_by_rack(
    ports: &PortCheck,
    lines: &LineCheck,
    st: LineState,
    x: &Transaction,
) -> [Option<Point>; 5]
    ensures { (r : Recording) → PortsTell ports.now r → LinesTell lines.now r
        → result ≡ met_by_rack r.header r.past st x.now }
{
    let count = ports.header().ports;
    of_two(
        meets(
            Situation::DirtyOwnerAndSharer,
            shares_dirt(lines, x, st, count),
        ),
        meets(Situation::ThreeHolders, makes_three(lines, x, st, count)),
    )
}

/// An RK.
pub(crate) fn met_at_rack(
    ports: &PortCheck,
    lines: &LineCheck,
    port: u8,
    st: LineState,
) -> [Option<Point>; 5]
    ensures { (r : Recording) → PortsTell ports.now r → LinesTell lines.now r
        → result ≡ met r.header r.past (Rk port st) }
{
    match ports.acknowledged(port, Channel::Read) {
        Some(x) => met_by_rack(ports, lines, st, &x.transaction),
        None => of_two(None, None),
    }
}

/// The port has answered the snoop of the line under its grant.
fn loads_behind(lines: &LineCheck, port: u8, line: u32) -> bool
    ensures { (r : Recording) → LinesTell lines.now r
        → result ≡ loads_behind r.header r.past port line }
{
    let place = lines.place(Some(line));
    match lines.granted_transaction(place) {
        Some(_) => lines.was_snooped(place, port) && !lines.owes_answer(place, port),
        None => false,
    }
}

/// An L.
pub(crate) fn met_at_load(lines: &LineCheck, port: u8, addr: u32) -> [Option<Point>; 5]
    ensures { (r : Recording) (w : ℕ) (x : Bool) (word : ℕ) → LinesTell lines.now r
        → result ≡ met r.header r.past (L port addr w x word) }
{
    let is_behind = loads_behind(lines, port, addr);
    of_two(meets(Situation::LoadAfterSnoop, is_behind), None)
}
