// The situations that the answer to a snoop shows.
ghost use Rattle.std.specs.Prelude.{◌≡◌, ◌||◌, ℕ, Some};
ghost use Rattle.std.specs.List.{list_any};
ghost use Rattle.ace_codes.specs.Snoops.{ac_kind_of};
ghost use Rattle.ace_event.specs.declared.event.Event.TheVariants.{Cr};
ghost use Rattle.ace_lineck.specs.Stands.{Stands as LinesTell, place_on};
ghost use Rattle.ace_model.specs.Grants.{granted, ports_below};
ghost use Rattle.ace_model.specs.Trace.{is_some_and};
ghost use Rattle.ace_model.specs.declared.transactions.Transaction.{Transaction as Issued};
ghost use Rattle.ace_points.specs.Situations.{drops_dirt, is_make_invalid, is_overtaken, loses_line, meets_write, met, met_by_answer, met_by_line_answer, met_write, overtakes, sends_too, takes_from, two_send};
ghost use Rattle.ace_portck.specs.Stands.{Stands as PortsTell};
ghost use Rattle.ace_portck.specs.Targets.{Recording, own_on};

use crate::meets::{meets, of_two};
use crate::point::Point;
use crate::situation::Situation;
use crate::states::{holds, state_at};
use ace_codes::{ArKind, AwKind, LineState, SnoopKind, read_ac, transfers_data};
use ace_lineck::LineCheck;
use ace_model::Snoop;
use ace_model::kinds::{read_kind, snoops_a_line, write_kind};
use ace_portck::PortCheck;
use ace_tables::{is_dirty, is_invalid};

/// The memory update of this kind that a snoop meets.
fn meets_write(kind: Option<AwKind>) -> Option<Point>
    ensures { result ≡ meets_write kind }
{
    let situation = match kind {
        Some(AwKind::WriteBack) => Situation::SnoopMeetsWriteBack,
        Some(AwKind::WriteClean) => Situation::SnoopMeetsWriteClean,
        Some(AwKind::WriteEvict) => Situation::SnoopMeetsWriteEvict,
        _ => return None,
    };
    Some(Point::Met { situation })
}

/// The read of this kind that loses the line.
fn takes_from(kind: Option<ArKind>) -> Option<Point>
    ensures { result ≡ takes_from kind }
{
    let situation = match kind {
        Some(ArKind::CleanUnique) => Situation::CleanUniqueLosesLine,
        Some(ArKind::MakeUnique) => Situation::MakeUniqueLosesLine,
        _ => return None,
    };
    Some(Point::Met { situation })
}

/// The memory update that is outstanding on the line.
fn met_write(ports: &PortCheck, port: u8, line: u32) -> Option<Point>
    ensures { (r : Recording) → PortsTell ports.now r
        → result ≡ met_write (own_on r.header r.past port (Some line)) }
{
    match ports.own(port, line) {
        Some(y) => meets_write(write_kind(&y.transaction)),
        None => None,
    }
}

/// The read that is outstanding on the line, where the line is lost.
fn loses_line(ports: &PortCheck, port: u8, line: u32, lost: bool) -> Option<Point>
    ensures { (r : Recording) → PortsTell ports.now r
        → result ≡ loses_line lost (own_on r.header r.past port (Some line)) }
{
    match ports.own(port, line) {
        Some(y) if lost => takes_from(read_kind(&y.transaction)),
        _ => None,
    }
}

/// The snoop of another port is of the same line, and came before.
fn overtakes(snoop: &Snoop, other: &Snoop) -> bool
    ensures { result ≡ overtakes snoop.now other.now }
{
    snoops_a_line(other.snoop) && other.addr == snoop.addr && other.place < snoop.place
}

/// The port is another one, which was snooped of the line before and hasn't answered.
fn is_overtaken(ports: &PortCheck, own: u8, snoop: &Snoop, port: u8) -> bool
    ensures { (r : Recording) → PortsTell ports.now r
        → result ≡ is_overtaken r.past own snoop.now port }
{
    match ports.answered(port) {
        Some(other) => port != own && overtakes(snoop, other),
        None => false,
    }
}

/// A port below this number was snooped of the line before, and hasn't answered.
fn some_overtaken(ports: &PortCheck, own: u8, snoop: &Snoop, count: u8) -> bool
    ensures { (r : Recording) → PortsTell ports.now r
        → result ≡ list_any (is_overtaken r.past own snoop.now) (ports_below count) }
{
    let mut any = false;
    for port in 0..count {
        any = is_overtaken(ports, own, snoop, port) || any;
    }
    any
}

/// A MakeInvalid.
fn is_make_invalid(snoop: u8) -> bool
    ensures { result ≡ is_some_and (ac_kind_of snoop) is_make_invalid }
{
    matches!(read_ac(snoop), Some(SnoopKind::MakeInvalid))
}

/// The port, which holds the line dirty, drops it.
fn drops_dirt(lines: &LineCheck, port: u8, snoop: &Snoop) -> bool
    ensures { (r : Recording) → LinesTell lines.now r
        → result ≡ drops_dirt r.header r.past port snoop.now }
{
    is_make_invalid(snoop.snoop) && is_dirty(state_at(lines, port, snoop.addr))
}

/// The port is another one, which sends data under the grant of the line.
fn sends_too(lines: &LineCheck, place: Option<usize>, own: u8, port: u8) -> bool
    ensures { (r : Recording) (line : ℕ) (x : Issued) → LinesTell lines.now r
        → place ≡ place_on lines.now (Some line) → granted r.header r.past line ≡ Some x
        → result ≡ sends_too r.past own line port }
{
    port != own && lines.owes_data(place, port)
}

/// A port below this number sends data under the grant of the line.
fn some_sends(lines: &LineCheck, place: Option<usize>, own: u8, count: u8) -> bool
    ensures { (r : Recording) (line : ℕ) (x : Issued) → LinesTell lines.now r
        → place ≡ place_on lines.now (Some line) → granted r.header r.past line ≡ Some x
        → result ≡ list_any (sends_too r.past own line) (ports_below count) }
{
    let mut any = false;
    for port in 0..count {
        any = sends_too(lines, place, own, port) || any;
    }
    any
}

/// The answer announces data while another port sends its own under the grant of the line.
fn two_send(lines: &LineCheck, port: u8, resp: u8, line: u32, count: u8) -> bool
    ensures { (r : Recording) → LinesTell lines.now r → count ≡ r.header.ports
        → result ≡ two_send r.header r.past port resp line }
{
    let place = lines.place(Some(line));
    match lines.granted_transaction(place) {
        Some(_) => transfers_data(resp) && some_sends(lines, place, port, count),
        None => false,
    }
}

/// The answer to a snoop of a line.
fn met_by_line_answer(
    ports: &PortCheck,
    lines: &LineCheck,
    port: u8,
    resp: u8,
    st: LineState,
    snoop: &Snoop,
) -> [Option<Point>; 5]
    ensures { (r : Recording) → PortsTell ports.now r → LinesTell lines.now r
        → result ≡ met_by_line_answer r.header r.past port resp st snoop.now }
{
    let count = ports.header().ports;
    let is_lost = holds(lines, port, snoop.addr) && is_invalid(st);
    let is_overtaking = some_overtaken(ports, port, snoop, count);
    [
        met_write(ports, port, snoop.addr),
        loses_line(ports, port, snoop.addr, is_lost),
        meets(Situation::AnswersOutOfOrder, is_overtaking),
        meets(Situation::DirtyLineDropped, drops_dirt(lines, port, snoop)),
        meets(
            Situation::TwoPortsSend,
            two_send(lines, port, resp, snoop.addr, count),
        ),
    ]
}

/// The answer to the snoop.
fn met_by_answer(
    ports: &PortCheck,
    lines: &LineCheck,
    port: u8,
    resp: u8,
    st: LineState,
    snoop: &Snoop,
) -> [Option<Point>; 5]
    ensures { (r : Recording) → PortsTell ports.now r → LinesTell lines.now r
        → result ≡ met_by_answer r.header r.past port resp st snoop.now }
{
    if snoops_a_line(snoop.snoop) {
        met_by_line_answer(ports, lines, port, resp, st, snoop)
    } else {
        of_two(None, None)
    }
}

/// A CR.
pub(crate) fn met_at_answer(
    ports: &PortCheck,
    lines: &LineCheck,
    port: u8,
    resp: u8,
    st: LineState,
) -> [Option<Point>; 5]
    ensures { (r : Recording) → PortsTell ports.now r → LinesTell lines.now r
        → result ≡ met r.header r.past (Cr port resp st) }
{
    match ports.answered(port) {
        Some(snoop) => met_by_answer(ports, lines, port, resp, st, snoop),
        None => of_two(None, None),
    }
}
