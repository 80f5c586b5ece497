// What there is of a line, by what the checker keeps.
ghost use Rattle.std.specs.Prelude.{◌≡◌, ℕ, Some, map, option_map};
ghost use Rattle.std.specs.List.{range_with_len};
ghost use Rattle.std.specs.Option.{option_copied};
ghost use Rattle.ace_lineck.specs.Stands.{Stands as LinesTell, place_on};
ghost use Rattle.ace_model.specs.Grants.{granted, owes_answer, owes_data, was_snooped};
ghost use Rattle.ace_model.specs.declared.transactions.Transaction.{Transaction};
ghost use Rattle.ace_portck.specs.Stands.{Stands as PortsTell};
ghost use Rattle.ace_portck.specs.Targets.{Recording, progress_of};
ghost use Rattle.ace_since.specs.Kept.{SinceStands};
ghost use Rattle.ace_before.specs.Looks.{before_event, line_before, port_before, snoop_by, snoop_under};

use crate::before::{LineBefore, PortBefore, SnoopBefore};
use crate::named_line::named_line;
use ace_event::Event;
use ace_lineck::LineCheck;
use ace_portck::{PortCheck, Progress};
use ace_since::Since;

/// How far the snoop of the port has come under the grant of a line, whose record stands at the
/// place.
fn snoop_of(lines: &LineCheck, place: Option<usize>, port: u8) -> SnoopBefore
    ensures { (r : Recording) (line : ℕ) (x : Transaction) → LinesTell lines.now r
        → place ≡ place_on lines.now (Some line) → granted r.header r.past line ≡ Some x
        → result ≡ snoop_by (was_snooped r.past port line) (owes_answer r.past port line)
        (owes_data r.past port line) }
{
    if !lines.was_snooped(place, port) {
        return SnoopBefore::Unsnooped;
    }
    if lines.owes_answer(place, port) {
        return SnoopBefore::Unanswered;
    }
    if lines.owes_data(place, port) {
        SnoopBefore::Short
    } else {
        SnoopBefore::Answered
    }
}

/// The same, where a transaction may be granted.
fn snoop_before(lines: &LineCheck, place: Option<usize>, port: u8) -> SnoopBefore
    ensures { (r : Recording) (line : ℕ) → LinesTell lines.now r
        → place ≡ place_on lines.now (Some line)
        → result ≡ snoop_under r.past port line (granted r.header r.past line) }
{
    match lines.granted_transaction(place) {
        None => SnoopBefore::Unsnooped,
        Some(_) => snoop_of(lines, place, port),
    }
}

/// What there is of the line at the port.
fn port_before(
    ports: &PortCheck,
    lines: &LineCheck,
    since: &Since,
    place: Option<usize>,
    line: u32,
    port: u8,
) -> PortBefore
    ensures { (r : Recording) → PortsTell ports.now r → LinesTell lines.now r
        → SinceStands r.header r.past since.now
        → place ≡ place_on lines.now (Some line)
        → result ≡ port_before r.header r.past line port }
{
    PortBefore {
        state: lines.state(place, port),
        since: since.of_state(line, port),
        copy: lines.copy(place, port),
        own: ports.own(port, line).copied(),
        snoop: snoop_before(lines, place, port),
    }
}

/// What there is of the line at each port.
fn ports_before(
    ports: &PortCheck,
    lines: &LineCheck,
    since: &Since,
    place: Option<usize>,
    line: u32,
) -> [PortBefore; 32]
    ensures { (r : Recording) → PortsTell ports.now r → LinesTell lines.now r
        → SinceStands r.header r.past since.now
        → place ≡ place_on lines.now (Some line)
        → result ≡ map (port_before r.header r.past line) (range_with_len 0 32) }
{
    let mut each = [PortBefore::NOTHING; 32];
    for port in 0..32u8 {
        each[usize::from(port)] = port_before(ports, lines, since, place, line, port);
    }
    each
}

/// The transaction that is granted on the line, and how far it has come.
fn granted(ports: &PortCheck, lines: &LineCheck, place: Option<usize>) -> Option<Progress>
    ensures { (r : Recording) (line : ℕ) → PortsTell ports.now r → LinesTell lines.now r
        → place ≡ place_on lines.now (Some line)
        → result ≡ option_map (progress_of r.header r.past) (granted r.header r.past line) }
{
    match lines.granted_transaction(place) {
        None => None,
        Some(x) => ports.outstanding(x.port, x.chan, x.id).copied(),
    }
}

/// What there is of the line.
fn line_before(ports: &PortCheck, lines: &LineCheck, since: &Since, line: u32) -> LineBefore
    ensures { (r : Recording) → PortsTell ports.now r → LinesTell lines.now r
        → SinceStands r.header r.past since.now
        → result ≡ line_before r.header r.past line }
{
    let place = lines.place(Some(line));
    LineBefore {
        line,
        ports: ports_before(ports, lines, since, place, line),
        memory: lines.memory(line),
        written: since.of_memory(line),
        granted: granted(ports, lines, place),
        grant: since.of_grant(line),
        passed: lines.passed_data(place),
    }
}

/// What there is of the line that the event is about, before the event; nothing where it is about
/// none.
pub fn before_event(
    ports: &PortCheck,
    lines: &LineCheck,
    since: &Since,
    event: &Event,
) -> Option<LineBefore>
    ensures { (r : Recording) → PortsTell ports.now r → LinesTell lines.now r
        → SinceStands r.header r.past since.now
        → result ≡ before_event r.header r.past event.now }
{
    match named_line(ports, event) {
        None => None,
        Some(line) => Some(line_before(ports, lines, since, line)),
    }
}
