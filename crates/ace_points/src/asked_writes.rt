// The rules that W, G, M, B and WK ask in earnest.
ghost use Rattle.std.specs.Prelude.{◌≡◌, ℕ, Bool};
ghost use Rattle.ace_codes.specs.declared.state.LineState.{LineState as State};
ghost use Rattle.ace_event.specs.declared.event.Event.TheVariants.{B, G, M, W, Wk};
ghost use Rattle.ace_event.specs.declared.line.Line.{Line as Data};
ghost use Rattle.ace_lineck.specs.Stands.{Stands as LinesTell};
ghost use Rattle.ace_model.specs.Writes.{next_write_beat};
ghost use Rattle.ace_points.specs.Asked.{asked, asked_by_grant, asked_by_response, asked_by_wack, updates_word, writes_late};
ghost use Rattle.ace_portck.specs.Stands.{Stands as PortsTell};
ghost use Rattle.ace_portck.specs.Targets.{Recording};
ghost use Rattle.ace_sysck.specs.Stands.{Stands as SystemTells};

use crate::asks::{asks, of_three};
use crate::barriers::{answers_early, is_before_barrier};
use crate::line_words::has_word;
use crate::other_ports::some_wants_line;
use crate::outstanding::outstanding_count;
use crate::point::Point;
use crate::under_grant::has_snooped;
use ace_event::{Channel, Header};
use ace_lineck::LineCheck;
use ace_model::Transaction;
use ace_model::kinds::{gives_up, has_write_data, updates_memory, write_kind};
use ace_portck::PortCheck;
use ace_sysck::SysCheck;

/// The write is a memory update that sends a word other than 0.
fn updates_word(ports: &PortCheck, lines: &LineCheck, port: u8, x: &Transaction) -> bool
    ensures { (r : Recording) → PortsTell ports.now r → LinesTell lines.now r
        → result ≡ updates_word r.past port x.now }
{
    let copy = lines.copy(lines.place(Some(x.addr)), port);
    updates_memory(x) && has_word(&copy, ports.next_write_beat(port))
}

/// A W.
pub(crate) fn asked_at_write(ports: &PortCheck, lines: &LineCheck, port: u8) -> [Option<Point>; 8]
    ensures { (r : Recording) (strobe : ℕ) (last : Bool) (word : ℕ) → PortsTell ports.now r
        → LinesTell lines.now r → result ≡ asked r.header r.past (W port strobe last word) }
{
    let is_asked = match ports.next_write(port) {
        Some(x) => updates_word(ports, lines, port, &x),
        None => false,
    };
    of_three(asks(11, is_asked), None, None)
}

/// The transaction has its grant.
fn asked_by_grant(ports: &PortCheck, system: &SysCheck, x: &Transaction) -> [Option<Point>; 8]
    ensures { (r : Recording) → PortsTell ports.now r → SystemTells system.now r
        → result ≡ asked_by_grant r.header r.past x.now }
{
    of_three(
        asks(12, some_wants_line(ports, x, ports.header().ports)),
        asks(35, is_before_barrier(system, x)),
        None,
    )
}

/// A G.
pub(crate) fn asked_at_grant(
    ports: &PortCheck,
    system: &SysCheck,
    port: u8,
    chan: Channel,
    id: u8,
) -> [Option<Point>; 8]
    ensures { (r : Recording) → PortsTell ports.now r → SystemTells system.now r
        → result ≡ asked r.header r.past (G port chan id) }
{
    match ports.outstanding(port, chan, id) {
        Some(x) => asked_by_grant(ports, system, &x.transaction),
        None => of_three(None, None, None),
    }
}

/// The transaction writes passed data or an update, or snoops were to be awaited.
fn writes_late(lines: &LineCheck, header: &Header, x: &Transaction) -> bool
    ensures { (r : Recording) → LinesTell lines.now r → header.now ≡ r.header
        → result ≡ writes_late r.header r.past x.now }
{
    matches!(x.chan, Channel::Read) || updates_memory(x) || has_snooped(lines, header, x)
}

/// An M.
pub(crate) fn asked_at_memory_write(
    ports: &PortCheck,
    lines: &LineCheck,
    port: u8,
    chan: Channel,
    id: u8,
) -> [Option<Point>; 8]
    ensures { (r : Recording) (line : Data) → PortsTell ports.now r → LinesTell lines.now r
        → result ≡ asked r.header r.past (M port chan id line) }
{
    match ports.outstanding(port, chan, id) {
        Some(x) => {
            let is_late = writes_late(lines, ports.header(), &x.transaction);
            of_three(asks(24, is_late), asks(25, true), None)
        }
        None => of_three(None, None, None),
    }
}

/// The write has its response.
fn asked_by_response(ports: &PortCheck, system: &SysCheck, x: &Transaction) -> [Option<Point>; 8]
    ensures { (r : Recording) → PortsTell ports.now r → SystemTells system.now r
        → result ≡ asked_by_response r.past x.now }
{
    of_three(
        asks(26, write_kind(x).is_some_and(has_write_data)),
        asks(34, answers_early(ports, system, x)),
        None,
    )
}

/// A B.
pub(crate) fn asked_at_response(
    ports: &PortCheck,
    system: &SysCheck,
    port: u8,
    id: u8,
) -> [Option<Point>; 8]
    ensures { (r : Recording) (resp : ℕ) → PortsTell ports.now r → SystemTells system.now r
        → result ≡ asked r.header r.past (B port id resp) }
{
    match ports.outstanding(port, Channel::Write, id) {
        Some(x) => asked_by_response(ports, system, &x.transaction),
        None => of_three(None, None, None),
    }
}

/// The write is acknowledged.
fn asked_by_wack(ports: &PortCheck, x: &Transaction) -> [Option<Point>; 8]
    ensures { (r : Recording) → PortsTell ports.now r
        → result ≡ asked_by_wack r.header r.past x.now }
{
    let writes = outstanding_count(ports, x.port, Channel::Write);
    of_three(
        asks(27, writes > 1),
        asks(28, write_kind(x).is_some_and(gives_up)),
        None,
    )
}

/// A WK.
pub(crate) fn asked_at_wack(ports: &PortCheck, port: u8) -> [Option<Point>; 8]
    ensures { (r : Recording) (st : State) → PortsTell ports.now r
        → result ≡ asked r.header r.past (Wk port st) }
{
    match ports.acknowledged(port, Channel::Write) {
        Some(x) => asked_by_wack(ports, &x.transaction),
        None => of_three(None, None, None),
    }
}
