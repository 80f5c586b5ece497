// The situations that the issue and the grant of a transaction show.
ghost use Rattle.std.specs.Prelude.{◌≡◌};
ghost use Rattle.std.specs.List.{list_any};
ghost use Rattle.ace_event.specs.declared.event.Event.TheVariants.{G};
ghost use Rattle.ace_lineck.specs.Stands.{Stands as LinesTell};
ghost use Rattle.ace_model.specs.Grants.{ports_below};
ghost use Rattle.ace_points.specs.Situations.{awaits_message, barrier_waits, has_rival, has_store_of, makes_sixteen, message_waits, met, met_by_grant, met_by_issue, passes_rival, sends_behind, waits_for_grant};
ghost use Rattle.ace_portck.specs.Stands.{Stands as PortsTell};
ghost use Rattle.ace_portck.specs.Targets.{Recording};
ghost use Rattle.ace_sysck.specs.Stands.{Stands as SystemTells};

use crate::asked_reads::is_message_part;
use crate::barriers::ignores_barrier;
use crate::meets::{meets, of_two};
use crate::other_ports::{is_other_ace, two_want_line};
use crate::outstanding::outstanding_count;
use crate::point::Point;
use crate::situation::Situation;
use ace_event::{Channel, Header};
use ace_lineck::{LineCheck, takes_grant};
use ace_model::Transaction;
use ace_model::kinds::{has_write_data, is_barrier_half, is_exclusive_store, write_kind};
use ace_portck::PortCheck;
use ace_sysck::SysCheck;

/// Another transaction is granted on the line.
fn waits_for_grant(lines: &LineCheck, x: &Transaction) -> bool
    ensures { (r : Recording) → LinesTell lines.now r
        → result ≡ waits_for_grant r.header r.past x.now }
{
    takes_grant(x)
        && lines
            .granted_transaction(lines.place(Some(x.addr)))
            .is_some()
}

/// The data of the transaction stand behind those of another write.
fn sends_behind(ports: &PortCheck, x: &Transaction) -> bool
    ensures { (r : Recording) → PortsTell ports.now r → result ≡ sends_behind r.past x.now }
{
    write_kind(x).is_some_and(has_write_data) && ports.next_write(x.port).is_some()
}

/// The transaction is a half of a barrier that has to wait for what came before.
fn barrier_waits(ports: &PortCheck, x: &Transaction) -> bool
    ensures { (r : Recording) → PortsTell ports.now r → result ≡ barrier_waits r.past x.now }
{
    let awaited = if x.bar == 3 {
        ports.first_incomplete(x.port)
    } else {
        ports.first_unordered(x.port)
    };
    is_barrier_half(x) && awaited.is_some()
}

/// The port is another ACE port, and a message waits to be forwarded to it.
fn awaits_message(system: &SysCheck, header: &Header, own: u8, port: u8) -> bool
    ensures { (r : Recording) → SystemTells system.now r → header.now ≡ r.header
        → result ≡ awaits_message r.header r.past own port }
{
    is_other_ace(header, own, port) && system.next_message(port).is_some()
}

/// A message waits to be forwarded to another port.
fn some_awaits_message(system: &SysCheck, header: &Header, own: u8) -> bool
    ensures { (r : Recording) → SystemTells system.now r → header.now ≡ r.header
        → result ≡ list_any (awaits_message r.header r.past own) (ports_below r.header.ports) }
{
    let mut any = false;
    for port in 0..header.ports {
        any = awaits_message(system, header, own, port) || any;
    }
    any
}

/// The transaction is a part of a message, and another message waits.
fn message_waits(system: &SysCheck, header: &Header, x: &Transaction) -> bool
    ensures { (r : Recording) → SystemTells system.now r → header.now ≡ r.header
        → result ≡ message_waits r.header r.past x.now }
{
    is_message_part(x) && some_awaits_message(system, header, x.port)
}

/// Fifteen transactions of the port are outstanding, and one more comes.
fn makes_sixteen(ports: &PortCheck, port: u8) -> bool
    ensures { (r : Recording) → PortsTell ports.now r
        → result ≡ makes_sixteen r.header r.past port }
{
    let reads = outstanding_count(ports, port, Channel::Read);
    let writes = outstanding_count(ports, port, Channel::Write);
    reads > 14 || writes > 14 || reads + writes > 14
}

/// The transaction is issued.
pub(crate) fn met_by_issue(
    ports: &PortCheck,
    lines: &LineCheck,
    system: &SysCheck,
    x: &Transaction,
) -> [Option<Point>; 5]
    ensures { (r : Recording) → PortsTell ports.now r → LinesTell lines.now r
        → SystemTells system.now r → result ≡ met_by_issue r.header r.past x.now }
{
    [
        meets(Situation::WaitsForGrant, waits_for_grant(lines, x)),
        meets(Situation::TwoWritesSend, sends_behind(ports, x)),
        meets(Situation::BarrierWaits, barrier_waits(ports, x)),
        meets(
            Situation::MessageWaits,
            message_waits(system, ports.header(), x),
        ),
        meets(Situation::SixteenOutstanding, makes_sixteen(ports, x.port)),
    ]
}

/// The port has an exclusive store of the line outstanding.
fn has_store_of(ports: &PortCheck, port: u8, line: u32) -> bool
    ensures { (r : Recording) → PortsTell ports.now r
        → result ≡ has_store_of r.header r.past port line }
{
    match ports.own(port, line) {
        Some(y) => is_exclusive_store(&y.transaction),
        None => false,
    }
}

/// The port is another one, and has an exclusive store of the line outstanding.
fn has_rival(ports: &PortCheck, x: &Transaction, port: u8) -> bool
    ensures { (r : Recording) → PortsTell ports.now r
        → result ≡ has_rival r.header r.past x.now port }
{
    port != x.port && has_store_of(ports, port, x.addr)
}

/// A port below this number has an exclusive store of the line outstanding.
fn some_rival(ports: &PortCheck, x: &Transaction, count: u8) -> bool
    ensures { (r : Recording) → PortsTell ports.now r
        → result ≡ list_any (has_rival r.header r.past x.now) (ports_below count) }
{
    let mut any = false;
    for port in 0..count {
        any = has_rival(ports, x, port) || any;
    }
    any
}

/// The exclusive store passes while another one is outstanding.
fn passes_rival(ports: &PortCheck, system: &SysCheck, x: &Transaction) -> bool
    ensures { (r : Recording) → PortsTell ports.now r → SystemTells system.now r
        → result ≡ passes_rival r.header r.past x.now }
{
    is_exclusive_store(x)
        && system.is_registered(x.port, x.addr)
        && some_rival(ports, x, ports.header().ports)
}

/// The transaction has its grant.
fn met_by_grant(ports: &PortCheck, system: &SysCheck, x: &Transaction) -> [Option<Point>; 5]
    ensures { (r : Recording) → PortsTell ports.now r → SystemTells system.now r
        → result ≡ met_by_grant r.header r.past x.now }
{
    let is_third = two_want_line(ports, x, ports.header().ports);
    [
        meets(Situation::ThreeWantLine, is_third),
        meets(Situation::StorePassesRival, passes_rival(ports, system, x)),
        meets(Situation::BarrierIgnored, ignores_barrier(system, x)),
        None,
        None,
    ]
}

/// A G.
pub(crate) fn met_at_grant(
    ports: &PortCheck,
    system: &SysCheck,
    port: u8,
    chan: Channel,
    id: u8,
) -> [Option<Point>; 5]
    ensures { (r : Recording) → PortsTell ports.now r → SystemTells system.now r
        → result ≡ met r.header r.past (G port chan id) }
{
    match ports.outstanding(port, chan, id) {
        Some(x) => met_by_grant(ports, system, &x.transaction),
        None => of_two(None, None),
    }
}
