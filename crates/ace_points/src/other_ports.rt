// The other ports.
ghost use Rattle.std.specs.Prelude.{◌≡◌, ◌||◌, ◌&&◌, ℕ, Some};
ghost use Rattle.std.specs.List.{list_any};
ghost use Rattle.ace_lineck.specs.Stands.{Stands as LinesTell, place_on};
ghost use Rattle.ace_model.specs.Grants.{granted, ports_below, was_snooped};
ghost use Rattle.ace_model.specs.Messages.{is_other_ace};
ghost use Rattle.ace_model.specs.declared.transactions.Transaction.{Transaction as Issued};
ghost use Rattle.ace_points.specs.Asked.{has_taker, wants_line};
ghost use Rattle.ace_points.specs.Situations.{some_two};
ghost use Rattle.ace_portck.specs.Stands.{Stands as PortsTell};
ghost use Rattle.ace_portck.specs.Targets.{Recording};

use ace_event::Header;
use ace_lineck::{LineCheck, takes_grant};
use ace_model::Transaction;
use ace_model::kinds::is_ace;
use ace_portck::PortCheck;

/// The port has an outstanding transaction on the line that takes a grant.
fn has_taker(ports: &PortCheck, port: u8, line: u32) -> bool
    ensures { (r : Recording) → PortsTell ports.now r
        → result ≡ has_taker r.header r.past port line }
{
    match ports.own(port, line) {
        Some(y) => takes_grant(&y.transaction),
        None => false,
    }
}

/// The port is another one, and wants the line of the transaction.
fn wants_line(ports: &PortCheck, x: &Transaction, port: u8) -> bool
    ensures { (r : Recording) → PortsTell ports.now r
        → result ≡ wants_line r.header r.past x.now port }
{
    port != x.port && has_taker(ports, port, x.addr)
}

/// A port below this number wants the line of the transaction.
pub(crate) fn some_wants_line(ports: &PortCheck, x: &Transaction, count: u8) -> bool
    ensures { (r : Recording) → PortsTell ports.now r
        → result ≡ list_any (wants_line r.header r.past x.now) (ports_below count) }
{
    let mut any = false;
    for port in 0..count {
        any = wants_line(ports, x, port) || any;
    }
    any
}

/// A port below this number was snooped under the grant of the line.
pub(crate) fn some_snooped(lines: &LineCheck, place: Option<usize>, count: u8) -> bool
    ensures { (r : Recording) (line : ℕ) (x : Issued) → LinesTell lines.now r
        → place ≡ place_on lines.now (Some line) → granted r.header r.past line ≡ Some x
        → result ≡ list_any (λ q. was_snooped r.past q line) (ports_below count) }
{
    let mut any = false;
    for port in 0..count {
        any = lines.was_snooped(place, port) || any;
    }
    any
}

/// The port is an ACE port, and another one.
pub(crate) fn is_other_ace(header: &Header, own: u8, port: u8) -> bool
    ensures { result ≡ is_other_ace header.now own port }
{
    is_ace(header, port) && port != own
}

/// There is an ACE port beside this one.
pub(crate) fn has_other_ace(header: &Header, own: u8) -> bool
    ensures { result ≡ list_any (is_other_ace header.now own) (ports_below header.now.ports) }
{
    let mut any = false;
    for port in 0..header.ports {
        any = is_other_ace(header, own, port) || any;
    }
    any
}

/// Two ports below this number want the line of the transaction.
pub(crate) fn two_want_line(ports: &PortCheck, x: &Transaction, count: u8) -> bool
    ensures { (r : Recording) → PortsTell ports.now r
        → result ≡ some_two (wants_line r.header r.past x.now) (ports_below count) }
{
    let mut any = false;
    let mut two = false;
    for port in 0..count {
        let wants = wants_line(ports, x, port);
        two = (wants && any) || two;
        any = wants || any;
    }
    two
}

/// There are two ACE ports beside this one.
pub(crate) fn two_other_ace(header: &Header, own: u8) -> bool
    ensures { result ≡ some_two (is_other_ace header.now own) (ports_below header.now.ports) }
{
    let mut any = false;
    let mut two = false;
    for port in 0..header.ports {
        let is_other = is_other_ace(header, own, port);
        two = (is_other && any) || two;
        any = is_other || any;
    }
    two
}
