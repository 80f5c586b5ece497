//! The line that an event moves.

ghost use Rattle.std.specs.Prelude.{◌≡◌, ◌∷◌, ℕ, Some, option_map};
ghost use Rattle.std.specs.Option.{option_copied};
ghost use Rattle.ace_event.specs.declared.header.Header.{Header as Headers};
ghost use Rattle.ace_model.specs.Accepted.{IsAccepted};
ghost use Rattle.ace_model.specs.Trace.{Trace};
ghost use Rattle.ace_portck.specs.Stands.{Stands as PortsTell};
ghost use Rattle.ace_home.specs.HeldUp.{IsStill};

use ace_event::{Channel, Event};
use ace_model::Snoop;
use ace_portck::{PortCheck, Progress};

/// The address of the transaction, if there is one.
#[inline(always)]
fn address_of(x: Option<&Progress>) -> Option<u32>
    ensures { result ≡ option_map (λ v. v.transaction.addr) (option_copied x.entry) }
{
    match x {
        Some(x) => Some(x.transaction.addr),
        None => None,
    }
}

/// The address of the snoop, if there is one.
#[inline(always)]
fn snooped_address(snoop: Option<Snoop>) -> Option<u32>
    ensures { result ≡ option_map (λ s. s.addr) snoop }
{
    match snoop {
        Some(snoop) => Some(snoop.addr),
        None => None,
    }
}

/// The line of which something may change with the event, under its grant, in what its ports hold,
/// or in what they have to acknowledge. The ports are those before the event.
pub fn moved_line(event: &Event, ports: &PortCheck) -> Option<u32>
    ensures { (h : Headers) (past : Trace) (l : ℕ) → IsAccepted h (event.now ∷ past)
        → PortsTell ports.now (record { header = h; past = past })
        → (result ≡ Some l → ⊥) → IsStill h past event.now l }
{
    match *event {
        Event::Ac { addr, .. } => Some(addr),
        Event::S { addr, .. } => Some(addr),
        Event::Cr { port, .. } => snooped_address(ports.answered(port).copied()),
        Event::Cd { port, .. } => snooped_address(ports.sending(port)),
        Event::R { port, id, .. } => address_of(ports.outstanding(port, Channel::Read, id)),
        Event::B { port, id, .. } => address_of(ports.outstanding(port, Channel::Write, id)),
        Event::G { port, chan, id } => address_of(ports.outstanding(port, chan, id)),
        Event::M { port, chan, id, .. } => address_of(ports.outstanding(port, chan, id)),
        Event::Rk { port, .. } => address_of(ports.acknowledged(port, Channel::Read)),
        Event::Wk { port, .. } => address_of(ports.acknowledged(port, Channel::Write)),
        _ => None,
    }
}
