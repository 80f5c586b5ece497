//! What the rules ask of the header and of an event alone.

ghost use Rattle.std.specs.Prelude.{◌≡◌, ◌==◌, ◌%◌, ◌&&◌, nat_lt, if◌then◌else◌, None};
ghost use Rattle.ace_model.specs.Trace.{is_some_and, port_of};
ghost use Rattle.ace_model.specs.Transactions.{is_ace};

use ace_event::{Event, Header};
use ace_model::kinds::is_ace;
use ace_model::port_of;

/// The event is one of the port.
pub fn is_at(event: &Event, port: u8) -> bool
    ensures { result ≡ is_some_and (port_of event.now) (λ q. q == port) }
{
    match port_of(event) {
        Some(own) => own == port,
        None => false,
    }
}

/// The port is in the header.
#[inline(always)]
pub fn has_port(header: &Header, port: u8) -> bool
    ensures { result ≡ nat_lt port header.now.ports }
{
    port < header.ports
}

/// The port is an ACE port of the header.
#[inline(always)]
pub fn has_ace_port(header: &Header, port: u8) -> bool
    ensures { result ≡ (nat_lt port header.now.ports && is_ace header.now port) }
{
    port < header.ports && is_ace(header, port)
}

/// The address is that of a line: a multiple of 64.
#[inline(always)]
pub fn is_line_address(addr: u32) -> bool
    ensures { result ≡ (addr % 64 == 0) }
{
    addr % 64 == 0
}

/// The rule, unless what it asks is so.
#[inline(always)]
pub fn unless(fits: bool, rule: Option<u8>) -> Option<u8>
    ensures { result ≡ (if fits then None else rule) }
{
    if fits { None } else { rule }
}
