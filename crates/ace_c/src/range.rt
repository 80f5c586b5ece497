// Whether the numbers of an event are in range.
ghost use Rattle.std.specs.Prelude.{◌<◌, ◌^◌, ◌↔◌, IsTrue};
ghost use Rattle.ace_event.specs.Range.{IsPort};
ghost use Rattle.ace_c.specs.Names.{with_address};
ghost use Rattle.ace_c.specs.Range.{FitsAddress, InRange, IsIdentifier};

use ace_codes::{read_ar, read_aw};
use ace_event::Event;
use ace_event::laws::every_event_fits;
use ace_model::kinds::{is_line_read, is_line_write, snoops_a_line};

fn identifier_fits(id: u8)
    ensures { IsIdentifier id }
{}

fn line_fits(addr: u64)
    ensures { addr < 2 ^ 64 }
{}

/// Whether the address has the bytes of the address of a line, or of another.
#[inline(always)]
fn is_address(of_line: bool, addr: u64) -> bool
    ensures { IsTrue result ↔ FitsAddress of_line addr }
{
    line_fits(addr);
    if of_line { true } else { addr <= 0xffff_ffff }
}

fn number_fits(k: u16)
    ensures { k < 2 ^ 16 }
{}

/// Whether the port has the digits of a port in a trace of the version.
fn is_port(version: u8, port: u8) -> bool
    ensures { IsTrue result ↔ IsPort version port }
{
    version != 1 || port < 16
}

/// Whether the numbers of the event have the digits of their fields in a trace of the version, with
/// this address.
#[inline(always)]
pub(crate) fn is_in_range(version: u8, event: &Event, addr: u64) -> bool
    ensures { IsTrue result ↔ InRange version (with_address event.now addr) }
{
    every_event_fits(*event);
    line_fits(addr);
    match event {
        Event::Ar {
            port,
            id,
            snoop,
            dom,
            bar,
            ..
        } => {
            identifier_fits(*id);
            is_port(version, *port)
                && is_address(read_ar(*snoop, *dom, *bar).is_some_and(is_line_read), addr)
                && *snoop < 16
                && *dom <= 3
                && *bar <= 3
        }
        Event::Aw {
            port,
            id,
            snoop,
            dom,
            bar,
            ..
        } => {
            identifier_fits(*id);
            is_port(version, *port)
                && is_address(read_aw(*snoop, *dom, *bar).is_some_and(is_line_write), addr)
                && *snoop <= 7
                && *dom <= 3
                && *bar <= 3
        }
        Event::R { port, id, resp, .. } => {
            identifier_fits(*id);
            is_port(version, *port) && *resp < 16
        }
        Event::B { port, id, resp } => {
            identifier_fits(*id);
            is_port(version, *port) && *resp <= 3
        }
        Event::Ac { port, snoop, .. } => {
            is_port(version, *port) && is_address(snoops_a_line(*snoop), addr) && *snoop < 16
        }
        Event::Cr { port, resp, .. } => is_port(version, *port) && *resp <= 31,
        Event::G { port, id, .. } => {
            identifier_fits(*id);
            is_port(version, *port)
        }
        Event::M { port, id, .. } => {
            identifier_fits(*id);
            is_port(version, *port)
        }
        Event::S { port, .. } => is_port(version, *port),
        Event::D { port, .. } => is_port(version, *port),
        Event::L { port, w, .. } => is_port(version, *port) && *w <= 3,
        Event::Op { port, k, .. } => {
            number_fits(*k);
            is_port(version, *port)
        }
        Event::Rk { port, .. } => is_port(version, *port),
        Event::Wk { port, .. } => is_port(version, *port),
        Event::W { port, .. } => is_port(version, *port),
        Event::Cd { port, .. } => is_port(version, *port),
        Event::Mem { .. } => version != 1,
    }
}
