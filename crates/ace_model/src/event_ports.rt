//! The port of an event.

ghost use Rattle.std.specs.Prelude.{◌≡◌};
ghost use Rattle.ace_model.specs.Trace.{port_of};

use ace_event::Event;

/// The port that the event names.
#[inline(always)]
pub fn port_of(event: &Event) -> Option<u8>
    ensures { result ≡ port_of event.now }
{
    match *event {
        Event::Ar { port, .. }
        | Event::R { port, .. }
        | Event::Rk { port, .. }
        | Event::Aw { port, .. }
        | Event::W { port, .. }
        | Event::B { port, .. }
        | Event::Wk { port, .. }
        | Event::Ac { port, .. }
        | Event::Cr { port, .. }
        | Event::Cd { port, .. }
        | Event::G { port, .. }
        | Event::M { port, .. }
        | Event::S { port, .. }
        | Event::L { port, .. }
        | Event::D { port, .. }
        | Event::Op { port, .. } => Some(port),
        Event::Mem { .. } => None,
    }
}
