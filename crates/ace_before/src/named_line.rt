// The line that an event is about.
ghost use Rattle.std.specs.Prelude.{◌≡◌};
ghost use Rattle.ace_before.specs.Looks.{named_line};
ghost use Rattle.ace_model.specs.AddressRules.{is_aligned};
ghost use Rattle.ace_model.specs.Trace.{option_filter};
ghost use Rattle.ace_portck.specs.Stands.{Stands};
ghost use Rattle.ace_portck.specs.Targets.{Recording};

use ace_belongs::event_line;
use ace_event::Event;
use ace_portck::PortCheck;

/// The address, if it is that of a line.
fn aligned(addr: Option<u32>) -> Option<u32>
    ensures { result ≡ option_filter is_aligned addr }
{
    match addr {
        Some(addr) => { if addr % 64 == 0 { Some(addr) } else { None } }
        None => None,
    }
}

/// The line that the event is about, where its address is that of a line.
pub(crate) fn named_line(ports: &PortCheck, event: &Event) -> Option<u32>
    ensures { (r : Recording) → Stands ports.now r
        → result ≡ named_line r.header r.past event.now }
{
    aligned(event_line(ports, event))
}
