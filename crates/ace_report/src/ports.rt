//! What each port did.

ghost use Rattle.std.specs.Prelude.{◌≡◌, ◌<◌, ◌-◌, ◌^◌, ◌∷◌, [], IfOk, length};
ghost use Rattle.ace_model.specs.Trace.{Trace};
ghost use Rattle.ace_report.specs.Heard.{PortsStand, counted, counted_port};

use crate::tally::PortTally;
use ace_event::Event;
use ace_io::NoMemory;
use std::alloc::Global;

/// So many ports that did nothing yet.
pub(crate) fn no_counts(alloc: Global, ports: u8) -> Result<Vec<PortTally>, NoMemory>
    ensures len { IfOk result (λ v. length v.items ≡ ports) }
    ensures ports { IfOk result (λ v. PortsStand [] v.items) }
{
    let none = PortTally {
        loads: 0,
        stores: 0,
        reads: 0,
        writes: 0,
    };
    vec![in alloc; none; usize::from(ports)].map_err(|_| NoMemory)
}

/// The tally of the event's port with the event.
#[inline(always)]
fn counted(tally: PortTally, event: &Event) -> PortTally
    ensures { result ≡ counted event.now tally }
{
    match event {
        Event::L { .. } => PortTally {
            loads: tally.loads.saturating_add(1),
            ..tally
        },
        Event::D { .. } => PortTally {
            stores: tally.stores.saturating_add(1),
            ..tally
        },
        Event::Ar { .. } => PortTally {
            reads: tally.reads.saturating_add(1),
            ..tally
        },
        Event::Aw { .. } => PortTally {
            writes: tally.writes.saturating_add(1),
            ..tally
        },
        _ => tally,
    }
}

/// The port of an event that is counted.
#[inline(always)]
fn counted_port(event: &Event) -> Option<u8>
    ensures { result ≡ counted_port event.now }
{
    match *event {
        Event::L { port, .. }
        | Event::D { port, .. }
        | Event::Ar { port, .. }
        | Event::Aw { port, .. } => Some(port),
        _ => None,
    }
}

/// Counts the event at its port.
#[inline(always)]
pub(crate) fn count(ports: &mut [PortTally], event: &Event)
    ensures len { length ports.new ≡ length ports.old }
    ensures ports { (past : Trace) → length past < 2 ^ 64 - 2 → PortsStand past ports.old
        → PortsStand (event.now ∷ past) ports.new }
{
    if let Some(port) = counted_port(event) {
        let place = usize::from(port);
        if place < ports.len() {
            ports[place] = counted(ports[place], event);
        }
    }
}
