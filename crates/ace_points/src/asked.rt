// The rules that an event asks in earnest.
ghost use Rattle.std.specs.Prelude.{◌≡◌};
ghost use Rattle.ace_lineck.specs.Stands.{Stands as LinesTell};
ghost use Rattle.ace_points.specs.Asked.{asked};
ghost use Rattle.ace_portck.specs.Stands.{Stands as PortsTell};
ghost use Rattle.ace_portck.specs.Targets.{Recording};
ghost use Rattle.ace_sysck.specs.Stands.{Stands as SystemTells};

use crate::asked_lines::{asked_at_answer, asked_at_data, asked_at_load, asked_by_snoop};
use crate::asked_reads::{asked_at_rack, asked_at_transfer, asked_by_issue};
use crate::asked_writes::{
    asked_at_grant, asked_at_memory_write, asked_at_response, asked_at_wack, asked_at_write,
};
use crate::asks::{asks, of_three};
use crate::point::Point;
use ace_event::Event;
use ace_lineck::LineCheck;
use ace_portck::{PortCheck, issued};
use ace_sysck::SysCheck;

/// The rules that the next event of the trace asks in earnest.
pub(crate) fn asked(
    ports: &PortCheck,
    lines: &LineCheck,
    system: &SysCheck,
    event: &Event,
) -> [Option<Point>; 8]
    ensures { (r : Recording) → PortsTell ports.now r → LinesTell lines.now r
        → SystemTells system.now r → result ≡ asked r.header r.past event.now }
{
    match *event {
        Event::Ar { .. } | Event::Aw { .. } => match issued(ports.place(), event) {
            Some(x) => asked_by_issue(ports, lines, system, &x),
            None => of_three(None, None, None),
        },
        Event::W { port, .. } => asked_at_write(ports, lines, port),
        Event::G { port, chan, id } => asked_at_grant(ports, system, port, chan, id),
        Event::Ac { port, snoop, .. } => asked_by_snoop(ports, system, port, snoop),
        Event::Cr { port, .. } => asked_at_answer(ports, lines, port),
        Event::Cd { port, .. } => asked_at_data(ports, port),
        Event::R { port, id, .. } => asked_at_transfer(ports, lines, system, port, id),
        Event::Rk { port, .. } => asked_at_rack(ports, port),
        Event::M { port, chan, id, .. } => asked_at_memory_write(ports, lines, port, chan, id),
        Event::B { port, id, .. } => asked_at_response(ports, system, port, id),
        Event::Wk { port, .. } => asked_at_wack(ports, port),
        Event::S { .. } => of_three(asks(29, true), None, None),
        Event::L { port, addr, w, .. } => asked_at_load(lines, port, addr, w),
        Event::D { x, .. } => of_three(asks(32, true), asks(33, x), None),
        Event::Op { .. } => of_three(asks(40, true), None, None),
        Event::Mem { .. } => of_three(None, None, None),
    }
}
