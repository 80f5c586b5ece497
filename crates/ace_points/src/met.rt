// The situations that an event shows.
ghost use Rattle.std.specs.Prelude.{◌≡◌};
ghost use Rattle.ace_lineck.specs.Stands.{Stands as LinesTell};
ghost use Rattle.ace_points.specs.Situations.{met, met_by_operation};
ghost use Rattle.ace_portck.specs.Stands.{Stands as PortsTell};
ghost use Rattle.ace_portck.specs.Targets.{Recording};
ghost use Rattle.ace_sysck.specs.Stands.{Stands as SystemTells};

use crate::line_words::is_zero;
use crate::meets::{meets, of_two};
use crate::met_answers::met_at_answer;
use crate::met_issues::{met_at_grant, met_by_issue};
use crate::met_lines::{met_at_load, met_at_rack, met_at_store};
use crate::met_writes::{met_at_memory_write, met_at_snoop, met_at_transfer, met_at_write};
use crate::point::Point;
use crate::situation::Situation;
use ace_event::{Event, Outcome};
use ace_lineck::LineCheck;
use ace_portck::{PortCheck, issued};
use ace_sysck::SysCheck;

/// An operation fails or is skipped.
fn met_by_operation(outcome: Outcome) -> Option<Point>
    ensures { result ≡ met_by_operation outcome }
{
    match outcome {
        Outcome::Fail => Some(Point::Met {
            situation: Situation::OperationFails,
        }),
        Outcome::Skip => Some(Point::Met {
            situation: Situation::OperationSkipped,
        }),
        Outcome::Ok => None,
    }
}

/// The situations that the next event of the trace shows.
pub(crate) fn met(
    ports: &PortCheck,
    lines: &LineCheck,
    system: &SysCheck,
    event: &Event,
) -> [Option<Point>; 5]
    ensures { (r : Recording) → PortsTell ports.now r → LinesTell lines.now r
        → SystemTells system.now r → result ≡ met r.header r.past event.now }
{
    match *event {
        Event::Ar { .. } | Event::Aw { .. } => match issued(ports.place(), event) {
            Some(x) => met_by_issue(ports, lines, system, &x),
            None => of_two(None, None),
        },
        Event::G { port, chan, id } => met_at_grant(ports, system, port, chan, id),
        Event::Ac { port, snoop, .. } => met_at_snoop(ports, port, snoop),
        Event::Cr { port, resp, st } => met_at_answer(ports, lines, port, resp, st),
        Event::R { port, id, .. } => met_at_transfer(ports, lines, port, id),
        Event::Rk { port, st } => met_at_rack(ports, lines, port, st),
        Event::W { port, strb, .. } => met_at_write(ports, port, strb),
        Event::M { port, chan, id, .. } => met_at_memory_write(ports, lines, port, chan, id),
        Event::L { port, addr, .. } => met_at_load(lines, port, addr),
        Event::D { port, addr, .. } => met_at_store(ports, port, addr),
        Event::Op { res, .. } => of_two(met_by_operation(res), None),
        Event::Mem { line, .. } => { of_two(meets(Situation::MemoryOpens, !is_zero(&line)), None) }
        _ => of_two(None, None),
    }
}
