// What an event shows.
ghost use Rattle.std.specs.Prelude.{◌≡◌};
ghost use Rattle.ace_lineck.specs.Stands.{Stands as LinesTell};
ghost use Rattle.ace_points.specs.Shown.{points_of, rows_shown, shown};
ghost use Rattle.ace_portck.specs.Stands.{Stands as PortsTell};
ghost use Rattle.ace_portck.specs.Targets.{Recording};
ghost use Rattle.ace_sysck.specs.Stands.{Stands as SystemTells};

use crate::asked::asked;
use crate::ends::{answer_shown, both_shown, grant_shown, read_end_shown, write_end_shown};
use crate::issues::issue_shown;
use crate::met::met;
use crate::point::Point;
use crate::states::state_at;
use ace_event::Event;
use ace_lineck::LineCheck;
use ace_portck::{PortCheck, issued};
use ace_sysck::SysCheck;

/// The points that an event shows.
#[derive(Clone, Copy)]
pub struct PointsShown {
    /// Rows of the tables.
    pub rows: [Option<Point>; 5],
    /// Rules that it asks in earnest.
    pub rules: [Option<Point>; 8],
    /// Situations.
    pub situations: [Option<Point>; 5],
}

/// The rows of the tables that the next event of the trace shows.
fn rows_shown(
    ports: &PortCheck,
    lines: &LineCheck,
    system: &SysCheck,
    event: &Event,
) -> [Option<Point>; 5]
    ensures { (r : Recording) → PortsTell ports.now r → LinesTell lines.now r
        → SystemTells system.now r → result ≡ rows_shown r.header r.past event.now }
{
    match *event {
        Event::Ar { .. } | Event::Aw { .. } => match issued(ports.place(), event) {
            Some(x) => issue_shown(ports, lines, system, &x),
            None => both_shown(None, None),
        },
        Event::G { port, chan, id } => {
            both_shown(grant_shown(ports, system, port, chan, id), None)
        }
        Event::Rk { port, st } => {
            both_shown(read_end_shown(ports, lines, system, port, st), None)
        }
        Event::Wk { port, st } => both_shown(write_end_shown(ports, lines, port, st), None),
        Event::Cr { port, resp, st } => answer_shown(ports, lines, port, resp, st),
        Event::S { port, addr, st } => {
            let from = state_at(lines, port, addr);
            both_shown(Some(Point::Silent { from, to: st }), None)
        }
        _ => both_shown(None, None),
    }
}

/// The points that the next event of the trace shows.
pub fn shown(ports: &PortCheck, lines: &LineCheck, system: &SysCheck, event: &Event) -> PointsShown
    ensures { (r : Recording) → PortsTell ports.now r → LinesTell lines.now r
        → SystemTells system.now r → points_of result ≡ shown r.header r.past event.now }
{
    PointsShown {
        rows: rows_shown(ports, lines, system, event),
        rules: asked(ports, lines, system, event),
        situations: met(ports, lines, system, event),
    }
}
