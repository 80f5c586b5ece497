//! The clauses of K33: that an exclusive store stands on an exclusive load.

ghost use Rattle.std.specs.Prelude.{◌≡◌, ◌<◌, ℕ, Bool};
ghost use Rattle.ace_event.specs.Ports.{IsHeader};
ghost use Rattle.ace_event.specs.declared.event.Event.TheVariants.{D};
ghost use Rattle.ace_event.specs.declared.line.Line.{Line};
ghost use Rattle.ace_portck.specs.Targets.{Recording};
ghost use Rattle.ace_explain.specs.LastLoads.{LoadsStand};
ghost use Rattle.ace_explain.specs.Names.{Names};

use crate::last_loads::LastLoads;
use ace_clauses::Letter;
use ace_event::Event;

/// K33, of a D.
fn clause_of_d(loads: &LastLoads, port: u8, addr: u32) -> Letter
    ensures { (r : Recording) (strobe : ℕ) (x : Bool) (line : Line) → LoadsStand r.past loads.now
        → port < 32 → Names r (D port addr strobe x line) 33 result }
{
    let Some(load) = loads.of(port) else {
        return Letter::A;
    };
    if addr != load.line {
        return Letter::B;
    }
    if load.stored { Letter::C } else { Letter::D }
}

/// K33: a port that makes an exclusive store has made no exclusive load, or its last one is of
/// another line, or it has made an exclusive store since, or hasn't held the line ever since.
pub(crate) fn clause_of_k33(loads: &LastLoads, event: &Event) -> Letter
    ensures { (r : Recording) → IsHeader r.header → LoadsStand r.past loads.now
        → Names r event.now 33 result }
{
    match *event {
        Event::D { port, addr, .. } => clause_of_d(loads, port, addr),
        _ => Letter::A,
    }
}
