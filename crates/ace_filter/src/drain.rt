//! Runs in which only the ports that may hold a line are snooped for it.

ghost use Rattle.std.specs.Prelude.{◌≡◌, ◌<◌, ◌≤◌, ◌-◌, true, false, List, IsTrue, length, reverse, take};
ghost use Rattle.ace_event.specs.declared.event.Event.{Event};
ghost use Rattle.ace_model.specs.Lines.{known_lines};
ghost use Rattle.ace_model.specs.Plans.{Plan};
ghost use Rattle.ace_runs.specs.Follows.{Done};
ghost use Rattle.ace_engine.specs.Engines.{IsLegal};
ghost use Rattle.ace_home.specs.Among.{IsStepAmong, is_enabled_among};
ghost use Rattle.ace_fabric.specs.Runs.{continued};
ghost use Rattle.ace_filter.specs.Drain.{are_kept_snoops};
ghost use Rattle.ace_filter.specs.Filter.{FilterStands, is_set, room_of};

use crate::Filter;
use ace_event::Event;
use ace_fabric::{System, Turn};

/// Hears the events from this one on, which come after those that it heard.
fn hear_from(filter: &mut Filter, events: &[Event], from: usize)
    ensures stands { (plan : Plan) → IsLegal plan (reverse events.now)
        → length plan.operations ≤ room_of filter.old
        → FilterStands filter.old plan.header (reverse (take from events.now))
        → FilterStands filter.new plan.header (reverse events.now) }
    ensures room { room_of filter.new ≡ room_of filter.old }
{
    for i in from..events.len() {
        filter.hear(&events[i]);
    }
}

/// A turn of the port, whose events the filter hears.
fn turn_of(system: &mut System, filter: &mut Filter, port: u8) -> Turn
    requires port { port < system.old.plan.header.ports }
    requires heard { FilterStands filter.old system.old.plan.header system.old.past }
    requires room { length system.old.plan.operations ≤ room_of filter.old }
    ensures moved { result ≡ Turn.Moved → (burst : List Event)
        × IsStepAmong (is_set filter.old) system.old.plan system.old.past port burst
        × (system.new ≡ continued burst system.old) }
    ensures idle { result ≡ Turn.Idle → (system.new ≡ system.old) × (filter.new ≡ filter.old)
        × (is_enabled_among (is_set filter.old) system.old.plan system.old.past port ≡ false) }
    ensures heard { FilterStands filter.new system.new.plan.header system.new.past }
    ensures room { room_of filter.new ≡ room_of filter.old }
{
    let heard = system.trace().len();
    match system.turn_among(port, filter) {
        Turn::Idle => Turn::Idle,
        Turn::Moved => {
            system.keeps();
            hear_from(filter, system.trace(), heard);
            Turn::Moved
        }
    }
}

/// A turn of each port, in order, and whether one of them put a step. Where none did, the run is
/// done.
fn round(system: &mut System, filter: &mut Filter) -> bool
    requires heard { FilterStands filter.old system.old.plan.header system.old.past }
    requires room { length system.old.plan.operations ≤ room_of filter.old }
    ensures kept { (events : List Event) × (system.new ≡ continued events system.old)
        × (are_kept_snoops system.old.plan.header system.old.past events ≡ true) }
    ensures heard { FilterStands filter.new system.new.plan.header system.new.past }
    ensures room { room_of filter.new ≡ room_of filter.old }
    ensures longer { IsTrue result → length system.old.past < length system.new.past }
    ensures done { result ≡ false → Done system.new.plan system.new.past }
{
    let mut moved = false;
    for port in 0..system.plan().view().header().ports {
        system.keeps();
        match turn_of(system, filter, port) {
            Turn::Moved => moved = true,
            Turn::Idle => {}
        }
    }
    system.keeps();
    moved
}

/// Rounds of turns of the ports, in which only the ports that the filter has for a line are snooped
/// for it, until the run is done. The filter has heard the trace, and hears each event of the
/// turns. It takes no memory.
pub fn drain_filtered(system: &mut System, filter: &mut Filter)
    requires heard { FilterStands filter.old system.old.plan.header system.old.past }
    requires room { length system.old.plan.operations
        ≤ room_of filter.old - length (known_lines system.old.past) }
    ensures kept { (events : List Event) × (system.new ≡ continued events system.old)
        × (are_kept_snoops system.old.plan.header system.old.past events ≡ true) }
    ensures done { Done system.new.plan system.new.past }
    ensures heard { FilterStands filter.new system.new.plan.header system.new.past }
{
    while round(system, filter) {
        system.keeps();
    }
}
