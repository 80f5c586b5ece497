//! Putting several events in a burst.

ghost use Rattle.std.specs.Prelude.{◌≡◌, ◌≤◌, ◌+◌, ◌++◌, length};
ghost use Rattle.ace_runs.specs.Steps.{most_events};

use ace_engine::Burst;
use ace_event::Event;

/// Puts the events at the end of the burst.
pub fn push_all(events: &[Event], out: &mut Burst)
    requires { length out.old + length events.now ≤ most_events }
    ensures { out.new ≡ out.old ++ events.now }
{
    for event in events {
        out.push(*event);
    }
}
