//! What a port asks by.

ghost use Rattle.std.specs.Prelude.{◌≡◌, ◌≤◌, ◌+◌, ◌++◌, length};
ghost use Rattle.ace_runs.specs.Steps.{most_events};
ghost use Rattle.ace_master.specs.Asking.{events_of};

use ace_engine::Burst;
use ace_event::Event;

/// What a port asks by: one event, or two at once.
#[derive(Clone, Copy, Debug, PartialEq, Eq)]
pub enum Asking {
    One(Event),
    Two(Event, Event),
}

impl Asking {
    /// Puts its events at the end of the burst.
    pub fn put(self, out: &mut Burst)
        requires { length out.old + 2 ≤ most_events }
        ensures { out.new ≡ out.old ++ events_of self }
    {
        match self {
            Asking::One(event) => out.push(event),
            Asking::Two(first, second) => {
                out.push(first);
                out.push(second);
            }
        }
    }
}
