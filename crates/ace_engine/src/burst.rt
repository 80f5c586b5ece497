//! The events of one step.

ghost use Rattle.std.specs.Prelude.{◌≡◌, ◌<◌, ◌≤◌, [], ◌∷◌, ◌++◌, length, Some, slice_get};

use ace_event::Event;
use std::marker::Model;

/// At most 16 events, the oldest first.
#[derive(Drop)]
pub struct Burst {
    events: [Event; 16],
    count: u8,
}

impl Model for Burst {
    ghost use Rattle.std.specs.Prelude.{◌≤◌, ◌≡◌, List, length, take};
    ghost use Rattle.ace_event.specs.declared.event.Event.{Event};

    ghost Value = { List Event };

    ghost view = { λ b. take b.count b.events };

    ghost invariant = { λ b. (b.count ≤ 16) × (length b.events ≡ 16) };
}

impl Burst {
    ghost use Rattle.ace_runs.specs.Steps.{most_events};

    /// No events.
    pub fn empty() -> Burst
        ensures { result ≡ [] }
    {
        let unused = Event::B {
            port: 0,
            id: 0,
            resp: 0,
        };
        Burst {
            events: [unused; 16],
            count: 0,
        }
    }

    /// How many events it has.
    pub fn len(&self) -> u8
        ensures value { result ≡ length self.now }
        ensures most { result ≤ most_events }
    {
        self.count
    }

    /// The event with this number, from 0.
    pub fn get(&self, i: u8) -> Event
        requires { i < length self.now }
        ensures { slice_get self.now i ≡ Some result }
    {
        let _count = self.count;
        self.events[usize::from(i)]
    }

    /// Puts the event at the end.
    pub fn push(&mut self, event: Event)
        requires { length self.old < most_events }
        ensures { self.new ≡ self.old ++ event ∷ [] }
    {
        self.events[usize::from(self.count)] = event;
        self.count += 1;
    }
}
