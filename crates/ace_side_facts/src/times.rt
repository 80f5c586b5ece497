// The times of events.
ghost use Rattle.std.specs.Prelude.{◌≤◌, length};
ghost use Rattle.std.specs.List.Sorted.{IsNonDecreasing};

use ace_io::NoMemory;
use std::alloc::Global;

/// The times of events, as far as they are settled: no line that comes can change them.
#[derive(Drop)]
pub struct EventTimes {
    /// The events, none of which is greater than a later one.
    pub events: Vec<u64>,
    /// The times of the first of them.
    pub times: Vec<Option<u64>>,
    /// The last time, which is that of the others unless another one comes.
    pub last: Option<u64>,
    ghost few: { length times.items ≤ length events.items },
    ghost rise: { IsNonDecreasing events.items },
}

impl EventTimes {
    ghost use Rattle.std.specs.Prelude.{◌≡◌, ◌<◌, ◌==◌, ℕ, true, None, Some, [], ◌∷◌, List, map, position, nat_lt, slice_index, slice_index_or, if◌then◌else◌, Bool, IfOk, OnOk};
    ghost use Rattle.std.specs.List.Sorted.{IsPermutation};
    ghost use Rattle.ace_side.specs.Order.{may_follow};
    ghost use Rattle.ace_side.specs.declared.line.SideLine.{SideLine};
    ghost use Rattle.ace_side.specs.declared.line.SideLine.TheVariants.{Time};
    ghost use Rattle.ace_side_facts.specs.Facts.{time_at};
    ghost use Rattle.ace_side_facts.specs.Gathering.{Settles, TimesStand, is_next_before};
    ghost use Rattle.ace_side_facts.specs.Sayings.{time_of};

    /// Those of these events before any line.
    pub(crate) fn new(alloc: Global, events: &[u64]) -> Result<EventTimes, NoMemory>
        ensures none { IfOk result (TimesStand []) }
        ensures same { IfOk result (λ t. IsPermutation events.now t.events.items) }
    {
        let Ok(mut sorted) = Vec::from_slice(alloc, events) else {
            return Err(NoMemory);
        };
        sorted.sort_unstable();
        Ok(EventTimes {
            events: sorted,
            times: Vec::new(alloc),
            last: None,
        })
    }

    /// Those of no events.
    pub(crate) fn none(alloc: Global) -> EventTimes
        ensures events { result.events.items ≡ [] }
        ensures times { result.times.items ≡ [] }
    {
        EventTimes {
            events: Vec::new(alloc),
            times: Vec::new(alloc),
            last: None,
        }
    }

    /// Whether the next time to be settled is that of an event before this one.
    fn is_next_before(&self, event: u64) -> bool
        ensures { result ≡ is_next_before self.now event }
    {
        let place = self.times.len();
        place < self.events.len() && self.events[place] < event
    }

    /// Settles the times of the events before this one.
    fn settle(&mut self, event: u64) -> Result<(), NoMemory>
        ensures { OnOk result (Settles event self.old self.new) }
    {
        while self.is_next_before(event) {
            if self.times.push(self.last).is_err() {
                return Err(NoMemory);
            }
        }
        Ok(())
    }

    /// One more time.
    pub(crate) fn add(&mut self, event: u64, time: u64) -> Result<(), NoMemory>
        ensures stands { OnOk result ((past : List SideLine) → TimesStand past self.old
            → may_follow past (Time event time) ≡ true
            → TimesStand (Time event time ∷ past) self.new) }
        ensures same { OnOk result (self.new.events ≡ self.old.events) }
    {
        self.settle(event)?;
        self.last = Some(time);
        Ok(())
    }

    /// Settles all times, as no more lines come.
    pub(crate) fn finish(&mut self) -> Result<(), NoMemory>
        ensures stands { OnOk result ((past : List SideLine) → TimesStand past self.old
            → self.new.times.items ≡ map (time_of past) self.new.events.items) }
        ensures same { OnOk result (self.new.events ≡ self.old.events) }
    {
        while self.times.len() < self.events.len() {
            if self.times.push(self.last).is_err() {
                return Err(NoMemory);
            }
        }
        Ok(())
    }

    /// The place of the event, if it is one of them.
    fn place(&self, event: u64) -> Option<usize>
        ensures { result ≡ position (λ e. e == event) self.now.events.items }
    {
        self.events.iter().position(|e| *e == event)
    }

    /// The time of the event, if it is one of them.
    pub(crate) fn time(&self, event: u64) -> Option<u64>
        ensures { result ≡ time_at self.now.times.items
            (position (λ e. e == event) self.now.events.items) }
    {
        match self.place(event) {
            Some(place) => self.time_at(place),
            None => None,
        }
    }

    /// The time at the place, if it is settled.
    fn time_at(&self, place: usize) -> Option<u64>
        ensures { result ≡ slice_index_or self.now.times.items place None }
    {
        if place < self.times.len() {
            self.times[place]
        } else {
            None
        }
    }
}
