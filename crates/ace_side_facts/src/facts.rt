// What is told of what was asked of a side file.
ghost use Rattle.std.specs.Prelude.{◌≡◌, None, Some, option_map};
ghost use Rattle.ace_side_facts.specs.Facts.{TellsNothing, events_in, fault_in, name_in, note_in, real_in, time_in, times_in, unit_in};

use crate::labels::{Labels, name_among, note_among, real_among};
use crate::times::EventTimes;
use ace_side::{Digits, SideEnd};
use std::alloc::Global;

/// What is told of what was asked of a side file.
#[derive(Drop)]
pub struct SideFacts {
    pub(crate) labels: Labels,
    pub(crate) times: EventTimes,
    pub(crate) end: Option<SideEnd>,
    pub(crate) fault: Option<Vec<u8>>,
}

impl SideFacts {
    /// Where there is no side file nothing is told.
    pub fn none(alloc: Global) -> SideFacts
        ensures nothing { TellsNothing result }
        ensures no_fault { fault_in result ≡ None }
    {
        SideFacts {
            labels: Labels::new(alloc),
            times: EventTimes::none(alloc),
            end: None,
            fault: None,
        }
    }

    /// Where a side file can't be read nothing is told but why, in these words.
    pub fn silent(alloc: Global, fault: Vec<u8>) -> SideFacts
        ensures nothing { TellsNothing result }
        ensures fault { fault_in result ≡ Some fault.items }
    {
        SideFacts {
            labels: Labels::new(alloc),
            times: EventTimes::none(alloc),
            end: None,
            fault: Some(fault),
        }
    }

    /// Why the side file can't be read, if that is so.
    pub fn fault(&self) -> Option<&[u8]>
        ensures { option_map (λ it. it.now) result ≡ fault_in self.now }
    {
        match &self.fault {
            Some(fault) => Some(fault.as_slice()),
            None => None,
        }
    }

    /// The unit of the times.
    pub fn unit(&self) -> Option<&[u8]>
        ensures { option_map (λ it. it.now) result ≡ unit_in self.now }
    {
        match &self.labels.unit {
            Some(unit) => Some(unit.bytes()),
            None => None,
        }
    }

    /// The name of the port.
    pub fn name(&self, port: u8) -> Option<&[u8]>
        ensures { option_map (λ it. it.now) result ≡ name_in self.now port }
    {
        name_among(port, &self.labels.names)
    }

    /// The address that the line has in the design, where that was asked for.
    pub fn real(&self, line: u32) -> Option<Digits>
        ensures { result ≡ real_in self.now line }
    {
        real_among(line, &self.labels.reals)
    }

    /// The first remark at the event, where that was asked for.
    pub fn note(&self, event: u64) -> Option<&[u8]>
        ensures { option_map (λ it. it.now) result ≡ note_in self.now event }
    {
        note_among(event, &self.labels.notes)
    }

    /// The time of the event, where that was asked for. It is looked for from the first event on.
    pub fn time(&self, event: u64) -> Option<u64>
        ensures { result ≡ time_in self.now event }
    {
        self.times.time(event)
    }

    /// The events whose times were asked for: none is greater than a later one.
    pub fn events(&self) -> &[u64]
        ensures { result.now ≡ events_in self.now }
    {
        &self.times.events
    }

    /// Their times, in the same order.
    pub fn times(&self) -> &[Option<u64>]
        ensures { result.now ≡ times_in self.now }
    {
        &self.times.times
    }

    /// How the file ends, if it does.
    pub fn ending(&self) -> Option<SideEnd>
        ensures { result ≡ self.now.end }
    {
        self.end
    }
}
