//! What is kept of a line, and what an event changes of it.

ghost use Rattle.std.specs.Prelude.{◌≡◌, ◌<◌, ◌+◌, ◌-◌, ◌∷◌, ◌++◌, [], None, OnOk};
ghost use Rattle.ace_cert_make.specs.Tracks.{changed};

use ace_cert::EventList;
use ace_io::NoMemory;
use std::alloc::Global;

/// What is kept of a line.
#[derive(Drop)]
pub struct LineTrack {
    /// The numbers of the events that stored to it.
    pub stores: EventList,
    /// How many events came before its present grant, its last G among them.
    pub granted: u32,
    /// How many came before the last point right after a G or M of it.
    pub memory: u32,
    /// How many came before the first answer with data under its present grant.
    pub sent: Option<u32>,
}

/// What an event does to a line.
#[derive(Clone, Copy, Debug, PartialEq, Eq)]
pub enum Change {
    /// It is granted.
    Grant,
    /// It is stored to.
    Store,
    /// Its memory is written, by a store or not.
    Write { stores: bool },
    /// A port whose snoop had so many events before it answers with data.
    Answer { snooped: usize },
}

/// A line, and what an event does to it.
#[derive(Clone, Copy, Debug, PartialEq, Eq)]
pub struct LineChange {
    pub line: u32,
    pub change: Change,
}

/// The number of an event that has so many before it.
pub fn number_of(place: usize) -> u32
    ensures { place < 1048576 → result ≡ place + 1 }
{
    if place < 0xffff_ffff {
        place as u32 + 1
    } else {
        u32::MAX
    }
}

/// How many events came before the one with this number.
pub fn one_less(number: u32) -> u32
    ensures { result ≡ number - 1 }
{
    number.saturating_sub(1)
}

/// Puts the number of an event at the end. There is no memory for it also where the list is full.
fn add(list: &mut EventList, number: u32) -> Result<(), NoMemory>
    ensures { OnOk result (list.new ≡ list.old ++ number ∷ []) }
{
    if list.len() == u32::MAX {
        return Err(NoMemory);
    }
    list.push(number)
}

impl LineTrack {
    /// What is kept of a line that no event named.
    pub fn untouched(alloc: Global) -> LineTrack
        ensures { result ≡ record { stores = []; granted = 0; memory = 0; sent = None } }
    {
        LineTrack {
            stores: EventList::new(alloc),
            granted: 0,
            memory: 0,
            sent: None,
        }
    }

    /// The event with this number changes the line.
    pub fn apply(&mut self, change: Change, number: u32) -> Result<(), NoMemory>
        ensures { OnOk result (self.new ≡ changed change number self.old) }
    {
        match change {
            Change::Grant => {
                self.granted = number;
                self.memory = number;
                self.sent = None;
                Ok(())
            }
            Change::Store => add(&mut self.stores, number),
            Change::Write { stores } => {
                self.memory = number;
                if stores {
                    add(&mut self.stores, number)
                } else {
                    Ok(())
                }
            }
            Change::Answer { snooped } => {
                if self.sent.is_none() && self.granted as usize <= snooped {
                    self.sent = Some(one_less(number));
                }
                Ok(())
            }
        }
    }
}
