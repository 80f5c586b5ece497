//! The filter.

ghost use Rattle.std.specs.Prelude.{◌≡◌, ◌==◌, ◌<◌, ◌≤◌, ◌-◌, ◌∷◌, ℕ, [], IfOk, length};
ghost use Rattle.std.specs.Int.{bit_at};
ghost use Rattle.ace_event.specs.Ports.{IsHeader};
ghost use Rattle.ace_event.specs.declared.header.Header.{Header};
ghost use Rattle.ace_model.specs.Lines.{known_lines};
ghost use Rattle.ace_model.specs.Trace.{Trace};
ghost use Rattle.ace_filter.specs.Filter.{AreWatched, FilterStands, MayHear, room_of};
ghost use Rattle.ace_model.specs.Kept.{kept_ports};
ghost use Rattle.ace_filter.specs.Change.{IsChange};
ghost use Rattle.ace_filter.specs.Port.{IsHeard};

use crate::port::{Change, PortWatch};
use crate::sets::LineSets;
use ace_event::Event;
use ace_io::NoMemory;
use ace_model::{Among, port_of};
use std::alloc::Global;

/// The ports of a header are at most so many.
const MOST_PORTS: usize = 32;

/// A snoop filter: for each line of a trace, the ports that may hold it. It is told the events of
/// the trace one by one, and keeps none of them.
#[derive(Drop)]
pub struct Filter {
    /// For how many lines there is room.
    room: u32,
    sets: LineSets,
    ports: Vec<PortWatch>,
}

/// What is kept of the ports without events, with room for so many lines.
fn new_ports(alloc: Global, lines: usize) -> Result<Vec<PortWatch>, NoMemory>
    ensures { IfOk result (λ ports. AreWatched lines [] ports.items) }
{
    let mut ports = Vec::new(alloc);
    for _port in 0..MOST_PORTS {
        let Ok(port) = PortWatch::with_room(alloc, lines) else {
            return Err(NoMemory);
        };
        if ports.push(port).is_err() {
            return Err(NoMemory);
        }
    }
    Ok(ports)
}

/// Its port hears the event. What it changes of the lines that the port may hold.
fn hear_at(ports: &mut Vec<PortWatch>, port: u8, event: &Event) -> Option<Change>
    ensures stands { (h : Header) (past : Trace) (lines : ℕ) → IsHeard h past event.now port
        → length (known_lines past) ≤ lines → AreWatched lines past ports.old.items
        → AreWatched lines (event.now ∷ past) ports.new.items }
    ensures change { (h : Header) (past : Trace) (lines : ℕ) → IsHeard h past event.now port
        → port < 32 → AreWatched lines past ports.old.items
        → IsChange past event.now port result }
{
    match ports.get_mut(usize::from(port)) {
        Some(kept) => kept.hear(event),
        None => None,
    }
}

impl Among for Filter {
    ghost use Rattle.ace_filter.specs.Filter.{is_set};

    ghost has = { is_set };

    fn may(&self, line: u32) -> u32 {
        let sets = &self.sets;
        sets.of(line)
    }
}

impl Filter {
    /// The filter of the empty trace, with room for so many lines.
    ///
    /// # Errors
    ///
    /// `NoMemory` where there is none for the lines and the ports.
    pub fn new(alloc: Global, lines: u32) -> Result<Filter, NoMemory>
        ensures stands { IfOk result (λ s. (h : Header) → IsHeader h → FilterStands s h []) }
        ensures room { IfOk result (λ s. room_of s ≡ lines) }
    {
        let room = lines as usize;
        let Ok(sets) = LineSets::with_room(alloc, room) else {
            return Err(NoMemory);
        };
        let ports = new_ports(alloc, room)?;
        Ok(Filter {
            room: lines,
            sets,
            ports,
        })
    }

    /// For how many lines more there is room.
    pub fn spare(&self) -> u32
        ensures { (h : Header) (past : Trace) → FilterStands self.now h past
            → result ≡ room_of self.now - length (known_lines past) }
    {
        (self.room as usize).saturating_sub(self.sets.len()) as u32
    }

    /// The ports that may hold the line: bit p says whether port p may.
    pub fn set(&self, line: u32) -> u32
        ensures { (h : Header) (past : Trace) → FilterStands self.now h past
            → (p : ℕ) → (bit_at result p == 1) ≡ kept_ports h past line p }
    {
        self.sets.of(line)
    }

    /// Hears the next event of the trace, which keeps the rules. It takes no memory.
    pub fn hear(&mut self, event: &Event)
        ensures stands { (h : Header) (past : Trace) → MayHear self.old h past event.now
            → FilterStands self.new h (event.now ∷ past) }
        ensures room { room_of self.new ≡ room_of self.old }
    {
        self.sets.begin(event);
        if let Some(port) = port_of(event) {
            let change = hear_at(&mut self.ports, port, event);
            self.sets.change(port, change);
        }
    }
}
