//! Room for what is kept of lines to come.

ghost use Rattle.std.specs.Prelude.{◌≡◌, ◌+◌, ◌≤◌, ◌<◌, length, IfOk, IsOk};
ghost use Rattle.ace_lineck.specs.Holders.{HasNothing};
ghost use Rattle.ace_lineck.specs.Records.{AreRoomFor, IsFresh};

use crate::record::{Holder, LineRecord, first_record};
use ace_io::NoMemory;
use std::alloc::Global;
use std::marker::Model;

/// Room for what so many ports have of the data of a line. Contracts see how many. Nothing is
/// written there before a line comes, so that room for many costs little.
#[derive(Drop)]
pub struct Room {
    holders: Vec<Holder>,
    ports: u8,
}

impl Model for Room {
    ghost use Rattle.std.specs.Prelude.{◌≡◌, ◌≤◌, ℕ, [], vec_capacity};

    ghost Value = { ℕ };

    ghost view = { λ r. r.ports };

    ghost invariant = { λ r. (r.holders.items ≡ []) × (r.ports ≤ vec_capacity r.holders) };
}

impl Room {
    /// Room for so many ports.
    fn new(alloc: Global, ports: u8) -> Result<Room, NoMemory>
        ensures { IfOk result (λ r. r ≡ ports) }
    {
        match Vec::with_capacity(alloc, usize::from(ports)) {
            Ok(holders) => Ok(Room { holders, ports }),
            Err(_) => Err(NoMemory),
        }
    }

    /// Of the ports, that they have had nothing of a line's data.
    fn holders(self) -> Vec<Holder>
        ensures { HasNothing self result.items }
    {
        let Room { mut holders, ports } = self;
        for _port in 0..ports {
            holders.push_reserved(Holder::NOTHING);
        }
        holders
    }

    /// What is kept of a line at first, for the ports.
    fn record(self) -> LineRecord
        ensures { IsFresh self result }
    {
        first_record(self.holders())
    }
}

/// Room for so many lines that are to come.
pub fn rooms(alloc: Global, ports: u8, count: usize) -> Result<Vec<Room>, NoMemory>
    ensures count { IfOk result (λ v. length v.items ≡ count) }
    ensures each { IfOk result (λ v. AreRoomFor ports v.items) }
{
    let Ok(mut rooms) = Vec::with_capacity(alloc, count) else {
        return Err(NoMemory);
    };
    for _line in 0..count {
        let room = Room::new(alloc, ports)?;
        if rooms.push(room).is_err() {
            return Err(NoMemory);
        }
    }
    Ok(rooms)
}

/// What is kept of a line at first: in spare room or, where there is none, in new.
pub fn take_record(spare: &mut Vec<Room>, alloc: Global, ports: u8) -> Result<LineRecord, NoMemory>
    ensures fresh { AreRoomFor ports spare.old.items → IfOk result (IsFresh ports) }
    ensures rest { AreRoomFor ports spare.old.items → AreRoomFor ports spare.new.items }
    ensures count { length spare.old.items ≤ length spare.new.items + 1 }
    ensures succeeds { 0 < length spare.old.items → IsOk result }
{
    match spare.pop() {
        Some(room) => Ok(room.record()),
        None => Ok(Room::new(alloc, ports)?.record()),
    }
}
