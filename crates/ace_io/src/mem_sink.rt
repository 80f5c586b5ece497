// A sink in memory, of a fixed room and with faults as it is told.
ghost use Rattle.std.specs.Prelude.{◌≡◌, [], Some, length, is_ok, not, IfOk, OnErr};
ghost use Rattle.ace_io.specs.Faults.{HasCause, Gives, raised};
ghost use Rattle.ace_io.specs.MemSink.{refuses_next, fitting_count};

use crate::counts::{count_on, names_call};
use crate::{Failed, NoMemory, Sink};
use std::alloc::Global;
use std::marker::Model;

/// Keeps what it is given in room that it took once. The gives of a list fail, and so do those
/// where the room is full.
///
/// Gives are numbered from 0; from 18446744073709551615 on each counts as the give of that number.
#[derive(Drop)]
pub struct MemSink {
    room: Vec<u8>,
    len: usize,
    fails: Vec<u32>,
    gives: u64,
    faults: u64,
}

impl Model for MemSink {
    ghost use Rattle.std.specs.Prelude.{◌≤◌, length, take};
    ghost use Rattle.ace_io.specs.MemSink.{SinkInMemory};

    ghost Value = { SinkInMemory };

    ghost view = { λ s. record {
      held = take s.len s.room.items;
      room = length s.room.items;
      fails = s.fails.items;
      gives = s.gives;
      faults = s.faults;
    } };

    ghost invariant = { λ s. s.len ≤ length s.room.items };
}

impl MemSink {
    /// A sink that holds nothing, with room for so many bytes. The give of number k, from 0, fails
    /// where `fails` names k.
    ///
    /// # Errors
    ///
    /// `NoMemory` where there is none for the room or for the list.
    pub fn new(alloc: Global, room: usize, fails: &[u32]) -> Result<MemSink, NoMemory>
        ensures empty { IfOk result (λ s. s.held ≡ []) }
        ensures room { IfOk result (λ s. s.room ≡ room) }
        ensures fails { IfOk result (λ s. s.fails ≡ fails.now) }
        ensures gives { IfOk result (λ s. s.gives ≡ 0) }
        ensures faults { IfOk result (λ s. s.faults ≡ 0) }
    {
        let room = zeroes(alloc, room)?;
        let fails = fails.to_vec(alloc).map_err(|_| NoMemory)?;
        Ok(MemSink {
            room,
            len: 0,
            fails,
            gives: 0,
            faults: 0,
        })
    }

    /// What it holds.
    pub fn bytes(&self) -> &[u8]
        ensures { result.now ≡ self.now.held }
    {
        &self.room[..self.len]
    }
}

impl Sink for MemSink {
    ghost held = { λ s. Some s.held };

    ghost faults = { λ s. s.faults };

    /// The front of the piece, as far as the room goes. The gives of the list fail, and so do all
    /// where the room is full; the count of faults then rises by one, or stands at its last value.
    fn give(&mut self, piece: &[u8]) -> Result<usize, Failed>
        ensures bytes { Gives (Some self.old.held) (Some self.new.held) result piece.now }
        ensures cause { HasCause self.old.faults self.new.faults result }
        ensures fails { is_ok result ≡ not (refuses_next self.old) }
        ensures count { IfOk result (λ n. n ≡ fitting_count self.old (length piece.now)) }
        ensures raised { OnErr result (self.new.faults ≡ raised self.old.faults) }
        ensures gives { self.new.gives ≡ raised self.old.gives }
        ensures same_room { self.new.room ≡ self.old.room }
        ensures same_fails { self.new.fails ≡ self.old.fails }
    {
        let give = self.gives;
        self.gives = count_on(give);
        if self.len == self.room.len() || names_call(&self.fails, give) {
            self.faults = count_on(self.faults);
            return Err(Failed);
        }
        let count = piece.len().min(self.room.len() - self.len);
        let end = self.len + count;
        self.room[self.len..end].copy_from_slice(&piece[..count]);
        self.len = end;
        Ok(count)
    }
}

/// So many zeroes. The count is no literal here, since a proof would write the list out.
fn zeroes(alloc: Global, count: usize) -> Result<Vec<u8>, NoMemory>
    ensures { IfOk result (λ v. length v.items ≡ count) }
{
    vec![in alloc; 0; count].map_err(|_| NoMemory)
}
