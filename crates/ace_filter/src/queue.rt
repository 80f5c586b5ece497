//! What waits at a port, and the lines that the port may lose by it.

ghost use Rattle.std.specs.Prelude.{◌≡◌, ◌<◌, ◌-◌, ◌+◌, ◌++◌, ◌∷◌, ◌^◌, ℕ, [], List, Option, Some, IfOk, IsSome, length, slice_get};
ghost use Rattle.std.specs.VecDeque.{deque_capacity};
ghost use Rattle.ace_filter.specs.Queue.{HasRoom, QueueStands, turn_at};

use std::alloc::{AllocError, Global};
use std::collections::VecDeque;

/// A line that a port may lose, and how many of its sort began before it.
#[derive(Clone, Copy, Debug, PartialEq, Eq)]
pub struct LineTurn {
    pub number: usize,
    pub line: u32,
}

/// What waits at a port, the oldest first: it ends in the order in which it began. Of what names no
/// line that the port may lose, the number alone is kept.
#[derive(Drop)]
pub struct LineQueue {
    lines: VecDeque<LineTurn>,
    /// How many began.
    begun: usize,
    /// How many of them ended.
    ended: usize,
}

/// The oldest of the queue.
fn oldest(queue: &VecDeque<LineTurn>) -> Option<LineTurn>
    ensures { result ≡ slice_get queue.now.items 0 }
{
    queue.front().copied()
}

/// Puts the line behind the others, if there is one, with its number. It takes no memory, and wants
/// room.
fn put(queue: &mut VecDeque<LineTurn>, number: usize, line: Option<u32>)
    ensures items { (IsSome line → length queue.old.items < deque_capacity queue.old)
        → queue.new.items ≡ queue.old.items ++ turn_at number line }
    ensures capacity { deque_capacity queue.new ≡ deque_capacity queue.old }
{
    if let Some(line) = line {
        if queue.len() < queue.capacity() {
            let _full = queue.push_back(LineTurn { number, line });
        }
    }
}

impl LineQueue {
    /// Nothing began. There is room for so many lines.
    pub fn with_room(alloc: Global, lines: usize) -> Result<LineQueue, AllocError>
        ensures stands { IfOk result (QueueStands [] 0) }
        ensures room { IfOk result (HasRoom lines) }
    {
        let lines = VecDeque::with_capacity(alloc, lines)?;
        Ok(LineQueue {
            lines,
            begun: 0,
            ended: 0,
        })
    }

    /// One more begins, with the line that the port may lose by it. Where there is room for the
    /// line, it takes no memory.
    pub fn begin(&mut self, line: Option<u32>)
        ensures stands { (all : List (Option ℕ)) (done lines : ℕ) → QueueStands all done self.old
            → HasRoom lines self.old → (IsSome line → length self.old.lines.items < lines)
            → length all < 2 ^ 64 - 1 → QueueStands (all ++ line ∷ []) done self.new }
        ensures room { (lines : ℕ) → HasRoom lines self.old → HasRoom lines self.new }
    {
        put(&mut self.lines, self.begun, line);
        self.begun = self.begun.wrapping_add(1);
    }

    /// The oldest ends: the line that the port may lose by it.
    pub fn end(&mut self) -> Option<u32>
        ensures line { (all : List (Option ℕ)) (done : ℕ) → QueueStands all done self.old
            → done < length all → slice_get all done ≡ Some result }
        ensures stands { (all : List (Option ℕ)) (done : ℕ) → QueueStands all done self.old
            → done < length all → length all < 2 ^ 64 → QueueStands all (done + 1) self.new }
        ensures room { (lines : ℕ) → HasRoom lines self.old → HasRoom lines self.new }
    {
        let number = self.ended;
        self.ended = number.wrapping_add(1);
        match oldest(&self.lines) {
            Some(turn) if turn.number == number => {
                let _first = self.lines.pop_front();
                Some(turn.line)
            }
            _ => None,
        }
    }
}
