//! For each line, the ports that may hold it.

ghost use Rattle.std.specs.Prelude.{◌≡◌, ◌<◌, ◌==◌, ◌||◌, ◌&&◌, not, ℕ};
ghost use Rattle.std.specs.Int.{bit_at};

use crate::lines::begun_line;
use crate::port::Change;
use ace_event::Event;
use ace_places::LineMap;
use std::alloc::{AllocError, Global};

/// For each line that a line transaction named, the ports that may hold it: bit p is 1 exactly
/// where port p may.
#[derive(Drop)]
pub struct LineSets {
    lines: LineMap<u32>,
}

/// The bits with that of the port set. No header has a port from 32 on.
#[tactic(auto, using(crate::proofs::PortBits::bit_set))]
fn with_port(bits: u32, port: u8) -> u32
    ensures { port < 32 → (p : ℕ) → (bit_at result p == 1) ≡ ((port == p) || (bit_at bits p == 1)) }
{
    if port < 32 { bits | 1 << port } else { bits }
}

/// The bits with that of the port cleared.
#[tactic(auto, using(crate::proofs::PortBits::bit_cleared))]
fn without_port(bits: u32, port: u8) -> u32
    ensures { port < 32
        → (p : ℕ) → (bit_at result p == 1) ≡ (not (port == p) && (bit_at bits p == 1)) }
{
    if port < 32 { bits & !(1 << port) } else { bits }
}

impl LineSets {
    ghost use Rattle.std.specs.Prelude.{◌∷◌, ◌≤◌, [], true, Some, IfOk, IsSome, length, nat_eq};
    ghost use Rattle.indexmap.specs.IndexMap.{get, index_map_len};
    ghost use Rattle.ace_event.specs.declared.event.Event.{Event};
    ghost use Rattle.ace_model.specs.Lines.{known_lines};
    ghost use Rattle.ace_model.specs.Trace.{Trace};
    ghost use Rattle.ace_filter.specs.Change.{is_dropped, is_taken};
    ghost use Rattle.ace_filter.specs.Port.{begun_line};
    ghost use Rattle.ace_filter.specs.Sets.{LinesStand, set_of};

    /// No line, with room for so many.
    pub fn with_room(alloc: Global, lines: usize) -> Result<LineSets, AllocError>
        ensures sets { IfOk result (λ s. (l : ℕ) → set_of s l ≡ 0) }
        ensures lines { IfOk result (LinesStand [] lines) }
    {
        let lines = LineMap::with_capacity(alloc, lines)?;
        Ok(LineSets { lines })
    }

    /// How many lines there are.
    pub fn len(&self) -> usize
        ensures { result ≡ index_map_len self.now.lines }
    {
        self.lines.len()
    }

    /// The ports that may hold the line.
    pub fn of(&self, line: u32) -> u32
        ensures { result ≡ set_of self.now line }
    {
        match self.lines.get(line) {
            None => 0,
            Some(bits) => *bits,
        }
    }

    /// The line of the line transaction that the event issues, if it issues one, is there from now
    /// on. Where it wasn't, no port may hold it. It takes no memory, and wants room.
    pub fn begin(&mut self, event: &Event)
        ensures sets { (l : ℕ) → set_of self.new l ≡ set_of self.old l }
        ensures lines { (past : Trace) (n : ℕ) → LinesStand past n self.old
            → length (known_lines (event.now ∷ past)) ≤ n
            → LinesStand (event.now ∷ past) n self.new }
    {
        if let Some(line) = begun_line(event) {
            self.add(line);
        }
    }

    /// The port takes a line, which is there, or drops one, or neither.
    pub fn change(&mut self, port: u8, change: Option<Change>)
        ensures sets { port < 32
            → ((l : ℕ) → is_taken change l ≡ true → IsSome (get nat_eq self.old.lines l))
            → (l p : ℕ) → (bit_at (set_of self.new l) p == 1)
            ≡ (((port == p) && is_taken change l)
            || (not ((port == p) && is_dropped change l) && (bit_at (set_of self.old l) p == 1))) }
        ensures lines { (past : Trace) (n : ℕ) → LinesStand past n self.old
            → LinesStand past n self.new }
    {
        match change {
            None => {}
            Some(Change::Takes(line)) => self.put(line, port),
            Some(Change::Drops(line)) => self.take(line, port),
        }
    }

    /// The line of the line transaction that an event issues is there from now on.
    fn add(&mut self, line: u32)
        ensures sets { (l : ℕ) → set_of self.new l ≡ set_of self.old l }
        ensures lines { (past : Trace) (e : Event) (n : ℕ) → begun_line e ≡ Some line
            → LinesStand past n self.old → length (known_lines (e ∷ past)) ≤ n
            → LinesStand (e ∷ past) n self.new }
    {
        if !self.lines.contains_key(line) {
            let _full = self.lines.add(line, 0);
        }
    }

    /// The port may hold the line, which is there.
    fn put(&mut self, line: u32, port: u8)
        ensures sets { port < 32 → IsSome (get nat_eq self.old.lines line)
            → (l p : ℕ) → (bit_at (set_of self.new l) p == 1)
            ≡ (((port == p) && (line == l)) || (bit_at (set_of self.old l) p == 1)) }
        ensures lines { (past : Trace) (n : ℕ) → LinesStand past n self.old
            → LinesStand past n self.new }
    {
        if let Some(bits) = self.lines.get_mut(line) {
            *bits = with_port(*bits, port);
        }
    }

    /// The port doesn't hold the line.
    fn take(&mut self, line: u32, port: u8)
        ensures sets { port < 32 → (l p : ℕ) → (bit_at (set_of self.new l) p == 1)
            ≡ (not ((port == p) && (line == l)) && (bit_at (set_of self.old l) p == 1)) }
        ensures lines { (past : Trace) (n : ℕ) → LinesStand past n self.old
            → LinesStand past n self.new }
    {
        if let Some(bits) = self.lines.get_mut(line) {
            *bits = without_port(*bits, port);
        }
    }
}
