//! The places of lines.

ghost use Rattle.std.specs.Prelude.{◌≡◌, ◌+◌, ◌-◌, ◌<◌, ◌≤◌, ◌∷◌, ◌++◌, ℕ, IsOk, OnErr, OnOk, length, replicate, vec_capacity};
ghost use Rattle.ace_places.specs.Walks.{link_at};

use crate::walk::{End, FAN, NOWHERE, ROOTS, walk};
use std::alloc::{AllocError, Global};
use std::marker::Model;

/// The lines that have places, each the next one when it came. Contracts see the list of them, and
/// for how many more there is room. To find the place of a line takes seven steps at most.
#[derive(Drop)]
pub struct Places {
    lines: Vec<u32>,
    links: Vec<u32>,
    room: usize,
}

impl Model for Places {
    ghost use Rattle.ace_places.specs.Placed.{Placed};

    ghost Value = { Placed };

    ghost use Rattle.ace_places.specs.Kept.{IsKept, placed_of};

    ghost view = { placed_of };

    ghost invariant = { IsKept };
}

/// Adds so many slots that lead nowhere, for which there is room.
fn add_slots(links: &mut Vec<u32>, count: usize)
    requires { length links.old.items + count ≤ vec_capacity links.old }
    ensures items { links.new.items ≡ links.old.items ++ replicate count 4294967295 }
    ensures capacity { vec_capacity links.new ≡ vec_capacity links.old }
{
    for _slot in 0..count {
        links.push_reserved(NOWHERE);
    }
}

/// Makes room for the slots of one more place, and the first slots, if there are none.
fn open_slots(links: &mut Vec<u32>) -> Result<(), AllocError>
    ensures links { (s : ℕ) → link_at links.new.items s ≡ link_at links.old.items s }
    ensures kept { 0 < length links.old.items → links.new.items ≡ links.old.items }
    ensures first { length links.old.items ≡ 0 → OnOk result (length links.new.items ≡ 1024) }
    ensures failed { OnErr result (links.new.items ≡ links.old.items) }
    ensures room { OnOk result (length links.new.items + 16 ≤ vec_capacity links.new) }
    ensures capacity { vec_capacity links.old ≤ vec_capacity links.new }
    ensures succeeds { length links.old.items + 16 ≤ vec_capacity links.old
        → (length links.old.items ≡ 0 → 1024 + 16 ≤ vec_capacity links.old) → IsOk result }
{
    if !links.is_empty() {
        return links.reserve(FAN);
    }
    links.reserve(ROOTS + FAN)?;
    add_slots(links, ROOTS);
    Ok(())
}

/// Puts the place of the line to the free slot where its walk ended, and adds its own slots.
fn link(links: &mut Vec<u32>, slot: usize, place: u32)
    requires within { slot < length links.old.items }
    requires room { length links.old.items + 16 ≤ vec_capacity links.old }
    ensures leads { link_at links.new.items slot ≡ place }
    ensures others { (s : ℕ) → (s ≡ slot → ⊥)
        → link_at links.new.items s ≡ link_at links.old.items s }
    ensures count { length links.new.items ≡ length links.old.items + 16 }
    ensures capacity { vec_capacity links.new ≡ vec_capacity links.old }
{
    links[slot] = place;
    add_slots(links, FAN);
}

impl Places {
    ghost use Rattle.std.specs.Prelude.{[], false, true, not, is_some, IfOk, IfSome, if◌then◌else◌, nat_eq, slice_get};
    ghost use Rattle.std.specs.List.{IsDistinct};
    ghost use Rattle.ace_places.specs.Placed.{place_in};

    /// No line has a place.
    pub fn new(alloc: Global) -> Places
        ensures lines { result.lines ≡ [] }
        ensures room { result.room ≡ 0 }
    {
        Places {
            lines: Vec::new(alloc),
            links: Vec::new(alloc),
            room: 0,
        }
    }

    /// The same, with room for so many lines.
    pub fn with_room(alloc: Global, lines: usize) -> Result<Places, AllocError>
        ensures lines { IfOk result (λ p. p.lines ≡ []) }
        ensures room { IfOk result (λ p. p.room ≡ lines) }
    {
        if lines > NOWHERE as usize {
            return Err(AllocError);
        }
        let kept = Vec::with_capacity(alloc, lines)?;
        let links = Vec::with_capacity(alloc, ROOTS + FAN * lines)?;
        Ok(Places {
            lines: kept,
            links,
            room: lines,
        })
    }

    /// How many lines have places.
    #[inline(always)]
    pub fn len(&self) -> usize
        ensures len { result ≡ length self.now.lines }
        ensures distinct { IsDistinct nat_eq self.now.lines }
    {
        self.lines.len()
    }

    /// The line at the place.
    #[inline(always)]
    pub fn line_at(&self, place: usize) -> Option<u32>
        ensures { result ≡ slice_get self.now.lines place }
    {
        self.lines.get(place).copied()
    }

    /// The place of the line, if it has one.
    pub fn place_of(&self, line: u32) -> Option<usize>
        ensures { result ≡ place_in self.now.lines line }
    {
        match walk(&self.lines, &self.links, line) {
            End::IsAt(place) => Some(place as usize),
            End::IsFree(_slot) => None,
        }
    }

    /// The line has a place from then on, the next one if it had none; says whether it had none.
    /// With room it succeeds, and uses up the room of one line. There may be no memory only where
    /// the line has no place, and then nothing changes.
    pub fn add(&mut self, line: u32) -> Result<bool, AllocError>
        ensures new { IfOk result (λ b. b ≡ not (is_some (place_in self.old.lines line))) }
        ensures lines { IfOk result (λ b. self.new.lines
            ≡ (if b then self.old.lines ++ line ∷ [] else self.old.lines)) }
        ensures absent { OnErr result (is_some (place_in self.old.lines line) ≡ false) }
        ensures unchanged { OnErr result (self.new ≡ self.old) }
        ensures room { IfOk result (λ b. self.new.room
            ≡ (if b then self.old.room - 1 else self.old.room)) }
        ensures succeeds { 0 < self.old.room → IsOk result }
        ensures distinct { IsDistinct nat_eq self.new.lines }
    {
        let End::IsFree(slot) = walk(&self.lines, &self.links, line) else {
            return Ok(false);
        };
        let place = self.lines.len();
        if place >= NOWHERE as usize {
            return Err(AllocError);
        }
        self.lines.reserve(1)?;
        open_slots(&mut self.links)?;
        link(&mut self.links, slot, place as u32);
        self.lines.push_reserved(line);
        self.room = self.room.saturating_sub(1);
        Ok(true)
    }
}
