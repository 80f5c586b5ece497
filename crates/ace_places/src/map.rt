//! Values by lines.

ghost use Rattle.std.specs.Prelude.{◌≡◌, ◌+◌, ◌<◌, ◌≤◌, ◌∷◌, ◌++◌, ◌↔◌, [], ℕ, true, false, not, is_some, nat_eq, slice_get, length, if◌then◌else◌, None, Some, IsOk, IsSome, IfOk, IfSome, OnErr, OnOk};
ghost use Rattle.std.specs.Borrow.{sem};
ghost use Rattle.std.specs.Option.{option_copied, option_copied_mut};
ghost use Rattle.indexmap.specs.IndexMap.{IsEmpty, IsUnchanged, IsUnique, get, index_map_len, index_of, keys, spare, values};

use crate::places::Places;
use std::alloc::{AllocError, Global};
use std::marker::Model;

/// A map from lines to values, in the order in which the lines came. Contracts see it as they see
/// an `IndexMap`, and speak of it in the same words. A look-up takes seven steps at most, however
/// the lines are chosen, where that of a table by hashes that are known can take one for each line.
#[derive(Drop)]
pub struct LineMap<V> {
    places: Places,
    values: Vec<V>,
}

impl<V> Model for LineMap<V> {
    ghost use Rattle.std.specs.Prelude.{◌≡◌, ◌+◌, ◌≤◌, ℕ, length, nat_eq, vec_capacity};
    ghost use Rattle.std.specs.Coded.{coded_ℕ};
    ghost use Rattle.std.specs.List.{IsDistinct, zip};
    ghost use Rattle.indexmap.specs.IndexMap.{IndexMap};
    ghost use Rattle.indexmap.specs.Layout.{hash_map, hash_map_code};

    ghost Value = { IndexMap ℕ V ℕ };

    ghost coded = { hash_map_code coded_ℕ V.code coded_ℕ };

    ghost view = { λ m. hash_map (zip m.places.lines m.values.items) 0 m.places.room };

    ghost invariant = { λ m. (length m.values.items ≡ length m.places.lines)
        × (length m.values.items + m.places.room ≤ vec_capacity m.values)
        × IsDistinct nat_eq m.places.lines };
}

impl<V> LineMap<V> {
    ghost use Rattle.ace_places.specs.Lends.{lends_at, lends_get};

    /// An empty map, which allocates nothing until the first line comes.
    pub fn new(alloc: Global) -> LineMap<V>
        ensures empty { IsEmpty result }
        ensures unique { IsUnique nat_eq result }
    {
        LineMap {
            places: Places::new(alloc),
            values: Vec::new(alloc),
        }
    }

    /// An empty map with room for so many lines.
    pub fn with_capacity(alloc: Global, lines: usize) -> Result<LineMap<V>, AllocError>
        ensures empty { IfOk result IsEmpty }
        ensures spare { IfOk result (λ m. lines ≤ spare m) }
        ensures unique { IfOk result (IsUnique nat_eq) }
    {
        let places = Places::with_room(alloc, lines)?;
        let values = Vec::with_capacity(alloc, lines)?;
        Ok(LineMap { places, values })
    }

    /// How many lines there are.
    #[inline(always)]
    pub fn len(&self) -> usize
        ensures len { result ≡ index_map_len self.now }
        ensures unique { IsUnique nat_eq self.now }
    {
        self.places.len()
    }

    /// The line at the index.
    #[inline(always)]
    pub fn line_at(&self, index: usize) -> Option<u32>
        ensures line { result ≡ slice_get (keys self.now) index }
        ensures unique { IsUnique nat_eq self.now }
    {
        self.places.line_at(index)
    }

    /// The index of the line.
    pub fn get_index_of(&self, line: u32) -> Option<usize>
        ensures index { result ≡ index_of nat_eq self.now line }
        ensures found { is_some result ≡ is_some (get nat_eq self.now line) }
        ensures value { IfSome result (λ i. slice_get (values self.now) i
            ≡ get nat_eq self.now line) }
        ensures unique { IsUnique nat_eq self.now }
    {
        self.places.place_of(line)
    }

    /// The value at the index.
    #[inline(always)]
    pub fn get_index(&self, index: usize) -> Option<&V>
        ensures { option_copied result ≡ slice_get (values self.now) index }
    {
        self.values.get(index)
    }

    /// The value at the index, which can be written.
    #[inline(always)]
    pub fn get_index_mut(&mut self, index: usize) -> Option<&mut V>
        ensures* writes_back { sem 𝓛 (lends_at V.row self.entry index result) }
        ensures value { option_copied_mut result ≡ slice_get (values self.old) index }
        ensures found { IsSome result ↔ (index < index_map_len self.old) }
        ensures unique { IsUnique nat_eq self.old }
    {
        self.values.get_mut(index)
    }

    /// The value of the line.
    pub fn get(&self, line: u32) -> Option<&V>
        ensures { option_copied result ≡ get nat_eq self.now line }
    {
        match self.get_index_of(line) {
            None => None,
            Some(index) => self.get_index(index),
        }
    }

    /// The value of the line, which can be written.
    pub fn get_mut(&mut self, line: u32) -> Option<&mut V>
        ensures* writes_back { sem 𝓛 (lends_get V.row self.entry line result) }
        ensures value { option_copied_mut result ≡ get nat_eq self.old line }
        ensures unique { IsUnique nat_eq self.old }
    {
        match self.get_index_of(line) {
            None => None,
            Some(index) => self.get_index_mut(index),
        }
    }

    /// Whether the line has a value.
    pub fn contains_key(&self, line: u32) -> bool
        ensures { result ≡ is_some (get nat_eq self.now line) }
    {
        self.get_index_of(line).is_some()
    }

    /// The line has a value from then on: this one, as the last, if it had none. With room it
    /// succeeds, and uses up the room of one line. There may be no memory only where the line has
    /// no value, and then nothing changes.
    pub fn add(&mut self, line: u32, value: V) -> Result<(), AllocError>
    where
        V: Drop,
        ensures entries { OnOk result (self.new.entries ≡ (if is_some (get nat_eq self.old line)
            then self.old.entries else self.old.entries ++ (line, value) ∷ [])) }
        ensures here { OnOk result (get nat_eq self.old line ≡ None
            → get nat_eq self.new line ≡ Some value) }
        ensures others { OnOk result ((q : ℕ) → nat_eq line q ≡ false
            → get nat_eq self.new q ≡ get nat_eq self.old q) }
        ensures len { OnOk result (get nat_eq self.old line ≡ None
            → index_map_len self.new ≡ index_map_len self.old + 1) }
        ensures absent { OnErr result (get nat_eq self.old line ≡ None) }
        ensures unchanged { OnErr result (IsUnchanged self.old self.new) }
        ensures succeeds { 0 < spare self.old → IsOk result }
        ensures spare { spare self.old ≤ spare self.new + 1 }
        ensures unique { IsUnique nat_eq self.new }
    {
        if self.places.place_of(line).is_some() {
            return Ok(());
        }
        self.values.reserve(1)?;
        let _new = self.places.add(line)?;
        self.values.push_reserved(value);
        Ok(())
    }
}
