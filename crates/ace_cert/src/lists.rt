//! The lists of a certificate, whose lengths fit 32 bits.
ghost use Rattle.std.specs.Prelude.{◌≡◌, ◌<◌, ◌++◌, ◌∷◌, [], length, slice_get, Some, OnOk, OnErr};

use crate::cert::{LineOrder, ReadPlace};
use ace_io::NoMemory;
use std::alloc::Global;
use std::marker::Model;

/// Numbers of events.
#[derive(Drop)]
pub struct EventList {
    events: Vec<u32>,
}

impl Model for EventList {
    ghost use Rattle.std.specs.Prelude.{ℕ, List, ◌≤◌, length};

    ghost Value = { List ℕ };

    ghost view = { λ s. s.events.items };

    ghost invariant = { λ s. length s.events.items ≤ 4294967295 };
}

impl EventList {
    /// The empty list.
    pub fn new(alloc: Global) -> EventList
        ensures { result ≡ [] }
    {
        EventList {
            events: Vec::new(alloc),
        }
    }

    /// Puts the element at the end.
    ///
    /// # Errors
    ///
    /// `NoMemory`, which changes nothing.
    pub fn push(&mut self, element: u32) -> Result<(), NoMemory>
        requires { length self.old < 4294967295 }
        ensures pushed { OnOk result (self.new ≡ self.old ++ element ∷ []) }
        ensures cause { OnErr result (self.new ≡ self.old) }
    {
        match self.events.push(element) {
            Ok(()) => Ok(()),
            Err(_) => Err(NoMemory),
        }
    }

    /// How many elements there are.
    pub fn len(&self) -> u32
        ensures { result ≡ length self.now }
    {
        self.events.len() as u32
    }

    /// The element at the place i, from 0 on.
    pub fn get(&self, i: u32) -> &u32
        requires { i < length self.now }
        ensures { slice_get self.now i ≡ Some result.now }
    {
        &self.events[i as usize]
    }
}

/// The stores of lines.
#[derive(Drop)]
pub struct LineList {
    lines: Vec<LineOrder>,
}

impl Model for LineList {
    ghost use Rattle.std.specs.Prelude.{List, ◌≤◌, length};
    ghost use Rattle.ace_cert.specs.declared.cert.LineOrder.{LineOrder};

    ghost Value = { List LineOrder };

    ghost view = { λ s. s.lines.items };

    ghost invariant = { λ s. length s.lines.items ≤ 4294967295 };
}

impl LineList {
    /// The empty list.
    pub fn new(alloc: Global) -> LineList
        ensures { result ≡ [] }
    {
        LineList {
            lines: Vec::new(alloc),
        }
    }

    /// Puts the element at the end.
    ///
    /// # Errors
    ///
    /// `NoMemory`, which changes nothing.
    pub fn push(&mut self, element: LineOrder) -> Result<(), NoMemory>
        requires { length self.old < 4294967295 }
        ensures pushed { OnOk result (self.new ≡ self.old ++ element ∷ []) }
        ensures cause { OnErr result (self.new ≡ self.old) }
    {
        match self.lines.push(element) {
            Ok(()) => Ok(()),
            Err(_) => Err(NoMemory),
        }
    }

    /// How many elements there are.
    pub fn len(&self) -> u32
        ensures { result ≡ length self.now }
    {
        self.lines.len() as u32
    }

    /// The element at the place i, from 0 on.
    pub fn get(&self, i: u32) -> &LineOrder
        requires { i < length self.now }
        ensures { slice_get self.now i ≡ Some result.now }
    {
        &self.lines[i as usize]
    }
}

/// The places of reads.
#[derive(Drop)]
pub struct PlaceList {
    places: Vec<ReadPlace>,
}

impl Model for PlaceList {
    ghost use Rattle.std.specs.Prelude.{List, ◌≤◌, length};
    ghost use Rattle.ace_cert.specs.declared.cert.ReadPlace.{ReadPlace};

    ghost Value = { List ReadPlace };

    ghost view = { λ s. s.places.items };

    ghost invariant = { λ s. length s.places.items ≤ 4294967295 };
}

impl PlaceList {
    /// The empty list.
    pub fn new(alloc: Global) -> PlaceList
        ensures { result ≡ [] }
    {
        PlaceList {
            places: Vec::new(alloc),
        }
    }

    /// Puts the element at the end.
    ///
    /// # Errors
    ///
    /// `NoMemory`, which changes nothing.
    pub fn push(&mut self, element: ReadPlace) -> Result<(), NoMemory>
        requires { length self.old < 4294967295 }
        ensures pushed { OnOk result (self.new ≡ self.old ++ element ∷ []) }
        ensures cause { OnErr result (self.new ≡ self.old) }
    {
        match self.places.push(element) {
            Ok(()) => Ok(()),
            Err(_) => Err(NoMemory),
        }
    }

    /// How many elements there are.
    pub fn len(&self) -> u32
        ensures { result ≡ length self.now }
    {
        self.places.len() as u32
    }

    /// The element at the place i, from 0 on.
    pub fn get(&self, i: u32) -> &ReadPlace
        requires { i < length self.now }
        ensures { slice_get self.now i ≡ Some result.now }
    {
        &self.places[i as usize]
    }
}
