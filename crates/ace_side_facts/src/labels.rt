// The unit of times, names of ports, real addresses of lines and remarks.
ghost use Rattle.std.specs.Prelude.{◌≡◌, ℕ, None, [], ◌∷◌, List, is_some, option_map, OnOk};
ghost use Rattle.ace_side.specs.declared.line.SideLine.{SideLine};
ghost use Rattle.ace_side.specs.declared.line.SideLine.TheVariants.{TimeUnit, Port, Addr, Note};
ghost use Rattle.ace_side_facts.specs.Facts.{name_among, note_among, real_among};
ghost use Rattle.ace_side_facts.specs.Gathering.{LabelsStand};

use crate::Query;
use ace_io::NoMemory;
use ace_side::{Digits, ShortText};
use std::alloc::Global;

/// The name of a port.
#[derive(Drop)]
pub struct PortName {
    pub port: u8,
    pub name: ShortText,
}

/// The address that a line has in the design.
#[derive(Clone, Copy)]
pub struct RealLine {
    pub line: u32,
    pub real: Digits,
}

/// A remark at an event.
#[derive(Drop)]
pub struct EventNote {
    pub event: u64,
    pub text: ShortText,
}

/// The unit of times, names of ports, real addresses of lines and remarks, each as it came.
#[derive(Drop)]
pub struct Labels {
    pub unit: Option<ShortText>,
    pub names: Vec<PortName>,
    pub reals: Vec<RealLine>,
    pub notes: Vec<EventNote>,
}

/// The first of these names that is that of the port.
pub(crate) fn name_among(port: u8, names: &[PortName]) -> Option<&[u8]>
    ensures { option_map (λ it. it.now) result ≡ name_among port names.now }
{
    match names {
        [] => None,
        [x, rest @ ..] => {
            if x.port == port {
                Some(x.name.bytes())
            } else {
                name_among(port, rest)
            }
        }
    }
}

/// The first of these real addresses that is that of the line.
pub(crate) fn real_among(line: u32, reals: &[RealLine]) -> Option<Digits>
    ensures { result ≡ real_among line reals.now }
{
    match reals {
        [] => None,
        [x, rest @ ..] => {
            if x.line == line {
                Some(x.real)
            } else {
                real_among(line, rest)
            }
        }
    }
}

/// The first of these remarks that is one at the event.
pub(crate) fn note_among(event: u64, notes: &[EventNote]) -> Option<&[u8]>
    ensures { option_map (λ it. it.now) result ≡ note_among event notes.now }
{
    match notes {
        [] => None,
        [x, rest @ ..] => {
            if x.event == event {
                Some(x.text.bytes())
            } else {
                note_among(event, rest)
            }
        }
    }
}

impl Labels {
    /// Those of no lines.
    pub(crate) fn new(alloc: Global) -> Labels
        ensures stands { (query : Query) → LabelsStand query [] result }
        ensures unit { result.unit ≡ None }
        ensures names { result.names.items ≡ [] }
        ensures reals { result.reals.items ≡ [] }
        ensures notes { result.notes.items ≡ [] }
    {
        Labels {
            unit: None,
            names: Vec::new(alloc),
            reals: Vec::new(alloc),
            notes: Vec::new(alloc),
        }
    }

    /// One more unit.
    pub(crate) fn add_unit(&mut self, word: ShortText)
        ensures { (query : Query) (past : List SideLine) → LabelsStand query past self.old
            → LabelsStand query (TimeUnit word ∷ past) self.new }
    {
        if self.unit.is_none() {
            self.unit = Some(word);
        }
    }

    /// One more name.
    pub(crate) fn add_name(&mut self, port: u8, name: ShortText) -> Result<(), NoMemory>
        ensures { OnOk result ((query : Query) (past : List SideLine)
            → LabelsStand query past self.old
            → LabelsStand query (Port port name ∷ past) self.new) }
    {
        match self.names.push(PortName { port, name }) {
            Ok(()) => Ok(()),
            Err(_) => Err(NoMemory),
        }
    }

    /// One more real address, which is kept if it is asked for.
    pub(crate) fn add_real(
        &mut self,
        query: &Query<'_>,
        line: u32,
        real: Digits,
    ) -> Result<(), NoMemory>
        ensures { OnOk result ((past : List SideLine) → LabelsStand query.now past self.old
            → LabelsStand query.now (Addr line real ∷ past) self.new) }
    {
        if !query.lines.contains(&line) {
            return Ok(());
        }
        match self.reals.push(RealLine { line, real }) {
            Ok(()) => Ok(()),
            Err(_) => Err(NoMemory),
        }
    }

    /// Whether the event has a remark.
    fn has_note(&self, event: u64) -> bool
        ensures { result ≡ is_some (note_among event self.now.notes.items) }
    {
        note_among(event, &self.notes).is_some()
    }

    /// One more remark, which is kept if it is asked for and the first one at its event.
    pub(crate) fn add_note(
        &mut self,
        query: &Query<'_>,
        event: u64,
        text: ShortText,
    ) -> Result<(), NoMemory>
        ensures { OnOk result ((past : List SideLine) → LabelsStand query.now past self.old
            → LabelsStand query.now (Note event text ∷ past) self.new) }
    {
        if !query.notes.contains(&event) || self.has_note(event) {
            return Ok(());
        }
        match self.notes.push(EventNote { event, text }) {
            Ok(()) => Ok(()),
            Err(_) => Err(NoMemory),
        }
    }
}
