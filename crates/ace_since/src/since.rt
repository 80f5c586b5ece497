//! Since when each line is as it is.

use crate::change::{Change, change_by};
use crate::line_since::{LineSince, apply, stay_at};
use ace_check::Checker;
use ace_event::Event;
use ace_io::NoMemory;
use ace_places::LineMap;
use std::alloc::Global;

/// Since when each line is as it is, by the number of the event that made it so.
#[derive(Drop)]
pub struct Since {
    lines: LineMap<LineSince>,
}

impl Since {
    ghost use Rattle.std.specs.Prelude.{◌≡◌, ◌∷◌, [], ℕ, None, OnOk, nat_eq, unwrap_or};
    ghost use Rattle.ace_belongs.specs.Belongs.{event_line};
    ghost use Rattle.ace_check.specs.Run.{StandsWithin};
    ghost use Rattle.ace_event.specs.declared.header.Header.{Header as Head};
    ghost use Rattle.ace_model.specs.Grants.{grant_place};
    ghost use Rattle.ace_model.specs.Trace.{Trace};
    ghost use Rattle.ace_since.specs.Kept.{HasChanged, SinceStands, kept_of, untouched};
    ghost use Rattle.ace_since.specs.Places.{memory_since, state_since};
    ghost use Rattle.indexmap.specs.IndexMap.{get};

    /// That of the empty trace.
    pub fn new(alloc: Global) -> Since
        ensures { (h : Head) → SinceStands h [] result }
    {
        Since {
            lines: LineMap::new(alloc),
        }
    }

    /// The first change of a line.
    #[inline(never)]
    fn begin(&mut self, line: u32, change: Change, number: u64) -> Result<(), NoMemory>
        ensures here { OnOk result (get nat_eq self.old.lines line ≡ None
            → HasChanged number change untouched (kept_of self.new line)) }
        ensures others { OnOk result ((q : ℕ) → (q ≡ line → ⊥)
            → kept_of self.new q ≡ kept_of self.old q) }
    {
        let mut first = LineSince::UNTOUCHED;
        apply(&mut first, change, number);
        match self.lines.add(line, first) {
            Ok(()) => Ok(()),
            Err(_) => Err(NoMemory),
        }
    }

    /// A change of the line.
    fn put(&mut self, line: u32, change: Change, number: u64) -> Result<(), NoMemory>
        ensures here { OnOk result (HasChanged number change
            (kept_of self.old line) (kept_of self.new line)) }
        ensures others { OnOk result ((q : ℕ) → (q ≡ line → ⊥)
            → kept_of self.new q ≡ kept_of self.old q) }
    {
        let Some(kept) = self.lines.get_mut(line) else {
            return self.begin(line, change, number);
        };
        apply(kept, change, number);
        Ok(())
    }

    /// Hears the event that the checker heard last, which belongs to this line, if it belongs to
    /// one.
    ///
    /// # Errors
    ///
    /// `NoMemory` where there is none for the line.
    pub fn hear(
        &mut self,
        checker: &Checker,
        line: Option<u32>,
        event: &Event,
    ) -> Result<(), NoMemory>
        ensures { OnOk result ((most : ℕ) (h : Head) (past : Trace) → SinceStands h past self.old
            → StandsWithin most checker.now h (event.now ∷ past) None
            → line ≡ event_line h past event.now → SinceStands h (event.now ∷ past) self.new) }
    {
        let Some(line) = line else {
            return Ok(());
        };
        match change_by(checker.shares().lines(), line, event) {
            Some(change) => self.put(line, change, checker.count()),
            None => Ok(()),
        }
    }

    /// Since when the port has its state of the line.
    pub fn of_state(&self, line: u32, port: u8) -> u64
        ensures { (h : Head) (past : Trace) → SinceStands h past self.now
            → result ≡ state_since h past port line }
    {
        match self.lines.get(line) {
            Some(kept) => stay_at(&kept.ports, port).since,
            None => 0,
        }
    }

    /// Since when memory has what it has of the line.
    pub fn of_memory(&self, line: u32) -> u64
        ensures { (h : Head) (past : Trace) → SinceStands h past self.now
            → result ≡ memory_since past line }
    {
        match self.lines.get(line) {
            Some(kept) => kept.memory,
            None => 0,
        }
    }

    /// The number of the last grant of the line.
    pub fn of_grant(&self, line: u32) -> u64
        ensures { (h : Head) (past : Trace) → SinceStands h past self.now
            → result ≡ grant_place past line }
    {
        match self.lines.get(line) {
            Some(kept) => kept.grant,
            None => 0,
        }
    }
}
