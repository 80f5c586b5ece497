//! The records of all lines.

use crate::hints::Hints;
use crate::record::{LineRecord, empty_record};
use crate::room::{Room, rooms, take_record};
use ace_event::{Channel, Header, Line};
use ace_io::NoMemory;
use ace_places::LineMap;
use std::alloc::Global;

/// The checker of the rules that look at one line: what is kept of each line of which something has
/// come.
#[derive(Drop)]
pub struct LineCheck {
    pub(crate) header: Header,
    alloc: Global,
    pub(crate) lines: LineMap<LineRecord>,
    /// How many lines a transaction has named.
    pub(crate) known: usize,
    /// What is kept of every other line.
    empty: LineRecord,
    /// Room for lines to come.
    spare: Vec<Room>,
    /// Where the record of a line may stand.
    hints: Hints,
}

impl LineCheck {
    ghost use Rattle.std.specs.Prelude.{◌≡◌, ◌≤◌, ℕ, true, [], length, Option, Some, option_map, IfOk, IsOk, OnOk, OnErr};
    ghost use Rattle.ace_event.specs.Ports.{IsHeader};
    ghost use Rattle.ace_model.specs.Copies.{memory_of};
    ghost use Rattle.ace_model.specs.Grants.{granted};
    ghost use Rattle.ace_model.specs.Trace.{Trace};
    ghost use Rattle.ace_model.specs.Lines.{is_known, known_lines};
    ghost use Rattle.ace_portck.specs.Targets.{Recording};
    ghost use Rattle.ace_lineck.specs.Stands.{Stands, HasRecord, IsAbsent, IsKnown, IsRoomy, place_on, record_on};
    ghost use Rattle.ace_lineck.specs.Records.{name_of};

    /// The checker of the empty trace under the header.
    pub fn new(alloc: Global, header: Header) -> LineCheck
        ensures { IsHeader header → Stands result (record { header = header; past = [] }) }
    {
        LineCheck {
            header,
            alloc,
            lines: LineMap::new(alloc),
            known: 0,
            empty: empty_record(alloc),
            spare: Vec::new(alloc),
            hints: Hints::new(),
        }
    }

    /// The same, with room for so many lines: as long as no more are known, `make_record` makes
    /// room for any.
    pub fn with_room(alloc: Global, header: Header, lines: usize) -> Result<LineCheck, NoMemory>
        ensures stands { IfOk result (λ s. IsHeader header
            → Stands s (record { header = header; past = [] })) }
        ensures room { IfOk result (IsRoomy lines []) }
    {
        let Ok(records) = LineMap::with_capacity(alloc, lines) else {
            return Err(NoMemory);
        };
        let spare = rooms(alloc, header.ports, lines)?;
        Ok(LineCheck {
            header,
            alloc,
            lines: records,
            known: 0,
            empty: empty_record(alloc),
            spare,
            hints: Hints::new(),
        })
    }

    /// Where the record of a line stands, if it has one. It stays there; that a line has none is
    /// good until room is made for one.
    #[inline(always)]
    pub fn place(&self, line: Option<u32>) -> Option<usize>
        ensures { result ≡ place_on self.now line }
    {
        match line {
            None => None,
            Some(line) => self.place_of(line),
        }
    }

    /// The same, of a line.
    #[inline(always)]
    fn place_of(&self, line: u32) -> Option<usize>
        ensures { result ≡ place_on self.now (Some line) }
    {
        let guess = self.hints.guess(line);
        if self.stands_at(guess, line) {
            Some(guess)
        } else {
            self.search(line)
        }
    }

    /// The same, of a line that doesn't stand where it is looked for first.
    #[inline(never)]
    fn search(&self, line: u32) -> Option<usize>
        ensures { result ≡ place_on self.now (Some line) }
    {
        self.lines.get_index_of(line)
    }

    /// The record of the line stands at the place.
    #[inline(always)]
    fn stands_at(&self, place: usize, line: u32) -> bool
        ensures { result ≡ true → place_on self.now (Some line) ≡ Some place }
    {
        match self.lines.line_at(place) {
            Some(it) => it == line,
            None => false,
        }
    }

    /// What is kept of the line whose record stands at the place.
    pub(crate) fn record(&self, place: Option<usize>) -> &LineRecord
        ensures { (line : Option ℕ) → place ≡ place_on self.now line
            → result.now ≡ record_on self.now line }
    {
        match place {
            None => &self.empty,
            Some(place) => match self.lines.get_index(place) {
                None => &self.empty,
                Some(kept) => kept,
            },
        }
    }

    /// Makes a record of the line, if it has none. The place of its record from then on.
    #[inline(always)]
    pub fn make_record(
        &mut self,
        line: u32,
        place: Option<usize>,
    ) -> Result<Option<usize>, NoMemory>
        ensures stands { (r : Recording) → Stands self.old r
            → place ≡ place_on self.old (Some line) → Stands self.new r }
        ensures room { place ≡ place_on self.old (Some line)
            → IfOk result (λ q. q ≡ place_on self.new (Some line)) }
        ensures made { place ≡ place_on self.old (Some line)
            → OnOk result (HasRecord self.new (Some line)) }
        ensures cause { place ≡ place_on self.old (Some line)
            → OnErr result (IsAbsent self.old (Some line)) }
        ensures roomy { (n : ℕ) (past : Trace) → IsRoomy n past self.old
            → place ≡ place_on self.old (Some line) → IsKnown past (Some line)
            → IsRoomy n past self.new }
        ensures refused { OnErr result ((n : ℕ) (past : Trace)
            → IsRoomy n past self.old → IsRoomy n past self.new) }
        ensures succeeds { (n : ℕ) (past : Trace) → IsRoomy n past self.old
            → place ≡ place_on self.old (Some line) → IsKnown past (Some line)
            → length (known_lines past) ≤ n → IsOk result }
    {
        if place.is_some() {
            return Ok(place);
        }
        let Ok(kept) = take_record(&mut self.spare, self.alloc, self.header.ports) else {
            return Err(NoMemory);
        };
        match self.lines.add(line, kept) {
            Ok(()) => {
                let made = self.place(Some(line));
                self.hints.put(line, made);
                Ok(made)
            }
            Err(_) => Err(NoMemory),
        }
    }

    /// Whether a line transaction has named the line whose record stands at the place.
    pub fn knows(&self, place: Option<usize>) -> bool
        ensures { (r : Recording) (line : ℕ) → Stands self.now r
            → place ≡ place_on self.now (Some line) → result ≡ is_known r.past line }
    {
        !self.record(place).is_unknown()
    }

    /// The port, channel and identifier of the transaction that is granted on the line whose record
    /// stands at the place.
    pub fn granted(&self, place: Option<usize>) -> Option<(u8, Channel, u8)>
        ensures { (r : Recording) (line : ℕ) → Stands self.now r
            → place ≡ place_on self.now (Some line)
            → result ≡ option_map name_of (granted r.header r.past line) }
    {
        self.record(place).granted_name()
    }

    /// What memory has of the line.
    pub fn memory(&self, line: u32) -> Line
        ensures { (r : Recording) → Stands self.now r → result ≡ memory_of r.past line }
    {
        self.record(self.place(Some(line))).memory
    }

    /// How many lines the line transactions have named.
    pub fn lines(&self) -> usize
        ensures { (r : Recording) → Stands self.now r → result ≡ length (known_lines r.past) }
    {
        self.known
    }
}
