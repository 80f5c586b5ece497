//! The last events of each line.

ghost use Rattle.std.specs.Prelude.{◌≡◌, ◌≤◌, List, length, take};

use crate::led::Led;
use crate::rows::{MOST_ROWS, Row, Rows, is_alone, is_kept, put};
use ace_event::Event;
use ace_event_words::{Deed, Transfers};
use ace_io::NoMemory;
use ace_places::LineMap;
use std::alloc::Global;
use std::collections::VecDeque;

/// A row that stands for nothing.
const NO_ROW: Row = Row {
    first: 0,
    last: 0,
    before: 0,
    deed: Deed::Mem,
};

/// The last events of each line, and of those without a line.
#[derive(Drop)]
pub struct Journal {
    alloc: Global,
    lines: LineMap<Rows>,
    lineless: Rows,
}

/// Copies so many of the rows, and then any.
fn copied(rows: &Rows, count: usize) -> [Row; MOST_ROWS]
    requires few { count ≤ 16 }
    requires there { count ≤ length rows.now.kept.items }
    ensures { take count result ≡ take count rows.now.kept.items }
{
    let mut copy = [NO_ROW; MOST_ROWS];
    for place in 0..count {
        copy[place] = rows.kept[place];
    }
    copy
}

impl Journal {
    ghost use Rattle.std.specs.Prelude.{◌+◌, ◌<◌, ◌∷◌, [], ℕ, Option, None, Some, OnOk, nat_eq, slice_get};
    ghost use Rattle.ace_belongs.specs.Belongs.{event_line};
    ghost use Rattle.ace_event.specs.declared.event.Event.{Event as Occurrence};
    ghost use Rattle.ace_event.specs.declared.header.Header.{Header as Head};
    ghost use Rattle.ace_journal.specs.Journals.{AreSameRows, IsLed, JournalStands, heard_at, items_of, lines_of, rows_at};
    ghost use Rattle.ace_journal.specs.Rows.{behind, put_row, row_of};
    ghost use Rattle.ace_journal.specs.Transfers.{transfers_in};
    ghost use Rattle.indexmap.specs.IndexMap.{get};
    ghost use Rattle.std.specs.Option.{option_copied};
    ghost use Rattle.ace_model.specs.Trace.{Trace};

    /// That of the empty trace.
    pub fn new(alloc: Global) -> Journal
        ensures { (h : Head) → JournalStands h [] result }
    {
        Journal {
            alloc,
            lines: LineMap::new(alloc),
            lineless: Rows {
                kept: VecDeque::new(alloc),
                heard: 0,
            },
        }
    }

    /// The next row is the first of its line.
    fn begin(&mut self, line: u32, next: Row) -> Result<(), NoMemory>
        ensures here { OnOk result (get nat_eq self.old.lines line ≡ None
            → rows_at self.new (Some line) ≡ behind 0 next ∷ []) }
        ensures heard { OnOk result (get nat_eq self.old.lines line ≡ None
            → heard_at self.new (Some line) ≡ 1) }
        ensures others { OnOk result ((q : ℕ) → (q ≡ line → ⊥)
            → AreSameRows self.old self.new (Some q)) }
        ensures lineless { OnOk result (self.new.lineless ≡ self.old.lineless) }
    {
        let mut kept = VecDeque::new(self.alloc);
        if kept.push_front(Row { before: 0, ..next }).is_err() {
            return Err(NoMemory);
        }
        match self.lines.add(line, Rows { kept, heard: 1 }) {
            Ok(()) => Ok(()),
            Err(_) => Err(NoMemory),
        }
    }

    /// Puts the next row to those of its line.
    fn put_on(&mut self, line: u32, next: Row) -> Result<(), NoMemory>
        ensures here { OnOk result ((all : List Row) → rows_at self.old (Some line) ≡ take 16 all
            → rows_at self.new (Some line)
            ≡ take 16 (put_row (behind (heard_at self.old (Some line)) next) all)) }
        ensures heard { OnOk result (heard_at self.old (Some line) < next.first
            → heard_at self.new (Some line) ≡ heard_at self.old (Some line) + 1) }
        ensures others { OnOk result ((q : ℕ) → (q ≡ line → ⊥)
            → AreSameRows self.old self.new (Some q)) }
        ensures lineless { OnOk result (self.new.lineless ≡ self.old.lineless) }
    {
        let Some(rows) = self.lines.get_mut(line) else {
            return self.begin(line, next);
        };
        put(rows, next)
    }

    /// Hears the next event of the trace, which belongs to this line, if it belongs to one, and has
    /// this row.
    ///
    /// # Errors
    ///
    /// `NoMemory` where there is none for the row.
    pub fn hear(&mut self, line: Option<u32>, event: &Event, next: Row) -> Result<(), NoMemory>
        ensures { OnOk result ((h : Head) (past : Trace) → JournalStands h past self.old
            → line ≡ event_line h past event.now → next ≡ row_of h past event.now
            → JournalStands h (event.now ∷ past) self.new) }
    {
        if !is_kept(event) {
            return Ok(());
        }
        match line {
            Some(line) => self.put_on(line, next),
            None => put(&mut self.lineless, next),
        }
    }

    /// How many lines there are of which events are kept.
    pub fn lines(&self) -> usize
        ensures { result ≡ length (lines_of self.now) }
    {
        self.lines.len()
    }

    /// The line at the place, in the order in which the first events of the lines came.
    pub fn line_at(&self, place: usize) -> Option<u32>
        ensures { result ≡ slice_get (lines_of self.now) place }
    {
        self.lines.line_at(place)
    }

    /// The rows that are kept of the line, or of the events without a line.
    fn rows_of(&self, line: Option<u32>) -> Option<&Rows>
        ensures { items_of (option_copied result) ≡ rows_at self.now line }
    {
        match line {
            Some(line) => self.lines.get(line),
            None => Some(&self.lineless),
        }
    }

    /// What led to the event that belongs to this line, if it belongs to one, has this row, and is
    /// this transfer.
    pub fn led(&self, line: Option<u32>, own: Row, transfers: Transfers) -> Led
        ensures { (h : Head) (past : Trace) (e : Occurrence) → JournalStands h past self.now
            → line ≡ event_line h past e → own ≡ row_of h past e
            → transfers ≡ transfers_in h past e → IsLed h past e result }
    {
        let mut led = Led {
            rows: [NO_ROW; MOST_ROWS],
            count: 0,
            own,
            transfers,
            line,
        };
        if is_alone(&own.deed) {
            return led;
        }
        if let Some(rows) = self.rows_of(line) {
            let count = rows.kept.len().min(MOST_ROWS);
            led.rows = copied(rows, count);
            led.count = count;
        }
        led
    }
}
