//! What is known of each line, at each point of the trace.

ghost use Rattle.std.specs.Prelude.{◌≡◌, ◌≤◌, ◌<◌, ◌==◌, ◌&&◌, ℕ, length, reverse, if◌then◌else◌, is_some, Some, OnOk};
ghost use Rattle.std.specs.Ordering.{nat_cmp};
ghost use Rattle.std.specs.BTreeMap.{get};
ghost use Rattle.ace_cert.specs.Walk.{AreMarksBefore, after_bytes, blank, changed, facts_behind, head_of, nth_of};

use super::bursts::{Bytes, nth_of};
use super::tables::{look_up, put};
use ace_event::{Line, merge};
use ace_io::NoMemory;
use std::collections::BTreeMap;

/// What is known of a line: whether a line transaction has named it, how many stores it has had,
/// what memory has of it, and its value.
#[derive(Clone, Copy)]
pub struct Facts {
    pub named: bool,
    pub stores: u32,
    pub memory: Line,
    pub value: Line,
}

/// What is known of a line from a point on. Its line's earlier mark is the `before`-th, from 1 on,
/// and there is none where that is 0.
#[derive(Clone, Copy)]
pub struct Mark {
    pub point: u32,
    pub before: usize,
    pub facts: Facts,
}

/// What an event does to a line: it names it, writes memory, opens it, or stores to it.
#[derive(Clone, Copy)]
pub struct Change {
    pub addr: u32,
    pub named: bool,
    pub written: Option<Line>,
    pub opened: Option<Line>,
    pub store: Option<Bytes>,
}

/// What is known of a line that no event has changed.
fn blank() -> Facts
    ensures { result ≡ blank }
{
    let zeros = Line { words: [0; 4] };
    Facts {
        named: false,
        stores: 0,
        memory: zeros,
        value: zeros,
    }
}

/// The line after the store, if there is one.
fn after_bytes(line: Line, bytes: Option<Bytes>) -> Line
    ensures { result ≡ after_bytes line bytes }
{
    match bytes {
        Some(bytes) => merge(line, bytes.strobe, bytes.line),
        None => line,
    }
}

/// What is known of the line with the change.
fn changed(change: &Change, facts: &Facts) -> Facts
    ensures { result ≡ changed change.now facts.now }
{
    let stores = if change.store.is_some() {
        facts.stores.saturating_add(1)
    } else {
        facts.stores
    };
    Facts {
        named: change.named || facts.named,
        stores,
        memory: change.written.unwrap_or(facts.memory),
        value: after_bytes(change.opened.unwrap_or(facts.value), change.store),
    }
}

/// The newest mark of the line, from 1 on, or 0.
pub(super) fn head_of(heads: &BTreeMap<u64, usize>, line: u32) -> usize
    ensures { result ≡ head_of heads.now line }
{
    look_up(heads, u64::from(line)).unwrap_or(0)
}

/// What was known at the point, by the marks from the k-th back.
pub(super) fn facts_behind(marks: &[Mark], newest: usize, point: u32) -> Facts
    requires within { newest ≤ length marks.now }
    requires before { AreMarksBefore marks.now }
    ensures { result ≡ facts_behind (reverse marks.now) newest point }
{
    let mut k = newest;
    while k > 0 {
        let mark = marks[k - 1];
        if mark.point <= point {
            return mark.facts;
        }
        k = mark.before;
    }
    blank()
}

/// Keeps the number of the event as that of a store, if the change is one, behind so many stores.
fn put_number(
    numbers: &mut BTreeMap<u64, u32>,
    change: &Change,
    stores: u32,
    number: u32,
) -> Result<(), NoMemory>
    ensures { OnOk result ((k : ℕ) → get nat_cmp numbers.new k
        ≡ (if is_some change.now.store && (nth_of change.now.addr stores == k)
        then Some number else get nat_cmp numbers.old k)) }
{
    if change.store.is_some() {
        return put(numbers, nth_of(change.addr, stores), number);
    }
    Ok(())
}

/// What is known of the lines of a trace: the newest mark of each line, all marks, and the numbers
/// of the stores to each line.
#[derive(Drop)]
pub struct Lines {
    pub heads: BTreeMap<u64, usize>,
    pub marks: Vec<Mark>,
    pub numbers: BTreeMap<u64, u32>,
}

impl Lines {
    ghost use Rattle.std.specs.Prelude.{◌≡◌, ◌<◌, reverse, OnOk};
    ghost use Rattle.ace_cert.specs.Walk.{AreMarksFit, IsApplied, facts_behind, head_of};

    /// What was known of the line at the point.
    pub(super) fn facts_at(&self, line: u32, point: u32) -> Facts
        requires { AreMarksFit self.now.heads self.now.marks.items }
        ensures { result
            ≡ facts_behind (reverse self.now.marks.items) (head_of self.now.heads line) point }
    {
        facts_behind(&self.marks, head_of(&self.heads, line), point)
    }

    /// Makes the change of the event with the number.
    ///
    /// # Errors
    ///
    /// `NoMemory`, and then they are of no use.
    pub(super) fn apply(&mut self, number: u32, change: &Change) -> Result<(), NoMemory>
        requires { AreMarksFit self.old.heads self.old.marks.items }
        ensures applied { OnOk result (IsApplied number change.now self.old self.new) }
        ensures fit { OnOk result (AreMarksFit self.new.heads self.new.marks.items) }
    {
        let before = head_of(&self.heads, change.addr);
        let old = facts_behind(&self.marks, before, number);
        let mark = Mark {
            point: number,
            before,
            facts: changed(change, &old),
        };
        match put_number(&mut self.numbers, change, old.stores, number) {
            Ok(()) => {}
            Err(none) => return Err(none),
        }
        match put(
            &mut self.heads,
            u64::from(change.addr),
            self.marks.len() + 1,
        ) {
            Ok(()) => {}
            Err(none) => return Err(none),
        }
        match self.marks.push(mark) {
            Ok(()) => Ok(()),
            Err(_) => Err(NoMemory),
        }
    }
}
