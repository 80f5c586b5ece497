//! The lines that a port holds.

ghost use Rattle.std.specs.Prelude.{◌≡◌, ◌≤◌, ◌∷◌, ℕ, true, false, [], IfOk, Some, None};
ghost use Rattle.ace_event.specs.declared.header.Header.{Header};
ghost use Rattle.ace_tables.specs.States.{is_invalid};
ghost use Rattle.ace_model.specs.Copies.{copy_of};
ghost use Rattle.ace_model.specs.Plans.{Plan};
ghost use Rattle.ace_model.specs.States.{state_of};
ghost use Rattle.ace_model.specs.Trace.{Trace, is_some_and, port_of};
ghost use Rattle.ace_model.specs.Transactions.{has_outstanding_on, is_ace, read_kind};
ghost use Rattle.ace_tables.specs.EndStates.{is_fetch};
ghost use Rattle.ace_runs.specs.Requests.{has_room};
ghost use Rattle.ace_engine.specs.Engines.{IsLegal};
ghost use Rattle.ace_portck.specs.OnePort.{OnePortStands};
ghost use Rattle.ace_master_state.specs.Cached.{ArrivingStand, CachedStands, HasLowId};

use crate::arriving::Arriving;
use crate::change::{change_of, make};
use ace_cache::LineCache;
use ace_codes::{ArKind, LineState};
use ace_event::laws::every_event_fits;
use ace_event::{Channel, Event, Line};
use ace_io::NoMemory;
use ace_model::Transaction;
use ace_model::kinds::read_kind;
use ace_portck::{OnePort, is_at};
use std::alloc::Global;

/// The lines that a port holds, each with its state and its bytes, and those that come to it.
#[derive(Drop)]
pub struct Cached {
    cache: LineCache,
    arriving: Arriving,
}

/// The transaction is a read that fetches a line to keep.
fn fetches(transaction: &Transaction) -> bool
    ensures { result ≡ is_some_and (read_kind transaction.now) is_fetch }
{
    match read_kind(transaction) {
        None => false,
        Some(kind) => matches!(
            kind,
            ArKind::ReadClean | ArKind::ReadNotSharedDirty | ArKind::ReadShared | ArKind::ReadUnique
        ),
    }
}

impl Cached {
    /// The lines of a port of the empty trace: none, with room for so many.
    ///
    /// # Errors
    ///
    /// `NoMemory` where there is none for the ways.
    pub fn new(alloc: Global, ways: u8) -> Result<Cached, NoMemory>
        requires some_way { 1 ≤ ways }
        requires most_ways { ways ≤ 32 }
        ensures { IfOk result (λ s. (h : Header) (p : ℕ) → CachedStands h ways [] p s) }
    {
        let cache = LineCache::new(alloc, ways)?;
        Ok(Cached {
            cache,
            arriving: Arriving::empty(),
        })
    }

    /// The state of the line at the port.
    pub fn state(&self, line: u32) -> LineState
        ensures { (h : Header) (ways : ℕ) (past : Trace) (p : ℕ)
            → CachedStands h ways past p self.now → result ≡ state_of h past p line }
    {
        match self.cache.find(line) {
            Some(way) => way.st,
            None => LineState::I,
        }
    }

    /// The port's copy of a line that it holds.
    pub fn copy(&self, line: u32) -> Line
        ensures { (h : Header) (ways : ℕ) (past : Trace) (p : ℕ)
            → CachedStands h ways past p self.now → is_invalid (state_of h past p line) ≡ false
            → result ≡ copy_of past p line }
    {
        match self.cache.find(line) {
            Some(way) => way.line,
            None => Line { words: [0; 4] },
        }
    }

    /// The port holds fewer lines than it has ways.
    pub fn has_room(&self) -> bool
        ensures { (h : Header) (ways : ℕ) (past : Trace) (p : ℕ)
            → CachedStands h ways past p self.now → result ≡ has_room ways h past p }
    {
        self.cache.has_room()
    }
    /// A line to give up for another, where the port has no room: of those on which no transaction
    /// is outstanding the one that came in or was stored to least recently.
    pub fn victim(&self) -> Option<u32>
        ensures idle { (h : Header) (ways : ℕ) (past : Trace) (p : ℕ) (l : ℕ)
            → CachedStands h ways past p self.now → result ≡ Some l
            → (is_invalid (state_of h past p l) ≡ false) × (has_outstanding_on h past p l ≡ false) }
        ensures none { (h : Header) (ways : ℕ) (past : Trace) (p : ℕ) (l : ℕ)
            → CachedStands h ways past p self.now → result ≡ None → has_room ways h past p ≡ false
            → is_invalid (state_of h past p l) ≡ false → has_outstanding_on h past p l ≡ true }
    {
        if self.cache.has_room() {
            return None;
        }
        self.cache.victim()
    }

    /// What an event of the port, an ACE port, brings of a line.
    fn bring(&mut self, port: &OnePort, event: &Event)
        ensures arriving { (plan : Plan) (past : Trace) (p : ℕ)
            → OnePortStands port.now plan.header past p → is_ace plan.header p ≡ true
            → IsLegal plan (event.now ∷ past)
            → port_of event.now ≡ Some p → HasLowId event.now
            → ArrivingStand plan.header past p self.old.arriving
            → ArrivingStand plan.header (event.now ∷ past) p self.new.arriving }
        ensures cache { self.new.cache ≡ self.old.cache }
    {
        every_event_fits(*event);
        match *event {
            Event::R { id, word, .. } => {
                if let Some(x) = port.named(Channel::Read, id) {
                    if fetches(&x.transaction) {
                        self.arriving.put_word(id, x.transfers, word);
                    }
                }
            }
            Event::D { addr, line, .. } => {
                if let Some(x) = port.own(addr) {
                    self.arriving.put(x.transaction.id, line);
                }
            }
            _ => {}
        }
    }

    /// Hears the next event of the trace. `port` is what is kept of the port, an ACE port, before
    /// it.
    pub fn hear(&mut self, port: &OnePort, event: &Event)
        ensures { (plan : Plan) (past : Trace) (p : ℕ) → OnePortStands port.now plan.header past p
            → is_ace plan.header p ≡ true → IsLegal plan (event.now ∷ past)
            → (port_of event.now ≡ Some p → HasLowId event.now)
            → CachedStands plan.header plan.ways past p self.old
            → CachedStands plan.header plan.ways (event.now ∷ past) p self.new }
    {
        every_event_fits(*event);
        if !is_at(event, port.port()) {
            return;
        }
        let change = change_of(port, &self.arriving, event);
        make(&mut self.cache, &change);
        self.bring(port, event);
    }
}
