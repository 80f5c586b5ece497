// A checker with how it has ended.
ghost use Rattle.std.specs.Prelude.{◌≡◌, ◌≢◌, ◌∷◌, [], ◌+◌, ℕ, Option, None, Some, IfNone, IfSome, length};
ghost use Rattle.ace_event.specs.declared.header.Header.{Header};
ghost use Rattle.ace_event.specs.Ports.{IsHeader};
ghost use Rattle.ace_model.specs.declared.breaks.Break.{Break};
ghost use Rattle.ace_model.specs.Trace.{Trace};
ghost use Rattle.ace_check.specs.Run.{StandsWithin, IsSound};
ghost use Rattle.ace_c.specs.declared.answer.Ending.{Ending};
ghost use Rattle.ace_c.specs.Answers.{status_of, answer_of, fine};
ghost use Rattle.ace_c.specs.Names.{named, with_address};
ghost use Rattle.ace_c.specs.Range.{InRange};
ghost use Rattle.ace_c.specs.Records.{event_of};
ghost use Rattle.ace_c.specs.Sessions.{Hears, HasEnded, HasFed, IsEnding, EndsAt, IsEventThat, ending_as};

use crate::answer::{AceAnswer, Ending, answer_of, fine, status_of};
use crate::names::{Nameless, Names};
use crate::range::is_in_range;
use crate::record::{AceEvent, event_as};
use ace_check::{CheckErr, Checker, Step};
use ace_event::{Event, Header};
use std::alloc::Global;

/// The most events that a session takes.
const MOST_EVENTS: u64 = 0xffff_ffff_ffff_fffe;

/// How an answer of the checker ends a session, if it does.
#[inline(always)]
fn ending_as(answer: Result<Step, CheckErr>) -> Option<Ending>
    ensures { result ≡ ending_as answer }
{
    match answer {
        Ok(Step::Fine) => None,
        Ok(Step::Broken { rule, .. }) => Some(Ending::Refused { rule }),
        Err(CheckErr::TooManyLines) => Some(Ending::TooManyLines),
        Err(CheckErr::NoMemory) => Some(Ending::NoMemory),
    }
}

/// A checker of one trace. The first status that isn't 0 is the status for good.
#[derive(Drop)]
pub struct Session {
    checker: Checker,
    names: Names,
    version: u8,
    ended: Option<Ending>,
}

impl Session {
    /// The session of the empty trace under this header, whose transactions may name so many lines.
    /// None where there is no memory.
    pub(crate) fn new(alloc: Global, header: Header, most: usize) -> Option<Session>
        requires { IsHeader header }
        ensures { IfSome result (λ s. Hears s most header []) }
    {
        match Checker::with_lines(alloc, header, most) {
            Ok(checker) => Some(Session {
                checker,
                names: Names::new(alloc),
                version: header.version,
                ended: None,
            }),
            Err(_) => None,
        }
    }

    /// Looks at the next event, and tells the status.
    #[inline(always)]
    pub(crate) fn feed(&mut self, given: &AceEvent) -> u8
        ensures fine { (most : ℕ) (h : Header) (past : Trace) → Hears self.old most h past
            → result ≡ 0 → IsEventThat h (event_of given.now)
            (λ e. Hears self.new most h (e ∷ past) × IsSound h (named (e ∷ past))) }
        ensures ends { (most : ℕ) (h : Header) (past : Trace) → Hears self.old most h past
            → result ≢ 0 → (ending : Ending) × HasEnded self.new most h past ending
            × IsEnding most h past (event_of given.now) ending × (result ≡ status_of ending) }
        ensures ended { (most : ℕ) (h : Header) (past : Trace) (ending : Ending)
            → HasEnded self.old most h past ending
            → (result ≡ status_of ending) × (self.new ≡ self.old) }
    {
        if let Some(ending) = self.ended {
            return status_of(ending);
        }
        match self.ending_at(given) {
            None => 0,
            Some(ending) => self.end(ending),
        }
    }

    /// Ends the session so, and tells the status.
    #[cold]
    #[inline(never)]
    fn end(&mut self, ending: Ending) -> u8
        ensures { (result ≡ status_of ending) × (self.new.ended ≡ Some ending)
            × (self.new.checker ≡ self.old.checker) }
    {
        self.ended = Some(ending);
        status_of(ending)
    }

    /// Looks at the next event of a session that no event has ended: what ends it, if anything
    /// does. Each kind has an arm, so that what is done is compiled for that kind alone.
    #[inline(always)]
    fn ending_at(&mut self, given: &AceEvent) -> Option<Ending>
        ensures fine { (most : ℕ) (h : Header) (past : Trace) → Hears self.old most h past
            → IfNone result
            (IsEventThat h (event_of given.now) (λ e. Hears self.new most h (e ∷ past))) }
        ensures ends { (most : ℕ) (h : Header) (past : Trace) → Hears self.old most h past
            → IfSome result (λ ending. IsEnding most h past (event_of given.now) ending
            × ((b : Option Break) × StandsWithin most self.new.checker h (named past) b)) }
    {
        match given.kind {
            0 => self.ending_as(0, given),
            1 => self.ending_as(1, given),
            2 => self.ending_as(2, given),
            3 => self.ending_as(3, given),
            4 => self.ending_as(4, given),
            5 => self.ending_as(5, given),
            6 => self.ending_as(6, given),
            7 => self.ending_as(7, given),
            8 => self.ending_as(8, given),
            9 => self.ending_as(9, given),
            10 => self.ending_as(10, given),
            11 => self.ending_as(11, given),
            12 => self.ending_as(12, given),
            13 => self.ending_as(13, given),
            14 => self.ending_as(14, given),
            15 => self.ending_as(15, given),
            16 => self.ending_as(16, given),
            kind => self.ending_as(kind, given),
        }
    }

    /// The same, of a record of this kind.
    #[inline(always)]
    fn ending_as(&mut self, kind: u8, given: &AceEvent) -> Option<Ending>
        requires { given.now.kind ≡ kind }
        ensures fine { (most : ℕ) (h : Header) (past : Trace) → Hears self.old most h past
            → IfNone result
            (IsEventThat h (event_of given.now) (λ e. Hears self.new most h (e ∷ past))) }
        ensures ends { (most : ℕ) (h : Header) (past : Trace) → Hears self.old most h past
            → IfSome result (λ ending. IsEnding most h past (event_of given.now) ending
            × ((b : Option Break) × StandsWithin most self.new.checker h (named past) b)) }
    {
        match event_as(kind, given) {
            Some(event) => self.ending_of(event, given.addr),
            None => Some(Ending::OutOfRange),
        }
    }

    /// The same, where the record is of this event with this address.
    #[inline(always)]
    fn ending_of(&mut self, event: Event, addr: u64) -> Option<Ending>
        ensures fine { (most : ℕ) (h : Header) (past : Trace) → Hears self.old most h past
            → IfNone result (InRange h.version (with_address event addr)
            × Hears self.new most h (with_address event addr ∷ past)) }
        ensures ends { (most : ℕ) (h : Header) (past : Trace) → Hears self.old most h past
            → IfSome result (λ ending. EndsAt most h past (with_address event addr) ending
            × ((b : Option Break) × StandsWithin most self.new.checker h (named past) b)) }
    {
        if !is_in_range(self.version, &event, addr) {
            return Some(Ending::OutOfRange);
        }
        if self.checker.count() >= MOST_EVENTS {
            return Some(Ending::TooManyEvents);
        }
        match self.names.named(event, addr) {
            Ok(named) => ending_as(self.checker.feed(&named)),
            Err(Nameless::AllTaken) => Some(Ending::TooManyLines),
            Err(Nameless::NoMemory) => Some(Ending::NoMemory),
        }
    }

    /// Looks at the next events, up to the first that ends the session: how many were fine.
    pub(crate) fn feed_many(&mut self, given: &[AceEvent]) -> usize
        ensures fed { (most : ℕ) (h : Header) (past : Trace) → Hears self.old most h past
            → HasFed self.new most h past given.now result }
        ensures ended { (most : ℕ) (h : Header) (past : Trace) (ending : Ending)
            → HasEnded self.old most h past ending → (result ≡ 0) × (self.new ≡ self.old) }
    {
        if self.ended.is_some() {
            return 0;
        }
        for (n, event) in given.iter().enumerate() {
            if self.feed(event) != 0 {
                return n;
            }
        }
        given.len()
    }

    /// The answer about all events so far.
    pub(crate) fn verdict(&self) -> AceAnswer
        ensures fine { (most : ℕ) (h : Header) (past : Trace) → Hears self.now most h past
            → result ≡ fine (length past) }
        ensures ended { (most : ℕ) (h : Header) (past : Trace) (ending : Ending)
            → HasEnded self.now most h past ending → result ≡ answer_of ending (length past + 1) }
    {
        let count = self.checker.count();
        match self.ended {
            Some(ending) => answer_of(ending, count.wrapping_add(1)),
            None => fine(count),
        }
    }
}
