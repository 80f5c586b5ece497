// A trace is read from a source: its header at once, and then event by event.
ghost use Rattle.std.specs.Prelude.{◌≡◌, ◌+◌, ◌<◌, ◌≤◌, ◌^◌, ℕ, List, [], Option, None, Some, Result, IfOk, IfErr, IfNone, IfSome, OnErr, false};
ghost use Rattle.std.specs.Io.KnownBytes.{Consumes};
ghost use Rattle.ace_event.specs.declared.event.Event.{Event};
ghost use Rattle.ace_event.specs.Text.{header_text};
ghost use Rattle.ace_grammar.specs.declared.error.ReadErr.{ReadErr};
ghost use Rattle.ace_grammar.specs.Errors.{HasNoHeader, HasFaultCause, StandsNextWithin, with_event};
ghost use Rattle.ace_grammar.specs.Reading.{IsReadableHeader};

use crate::front::{event_in_front, events_in_front};
use crate::lines::{MOST_EVENTS, read_event, read_header};
use crate::stage::Stage;
use crate::taker::Taker;
use crate::{NO_EVENT, ReadErr};
use ace_event::{Event, Header};
use ace_io::{LineBuf, LineReader, NoMemory, Source};
use std::alloc::Global;

/// Why there is no reader, and the source that was lent to it.
#[derive(Drop)]
pub struct StartErr<'a, S: Source> {
    pub error: ReadErr,
    pub source: &'a mut S,
}

/// Reads a trace from a source. It takes up to 65,536 bytes at once, and no memory for an event.
#[derive(Drop)]
pub struct Reader<'a, S: Source> {
    lines: LineReader<'a, S>,
    line: LineBuf,
    header: Header,
    most: u64,
    count: u64,
    stage: Stage,
    ghost counted: { most + 2 < 2 ^ 64 },
    ghost few: { count ≤ most },
}

impl<'a, S: Source> Reader<'a, S> {
    ghost use Rattle.std.specs.Prelude.{◌-◌, true, is_some};
    ghost use Rattle.ace_grammar.specs.Front.{HandsAllOver, HandsOver};
    ghost use Rattle.ace_grammar.specs.Reading.{most_events, most_counted};
    ghost use Rattle.ace_grammar.specs.Reader.{source_of, unread, header_of, most_of, count_of, last_answer, lasting, given, count_after, HasRead, IsReading};

    /// Reads the two header lines of a trace. The reader gives at most 1,048,576 events, which is
    /// the most that a trace has.
    ///
    /// # Errors
    ///
    /// `Malformed` exactly where the first malformed one of the two lines has this number and this
    /// reason; `ReadFault` only where the source's count of faults rose in this call, and then what
    /// was taken from it holds no header; `NoMemory` where there is none for a reader, which never
    /// comes while its buffer is a part of it. The error hands the source back.
    pub fn start(alloc: Global, source: &'a mut S) -> Result<Reader<'a, S>, StartErr<'a, S>>
        ensures same_source { IfOk result (λ r.
            (source_of r).ghost_name ≡ source.entry.ghost_name) }
        ensures readable { IfOk result (λ r. IsReadableHeader (header_of r)) }
        ensures header { IfOk result (λ r. Consumes (S.left source.entry.now) (unread S.left r)
            (header_text (header_of r))) }
        ensures steady { IfOk result (λ r. S.faults (source_of r).now ≡ S.faults source.entry.now) }
        ensures most { IfOk result (λ r. most_of r ≡ most_events) }
        ensures count { IfOk result (λ r. count_of r ≡ 0) }
        ensures reads { IfOk result (λ r. IfSome (S.left source.entry.now)
            (λ bytes. HasRead S.left bytes [] r)) }
        ensures reads_on { IfOk result (λ r. last_answer r ≡ None) }
        ensures handed_back { IfErr result (λ e. e.source.ghost_name ≡ source.entry.ghost_name) }
        ensures none { IfErr result (λ e. HasNoHeader e.error (S.left source.entry.now)
            (S.faults source.entry.now)
            (S.left e.source.now) (S.faults e.source.now)) }
    {
        Reader::start_within(alloc, source, MOST_EVENTS)
    }

    /// The same, and the reader gives at most so many events. `MOST_COUNTED` is no limit for what a
    /// program can count.
    ///
    /// # Errors
    ///
    /// Those of `start`.
    #[tactic(auto, using(crate::proofs::Readings::Progress::read_header_alone))]
    pub fn start_within(
        alloc: Global,
        source: &'a mut S,
        most: u64,
    ) -> Result<Reader<'a, S>, StartErr<'a, S>>
        requires counted { most ≤ most_counted }
        ensures same_source { IfOk result (λ r.
            (source_of r).ghost_name ≡ source.entry.ghost_name) }
        ensures readable { IfOk result (λ r. IsReadableHeader (header_of r)) }
        ensures header { IfOk result (λ r. Consumes (S.left source.entry.now) (unread S.left r)
            (header_text (header_of r))) }
        ensures steady { IfOk result (λ r. S.faults (source_of r).now ≡ S.faults source.entry.now) }
        ensures most { IfOk result (λ r. most_of r ≡ most) }
        ensures count { IfOk result (λ r. count_of r ≡ 0) }
        ensures reads { IfOk result (λ r. IfSome (S.left source.entry.now)
            (λ bytes. HasRead S.left bytes [] r)) }
        ensures reads_on { IfOk result (λ r. last_answer r ≡ None) }
        ensures handed_back { IfErr result (λ e. e.source.ghost_name ≡ source.entry.ghost_name) }
        ensures none { IfErr result (λ e. HasNoHeader e.error (S.left source.entry.now)
            (S.faults source.entry.now)
            (S.left e.source.now) (S.faults e.source.now)) }
    {
        let mut lines = match LineReader::start(alloc, source) {
            Ok(lines) => lines,
            Err(NoMemory) => unreachable!(),
        };
        let mut line = LineBuf::empty();
        match read_header(&mut lines, &mut line) {
            Ok(header) => Ok(Reader {
                lines,
                line,
                header,
                most,
                count: 0,
                stage: Stage::Reading,
            }),
            Err(error) => Err(StartErr {
                error,
                source: lines.into_source(),
            }),
        }
    }

    /// The header of the trace.
    pub fn header(&self) -> Header
        ensures { result ≡ header_of self.now }
    {
        self.header
    }

    /// The next event, or None at the end of the input after a whole line. An answer that is no
    /// event stays: each later call gives it again, and takes nothing from the source.
    ///
    /// # Errors
    ///
    /// `Malformed` exactly where a line stands next that is malformed, with its number and the
    /// least reason that applies: the line of event n, from 1, is line n + 2. `TooManyEvents`
    /// exactly where as many events were given as the reader gives at most, and a byte stands next:
    /// 1,048,576, unless it was started within another number. `ReadFault` only where the source's
    /// count of faults rose in the first call that answers so, and what was taken by then and not
    /// given is less than a line.
    #[tactic(auto, using(crate::proofs::Readings::Progress::reading_next))]
    pub fn next(&mut self) -> Result<Option<Event>, ReadErr>
        ensures same_source { (source_of self.new).ghost_name ≡ (source_of self.old).ghost_name }
        ensures same_header { header_of self.new ≡ header_of self.old }
        ensures same_most { most_of self.new ≡ most_of self.old }
        ensures next { last_answer self.old ≡ None
            → StandsNextWithin (most_of self.old) (header_of self.old).version result
            (count_of self.old) (unread S.left self.old) (unread S.left self.new)
            (S.left (source_of self.new).now) }
        ensures reads { last_answer self.old ≡ None → (bytes : List ℕ) (events : List Event)
            → HasRead S.left bytes events self.old
            → IsReading S.left bytes events self.old self.new result }
        ensures count { count_of self.new ≡ count_after (count_of self.old) result }
        ensures last { last_answer self.new ≡ lasting result }
        ensures again { (answer : Result (Option Event) ReadErr)
            → last_answer self.old ≡ Some answer
            → (result ≡ answer) × (self.new ≡ self.old) }
        ensures cause { last_answer self.old ≡ None
            → HasFaultCause result (S.faults (source_of self.old).now)
            (S.faults (source_of self.new).now) }
    {
        let mut event = NO_EVENT;
        match self.next_into(&mut event) {
            Ok(Some(())) => Ok(Some(event)),
            Ok(None) => Ok(None),
            Err(error) => Err(error),
        }
    }

    /// The same, with the event put in its place, which spares a copy of it. Where there is none,
    /// the place stays.
    ///
    /// # Errors
    ///
    /// Those of `next`.
    pub fn next_into(&mut self, event: &mut Event) -> Result<Option<()>, ReadErr>
        ensures same_source { (source_of self.new).ghost_name ≡ (source_of self.old).ghost_name }
        ensures same_header { header_of self.new ≡ header_of self.old }
        ensures same_most { most_of self.new ≡ most_of self.old }
        ensures next { last_answer self.old ≡ None
            → StandsNextWithin (most_of self.old) (header_of self.old).version
            (with_event event.new result) (count_of self.old)
            (unread S.left self.old) (unread S.left self.new) (S.left (source_of self.new).now) }
        ensures reads { last_answer self.old ≡ None → (bytes : List ℕ) (events : List Event)
            → HasRead S.left bytes events self.old
            → IsReading S.left bytes events self.old self.new (with_event event.new result) }
        ensures count { count_of self.new ≡ count_after (count_of self.old)
            (with_event event.new result) }
        ensures last { last_answer self.new ≡ lasting (with_event event.new result) }
        ensures again { (answer : Result (Option Event) ReadErr)
            → last_answer self.old ≡ Some answer
            → (with_event event.new result ≡ answer) × (self.new ≡ self.old) }
        ensures stays { IfOk result (λ next. IfNone next (event.new ≡ event.old)) }
        ensures stays_behind { OnErr result (event.new ≡ event.old) }
        ensures cause { last_answer self.old ≡ None
            → HasFaultCause (with_event event.new result) (S.faults (source_of self.old).now)
            (S.faults (source_of self.new).now) }
    {
        if self.gives(event) {
            return Ok(Some(()));
        }
        match self.stage {
            Stage::Reading => unreachable!(),
            Stage::Ended => Ok(None),
            Stage::Failed(error) => Err(error),
        }
    }

    /// Lets a taker have the next event at once, and says whether it took it. Where it didn't,
    /// nothing has changed, and `gives` reads the event: the taker doesn't take each event, or the
    /// line isn't held whole, or there is none, or the trace is of version 2.
    #[inline(always)]
    pub fn hands_over<T: Taker>(&mut self, taker: &mut T) -> bool
        ensures same_source { (source_of self.new).ghost_name ≡ (source_of self.old).ghost_name }
        ensures source { (source_of self.new).now ≡ (source_of self.old).now }
        ensures same_header { header_of self.new ≡ header_of self.old }
        ensures same_most { most_of self.new ≡ most_of self.old }
        ensures reads_on { result ≡ true → (last_answer self.old ≡ None)
            × (last_answer self.new ≡ None) }
        ensures room { result ≡ true → count_of self.old < most_of self.old }
        ensures count { result ≡ true → count_of self.new ≡ count_of self.old + 1 }
        ensures taken { result ≡ true → HandsOver (header_of self.old).version
            (λ event. T.took taker.old event taker.new)
            (unread S.left self.old) (unread S.left self.new) }
        ensures stays { result ≡ false → (self.new ≡ self.old) × (taker.new ≡ taker.old) }
    {
        if self.header.version != 1
            || self.count == self.most
            || !matches!(self.stage, Stage::Reading)
        {
            return false;
        }
        let Some(count) = event_in_front(self.lines.front(), taker) else {
            return false;
        };
        self.lines.pass(count + 1);
        self.count += 1;
        true
    }

    /// Lets a taker have the next events at once, one after another, as long as their lines are
    /// held whole and it takes them. Where the reader doesn't read on, or the trace is of version
    /// 2, it has none.
    #[inline(always)]
    pub fn hands_all_over<T: Taker>(&mut self, taker: &mut T)
        ensures same_source { (source_of self.new).ghost_name ≡ (source_of self.old).ghost_name }
        ensures source { (source_of self.new).now ≡ (source_of self.old).now }
        ensures same_header { header_of self.new ≡ header_of self.old }
        ensures same_most { most_of self.new ≡ most_of self.old }
        ensures same_answer { last_answer self.new ≡ last_answer self.old }
        ensures further { count_of self.old ≤ count_of self.new }
        ensures few { count_of self.new ≤ most_of self.new }
        ensures taken { HandsAllOver (header_of self.old).version T.took
            (count_of self.new - count_of self.old) taker.old taker.new
            (unread S.left self.old) (unread S.left self.new) }
        ensures stays { is_some (last_answer self.old) ≡ true → (self.new ≡ self.old)
            × (taker.new ≡ taker.old) }
    {
        if self.header.version != 1
            || self.count >= self.most
            || !matches!(self.stage, Stage::Reading)
        {
            return;
        }
        let handed = events_in_front(self.lines.front(), self.most - self.count, taker);
        self.lines.pass(handed.bytes);
        self.count += handed.events;
    }

    /// As `next_into`, but it says alone whether there was an event. Where there was none, the
    /// reader keeps the answer, which `next` and `next_into` give from then on.
    #[tactic(auto, using(crate::proofs::Readings::Progress::reading_next))]
    #[inline(never)]
    pub fn gives(&mut self, event: &mut Event) -> bool
        ensures same_source { (source_of self.new).ghost_name ≡ (source_of self.old).ghost_name }
        ensures same_header { header_of self.new ≡ header_of self.old }
        ensures same_most { most_of self.new ≡ most_of self.old }
        ensures next { last_answer self.old ≡ None
            → StandsNextWithin (most_of self.old) (header_of self.old).version
            (given result event.new (last_answer self.new)) (count_of self.old)
            (unread S.left self.old) (unread S.left self.new) (S.left (source_of self.new).now) }
        ensures reads { last_answer self.old ≡ None → (bytes : List ℕ) (events : List Event)
            → HasRead S.left bytes events self.old
            → IsReading S.left bytes events self.old self.new (given result event.new
            (last_answer self.new)) }
        ensures count { count_of self.new ≡ count_after (count_of self.old) (given result event.new
            (last_answer self.new)) }
        ensures last { last_answer self.new ≡ lasting (given result event.new
            (last_answer self.new)) }
        ensures again { (answer : Result (Option Event) ReadErr)
            → last_answer self.old ≡ Some answer
            → (result ≡ false) × (self.new ≡ self.old) }
        ensures stays { result ≡ false → event.new ≡ event.old }
        ensures cause { last_answer self.old ≡ None
            → HasFaultCause (given result event.new (last_answer self.new))
            (S.faults (source_of self.old).now) (S.faults (source_of self.new).now) }
    {
        if self.hands_over(event) {
            return true;
        }
        match self.stage {
            Stage::Reading => {}
            Stage::Ended | Stage::Failed(_) => return false,
        }
        let version = self.header.version;
        if read_event(
            &mut self.lines,
            &mut self.line,
            self.most,
            self.count,
            version,
            event,
            &mut self.stage,
        ) {
            self.count += 1;
            return true;
        }
        false
    }
}
