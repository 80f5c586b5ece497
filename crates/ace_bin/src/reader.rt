// A binary trace is read from a source: its header at once, and then event by event.
ghost use Rattle.std.specs.Prelude.{◌≡◌, ◌≤◌, ◌+◌, ◌*◌, ℕ, List, [], Option, None, Some, Result, IfOk, IfErr, IfSome, false};
ghost use Rattle.std.specs.Io.KnownBytes.{Consumes};
ghost use Rattle.ace_event.specs.declared.event.Event.{Event};
ghost use Rattle.ace_event.specs.Ports.{IsHeader};
ghost use Rattle.ace_bin.specs.declared.error.BinErr.{BinErr};
ghost use Rattle.ace_bin.specs.Binary.{header_bytes};
ghost use Rattle.ace_bin.specs.Errors.{HasNoHeader, HasFaultCause, StandsNext, with_event};

use crate::BinErr;
use crate::finding::{read_event, read_header};
use crate::record::NO_EVENT;
use crate::stage::Stage;
use crate::window::Window;
use ace_event::{Event, Header};
use ace_io::Source;

/// Why there is no reader, and the source that was lent to it.
#[derive(Drop)]
pub struct BinStartErr<'a, S: Source> {
    pub error: BinErr,
    pub source: &'a mut S,
}

/// How many bytes a header has.
const HEADER_SIZE: u64 = 10;

/// Reads a binary trace from a source. It takes up to 65,536 bytes at once, and no memory.
#[derive(Drop)]
pub struct BinReader<'a, S: Source> {
    window: Window<'a, S>,
    header: Header,
    count: u64,
    place: u64,
    stage: Stage,
    ghost few: { count ≤ 1048576 },
    ghost near: { place ≤ 10 + 79 * count },
}

impl<'a, S: Source> BinReader<'a, S> {
    ghost use Rattle.ace_bin.specs.Reader.{source_of, unread, header_of, count_of, place_of, last_answer, lasting, given, count_after, place_after, HasRead, IsReading};

    /// Reads the header.
    ///
    /// # Errors
    ///
    /// `Malformed` exactly where the header is malformed, at byte 0 and for this reason;
    /// `ReadFault` only where the source's count of faults rose in this call, and then what was
    /// taken from it is less than a header. The error hands the source back.
    #[tactic(auto, using(crate::proofs::Progress::read_header_alone))]
    pub fn start(source: &'a mut S) -> Result<BinReader<'a, S>, BinStartErr<'a, S>>
        ensures same_source { IfOk result
            (λ r. (source_of r).ghost_name ≡ source.entry.ghost_name) }
        ensures right { IfOk result (λ r. IsHeader (header_of r)) }
        ensures header { IfOk result
            (λ r. Consumes (S.left source.entry.now) (unread S.left r)
            (header_bytes (header_of r))) }
        ensures steady { IfOk result (λ r. S.faults (source_of r).now ≡ S.faults source.entry.now) }
        ensures count { IfOk result (λ r. count_of r ≡ 0) }
        ensures place { IfOk result (λ r. place_of r ≡ 10) }
        ensures reads { IfOk result
            (λ r. IfSome (S.left source.entry.now) (λ bytes. HasRead S.left bytes [] r)) }
        ensures reads_on { IfOk result (λ r. last_answer r ≡ None) }
        ensures handed_back { IfErr result (λ e. e.source.ghost_name ≡ source.entry.ghost_name) }
        ensures none { IfErr result
            (λ e. HasNoHeader e.error (S.left source.entry.now) (S.faults source.entry.now)
            (S.left e.source.now) (S.faults e.source.now)) }
    {
        let mut window = Window::start(source);
        match read_header(&mut window) {
            Ok(header) => Ok(BinReader {
                window,
                header,
                count: 0,
                place: HEADER_SIZE,
                stage: Stage::Reading,
            }),
            Err(error) => Err(BinStartErr {
                error,
                source: window.into_source(),
            }),
        }
    }

    /// The header of the trace.
    pub fn header(&self) -> Header
        ensures { result ≡ header_of self.now }
    {
        self.header
    }

    /// The next event, or None at the end of the input after a whole record. An answer that is no
    /// event stays: each later call gives it again, and takes nothing from the source.
    ///
    /// # Errors
    ///
    /// `Malformed` exactly where a record stands next that is malformed, with the number of bytes
    /// before it and the least reason that applies. `TooManyEvents` exactly where 1,048,576 events
    /// were given and a byte stands next. `ReadFault` only where the source's count of faults rose
    /// in the first call that answers so, and what was taken by then and not given holds no whole
    /// record.
    #[tactic(auto, using(crate::proofs::Progress::reading_next))]
    pub fn next(&mut self) -> Result<Option<Event>, BinErr>
        ensures same_source { (source_of self.new).ghost_name ≡ (source_of self.old).ghost_name }
        ensures same_header { header_of self.new ≡ header_of self.old }
        ensures next { last_answer self.old ≡ None
            → StandsNext (header_of self.old).version result (count_of self.old) (place_of self.old)
            (unread S.left self.old) (unread S.left self.new) (S.left (source_of self.new).now) }
        ensures reads { last_answer self.old ≡ None → (bytes : List ℕ) (events : List Event)
            → HasRead S.left bytes events self.old
            → IsReading S.left bytes events self.old self.new result }
        ensures count { count_of self.new ≡ count_after (count_of self.old) result }
        ensures place { place_of self.new ≡ place_after (place_of self.old) result }
        ensures last { last_answer self.new ≡ lasting result }
        ensures again { (answer : Result (Option Event) BinErr) → last_answer self.old ≡ Some answer
            → (result ≡ answer) × (self.new ≡ self.old) }
        ensures cause { last_answer self.old ≡ None
            → HasFaultCause result (S.faults (source_of self.old).now)
            (S.faults (source_of self.new).now) }
    {
        let mut event = NO_EVENT;
        match self.next_into(&mut event) {
            Ok(Some(())) => Ok(Some(event)),
            Ok(None) => Ok(None),
            Err(error) => Err(error),
        }
    }

    /// The same, with the event put in its place, which spares a copy of it.
    ///
    /// # Errors
    ///
    /// Those of `next`.
    pub fn next_into(&mut self, event: &mut Event) -> Result<Option<()>, BinErr>
        ensures same_source { (source_of self.new).ghost_name ≡ (source_of self.old).ghost_name }
        ensures same_header { header_of self.new ≡ header_of self.old }
        ensures next { last_answer self.old ≡ None
            → StandsNext (header_of self.old).version (with_event event.new result)
            (count_of self.old) (place_of self.old)
            (unread S.left self.old) (unread S.left self.new) (S.left (source_of self.new).now) }
        ensures reads { last_answer self.old ≡ None → (bytes : List ℕ) (events : List Event)
            → HasRead S.left bytes events self.old
            → IsReading S.left bytes events self.old self.new (with_event event.new result) }
        ensures count { count_of self.new
            ≡ count_after (count_of self.old) (with_event event.new result) }
        ensures place { place_of self.new
            ≡ place_after (place_of self.old) (with_event event.new result) }
        ensures last { last_answer self.new ≡ lasting (with_event event.new result) }
        ensures again { (answer : Result (Option Event) BinErr) → last_answer self.old ≡ Some answer
            → (with_event event.new result ≡ answer) × (self.new ≡ self.old) }
        ensures cause { last_answer self.old ≡ None
            → HasFaultCause (with_event event.new result) (S.faults (source_of self.old).now)
            (S.faults (source_of self.new).now) }
    {
        if self.gives(event) {
            return Ok(Some(()));
        }
        match self.stage {
            Stage::Reading => unreachable!(),
            Stage::Ended => Ok(None),
            Stage::Failed(error) => Err(error),
        }
    }

    /// As `next_into`, but it says alone whether there was an event. Where there was none, the
    /// reader keeps the answer, which `next` and `next_into` give from then on.
    #[tactic(auto, using(crate::proofs::Progress::reading_next))]
    pub fn gives(&mut self, event: &mut Event) -> bool
        ensures same_source { (source_of self.new).ghost_name ≡ (source_of self.old).ghost_name }
        ensures same_header { header_of self.new ≡ header_of self.old }
        ensures next { last_answer self.old ≡ None
            → StandsNext (header_of self.old).version
            (given result event.new (last_answer self.new))
            (count_of self.old) (place_of self.old)
            (unread S.left self.old) (unread S.left self.new) (S.left (source_of self.new).now) }
        ensures reads { last_answer self.old ≡ None → (bytes : List ℕ) (events : List Event)
            → HasRead S.left bytes events self.old
            → IsReading S.left bytes events self.old self.new
            (given result event.new (last_answer self.new)) }
        ensures count { count_of self.new
            ≡ count_after (count_of self.old) (given result event.new (last_answer self.new)) }
        ensures place { place_of self.new
            ≡ place_after (place_of self.old) (given result event.new (last_answer self.new)) }
        ensures last { last_answer self.new
            ≡ lasting (given result event.new (last_answer self.new)) }
        ensures again { (answer : Result (Option Event) BinErr) → last_answer self.old ≡ Some answer
            → (result ≡ false) × (self.new ≡ self.old) }
        ensures cause { last_answer self.old ≡ None
            → HasFaultCause (given result event.new (last_answer self.new))
            (S.faults (source_of self.old).now) (S.faults (source_of self.new).now) }
    {
        match self.stage {
            Stage::Reading => self.read_on(event),
            Stage::Ended | Stage::Failed(_) => false,
        }
    }

    /// The same of a reader that reads on.
    #[inline(always)]
    fn read_on(&mut self, event: &mut Event) -> bool
        requires { last_answer self.old ≡ None }
        ensures same_source { (source_of self.new).ghost_name ≡ (source_of self.old).ghost_name }
        ensures same_header { header_of self.new ≡ header_of self.old }
        ensures next { StandsNext (header_of self.old).version
            (given result event.new (last_answer self.new)) (count_of self.old) (place_of self.old)
            (unread S.left self.old) (unread S.left self.new) (S.left (source_of self.new).now) }
        ensures count { count_of self.new
            ≡ count_after (count_of self.old) (given result event.new (last_answer self.new)) }
        ensures place { place_of self.new
            ≡ place_after (place_of self.old) (given result event.new (last_answer self.new)) }
        ensures last { last_answer self.new
            ≡ lasting (given result event.new (last_answer self.new)) }
        ensures cause { HasFaultCause (given result event.new (last_answer self.new))
            (S.faults (source_of self.old).now) (S.faults (source_of self.new).now) }
    {
        match read_event(
            &mut self.window,
            self.header.version,
            self.count,
            self.place,
            event,
        ) {
            Ok(Some(size)) => {
                self.count += 1;
                self.place += size as u64;
                true
            }
            Ok(None) => {
                self.stage = Stage::Ended;
                false
            }
            Err(error) => {
                self.stage = Stage::Failed(error);
                false
            }
        }
    }
}
