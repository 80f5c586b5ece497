// What stands at the front of the bytes of a source: a header, and then one record after another.
ghost use Rattle.std.specs.Prelude.{◌≡◌, ℕ, ◌≤◌, [], length, None, IfOk, IfErr, IfSome, OnOk, OnErr};
ghost use Rattle.std.specs.Io.KnownBytes.{Consumes, IsAtEnd};
ghost use Rattle.ace_event.specs.Ports.{IsHeader};
ghost use Rattle.ace_io.specs.Faults.{HasCause};
ghost use Rattle.ace_bin.specs.Binary.{header_bytes};
ghost use Rattle.ace_bin.specs.declared.finding.Front.TheVariants.{Cut};
ghost use Rattle.ace_bin.specs.Errors.{HasNoHeader, HasFaultCause, HoldsNoRecord, IsFront, StandsNext, with_event};
ghost use Rattle.ace_bin.specs.Records.{event_bytes};
ghost use Rattle.ace_bin.specs.Reading.{most_events};
ghost use Rattle.ace_bin.specs.Window.{source_of, waiting, held};

use crate::header::parse_header;
use crate::record::read_record;
use crate::window::Window;
use crate::{BinErr, BinReason};
use ace_event::{Event, Header};
use ace_io::{Failed, Source};

/// The most events of a trace.
const MOST_EVENTS: u64 = 1_048_576;

/// How many bytes a header has.
const HEADER_SIZE: usize = 10;

/// What stands at the front of some bytes.
#[derive(Clone, Copy)]
pub enum Front {
    /// The record of an event, of so many bytes.
    Record(usize),
    /// A malformed record, whatever comes after these bytes.
    Malformed(BinReason),
    /// Nothing, or a record that isn't whole.
    Cut,
}

/// Reads the header. After an error read no more.
pub fn read_header<S: Source>(window: &mut Window<S>) -> Result<Header, BinErr>
    ensures same_source { (source_of window.new).ghost_name ≡ (source_of window.old).ghost_name }
    ensures right { IfOk result (λ header. IsHeader header) }
    ensures header { IfOk result
        (λ header. Consumes (waiting S.left window.old) (waiting S.left window.new)
        (header_bytes header)) }
    ensures steady { OnOk result
        (S.faults (source_of window.new).now ≡ S.faults (source_of window.old).now) }
    ensures none { IfErr result
        (λ error. HasNoHeader error (waiting S.left window.old)
        (S.faults (source_of window.old).now)
        (S.left (source_of window.new).now) (S.faults (source_of window.new).now)) }
{
    match window.fill(HEADER_SIZE) {
        Ok(true) => {}
        Ok(false) => return Err(BinErr::Malformed {
            byte: 0,
            reason: BinReason::Z1,
        }),
        Err(_) => return Err(BinErr::ReadFault),
    }
    match parse_header(window.front()) {
        Some(header) => {
            window.pass(HEADER_SIZE);
            Ok(header)
        }
        None => Err(BinErr::Malformed {
            byte: 0,
            reason: BinReason::Z2,
        }),
    }
}

/// What stands at the front of the bytes, in a trace of a version. An event is put in its place.
#[inline(always)]
fn front_of(bytes: &[u8], version: u8, event: &mut Event) -> Front
    ensures { IsFront version bytes.now event.new result }
{
    if bytes.is_empty() {
        return Front::Cut;
    }
    match read_record(bytes, version, event) {
        Ok(size) => Front::Record(size),
        Err(BinReason::Z1) => Front::Cut,
        Err(reason) => Front::Malformed(reason),
    }
}

/// What stands next, in a trace of a version: a record that isn't whole, or nothing, only at the
/// end of the input. An event is put in its place.
#[inline(always)]
fn find_record<S: Source>(
    window: &mut Window<S>,
    version: u8,
    event: &mut Event,
) -> Result<Front, Failed>
    ensures same_source { (source_of window.new).ghost_name ≡ (source_of window.old).ghost_name }
    ensures kept { Consumes (waiting S.left window.old) (waiting S.left window.new) [] }
    ensures front { IfOk result (λ front. IsFront version (held window.new) event.new front) }
    ensures end { IfOk result (λ front. front ≡ Cut → IsAtEnd (S.left (source_of window.new).now)) }
    ensures err { OnErr result (HoldsNoRecord version (held window.new)) }
    ensures cause { HasCause (S.faults (source_of window.old).now)
        (S.faults (source_of window.new).now) result }
{
    'pieces: loop {
        match front_of(window.front(), version, event) {
            Front::Cut => {}
            front => return Ok(front),
        }
        match window.more() {
            Ok(true) => {}
            Ok(false) => return Ok(Front::Cut),
            Err(failed) => return Err(failed),
        }
    }
}

/// Reads what stands after as many events as a trace may have: the end of the input, or more.
#[cold]
#[inline(never)]
fn read_end<S: Source>(window: &mut Window<S>) -> Result<Option<usize>, BinErr>
    ensures same_source { (source_of window.new).ghost_name ≡ (source_of window.old).ghost_name }
    ensures next { (version place : ℕ) (event : Event)
        → StandsNext version (with_event event result) most_events place
        (waiting S.left window.old) (waiting S.left window.new)
        (S.left (source_of window.new).now) }
    ensures none { IfOk result (λ next. next ≡ None) }
    ensures cause { (event : Event)
        → HasFaultCause (with_event event result) (S.faults (source_of window.old).now)
        (S.faults (source_of window.new).now) }
{
    match window.fill(1) {
        Ok(true) => Err(BinErr::TooManyEvents),
        Ok(false) => Ok(None),
        Err(_) => Err(BinErr::ReadFault),
    }
}

/// Reads the next event of a trace of a version, after so many events and so many bytes, into its
/// place, and says how many bytes its record has. After another answer read no more.
#[inline(always)]
pub fn read_event<S: Source>(
    window: &mut Window<S>,
    version: u8,
    count: u64,
    place: u64,
    event: &mut Event,
) -> Result<Option<usize>, BinErr>
    requires few { count ≤ most_events }
    ensures same_source { (source_of window.new).ghost_name ≡ (source_of window.old).ghost_name }
    ensures next { StandsNext version (with_event event.new result) count place
        (waiting S.left window.old) (waiting S.left window.new)
        (S.left (source_of window.new).now) }
    ensures size { IfOk result
        (λ next. IfSome next (λ size. (size ≡ length (event_bytes event.new)) × (size ≤ 79))) }
    ensures cause { HasFaultCause (with_event event.new result)
        (S.faults (source_of window.old).now) (S.faults (source_of window.new).now) }
{
    if count == MOST_EVENTS {
        return read_end(window);
    }
    match find_record(window, version, event) {
        Ok(Front::Record(size)) => {
            window.pass(size);
            Ok(Some(size))
        }
        Ok(Front::Malformed(reason)) => Err(BinErr::Malformed {
            byte: place,
            reason,
        }),
        Ok(Front::Cut) => {
            if window.front().is_empty() {
                return Ok(None);
            }
            Err(BinErr::Malformed {
                byte: place,
                reason: BinReason::Z1,
            })
        }
        Err(_) => Err(BinErr::ReadFault),
    }
}
