// Binary traces that were written out by hand, whole, cut, changed and in pieces, and sources and
// sinks that fail.
ghost use Rattle.std.specs.Prelude.{◌<◌};
ghost use Rattle.ace_event.specs.Ports.{IsHeader};
ghost use Rattle.ace_event.specs.Range.{InRange};

use ace_bin::{BinErr, BinReader, BinReason, BinWriter, WriteErr};
use ace_codes::LineState;
use ace_event::{Channel, Event, Header, Line, Outcome};
use ace_io::{HonestSource, MemSink, MemSource, Sink, Source};
use std::alloc::Global;
use std::test::*;

/// One ACE port.
const HEADER: Header = Header {
    version: 1,
    ports: 1,
    ace: 1,
};

/// Seventeen ports in version 2, of which the first four and the last are ACE ports.
const SECOND_HEADER: Header = Header {
    version: 2,
    ports: 17,
    ace: 0x1_000f,
};

/// Some event, in a place where others are put.
const PLACE: Event = Event::Rk {
    port: 0,
    st: LineState::I,
};

const FIRST: &[u8] = b"ACEB\x01\x01\x00\x00\x00\x01";

const SECOND: &[u8] = b"ACEB\x02\x11\x00\x01\x00\x0f";

/// How many events are read, up to eight, and how the bytes end.
fn reading<S: Source>(source: &mut S) -> (u8, Result<(), BinErr>) {
    let mut reader = match BinReader::start(source) {
        Ok(reader) => reader,
        Err(failed) => return (0, Err(failed.error)),
    };
    let mut event = PLACE;
    let mut count: u8 = 0;
    for _ in 0..8 {
        match reader.next_into(&mut event) {
            Ok(Some(())) => count = count.saturating_add(1),
            Ok(None) => return (count, Ok(())),
            Err(error) => return (count, Err(error)),
        }
    }
    (count, Ok(()))
}

/// The same where a source gives so many bytes at once, and these takes fail.
fn reading_in_pieces(
    alloc: Global,
    bytes: &[u8],
    size: usize,
    fails: &[u32],
) -> (u8, Result<(), BinErr>)
    requires { 0 < size }
{
    match MemSource::new(alloc, bytes, &[size], fails) {
        Ok(mut source) => reading(&mut source),
        Err(_) => (255, Ok(())),
    }
}

/// Whether so many events are read and the bytes end so, in any pieces.
fn reads_as(alloc: Global, bytes: &[u8], count: u8, end: Result<(), BinErr>) -> bool {
    let wanted = (count, end);
    reading(&mut HonestSource::new(bytes)) == wanted
        && reading_in_pieces(alloc, bytes, 1, &[]) == wanted
        && reading_in_pieces(alloc, bytes, 7, &[]) == wanted
}

/// The error of a malformed header or record.
fn malformed(byte: u64, reason: BinReason) -> Result<(), BinErr> {
    Err(BinErr::Malformed { byte, reason })
}

/// Writes a trace of one event.
fn write_one<K: Sink>(sink: &mut K, header: &Header, event: &Event) -> Result<(), WriteErr>
    requires header { IsHeader header.now }
    requires event { InRange header.now.version event.now }
{
    match BinWriter::start(sink, header) {
        Ok(mut writer) => match writer.put(event) {
            Ok(()) => writer.flush(),
            Err(fault) => Err(fault),
        },
        Err(fault) => Err(fault),
    }
}

/// Whether the bytes are a front and then this record.
fn is_trace(bytes: &[u8], front: &[u8], record: &[u8]) -> bool {
    match bytes.strip_prefix(front) {
        Some(rest) => rest == record,
        None => false,
    }
}

/// Whether the trace of one event is this front and this record.
fn is_written(alloc: Global, header: &Header, front: &[u8], event: &Event, record: &[u8]) -> bool
    requires header { IsHeader header.now }
    requires event { InRange header.now.version event.now }
{
    match MemSink::new(alloc, 200, &[]) {
        Ok(mut sink) => {
            write_one(&mut sink, header, event).is_ok() && is_trace(sink.bytes(), front, record)
        }
        Err(_) => false,
    }
}

/// Whether the first event is this one, and there is no other.
fn is_read<S: Source>(source: &mut S, header: &Header, event: &Event) -> bool {
    match BinReader::start(source) {
        Ok(mut reader) => {
            let mut place = PLACE;
            reader.header() == *header
                && reader.next() == Ok(Some(*event))
                && reader.next() == Ok(None)
                && !reader.gives(&mut place)
                && reader.next() == Ok(None)
        }
        Err(_) => false,
    }
}

const WORD: u128 = 0x0123_4567_89ab_cdef_0011_2233_4455_6677;

/// The line of memory of these tests.
const LINE: Line = Line {
    words: [1, WORD, 0, u128::MAX],
};

/// Whether the record cut anywhere is a record that the input ends within.
fn is_cut(alloc: Global, bytes: &[u8], first: usize) -> bool {
    for end in first..bytes.len() {
        if !reads_as(alloc, &bytes[..end], 0, malformed(10, BinReason::Z1)) {
            return false;
        }
    }
    true
}

/// Whether the trace of one event has this record, written and read, and the record cut isn't one.
fn is_so(alloc: Global, header: &Header, front: &[u8], event: &Event, record: &[u8]) -> bool
    requires header { IsHeader header.now }
    requires event { InRange header.now.version event.now }
{
    match MemSink::new(alloc, 200, &[]) {
        Ok(mut sink) => {
            sink.give(front).ok();
            sink.give(record).ok();
            is_written(alloc, header, front, event, record)
                && is_read(&mut HonestSource::new(sink.bytes()), header, event)
                && is_cut(alloc, sink.bytes(), front.len().saturating_add(1))
        }
        Err(_) => false,
    }
}

/// The same in both versions.
fn is_both(alloc: Global, event: Event, record: &[u8]) -> bool
    requires first { InRange 1 event }
    requires second { InRange 2 event }
{
    is_so(alloc, &HEADER, FIRST, &event, record)
        && is_so(alloc, &SECOND_HEADER, SECOND, &event, record)
}

/// The records of the read channels.
fn has_reads(alloc: Global) -> bool {
    is_both(
        alloc,
        Event::Ar {
            port: 10,
            id: 5,
            addr: 0x0123_cdef,
            snoop: 7,
            dom: 2,
            bar: 1,
            lock: true,
        },
        b"\x01\x0a\x05\x01\x23\xcd\xef\x07\x02\x01\x01",
    ) && is_both(
        alloc,
        Event::R {
            port: 1,
            id: 2,
            resp: 12,
            last: false,
            word: WORD,
        },
        b"\x02\x01\x02\x0c\x00\x01\x23\x45\x67\x89\xab\xcd\xef\x00\x11\x22\x33\x44\x55\x66\x77",
    ) && is_both(
        alloc,
        Event::Rk {
            port: 3,
            st: LineState::UC,
        },
        b"\x03\x03\x01",
    )
}

/// The records of the write channels.
fn has_writes(alloc: Global) -> bool {
    is_both(
        alloc,
        Event::Aw {
            port: 15,
            id: 14,
            addr: 0xffff_fffe,
            snoop: 5,
            dom: 1,
            bar: 0,
        },
        b"\x04\x0f\x0e\xff\xff\xff\xfe\x05\x01\x00",
    ) && is_both(
        alloc,
        Event::W {
            port: 4,
            strb: 0xf00d,
            last: true,
            word: WORD,
        },
        b"\x05\x04\xf0\x0d\x01\x01\x23\x45\x67\x89\xab\xcd\xef\x00\x11\x22\x33\x44\x55\x66\x77",
    ) && is_both(
        alloc,
        Event::B {
            port: 1,
            id: 2,
            resp: 3,
        },
        b"\x06\x01\x02\x03",
    ) && is_both(
        alloc,
        Event::Wk {
            port: 5,
            st: LineState::SC,
        },
        b"\x07\x05\x03",
    )
}

/// The records of the snoop channels.
fn has_snoops(alloc: Global) -> bool {
    is_both(
        alloc,
        Event::Ac {
            port: 4,
            addr: 0x89ab_cdef,
            snoop: 14,
        },
        b"\x08\x04\x89\xab\xcd\xef\x0e",
    ) && is_both(
        alloc,
        Event::Cr {
            port: 6,
            resp: 0x1f,
            st: LineState::SD,
        },
        b"\x09\x06\x1f\x04",
    ) && is_both(
        alloc,
        Event::Cd {
            port: 7,
            last: false,
            word: WORD,
        },
        b"\x0a\x07\x00\x01\x23\x45\x67\x89\xab\xcd\xef\x00\x11\x22\x33\x44\x55\x66\x77",
    )
}

/// Grants, states, loads and operations.
fn has_grants_and_states(alloc: Global) -> bool {
    is_both(
        alloc,
        Event::G {
            port: 9,
            chan: Channel::Write,
            id: 8,
        },
        b"\x0b\x09\x01\x08",
    ) && is_both(
        alloc,
        Event::S {
            port: 2,
            addr: 64,
            st: LineState::UD,
        },
        b"\x0d\x02\x00\x00\x00\x40\x02",
    ) && is_both(
        alloc,
        Event::L {
            port: 3,
            addr: 128,
            w: 2,
            x: true,
            word: WORD,
        },
        b"\x0e\x03\x00\x00\x00\x80\x02\x01\x01\x23\x45\x67\x89\xab\xcd\xef\x00\x11\x22\x33\
          \x44\x55\x66\x77",
    ) && is_both(
        alloc,
        Event::Op {
            port: 2,
            k: 0x011f,
            res: Outcome::Skip,
        },
        b"\x10\x02\x01\x1f\x01",
    )
}

/// Memory writes and stores.
fn has_lines(alloc: Global) -> bool {
    is_both(
        alloc,
        Event::M {
            port: 1,
            chan: Channel::Read,
            id: 2,
            line: LINE,
        },
        b"\x0c\x01\x00\x02\x00\x00\x00\x00\x00\x00\x00\x00\x00\x00\x00\x00\x00\x00\x00\x01\
          \x01\x23\x45\x67\x89\xab\xcd\xef\x00\x11\x22\x33\x44\x55\x66\x77\x00\x00\x00\x00\
          \x00\x00\x00\x00\x00\x00\x00\x00\x00\x00\x00\x00\xff\xff\xff\xff\xff\xff\xff\xff\
          \xff\xff\xff\xff\xff\xff\xff\xff",
    ) && is_both(
        alloc,
        Event::D {
            port: 1,
            addr: 192,
            strobe: 0x8000_0000_0000_0001,
            x: false,
            line: LINE,
        },
        b"\x0f\x01\x00\x00\x00\xc0\x80\x00\x00\x00\x00\x00\x00\x01\x00\x00\x00\x00\x00\x00\
          \x00\x00\x00\x00\x00\x00\x00\x00\x00\x00\x01\x01\x23\x45\x67\x89\xab\xcd\xef\x00\
          \x11\x22\x33\x44\x55\x66\x77\x00\x00\x00\x00\x00\x00\x00\x00\x00\x00\x00\x00\x00\
          \x00\x00\x00\xff\xff\xff\xff\xff\xff\xff\xff\xff\xff\xff\xff\xff\xff\xff\xff",
    )
}

/// What version 2 has besides.
fn has_second(alloc: Global) -> bool {
    is_so(
        alloc,
        &SECOND_HEADER,
        SECOND,
        &Event::Mem {
            addr: 0x40,
            line: LINE,
        },
        b"\x11\x00\x00\x00\x40\x00\x00\x00\x00\x00\x00\x00\x00\x00\x00\x00\x00\x00\x00\x00\
          \x01\x01\x23\x45\x67\x89\xab\xcd\xef\x00\x11\x22\x33\x44\x55\x66\x77\x00\x00\x00\
          \x00\x00\x00\x00\x00\x00\x00\x00\x00\x00\x00\x00\x00\xff\xff\xff\xff\xff\xff\xff\
          \xff\xff\xff\xff\xff\xff\xff\xff\xff",
    ) && is_so(
        alloc,
        &SECOND_HEADER,
        SECOND,
        &Event::Rk {
            port: 255,
            st: LineState::I,
        },
        b"\x03\xff\x00",
    )
}

#[test]
fn writes_and_reads_records(rt: HostRuntime) {
    let alloc = rt.alloc();
    assert!(rt; has_reads(alloc) && has_writes(alloc) && has_snoops(alloc));
    assert!(rt; has_grants_and_states(alloc) && has_lines(alloc) && has_second(alloc));
}

/// A trace of one operation, and what is left or changed of it.
fn reads_one_operation(alloc: Global) -> bool {
    let trace = b"ACEB\x01\x01\x00\x00\x00\x01\x10\x00\x00\x00\x00";
    reads_as(alloc, trace, 1, Ok(()))
        && reads_as(alloc, &trace[..14], 0, malformed(10, BinReason::Z1))
        && reads_as(alloc, &trace[..10], 0, Ok(()))
        && reads_as(alloc, &trace[..9], 0, malformed(0, BinReason::Z1))
        && reads_as(alloc, b"", 0, malformed(0, BinReason::Z1))
}

/// Headers that aren't right.
fn refuses_headers(alloc: Global) -> bool {
    let wrong = malformed(0, BinReason::Z2);
    reads_as(
        alloc,
        b"\x40CEB\x01\x01\x00\x00\x00\x01\x10\x00\x00\x00\x00",
        0,
        wrong,
    ) && reads_as(alloc, b"ACEB\x03\x01\x00\x00\x00\x01", 0, wrong)
        && reads_as(alloc, b"ACEB\x01\x00\x00\x00\x00\x00", 0, wrong)
        && reads_as(alloc, b"ACEB\x01\x01\x00\x00\x00\x03", 0, wrong)
        && reads_as(alloc, b"ACEB\x01\x09\x00\x00\x01\xff", 0, wrong)
        && reads_as(alloc, b"ACEB\x02\x21\x00\x00\xff\xff", 0, wrong)
}

/// Records that are malformed, the last one behind another.
fn refuses_records(alloc: Global) -> bool {
    reads_as(
        alloc,
        b"ACEB\x01\x01\x00\x00\x00\x01\x12\x00\x00\x00\x00",
        0,
        malformed(10, BinReason::Z3),
    ) && reads_as(
        alloc,
        b"ACEB\x01\x01\x00\x00\x00\x01\x11",
        0,
        malformed(10, BinReason::Z3),
    ) && reads_as(
        alloc,
        b"ACEB\x01\x01\x00\x00\x00\x01\x10\x00\x00\x00\x03",
        0,
        malformed(10, BinReason::Z4),
    ) && reads_as(
        alloc,
        b"ACEB\x01\x01\x00\x00\x00\x01\x03\x10\x00",
        0,
        malformed(10, BinReason::Z4),
    ) && reads_as(
        alloc,
        b"ACEB\x01\x01\x00\x00\x00\x01\x03\x00\x00\x03\x00\x05",
        1,
        malformed(13, BinReason::Z4),
    )
}

#[test]
fn stops_at_malformed_bytes(rt: HostRuntime) {
    let alloc = rt.alloc();
    assert!(rt; reads_one_operation(alloc) && refuses_headers(alloc) && refuses_records(alloc));
}

/// Whether so many events are read up to a take of four bytes that fails.
fn ends_at_fault(alloc: Global, failing: u32, count: u8) -> bool {
    let trace = b"ACEB\x01\x01\x00\x00\x00\x01\x03\x00\x00\x03\x00\x00";
    reading_in_pieces(alloc, trace, 4, &[failing]) == (count, Err(BinErr::ReadFault))
}

#[test]
fn tells_a_read_fault(rt: HostRuntime) {
    let alloc = rt.alloc();
    assert!(rt;
        ends_at_fault(alloc, 0, 0) && ends_at_fault(alloc, 2, 0) && ends_at_fault(alloc, 3, 0)
    );
    assert!(rt;
        ends_at_fault(alloc, 4, 2)
            && reading_in_pieces(alloc, FIRST, 4, &[3]) == (0, Err(BinErr::ReadFault))
    );
}

/// Whether a sink with so much room takes that much of a trace of one event, and then fails.
fn fails_behind(alloc: Global, room: usize) -> bool {
    let event = Event::Rk {
        port: 0,
        st: LineState::I,
    };
    match MemSink::new(alloc, room, &[]) {
        Ok(mut sink) => {
            write_one(&mut sink, &HEADER, &event) == Err(WriteErr::WriteFault)
                && sink.bytes().len() == room
        }
        Err(_) => false,
    }
}

#[test]
fn tells_a_write_fault(rt: HostRuntime) {
    assert!(rt; fails_behind(rt.alloc(), 0) && fails_behind(rt.alloc(), 12));
}
