// The line of each record against one that was written by hand, and what a failing sink leaves.
ghost use Rattle.std.specs.Prelude.{◌≡◌, ◌++◌, ℕ, List, Option, OnOk};
ghost use Rattle.std.specs.Io.KnownBytes.{Appends};
ghost use Rattle.ace_event.specs.Ports.{IsHeader};
ghost use Rattle.ace_event.specs.Range.{InRange};
ghost use Rattle.ace_event.specs.Text.{header_text, line_text, event_text};

use ace_codes::LineState;
use ace_event::{Channel, Event, Header, Line, Outcome};
use ace_io::{MemSink, OpenSink, Sink};
use ace_writer::{WriteErr, Writer};
use std::alloc::Global;

/// Two ACE ports with an ACE-Lite port between them.
const HEADER: Header = Header {
    version: 1,
    ports: 3,
    ace: 5,
};

const HEADER_TEXT: &[u8] = b"ACE 1\nPORTS ALA\n";

/// The same ports in version 2.
const SECOND_HEADER: Header = Header {
    version: 2,
    ports: 3,
    ace: 5,
};

const SECOND_HEADER_TEXT: &[u8] = b"ACE 2\nPORTS ALA\n";

/// Writes a trace of one event.
fn write_one<K: Sink>(sink: &mut K, header: &Header, event: &Event) -> Result<(), WriteErr>
    requires header { IsHeader header.now }
    requires event { InRange header.now.version event.now }
    ensures { OnOk result (Appends (K.held sink.old) (K.held sink.new)
        (header_text header.now ++ line_text (event_text header.now.version event.now))) }
{
    match Writer::start(sink, header) {
        Ok(mut writer) => match writer.put(event) {
            Ok(()) => writer.flush(),
            Err(fault) => Err(fault),
        },
        Err(fault) => Err(fault),
    }
}

const WORD: u128 = 0x0123_4567_89ab_cdef_0011_2233_4455_6677;

/// The line of memory of these tests.
const LINE: Line = Line {
    words: [1, WORD, 0, u128::MAX],
};

/// Whether the text is this header and this line.
fn is_trace(text: &[u8], header: &[u8], line: &[u8]) -> bool {
    match text.strip_prefix(header) {
        Some(rest) => match rest.strip_suffix(b"\n") {
            Some(written) => written == line,
            None => false,
        },
        None => false,
    }
}

/// Whether a trace of this event has this header and this line.
fn has_line(alloc: Global, header: &Header, header_text: &[u8], event: &Event, line: &[u8]) -> bool
    requires header { IsHeader header.now }
    requires event { InRange header.now.version event.now }
{
    match MemSink::new(alloc, 1000, &[]) {
        Ok(mut sink) => {
            write_one(&mut sink, header, event).is_ok() && is_trace(sink.bytes(), header_text, line)
        }
        Err(_) => false,
    }
}

/// Whether a trace of this event has this line in version 2.
fn has_second(alloc: Global, event: Event, line: &[u8]) -> bool
    requires { InRange 2 event }
{
    has_line(alloc, &SECOND_HEADER, SECOND_HEADER_TEXT, &event, line)
}

/// Whether a trace of this event has the one line in version 1 and the other in version 2.
fn has_both(alloc: Global, event: Event, first: &[u8], second: &[u8]) -> bool
    requires first { InRange 1 event }
    requires second { InRange 2 event }
{
    has_line(alloc, &HEADER, HEADER_TEXT, &event, first) && has_second(alloc, event, second)
}

/// The records of the read channels.
fn writes_reads(alloc: Global) -> bool {
    has_both(
        alloc,
        Event::Ar {
            port: 10,
            id: 5,
            addr: 0x0123_cdef,
            snoop: 7,
            dom: 2,
            bar: 1,
            lock: true,
        },
        b"AR a 5 0123cdef 7 2 1 1",
        b"AR 0a 5 0123cdef 7 2 1 1",
    ) && has_both(
        alloc,
        Event::R {
            port: 1,
            id: 2,
            resp: 12,
            last: false,
            word: WORD,
        },
        b"R 1 2 c 0 0123456789abcdef0011223344556677",
        b"R 01 2 c 0 0123456789abcdef0011223344556677",
    ) && has_both(
        alloc,
        Event::Rk {
            port: 3,
            st: LineState::UC,
        },
        b"RK 3 UC",
        b"RK 03 UC",
    )
}

/// The records of the write channels.
fn writes_writes(alloc: Global) -> bool {
    has_both(
        alloc,
        Event::Aw {
            port: 15,
            id: 14,
            addr: 0xffff_fffe,
            snoop: 5,
            dom: 1,
            bar: 0,
        },
        b"AW f e fffffffe 5 1 0",
        b"AW 0f e fffffffe 5 1 0",
    ) && has_both(
        alloc,
        Event::W {
            port: 4,
            strb: 0xf00d,
            last: true,
            word: 15,
        },
        b"W 4 f00d 1 0000000000000000000000000000000f",
        b"W 04 f00d 1 0000000000000000000000000000000f",
    ) && has_both(
        alloc,
        Event::B {
            port: 1,
            id: 2,
            resp: 3,
        },
        b"B 1 2 3",
        b"B 01 2 3",
    ) && has_both(
        alloc,
        Event::Wk {
            port: 5,
            st: LineState::SC,
        },
        b"WK 5 SC",
        b"WK 05 SC",
    )
}

/// The records of the snoop channels.
fn writes_snoops(alloc: Global) -> bool {
    has_both(
        alloc,
        Event::Ac {
            port: 4,
            addr: 0x89ab_cdef,
            snoop: 14,
        },
        b"AC 4 89abcdef e",
        b"AC 04 89abcdef e",
    ) && has_both(
        alloc,
        Event::Cr {
            port: 6,
            resp: 0x19,
            st: LineState::SD,
        },
        b"CR 6 19 SD",
        b"CR 06 19 SD",
    ) && has_both(
        alloc,
        Event::Cd {
            port: 7,
            last: false,
            word: 0,
        },
        b"CD 7 0 00000000000000000000000000000000",
        b"CD 07 0 00000000000000000000000000000000",
    )
}

/// Grants, states and loads.
fn writes_grants_and_states(alloc: Global) -> bool {
    has_both(
        alloc,
        Event::G {
            port: 9,
            chan: Channel::Write,
            id: 8,
        },
        b"G 9 W 8",
        b"G 09 W 8",
    ) && has_both(
        alloc,
        Event::S {
            port: 2,
            addr: 64,
            st: LineState::I,
        },
        b"S 2 00000040 I",
        b"S 02 00000040 I",
    ) && has_both(
        alloc,
        Event::L {
            port: 3,
            addr: 128,
            w: 2,
            x: true,
            word: 255,
        },
        b"L 3 00000080 2 1 000000000000000000000000000000ff",
        b"L 03 00000080 2 1 000000000000000000000000000000ff",
    )
}

/// Operations.
fn writes_operations(alloc: Global) -> bool {
    has_both(
        alloc,
        Event::Op {
            port: 2,
            k: 0x1f,
            res: Outcome::Skip,
        },
        b"OP 2 001f skip",
        b"OP 02 001f skip",
    )
}

/// Memory that is written.
fn writes_lines_of_writes(alloc: Global) -> bool {
    has_both(
        alloc,
        Event::M {
            port: 1,
            chan: Channel::Read,
            id: 2,
            line: LINE,
        },
        b"M 1 R 2 000000000000000000000000000000010123456789abcdef001122334455667700000000000000000000000000000000ffffffffffffffffffffffffffffffff",
        b"M 01 R 2 000000000000000000000000000000010123456789abcdef001122334455667700000000000000000000000000000000ffffffffffffffffffffffffffffffff",
    )
}

/// A store to a line.
fn writes_updates(alloc: Global) -> bool {
    has_both(
        alloc,
        Event::D {
            port: 1,
            addr: 192,
            strobe: 0x8000_0000_0000_0001,
            x: false,
            line: LINE,
        },
        b"D 1 000000c0 8000000000000001 0 000000000000000000000000000000010123456789abcdef001122334455667700000000000000000000000000000000ffffffffffffffffffffffffffffffff",
        b"D 01 000000c0 8000000000000001 0 000000000000000000000000000000010123456789abcdef001122334455667700000000000000000000000000000000ffffffffffffffffffffffffffffffff",
    )
}

/// Ports of two digits, and the record of version 2 alone.
fn writes_wide_ports(alloc: Global) -> bool {
    has_second(
        alloc,
        Event::Rk {
            port: 31,
            st: LineState::UC,
        },
        b"RK 1f UC",
    ) && has_second(
        alloc,
        Event::B {
            port: 255,
            id: 2,
            resp: 3,
        },
        b"B ff 2 3",
    ) && has_second(
        alloc,
        Event::Mem {
            addr: 0x40,
            line: LINE,
        },
        b"MEM 00000040 000000000000000000000000000000010123456789abcdef001122334455667700000000000000000000000000000000ffffffffffffffffffffffffffffffff",
    )
}

/// Each record in both versions.
#[test]
fn writes_each_record(rt: HostRuntime) {
    let alloc = rt.alloc();
    assert!(rt;
        writes_reads(alloc)
            && writes_writes(alloc)
            && writes_snoops(alloc)
            && writes_grants_and_states(alloc)
            && writes_operations(alloc)
            && writes_lines_of_writes(alloc)
            && writes_updates(alloc)
            && writes_wide_ports(alloc)
    );
}

/// Puts so many events of the shortest line and gives the rest: whether all went well, and how many
/// bytes it says that it gave.
fn write_many<K: Sink>(sink: &mut K, count: usize) -> (bool, u64) {
    match Writer::start(sink, &HEADER) {
        Ok(mut writer) => {
            let event = Event::B {
                port: 0,
                id: 1,
                resp: 2,
            };
            for _ in 0..count {
                if writer.put(&event).is_err() {
                    break;
                }
            }
            (writer.flush().is_ok(), writer.given())
        }
        Err(_) => (false, u64::MAX),
    }
}

/// The byte at this place of the text of many such events: a line has eight bytes, and the header
/// two times as many.
fn byte_at(place: usize) -> Option<u8> {
    match HEADER_TEXT.get(place) {
        Some(byte) => Some(*byte),
        None => b"B 0 1 2\n".get(place % 8).copied(),
    }
}

/// Whether so many bytes were given, which are the beginning of the text.
fn is_front(given: &[u8], len: usize) -> bool {
    for (place, byte) in given.iter().enumerate() {
        if byte_at(place) != Some(*byte) {
            return false;
        }
    }
    given.len() == len
}

/// Whether a sink with this room and one failing give has so many bytes of so many events, and
/// whether the writer says so.
fn gives_so(
    alloc: Global,
    count: usize,
    room: usize,
    failing: u32,
    whole: bool,
    len: usize,
) -> bool {
    match MemSink::new(alloc, room, &[failing]) {
        Ok(mut sink) => {
            write_many(&mut sink, count) == (whole, len as u64) && is_front(sink.bytes(), len)
        }
        Err(_) => false,
    }
}

/// How many events there are, the room of the sink, the give that fails, whether all is given, and
/// how many bytes.
#[test]
fn stops_at_a_failing_give(rt: HostRuntime) {
    let alloc = rt.alloc();
    assert!(rt; gives_so(alloc, 0, 99, 9, true, 16) && gives_so(alloc, 0, 15, 9, false, 15));
    assert!(rt;
        gives_so(alloc, 2, 99, 9, true, 32)
            && gives_so(alloc, 2, 31, 9, false, 31)
            && gives_so(alloc, 2, 99, 0, false, 0)
    );
    assert!(rt;
        gives_so(alloc, 1000, 9000, 9, true, 8016) && gives_so(alloc, 1000, 9000, 1, false, 3936)
    );
    assert!(rt;
        gives_so(alloc, 1000, 4000, 9, false, 4000) && gives_so(alloc, 1000, 100, 9, false, 100)
    );
    assert!(rt; write_many(&mut OpenSink::new(), 1000) == (true, 8016));
}

/// Whether a writer fails again and again once the sink has failed, and gives nothing.
fn stays_failed<K: Sink>(sink: &mut K) -> bool {
    let event = Event::Rk {
        port: 0,
        st: LineState::I,
    };
    match Writer::start(sink, &HEADER) {
        Ok(mut writer) => {
            let mut is_so = writer.put(&event).is_ok();
            for _ in 0..3 {
                is_so = is_so
                    && writer.flush() == Err(WriteErr::WriteFault)
                    && writer.put(&event) == Err(WriteErr::WriteFault)
                    && writer.given() == 0;
            }
            is_so
        }
        Err(_) => false,
    }
}

/// Whether a sink whose first give fails has nothing then.
fn gives_nothing(alloc: Global) -> bool {
    match MemSink::new(alloc, 99, &[0]) {
        Ok(mut sink) => stays_failed(&mut sink) && sink.bytes().is_empty(),
        Err(_) => false,
    }
}

#[test]
fn gives_nothing_after_a_fault(rt: HostRuntime) {
    assert!(rt; gives_nothing(rt.alloc()));
}
