// Traces written out by hand, whole and in pieces, and inputs that fail.
ghost use Rattle.std.specs.Prelude.{◌<◌};

use ace_event::Header;
use ace_grammar::{ReadErr, Reader, Reason};
use ace_io::{HonestSource, MemSink, MemSource, Sink, Source};
use std::alloc::Global;

/// Whether the next call reads an event, where one is said to come, and else answers this end: that
/// of a trace with this header, or this error.
fn answers<S: Source>(
    reader: &mut Reader<S>,
    has_event: bool,
    end: &Result<Header, ReadErr>,
) -> bool {
    match reader.next() {
        Ok(Some(_)) => has_event,
        Ok(None) => !has_event && *end == Ok(reader.header()),
        Err(error) => !has_event && *end == Err(error),
    }
}

/// Whether so many calls read an event, and the four after them have this end, which stays.
pub fn has_rest<S: Source>(
    reader: &mut Reader<S>,
    count: u8,
    end: &Result<Header, ReadErr>,
) -> bool {
    for turn in 0..count.saturating_add(4) {
        if !answers(reader, turn < count, end) {
            return false;
        }
    }
    true
}

/// Whether the source is a trace of so many events with this end. Where there is no header, there
/// is no count.
fn is_trace<S: Source>(
    alloc: Global,
    source: &mut S,
    count: Option<u8>,
    end: &Result<Header, ReadErr>,
) -> bool {
    match Reader::start(alloc, source) {
        Ok(mut reader) => match count {
            Some(count) => has_rest(&mut reader, count, end),
            None => false,
        },
        Err(failed) => count.is_none() && *end == Err(failed.error),
    }
}

/// The same of a text where a source gives so many bytes at once, and these takes fail.
fn is_so_in_pieces(
    alloc: Global,
    text: &[u8],
    size: usize,
    fails: &[u32],
    count: Option<u8>,
    end: &Result<Header, ReadErr>,
) -> bool
    requires { 0 < size }
{
    match MemSource::new(alloc, text, &[size], fails) {
        Ok(mut source) => is_trace(alloc, &mut source, count, end),
        Err(_) => false,
    }
}

/// The same of a text, whole and in pieces.
fn is_so(alloc: Global, text: &[u8], count: Option<u8>, end: &Result<Header, ReadErr>) -> bool {
    is_trace(alloc, &mut HonestSource::new(text), count, end)
        && is_so_in_pieces(alloc, text, 1, &[], count, end)
        && is_so_in_pieces(alloc, text, 2, &[], count, end)
        && is_so_in_pieces(alloc, text, 3, &[], count, end)
        && is_so_in_pieces(alloc, text, 7, &[], count, end)
        && is_so_in_pieces(alloc, text, 64, &[], count, end)
}

/// The reason of this number.
fn reason_of(digit: u8) -> Reason {
    match digit {
        b'1' => Reason::F1,
        b'2' => Reason::F2,
        b'3' => Reason::F3,
        b'4' => Reason::F4,
        b'5' => Reason::F5,
        b'6' => Reason::F6,
        _ => Reason::F7,
    }
}

/// How the reading of a text ends whose line of this number is malformed for the reason of this
/// number.
fn malformed(line: u8, reason: u8) -> Result<Header, ReadErr> {
    Err(ReadErr::Malformed {
        line: u64::from(line.wrapping_sub(b'0')),
        reason: reason_of(reason),
    })
}

/// Whether the text behind the three digits stops as they say.
fn stops(alloc: Global, row: &[u8]) -> bool {
    match row.split_first_chunk::<3>() {
        Some(([count, line, reason], text)) => {
            let count = match count {
                b'-' => None,
                digit => Some(digit.wrapping_sub(b'0')),
            };
            is_so(alloc, text, count, &malformed(*line, *reason))
        }
        None => false,
    }
}

/// How many of the texts, which bars part, stop as their three digits say, up to the first that
/// doesn't. The digits are how many events are read, or `-` where there is no header, the number of
/// the malformed line and that of its reason.
fn stopped(alloc: Global, rows: &str) -> usize {
    let mut count: usize = 0;
    for row in rows.split('|') {
        if !stops(alloc, row.as_bytes()) {
            break;
        }
        count = count.saturating_add(1);
    }
    count
}

/// First lines and second lines that are cut, and wrong ones.
const HEADERS: &str = "-11|-11ACE 1|-11ACE 2\
|-21ACE 1\n|-21ACE 1\nPORTS A|-21ACE 2\nPORTS A\
|-17ACE 9\nPORTS A\n|-17ACE 1 \nPORTS A\n|-17\nACE 1\n|-17ACE 3\nPORTS A\n|-17ACE 02\nPORTS A\n\
|-27ACE 1\nPORTS \n|-27ACE 1\nPORTS\n|-27ACE 1\nPORTS AAAAAAAAA\n|-27ACE 1\nPORTS LLLLLLLLLAA\n|-27ACE 1\nPORTS AM\n\
|-27ACE 1\nPORTS a\n|-27ACE 1\nPORTS A A\n|-27ACE 2\nPORTS AAAAAAAAAAAAAAAAA\n|-27ACE 2\nPORTS ALLLLLLLLLLLLLLLLL\n\
|-27ACE 2\nPORTS \n";

/// Malformed lines behind a header.
const LINES: &str = "141ACE 1\nPORTS A\nRK 0 I\nG 0 R 0\
|142ACE 1\nPORTS A\nRK 0 I\n\n\
|143ACE 1\nPORTS A\nRK 0 I\nG 0\nR 0\n\
|032ACE 1\nPORTS A\nXX\nOP 0 0001 ok\n\
|142ACE 1\nPORTS A\nOP 0 0001 ok\nXX\n\
|035ACE 1\nPORTS A\nRK 0 I\r\n\
|036ACE 1\nPORTS A\nAR 0 0 00000040 7 1 0 2\n\
|034ACE 1\nPORTS A\nOP 0 000 ok\nOP";

/// Lines of another version, and a line of memory that is cut.
const VERSIONS: &str =
    "032ACE 1\nPORTS A\nMEM 00000040 00000000000000000000000000000010ffffffffffffffffffffffffffffffff0000000000000000000000000000200080000000000000000000000000000000\nRK 0 I\n\
|034ACE 1\nPORTS A\nRK 00 I\n\
|144ACE 2\nPORTS A\nRK 00 I\nRK 0 I\n\
|031ACE 2\nPORTS A\nMEM 00000040";

#[test]
fn stops_at_malformed_lines(rt: HostRuntime) {
    let alloc = rt.alloc();
    assert!(rt; stopped(alloc, HEADERS) == 21);
    assert!(rt; stopped(alloc, LINES) == 8);
    assert!(rt; stopped(alloc, VERSIONS) == 4);
}

/// Whether the text is read as a trace of so many events behind this header.
fn reads(alloc: Global, text: &[u8], count: u8, version: u8, ports: u8, ace: u32) -> bool {
    let header = Header {
        version,
        ports,
        ace,
    };
    is_so(alloc, text, Some(count), &Ok(header))
}

/// Traces of version 1.
fn reads_first(alloc: Global) -> bool {
    reads(alloc, b"ACE 1\nPORTS A\n", 0, 1, 1, 1)
        && reads(alloc, b"ACE 1\nPORTS AAAAAAAA\n", 0, 1, 8, 0xff)
        && reads(alloc, b"ACE 1\nPORTS AAAALLLLLLLALAAA\n", 0, 1, 16, 0xe80f)
        && reads(alloc, b"ACE 1\nPORTS A\nRK 0 I\nG 0 R 0\n", 2, 1, 1, 1)
}

/// Traces of version 2.
fn reads_second(alloc: Global) -> bool {
    reads(alloc, b"ACE 2\nPORTS A\n", 0, 2, 1, 1)
        && reads(alloc, b"ACE 2\nPORTS AAAAAAAAA\n", 0, 2, 9, 0x1ff)
        && reads(alloc, b"ACE 2\nPORTS LLLLLLLLLLLLLLLL\n", 0, 2, 16, 0)
        && reads(
            alloc,
            b"ACE 2\nPORTS LLLLLLLLLLLLLLLLAAAAAAAAAAAAAAAA\n",
            0,
            2,
            32,
            0xffff_0000,
        )
        && reads(
            alloc,
            b"ACE 2\nPORTS AAAAAAAAAAAAAAAALLLLLLLLLLLLLLLL\nRK 1f I\n",
            1,
            2,
            32,
            0xffff,
        )
        && reads(
            alloc,
            b"ACE 2\nPORTS A\nMEM 00000040 00000000000000000000000000000010ffffffffffffffffffffffffffffffff0000000000000000000000000000200080000000000000000000000000000000\nRK 00 I\n",
            2,
            2,
            1,
            1,
        )
}

#[test]
fn reads_headers_and_events(rt: HostRuntime) {
    assert!(rt; reads_first(rt.alloc()) && reads_second(rt.alloc()));
}

/// Whether a trace whose one line has so many spaces behind it stops at that line for this reason.
fn stops_with_spaces(alloc: Global, count: usize, reason: Reason) -> bool {
    match MemSink::new(alloc, 400, &[]) {
        Ok(mut text) => {
            text.give(b"ACE 1\nPORTS A\nRK 0 I").ok();
            for _ in 0..count {
                text.give(b" ").ok();
            }
            text.give(b"\n").ok();
            let end = Err(ReadErr::Malformed { line: 3, reason });
            is_trace(alloc, &mut HonestSource::new(text.bytes()), Some(0), &end)
        }
        Err(_) => false,
    }
}

#[test]
fn refuses_long_lines(rt: HostRuntime) {
    let alloc = rt.alloc();
    assert!(rt;
        stops_with_spaces(alloc, 248, Reason::F3) && stops_with_spaces(alloc, 249, Reason::F3)
    );
    assert!(rt;
        stops_with_spaces(alloc, 250, Reason::F1) && stops_with_spaces(alloc, 300, Reason::F1)
    );
}

/// Whether a trace of two events ends so where this take of eight bytes fails.
fn ends_at_fault(alloc: Global, failing: u32, count: Option<u8>) -> bool {
    let text = b"ACE 1\nPORTS A\nRK 0 I\nG 0 R 0\n";
    is_so_in_pieces(alloc, text, 8, &[failing], count, &Err(ReadErr::ReadFault))
}

#[test]
fn tells_a_read_fault(rt: HostRuntime) {
    let alloc = rt.alloc();
    assert!(rt; ends_at_fault(alloc, 0, None) && ends_at_fault(alloc, 1, None));
    assert!(rt; ends_at_fault(alloc, 2, Some(0)) && ends_at_fault(alloc, 3, Some(1)));
}

/// Whether the start of a reader fails, and the source that it hands back then gives four bytes,
/// the first of these.
fn hands_back<S: Source>(alloc: Global, source: &mut S, bytes: &[u8; 8]) -> bool {
    match Reader::start(alloc, source) {
        Ok(_) => false,
        Err(failed) => {
            let mut into = [0; 8];
            failed.error == ReadErr::ReadFault
                && failed.source.take(&mut into) == Ok(4)
                && into == *bytes
        }
    }
}

/// Whether a source whose second take fails is handed back so.
fn is_handed_back(alloc: Global) -> bool {
    match MemSource::new(alloc, b"ACE 1\nPORTS A\n", &[4], &[1]) {
        Ok(mut source) => hands_back(alloc, &mut source, b"1\nPO\0\0\0\0"),
        Err(_) => false,
    }
}

#[test]
fn hands_the_source_back(rt: HostRuntime) {
    assert!(rt; is_handed_back(rt.alloc()));
}
