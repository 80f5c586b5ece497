// Traces that are read within a limit of events.

use crate::pieces::has_rest;
use ace_codes::LineState;
use ace_event::{Event, Header};
use ace_grammar::{ReadErr, Reader, Reason};
use ace_io::{HonestSource, Source};
use std::alloc::Global;

/// Texts of version 1, behind four characters each: the limit, how many events are read, how many
/// of them are handed over at once, and how the text ends, which is `w` for a whole trace, `f` for
/// more than the limit, and else the number of a line that is no record. Bars part them.
const FIRST: &str = "000wACE 1\nPORTS AAA\n\
|000fACE 1\nPORTS AAA\nRK 0 I\n\
|000fACE 1\nPORTS AAA\nX\
|100wACE 1\nPORTS AAA\n\
|1003ACE 1\nPORTS AAA\nX\n\
|111wACE 1\nPORTS AAA\nRK 0 I\n\
|111fACE 1\nPORTS AAA\nRK 0 I\nRK 1 I\n\
|111fACE 1\nPORTS AAA\nRK 0 I\nX\n\
|111fACE 1\nPORTS AAA\nRK 0 I\n\n\
|211wACE 1\nPORTS AAA\nRK 0 I\n\
|2114ACE 1\nPORTS AAA\nRK 0 I\nX\nRK 1 I\n\
|222wACE 1\nPORTS AAA\nRK 0 I\nRK 1 I\n\
|222fACE 1\nPORTS AAA\nRK 0 I\nRK 1 I\nRK 2 I\n\
|222fACE 1\nPORTS AAA\nRK 0 I\nRK 1 I\nRK";

/// The same of version 2, where none is handed over at once.
const SECOND: &str = "000wACE 2\nPORTS AAA\n\
|000fACE 2\nPORTS AAA\nRK 00 I\n\
|100wACE 2\nPORTS AAA\n\
|110wACE 2\nPORTS AAA\nRK 00 I\n\
|110fACE 2\nPORTS AAA\nRK 00 I\nRK 01 I\n\
|110fACE 2\nPORTS AAA\nRK 00 I\nX\
|210wACE 2\nPORTS AAA\nRK 00 I\n\
|2104ACE 2\nPORTS AAA\nRK 00 I\nX\n\
|220wACE 2\nPORTS AAA\nRK 00 I\nRK 01 I\n\
|220fACE 2\nPORTS AAA\nRK 00 I\nRK 01 I\nRK 02 I\n";

/// An event of the port before port 0.
const BEFORE: Event = Event::Rk {
    port: 0xff,
    st: LineState::I,
};

/// How many events are handed over at once, where their ports count from 0.
fn handed<S: Source>(reader: &mut Reader<S>) -> u8 {
    let mut event = BEFORE;
    reader.hands_all_over(&mut event);
    match event {
        Event::Rk { port, .. } => port.wrapping_add(1),
        _ => 0xff,
    }
}

/// How a text with this header ends, by the last of its four characters.
fn end_of(end: u8, header: Header) -> Result<Header, ReadErr> {
    match end {
        b'w' => Ok(header),
        b'f' => Err(ReadErr::TooManyEvents),
        line => Err(ReadErr::Malformed {
            line: u64::from(line.wrapping_sub(b'0')),
            reason: Reason::F2,
        }),
    }
}

/// Whether so many events are read, so many of them at once where some are asked for at once, and
/// then the text ends so.
fn is_read<S: Source>(reader: &mut Reader<S>, count: u8, at_once: Option<u8>, end: u8) -> bool {
    let end = end_of(end, reader.header());
    match at_once {
        None => has_rest(reader, count, &end),
        Some(many) => {
            handed(reader) == many && has_rest(reader, count.saturating_sub(many), &end)
        }
    }
}

/// The same of a text and a limit.
fn is_read_within(
    alloc: Global,
    text: &[u8],
    most: u8,
    count: u8,
    at_once: Option<u8>,
    end: u8,
) -> bool {
    match Reader::start_within(alloc, &mut HonestSource::new(text), u64::from(most)) {
        Ok(mut reader) => is_read(&mut reader, count, at_once, end),
        Err(_) => false,
    }
}

/// Whether the text behind the four characters is read as they say, event by event, and with some
/// events at once.
fn is_so(alloc: Global, row: &[u8]) -> bool {
    match row.split_first_chunk::<4>() {
        Some(([most, count, many, end], text)) => {
            let most = most.wrapping_sub(b'0');
            let count = count.wrapping_sub(b'0');
            let many = many.wrapping_sub(b'0');
            is_read_within(alloc, text, most, count, None, *end)
                && is_read_within(alloc, text, most, count, Some(many), *end)
        }
        None => false,
    }
}

/// How many of the texts are so, up to the first that isn't.
fn read(alloc: Global, rows: &str) -> usize {
    let mut count: usize = 0;
    for row in rows.split('|') {
        if !is_so(alloc, row.as_bytes()) {
            break;
        }
        count = count.saturating_add(1);
    }
    count
}

#[test]
fn reads_within_a_limit(rt: HostRuntime) {
    let alloc = rt.alloc();
    assert!(rt; read(alloc, FIRST) == 14);
    assert!(rt; read(alloc, SECOND) == 10);
}
