// Side files written out by hand, whole and in pieces.
ghost use Rattle.std.specs.Prelude.{◌<◌, All, length};

use ace_io::{HonestSource, MemSource, NoMemory, Source};
use ace_side::{Digits, Reason, SideEnd, SideErr, SideLine, SideReader};
use std::alloc::Global;
use std::test::Fail;

/// How many lines stand behind the first, and how they end, or why the file can't be read on.
type Outcome = (u64, Result<Option<SideEnd>, SideErr>);

/// What comes of a file, where the reader is asked at most so often.
fn reading<S: Source>(alloc: Global, source: &mut S, most: u64) -> Outcome {
    let mut reader = match SideReader::start(alloc, source) {
        Ok(reader) => reader,
        Err(failed) => return (0, Err(failed.error)),
    };
    let mut outcome = Ok(None);
    let mut count = 0;
    for place in 0..most {
        match reader.next() {
            Ok(Some(_)) => count = place + 1,
            Ok(None) => break,
            Err(error) => {
                outcome = Err(error);
                break;
            }
        }
    }
    if outcome.is_ok() {
        outcome = Ok(reader.ending());
    }
    (count, outcome)
}

/// The same, of these bytes behind a first line.
fn reading_behind(alloc: Global, lines: &[u8]) -> Result<Outcome, NoMemory> {
    let mut text = Vec::from_slice(alloc, b"ACE SIDE 1\n").map_err(|_| NoMemory)?;
    text.extend_from_slice(lines).map_err(|_| NoMemory)?;
    Ok(reading(alloc, &mut HonestSource::new(&text), 1000))
}

/// Lines that a recorder writes, and others that the format has, each alone behind the first line.
const GOOD: [&[u8]; 30] = [
    b"",
    b"UNIT ps\n",
    b"UNIT 0123456789abcde~\n",
    b"UNIT !\n",
    b"PORT 00 TOP.tile.cores[0].core.recorder\n",
    b"PORT ff a b\n",
    b"PORT 1f 0123456789012345678901234567890123456789012345678901234567890123\n",
    b"PORT 00 x  y\n",
    b"ADDR 00000040 80000000000\n",
    b"ADDR 00000000 0\n",
    b"ADDR ffffffc0 ffffffffffffffc0\n",
    b"T 0 0\n",
    b"T 18446744073709551615 18446744073709551615\n",
    b"T 4 147500\n",
    b"ID 4 0000\n",
    b"ID 4 1a3\n",
    b"ID 4 0\n",
    b"ID 4 ffffffff\n",
    b"NOTE 0 no port has a recorder\n",
    b"NOTE 21 core 0 takes an interrupt\n",
    b"NOTE 7 \n",
    b"NOTE 7  two spaces ~ \n",
    b"WORD 00010000 8000000000000000\n",
    b"WORD 00010000 00\n",
    b"WORD ffffffff ffffffffffffffff\n",
    b"END 0\n",
    b"END 18446744073709551615\n",
    b"BROKEN 0\n",
    b"CUT 100\n",
    b"NOTE 3 one\nNOTE 3 other\nT 3 7\nID 3 0\n",
];

#[test]
fn reads_good_lines(rt: HostRuntime) -> Result<(), Fail> {
    let alloc = rt.alloc();
    for lines in GOOD {
        let count = lines.iter().filter(|byte| **byte == b'\n').count() as u64;
        let (read, outcome) = reading_behind(alloc, lines)?;
        assert_eq!(rt; read, count);
        assert!(rt; outcome.is_ok());
    }
    Ok(())
}

/// Whether the last of these lines, which has this number in its file, is malformed so.
fn is_refused(alloc: Global, lines: &[u8], line: u64, reason: Reason) -> bool {
    match reading_behind(alloc, lines) {
        Ok((read, outcome)) => {
            read.saturating_add(2) == line && outcome == Err(SideErr::Malformed { line, reason })
        }
        Err(_) => false,
    }
}

/// How many of the texts, which bars part, are malformed in their last line so, up to the first
/// that isn't.
fn refused(alloc: Global, texts: &[u8], line: u64, reason: Reason) -> usize {
    texts
        .split(|byte| *byte == b'|')
        .take_while(|lines| is_refused(alloc, lines, line, reason))
        .count()
}

const NO_END: &[u8] = b"T 1 1|END 4|x|\0|UNIT ";

const NO_WORD: &[u8] =
    b"\n| \n|unit ps\n|ACE SIDE 1\n| T 1 1\n|T\t1 1\n|END\r\n|\0\n|#\n|TT 1 1\n|T1 1\n|\xff\n|STOP 1\n";

const FIELD_COUNTS: &[u8] =
    b"UNIT\n|UNIT p s\n|UNIT ps \n|PORT 00\n|PORT\n|ADDR 00000040\n|ADDR 00000040 40 \n|T 1\n|T 1 1 1\n|T\n|ID 1\n|NOTE 1\n|NOTE\n|WORD 00010000\n|END\n|END 1 \n|BROKEN\n|CUT 1 1\n";

const FORMS: &[u8] =
    b"UNIT \n|UNIT 0123456789abcdefg\n|UNIT p\x7f\n|UNIT ps\r\n|UNIT \x80\n|PORT 0 a\n|PORT 000 a\n|PORT 0A a\n|PORT 00 \n|PORT 00  a\n|PORT 00 a \n|PORT 00 a\tb\n|PORT 0g a\n";

const ADDRESSES: &[u8] =
    b"ADDR 0000040 40\n|ADDR 000000040 40\n|ADDR 00000041 40\n|ADDR 00000040 41\n|ADDR 00000040 040\n|ADDR 00000040 00\n|ADDR 00000040 8001234041\n|ADDR 00000040 \n|ADDR 00000040 4C\n|ADDR 00000040 10000000000000000\n|ADDR 0000004G 40\n";

const NUMBERS: &[u8] =
    b"T 01 1\n|T 1 01\n|T +1 1\n|T -1 1\n|T 1 18446744073709551616\n|T 18446744073709551616 1\n|T  1\n|T 1 \n|T 1 1a\n|T 1 1\r\n|END 00\n|END 1a\n|END \n|BROKEN 01\n|CUT x\n";

const OTHERS: &[u8] =
    b"ID 1 123456789\n|ID 1 \n|ID 1 1G\n|ID x 1\n|NOTE 01 a\n|NOTE  a\n|NOTE 1 a\tb\n|NOTE 1 a\r\n|NOTE 1 \x80\n|WORD 0001000 1\n|WORD 00010000 12345678901234567\n|WORD 00010000 \n";

const ORDERS: &[u8] =
    b"T 2 5\nT 2 5\n|T 2 5\nT 1 6\n|T 2 5\nT 3 4\n|T 2 5\nID 1 0\n|T 2 5\nNOTE 1 a\n|T 2 5\nUNIT ps\n|UNIT ps\nUNIT ps\n|PORT 00 a\nPORT 00 b\n|ADDR 00000040 80\nADDR 00000040 c0\n|ADDR 00000040 80\nADDR 00000080 80\n|ID 2 0\nID 2 1\n|NOTE 2 a\nT 1 1\n|NOTE 2 a\nID 1 1\n|ID 2 0\nNOTE 1 a\n";

const AFTER: &[u8] =
    b"END 1\nEND 1\n|END 1\nT 1 1\n|BROKEN 1\nNOTE 1 a\n|CUT 1\nEND 1\n|END 1\nWORD 00000000 0\n|END 1\nBROKEN 0\n";

const LEAST: &[u8] = b"END 1\nT 1\n|PORT 00 a\nPORT 00\n";

#[test]
fn tells_each_reason(rt: HostRuntime) {
    let cases: [(&[u8], u64, Reason, usize); 11] = [
        (NO_END, 2, Reason::S1, 5),
        (NO_WORD, 2, Reason::S2, 13),
        (FIELD_COUNTS, 2, Reason::S3, 18),
        (FORMS, 2, Reason::S4, 13),
        (ADDRESSES, 2, Reason::S4, 11),
        (NUMBERS, 2, Reason::S4, 15),
        (OTHERS, 2, Reason::S4, 12),
        (ORDERS, 3, Reason::S5, 14),
        (AFTER, 3, Reason::S6, 6),
        (LEAST, 3, Reason::S3, 2),
        (b"UNIT ps\nT 2 5\nEND 2\nT 1 6\n", 5, Reason::S5, 1),
    ];
    for (texts, line, reason, count) in cases {
        assert_eq!(rt; refused(rt.alloc(), texts, line, reason), count);
    }
}

/// Files without a right first line.
const HEADLESS: &[u8] =
    b"|\n|ACE SIDE 1|ACE SIDE 2\n|ACE SIDE 1 \n|ace side 1\n|ACE SIDE 1\r\n| ACE SIDE 1\n|ACE 1\n|T 1 1\n|\x1f\x8b\x08";

/// Whether the first line of a file is malformed.
fn is_headless(alloc: Global, text: &[u8]) -> bool {
    let missing = SideErr::Malformed {
        line: 1,
        reason: Reason::S1,
    };
    reading(alloc, &mut HonestSource::new(text), 10) == (0, Err(missing))
}

#[test]
fn wants_the_first_line(rt: HostRuntime) {
    let alloc = rt.alloc();
    let texts = HEADLESS.split(|byte| *byte == b'|');
    assert_eq!(rt; texts.filter(|text| is_headless(alloc, text)).count(), 11);
}

/// A NOTE that has so many bytes with its line feed, behind a first line.
fn long_note(alloc: Global, count: usize) -> Result<Outcome, NoMemory> {
    let mut lines = Vec::from_slice(alloc, b"NOTE 1 ").map_err(|_| NoMemory)?;
    for _ in 8..count {
        lines.push(b'x').map_err(|_| NoMemory)?;
    }
    lines.push(b'\n').map_err(|_| NoMemory)?;
    reading_behind(alloc, &lines)
}

/// A line has at most 256 bytes with its line feed.
#[test]
fn limits_lines(rt: HostRuntime) -> Result<(), Fail> {
    let alloc = rt.alloc();
    let beyond = SideErr::Malformed {
        line: 2,
        reason: Reason::S1,
    };
    assert!(rt; long_note(alloc, 255)? == (1, Ok(None)));
    assert!(rt; long_note(alloc, 256)? == (1, Ok(None)));
    assert!(rt; long_note(alloc, 257)? == (0, Err(beyond)));
    assert!(rt; long_note(alloc, 9000)? == (0, Err(beyond)));
    Ok(())
}

const EXAMPLE: &[u8] =
    b"ACE SIDE 1\nUNIT ns\nPORT 00 cpu0.l2\nADDR 00000040 8001234040\nT 1 1200\nT 9 1312\nID 9 1a3\nNOTE 21 core 0 takes an interrupt\nWORD 00010000 008000\nEND 21\n";

/// Whether this is the line of that place in the example, from 0.
fn is_in_example(place: u64, line: &SideLine) -> bool {
    match line {
        SideLine::TimeUnit { word } => place == 0 && word.bytes() == b"ns".as_slice(),
        SideLine::Port { port, name } => {
            place == 1 && *port == 0 && name.bytes() == b"cpu0.l2".as_slice()
        }
        SideLine::Addr { addr, real } => {
            place == 2
                && *addr == 0x40
                && *real
                    == Digits {
                        count: 10,
                        value: 0x80_0123_4040,
                    }
        }
        SideLine::Time { event, time } => {
            place == 3 && *event == 1 && *time == 1200 || place == 4 && *event == 9 && *time == 1312
        }
        SideLine::Id { event, id } => {
            place == 5
                && *event == 9
                && *id
                    == Digits {
                        count: 3,
                        value: 0x1a3,
                    }
        }
        SideLine::Note { event, text } => {
            place == 6 && *event == 21 && text.bytes() == b"core 0 takes an interrupt".as_slice()
        }
        SideLine::Word { word, real } => {
            place == 7
                && *word == 0x10000
                && *real
                    == Digits {
                        count: 6,
                        value: 0x8000,
                    }
        }
        SideLine::End { count } => place == 8 && *count == 21,
        _ => false,
    }
}

/// Whether a source reads as the example, and its end stays.
fn reads_example<S: Source>(alloc: Global, source: &mut S) -> bool {
    let Ok(mut reader) = SideReader::start(alloc, source) else {
        return false;
    };
    let mut right = reader.ending() == None;
    for place in 0..9 {
        right = right
            && match reader.next() {
                Ok(Some(line)) => is_in_example(place, &line),
                _ => false,
            };
    }
    right && has_ended(&mut reader) && has_ended(&mut reader)
}

/// Whether no line is left, and the file ends as the example does.
fn has_ended<S: Source>(reader: &mut SideReader<S>) -> bool {
    let ended = match reader.next() {
        Ok(None) => true,
        _ => false,
    };
    ended && reader.ending() == Some(SideEnd::End(21))
}

/// Whether the example is read in pieces of these sizes.
fn reads_in_pieces(alloc: Global, pieces: &[usize]) -> Result<bool, NoMemory>
    requires some { 0 < length pieces.now }
    requires positive { All (λ piece. 0 < piece) pieces.now }
{
    let mut source = MemSource::new(alloc, EXAMPLE, pieces, &[])?;
    Ok(reads_example(alloc, &mut source))
}

#[test]
fn reads_the_example(rt: HostRuntime) -> Result<(), Fail> {
    let alloc = rt.alloc();
    assert!(rt; reads_example(alloc, &mut HonestSource::new(EXAMPLE)));
    assert!(rt; reads_in_pieces(alloc, &[1])?);
    assert!(rt; reads_in_pieces(alloc, &[7, 1, 300])?);
    Ok(())
}

#[test]
fn tells_how_it_ends(rt: HostRuntime) -> Result<(), Fail> {
    let alloc = rt.alloc();
    assert!(rt; reading_behind(alloc, b"T 1 1\n")? == (1, Ok(None)));
    assert!(rt; reading_behind(alloc, b"T 1 1\nEND 1\n")? == (2, Ok(Some(SideEnd::End(1)))));
    assert!(rt;
        reading_behind(alloc, b"NOTE 0 a\nBROKEN 0\n")? == (2, Ok(Some(SideEnd::Broken(0))))
    );
    assert!(rt; reading_behind(alloc, b"CUT 9\n")? == (1, Ok(Some(SideEnd::Cut(9)))));
    Ok(())
}

/// How the reading of the example ends where this take of 30 bytes fails, and whether that answer
/// stays.
fn fault_at(alloc: Global, failing: u32) -> Result<(Option<SideErr>, bool), NoMemory> {
    let mut source = MemSource::new(alloc, EXAMPLE, &[30], &[failing])?;
    let mut reader = match SideReader::start(alloc, &mut source) {
        Ok(reader) => reader,
        Err(failed) => return Ok((Some(failed.error), true)),
    };
    let mut found = None;
    for _ in 0..20 {
        if let Err(error) = reader.next() {
            found = Some(error);
            break;
        }
    }
    let again = match reader.next() {
        Err(error) => Some(error),
        Ok(_) => None,
    };
    Ok((found, again == found))
}

/// Each take fails in turn, up to the one that finds the end.
#[test]
fn tells_read_faults(rt: HostRuntime) -> Result<(), Fail> {
    let alloc = rt.alloc();
    let takes = (EXAMPLE.len() / 30 + 2) as u32;
    for failing in 0..takes {
        assert!(rt; fault_at(alloc, failing)? == (Some(SideErr::ReadFault), true));
    }
    assert!(rt; fault_at(alloc, takes)? == (None, true));
    Ok(())
}
