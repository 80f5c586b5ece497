// What a call answers, over inputs and outputs in memory.

mod faults;
mod gates;
mod packed;
mod runs;

use ace_io::{Free, MemSink, MemSource, Source};
use ace_top::{ace, tell_no_memory};
use std::alloc::Global;
use std::sync::Wait;
use std::test::Fail;
use std::thread::Threads;

const EMPTY: &str = "ACE 1\nPORTS AA\n";

/// Port 0 reads a line uniquely, then port 1 does, and port 0 is snooped out of it.
const SNOOPED_OUT: &str = "ACE 1\nPORTS AA\n\
    AR 0 0 00000040 7 1 0 0\nG 0 R 0\n\
    R 0 0 0 0 00000000000000000000000000000000\nR 0 0 0 0 00000000000000000000000000000000\n\
    R 0 0 0 0 00000000000000000000000000000000\nR 0 0 0 1 00000000000000000000000000000000\nRK 0 UC\n\
    AR 1 0 00000040 7 1 0 0\nG 1 R 0\nAC 0 00000040 7\nCR 0 10 I\n\
    R 1 0 0 0 00000000000000000000000000000000\nR 1 0 0 0 00000000000000000000000000000000\n\
    R 1 0 0 0 00000000000000000000000000000000\nR 1 0 0 1 00000000000000000000000000000000\nRK 1 UC\n";

/// Port 0 and then port 1 are granted the same line.
const TWO_GRANTS: &str = "ACE 1\nPORTS AA\n\
    AR 0 0 00000040 7 1 0 0\nG 0 R 0\nAR 1 0 00000040 7 1 0 0\nG 1 R 0\n";

/// Port 1 reads a line uniquely, loads a word, stores the line and loads another word.
const STORED: &str = "ACE 1\nPORTS AA\n\
    AR 1 0 00000040 7 1 0 0\nG 1 R 0\n\
    R 1 0 0 0 00000000000000000000000000000000\nR 1 0 0 0 00000000000000000000000000000000\n\
    R 1 0 0 0 00000000000000000000000000000000\nR 1 0 0 1 00000000000000000000000000000000\nRK 1 UC\n\
    L 1 00000040 0 0 00000000000000000000000000000000\n\
    D 1 00000040 ffffffffffffffff 0 11111111111111111111111111111111111111111111111111111111111111111111111111111111111111111111111111111111111111111111111111111111\n\
    L 1 00000040 2 0 11111111111111111111111111111111\n";

const STORED_REPORT: &str = "port 0 loads 0 stores 0 reads 0 writes 0\n\
    port 1 loads 2 stores 1 reads 1 writes 0\n\
    line 00000040 stores 1 value 11111111111111111111111111111111111111111111111111111111111111111111111111111111111111111111111111111111111111111111111111111111\n\
    load 8 1 00000040 0\nload 10 1 00000040 1\n";

const STORED_ORDER: &str = "store 00000040 9\nplace 1 2\nplace 8 7\nplace 10 9\n";

/// An opening memory, and an ACE-Lite port reads its line.
const OPENED: &str = "ACE 2\nPORTS L\n\
    MEM 00000040 aaaaaaaaaaaaaaaaaaaaaaaaaaaaaaaaaaaaaaaaaaaaaaaaaaaaaaaaaaaaaaaaaaaaaaaaaaaaaaaaaaaaaaaaaaaaaaaaaaaaaaaaaaaaaaaaaaaaaaaaaaaaaaaa\n\
    AR 00 0 00000040 0 1 0 0\nG 00 R 0\n\
    R 00 0 0 0 aaaaaaaaaaaaaaaaaaaaaaaaaaaaaaaa\nR 00 0 0 0 aaaaaaaaaaaaaaaaaaaaaaaaaaaaaaaa\n\
    R 00 0 0 0 aaaaaaaaaaaaaaaaaaaaaaaaaaaaaaaa\nR 00 0 0 1 aaaaaaaaaaaaaaaaaaaaaaaaaaaaaaaa\n";

const OPENED_REPORT: &str = "port 0 loads 0 stores 0 reads 1 writes 0\n\
    line 00000040 stores 0 value aaaaaaaaaaaaaaaaaaaaaaaaaaaaaaaaaaaaaaaaaaaaaaaaaaaaaaaaaaaaaaaaaaaaaaaaaaaaaaaaaaaaaaaaaaaaaaaaaaaaaaaaaaaaaaaaaaaaaaaaaaaaaaaa\n";

/// A line of each record that version 1 has.
const SIXTEEN: &str = "ACE 1\nPORTS AL\n\
    AR 0 1 00000040 7 1 0 0\n\
    R 0 1 4 1 000102030405060708090a0b0c0d0e0f\n\
    RK 0 UD\n\
    AW 1 2 00000080 3 1 2\n\
    W 1 ffff 1 11111111111111111111111111111111\n\
    B 1 2 0\n\
    WK 1 I\n\
    AC 0 000000c0 7\n\
    CR 0 1d SC\n\
    CD 0 1 22222222222222222222222222222222\n\
    G 0 R 1\n\
    M 1 W 2 33333333333333333333333333333333333333333333333333333333333333333333333333333333333333333333333333333333333333333333333333333333\n\
    S 0 00000040 SD\n\
    L 0 00000040 3 1 44444444444444444444444444444444\n\
    D 0 00000040 ffffffffffffffff 0 55555555555555555555555555555555555555555555555555555555555555555555555555555555555555555555555555555555555555555555555555555555\n\
    OP 0 0001 skip\n";

/// The same trace in version 2.
const SIXTEEN_IN_2: &str = "ACE 2\nPORTS AL\n\
    AR 00 1 00000040 7 1 0 0\n\
    R 00 1 4 1 000102030405060708090a0b0c0d0e0f\n\
    RK 00 UD\n\
    AW 01 2 00000080 3 1 2\n\
    W 01 ffff 1 11111111111111111111111111111111\n\
    B 01 2 0\n\
    WK 01 I\n\
    AC 00 000000c0 7\n\
    CR 00 1d SC\n\
    CD 00 1 22222222222222222222222222222222\n\
    G 00 R 1\n\
    M 01 W 2 33333333333333333333333333333333333333333333333333333333333333333333333333333333333333333333333333333333333333333333333333333333\n\
    S 00 00000040 SD\n\
    L 00 00000040 3 1 44444444444444444444444444444444\n\
    D 00 00000040 ffffffffffffffff 0 55555555555555555555555555555555555555555555555555555555555555555555555555555555555555555555555555555555555555555555555555555555\n\
    OP 00 0001 skip\n";

/// An opening memory, and a port of two digits.
const OPENING: &str = "ACE 2\nPORTS AL\n\
    MEM 00000040 00112233445566778899aabbccddeeff00000000000000000000000000000000000000000000000000000000000000000000000000000000ffffffffffffffff\n\
    RK 1f UC\n";

const USAGE: &str =
    "usage: ace check|run [filter]|show|migrate|pack|unpack|report|order|gen N|trial N\n";

/// A trace, and what is wanted of a command over it: the status, and the texts of the two outputs.
type Row = (&'static str, u8, &'static str, &'static str);

const VERDICTS: [Row; 13] = [
    (EMPTY, 0, "accepted 0\n", ""),
    (SNOOPED_OUT, 0, "accepted 16\n", ""),
    ("", 3, "", "malformed line 1: F1\n"),
    ("ACE 1\nPORTS AA\nXX 0\n", 3, "", "malformed line 3: F2\n"),
    ("ACE 1\nPORTS AA\nOP 0 0000 ok\n", 0, "accepted 1\n", ""),
    (TWO_GRANTS, 1, "refused event 4: K12\n", ""),
    (STORED, 0, "accepted 10\n", ""),
    (OPENED, 0, "accepted 7\n", ""),
    (
        "ACE 1\nPORTS A\nL 0 00000040 0 0 00000000000000000000000000000000\nXX 0\n",
        1,
        "refused event 1: K30\n",
        "",
    ),
    ("ACE 1\nPORTS AA", 3, "", "malformed line 2: F1\n"),
    ("ACE 2\nPORTS AA\n", 0, "accepted 0\n", ""),
    (OPENING, 1, "refused event 2: K1\n", ""),
    (
        "ACE 2\nPORTS AA\nOP 0 0000 ok\n",
        3,
        "",
        "malformed line 3: F4\n",
    ),
];

const REPORTS: [Row; 7] = [
    (
        EMPTY,
        0,
        "port 0 loads 0 stores 0 reads 0 writes 0\nport 1 loads 0 stores 0 reads 0 writes 0\n",
        "",
    ),
    (STORED, 0, STORED_REPORT, ""),
    (OPENED, 0, OPENED_REPORT, ""),
    (TWO_GRANTS, 1, "refused event 4: K12\n", ""),
    (OPENING, 1, "refused event 2: K1\n", ""),
    ("", 3, "", "malformed line 1: F1\n"),
    ("ACE 1\nPORTS AA\nXX 0\n", 3, "", "malformed line 3: F2\n"),
];

/// Traces of whose reads each can be placed in one way.
const ORDERS: [Row; 7] = [
    (EMPTY, 0, "", ""),
    (STORED, 0, STORED_ORDER, ""),
    (OPENED, 0, "place 2 3\n", ""),
    (TWO_GRANTS, 1, "refused event 4: K12\n", ""),
    (OPENING, 1, "refused event 2: K1\n", ""),
    ("", 3, "", "malformed line 1: F1\n"),
    ("ACE 1\nPORTS AA\nXX 0\n", 3, "", "malformed line 3: F2\n"),
];

const SHOWN: [Row; 10] = [
    (SNOOPED_OUT, 0, SNOOPED_OUT, ""),
    (EMPTY, 0, EMPTY, ""),
    (
        "ACE 1\nPORTS AA\nRK 0 UC\nXX 0\n",
        3,
        "ACE 1\nPORTS AA\nRK 0 UC\n",
        "malformed line 4: F2\n",
    ),
    (
        "ACE 1\nPORTS AA\nRK 0 UC",
        3,
        EMPTY,
        "malformed line 3: F1\n",
    ),
    ("ACE 3\n", 3, "", "malformed line 1: F7\n"),
    ("ACE 2\n", 3, "", "malformed line 2: F1\n"),
    (SIXTEEN, 0, SIXTEEN, ""),
    (SIXTEEN_IN_2, 0, SIXTEEN_IN_2, ""),
    (OPENING, 0, OPENING, ""),
    (
        "ACE 1\nPORTS A\nMEM 00000040 0\n",
        3,
        "ACE 1\nPORTS A\n",
        "malformed line 3: F2\n",
    ),
];

const MIGRATED: [Row; 7] = [
    (
        "ACE 1\nPORTS A\nOP 0 0000 ok\n",
        0,
        "ACE 2\nPORTS A\nOP 00 0000 ok\n",
        "",
    ),
    (SIXTEEN, 0, SIXTEEN_IN_2, ""),
    (SIXTEEN_IN_2, 0, SIXTEEN_IN_2, ""),
    (OPENING, 0, OPENING, ""),
    (
        "ACE 1\nPORTS AA\nRK f UC\nRK 00 UC\n",
        3,
        "ACE 2\nPORTS AA\nRK 0f UC\n",
        "malformed line 4: F4\n",
    ),
    ("ACE 3\n", 3, "", "malformed line 1: F7\n"),
    ("", 3, "", "malformed line 1: F1\n"),
];

/// What a call answered: its status, and its outputs with what they then hold.
#[derive(Drop)]
struct Answered {
    status: u8,
    out: MemSink,
    notes: MemSink,
}

impl Answered {
    /// Whether it is this status, and the outputs hold these texts.
    fn is(&self, status: u8, out: &[u8], notes: &str) -> bool {
        self.status == status && self.out.bytes() == out && self.notes.bytes() == notes.as_bytes()
    }
}

/// The words as a program has them.
fn owned(alloc: Global, words: &[&str]) -> Result<Vec<String>, Fail> {
    let mut owned = Vec::new(alloc);
    for word in words {
        owned.push(String::from_str(alloc, word)?)?;
    }
    Ok(owned)
}

/// Calls `ace` with so much room on its outputs.
fn answer<R: Threads + Wait + Sync, S: Source>(
    rt: &R,
    alloc: Global,
    words: &[&str],
    input: &mut S,
    rooms: (usize, usize),
) -> Result<Answered, Fail> {
    let mut out = MemSink::new(alloc, rooms.0, &[])?;
    let mut notes = MemSink::new(alloc, rooms.1, &[])?;
    let words = owned(alloc, words)?;
    let given = words.as_slice();
    let status = ace(rt, alloc, given, input, &mut out, &mut notes, &Free);
    drop(words);
    Ok(Answered { status, out, notes })
}

/// Whether a call over an input in pieces of so many bytes, of which these takes fail, and over
/// outputs with so much room, has this status and leaves these texts.
fn answers<R: Threads + Wait + Sync>(
    rt: &R,
    alloc: Global,
    words: &[&str],
    input: (&[u8], usize, &[u32]),
    rooms: (usize, usize),
    wanted: (u8, &[u8], &str),
) -> Result<bool, Fail> {
    let mut source = MemSource::new(alloc, input.0, &[input.1.max(1)], input.2)?;
    let answered = answer(rt, alloc, words, &mut source, rooms);
    drop(source);
    let answered = answered?;
    let holds = answered.is(wanted.0, wanted.1, wanted.2);
    drop(answered);
    Ok(holds)
}

/// Whether the command has the status and leaves the texts of the row, in pieces of 1 to 64 bytes.
fn in_any_pieces<R: Threads + Wait + Sync>(
    rt: &R,
    alloc: Global,
    command: &str,
    row: &Row,
) -> Result<bool, Fail> {
    let wanted = (row.1, row.2.as_bytes(), row.3);
    for piece in 1..65 {
        let input = (row.0.as_bytes(), piece, [].as_slice());
        if !answers(rt, alloc, &[command], input, (2000, 99), wanted)? {
            return Ok(false);
        }
    }
    Ok(true)
}

/// Whether a standard output of each room below that of the text gets a front of it, and the notes
/// are told.
fn breaks_off<R: Threads + Wait + Sync>(
    rt: &R,
    alloc: Global,
    command: &str,
    trace: &str,
    text: &str,
) -> Result<bool, Fail> {
    let input = (trace.as_bytes(), 4096, [].as_slice());
    for (room, _) in text.as_bytes().iter().enumerate() {
        let wanted = (5, front(text, room), "write fault\n");
        if !answers(rt, alloc, &[command], input, (room, 99), wanted)? {
            return Ok(false);
        }
    }
    Ok(true)
}

/// The first so many bytes.
fn front(text: &str, length: usize) -> &[u8] {
    text.as_bytes().get(..length).unwrap_or(text.as_bytes())
}

#[test]
fn verdicts_in_any_pieces(rt: HostRuntime) -> Result<(), Fail> {
    for row in VERDICTS {
        assert!(rt; in_any_pieces(&rt, rt.alloc(), "check", &row)?, "{}", row.0);
    }
    Ok(())
}

#[test]
fn reports_in_any_pieces(rt: HostRuntime) -> Result<(), Fail> {
    for row in REPORTS {
        assert!(rt;
            in_any_pieces(&rt, rt.alloc(), "report", &row)?,
            "{}",
            row.0
        );
    }
    assert!(rt; breaks_off(&rt, rt.alloc(), "report", STORED, STORED_REPORT)?);
    Ok(())
}

#[test]
fn orders_in_any_pieces(rt: HostRuntime) -> Result<(), Fail> {
    for row in ORDERS {
        assert!(rt; in_any_pieces(&rt, rt.alloc(), "order", &row)?, "{}", row.0);
    }
    assert!(rt; breaks_off(&rt, rt.alloc(), "order", STORED, STORED_ORDER)?);
    Ok(())
}

#[test]
fn shown_traces(rt: HostRuntime) -> Result<(), Fail> {
    for row in SHOWN {
        assert!(rt; in_any_pieces(&rt, rt.alloc(), "show", &row)?, "{}", row.0);
    }
    assert!(rt; breaks_off(&rt, rt.alloc(), "show", SIXTEEN, SIXTEEN)?);
    Ok(())
}

#[test]
fn migrated_traces(rt: HostRuntime) -> Result<(), Fail> {
    for row in MIGRATED {
        assert!(rt;
            in_any_pieces(&rt, rt.alloc(), "migrate", &row)?,
            "{}",
            row.0
        );
    }
    assert!(rt; breaks_off(&rt, rt.alloc(), "migrate", SIXTEEN, SIXTEEN_IN_2)?);
    Ok(())
}

/// The least digits of a number, in hexadecimal.
fn add_digits(text: &mut Vec<u8>, number: u32) -> Result<(), Fail> {
    for place in 0..8u32 {
        let digit = number >> (28 - 4 * place) & 15;
        for (value, letter) in b"0123456789abcdef".iter().enumerate() {
            if value == digit as usize {
                text.push(*letter)?;
            }
        }
    }
    Ok(())
}

/// A trace in which an ACE-Lite port reads so many lines, one after the other.
fn reads_of(alloc: Global, lines: u32) -> Result<Vec<u8>, Fail> {
    let mut text = Vec::from_slice(alloc, b"ACE 1\nPORTS L\n")?;
    for line in 0..lines {
        text.extend_from_slice(b"AR 0 0 ")?;
        add_digits(&mut text, line.wrapping_mul(64))?;
        text.extend_from_slice(b" 0 1 0 0\nG 0 R 0\n")?;
        for last in [b"0", b"0", b"0", b"1"] {
            text.extend_from_slice(b"R 0 0 0 ")?;
            text.extend_from_slice(last)?;
            text.extend_from_slice(b" 00000000000000000000000000000000\n")?;
        }
    }
    Ok(text)
}

#[test]
fn limit_of_lines(rt: HostRuntime) -> Result<(), Fail> {
    let alloc = rt.alloc();
    for (lines, command, status, out, notes) in [
        (4096, "check", 0, "accepted 24576\n", ""),
        (4097, "check", 6, "", "limit lines\n"),
        (4097, "report", 6, "", "limit lines\n"),
        (4097, "order", 6, "", "limit lines\n"),
    ] {
        let text = reads_of(alloc, lines)?;
        let input = (text.as_slice(), 65536, [].as_slice());
        let wanted = (status, out.as_bytes(), notes);
        assert!(rt;
            answers(&rt, alloc, &[command], input, (99, 99), wanted)?,
            "{command} of {lines} lines"
        );
    }
    Ok(())
}

/// Words, rooms of the outputs, and what is wanted of a call with them over the empty trace.
type Call = (
    &'static [&'static str],
    (usize, usize),
    u8,
    &'static str,
    &'static str,
);

const CALLS: [Call; 15] = [
    (&[], (99, 99), 2, "", USAGE),
    (&["check", "x"], (99, 99), 2, "", USAGE),
    (&["Check"], (99, 99), 2, "", USAGE),
    (&["check"], (0, 99), 5, "", "write fault\n"),
    (&["check"], (4, 99), 5, "acce", "write fault\n"),
    (&["check"], (99, 0), 0, "accepted 0\n", ""),
    (&["report"], (4, 99), 5, "port", "write fault\n"),
    (&["report", "report"], (99, 99), 2, "", USAGE),
    (&["order", "1"], (99, 99), 2, "", USAGE),
    (&["orders"], (99, 99), 2, "", USAGE),
    (&["pack", "1"], (99, 99), 2, "", USAGE),
    (&["packs"], (99, 99), 2, "", USAGE),
    (&["Unpack"], (99, 99), 2, "", USAGE),
    (&[], (99, 0), 5, "", ""),
    (&[], (99, 5), 5, "", "usage"),
];

#[test]
fn words_and_outputs(rt: HostRuntime) -> Result<(), Fail> {
    for (words, rooms, status, out, notes) in CALLS {
        let input = (EMPTY.as_bytes(), 8, [].as_slice());
        let wanted = (status, out.as_bytes(), notes);
        assert!(rt;
            answers(&rt, rt.alloc(), words, input, rooms, wanted)?,
            "{words:?}"
        );
    }
    Ok(())
}

#[test]
fn faults_of_the_input(rt: HostRuntime) -> Result<(), Fail> {
    for (command, trace, take, out) in [
        ("check", SNOOPED_OUT, 2, ""),
        ("report", STORED, 5, ""),
        ("order", STORED, 5, ""),
        (
            "show",
            SNOOPED_OUT,
            5,
            "ACE 1\nPORTS AA\nAR 0 0 00000040 7 1 0 0\n",
        ),
        (
            "migrate",
            SNOOPED_OUT,
            5,
            "ACE 2\nPORTS AA\nAR 00 0 00000040 7 1 0 0\n",
        ),
    ] {
        let fails = [take];
        let input = (trace.as_bytes(), 8, fails.as_slice());
        let wanted = (4, out.as_bytes(), "read fault\n");
        assert!(rt;
            answers(&rt, rt.alloc(), &[command], input, (999, 99), wanted)?,
            "{command}"
        );
    }
    Ok(())
}

/// Calls `ace` over an input that fails at once, so that the status is 4 where anything is taken.
fn answer_untouched<R: Threads + Wait + Sync>(
    rt: &R,
    alloc: Global,
    words: &[&str],
    rooms: (usize, usize),
) -> Result<Answered, Fail> {
    let mut input = MemSource::new(alloc, EMPTY.as_bytes(), &[8], &[0])?;
    let answered = answer(rt, alloc, words, &mut input, rooms);
    drop(input);
    answered
}

/// A number, the bytes of its script, and the front and the end of it.
const SCRIPTS: [(&str, usize, &str, &str); 4] = [
    (
        "0",
        23054,
        "ACE SCRIPT 1\nPORTS AAAL\nCACHE 4\nPOLICY mixed 0000000000000000\n1 wc 00001080\n0 ld 00001140 3\n",
        "\n0 ld 000011c0 2\n0 st 00001080 1 7e3dc55c7e3dc55c7e3dc55c7e3dc55c\n",
    ),
    (
        "1",
        20547,
        "ACE SCRIPT 1\nPORTS AAAL\nCACHE 4\nPOLICY mixed 0000000000000001\n1 dvm 00001000\n3 wu 00001140 0000ffff00000000 a5c2b6d3",
        "\n3 ro 000010c0\n2 st 00001000 2 844c5819844c5819844c5819844c5819\n",
    ),
    (
        "42",
        21789,
        "ACE SCRIPT 1\nPORTS AAAL\nCACHE 4\nPOLICY mixed 000000000000002a\n1 cs 00001180\n0 mb\n",
        "\n2 st 00001180 2 bcf4de36bcf4de36bcf4de36bcf4de36\n0 stx 00001040 2 8cd373828cd373828cd373828cd37382\n",
    ),
    (
        "18446744073709551615",
        19798,
        "ACE SCRIPT 1\nPORTS AAAL\nCACHE 4\nPOLICY mixed ffffffffffffffff\n1 ld 00001100 2\n1 st 000011c0 1 dbc6f13b",
        "\n0 wc 00001100\n3 sb\n",
    ),
];

/// Whether the text has so many bytes, 516 lines, this front and this end.
fn is_script(text: &[u8], length: usize, front: &str, end: &str) -> bool {
    let lines = text.iter().filter(|byte| **byte == b'\n').count();
    text.len() == length
        && lines == 516
        && text.starts_with(front.as_bytes())
        && text.ends_with(end.as_bytes())
}

#[test]
fn scripts_of_numbers(rt: HostRuntime) -> Result<(), Fail> {
    for (number, length, front, end) in SCRIPTS {
        let words = ["gen", number];
        let given = answer_untouched(&rt, rt.alloc(), &words, (30000, 99))?;
        let holds = given.status == 0
            && given.notes.bytes().is_empty()
            && is_script(given.out.bytes(), length, front, end);
        drop(given);
        assert!(rt; holds, "{number}");
    }
    Ok(())
}

/// Whether the script of 42 breaks off where so much room is left, after a front of the whole, and
/// the notes hold what is told.
fn breaks_off_at<R: Threads + Wait + Sync>(
    rt: &R,
    alloc: Global,
    whole: &Answered,
    room: usize,
    told: &str,
) -> Result<bool, Fail> {
    let given = answer_untouched(rt, alloc, &["gen", "42"], (room, told.len()))?;
    let out = given.out.bytes();
    let holds = given.is(5, out, told) && out.len() == room && whole.out.bytes().starts_with(out);
    drop(given);
    Ok(holds)
}

/// Rooms below that of the script, and what is told there.
const ROOMS: [(usize, &str); 11] = [
    (0, "write fault\n"),
    (1, "write fault\n"),
    (12, "write fault\n"),
    (13, "write fault\n"),
    (14, "write fault\n"),
    (4095, "write fault\n"),
    (4096, "write fault\n"),
    (4097, "write fault\n"),
    (12000, "write fault\n"),
    (21788, "write fault\n"),
    (5, "write"),
];

/// Whether it breaks off at each of the rooms.
fn breaks_off_at_all<R: Threads + Wait + Sync>(
    rt: &R,
    alloc: Global,
    whole: &Answered,
) -> Result<bool, Fail> {
    for (room, told) in ROOMS {
        if !breaks_off_at(rt, alloc, whole, room, told)? {
            return Ok(false);
        }
    }
    Ok(whole.is(0, whole.out.bytes(), "") && whole.out.bytes().len() == 21789)
}

#[test]
fn scripts_broken_off(rt: HostRuntime) -> Result<(), Fail> {
    let whole = answer_untouched(&rt, rt.alloc(), &["gen", "42"], (21789, 0))?;
    let holds = breaks_off_at_all(&rt, rt.alloc(), &whole);
    drop(whole);
    assert!(rt; holds?);
    Ok(())
}

/// Words that name no command.
const NO_COMMANDS: [&[&str]; 43] = [
    &["gen"],
    &["gen", ""],
    &["gen", "x"],
    &["gen", "01"],
    &["gen", "00"],
    &["gen", "+1"],
    &["gen", "-1"],
    &["gen", "-0"],
    &["gen", " 1"],
    &["gen", "1 "],
    &["gen", "0x1"],
    &["gen", "1_000"],
    &["gen", "18446744073709551616"],
    &["gen", "100000000000000000000000000"],
    &["gen", "1", "2"],
    &["Gen", "1"],
    &["1", "gen"],
    &["check", "1"],
    &["run", "1"],
    &["run", "x"],
    &["run", "Filter"],
    &["run", "filter "],
    &["run", "filter", "x"],
    &["run", "filter", "filter"],
    &["run", "run"],
    &["filter"],
    &["filter", "run"],
    &["trial"],
    &["trial", "01"],
    &["trial", "1", "1"],
    &["trial", "-1"],
    &["--help"],
    &["-h"],
    &["-V"],
    &["-"],
    &["--"],
    &["--", "check"],
    &["-", "1"],
    &["check", "--"],
    &["gen", "1", "--"],
    &["help"],
    &["help", "check"],
    &[""],
];

#[test]
fn words_of_no_command(rt: HostRuntime) -> Result<(), Fail> {
    for words in NO_COMMANDS {
        let given = answer_untouched(&rt, rt.alloc(), words, (30000, 99))?;
        let holds = given.is(2, b"", USAGE);
        drop(given);
        assert!(rt; holds, "{words:?}");
    }
    Ok(())
}

/// Whether notes with so much room are told that there was no memory for the words, with this
/// status.
fn tells_no_memory(alloc: Global, room: usize, status: u8, told: &str) -> Result<bool, Fail> {
    let mut out = MemSink::new(alloc, 99, &[])?;
    let mut notes = MemSink::new(alloc, room, &[])?;
    let answered = tell_no_memory(&mut out, &mut notes);
    let given = Answered {
        status: answered,
        out,
        notes,
    };
    let holds = given.is(status, b"", told);
    drop(given);
    Ok(holds)
}

#[test]
fn no_memory_for_words(rt: HostRuntime) -> Result<(), Fail> {
    for (room, status, told) in [(99, 7, "out of memory\n"), (3, 5, "out")] {
        assert!(rt; tells_no_memory(rt.alloc(), room, status, told)?);
    }
    Ok(())
}
