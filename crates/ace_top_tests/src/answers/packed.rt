// Traces that are packed, and binary traces that are unpacked.

use super::answers;
use std::alloc::Global;
use std::sync::Wait;
use std::test::Fail;
use std::thread::Threads;

const ONE: &[u8] = b"ACE 1\nPORTS A\nOP 0 0000 ok\n";

const ONE_PACKED: &[u8] = b"ACEB\x01\x01\x00\x00\x00\x01\x10\x00\x00\x00\x00";

const HEADER: &[u8] = b"ACE 1\nPORTS A\n";

/// Bytes, and what is wanted of a command over them: the status, and what the two outputs get.
type Row = (&'static [u8], u8, &'static [u8], &'static str);

const PACKED: [Row; 8] = [
    (ONE, 0, ONE_PACKED, ""),
    (b"ACE 1\nPORTS AA\n", 0, b"ACEB\x01\x02\x00\x00\x00\x03", ""),
    (
        b"ACE 2\nPORTS LA\nAC 01 89abcdef e\nCR 01 09 SD\n",
        0,
        b"ACEB\x02\x02\x00\x00\x00\x02\x08\x01\x89\xab\xcd\xef\x0e\x09\x01\x09\x04",
        "",
    ),
    (
        b"ACE 1\nPORTS A\nRK 0 UC\nXX 0\n",
        3,
        b"ACEB\x01\x01\x00\x00\x00\x01\x03\x00\x01",
        "malformed line 4: F2\n",
    ),
    (
        b"ACE 1\nPORTS A\nOP 0 0000 ok",
        3,
        b"ACEB\x01\x01\x00\x00\x00\x01",
        "malformed line 3: F1\n",
    ),
    (b"", 3, b"", "malformed line 1: F1\n"),
    (b"ACE 1\nPORTS A", 3, b"", "malformed line 2: F1\n"),
    (ONE_PACKED, 3, b"", "malformed line 1: F1\n"),
];

const UNPACKED: [Row; 12] = [
    (ONE_PACKED, 0, ONE, ""),
    (
        b"ACEB\x02\x02\x00\x00\x00\x02\x08\x01\x89\xab\xcd\xef\x0e\x09\x01\x09\x04",
        0,
        b"ACE 2\nPORTS LA\nAC 01 89abcdef e\nCR 01 09 SD\n",
        "",
    ),
    (
        b"ACEB\x01\x01\x00\x00\x00\x01\x10\x00\x00\x00",
        3,
        HEADER,
        "malformed byte 10: Z1\n",
    ),
    (
        b"@CEB\x01\x01\x00\x00\x00\x01\x10\x00\x00\x00\x00",
        3,
        b"",
        "malformed byte 0: Z2\n",
    ),
    (
        b"ACEB\x01\x01\x00\x00\x00\x01\x12\x00\x00\x00\x00",
        3,
        HEADER,
        "malformed byte 10: Z3\n",
    ),
    (
        b"ACEB\x01\x01\x00\x00\x00\x01\x10\x00\x00\x00\x03",
        3,
        HEADER,
        "malformed byte 10: Z4\n",
    ),
    (
        b"ACEB\x01\x01\x00\x00\x00\x02\x10\x00\x00\x00\x00",
        3,
        b"",
        "malformed byte 0: Z2\n",
    ),
    (
        b"ACEB\x01\x01\x00\x00\x00\x01\x11\x00\x00\x00\x00",
        3,
        HEADER,
        "malformed byte 10: Z3\n",
    ),
    (
        b"ACEB\x01\x01\x00\x00\x00\x01\x10\x00\x00\x00\x00\x03\x00",
        3,
        ONE,
        "malformed byte 15: Z1\n",
    ),
    (b"ACEB\x01\x01\x00\x00\x00\x01", 0, HEADER, ""),
    (b"", 3, b"", "malformed byte 0: Z1\n"),
    (ONE, 3, b"", "malformed byte 0: Z2\n"),
];

/// Whether the command has the status and leaves the bytes of the row, in pieces of 1 to 64 bytes.
fn in_any_pieces<R: Threads + Wait + Sync>(
    rt: &R,
    alloc: Global,
    command: &str,
    row: &Row,
) -> Result<bool, Fail> {
    for piece in 1..65 {
        let input = (row.0, piece, [].as_slice());
        if !answers(
            rt,
            alloc,
            &[command],
            input,
            (200, 99),
            (row.1, row.2, row.3),
        )? {
            return Ok(false);
        }
    }
    Ok(true)
}

/// Whether a standard output of each room below that of the bytes gets a front of them, and the
/// notes are told.
fn breaks_off<R: Threads + Wait + Sync>(
    rt: &R,
    alloc: Global,
    command: &str,
    given: &[u8],
    made: &[u8],
) -> Result<bool, Fail> {
    let input = (given, 4096, [].as_slice());
    for (room, _) in made.iter().enumerate() {
        let part = made.get(..room).unwrap_or(made);
        if !answers(
            rt,
            alloc,
            &[command],
            input,
            (room, 99),
            (5, part, "write fault\n"),
        )? {
            return Ok(false);
        }
    }
    Ok(true)
}

#[test]
fn packed_traces(rt: HostRuntime) -> Result<(), Fail> {
    for row in PACKED {
        assert!(rt; in_any_pieces(&rt, rt.alloc(), "pack", &row)?, "{}", row.3);
    }
    assert!(rt; breaks_off(&rt, rt.alloc(), "pack", ONE, ONE_PACKED)?);
    Ok(())
}

#[test]
fn unpacked_traces(rt: HostRuntime) -> Result<(), Fail> {
    for row in UNPACKED {
        assert!(rt;
            in_any_pieces(&rt, rt.alloc(), "unpack", &row)?,
            "{}",
            row.3
        );
    }
    assert!(rt; breaks_off(&rt, rt.alloc(), "unpack", ONE_PACKED, ONE)?);
    Ok(())
}

/// The first so many bytes.
fn front(bytes: &[u8], length: usize) -> &[u8] {
    bytes.get(..length).unwrap_or(bytes)
}

#[test]
fn inputs_that_fail(rt: HostRuntime) -> Result<(), Fail> {
    // each take of eight bytes, and how many bytes are written before it fails
    for (command, given, take, made, length) in [
        ("pack", ONE, 0, ONE_PACKED, 0),
        ("pack", ONE, 1, ONE_PACKED, 0),
        ("pack", ONE, 2, ONE_PACKED, 10),
        ("pack", ONE, 3, ONE_PACKED, 10),
        ("pack", ONE, 4, ONE_PACKED, 15),
        ("unpack", ONE_PACKED, 0, ONE, 0),
        ("unpack", ONE_PACKED, 1, ONE, 0),
        ("unpack", ONE_PACKED, 2, ONE, 27),
    ] {
        let fails = [take];
        let input = (given, 8, fails.as_slice());
        let wanted = (4, front(made, length), "read fault\n");
        assert!(rt;
            answers(&rt, rt.alloc(), &[command], input, (99, 99), wanted)?,
            "{command}, take {take}"
        );
    }
    Ok(())
}

/// What `unpack` answers to the first so many bytes of a packed trace of one event.
fn unpacked_front(length: usize) -> (u8, &'static [u8], &'static str) {
    match length {
        15 => (0, ONE, ""),
        10 => (0, HEADER, ""),
        _ if length < 10 => (3, b"", "malformed byte 0: Z1\n"),
        _ => (3, HEADER, "malformed byte 10: Z1\n"),
    }
}

#[test]
fn packed_traces_cut_short(rt: HostRuntime) -> Result<(), Fail> {
    for length in 0..16 {
        let input = (front(ONE_PACKED, length), 8, [].as_slice());
        let wanted = unpacked_front(length);
        assert!(rt;
            answers(&rt, rt.alloc(), &["unpack"], input, (99, 99), wanted)?,
            "{length} bytes"
        );
    }
    Ok(())
}
