// Streams that fail, and lines of each reason.

use super::{USAGE, answers, front};
use std::alloc::Global;
use std::sync::Wait;
use std::test::Fail;
use std::thread::Threads;

const ONE: &str = "ACE 1\nPORTS A\nOP 0 0000 ok\n";

const ONE_IN_2: &str = "ACE 2\nPORTS A\nOP 00 0000 ok\n";

/// Of 300 bytes.
const LONG: &str =
    "xxxxxxxxxxxxxxxxxxxxxxxxxxxxxxxxxxxxxxxxxxxxxxxxxxxxxxxxxxxxxxxxxxxxxxxxxxxxxxxxxxxxxxxxxxxxxxxxxxxx\
    xxxxxxxxxxxxxxxxxxxxxxxxxxxxxxxxxxxxxxxxxxxxxxxxxxxxxxxxxxxxxxxxxxxxxxxxxxxxxxxxxxxxxxxxxxxxxxxxxxxx\
    xxxxxxxxxxxxxxxxxxxxxxxxxxxxxxxxxxxxxxxxxxxxxxxxxxxxxxxxxxxxxxxxxxxxxxxxxxxxxxxxxxxxxxxxxxxxxxxxxxxx";

/// What `show` and `migrate` leave where the input fails at the take, and what the others do.
fn left_at(take: u32) -> [(&'static str, &'static [u8]); 4] {
    // the header stands whole in two pieces
    let (shown, migrated) = match take {
        0 | 1 => (0, 0),
        2 | 3 => (14, 14),
        _ => (27, 28),
    };
    [
        ("check", b""),
        ("report", b""),
        ("show", front(ONE, shown)),
        ("migrate", front(ONE_IN_2, migrated)),
    ]
}

#[test]
fn inputs_that_fail(rt: HostRuntime) -> Result<(), Fail> {
    // each take, up to the one that finds the end
    for take in 0..5 {
        for (command, out) in left_at(take) {
            let fails = [take];
            let input = (ONE.as_bytes(), 8, fails.as_slice());
            let wanted = (4, out, "read fault\n");
            assert!(rt;
                answers(&rt, rt.alloc(), &[command], input, (99, 99), wanted)?,
                "{command}, take {take}"
            );
        }
    }
    Ok(())
}

/// Words, an input, rooms of the outputs, and what is wanted.
type Call = (
    &'static [&'static str],
    &'static str,
    (usize, usize),
    u8,
    &'static str,
    &'static str,
);

const BROKEN_OFF: [Call; 12] = [
    (&["show"], ONE, (27, 99), 0, ONE, ""),
    (&[], ONE, (99, 0), 5, "", ""),
    (&["check"], "", (99, 0), 5, "", ""),
    (&["report"], "", (99, 4), 5, "", "malf"),
    (
        &["show"],
        "ACE 1\nPORTS A\nXX\n",
        (99, 9),
        5,
        "ACE 1\nPORTS A\n",
        "malformed",
    ),
    (
        &["migrate"],
        "ACE 1\nPORTS A\nXX\n",
        (99, 0),
        5,
        "ACE 2\nPORTS A\n",
        "",
    ),
    (&["show"], ONE, (5, 5), 5, "ACE 1", "write"),
    (&["check"], ONE, (5, 0), 5, "accep", ""),
    (&["gen", "01"], ONE, (99, 99), 2, "", USAGE),
    (&["run"], "", (99, 4), 5, "", "malf"),
    (
        &["run"],
        WRITE,
        (20, 99),
        5,
        "ACE 1\nPORTS L\nAW 0 0",
        "write fault\n",
    ),
    (
        &["run", "filter"],
        WRITE,
        (20, 99),
        5,
        "ACE 1\nPORTS L\nAW 0 0",
        "write fault\n",
    ),
];

#[test]
fn outputs_that_fail(rt: HostRuntime) -> Result<(), Fail> {
    for (words, text, rooms, status, out, notes) in BROKEN_OFF {
        let input = (text.as_bytes(), 8, [].as_slice());
        let wanted = (status, out.as_bytes(), notes);
        assert!(rt;
            answers(&rt, rt.alloc(), words, input, rooms, wanted)?,
            "{words:?}"
        );
    }
    Ok(())
}

/// What is told of the first so many bytes of a trace of one event.
fn verdict_on_front(length: usize) -> (u8, &'static str, &'static str) {
    match length {
        14 => (0, "accepted 0\n", ""),
        27 => (0, "accepted 1\n", ""),
        _ if length < 6 => (3, "", "malformed line 1: F1\n"),
        _ if length < 14 => (3, "", "malformed line 2: F1\n"),
        _ => (3, "", "malformed line 3: F1\n"),
    }
}

#[test]
fn traces_cut_short(rt: HostRuntime) -> Result<(), Fail> {
    for length in 0..28 {
        let (status, out, notes) = verdict_on_front(length);
        let input = (front(ONE, length), 8, [].as_slice());
        let wanted = (status, out.as_bytes(), notes);
        assert!(rt;
            answers(&rt, rt.alloc(), &["check"], input, (99, 99), wanted)?,
            "{length} bytes"
        );
    }
    Ok(())
}

/// Whether the commands have this status and leave these texts over the front and what stands
/// behind it.
fn all_answer<R: Threads + Wait + Sync>(
    rt: &R,
    alloc: Global,
    commands: &[&str],
    text: (&str, &str),
    wanted: (u8, &str, &str),
) -> Result<bool, Fail> {
    let mut whole = Vec::from_slice(alloc, text.0.as_bytes())?;
    whole.extend_from_slice(text.1.as_bytes())?;
    for command in commands {
        let input = (whole.as_slice(), 8, [].as_slice());
        let wanted = (wanted.0, wanted.1.as_bytes(), wanted.2);
        if !answers(rt, alloc, &[*command], input, (99, 99), wanted)? {
            return Ok(false);
        }
    }
    Ok(true)
}

const PORT: &str = "ACE 1\nPORTS A\n";

const LINES: [(&str, &str, u8, &str, &str); 16] = [
    (PORT, LONG, 3, "", "malformed line 3: F1\n"),
    (PORT, "\n", 3, "", "malformed line 3: F2\n"),
    (PORT, " OP 0 0000 ok\n", 3, "", "malformed line 3: F2\n"),
    (PORT, "op 0 0000 ok\n", 3, "", "malformed line 3: F2\n"),
    (PORT, "\0\n", 3, "", "malformed line 3: F2\n"),
    (PORT, "XX 0\n", 3, "", "malformed line 3: F2\n"),
    (PORT, "OP 0  0000 ok\n", 3, "", "malformed line 3: F3\n"),
    (PORT, "OP 0 000 ok\n", 3, "", "malformed line 3: F4\n"),
    (PORT, "OP 0 0000 ok\r\n", 3, "", "malformed line 3: F5\n"),
    (
        PORT,
        "AR 0 0 0000004A 7 1 0 0\n",
        3,
        "",
        "malformed line 3: F5\n",
    ),
    (
        PORT,
        "AR 0 0 00000040 7 1 0 2\n",
        3,
        "",
        "malformed line 3: F6\n",
    ),
    (
        PORT,
        "AR 0 0 00000040 7 4 0 0\n",
        3,
        "",
        "malformed line 3: F6\n",
    ),
    ("ACE 9\n", "PORTS A\n", 3, "", "malformed line 1: F7\n"),
    (
        "ACE 1\n",
        "PORTS AAAAAAAAA\n",
        3,
        "",
        "malformed line 2: F7\n",
    ),
    (PORT, "OP 0 0001 ok\nXX\n", 1, "refused event 1: K40\n", ""),
    (PORT, "XX\nOP 0 0001 ok\n", 3, "", "malformed line 3: F2\n"),
];

#[test]
fn lines_of_each_reason(rt: HostRuntime) -> Result<(), Fail> {
    for (front, behind, status, out, notes) in LINES {
        let commands = ["check", "report"];
        let wanted = (status, out, notes);
        assert!(rt;
            all_answer(&rt, rt.alloc(), &commands, (front, behind), wanted)?,
            "{front}{behind}"
        );
    }
    Ok(())
}

const SCRIPT: &str = "ACE SCRIPT 1\nPORTS A\nCACHE 1\nPOLICY keep\n";

/// A script of one write.
const WRITE: &str = "ACE SCRIPT 1\nPORTS L\nCACHE 1\nPOLICY keep\n\
    0 wlu 00000040 22222222222222222222222222222222222222222222222222222222222222222222222222222222222222222222222222222222222222222222222222222222\n";

const SCRIPT_LINES: [(&str, &str, &str); 10] = [
    ("", "", "malformed line 1: P1\n"),
    (SCRIPT, "0 mb", "malformed line 5: P1\n"),
    (SCRIPT, "0 xx\n", "malformed line 5: P2\n"),
    (SCRIPT, "0 ld 00000040\n", "malformed line 5: P3\n"),
    (SCRIPT, "0 ld 0000040 0\n", "malformed line 5: P4\n"),
    (SCRIPT, "0 ld 0000004A 0\n", "malformed line 5: P5\n"),
    (SCRIPT, "1 ld 00000040 0\n", "malformed line 5: P6\n"),
    (
        SCRIPT,
        "0 ld 00000041 0\n0 wb 00000080\n",
        "malformed line 5: P6\n",
    ),
    (
        "ACE SCRIPT 1\nPORTS A\nCACHE 0\nPOLICY keep\n",
        "0 mb\n",
        "malformed line 3: P7\n",
    ),
    (
        SCRIPT,
        "0 ld 00000040 0\n0 rn 00000040\n",
        "malformed line 6: P8\n",
    ),
];

#[test]
fn scripts_of_each_reason(rt: HostRuntime) -> Result<(), Fail> {
    for (front, behind, notes) in SCRIPT_LINES {
        let wanted = (3, "", notes);
        assert!(rt;
            all_answer(&rt, rt.alloc(), &["run"], (front, behind), wanted)?,
            "{front}{behind}"
        );
    }
    Ok(())
}

/// The script of so many lines like this one.
fn repeated(alloc: Global, line: &str, count: u32) -> Result<Vec<u8>, Fail> {
    let mut text = Vec::from_slice(alloc, SCRIPT.as_bytes())?;
    for _ in 0..count {
        text.extend_from_slice(line.as_bytes())?;
    }
    Ok(text)
}

#[test]
fn limit_of_operations(rt: HostRuntime) -> Result<(), Fail> {
    for line in ["0 mb\n", "0 ld 00000040 0\n"] {
        let text = repeated(rt.alloc(), line, 4097)?;
        let input = (text.as_slice(), 4096, [].as_slice());
        let wanted = (6, b"".as_slice(), "limit operations\n");
        assert!(rt;
            answers(&rt, rt.alloc(), &["run"], input, (99, 99), wanted)?,
            "{line}"
        );
    }
    Ok(())
}

#[test]
fn scripts_that_fail(rt: HostRuntime) -> Result<(), Fail> {
    for take in 0..5 {
        let fails = [take];
        let input = (WRITE.as_bytes(), 8, fails.as_slice());
        let wanted = (4, b"".as_slice(), "read fault\n");
        assert!(rt;
            answers(&rt, rt.alloc(), &["run"], input, (99, 99), wanted)?,
            "take {take}"
        );
    }
    Ok(())
}
