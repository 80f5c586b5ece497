// Lines and their colours, and the words that wish them.
use crate::{Painter, is_painted, paint, split_wish};
use ace_io::{MemSink, NoMemory, Sink};
use std::alloc::Global;

/// The text is painted so.
fn paints(alloc: Global, text: &str, wanted: &str) -> bool {
    match paint(alloc, text.as_bytes()) {
        Ok(painted) => painted.as_slice() == wanted.as_bytes(),
        Err(NoMemory) => false,
    }
}

#[test]
fn verdicts_are_red(rt: HostRuntime) {
    const ROWS: [(&str, &str); 6] = [
        (
            "a b.trace: refused event 4: K12",
            "\x1b[1ma b.trace\x1b[0m: \x1b[1;31mrefused event 4: K12\x1b[0m",
        ),
        (
            "x:6: refused event 4: K12: the line is: so",
            "\x1b[1mx:6\x1b[0m: \x1b[1;31mrefused event 4: K12\x1b[0m: the line is: so",
        ),
        (
            "malformed line 10: F2\n",
            "\x1b[1;31mmalformed line 10: F2\x1b[0m\n",
        ),
        (
            "x: unfinished: the recorder stopped after 3 events: X: Y",
            "\x1b[1mx\x1b[0m: \x1b[1;31munfinished: the recorder stopped after 3 events\x1b[0m: X: Y",
        ),
        (
            "FAIL  x:6  K12d: z\nBAD   y\nok    z",
            "\x1b[1;31mFAIL\x1b[0m  x:6  K12d: z\n\x1b[1;31mBAD\x1b[0m   y\nok    z",
        ),
        (
            "ERROR x\nLIMIT x\nCUT   x\n",
            "\x1b[1;31mERROR\x1b[0m x\n\x1b[1;31mLIMIT\x1b[0m x\n\x1b[1;31mCUT\x1b[0m   x\n",
        ),
    ];
    let alloc = rt.alloc();
    assert!(rt; ROWS.iter().all(|row| paints(alloc, row.0, row.1)));
}

#[test]
fn labels_are_blue(rt: HostRuntime) {
    const ROWS: [(&str, &str); 6] = [
        (
            "  K12d  one grant: not two",
            "  \x1b[1;34mK12d\x1b[0m  one grant: not two",
        ),
        ("K7  what", "\x1b[1;34mK7\x1b[0m  what"),
        (
            "  expected  UD\n  got       UC",
            "  \x1b[1;34mexpected\x1b[0m  UD\n  \x1b[1;34mgot\x1b[0m       UC",
        ),
        (
            "  Before event 4, line 00000040\n  What led here\n",
            "  \x1b[1;34mBefore event 4, line 00000040\x1b[0m\n  \x1b[1;34mWhat led here\x1b[0m\n",
        ),
        (
            "  in a design    The\n  in a recorder  look",
            "  \x1b[1;34min a design\x1b[0m    The\n  \x1b[1;34min a recorder\x1b[0m  look",
        ),
        (
            "  note: 3 transactions",
            "  \x1b[1;34mnote\x1b[0m: 3 transactions",
        ),
    ];
    let alloc = rt.alloc();
    assert!(rt; ROWS.iter().all(|row| paints(alloc, row.0, row.1)));
}

#[test]
fn other_lines_stay(rt: HostRuntime) {
    const LINES: [&str; 7] = [
        "",
        "\n\n",
        "x: accepted 5\n",
        "K12.trace: accepted 5\n",
        "{\"text\": refused event 4: K12}\n",
        "  G 1 R 0\n    port 0       I; outstanding: ReadUnique (event 1)\n",
        "usage: acetool check [OPTION].. [--] [FILE]..\n",
    ];
    let alloc = rt.alloc();
    assert!(rt; LINES.iter().all(|line| paints(alloc, line, line)));
}

/// Whether a painter that does so gives a sink of so much room these bytes of a line.
fn gives(alloc: Global, is_painting: bool, room: usize, wanted: &str) -> bool {
    let Ok(sink) = MemSink::new(alloc, room, &[]) else {
        return false;
    };
    let mut painter = Painter::new(alloc, sink, is_painting);
    let given = painter.give(b"refused event 4: K12\n");
    let has_wanted = painter.sink().bytes() == wanted.as_bytes();
    drop(painter);
    has_wanted && given.is_ok() == (wanted.len() < room)
}

#[test]
fn painters_paint(rt: HostRuntime) {
    let alloc = rt.alloc();
    assert!(rt; gives(alloc, false, 99, "refused event 4: K12\n"));
    assert!(rt; gives(alloc, true, 99, "\x1b[1;31mrefused event 4: K12\x1b[0m\n"));
    assert!(rt; gives(alloc, true, 10, "\x1b[1;31mref"));
}

/// The words, if there is memory for them.
fn words_of(alloc: Global, text: &str) -> Option<Vec<String>> {
    let mut words = Vec::new(alloc);
    for word in text.split(' ') {
        let Ok(word) = word.to_string(alloc) else {
            return None;
        };
        if words.push(word).is_err() {
            return None;
        }
    }
    Some(words)
}

/// How many words are left of these behind a wish, and whether what they ask is painted on a
/// terminal, and elsewhere.
fn asked_by(alloc: Global, text: &str) -> Option<(usize, bool, bool)> {
    let words = words_of(alloc, text)?;
    let (when, rest) = split_wish(words.as_slice());
    Some((
        rest.len(),
        is_painted(when, rest, true),
        is_painted(when, rest, false),
    ))
}

#[test]
fn words_wish_colours(rt: HostRuntime) {
    const ROWS: [(&str, (usize, bool, bool)); 9] = [
        ("check x", (2, true, false)),
        ("--color always explain x", (2, true, true)),
        ("--color=never batch x", (2, false, false)),
        ("--color auto rule", (1, true, false)),
        ("--color=always chart x", (2, false, false)),
        ("--color sometimes check x", (4, false, false)),
        ("--color=sometimes check", (2, false, false)),
        ("--color", (1, false, false)),
        ("check --color always", (3, true, false)),
    ];
    let alloc = rt.alloc();
    assert!(rt; ROWS.iter().all(|row| asked_by(alloc, row.0) == Some(row.1)));
}
