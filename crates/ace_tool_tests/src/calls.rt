// Whole calls of `acetool`.
use crate::shelf::Shelf;
use ace_io::{MemSink, MemSource};
use ace_tool::acetool;
use std::alloc::Global;
use std::test::Fail;

/// Words with a space between, the status, what the standard output gets, and the first line of
/// the notes.
type Row = (&'static str, u8, &'static str, &'static str);

/// Standard input is a trace of two ports and no event.
const INPUT: &str = "ACE 1\nPORTS AA\n";

const ANY: &str = "usage: acetool COMMAND [OPTION].. [FILE]..\n";

const CHECK: &str = "usage: acetool check [OPTION].. [--] [FILE]..\n";

const EXPLAIN: &str = "usage: acetool explain [OPTION].. [--] [FILE]\n";

const RULE: &str = "usage: acetool rule [NAME]..\n";

const CALLS: [Row; 33] = [
    ("check", 0, "accepted 0\n", ""),
    ("check -", 0, "accepted 0\n", ""),
    ("check good", 0, "good: accepted 1\n", ""),
    ("check -- good", 0, "good: accepted 1\n", ""),
    ("check -- -x", 0, "-x: accepted 1\n", ""),
    ("check a=b", 0, "a=b: accepted 1\n", ""),
    ("check good -", 0, "good: accepted 1\naccepted 0\n", ""),
    ("check refused", 1, "refused: refused event 1: K22\n", ""),
    (
        "check malformed",
        3,
        "malformed: malformed line 3: F2\n",
        "",
    ),
    ("check empty", 3, "empty: malformed line 1: F1\n", ""),
    ("check short", 3, "short: malformed line 1: F1\n", ""),
    (
        "check gzip",
        4,
        "gzip: compressed; use: gzip -dc gzip | acetool check -\n",
        "",
    ),
    (
        "check zstd",
        4,
        "zstd: compressed; use: zstd -dc zstd | acetool check -\n",
        "",
    ),
    (
        "check xz",
        4,
        "xz: compressed; use: xz -dc xz | acetool check -\n",
        "",
    ),
    ("check failing", 4, "failing: read fault\n", ""),
    ("check failing_later", 4, "failing_later: read fault\n", ""),
    ("check secret", 4, "secret: Permission denied\n", ""),
    ("check odd", 4, "odd: cannot be opened\n", ""),
    ("check nope", 4, "nope: No such file or directory\n", ""),
    (
        "check refused good",
        1,
        "refused: refused event 1: K22\ngood: accepted 1\n",
        "",
    ),
    (
        "check nope malformed good",
        3,
        "nope: No such file or directory\nmalformed: malformed line 3: F2\ngood: accepted 1\n",
        "",
    ),
    (
        "check malformed refused nope",
        1,
        "malformed: malformed line 3: F2\nrefused: refused event 1: K22\nnope: No such file or directory\n",
        "",
    ),
    ("--version", 0, "acetool 1.0.0\n", ""),
    ("", 2, "", ANY),
    ("good", 2, "", ANY),
    ("--version x", 2, "", ANY),
    ("--help x", 2, "", ANY),
    ("-h", 2, "", ANY),
    ("check --bogus", 2, "", CHECK),
    ("check -x", 2, "", CHECK),
    ("check - -", 2, "", CHECK),
    ("check - -- -", 2, "", CHECK),
    ("check --help good", 2, "", CHECK),
];

/// Limits, and how options are written.
const LIMITS: [Row; 18] = [
    ("check --most-events 1 good", 0, "good: accepted 1\n", ""),
    (
        "check --most-events 0 good -",
        6,
        "good: limit events\naccepted 0\n",
        "",
    ),
    ("check good --most-events=0", 6, "good: limit events\n", ""),
    (
        "check --most-events 18446744073709551615 good",
        0,
        "good: accepted 1\n",
        "",
    ),
    ("check --most-lines 0 line", 6, "line: limit lines\n", ""),
    (
        "check --most-lines=1 line",
        0,
        "line: accepted 1\n  note: 1 transaction is outstanding at the end\n",
        "",
    ),
    (
        "check --most-lines 0 good --most-events 5",
        0,
        "good: accepted 1\n",
        "",
    ),
    (
        "check --most-events 0 good malformed",
        6,
        "good: limit events\nmalformed: limit events\n",
        "",
    ),
    (
        "check -- --most-events 0 good",
        4,
        "--most-events: No such file or directory\n0: No such file or directory\ngood: accepted 1\n",
        "",
    ),
    (
        "check --most-events 18446744073709551616 good",
        2,
        "",
        CHECK,
    ),
    ("check --most-events 01 good", 2, "", CHECK),
    ("check --most-events -1 good", 2, "", CHECK),
    ("check --most-events= good", 2, "", CHECK),
    ("check --most-events", 2, "", CHECK),
    ("check good --most-lines", 2, "", CHECK),
    ("check --most-lines -- good", 2, "", CHECK),
    ("check --most-events 1 --most-events=1 good", 2, "", CHECK),
    ("check --most 1 good", 2, "", CHECK),
];

/// Side files.
const SIDES: [Row; 37] = [
    ("check whole", 0, "whole: accepted 1\n", ""),
    ("check --require-end whole", 0, "whole: accepted 1\n", ""),
    (
        "check --require-end good",
        8,
        "good: unfinished: 1 events, and there is no side file\n",
        "",
    ),
    (
        "check --require-end",
        8,
        "unfinished: 0 events, and there is no side file\n",
        "",
    ),
    (
        "check --require-end --no-side whole",
        8,
        "whole: unfinished: 1 events, and there is no side file\n",
        "",
    ),
    (
        "check goes_on",
        8,
        "goes_on: unfinished: 1 events, and the side file has no END\n",
        "",
    ),
    ("check --no-side goes_on", 0, "goes_on: accepted 1\n", ""),
    (
        "check other",
        8,
        "other: unfinished: the side file says END 2, and the trace has 1 events\n",
        "",
    ),
    (
        "check broken",
        8,
        "broken: unfinished: the recorder stopped after 1 events: X in a field\n",
        "",
    ),
    (
        "check mute --allow-cut",
        8,
        "mute: unfinished: the recorder stopped after 1 events\n",
        "",
    ),
    (
        "check cut --require-end",
        8,
        "cut: unfinished: cut after 1 events on demand\n",
        "",
    ),
    (
        "check cut --allow-cut --require-end",
        0,
        "cut: accepted 1\n",
        "",
    ),
    (
        "check --allow-cut cut_more",
        8,
        "cut_more: unfinished: the side file says CUT 2, and the trace has 1 events\n",
        "",
    ),
    (
        "check cut_more",
        8,
        "cut_more: unfinished: cut after 2 events on demand\n",
        "",
    ),
    (
        "check bad",
        3,
        "bad.side:3: malformed side line 3: S4\n",
        "",
    ),
    (
        "check headless",
        3,
        "headless.side:1: malformed side line 1: S1\n",
        "",
    ),
    ("check hidden", 4, "hidden.side: Permission denied\n", ""),
    ("check faulty", 4, "faulty.side: read fault\n", ""),
    ("check too_long", 0, "too_long: accepted 1\n", ""),
    (
        "check --require-end malformed refused",
        1,
        "malformed: malformed line 3: F2\nrefused: refused event 1: K22\n",
        "",
    ),
    ("check --most-events 0 bad", 6, "bad: limit events\n", ""),
    (
        "check cut bad cut",
        3,
        "cut: unfinished: cut after 1 events on demand\nbad.side:3: malformed side line 3: S4\ncut: unfinished: cut after 1 events on demand\n",
        "",
    ),
    (
        "check nope cut",
        8,
        "nope: No such file or directory\ncut: unfinished: cut after 1 events on demand\n",
        "",
    ),
    ("check --side whole.side good", 0, "good: accepted 1\n", ""),
    (
        "check --side=cut.side whole",
        8,
        "whole: unfinished: cut after 1 events on demand\n",
        "",
    ),
    (
        "check --side whole.side",
        8,
        "unfinished: the side file says END 1, and the trace has 0 events\n",
        "",
    ),
    (
        "check --side bad.side -",
        3,
        "bad.side:3: malformed side line 3: S4\n",
        "",
    ),
    (
        "check --side nope good",
        4,
        "nope: No such file or directory\n",
        "",
    ),
    (
        "check --side --most-events good",
        4,
        "--most-events: No such file or directory\n",
        "",
    ),
    (
        "check --no-side --no-side whole",
        0,
        "whole: accepted 1\n",
        "",
    ),
    ("check --side whole.side good good", 2, "", CHECK),
    ("check --side whole.side --no-side good", 2, "", CHECK),
    (
        "check --side whole.side --side=whole.side good",
        2,
        "",
        CHECK,
    ),
    ("check --side - good", 2, "", CHECK),
    ("check good --side", 2, "", CHECK),
    ("check --no-side=1 good", 2, "", CHECK),
    ("check --require-end=yes good", 2, "", CHECK),
];

/// Traces that end with transactions outstanding.
const OPEN: [Row; 9] = [
    (
        "check line good two_lines",
        0,
        "line: accepted 1\n  note: 1 transaction is outstanding at the end\ngood: accepted 1\ntwo_lines: accepted 2\n  note: 2 transactions are outstanding at the end\n",
        "",
    ),
    (
        "check --drained line good",
        8,
        "line: unfinished: 1 events, and 1 transaction is outstanding at the end\ngood: accepted 1\n",
        "",
    ),
    (
        "check two_lines --drained --drained",
        8,
        "two_lines: unfinished: 2 events, and 2 transactions are outstanding at the end\n",
        "",
    ),
    ("check --drained good", 0, "good: accepted 1\n", ""),
    (
        "check --drained refused",
        1,
        "refused: refused event 1: K22\n",
        "",
    ),
    (
        "check --drained --require-end line",
        8,
        "line: unfinished: 1 events, and there is no side file\n",
        "",
    ),
    ("check --drained=1 good", 2, "", CHECK),
    (
        "explain line",
        0,
        "line: accepted 1\n  note: 1 transaction is outstanding at the end\n",
        "",
    ),
    ("explain --short line", 0, "line: accepted 1\n", ""),
];

/// Why traces are refused, and what rules ask.
const TOLD: [Row; 45] = [
    ("explain", 0, "<stdin>: accepted 0\n", ""),
    ("explain -", 0, "<stdin>: accepted 0\n", ""),
    ("explain good", 0, "good: accepted 1\n", ""),
    ("explain -- -x", 0, "-x: accepted 1\n", ""),
    ("explain --short -- good", 0, "good: accepted 1\n", ""),
    (
        "explain refused",
        1,
        "refused:3: refused event 1: K22: the port acknowledges, and no read of it is complete\n\n  RK 0 UC\n  port 0 acknowledges a read, state UC\n\n  K22a  a read acknowledge has a read: the port has a complete read without RK\n\n  in a design    RACK is a pulse without a handshake. A register slice or a clock crossing that\n                 widens it gives two, and the interconnect sets a line free before its transaction\n                 has ended.\n\n  note: refused.side:3: malformed side line 3: S4\n",
        "",
    ),
    (
        "explain --side whole.side refused",
        1,
        "refused:3: refused event 1: K22: the port acknowledges, and no read of it is complete\n\n  RK 0 UC    at 5\n  port 0 acknowledges a read, state UC\n\n  K22a  a read acknowledge has a read: the port has a complete read without RK\n\n  in a design    RACK is a pulse without a handshake. A register slice or a clock crossing that\n                 widens it gives two, and the interconnect sets a line free before its transaction\n                 has ended.\n",
        "",
    ),
    (
        "explain cut",
        8,
        "cut: unfinished: cut after 1 events on demand\n",
        "",
    ),
    (
        "explain --short bad",
        3,
        "bad.side:3: malformed side line 3: S4\n",
        "",
    ),
    (
        "explain --short refused",
        1,
        "refused:3: refused event 1: K22: the port acknowledges, and no read of it is complete\n",
        "",
    ),
    (
        "explain refused --short",
        1,
        "refused:3: refused event 1: K22: the port acknowledges, and no read of it is complete\n",
        "",
    ),
    (
        "explain malformed",
        3,
        "malformed:3:1: malformed line 3: F2: 'XX' is no record\n\n  XX 0\n  ^\n  expected  one of AR R RK AW W B WK AC CR CD G M S L D OP\n  No event was read.\n",
        "",
    ),
    (
        "explain short",
        3,
        "short:1:2: malformed line 1: F1: the last line has no line feed: the recording was cut off here\n\n  ?\n   ^\n  expected  a line feed\n",
        "",
    ),
    (
        "explain xz",
        4,
        "xz: compressed; use: xz -dc xz | acetool explain -\n",
        "",
    ),
    ("explain failing", 4, "failing: read fault\n", ""),
    (
        "explain failing_later",
        4,
        "failing_later: read fault\n",
        "",
    ),
    ("explain secret", 4, "secret: Permission denied\n", ""),
    ("explain nope", 4, "nope: No such file or directory\n", ""),
    (
        "explain --json refused",
        1,
        "{\"file\":\"refused\",\"verdict\":\"refused\",\"line\":3,\"column\":null,\"event\":1,\"rule\":\"K22\",\"clause\":\"K22a\",\"title\":\"a read acknowledge has a read\",\"sentence\":\"the port has a complete read without RK\",\"message\":\"the port acknowledges, and no read of it is complete\",\"record\":\"RK\",\"port\":0,\"kind\":null,\"address\":null,\"expected\":null,\"got\":null,\"note\":null,\"earlier\":0,\"evidence\":[],\"states\":null,\"grant\":null,\"time\":null,\"accepted\":null,\"outstanding\":null,\"side\":\"refused.side:3: malformed side line 3: S4\"}\n",
        "",
    ),
    (
        "explain --json malformed",
        3,
        "{\"file\":\"malformed\",\"verdict\":\"malformed\",\"line\":3,\"column\":1,\"event\":null,\"rule\":\"F2\",\"clause\":null,\"title\":null,\"sentence\":null,\"message\":\"'XX' is no record\",\"record\":null,\"port\":null,\"kind\":null,\"address\":null,\"expected\":null,\"got\":null,\"note\":null,\"earlier\":null,\"evidence\":[],\"states\":null,\"grant\":null,\"time\":null,\"accepted\":null,\"outstanding\":null,\"side\":null}\n",
        "",
    ),
    (
        "explain line --json --json",
        0,
        "{\"file\":\"line\",\"verdict\":\"accepted\",\"line\":null,\"column\":null,\"event\":null,\"rule\":null,\"clause\":null,\"title\":null,\"sentence\":null,\"message\":null,\"record\":null,\"port\":null,\"kind\":null,\"address\":null,\"expected\":null,\"got\":null,\"note\":null,\"earlier\":null,\"evidence\":[],\"states\":null,\"grant\":null,\"time\":null,\"accepted\":1,\"outstanding\":1,\"side\":null}\n",
        "",
    ),
    (
        "explain --json failing_later",
        4,
        "{\"file\":\"failing_later\",\"verdict\":\"unreadable\",\"line\":null,\"column\":null,\"event\":null,\"rule\":null,\"clause\":null,\"title\":null,\"sentence\":null,\"message\":\"read fault\",\"record\":null,\"port\":null,\"kind\":null,\"address\":null,\"expected\":null,\"got\":null,\"note\":null,\"earlier\":null,\"evidence\":[],\"states\":null,\"grant\":null,\"time\":null,\"accepted\":null,\"outstanding\":null,\"side\":null}\n",
        "",
    ),
    (
        "explain --json xz",
        4,
        "{\"file\":\"xz\",\"verdict\":\"unreadable\",\"line\":null,\"column\":null,\"event\":null,\"rule\":null,\"clause\":null,\"title\":null,\"sentence\":null,\"message\":\"compressed; use: xz -dc xz | acetool explain -\",\"record\":null,\"port\":null,\"kind\":null,\"address\":null,\"expected\":null,\"got\":null,\"note\":null,\"earlier\":null,\"evidence\":[],\"states\":null,\"grant\":null,\"time\":null,\"accepted\":null,\"outstanding\":null,\"side\":null}\n",
        "",
    ),
    ("explain --json=1 good", 2, "", EXPLAIN),
    ("explain --json --short good", 2, "", EXPLAIN),
    ("explain --short good --json", 2, "", EXPLAIN),
    ("explain good good", 2, "", EXPLAIN),
    ("explain - good", 2, "", EXPLAIN),
    ("explain --long good", 2, "", EXPLAIN),
    ("explain -x", 2, "", EXPLAIN),
    ("explain --short=1 good", 2, "", EXPLAIN),
    ("explain --help good", 2, "", EXPLAIN),
    (
        "rule K12d",
        0,
        "K12  one grant for a line\n  K12d  no transaction on its line is granted\n        broken:  the line is still granted to another transaction\n",
        "",
    ),
    (
        "rule K5 K5a",
        0,
        "K5  one transaction of a port on a line\n  K5a  no transaction of this port on this line is outstanding\n        broken:  the port has a transaction of this line outstanding\n\n  in a design    A prefetch and a demand miss for one line sit in two miss registers that do not\n                 see each other; or the line is fetched again while its WriteBack is still on the\n                 way, and the fetch is answered with the old memory.\n  in a recorder  look first at a missing RK or WK: RACK or WACK is a pulse of one cycle\nK5  one transaction of a port on a line\n  K5a  no transaction of this port on this line is outstanding\n        broken:  the port has a transaction of this line outstanding\n",
        "",
    ),
    ("rule K41", 2, "", RULE),
    ("rule K0", 2, "", RULE),
    ("rule K12j", 2, "", RULE),
    ("rule k12", 2, "", RULE),
    ("rule K12 K41", 2, "", RULE),
    ("rule --", 2, "", RULE),
    ("rule --help K12", 2, "", RULE),
    ("K12", 2, "", ANY),
    ("Rule K12", 2, "", ANY),
    ("explained", 2, "", ANY),
    ("--help explain", 2, "", ANY),
];

/// The words as a program has them.
pub(crate) fn owned(alloc: Global, words: &str) -> Result<Vec<String>, Fail> {
    let mut owned = Vec::new(alloc);
    for word in words.split_whitespace() {
        owned.push(String::from_str(alloc, word)?)?;
    }
    Ok(owned)
}

/// What a call answered: its status, and its outputs with what they then hold.
#[derive(Drop)]
struct Answered {
    status: u8,
    out: MemSink,
    notes: MemSink,
}

/// Calls `acetool` with so much room on its outputs.
fn call(alloc: Global, words: &str, rooms: (usize, usize)) -> Result<Answered, Fail> {
    let mut input = MemSource::new(alloc, INPUT.as_bytes(), &[2], &[])?;
    let mut out = MemSink::new(alloc, rooms.0, &[])?;
    let mut notes = MemSink::new(alloc, rooms.1, &[])?;
    let words = owned(alloc, words)?;
    let status = acetool(
        alloc,
        words.as_slice(),
        &Shelf { alloc },
        &mut input,
        &mut out,
        &mut notes,
    );
    drop(words);
    drop(input);
    Ok(Answered { status, out, notes })
}

/// Whether the call has the status and leaves the texts of the row.
fn answers(alloc: Global, row: &Row) -> Result<bool, Fail> {
    let answered = call(alloc, row.0, (2999, 2999))?;
    let holds = answered.status == row.1
        && answered.out.bytes() == row.2.as_bytes()
        && answered.notes.bytes().starts_with(row.3.as_bytes())
        && answered.notes.bytes().is_empty() == row.3.is_empty();
    drop(answered);
    Ok(holds)
}

/// Whether an output with so much room fails, has a front of the text, and the notes tell so.
fn breaks_off(alloc: Global, words: &str, text: &str, room: usize) -> Result<bool, Fail> {
    let answered = call(alloc, words, (room, 99))?;
    let holds = answered.status == 5
        && text.as_bytes().starts_with(answered.out.bytes())
        && answered.out.bytes().len() == room
        && answered.notes.bytes() == b"write fault\n".as_slice();
    drop(answered);
    Ok(holds)
}

#[test]
fn each_call_has_its_answer(rt: HostRuntime) -> Result<(), Fail> {
    for row in CALLS {
        assert!(rt; answers(rt.alloc(), &row)?, "{}", row.0);
    }
    Ok(())
}

#[test]
fn limits_are_those_that_are_asked_for(rt: HostRuntime) -> Result<(), Fail> {
    for row in LIMITS {
        assert!(rt; answers(rt.alloc(), &row)?, "{}", row.0);
    }
    Ok(())
}

#[test]
fn side_files_tell_of_broken_recordings(rt: HostRuntime) -> Result<(), Fail> {
    for row in SIDES {
        assert!(rt; answers(rt.alloc(), &row)?, "{}", row.0);
    }
    Ok(())
}

#[test]
fn notes_tell_what_is_outstanding(rt: HostRuntime) -> Result<(), Fail> {
    for row in OPEN {
        assert!(rt; answers(rt.alloc(), &row)?, "{}", row.0);
    }
    Ok(())
}

#[test]
fn traces_are_explained_and_rules_are_told(rt: HostRuntime) -> Result<(), Fail> {
    for row in TOLD {
        assert!(rt; answers(rt.alloc(), &row)?, "{}", row.0);
    }
    Ok(())
}

#[test]
fn help_goes_to_the_standard_output(rt: HostRuntime) -> Result<(), Fail> {
    for (words, front) in [
        ("--help", ANY),
        ("check --help", CHECK),
        ("explain --help", EXPLAIN),
        ("rule --help", RULE),
    ] {
        let answered = call(rt.alloc(), words, (1999, 0))?;
        let holds = answered.status == 0 && answered.out.bytes().starts_with(front.as_bytes());
        drop(answered);
        assert!(rt; holds, "{words}");
    }
    Ok(())
}

#[test]
fn an_output_fails_at_each_byte(rt: HostRuntime) -> Result<(), Fail> {
    let text = "good: accepted 1\nrefused: refused event 1: K22\n";
    for room in 0..text.len() {
        assert!(rt;
            breaks_off(rt.alloc(), "check good refused", text, room)?,
            "{room}"
        );
    }
    Ok(())
}
