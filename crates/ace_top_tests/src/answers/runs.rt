// Runs of scripts, and what is told of the traces that they write.

use super::{Answered, answer};
use ace_io::HonestSource;
use std::alloc::Global;
use std::sync::Wait;
use std::test::Fail;
use std::thread::Threads;

/// Loads a word, stores it, and writes back a line that isn't held.
const LOAD_AND_STORE: &str = "ACE SCRIPT 1\nPORTS A\nCACHE 1\nPOLICY keep\n\
    0 ld 00000040 0\n0 st 00000040 0 11111111111111111111111111111111\n0 wb 00000080\n";

const LOADED_AND_STORED: &str = "ACE 1\nPORTS A\nAR 0 0 00000040 1 1 0 0\nG 0 R 0\n\
    R 0 0 0 0 00000000000000000000000000000000\nR 0 0 0 0 00000000000000000000000000000000\n\
    R 0 0 0 0 00000000000000000000000000000000\nR 0 0 0 1 00000000000000000000000000000000\nRK 0 UC\n\
    L 0 00000040 0 0 00000000000000000000000000000000\nOP 0 0000 ok\n\
    D 0 00000040 000000000000ffff 0 11111111111111111111111111111111000000000000000000000000000000000000000000000000000000000000000000000000000000000000000000000000\n\
    OP 0 0001 ok\nOP 0 0002 skip\n";

const LOAD_AND_STORE_REPORT: &str = "port 0 loads 1 stores 1 reads 1 writes 0\n\
    line 00000040 stores 1 value 11111111111111111111111111111111000000000000000000000000000000000000000000000000000000000000000000000000000000000000000000000000\n\
    load 8 0 00000040 0\n";

/// Writes a line and reads it.
const WRITE_AND_READ: &str = "ACE SCRIPT 1\nPORTS L\nCACHE 1\nPOLICY keep\n\
    0 wlu 00000040 22222222222222222222222222222222222222222222222222222222222222222222222222222222222222222222222222222222222222222222222222222222\n\
    0 ro 00000040\n";

/// The same of two ports, and a line that its holder gives up.
const GIVEN_UP: &str = "ACE SCRIPT 1\nPORTS AL\nCACHE 1\nPOLICY keep\n\
    0 fill 00000040 11111111111111111111111111111111111111111111111111111111111111111111111111111111111111111111111111111111111111111111111111111111\n\
    1 mi 00000040\n";

/// Four ports, with exclusive stores, updates, maintenance and barriers.
const MANY: &str = "ACE SCRIPT 1\nPORTS AAAL\nCACHE 2\nPOLICY mixed 000000000000002a\n\
    0 ldx 00001000 0\n0 stx 00001000 0 01010101010101010101010101010101\n\
    1 ldx 00001000 0\n1 stx 00001000 0 01010101010101010101010101010101\n\
    0 fill 00002000 a1a1a1a1a1a1a1a1a1a1a1a1a1a1a1a1a1a1a1a1a1a1a1a1a1a1a1a1a1a1a1a1a1a1a1a1a1a1a1a1a1a1a1a1a1a1a1a1a1a1a1a1a1a1a1a1a1a1a1a1a1a1a1a1\n\
    0 fill 00002040 a2a2a2a2a2a2a2a2a2a2a2a2a2a2a2a2a2a2a2a2a2a2a2a2a2a2a2a2a2a2a2a2a2a2a2a2a2a2a2a2a2a2a2a2a2a2a2a2a2a2a2a2a2a2a2a2a2a2a2a2a2a2a2a2\n\
    0 wb 00002000\n1 ld 00002000 0\n1 ld 00002040 3\n2 pf 00002000 c\n2 cs 00002040\n2 st 00003000 1 f1f1f1f1f1f1f1f1f1f1f1f1f1f1f1f1\n\
    3 wlu 00004000 77777777777777777777777777777777777777777777777777777777777777777777777777777777777777777777777777777777777777777777777777777777\n\
    3 sb\n3 ro 00002040\n1 ld 00004000 0\n0 mb\n";

/// The words of the two kinds of run: any port is snooped for a line, or only those that a snoop
/// filter has for it.
const RUN: &[&str] = &["run"];

const RUN_FILTER: &[&str] = &["run", "filter"];

/// A run of the script by these words: its trace.
fn run_of<R: Threads + Wait + Sync>(
    rt: &R,
    alloc: Global,
    words: &[&str],
    script: &[u8],
) -> Result<Answered, Fail> {
    let mut input = HonestSource::new(script);
    answer(rt, alloc, words, &mut input, (4_000_000, 99))
}

/// What is wanted of a text: the whole of it, its front, or parts of it.
#[derive(Clone, Copy)]
enum Wanted {
    Text(&'static str),
    Front(&'static str),
    Parts(&'static [&'static str]),
}

/// Whether these bytes stand in the text.
fn has(text: &[u8], part: &str) -> bool {
    text.windows(part.len().max(1))
        .any(|window| window == part.as_bytes())
}

/// Whether the text is as it is wanted.
fn is_wanted(text: &[u8], wanted: Wanted) -> bool {
    match wanted {
        Wanted::Text(whole) => text == whole.as_bytes(),
        Wanted::Front(front) => text.starts_with(front.as_bytes()),
        Wanted::Parts(parts) => {
            let mut all = true;
            for part in parts {
                all &= has(text, part);
            }
            all
        }
    }
}

/// Whether the command tells of the trace what is wanted.
fn tells<R: Threads + Wait + Sync>(
    rt: &R,
    alloc: Global,
    command: &str,
    trace: &[u8],
    wanted: Wanted,
) -> Result<bool, Fail> {
    let mut input = HonestSource::new(trace);
    let told = answer(rt, alloc, &[command], &mut input, (99_999, 99))?;
    let holds = told.status == 0 && is_wanted(told.out.bytes(), wanted);
    drop(told);
    Ok(holds)
}

/// A script, and what is wanted of the trace of its run, of the verdict on it, and of its report.
#[derive(Clone, Copy)]
struct Row {
    script: &'static str,
    trace: Wanted,
    verdict: Wanted,
    report: Wanted,
}

/// Whether the verdict and the report that are told of the trace are as the row wants them.
fn are_told<R: Threads + Wait + Sync>(
    rt: &R,
    alloc: Global,
    trace: &[u8],
    row: &Row,
) -> Result<bool, Fail> {
    Ok(
        tells(rt, alloc, "check", trace, row.verdict)?
            && tells(rt, alloc, "report", trace, row.report)?,
    )
}

/// Whether a run of the script by these words writes such a trace, of which such a verdict and
/// report are told.
fn is_row_of<R: Threads + Wait + Sync>(
    rt: &R,
    alloc: Global,
    words: &[&str],
    script: &[u8],
    row: &Row,
) -> Result<bool, Fail> {
    let run = run_of(rt, alloc, words, script)?;
    let trace = run.out.bytes();
    let written = run.status == 0 && is_wanted(trace, row.trace);
    let told = are_told(rt, alloc, trace, row);
    drop(run);
    let told = told?;
    Ok(written && told)
}

/// The same of both kinds of run.
fn is_row<R: Threads + Wait + Sync>(
    rt: &R,
    alloc: Global,
    script: &[u8],
    row: &Row,
) -> Result<bool, Fail> {
    Ok(is_row_of(rt, alloc, RUN, script, row)? && is_row_of(rt, alloc, RUN_FILTER, script, row)?)
}

const ANY_TRACE: Wanted = Wanted::Front("ACE 1\n");

const ACCEPTED: Wanted = Wanted::Front("accepted ");

const ROWS: [Row; 5] = [
    Row {
        script: LOAD_AND_STORE,
        trace: Wanted::Text(LOADED_AND_STORED),
        verdict: Wanted::Text("accepted 12\n"),
        report: Wanted::Text(LOAD_AND_STORE_REPORT),
    },
    Row {
        script: WRITE_AND_READ,
        trace: ANY_TRACE,
        verdict: Wanted::Text("accepted 16\n"),
        report: Wanted::Front(
            "port 0 loads 0 stores 0 reads 1 writes 1\nline 00000040 stores 1 value 2222",
        ),
    },
    Row {
        script: "ACE SCRIPT 1\nPORTS A\nCACHE 1\nPOLICY keep\n0 mb\n",
        trace: ANY_TRACE,
        verdict: ACCEPTED,
        report: Wanted::Parts(&["port 0 loads 0 stores 0 reads 1 writes 1\n"]),
    },
    Row {
        script: GIVEN_UP,
        trace: ANY_TRACE,
        verdict: ACCEPTED,
        report: Wanted::Parts(&["line 00000040 stores 2 value "]),
    },
    Row {
        script: MANY,
        trace: ANY_TRACE,
        verdict: ACCEPTED,
        report: Wanted::Parts(&[
            "line 00002000 stores 1 value a1a1",
            "line 00002040 stores 1 value a2a2",
            "line 00003000 stores 1 value 00000000000000000000000000000000f1f1f1f1f1f1f1f1f1f1f1f1f1f1f1f10000",
            "line 00004000 stores 1 value 7777",
            "port 1 loads 4 ",
        ]),
    },
];

#[test]
fn runs_of_scripts(rt: HostRuntime) -> Result<(), Fail> {
    for row in ROWS {
        assert!(rt;
            is_row(&rt, rt.alloc(), row.script.as_bytes(), &row)?,
            "{}",
            row.script
        );
    }
    Ok(())
}

/// Two ports load a line each that nobody holds.
const TWO_LINES: &str = "ACE SCRIPT 1\nPORTS AAA\nCACHE 1\nPOLICY keep\n\
    0 ld 00000040 0\n1 ld 00000080 0\n";

/// Two ports store to one line, which the two others never hold.
const ONE_HOLDER: &str = "ACE SCRIPT 1\nPORTS AAAA\nCACHE 1\nPOLICY keep\n\
    0 st 00000040 0 11111111111111111111111111111111\n\
    1 st 00000040 1 22222222222222222222222222222222\n";

/// How many snoops stand in the trace.
fn snoops_of(trace: &[u8]) -> usize {
    trace
        .windows(4)
        .filter(|window| *window == b"\nAC ".as_slice())
        .count()
}

/// Whether the run by these words writes an accepted trace with so many snoops.
fn has_snoops<R: Threads + Wait + Sync>(
    rt: &R,
    alloc: Global,
    words: &[&str],
    script: &str,
    snoops: usize,
) -> Result<bool, Fail> {
    let run = run_of(rt, alloc, words, script.as_bytes())?;
    let trace = run.out.bytes();
    let written = run.status == 0 && snoops_of(trace) == snoops;
    let told = tells(rt, alloc, "check", trace, ACCEPTED);
    drop(run);
    let told = told?;
    Ok(written && told)
}

#[test]
fn snoops_of_a_run(rt: HostRuntime) -> Result<(), Fail> {
    for (words, script, snoops) in [
        (RUN, TWO_LINES, 4),
        (RUN_FILTER, TWO_LINES, 0),
        (RUN, ONE_HOLDER, 6),
        (RUN_FILTER, ONE_HOLDER, 1),
    ] {
        assert!(rt;
            has_snoops(&rt, rt.alloc(), words, script, snoops)?,
            "{words:?} {script}"
        );
    }
    Ok(())
}

/// Whether a run of the script that is made from this number is accepted.
fn runs_number<R: Threads + Wait + Sync>(
    rt: &R,
    alloc: Global,
    number: &str,
) -> Result<bool, Fail> {
    let mut input = HonestSource::new(b"");
    let made = answer(rt, alloc, &["gen", number], &mut input, (99_999, 99))?;
    let row = Row {
        script: "",
        trace: ANY_TRACE,
        verdict: ACCEPTED,
        report: Wanted::Parts(&["port 3 "]),
    };
    let holds = is_row(rt, alloc, made.out.bytes(), &row);
    drop(made);
    holds
}

#[test]
fn runs_of_numbers(rt: HostRuntime) -> Result<(), Fail> {
    assert!(rt; runs_number(&rt, rt.alloc(), "42")?);
    Ok(())
}

/// What `trial 42` answers, with such rooms.
fn trial<R: Threads + Wait + Sync>(
    rt: &R,
    alloc: Global,
    rooms: (usize, usize),
) -> Result<Answered, Fail> {
    let mut input = HonestSource::new(b"");
    answer(rt, alloc, &["trial", "42"], &mut input, rooms)
}

/// Whether the answer is that of a trial whose run was accepted.
fn is_accepted_trial(given: &Answered) -> bool {
    let text = given.out.bytes();
    given.status == 0
        && text.starts_with(b"trial 42: 512 operations, ")
        && text.ends_with(b" events, accepted\n")
}

/// Whether a trial answers as this one did.
fn is_answered_again<R: Threads + Wait + Sync>(
    rt: &R,
    alloc: Global,
    first: &Answered,
) -> Result<bool, Fail> {
    let second = trial(rt, alloc, (99, 0))?;
    let holds = second.is(0, first.out.bytes(), "");
    drop(second);
    Ok(holds)
}

#[test]
fn trials(rt: HostRuntime) -> Result<(), Fail> {
    let first = trial(&rt, rt.alloc(), (99, 0))?;
    let accepted = is_accepted_trial(&first);
    let again = is_answered_again(&rt, rt.alloc(), &first);
    drop(first);
    let again = again?;
    assert!(rt; accepted && again);
    Ok(())
}

#[test]
fn trial_broken_off(rt: HostRuntime) -> Result<(), Fail> {
    let given = trial(&rt, rt.alloc(), (5, 99))?;
    let holds = given.is(5, b"trial", "write fault\n");
    drop(given);
    assert!(rt; holds);
    Ok(())
}
