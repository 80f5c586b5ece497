// Whole calls of `chart`.
use crate::calls::owned;
use crate::shelf::Shelf;
use ace_io::{Failed, MemSink, MemSource};
use ace_tool::chart;
use std::alloc::Global;
use std::test::Fail;

/// Words with a space between, the status, what the notes get, and a part of what the standard
/// output gets; nothing where that is nothing.
type Row = (&'static str, u8, &'static str, &'static str);

/// Standard input is a trace of two ports and no event.
const INPUT: &str = "ACE 1\nPORTS AA\n";

/// The label of the one event of a trace.
const LABEL: &str = ">AR ReadShared</text>\n";

/// What is told below a trace that is refused.
const WRONG: &str = ">K22a: the port acknowledges, and no read of it is complete</text>\n";

/// What stands where one event is left out.
const LEFT_OUT: &str = ">1 left out</text>\n";

const DRAWN: [Row; 17] = [
    ("line", 0, "", LABEL),
    ("--line 40 line", 0, "", LABEL),
    ("line --line=0000007f", 0, "", LABEL),
    ("--line all -- line", 0, "", LABEL),
    ("--rows 1 line", 0, "", LABEL),
    ("--rows=18446744073709551615 line", 0, "", LABEL),
    ("--line ffffffff line", 0, "", ">accepted 1</text>\n"),
    ("", 0, "", ">&lt;stdin&gt;</text>\n"),
    ("-", 0, "", ">accepted 0</text>\n"),
    ("--no-side refused", 0, "", WRONG),
    ("--events 1..1 --line all two_lines", 0, "", LEFT_OUT),
    ("--events=2..9 --line all two_lines", 0, "", LEFT_OUT),
    ("--port 1 --line all two_lines", 0, "", LEFT_OUT),
    ("--port 31,0 --line=all two_lines", 0, "", LEFT_OUT),
    ("--around 21 line", 0, "", LABEL),
    ("--around 22 line", 0, "", LEFT_OUT),
    ("--title a<b line", 0, "", ">a&lt;b</text>\n"),
];

const UNDRAWN: [Row; 9] = [
    (
        "refused",
        3,
        "refused.side:3: malformed side line 3: S4\n",
        "",
    ),
    (
        "malformed",
        3,
        "malformed:3:1: malformed line 3: F2: 'XX' is no record\n",
        "",
    ),
    (
        "short",
        3,
        "short:1:2: malformed line 1: F1: the last line has no line feed: the recording was cut off here\n",
        "",
    ),
    ("failing", 4, "failing: read fault\n", ""),
    ("failing_later", 4, "failing_later: read fault\n", ""),
    ("secret", 4, "secret: Permission denied\n", ""),
    ("nope", 4, "nope: No such file or directory\n", ""),
    (
        "gzip",
        4,
        "gzip: compressed; use: gzip -dc gzip | acetool chart -\n",
        "",
    ),
    (
        "--rows 0 line",
        6,
        "line: more than 0 rows: choose by --line, --events or --port, or more rows by --rows\n",
        "",
    ),
];

/// Words that are wrong.
const WRONG_WORDS: [&str; 25] = [
    "line line",
    "--bogus line",
    "-x",
    "--short line",
    "--line",
    "--line xyz line",
    "--line= line",
    "--line 123456789 line",
    "--line 4A line",
    "--line 40 --line=40 line",
    "--rows 01 line",
    "-o",
    "--help line",
    "--events 2..1 line",
    "--events 1.2 line",
    "--events 1..x line",
    "--events 1 line",
    "--events 1..2 --around 1 line",
    "--around 01 line",
    "--port 32 line",
    "--port 0, line",
    "--port= line",
    "--port 0 --port 1 line",
    "--title a --title b line",
    "--title",
];

/// Keeps the text of the last file that was put; one file can't be written.
#[derive(Drop)]
struct Files {
    text: Vec<u8>,
    faults: u64,
}

impl ace_tool::Shelf for Files {
    ghost use Rattle.std.specs.Prelude.{None};

    ghost written = { λ _. None };

    ghost faults = { λ f. f.faults };

    fn put(&mut self, name: &str, text: &[u8]) -> Result<(), Failed> {
        self.text.clear();
        if name != "full.svg" && self.text.extend_from_slice(text).is_ok() {
            return Ok(());
        }
        self.faults = self.faults.saturating_add(1);
        Err(Failed)
    }
}

/// What a call answered: its status, its outputs with what they then hold, and the file.
#[derive(Drop)]
struct Answered {
    status: u8,
    out: MemSink,
    notes: MemSink,
    files: Files,
}

/// Calls `chart` with so much room on its standard output.
fn call(alloc: Global, words: &str, room: usize) -> Result<Answered, Fail> {
    let mut input = MemSource::new(alloc, INPUT.as_bytes(), &[2], &[])?;
    let mut out = MemSink::new(alloc, room, &[])?;
    let mut notes = MemSink::new(alloc, 2000, &[])?;
    let mut files = Files {
        text: Vec::new(alloc),
        faults: 0,
    };
    let words = owned(alloc, words)?;
    let status = chart(
        alloc,
        words.as_slice(),
        &Shelf { alloc },
        &mut files,
        &mut input,
        &mut out,
        &mut notes,
    );
    drop(words);
    drop(input);
    Ok(Answered {
        status,
        out,
        notes,
        files,
    })
}

/// The text has this part, and is a picture; or both are empty.
fn has(text: &[u8], part: &str) -> bool {
    if part.is_empty() {
        return text.is_empty();
    }
    text.ends_with(b"</svg>\n") && text.windows(part.len()).any(|at| at == part.as_bytes())
}

/// Whether the call has the status, leaves the notes of the row, and tells a picture with the part.
fn answers(alloc: Global, row: &Row) -> Result<bool, Fail> {
    let answered = call(alloc, row.0, 50000)?;
    let holds = answered.status == row.1
        && answered.notes.bytes() == row.2.as_bytes()
        && has(answered.out.bytes(), row.3)
        && answered.files.text.is_empty();
    drop(answered);
    Ok(holds)
}

#[test]
fn pictures_are_told(rt: HostRuntime) -> Result<(), Fail> {
    for row in DRAWN {
        assert!(rt; answers(rt.alloc(), &row)?, "{}", row.0);
    }
    Ok(())
}

#[test]
fn it_is_noted_why_there_is_no_picture(rt: HostRuntime) -> Result<(), Fail> {
    for row in UNDRAWN {
        assert!(rt; answers(rt.alloc(), &row)?, "{}", row.0);
    }
    Ok(())
}

#[test]
fn pictures_are_written_into_files(rt: HostRuntime) -> Result<(), Fail> {
    let answered = call(rt.alloc(), "--no-side refused -o x.svg", 50000)?;
    let written = answered.status == 0
        && answered.out.bytes().is_empty()
        && answered.notes.bytes().is_empty()
        && has(answered.files.text.as_slice(), WRONG);
    drop(answered);
    let answered = call(rt.alloc(), "--no-side refused -o full.svg", 50000)?;
    let failed = answered.status == 5
        && answered.out.bytes().is_empty()
        && answered.notes.bytes() == b"write fault\n".as_slice();
    drop(answered);
    assert!(rt; written && failed);
    Ok(())
}

/// Whether the usage is told, with this status, on the notes or on the standard output.
fn tells_usage(alloc: Global, words: &str, status: u8) -> Result<bool, Fail> {
    let answered = call(alloc, words, 50000)?;
    let usage = b"usage: acetool chart [OPTION].. [--] [FILE]\n";
    let told = if status == 0 {
        answered.out.bytes().starts_with(usage) && answered.notes.bytes().is_empty()
    } else {
        answered.notes.bytes().starts_with(usage) && answered.out.bytes().is_empty()
    };
    let holds = answered.status == status && told;
    drop(answered);
    Ok(holds)
}

#[test]
fn the_usage_is_told(rt: HostRuntime) -> Result<(), Fail> {
    assert!(rt; tells_usage(rt.alloc(), "--help", 0)?);
    for words in WRONG_WORDS {
        assert!(rt; tells_usage(rt.alloc(), words, 2)?, "{words}");
    }
    Ok(())
}

#[test]
fn the_standard_output_fails(rt: HostRuntime) -> Result<(), Fail> {
    for room in [0, 1, 999] {
        let answered = call(rt.alloc(), "--no-side refused", room)?;
        let holds = answered.status == 5
            && answered.out.bytes().len() == room
            && answered.notes.bytes() == b"write fault\n".as_slice();
        drop(answered);
        assert!(rt; holds, "{room}");
    }
    Ok(())
}
