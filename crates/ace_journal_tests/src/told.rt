// What a journal tells of the events that it has heard.
use ace_clauses::{ClauseName, Letter};
use ace_codes::LineState;
use ace_event::{Channel, Event, Line, Outcome};
use ace_event_words::{Transfers, deed_of};
use ace_io::NoMemory;
use ace_journal::{Journal, Row, push_event_words, push_led};
use ace_model::Transaction;
use ace_side_facts::SideFacts;
use std::alloc::Global;

/// A ReadUnique of port 0.
const READ: Transaction = Transaction {
    place: 0,
    port: 0,
    chan: Channel::Read,
    id: 3,
    addr: 64,
    snoop: 7,
    dom: 1,
    bar: 0,
    lock: true,
};

/// The row of the event of this number, which belongs to the read.
fn row(number: u64, event: &Event) -> Row {
    Row {
        first: number,
        last: number,
        before: 0,
        deed: deed_of(&Some(READ), event),
    }
}

/// The journal hears the events.
fn hear_all(journal: &mut Journal, line: Option<u32>, events: &[Event]) -> Result<(), NoMemory> {
    let mut number = 0u64;
    for event in events {
        number = number.wrapping_add(1);
        journal.hear(line, event, row(number, event))?;
    }
    Ok(())
}

/// Whether this is told of what led to the event after these, all of one line, which breaks the
/// clause.
fn is_told_of(
    alloc: Global,
    clause: ClauseName,
    line: Option<u32>,
    events: &[Event],
    own: &Event,
    wanted: &[u8],
) -> Result<bool, NoMemory> {
    let mut journal = Journal::new(alloc);
    let heard = hear_all(&mut journal, line, events);
    let led = journal.led(line, row(events.len() as u64 + 1, own), Transfers::One);
    drop(journal);
    heard?;
    let mut text = Vec::new(alloc);
    let facts = SideFacts::none(alloc);
    push_led(alloc, &mut text, &facts, clause.rule, clause.letter, &led)?;
    Ok(text.as_slice() == wanted)
}

/// The same of a clause of which nothing is marked.
fn is_told(
    alloc: Global,
    line: Option<u32>,
    events: &[Event],
    own: &Event,
    wanted: &[u8],
) -> Result<bool, NoMemory> {
    let clause = ClauseName {
        rule: 14,
        letter: Letter::A,
    };
    is_told_of(alloc, clause, line, events, own, wanted)
}

/// Whether these are the words of an event of the line.
fn is_worded(
    alloc: Global,
    line: Option<u32>,
    own: &Event,
    transfers: Transfers,
    wanted: &[u8],
) -> Result<bool, NoMemory> {
    let journal = Journal::new(alloc);
    let led = journal.led(line, row(1, own), transfers);
    drop(journal);
    let mut text = Vec::new(alloc);
    let facts = SideFacts::none(alloc);
    push_event_words(&mut text, &facts, &led)?;
    Ok(text.as_slice() == wanted)
}

fn ar() -> Event {
    Event::Ar {
        port: 0,
        id: 3,
        addr: 64,
        snoop: 7,
        dom: 1,
        bar: 0,
        lock: true,
    }
}

fn r(resp: u8) -> Event {
    Event::R {
        port: 0,
        id: 3,
        resp,
        last: false,
        word: 0,
    }
}

fn load(x: bool) -> Event {
    Event::L {
        port: 0,
        addr: 64,
        w: 2,
        x,
        word: 0,
    }
}

fn cr() -> Event {
    Event::Cr {
        port: 1,
        resp: 0x15,
        st: LineState::I,
    }
}

fn cd(port: u8) -> Event {
    Event::Cd {
        port,
        last: false,
        word: 0,
    }
}

fn grant() -> Event {
    Event::G {
        port: 0,
        chan: Channel::Read,
        id: 3,
    }
}

fn store() -> Event {
    Event::D {
        port: 0,
        addr: 64,
        strobe: 1,
        x: false,
        line: Line { words: [0; 4] },
    }
}

fn op() -> Event {
    Event::Op {
        port: 0,
        k: 0,
        res: Outcome::Ok,
    }
}

#[test]
fn tells_the_events_of_a_line(rt: HostRuntime) {
    let events = [
        ar(),
        r(4),
        r(4),
        r(4),
        r(0),
        load(false),
        load(true),
        cr(),
        cd(1),
        cd(1),
        cd(2),
    ];
    let wanted =
        b"\n  What led here, line 00000040\n            1  AR  port 0 asks for ReadUnique, identifier 3, exclusive\n          2-4  R   port 0 gets transfers of its ReadUnique, OKAY, PassDirty\n            5  R   port 0 gets a transfer of its ReadUnique, OKAY\n            7  L   port 0 loads word 2, exclusive\n            8  CR  port 1 answers the snoop, state I, data, PassDirty, WasUnique\n         9-10  CD  port 1 sends transfers of its snoop data\n           11  CD  port 2 sends a transfer of its snoop data\n  >        12  D   port 0 stores\n";
    assert!(rt;
        matches!(
            is_told(rt.alloc(), Some(64), &events, &store(), wanted),
            Ok(true)
        )
    );
}

#[test]
fn tells_the_last_sixteen(rt: HostRuntime) {
    let events = [store(); 18];
    let wanted =
        b"\n  What led here\n          ...  2 earlier events without a line\n            3  D   port 0 stores\n            4  D   port 0 stores\n            5  D   port 0 stores\n            6  D   port 0 stores\n            7  D   port 0 stores\n            8  D   port 0 stores\n            9  D   port 0 stores\n           10  D   port 0 stores\n           11  D   port 0 stores\n           12  D   port 0 stores\n           13  D   port 0 stores\n           14  D   port 0 stores\n           15  D   port 0 stores\n           16  D   port 0 stores\n           17  D   port 0 stores\n           18  D   port 0 stores\n  >        19  AR  port 0 asks for ReadUnique, identifier 3, exclusive\n";
    assert!(rt; matches!(is_told(rt.alloc(), None, &events, &ar(), wanted), Ok(true)));
}

#[test]
fn tells_nothing_where_nothing_led_there(rt: HostRuntime) {
    assert!(rt; matches!(is_told(rt.alloc(), Some(64), &[], &ar(), b""), Ok(true)));
    assert!(rt;
        matches!(
            is_told(rt.alloc(), None, &[op(), load(false)], &ar(), b""),
            Ok(true)
        )
    );
    assert!(rt; matches!(is_told(rt.alloc(), None, &[ar()], &op(), b""), Ok(true)));
}

#[test]
fn marks_the_reason(rt: HostRuntime) {
    let clause = ClauseName {
        rule: 18,
        letter: Letter::H,
    };
    let events = [ar(), grant(), ar(), grant(), cr()];
    let wanted =
        b"\n  What led here, line 00000040\n            1  AR  port 0 asks for ReadUnique, identifier 3, exclusive\n            2  G   port 0 is granted the line for its ReadUnique\n            3  AR  port 0 asks for ReadUnique, identifier 3, exclusive\n            4  G   port 0 is granted the line for its ReadUnique   <- the grant\n            5  CR  port 1 answers the snoop, state I, data, PassDirty, WasUnique   <- passes the dirty line\n  >         6  R   port 0 gets a transfer of its ReadUnique, OKAY\n";
    assert!(rt;
        matches!(
            is_told_of(rt.alloc(), clause, Some(64), &events, &r(0), wanted),
            Ok(true)
        )
    );
}

#[test]
fn tells_an_event_in_words(rt: HostRuntime) {
    let second = Transfers::Nth {
        number: 2,
        beats: 4,
    };
    let read = b"  port 0 gets transfer 2 of 4 of its ReadUnique, OKAY, line 00000040\n";
    let snooped = b"  port 1 sends a transfer of its snoop data, address 00000041\n";
    let alloc = rt.alloc();
    assert!(rt; matches!(is_worded(alloc, Some(64), &r(0), second, read), Ok(true)));
    assert!(rt;
        matches!(
            is_worded(alloc, Some(65), &cd(1), Transfers::One, snooped),
            Ok(true)
        )
    );
}
