//! The report of a trace, as an independent program gives it, and what a failing sink leaves of it.

use ace_codes::LineState;
use ace_event::{Channel, Event, Header, Line};
use ace_io::{Failed, MemSink};
use ace_portck::PortCheck;
use ace_report::Report;
use std::alloc::Global;
use std::test::Fail;

const TWO_ACE: Header = Header {
    version: 1,
    ports: 2,
    ace: 3,
};

const ZERO: Line = Line {
    words: [0, 0, 0, 0],
};

const WRITTEN: Line = Line {
    words: [1, 0, 0, 2],
};

const STORED: Line = Line {
    words: [0xab00_0000_0000_0000_0000_0000_0000_0000, 7, 7, 7],
};

const TEXT: &[u8] =
    b"port 0 loads 1 stores 1 reads 1 writes 0\nport 1 loads 0 stores 0 reads 1 writes 1\nline 00000000 stores 1 value 00000000000000000000000000000001000000000000000000000000000000000000000000000000000000000000000000000000000000000000000000000002\nline 00000040 stores 2 value 00000000000000000000000000000000000000000000000000000000000000000000000000000000000000000000000000000000000000000000000000000000\nload 9 0 00000040 1\n";

macro_rules! ar {
    ($port:expr, $snoop:expr) => {
        Event::Ar { port: $port, id: 0, addr: 64, snoop: $snoop, dom: 1, bar: 0, lock: false }
    };
}

macro_rules! r {
    ($port:expr, $last:expr) => {
        Event::R { port: $port, id: 0, resp: 0, last: $last, word: 0 }
    };
}

macro_rules! w {
    ($strb:expr, $last:expr, $word:expr) => {
        Event::W { port: 1, strb: $strb, last: $last, word: $word }
    };
}

/// Port 0 reads line 64 by ReadUnique, stores a byte and loads it. Port 1 gives up the data of line
/// 64 by MakeInvalid, and writes line 0 by WriteNoSnoop.
const EVENTS: &[Event] = &[
    ar!(0, 7),
    Event::G {
        port: 0,
        chan: Channel::Read,
        id: 0,
    },
    r!(0, false),
    r!(0, false),
    r!(0, false),
    r!(0, true),
    Event::Rk {
        port: 0,
        st: LineState::UC,
    },
    Event::D {
        port: 0,
        addr: 64,
        strobe: 1,
        x: false,
        line: STORED,
    },
    Event::L {
        port: 0,
        addr: 64,
        w: 0,
        x: false,
        word: STORED.words[0],
    },
    ar!(1, 13),
    r!(1, true),
    Event::Aw {
        port: 1,
        id: 0,
        addr: 0,
        snoop: 0,
        dom: 0,
        bar: 0,
    },
    w!(0xffff, false, 1),
    w!(0, false, 0),
    w!(0, false, 0),
    w!(0xffff, true, 2),
    Event::M {
        port: 1,
        chan: Channel::Write,
        id: 0,
        line: WRITTEN,
    },
];

/// The report of the trace.
fn report(alloc: Global) -> Result<Report, Fail> {
    let mut ports = PortCheck::new(alloc, TWO_ACE)?;
    let mut report = Report::new(alloc, TWO_ACE)?;
    for event in EVENTS {
        let line = report.wanted_line(event, &ports);
        report.hear(event, &ports, line, ZERO)?;
        ports.hear(event);
    }
    Ok(report)
}

/// Of which line the report wants memory at the event of this number.
fn wanted(alloc: Global, count: usize) -> Result<Option<u32>, Fail> {
    let mut ports = PortCheck::new(alloc, TWO_ACE)?;
    let mut report = Report::new(alloc, TWO_ACE)?;
    for (number, event) in EVENTS.iter().enumerate() {
        let line = report.wanted_line(event, &ports);
        if number == count {
            return Ok(line);
        }
        report.hear(event, &ports, line, ZERO)?;
        ports.hear(event);
    }
    Ok(None)
}

#[test]
fn wants_memory_of_lines(rt: HostRuntime) -> Result<(), Fail> {
    let cases = [
        (0, Some(64)),
        (1, None),
        (2, None),
        (7, None),
        (9, None),
        (10, Some(64)),
        (11, Some(0)),
        (12, None),
        (16, None),
    ];
    for (count, line) in cases {
        assert_eq!(rt; wanted(rt.alloc(), count)?, line, "event {count}");
    }
    Ok(())
}

#[test]
fn puts_each_line(rt: HostRuntime) -> Result<(), Fail> {
    let alloc = rt.alloc();
    let report = report(alloc)?;
    let mut sink = MemSink::new(alloc, 1000, &[])?;
    let put = report.put(&mut sink);
    drop(report);
    assert!(rt; put == Ok(()) && sink.bytes() == TEXT);
    Ok(())
}

#[test]
fn puts_a_front_where_the_sink_fails(rt: HostRuntime) -> Result<(), Fail> {
    let alloc = rt.alloc();
    let report = report(alloc)?;
    let mut full = MemSink::new(alloc, 100, &[])?;
    let mut failing = MemSink::new(alloc, 1000, &[0])?;
    let cut = report.put(&mut full);
    let failed = report.put(&mut failing);
    drop(report);
    assert!(rt; cut == Err(Failed) && full.bytes() == &TEXT[..100]);
    assert!(rt; failed == Err(Failed) && failing.bytes().is_empty());
    Ok(())
}
