//! A certificate of a run, of a write with data, and what is none.

use crate::{Cert, EventList, LineList, LineOrder, PlaceList, ReadPlace, verify};
use ace_codes::LineState::UC;
use ace_event::Channel::{Read, Write};
use ace_event::{Event, Header, Line, Outcome};
use std::alloc::Global;
use std::test::Fail;

const HEADER: Header = Header {
    version: 2,
    ports: 2,
    ace: 3,
};

const STORED: Line = Line {
    words: [0x11111111111111111111111111111111, 0, 0, 0],
};

macro_rules! ar {
    ($port:expr, $snoop:expr) => {
        Event::Ar { port: $port, id: 0, addr: 64, snoop: $snoop, dom: 1, bar: 0, lock: false }
    };
}

macro_rules! r {
    ($port:expr, $last:expr, $word:expr) => {
        Event::R { port: $port, id: 0, resp: 0, last: $last, word: $word }
    };
}

macro_rules! w {
    ($strb:expr, $last:expr, $word:expr) => {
        Event::W { port: 1, strb: $strb, last: $last, word: $word }
    };
}

macro_rules! place {
    ($event:expr, $place:expr) => { ReadPlace { event: $event, place: $place } };
}

/// A port reads the line at 40 (hexadecimal), loads from it and stores to it.
const LOADED: &[Event] = &[
    ar!(0, 1),
    Event::G {
        port: 0,
        chan: Read,
        id: 0,
    },
    r!(0, false, 0),
    r!(0, false, 0),
    r!(0, false, 0),
    r!(0, true, 0),
    Event::Rk { port: 0, st: UC },
    Event::L {
        port: 0,
        addr: 64,
        w: 0,
        x: false,
        word: 0,
    },
    Event::Op {
        port: 0,
        k: 0,
        res: Outcome::Ok,
    },
    Event::D {
        port: 0,
        addr: 64,
        strobe: 0xffff,
        x: false,
        line: STORED,
    },
    Event::Op {
        port: 0,
        k: 1,
        res: Outcome::Ok,
    },
    Event::Op {
        port: 0,
        k: 2,
        res: Outcome::Skip,
    },
];

/// A port writes the line, which memory was opened with, and another one reads it.
const WRITTEN: &[Event] = &[
    Event::Mem {
        addr: 64,
        line: Line {
            words: [1, 2, 3, 4],
        },
    },
    Event::Aw {
        port: 1,
        id: 3,
        addr: 64,
        snoop: 0,
        dom: 1,
        bar: 0,
    },
    w!(0xffff, false, 9),
    w!(0, false, 0),
    w!(0x8000, false, 0x0f0e),
    w!(0, true, 0),
    Event::G {
        port: 1,
        chan: Write,
        id: 3,
    },
    Event::M {
        port: 1,
        chan: Write,
        id: 3,
        line: Line { words: [0; 4] },
    },
    ar!(0, 0),
    Event::G {
        port: 0,
        chan: Read,
        id: 0,
    },
    r!(0, false, 9),
    r!(0, false, 2),
    r!(0, false, 0x0e),
    r!(0, true, 4),
    ar!(0, 0),
];

/// The stores of the line, and the reads, as a certificate has them.
struct Case {
    trace: &'static [Event],
    stores: &'static [u32],
    reads: &'static [ReadPlace],
    right: bool,
}

macro_rules! case {
    ($trace:expr, $stores:expr, $reads:expr, $right:expr) => {
        Case { trace: $trace, stores: $stores, reads: $reads, right: $right }
    };
}

const CASES: &[Case] = &[
    case!(LOADED, &[10], &[place!(1, 2), place!(8, 7)], true),
    case!(LOADED, &[10], &[place!(1, 3), place!(8, 7)], false),
    case!(LOADED, &[10], &[place!(1, 1), place!(8, 7)], false),
    case!(LOADED, &[], &[place!(1, 2), place!(8, 7)], false),
    case!(LOADED, &[10, 10], &[place!(1, 2), place!(8, 7)], false),
    case!(LOADED, &[9], &[place!(1, 2), place!(8, 7)], false),
    case!(LOADED, &[10], &[place!(1, 2)], false),
    case!(LOADED, &[10], &[place!(8, 7)], false),
    case!(LOADED, &[10], &[place!(1, 2), place!(8, 6)], false),
    case!(LOADED, &[10], &[place!(8, 7), place!(1, 2)], false),
    case!(
        LOADED,
        &[10],
        &[place!(1, 2), place!(8, 7), place!(9, 8)],
        false
    ),
    case!(WRITTEN, &[8], &[place!(9, 10)], true),
    case!(WRITTEN, &[8], &[place!(9, 9)], false),
    case!(WRITTEN, &[], &[place!(9, 10)], false),
    case!(WRITTEN, &[8], &[place!(9, 10), place!(15, 14)], false),
];

/// A certificate of one line.
fn cert_of(alloc: Global, case: &Case) -> Result<Cert, Fail> {
    let mut stores = EventList::new(alloc);
    for number in case.stores {
        if stores.len() < u32::MAX {
            stores.push(*number)?;
        }
    }
    let mut lines = LineList::new(alloc);
    lines.push(LineOrder { addr: 64, stores })?;
    let mut reads = PlaceList::new(alloc);
    for read in case.reads {
        if reads.len() < u32::MAX {
            reads.push(*read)?;
        }
    }
    Ok(Cert { lines, reads })
}

/// Whether the case is verified.
fn is_verified(alloc: Global, case: &Case) -> Result<bool, Fail> {
    let cert = cert_of(alloc, case)?;
    let count = case.trace.len().min(1048576);
    let right = verify(alloc, &HEADER, &case.trace[..count], &cert)?;
    Ok(right)
}

#[test]
fn verifies_certificates(rt: HostRuntime) -> Result<(), Fail> {
    for (number, case) in CASES.iter().enumerate() {
        assert_eq!(rt; is_verified(rt.alloc(), case)?, case.right, "case {number}");
    }
    Ok(())
}
