//! A line from its opening to a write-back, and events that break a rule on the way, as a reader of
//! the rules finds them.

use ace_check::{Checker, Shares, Step};
use ace_codes::LineState::{I, SD, UC, UD};
use ace_event::Channel::{Read, Write};
use ace_event::{Event, Header, Line};
use std::alloc::Global;
use std::test::Fail;

pub(crate) const TWO_ACE: Header = Header {
    version: 2,
    ports: 2,
    ace: 3,
};

const OPENED: Line = Line {
    words: [1, 2, 3, 4],
};

const STORED: Line = Line {
    words: [5, 6, 7, 8],
};

macro_rules! ar {
    ($port:expr, $snoop:expr, $dom:expr) => {
        Event::Ar { port: $port, id: 0, addr: 64, snoop: $snoop, dom: $dom, bar: 0, lock: false }
    };
}

macro_rules! r {
    ($port:expr, $resp:expr, $last:expr, $word:expr) => {
        Event::R { port: $port, id: 0, resp: $resp, last: $last, word: $word }
    };
}

macro_rules! g {
    ($port:expr) => { Event::G { port: $port, chan: Read, id: 0 } };
}

macro_rules! rk {
    ($port:expr, $st:expr) => { Event::Rk { port: $port, st: $st } };
}

macro_rules! ac {
    ($port:expr) => { Event::Ac { port: $port, addr: 64, snoop: 7 } };
}

macro_rules! cr {
    ($port:expr, $resp:expr) => { Event::Cr { port: $port, resp: $resp, st: I } };
}

/// Snoop data of port 0.
macro_rules! cd {
    ($last:expr, $word:expr) => { Event::Cd { port: 0, last: $last, word: $word } };
}

/// Write data of port 1.
macro_rules! w {
    ($last:expr, $word:expr) => { Event::W { port: 1, strb: 0xffff, last: $last, word: $word } };
}

macro_rules! wk {
    ($st:expr) => { Event::Wk { port: 1, st: $st } };
}

/// Memory is written for the write of port 1.
macro_rules! m {
    ($line:expr) => { Event::M { port: 1, chan: Write, id: 0, line: $line } };
}

macro_rules! l {
    ($word:expr) => { Event::L { port: 0, addr: 64, w: 1, x: false, word: $word } };
}

const STORE: Event = Event::D {
    port: 0,
    addr: 64,
    strobe: u64::MAX,
    x: false,
    line: STORED,
};

/// The WriteBack of port 1.
const UPDATE: Event = Event::Aw {
    port: 1,
    id: 0,
    addr: 64,
    snoop: 3,
    dom: 1,
    bar: 0,
};

const RESPONSE: Event = Event::B {
    port: 1,
    id: 0,
    resp: 0,
};

const SILENT: Event = Event::S {
    port: 0,
    addr: 64,
    st: UD,
};

/// Port 0 reads the line of memory for itself alone, up to its RK.
pub(crate) const READ: &[Event] = &[
    Event::Mem {
        addr: 64,
        line: OPENED,
    },
    ar!(0, 7, 1),
    g!(0),
    r!(0, 0, false, 1),
    r!(0, 0, false, 2),
    r!(0, 0, false, 3),
    r!(0, 0, true, 4),
];

/// It stores the line, and port 1 asks for it.
pub(crate) const ASKED: &[Event] = &[rk!(0, UC), l!(2), STORE, ar!(1, 7, 1), g!(1), ac!(0)];

/// Port 0 passes it on, and port 1 writes it back, up to its last beat.
pub(crate) const WRITTEN: &[Event] = &[
    cr!(0, 21),
    cd!(false, 5),
    cd!(false, 6),
    cd!(false, 7),
    cd!(true, 8),
    r!(1, 4, false, 5),
    r!(1, 4, false, 6),
    r!(1, 4, false, 7),
    r!(1, 4, true, 8),
    rk!(1, UD),
    UPDATE,
    w!(false, 5),
    w!(false, 6),
    w!(false, 7),
];

/// Port 1 ends its write.
pub(crate) const ENDED: &[Event] = &[w!(true, 8), m!(STORED), RESPONSE, wk!(I)];

/// After some events, which break no rule: events, each with the rule that it breaks. One that
/// breaks none is taken.
struct Case {
    front: &'static [&'static [Event]],
    events: &'static [(Event, Option<u8>)],
}

const CASES: &[Case] = &[
    Case {
        front: &[],
        events: &[
            (g!(0), Some(12)),
            (l!(0), Some(30)),
            (STORE, Some(32)),
            (ac!(0), Some(13)),
        ],
    },
    Case {
        front: &[READ],
        events: &[
            (rk!(0, SD), Some(23)),
            (ar!(1, 0, 0), Some(8)),
            (rk!(0, UC), None),
            (l!(3), Some(31)),
            (ar!(0, 7, 1), Some(6)),
            (SILENT, Some(29)),
        ],
    },
    Case {
        front: &[READ, ASKED],
        events: &[
            (r!(1, 0, false, 5), Some(18)),
            (cr!(0, 0), Some(15)),
            (cr!(0, 5), None),
            (cd!(false, 6), Some(17)),
            (cd!(false, 5), None),
            (cd!(false, 6), None),
            (cd!(false, 7), None),
            (cd!(true, 8), None),
            (r!(1, 12, false, 5), Some(19)),
            (r!(1, 4, false, 6), Some(20)),
        ],
    },
    Case {
        front: &[READ, ASKED, WRITTEN],
        events: &[
            (w!(false, 9), Some(11)),
            (m!(STORED), Some(24)),
            (RESPONSE, Some(26)),
            (w!(true, 8), None),
            (ar!(0, 7, 1), None),
            (g!(0), None),
            (ac!(1), None),
            (cr!(1, 5), Some(16)),
            (m!(OPENED), Some(25)),
            (m!(STORED), None),
            (RESPONSE, None),
            (wk!(UD), Some(28)),
        ],
    },
];

/// The shares hear the events. Whether one of them breaks a rule.
fn do_break(shares: &mut Shares, events: &[Event]) -> bool {
    for event in events {
        if !shares.keeps(event) {
            return true;
        }
        shares.hear(event);
    }
    false
}

/// Where the record of the line stands.
fn place(shares: &Shares) -> Option<usize> {
    shares.lines().place(Some(64))
}

/// No event of the line's way breaks a rule, and in the end memory has what was stored.
#[test]
fn takes_a_line(rt: HostRuntime) -> Result<(), Fail> {
    let mut shares = Shares::new(rt.alloc(), TWO_ACE)?;
    assert!(rt; !shares.lines().knows(place(&shares)) && shares.lines().lines() == 0);
    assert!(rt; !do_break(&mut shares, READ));
    assert!(rt; shares.lines().knows(place(&shares)) && shares.lines().lines() == 1);
    assert!(rt; shares.lines().granted(place(&shares)) == Some((0, Read, 0)));
    assert!(rt; shares.lines().memory(64) == OPENED);
    for events in [ASKED, WRITTEN] {
        assert!(rt; !do_break(&mut shares, events));
    }
    assert!(rt; shares.lines().granted(place(&shares)).is_none());
    assert!(rt; !do_break(&mut shares, ENDED));
    assert!(rt; shares.lines().memory(64) == STORED && shares.lines().lines() == 1);
    Ok(())
}

/// The checker takes these events. Whether none breaks a rule.
fn takes_all(checker: &mut Checker, events: &[Event]) -> Result<bool, Fail> {
    for event in events {
        if checker.feed(event)? != Step::Fine {
            return Ok(false);
        }
    }
    Ok(true)
}

/// A checker that has taken the events in front, and those of the case before the one of this
/// number that break no rule.
fn before(alloc: Global, case: &Case, number: usize) -> Result<Checker, Fail> {
    let mut checker = Checker::new(alloc, TWO_ACE)?;
    for events in case.front {
        let _all = takes_all(&mut checker, events)?;
    }
    for (place, (event, rule)) in case.events.iter().enumerate() {
        if place < number && rule.is_none() {
            let _fine = checker.feed(event)?;
        }
    }
    Ok(checker)
}

/// The rule that the event of the case, which has this number, breaks.
fn rule_of(alloc: Global, case: &Case, number: usize, event: &Event) -> Result<Option<u8>, Fail> {
    let mut checker = before(alloc, case, number)?;
    let step = checker.feed(event)?;
    drop(checker);
    match step {
        Step::Fine => Ok(None),
        Step::Broken { rule, .. } => Ok(Some(rule)),
    }
}

#[test]
fn breaks_rules(rt: HostRuntime) -> Result<(), Fail> {
    for (number, case) in CASES.iter().enumerate() {
        for (place, (event, rule)) in case.events.iter().enumerate() {
            assert_eq!(rt;
                rule_of(rt.alloc(), case, place, event)?,
                *rule,
                "case {number}, event {place}"
            );
        }
    }
    Ok(())
}
