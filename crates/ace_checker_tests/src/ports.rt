// A trace of an ACE port and an ACE-Lite port, and events that break a rule at some point of it,
// written out by hand.

use ace_codes::{LineState, read_ar, read_aw};
use ace_event::{Channel, Event, Header, Line, Outcome};
use ace_model::kinds::read_kind;
use ace_portck::{PortCheck, Progress, issued};
use std::alloc::Global;
use std::test::Fail;

const HEADER: Header = Header {
    version: 1,
    ports: 2,
    ace: 0b01,
};

const ZEROS: Line = Line { words: [0; 4] };

macro_rules! ar {
    ($port:expr, $id:expr, $addr:expr, $snoop:expr, $lock:expr) => {
        Event::Ar { port: $port, id: $id, addr: $addr, snoop: $snoop, dom: 1, bar: 0, lock: $lock }
    };
}

macro_rules! aw {
    ($port:expr, $id:expr, $addr:expr, $snoop:expr) => {
        Event::Aw { port: $port, id: $id, addr: $addr, snoop: $snoop, dom: 1, bar: 0 }
    };
}

macro_rules! r {
    ($id:expr, $last:expr) => { Event::R { port: 0, id: $id, resp: 0, last: $last, word: 0 } };
}

macro_rules! b {
    ($port:expr, $id:expr, $resp:expr) => { Event::B { port: $port, id: $id, resp: $resp } };
}

macro_rules! w {
    ($port:expr, $last:expr) => { Event::W { port: $port, strb: 0xffff, last: $last, word: 7 } };
}

macro_rules! op {
    ($k:expr) => { Event::Op { port: 0, k: $k, res: Outcome::Ok } };
}

/// A checker that has heard these events, none of which is a snoop.
fn after(alloc: Global, events: &[Event]) -> Option<PortCheck> {
    let Ok(mut check) = PortCheck::new(alloc, HEADER) else {
        return None;
    };
    for event in events {
        check.hear(event);
    }
    Some(check)
}

/// The rule that an R breaks.
fn rule_of_r(check: &PortCheck, port: u8, id: u8, resp: u8, last: bool) -> Option<u8> {
    let Some(x) = check.outstanding(port, Channel::Read, id) else {
        return Some(check.rule_of_no_r(port, resp));
    };
    let kind = read_kind(&x.transaction)?;
    check.rule_of_r(port, x, kind, resp, last)
}

/// The rule that a B breaks.
fn rule_of_b(check: &PortCheck, port: u8, id: u8, resp: u8) -> Option<u8> {
    match check.outstanding(port, Channel::Write, id) {
        None => Some(check.rule_of_no_b(port, resp)),
        Some(x) => check.rule_of_b(port, x, resp),
    }
}

/// The rule that the event breaks.
fn rule_of(check: &PortCheck, event: Event) -> Option<u8> {
    match event {
        Event::Ar {
            port,
            id,
            addr,
            snoop,
            dom,
            bar,
            lock,
        } => check.rule_of_ar(port, id, addr, read_ar(snoop, dom, bar), lock),
        Event::Aw {
            port,
            id,
            addr,
            snoop,
            dom,
            bar,
        } => check.rule_of_aw(port, id, addr, read_aw(snoop, dom, bar)),
        Event::R {
            port,
            id,
            resp,
            last,
            ..
        } => rule_of_r(check, port, id, resp, last),
        Event::B { port, id, resp } => rule_of_b(check, port, id, resp),
        Event::W {
            port,
            strb,
            last,
            ..
        } => check.rule_of_w(port, strb, last),
        Event::Rk { port, .. } => check.rule_of_rk(port),
        Event::Wk { port, .. } => check.rule_of_wk(port),
        Event::Cr { port, resp, .. } => check.rule_of_cr(port, resp),
        Event::Cd { port, last, .. } => check.rule_of_cd(port, last),
        Event::Op { port, k, .. } => check.rule_of_op(port, k),
        Event::Mem { addr, .. } => check.rule_of_mem(addr),
        _ => None,
    }
}

/// The rule that the event breaks after these.
fn broken(alloc: Global, events: &[Event], event: Event) -> Option<Option<u8>> {
    let check = after(alloc, events)?;
    let rule = rule_of(&check, event);
    drop(check);
    Some(rule)
}

#[test]
fn makes_room(rt: HostRuntime) -> Result<(), Fail> {
    let mut check = PortCheck::new(rt.alloc(), HEADER)?;
    let holds = check.make_snoop_room(0) == Ok(());
    drop(check);
    assert!(rt; holds);
    Ok(())
}

/// A ReadUnique of line 0x40 and a WriteUnique of line 0x80.
const BEGUN: &[Event] = &[ar!(0, 5, 0x40, 7, false), aw!(0, 5, 0x80, 0)];

const ST: LineState = LineState::I;

/// An event after these, and the rule that it breaks.
const CASES: &[(Event, Option<u8>)] = &[
    (ar!(2, 0, 0x40, 7, false), Some(1)),
    (Event::Rk { port: 1, st: ST }, Some(1)),
    (ar!(1, 0, 0xc0, 7, false), Some(2)),
    (ar!(0, 1, 0xc1, 7, false), Some(3)),
    (
        Event::Mem {
            addr: 0x40,
            line: ZEROS,
        },
        Some(3),
    ),
    (ar!(0, 5, 0xc0, 7, false), Some(4)),
    (ar!(0, 6, 0x40, 7, false), Some(5)),
    (ar!(0, 6, 0x80, 7, false), Some(5)),
    (ar!(0, 6, 0xc0, 7, true), Some(7)),
    (aw!(0, 6, 0xc0, 3), Some(10)),
    (ar!(0, 6, 0xc0, 7, false), None),
    (aw!(1, 5, 0xc0, 0), None),
    (w!(1, false), Some(11)),
    (w!(0, true), Some(11)),
    (w!(0, false), None),
    (
        Event::Cr {
            port: 0,
            resp: 0,
            st: ST,
        },
        Some(14),
    ),
    (
        Event::Cd {
            port: 0,
            last: false,
            word: 0,
        },
        Some(17),
    ),
    (r!(6, false), Some(18)),
    (r!(5, true), Some(18)),
    (r!(5, false), None),
    (Event::Rk { port: 0, st: ST }, Some(22)),
    (b!(0, 5, 1), Some(26)),
    (b!(0, 6, 0), Some(26)),
    (b!(0, 5, 0), None),
    (Event::Wk { port: 0, st: ST }, Some(27)),
    (op!(1), Some(40)),
    (op!(0), None),
];

#[test]
fn breaks_rules(rt: HostRuntime) {
    for (number, (event, rule)) in CASES.iter().enumerate() {
        assert_eq!(rt;
            broken(rt.alloc(), BEGUN, *event),
            Some(*rule),
            "case {number}"
        );
    }
}

/// A ReadUnique of line 0x40, up to its last transfer.
const READ: &[Event] = &[
    ar!(0, 5, 0x40, 7, false),
    Event::G {
        port: 0,
        chan: Channel::Read,
        id: 5,
    },
    r!(5, false),
    r!(5, false),
    r!(5, false),
    r!(5, true),
];

const ACKNOWLEDGE: Event = Event::Rk {
    port: 0,
    st: LineState::UC,
};

/// What is kept of the transaction that the event belongs to.
fn progress(check: &PortCheck, event: Event) -> Option<Progress> {
    match event {
        Event::R { port, id, .. } => check.outstanding(port, Channel::Read, id).copied(),
        Event::G { port, chan, id } => check.outstanding(port, chan, id).copied(),
        Event::Rk { port, .. } => check.acknowledged(port, Channel::Read).copied(),
        Event::L { port, addr, .. } => check.own(port, addr).copied(),
        _ => None,
    }
}

const LOAD: Event = Event::L {
    port: 0,
    addr: 0x40,
    w: 0,
    x: false,
    word: 0,
};

#[test]
fn tells_progress(rt: HostRuntime) {
    // after how many of them, the event, and its transaction's place, transfers, completion and
    // grant
    let cases = [
        (1, READ[1], Some((0, 0, false, false))),
        (2, READ[2], Some((0, 0, false, true))),
        (3, LOAD, Some((0, 1, false, true))),
        (5, READ[5], Some((0, 3, false, true))),
        (5, ACKNOWLEDGE, None),
        (6, ACKNOWLEDGE, Some((0, 4, true, true))),
        (6, r!(6, false), None),
    ];
    for (count, event, told) in cases {
        let found = after(rt.alloc(), &READ[..count])
            .and_then(|check| progress(&check, event))
            .map(|x| (x.transaction.place, x.transfers, x.complete, x.granted));
        assert_eq!(rt; found, told);
    }
    let begun = after(rt.alloc(), &[])
        .and_then(|check| issued(check.place(), &READ[0]))
        .map(|x| (x.place, x.port, x.addr));
    assert_eq!(rt; begun, Some((0, 0, 0x40)));
}
