//! An event of each kind that is fine, and one that breaks a rule.

use crate::lines::{ASKED, ENDED, READ, TWO_ACE, WRITTEN};
use ace_check::{Checker, Step};
use ace_codes::LineState;
use ace_event::{Channel, Event, Line, Outcome};
use std::alloc::Global;
use std::test::Fail;

const LINE: Line = Line { words: [0; 4] };

/// Port 0 takes the line that it read, lets it go, and retires its first operation.
const LEFT: &[Event] = &[
    Event::Rk {
        port: 0,
        st: LineState::UC,
    },
    Event::S {
        port: 0,
        addr: 64,
        st: LineState::I,
    },
    Event::Op {
        port: 0,
        k: 0,
        res: Outcome::Ok,
    },
];

/// The number of the event's kind.
fn kind_of(event: &Event) -> usize {
    match event {
        Event::Ar { .. } => 0,
        Event::R { .. } => 1,
        Event::Rk { .. } => 2,
        Event::Aw { .. } => 3,
        Event::W { .. } => 4,
        Event::B { .. } => 5,
        Event::Wk { .. } => 6,
        Event::Ac { .. } => 7,
        Event::Cr { .. } => 8,
        Event::Cd { .. } => 9,
        Event::G { .. } => 10,
        Event::M { .. } => 11,
        Event::L { .. } => 12,
        Event::D { .. } => 13,
        Event::S { .. } => 14,
        Event::Op { .. } => 15,
        Event::Mem { .. } => 16,
    }
}

/// The kinds of the events, each of which is fine after those before it.
fn fine_kinds(alloc: Global, trace: &[&[Event]], kinds: &mut [bool; 17]) -> Result<(), Fail> {
    let mut checker = Checker::new(alloc, TWO_ACE)?;
    for events in trace {
        for event in *events {
            let step = checker.feed(event)?;
            if let Some(kind) = kinds.get_mut(kind_of(event)) {
                *kind = step == Step::Fine;
            }
        }
    }
    drop(checker);
    Ok(())
}

#[test]
fn each_kind_is_fine(rt: HostRuntime) -> Result<(), Fail> {
    let mut kinds = [false; 17];
    fine_kinds(rt.alloc(), &[READ, ASKED, WRITTEN, ENDED], &mut kinds)?;
    fine_kinds(rt.alloc(), &[READ, LEFT], &mut kinds)?;
    assert!(rt; kinds == [true; 17]);
    Ok(())
}

/// An event of each kind, and the rule that it breaks as the first of a trace.
const BROKEN: &[(Event, u8)] = &[
    (
        Event::Ar {
            port: 9,
            id: 0,
            addr: 64,
            snoop: 7,
            dom: 1,
            bar: 0,
            lock: false,
        },
        1,
    ),
    (
        Event::R {
            port: 0,
            id: 0,
            resp: 0,
            last: false,
            word: 0,
        },
        18,
    ),
    (
        Event::Rk {
            port: 0,
            st: LineState::I,
        },
        22,
    ),
    (
        Event::Aw {
            port: 0,
            id: 0,
            addr: 64,
            snoop: 9,
            dom: 1,
            bar: 0,
        },
        2,
    ),
    (
        Event::W {
            port: 0,
            strb: 1,
            last: false,
            word: 0,
        },
        11,
    ),
    (
        Event::B {
            port: 0,
            id: 0,
            resp: 0,
        },
        26,
    ),
    (
        Event::Wk {
            port: 0,
            st: LineState::I,
        },
        27,
    ),
    (
        Event::Ac {
            port: 0,
            addr: 64,
            snoop: 7,
        },
        13,
    ),
    (
        Event::Cr {
            port: 0,
            resp: 0,
            st: LineState::I,
        },
        14,
    ),
    (
        Event::Cd {
            port: 0,
            last: false,
            word: 0,
        },
        17,
    ),
    (
        Event::G {
            port: 0,
            chan: Channel::Read,
            id: 0,
        },
        12,
    ),
    (
        Event::M {
            port: 0,
            chan: Channel::Write,
            id: 0,
            line: LINE,
        },
        24,
    ),
    (
        Event::L {
            port: 0,
            addr: 64,
            w: 0,
            x: false,
            word: 0,
        },
        30,
    ),
    (
        Event::D {
            port: 0,
            addr: 64,
            strobe: 1,
            x: false,
            line: LINE,
        },
        32,
    ),
    (
        Event::S {
            port: 0,
            addr: 64,
            st: LineState::UD,
        },
        29,
    ),
    (
        Event::Op {
            port: 0,
            k: 1,
            res: Outcome::Ok,
        },
        40,
    ),
    (
        Event::Mem {
            addr: 1,
            line: LINE,
        },
        3,
    ),
];

/// What the checker says of the event as the first of a trace, and of the next one after it.
fn first(alloc: Global, event: &Event) -> Result<(Step, Step), Fail> {
    let mut checker = Checker::new(alloc, TWO_ACE)?;
    let step = checker.feed(event)?;
    let again = checker.feed(&READ[0])?;
    drop(checker);
    Ok((step, again))
}

#[test]
fn each_kind_breaks_a_rule(rt: HostRuntime) -> Result<(), Fail> {
    for (number, (event, rule)) in BROKEN.iter().enumerate() {
        let broken = Step::Broken {
            index: 1,
            rule: *rule,
        };
        assert!(rt; kind_of(event) == number, "event {number}");
        assert_eq!(rt;
            first(rt.alloc(), event)?,
            (broken, broken),
            "event {number}"
        );
    }
    Ok(())
}
