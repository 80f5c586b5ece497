//! Short traces of barriers.

use crate::cases::Ports::{AceAndLite, TwoAce};
use crate::cases::{Case, GET, after_get, alone, ar, aw, b, g, r, read, rk};
use ace_codes::LineState::I;
use ace_event::Channel::Read;
use ace_event::Event;

/// Halves of barriers: a pair that completes before the next begins, one of an ACE-Lite port, and
/// what breaks a rule.
pub const BARRIER_ADDRESSES: &[Case] = &[
    alone!(
        TwoAce,
        [
            ar!(0, 0, 0, 0, 1, 1, false),
            aw!(0, 0, 0, 0, 1, 1),
            r!(0, 0, 0, true),
            rk!(0, I),
            b!(0, 0, 0),
            Event::Wk { port: 0, st: I },
            aw!(0, 0, 0, 0, 0, 3),
            ar!(0, 0, 0, 0, 0, 3, false)
        ],
        None
    ),
    alone!(
        AceAndLite,
        [aw!(1, 0, 0, 0, 1, 1), ar!(1, 0, 0, 0, 1, 1, false)],
        None
    ),
    alone!(TwoAce, [aw!(2, 0, 0, 0, 1, 1)], Some((1, 1))),
    alone!(
        TwoAce,
        [read!(0, 0, 64), ar!(0, 0, 0, 0, 1, 1, false)],
        Some((2, 4))
    ),
    alone!(TwoAce, [ar!(0, 0, 0, 0, 1, 1, true)], Some((1, 7))),
    alone!(TwoAce, [aw!(0, 0, 64, 0, 1, 1)], Some((1, 9))),
    alone!(
        TwoAce,
        [ar!(0, 0, 0, 0, 1, 1, false), aw!(0, 0, 0, 0, 1, 3)],
        Some((2, 9))
    ),
    alone!(
        TwoAce,
        [
            ar!(0, 0, 0, 0, 1, 1, false),
            aw!(0, 0, 0, 0, 1, 1),
            ar!(0, 1, 0, 0, 1, 1, false)
        ],
        Some((3, 9))
    ),
    alone!(
        TwoAce,
        [ar!(0, 0, 0, 0, 1, 1, false), r!(0, 0, 0, true)],
        Some((2, 34))
    ),
];

/// The halves of a barrier by port 0, under identifier 1.
macro_rules! read_half {
    ($bar:expr) => { ar!(0, 1, 0, 0, 1, $bar, false) };
}

macro_rules! write_half {
    ($bar:expr) => { aw!(0, 1, 0, 0, 1, $bar) };
}

/// The answers to barriers, with nothing before them and after a read that isn't ordered or isn't
/// complete.
pub const BARRIER_ANSWERS: &[Case] = &[
    alone!(
        TwoAce,
        [
            read_half!(1),
            write_half!(1),
            r!(0, 1, 0, true),
            b!(0, 1, 0),
            rk!(0, I),
            Event::Wk { port: 0, st: I },
            write_half!(3),
            read_half!(3),
            b!(0, 1, 0),
            r!(0, 1, 0, true)
        ],
        None
    ),
    alone!(TwoAce, [read_half!(1), r!(0, 1, 0, true)], Some((2, 34))),
    alone!(TwoAce, [write_half!(1), b!(0, 1, 0)], Some((2, 34))),
    alone!(
        TwoAce,
        [read_half!(1), write_half!(1), r!(0, 1, 1, true)],
        Some((3, 21))
    ),
    alone!(
        TwoAce,
        [read_half!(1), write_half!(1), r!(0, 1, 0, false)],
        Some((3, 18))
    ),
    alone!(
        TwoAce,
        [read_half!(1), write_half!(1), b!(0, 1, 1)],
        Some((3, 26))
    ),
    alone!(
        TwoAce,
        [
            read!(0, 0, 64),
            read_half!(1),
            write_half!(1),
            r!(0, 1, 0, true)
        ],
        Some((4, 34))
    ),
    alone!(
        TwoAce,
        [read!(0, 0, 64), read_half!(1), write_half!(1), b!(0, 1, 0)],
        Some((4, 34))
    ),
    alone!(
        TwoAce,
        [
            read!(0, 0, 64),
            read_half!(1),
            write_half!(1),
            g!(0, Read, 0),
            r!(0, 1, 0, true),
            b!(0, 1, 0)
        ],
        None
    ),
    alone!(
        TwoAce,
        [
            read!(0, 0, 64),
            read_half!(3),
            write_half!(3),
            g!(0, Read, 0),
            b!(0, 1, 0)
        ],
        Some((5, 34))
    ),
    after_get!(
        AceAndLite,
        [
            read_half!(3),
            write_half!(3),
            b!(0, 1, 0),
            r!(0, 1, 0, true)
        ],
        None
    ),
];
