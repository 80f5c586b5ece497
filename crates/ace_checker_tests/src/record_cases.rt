//! Short traces of records that nothing came before, and of names that no text has.

use crate::cases::Ports::TwoAce;
use crate::cases::{Case, alone, ar, g, read};
use ace_codes::LineState::I;
use ace_event::Channel::{Read, Write};
use ace_event::{Event, Line, Outcome};

/// Identifiers that no text has are names like any other.
pub const LARGE_IDENTIFIERS: &[Case] = &[
    alone!(
        TwoAce,
        [read!(0, 200, 64), read!(0, 200, 128)],
        Some((2, 4))
    ),
    alone!(TwoAce, [read!(0, 255, 64), g!(0, Read, 254)], Some((2, 12))),
    alone!(TwoAce, [read!(0, 255, 64), g!(0, Read, 255)], None),
];

const ZEROS: Line = Line { words: [0; 4] };

/// Each record where nothing came before it that it could belong to.
pub const RECORDS_OF_NOTHING: &[Case] = &[
    alone!(
        TwoAce,
        [Event::Aw {
            port: 0,
            id: 0,
            addr: 64,
            snoop: 3,
            dom: 1,
            bar: 0,
        }],
        Some((1, 6))
    ),
    alone!(
        TwoAce,
        [Event::W {
            port: 0,
            strb: 65535,
            last: false,
            word: 0,
        }],
        Some((1, 11))
    ),
    alone!(
        TwoAce,
        [Event::B {
            port: 0,
            id: 0,
            resp: 0,
        }],
        Some((1, 26))
    ),
    alone!(TwoAce, [Event::Wk { port: 0, st: I }], Some((1, 27))),
    alone!(
        TwoAce,
        [Event::Cd {
            port: 0,
            last: false,
            word: 0,
        }],
        Some((1, 17))
    ),
    alone!(
        TwoAce,
        [Event::M {
            port: 0,
            chan: Write,
            id: 0,
            line: ZEROS,
        }],
        Some((1, 24))
    ),
    alone!(
        TwoAce,
        [Event::S {
            port: 0,
            addr: 64,
            st: I,
        }],
        Some((1, 29))
    ),
    alone!(
        TwoAce,
        [Event::L {
            port: 0,
            addr: 64,
            w: 0,
            x: false,
            word: 0,
        }],
        Some((1, 30))
    ),
    alone!(
        TwoAce,
        [Event::D {
            port: 0,
            addr: 64,
            strobe: 1,
            x: false,
            line: ZEROS,
        }],
        Some((1, 32))
    ),
    alone!(
        TwoAce,
        [Event::Op {
            port: 0,
            k: 1,
            res: Outcome::Ok,
        }],
        Some((1, 40))
    ),
    alone!(
        TwoAce,
        [Event::Mem {
            addr: 64,
            line: ZEROS
        }],
        Some((1, 3))
    ),
];
