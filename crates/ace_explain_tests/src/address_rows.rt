//! For each clause of K1 to K10 a short trace whose last event breaks it: what stands above a row
//! is not so.

use crate::rows::{Row, ac, ar, aw, cr, d, g, l, mem, op, r, rk, row};
use ace_clauses::Letter;
use ace_codes::LineState::{I, UC, UD};
use ace_event::Channel::Read;
use ace_event::Outcome::Ok;
use ace_event::{Event, Line};

pub const ADDRESS_ROWS: &[Row] = &[
    // K1a: the port is one of the header
    row!((1, "PORTS AA"), (1, A), [g!(2, Read, 0)]),
    // K1b: RK, WK, AC, CR, CD, S, L and D are of an ACE port
    row!((1, "PORTS ALAL"), (1, B), [l!(3, 0xfffff000, 0, false, 0)]),
    // K2a: snoop, domain and bar together have a kind
    row!((1, "PORTS AA"), (2, A), [ar!(1, 0, 0x40, 1, 3, 0, false)]),
    // K2b: the port may issue that kind
    row!((1, "PORTS LAAAA"), (2, B), [aw!(0, 1, 0x8080, 4, 1, 0)]),
    // K2c: the low two bits of a response are 0 or 1
    row!((1, "PORTS AA"), (2, C), [r!(0, 0, 0xb, true, 0)]),
    // K2d: the Error bit of a CR is 0
    row!((2, "PORTS AA"), (2, D), [cr!(0, 0xe, I)]),
    // K3a: the address of a line is a multiple of 64
    row!((1, "PORTS AA"), (3, A), [ac!(1, 0x1001, 3)]),
    // K3b: MEM stands in a trace of version 2
    row!(
        (1, "PORTS A"),
        (3, B),
        [mem!(
            0x40,
            Line {
                words: [0, 0, 0, 0]
            }
        )]
    ),
    // K3c: MEM stands after no other event
    row!(
        (2, "PORTS A"),
        (3, C),
        [
            op!(0, 0, Ok),
            mem!(
                0x40,
                Line {
                    words: [
                        0xaaaaaaaaaaaaaaaaaaaaaaaaaaaaaaaa,
                        0xaaaaaaaaaaaaaaaaaaaaaaaaaaaaaaaa,
                        0xaaaaaaaaaaaaaaaaaaaaaaaaaaaaaaaa,
                        0xaaaaaaaaaaaaaaaaaaaaaaaaaaaaaaaa
                    ]
                }
            )
        ]
    ),
    // K3d: MEM records have ascending addresses
    row!(
        (2, "PORTS AA"),
        (3, D),
        [
            mem!(
                0x2040,
                Line {
                    words: [
                        0x50505050505050505050505050505050,
                        0x50505050505050505050505050505050,
                        0x50505050505050505050505050505050,
                        0x50505050505050505050505050505050
                    ]
                }
            ),
            mem!(
                0x2040,
                Line {
                    words: [
                        0x50505050505050505050505050505050,
                        0x50505050505050505050505050505050,
                        0x50505050505050505050505050505050,
                        0x50505050505050505050505050505050
                    ]
                }
            )
        ]
    ),
    // K4a: no transaction of this port, channel and identifier is outstanding
    row!(
        (1, "PORTS L"),
        (4, A),
        [
            ar!(0, 0, 0x40, 8, 2, 0, false),
            ar!(0, 0, 0x40, 8, 2, 0, false)
        ]
    ),
    // K5a: no transaction of this port on this line is outstanding
    row!(
        (1, "PORTS L"),
        (5, A),
        [ar!(0, 0, 0x40, 8, 2, 0, false), aw!(0, 1, 0x40, 1, 1, 0)]
    ),
    // K6a: the port's state of the line is a start state of the kind
    row!(
        (1, "PORTS AA"),
        (6, A),
        [
            ar!(0, 0, 0x40, 7, 1, 0, false),
            g!(0, Read, 0),
            r!(0, 0, 0, false, 0),
            r!(0, 0, 0, false, 0),
            r!(0, 0, 0, false, 0),
            r!(0, 0, 0, true, 0),
            rk!(0, UC),
            ar!(0, 0, 0x40, 7, 1, 0, false)
        ]
    ),
    // K7a: only ReadShared, ReadClean and CleanUnique are exclusive
    row!(
        (1, "PORTS LALAA"),
        (7, A),
        [ar!(1, 0, 0x1000, 0, 0, 0, true)]
    ),
    // K7b: only an ACE port issues an exclusive transaction
    row!((1, "PORTS LAA"), (7, B), [ar!(0, 1, 0x40, 9, 1, 0, true)]),
    // K8a: all transactions of a line are NoSnoop, or none is
    row!(
        (2, "PORTS AAA"),
        (8, A),
        [
            ar!(0, 0, 0x40, 9, 1, 0, false),
            ar!(1, 0xf, 0x40, 0, 3, 2, false)
        ]
    ),
    // K9a: a barrier has address 0
    row!((2, "PORTS AA"), (9, A), [aw!(1, 0xf, 0x1080, 0, 2, 3)]),
    // K9b: each earlier barrier pair was issued whole
    row!(
        (1, "PORTS A"),
        (9, B),
        [ar!(0, 0, 0, 0, 0, 1, false), ar!(0, 1, 0, 0, 0, 1, false)]
    ),
    // K9c: each earlier barrier pair is answered
    row!(
        (1, "PORTS LA"),
        (9, C),
        [
            aw!(1, 1, 0, 0, 0, 1),
            ar!(1, 7, 0, 0, 0, 1, false),
            aw!(1, 3, 0, 0, 1, 1)
        ]
    ),
    // K9d: the halves of a pair have one bar and domain
    row!(
        (1, "PORTS A"),
        (9, D),
        [ar!(0, 0, 0, 0, 0, 1, false), aw!(0, 0, 0, 0, 0, 3)]
    ),
    // K9e: the word of a first part is an operation
    row!(
        (1, "PORTS AA"),
        (9, E),
        [ar!(0, 0, 0xc001, 0xf, 1, 0, false)]
    ),
    // K9f: a Sync comes after the completion of the port's last Sync
    row!(
        (1, "PORTS AAAL"),
        (9, F),
        [
            ar!(0, 0, 0xc000, 0xf, 2, 0, false),
            ar!(0, 1, 0xc000, 0xf, 1, 2, false)
        ]
    ),
    // K9g: a second part has the domain and bar of its first
    row!(
        (1, "PORTS AA"),
        (9, G),
        [
            ar!(0, 0, 0x1001, 0xf, 1, 0, false),
            ar!(0, 1, 0x12345678, 0xf, 2, 0, false)
        ]
    ),
    // K9h: a DVM Complete has address 0
    row!(
        (1, "PORTS AAA"),
        (9, H),
        [ar!(1, 0, 0x1000, 0xe, 1, 0, false)]
    ),
    // K10a: a memory update or Evict is issued with no WriteUnique or WriteLineUnique of the port
    // outstanding
    row!(
        (1, "PORTS A"),
        (10, A),
        [
            ar!(0, 0, 0x40, 0xc, 1, 0, false),
            g!(0, Read, 0),
            r!(0, 0, 0, true, 0),
            d!(
                0,
                0x40,
                u64::MAX,
                false,
                Line {
                    words: [
                        0x11111111111111111111111111111111,
                        0x11111111111111111111111111111111,
                        0x11111111111111111111111111111111,
                        0x11111111111111111111111111111111
                    ]
                }
            ),
            rk!(0, UD),
            aw!(0, 1, 0x80, 0, 1, 0),
            aw!(0, 0, 0x40, 3, 1, 0)
        ]
    ),
    // K10b: a WriteUnique or WriteLineUnique is issued with no memory update or Evict of the port
    // outstanding
    row!(
        (1, "PORTS A"),
        (10, B),
        [
            ar!(0, 0, 0x40, 0xc, 1, 0, false),
            g!(0, Read, 0),
            r!(0, 0, 0, true, 0),
            d!(
                0,
                0x40,
                u64::MAX,
                false,
                Line {
                    words: [
                        0x11111111111111111111111111111111,
                        0x11111111111111111111111111111111,
                        0x11111111111111111111111111111111,
                        0x11111111111111111111111111111111
                    ]
                }
            ),
            rk!(0, UD),
            aw!(0, 0, 0x40, 3, 1, 0),
            aw!(0, 1, 0x80, 0, 1, 0)
        ]
    ),
];
