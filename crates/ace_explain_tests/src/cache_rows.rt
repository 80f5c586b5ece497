//! For each clause of K29 to K33 a short trace whose last event breaks it: what stands above a row
//! is not so.

use crate::rows::{Row, ar, aw, d, g, l, r, rk, row, s};
use ace_clauses::Letter;
use ace_codes::LineState::{I, SC, UC, UD};
use ace_event::Channel::Read;
use ace_event::{Event, Line};

pub const CACHE_ROWS: &[Row] = &[
    // K29a: the move is UC -> SC, UC -> I, SC -> I or UD -> SD
    row!((1, "PORTS AAALL"), (29, A), [s!(1, 0x1040, I)]),
    // K29b: no move to I while a memory update of the line is outstanding
    row!(
        (1, "PORTS A"),
        (29, B),
        [
            ar!(0, 0, 0x40, 7, 1, 0, false),
            g!(0, Read, 0),
            r!(0, 0, 0, false, 0),
            r!(0, 0, 0, false, 0),
            r!(0, 0, 0, false, 0),
            r!(0, 0, 0, true, 0),
            rk!(0, UC),
            aw!(0, 0, 0x40, 5, 1, 0),
            s!(0, 0x40, I)
        ]
    ),
    // K30a: the port holds the line
    row!(
        (1, "PORTS AA"),
        (30, A),
        [l!(1, 0x40, 2, false, 0x11111111111111111111111111111111)]
    ),
    // K31a: the word is that of the port's copy
    row!(
        (1, "PORTS AA"),
        (31, A),
        [
            ar!(1, 0, 0x40, 7, 1, 0, false),
            g!(1, Read, 0),
            r!(1, 0, 0, false, 0),
            r!(1, 0, 0, false, 0),
            r!(1, 0, 0, false, 0),
            r!(1, 0, 0, true, 0),
            rk!(1, UC),
            l!(1, 0x40, 2, false, 0x11111111111111111111111111111111)
        ]
    ),
    // K32a: the line is in UC or UD
    row!(
        (1, "PORTS A"),
        (32, A),
        [d!(
            0,
            0x40,
            0x7fffffffffffffff,
            false,
            Line {
                words: [
                    0x33333333333333333333333333333333,
                    0x33333333333333333333333333333333,
                    0x33333333333333333333333333333333,
                    0x33333333333333333333333333333333
                ]
            }
        )]
    ),
    // K32b: no transaction of the port on the line is outstanding
    row!(
        (1, "PORTS A"),
        (32, B),
        [
            ar!(0, 1, 0x40, 2, 2, 0, false),
            g!(0, Read, 1),
            r!(0, 1, 0, false, 0),
            r!(0, 1, 0, false, 0),
            r!(0, 1, 0, false, 0),
            r!(0, 1, 0, true, 0),
            rk!(0, UC),
            d!(
                0,
                0x40,
                0xffff000000000000,
                false,
                Line {
                    words: [
                        0xd1d1d1d1d1d1d1d1d1d1d1d1d1d1d1d1,
                        0xd1d1d1d1d1d1d1d1d1d1d1d1d1d1d1d1,
                        0xd1d1d1d1d1d1d1d1d1d1d1d1d1d1d1d1,
                        0xd1d1d1d1d1d1d1d1d1d1d1d1d1d1d1d1
                    ]
                }
            ),
            aw!(0, 2, 0x40, 3, 1, 0),
            d!(
                0,
                0x40,
                u64::MAX,
                false,
                Line {
                    words: [
                        0x1e1e1e1e1e1e1e1e1e1e1e1e1e1e1e1e,
                        0x1f1f1f1f1f1f1f1f1f1f1f1f1f1f1f1f,
                        0x20202020202020202020202020202020,
                        0x21212121212121212121212121212121
                    ]
                }
            )
        ]
    ),
    // K32c: a MakeUnique has one store
    row!(
        (1, "PORTS A"),
        (32, C),
        [
            ar!(0, 0, 0x40, 0xc, 1, 0, false),
            g!(0, Read, 0),
            r!(0, 0, 0, true, 0),
            d!(
                0,
                0x40,
                u64::MAX,
                false,
                Line {
                    words: [
                        0x11111111111111111111111111111111,
                        0x11111111111111111111111111111111,
                        0x11111111111111111111111111111111,
                        0x11111111111111111111111111111111
                    ]
                }
            ),
            d!(
                0,
                0x40,
                u64::MAX,
                false,
                Line {
                    words: [
                        0x22222222222222222222222222222222,
                        0x22222222222222222222222222222222,
                        0x22222222222222222222222222222222,
                        0x22222222222222222222222222222222
                    ]
                }
            )
        ]
    ),
    // K32d: the store of a MakeUnique is not exclusive
    row!(
        (2, "PORTS ALAAL"),
        (32, D),
        [
            ar!(0, 1, 0x40, 0xc, 2, 2, false),
            g!(0, Read, 1),
            r!(0, 1, 0, true, 0),
            d!(
                0,
                0x40,
                u64::MAX,
                true,
                Line {
                    words: [
                        0xf5f5f5f5f5f5f5f5f5f5f5f5f5f5f5f5,
                        0xf5f5f5f5f5f5f5f5f5f5f5f5f5f5f5f5,
                        0xf5f5f5f5f5f5f5f5f5f5f5f5f5f5f5f5,
                        0xf5f5f5f5f5f5f5f5f5f5f5f5f5f5f5f5
                    ]
                }
            )
        ]
    ),
    // K32e: the store of a MakeUnique writes the whole line
    row!(
        (1, "PORTS A"),
        (32, E),
        [
            ar!(0, 0, 0x40, 0xc, 1, 0, false),
            g!(0, Read, 0),
            r!(0, 0, 0, true, 0),
            d!(
                0,
                0x40,
                0x7fffffffffffffff,
                false,
                Line {
                    words: [
                        0x33333333333333333363333333333333,
                        0x33333333333333333333333333333333,
                        0x33333333333333333333333333333333,
                        0x33333333333333333333333333333333
                    ]
                }
            )
        ]
    ),
    // K33a: the port has made an exclusive load
    row!(
        (1, "PORTS AAA"),
        (33, A),
        [
            ar!(1, 7, 0xfffff040, 0xc, 1, 0, false),
            g!(1, Read, 7),
            r!(1, 7, 0, true, 0),
            d!(
                1,
                0xfffff040,
                u64::MAX,
                false,
                Line {
                    words: [
                        0xdddddddddddddddddddddddddddddddd,
                        0xdededededededededededededededede,
                        0xdfdfdfdfdfdfdfdfdfdfdfdfdfdfdfdf,
                        0xe0e0e0e0e0e0e0e0e0e0e0e0e0e0e0e0
                    ]
                }
            ),
            rk!(1, UD),
            d!(
                1,
                0xfffff040,
                0xffff00000000,
                true,
                Line {
                    words: [
                        0x5e5e5e5e5e5e5e5e5e5e5e5e5e5e5e5e,
                        0x5e5e5e5e5e5e5e5e5e5e5e5e5e5e5e5e,
                        0x5e5e5e5e5e5e5e5e5e5e5e5e5e5e5e5e,
                        0x5e5e5e5e5e5e5e5e5e5e5e5e5e5e5e5e
                    ]
                }
            )
        ]
    ),
    // K33b: its last exclusive load was of this line
    row!(
        (1, "PORTS A"),
        (33, B),
        [
            ar!(0, 0, 0x40, 0xc, 1, 0, false),
            g!(0, Read, 0),
            r!(0, 0, 0, true, 0),
            d!(
                0,
                0x40,
                u64::MAX,
                false,
                Line {
                    words: [
                        0x11111111111111111111111111111111,
                        0x11111111111111111111111111111111,
                        0x11111111111111111111111111111111,
                        0x11111111111111111111111111111111
                    ]
                }
            ),
            rk!(0, UD),
            l!(0, 0x40, 0, true, 0x11111111111111111111111111111111),
            ar!(0, 0, 0x80, 0xc, 1, 0, false),
            g!(0, Read, 0),
            r!(0, 0, 0, true, 0),
            d!(
                0,
                0x80,
                u64::MAX,
                false,
                Line {
                    words: [
                        0x11111111111111111111111111111111,
                        0x11111111111111111111111111111111,
                        0x11111111111111111111111111111111,
                        0x11111111111111111111111111111111
                    ]
                }
            ),
            rk!(0, UD),
            d!(
                0,
                0x80,
                u64::MAX,
                true,
                Line {
                    words: [
                        0x01010101010101010101010101010101,
                        0x01010101010101010101010101010101,
                        0x01010101010101010101010101010101,
                        0x01010101010101010101010101010101
                    ]
                }
            )
        ]
    ),
    // K33c: it has made no exclusive store since
    row!(
        (1, "PORTS AA"),
        (33, C),
        [
            ar!(0, 0, 0x40, 1, 1, 0, true),
            g!(0, Read, 0),
            r!(0, 0, 1, false, 0),
            r!(0, 0, 1, false, 0),
            r!(0, 0, 1, false, 0),
            r!(0, 0, 1, true, 0),
            rk!(0, SC),
            l!(0, 0x40, 0, true, 0),
            ar!(0, 0, 0x40, 0xb, 1, 0, true),
            g!(0, Read, 0),
            r!(0, 0, 1, true, 0),
            rk!(0, UC),
            d!(
                0,
                0x40,
                0xffff,
                true,
                Line {
                    words: [0x55555555555555555555555555555555, 0, 0, 0]
                }
            ),
            d!(
                0,
                0x40,
                0xffff,
                true,
                Line {
                    words: [0x55555555555555555555555555555555, 0, 0, 0]
                }
            )
        ]
    ),
    // K33d: it has held the line ever since
    row!(
        (1, "PORTS A"),
        (33, D),
        [
            ar!(0, 0, 0x40, 7, 1, 0, false),
            g!(0, Read, 0),
            r!(0, 0, 0, false, 0),
            r!(0, 0, 0, false, 0),
            r!(0, 0, 0, false, 0),
            r!(0, 0, 0, true, 0),
            rk!(0, UC),
            l!(0, 0x40, 0, true, 0),
            s!(0, 0x40, I),
            ar!(0, 0, 0x40, 0xc, 1, 0, false),
            g!(0, Read, 0),
            r!(0, 0, 0, true, 0),
            d!(
                0,
                0x40,
                u64::MAX,
                false,
                Line {
                    words: [
                        0x11111111111111111111111111111111,
                        0x11111111111111111111111111111111,
                        0x11111111111111111111111111111111,
                        0x11111111111111111111111111111111
                    ]
                }
            ),
            rk!(0, UD),
            d!(
                0,
                0x40,
                u64::MAX,
                true,
                Line {
                    words: [
                        0x01010101010101010101010101010101,
                        0x01010101010101010101010101010101,
                        0x01010101010101010101010101010101,
                        0x01010101010101010101010101010101
                    ]
                }
            )
        ]
    ),
];
