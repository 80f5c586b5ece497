//! For each clause of K24 to K28 a short trace whose last event breaks it: what stands above a row
//! is not so.

use crate::rows::{Row, ac, ar, aw, b, cd, cr, d, g, m, r, rk, row, w, wk};
use ace_clauses::Letter;
use ace_codes::LineState::{I, SC, SD, UC, UD};
use ace_event::Channel::{Read, Write};
use ace_event::{Event, Line};

pub const WRITE_ROWS: &[Row] = &[
    // K24a: the M names an outstanding transaction with data
    row!(
        (1, "PORTS LAAA"),
        (24, A),
        [m!(
            2,
            Write,
            1,
            Line {
                words: [0, 0, 0, 0]
            }
        )]
    ),
    // K24b: a read for which memory is written was passed a dirty line under its grant
    row!(
        (1, "PORTS AA"),
        (24, B),
        [
            ar!(1, 0, 0x40, 2, 1, 0, false),
            m!(
                1,
                Read,
                0,
                Line {
                    words: [
                        0x11111111111111111111111111111111,
                        0x11111111111111111111111111111111,
                        0x11111111111111111111111111111111,
                        0x11111111111111111111111111111111
                    ]
                }
            )
        ]
    ),
    // K24c: the passed line is whole
    row!(
        (1, "PORTS AA"),
        (24, C),
        [
            ar!(0, 0, 0x40, 7, 1, 0, false),
            g!(0, Read, 0),
            r!(0, 0, 0, false, 0),
            r!(0, 0, 0, false, 0),
            r!(0, 0, 0, false, 0),
            r!(0, 0, 0, true, 0),
            rk!(0, UC),
            d!(
                0,
                0x40,
                u64::MAX,
                false,
                Line {
                    words: [
                        0x11111111111111111111111111111111,
                        0x11111111111111111111111111111111,
                        0x11111111111111111111111111111111,
                        0x11111111111111111111111111111111
                    ]
                }
            ),
            ar!(1, 0, 0x40, 2, 1, 0, false),
            g!(1, Read, 0),
            ac!(0, 0x40, 2),
            cr!(0, 0xd, SC),
            m!(
                1,
                Read,
                0,
                Line {
                    words: [
                        0x11111111111111111111111111111111,
                        0x11111111111111111111111111111111,
                        0x11111111111111111111111111111111,
                        0x11111111111111111111111111111111
                    ]
                }
            )
        ]
    ),
    // K24d: the read has had no transfer
    row!(
        (1, "PORTS AA"),
        (24, D),
        [
            ar!(1, 0, 0x40, 0xc, 1, 0, false),
            g!(1, Read, 0),
            r!(1, 0, 0, true, 0),
            d!(
                1,
                0x40,
                u64::MAX,
                false,
                Line {
                    words: [
                        0x11111111111111111111111111111111,
                        0x11111111111111111111111111111111,
                        0x11111111111111111111111111111111,
                        0x11111111111111111111111111111111
                    ]
                }
            ),
            rk!(1, UD),
            ar!(0, 0, 0x40, 7, 1, 0, false),
            g!(0, Read, 0),
            ac!(1, 0x40, 7),
            cr!(1, 5, I),
            cd!(1, false, 0x11111111111111111111111111111111),
            cd!(1, false, 0x11111111111111111111111111111111),
            cd!(1, false, 0x11111111111111111111111111111111),
            cd!(1, true, 0x11111111111111111111111111111111),
            r!(0, 0, 4, false, 0x11111111111111111111111111111111),
            m!(
                0,
                Read,
                0,
                Line {
                    words: [
                        0x11111111111111111111111111111111,
                        0x11111111111111111111111111111111,
                        0x11111111111111111111111111111111,
                        0x11111111111111111111111111111111
                    ]
                }
            )
        ]
    ),
    // K24e: the data of the write are whole
    row!(
        (1, "PORTS AA"),
        (24, E),
        [
            aw!(0, 3, 0x40, 1, 1, 2),
            m!(
                0,
                Write,
                3,
                Line {
                    words: [
                        0xe9e9e9e9e9e9e9e9e9e9e9e9e9e9e9e9,
                        0x1e1e1e1e1e1e1e1e1e1e1e1e1e1e1e1e,
                        0x94949494949494949494949494949494,
                        0x71717171717171717171717171717171
                    ]
                }
            )
        ]
    ),
    // K24f: the write is granted
    row!(
        (1, "PORTS AAAAA"),
        (24, F),
        [
            aw!(3, 3, 0x1000, 0, 3, 0),
            w!(3, 1, false, 0xdbdbdbdbdbdbdbdbdbdbdbdbdbdbdbdb),
            w!(3, 0xffff, false, 0xfdfdfdfdfdfdfdfdfdfdfdfdfdfdfdfd),
            w!(3, 0xff0, false, 0xb9b9b9b9b9b9b9b9b9b9b9b9b9b9b9b9),
            w!(3, 0, true, 0xb3b3b3b3b3b3b3b3b3b3b3b3b3b3b3b3),
            m!(
                3,
                Write,
                3,
                Line {
                    words: [
                        0xdb000000000000000000000000000000,
                        0xfdfdfdfdfdfdfdfdfdfdfdfdfdfdfdfd,
                        0xb9b9b9b9b9b9b9b900000000,
                        0
                    ]
                }
            )
        ]
    ),
    // K24g: the snoops of the write are done
    row!(
        (1, "PORTS LAA"),
        (24, G),
        [
            aw!(0, 3, 0xfffff080, 0, 1, 0),
            g!(0, Write, 3),
            w!(0, 0xffff, false, 0xaaaaaaaaaaaaaaaaaaaaaaaaaaaaaaaa),
            w!(0, 0xff0, false, 0x8d8d8d8d8d8d8d8d8d8d8d8d8d8d8d8d),
            w!(0, 0, false, 0x91919191919191919191919191919191),
            w!(0, 0xffff, true, 0xdadadadadadadadadadadadadadadada),
            ac!(2, 0xfffff080, 9),
            m!(
                0,
                Write,
                3,
                Line {
                    words: [
                        0xaaaaaaaaaaaaaaaaaaaaaaaaaaaaaaaa,
                        0x8d8d8d8d8d8d8d8d00000000,
                        0,
                        0xdadadadadadadadadadadadadadadada
                    ]
                }
            )
        ]
    ),
    // K24h: the write has had no M
    row!(
        (1, "PORTS A"),
        (24, H),
        [
            aw!(0, 0, 0x2000, 1, 1, 0),
            aw!(0, 2, 0x1000, 1, 1, 0),
            g!(0, Write, 2),
            w!(0, 0xffff, false, 0x09090909090909090909090909090909),
            w!(0, 0xffff, false, 0xa9a9a9a9a9a9a9a9a9a9a9a9a9a9a9a9),
            w!(0, 0xffff, false, 0x3d3d3d3d3d3d3d3d3d3d3d3d3d3d3d3d),
            w!(0, 0xffff, true, 0x10101010101010101010101010101010),
            w!(0, 0xffff, false, 0x65656565656565656565656565656565),
            w!(0, 0xffff, false, 0xcdcdcdcdcdcdcdcdcdcdcdcdcdcdcdcd),
            w!(0, 0xffff, false, 0x7d7d7d7d7d7d7d7d7d7d7d7d7d7d7d7d),
            w!(0, 0xffff, true, 0x47474747474747474747474747474747),
            m!(
                0,
                Write,
                2,
                Line {
                    words: [
                        0x65656565656565656565656565656565,
                        0xcdcdcdcdcdcdcdcdcdcdcdcdcdcdcdcd,
                        0x7d7d7d7d7d7d7d7d7d7d7d7d7d7d7d7d,
                        0x47474747474747474747474747474747
                    ]
                }
            ),
            m!(
                0,
                Write,
                2,
                Line {
                    words: [
                        0x65656565656565656565656565656565,
                        0xcdcdcdcdcdcdcdcdcdcdcdcdcdcdcdcd,
                        0x7d7d7d7d7d7d7d7d7d7d7d7d7d7d7d7d,
                        0x47474747474747474747474747474747
                    ]
                }
            )
        ]
    ),
    // K24i: an update waits while the granted transaction of its line has passed data
    row!(
        (1, "PORTS AA"),
        (24, I),
        [
            ar!(0, 0, 0x40, 7, 1, 0, false),
            g!(0, Read, 0),
            r!(0, 0, 0, false, 0),
            r!(0, 0, 0, false, 0),
            r!(0, 0, 0, false, 0),
            r!(0, 0, 0, true, 0),
            rk!(0, UC),
            d!(
                0,
                0x40,
                u64::MAX,
                false,
                Line {
                    words: [
                        0x11111111111111111111111111111111,
                        0x11111111111111111111111111111111,
                        0x11111111111111111111111111111111,
                        0x11111111111111111111111111111111
                    ]
                }
            ),
            ar!(1, 0, 0x40, 8, 1, 0, false),
            g!(1, Read, 0),
            ac!(0, 0x40, 8),
            cr!(0, 0xd, UC),
            aw!(0, 0, 0x40, 5, 1, 0),
            w!(0, 0xffff, false, 0x11111111111111111111111111111111),
            w!(0, 0xffff, false, 0x11111111111111111111111111111111),
            w!(0, 0xffff, false, 0x11111111111111111111111111111111),
            w!(0, 0xffff, true, 0x11111111111111111111111111111111),
            m!(
                0,
                Write,
                0,
                Line {
                    words: [
                        0x11111111111111111111111111111111,
                        0x11111111111111111111111111111111,
                        0x11111111111111111111111111111111,
                        0x11111111111111111111111111111111
                    ]
                }
            )
        ]
    ),
    // K25a: for a read memory gets the passed line
    row!(
        (1, "PORTS AA"),
        (25, A),
        [
            ar!(1, 0, 0x40, 0xc, 1, 0, false),
            g!(1, Read, 0),
            r!(1, 0, 0, true, 0),
            d!(
                1,
                0x40,
                u64::MAX,
                false,
                Line {
                    words: [
                        0x11111111111111111111111111111111,
                        0x11111111111111111111111111111111,
                        0x11111111111111111111111111111111,
                        0x11111111111111111111111111111111
                    ]
                }
            ),
            rk!(1, UD),
            ar!(0, 0, 0x40, 0, 1, 0, false),
            g!(0, Read, 0),
            ac!(1, 0x40, 0),
            cr!(1, 5, I),
            cd!(1, false, 0x11111111111111111111111111111111),
            cd!(1, false, 0x11111111111111111111111111111111),
            cd!(1, false, 0x11111111111111111111111111111111),
            cd!(1, true, 0x11111111111111111111111111111111),
            m!(
                0,
                Read,
                0,
                Line {
                    words: [0, 0, 0, 0]
                }
            )
        ]
    ),
    // K25b: for an update or WriteLineUnique memory gets its burst
    row!(
        (1, "PORTS ALAA"),
        (25, B),
        [
            aw!(1, 1, 0, 1, 2, 0),
            g!(1, Write, 1),
            w!(1, 0xffff, false, 0x94949494949494949494949494949494),
            w!(1, 0xffff, false, 0x9f9f9f9f9f9f9f9f9f9f9f9f9f9f9f9f),
            w!(1, 0xffff, false, 0xc1c1c1c1c1c1c1c1c1c1c1c1c1c1c1c1),
            w!(1, 0xffff, true, 0xa3a3a3a3a3a3a3a3a3a3a3a3a3a3a3a3),
            m!(
                1,
                Write,
                1,
                Line {
                    words: [0, 0, 0, 0]
                }
            )
        ]
    ),
    // K25c: for a WriteUnique memory gets its burst in the passed line, or else in what memory has
    row!(
        (1, "PORTS AA"),
        (25, C),
        [
            aw!(1, 0, 0x2040, 0, 2, 0),
            g!(1, Write, 0),
            w!(1, 0xff0, false, 0x64646464646464646464646464646464),
            w!(1, 0xff0, false, 0x42424242424242424242424242424242),
            w!(1, 1, false, 0x81818181818181818181818181818181),
            w!(1, 0xffff, true, 0xffffffffffffffffffffffffffffffff),
            m!(
                1,
                Write,
                0,
                Line {
                    words: [0, 0, 0, 0]
                }
            )
        ]
    ),
    // K25d: for a WriteNoSnoop memory gets its burst in what memory has
    row!(
        (1, "PORTS AAL"),
        (25, D),
        [
            aw!(2, 1, 0x3040, 0, 0, 0),
            g!(2, Write, 1),
            w!(2, 0xffff, false, 0x8b8b8b8b8b8b8b8b8b8b8b8b8b8b8b8b),
            w!(2, 0xffff, false, 0x9b9b9b9b9b9b9b9b9b9b9b9b9b9b9b9b),
            w!(2, 0xffff, false, 0x30303030303030303030303030303030),
            w!(2, 0xfff3, true, 0x21212121212121212121212121212121),
            m!(
                2,
                Write,
                1,
                Line {
                    words: [
                        0x8b8b8b8b8b8b8b8b8b8b8b8b8b8b8b8b,
                        0x9b9b9b9b9b9b9b9b9b9b9b9b9b9b9b9b,
                        0x30303030303030303030303030303030,
                        0x21212121212121212121212121212121
                    ]
                }
            )
        ]
    ),
    // K26a: the B names an outstanding write without B
    row!((1, "PORTS AL"), (26, A), [b!(0, 2, 0)]),
    // K26b: its response is OKAY
    row!(
        (1, "PORTS AAA"),
        (26, B),
        [aw!(2, 1, 0, 0, 1, 3), b!(2, 1, 1)]
    ),
    // K26c: memory was written for it
    row!(
        (1, "PORTS AA"),
        (26, C),
        [aw!(1, 0, 0x8000, 0, 1, 0), b!(1, 0, 0)]
    ),
    // K27a: the port has a complete write without WK
    row!((1, "PORTS AAL"), (27, A), [wk!(0, I)]),
    // K28a: the state is an end state of the write
    row!(
        (1, "PORTS AA"),
        (28, A),
        [
            ar!(1, 7, 0xc0, 7, 2, 0, false),
            g!(1, Read, 7),
            r!(1, 7, 0, false, 0),
            r!(1, 7, 0, false, 0),
            r!(1, 7, 0, false, 0),
            r!(1, 7, 0, true, 0),
            rk!(1, UC),
            aw!(1, 0, 0xc0, 4, 2, 0),
            b!(1, 0, 0),
            wk!(1, UC)
        ]
    ),
    // K28b: a barrier ends in I
    row!(
        (1, "PORTS AA"),
        (28, B),
        [
            ar!(1, 1, 0, 0, 3, 3, false),
            aw!(1, 0xf, 0, 0, 3, 3),
            b!(1, 0xf, 0),
            wk!(1, SD)
        ]
    ),
];
