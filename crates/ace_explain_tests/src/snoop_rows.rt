//! For each clause of K11 to K17 a short trace whose last event breaks it: what stands above a row
//! is not so.

use crate::rows::{Row, ac, ar, aw, b, cd, cr, d, g, r, rk, row, w};
use ace_clauses::Letter;
use ace_codes::LineState::{I, SC, UC, UD};
use ace_event::Channel::{Read, Write};
use ace_event::{Event, Line};

pub const SNOOP_ROWS: &[Row] = &[
    // K11a: the port has a write whose data are not whole
    row!(
        (1, "PORTS AA"),
        (11, A),
        [w!(1, 0xffff, false, 0x64646464646464646464646464646464)]
    ),
    // K11b: WLAST is 1 exactly on the fourth word
    row!(
        (1, "PORTS AA"),
        (11, B),
        [
            aw!(1, 0, 0xfffff000, 0, 2, 0),
            w!(1, 0xffff, true, 0x63636363636363636363636363636363)
        ]
    ),
    // K11c: a WriteLineUnique or memory update has all strobes
    row!(
        (2, "PORTS LAAL"),
        (11, C),
        [
            aw!(2, 1, 0xc0, 1, 1, 0),
            w!(2, 0xff7f, false, 0xcacacacacacacacacacacacacacacaca)
        ]
    ),
    // K11d: a memory update sends the port's copy
    row!(
        (1, "PORTS A"),
        (11, D),
        [
            ar!(0, 0, 0x40, 7, 1, 0, false),
            g!(0, Read, 0),
            r!(0, 0, 0, false, 0),
            r!(0, 0, 0, false, 0),
            r!(0, 0, 0, false, 0),
            r!(0, 0, 0, true, 0),
            rk!(0, UC),
            d!(
                0,
                0x40,
                u64::MAX,
                false,
                Line {
                    words: [
                        0x22222222222222222222222222222222,
                        0x22222222222222222222222222222222,
                        0x22222222222222222222222222222222,
                        0x22222222222222222222222222222222
                    ]
                }
            ),
            aw!(0, 0, 0x40, 3, 1, 0),
            w!(0, 0xffff, false, 0)
        ]
    ),
    // K12a: the G names an outstanding transaction
    row!((1, "PORTS L"), (12, A), [g!(0, Read, 0)]),
    // K12b: its kind is one that is granted
    row!(
        (1, "PORTS AAAL"),
        (12, B),
        [ar!(2, 1, 0xc000, 0xf, 1, 0, false), g!(2, Read, 1)]
    ),
    // K12c: it has had no G
    row!(
        (1, "PORTS L"),
        (12, C),
        [
            ar!(0, 1, 0x40, 0, 1, 2, false),
            g!(0, Read, 1),
            g!(0, Read, 1)
        ]
    ),
    // K12d: no transaction on its line is granted
    row!(
        (1, "PORTS AA"),
        (12, D),
        [
            ar!(0, 0, 0x40, 7, 1, 0, false),
            ar!(1, 0, 0x40, 7, 1, 0, false),
            g!(0, Read, 0),
            g!(1, Read, 0)
        ]
    ),
    // K13a: the line has a granted transaction
    row!((1, "PORTS AA"), (13, A), [ac!(1, 0x40, 1)]),
    // K13b: it is of another port than the snooped
    row!(
        (1, "PORTS AA"),
        (13, B),
        [
            ar!(0, 0, 0x40, 9, 1, 0, false),
            g!(0, Read, 0),
            ac!(0, 0x40, 9)
        ]
    ),
    // K13c: the snoop is the one that its kind causes
    row!(
        (1, "PORTS AAA"),
        (13, C),
        [
            ar!(1, 0, 0x8000, 0xd, 2, 0, false),
            g!(1, Read, 0),
            ac!(0, 0x8000, 9)
        ]
    ),
    // K13d: it is no exclusive store that failed
    row!(
        (1, "PORTS AA"),
        (13, D),
        [
            ar!(0, 0, 0x40, 1, 1, 0, false),
            g!(0, Read, 0),
            r!(0, 0, 0, false, 0),
            r!(0, 0, 0, false, 0),
            r!(0, 0, 0, false, 0),
            r!(0, 0, 0, true, 0),
            rk!(0, SC),
            ar!(0, 0, 0x40, 0xb, 1, 0, true),
            g!(0, Read, 0),
            ac!(1, 0x40, 9)
        ]
    ),
    // K13e: it has had no R, a write no M
    row!(
        (1, "PORTS AA"),
        (13, E),
        [
            ar!(0, 1, 0x2040, 1, 1, 2, false),
            g!(0, Read, 1),
            r!(0, 1, 0, false, 0),
            ac!(1, 0x2040, 1)
        ]
    ),
    // K13f: the port was not snooped under this grant
    row!(
        (1, "PORTS ALLAA"),
        (13, F),
        [
            aw!(1, 2, 0, 1, 1, 2),
            g!(1, Write, 2),
            ac!(3, 0, 0xd),
            ac!(3, 0, 0xd)
        ]
    ),
    // K13g: the port has no write of the line between B and WK
    row!(
        (1, "PORTS AA"),
        (13, G),
        [
            ar!(1, 0, 0x40, 7, 1, 0, false),
            g!(1, Read, 0),
            r!(1, 0, 0, false, 0),
            r!(1, 0, 0, false, 0),
            r!(1, 0, 0, false, 0),
            r!(1, 0, 0, true, 0),
            rk!(1, UC),
            aw!(1, 0, 0x40, 4, 1, 0),
            b!(1, 0, 0),
            ar!(0, 0, 0x40, 7, 1, 0, false),
            g!(0, Read, 0),
            ac!(1, 0x40, 7)
        ]
    ),
    // K14a: the port has a snoop that is not answered
    row!((1, "PORTS AAA"), (14, A), [cr!(2, 0, I)]),
    // K15a: the new state is one that this snoop may leave
    row!(
        (1, "PORTS LA"),
        (15, A),
        [
            ar!(1, 0xf, 0x1040, 3, 1, 0, false),
            g!(1, Read, 0xf),
            r!(1, 0xf, 0, false, 0),
            r!(1, 0xf, 0, false, 0),
            r!(1, 0xf, 0, false, 0),
            r!(1, 0xf, 0, true, 0),
            rk!(1, UC),
            aw!(0, 1, 0x1040, 0, 2, 0),
            g!(0, Write, 1),
            ac!(1, 0x1040, 9),
            cr!(1, 5, UC)
        ]
    ),
    // K15b: a port without the line answers 00 and stays I
    row!(
        (1, "PORTS AAL"),
        (15, B),
        [
            ar!(0, 7, 0xfffff000, 0xc, 1, 2, false),
            g!(0, Read, 7),
            ac!(1, 0xfffff000, 0xd),
            cr!(1, 1, I)
        ]
    ),
    // K15c: a DVM snoop is answered with 00 and I
    row!(
        (1, "PORTS LAA"),
        (15, C),
        [
            ar!(2, 7, 0xc000, 0xf, 2, 0, false),
            ac!(1, 0xc000, 0xf),
            cr!(1, 1, I)
        ]
    ),
    // K15d: the bits of CRRESP fit the states before and after
    row!(
        (1, "PORTS AA"),
        (15, D),
        [
            ar!(1, 0, 0x40, 7, 1, 0, false),
            g!(1, Read, 0),
            r!(1, 0, 0, false, 0),
            r!(1, 0, 0, false, 0),
            r!(1, 0, 0, false, 0),
            r!(1, 0, 0, true, 0),
            rk!(1, UC),
            d!(
                1,
                0x40,
                u64::MAX,
                false,
                Line {
                    words: [
                        0x11111111111111111111111111111111,
                        0x11111111111111111111111111111111,
                        0x11111111111111111111111111111111,
                        0x11111111111111111111111111111111
                    ]
                }
            ),
            ar!(0, 0, 0x40, 9, 1, 0, false),
            g!(0, Read, 0),
            ac!(1, 0x40, 9),
            cr!(1, 0, I)
        ]
    ),
    // K16a: a ReadUnique, CleanShared, CleanInvalid or MakeInvalid snoop waits for the update
    row!(
        (1, "PORTS AA"),
        (16, A),
        [
            ar!(1, 0, 0x40, 0xc, 1, 0, false),
            g!(1, Read, 0),
            r!(1, 0, 0, true, 0),
            d!(
                1,
                0x40,
                u64::MAX,
                false,
                Line {
                    words: [
                        0x11111111111111111111111111111111,
                        0x11111111111111111111111111111111,
                        0x11111111111111111111111111111111,
                        0x11111111111111111111111111111111
                    ]
                }
            ),
            rk!(1, UD),
            aw!(1, 0, 0x40, 3, 1, 0),
            ar!(0, 0, 0x40, 7, 1, 0, false),
            g!(0, Read, 0),
            ac!(1, 0x40, 7),
            cr!(1, 5, I)
        ]
    ),
    // K16b: PassDirty is 0 while the update is outstanding
    row!(
        (1, "PORTS AAA"),
        (16, B),
        [
            ar!(0, 1, 0xfffff000, 0xc, 2, 0, false),
            g!(0, Read, 1),
            r!(0, 1, 0, true, 0),
            d!(
                0,
                0xfffff000,
                u64::MAX,
                false,
                Line {
                    words: [
                        0x80808080808080808080808080808080,
                        0x80808080808080808080808080808080,
                        0x80808080808080808080808080808080,
                        0x80808080808080808080808080808080
                    ]
                }
            ),
            rk!(0, UD),
            aw!(0, 0xf, 0xfffff000, 3, 2, 0),
            ar!(1, 0, 0xfffff000, 0, 1, 0, false),
            g!(1, Read, 0),
            ac!(0, 0xfffff000, 0),
            cr!(0, 5, I)
        ]
    ),
    // K16c: the port keeps the line while the update is outstanding
    row!(
        (1, "PORTS AA"),
        (16, C),
        [
            ar!(0, 0, 0x40, 7, 1, 0, false),
            g!(0, Read, 0),
            r!(0, 0, 0, false, 0),
            r!(0, 0, 0, false, 0),
            r!(0, 0, 0, false, 0),
            r!(0, 0, 0, true, 0),
            rk!(0, UC),
            aw!(0, 0, 0x40, 5, 1, 0),
            ar!(1, 0, 0x40, 1, 1, 0, false),
            g!(1, Read, 0),
            ac!(0, 0x40, 1),
            cr!(0, 0, I)
        ]
    ),
    // K17a: the port has an answer with DataTransfer whose data are not whole
    row!((1, "PORTS AALL"), (17, A), [cd!(1, true, 0)]),
    // K17b: CDLAST is 1 exactly on the fourth word
    row!(
        (1, "PORTS AA"),
        (17, B),
        [
            ar!(1, 0, 0x40, 7, 1, 0, false),
            g!(1, Read, 0),
            r!(1, 0, 0, false, 0),
            r!(1, 0, 0, false, 0),
            r!(1, 0, 0, false, 0),
            r!(1, 0, 0, true, 0),
            rk!(1, UC),
            d!(
                1,
                0x40,
                u64::MAX,
                false,
                Line {
                    words: [
                        0x11111111111111111111111111111111,
                        0x11111111111111111111111111111111,
                        0x11111111111111111111111111111111,
                        0x11111111111111111111111111111111
                    ]
                }
            ),
            ar!(0, 0, 0x40, 7, 1, 0, false),
            g!(0, Read, 0),
            ac!(1, 0x40, 7),
            cr!(1, 0x15, I),
            cd!(1, true, 0x11111111111111111111111111111111)
        ]
    ),
    // K17c: the word is that of the port's copy at its answer
    row!(
        (1, "PORTS AAL"),
        (17, C),
        [
            ar!(0, 1, 0x9000, 0xc, 1, 0, false),
            g!(0, Read, 1),
            r!(0, 1, 0, true, 0),
            d!(
                0,
                0x9000,
                u64::MAX,
                false,
                Line {
                    words: [
                        0x15151515151515151515151515151515,
                        0x15151515151515151515151515151515,
                        0x15151515151515151515151515151515,
                        0x15151515151515151515151515151515
                    ]
                }
            ),
            rk!(0, UD),
            ar!(2, 3, 0x9000, 8, 1, 0, false),
            g!(2, Read, 3),
            ac!(0, 0x9000, 8),
            cr!(0, 0xd, SC),
            cd!(0, false, 0x15151515151515151515151511151515)
        ]
    ),
];
