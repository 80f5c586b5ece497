//! For each clause of K18 to K23 a short trace whose last event breaks it: what stands above a row
//! is not so.

use crate::rows::{Row, ac, ar, cd, cr, d, g, r, rk, row};
use ace_clauses::Letter;
use ace_codes::LineState::{I, SC, UC, UD};
use ace_event::Channel::Read;
use ace_event::{Event, Line};

pub const READ_ROWS: &[Row] = &[
    // K18a: the R names an outstanding read
    row!((1, "PORTS A"), (18, A), [r!(0, 0xc, 0, true, 0)]),
    // K18b: the read has transfers left
    row!(
        (2, "PORTS AAA"),
        (18, B),
        [
            ar!(0, 1, 0x2000, 9, 2, 0, false),
            g!(0, Read, 1),
            r!(0, 1, 0, true, 0),
            r!(0, 1, 0, true, 0)
        ]
    ),
    // K18c: RLAST is 1 exactly on the last transfer
    row!(
        (1, "PORTS A"),
        (18, C),
        [ar!(0, 0, 0x40, 0, 1, 0, false), r!(0, 0, 0, true, 0)]
    ),
    // K18d: a line read is granted
    row!(
        (1, "PORTS AAA"),
        (18, D),
        [ar!(0, 0, 0x8000, 0xd, 2, 0, false), r!(0, 0, 0, true, 0)]
    ),
    // K18e: at the first transfer each snoop is answered
    row!(
        (1, "PORTS AALLA"),
        (18, E),
        [
            ar!(4, 0, 0, 3, 1, 0, false),
            g!(4, Read, 0),
            ac!(1, 0, 3),
            r!(4, 0, 0, false, 0)
        ]
    ),
    // K18f: the announced snoop data are whole
    row!(
        (1, "PORTS AA"),
        (18, F),
        [
            ar!(1, 0, 0x40, 0xc, 1, 0, false),
            g!(1, Read, 0),
            r!(1, 0, 0, true, 0),
            d!(
                1,
                0x40,
                u64::MAX,
                false,
                Line {
                    words: [
                        0x11111111111111111111111111111111,
                        0x11111111111111111111111111111111,
                        0x11111111111111111111111111111111,
                        0x11111111111111111111111111111111
                    ]
                }
            ),
            rk!(1, UD),
            ar!(0, 0, 0x40, 7, 1, 0, false),
            g!(0, Read, 0),
            ac!(1, 0x40, 7),
            cr!(1, 5, I),
            r!(0, 0, 4, false, 0x11111111111111111111111111111111)
        ]
    ),
    // K18g: at the first transfer each other holder was snooped
    row!(
        (1, "PORTS AA"),
        (18, G),
        [
            ar!(0, 0, 0x40, 7, 1, 0, false),
            g!(0, Read, 0),
            r!(0, 0, 0, false, 0),
            r!(0, 0, 0, false, 0),
            r!(0, 0, 0, false, 0),
            r!(0, 0, 0, true, 0),
            rk!(0, UC),
            ar!(1, 0, 0x40, 7, 1, 0, false),
            g!(1, Read, 0),
            r!(1, 0, 0, false, 0)
        ]
    ),
    // K18h: passed data are taken by a ReadShared, ReadNotSharedDirty or ReadUnique, or were
    // written to memory
    row!(
        (1, "PORTS AA"),
        (18, H),
        [
            ar!(1, 0, 0x40, 0xc, 1, 0, false),
            g!(1, Read, 0),
            r!(1, 0, 0, true, 0),
            d!(
                1,
                0x40,
                u64::MAX,
                false,
                Line {
                    words: [
                        0x11111111111111111111111111111111,
                        0x11111111111111111111111111111111,
                        0x11111111111111111111111111111111,
                        0x11111111111111111111111111111111
                    ]
                }
            ),
            rk!(1, UD),
            ar!(0, 0, 0x40, 0, 1, 0, false),
            g!(0, Read, 0),
            ac!(1, 0x40, 0),
            cr!(1, 5, I),
            cd!(1, false, 0x11111111111111111111111111111111),
            cd!(1, false, 0x11111111111111111111111111111111),
            cd!(1, false, 0x11111111111111111111111111111111),
            cd!(1, true, 0x11111111111111111111111111111111),
            r!(0, 0, 0, false, 0x11111111111111111111111111111111)
        ]
    ),
    // K18i: PassDirty is 1 where data were passed
    row!(
        (1, "PORTS AA"),
        (18, I),
        [
            ar!(1, 0, 0x40, 0xc, 1, 0, false),
            g!(1, Read, 0),
            r!(1, 0, 0, true, 0),
            d!(
                1,
                0x40,
                u64::MAX,
                false,
                Line {
                    words: [
                        0x11111111111111111111111111111111,
                        0x11111111111111111111111111111111,
                        0x11111111111111111111111111111111,
                        0x11111111111111111111111111111111
                    ]
                }
            ),
            rk!(1, UD),
            ar!(0, 0, 0x40, 7, 1, 0, false),
            g!(0, Read, 0),
            ac!(1, 0x40, 7),
            cr!(1, 5, I),
            cd!(1, false, 0x11111111111111111111111111111111),
            cd!(1, false, 0x11111111111111111111111111111111),
            cd!(1, false, 0x11111111111111111111111111111111),
            cd!(1, true, 0x11111111111111111111111111111111),
            r!(0, 0, 0, false, 0x11111111111111111111111111111111)
        ]
    ),
    // K19a: PassDirty is 0 where no data were passed
    row!(
        (2, "PORTS L"),
        (19, A),
        [
            ar!(0, 0, 0x40, 0, 1, 0, false),
            g!(0, Read, 0),
            r!(0, 0, 5, false, 0)
        ]
    ),
    // K19b: IsShared is 0 for kinds that keep no shared line
    row!(
        (1, "PORTS AA"),
        (19, B),
        [
            ar!(1, 0, 0x40, 7, 1, 0, false),
            g!(1, Read, 0),
            r!(1, 0, 0, false, 0),
            r!(1, 0, 0, false, 0),
            r!(1, 0, 0, false, 0),
            r!(1, 0, 8, true, 0)
        ]
    ),
    // K19c: a ReadNotSharedDirty has not both bits
    row!(
        (1, "PORTS AA"),
        (19, C),
        [
            ar!(1, 0, 0x40, 0xc, 1, 0, false),
            g!(1, Read, 0),
            r!(1, 0, 0, true, 0),
            d!(
                1,
                0x40,
                u64::MAX,
                false,
                Line {
                    words: [
                        0x11111111111111111111111111111111,
                        0x11111111111111111111111111111111,
                        0x11111111111111111111111111111111,
                        0x11111111111111111111111111111111
                    ]
                }
            ),
            rk!(1, UD),
            ar!(0, 0, 0x40, 3, 1, 0, false),
            g!(0, Read, 0),
            ac!(1, 0x40, 3),
            cr!(1, 0xd, SC),
            cd!(1, false, 0x11111111111111111111111111111111),
            cd!(1, false, 0x11111111111111111111111111111111),
            cd!(1, false, 0x11111111111111111111111111111111),
            cd!(1, true, 0x11111111111111111111111111111111),
            r!(0, 0, 0xc, false, 0x11111111111111111111111111111111)
        ]
    ),
    // K19d: an ACE-Lite port has neither bit
    row!(
        (1, "PORTS L"),
        (19, D),
        [
            ar!(0, 0, 0x40, 0, 1, 0, false),
            g!(0, Read, 0),
            r!(0, 0, 0, false, 0),
            r!(0, 0, 0, false, 0),
            r!(0, 0, 0, false, 0),
            r!(0, 0, 8, true, 0)
        ]
    ),
    // K19e: IsShared is 1 where an answer has it
    row!(
        (1, "PORTS AA"),
        (19, E),
        [
            ar!(1, 0, 0x40, 1, 1, 0, false),
            g!(1, Read, 0),
            r!(1, 0, 0, false, 0),
            r!(1, 0, 0, false, 0),
            r!(1, 0, 0, false, 0),
            r!(1, 0, 0, true, 0),
            rk!(1, SC),
            ar!(0, 0, 0x40, 1, 1, 0, false),
            g!(0, Read, 0),
            ac!(1, 0x40, 1),
            cr!(1, 8, SC),
            r!(0, 0, 0, false, 0)
        ]
    ),
    // K19f: each transfer has the bits of the first
    row!(
        (1, "PORTS AAA"),
        (19, F),
        [
            ar!(2, 7, 0, 3, 2, 0, false),
            g!(2, Read, 7),
            r!(2, 7, 8, false, 0),
            r!(2, 7, 0, false, 0)
        ]
    ),
    // K20a: a dataless transfer has the word 0
    row!(
        (1, "PORTS AA"),
        (20, A),
        [
            ar!(0, 0, 0x1001, 0xf, 1, 0, false),
            ar!(0, 1, 0x12345678, 0xf, 1, 0, false),
            r!(0, 1, 0, true, 0x400000000000000000)
        ]
    ),
    // K20b: a transfer has the word of the reply: the first snoop answer with data, else memory
    // before the first transfer
    row!(
        (2, "PORTS L"),
        (20, B),
        [
            ar!(0, 0, 0x40, 0, 1, 0, false),
            g!(0, Read, 0),
            r!(0, 0, 0, false, 0xaaaaaaaaaaaaaaaaaaaaaaaaaaaaaaaa)
        ]
    ),
    // K21a: EXOKAY for an exclusive load and an exclusive store that passed
    row!(
        (1, "PORTS AA"),
        (21, A),
        [
            ar!(1, 1, 0, 2, 1, 0, true),
            g!(1, Read, 1),
            r!(1, 1, 0, false, 0)
        ]
    ),
    // K21b: OKAY for an exclusive store that failed
    row!(
        (1, "PORTS A"),
        (21, B),
        [
            ar!(0, 0, 0x40, 1, 1, 0, false),
            g!(0, Read, 0),
            r!(0, 0, 0, false, 0),
            r!(0, 0, 0, false, 0),
            r!(0, 0, 0, false, 0),
            r!(0, 0, 0, true, 0),
            rk!(0, SC),
            ar!(0, 0, 0x40, 0xb, 1, 0, true),
            g!(0, Read, 0),
            r!(0, 0, 1, true, 0)
        ]
    ),
    // K21c: OKAY where the transaction is not exclusive
    row!(
        (1, "PORTS AAAAA"),
        (21, C),
        [
            ar!(4, 0, 0x1000, 2, 2, 2, false),
            g!(4, Read, 0),
            r!(4, 0, 9, false, 0)
        ]
    ),
    // K22a: the port has a complete read without RK
    row!((1, "PORTS A"), (22, A), [rk!(0, UD)]),
    // K23a: the state is an end state of the read
    row!(
        (1, "PORTS A"),
        (23, A),
        [
            ar!(0, 0, 0x40, 0xc, 1, 0, false),
            g!(0, Read, 0),
            r!(0, 0, 0, true, 0),
            rk!(0, SC)
        ]
    ),
    // K23b: a MakeUnique has had its store
    row!(
        (1, "PORTS A"),
        (23, B),
        [
            ar!(0, 0, 0x40, 0xc, 1, 0, false),
            g!(0, Read, 0),
            r!(0, 0, 0, true, 0),
            rk!(0, UD)
        ]
    ),
    // K23c: a barrier or DVM transaction ends in I
    row!(
        (1, "PORTS AA"),
        (23, C),
        [
            ar!(0, 0, 0x1001, 0xf, 1, 0, false),
            ar!(0, 1, 0x12345678, 0xf, 1, 0, false),
            ac!(1, 0x1001, 0xf),
            cr!(1, 0, I),
            r!(0, 0, 0, true, 0),
            rk!(0, UC)
        ]
    ),
];
