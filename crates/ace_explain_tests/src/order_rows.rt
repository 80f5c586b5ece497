//! For each clause of K34 to K40 a short trace whose last event breaks it: what stands above a row
//! is not so.

use crate::rows::{Row, ac, ar, aw, cr, g, op, r, row};
use ace_clauses::Letter;
use ace_codes::LineState::I;
use ace_event::Channel::Read;
use ace_event::Event;
use ace_event::Outcome::Ok;

pub const ORDER_ROWS: &[Row] = &[
    // K34a: both halves of the barrier were issued
    row!(
        (1, "PORTS AA"),
        (34, A),
        [ar!(0, 1, 0, 0, 2, 3, false), r!(0, 1, 0, true, 0)]
    ),
    // K34b: a memory barrier: each earlier transaction of the port has its order point
    row!(
        (1, "PORTS L"),
        (34, B),
        [
            aw!(0, 0, 0x40, 0, 1, 0),
            ar!(0, 1, 0, 0, 1, 1, false),
            aw!(0, 1, 0, 0, 1, 1),
            r!(0, 1, 0, true, 0)
        ]
    ),
    // K34c: a synchronisation barrier: each earlier transaction of the port is complete
    row!(
        (1, "PORTS L"),
        (34, C),
        [
            aw!(0, 0, 0x40, 0, 1, 0),
            ar!(0, 1, 0, 0, 1, 3, false),
            aw!(0, 1, 0, 0, 1, 3),
            r!(0, 1, 0, true, 0)
        ]
    ),
    // K35a: each barrier of the port before the transaction is answered
    row!(
        (1, "PORTS L"),
        (35, A),
        [
            ar!(0, 0xc, 0, 0, 1, 1, false),
            aw!(0, 0, 0, 0, 1, 1),
            ar!(0, 1, 0x40, 0, 1, 0, false),
            g!(0, Read, 1)
        ]
    ),
    // K36a: the second part of a message follows the first
    row!(
        (1, "PORTS AA"),
        (36, A),
        [
            ar!(0, 2, 0x40, 1, 1, 0, false),
            g!(0, Read, 2),
            ar!(0, 0, 0x1001, 0xf, 1, 0, false),
            ar!(0, 1, 0x12345678, 0xf, 1, 0, false),
            ac!(1, 0x1001, 0xf),
            ac!(1, 0x40, 1)
        ]
    ),
    // K36b: some message of another port waits for this port
    row!((1, "PORTS AA"), (36, B), [ac!(1, 0x1001, 0xf)]),
    // K36c: the message that was issued first comes first
    row!(
        (2, "PORTS AAAAAAAAAAAAAALLLLLLLLLLLLLL"),
        (36, C),
        [ar!(5, 1, 0, 0xf, 2, 0, false), ac!(1, 0x40, 0xf)]
    ),
    // K37a: the message was forwarded to each other ACE port
    row!(
        (2, "PORTS AA"),
        (37, A),
        [
            ar!(1, 0, 0x1001, 0xf, 1, 0, false),
            ar!(1, 1, 0x12345678, 0xf, 1, 0, false),
            r!(1, 1, 0, true, 0)
        ]
    ),
    // K37b: each of them has answered it
    row!(
        (1, "PORTS AA"),
        (37, B),
        [
            ar!(0, 1, 0x1abc000c, 0xf, 1, 0, false),
            ac!(1, 0x1abc000c, 0xf),
            r!(0, 1, 0, true, 0)
        ]
    ),
    // K38a: the port has answered more Syncs than it has completed
    row!((1, "PORTS AAA"), (38, A), [ar!(1, 0, 0, 0xe, 1, 0, false)]),
    // K39a: an AC DVM Complete has address 0
    row!((2, "PORTS ALA"), (39, A), [ac!(2, 0x2040, 0xe)]),
    // K39b: the port has sent a Sync
    row!((1, "PORTS AAALL"), (39, B), [ac!(2, 0, 0xe)]),
    // K39c: its Sync is answered
    row!(
        (1, "PORTS A"),
        (39, C),
        [ar!(0, 1, 0xc000, 0xf, 1, 0, false), ac!(0, 0, 0xe)]
    ),
    // K39d: its Sync is not completed yet
    row!(
        (1, "PORTS AA"),
        (39, D),
        [
            ar!(0, 0, 0xc000, 0xf, 1, 0, false),
            ac!(1, 0xc000, 0xf),
            cr!(1, 0, I),
            r!(0, 0, 0, true, 0),
            ar!(1, 0, 0, 0xe, 1, 0, false),
            ac!(0, 0, 0xe),
            ac!(0, 0, 0xe)
        ]
    ),
    // K39e: each other ACE port has issued its DVM Complete for it
    row!(
        (1, "PORTS AAA"),
        (39, E),
        [
            ar!(0, 0, 0xc000, 0xf, 1, 0, false),
            ac!(1, 0xc000, 0xf),
            ac!(2, 0xc000, 0xf),
            cr!(1, 0, I),
            cr!(2, 0, I),
            r!(0, 0, 0, true, 0),
            ac!(0, 0, 0xe)
        ]
    ),
    // K40a: the number is that of the earlier operations of the port
    row!((1, "PORTS A"), (40, A), [op!(0, 1, Ok)]),
];
