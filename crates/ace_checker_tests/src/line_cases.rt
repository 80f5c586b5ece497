//! Short traces of transactions on lines.

use crate::cases::Ports::{AceAndLite, ThreeAce, TwoAce};
use crate::cases::{Case, GET, ac, after_get, alone, ar, cr, g, r, read, rk};
use ace_codes::LineState::{I, SC, UC, UD};
use ace_event::Channel::{Read, Write};
use ace_event::Event;

pub const PORTS_AND_CODES: &[Case] = &[
    alone!(TwoAce, [read!(2, 0, 64)], Some((1, 1))),
    alone!(AceAndLite, [rk!(1, I)], Some((1, 1))),
    alone!(AceAndLite, [ac!(1, 64, 7)], Some((1, 1))),
    alone!(TwoAce, [read!(99, 0, 64)], Some((1, 1))),
    alone!(TwoAce, [ar!(0, 0, 64, 4, 1, 0, false)], Some((1, 2))),
    alone!(TwoAce, [ar!(0, 0, 64, 7, 0, 0, false)], Some((1, 2))),
    alone!(TwoAce, [ar!(0, 0, 64, 7, 1, 1, false)], Some((1, 2))),
    alone!(AceAndLite, [read!(1, 0, 64)], Some((1, 2))),
    alone!(TwoAce, [r!(0, 0, 2, false)], Some((1, 2))),
    alone!(TwoAce, [ac!(0, 64, 4)], Some((1, 2))),
    alone!(TwoAce, [cr!(0, 2, I)], Some((1, 2))),
    alone!(TwoAce, [read!(0, 0, 65)], Some((1, 3))),
    alone!(TwoAce, [ac!(0, 96, 7)], Some((1, 3))),
];

pub const ADDRESSES: &[Case] = &[
    alone!(TwoAce, [read!(0, 0, 64), read!(0, 0, 128)], Some((2, 4))),
    alone!(
        TwoAce,
        [
            read!(0, 0, 64),
            read!(0, 1, 128),
            read!(1, 0, 64),
            read!(0, 1, 192)
        ],
        Some((4, 4))
    ),
    alone!(TwoAce, [read!(0, 0, 64), read!(0, 1, 64)], Some((2, 5))),
    after_get!(TwoAce, [read!(0, 0, 64)], Some((8, 6))),
    alone!(TwoAce, [ar!(0, 0, 64, 7, 1, 0, true)], Some((1, 7))),
];

pub const GRANTS: &[Case] = &[
    alone!(TwoAce, [g!(0, Read, 0)], Some((1, 12))),
    alone!(TwoAce, [read!(0, 0, 64), g!(0, Write, 0)], Some((2, 12))),
    alone!(
        TwoAce,
        [read!(0, 0, 64), g!(0, Read, 0), g!(0, Read, 0)],
        Some((3, 12))
    ),
    alone!(
        TwoAce,
        [
            read!(0, 0, 64),
            read!(1, 0, 64),
            g!(1, Read, 0),
            g!(0, Read, 0)
        ],
        Some((4, 12))
    ),
    after_get!(TwoAce, [g!(0, Read, 0)], Some((8, 12))),
    after_get!(
        TwoAce,
        [
            read!(1, 0, 64),
            g!(1, Read, 0),
            ac!(0, 64, 7),
            cr!(0, 16, I),
            r!(1, 0, 0, false),
            r!(1, 0, 0, false),
            r!(1, 0, 0, false),
            r!(1, 0, 0, true),
            g!(1, Read, 0)
        ],
        Some((16, 12))
    ),
];

pub const SNOOPS: &[Case] = &[
    alone!(TwoAce, [ac!(1, 64, 7)], Some((1, 13))),
    alone!(TwoAce, [read!(0, 0, 64), ac!(1, 64, 7)], Some((2, 13))),
    alone!(
        TwoAce,
        [read!(0, 0, 64), g!(0, Read, 0), ac!(0, 64, 7)],
        Some((3, 13))
    ),
    alone!(
        TwoAce,
        [
            read!(0, 0, 64),
            g!(0, Read, 0),
            ac!(1, 64, 7),
            ac!(1, 64, 7)
        ],
        Some((4, 13))
    ),
    alone!(
        TwoAce,
        [
            read!(0, 0, 64),
            g!(0, Read, 0),
            ac!(1, 64, 7),
            cr!(1, 0, I),
            ac!(1, 64, 7)
        ],
        Some((5, 13))
    ),
    alone!(
        ThreeAce,
        [
            read!(0, 0, 64),
            g!(0, Read, 0),
            ac!(1, 64, 7),
            cr!(1, 0, I),
            r!(0, 0, 0, false),
            ac!(2, 64, 7)
        ],
        Some((6, 13))
    ),
    after_get!(TwoAce, [ac!(1, 64, 7)], Some((8, 13))),
];

pub const ANSWERS: &[Case] = &[
    alone!(TwoAce, [cr!(0, 0, I)], Some((1, 14))),
    alone!(
        TwoAce,
        [
            read!(0, 0, 64),
            g!(0, Read, 0),
            ac!(1, 64, 7),
            cr!(1, 0, I),
            cr!(1, 0, I)
        ],
        Some((5, 14))
    ),
    alone!(
        TwoAce,
        [read!(0, 0, 64), g!(0, Read, 0), ac!(1, 64, 7), cr!(1, 1, I)],
        Some((4, 15))
    ),
    alone!(
        TwoAce,
        [
            read!(0, 0, 64),
            g!(0, Read, 0),
            ac!(1, 64, 7),
            cr!(1, 0, SC)
        ],
        Some((4, 15))
    ),
    after_get!(
        TwoAce,
        [read!(1, 0, 64), g!(1, Read, 0), ac!(0, 64, 7), cr!(0, 8, I)],
        Some((11, 15))
    ),
    after_get!(
        TwoAce,
        [read!(1, 0, 64), g!(1, Read, 0), ac!(0, 64, 7), cr!(0, 4, I)],
        Some((11, 15))
    ),
    after_get!(
        TwoAce,
        [
            read!(1, 0, 64),
            g!(1, Read, 0),
            ac!(0, 64, 7),
            cr!(0, 8, SC)
        ],
        Some((11, 15))
    ),
];

pub const TRANSFERS: &[Case] = &[
    alone!(TwoAce, [r!(0, 0, 0, false)], Some((1, 18))),
    alone!(TwoAce, [read!(0, 0, 64), r!(0, 0, 0, false)], Some((2, 18))),
    alone!(
        TwoAce,
        [
            read!(0, 0, 64),
            g!(0, Read, 0),
            ac!(1, 64, 7),
            r!(0, 0, 0, false)
        ],
        Some((4, 18))
    ),
    after_get!(
        TwoAce,
        [read!(1, 0, 64), g!(1, Read, 0), r!(1, 0, 0, false)],
        Some((10, 18))
    ),
    after_get!(
        TwoAce,
        [
            read!(1, 0, 64),
            g!(1, Read, 0),
            ac!(0, 64, 7),
            cr!(0, 1, I),
            r!(1, 0, 0, false)
        ],
        Some((12, 18))
    ),
    alone!(
        TwoAce,
        [
            read!(0, 0, 64),
            g!(0, Read, 0),
            r!(0, 0, 0, false),
            r!(0, 0, 0, true)
        ],
        Some((4, 18))
    ),
    alone!(
        TwoAce,
        [
            read!(0, 0, 64),
            g!(0, Read, 0),
            r!(0, 0, 0, false),
            r!(0, 0, 0, false),
            r!(0, 0, 0, false),
            r!(0, 0, 0, false)
        ],
        Some((6, 18))
    ),
    alone!(
        TwoAce,
        [
            read!(0, 0, 64),
            g!(0, Read, 0),
            r!(0, 0, 0, false),
            r!(0, 0, 0, false),
            r!(0, 0, 0, false),
            r!(0, 0, 0, true),
            r!(0, 0, 0, false)
        ],
        Some((7, 18))
    ),
    alone!(
        TwoAce,
        [read!(0, 0, 64), g!(0, Read, 0), r!(0, 0, 4, false)],
        Some((3, 19))
    ),
    alone!(
        TwoAce,
        [read!(0, 0, 64), g!(0, Read, 0), r!(0, 0, 8, false)],
        Some((3, 19))
    ),
    alone!(
        TwoAce,
        [
            read!(0, 0, 64),
            g!(0, Read, 0),
            r!(0, 0, 0, false),
            r!(0, 0, 1, false)
        ],
        Some((4, 21))
    ),
];

pub const ACKNOWLEDGES: &[Case] = &[
    alone!(TwoAce, [rk!(0, UC)], Some((1, 22))),
    alone!(
        TwoAce,
        [
            read!(0, 0, 64),
            g!(0, Read, 0),
            r!(0, 0, 0, false),
            rk!(0, UC)
        ],
        Some((4, 22))
    ),
    after_get!(TwoAce, [rk!(0, UC)], Some((8, 22))),
    alone!(
        TwoAce,
        [
            read!(0, 0, 64),
            g!(0, Read, 0),
            r!(0, 0, 0, false),
            r!(0, 0, 0, false),
            r!(0, 0, 0, false),
            r!(0, 0, 0, true),
            rk!(0, UD)
        ],
        Some((7, 23))
    ),
    alone!(
        TwoAce,
        [
            read!(0, 0, 64),
            g!(0, Read, 0),
            r!(0, 0, 0, false),
            r!(0, 0, 0, false),
            r!(0, 0, 0, false),
            r!(0, 0, 0, true),
            rk!(0, SC)
        ],
        None
    ),
    alone!(
        TwoAce,
        [
            read!(0, 0, 64),
            read!(0, 1, 128),
            g!(0, Read, 1),
            r!(0, 1, 0, false),
            r!(0, 1, 0, false),
            r!(0, 1, 0, false),
            r!(0, 1, 0, true),
            rk!(0, UC),
            g!(0, Read, 0),
            r!(0, 0, 0, false),
            r!(0, 0, 0, false),
            r!(0, 0, 0, false),
            r!(0, 0, 0, true),
            rk!(0, I),
            read!(0, 1, 64)
        ],
        None
    ),
];

/// Port 1 gets the line that port 0 holds, with the snoop and without it.
pub const GETS_A_HELD_LINE: &[Case] = &[
    after_get!(
        TwoAce,
        [
            read!(1, 0, 64),
            g!(1, Read, 0),
            ac!(0, 64, 7),
            cr!(0, 16, I),
            r!(1, 0, 0, false),
            r!(1, 0, 0, false),
            r!(1, 0, 0, false),
            r!(1, 0, 0, true),
            rk!(1, UC)
        ],
        None
    ),
    after_get!(
        TwoAce,
        [read!(1, 0, 64), g!(1, Read, 0), r!(1, 0, 0, false)],
        Some((10, 18))
    ),
];
