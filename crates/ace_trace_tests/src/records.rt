// Lines of each record, written out by hand.

use ace_codes::LineState;
use ace_event::{Channel, Event, Line, Outcome};
use ace_grammar::parse_event;

const WORD: u128 = 0x0123_4567_89ab_cdef_0011_2233_4455_6677;

/// The line of memory of these tests.
fn some_line() -> Line {
    Line {
        words: [0x10, u128::MAX, 0x2000, 1 << 127],
    }
}

/// Whether the line is this event.
fn is_event(line: &[u8], version: u8, event: Event) -> bool {
    match parse_event(line, version) {
        Ok(found) => found == event,
        Err(_) => false,
    }
}

/// Whether the one line of version 1 and the other of version 2 are this event.
fn are_both(event: Event, first: &[u8], second: &[u8]) -> bool {
    is_event(first, 1, event) && is_event(second, 2, event)
}

/// The records of the read channels.
fn reads_reads() -> bool {
    are_both(
        Event::Ar {
            port: 10,
            id: 5,
            addr: 0x0123_cdef,
            snoop: 7,
            dom: 2,
            bar: 1,
            lock: false,
        },
        b"AR a 5 0123cdef 7 2 1 0",
        b"AR 0a 5 0123cdef 7 2 1 0",
    ) && are_both(
        Event::Ar {
            port: 15,
            id: 14,
            addr: 0xffff_fffe,
            snoop: 13,
            dom: 3,
            bar: 0,
            lock: true,
        },
        b"AR f e fffffffe d 3 0 1",
        b"AR 0f e fffffffe d 3 0 1",
    ) && are_both(
        Event::R {
            port: 1,
            id: 2,
            resp: 12,
            last: false,
            word: WORD,
        },
        b"R 1 2 c 0 0123456789abcdef0011223344556677",
        b"R 01 2 c 0 0123456789abcdef0011223344556677",
    ) && are_both(
        Event::R {
            port: 2,
            id: 1,
            resp: 15,
            last: true,
            word: u128::MAX,
        },
        b"R 2 1 f 1 ffffffffffffffffffffffffffffffff",
        b"R 02 1 f 1 ffffffffffffffffffffffffffffffff",
    ) && are_both(
        Event::Rk {
            port: 3,
            st: LineState::UC,
        },
        b"RK 3 UC",
        b"RK 03 UC",
    ) && are_both(
        Event::Rk {
            port: 0,
            st: LineState::SD,
        },
        b"RK 0 SD",
        b"RK 00 SD",
    )
}

/// The records of the write channels.
fn reads_writes() -> bool {
    are_both(
        Event::Aw {
            port: 12,
            id: 6,
            addr: 0xfedc_ba98,
            snoop: 7,
            dom: 3,
            bar: 2,
        },
        b"AW c 6 fedcba98 7 3 2",
        b"AW 0c 6 fedcba98 7 3 2",
    ) && are_both(
        Event::W {
            port: 13,
            strb: 0xac0f,
            last: true,
            word: WORD,
        },
        b"W d ac0f 1 0123456789abcdef0011223344556677",
        b"W 0d ac0f 1 0123456789abcdef0011223344556677",
    ) && are_both(
        Event::B {
            port: 14,
            id: 15,
            resp: 3,
        },
        b"B e f 3",
        b"B 0e f 3",
    ) && are_both(
        Event::Wk {
            port: 2,
            st: LineState::SC,
        },
        b"WK 2 SC",
        b"WK 02 SC",
    )
}

/// The records of the snoop channels.
fn reads_snoops() -> bool {
    are_both(
        Event::Ac {
            port: 4,
            addr: 0x89ab_cdef,
            snoop: 14,
        },
        b"AC 4 89abcdef e",
        b"AC 04 89abcdef e",
    ) && are_both(
        Event::Cr {
            port: 5,
            resp: 31,
            st: LineState::I,
        },
        b"CR 5 1f I",
        b"CR 05 1f I",
    ) && are_both(
        Event::Cr {
            port: 6,
            resp: 9,
            st: LineState::SC,
        },
        b"CR 6 09 SC",
        b"CR 06 09 SC",
    ) && are_both(
        Event::Cr {
            port: 7,
            resp: 0,
            st: LineState::UD,
        },
        b"CR 7 00 UD",
        b"CR 07 00 UD",
    ) && are_both(
        Event::Cd {
            port: 8,
            last: true,
            word: WORD,
        },
        b"CD 8 1 0123456789abcdef0011223344556677",
        b"CD 08 1 0123456789abcdef0011223344556677",
    )
}

/// Grants, states and loads.
fn reads_grants_and_states() -> bool {
    are_both(
        Event::G {
            port: 8,
            chan: Channel::Read,
            id: 9,
        },
        b"G 8 R 9",
        b"G 08 R 9",
    ) && are_both(
        Event::G {
            port: 9,
            chan: Channel::Write,
            id: 8,
        },
        b"G 9 W 8",
        b"G 09 W 8",
    ) && are_both(
        Event::S {
            port: 1,
            addr: 0xfc0,
            st: LineState::SC,
        },
        b"S 1 00000fc0 SC",
        b"S 01 00000fc0 SC",
    ) && are_both(
        Event::L {
            port: 2,
            addr: 0xc0,
            w: 3,
            x: true,
            word: WORD,
        },
        b"L 2 000000c0 3 1 0123456789abcdef0011223344556677",
        b"L 02 000000c0 3 1 0123456789abcdef0011223344556677",
    )
}

/// Operations.
fn reads_operations() -> bool {
    are_both(
        Event::Op {
            port: 3,
            k: 0x1ff,
            res: Outcome::Ok,
        },
        b"OP 3 01ff ok",
        b"OP 03 01ff ok",
    ) && are_both(
        Event::Op {
            port: 4,
            k: 0x8000,
            res: Outcome::Skip,
        },
        b"OP 4 8000 skip",
        b"OP 04 8000 skip",
    ) && are_both(
        Event::Op {
            port: 15,
            k: 0xffff,
            res: Outcome::Fail,
        },
        b"OP f ffff fail",
        b"OP 0f ffff fail",
    )
}

/// Memory that is written, and a store to a line.
fn reads_lines() -> bool {
    are_both(
        Event::M {
            port: 1,
            chan: Channel::Write,
            id: 2,
            line: some_line(),
        },
        b"M 1 W 2 00000000000000000000000000000010ffffffffffffffffffffffffffffffff0000000000000000000000000000200080000000000000000000000000000000",
        b"M 01 W 2 00000000000000000000000000000010ffffffffffffffffffffffffffffffff0000000000000000000000000000200080000000000000000000000000000000",
    ) && are_both(
        Event::D {
            port: 3,
            addr: 0x40,
            strobe: 0x8000_0000_0000_0001,
            x: true,
            line: some_line(),
        },
        b"D 3 00000040 8000000000000001 1 00000000000000000000000000000010ffffffffffffffffffffffffffffffff0000000000000000000000000000200080000000000000000000000000000000",
        b"D 03 00000040 8000000000000001 1 00000000000000000000000000000010ffffffffffffffffffffffffffffffff0000000000000000000000000000200080000000000000000000000000000000",
    )
}

/// Ports of two digits, and the record of version 2 alone.
fn reads_wide_ports() -> bool {
    is_event(
        b"AR 1a 5 0123cdef 7 2 1 0",
        2,
        Event::Ar {
            port: 26,
            id: 5,
            addr: 0x0123_cdef,
            snoop: 7,
            dom: 2,
            bar: 1,
            lock: false,
        },
    ) && is_event(
        b"RK 1f UC",
        2,
        Event::Rk {
            port: 31,
            st: LineState::UC,
        },
    ) && is_event(
        b"B ff 2 3",
        2,
        Event::B {
            port: 255,
            id: 2,
            resp: 3,
        },
    ) && is_event(
        b"D 13 00000040 8000000000000001 1 00000000000000000000000000000010ffffffffffffffffffffffffffffffff0000000000000000000000000000200080000000000000000000000000000000",
        2,
        Event::D {
            port: 19,
            addr: 0x40,
            strobe: 0x8000_0000_0000_0001,
            x: true,
            line: some_line(),
        },
    ) && is_event(
        b"MEM 00000040 00000000000000000000000000000010ffffffffffffffffffffffffffffffff0000000000000000000000000000200080000000000000000000000000000000",
        2,
        Event::Mem {
            addr: 0x40,
            line: some_line(),
        },
    )
}

/// Each record in both versions.
#[test]
fn reads_each_record(rt: HostRuntime) {
    assert!(rt;
        reads_reads()
            && reads_writes()
            && reads_snoops()
            && reads_grants_and_states()
            && reads_operations()
            && reads_lines()
            && reads_wide_ports()
    );
}
