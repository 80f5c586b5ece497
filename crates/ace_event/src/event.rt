use crate::Line;
use ace_codes::LineState;

/// The channel of the transaction that a grant or a memory write belongs to.
#[derive(Clone, Copy, Debug, PartialEq, Eq)]
pub enum Channel {
    Read,
    Write,
}

/// How an operation of a script retired.
#[derive(Clone, Copy, Debug, PartialEq, Eq)]
pub enum Outcome {
    Ok,
    Skip,
    Fail,
}

/// One event of a trace: a completed handshake, a grant, a memory write, a silent transition, a
/// load, a store, the end of an operation, or the opening memory of a line. `port` is the number of
/// the port, from 0; `addr` is a byte address.
#[derive(Clone, Copy, Debug, PartialEq, Eq)]
pub enum Event {
    /// A read address: identifier, ARSNOOP, ARDOMAIN, ARBAR, and whether the access is exclusive.
    Ar {
        port: u8,
        id: u8,
        addr: u32,
        snoop: u8,
        dom: u8,
        bar: u8,
        lock: bool,
    },
    /// A read transfer: identifier, RRESP, RLAST, and the sixteen bytes of the beat.
    R {
        port: u8,
        id: u8,
        resp: u8,
        last: bool,
        word: u128,
    },
    /// A read acknowledge (RACK), with the state in which the line is from then on.
    Rk {
        port: u8,
        st: LineState,
    },
    /// A write address: identifier, AWSNOOP, AWDOMAIN and AWBAR.
    Aw {
        port: u8,
        id: u8,
        addr: u32,
        snoop: u8,
        dom: u8,
        bar: u8,
    },
    /// A write transfer: bit n of the strobe belongs to byte n of the beat.
    W {
        port: u8,
        strb: u16,
        last: bool,
        word: u128,
    },
    /// A write response: identifier and BRESP.
    B {
        port: u8,
        id: u8,
        resp: u8,
    },
    /// A write acknowledge (WACK), with the state in which the line is from then on.
    Wk {
        port: u8,
        st: LineState,
    },
    /// A snoop address to the port: ACSNOOP.
    Ac {
        port: u8,
        addr: u32,
        snoop: u8,
    },
    /// A snoop response of the port: CRRESP, and the state in which the line is from then on.
    Cr {
        port: u8,
        resp: u8,
        st: LineState,
    },
    /// A snoop data transfer of the port: CDLAST, and the sixteen bytes of the beat.
    Cd {
        port: u8,
        last: bool,
        word: u128,
    },
    /// The interconnect grants its line to the transaction.
    G {
        port: u8,
        chan: Channel,
        id: u8,
    },
    /// Memory is written for the transaction: the whole line, as it is from then on.
    M {
        port: u8,
        chan: Channel,
        id: u8,
        line: Line,
    },
    /// A silent transition of the line to that state.
    S {
        port: u8,
        addr: u32,
        st: LineState,
    },
    /// A load of word `w` of the line, exclusive where `x`, and the word that it gave.
    L {
        port: u8,
        addr: u32,
        w: u8,
        x: bool,
        word: u128,
    },
    /// A store to the line, exclusive where `x`: bit n of the strobe says that byte n is stored.
    D {
        port: u8,
        addr: u32,
        strobe: u64,
        x: bool,
        line: Line,
    },
    /// Operation `k` of the port, counted from 0, retired.
    Op {
        port: u8,
        k: u16,
        res: Outcome,
    },
    /// The opening memory of a line: what memory has there before the first event of another kind.
    Mem {
        addr: u32,
        line: Line,
    },
}
