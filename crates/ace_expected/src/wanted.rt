use ace_codes::{ArKind, AwKind, LineState, SnoopKind};
use ace_event::Line;

/// A table of the states of a line, and the place to look at in it.
#[derive(Clone, Copy)]
pub enum StateTable {
    /// Those from which a port may issue a read of the kind.
    ReadStart {
        kind: ArKind,
    },
    /// Those from which it may issue a write of the kind.
    WriteStart {
        kind: AwKind,
    },
    /// Those in which a read of the kind ends, by the state that is held at its end, by IsShared
    /// and PassDirty of its response, and by whether it is an exclusive store that failed.
    ReadEnd {
        kind: ArKind,
        held: LineState,
        shared: bool,
        pass: bool,
        failed: bool,
    },
    /// Those in which a write of the kind ends, by the state that is held at its end.
    WriteEnd {
        kind: AwKind,
        held: LineState,
    },
    /// Those to which a port may move the line by itself.
    Silent {
        held: LineState,
    },
    /// Those in which a port may load from the line.
    Load,
    /// Those in which it may store to it.
    Store,
}

/// How many digits a field has.
#[derive(Clone, Copy)]
pub enum Width {
    /// One.
    Digit,
    /// The four of a strobe of a word.
    Strobe,
    /// The 32 of a word.
    Word,
}

/// What a clause expects, and what it got.
#[derive(Clone, Copy)]
pub enum Expectation {
    /// One of the states of a table, and the state that there is.
    State {
        table: StateTable,
        got: LineState,
    },
    /// One of the answers to a snoop of the kind, by the state that is held and by whether a memory
    /// update of the line is outstanding; and the answer: CRRESP and the state.
    Answer {
        kind: SnoopKind,
        held: LineState,
        update: bool,
        resp: u8,
        next: LineState,
    },
    /// A number, and the number that there is.
    Number {
        width: Width,
        expected: u128,
        got: u128,
    },
    /// A word of snoop data. What the port had when it answered the snoop isn't told.
    Sent {
        got: u128,
    },
    /// The data of a line, and those that there are.
    Data {
        expected: Line,
        got: Line,
    },
}
