// Traces for tests.
use ace_codes::LineState;
use ace_event::{Channel, Event, Line};

fn ar(port: u8, snoop: u8) -> Event {
    Event::Ar {
        port,
        id: 0,
        addr: 64,
        snoop,
        dom: 1,
        bar: 0,
        lock: false,
    }
}

fn r(last: bool) -> Event {
    Event::R {
        port: 0,
        id: 0,
        resp: 0,
        last,
        word: 0,
    }
}

/// A grant to the read of a port.
fn g(port: u8) -> Event {
    Event::G {
        port,
        chan: Channel::Read,
        id: 0,
    }
}

/// A second grant of a line.
pub(crate) fn two_grants() -> [Event; 4] {
    [ar(0, 7), ar(1, 7), g(0), g(1)]
}

/// A line that port 0 reads and stores to, after an opening of another line.
pub(crate) fn stored() -> [Event; 9] {
    [
        Event::Mem {
            addr: 128,
            line: Line { words: [0; 4] },
        },
        ar(0, 7),
        g(0),
        r(false),
        r(false),
        r(false),
        r(true),
        Event::Rk {
            port: 0,
            st: LineState::UC,
        },
        Event::D {
            port: 0,
            addr: 64,
            strobe: 1,
            x: false,
            line: Line {
                words: [1 << 127, 0, 0, 0],
            },
        },
    ]
}

/// A transfer of the read of port 1, which isn't the last.
fn transfer(word: u128) -> Event {
    Event::R {
        port: 1,
        id: 0,
        resp: 8,
        last: false,
        word,
    }
}

/// A line that port 0 stores to in the midst of a read of port 1, whose second transfer has this
/// word.
pub(crate) fn torn(word: u128) -> [Event; 14] {
    [
        ar(0, 7),
        g(0),
        r(false),
        r(false),
        r(false),
        r(true),
        Event::Rk {
            port: 0,
            st: LineState::UC,
        },
        ar(1, 0),
        g(1),
        Event::Ac {
            port: 0,
            addr: 64,
            snoop: 0,
        },
        Event::Cr {
            port: 0,
            resp: 24,
            st: LineState::UC,
        },
        transfer(0),
        Event::D {
            port: 0,
            addr: 64,
            strobe: u64::MAX,
            x: false,
            line: Line { words: [2; 4] },
        },
        transfer(word),
    ]
}

/// A barrier of port 0, and a second under the same identifier.
pub(crate) fn second_barrier() -> [Event; 2] {
    [barrier(), barrier()]
}

fn barrier() -> Event {
    Event::Ar {
        port: 0,
        id: 0,
        addr: 0,
        snoop: 0,
        dom: 1,
        bar: 1,
        lock: false,
    }
}
