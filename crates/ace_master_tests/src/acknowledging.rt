//! What the master of an ACE port acknowledges.

use crate::operations::{has_events, operations};
use ace_codes::LineState::{self, I, SC, UC, UD};
use ace_engine::Burst;
use ace_event::{Channel, Event, Header, Line, Outcome};
use ace_master::AcePort;
use ace_master_state::{Cached, Completions, Identifiers, Kept, Monitor, Segment, Syncs};
use ace_model::Op;
use ace_portck::OnePort;
use std::alloc::Global;
use std::test::Fail;

const HEADER: Header = Header {
    version: 1,
    ports: 1,
    ace: 1,
};

const LINE: Line = Line {
    words: [1, 2, 3, 4],
};

/// What is kept at first of the only port, which has these operations.
fn port(alloc: Global, of: &[Op]) -> Result<AcePort, Fail> {
    let kept = Kept {
        port: OnePort::new(alloc, HEADER, 0, 8)?,
        identifiers: Identifiers::none(),
        lines: Cached::new(alloc, 2)?,
        monitor: Monitor::new(0),
        segment: Segment::new(alloc, 0)?,
        completions: Completions::new(0),
        syncs: Syncs::new(0),
    };
    Ok(AcePort {
        port: 0,
        kept,
        operations: operations(alloc, HEADER, of)?,
        unsent: None,
    })
}

fn hear(port: &mut AcePort, events: &[Event]) {
    for event in events {
        port.kept.hear(event);
    }
}

fn ar(id: u8, snoop: u8, lock: bool) -> Event {
    Event::Ar {
        port: 0,
        id,
        addr: 64,
        snoop,
        dom: 1,
        bar: 0,
        lock,
    }
}

fn g(id: u8) -> Event {
    Event::G {
        port: 0,
        chan: Channel::Read,
        id,
    }
}

fn r(id: u8, resp: u8, last: bool, word: u128) -> Event {
    Event::R {
        port: 0,
        id,
        resp,
        last,
        word,
    }
}

fn rk(st: LineState) -> Event {
    Event::Rk { port: 0, st }
}

fn d(strobe: u64, x: bool, line: Line) -> Event {
    Event::D {
        port: 0,
        addr: 64,
        strobe,
        x,
        line,
    }
}

fn l(w: u8, x: bool, word: u128) -> Event {
    Event::L {
        port: 0,
        addr: 64,
        w,
        x,
        word,
    }
}

fn op(k: u16, res: Outcome) -> Event {
    Event::Op { port: 0, k, res }
}

/// The port reads the line by a read of this code, and the response is this.
fn reads(port: &mut AcePort, snoop: u8, lock: bool, resp: u8) {
    hear(
        port,
        &[
            ar(3, snoop, lock),
            g(3),
            r(3, resp, false, 1),
            r(3, resp, false, 2),
            r(3, resp, false, 3),
            r(3, resp, true, 4),
        ],
    );
}

/// The port acknowledges with these events.
fn acknowledges(port: &mut AcePort, events: &[Event]) -> bool {
    let mut burst = Burst::empty();
    port.acknowledge(&mut burst) && has_events(&burst, events)
}

/// The port has nothing to acknowledge.
fn acknowledges_nothing(port: &mut AcePort) -> bool {
    !port.acknowledge(&mut Burst::empty())
}

/// A load ends with the acknowledge of its read.
fn loads_the_word(port: &mut AcePort) -> bool {
    if !acknowledges_nothing(port) {
        return false;
    }
    reads(port, 1, false, 0);
    acknowledges(port, &[rk(UC), l(2, false, 3), op(0, Outcome::Ok)]) && acknowledges_nothing(port)
}

#[test]
fn loads_what_it_read(rt: HostRuntime) -> Result<(), Fail> {
    let mut port = port(rt.alloc(), &[Op::Ld { addr: 64, w: 2 }])?;
    let holds = loads_the_word(&mut port);
    drop(port);
    assert!(rt; holds);
    Ok(())
}

/// A fill stores to the line before its MakeUnique ends.
fn fills_the_line(port: &mut AcePort) -> bool {
    hear(port, &[ar(3, 12, false), g(3), r(3, 0, true, 0)]);
    let stores = d(u64::MAX, false, LINE);
    acknowledges(port, &[stores, rk(UD), op(0, Outcome::Ok)])
}

#[test]
fn fills_before_the_end(rt: HostRuntime) -> Result<(), Fail> {
    let fill = Op::Fill {
        addr: 64,
        line: LINE,
    };
    let mut port = port(rt.alloc(), &[fill])?;
    let holds = fills_the_line(&mut port);
    drop(port);
    assert!(rt; holds);
    Ok(())
}

fn w(last: bool, word: u128) -> Event {
    Event::W {
        port: 0,
        strb: 0xffff,
        last,
        word,
    }
}

/// The port writes the line back under an identifier, and retires before the response.
fn writes_back(port: &mut AcePort) {
    let writes = Event::Aw {
        port: 0,
        id: 5,
        addr: 64,
        snoop: 3,
        dom: 1,
        bar: 0,
    };
    let written = Event::M {
        port: 0,
        chan: Channel::Write,
        id: 5,
        line: LINE,
    };
    let responds = Event::B {
        port: 0,
        id: 5,
        resp: 0,
    };
    let retires = op(0, Outcome::Ok);
    hear(port, &[writes, retires, w(false, 1), w(false, 2)]);
    hear(port, &[w(false, 3), w(true, 4), written, responds]);
}

/// A WriteBack gives its line up. It ends no operation: its own retired before.
fn gives_the_line_up(port: &mut AcePort) -> bool {
    reads(port, 1, false, 4);
    hear(port, &[rk(UD)]);
    writes_back(port);
    acknowledges(port, &[Event::Wk { port: 0, st: I }]) && port.kept.lines.state(64) == I
}

#[test]
fn gives_up_what_it_wrote(rt: HostRuntime) -> Result<(), Fail> {
    let mut port = port(rt.alloc(), &[Op::Wb { addr: 64 }])?;
    let holds = gives_the_line_up(&mut port);
    drop(port);
    assert!(rt; holds);
    Ok(())
}

/// The port has loaded the line exclusively, and asked whether it may store to it; the response is
/// this.
fn asks_to_store(port: &mut AcePort, resp: u8) {
    reads(port, 1, true, 9);
    hear(port, &[rk(SC), l(0, true, 1), op(0, Outcome::Ok)]);
    hear(port, &[ar(4, 11, true), g(4), r(4, resp, true, 0)]);
}

const STORE: Op = Op::Stx {
    addr: 64,
    w: 0,
    word: 7,
};

/// An exclusive store that the interconnect refused fails.
#[test]
fn fails_if_it_may_not_store(rt: HostRuntime) -> Result<(), Fail> {
    let mut port = port(rt.alloc(), &[STORE; 2])?;
    asks_to_store(&mut port, 0);
    assert!(rt; acknowledges(&mut port, &[rk(SC), op(1, Outcome::Fail)]));
    Ok(())
}

/// An exclusive store that passed is made.
#[test]
fn stores_if_it_may(rt: HostRuntime) -> Result<(), Fail> {
    let line = Line {
        words: [7, 0, 0, 0],
    };
    let mut port = port(rt.alloc(), &[STORE; 2])?;
    asks_to_store(&mut port, 1);
    let stores = [rk(UC), d(0xffff, true, line), op(1, Outcome::Ok)];
    assert!(rt; acknowledges(&mut port, &stores));
    Ok(())
}
