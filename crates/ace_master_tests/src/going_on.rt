//! The steps by which an ACE port does whole operations: the first of its steps that is enabled,
//! and between them what the interconnect gives.

use crate::operations::{has_events, operations};
use ace_codes::LineState::{self, I, SC, UC, UD};
use ace_engine::Burst;
use ace_event::{Channel, Event, Header, Line, Outcome};
use ace_master::AcePort;
use ace_master_state::{Cached, Completions, Identifiers, Kept, Monitor, Segment, Syncs};
use ace_model::Op;
use ace_policy::Keep;
use ace_portck::OnePort;
use std::alloc::Global;
use std::test::Fail;

const HEADER: Header = Header {
    version: 1,
    ports: 2,
    ace: 0b11,
};

/// What is kept at first of port 0, which has these operations, and a cache of one line.
fn port(alloc: Global, of: &[Op]) -> Result<AcePort, Fail> {
    let kept = Kept {
        port: OnePort::new(alloc, HEADER, 0, 8)?,
        identifiers: Identifiers::none(),
        lines: Cached::new(alloc, 1)?,
        monitor: Monitor::new(0),
        segment: Segment::new(alloc, 0)?,
        completions: Completions::new(0),
        syncs: Syncs::new(0),
    };
    Ok(AcePort {
        port: 0,
        kept,
        operations: operations(alloc, HEADER, of)?,
        unsent: None,
    })
}

/// The port's next step is this burst; none, if the burst is empty.
fn steps(port: &mut AcePort, burst: &[Event]) -> bool {
    let mut given = Burst::empty();
    let _moved = port.answer(&mut Keep, &mut given)
        || port.send(&mut given)
        || port.acknowledge(&mut given)
        || port.go_on(&mut given);
    has_events(&given, burst)
}

fn hear(port: &mut AcePort, events: &[Event]) {
    for event in events {
        port.hear(event);
    }
}

fn ar(addr: u32, snoop: u8, bar: u8, lock: bool) -> Event {
    Event::Ar {
        port: 0,
        id: 0,
        addr,
        snoop,
        dom: 1,
        bar,
        lock,
    }
}

fn aw(addr: u32, snoop: u8, bar: u8) -> Event {
    Event::Aw {
        port: 0,
        id: 0,
        addr,
        snoop,
        dom: 1,
        bar,
    }
}

const GRANTED: Event = Event::G {
    port: 0,
    chan: Channel::Read,
    id: 0,
};

fn r(resp: u8, last: bool, word: u128) -> Event {
    Event::R {
        port: 0,
        id: 0,
        resp,
        last,
        word,
    }
}

fn rk(st: LineState) -> Event {
    Event::Rk { port: 0, st }
}

fn op(k: u16, res: Outcome) -> Event {
    Event::Op { port: 0, k, res }
}

/// The interconnect grants the read, and brings a line of 1, 2, 3, 4.
fn brings(port: &mut AcePort, resp: u8) {
    hear(port, &[GRANTED, r(resp, false, 1), r(resp, false, 2)]);
    hear(port, &[r(resp, false, 3), r(resp, true, 4)]);
}

fn stores(addr: u32, strobe: u64, words: [u128; 4]) -> Event {
    Event::D {
        port: 0,
        addr,
        strobe,
        x: false,
        line: Line { words },
    }
}

const LOADS: Op = Op::Ld { addr: 64, w: 0 };

const STORES: Op = Op::St {
    addr: 64,
    w: 0,
    word: 9,
};

/// A load of a line that the port doesn't hold reads it; a store to it hits then, and ends where
/// its line is unique.
fn loads_and_then_stores(port: &mut AcePort) -> bool {
    if !steps(port, &[ar(64, 1, 0, false)]) || !steps(port, &[]) {
        return false;
    }
    brings(port, 0);
    let loads = Event::L {
        port: 0,
        addr: 64,
        w: 2,
        x: false,
        word: 3,
    };
    let stored = stores(64, 0xffff_0000, [0, 9, 0, 0]);
    steps(port, &[rk(UC), loads, op(0, Outcome::Ok)])
        && steps(port, &[stored, op(1, Outcome::Ok)])
        && steps(port, &[])
}

#[test]
fn loads_and_stores(rt: HostRuntime) -> Result<(), Fail> {
    let load = Op::Ld { addr: 64, w: 2 };
    let store = Op::St {
        addr: 64,
        w: 1,
        word: 9,
    };
    let mut port = port(rt.alloc(), &[load, store])?;
    let holds = loads_and_then_stores(&mut port);
    drop(port);
    assert!(rt; holds);
    Ok(())
}

/// A store to a line that the port shares makes it unique first.
fn makes_it_unique(port: &mut AcePort) -> bool {
    if !steps(port, &[ar(64, 1, 0, false)]) {
        return false;
    }
    brings(port, 8);
    let loads = Event::L {
        port: 0,
        addr: 64,
        w: 0,
        x: false,
        word: 1,
    };
    let loaded = [rk(SC), loads, op(0, Outcome::Ok)];
    if !steps(port, &loaded) || !steps(port, &[ar(64, 11, 0, false)]) {
        return false;
    }
    hear(port, &[GRANTED, r(0, true, 0)]);
    let stored = stores(64, 0xffff, [9, 0, 0, 0]);
    steps(port, &[rk(UC), stored, op(1, Outcome::Ok)])
}

#[test]
fn owns_a_shared_line(rt: HostRuntime) -> Result<(), Fail> {
    let mut port = port(rt.alloc(), &[LOADS, STORES])?;
    let holds = makes_it_unique(&mut port);
    drop(port);
    assert!(rt; holds);
    Ok(())
}

fn w(last: bool, word: u128) -> Event {
    Event::W {
        port: 0,
        strb: 0xffff,
        last,
        word,
    }
}

/// The port fills the line, which it makes unique for that.
fn fills(port: &mut AcePort) -> bool {
    if !steps(port, &[ar(64, 12, 0, false)]) {
        return false;
    }
    hear(port, &[GRANTED, r(0, true, 0)]);
    let filled = stores(64, u64::MAX, [5, 6, 7, 8]);
    steps(port, &[filled, rk(UD), op(0, Outcome::Ok)])
}

/// A dirty line is written back before another takes its way.
fn writes_back_and_reads(port: &mut AcePort) -> bool {
    let data = [w(false, 5), w(false, 6), w(false, 7), w(true, 8)];
    if !steps(port, &[aw(64, 3, 0)]) || !steps(port, &data) || !steps(port, &[]) {
        return false;
    }
    let responds = Event::B {
        port: 0,
        id: 0,
        resp: 0,
    };
    hear(port, &[responds]);
    steps(port, &[Event::Wk { port: 0, st: I }]) && steps(port, &[ar(128, 1, 0, false)])
}

#[test]
fn makes_room(rt: HostRuntime) -> Result<(), Fail> {
    let fill = Op::Fill {
        addr: 64,
        line: Line {
            words: [5, 6, 7, 8],
        },
    };
    let load = Op::Ld { addr: 128, w: 0 };
    let mut port = port(rt.alloc(), &[fill, load])?;
    let holds = fills(&mut port) && writes_back_and_reads(&mut port);
    drop(port);
    assert!(rt; holds);
    Ok(())
}

/// Both halves of a barrier are issued at once, and it is done once both are acknowledged.
fn passes_a_barrier(port: &mut AcePort) -> bool {
    if !steps(port, &[ar(0, 0, 1, false), aw(0, 0, 1)]) {
        return false;
    }
    let responds = Event::B {
        port: 0,
        id: 0,
        resp: 0,
    };
    hear(port, &[r(0, true, 0), responds]);
    let ends = [Event::Wk { port: 0, st: I }, op(0, Outcome::Ok)];
    steps(port, &[rk(I)]) && steps(port, &ends)
}

/// A DVM message that waited for it is issued then.
fn sends_a_message(port: &mut AcePort) -> bool {
    if !steps(port, &[ar(0x1000, 15, 0, false)]) {
        return false;
    }
    hear(port, &[r(0, true, 0)]);
    steps(port, &[rk(I), op(1, Outcome::Ok)])
}

#[test]
fn orders(rt: HostRuntime) -> Result<(), Fail> {
    let mut port = port(rt.alloc(), &[Op::Mb, Op::Dvm { word: 0x1000 }])?;
    let holds = passes_a_barrier(&mut port) && sends_a_message(&mut port);
    drop(port);
    assert!(rt; holds);
    Ok(())
}

/// The port loads the line exclusively.
fn loads_exclusively(port: &mut AcePort) -> bool {
    if !steps(port, &[ar(64, 1, 0, true)]) {
        return false;
    }
    brings(port, 9);
    let loads = Event::L {
        port: 0,
        addr: 64,
        w: 0,
        x: true,
        word: 1,
    };
    steps(port, &[rk(SC), loads, op(0, Outcome::Ok)])
}

/// An exclusive store to a line that a snoop took after the exclusive load fails, and asks for
/// nothing.
fn loses_the_line(port: &mut AcePort) -> bool {
    let snoop = Event::Ac {
        port: 0,
        addr: 64,
        snoop: 9,
    };
    hear(port, &[snoop]);
    let gone = Event::Cr {
        port: 0,
        resp: 0,
        st: I,
    };
    steps(port, &[gone]) && steps(port, &[op(1, Outcome::Fail)])
}

#[test]
fn fails_a_lost_store(rt: HostRuntime) -> Result<(), Fail> {
    let load = Op::Ldx { addr: 64, w: 0 };
    let store = Op::Stx {
        addr: 64,
        w: 0,
        word: 9,
    };
    let mut port = port(rt.alloc(), &[load, store])?;
    let holds = loads_exclusively(&mut port) && loses_the_line(&mut port);
    drop(port);
    assert!(rt; holds);
    Ok(())
}

fn writes_a_line(line: u32) -> Op {
    Op::Wlu {
        addr: line.wrapping_mul(64),
        line: Line { words: [1; 4] },
    }
}

/// The port sends the data of a write.
fn sends_data(port: &mut AcePort) -> bool {
    let mut given = Burst::empty();
    port.send(&mut given) && given.len() == 4
}

/// The port's next step writes the line under the identifier, and it sends the data.
fn writes_under(port: &mut AcePort, id: u8, line: u32, k: u16) -> bool {
    let asks = Event::Aw {
        port: 0,
        id,
        addr: line.wrapping_mul(64),
        snoop: 1,
        dom: 1,
        bar: 0,
    };
    steps(port, &[asks, op(k, Outcome::Ok)]) && sends_data(port)
}

/// The port writes sixteen lines.
fn writes_sixteen(port: &mut AcePort) -> bool {
    for k in 0..16 {
        if !writes_under(port, k, u32::from(k), u16::from(k)) {
            return false;
        }
    }
    true
}

/// It waits then, until one of them is acknowledged: then it writes another under the same
/// identifier.
fn waits_for_an_identifier(port: &mut AcePort) -> bool {
    if !steps(port, &[]) {
        return false;
    }
    let responds = Event::B {
        port: 0,
        id: 5,
        resp: 0,
    };
    hear(port, &[responds]);
    steps(port, &[Event::Wk { port: 0, st: I }])
        && writes_under(port, 5, 16, 16)
        && steps(port, &[])
}

#[test]
fn writes_under_each_identifier(rt: HostRuntime) -> Result<(), Fail> {
    let mut of = [writes_a_line(0); 17];
    for k in 0..17 {
        of[k] = writes_a_line(k as u32);
    }
    let mut port = port(rt.alloc(), &of)?;
    let holds = writes_sixteen(&mut port) && waits_for_an_identifier(&mut port);
    drop(port);
    assert!(rt; holds);
    Ok(())
}
