//! How an ACE port asks, after worked traces.

use ace_codes::{ArKind, AwKind, LineState};
use ace_event::{Channel, Event, Header, Line};
use ace_master::{Asking, burst_of, completion_burst};
use ace_master_state::{Cached, Completions, Identifiers, Request};
use ace_portck::OnePort;
use std::alloc::Global;
use std::test::Fail;

const HEADER: Header = Header {
    version: 1,
    ports: 2,
    ace: 0b11,
};

/// What is kept of port 0, whose cache has one way.
#[derive(Drop)]
struct Kept {
    port: OnePort,
    identifiers: Identifiers,
    lines: Cached,
}

fn start(alloc: Global) -> Result<Kept, Fail> {
    Ok(Kept {
        port: OnePort::new(alloc, HEADER, 0, 8)?,
        identifiers: Identifiers::none(),
        lines: Cached::new(alloc, 1)?,
    })
}

fn hear(kept: &mut Kept, events: &[Event]) {
    for event in events {
        kept.identifiers.hear(&kept.port, event);
        kept.lines.hear(&kept.port, event);
        kept.port.hear(event);
    }
}

fn asks(kept: &Kept, request: Request) -> Option<Asking> {
    burst_of(&kept.port, &kept.identifiers, &kept.lines, request)
}

fn ar(id: u8, addr: u32, snoop: u8) -> Event {
    Event::Ar {
        port: 0,
        id,
        addr,
        snoop,
        dom: 1,
        bar: 0,
        lock: false,
    }
}

fn aw(id: u8, addr: u32, snoop: u8, dom: u8) -> Event {
    Event::Aw {
        port: 0,
        id,
        addr,
        snoop,
        dom,
        bar: 0,
    }
}

fn granted(id: u8) -> Event {
    Event::G {
        port: 0,
        chan: Channel::Read,
        id,
    }
}

fn r(id: u8, last: bool) -> Event {
    Event::R {
        port: 0,
        id,
        resp: 0,
        last,
        word: 7,
    }
}

/// Port 0 reads line 64, and holds it alone and clean.
fn fetches(kept: &mut Kept) {
    let ends = Event::Rk {
        port: 0,
        st: LineState::UC,
    };
    hear(kept, &[ar(0, 64, 7), granted(0), r(0, false), r(0, false)]);
    hear(kept, &[r(0, false), r(0, true), ends]);
}

fn misses(addr: u32) -> Request {
    Request::Misses {
        kind: ArKind::ReadShared,
        addr,
        lock: false,
    }
}

fn writes(kind: AwKind, addr: u32) -> Request {
    Request::Writes { kind, addr }
}

/// Each request takes the least identifier that is free; the parts of a message take two, and the
/// halves of a barrier share one.
fn takes_free_identifiers(kept: &mut Kept) -> bool {
    hear(kept, &[ar(0, 64, 1), ar(2, 128, 0)]);
    let message = Request::Messages {
        word: 0x1001,
        second: 0x2000,
    };
    let parts = Asking::Two(ar(1, 0x1001, 15), ar(3, 0x2000, 15));
    let halves = Asking::Two(barrier_read(1), barrier_write(1));
    asks(kept, misses(192)) == Some(Asking::One(ar(1, 192, 1)))
        && asks(kept, message) == Some(parts)
        && asks(kept, Request::Barriers { bar: 1 }) == Some(halves)
}

/// The AR of a barrier.
fn barrier_read(id: u8) -> Event {
    Event::Ar {
        port: 0,
        id,
        addr: 0,
        snoop: 0,
        dom: 1,
        bar: 1,
        lock: false,
    }
}

/// The AW of a barrier.
fn barrier_write(id: u8) -> Event {
    Event::Aw {
        port: 0,
        id,
        addr: 0,
        snoop: 0,
        dom: 1,
        bar: 1,
    }
}

#[test]
fn asks_with_free_identifiers(rt: HostRuntime) -> Result<(), Fail> {
    let mut kept = start(rt.alloc())?;
    let holds = takes_free_identifiers(&mut kept);
    drop(kept);
    assert!(rt; holds);
    Ok(())
}

/// A write waits for those of the port that may not be beside it.
fn waits_for_an_evict(kept: &mut Kept) -> bool {
    let unique = writes(AwKind::WriteUnique, 128);
    if asks(kept, unique) != Some(Asking::One(aw(0, 128, 0, 1))) {
        return false;
    }
    hear(kept, &[aw(0, 64, 4, 1)]);
    let plain = writes(AwKind::WriteNoSnoop, 128);
    asks(kept, unique) == None && asks(kept, plain) == Some(Asking::One(aw(1, 128, 0, 0)))
}

#[test]
fn keeps_writes_apart(rt: HostRuntime) -> Result<(), Fail> {
    let mut kept = start(rt.alloc())?;
    let holds = waits_for_an_evict(&mut kept);
    drop(kept);
    assert!(rt; holds);
    Ok(())
}

/// A port without room gives a clean line up that isn't busy.
fn drops_a_clean_line(kept: &mut Kept) -> bool {
    fetches(kept);
    let dropped = Asking::One(Event::S {
        port: 0,
        addr: 64,
        st: LineState::I,
    });
    asks(kept, misses(128)) == Some(dropped)
        && asks(kept, Request::Drops { addr: 64 }) == Some(dropped)
}

/// A dirty one it writes back, once.
fn writes_a_dirty_line_back(kept: &mut Kept) -> bool {
    let stores = Event::D {
        port: 0,
        addr: 64,
        strobe: 1,
        x: false,
        line: Line { words: [1; 4] },
    };
    hear(kept, &[stores]);
    let back = aw(0, 64, 3, 1);
    if asks(kept, misses(128)) != Some(Asking::One(back)) {
        return false;
    }
    hear(kept, &[back]);
    asks(kept, misses(128)) == None
}

#[test]
fn makes_room(rt: HostRuntime) -> Result<(), Fail> {
    let mut kept = start(rt.alloc())?;
    let holds = drops_a_clean_line(&mut kept) && writes_a_dirty_line_back(&mut kept);
    drop(kept);
    assert!(rt; holds);
    Ok(())
}

/// A port that has answered a Sync asks with a DVM Complete.
fn completes(port: &mut OnePort) -> bool {
    let identifiers = Identifiers::none();
    let mut completions = Completions::new(0);
    if completion_burst(port, &identifiers, &completions) != None {
        return false;
    }
    let snooped = Event::Ac {
        port: 0,
        addr: 0xc000,
        snoop: 15,
    };
    let answers = Event::Cr {
        port: 0,
        resp: 0,
        st: LineState::I,
    };
    for event in &[snooped, answers] {
        completions.hear(port, event);
        port.hear(event);
    }
    completion_burst(port, &identifiers, &completions) == Some(Asking::One(ar(0, 0, 14)))
}

#[test]
fn completes_a_sync(rt: HostRuntime) -> Result<(), Fail> {
    let mut port = OnePort::new(rt.alloc(), HEADER, 0, 8)?;
    let holds = completes(&mut port);
    drop(port);
    assert!(rt; holds);
    Ok(())
}
