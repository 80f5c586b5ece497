//! What a master keeps, after worked traces.

use ace_codes::LineState::{self, I, SC, UC, UD};
use ace_event::{Channel, Event, Header, Line, Outcome};
use ace_master_state::{Cached, Closing, Completions, Identifiers, Kept, Monitor, Segment, Syncs};
use ace_model::Op;
use ace_portck::OnePort;
use std::alloc::Global;
use std::test::Fail;

const HEADER: Header = Header {
    version: 1,
    ports: 2,
    ace: 0b11,
};

/// What is kept of port 0.
fn start(alloc: Global) -> Result<Kept, Fail> {
    Ok(Kept {
        port: OnePort::new(alloc, HEADER, 0, 8)?,
        identifiers: Identifiers::none(),
        lines: Cached::new(alloc, 2)?,
        monitor: Monitor::new(0),
        segment: Segment::new(alloc, 0)?,
        completions: Completions::new(0),
        syncs: Syncs::new(0),
    })
}

fn hear(kept: &mut Kept, events: &[Event]) {
    for event in events {
        kept.hear(event);
    }
}

fn ar(id: u8, addr: u32, snoop: u8, lock: bool) -> Event {
    Event::Ar {
        port: 0,
        id,
        addr,
        snoop,
        dom: 1,
        bar: 0,
        lock,
    }
}

fn r(id: u8, resp: u8, last: bool, word: u128) -> Event {
    Event::R {
        port: 0,
        id,
        resp,
        last,
        word,
    }
}

fn granted(id: u8) -> Event {
    Event::G {
        port: 0,
        chan: Channel::Read,
        id,
    }
}

fn rk(st: LineState) -> Event {
    Event::Rk { port: 0, st }
}

fn load(addr: u32, x: bool) -> Event {
    Event::L {
        port: 0,
        addr,
        w: 0,
        x,
        word: 1,
    }
}

fn retires() -> Event {
    Event::Op {
        port: 0,
        k: 0,
        res: Outcome::Ok,
    }
}

/// Port 0 reads line 64 word by word, and loads from it.
fn reading(kept: &mut Kept) {
    hear(kept, &[ar(3, 64, 1, true), granted(3)]);
    hear(kept, &[r(3, 9, false, 1), r(3, 9, false, 2)]);
    hear(kept, &[r(3, 9, false, 3), r(3, 9, true, 4)]);
}

/// A line that is fetched is held from its RK on, with the words that came.
fn holds_what_came(kept: &mut Kept) -> bool {
    reading(kept);
    let waits = kept.lines.state(64) == I && kept.lines.has_room();
    let issued = kept.segment.issued().len() == 1 && kept.segment.acts() == 0;
    hear(kept, &[rk(SC), load(64, true)]);
    let words = Line {
        words: [1, 2, 3, 4],
    };
    waits && issued && kept.lines.state(64) == SC && kept.lines.copy(64) == words
}

/// An exclusive load sets the monitor, and the next operation begins anew.
fn begins_anew(kept: &mut Kept) -> bool {
    let acted = kept.segment.acts() == 1;
    hear(kept, &[retires()]);
    let is_set = kept.monitor.is_set(64) && !kept.monitor.is_set(128);
    acted && is_set && kept.segment.issued().len() == 0 && kept.segment.acts() == 0
}

#[test]
fn fetches_a_line(rt: HostRuntime) -> Result<(), Fail> {
    let mut kept = start(rt.alloc())?;
    let holds = holds_what_came(&mut kept) && begins_anew(&mut kept);
    drop(kept);
    assert!(rt; holds);
    Ok(())
}

/// The state of line 64, and whether the monitor is set for it.
fn state_and_monitor(kept: &Kept) -> (LineState, bool) {
    (kept.lines.state(64), kept.monitor.is_set(64))
}

/// A snoop takes the line, and the monitor with it; events of another port change nothing.
fn loses_the_line(kept: &mut Kept) -> bool {
    reading(kept);
    hear(kept, &[rk(SC), load(64, true), retires()]);
    let other = Event::Rk { port: 1, st: UC };
    hear(kept, &[other, snooped(64, 7)]);
    let before = state_and_monitor(kept);
    hear(kept, &[answers()]);
    before == (SC, true) && state_and_monitor(kept) == (I, false)
}

#[test]
fn loses_a_line(rt: HostRuntime) -> Result<(), Fail> {
    let mut kept = start(rt.alloc())?;
    let holds = loses_the_line(&mut kept);
    drop(kept);
    assert!(rt; holds);
    Ok(())
}

/// A MakeUnique leaves what is stored in it.
fn makes_and_stores(kept: &mut Kept) -> bool {
    let stored = Line {
        words: [5, 6, 7, 8],
    };
    let store = Event::D {
        port: 0,
        addr: 128,
        strobe: u64::MAX,
        x: false,
        line: stored,
    };
    hear(kept, &[ar(0, 128, 12, false), granted(0)]);
    hear(kept, &[r(0, 0, true, 0), store, rk(UD)]);
    kept.lines.state(128) == UD && kept.lines.copy(128) == stored
}

/// Two lines fill two ways, until one is given up.
fn fills_two_ways(kept: &mut Kept) -> bool {
    let full = kept.lines.state(64) == SC && !kept.lines.has_room();
    let dropped = Event::S {
        port: 0,
        addr: 64,
        st: I,
    };
    hear(kept, &[dropped]);
    full && kept.lines.state(64) == I && kept.lines.has_room()
}

#[test]
fn makes_a_line(rt: HostRuntime) -> Result<(), Fail> {
    let mut kept = start(rt.alloc())?;
    reading(&mut kept);
    hear(&mut kept, &[rk(SC), load(64, false), retires()]);
    let holds = makes_and_stores(&mut kept) && fills_two_ways(&mut kept);
    drop(kept);
    assert!(rt; holds);
    Ok(())
}

fn snooped(addr: u32, snoop: u8) -> Event {
    Event::Ac {
        port: 0,
        addr,
        snoop,
    }
}

fn answers() -> Event {
    Event::Cr {
        port: 0,
        resp: 0,
        st: I,
    }
}

/// A port owes a DVM Complete for each Sync that it has answered; the second part of a message is
/// none, whatever its word is.
fn owes_for_the_second(port: &mut OnePort) -> bool {
    let mut completions = Completions::new(0);
    let first = [snooped(0x1001, 15), snooped(0xc000, 15)];
    let rest = [answers(), answers(), snooped(0xc000, 15)];
    for event in first.iter().chain(rest.iter()) {
        completions.hear(port, event);
        port.hear(event);
    }
    let early = completions.owes();
    completions.hear(port, &answers());
    let owed = completions.owes();
    completions.hear(port, &ar(0, 0, 14, false));
    !early && owed && !completions.owes()
}

#[test]
fn owes_a_completion(rt: HostRuntime) -> Result<(), Fail> {
    let mut port = OnePort::new(rt.alloc(), HEADER, 0, 8)?;
    let holds = owes_for_the_second(&mut port);
    drop(port);
    assert!(rt; holds);
    Ok(())
}

fn op(k: u16, res: Outcome) -> Event {
    Event::Op { port: 0, k, res }
}

/// What ends the operation is this.
fn ends_by(kept: &Kept, operation: Op, refused: bool, closing: Closing) -> bool {
    kept.closing_of(operation, refused) == closing
}

/// A load waits for its line, is made once the line is there, and ends the operation.
fn loads_and_ends(kept: &mut Kept) -> bool {
    let ld = Op::Ld { addr: 64, w: 1 };
    let idle = ends_by(kept, ld, false, Closing::Nothing) && !kept.is_waiting(ld);
    reading(kept);
    let waits = kept.is_waiting(ld) && !kept.awaits_update();
    hear(kept, &[rk(SC)]);
    let load = Event::L {
        port: 0,
        addr: 64,
        w: 1,
        x: false,
        word: 2,
    };
    let ends = op(0, Outcome::Ok);
    let accesses = ends_by(kept, ld, false, Closing::Accesses(load, ends));
    hear(kept, &[load]);
    idle && waits && accesses && ends_by(kept, ld, false, Closing::Retires(ends))
}

#[test]
fn ends_a_load(rt: HostRuntime) -> Result<(), Fail> {
    let mut kept = start(rt.alloc())?;
    let holds = loads_and_ends(&mut kept);
    drop(kept);
    assert!(rt; holds);
    Ok(())
}

const STORE: Op = Op::St {
    addr: 64,
    w: 1,
    word: 9,
};

const EXCLUSIVE_STORE: Op = Op::Stx {
    addr: 64,
    w: 1,
    word: 9,
};

/// The port holds line 64 shared, which it has loaded exclusively.
fn shares(kept: &mut Kept) {
    reading(kept);
    hear(kept, &[rk(SC), load(64, true), retires()]);
}

/// What finds nothing to do is skipped, and an exclusive store that was refused fails.
fn skips_and_fails(kept: &mut Kept) -> bool {
    shares(kept);
    let fails = Closing::Retires(op(1, Outcome::Fail));
    let skips = Closing::Retires(op(1, Outcome::Skip));
    ends_by(kept, EXCLUSIVE_STORE, false, Closing::Nothing)
        && ends_by(kept, EXCLUSIVE_STORE, true, fails)
        && ends_by(kept, Op::Wb { addr: 64 }, false, skips)
        && !kept.may_retire(Op::Ev { addr: 64 }, Outcome::Skip, false)
}

#[test]
fn ends_other_operations(rt: HostRuntime) -> Result<(), Fail> {
    let mut kept = start(rt.alloc())?;
    let holds = skips_and_fails(&mut kept);
    drop(kept);
    assert!(rt; holds);
    Ok(())
}

/// A store is made in a unique line alone.
fn stores_once_unique(kept: &mut Kept) -> bool {
    shares(kept);
    let shared = ends_by(kept, STORE, false, Closing::Nothing);
    hear(kept, &[ar(0, 64, 11, false), granted(0)]);
    hear(kept, &[r(0, 0, true, 0), rk(UC)]);
    let store = Event::D {
        port: 0,
        addr: 64,
        strobe: 0xffff_0000,
        x: false,
        line: Line {
            words: [0, 9, 0, 0],
        },
    };
    let ends = op(1, Outcome::Ok);
    shared && ends_by(kept, STORE, false, Closing::Accesses(store, ends))
}

#[test]
fn ends_a_store(rt: HostRuntime) -> Result<(), Fail> {
    let mut kept = start(rt.alloc())?;
    let holds = stores_once_unique(&mut kept);
    drop(kept);
    assert!(rt; holds);
    Ok(())
}

/// A Sync ends once its port has answered the AC DVM Complete.
fn ends_once_answered(kept: &mut Kept) -> bool {
    let sync = Op::Sync { word: 0xc000 };
    hear(kept, &[ar(0, 0xc000, 15, false), r(0, 0, true, 0)]);
    let early = ends_by(kept, sync, false, Closing::Nothing);
    hear(kept, &[snooped(0, 14)]);
    let still_early = ends_by(kept, sync, false, Closing::Nothing);
    hear(kept, &[answers()]);
    let ends = Closing::Retires(op(0, Outcome::Ok));
    early && still_early && ends_by(kept, sync, false, ends)
}

#[test]
fn ends_a_sync(rt: HostRuntime) -> Result<(), Fail> {
    let mut kept = start(rt.alloc())?;
    let holds = ends_once_answered(&mut kept);
    drop(kept);
    assert!(rt; holds);
    Ok(())
}

fn aw(id: u8) -> Event {
    Event::Aw {
        port: 0,
        id,
        addr: 64,
        snoop: 1,
        dom: 1,
        bar: 0,
    }
}

fn b(id: u8) -> Event {
    Event::B {
        port: 0,
        id,
        resp: 0,
    }
}

/// The least identifiers that are free for a read, for a write and for both are these.
fn are_free(of: &Identifiers, read: u8, write: u8, both: u8) -> bool {
    of.free_on(Channel::Read) == Some(read)
        && of.free_on(Channel::Write) == Some(write)
        && of.free_on_both() == Some(both)
}

/// At an ACE port an identifier is free again from the RK or WK on.
fn frees_what_is_acknowledged(kept: &mut Kept) -> bool {
    hear(kept, &[ar(0, 64, 1, false), ar(1, 128, 0, false), aw(0)]);
    let taken = are_free(&kept.identifiers, 2, 1, 2);
    hear(kept, &[r(0, 0, false, 1), r(0, 0, true, 2), b(0)]);
    let complete = are_free(&kept.identifiers, 2, 1, 2);
    hear(kept, &[rk(UC)]);
    let read = are_free(&kept.identifiers, 0, 1, 2);
    hear(kept, &[Event::Wk { port: 0, st: I }]);
    let beside = kept.identifiers.free_on_beside(Channel::Read, 0);
    taken && complete && read && beside == Some(2) && are_free(&kept.identifiers, 0, 0, 0)
}

#[test]
fn frees_identifiers(rt: HostRuntime) -> Result<(), Fail> {
    let mut kept = start(rt.alloc())?;
    let holds = frees_what_is_acknowledged(&mut kept);
    drop(kept);
    assert!(rt; holds);
    Ok(())
}

/// At an ACE-Lite port it is free from the last R or the B on.
fn frees_what_is_complete() -> bool {
    let mut of = Identifiers::none();
    for event in &[ar(0, 64, 0, false), aw(0), r(0, 0, false, 1)] {
        of.hear_lite(event);
    }
    let taken = are_free(&of, 1, 1, 1);
    of.hear_lite(&r(0, 0, true, 2));
    let read = are_free(&of, 0, 1, 1);
    of.hear_lite(&b(0));
    taken && read && are_free(&of, 0, 0, 0)
}

/// None is left after sixteen writes.
fn uses_up_all() -> bool {
    let mut of = Identifiers::none();
    for id in 0..16 {
        if of.is_used_up() || of.free_on(Channel::Write) != Some(id) {
            return false;
        }
        of.hear_lite(&aw(id));
    }
    let none = of.free_on(Channel::Write) == None && of.free_on_both() == None;
    let used = of.is_used_up() && of.free_on(Channel::Read) == Some(0);
    of.hear_lite(&b(5));
    none && used && !of.is_used_up() && of.free_on(Channel::Write) == Some(5)
}

#[test]
fn uses_identifiers_at_lite_ports(rt: HostRuntime) -> Result<(), Fail> {
    assert!(rt; frees_what_is_complete() && uses_up_all());
    Ok(())
}
