//! Answers to snoops and bursts of write data, after worked traces.

use crate::operations::has_events;
use ace_codes::LineState::{self, I, SC};
use ace_engine::Burst;
use ace_event::{Channel, Event, Header, Line, Outcome};
use ace_master::{answer, send};
use ace_master_state::Cached;
use ace_policy::Chosen;
use ace_portck::{OnePort, WriteData};
use std::alloc::Global;
use std::test::Fail;

const HEADER: Header = Header {
    version: 1,
    ports: 2,
    ace: 0b11,
};

/// What is kept of port 0.
#[derive(Drop)]
struct Kept {
    port: OnePort,
    lines: Cached,
}

fn hear(kept: &mut Kept, events: &[Event]) {
    for event in events {
        kept.lines.hear(&kept.port, event);
        kept.port.hear(event);
    }
}

fn r(last: bool, word: u128) -> Event {
    Event::R {
        port: 0,
        id: 3,
        resp: 8,
        last,
        word,
    }
}

fn snooped(snoop: u8, addr: u32) -> Event {
    Event::Ac {
        port: 0,
        addr,
        snoop,
    }
}

fn writes(addr: u32, snoop: u8) -> Event {
    Event::Aw {
        port: 0,
        id: 5,
        addr,
        snoop,
        dom: 1,
        bar: 0,
    }
}

fn stores(word: u128) -> Event {
    Event::D {
        port: 0,
        addr: 64,
        strobe: 0xffff,
        x: false,
        line: Line {
            words: [word, 0, 0, 0],
        },
    }
}

/// Port 0 holds line 64, which it has read.
fn holding(alloc: Global) -> Result<Kept, Fail> {
    let mut kept = Kept {
        port: OnePort::new(alloc, HEADER, 0, 8)?,
        lines: Cached::new(alloc, 2)?,
    };
    let reads = Event::Ar {
        port: 0,
        id: 3,
        addr: 64,
        snoop: 1,
        dom: 1,
        bar: 0,
        lock: false,
    };
    let granted = Event::G {
        port: 0,
        chan: Channel::Read,
        id: 3,
    };
    hear(&mut kept, &[reads, granted, r(false, 1), r(false, 2)]);
    hear(
        &mut kept,
        &[r(false, 3), r(true, 4), Event::Rk { port: 0, st: SC }],
    );
    Ok(kept)
}

fn cd(last: bool, word: u128) -> Event {
    Event::Cd {
        port: 0,
        last,
        word,
    }
}

fn w(strb: u16, last: bool, word: u128) -> Event {
    Event::W {
        port: 0,
        strb,
        last,
        word,
    }
}

/// Port 0 answers its oldest snoop by the policy with these events.
fn answers(kept: &Kept, policy: &mut Chosen, events: &[Event]) -> bool {
    let mut burst = Burst::empty();
    answer(&kept.port, &kept.lines, policy, &mut burst) && has_events(&burst, events)
}

/// Port 0 has no snoop to answer, or may not yet.
fn answers_nothing(kept: &Kept) -> bool {
    !answer(
        &kept.port,
        &kept.lines,
        &mut Chosen::Keep,
        &mut Burst::empty(),
    )
}

/// Port 0 sends these events, the data of an operation among them where there are some.
fn sends(kept: &Kept, data: Option<WriteData>, events: &[Event]) -> bool {
    let mut burst = Burst::empty();
    send(&kept.port, &kept.lines, data, &mut burst) && has_events(&burst, events)
}

fn cr(resp: u8, st: LineState) -> Event {
    Event::Cr { port: 0, resp, st }
}

/// One policy keeps a shared line that is snooped by a ReadClean and sends nothing, the other gives
/// it up with its data.
fn follows_the_policy(kept: &mut Kept) -> bool {
    if !answers_nothing(kept) {
        return false;
    }
    hear(kept, &[snooped(2, 64)]);
    let gives = [
        cr(1, I),
        cd(false, 1),
        cd(false, 2),
        cd(false, 3),
        cd(true, 4),
    ];
    answers(kept, &mut Chosen::Keep, &[cr(8, SC)]) && answers(kept, &mut Chosen::Eager, &gives)
}

#[test]
fn answers_by_the_policy(rt: HostRuntime) -> Result<(), Fail> {
    let mut kept = holding(rt.alloc())?;
    let holds = follows_the_policy(&mut kept);
    drop(kept);
    assert!(rt; holds);
    Ok(())
}

/// A DVM Message is answered alone, and after the answer to a DVM Complete comes the OP of the
/// Sync.
fn answers_both_messages(kept: &mut Kept) -> bool {
    hear(kept, &[snooped(15, 0x8000)]);
    if !answers(kept, &mut Chosen::Keep, &[cr(0, I)]) {
        return false;
    }
    hear(kept, &[cr(0, I), snooped(14, 0)]);
    let retires = Event::Op {
        port: 0,
        k: 0,
        res: Outcome::Ok,
    };
    answers(kept, &mut Chosen::Eager, &[cr(0, I), retires])
}

#[test]
fn answers_messages(rt: HostRuntime) -> Result<(), Fail> {
    let mut kept = holding(rt.alloc())?;
    let holds = answers_both_messages(&mut kept);
    drop(kept);
    assert!(rt; holds);
    Ok(())
}

/// A line that is written back has its copy sent; a CleanInvalid of it waits meanwhile.
fn sends_the_copy(kept: &mut Kept) -> bool {
    hear(kept, &[stores(9), writes(64, 3), snooped(9, 64)]);
    let beats = [
        w(0xffff, false, 9),
        w(0xffff, false, 2),
        w(0xffff, false, 3),
        w(0xffff, true, 4),
    ];
    if !answers_nothing(kept) || !sends(kept, None, &beats) {
        return false;
    }
    hear(kept, &beats);
    !send(&kept.port, &kept.lines, None, &mut Burst::empty())
}

#[test]
fn writes_a_line_back(rt: HostRuntime) -> Result<(), Fail> {
    let mut kept = holding(rt.alloc())?;
    let holds = sends_the_copy(&mut kept);
    drop(kept);
    assert!(rt; holds);
    Ok(())
}

/// A WriteUnique sends the data of its operation.
fn sends_its_data(kept: &mut Kept) -> bool {
    hear(kept, &[writes(128, 0)]);
    let data = WriteData {
        strobe: 0xff00_0000_0000_0001,
        line: Line {
            words: [5, 6, 7, 8],
        },
    };
    let beats = [
        w(1, false, 5),
        w(0, false, 6),
        w(0, false, 7),
        w(0xff00, true, 8),
    ];
    sends(kept, Some(data), &beats)
}

#[test]
fn sends_the_data_of_an_operation(rt: HostRuntime) -> Result<(), Fail> {
    let mut kept = holding(rt.alloc())?;
    let holds = sends_its_data(&mut kept);
    drop(kept);
    assert!(rt; holds);
    Ok(())
}
