// A filter that hears short traces, event by event.

use ace_codes::LineState;
use ace_event::{Channel, Event};
use ace_filter::Filter;
use std::alloc::Global;
use std::test::Fail;

const LINE: u32 = 0x40;

fn ar(port: u8, id: u8, addr: u32, snoop: u8) -> Event {
    Event::Ar {
        port,
        id,
        addr,
        snoop,
        dom: 1,
        bar: 0,
        lock: false,
    }
}

fn grant(port: u8, id: u8) -> Event {
    Event::G {
        port,
        chan: Channel::Read,
        id,
    }
}

fn aw(port: u8, id: u8, addr: u32, snoop: u8) -> Event {
    Event::Aw {
        port,
        id,
        addr,
        snoop,
        dom: 1,
        bar: 0,
    }
}

fn ac(port: u8, addr: u32, snoop: u8) -> Event {
    Event::Ac { port, addr, snoop }
}

fn cr(port: u8, st: LineState) -> Event {
    Event::Cr { port, resp: 0, st }
}

fn hear_all(filter: &mut Filter, events: &[Event]) {
    for event in events {
        filter.hear(event);
    }
}

/// A filter of so many lines whose port 0 read the line by a ReadUnique. The transfers of a read
/// tell a filter nothing, so one stands for its four.
fn with_line(alloc: Global, lines: u32) -> Option<Filter> {
    let Ok(mut filter) = Filter::new(alloc, lines) else {
        return None;
    };
    hear_all(
        &mut filter,
        &[
            ar(0, 0, LINE, 7),
            grant(0, 0),
            Event::R {
                port: 0,
                id: 0,
                resp: 0,
                last: true,
                word: 0,
            },
            Event::Rk {
                port: 0,
                st: LineState::UC,
            },
        ],
    );
    Some(filter)
}

#[test]
fn an_evict_takes_a_port_out(rt: HostRuntime) -> Result<(), Fail> {
    let mut filter = with_line(rt.alloc(), 1).ok_or("memory")?;
    assert_eq!(rt; filter.set(LINE), 1);
    assert_eq!(rt; filter.spare(), 0);
    hear_all(
        &mut filter,
        &[
            aw(0, 0, LINE, 4),
            Event::B {
                port: 0,
                id: 0,
                resp: 0,
            },
        ],
    );
    assert_eq!(rt; filter.set(LINE), 1);
    filter.hear(&Event::Wk {
        port: 0,
        st: LineState::I,
    });
    assert_eq!(rt; filter.set(LINE), 0);
    Ok(())
}

#[test]
fn a_silent_transition_leaves_a_port_in(rt: HostRuntime) -> Result<(), Fail> {
    let mut filter = with_line(rt.alloc(), 1).ok_or("memory")?;
    filter.hear(&Event::S {
        port: 0,
        addr: LINE,
        st: LineState::I,
    });
    assert_eq!(rt; filter.set(LINE), 1);
    Ok(())
}

#[test]
fn an_answer_takes_a_port_out(rt: HostRuntime) -> Result<(), Fail> {
    let mut filter = with_line(rt.alloc(), 4096).ok_or("memory")?;
    assert_eq!(rt; filter.spare(), 4095);
    hear_all(
        &mut filter,
        &[
            ar(1, 5, LINE, 7),
            grant(1, 5),
            ac(0, 0x8000, 15),
            ac(0, LINE, 7),
            cr(0, LineState::I),
        ],
    );
    assert_eq!(rt; filter.set(LINE), 3);
    filter.hear(&cr(0, LineState::I));
    assert_eq!(rt; filter.set(LINE), 2);
    assert_eq!(rt; filter.set(0x80), 0);
    assert_eq!(rt; filter.spare(), 4095);
    Ok(())
}
