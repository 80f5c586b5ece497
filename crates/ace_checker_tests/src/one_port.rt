// What is kept of an ACE-Lite port, with events of another port between its own.

use ace_event::{Channel, Event, Header, Outcome};
use ace_portck::OnePort;
use std::alloc::Global;
use std::test::Fail;

const HEADER: Header = Header {
    version: 1,
    ports: 2,
    ace: 0b01,
};

fn ar(port: u8, id: u8, addr: u32) -> Event {
    Event::Ar {
        port,
        id,
        addr,
        snoop: 0,
        dom: 1,
        bar: 0,
        lock: false,
    }
}

fn aw(port: u8, id: u8, addr: u32) -> Event {
    Event::Aw {
        port,
        id,
        addr,
        snoop: 1,
        dom: 1,
        bar: 0,
    }
}

fn w(last: bool) -> Event {
    Event::W {
        port: 1,
        strb: 0xffff,
        last,
        word: 7,
    }
}

fn op(port: u8) -> Event {
    Event::Op {
        port,
        k: 0,
        res: Outcome::Ok,
    }
}

/// Port 1 after these events.
fn after(alloc: Global, events: &[Event]) -> Option<OnePort> {
    let Ok(mut port) = OnePort::new(alloc, HEADER, 1, 0) else {
        return None;
    };
    for event in events {
        port.hear(event);
    }
    Some(port)
}

/// The port has both transactions of its own, and no other.
fn has_its_own(port: &OnePort) -> bool {
    port.reads().len() == 1
        && port.writes().len() == 1
        && port.named(Channel::Read, 3).is_none()
        && port.named(Channel::Read, 2).is_some()
        && port.is_line_free(0x40)
        && !port.is_line_free(0x80)
        && port.own(0xc0).is_some()
}

/// The write of the port waits for its burst.
fn awaits_its_burst(port: &OnePort) -> bool {
    port.has_unique_write()
        && !port.has_giving_up()
        && port.next_write().is_some()
        && port.next_write_beat() == 1
        && port.answered().is_none()
        && port.acknowledged(Channel::Write).is_none()
        && port.retired() == 1
}

/// The write of the port ends with its burst and its response.
fn ends_its_write(port: &mut OnePort) -> bool {
    for last in [false, false, true] {
        port.hear(&w(last));
    }
    let sent = port.next_write().is_none() && port.next_write_beat() == 0;
    port.hear(&Event::B {
        port: 1,
        id: 5,
        resp: 0,
    });
    sent && port.writes().len() == 0 && port.is_line_free(0x80)
}

/// What is kept of port 1 after these events.
fn is_kept(port: &mut OnePort) -> bool {
    port.port() == 1
        && port.header() == HEADER
        && port.count() == 5
        && has_its_own(port)
        && awaits_its_burst(port)
        && ends_its_write(port)
}

#[test]
fn keeps_one_port(rt: HostRuntime) -> Result<(), Fail> {
    let heard = [
        ar(0, 3, 0x40),
        aw(1, 5, 0x80),
        op(1),
        ar(1, 2, 0xc0),
        w(false),
    ];
    let Some(mut port) = after(rt.alloc(), &heard) else {
        return Err(Fail::new("no memory"));
    };
    let kept = is_kept(&mut port);
    drop(port);
    assert!(rt; kept);
    Ok(())
}
