// Traces of barriers, DVM messages and exclusive transactions at two ACE ports, written out by
// hand.

use ace_codes::{ArKind, SnoopKind};
use ace_event::{Channel, Event, Header};
use ace_model::Transaction;
use ace_model::kinds::read_kind;
use ace_portck::PortCheck;
use ace_sysck::SysCheck;
use std::alloc::Global;
use std::test::Fail;

const HEADER: Header = Header {
    version: 1,
    ports: 2,
    ace: 0b11,
};

fn read(port: u8, addr: u32, snoop: u8, dom: u8, bar: u8, lock: bool) -> Transaction {
    Transaction {
        place: 0,
        port,
        chan: Channel::Read,
        id: 5,
        addr,
        snoop,
        dom,
        bar,
        lock,
    }
}

/// A CleanUnique of line 0x40 by port 0, with lock 1, as the first event.
fn store() -> Transaction {
    read(0, 0x40, 11, 1, 0, true)
}

/// The first part of a message by port 0 with the word, as the first event.
fn part(word: u32) -> Transaction {
    read(0, word, 15, 1, 0, false)
}

fn ar(x: Transaction) -> Event {
    Event::Ar {
        port: x.port,
        id: x.id,
        addr: x.addr,
        snoop: x.snoop,
        dom: x.dom,
        bar: x.bar,
        lock: x.lock,
    }
}

fn g(x: Transaction) -> Event {
    Event::G {
        port: x.port,
        chan: Channel::Read,
        id: x.id,
    }
}

/// The checker of the system, with that of the ports.
#[derive(Drop)]
struct Checks {
    ports: PortCheck,
    system: SysCheck,
}

/// The checkers after these events, which are no snoops.
fn after(alloc: Global, events: &[Event]) -> Result<Checks, Fail> {
    let mut ports = PortCheck::new(alloc, HEADER)?;
    let mut system = SysCheck::with_room(alloc, HEADER, 8)?;
    for event in events {
        system.hear(&ports, event);
        ports.hear(event);
    }
    Ok(Checks { ports, system })
}

/// The rule that an AR of the read breaks after these.
fn rule_of_ar(alloc: Global, events: &[Event], x: Transaction) -> Result<Option<u8>, Fail> {
    let checks = after(alloc, events)?;
    let rule = match read_kind(&x) {
        Some(ArKind::Barrier) => checks.system.rule_of_half(&x),
        Some(ArKind::DvmComplete) => checks.system.rule_of_completion_ar(x.port, x.addr),
        _ => None,
    };
    drop(checks);
    Ok(rule)
}

/// The rule that an R of the read breaks after these.
fn rule_of_r(
    alloc: Global,
    events: &[Event],
    x: Transaction,
    resp: u8,
) -> Result<Option<u8>, Fail> {
    let checks = after(alloc, events)?;
    let rule = match read_kind(&x) {
        Some(ArKind::Barrier) => {
            let unordered = checks.ports.first_unordered(x.port);
            let incomplete = checks.ports.first_incomplete(x.port);
            checks
                .system
                .rule_of_half_r(&x, resp, unordered, incomplete)
        }
        Some(ArKind::DvmMessage) => checks.system.rule_of_message_r(&x, resp),
        _ => checks.system.rule_of_r(&x, resp),
    };
    drop(checks);
    Ok(rule)
}

/// The rule that an AC of port 1 breaks after these.
fn rule_of_ac(
    alloc: Global,
    events: &[Event],
    addr: u32,
    kind: SnoopKind,
) -> Result<Option<u8>, Fail> {
    let checks = after(alloc, events)?;
    let rule = checks.system.rule_of_ac(1, addr, kind);
    drop(checks);
    Ok(rule)
}

#[test]
fn fails_a_store_without_a_load(rt: HostRuntime) -> Result<(), Fail> {
    let alloc = rt.alloc();
    let x = store();
    let events = [ar(x), g(x)];
    let checks = after(alloc, &events)?;
    let system = &checks.system;
    let failed = (
        system.failed(0, 5),
        system.failed(0, 6),
        system.failed(1, 5),
    );
    drop(checks);
    assert_eq!(rt; failed, (true, false, false));
    assert_eq!(rt; rule_of_r(alloc, &events, x, 1)?, Some(21));
    assert_eq!(rt; rule_of_r(alloc, &events, x, 0)?, None);
    Ok(())
}

#[test]
fn forwards_messages(rt: HostRuntime) -> Result<(), Fail> {
    let alloc = rt.alloc();
    // a Hint, and then nothing else may be forwarded to port 1
    let x = part(0x6000);
    let events = [ar(x)];
    let cases = [
        (0x6000, SnoopKind::DvmMessage, None),
        (0x2000, SnoopKind::DvmMessage, Some(36)),
        (0, SnoopKind::DvmComplete, Some(39)),
    ];
    for (addr, kind, rule) in cases {
        assert_eq!(rt; rule_of_ac(alloc, &events, addr, kind)?, rule);
    }
    assert_eq!(rt; rule_of_r(alloc, &events, x, 0)?, Some(37));
    Ok(())
}

#[test]
fn begins_in_order(rt: HostRuntime) -> Result<(), Fail> {
    let alloc = rt.alloc();
    let barrier = read(0, 0, 0, 1, 1, false);
    let elsewhere = read(0, 0x40, 0, 1, 1, false);
    let completion = read(1, 0, 14, 1, 0, false);
    let cases = [
        (barrier, None),
        (elsewhere, Some(9)),
        (completion, Some(38)),
    ];
    for (x, rule) in cases {
        assert_eq!(rt; rule_of_ar(alloc, &[], x)?, rule);
    }
    assert_eq!(rt; rule_of_r(alloc, &[ar(barrier)], barrier, 0)?, Some(34));
    Ok(())
}
