//! What the master of an ACE port does by its steps, for a plan of one port.

ghost use Rattle.std.specs.Prelude.{◌≡◌, [], IfOk};
ghost use Rattle.ace_master.specs.AcePort.{AcePortStands};
ghost use Rattle.ace_master_tests.specs.AceWorked.{cleaning_plan};

use crate::operations::has_events;
use ace_codes::LineState::{I, SC};
use ace_engine::{Burst, Engine};
use ace_event::{Channel, Event, Header, Line, Outcome};
use ace_master::{AceMaster, AcePort, Asking};
use ace_model::{Op, PlanOp, PlanView, PolicyWord};
use ace_policy::Keep;
use std::alloc::Global;
use std::test::Fail;

const HEADER: Header = Header {
    version: 1,
    ports: 1,
    ace: 1,
};

const CLEANS: Op = Op::Cs { addr: 64 };

/// The plan of the only port, which cleans a line. It has room for another operation.
fn plan(alloc: Global) -> Result<PlanView, Fail>
    ensures plan { IfOk result (λ view. view.plan ≡ cleaning_plan) }
    ensures room { IfOk result (λ view. view.room ≡ 1) }
{
    let mut plan = PlanView::with_room(alloc, HEADER, 1, PolicyWord::Keep, 2)?;
    plan.push(PlanOp {
        port: 0,
        op: CLEANS,
    });
    Ok(plan)
}

/// What is kept of the port at first.
fn port(alloc: Global) -> Result<AcePort, Fail>
    ensures stands { IfOk result (λ s. AcePortStands s cleaning_plan []) }
{
    let plan = plan(alloc)?;
    Ok(AcePort::new(alloc, &plan, 0)?)
}

/// The AR by which the port asks that the line is cleaned.
const CLEAN: Event = Event::Ar {
    port: 0,
    id: 0,
    addr: 64,
    snoop: 8,
    dom: 1,
    bar: 0,
    lock: false,
};

/// The next operation of a port is its first.
#[test]
fn begins_with_the_first(rt: HostRuntime) -> Result<(), Fail> {
    let port = port(rt.alloc())?;
    let holds = port.retired() == 0 && port.next() == Some(CLEANS);
    drop(port);
    assert!(rt; holds);
    Ok(())
}

/// The master of a port asks for what that needs.
#[test]
fn asks_for_the_first(rt: HostRuntime) -> Result<(), Fail> {
    let plan = plan(rt.alloc())?;
    let mut master = AceMaster::new(rt.alloc(), &plan, 0, Keep)?;
    let mut burst = Burst::empty();
    let begins = master.retired() == 0 && master.turn(0, &mut burst);
    let holds = begins && has_events(&burst, &[CLEAN]);
    drop(master);
    drop(plan);
    assert!(rt; holds);
    Ok(())
}

/// An operation that is pushed comes after those of the plan.
#[test]
fn takes_another(rt: HostRuntime) -> Result<(), Fail> {
    let mut port = port(rt.alloc())?;
    port.push(Op::Mb);
    let first = port.next();
    port.kept.hear(&Event::Op {
        port: 0,
        k: 0,
        res: Outcome::Ok,
    });
    let holds = first == Some(CLEANS) && port.next() == Some(Op::Mb);
    drop(port);
    assert!(rt; holds);
    Ok(())
}

/// The port answers its oldest snoop with these events.
fn answers(port: &mut AcePort, events: &[Event]) -> bool {
    let mut burst = Burst::empty();
    port.answer(&mut Keep, &mut burst) && has_events(&burst, events)
}

/// The port has no snoop to answer.
fn answers_nothing(port: &mut AcePort) -> bool {
    !port.answer(&mut Keep, &mut Burst::empty())
}

/// The answer to a snoop of a line that the port doesn't hold, or to a message.
const HOLDS_NOTHING: Event = Event::Cr {
    port: 0,
    resp: 0,
    st: I,
};

/// A port that holds nothing says so where it is snooped, and not again.
fn says_so_once(port: &mut AcePort) -> bool {
    if !answers_nothing(port) {
        return false;
    }
    port.hear(&Event::Ac {
        port: 0,
        addr: 64,
        snoop: 8,
    });
    answers(port, &[HOLDS_NOTHING]) && answers_nothing(port)
}

#[test]
fn answers_once(rt: HostRuntime) -> Result<(), Fail> {
    let mut port = port(rt.alloc())?;
    let holds = says_so_once(&mut port);
    drop(port);
    assert!(rt; holds);
    Ok(())
}

/// A port that has answered a Sync completes it.
fn completes(port: &mut AcePort) -> bool {
    let mut none = Burst::empty();
    if port.complete(&mut none) {
        return false;
    }
    port.hear(&Event::Ac {
        port: 0,
        addr: 0xc000,
        snoop: 15,
    });
    let complete = Event::Ar {
        port: 0,
        id: 0,
        addr: 0,
        snoop: 14,
        dom: 1,
        bar: 0,
        lock: false,
    };
    let mut burst = Burst::empty();
    answers(port, &[HOLDS_NOTHING]) && port.complete(&mut burst) && has_events(&burst, &[complete])
}

#[test]
fn completes_a_sync(rt: HostRuntime) -> Result<(), Fail> {
    let mut port = port(rt.alloc())?;
    let holds = completes(&mut port);
    drop(port);
    assert!(rt; holds);
    Ok(())
}

/// A CleanShared is asked for.
#[test]
fn asks(rt: HostRuntime) -> Result<(), Fail> {
    let mut port = port(rt.alloc())?;
    let mut none = Burst::empty();
    let holds = !port.end(CLEANS, &mut none) && port.asking_for(CLEANS) == Some(Asking::One(CLEAN));
    drop(port);
    assert!(rt; holds);
    Ok(())
}

/// There is nothing to write back of a line that the port doesn't hold.
#[test]
fn ends_without_asking(rt: HostRuntime) -> Result<(), Fail> {
    let mut port = port(rt.alloc())?;
    let skips = Event::Op {
        port: 0,
        k: 0,
        res: Outcome::Skip,
    };
    let mut burst = Burst::empty();
    let holds = port.end(Op::Wb { addr: 64 }, &mut burst) && has_events(&burst, &[skips]);
    drop(port);
    assert!(rt; holds);
    Ok(())
}

fn r(last: bool, word: u128) -> Event {
    Event::R {
        port: 0,
        id: 3,
        resp: 8,
        last,
        word,
    }
}

/// The port hears the events.
fn hear(port: &mut AcePort, events: &[Event]) {
    for event in events {
        port.kept.hear(event);
    }
}

/// The port reads a line, and holds it shared.
fn reads(port: &mut AcePort) {
    let asks = Event::Ar {
        port: 0,
        id: 3,
        addr: 64,
        snoop: 1,
        dom: 1,
        bar: 0,
        lock: false,
    };
    let granted = Event::G {
        port: 0,
        chan: Channel::Read,
        id: 3,
    };
    hear(port, &[asks, granted, r(false, 1), r(false, 2)]);
    hear(
        port,
        &[r(false, 3), r(true, 4), Event::Rk { port: 0, st: SC }],
    );
}

fn w(last: bool, word: u128) -> Event {
    Event::W {
        port: 0,
        strb: 0xffff,
        last,
        word,
    }
}

/// The data of a line that is written back are the port's copy.
fn sends_what_it_holds(port: &mut AcePort) -> bool {
    reads(port);
    let stores = Event::D {
        port: 0,
        addr: 64,
        strobe: 0xffff,
        x: false,
        line: Line {
            words: [9, 0, 0, 0],
        },
    };
    let writes = Event::Aw {
        port: 0,
        id: 5,
        addr: 64,
        snoop: 3,
        dom: 1,
        bar: 0,
    };
    hear(port, &[stores, writes]);
    let mut burst = Burst::empty();
    port.send(&mut burst)
        && has_events(&burst, &[w(false, 9), w(false, 2), w(false, 3), w(true, 4)])
}

#[test]
fn sends_its_copy(rt: HostRuntime) -> Result<(), Fail> {
    let mut port = port(rt.alloc())?;
    let holds = sends_what_it_holds(&mut port);
    drop(port);
    assert!(rt; holds);
    Ok(())
}
