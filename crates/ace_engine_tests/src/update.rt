//! The engine after two worked traces: a memory update whose data are whole, and an Evict.

ghost use Rattle.std.specs.Prelude.{◌≡◌, true, false, [], IfOk};
ghost use Rattle.ace_event.specs.declared.event.Channel.TheVariants.{Read};
ghost use Rattle.ace_event.specs.declared.event.Event.{Event};
ghost use Rattle.ace_event.specs.declared.event.Event.TheVariants.{Ar, Aw, D, G, Op as Retires, R, Rk, W};
ghost use Rattle.ace_event.specs.declared.event.Outcome.TheVariants.{Ok};
ghost use Rattle.ace_model.specs.Plans.{IsRight, Plan};
ghost use Rattle.ace_model.specs.Trace.{Trace};
ghost use Rattle.ace_model.specs.Values.{full_line};
ghost use Rattle.ace_runs.specs.Bursts.{onto};
ghost use Rattle.ace_engine.specs.Engines.{IsLegal};
ghost use Rattle.ace_update.specs.Update.{UpdateStands};
ghost use Rattle.ace_engine_tests.specs.Update.{are_others, evict_events, evict_plan, plan_of, stored, update_events, update_plan};

use crate::bursts::has_events;
use ace_codes::ArKind;
use ace_codes::LineState::{self, UC, UD};
use ace_engine::{Burst, Engine};
use ace_event::{Channel, Event, Header, Line, Outcome};
use ace_model::{Op, PlanOp, PlanView, PolicyWord};
use ace_update::Update;
use std::alloc::Global;
use std::test::Fail;

const HEADER: Header = Header {
    version: 1,
    ports: 1,
    ace: 1,
};

pub const STORED: Line = Line {
    words: [5, 6, 7, 8],
};

/// The plan of one port with these operations.
pub fn plan_of(alloc: Global, first: Op, second: Op) -> Result<PlanView, Fail>
    ensures { IfOk result (λ v. v.plan ≡ plan_of first second) }
{
    let mut view = PlanView::with_room(alloc, HEADER, 1, PolicyWord::Keep, 2)?;
    view.push(PlanOp { port: 0, op: first });
    view.push(PlanOp {
        port: 0,
        op: second,
    });
    Ok(view)
}

/// The engine hears the events, which others put.
fn hear_all(update: &mut Update, events: &[Event])
    ensures { (plan : Plan) (past : Trace) → UpdateStands update.old plan past
        → IsLegal plan (onto events.now past) → are_others past events.now ≡ true
        → UpdateStands update.new plan (onto events.now past) }
{
    for event in events {
        update.hear(event);
    }
}

fn ar(snoop: u8) -> Event
    ensures { result ≡ Ar 0 0 64 snoop 1 0 false }
{
    Event::Ar {
        port: 0,
        id: 0,
        addr: 64,
        snoop,
        dom: 1,
        bar: 0,
        lock: false,
    }
}

fn aw(snoop: u8) -> Event
    ensures { result ≡ Aw 0 0 64 snoop 1 0 }
{
    Event::Aw {
        port: 0,
        id: 0,
        addr: 64,
        snoop,
        dom: 1,
        bar: 0,
    }
}

fn granted() -> Event
    ensures { result ≡ G 0 Read 0 }
{
    Event::G {
        port: 0,
        chan: Channel::Read,
        id: 0,
    }
}

fn r(last: bool) -> Event
    ensures { result ≡ R 0 0 0 last 0 }
{
    Event::R {
        port: 0,
        id: 0,
        resp: 0,
        last,
        word: 0,
    }
}

fn rk(st: LineState) -> Event
    ensures { result ≡ Rk 0 st }
{
    Event::Rk { port: 0, st }
}

pub fn op(k: u16) -> Event
    ensures { result ≡ Retires 0 k Ok }
{
    Event::Op {
        port: 0,
        k,
        res: Outcome::Ok,
    }
}

pub fn w(last: bool, word: u128) -> Event
    ensures { result ≡ W 0 65535 last word }
{
    Event::W {
        port: 0,
        strb: 0xffff,
        last,
        word,
    }
}

fn stores() -> Event
    ensures { result ≡ D 0 64 full_line false stored }
{
    Event::D {
        port: 0,
        addr: 64,
        strobe: u64::MAX,
        x: false,
        line: STORED,
    }
}

/// The engine after a port has stored a line and writes it back.
fn writing_back(alloc: Global) -> Result<Update, Fail>
    ensures { IfOk result (λ s. UpdateStands s update_plan (onto update_events [])) }
{
    let store = Op::Fill {
        addr: 64,
        line: STORED,
    };
    let plan = plan_of(alloc, store, Op::Wb { addr: 64 })?;
    let mut update = Update::new(alloc, &plan)?;
    let stored = [ar(12), granted(), r(true), stores(), rk(UD), op(0)];
    hear_all(&mut update, &stored);
    let written = [
        aw(3),
        op(1),
        w(false, 5),
        w(false, 6),
        w(false, 7),
        w(true, 8),
    ];
    hear_all(&mut update, &written);
    Ok(update)
}

/// The engine after a port has read a line and gives it up.
fn giving_up(alloc: Global) -> Result<Update, Fail>
    ensures { IfOk result (λ s. UpdateStands s evict_plan (onto evict_events [])) }
{
    let read = Op::Pf {
        addr: 64,
        kind: ArKind::ReadUnique,
    };
    let plan = plan_of(alloc, read, Op::Ev { addr: 64 })?;
    let mut update = Update::new(alloc, &plan)?;
    let fetched = [
        ar(7),
        granted(),
        r(false),
        r(false),
        r(false),
        r(true),
        rk(UC),
        op(0),
    ];
    hear_all(&mut update, &fetched);
    hear_all(&mut update, &[aw(4), op(1)]);
    Ok(update)
}

/// Memory gets what was stored, and the port its response; then there is nothing to do.
#[test]
fn writes_memory(rt: HostRuntime) -> Result<(), Fail> {
    let mut update = writing_back(rt.alloc())?;
    let mut out = Burst::empty();
    assert!(rt; update.turn(0, &mut out));
    let written = Event::M {
        port: 0,
        chan: Channel::Write,
        id: 0,
        line: STORED,
    };
    let response = Event::B {
        port: 0,
        id: 0,
        resp: 0,
    };
    let mut none = Burst::empty();
    let again = update.turn(0, &mut none);
    assert!(rt; has_events(&out, &[written, response]) && !again && none.len() == 0);
    Ok(())
}

/// An Evict gets its response; then there is nothing to do.
#[test]
fn responds(rt: HostRuntime) -> Result<(), Fail> {
    let mut update = giving_up(rt.alloc())?;
    let mut out = Burst::empty();
    assert!(rt; update.turn(0, &mut out));
    let response = Event::B {
        port: 0,
        id: 0,
        resp: 0,
    };
    let mut none = Burst::empty();
    let again = update.turn(0, &mut none);
    assert!(rt; has_events(&out, &[response]) && !again && none.len() == 0);
    Ok(())
}
