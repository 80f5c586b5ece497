//! The engine after worked traces: a barrier that may be answered, a message of two parts, and a
//! Sync from its issue to its end.

ghost use Rattle.std.specs.Prelude.{◌≡◌, ◌<◌, ℕ, true, false, [], ◌++◌, IfOk, OnOk};
ghost use Rattle.ace_codes.specs.declared.state.LineState.TheVariants.{I};
ghost use Rattle.ace_event.specs.declared.event.Event.TheVariants.{Ac, Ar, Aw, Cr, R, Rk};
ghost use Rattle.ace_model.specs.Plans.{IsRight, Plan};
ghost use Rattle.ace_model.specs.Trace.{Trace};
ghost use Rattle.ace_runs.specs.Bursts.{onto};
ghost use Rattle.ace_engine.specs.Engines.{IsLegal};
ghost use Rattle.ace_order.specs.Order.{OrderStands};
ghost use Rattle.ace_engine_tests.specs.Order.{are_others, barrier_events, message_events, plan_of, sync_answered, sync_done, sync_issued};

use crate::bursts::has_events;
use ace_codes::LineState;
use ace_engine::{Burst, Engine};
use ace_event::{Event, Header};
use ace_model::{Op, PlanOp, PlanView, PolicyWord};
use ace_order::Order;
use std::alloc::Global;
use std::test::Fail;

const HEADER: Header = Header {
    version: 1,
    ports: 2,
    ace: 3,
};

/// The engine for the plan of two ACE ports, of which port 0 has this operation.
fn engine_for(alloc: Global, op: Op) -> Result<Order, Fail>
    requires { IsRight (plan_of op) }
    ensures { IfOk result (λ s. OrderStands s (plan_of op) []) }
{
    let mut plan = PlanView::with_room(alloc, HEADER, 1, PolicyWord::Keep, 1)?;
    plan.push(PlanOp { port: 0, op });
    Ok(Order::new(alloc, &plan)?)
}

fn ar(port: u8, id: u8, addr: u32, snoop: u8, bar: u8) -> Event
    ensures { result ≡ Ar port id addr snoop 1 bar false }
{
    Event::Ar {
        port,
        id,
        addr,
        snoop,
        dom: 1,
        bar,
        lock: false,
    }
}

fn aw(bar: u8) -> Event
    ensures { result ≡ Aw 0 0 0 0 1 bar }
{
    Event::Aw {
        port: 0,
        id: 0,
        addr: 0,
        snoop: 0,
        dom: 1,
        bar,
    }
}

fn r(port: u8) -> Event
    ensures { result ≡ R port 0 0 true 0 }
{
    Event::R {
        port,
        id: 0,
        resp: 0,
        last: true,
        word: 0,
    }
}

fn ac(port: u8, addr: u32, snoop: u8) -> Event
    ensures { result ≡ Ac port addr snoop }
{
    Event::Ac { port, addr, snoop }
}

fn cr() -> Event
    ensures { result ≡ Cr 1 0 I }
{
    Event::Cr {
        port: 1,
        resp: 0,
        st: LineState::I,
    }
}

fn rk() -> Event
    ensures { result ≡ Rk 0 I }
{
    Event::Rk {
        port: 0,
        st: LineState::I,
    }
}

/// The engine hears the events, which others put.
pub fn hear_all(order: &mut Order, events: &[Event])
    ensures { (plan : Plan) (past : Trace) → OrderStands order.old plan past
        → IsLegal plan (onto events.now past) → are_others past events.now ≡ true
        → OrderStands order.new plan (onto events.now past) }
{
    for event in events {
        order.hear(event);
    }
}

/// They are one AC, or one R.
fn is_same(event: &Event, other: &Event) -> bool
    ensures { result ≡ true → event.now ≡ other.now }
{
    match (*event, *other) {
        (
            Event::Ac { port, addr, snoop },
            Event::Ac {
                port: q,
                addr: a,
                snoop: s,
            },
        ) => port == q && addr == a && snoop == s,
        (
            Event::R {
                port,
                id,
                resp,
                last,
                word,
            },
            Event::R {
                port: q,
                id: i,
                resp: b,
                last: l,
                word: w,
            },
        ) => port == q && id == i && resp == b && last == l && word == w,
        _ => false,
    }
}

/// The port's turn puts these events.
fn puts(order: &mut Order, port: u8, events: &[Event]) -> Result<(), Fail>
    requires { (plan : Plan) × (past : Trace) × OrderStands order.old plan past
        × (port < plan.header.ports) }
    ensures { OnOk result ((plan : Plan) (past : Trace) → OrderStands order.old plan past
        → OrderStands order.new plan (onto events.now past)) }
{
    let mut out = Burst::empty();
    if !order.turn(port, &mut out) {
        return Err(Fail::new("no turn"));
    }
    if usize::from(out.len()) != events.len() {
        return Err(Fail::new("another length"));
    }
    for i in 0..events.len() {
        let event = out.get(i as u8);
        if !is_same(&event, &events[i]) {
            return Err(Fail::new("another event"));
        }
    }
    Ok(())
}

/// The engine after a port has issued a Sync.
fn issued(alloc: Global) -> Result<Order, Fail>
    ensures { IfOk result (λ s. OrderStands s (plan_of (Op.Sync 49152)) (onto sync_issued [])) }
{
    let mut order = engine_for(alloc, Op::Sync { word: 0xc000 })?;
    hear_all(&mut order, &[ar(0, 0, 0xc000, 15, 0)]);
    Ok(order)
}

/// The engine after the other port has answered it.
fn answered(alloc: Global) -> Result<Order, Fail>
    ensures { IfOk result (λ s. OrderStands s (plan_of (Op.Sync 49152))
        (onto (sync_issued ++ sync_answered) [])) }
{
    let mut order = issued(alloc)?;
    puts(&mut order, 0, &[ac(1, 0xc000, 15)])?;
    hear_all(&mut order, &[cr()]);
    Ok(order)
}

/// The engine after the other port has issued its DVM Complete.
fn done(alloc: Global) -> Result<Order, Fail>
    ensures { IfOk result (λ s. OrderStands s (plan_of (Op.Sync 49152))
        (onto (sync_issued ++ sync_answered ++ sync_done) [])) }
{
    let mut order = answered(alloc)?;
    puts(&mut order, 0, &[r(0)])?;
    hear_all(&mut order, &[rk(), ar(1, 0, 0, 14, 0)]);
    Ok(order)
}

/// A synchronisation barrier gets its R and B; then there is nothing to do.
#[test]
fn answers_a_barrier(rt: HostRuntime) -> Result<(), Fail> {
    let mut order = engine_for(rt.alloc(), Op::Sb)?;
    hear_all(&mut order, &[ar(0, 0, 0, 0, 3), aw(3)]);
    let mut out = Burst::empty();
    assert!(rt; order.turn(0, &mut out));
    let response = Event::B {
        port: 0,
        id: 0,
        resp: 0,
    };
    let mut none = Burst::empty();
    let again = order.turn(0, &mut none);
    assert!(rt; has_events(&out, &[r(0), response]) && !again && none.len() == 0);
    Ok(())
}

/// The other port gets both parts of a message at once.
#[test]
fn forwards_both_parts(rt: HostRuntime) -> Result<(), Fail> {
    let op = Op::Dvm2 {
        word: 0x1001,
        second: 0x1234_5678,
    };
    let mut order = engine_for(rt.alloc(), op)?;
    hear_all(
        &mut order,
        &[ar(0, 0, 0x1001, 15, 0), ar(0, 1, 0x1234_5678, 15, 0)],
    );
    let parts = [ac(1, 0x1001, 15), ac(1, 0x1234_5678, 15)];
    puts(&mut order, 0, &parts)?;
    Ok(())
}

/// A Sync is forwarded, gets its response once it is answered, and ends once the other port's DVM
/// Complete has come, which gets its own.
#[test]
fn ends_a_sync(rt: HostRuntime) -> Result<(), Fail> {
    let mut order = done(rt.alloc())?;
    puts(&mut order, 1, &[r(1)])?;
    puts(&mut order, 0, &[ac(0, 0, 14)])?;
    Ok(())
}
