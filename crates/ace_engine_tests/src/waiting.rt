//! The engine while a barrier has to wait, and once what is before it is complete.

ghost use Rattle.std.specs.Prelude.{◌≡◌, false, [], IfOk};
ghost use Rattle.ace_codes.specs.declared.state.LineState.TheVariants.{I};
ghost use Rattle.ace_event.specs.declared.event.Channel.TheVariants.{Write};
ghost use Rattle.ace_event.specs.declared.event.Event.TheVariants.{Ar, Aw, B, G, M, Wk};
ghost use Rattle.ace_runs.specs.Bursts.{onto};
ghost use Rattle.ace_order.specs.Order.{OrderStands};
ghost use Rattle.ace_engine_tests.specs.Update.{stored};
ghost use Rattle.ace_engine_tests.specs.Waiting.{waiting_events, waiting_plan};

use crate::bursts::has_events;
use crate::order::hear_all;
use crate::update::{STORED, op, plan_of, w};
use ace_codes::LineState;
use ace_engine::{Burst, Engine};
use ace_event::{Channel, Event};
use ace_model::Op;
use ace_order::Order;
use std::alloc::Global;
use std::test::Fail;

/// The half of the barrier on the read channel.
fn read_half() -> Event
    ensures { result ≡ Ar 0 1 0 0 1 3 false }
{
    Event::Ar {
        port: 0,
        id: 1,
        addr: 0,
        snoop: 0,
        dom: 1,
        bar: 3,
        lock: false,
    }
}

fn aw(id: u8, addr: u32, snoop: u8, bar: u8) -> Event
    ensures { result ≡ Aw 0 id addr snoop 1 bar }
{
    Event::Aw {
        port: 0,
        id,
        addr,
        snoop,
        dom: 1,
        bar,
    }
}

fn granted() -> Event
    ensures { result ≡ G 0 Write 0 }
{
    Event::G {
        port: 0,
        chan: Channel::Write,
        id: 0,
    }
}

fn written() -> Event
    ensures { result ≡ M 0 Write 0 stored }
{
    Event::M {
        port: 0,
        chan: Channel::Write,
        id: 0,
        line: STORED,
    }
}

fn b(id: u8) -> Event
    ensures { result ≡ B 0 id 0 }
{
    Event::B {
        port: 0,
        id,
        resp: 0,
    }
}

fn wk() -> Event
    ensures { result ≡ Wk 0 I }
{
    Event::Wk {
        port: 0,
        st: LineState::I,
    }
}

/// The engine after a port has issued a WriteLineUnique, and a synchronisation barrier behind it.
fn held(alloc: Global) -> Result<Order, Fail>
    ensures { IfOk result (λ s. OrderStands s waiting_plan (onto waiting_events [])) }
{
    let write = Op::Wlu {
        addr: 64,
        line: STORED,
    };
    let plan = plan_of(alloc, write, Op::Sb)?;
    let mut order = Order::new(alloc, &plan)?;
    let issued = [
        aw(0, 64, 1, 0),
        op(0),
        w(false, 5),
        w(false, 6),
        w(false, 7),
        w(true, 8),
        read_half(),
        aw(1, 0, 0, 3),
    ];
    hear_all(&mut order, &issued);
    Ok(order)
}

/// The barrier has no R and B before the write is complete, and has them then.
#[test]
fn answers_once_the_write_is_complete(rt: HostRuntime) -> Result<(), Fail> {
    let mut order = held(rt.alloc())?;
    let mut none = Burst::empty();
    let early = order.turn(0, &mut none);
    assert!(rt; !early && none.len() == 0);
    hear_all(&mut order, &[granted(), written(), b(0), wk()]);
    let mut out = Burst::empty();
    assert!(rt; order.turn(0, &mut out));
    let r = Event::R {
        port: 0,
        id: 1,
        resp: 0,
        last: true,
        word: 0,
    };
    assert!(rt; has_events(&out, &[r, b(1)]));
    Ok(())
}
