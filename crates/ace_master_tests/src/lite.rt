//! The steps of the master of an ACE-Lite port for a plan of one operation: a WriteUnique, a
//! CleanShared and a barrier.

ghost use Rattle.std.specs.Prelude.{◌≡◌, [], true, false, IfOk};
ghost use Rattle.ace_event.specs.declared.event.Event.TheVariants.{Ar};
ghost use Rattle.ace_model.specs.declared.plans.Op.{Op};
ghost use Rattle.ace_model.specs.declared.plans.Op.TheVariants.{Cs};
ghost use Rattle.ace_model.specs.Plans.{IsRight};
ghost use Rattle.ace_model.specs.Trace.{Trace};
ghost use Rattle.ace_runs.specs.Bursts.{onto};
ghost use Rattle.ace_master.specs.Lite.{LiteStands, port_of};
ghost use Rattle.ace_master_tests.specs.LiteWorked.{asked_events, plan_of};

use crate::operations::has_events;
use ace_engine::{Burst, Engine};
use ace_event::{Channel, Event, Header, Line, Outcome};
use ace_master::LiteMaster;
use ace_model::{Op, PlanOp, PlanView, PolicyWord};
use std::alloc::Global;
use std::test::Fail;

const HEADER: Header = Header {
    version: 1,
    ports: 1,
    ace: 0,
};

const WRITTEN: Line = Line {
    words: [5, 6, 7, 8],
};

/// The master of the only port, which has this operation.
fn master_for(alloc: Global, op: Op) -> Result<LiteMaster, Fail>
    requires { IsRight (plan_of op) }
    ensures stands { IfOk result (λ s. LiteStands s (plan_of op) []) }
    ensures port { IfOk result (λ s. port_of s ≡ 0) }
{
    let mut plan = PlanView::with_room(alloc, HEADER, 1, PolicyWord::Keep, 1)?;
    plan.push(PlanOp { port: 0, op });
    Ok(LiteMaster::new(alloc, &plan, 0)?)
}

/// The burst of the master's next step.
fn step(master: &mut LiteMaster) -> Result<Burst, Fail>
    requires stands { (op : Op) × (past : Trace) × LiteStands master.old (plan_of op) past }
    requires port { port_of master.old ≡ 0 }
    ensures stands { IfOk result (λ burst. (op : Op) (past : Trace)
        → LiteStands master.old (plan_of op) past
        → LiteStands master.new (plan_of op) (onto burst past)) }
    ensures port { port_of master.new ≡ 0 }
{
    let mut burst = Burst::empty();
    if master.turn(0, &mut burst) {
        Ok(burst)
    } else {
        Err(Fail::new("no step"))
    }
}

/// It asks that the line is cleaned.
fn asks_for_clean(event: &Event) -> bool
    ensures { result ≡ true → event.now ≡ Ar 0 0 64 8 1 0 false }
{
    matches!(
        *event,
        Event::Ar {
            port: 0,
            id: 0,
            addr: 64,
            snoop: 8,
            dom: 1,
            bar: 0,
            lock: false,
        }
    )
}

/// The master after it has asked that a line is cleaned.
fn asked(alloc: Global) -> Result<LiteMaster, Fail>
    ensures stands { IfOk result (λ s. LiteStands s (plan_of (Cs 64)) (onto asked_events [])) }
    ensures port { IfOk result (λ s. port_of s ≡ 0) }
{
    let mut master = master_for(alloc, Op::Cs { addr: 64 })?;
    let burst = step(&mut master)?;
    if burst.len() == 1 && asks_for_clean(&burst.get(0)) {
        Ok(master)
    } else {
        Err(Fail::new("another burst"))
    }
}

fn w(strb: u16, last: bool, word: u128) -> Event {
    Event::W {
        port: 0,
        strb,
        last,
        word,
    }
}

fn op() -> Event {
    Event::Op {
        port: 0,
        k: 0,
        res: Outcome::Ok,
    }
}

/// A WriteUnique retires with its AW, and then its data are sent.
#[test]
fn writes_a_line(rt: HostRuntime) -> Result<(), Fail> {
    let write = Op::Wu {
        addr: 64,
        strobe: 0xffff_0000_0fff_0001,
        line: WRITTEN,
    };
    let mut master = master_for(rt.alloc(), write)?;
    let asks = Event::Aw {
        port: 0,
        id: 0,
        addr: 64,
        snoop: 0,
        dom: 1,
        bar: 0,
    };
    let issued = step(&mut master)?;
    let retired = master.retired();
    let sent = step(&mut master)?;
    let data = [
        w(1, false, 5),
        w(0xfff, false, 6),
        w(0, false, 7),
        w(0xffff, true, 8),
    ];
    let holds = retired == 1 && has_events(&issued, &[asks, op()]) && has_events(&sent, &data);
    drop(master);
    assert!(rt; holds);
    Ok(())
}

/// A CleanShared retires once it has its response.
#[test]
fn cleans_a_line(rt: HostRuntime) -> Result<(), Fail> {
    let mut master = asked(rt.alloc())?;
    master.hear(&Event::G {
        port: 0,
        chan: Channel::Read,
        id: 0,
    });
    master.hear(&Event::R {
        port: 0,
        id: 0,
        resp: 0,
        last: true,
        word: 0,
    });
    let before = master.retired();
    let retires = step(&mut master)?;
    let holds = before == 0 && has_events(&retires, &[op()]) && master.retired() == 1;
    drop(master);
    assert!(rt; holds);
    Ok(())
}

/// Both halves of a barrier are issued together.
#[test]
fn issues_a_barrier(rt: HostRuntime) -> Result<(), Fail> {
    let mut master = master_for(rt.alloc(), Op::Mb)?;
    let read = Event::Ar {
        port: 0,
        id: 0,
        addr: 0,
        snoop: 0,
        dom: 1,
        bar: 1,
        lock: false,
    };
    let write = Event::Aw {
        port: 0,
        id: 0,
        addr: 0,
        snoop: 0,
        dom: 1,
        bar: 1,
    };
    let halves = step(&mut master)?;
    let holds = has_events(&halves, &[read, write]);
    drop(master);
    assert!(rt; holds);
    Ok(())
}
