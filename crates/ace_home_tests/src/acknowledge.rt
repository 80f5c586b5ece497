//! The engine while a port may not be snooped before it has acknowledged a write of the line.

ghost use Rattle.std.specs.Prelude.{◌≡◌, [], IfOk};
ghost use Rattle.ace_codes.specs.declared.state.LineState.TheVariants.{I};
ghost use Rattle.ace_event.specs.declared.event.Channel.TheVariants.{Write};
ghost use Rattle.ace_event.specs.declared.event.Event.TheVariants.{Aw, B, M, Op as Retires, W, Wk};
ghost use Rattle.ace_event.specs.declared.event.Outcome.TheVariants.{Ok as Well};
ghost use Rattle.ace_runs.specs.Bursts.{onto};
ghost use Rattle.ace_home.specs.Home.{HomeStands};
ghost use Rattle.ace_home_tests.specs.Acknowledge.{acknowledge_plan, unacknowledged_events};
ghost use Rattle.ace_home_tests.specs.Worked.{filled_events, stored};

use crate::home::{HEADER, STORED, ac, ar, cr, g, has_events, hear_all, r, rk, stores};
use ace_codes::ArKind;
use ace_codes::LineState::{I, UD};
use ace_engine::{Burst, Engine};
use ace_event::Channel::{Read, Write};
use ace_event::{Event, Outcome};
use ace_home::Home;
use ace_model::{Op, PlanOp, PlanView, PolicyWord};
use std::alloc::Global;
use std::test::Fail;

fn aw() -> Event
    ensures { result ≡ Aw 1 0 64 3 1 0 }
{
    Event::Aw {
        port: 1,
        id: 0,
        addr: 64,
        snoop: 3,
        dom: 1,
        bar: 0,
    }
}

fn w(last: bool, word: u128) -> Event
    ensures { result ≡ W 1 65535 last word }
{
    Event::W {
        port: 1,
        strb: 0xffff,
        last,
        word,
    }
}

fn written() -> Event
    ensures { result ≡ M 1 Write 0 stored }
{
    Event::M {
        port: 1,
        chan: Write,
        id: 0,
        line: STORED,
    }
}

fn b() -> Event
    ensures { result ≡ B 1 0 0 }
{
    Event::B {
        port: 1,
        id: 0,
        resp: 0,
    }
}

fn wk() -> Event
    ensures { result ≡ Wk 1 I }
{
    Event::Wk { port: 1, st: I }
}

fn op(k: u16) -> Event
    ensures { result ≡ Retires 1 k Well }
{
    Event::Op {
        port: 1,
        k,
        res: Outcome::Ok,
    }
}

/// The plan by which a port stores a line and writes it back, and the other one reads it.
fn plan(alloc: Global) -> Result<PlanView, Fail>
    ensures { IfOk result (λ v. v.plan ≡ acknowledge_plan) }
{
    let mut view = PlanView::with_room(alloc, HEADER, 1, PolicyWord::Mixed(0), 3)?;
    let fill = Op::Fill {
        addr: 64,
        line: STORED,
    };
    view.push(PlanOp { port: 1, op: fill });
    view.push(PlanOp {
        port: 1,
        op: Op::Wb { addr: 64 },
    });
    let kind = ArKind::ReadShared;
    view.push(PlanOp {
        port: 0,
        op: Op::Pf { addr: 64, kind },
    });
    Ok(view)
}

/// The engine after the write is complete, and the other port was granted the line.
fn unacknowledged(alloc: Global) -> Result<Home, Fail>
    ensures { IfOk result (λ s. HomeStands s acknowledge_plan
        (onto unacknowledged_events (onto filled_events []))) }
{
    let plan = plan(alloc)?;
    let mut home = Home::new(alloc, &plan)?;
    let filled = [
        ar(1, 12),
        g(1, Read),
        ac(0, 13),
        cr(0, 0, I),
        r(1, 0, true),
        stores(),
        rk(UD),
        op(0),
    ];
    hear_all(&mut home, &filled);
    let written_back = [
        aw(),
        op(1),
        w(false, 5),
        w(false, 6),
        w(false, 7),
        w(true, 8),
        written(),
        b(),
        ar(0, 1),
        g(0, Read),
    ];
    hear_all(&mut home, &written_back);
    Ok(home)
}

/// The port isn't snooped before it has acknowledged the write, and is then.
#[test]
fn snoops_once_the_write_is_acknowledged(rt: HostRuntime) -> Result<(), Fail> {
    let mut home = unacknowledged(rt.alloc())?;
    let mut none = Burst::empty();
    let early = home.turn(0, &mut none);
    assert!(rt; !early && none.len() == 0);
    hear_all(&mut home, &[wk()]);
    let mut out = Burst::empty();
    let holds = home.turn(0, &mut out) && has_events(&out, &[ac(1, 1)]);
    drop(home);
    assert!(rt; holds);
    Ok(())
}
