//! The engine after worked traces of two ports: a burst of each step, and what memory has then.

ghost use Rattle.std.specs.Prelude.{◌≡◌, ◌∷◌, [], false, IfOk};
ghost use Rattle.ace_event.specs.declared.event.Event.TheVariants.{Ac, Ar, Aw, Cd, Cr, D, G, Op as Retires, R, Rk, W};
ghost use Rattle.ace_event.specs.declared.event.Outcome.TheVariants.{Ok as Well};
ghost use Rattle.ace_model.specs.Plans.{Plan};
ghost use Rattle.ace_model.specs.Trace.{Trace};
ghost use Rattle.ace_model.specs.Values.{full_line};
ghost use Rattle.ace_runs.specs.Bursts.{onto};
ghost use Rattle.ace_engine.specs.Engines.{IsLegal};
ghost use Rattle.ace_home.specs.Home.{HomeStands};
ghost use Rattle.ace_home_tests.specs.Worked.{
  cleaning_plan,
  fetched_events,
  filled_events,
  granted_events,
  passed_events,
  plan_of,
  reading_events,
  reading_plan,
  shared_events,
  sharing_plan,
  stored,
  writing_plan,
  written_events,
};

use ace_codes::ArKind;
use ace_codes::LineState::{self, I, SC, UC, UD};
use ace_engine::{Burst, Engine};
use ace_event::Channel::{self, Read, Write};
use ace_event::{Event, Header, Line, Outcome};
use ace_home::Home;
use ace_model::{Op, PlanOp, PlanView, PolicyWord};
use std::alloc::Global;
use std::test::Fail;

pub const HEADER: Header = Header {
    version: 1,
    ports: 2,
    ace: 3,
};

pub const STORED: Line = Line {
    words: [5, 6, 7, 8],
};

/// The engine hears the events, its own among them.
pub fn hear_all(home: &mut Home, events: &[Event])
    ensures { (plan : Plan) (past : Trace) → HomeStands home.old plan past
        → IsLegal plan (onto events.now past)
        → HomeStands home.new plan (onto events.now past) }
{
    for event in events {
        home.note(event);
    }
}

pub fn ar(port: u8, snoop: u8) -> Event
    ensures { result ≡ Ar port 0 64 snoop 1 0 false }
{
    Event::Ar {
        port,
        id: 0,
        addr: 64,
        snoop,
        dom: 1,
        bar: 0,
        lock: false,
    }
}

fn aw(snoop: u8) -> Event
    ensures { result ≡ Aw 0 0 64 snoop 1 0 }
{
    Event::Aw {
        port: 0,
        id: 0,
        addr: 64,
        snoop,
        dom: 1,
        bar: 0,
    }
}

pub fn g(port: u8, chan: Channel) -> Event
    ensures { result ≡ G port chan 0 }
{
    Event::G { port, chan, id: 0 }
}

pub fn r(port: u8, resp: u8, last: bool) -> Event
    ensures { result ≡ R port 0 resp last 0 }
{
    Event::R {
        port,
        id: 0,
        resp,
        last,
        word: 0,
    }
}

pub fn rk(st: LineState) -> Event
    ensures { result ≡ Rk 1 st }
{
    Event::Rk { port: 1, st }
}

pub fn ac(port: u8, snoop: u8) -> Event
    ensures { result ≡ Ac port 64 snoop }
{
    Event::Ac {
        port,
        addr: 64,
        snoop,
    }
}

pub fn cr(port: u8, resp: u8, st: LineState) -> Event
    ensures { result ≡ Cr port resp st }
{
    Event::Cr { port, resp, st }
}

fn cd(last: bool, word: u128) -> Event
    ensures { result ≡ Cd 1 last word }
{
    Event::Cd {
        port: 1,
        last,
        word,
    }
}

fn w(last: bool, word: u128) -> Event
    ensures { result ≡ W 0 65535 last word }
{
    Event::W {
        port: 0,
        strb: 0xffff,
        last,
        word,
    }
}

pub fn stores() -> Event
    ensures { result ≡ D 1 64 full_line false stored }
{
    Event::D {
        port: 1,
        addr: 64,
        strobe: u64::MAX,
        x: false,
        line: STORED,
    }
}

fn op() -> Event
    ensures { result ≡ Retires 1 0 Well }
{
    Event::Op {
        port: 1,
        k: 0,
        res: Outcome::Ok,
    }
}

/// The plan of one operation of port 0.
fn plan_of_one(alloc: Global, op: Op) -> Result<PlanView, Fail>
    ensures { IfOk result (λ v. v.plan ≡ plan_of (record { port = 0; op = op } ∷ [])) }
{
    let mut view = PlanView::with_room(alloc, HEADER, 1, PolicyWord::Mixed(0), 1)?;
    view.push(PlanOp { port: 0, op });
    Ok(view)
}

/// The plan of an operation of port 1, and one of port 0.
fn plan_of_two(alloc: Global, first: Op, second: Op) -> Result<PlanView, Fail>
    ensures { IfOk result (λ v. v.plan ≡ plan_of (record { port = 1; op = first }
        ∷ record { port = 0; op = second } ∷ [])) }
{
    let mut view = PlanView::with_room(alloc, HEADER, 1, PolicyWord::Mixed(0), 2)?;
    view.push(PlanOp { port: 1, op: first });
    view.push(PlanOp {
        port: 0,
        op: second,
    });
    Ok(view)
}

/// The engine after a port has asked for a line.
fn asked(alloc: Global) -> Result<Home, Fail>
    ensures { IfOk result (λ s. HomeStands s reading_plan (onto reading_events [])) }
{
    let plan = plan_of_one(
        alloc,
        Op::Pf {
            addr: 64,
            kind: ArKind::ReadUnique,
        },
    )?;
    let mut home = Home::new(alloc, &plan)?;
    hear_all(&mut home, &[ar(0, 7)]);
    Ok(home)
}

/// The engine after it was granted the line.
fn granted(alloc: Global) -> Result<Home, Fail>
    ensures { IfOk result (λ s. HomeStands s reading_plan (onto granted_events [])) }
{
    let plan = plan_of_one(
        alloc,
        Op::Pf {
            addr: 64,
            kind: ArKind::ReadUnique,
        },
    )?;
    let mut home = Home::new(alloc, &plan)?;
    hear_all(&mut home, &[ar(0, 7), g(0, Read)]);
    Ok(home)
}

/// The engine after a port has asked for a line that the other one keeps shared.
fn shared(alloc: Global) -> Result<Home, Fail>
    ensures { IfOk result (λ s. HomeStands s sharing_plan
        (onto shared_events (onto fetched_events []))) }
{
    let kind = ArKind::ReadShared;
    let plan = plan_of_two(alloc, Op::Pf { addr: 64, kind }, Op::Pf { addr: 64, kind })?;
    let mut home = Home::new(alloc, &plan)?;
    let fetched = [
        ar(1, 1),
        g(1, Read),
        ac(0, 1),
        cr(0, 0, I),
        r(1, 0, false),
        r(1, 0, false),
        r(1, 0, false),
        r(1, 0, true),
        rk(UC),
        op(),
    ];
    hear_all(&mut home, &fetched);
    hear_all(&mut home, &[ar(0, 1), g(0, Read), ac(1, 1), cr(1, 24, SC)]);
    Ok(home)
}

/// The engine after a port has passed on what it stored, for a CleanInvalid.
fn passed(alloc: Global) -> Result<Home, Fail>
    ensures { IfOk result (λ s. HomeStands s cleaning_plan
        (onto passed_events (onto filled_events []))) }
{
    let fill = Op::Fill {
        addr: 64,
        line: STORED,
    };
    let plan = plan_of_two(alloc, fill, Op::Ci { addr: 64 })?;
    let mut home = Home::new(alloc, &plan)?;
    let filled = [
        ar(1, 12),
        g(1, Read),
        ac(0, 13),
        cr(0, 0, I),
        r(1, 0, true),
        stores(),
        rk(UD),
        op(),
    ];
    hear_all(&mut home, &filled);
    let cleaned = [
        ar(0, 9),
        g(0, Read),
        ac(1, 9),
        cr(1, 21, I),
        cd(false, 5),
        cd(false, 6),
        cd(false, 7),
        cd(true, 8),
    ];
    hear_all(&mut home, &cleaned);
    Ok(home)
}

/// The engine after a port has sent a line that it writes, and the other one has nothing of it.
fn written(alloc: Global) -> Result<Home, Fail>
    ensures { IfOk result (λ s. HomeStands s writing_plan (onto written_events [])) }
{
    let write = Op::Wlu {
        addr: 64,
        line: STORED,
    };
    let plan = plan_of_one(alloc, write)?;
    let mut home = Home::new(alloc, &plan)?;
    let sent = [
        aw(1),
        w(false, 5),
        w(false, 6),
        w(false, 7),
        w(true, 8),
        g(0, Write),
        ac(1, 13),
        cr(1, 0, I),
    ];
    hear_all(&mut home, &sent);
    Ok(home)
}

/// The burst has just these events.
pub fn has_events(burst: &Burst, events: &[Event]) -> bool {
    if usize::from(burst.len()) != events.len() {
        return false;
    }
    for i in 0..burst.len() {
        if burst.get(i) != events[usize::from(i)] {
            return false;
        }
    }
    true
}

/// A port that asked for nothing has no step.
#[test]
fn leaves_other_ports(rt: HostRuntime) -> Result<(), Fail> {
    let mut home = asked(rt.alloc())?;
    let mut out = Burst::empty();
    let holds = !home.turn(1, &mut out) && out.len() == 0;
    drop(home);
    assert!(rt; holds);
    Ok(())
}

/// The line is granted to the port that asked for it.
#[test]
fn grants(rt: HostRuntime) -> Result<(), Fail> {
    let mut home = asked(rt.alloc())?;
    let mut out = Burst::empty();
    let holds = home.turn(0, &mut out) && has_events(&out, &[g(0, Read)]);
    drop(home);
    assert!(rt; holds);
    Ok(())
}

/// The other port is snooped for it.
#[test]
fn snoops(rt: HostRuntime) -> Result<(), Fail> {
    let mut home = granted(rt.alloc())?;
    let mut out = Burst::empty();
    let holds = home.turn(0, &mut out) && has_events(&out, &[ac(1, 7)]);
    drop(home);
    assert!(rt; holds);
    Ok(())
}

/// A transfer says IsShared where the other port has kept the line.
#[test]
fn transfers(rt: HostRuntime) -> Result<(), Fail> {
    let mut home = shared(rt.alloc())?;
    let mut out = Burst::empty();
    let holds = home.turn(0, &mut out) && has_events(&out, &[r(0, 8, false)]);
    drop(home);
    assert!(rt; holds);
    Ok(())
}

/// What the read can't take is written to memory, and then comes its response.
#[test]
fn writes_passed_data(rt: HostRuntime) -> Result<(), Fail> {
    let mut home = passed(rt.alloc())?;
    let before = home.memory(64);
    let mut out = Burst::empty();
    assert!(rt; home.turn(0, &mut out));
    let memory = Event::M {
        port: 0,
        chan: Read,
        id: 0,
        line: STORED,
    };
    let after = home.memory(64);
    let mut next = Burst::empty();
    let responds = home.turn(0, &mut next) && has_events(&next, &[r(0, 0, true)]);
    let zeros = Line { words: [0; 4] };
    assert!(rt; before == zeros && after == STORED && has_events(&out, &[memory]) && responds);
    Ok(())
}

/// A write writes memory, and the port gets its response.
#[test]
fn writes(rt: HostRuntime) -> Result<(), Fail> {
    let mut home = written(rt.alloc())?;
    let mut out = Burst::empty();
    let moved = home.turn(0, &mut out);
    let memory = Event::M {
        port: 0,
        chan: Write,
        id: 0,
        line: STORED,
    };
    let response = Event::B {
        port: 0,
        id: 0,
        resp: 0,
    };
    let holds = moved && has_events(&out, &[memory, response]) && home.memory(64) == STORED;
    drop(home);
    assert!(rt; holds);
    Ok(())
}
