//! Runs of small scripts: turn by turn, drained, and with chosen answers and turns.

ghost use Rattle.std.specs.Prelude.{◌≡◌, ◌≢◌, ◌-◌};
ghost use Rattle.ace_model.specs.Plans.{IsRightAfter, longer};

use crate::chosen::start_chosen;
use ace_codes::LineState::{SD, UC};
use ace_event::Channel::{Read, Write};
use ace_event::Outcome::{Ok as Done, Skip};
use ace_event::{Event, Header, Line};
use ace_fabric::{System, Turn};
use ace_io::HonestSource;
use ace_model::{Op, PolicyWord};
use ace_script::Plan;
use std::alloc::Global;
use std::test::Fail;

macro_rules! ar {
    ($port:expr, $addr:expr, $snoop:expr) => {
        Event::Ar { port: $port, id: 0, addr: $addr, snoop: $snoop, dom: 1, bar: 0, lock: false }
    };
}

macro_rules! g {
    ($port:expr, $chan:expr) => { Event::G { port: $port, chan: $chan, id: 0 } };
}

/// A transfer to port 0.
macro_rules! r {
    ($last:expr, $word:expr) => { Event::R { port: 0, id: 0, resp: 0, last: $last, word: $word } };
}

/// A beat of write data of port 0.
macro_rules! w {
    ($last:expr, $word:expr) => { Event::W { port: 0, strb: 0xffff, last: $last, word: $word } };
}

macro_rules! l {
    ($port:expr, $word:expr) => { Event::L { port: $port, addr: 0x40,
        w: 0, x: false, word: $word } };
}

macro_rules! op {
    ($port:expr, $k:expr, $res:expr) => { Event::Op { port: $port, k: $k, res: $res } };
}

const ACKNOWLEDGE: Event = Event::Rk { port: 0, st: UC };

const STORED: u128 = 0x11111111111111111111111111111111;

const WRITTEN: u128 = 0x22222222222222222222222222222222;

/// Turns of ports of the run of a script, each with whether it puts a step; how many events there
/// are then, and the last of them.
struct Turns {
    script: &'static [u8],
    turns: &'static [(u8, bool)],
    count: usize,
    end: &'static [Event],
}

const TURNS: &[Turns] = &[
    // reads of two lines go on beside each other
    Turns {
        script: b"ACE SCRIPT 1\nPORTS AA\nCACHE 1\nPOLICY keep\n0 ld 00000040 0\n1 ld 00000080 0\n",
        turns: &[(0, true), (1, true), (0, true), (1, true)],
        count: 4,
        end: &[ar!(0, 0x40, 1), ar!(1, 0x80, 1), g!(0, Read), g!(1, Read)],
    },
    // the second read of a line waits for the first, and is granted after its acknowledge
    Turns {
        script: b"ACE SCRIPT 1\nPORTS AA\nCACHE 1\nPOLICY keep\n0 ld 00000040 0\n1 ld 00000040 0\n",
        turns: &[
            (0, true),
            (1, true),
            (1, false),
            (0, true),
            (1, false),
            (0, true),
            (1, true),
            (0, true),
            (0, true),
            (0, true),
            (0, true),
            (0, true),
            (1, true),
        ],
        count: 13,
        end: &[ACKNOWLEDGE, l!(0, 0), op!(0, 0, Done), g!(1, Read)],
    },
];

/// A script of one port, and the trace of its run.
struct Drained {
    script: &'static [u8],
    events: &'static [Event],
}

const DRAINED: &[Drained] = &[
    // a load, a store to the line, and a WriteBack of a line that isn't held
    Drained {
        script: b"ACE SCRIPT 1\nPORTS A\nCACHE 1\nPOLICY keep\n0 ld 00000040 0\n0 st 00000040 0 11111111111111111111111111111111\n0 wb 00000080\n",
        events: &[
            ar!(0, 0x40, 1),
            g!(0, Read),
            r!(false, 0),
            r!(false, 0),
            r!(false, 0),
            r!(true, 0),
            ACKNOWLEDGE,
            l!(0, 0),
            op!(0, 0, Done),
            Event::D {
                port: 0,
                addr: 0x40,
                strobe: 0xffff,
                x: false,
                line: Line {
                    words: [STORED, 0, 0, 0],
                },
            },
            op!(0, 1, Done),
            op!(0, 2, Skip),
        ],
    },
    // a write of a line by an ACE-Lite port, and a read of it
    Drained {
        script: b"ACE SCRIPT 1\nPORTS L\nCACHE 1\nPOLICY keep\n0 wlu 00000040 22222222222222222222222222222222222222222222222222222222222222222222222222222222222222222222222222222222222222222222222222222222\n0 ro 00000040\n",
        events: &[
            Event::Aw {
                port: 0,
                id: 0,
                addr: 0x40,
                snoop: 1,
                dom: 1,
                bar: 0,
            },
            op!(0, 0, Done),
            w!(false, WRITTEN),
            w!(false, WRITTEN),
            w!(false, WRITTEN),
            w!(true, WRITTEN),
            g!(0, Write),
            Event::M {
                port: 0,
                chan: Write,
                id: 0,
                line: Line {
                    words: [WRITTEN, WRITTEN, WRITTEN, WRITTEN],
                },
            },
            Event::B {
                port: 0,
                id: 0,
                resp: 0,
            },
            ar!(0, 0x40, 0),
            g!(0, Read),
            r!(false, WRITTEN),
            r!(false, WRITTEN),
            r!(false, WRITTEN),
            r!(true, WRITTEN),
            op!(0, 1, Done),
        ],
    },
];

/// The header of a script of one ACE port, and the operations of the first script above.
const HEADER: Header = Header {
    version: 1,
    ports: 1,
    ace: 1,
};

const LOAD: Op = Op::Ld { addr: 64, w: 0 };

const STORE: Op = Op::St {
    addr: 64,
    w: 0,
    word: STORED,
};

const WRITE_BACK: Op = Op::Wb { addr: 128 };

/// A dirty line is snooped; the second port begins with a barrier.
const MIXED: &[u8] =
    b"ACE SCRIPT 1\nPORTS AA\nCACHE 1\nPOLICY mixed 0000000000000000\n0 st 00000040 0 11111111111111111111111111111111\n1 mb\n1 ld 00000040 0\n";

const BARRIER: Event = Event::Ar {
    port: 1,
    id: 0,
    addr: 0,
    snoop: 0,
    dom: 1,
    bar: 1,
    lock: false,
};

const ANSWER: Event = Event::Cr {
    port: 0,
    resp: 0x19,
    st: SD,
};

const LOADED: Event = l!(1, STORED);

/// The run of the script, before its first step.
fn start(alloc: Global, script: &[u8]) -> Result<System, Fail> {
    let plan = Plan::read(alloc, &mut HonestSource::new(script))?;
    let system = System::start(alloc, &plan);
    drop(plan);
    Ok(system?)
}

/// Whether a turn of the port, if there is such a port, puts a step.
fn moves(system: &mut System, port: u8) -> bool {
    port < system.plan().view().header().ports && system.turn(port) == Turn::Moved
}

/// Whether each of the turns puts a step, or nothing, as it says.
fn answers(system: &mut System, turns: &[(u8, bool)]) -> bool {
    let mut same = true;
    for (port, moved) in turns {
        same &= moves(system, *port) == *moved;
    }
    same
}

/// Whether the run isn't done, has so many events, and ends with these.
fn ends_with(system: &System, count: usize, end: &[Event]) -> bool {
    system.trace().len() == count && system.trace().ends_with(end) && !system.done()
}

/// Whether the turns of the case put what it says.
fn is_as_turned(alloc: Global, case: &Turns) -> Result<bool, Fail> {
    let mut system = start(alloc, case.script)?;
    let same = answers(&mut system, case.turns) && ends_with(&system, case.count, case.end);
    drop(system);
    Ok(same)
}

#[test]
fn takes_turns(rt: HostRuntime) -> Result<(), Fail> {
    for case in TURNS {
        assert!(rt; is_as_turned(rt.alloc(), case)?);
    }
    Ok(())
}

/// Whether the run of the script has these events.
fn is_as_drained(alloc: Global, case: &Drained) -> Result<bool, Fail> {
    let mut system = start(alloc, case.script)?;
    system.drain();
    let same = system.done() && system.trace() == case.events;
    drop(system);
    Ok(same)
}

#[test]
fn drains(rt: HostRuntime) -> Result<(), Fail> {
    for case in DRAINED {
        assert!(rt; is_as_drained(rt.alloc(), case)?);
    }
    Ok(())
}

/// The run of the script with these answers and turns, if it lets the caller choose.
fn chosen_run(
    alloc: Global,
    script: &[u8],
    picks: &[u8],
    turns: &[u8],
) -> Result<Option<System>, Fail> {
    let plan = Plan::read(alloc, &mut HonestSource::new(script))?;
    let started = start_chosen(alloc, &plan, picks);
    drop(plan);
    let mut run = started?;
    if let Some(system) = &mut run {
        system.drain_by(turns);
    }
    Ok(run)
}

/// Whether the run is done, begins with the barrier, and has the answer and the load of what the
/// first port stored.
fn is_as_picked(system: &System) -> bool {
    system.done()
        && system.trace().starts_with(&[BARRIER])
        && system.trace().contains(&ANSWER)
        && system.trace().contains(&LOADED)
}

/// The number picks how the first port answers the snoop of its dirty line, and a turn of the
/// second port comes first.
#[test]
fn takes_chosen_answers_and_turns(rt: HostRuntime) -> Result<(), Fail> {
    let run = chosen_run(rt.alloc(), MIXED, &[7], &[255])?;
    let holds = run.as_ref().is_some_and(|system| is_as_picked(system));
    drop(run);
    assert!(rt; holds);
    Ok(())
}

/// Gives the only port the operation, and goes on until the run is done.
fn does(system: &mut System, op: Op)
    requires room { system.old.room ≢ 0 }
    requires right { IsRightAfter system.old.plan.header system.old.plan.operations
        (record { port = 0; op = op }) }
    ensures plan { system.new.plan ≡ longer system.old.plan (record { port = 0; op = op }) }
    ensures room { system.new.room ≡ system.old.room - 1 }
{
    system.push(0, op);
    system.drain();
}

/// The run of the operations of the first script, each given where those before it are done.
fn grown(alloc: Global) -> Result<System, Fail> {
    let plan = Plan::blank(alloc, HEADER, 1, PolicyWord::Keep, 3)?;
    let mut system = System::start(alloc, &plan)?;
    does(&mut system, LOAD);
    does(&mut system, STORE);
    does(&mut system, WRITE_BACK);
    Ok(system)
}

/// A run whose plan grows has the trace of the script that has the operations at once.
#[test]
fn grows(rt: HostRuntime) -> Result<(), Fail> {
    let system = grown(rt.alloc())?;
    let holds = system.done()
        && system.trace() == DRAINED[0].events
        && system.plan().room() == 0
        && system.plan().view().count() == 3;
    drop(system);
    assert!(rt; holds);
    Ok(())
}
