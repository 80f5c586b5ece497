//! A system behind a lock, and a worker for each port.

ghost use Rattle.std.specs.Prelude.{◌≡◌, ◌≤◌, IfOk};
ghost use Rattle.ace_runs.specs.Follows.{Done};
ghost use Rattle.ace_fabric.specs.System.{plan_of};

use ace_fabric::{System, Turn};
use ace_io::{Gate, NoMemory};
use ace_script::Plan;
use std::alloc::Global;
use std::sync::atomic::{AtomicU64, Ordering};
use std::sync::{Mutex, Wait};
use std::thread;
use std::thread::Threads;

/// How many turns each worker takes for a plan.
fn turns_of(plan: &Plan) -> u32 {
    64 + 16 * u32::from(plan.view().count())
}

/// A system behind a lock, and how many steps its workers put: who holds the lock counts them.
#[derive(Drop)]
struct Shared {
    system: Mutex<System>,
    steps: AtomicU64,
}

/// A turn of the port, if the system has it. How many steps had been put when it put none; nothing
/// where it put one.
fn take_turn(system: &mut System, steps: &AtomicU64, port: u8) -> Option<u64> {
    if port < system.plan().view().header().ports && system.turn(port) == Turn::Moved {
        steps.fetch_add(1, Ordering::SeqCst);
        return None;
    }
    Some(steps.load(Ordering::SeqCst))
}

/// Takes so many turns of the port. It passes the gate before each, without the lock. While no
/// step has come since a turn that put none, the next puts none either, and the lock isn't taken.
fn work<R: Wait, G: Gate>(rt: &R, shared: &Shared, gate: &G, port: u8, turns: u32) {
    let mut idle = None;
    for turn in 0..turns {
        gate.pass(port, turn);
        if idle != Some(shared.steps.load(Ordering::SeqCst)) {
            let mut held = shared.system.lock(rt);
            idle = take_turn(&mut held, &shared.steps, port);
        }
    }
}

/// A worker for each port. The caller does the work of one that can't be started.
fn work_all<R: Threads + Wait + Sync, G: Gate + Sync>(
    rt: &R,
    shared: &Shared,
    gate: &G,
    ports: u8,
    turns: u32,
) {
    thread::scope(thread::scope_env(), rt, |scope| {
        for port in 0..ports {
            let started = scope.spawn(move || work(rt, shared, gate, port, turns));
            if started.is_err() {
                work(rt, shared, gate, port, turns);
            }
        }
    });
}

/// The system, if it is one of the plan, else a new one: of what lay behind a lock nothing is known
/// but what its type keeps.
fn of_plan(alloc: Global, plan: &Plan, system: System) -> Result<System, NoMemory>
    ensures { IfOk result (λ s. plan_of s ≡ plan.now) }
{
    if system.plan().same(plan) {
        return Ok(system);
    }
    drop(system);
    System::start(alloc, plan)
}

/// The run of the plan in threads: a worker for each port takes `64 + 16 * n` turns of it, for a
/// plan of n operations, and passes the gate before each; what is left to do then is done by the
/// caller. Which worker comes first is not said.
///
/// # Errors
///
/// `NoMemory` where there is none for the run.
pub fn run_threads<R: Threads + Wait + Sync, G: Gate + Sync>(
    rt: &R,
    alloc: Global,
    plan: &Plan,
    gate: &G,
) -> Result<System, NoMemory>
    ensures done { IfOk result (λ s. Done s.plan s.past) }
    ensures plan { IfOk result (λ s. plan_of s ≡ plan.now) }
{
    let shared = Shared {
        system: Mutex::new(System::start(alloc, plan)?),
        steps: AtomicU64::new(0),
    };
    work_all(
        rt,
        &shared,
        gate,
        plan.view().header().ports,
        turns_of(plan),
    );
    let mut system = of_plan(alloc, plan, shared.system.into_inner())?;
    system.drain();
    Ok(system)
}
