//! A run of two ports in threads, and what its workers pass.

use ace_event::{Event, Outcome};
use ace_io::{Free, Gate, HonestSource};
use ace_run::run_threads;
use ace_script::Plan;
use crossbeam_utils::CachePadded;
use std::alloc::Global;
use std::sync::Wait;
use std::sync::atomic::{AtomicU64, Ordering};
use std::test::Fail;
use std::thread::Threads;

const SCRIPT: &[u8] =
    b"ACE SCRIPT 1\nPORTS AL\nCACHE 1\nPOLICY keep\n0 st 00000040 0 11111111111111111111111111111111\n1 ro 00000040\n";

/// Counts the turns before which each of two ports passed it, while they come in order from 0.
#[derive(Drop)]
struct Counter {
    first: CachePadded<AtomicU64>,
    second: CachePadded<AtomicU64>,
}

impl Gate for Counter {
    fn pass(&self, port: u8, turn: u32) {
        let counted: &AtomicU64 = if port == 0 { &self.first } else { &self.second };
        if counted.load(Ordering::SeqCst) == u64::from(turn) {
            counted.fetch_add(1, Ordering::SeqCst);
        }
    }
}

/// Whether the operation of the port retired.
fn has_retired(trace: &[Event], port: u8, k: u16) -> bool {
    trace.contains(&Event::Op {
        port,
        k,
        res: Outcome::Ok,
    })
}

/// Whether the run of the script through the gate comes to its end, with both operations.
fn ends<R: Threads + Wait + Sync, G: Gate + Sync>(
    rt: &R,
    alloc: Global,
    gate: &G,
) -> Result<bool, Fail> {
    let plan = Plan::read(alloc, &mut HonestSource::new(SCRIPT))?;
    let system = run_threads(rt, alloc, &plan, gate)?;
    let ended = system.done()
        && system.plan().same(&plan)
        && has_retired(system.trace(), 0, 0)
        && has_retired(system.trace(), 1, 0);
    drop(system);
    drop(plan);
    Ok(ended)
}

#[test]
fn runs_in_threads(rt: HostRuntime) -> Result<(), Fail> {
    assert!(rt; ends(&rt, rt.alloc(), &Free)?);
    Ok(())
}

/// Each worker passes the gate before each of its 64 turns and 16 for each operation, in order.
#[test]
fn passes_the_gate_before_each_turn(rt: HostRuntime) -> Result<(), Fail> {
    let gate = Counter {
        first: CachePadded::new(AtomicU64::new(0)),
        second: CachePadded::new(AtomicU64::new(0)),
    };
    let ended = ends(&rt, rt.alloc(), &gate)?;
    let first = gate.first.load(Ordering::SeqCst);
    let second = gate.second.load(Ordering::SeqCst);
    assert!(rt; ended && first == 96 && second == 96);
    Ok(())
}
