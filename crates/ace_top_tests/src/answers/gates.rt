// Workers that take their turns beside each other.

use super::{Answered, owned};
use ace_io::{Gate, HonestSource, MemSink};
use ace_top::ace;
use crossbeam_utils::CachePadded;
use crossbeam_utils::atomic::AtomicCell;
use std::alloc::Global;
use std::sync::Wait;
use std::test::Fail;
use std::thread::Threads;

const TWO_READS: &str =
    "ACE SCRIPT 1\nPORTS LL\nCACHE 1\nPOLICY keep\n0 ro 00000040\n1 ro 00000080\n";

/// How often a flag is looked at.
const PATIENCE: u32 = 200_000_000;

/// The number of the last turn of a worker, for two operations.
const LAST: u32 = 95;

/// A flag, in a cache line of its own.
type Flag = CachePadded<AtomicCell<u32>>;

/// Whether the flag is up in time.
fn is_up_in_time(flag: &Flag) -> bool {
    let flag: &AtomicCell<u32> = flag;
    for _ in 0..PATIENCE {
        if flag.load() != 0 {
            return true;
        }
    }
    false
}

fn is_up(flag: &Flag) -> bool {
    let flag: &AtomicCell<u32> = flag;
    flag.load() != 0
}

fn raise(flag: &Flag) {
    let flag: &AtomicCell<u32> = flag;
    flag.store(1);
}

fn flag() -> Flag {
    CachePadded::new(AtomicCell::new(0u32))
}

/// What is known of a port: that it came to the gate, and that it saw the other one in time.
#[derive(Drop)]
struct Seen {
    came: Flag,
    met: Flag,
}

/// A gate at which the first pass of each port waits for that of the other.
#[derive(Drop)]
struct Meeting {
    first: Seen,
    second: Seen,
}

impl Gate for Meeting {
    fn pass(&self, port: u8, turn: u32) {
        if turn != 0 {
            return;
        }
        let (own, other) = if port == 0 {
            (&self.first, &self.second)
        } else {
            (&self.second, &self.first)
        };
        raise(&own.came);
        if is_up_in_time(&other.came) {
            raise(&own.met);
        }
    }
}

/// A gate at which the first pass of this port waits for the last one of the other.
#[derive(Drop)]
struct Order {
    waits: u8,
    ended: Flag,
    in_time: Flag,
}

impl Gate for Order {
    fn pass(&self, port: u8, turn: u32) {
        if port != self.waits && turn == LAST {
            raise(&self.ended);
        }
        if port == self.waits && turn == 0 && is_up_in_time(&self.ended) {
            raise(&self.in_time);
        }
    }
}

/// The trace of a run of the script through the gate.
fn run_through<R: Threads + Wait + Sync, G: Gate + Sync>(
    rt: &R,
    alloc: Global,
    gate: &G,
) -> Result<Answered, Fail> {
    let mut input = HonestSource::new(TWO_READS.as_bytes());
    let mut out = MemSink::new(alloc, 9999, &[])?;
    let mut notes = MemSink::new(alloc, 99, &[])?;
    let words = owned(alloc, &["run"])?;
    let given = words.as_slice();
    let status = ace(rt, alloc, given, &mut input, &mut out, &mut notes, gate);
    drop(words);
    Ok(Answered { status, out, notes })
}

/// The digit of the port of the first OP.
fn first_to_retire(trace: &[u8]) -> Option<u8> {
    for window in trace.windows(5) {
        if window.starts_with(b"\nOP ") {
            return window.last().copied();
        }
    }
    None
}

#[test]
fn gate_meets(rt: HostRuntime) -> Result<(), Fail> {
    let gate = Meeting {
        first: Seen {
            came: flag(),
            met: flag(),
        },
        second: Seen {
            came: flag(),
            met: flag(),
        },
    };
    let run = run_through(&rt, rt.alloc(), &gate)?;
    let status = run.status;
    drop(run);
    assert!(rt; status == 0 && is_up(&gate.first.met) && is_up(&gate.second.met));
    Ok(())
}

#[test]
fn gate_orders(rt: HostRuntime) -> Result<(), Fail> {
    for (waits, first) in [(0, b'1'), (1, b'0')] {
        let gate = Order {
            waits,
            ended: flag(),
            in_time: flag(),
        };
        let run = run_through(&rt, rt.alloc(), &gate)?;
        let retired = first_to_retire(run.out.bytes());
        drop(run);
        assert_eq!(rt; retired, Some(first));
        assert!(rt; is_up(&gate.in_time));
    }
    Ok(())
}
