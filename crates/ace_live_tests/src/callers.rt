//! Callers in one thread and in two, and what a checker says of the trace.

ghost use Rattle.std.specs.Prelude.{◌≡◌};

use ace_check::{Checker, Step};
use ace_event::{Event, Outcome};
use ace_fabric::System;
use ace_live::{Full, Live, LiveSeat};
use ace_model::PolicyWord;
use std::alloc::Global;
use std::sync::Wait;
use std::test::Fail;
use std::thread;
use std::thread::Threads;

/// Whether the system is done, and a checker finds each event of its trace fine.
pub fn is_fine(alloc: Global, system: &System) -> bool {
    let Ok(mut checker) = Checker::new(alloc, system.plan().view().header()) else {
        return false;
    };
    for event in system.trace() {
        let Ok(Step::Fine) = checker.feed(event) else {
            return false;
        };
    }
    system.done()
}

/// The system of two ports, when their callers are done.
fn close_both(alloc: Global, live: Live, zero: LiveSeat, one: LiveSeat) -> Result<System, Fail>
    requires live { (zero.live ≡ live) × (one.live ≡ live) }
    requires ports { (zero.port ≡ 0) × (one.port ≡ 1) × (live.setting.ports ≡ 2) }
{
    let mut seats = Vec::new(alloc);
    seats.push(zero)?;
    seats.push(one)?;
    Ok(live.close(seats))
}

/// What the ports read after a store of port 0, until there is no room.
#[test]
fn one_thread(rt: HostRuntime) -> Result<(), Fail> {
    let (live, mut seats) = Live::new(rt.alloc(), 2, 2, PolicyWord::Keep, 4)?;
    let one = seats.pop().ok_or("seat 1")?;
    let zero = seats.pop().ok_or("seat 0")?;
    let (zero, stored) = live.store(&rt, zero, 0x40, 0, 0x11);
    let (zero, first) = live.load(&rt, zero, 0x40, 0);
    let (one, second) = live.load(&rt, one, 0x40, 0);
    let (zero, third) = live.load(&rt, zero, 0x40, 0);
    let (one, last) = live.load(&rt, one, 0x40, 0);
    drop(seats);
    let system = close_both(rt.alloc(), live, zero, one)?;
    let fine = is_fine(rt.alloc(), &system);
    drop(system);
    assert!(rt; stored.is_ok() && first == Ok(0x11) && second == Ok(0x11) && third == Ok(0x11));
    assert!(rt; last == Err(Full { used: 4 }));
    assert!(rt; fine);
    Ok(())
}

/// What a caller that counted saw: how often it counted, and how often its store failed.
#[derive(Drop)]
struct Counted {
    done: u32,
    failed: u32,
}

/// Adds one to a word until it has done so ten times.
fn count<R: Wait>(rt: &R, live: &Live, seat: LiveSeat) -> (LiveSeat, Counted)
    requires { seat.live ≡ live.now }
    ensures { (result.0.live ≡ live.now) × (result.0.port ≡ seat.port) }
{
    let mut seat = seat;
    let mut counted = Counted { done: 0, failed: 0 };
    for _ in 0..20u8 {
        if counted.done < 10 {
            let (read_by, word) = live.ldx(rt, seat, 0x40, 0);
            let next = word.unwrap_or(0).wrapping_add(1);
            let (stored_by, stored) = live.stx(rt, read_by, 0x40, 0, next);
            match stored {
                Ok(true) => counted.done += 1,
                _ => counted.failed = counted.failed.wrapping_add(1),
            }
            seat = stored_by;
        }
    }
    (seat, counted)
}

/// Two callers count, each in a thread of its own.
fn count_both<R: Threads + Wait + Sync>(
    rt: &R,
    live: &Live,
    zero: LiveSeat,
    one: LiveSeat,
) -> ((LiveSeat, Counted), (LiveSeat, Counted))
    requires { (zero.live ≡ live.now) × (one.live ≡ live.now) }
    ensures { (result.0.0.live ≡ live.now) × (result.1.0.live ≡ live.now)
        × (result.0.0.port ≡ zero.port) × (result.1.0.port ≡ one.port) }
{
    thread::join(
        rt,
        move ||
            requires { zero.live ≡ live.now }
            ensures { (result.0.live ≡ live.entry.now) × (result.0.port ≡ zero.port) }
        { count(rt, live, zero) },
        move ||
            requires { one.live ≡ live.now }
            ensures { (result.0.live ≡ live.entry.now) × (result.0.port ≡ one.port) }
        { count(rt, live, one) },
    )
}

/// Whether the trace of two callers that count is that of right counts: word 0 has 20 at its end,
/// and an exclusive store failed only where the other port stored after the last load of its own.
fn is_of_20_counts(trace: &[Event]) -> bool {
    let mut value = 0u128;
    let mut is_disturbed = [false; 2];
    let mut right = true;
    for event in trace {
        match *event {
            Event::L { port, .. } => is_disturbed[usize::from(port % 2)] = false,
            Event::D { port, line, .. } => {
                value = line.words[0];
                is_disturbed[usize::from(1 - port % 2)] = true;
            }
            Event::Op { port, res, .. } => {
                right = right && (res == Outcome::Ok || is_disturbed[usize::from(port % 2)]);
            }
            _ => {}
        }
    }
    right && value == 20
}

/// Whether two callers that count to ten each leave 20, in at most 80 calls, each with at most ten
/// stores that fail.
fn counts_to_20<R: Threads + Wait + Sync>(rt: &R, alloc: Global) -> Result<bool, Fail> {
    let (live, mut seats) = Live::new(alloc, 2, 2, PolicyWord::Keep, 100)?;
    let one = seats.pop().ok_or("seat 1")?;
    let zero = seats.pop().ok_or("seat 0")?;
    let ((zero, first), (one, second)) = count_both(rt, &live, zero, one);
    drop(seats);
    let system = close_both(alloc, live, zero, one)?;
    let fine = is_fine(alloc, &system) && system.plan().view().count() <= 80;
    let right = is_of_20_counts(system.trace());
    drop(system);
    let done = first.done == 10 && second.done == 10;
    let few_failed = first.failed <= 10 && second.failed <= 10;
    Ok(fine && right && done && few_failed)
}

/// A hundred times.
#[test]
fn two_threads_count(rt: HostRuntime) -> Result<(), Fail> {
    for _ in 0..100u8 {
        let right = counts_to_20(&rt, rt.alloc())?;
        assert!(rt; right);
    }
    Ok(())
}
