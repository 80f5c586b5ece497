//! Live ports to see: callers in threads of their own count on one word and pass numbers through
//! one queue of words. With no argument each makes four rounds, and what came of them is printed;
//! with an argument, whatever it is, calls a second are.
#![tactic(auto)]

mod queue;

ghost use Rattle.std.specs.Prelude.{◌≡◌, ◌≤◌, All};
ghost use Rattle.ace_live.specs.Seats.{LiveId};

use crate::queue::{add_one, put, take};
use ace_live::{Full, Live, LiveSeat};
use ace_model::PolicyWord;
use std::alloc::Global;
use std::rt::Clock;
use std::sync::Wait;
use std::thread::Threads;
use std::time::Instant;
use std::{env, fmt, io, thread};

/// What the rounds of a caller, or of all, came to: how many were whole, and the sums of the
/// numbers that were put and taken.
#[derive(Clone, Copy, Drop)]
struct Sums {
    rounds: u64,
    put: u128,
    taken: u128,
}

const NOTHING: Sums = Sums {
    rounds: 0,
    put: 0,
    taken: 0,
};

impl Sums {
    /// With those of another caller.
    fn and(self, other: Sums) -> Sums {
        Sums {
            rounds: self.rounds.wrapping_add(other.rounds),
            put: self.put.wrapping_add(other.put),
            taken: self.taken.wrapping_add(other.taken),
        }
    }
}

impl fmt::Display for Sums {
    fn fmt<W: fmt::Write>(&self, f: &mut fmt::Formatter<W>) -> fmt::Result {
        write!(
            f,
            "{} rounds, put {}, taken {}",
            self.rounds, self.put, self.taken
        )
    }
}

/// A round: counts, puts the number that it counted, and takes a number.
fn round<R: Wait>(rt: &R, live: &Live, seat: LiveSeat) -> (LiveSeat, Result<Sums, Full>)
    requires { seat.live ≡ live.now }
    ensures { result.0.live ≡ live.now }
{
    let (seat, counted) = add_one(rt, live, seat, 0);
    let number = match counted {
        Ok(before) => before.wrapping_add(1),
        Err(full) => return (seat, Err(full)),
    };
    let (seat, stored) = put(rt, live, seat, number);
    if let Err(full) = stored {
        return (seat, Err(full));
    }
    let (seat, taken) = take(rt, live, seat);
    match taken {
        Ok(taken) => {
            let sums = Sums {
                rounds: 1,
                put: number,
                taken,
            };
            (seat, Ok(sums))
        }
        Err(full) => (seat, Err(full)),
    }
}

/// So many rounds of a caller, or fewer where there is no more room for calls.
fn rounds_of<R: Wait>(rt: &R, live: &Live, seat: LiveSeat, rounds: u32) -> Sums
    requires { seat.live ≡ live.now }
{
    let mut seat = seat;
    let mut sums = NOTHING;
    for _ in 0..rounds {
        let (back, made) = round(rt, live, seat);
        seat = back;
        match made {
            Ok(made) => sums = sums.and(made),
            Err(_) => break,
        }
    }
    sums
}

/// All callers of a system, each in a thread of its own.
fn all_rounds<R: Threads + Wait + Sync>(
    rt: &R,
    live: &Live,
    seats: Vec<LiveSeat>,
    rounds: u32,
) -> io::Result<Sums>
    requires { All (λ s. s.live ≡ live.now) seats.items }
{
    let each = thread::map_vec(
        rt,
        seats,
        &|seat|
            requires { seat.live ≡ live.now }
        { rounds_of(rt, live, seat, rounds) },
    )?;
    let mut sums = NOTHING;
    for made in each {
        sums = sums.and(made);
    }
    Ok(sums)
}

/// The rounds of so many callers of a system of their own, which has room for 4,096 calls.
fn rounds_of_callers<R: Threads + Wait + Sync>(
    rt: &R,
    alloc: Global,
    callers: u8,
    rounds: u32,
) -> io::Result<Sums>
    requires some { 1 ≤ callers }
    requires most { callers ≤ 8 }
{
    let Ok((live, seats)) = Live::new(alloc, callers, 8, PolicyWord::Keep, 4096) else {
        return Err(io::ErrorKind::OutOfMemory.into());
    };
    all_rounds(rt, &live, seats, rounds)
}

/// How many calls so many callers make in a second, on one system after another.
fn calls_in_a_second<R: Threads + Wait + Sync + Clock>(
    rt: &R,
    alloc: Global,
    callers: u8,
) -> io::Result<u64>
    requires some { 1 ≤ callers }
    requires most { callers ≤ 8 }
{
    let start = Instant::now(rt)?;
    let mut calls = 0u64;
    for _ in 0..100000u32 {
        rounds_of_callers(rt, alloc, callers, 4096)?;
        calls = calls.wrapping_add(4096);
        let taken = start.elapsed(rt)?.as_millis();
        if taken >= 1000 {
            return Ok((u128::from(calls) * 1000 / taken) as u64);
        }
    }
    Ok(calls)
}

fn main(rt: HostRuntime) -> io::Result<()> {
    let is_timed = env::args(&rt)?.skip(1).next().is_some();
    for callers in [1u8, 2, 4, 8] {
        if is_timed {
            let calls = calls_in_a_second(&rt, rt.alloc(), callers)?;
            println!(rt; "callers {callers}: {calls} calls a second")?;
        } else {
            let sums = rounds_of_callers(&rt, rt.alloc(), callers, 4)?;
            println!(rt; "callers {callers}: {sums}")?;
        }
    }
    Ok(())
}
