// A counter and a queue in the words of a live system.

ghost use Rattle.std.specs.Prelude.{◌≡◌, ◌≤◌, ◌%◌};

use ace_live::{Full, Live, LiveSeat};
use std::sync::Wait;

/// The line of the counter (word 0) and of the numbers of words put (1) and taken (2).
const COUNTERS: u32 = 0;

/// A word of the queue.
#[derive(Clone, Copy, Drop)]
struct Slot {
    addr: u32,
    w: u8,
    ghost line: { addr % 64 ≡ 0 },
    ghost word: { w ≤ 3 },
}

/// The queue has 32 words, in 8 lines. A word that is 0 is free.
fn slot_of(number: u128) -> Slot {
    Slot {
        addr: 64 + (number / 4 % 8) as u32 * 64,
        w: (number % 4) as u8,
    }
}

/// Adds one to a counter. The answer is what it was.
pub fn add_one<R: Wait>(
    rt: &R,
    live: &Live,
    seat: LiveSeat,
    w: u8,
) -> (LiveSeat, Result<u128, Full>)
    requires seat { seat.live ≡ live.now }
    requires word { w ≤ 3 }
    ensures { result.0.live ≡ live.now }
{
    let mut seat = seat;
    for _ in rt.forever() {
        let (loaded_by, loaded) = live.ldx(rt, seat, COUNTERS, w);
        let old = match loaded {
            Ok(old) => old,
            Err(full) => return (loaded_by, Err(full)),
        };
        let (stored_by, stored) = live.stx(rt, loaded_by, COUNTERS, w, old.wrapping_add(1));
        match stored {
            Ok(true) => return (stored_by, Ok(old)),
            Ok(false) => seat = stored_by,
            Err(full) => return (stored_by, Err(full)),
        }
    }
    unreachable!()
}

/// Puts a number, which isn't 0, at the end of the queue.
pub fn put<R: Wait>(
    rt: &R,
    live: &Live,
    seat: LiveSeat,
    number: u128,
) -> (LiveSeat, Result<(), Full>)
    requires { seat.live ≡ live.now }
    ensures { result.0.live ≡ live.now }
{
    let (seat, place) = add_one(rt, live, seat, 1);
    match place {
        Ok(place) => {
            let slot = slot_of(place);
            live.store(rt, seat, slot.addr, slot.w, number)
        }
        Err(full) => (seat, Err(full)),
    }
}

/// Takes the number at the front of the queue, once it is there.
pub fn take<R: Wait>(rt: &R, live: &Live, seat: LiveSeat) -> (LiveSeat, Result<u128, Full>)
    requires { seat.live ≡ live.now }
    ensures { result.0.live ≡ live.now }
{
    let (seat, place) = add_one(rt, live, seat, 2);
    let slot = match place {
        Ok(place) => slot_of(place),
        Err(full) => return (seat, Err(full)),
    };
    let mut seat = seat;
    for _ in rt.forever() {
        let (loaded_by, loaded) = live.load(rt, seat, slot.addr, slot.w);
        match loaded {
            Ok(0) => seat = loaded_by,
            Ok(number) => {
                let (stored_by, stored) = live.store(rt, loaded_by, slot.addr, slot.w, 0);
                return (stored_by, stored.map(|_| number));
            }
            Err(full) => return (loaded_by, Err(full)),
        }
    }
    unreachable!()
}
