// Steps on a small cache, a store into some bytes of a line, and caches of the least and the most
// ways.

ghost use Rattle.std.specs.Prelude.{◌<◌};

use ace_cache::{LineCache, Way};
use ace_codes::LineState;
use ace_event::Line;
use ace_io::NoMemory;
use std::alloc::Global;
use std::test::Fail;

/// A call that changes the cache.
#[derive(Clone, Copy)]
enum Step {
    Touch(u32),
    Fill(u32, LineState),
    Store(u32),
    Set(u32, LineState, bool),
    DropLine(u32),
}

const ZEROES: Line = Line { words: [0; 4] };

/// The cache gets the line, if it has room for it and doesn't hold it.
fn fill(cache: &mut LineCache, addr: u32, st: LineState) -> bool {
    if !cache.has_room() || cache.find(addr).is_some() {
        return false;
    }
    cache.fill(addr, ZEROES, st, false);
    true
}

/// The line is used, if the cache holds it.
fn touch(cache: &mut LineCache, addr: u32) -> bool {
    if cache.find(addr).is_none() {
        return false;
    }
    cache.touch(addr);
    true
}

/// Nothing is stored in the line, if the cache holds it.
fn store(cache: &mut LineCache, addr: u32) -> bool {
    if cache.find(addr).is_none() {
        return false;
    }
    cache.store(addr, 0, ZEROES);
    true
}

/// The line has this state, and is busy or not, if the cache holds it.
fn set(cache: &mut LineCache, addr: u32, st: LineState, busy: bool) -> bool {
    if cache.find(addr).is_none() {
        return false;
    }
    cache.set(addr, st, busy);
    true
}

/// The line is dropped, if the cache holds it.
fn drop_line(cache: &mut LineCache, addr: u32) -> bool {
    if cache.find(addr).is_none() {
        return false;
    }
    cache.drop_line(addr);
    true
}

/// Takes the step, and says whether its condition was met.
fn take(cache: &mut LineCache, step: Step) -> bool {
    match step {
        Step::Touch(addr) => touch(cache, addr),
        Step::Fill(addr, st) => fill(cache, addr, st),
        Step::Store(addr) => store(cache, addr),
        Step::Set(addr, st, busy) => set(cache, addr, st, busy),
        Step::DropLine(addr) => drop_line(cache, addr),
    }
}

/// Whether the step can be taken, and there is this room and this victim after it.
fn leads_to(cache: &mut LineCache, step: Step, room: bool, victim: Option<u32>) -> bool {
    take(cache, step) && cache.has_room() == room && cache.victim() == victim
}

#[test]
fn takes_steps(rt: HostRuntime) -> Result<(), Fail> {
    // each step, whether there is room after it, and the victim then
    let steps = [
        (Step::Fill(0x40, LineState::UC), true, None),
        (Step::Fill(0x80, LineState::SC), false, Some(0x40)),
        (Step::Touch(0x40), false, Some(0x80)),
        (Step::Set(0x80, LineState::SC, true), false, Some(0x40)),
        (Step::Set(0x40, LineState::UC, true), false, None),
        (Step::Set(0x80, LineState::SC, false), false, Some(0x80)),
        (Step::Set(0x40, LineState::UC, false), false, Some(0x80)),
        (Step::Store(0x80), false, Some(0x40)),
        (Step::DropLine(0x40), true, None),
        (Step::Fill(0xc0, LineState::I), false, Some(0x80)),
    ];
    let mut cache = LineCache::new(rt.alloc(), 2)?;
    for (n, (step, room, victim)) in steps.iter().enumerate() {
        assert!(rt; leads_to(&mut cache, *step, *room, *victim), "step {n}");
    }
    let filled = Way {
        addr: 0xc0,
        st: LineState::I,
        line: ZEROES,
        busy: false,
    };
    assert!(rt; cache.find(0x40) == None && cache.find(0xc0) == Some(filled));
    Ok(())
}

#[test]
fn stores_some_bytes(rt: HostRuntime) -> Result<(), Fail> {
    let mut cache = LineCache::new(rt.alloc(), 1)?;
    assert!(rt; cache.has_room() && cache.find(0x1000).is_none());
    cache.fill(0x1000, ZEROES, LineState::UD, true);
    assert!(rt; cache.find(0x1000).is_some());
    let bytes = Line {
        words: [0x0102030405060708090a0b0c0d0e0f10; 4],
    };
    // the first byte of the line, the last of its first word, and the last of the line
    cache.store(0x1000, 0x8000000000008001, bytes);
    let stored = Way {
        addr: 0x1000,
        st: LineState::UD,
        line: Line {
            words: [0x01000000000000000000000000000010, 0, 0, 0x10],
        },
        busy: true,
    };
    assert_eq!(rt; cache.find(0x1000), Some(stored));
    Ok(())
}

/// Whether a cache of so many ways takes a line for each, and has no room then and the first as its
/// victim.
fn fills(alloc: Global, ways: u8) -> Result<bool, NoMemory>
    requires some { 0 < ways }
    requires most { ways < 33 }
{
    let mut cache = LineCache::new(alloc, ways)?;
    for n in 0..ways {
        if !take(&mut cache, Step::Fill(64 * u32::from(n), LineState::SD)) {
            return Ok(false);
        }
    }
    Ok(!cache.has_room() && cache.victim() == Some(0))
}

#[test]
fn fills_all_ways(rt: HostRuntime) -> Result<(), Fail> {
    assert!(rt; fills(rt.alloc(), 1)? && fills(rt.alloc(), 32)?);
    Ok(())
}
