// A list of Ways, the most recently used first.
ghost use Rattle.std.specs.Prelude.{◌≡◌, ◌<◌, ◌∷◌, map, vec_len, vec_capacity};
ghost use Rattle.ace_cache.specs.Ways.{way_of, without, marked};
ghost use Rattle.ace_cache.specs.LineCache.{last_idle_of};

use crate::Way;
use ace_codes::LineState;

/// The Way with this address, if there is one.
pub fn find_way(ways: &[Way], addr: u32) -> Option<Way>
    ensures { result ≡ way_of ways.now addr }
{
    ways.iter().copied().find(|way| way.addr == addr)
}

/// Takes the Way with this address out of the list, if there is one.
pub fn take_out(ways: &mut Vec<Way>, addr: u32) -> Option<Way>
    ensures way { result ≡ way_of ways.old.items addr }
    ensures rest { ways.new.items ≡ without ways.old.items addr }
    ensures capacity { vec_capacity ways.new ≡ vec_capacity ways.old }
{
    let way = find_way(ways, addr);
    ways.retain(|other| other.addr != addr);
    way
}

/// Puts the Way at the front of the list, which has room for it.
pub fn put_front(ways: &mut Vec<Way>, way: Way)
    requires { vec_len ways.old < vec_capacity ways.old }
    ensures items { ways.new.items ≡ way ∷ ways.old.items }
    ensures capacity { vec_capacity ways.new ≡ vec_capacity ways.old }
{
    ways.push_reserved(way);
    ways.rotate_right(1);
}

/// The Way, with the state and the mark where it has the address.
fn mark(way: Way, addr: u32, st: LineState, busy: bool) -> Way
    ensures { result ≡ marked addr st busy way }
{
    if way.addr == addr {
        Way { st, busy, ..way }
    } else {
        way
    }
}

/// Gives the Way with this address the state and the mark.
pub fn mark_at(ways: &mut [Way], addr: u32, st: LineState, busy: bool)
    ensures { ways.new ≡ map (marked addr st busy) ways.old }
{
    for way in ways.iter_mut() {
        *way = mark(*way, addr, st, busy);
    }
}

/// The address of the last Way that isn't busy.
pub fn last_idle(ways: &[Way]) -> Option<u32>
    ensures { result ≡ last_idle_of ways.now }
{
    ways.iter().rev().find(|way| !way.busy).map(|way| way.addr)
}
