// The cache of a master.
ghost use Rattle.std.specs.Prelude.{◌≡◌, ◌<◌, ◌≤◌, [], ◌∷◌, map, length, None, IfOk, IsSome};
ghost use Rattle.ace_cache.specs.Ways.{way_of, without, touched, stored_at, marked};
ghost use Rattle.ace_cache.specs.LineCache.{IsCache, room_in, victim_of};

use crate::Way;
use crate::ways::{find_way, last_idle, mark_at, put_front, take_out};
use ace_codes::LineState;
use ace_event::{Line, merge};
use ace_io::NoMemory;
use std::alloc::Global;
use std::marker::Model;

/// The lines that a master holds, at most as many as it has ways, the most recently used first. No
/// two have one address. Its room is reserved as it is made, and no later call takes memory.
#[derive(Drop)]
pub struct LineCache {
    ways: u8,
    held: Vec<Way>,
}

impl Model for LineCache {
    ghost use Rattle.std.specs.Prelude.{◌≤◌, vec_capacity};
    ghost use Rattle.ace_cache.specs.LineCache.{CachedWays, IsCache};

    ghost Value = { CachedWays };

    ghost view = { λ c. record { ways = c.ways; held = c.held.items } };

    ghost invariant = { λ c. IsCache (record { ways = c.ways; held = c.held.items })
        × (c.ways ≤ vec_capacity c.held) };
}

impl LineCache {
    /// A cache that holds nothing, with 1 to 32 ways.
    ///
    /// # Errors
    ///
    /// `NoMemory` where there is none for the ways.
    pub fn new(alloc: Global, ways: u8) -> Result<LineCache, NoMemory>
        requires some_way { 1 ≤ ways }
        requires most_ways { ways ≤ 32 }
        ensures { IfOk result (λ cache. cache ≡ record { ways = ways; held = [] }) }
    {
        let held = Vec::with_capacity(alloc, usize::from(ways)).map_err(|_| NoMemory)?;
        Ok(LineCache { ways, held })
    }

    /// The Way with this address. None exactly where the cache doesn't hold it.
    pub fn find(&self, addr: u32) -> Option<Way>
        ensures way { result ≡ way_of self.now.held addr }
        ensures lawful { IsCache self.now }
    {
        find_way(&self.held, addr)
    }

    /// Puts the Way at the front, in place of the one with its address.
    #[tactic(auto, using(crate::proofs::Distinct::found_steps))]
    fn renew(&mut self, way: Way)
        requires { IsSome (way_of self.old.held way.addr) }
        ensures { self.new ≡ record self.old { held = way ∷ without self.old.held way.addr } }
    {
        let _old = take_out(&mut self.held, way.addr);
        put_front(&mut self.held, way);
    }

    /// Brings the Way with this address to the front, as the most recently used one.
    #[tactic(auto, using(crate::proofs::Distinct::found_steps))]
    pub fn touch(&mut self, addr: u32)
        requires { IsSome (way_of self.old.held addr) }
        ensures { self.new ≡ record self.old { held = touched self.old.held addr } }
    {
        if let Some(way) = self.find(addr) {
            self.renew(way);
        }
    }

    /// Puts a Way with this address, which the cache doesn't hold, at the front.
    pub fn fill(&mut self, addr: u32, line: Line, st: LineState, busy: bool)
        requires absent { way_of self.old.held addr ≡ None }
        requires room { length self.old.held < self.old.ways }
        ensures { self.new ≡ record self.old {
          held = record { addr = addr; st = st; line = line; busy = busy } ∷ self.old.held;
        } }
    {
        let way = Way {
            addr,
            st,
            line,
            busy,
        };
        put_front(&mut self.held, way);
    }

    /// Stores into the Way with this address, and brings it to the front: byte n, from 0 to 63,
    /// becomes that of `bytes` where bit n of the strobe is 1, and else stays.
    #[tactic(auto, using(crate::proofs::Distinct::found_steps))]
    pub fn store(&mut self, addr: u32, strobe: u64, bytes: Line)
        requires { IsSome (way_of self.old.held addr) }
        ensures { self.new ≡ record self.old { held = stored_at self.old.held addr strobe bytes } }
    {
        if let Some(way) = self.find(addr) {
            let line = merge(way.line, strobe, bytes);
            self.renew(Way { line, ..way });
        }
    }

    /// Gives the Way with this address that state, and makes it busy or not. Each Way keeps its
    /// place.
    pub fn set(&mut self, addr: u32, st: LineState, busy: bool)
        requires { IsSome (way_of self.old.held addr) }
        ensures { self.new ≡ record self.old { held = map (marked addr st busy) self.old.held } }
    {
        mark_at(&mut self.held, addr, st, busy);
    }

    /// Drops the Way with this address. The others keep their order.
    pub fn drop_line(&mut self, addr: u32)
        requires { IsSome (way_of self.old.held addr) }
        ensures { self.new ≡ record self.old { held = without self.old.held addr } }
    {
        let _way = take_out(&mut self.held, addr);
    }

    /// Whether the cache holds fewer Ways than it has room for.
    pub fn has_room(&self) -> bool
        ensures room { result ≡ room_in self.now }
        ensures lawful { IsCache self.now }
    {
        self.held.len() < usize::from(self.ways)
    }

    /// The address of the Way to give up for another: the least recently used one that isn't busy.
    /// None exactly where there is room or every Way is busy.
    pub fn victim(&self) -> Option<u32>
        ensures { result ≡ victim_of self.now }
    {
        if self.has_room() {
            return None;
        }
        last_idle(&self.held)
    }
}
