//! Facts about the definitions, as contracts of functions that do nothing: what is found at each
//! address after each call, and what a victim is.

ghost use Rattle.std.specs.Prelude.{◌≡◌, ℕ, Bool, ◌==◌, if◌then◌else◌, true, false, List, map, None, Some, option_map, All};
ghost use Rattle.ace_codes.specs.declared.state.LineState.{LineState};
ghost use Rattle.ace_event.specs.declared.line.Line.{Line};
ghost use Rattle.ace_cache.specs.declared.way.Way.{Way};
ghost use Rattle.ace_cache.specs.Ways.{way_of, without, touched, stored, stored_at, marked};
ghost use Rattle.ace_cache.specs.LineCache.{CachedWays, IsCache, room_in, victim_of};

/// A touch changes no Way; a store and a mark change the Way with their address alone; what is
/// dropped is gone, and nothing else.
pub fn others_stay()
    ensures touched { (ways : List Way) (addr a : ℕ)
        → way_of (touched ways addr) a ≡ way_of ways a }
    ensures stored { (ways : List Way) (addr a strobe : ℕ) (bytes : Line)
        → way_of (stored_at ways addr strobe bytes) a
        ≡ (if a == addr then option_map (stored strobe bytes) (way_of ways a) else way_of ways a) }
    ensures marked { (ways : List Way) (addr a : ℕ) (st : LineState) (busy : Bool)
        → way_of (map (marked addr st busy) ways) a
        ≡ option_map (marked addr st busy) (way_of ways a) }
    ensures dropped { (ways : List Way) (addr a : ℕ)
        → way_of (without ways addr) a ≡ (if a == addr then None else way_of ways a) }
{}

/// A victim is held and isn't busy. Where there is neither room nor a victim, every Way is busy.
pub fn victim_is_idle()
    ensures idle { (cache : CachedWays) (addr : ℕ) → IsCache cache → victim_of cache ≡ Some addr
        → (way : Way) × (way_of cache.held addr ≡ Some way) × (way.busy ≡ false) }
    ensures none { (cache : CachedWays) → room_in cache ≡ false → victim_of cache ≡ None
        → All (λ way. way.busy ≡ true) cache.held }
{}
