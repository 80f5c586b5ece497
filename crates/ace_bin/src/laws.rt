//! Facts about the definitions, as contracts of functions that do nothing.

ghost use Rattle.std.specs.Prelude.{◌≡◌, ◌≤◌, ◌⊎◌, ◌++◌, ◌∷◌, [], ℕ, List, length, codes, true, false};
ghost use Rattle.std.specs.List.{AllByRecursion};
ghost use Rattle.ace_codes.specs.declared.state.LineState.TheVariants.{I, UC, SC, SD};
ghost use Rattle.ace_event.specs.declared.event.Channel.TheVariants.{Read, Write};
ghost use Rattle.ace_event.specs.declared.event.Outcome.TheVariants.{Ok, Skip};
ghost use Rattle.ace_event.specs.declared.event.Event.{Event};
ghost use Rattle.ace_event.specs.declared.event.Event.TheVariants.{Ar, R, Rk, Aw, W, B, Wk, Ac, Cr, Cd, G, M, S, L, D, Op, Mem};
ghost use Rattle.ace_event.specs.declared.header.Header.{Header};
ghost use Rattle.ace_event.specs.Ports.{IsHeader};
ghost use Rattle.ace_event.specs.Range.{InRange};
ghost use Rattle.ace_bin.specs.declared.reason.BinReason.{BinReason};
ghost use Rattle.ace_bin.specs.Binary.{header_bytes, binary_of};
ghost use Rattle.ace_bin.specs.Records.{event_bytes};
ghost use Rattle.ace_bin.specs.Reading.{AreBytes, BeginsWith, Ending, Whole, ReadsBinary, HasBadHeader, most_events};

/// A header, a whole trace, and a record of each event.
#[tactic(auto, unfolding(crate::specs::Fields::number_bytes))]
pub fn worked_records()
    ensures header { header_bytes (record { version = 2; ports = 17; ace = 0x1f00f })
        ≡ 0x41 ∷ 0x43 ∷ 0x45 ∷ 0x42 ∷ 2 ∷ 17 ∷ 0 ∷ 1 ∷ 0xf0 ∷ 0x0f ∷ [] }
    ensures trace { binary_of (record { version = 1; ports = 1; ace = 1 }) (Op 0 0 Ok ∷ [])
        ≡ 0x41 ∷ 0x43 ∷ 0x45 ∷ 0x42 ∷ 1 ∷ 1 ∷ 0 ∷ 0 ∷ 0 ∷ 1 ∷ 0x10 ∷ 0 ∷ 0 ∷ 0 ∷ 0 ∷ [] }
    ensures ar { event_bytes (Ar 10 5 0x123cdef 7 2 1 true)
        ≡ 1 ∷ 10 ∷ 5 ∷ 0x01 ∷ 0x23 ∷ 0xcd ∷ 0xef ∷ 7 ∷ 2 ∷ 1 ∷ 1 ∷ [] }
    ensures r { event_bytes (R 1 2 12 false 0x123456789abcdef0011223344556677)
        ≡ 2 ∷ 1 ∷ 2 ∷ 12 ∷ 0 ∷ 0x01 ∷ 0x23 ∷ 0x45 ∷ 0x67 ∷ 0x89 ∷ 0xab ∷ 0xcd ∷ 0xef ∷ 0 ∷ 0x11
        ∷ 0x22 ∷ 0x33 ∷ 0x44 ∷ 0x55 ∷ 0x66 ∷ 0x77 ∷ [] }
    ensures rk { event_bytes (Rk 3 UC) ≡ 3 ∷ 3 ∷ 1 ∷ [] }
    ensures aw { event_bytes (Aw 15 14 0xfffffffe 5 1 0)
        ≡ 4 ∷ 15 ∷ 14 ∷ 0xff ∷ 0xff ∷ 0xff ∷ 0xfe ∷ 5 ∷ 1 ∷ 0 ∷ [] }
    ensures w { event_bytes (W 4 0xf00d true 15)
        ≡ 5 ∷ 4 ∷ 0xf0 ∷ 0x0d ∷ 1 ∷ 0 ∷ 0 ∷ 0 ∷ 0 ∷ 0 ∷ 0 ∷ 0 ∷ 0 ∷ 0 ∷ 0 ∷ 0 ∷ 0 ∷ 0 ∷ 0 ∷ 0 ∷ 15
        ∷ [] }
    ensures b { event_bytes (B 1 2 3) ≡ 6 ∷ 1 ∷ 2 ∷ 3 ∷ [] }
    ensures wk { event_bytes (Wk 5 SC) ≡ 7 ∷ 5 ∷ 3 ∷ [] }
    ensures ac { event_bytes (Ac 4 0x89abcdef 14) ≡ 8 ∷ 4 ∷ 0x89 ∷ 0xab ∷ 0xcd ∷ 0xef ∷ 14 ∷ [] }
    ensures cr { event_bytes (Cr 6 9 SD) ≡ 9 ∷ 6 ∷ 9 ∷ 4 ∷ [] }
    ensures cd { event_bytes (Cd 7 false 1)
        ≡ 10 ∷ 7 ∷ 0 ∷ 0 ∷ 0 ∷ 0 ∷ 0 ∷ 0 ∷ 0 ∷ 0 ∷ 0 ∷ 0 ∷ 0 ∷ 0 ∷ 0 ∷ 0 ∷ 0 ∷ 0 ∷ 1 ∷ [] }
    ensures g { event_bytes (G 9 Write 8) ≡ 11 ∷ 9 ∷ 1 ∷ 8 ∷ [] }
    ensures m { event_bytes (M 1 Read 2 (record { words = 1 ∷ 2 ∷ 3 ∷ 4 ∷ [] }))
        ≡ 12 ∷ 1 ∷ 0 ∷ 2 ∷ 0 ∷ 0 ∷ 0 ∷ 0 ∷ 0 ∷ 0 ∷ 0 ∷ 0 ∷ 0 ∷ 0 ∷ 0 ∷ 0 ∷ 0 ∷ 0 ∷ 0 ∷ 1
        ∷ 0 ∷ 0 ∷ 0 ∷ 0 ∷ 0 ∷ 0 ∷ 0 ∷ 0 ∷ 0 ∷ 0 ∷ 0 ∷ 0 ∷ 0 ∷ 0 ∷ 0 ∷ 2 ∷ 0 ∷ 0 ∷ 0 ∷ 0 ∷ 0 ∷ 0 ∷ 0
        ∷ 0 ∷ 0 ∷ 0 ∷ 0 ∷ 0 ∷ 0 ∷ 0 ∷ 0 ∷ 3
        ∷ 0 ∷ 0 ∷ 0 ∷ 0 ∷ 0 ∷ 0 ∷ 0 ∷ 0 ∷ 0 ∷ 0 ∷ 0 ∷ 0 ∷ 0 ∷ 0 ∷ 0 ∷ 4 ∷ [] }
    ensures s { event_bytes (S 2 64 I) ≡ 13 ∷ 2 ∷ 0 ∷ 0 ∷ 0 ∷ 64 ∷ 0 ∷ [] }
    ensures l { event_bytes (L 3 128 2 true 255)
        ≡ 14 ∷ 3 ∷ 0 ∷ 0 ∷ 0 ∷ 128 ∷ 2 ∷ 1 ∷ 0 ∷ 0 ∷ 0 ∷ 0 ∷ 0 ∷ 0 ∷ 0 ∷ 0 ∷ 0 ∷ 0 ∷ 0 ∷ 0 ∷ 0 ∷ 0
        ∷ 0 ∷ 255 ∷ [] }
    ensures d { event_bytes
        (D 1 192 0x8000000000000001 false (record { words = 16 ∷ 0 ∷ 0 ∷ 1 ∷ [] }))
        ≡ 15 ∷ 1 ∷ 0 ∷ 0 ∷ 0 ∷ 192 ∷ 128 ∷ 0 ∷ 0 ∷ 0 ∷ 0 ∷ 0 ∷ 0 ∷ 1 ∷ 0
        ∷ 0 ∷ 0 ∷ 0 ∷ 0 ∷ 0 ∷ 0 ∷ 0 ∷ 0 ∷ 0 ∷ 0 ∷ 0 ∷ 0 ∷ 0 ∷ 0 ∷ 0 ∷ 16 ∷ 0 ∷ 0 ∷ 0 ∷ 0 ∷ 0 ∷ 0
        ∷ 0 ∷ 0 ∷ 0 ∷ 0 ∷ 0 ∷ 0 ∷ 0 ∷ 0 ∷ 0 ∷ 0
        ∷ 0 ∷ 0 ∷ 0 ∷ 0 ∷ 0 ∷ 0 ∷ 0 ∷ 0 ∷ 0 ∷ 0 ∷ 0 ∷ 0 ∷ 0 ∷ 0 ∷ 0 ∷ 0 ∷ 0 ∷ 0 ∷ 0 ∷ 0 ∷ 0 ∷ 0 ∷ 0
        ∷ 0 ∷ 0 ∷ 0 ∷ 0 ∷ 0 ∷ 0 ∷ 0 ∷ 0 ∷ 1 ∷ [] }
    ensures op { event_bytes (Op 2 0x1f Skip) ≡ 16 ∷ 2 ∷ 0 ∷ 0x1f ∷ 1 ∷ [] }
    ensures mem { event_bytes (Mem 0x40 (record { words = 0 ∷ 1 ∷ 0 ∷ 0xf ∷ [] }))
        ≡ 17 ∷ 0 ∷ 0 ∷ 0 ∷ 64 ∷ 0 ∷ 0 ∷ 0 ∷ 0 ∷ 0 ∷ 0 ∷ 0 ∷ 0 ∷ 0 ∷ 0 ∷ 0 ∷ 0 ∷ 0 ∷ 0 ∷ 0 ∷ 0
        ∷ 0 ∷ 0 ∷ 0 ∷ 0 ∷ 0 ∷ 0 ∷ 0 ∷ 0 ∷ 0 ∷ 0 ∷ 0 ∷ 0 ∷ 0 ∷ 0 ∷ 0 ∷ 1 ∷ 0 ∷ 0 ∷ 0 ∷ 0 ∷ 0 ∷ 0 ∷ 0
        ∷ 0 ∷ 0 ∷ 0 ∷ 0 ∷ 0 ∷ 0 ∷ 0 ∷ 0 ∷ 0
        ∷ 0 ∷ 0 ∷ 0 ∷ 0 ∷ 0 ∷ 0 ∷ 0 ∷ 0 ∷ 0 ∷ 0 ∷ 0 ∷ 0 ∷ 0 ∷ 0 ∷ 0 ∷ 15 ∷ [] }
{}

/// The same bytes read in one way: they have one header, one list of events and one ending, or a
/// malformed header with one reason.
pub fn one_reading()
    ensures one { (bytes : List ℕ) (header other : Header) (events others : List Event)
        (end last : Ending)
        → ReadsBinary bytes header events end → ReadsBinary bytes other others last
        → (header ≡ other) × (events ≡ others) × (end ≡ last) }
    ensures apart { (bytes : List ℕ) (header : Header) (events : List Event) (end : Ending)
        (byte : ℕ) (reason : BinReason)
        → ReadsBinary bytes header events end → ¬ HasBadHeader bytes byte reason }
    ensures one_bad { (bytes : List ℕ) (byte place : ℕ) (reason other : BinReason)
        → HasBadHeader bytes byte reason → HasBadHeader bytes place other
        → (byte ≡ place) × (reason ≡ other) }
{}

/// Every list of bytes has a reading: a malformed header, or a header, events and an ending.
pub fn some_reading()
    ensures { (bytes : List ℕ) → AreBytes bytes
        → ((byte : ℕ) × (reason : BinReason) × HasBadHeader bytes byte reason)
        ⊎ ((header : Header) × (events : List Event) × (end : Ending)
        × ReadsBinary bytes header events end) }
{}

/// The bytes of a trace read as that trace, and they are the only bytes that do.
pub fn one_spelling()
    ensures reads_back { (header : Header) (events : List Event) → IsHeader header
        → AllByRecursion (InRange header.version) events
        → length events ≤ most_events → ReadsBinary (binary_of header events) header events Whole }
    ensures only { (bytes : List ℕ) (header : Header) (events : List Event)
        → ReadsBinary bytes header events Whole
        → bytes ≡ binary_of header events }
{}

/// A header and events that stand whole at the front of bytes are a front of what these read as,
/// and no header is malformed then.
pub fn front_is_read()
    ensures front { (bytes : List ℕ) (header other : Header) (events read : List Event)
        (end : Ending)
        → AreBytes bytes → IsHeader header → AllByRecursion (InRange header.version) events
        → length events ≤ most_events
        → BeginsWith bytes (binary_of header events)
        → ReadsBinary bytes other read end
        → (other ≡ header) × ((more : List Event) × (read ≡ events ++ more)) }
    ensures apart { (bytes : List ℕ) (header : Header) (events : List Event) (byte : ℕ)
        (reason : BinReason)
        → IsHeader header → BeginsWith bytes (binary_of header events)
        → ¬ HasBadHeader bytes byte reason }
{}
