//! Facts about the definitions, as contracts of functions that do nothing: of readings where a
//! trace has at most so many events, for any such number.

ghost use Rattle.std.specs.Prelude.{◌≡◌, ◌≢◌, ◌≤◌, ◌++◌, ◌⊎◌, ℕ, List, length};
ghost use Rattle.std.specs.List.{AllByRecursion};
ghost use Rattle.ace_event.specs.declared.event.Event.{Event};
ghost use Rattle.ace_event.specs.declared.header.Header.{Header};
ghost use Rattle.ace_event.specs.Range.{InRange};
ghost use Rattle.ace_event.specs.Text.{event_text, trace_text};
ghost use Rattle.ace_grammar.specs.declared.reason.Reason.{Reason};
ghost use Rattle.ace_grammar.specs.Lines.{BeginsWith};
ghost use Rattle.ace_grammar.specs.Reasons.{HasReason};
ghost use Rattle.ace_grammar.specs.Reading.{Ending, Whole, ReadsWithin, IsReadable, IsReadableHeader, HasBadHeader};

/// The same bytes read in one way: they have one header, one list of events and one ending, or a
/// bad header with one line and one reason.
pub fn one_reading()
    ensures one { (most : ℕ) (bytes : List ℕ) (header other : Header)
        (events others : List Event) (end last : Ending)
        → ReadsWithin most bytes header events end → ReadsWithin most bytes other others last
        → (header ≡ other) × (events ≡ others) × (end ≡ last) }
    ensures apart { (most : ℕ) (bytes : List ℕ) (header : Header)
        (events : List Event) (end : Ending) (number : ℕ) (reason : Reason)
        → ReadsWithin most bytes header events end → ¬ HasBadHeader bytes number reason }
    ensures one_bad { (bytes : List ℕ) (number line : ℕ) (reason other : Reason)
        → HasBadHeader bytes number reason → HasBadHeader bytes line other
        → (number ≡ line) × (reason ≡ other) }
{}

/// A line, without its line feed, is in a trace of a version that of an event in range, or it has
/// one reason.
pub fn one_reason()
    ensures some { (version : ℕ) (line : List ℕ)
        → ((event : Event) × InRange version event × (event_text version event ≡ line))
        ⊎ ((reason : Reason) × HasReason version line reason) }
    ensures one { (version : ℕ) (line : List ℕ) (reason other : Reason)
        → HasReason version line reason → HasReason version line other → reason ≡ other }
    ensures apart { (version : ℕ) (line : List ℕ) (reason : Reason) (event : Event)
        → HasReason version line reason → InRange version event → event_text version event ≢ line }
{}

/// Every list of bytes has a reading: a bad header, or a header, events and an ending.
pub fn some_reading()
    ensures { (most : ℕ) (bytes : List ℕ) → ((number : ℕ) × (reason : Reason)
        × HasBadHeader bytes number reason)
        ⊎ ((header : Header) × (events : List Event) × (end : Ending)
        × ReadsWithin most bytes header events end) }
{}

/// The text of a trace reads as that trace.
pub fn text_reads_back()
    ensures { (most : ℕ) (header : Header) (events : List Event)
        → IsReadableHeader header → AllByRecursion (IsReadable header.version) events
        → length events ≤ most → ReadsWithin most (trace_text header events) header events Whole }
{}

/// A header and events that stand whole at the front of bytes are a front of what these read as,
/// and no header line is malformed then.
pub fn front_is_read()
    ensures front { (most : ℕ) (bytes : List ℕ) (header other : Header)
        (events read : List Event) (end : Ending)
        → IsReadableHeader header → AllByRecursion (IsReadable header.version) events
        → length events ≤ most → BeginsWith bytes (trace_text header events)
        → ReadsWithin most bytes other read end → (other ≡ header)
        × ((more : List Event) × (read ≡ events ++ more)) }
    ensures apart { (most : ℕ) (bytes : List ℕ) (header : Header)
        (events : List Event) (number : ℕ) (reason : Reason)
        → IsReadableHeader header → AllByRecursion (IsReadable header.version) events
        → length events ≤ most → BeginsWith bytes (trace_text header events)
        → ¬ HasBadHeader bytes number reason }
{}
