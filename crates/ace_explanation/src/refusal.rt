use ace_before::LineBefore;
use ace_clauses::Letter;
use ace_event::{Event, Header};
use ace_expected::Expectation;
use ace_journal::Led;
use ace_origins::Origin;

/// The first event of a trace that breaks a rule.
#[derive(Clone, Copy)]
pub struct Refusal {
    /// The header of the trace.
    pub header: Header,
    /// The event.
    pub event: Event,
    /// Its number, from 1.
    pub index: u64,
    /// The least rule that it breaks.
    pub rule: u8,
    /// The clause of the rule that it breaks: the first that is false.
    pub letter: Letter,
    /// What the clause expects and what it got, if it expects a value.
    pub expected: Option<Expectation>,
    /// Where the word stands that the clause got, if it asks for a word.
    pub origin: Option<Origin>,
    /// What there is of its line before it, if it is about a line.
    pub before: Option<LineBefore>,
    /// What led to it.
    pub led: Led,
}
