// States of a line, and sets of them.
ghost use Rattle.std.specs.Prelude.{◌≡◌, List};
ghost use Rattle.ace_codes.specs.declared.state.LineState.{LineState};
ghost use Rattle.ace_tables.specs.States.{is_invalid, is_dirty, is_unique, is_among};

use ace_codes::LineState;
use std::marker::Model;

/// Whether the state is Invalid: the port doesn't hold the line.
pub fn is_invalid(st: LineState) -> bool
    ensures { result ≡ is_invalid st }
{
    matches!(st, LineState::I)
}

/// Whether the port has the duty to write the line to memory.
pub fn is_dirty(st: LineState) -> bool
    ensures { result ≡ is_dirty st }
{
    matches!(st, LineState::UD | LineState::SD)
}

/// Whether no other port holds the line.
pub fn is_unique(st: LineState) -> bool
    ensures { result ≡ is_unique st }
{
    matches!(st, LineState::UC | LineState::UD)
}

/// Whether the state is one of these.
pub(crate) fn is_among(st: LineState, states: &[LineState]) -> bool
    ensures { result ≡ is_among st states.now }
{
    states.iter().any(|other| st == *other)
}

/// A set of line states. Contracts see the list of them.
#[derive(Drop)]
pub struct StateSet {
    states: &'static [LineState],
}

impl Model for StateSet {
    ghost Value = { List LineState };

    ghost view = { λ s. s.states.now };
}

impl StateSet {
    /// The set of these states.
    pub(crate) fn of(states: &'static [LineState]) -> StateSet
        ensures { result ≡ states.now }
    {
        StateSet { states }
    }

    /// Whether the state is in the set.
    pub fn has(&self, st: LineState) -> bool
        ensures { result ≡ is_among st self.now }
    {
        is_among(st, self.states)
    }
}
