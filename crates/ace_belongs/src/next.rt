// What the next event of the trace that a checker stands for belongs to.
ghost use Rattle.std.specs.Prelude.{◌≡◌, ◌+◌, ℕ, Option, length};
ghost use Rattle.ace_belongs.specs.Belongs.{event_line, serves_in};
ghost use Rattle.ace_check.specs.Run.{StandsWithin};
ghost use Rattle.ace_event.specs.declared.header.Header.{Header};
ghost use Rattle.ace_model.specs.Trace.{Trace};
ghost use Rattle.ace_model.specs.declared.breaks.Break.{Break};

use crate::belongs::{event_line, serves};
use ace_check::Checker;
use ace_event::Event;
use ace_model::Transaction;

/// The number of the next event, from 1.
pub fn next_number(checker: &Checker) -> u64
    ensures { (most : ℕ) (h : Header) (past : Trace) (b : Option Break)
        → StandsWithin most checker.now h past b → result ≡ length past + 1 }
{
    checker.count().wrapping_add(1)
}

/// The transaction that the next event begins or belongs to, if there is one.
pub fn next_serves(checker: &Checker, event: &Event) -> Option<Transaction>
    ensures { (most : ℕ) (h : Header) (past : Trace) (b : Option Break)
        → StandsWithin most checker.now h past b → result ≡ serves_in h past event.now }
{
    serves(checker.ports(), event)
}

/// The line that the next event names, or that what it belongs to names.
pub fn next_line(checker: &Checker, event: &Event) -> Option<u32>
    ensures { (most : ℕ) (h : Header) (past : Trace) (b : Option Break)
        → StandsWithin most checker.now h past b → result ≡ event_line h past event.now }
{
    event_line(checker.ports(), event)
}
