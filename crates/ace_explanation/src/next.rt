// The next event of a trace, as a journal keeps it.
ghost use Rattle.std.specs.Prelude.{◌≡◌, ℕ, Option};
ghost use Rattle.ace_check.specs.Run.{StandsWithin};
ghost use Rattle.ace_event.specs.declared.header.Header.{Header};
ghost use Rattle.ace_journal.specs.Rows.{row_of};
ghost use Rattle.ace_model.specs.Trace.{Trace};
ghost use Rattle.ace_model.specs.declared.breaks.Break.{Break};

use ace_belongs::{next_number, next_serves};
use ace_check::Checker;
use ace_event::Event;
use ace_event_words::deed_of;
use ace_journal::Row;

/// The row of the next event.
pub(crate) fn next_row(checker: &Checker, event: &Event) -> Row
    ensures { (most : ℕ) (h : Header) (past : Trace) (b : Option Break)
        → StandsWithin most checker.now h past b → result ≡ row_of h past event.now }
{
    let number = next_number(checker);
    let serves = next_serves(checker, event);
    let deed = deed_of(&serves, event);
    Row {
        first: number,
        last: number,
        before: 0,
        deed,
    }
}
