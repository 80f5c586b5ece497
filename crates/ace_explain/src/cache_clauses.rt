//! The clauses of the rules of what a master does with the lines that it holds, K29 to K32. K30 and
//! K31 have one clause.

ghost use Rattle.std.specs.Prelude.{◌≡◌, ℕ, Bool, false, true, Some};
ghost use Rattle.ace_event.specs.declared.event.Event.TheVariants.{D, S};
ghost use Rattle.ace_event.specs.declared.line.Line.{Line};
ghost use Rattle.ace_model.specs.Accepted.{IsAccepted};
ghost use Rattle.ace_model.specs.Kinds.{is_make_unique};
ghost use Rattle.ace_model.specs.Trace.{is_some_and};
ghost use Rattle.ace_model.specs.Transactions.{read_kind};
ghost use Rattle.ace_portck.specs.Stands.{Stands as PortsTell};
ghost use Rattle.ace_portck.specs.Targets.{Recording, own_on};
ghost use Rattle.ace_lineck.specs.Holders.{awaits_store};
ghost use Rattle.ace_lineck.specs.Stands.{Stands as LinesTell};
ghost use Rattle.ace_explain.specs.Names.{Names};

use ace_clauses::Letter;
use ace_codes::LineState;
use ace_event::Event;
use ace_lineck::LineCheck;
use ace_model::Transaction;
use ace_model::kinds::{is_make_unique, read_kind};
use ace_portck::{PortCheck, Progress};
use ace_tables::{is_unique, silent_ok};

/// K29, of an S.
fn clause_of_s(lines: &LineCheck, port: u8, addr: u32, st: LineState) -> Letter
    ensures { (r : Recording) → LinesTell lines.now r → Names r (S port addr st) 29 result }
{
    if silent_ok(lines.state(lines.place(Some(addr)), port), st) {
        Letter::B
    } else {
        Letter::A
    }
}

/// K29: the move of an S is no silent one, or leaves an outstanding memory update without its line.
pub(crate) fn clause_of_k29(lines: &LineCheck, event: &Event) -> Letter
    ensures { (r : Recording) → LinesTell lines.now r → Names r event.now 29 result }
{
    match *event {
        Event::S { port, addr, st } => clause_of_s(lines, port, addr, st),
        _ => Letter::A,
    }
}

/// It is a MakeUnique.
fn makes_unique(x: &Transaction) -> bool
    ensures { result ≡ is_some_and (read_kind x.now) is_make_unique }
{
    match read_kind(x) {
        None => false,
        Some(kind) => is_make_unique(kind),
    }
}

/// It is a MakeUnique that is complete: the next store of its port to the line belongs to it.
fn awaits_store(own: &Progress) -> bool
    ensures { result ≡ awaits_store own.now }
{
    makes_unique(&own.transaction) && own.complete
}

/// K32, of a D of a port with this outstanding transaction on the line, which is no MakeUnique that
/// waits for its end.
fn clause_beside(lines: &LineCheck, port: u8, addr: u32) -> Letter
    ensures { (r : Recording) (own : Progress) (strobe : ℕ) (x : Bool) (line : Line)
        → LinesTell lines.now r → own_on r.header r.past port (Some addr) ≡ Some own
        → awaits_store own ≡ false → Names r (D port addr strobe x line) 32 result }
{
    if is_unique(lines.state(lines.place(Some(addr)), port)) {
        Letter::B
    } else {
        Letter::A
    }
}

/// K32, of a D of a port with this MakeUnique, which waits for its end.
fn clause_of_own_store(own: &Progress, x: bool) -> Letter
    ensures { (r : Recording) (port addr strobe : ℕ) (line : Line) → IsAccepted r.header r.past
        → own_on r.header r.past port (Some addr) ≡ Some own.now
        → awaits_store own.now ≡ true → Names r (D port addr strobe x line) 32 result }
{
    if own.stored {
        return Letter::C;
    }
    if x { Letter::D } else { Letter::E }
}

/// K32, of a D.
fn clause_of_d(ports: &PortCheck, lines: &LineCheck, port: u8, addr: u32, x: bool) -> Letter
    ensures { (r : Recording) (strobe : ℕ) (line : Line) → PortsTell ports.now r
        → LinesTell lines.now r → Names r (D port addr strobe x line) 32 result }
{
    match ports.own(port, addr) {
        None => Letter::A,
        Some(own) => {
            if awaits_store(own) {
                clause_of_own_store(own, x)
            } else {
                clause_beside(lines, port, addr)
            }
        }
    }
}

/// K32: the port of a D doesn't hold the line alone, or has a transaction on the line; or the D is
/// the second store of a MakeUnique, an exclusive one, or not of the whole line.
pub(crate) fn clause_of_k32(ports: &PortCheck, lines: &LineCheck, event: &Event) -> Letter
    ensures { (r : Recording) → PortsTell ports.now r → LinesTell lines.now r
        → Names r event.now 32 result }
{
    match *event {
        Event::D { port, addr, x, .. } => clause_of_d(ports, lines, port, addr, x),
        _ => Letter::A,
    }
}
