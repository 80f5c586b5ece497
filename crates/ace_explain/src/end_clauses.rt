//! The clauses of the rules of RK, K22 and K23. K22 has one clause.

ghost use Rattle.std.specs.Prelude.{◌≡◌, ◌&&◌, Bool, false, not, if◌then◌else◌};
ghost use Rattle.ace_codes.specs.declared.kind.ArKind.TheVariants.{MakeUnique};
ghost use Rattle.ace_codes.specs.declared.state.LineState.TheVariants.{I, UC};
ghost use Rattle.ace_codes.specs.Responses.{is_shared, passes_dirty};
ghost use Rattle.ace_event.specs.declared.event.Event.TheVariants.{Rk};
ghost use Rattle.ace_tables.specs.EndStates.{ends_read};
ghost use Rattle.ace_tables.specs.SilentTransitions.{is_silent_move};
ghost use Rattle.ace_tables.specs.States.{is_invalid, is_unique};
ghost use Rattle.ace_model.specs.Kinds.{is_make_unique};
ghost use Rattle.ace_model.specs.States.{state_of};
ghost use Rattle.ace_portck.specs.Stands.{Stands as PortsTell};
ghost use Rattle.ace_portck.specs.Targets.{Recording};
ghost use Rattle.ace_lineck.specs.Stands.{Stands as LinesTell};
ghost use Rattle.ace_explain.specs.Names.{Names};

use crate::answer_clauses::is_rule;
use ace_clauses::Letter;
use ace_codes::{ArKind, LineState, is_shared, passes_dirty};
use ace_event::{Channel, Event};
use ace_lineck::LineCheck;
use ace_model::kinds::{is_line_read, is_make_unique, read_kind};
use ace_portck::{PortCheck, Progress};
use ace_tables::end_read;

/// The port may move silently to the state, which isn't I: an S to it would keep K29.
fn moves_to(lines: &LineCheck, port: u8, line: u32, st: LineState) -> bool
    ensures { (r : Recording) → LinesTell lines.now r → is_invalid st ≡ false
        → result ≡ is_silent_move (state_of r.header r.past port line) st }
{
    let place = lines.place(Some(line));
    let told = lines.rule_of_s(port, st, place, false);
    !is_rule(told, 29)
}

/// The port holds the line in UC or UD: it may move silently to SC or to SD.
fn holds_alone(lines: &LineCheck, port: u8, line: u32) -> bool
    ensures { (r : Recording) → LinesTell lines.now r
        → result ≡ is_unique (state_of r.header r.past port line) }
{
    moves_to(lines, port, line, LineState::SC) || moves_to(lines, port, line, LineState::SD)
}

/// UC of a line that is held alone, else I.
fn state_alike(alone: bool) -> LineState
    ensures { result ≡ (if alone then UC else I) }
{
    if alone { LineState::UC } else { LineState::I }
}

/// The state is an end state of the MakeUnique, by the state that its port holds and by its
/// response. Of the state that is held it matters alone whether it is UC or UD.
fn ends_make_unique(lines: &LineCheck, x: &Progress, st: LineState) -> bool
    ensures { (r : Recording) (failed : Bool) → LinesTell lines.now r
        → result
        ≡ ends_read MakeUnique
        (state_of r.header r.past x.now.transaction.port x.now.transaction.addr)
        (is_shared x.now.response) (passes_dirty x.now.response) failed st }
{
    let alone = holds_alone(lines, x.transaction.port, x.transaction.addr);
    let held = state_alike(alone);
    let shared = is_shared(x.response);
    let pass = passes_dirty(x.response);
    end_read(ArKind::MakeUnique, held, shared, pass, false).has(st)
}

/// It is a MakeUnique that hasn't had its D.
fn lacks_store(x: &Progress, kind: ArKind) -> bool
    ensures { result ≡ (is_make_unique kind && not x.now.stored) }
{
    is_make_unique(kind) && !x.stored
}

/// K23, of an RK.
fn clause_of_rk(ports: &PortCheck, lines: &LineCheck, port: u8, st: LineState) -> Letter
    ensures { (r : Recording) → PortsTell ports.now r → LinesTell lines.now r
        → Names r (Rk port st) 23 result }
{
    let Some(x) = ports.acknowledged(port, Channel::Read) else {
        return Letter::A;
    };
    let Some(kind) = read_kind(&x.transaction) else {
        return Letter::A;
    };
    if !is_line_read(kind) {
        return Letter::C;
    }
    if !lacks_store(x, kind) {
        return Letter::A;
    }
    if ends_make_unique(lines, x, st) {
        Letter::B
    } else {
        Letter::A
    }
}

/// K23: an RK is in no end state of its read, or that of a MakeUnique comes before its D.
pub(crate) fn clause_of_k23(ports: &PortCheck, lines: &LineCheck, event: &Event) -> Letter
    ensures { (r : Recording) → PortsTell ports.now r → LinesTell lines.now r
        → Names r event.now 23 result }
{
    match *event {
        Event::Rk { port, st } => clause_of_rk(ports, lines, port, st),
        _ => Letter::A,
    }
}
