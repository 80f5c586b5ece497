//! The clauses of the rules of B and WK, K26 to K28. K27 has one clause.

ghost use Rattle.std.specs.Prelude.{◌≡◌, ℕ};
ghost use Rattle.ace_event.specs.declared.event.Event.TheVariants.{B};
ghost use Rattle.ace_portck.specs.Stands.{Stands as PortsTell};
ghost use Rattle.ace_portck.specs.Targets.{Recording};
ghost use Rattle.ace_codes.specs.declared.state.LineState.{LineState as Next};
ghost use Rattle.ace_event.specs.declared.event.Event.TheVariants.{Wk};
ghost use Rattle.ace_explain.specs.Names.{Names};

use ace_clauses::Letter;
use ace_event::{Channel, Event};
use ace_model::kinds::{is_line_write, write_kind};
use ace_portck::PortCheck;

/// K26, of a B.
fn clause_of_b(ports: &PortCheck, port: u8, id: u8, resp: u8) -> Letter
    ensures { (r : Recording) → PortsTell ports.now r → Names r (B port id resp) 26 result }
{
    let Some(x) = ports.outstanding(port, Channel::Write, id) else {
        return Letter::A;
    };
    if x.complete {
        return Letter::A;
    }
    if resp == 0 { Letter::C } else { Letter::B }
}

/// K26: a B names no outstanding write without B, isn't OKAY, or comes before the M of its write.
pub(crate) fn clause_of_k26(ports: &PortCheck, event: &Event) -> Letter
    ensures { (r : Recording) → PortsTell ports.now r → Names r event.now 26 result }
{
    match *event {
        Event::B { port, id, resp } => clause_of_b(ports, port, id, resp),
        _ => Letter::A,
    }
}

/// K28, of a WK.
fn clause_of_wk(ports: &PortCheck, port: u8) -> Letter
    ensures { (r : Recording) (st : Next) → PortsTell ports.now r
        → Names r (Wk port st) 28 result }
{
    let Some(x) = ports.acknowledged(port, Channel::Write) else {
        return Letter::A;
    };
    let Some(kind) = write_kind(&x.transaction) else {
        return Letter::A;
    };
    if is_line_write(kind) {
        Letter::A
    } else {
        Letter::B
    }
}

/// K28: a WK is in no end state of its line write, or that of a barrier isn't in I.
pub(crate) fn clause_of_k28(ports: &PortCheck, event: &Event) -> Letter
    ensures { (r : Recording) → PortsTell ports.now r → Names r event.now 28 result }
{
    match *event {
        Event::Wk { port, .. } => clause_of_wk(ports, port),
        _ => Letter::A,
    }
}
