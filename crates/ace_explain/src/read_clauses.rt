//! The clauses of K20 and K21: the word of an R, and the low two bits of its response.

ghost use Rattle.std.specs.Prelude.{◌≡◌, ℕ, Bool, Some};
ghost use Rattle.ace_event.specs.declared.event.Channel.TheVariants.{Read};
ghost use Rattle.ace_event.specs.declared.event.Event.TheVariants.{R};
ghost use Rattle.ace_model.specs.Transactions.{outstanding};
ghost use Rattle.ace_portck.specs.Stands.{Stands as PortsTell};
ghost use Rattle.ace_portck.specs.Targets.{Recording};
ghost use Rattle.ace_sysck.specs.Stands.{Stands as SystemTells};
ghost use Rattle.ace_explain.specs.Names.{Names};

use ace_clauses::Letter;
use ace_event::{Channel, Event};
use ace_lineck::is_line_read_transaction;
use ace_model::Transaction;
use ace_portck::PortCheck;
use ace_sysck::SysCheck;

/// The outstanding read of the port under the identifier.
pub(crate) fn named_read(ports: &PortCheck, port: u8, id: u8) -> Option<Transaction>
    ensures { (r : Recording) → PortsTell ports.now r
        → result ≡ outstanding r.header r.past port Read id }
{
    match ports.outstanding(port, Channel::Read, id) {
        None => None,
        Some(x) => Some(x.transaction),
    }
}

/// K20, of an R.
fn clause_of_word(ports: &PortCheck, port: u8, id: u8) -> Letter
    ensures { (r : Recording) (resp : ℕ) (last : Bool) (word : ℕ) → PortsTell ports.now r
        → Names r (R port id resp last word) 20 result }
{
    let Some(x) = named_read(ports, port, id) else {
        return Letter::A;
    };
    if is_line_read_transaction(&x) {
        Letter::B
    } else {
        Letter::A
    }
}

/// K20: an R without data hasn't the word 0, or a beat of a line hasn't the word of the reply.
pub(crate) fn clause_of_k20(ports: &PortCheck, event: &Event) -> Letter
    ensures { (r : Recording) → PortsTell ports.now r → Names r event.now 20 result }
{
    match *event {
        Event::R { port, id, .. } => clause_of_word(ports, port, id),
        _ => Letter::A,
    }
}

/// K21, of an R.
fn clause_of_low_bits(ports: &PortCheck, system: &SysCheck, port: u8, id: u8) -> Letter
    ensures { (r : Recording) (resp : ℕ) (last : Bool) (word : ℕ) → PortsTell ports.now r
        → SystemTells system.now r → Names r (R port id resp last word) 21 result }
{
    let Some(x) = named_read(ports, port, id) else {
        return Letter::A;
    };
    if system.is_okay(&x) {
        return Letter::A;
    }
    if x.lock { Letter::B } else { Letter::C }
}

/// K21: an R isn't EXOKAY of an exclusive load or of an exclusive store that passed, or isn't OKAY
/// of an exclusive store that didn't pass or of a read that isn't exclusive.
pub(crate) fn clause_of_k21(ports: &PortCheck, system: &SysCheck, event: &Event) -> Letter
    ensures { (r : Recording) → PortsTell ports.now r → SystemTells system.now r
        → Names r event.now 21 result }
{
    match *event {
        Event::R { port, id, .. } => clause_of_low_bits(ports, system, port, id),
        _ => Letter::A,
    }
}
