// What an event belongs to: a transaction, and a line.
ghost use Rattle.std.specs.Prelude.{◌≡◌};
ghost use Rattle.std.specs.Option.{option_copied};
ghost use Rattle.ace_belongs.specs.Belongs.{event_line, line_of_transaction, serves_in, transaction_under};
ghost use Rattle.ace_portck.specs.Stands.{Stands};
ghost use Rattle.ace_portck.specs.Targets.{Recording, line_of_snoop};

use ace_event::{Channel, Event};
use ace_model::kinds::{is_line, snoops_a_line};
use ace_model::{Snoop, Transaction};
use ace_portck::{PortCheck, Progress, issued};

/// The transaction, without how far it has come.
fn transaction_of(progress: Option<&Progress>) -> Option<Transaction>
    ensures { result ≡ transaction_under (option_copied progress.entry) }
{
    match progress {
        Some(progress) => Some(progress.transaction),
        None => None,
    }
}

/// The transaction that the event begins or belongs to, if there is one.
pub(crate) fn serves(ports: &PortCheck, event: &Event) -> Option<Transaction>
    ensures { (r : Recording) → Stands ports.now r
        → result ≡ serves_in r.header r.past event.now }
{
    match *event {
        Event::Ar { .. } | Event::Aw { .. } => issued(ports.place(), event),
        Event::R { port, id, .. } => transaction_of(ports.outstanding(port, Channel::Read, id)),
        Event::B { port, id, .. } => transaction_of(ports.outstanding(port, Channel::Write, id)),
        Event::G { port, chan, id } | Event::M { port, chan, id, .. } => {
            transaction_of(ports.outstanding(port, chan, id))
        }
        Event::Rk { port, .. } => transaction_of(ports.acknowledged(port, Channel::Read)),
        Event::Wk { port, .. } => transaction_of(ports.acknowledged(port, Channel::Write)),
        Event::W { port, .. } => ports.next_write(port),
        _ => None,
    }
}

/// The line of a transaction, if it is a line transaction.
fn line_of_transaction(transaction: &Option<Transaction>) -> Option<u32>
    ensures { result ≡ line_of_transaction transaction.now }
{
    match transaction {
        Some(x) => { if is_line(x) { Some(x.addr) } else { None } }
        None => None,
    }
}

/// The line of a snoop, if it is a line snoop.
fn line_of_snoop(snoop: Option<&Snoop>) -> Option<u32>
    ensures { result ≡ line_of_snoop (option_copied snoop.entry) }
{
    match snoop {
        Some(snoop) => {
            if snoops_a_line(snoop.snoop) {
                Some(snoop.addr)
            } else {
                None
            }
        }
        None => None,
    }
}

/// The line that the event names, or that what it belongs to names.
pub fn event_line(ports: &PortCheck, event: &Event) -> Option<u32>
    ensures { (r : Recording) → Stands ports.now r
        → result ≡ event_line r.header r.past event.now }
{
    match *event {
        Event::S { addr, .. }
        | Event::L { addr, .. }
        | Event::D { addr, .. }
        | Event::Mem { addr, .. } => Some(addr),
        Event::Ac { addr, snoop, .. } => {
            if snoops_a_line(snoop) {
                Some(addr)
            } else {
                None
            }
        }
        Event::Cr { port, .. } => line_of_snoop(ports.answered(port)),
        Event::Cd { port, .. } => line_of_snoop(ports.sending(port).as_ref()),
        _ => line_of_transaction(&serves(ports, event)),
    }
}
