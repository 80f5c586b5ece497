//! The clauses of the rules of barriers and DVM messages, K34 to K39. K35 and K38 have one clause.

ghost use Rattle.std.specs.Prelude.{◌≡◌, ℕ, Bool, Some, true};
ghost use Rattle.ace_codes.specs.Snoops.{ac_kind_of};
ghost use Rattle.ace_codes.specs.declared.kind.SnoopKind.TheVariants.{DvmComplete};
ghost use Rattle.ace_event.specs.declared.event.Event.{Event as Next};
ghost use Rattle.ace_event.specs.declared.event.Channel.TheVariants.{Read};
ghost use Rattle.ace_event.specs.declared.event.Event.TheVariants.{Ac, R};
ghost use Rattle.ace_model.specs.AddressRules.{k1};
ghost use Rattle.ace_model.specs.Barriers.{is_barrier_half};
ghost use Rattle.ace_model.specs.Kinds.{is_complete_snoop};
ghost use Rattle.ace_model.specs.Messages.{is_message_part, is_other_ace, is_second_part, next_part};
ghost use Rattle.ace_model.specs.Trace.{implies, is_some_and};
ghost use Rattle.ace_model.specs.Transactions.{outstanding};
ghost use Rattle.ace_portck.specs.Stands.{Stands as PortsTell};
ghost use Rattle.ace_portck.specs.Targets.{Recording};
ghost use Rattle.ace_sysck.specs.Stands.{Stands as SystemTells};
ghost use Rattle.ace_clauses.specs.OrderClauses.{is_forwarded_to_all, response_to, was_forwarded};
ghost use Rattle.ace_explain.specs.Names.{Names};

use crate::address_clauses::is_message_part;
use crate::answer_clauses::is_rule;
use crate::read_clauses::named_read;
use ace_clauses::Letter;
use ace_codes::{SnoopKind, read_ac};
use ace_event::{Channel, Event, Header};
use ace_model::Transaction;
use ace_model::kinds::{is_ace, is_barrier_half};
use ace_portck::PortCheck;
use ace_sysck::{Barrier, SysCheck};

/// The outstanding transaction of this name.
fn named(ports: &PortCheck, port: u8, chan: Channel, id: u8) -> Option<Transaction>
    ensures { (r : Recording) → PortsTell ports.now r
        → result ≡ outstanding r.header r.past port chan id }
{
    match ports.outstanding(port, chan, id) {
        None => None,
        Some(x) => Some(x.transaction),
    }
}

/// The outstanding transaction that an R or B answers.
fn response_to(ports: &PortCheck, event: &Event) -> Option<Transaction>
    ensures { (r : Recording) → PortsTell ports.now r
        → result ≡ response_to r.header r.past event.now }
{
    match *event {
        Event::R { port, id, .. } => named(ports, port, Channel::Read, id),
        Event::B { port, id, .. } => named(ports, port, Channel::Write, id),
        _ => None,
    }
}

/// K34, of an R or B that answers the half of a barrier.
fn clause_of_half(system: &SysCheck, half: &Transaction) -> Letter
    ensures { (r : Recording) (e : Next) → SystemTells system.now r
        → response_to r.header r.past e ≡ Some half.now → is_barrier_half half.now ≡ true
        → Names r e 34 result }
{
    match system.barrier(half.port) {
        Barrier::Open(pair) => {
            if pair.read.bar == 3 {
                Letter::C
            } else {
                Letter::B
            }
        }
        _ => Letter::A,
    }
}

/// K34: an R or B answers a barrier that lacks a half, a memory barrier before the order point of
/// an earlier transaction, or a synchronisation barrier before the end of one.
pub(crate) fn clause_of_k34(ports: &PortCheck, system: &SysCheck, event: &Event) -> Letter
    ensures { (r : Recording) → PortsTell ports.now r → SystemTells system.now r
        → Names r event.now 34 result }
{
    match response_to(ports, event) {
        None => Letter::A,
        Some(x) => {
            if is_barrier_half(&x) {
                clause_of_half(system, &x)
            } else {
                Letter::A
            }
        }
    }
}

/// The part that is forwarded to the port next is a second part: any AC but that of the part would
/// break K36.
fn comes_second(system: &SysCheck, port: u8) -> bool
    ensures { (r : Recording) (addr snoop : ℕ) → SystemTells system.now r
        → k1 r.header r.past (Ac port addr snoop) ≡ true
        → result ≡ is_some_and (next_part r.past port) (is_second_part r.past) }
{
    is_rule(system.rule_of_ac(port, 0, SnoopKind::ReadOnce), 36)
}

/// K36, of an AC.
fn clause_of_forwarding(system: &SysCheck, port: u8) -> Letter
    ensures { (r : Recording) (addr snoop : ℕ) → SystemTells system.now r
        → k1 r.header r.past (Ac port addr snoop) ≡ true
        → Names r (Ac port addr snoop) 36 result }
{
    if comes_second(system, port) {
        return Letter::A;
    }
    match system.next_message(port) {
        None => Letter::B,
        Some(_) => Letter::C,
    }
}

/// K36: an AC comes before a second part whose first was forwarded, or forwards a part where none
/// waits, or another one than the next.
pub(crate) fn clause_of_k36(system: &SysCheck, event: &Event) -> Letter
    ensures { (r : Recording) → SystemTells system.now r → Names r event.now 36 result }
{
    match *event {
        Event::Ac { port, .. } => clause_of_forwarding(system, port),
        _ => Letter::A,
    }
}

/// The part was forwarded to the port, if that is another ACE port.
fn has_reached(system: &SysCheck, header: &Header, part: &Transaction, port: u8) -> bool
    ensures { (r : Recording) (own id : ℕ) → SystemTells system.now r → header.now ≡ r.header
        → outstanding r.header r.past own Read id ≡ Some part.now
        → is_message_part part.now ≡ true
        → result ≡ implies (is_other_ace r.header part.now.port port)
        (was_forwarded r.past part.now port) }
{
    !(is_ace(header, port) && port != part.port) || system.was_forwarded(part, port)
}

/// The part was forwarded to every other ACE port.
fn is_forwarded_to_all(system: &SysCheck, header: &Header, part: &Transaction) -> bool
    ensures { (r : Recording) (own id : ℕ) → SystemTells system.now r → header.now ≡ r.header
        → outstanding r.header r.past own Read id ≡ Some part.now
        → is_message_part part.now ≡ true
        → result ≡ is_forwarded_to_all r.header r.past part.now }
{
    let mut all = true;
    for port in 0..header.ports {
        all = has_reached(system, header, part, port) && all;
    }
    all
}

/// K37, of an R of a part of a DVM message.
fn clause_of_answered(system: &SysCheck, header: &Header, part: &Transaction) -> Letter
    ensures { (r : Recording) (own id resp : ℕ) (last : Bool) (word : ℕ) → SystemTells system.now r
        → header.now ≡ r.header → outstanding r.header r.past own Read id ≡ Some part.now
        → is_message_part part.now ≡ true → Names r (R own id resp last word) 37 result }
{
    if is_forwarded_to_all(system, header, part) {
        Letter::B
    } else {
        Letter::A
    }
}

/// K37: an R answers a part of a DVM message that wasn't forwarded to each other ACE port, or that
/// one of them hasn't answered.
pub(crate) fn clause_of_k37(ports: &PortCheck, system: &SysCheck, event: &Event) -> Letter
    ensures { (r : Recording) → PortsTell ports.now r → SystemTells system.now r
        → Names r event.now 37 result }
{
    let Event::R { port, id, .. } = *event else {
        return Letter::A;
    };
    match named_read(ports, port, id) {
        Some(x) if is_message_part(&x) => clause_of_answered(system, ports.header(), &x),
        _ => Letter::A,
    }
}

/// K39, of an AC DVM Complete.
fn clause_of_complete(system: &SysCheck, port: u8, addr: u32) -> Letter
    ensures { (r : Recording) (snoop : ℕ) → SystemTells system.now r
        → ac_kind_of snoop ≡ Some DvmComplete → Names r (Ac port addr snoop) 39 result }
{
    if addr != 0 {
        return Letter::A;
    }
    let kept = system.messages_of(port);
    if kept.sync.is_none() {
        return Letter::B;
    }
    if !kept.sync_done {
        return Letter::C;
    }
    if kept.sync_completed {
        Letter::D
    } else {
        Letter::E
    }
}

/// The code is that of a DVM Complete.
fn is_complete(snoop: u8) -> bool
    ensures { result ≡ is_some_and (ac_kind_of snoop) is_complete_snoop }
{
    matches!(read_ac(snoop), Some(SnoopKind::DvmComplete))
}

/// K39: an AC DVM Complete has an address, or its port has sent no Sync, or its last one isn't
/// answered, or is completed, or waits for the DVM Complete of another port.
pub(crate) fn clause_of_k39(system: &SysCheck, event: &Event) -> Letter
    ensures { (r : Recording) → SystemTells system.now r → Names r event.now 39 result }
{
    let Event::Ac { port, addr, snoop } = *event else {
        return Letter::A;
    };
    if is_complete(snoop) {
        clause_of_complete(system, port, addr)
    } else {
        Letter::A
    }
}
