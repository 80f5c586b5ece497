//! The clauses of the rules of AR and AW, K1 to K10; K1 to K3 look at other records too. K4, K5, K6
//! and K8 have one clause.

ghost use Rattle.std.specs.Prelude.{◌≡◌, Some, length, true};
ghost use Rattle.ace_event.specs.declared.event.Event.{Event as Next};
ghost use Rattle.ace_event.specs.declared.event.Event.TheVariants.{Mem};
ghost use Rattle.ace_event.specs.declared.line.Line.{Line};
ghost use Rattle.ace_model.specs.Barriers.{is_barrier_half};
ghost use Rattle.ace_model.specs.Messages.{is_message_part};
ghost use Rattle.ace_model.specs.Transactions.{issued};
ghost use Rattle.ace_portck.specs.Stands.{Stands as PortsTell};
ghost use Rattle.ace_portck.specs.Targets.{Recording};
ghost use Rattle.ace_sysck.specs.Stands.{Stands as SystemTells};
ghost use Rattle.ace_explain.specs.Names.{Names};

use ace_clauses::Letter;
use ace_codes::{ArKind, read_ar, read_aw};
use ace_event::{Channel, Event, Header};
use ace_model::kinds::{is_ace, is_barrier_half, is_unique_write, read_kind};
use ace_model::{Transaction, port_of};
use ace_portck::{OpeningMemory, PortCheck, issued};
use ace_sysck::{Barrier, SysCheck, is_message_word};

/// K1: the header has no such port, or the port is an ACE-Lite port.
pub(crate) fn clause_of_k1(header: &Header, event: &Event) -> Letter
    ensures { (r : Recording) → header.now ≡ r.header → Names r event.now 1 result }
{
    match port_of(event) {
        None => Letter::B,
        Some(port) => {
            if port < header.ports {
                Letter::B
            } else {
                Letter::A
            }
        }
    }
}

/// K2: the codes have no kind, the port may not issue the kind, or a response has an error.
pub(crate) fn clause_of_k2(event: &Event) -> Letter
    ensures { (r : Recording) → Names r event.now 2 result }
{
    match *event {
        Event::Ar {
            snoop,
            dom,
            bar,
            ..
        } => match read_ar(snoop, dom, bar) {
            None => Letter::A,
            Some(_) => Letter::B,
        },
        Event::Aw {
            snoop,
            dom,
            bar,
            ..
        } => match read_aw(snoop, dom, bar) {
            None => Letter::A,
            Some(_) => Letter::B,
        },
        Event::R { .. } | Event::B { .. } => Letter::C,
        Event::Cr { .. } => Letter::D,
        _ => Letter::A,
    }
}

/// K3, of a MEM.
fn clause_of_mem(ports: &PortCheck, addr: u32) -> Letter
    ensures { (r : Recording) (line : Line) → PortsTell ports.now r
        → Names r (Mem addr line) 3 result }
{
    if addr % 64 != 0 {
        return Letter::A;
    }
    if ports.header().version != 2 {
        return Letter::B;
    }
    match ports.opening() {
        OpeningMemory::Empty => Letter::E,
        OpeningMemory::Opened(last) => { if last < addr { Letter::E } else { Letter::D } }
        OpeningMemory::Closed => Letter::C,
    }
}

/// K3: the address is that of no line, or a MEM stands where none may.
pub(crate) fn clause_of_k3(ports: &PortCheck, event: &Event) -> Letter
    ensures { (r : Recording) → PortsTell ports.now r → Names r event.now 3 result }
{
    match *event {
        Event::Mem { addr, .. } => clause_of_mem(ports, addr),
        _ => Letter::A,
    }
}

/// K7: an ACE port issues a transaction that can't be exclusive, or an ACE-Lite port an exclusive
/// one.
pub(crate) fn clause_of_k7(header: &Header, event: &Event) -> Letter
    ensures { (r : Recording) → header.now ≡ r.header → Names r event.now 7 result }
{
    match *event {
        Event::Ar { port, .. } => {
            if is_ace(header, port) {
                Letter::A
            } else {
                Letter::B
            }
        }
        _ => Letter::B,
    }
}

/// K10: a memory update or Evict is issued beside a WriteUnique or WriteLineUnique, or the other
/// way round.
pub(crate) fn clause_of_k10(event: &Event) -> Letter
    ensures { (r : Recording) → Names r event.now 10 result }
{
    match *event {
        Event::Aw {
            snoop,
            dom,
            bar,
            ..
        } => match read_aw(snoop, dom, bar) {
            Some(kind) if is_unique_write(kind) => Letter::B,
            _ => Letter::A,
        },
        _ => Letter::A,
    }
}

/// K9, of the half of a barrier: it has an address, the barrier before lacks a half or isn't
/// answered, or the two halves differ.
fn clause_of_half(system: &SysCheck, half: &Transaction) -> Letter
    ensures { (r : Recording) (e : Next) → SystemTells system.now r
        → issued (length r.past) e ≡ Some half.now → is_barrier_half half.now ≡ true
        → Names r e 9 result }
{
    if half.addr != 0 {
        return Letter::A;
    }
    match (system.barrier(half.port), half.chan) {
        (Barrier::ReadHalf(_), Channel::Read) => Letter::B,
        (Barrier::WriteHalf(_), Channel::Write) => Letter::B,
        (Barrier::Open(_), _) => Letter::C,
        (Barrier::ReadHalf(_), Channel::Write) => Letter::D,
        (Barrier::WriteHalf(_), Channel::Read) => Letter::D,
        (Barrier::Idle, _) => Letter::D,
    }
}

/// A part of a DVM message.
pub(crate) fn is_message_part(x: &Transaction) -> bool
    ensures { result ≡ is_message_part x.now }
{
    matches!(read_kind(x), Some(ArKind::DvmMessage))
}

/// K9, of a part of a DVM message: it is a second part unlike its first, its word means nothing, or
/// it is a Sync before the last one is completed.
fn clause_of_part(system: &SysCheck, part: &Transaction) -> Letter
    ensures { (r : Recording) (e : Next) → SystemTells system.now r
        → issued (length r.past) e ≡ Some part.now → is_message_part part.now ≡ true
        → Names r e 9 result }
{
    match system.messages_of(part.port).first {
        Some(_) => Letter::G,
        None => {
            if is_message_word(part.addr) {
                Letter::F
            } else {
                Letter::E
            }
        }
    }
}

/// K9: a barrier, a part of a DVM message or a DVM Complete isn't well formed.
pub(crate) fn clause_of_k9(ports: &PortCheck, system: &SysCheck, event: &Event) -> Letter
    ensures { (r : Recording) → PortsTell ports.now r → SystemTells system.now r
        → Names r event.now 9 result }
{
    let Some(x) = issued(ports.place(), event) else {
        return Letter::A;
    };
    if is_barrier_half(&x) {
        return clause_of_half(system, &x);
    }
    if is_message_part(&x) {
        clause_of_part(system, &x)
    } else {
        Letter::H
    }
}
