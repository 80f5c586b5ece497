//! The bursts by which an ACE port asks.

ghost use Rattle.std.specs.Prelude.{◌≡◌, ◌∷◌, ℕ, true, false, [], Some, None};
ghost use Rattle.ace_event.specs.declared.header.Header.{Header};
ghost use Rattle.ace_model.specs.AddressRules.{keeps_apart};
ghost use Rattle.ace_model.specs.Plans.{Plan};
ghost use Rattle.ace_model.specs.Trace.{Trace};
ghost use Rattle.ace_model.specs.Transactions.{is_ace};
ghost use Rattle.ace_portck.specs.OnePort.{OnePortStands, port_of};
ghost use Rattle.ace_runs.specs.Closing.{and_closing, state_named};
ghost use Rattle.ace_runs.specs.MasterSteps.{completion_bursts};
ghost use Rattle.ace_runs.specs.Requests.{Misses, barrier_bursts, bursts_of, drop_bursts, has_room, message_bursts, moves_of, read_bursts, request_of, room_bursts, write_bursts};
ghost use Rattle.ace_runs.specs.Steps.{is_step_by};
ghost use Rattle.ace_master_state.specs.AceRequests.{asks};
ghost use Rattle.ace_master_state.specs.Cached.{CachedStands};
ghost use Rattle.ace_master_state.specs.Completions.{CompletionsStand};
ghost use Rattle.ace_master_state.specs.Identifiers.{IdentifiersStand};
ghost use Rattle.ace_master.specs.Asking.{IsOneOf, MayAsk, events_of, only};
ghost use Rattle.ace_master.specs.declared.asking.Asking.{Asking};

use crate::asking::Asking;
use crate::issues::{ar_of, aw_of, barrier_ar, barrier_aw};
use ace_codes::{ArKind, AwKind, LineState};
use ace_event::{Channel, Event};
use ace_master_state::{Cached, Completions, Identifiers, Request, request_of};
use ace_model::Op;
use ace_model::kinds::{gives_up, is_unique_write};
use ace_portck::OnePort;
use ace_tables::is_dirty;

/// The port has no outstanding write that may not be beside one of the kind (Arm IHI 0022E, C4).
fn keeps_apart(port: &OnePort, kind: AwKind) -> bool
    ensures { (h : Header) (past : Trace) (p : ℕ) → OnePortStands port.now h past p
        → result ≡ keeps_apart h past p kind }
{
    !(gives_up(kind) && port.has_unique_write()) && !(is_unique_write(kind) && port.has_giving_up())
}

/// A read of the line, if an identifier is free.
fn read_burst(
    port: &OnePort,
    identifiers: &Identifiers,
    kind: ArKind,
    addr: u32,
    lock: bool,
) -> Option<Asking>
    ensures { (h : Header) (past : Trace) (p : ℕ) → OnePortStands port.now h past p
        → IdentifiersStand h past p identifiers.now
        → read_bursts h past p kind addr lock ≡ only result }
{
    let id = identifiers.free_on(Channel::Read)?;
    Some(Asking::One(ar_of(port.port(), id, kind, addr, lock)))
}

/// A write of the line, if an identifier is free, and no outstanding write forbids it.
fn write_burst(port: &OnePort, identifiers: &Identifiers, kind: AwKind, addr: u32) -> Option<Asking>
    ensures { (h : Header) (past : Trace) (p : ℕ) → OnePortStands port.now h past p
        → IdentifiersStand h past p identifiers.now
        → write_bursts h past p kind addr ≡ only result }
{
    let id = identifiers.free_on(Channel::Write)?;
    if !keeps_apart(port, kind) {
        return None;
    }
    Some(Asking::One(aw_of(port.port(), id, kind, addr)))
}

/// Both halves of a barrier, if an identifier is free on both channels.
fn barrier_burst(port: &OnePort, identifiers: &Identifiers, bar: u8) -> Option<Asking>
    ensures { (h : Header) (past : Trace) (p : ℕ) → OnePortStands port.now h past p
        → IdentifiersStand h past p identifiers.now → barrier_bursts h past p bar ≡ only result }
{
    let id = identifiers.free_on_both()?;
    Some(Asking::Two(
        barrier_ar(port.port(), id, bar),
        barrier_aw(port.port(), id, bar),
    ))
}

/// Both parts of a DVM message, if two identifiers are free.
fn message_burst(
    port: &OnePort,
    identifiers: &Identifiers,
    word: u32,
    second: u32,
) -> Option<Asking>
    ensures { (h : Header) (past : Trace) (p : ℕ) → OnePortStands port.now h past p
        → IdentifiersStand h past p identifiers.now
        → message_bursts h past p word second ≡ only result }
{
    let id = identifiers.free_on(Channel::Read)?;
    let next = identifiers.free_on_beside(Channel::Read, id)?;
    Some(Asking::Two(
        ar_of(port.port(), id, ArKind::DvmMessage, word, false),
        ar_of(port.port(), next, ArKind::DvmMessage, second, false),
    ))
}

/// The port gives the line up.
fn drop_burst(port: &OnePort, addr: u32) -> Asking
    ensures { drop_bursts (port_of port.now) addr ≡ events_of result ∷ [] }
{
    Asking::One(Event::S {
        port: port.port(),
        addr,
        st: LineState::I,
    })
}

/// How the port makes room where it has none: it gives a line up, and writes a dirty one back.
fn room_burst(port: &OnePort, identifiers: &Identifiers, lines: &Cached) -> Option<Asking>
    ensures { (h : Header) (ways : ℕ) (past : Trace) (p : ℕ) → OnePortStands port.now h past p
        → IdentifiersStand h past p identifiers.now → CachedStands h ways past p lines.now
        → has_room ways h past p ≡ false
        → IsOneOf result (room_bursts h past p) }
{
    let id = identifiers.free_on(Channel::Write)?;
    if port.has_unique_write() {
        return None;
    }
    let line = lines.victim()?;
    if is_dirty(lines.state(line)) {
        Some(Asking::One(aw_of(port.port(), id, AwKind::WriteBack, line)))
    } else {
        Some(drop_burst(port, line))
    }
}

/// A read of a line that the port doesn't hold, or how it makes room for that.
fn miss_burst(
    port: &OnePort,
    identifiers: &Identifiers,
    lines: &Cached,
    kind: ArKind,
    addr: u32,
    lock: bool,
) -> Option<Asking>
    ensures { (h : Header) (ways : ℕ) (past : Trace) (p : ℕ) → OnePortStands port.now h past p
        → IdentifiersStand h past p identifiers.now → CachedStands h ways past p lines.now
        → IsOneOf result (bursts_of ways h past p (Misses kind addr lock)) }
{
    if lines.has_room() {
        read_burst(port, identifiers, kind, addr, lock)
    } else {
        room_burst(port, identifiers, lines)
    }
}

/// The state of the line that the operation names.
fn state_named(lines: &Cached, op: Op) -> LineState
    ensures { (h : Header) (ways : ℕ) (past : Trace) (p : ℕ) → CachedStands h ways past p lines.now
        → result ≡ state_named h past p op }
{
    match op.line() {
        Some(line) => lines.state(line),
        None => LineState::I,
    }
}

/// A burst by which the port asks, if it can.
pub fn burst_of(
    port: &OnePort,
    identifiers: &Identifiers,
    lines: &Cached,
    request: Request,
) -> Option<Asking>
    ensures { (h : Header) (ways : ℕ) (past : Trace) (p : ℕ) → OnePortStands port.now h past p
        → IdentifiersStand h past p identifiers.now → CachedStands h ways past p lines.now
        → IsOneOf result (bursts_of ways h past p (asks request)) }
{
    match request {
        Request::Reads { kind, addr, lock } => read_burst(port, identifiers, kind, addr, lock),
        Request::Misses { kind, addr, lock } => miss_burst(
            port,
            identifiers,
            lines,
            kind,
            addr,
            lock,
        ),
        Request::Writes { kind, addr } => write_burst(port, identifiers, kind, addr),
        Request::Drops { addr } => Some(drop_burst(port, addr)),
        Request::Barriers { bar } => barrier_burst(port, identifiers, bar),
        Request::Messages { word, second } => message_burst(port, identifiers, word, second),
    }
}

/// What the port asks for by its next operation, which doesn't wait and can't end.
pub fn burst_for(
    port: &OnePort,
    identifiers: &Identifiers,
    lines: &Cached,
    op: Op,
) -> Option<Asking>
    ensures asks { (h : Header) (ways : ℕ) (past : Trace) (p : ℕ) → OnePortStands port.now h past p
        → IdentifiersStand h past p identifiers.now → CachedStands h ways past p lines.now
        → IsOneOf result (bursts_of ways h past p (request_of op (state_named h past p op))) }
    ensures step { (plan : Plan) (past : Trace) (p : ℕ) (asking : Asking)
        → OnePortStands port.now plan.header past p
        → IdentifiersStand plan.header past p identifiers.now
        → CachedStands plan.header plan.ways past p lines.now
        → MayAsk plan past p op → result ≡ Some asking
        → is_step_by (14 ∷ []) plan past p (and_closing plan.header past p op (events_of asking))
        ≡ true }
    ensures none { (plan : Plan) (past : Trace) (p : ℕ) → OnePortStands port.now plan.header past p
        → IdentifiersStand plan.header past p identifiers.now
        → CachedStands plan.header plan.ways past p lines.now
        → MayAsk plan past p op → result ≡ None → moves_of plan.ways plan.header past p op ≡ [] }
{
    burst_of(
        port,
        identifiers,
        lines,
        request_of(op, state_named(lines, op)),
    )
}

/// The AR of a DVM Complete that the port, an ACE port, owes, if an identifier is free.
pub fn completion_burst(
    port: &OnePort,
    identifiers: &Identifiers,
    completions: &Completions,
) -> Option<Asking>
    ensures burst { (h : Header) (past : Trace) (p : ℕ) → OnePortStands port.now h past p
        → IdentifiersStand h past p identifiers.now → CompletionsStand past p completions.now
        → is_ace h p ≡ true
        → completion_bursts h past p ≡ only result }
    ensures step { (plan : Plan) (past : Trace) (p : ℕ) (asking : Asking)
        → OnePortStands port.now plan.header past p
        → IdentifiersStand plan.header past p identifiers.now
        → CompletionsStand past p completions.now
        → is_ace plan.header p ≡ true → result ≡ Some asking
        → is_step_by (14 ∷ []) plan past p (events_of asking) ≡ true }
{
    if completions.owes() {
        read_burst(port, identifiers, ArKind::DvmComplete, 0, false)
    } else {
        None
    }
}
