//! The clauses of the rules of snoop answers, K15 and K16.

ghost use Rattle.std.specs.Prelude.{◌≡◌, ◌==◌, ℕ, true, false};
ghost use Rattle.ace_codes.specs.declared.state.LineState.{LineState as Next};
ghost use Rattle.ace_event.specs.declared.event.Event.TheVariants.{L, Cr, Cd};
ghost use Rattle.ace_tables.specs.Answers.{goes_with_update, is_snoop_row, same_test, states_after};
ghost use Rattle.ace_tables.specs.States.{is_among, is_invalid};
ghost use Rattle.ace_model.specs.AddressRules.{k1};
ghost use Rattle.ace_model.specs.States.{state_of};
ghost use Rattle.ace_model.specs.Trace.{is_some_and};
ghost use Rattle.ace_portck.specs.SnoopAnswers.{IsAnswered};
ghost use Rattle.ace_portck.specs.Stands.{Stands as PortsTell};
ghost use Rattle.ace_portck.specs.Targets.{Recording};
ghost use Rattle.ace_lineck.specs.Stands.{Stands as LinesTell};
ghost use Rattle.ace_clauses.specs.SnoopClauses.{is_hit};
ghost use Rattle.ace_explain.specs.Answers.{answered_kind, is_dataless, response_to};
ghost use Rattle.ace_explain.specs.Names.{Names};

use ace_clauses::Letter;
use ace_codes::{LineState, SnoopKind, passes_dirty, read_ac};
use ace_event::Event;
use ace_lineck::LineCheck;
use ace_model::Snoop;
use ace_model::kinds::is_line_snoop;
use ace_portck::{PortCheck, snooped_line};
use ace_tables::is_invalid;

/// The kind of the snoop that the port's next CR answers.
fn answered_kind(ports: &PortCheck, port: u8) -> Option<SnoopKind>
    ensures { (r : Recording) → PortsTell ports.now r → result ≡ answered_kind r.past port }
{
    match ports.answered(port) {
        None => None,
        Some(snoop) => read_ac(snoop.snoop),
    }
}

/// The rule that is told has this number.
pub(crate) fn is_rule(told: Option<u8>, number: u8) -> bool
    ensures { result ≡ is_some_and told (λ k. k == number) }
{
    match told {
        None => false,
        Some(rule) => rule == number,
    }
}

/// The port doesn't hold the line: a load of it would break K30.
fn is_without(lines: &LineCheck, port: u8, line: u32) -> bool
    ensures { (r : Recording) → LinesTell lines.now r
        → k1 r.header r.past (L port line 0 false 0) ≡ true
        → result ≡ is_invalid (state_of r.header r.past port line) }
{
    is_rule(lines.rule_of_l(port, line, 0, 0), 30)
}

/// The response and the state are a row of the line snoop that the port's next CR answers.
fn is_row(
    ports: &PortCheck,
    lines: &LineCheck,
    port: u8,
    snoop: &Snoop,
    kind: SnoopKind,
    resp: u8,
    st: LineState,
) -> bool
    ensures { (r : Recording) → PortsTell ports.now r → LinesTell lines.now r
        → IsAnswered r.past port snoop.now kind
        → result
        ≡ is_snoop_row kind (state_of r.header r.past port snoop.now.addr) false resp st }
{
    let update = ports.has_update(port, snoop.addr);
    let place = lines.place(snooped_line(snoop, kind));
    let told = lines.rule_of_cr(port, resp, st, kind, place, update);
    !is_rule(told, 15)
}

/// The snoop is one that data never answer.
fn is_dataless(kind: SnoopKind) -> bool
    ensures { result ≡ is_dataless kind }
{
    matches!(kind, SnoopKind::MakeInvalid)
}

/// The response with DataTransfer where the snoop takes data, IsShared where the line is kept, and
/// PassDirty or not.
fn response_to(kind: SnoopKind, next: LineState, passes: bool) -> u8
    ensures { result ≡ response_to kind next passes }
{
    let data = if is_dataless(kind) { 0 } else { 1 };
    let dirty = if passes { 4 } else { 0 };
    let shared = if is_invalid(next) { 0 } else { 8 };
    data + dirty + shared
}

/// The line snoop that the port's next CR answers may leave the port, which holds the line, in the
/// state: some response goes with it.
fn may_leave(
    ports: &PortCheck,
    lines: &LineCheck,
    port: u8,
    snoop: &Snoop,
    kind: SnoopKind,
    st: LineState,
) -> bool
    ensures { (r : Recording) → PortsTell ports.now r → LinesTell lines.now r
        → IsAnswered r.past port snoop.now kind
        → is_hit kind (state_of r.header r.past port snoop.now.addr) ≡ true
        → result
        ≡ is_among st (states_after kind (state_of r.header r.past port snoop.now.addr)) }
{
    let clean = response_to(kind, st, false);
    let dirty = response_to(kind, st, true);
    is_row(ports, lines, port, snoop, kind, clean, st)
        || is_row(ports, lines, port, snoop, kind, dirty, st)
}

/// K15, of a CR.
fn clause_of_answer(ports: &PortCheck, lines: &LineCheck, port: u8, st: LineState) -> Letter
    ensures { (r : Recording) (resp : ℕ) → PortsTell ports.now r → LinesTell lines.now r
        → Names r (Cr port resp st) 15 result }
{
    let Some(snoop) = ports.answered(port) else {
        return Letter::A;
    };
    let Some(kind) = read_ac(snoop.snoop) else {
        return Letter::A;
    };
    if !is_line_snoop(kind) {
        return Letter::C;
    }
    if is_without(lines, port, snoop.addr) {
        return Letter::B;
    }
    if may_leave(ports, lines, port, snoop, kind, st) {
        Letter::D
    } else {
        Letter::A
    }
}

/// K15: a CR leaves its port in a state that the snoop may not leave, answers a line snoop of a
/// line that the port doesn't hold, or a DVM snoop, with more than 0 and I, or has bits that don't
/// fit the states.
pub(crate) fn clause_of_k15(ports: &PortCheck, lines: &LineCheck, event: &Event) -> Letter
    ensures { (r : Recording) → PortsTell ports.now r → LinesTell lines.now r
        → Names r event.now 15 result }
{
    match *event {
        Event::Cr { port, st, .. } => clause_of_answer(ports, lines, port, st),
        _ => Letter::A,
    }
}

/// A port answers a snoop of this kind while a memory update of the line is outstanding.
fn goes_with_update(kind: SnoopKind) -> bool
    ensures { result ≡ goes_with_update kind }
{
    matches!(
        kind,
        SnoopKind::ReadOnce
            | SnoopKind::ReadShared
            | SnoopKind::ReadClean
            | SnoopKind::ReadNotSharedDirty
    )
}

/// K16, of a CR.
fn clause_beside_update(ports: &PortCheck, port: u8, resp: u8) -> Letter
    ensures { (r : Recording) (st : Next) → PortsTell ports.now r
        → Names r (Cr port resp st) 16 result }
{
    let Some(kind) = answered_kind(ports, port) else {
        return Letter::A;
    };
    if !goes_with_update(kind) {
        return Letter::A;
    }
    if passes_dirty(resp) {
        Letter::B
    } else {
        Letter::C
    }
}

/// K16: beside a memory update of the line a CR answers a snoop that has to wait for it, passes the
/// dirty data on, or gives up the line.
pub(crate) fn clause_of_k16(ports: &PortCheck, event: &Event) -> Letter
    ensures { (r : Recording) → PortsTell ports.now r → Names r event.now 16 result }
{
    match *event {
        Event::Cr { port, resp, .. } => clause_beside_update(ports, port, resp),
        _ => Letter::A,
    }
}
