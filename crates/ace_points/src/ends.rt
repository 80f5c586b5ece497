// What the ends of transactions, answers to snoops, grants and silent transitions show.
ghost use Rattle.std.specs.Prelude.{◌≡◌, Some, option_and_then};
ghost use Rattle.ace_codes.specs.declared.kind.SnoopKind.{SnoopKind as Kind};
ghost use Rattle.ace_event.specs.declared.event.Channel.TheVariants.{Read};
ghost use Rattle.ace_event.specs.declared.event.Event.TheVariants.{Rk, Wk};
ghost use Rattle.ace_lineck.specs.Stands.{Stands as LinesTell};
ghost use Rattle.ace_model.specs.Kinds.{is_line_snoop};
ghost use Rattle.ace_model.specs.Snoops.{answered};
ghost use Rattle.ace_model.specs.Transactions.{outstanding};
ghost use Rattle.ace_points.specs.Shown.{answer_of, answer_shown, both_shown, grant_shown, held_at, read_end_of, read_end_shown, write_end_shown};
ghost use Rattle.ace_portck.specs.Stands.{Stands as PortsTell};
ghost use Rattle.ace_portck.specs.Targets.{Recording, served_in, transaction_in};
ghost use Rattle.ace_sysck.specs.Stands.{Stands as SystemTells};

use crate::point::Point;
use crate::states::state_at;
use ace_codes::{ArKind, LineState, SnoopKind, is_shared, passes_dirty, read_ac};
use ace_event::Channel;
use ace_lineck::LineCheck;
use ace_model::kinds::{
    is_exclusive_store, is_line_read, is_line_snoop, is_line_write, read_kind, write_kind,
};
use ace_model::{Snoop, Transaction};
use ace_portck::{PortCheck, Progress};
use ace_sysck::SysCheck;

/// At most two points.
pub(crate) fn both_shown(first: Option<Point>, second: Option<Point>) -> [Option<Point>; 5]
    ensures { result ≡ both_shown first second }
{
    [first, second, None, None, None]
}

/// The read, of this kind, ends in the state.
fn read_end_of(
    lines: &LineCheck,
    system: &SysCheck,
    st: LineState,
    x: &Progress,
    kind: ArKind,
) -> Option<Point>
    ensures { (r : Recording) → LinesTell lines.now r → SystemTells system.now r
        → outstanding r.header r.past x.now.transaction.port Read x.now.transaction.id
        ≡ Some x.now.transaction
        → result ≡ read_end_of r.header r.past st x.now kind }
{
    if !is_line_read(kind) {
        return None;
    }
    Some(Point::ReadEnd {
        kind,
        failed: system.failed(x.transaction.port, x.transaction.id),
        held: state_at(lines, x.transaction.port, x.transaction.addr),
        shared: is_shared(x.response),
        dirty: passes_dirty(x.response),
        end: st,
    })
}

/// A read of the port ends in the state.
pub(crate) fn read_end_shown(
    ports: &PortCheck,
    lines: &LineCheck,
    system: &SysCheck,
    port: u8,
    st: LineState,
) -> Option<Point>
    ensures { (r : Recording) → PortsTell ports.now r → LinesTell lines.now r
        → SystemTells system.now r
        → result
        ≡ option_and_then (read_end_shown r.header r.past st)
        (transaction_in r.header r.past (Rk port st)) }
{
    let Some(x) = ports.acknowledged(port, Channel::Read) else {
        return None;
    };
    match read_kind(&x.transaction) {
        Some(kind) => read_end_of(lines, system, st, x, kind),
        None => None,
    }
}

/// The write ends in the state.
fn write_end_of(lines: &LineCheck, st: LineState, x: &Transaction) -> Option<Point>
    ensures { (r : Recording) → LinesTell lines.now r
        → result ≡ write_end_shown r.header r.past st x.now }
{
    match write_kind(x) {
        Some(kind) => {
            if is_line_write(kind) {
                let held = state_at(lines, x.port, x.addr);
                Some(Point::WriteEnd {
                    kind,
                    held,
                    end: st,
                })
            } else {
                None
            }
        }
        None => None,
    }
}

/// A write of the port ends in the state.
pub(crate) fn write_end_shown(
    ports: &PortCheck,
    lines: &LineCheck,
    port: u8,
    st: LineState,
) -> Option<Point>
    ensures { (r : Recording) → PortsTell ports.now r → LinesTell lines.now r
        → result
        ≡ option_and_then (write_end_shown r.header r.past st)
        (served_in r.header r.past (Wk port st)) }
{
    match ports.acknowledged(port, Channel::Write) {
        Some(x) => write_end_of(lines, st, &x.transaction),
        None => None,
    }
}

/// The transaction has its grant.
fn grant_of(system: &SysCheck, x: &Transaction) -> Option<Point>
    ensures { (r : Recording) → SystemTells system.now r → result ≡ grant_shown r.past x.now }
{
    if is_exclusive_store(x) {
        Some(Point::ExclusiveStore {
            passes: system.is_registered(x.port, x.addr),
        })
    } else {
        None
    }
}

/// The outstanding transaction of this name has its grant.
pub(crate) fn grant_shown(
    ports: &PortCheck,
    system: &SysCheck,
    port: u8,
    chan: Channel,
    id: u8,
) -> Option<Point>
    ensures { (r : Recording) → PortsTell ports.now r → SystemTells system.now r
        → result
        ≡ option_and_then (grant_shown r.past) (outstanding r.header r.past port chan id) }
{
    match ports.outstanding(port, chan, id) {
        Some(x) => grant_of(system, &x.transaction),
        None => None,
    }
}

/// The state in which the port holds the line of the snoop.
fn held_at(lines: &LineCheck, port: u8, snoop: &Snoop, is_on_line: bool) -> LineState
    ensures { (r : Recording) (kind : Kind) → LinesTell lines.now r
        → is_on_line ≡ is_line_snoop kind
        → result ≡ held_at r.header r.past port snoop.now kind }
{
    if is_on_line {
        state_at(lines, port, snoop.addr)
    } else {
        LineState::I
    }
}

/// The port answers a snoop of this kind.
fn answer_of(
    ports: &PortCheck,
    lines: &LineCheck,
    port: u8,
    resp: u8,
    st: LineState,
    snoop: &Snoop,
    kind: SnoopKind,
) -> [Option<Point>; 5]
    ensures { (r : Recording) → PortsTell ports.now r → LinesTell lines.now r
        → result ≡ answer_of r.header r.past port resp st snoop.now kind }
{
    let is_on_line = is_line_snoop(kind);
    let held = held_at(lines, port, snoop, is_on_line);
    let answer = Point::Answer {
        kind,
        held,
        resp,
        next: st,
    };
    let with_update = Point::AnswerWithUpdate {
        kind,
        held,
        resp,
        next: st,
    };
    let is_with_update = is_on_line && ports.has_update(port, snoop.addr);
    both_shown(
        Some(answer),
        if is_with_update {
            Some(with_update)
        } else {
            None
        },
    )
}

/// The port answers its oldest snoop that isn't answered.
pub(crate) fn answer_shown(
    ports: &PortCheck,
    lines: &LineCheck,
    port: u8,
    resp: u8,
    st: LineState,
) -> [Option<Point>; 5]
    ensures { (r : Recording) → PortsTell ports.now r → LinesTell lines.now r
        → result ≡ answer_shown r.header r.past port resp st (answered r.past port) }
{
    let Some(snoop) = ports.answered(port) else {
        return both_shown(None, None);
    };
    match read_ac(snoop.snoop) {
        Some(kind) => answer_of(ports, lines, port, resp, st, snoop, kind),
        None => both_shown(None, None),
    }
}
