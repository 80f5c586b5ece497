// The states and the answers to snoops that clauses expect.
ghost use Rattle.std.specs.Prelude.{◌≡◌};
ghost use Rattle.std.specs.Option.{option_copied};
ghost use Rattle.ace_codes.specs.Snoops.{ac_kind_of};
ghost use Rattle.ace_event.specs.declared.event.Channel.TheVariants.{Read, Write};
ghost use Rattle.ace_model.specs.ReadRules.{held_of};
ghost use Rattle.ace_model.specs.Snoops.{answered};
ghost use Rattle.ace_model.specs.States.{state_of};
ghost use Rattle.ace_model.specs.Transactions.{read_kind, write_kind};
ghost use Rattle.ace_lineck.specs.Stands.{Stands as LinesTell};
ghost use Rattle.ace_portck.specs.Stands.{Stands as PortsTell};
ghost use Rattle.ace_portck.specs.Targets.{Recording};
ghost use Rattle.ace_sysck.specs.Stands.{Stands as SystemTells};
ghost use Rattle.ace_expected.specs.Expected.{acknowledged_by, answer, answer_of, fails, read_end, read_end_of, start, start_of, write_end, write_end_of};

use crate::wanted::{Expectation, StateTable};
use ace_codes::{LineState, is_shared, passes_dirty, read_ac};
use ace_event::Channel;
use ace_lineck::LineCheck;
use ace_model::kinds::{is_line, read_kind, write_kind};
use ace_model::{Snoop, Transaction};
use ace_portck::{PortCheck, Progress};
use ace_sysck::SysCheck;

/// The state in which the port has the line.
pub(crate) fn state_of(lines: &LineCheck, port: u8, line: u32) -> LineState
    ensures { (r : Recording) → LinesTell lines.now r
        → result ≡ state_of r.header r.past port line }
{
    lines.state(lines.place(Some(line)), port)
}

/// What is expected of an issued transaction: a start state.
fn start_of(lines: &LineCheck, x: &Transaction) -> Option<Expectation>
    ensures { (r : Recording) → LinesTell lines.now r
        → result ≡ start_of r.header r.past x.now (read_kind x.now) (write_kind x.now) }
{
    let got = state_of(lines, x.port, x.addr);
    match (read_kind(x), write_kind(x)) {
        (Some(kind), _) => Some(Expectation::State {
            table: StateTable::ReadStart { kind },
            got,
        }),
        (None, Some(kind)) => Some(Expectation::State {
            table: StateTable::WriteStart { kind },
            got,
        }),
        (None, None) => None,
    }
}

/// The same, where one is issued.
pub(crate) fn start(lines: &LineCheck, x: &Option<Transaction>) -> Option<Expectation>
    ensures { (r : Recording) → LinesTell lines.now r
        → result ≡ start r.header r.past x.now }
{
    match x {
        None => None,
        Some(x) => start_of(lines, x),
    }
}

/// The state that the port holds of the transaction's line.
fn held_of(lines: &LineCheck, x: &Transaction) -> LineState
    ensures { (r : Recording) → LinesTell lines.now r
        → result ≡ held_of r.header r.past x.now }
{
    if is_line(x) {
        state_of(lines, x.port, x.addr)
    } else {
        LineState::I
    }
}

/// The outstanding read of this name is an exclusive store that failed.
fn fails(ports: &PortCheck, system: &SysCheck, port: u8, id: u8) -> bool
    ensures { (r : Recording) → PortsTell ports.now r → SystemTells system.now r
        → result ≡ fails r.header r.past port id }
{
    match ports.outstanding(port, Channel::Read, id) {
        None => false,
        Some(_) => system.failed(port, id),
    }
}

/// What is expected of an RK for the read: an end state.
fn read_end_of(
    ports: &PortCheck,
    lines: &LineCheck,
    system: &SysCheck,
    x: &Progress,
    got: LineState,
) -> Option<Expectation>
    ensures { (r : Recording) → PortsTell ports.now r → LinesTell lines.now r
        → SystemTells system.now r
        → result ≡ read_end_of r.header r.past x.now (read_kind x.now.transaction) got }
{
    match read_kind(&x.transaction) {
        None => None,
        Some(kind) => Some(Expectation::State {
            table: StateTable::ReadEnd {
                kind,
                held: held_of(lines, &x.transaction),
                shared: is_shared(x.response),
                pass: passes_dirty(x.response),
                failed: fails(ports, system, x.transaction.port, x.transaction.id),
            },
            got,
        }),
    }
}

/// The same, where there is a read.
fn read_end_by(
    ports: &PortCheck,
    lines: &LineCheck,
    system: &SysCheck,
    x: Option<&Progress>,
    got: LineState,
) -> Option<Expectation>
    ensures { (r : Recording) → PortsTell ports.now r → LinesTell lines.now r
        → SystemTells system.now r
        → result ≡ read_end r.header r.past (option_copied x.entry) got }
{
    match x {
        None => None,
        Some(x) => read_end_of(ports, lines, system, x, got),
    }
}

/// What is expected of an RK of the port.
pub(crate) fn read_end(
    ports: &PortCheck,
    lines: &LineCheck,
    system: &SysCheck,
    port: u8,
    got: LineState,
) -> Option<Expectation>
    ensures { (r : Recording) → PortsTell ports.now r → LinesTell lines.now r
        → SystemTells system.now r
        → result ≡ read_end r.header r.past (acknowledged_by r.header r.past port Read) got }
{
    read_end_by(
        ports,
        lines,
        system,
        ports.acknowledged(port, Channel::Read),
        got,
    )
}

/// What is expected of a WK for the write: an end state.
fn write_end_of(lines: &LineCheck, x: &Progress, got: LineState) -> Option<Expectation>
    ensures { (r : Recording) → LinesTell lines.now r
        → result ≡ write_end_of r.header r.past x.now (write_kind x.now.transaction) got }
{
    match write_kind(&x.transaction) {
        None => None,
        Some(kind) => Some(Expectation::State {
            table: StateTable::WriteEnd {
                kind,
                held: held_of(lines, &x.transaction),
            },
            got,
        }),
    }
}

/// The same, where there is a write.
fn write_end_by(lines: &LineCheck, x: Option<&Progress>, got: LineState) -> Option<Expectation>
    ensures { (r : Recording) → LinesTell lines.now r
        → result ≡ write_end r.header r.past (option_copied x.entry) got }
{
    match x {
        None => None,
        Some(x) => write_end_of(lines, x, got),
    }
}

/// What is expected of a WK of the port.
pub(crate) fn write_end(
    ports: &PortCheck,
    lines: &LineCheck,
    port: u8,
    got: LineState,
) -> Option<Expectation>
    ensures { (r : Recording) → PortsTell ports.now r → LinesTell lines.now r
        → result ≡ write_end r.header r.past (acknowledged_by r.header r.past port Write) got }
{
    write_end_by(lines, ports.acknowledged(port, Channel::Write), got)
}

/// What is expected of the port's answer to the snoop.
fn answer_of(
    lines: &LineCheck,
    port: u8,
    snoop: &Snoop,
    update: bool,
    resp: u8,
    next: LineState,
) -> Option<Expectation>
    ensures { (r : Recording) → LinesTell lines.now r
        → result ≡ answer_of r.header r.past port snoop.now (ac_kind_of snoop.now.snoop)
        update resp next }
{
    match read_ac(snoop.snoop) {
        None => None,
        Some(kind) => Some(Expectation::Answer {
            kind,
            held: state_of(lines, port, snoop.addr),
            update,
            resp,
            next,
        }),
    }
}

/// What is expected of a CR of the port.
pub(crate) fn answer(
    ports: &PortCheck,
    lines: &LineCheck,
    port: u8,
    update: bool,
    resp: u8,
    next: LineState,
) -> Option<Expectation>
    ensures { (r : Recording) → PortsTell ports.now r → LinesTell lines.now r
        → result ≡ answer r.header r.past port (answered r.past port) update resp next }
{
    match ports.answered(port) {
        None => None,
        Some(snoop) => answer_of(lines, port, snoop, update, resp, next),
    }
}
