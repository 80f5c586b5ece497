//! The answer of a port to its oldest unanswered snoop.

ghost use Rattle.std.specs.Prelude.{◌≡◌, ◌≤◌, ◌+◌, ◌++◌, Bool, true, false, [], ◌∷◌, ◌&&◌, ℕ, None, Some, IsTrue, length};
ghost use Rattle.ace_codes.specs.declared.kind.SnoopKind.{SnoopKind};
ghost use Rattle.ace_codes.specs.declared.state.LineState.{LineState};
ghost use Rattle.ace_codes.specs.Responses.{transfers_data};
ghost use Rattle.ace_event.specs.declared.header.Header.{Header};
ghost use Rattle.ace_tables.specs.declared.rows.Row.{Row};
ghost use Rattle.ace_tables.specs.States.{is_invalid};
ghost use Rattle.ace_model.specs.Plans.{Plan};
ghost use Rattle.ace_model.specs.Progress.{has_update};
ghost use Rattle.ace_model.specs.States.{state_of};
ghost use Rattle.ace_model.specs.Trace.{Trace};
ghost use Rattle.ace_runs.specs.MasterSteps.{data_burst, may_answer_snoop};
ghost use Rattle.ace_runs.specs.Steps.{most_events};
ghost use Rattle.ace_portck.specs.OnePort.{OnePortStands, port_of};
ghost use Rattle.ace_master.specs.Answering.{IsAnswer, IsByWord, IsRowFor, Stands, asked_of, can_answer, comes_with};
ghost use Rattle.ace_master_laws.specs.Chosen.{AreChosen};

use crate::kept_port::retirement;
use crate::pushing::push_all;
use ace_codes::{LineState, SnoopKind, read_ac, transfers_data};
use ace_engine::Burst;
use ace_event::{Event, Line};
use ace_master_state::Cached;
use ace_model::kinds::{is_line_snoop, updates_memory};
use ace_policy::Policy;
use ace_portck::OnePort;
use ace_tables::{Row, snoop_rows};

/// What the answer to a snoop goes by.
#[derive(Clone, Copy, Debug, PartialEq, Eq)]
pub struct Asked {
    pub kind: SnoopKind,
    pub addr: u32,
    /// The port's state of the line.
    pub held: LineState,
    /// A memory update of the port on the line is outstanding.
    pub update: bool,
}

/// A memory update of the port on the line is outstanding.
fn has_update(port: &OnePort, line: u32) -> bool
    ensures { (h : Header) (past : Trace) (p : ℕ) → OnePortStands port.now h past p
        → result ≡ has_update h past p line }
{
    match port.own(line) {
        Some(own) => updates_memory(&own.transaction),
        None => false,
    }
}

/// What the answer to the port's oldest unanswered snoop goes by.
fn oldest_snoop(port: &OnePort, cached: &Cached) -> Option<Asked>
    ensures { (plan : Plan) (past : Trace) → Stands plan past port.now cached.now
        → result ≡ asked_of plan.header past (port_of port.now) }
{
    let snoop = port.answered()?;
    let kind = read_ac(snoop.snoop)?;
    Some(Asked {
        kind,
        addr: snoop.addr,
        held: cached.state(snoop.addr),
        update: has_update(port, snoop.addr),
    })
}

/// The row by which the snoop is answered, where there is one: that of a DVM snoop, or the one that
/// the policy picks. A snoop of a line has one unless a memory update of the line is outstanding.
fn row_for<P: Policy>(policy: &mut P, asked: &Asked) -> Option<Row>
    ensures none { result ≡ None → can_answer asked.now ≡ false }
    ensures row { (r : Row) → result ≡ Some r → IsRowFor (P.rows policy.old) asked.now r }
    ensures same_rows { (k : SnoopKind) (st : LineState) (u : Bool)
        → P.rows policy.new k st u ≡ P.rows policy.old k st u }
    ensures unchanged { result ≡ None → policy.new ≡ policy.old }
{
    if !is_line_snoop(asked.kind) {
        return Some(Row {
            resp: 0,
            next: LineState::I,
        });
    }
    if asked.update && snoop_rows(asked.kind, asked.held, true).count() == 0 {
        return None;
    }
    Some(policy.pick(asked.kind, asked.held, asked.update))
}

/// The port's CD of a whole burst.
fn data_beats(port: u8, line: &Line) -> [Event; 4]
    ensures { result ≡ data_burst port line.now }
{
    let words = line.words;
    [
        Event::Cd {
            port,
            last: false,
            word: words[0],
        },
        Event::Cd {
            port,
            last: false,
            word: words[1],
        },
        Event::Cd {
            port,
            last: false,
            word: words[2],
        },
        Event::Cd {
            port,
            last: true,
            word: words[3],
        },
    ]
}

/// Puts what comes with the CR: after that of a DVM Complete the OP of the Sync, else the data that
/// it announces.
fn put_rest(port: &OnePort, cached: &Cached, asked: &Asked, resp: u8, out: &mut Burst)
    requires { length out.old + 4 ≤ most_events }
    ensures { (plan : Plan) (past : Trace) → Stands plan past port.now cached.now
        → (transfers_data resp ≡ true
        → is_invalid (state_of plan.header past (port_of port.now) asked.now.addr) ≡ false)
        → out.new ≡ out.old ++ comes_with past (port_of port.now) asked.now resp }
{
    match asked.kind {
        SnoopKind::DvmComplete => out.push(retirement(port)),
        SnoopKind::DvmMessage => {}
        _ => {
            if transfers_data(resp) {
                push_all(&data_beats(port.port(), &cached.copy(asked.addr)), out);
            }
        }
    }
}

/// Puts the answer to the port's oldest unanswered snoop, with what comes with it, where there is a
/// row for it.
pub fn answer<P: Policy>(port: &OnePort, cached: &Cached, policy: &mut P, out: &mut Burst) -> bool
    requires { out.old ≡ [] }
    ensures answer { IsTrue result → (plan : Plan) (past : Trace)
        → Stands plan past port.now cached.now → IsAnswer plan past (port_of port.now) out.new }
    ensures chosen { IsTrue result → (plan : Plan) (past : Trace)
        → Stands plan past port.now cached.now → IsByWord plan.policy (P.rows policy.old)
        → AreChosen plan past out.new }
    ensures none { result ≡ false → (plan : Plan) (past : Trace)
        → Stands plan past port.now cached.now
        → may_answer_snoop plan.header past (port_of port.now) ≡ false }
    ensures same_rows { (k : SnoopKind) (st : LineState) (u : Bool)
        → P.rows policy.new k st u ≡ P.rows policy.old k st u }
    ensures unchanged { result ≡ false → (policy.new ≡ policy.old) × (out.new ≡ []) }
{
    let Some(asked) = oldest_snoop(port, cached) else {
        return false;
    };
    let Some(row) = row_for(policy, &asked) else {
        return false;
    };
    out.push(Event::Cr {
        port: port.port(),
        resp: row.resp,
        st: row.next,
    });
    put_rest(port, cached, &asked, row.resp, out);
    true
}
