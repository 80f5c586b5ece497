// Which rows are marked, and how.
ghost use Rattle.std.specs.Prelude.{◌≡◌, ◌++◌, OnOk};
ghost use Rattle.std.specs.List.{list_any};
ghost use Rattle.ace_journal.specs.Marks.{answers, ends, is_exclusive_load_of, is_grant, is_issue, is_issue_of, is_shown, is_store_of, leaves_nothing, look_words, looks_for, mark_by, mark_part, marks_by, names_state, port_of, shows};
ghost use Rattle.ace_journal.specs.declared.rows.Row.{Row as Kept};

use crate::looks::{Look, Looks, looks_of};
use crate::rows::Row;
use ace_clauses::Letter;
use ace_codes::{LineState, is_shared, passes_dirty, transfers_data};
use ace_event_words::Deed;
use ace_io::NoMemory;
use ace_malformed::push;

/// The port of an event: 32, which is none, of a MEM.
pub fn port_of(deed: &Deed) -> u8
    ensures { result ≡ port_of deed.now }
{
    match *deed {
        Deed::Ar { port, .. }
        | Deed::R { port, .. }
        | Deed::Rk { port, .. }
        | Deed::Aw { port, .. }
        | Deed::W { port, .. }
        | Deed::B { port, .. }
        | Deed::Wk { port, .. }
        | Deed::Ac { port, .. }
        | Deed::Cr { port, .. }
        | Deed::Cd { port }
        | Deed::G { port, .. }
        | Deed::M { port, .. }
        | Deed::S { port, .. }
        | Deed::L { port, .. }
        | Deed::D { port, .. }
        | Deed::Op { port, .. } => port,
        Deed::Mem => 32,
    }
}

/// It begins a transaction.
fn is_issue(deed: &Deed) -> bool
    ensures { result ≡ is_issue deed.now }
{
    matches!(deed, Deed::Ar { .. } | Deed::Aw { .. })
}

/// It begins a transaction of the port.
fn is_issue_of(port: u8, deed: &Deed) -> bool
    ensures { result ≡ is_issue_of port deed.now }
{
    port_of(deed) == port && is_issue(deed)
}

/// It grants the line.
fn is_grant(deed: &Deed) -> bool
    ensures { result ≡ is_grant deed.now }
{
    matches!(deed, Deed::G { .. })
}

/// It is a store of the port.
fn is_store_of(port: u8, deed: &Deed) -> bool
    ensures { result ≡ is_store_of port deed.now }
{
    match deed {
        Deed::D { port: of, .. } => *of == port,
        _ => false,
    }
}

/// It is an exclusive load of the port.
fn is_exclusive_load_of(port: u8, deed: &Deed) -> bool
    ensures { result ≡ is_exclusive_load_of port deed.now }
{
    match deed {
        Deed::L { port: of, x, .. } => *of == port && *x,
        _ => false,
    }
}

/// It leaves the line in I.
fn leaves_nothing(deed: &Deed) -> bool
    ensures { result ≡ leaves_nothing deed.now }
{
    match deed {
        Deed::Rk { st, .. } | Deed::Wk { st, .. } | Deed::Cr { st, .. } | Deed::S { st, .. } => {
            matches!(st, LineState::I)
        }
        _ => false,
    }
}

/// It names the state in which it leaves the line.
fn names_state(deed: &Deed) -> bool
    ensures { result ≡ names_state deed.now }
{
    matches!(
        deed,
        Deed::Rk { .. } | Deed::Wk { .. } | Deed::Cr { .. } | Deed::S { .. }
    )
}

/// What is looked for, by the port of the event that breaks a rule.
fn shows(look: Look, port: u8, deed: &Deed) -> bool
    ensures { result ≡ shows look port deed.now }
{
    match (look, deed) {
        (Look::Issue, _) => is_issue_of(port, deed),
        (Look::OtherUse, _) => is_issue(deed),
        (Look::Grant, _) => is_grant(deed),
        (Look::Store, _) => is_store_of(port, deed),
        (Look::State, _) => port_of(deed) == port && names_state(deed),
        (Look::ExclusiveLoad, _) => is_exclusive_load_of(port, deed),
        (Look::Lost, _) => port_of(deed) == port && leaves_nothing(deed),
        (Look::Snoop, Deed::Ac { port: of, .. })
        | (Look::Transfer, Deed::R { port: of, .. })
        | (Look::Sent, Deed::W { port: of, .. })
        | (Look::Response, Deed::B { port: of, .. })
        | (Look::OwnWrite, Deed::M { port: of, .. }) => *of == port,
        (Look::Unanswered, Deed::Ac { .. })
        | (Look::Begun, Deed::R { .. })
        | (Look::MemoryWrite, Deed::M { .. }) => true,
        (Look::DataAnswer, Deed::Cr { port: of, resp, .. }) => {
            *of == port && transfers_data(*resp)
        }
        (Look::PassedDirty, Deed::Cr { resp, .. }) => passes_dirty(*resp),
        (Look::Kept, Deed::Cr { resp, .. }) => is_shared(*resp),
        (Look::ExclusiveStore, Deed::D { port: of, x }) => *of == port && *x,
        _ => false,
    }
}

/// It answers a snoop of this port.
fn answers(deed: &Deed, newer: &Deed) -> bool
    ensures { result ≡ answers deed.now newer.now }
{
    match (deed, newer) {
        (Deed::Ac { port, .. }, Deed::Cr { port: of, .. }) => port == of,
        _ => false,
    }
}

/// A newer event after which what the look showed counts no more.
fn ends(look: Look, port: u8, deed: &Deed, newer: &Deed) -> bool
    ensures { result ≡ ends look port deed.now newer.now }
{
    match look {
        Look::Unanswered => answers(deed, newer),
        Look::Lost => is_exclusive_load_of(port, newer),
        Look::PassedDirty | Look::Kept | Look::Begun => is_grant(newer) || shows(look, port, newer),
        Look::Transfer | Look::Sent | Look::Response | Look::OwnWrite => {
            is_issue_of(port, newer) || shows(look, port, newer)
        }
        Look::State => is_store_of(port, newer) || shows(look, port, newer),
        Look::ExclusiveStore => is_exclusive_load_of(port, newer) || shows(look, port, newer),
        _ => shows(look, port, newer),
    }
}

/// One of the newer rows ends what the look showed.
fn is_ended(look: Look, port: u8, newer: &[Row], deed: &Deed) -> bool
    ensures { result ≡ list_any (λ (r : Kept). ends look port deed.now r.deed) newer.now }
{
    newer.iter().any(|row| ends(look, port, deed, &row.deed))
}

/// The look shows the row, behind which these newer rows stand.
fn is_shown(look: Look, port: u8, newer: &[Row], row: &Row) -> bool
    ensures { result ≡ is_shown look port newer.now row.now }
{
    shows(look, port, &row.deed) && !is_ended(look, port, newer, &row.deed)
}

fn look_words(look: Look) -> &'static [u8]
    ensures { result.now ≡ look_words look }
{
    match look {
        Look::Issue => b"is outstanding",
        Look::OtherUse => b"uses the line the other way",
        Look::Grant => b"the grant",
        Look::Snoop => b"the snoop",
        Look::Unanswered => b"no answer yet",
        Look::DataAnswer => b"the answer",
        Look::PassedDirty => b"passes the dirty line",
        Look::Kept => b"keeps the line",
        Look::Begun => b"the transfers have begun",
        Look::Transfer => b"its last transfer",
        Look::Sent => b"its last data",
        Look::Response => b"its response",
        Look::OwnWrite => b"memory is written for it",
        Look::MemoryWrite => b"the last write of memory",
        Look::Store => b"its last store",
        Look::State => b"its state since then",
        Look::ExclusiveLoad => b"its last exclusive load",
        Look::ExclusiveStore => b"its exclusive store",
        Look::Lost => b"leaves the line in I",
    }
}

/// The mark of the row by the look: empty where there is none.
pub fn mark_by(look: Option<Look>, port: u8, newer: &[Row], row: &Row) -> &'static [u8]
    ensures { result.now ≡ mark_by look port newer.now row.now }
{
    match look {
        None => b"",
        Some(look) => {
            if is_shown(look, port, newer, row) {
                look_words(look)
            } else {
                b""
            }
        }
    }
}

/// Adds the mark behind the row, if there is one.
#[tactic(auto, unfolding(crate::specs::Marks::mark_part))]
fn push_mark(text: &mut Vec<u8>, mark: &[u8]) -> Result<(), NoMemory>
    ensures { OnOk result (text.new.items ≡ text.old.items ++ mark_part mark.now) }
{
    if mark.is_empty() {
        return Ok(());
    }
    push(text, b"   <- ")?;
    push(text, mark)
}

/// Adds the marks of the row.
pub(crate) fn push_marks(
    text: &mut Vec<u8>,
    looks: &Looks,
    port: u8,
    newer: &[Row],
    row: &Row,
) -> Result<(), NoMemory>
    ensures { OnOk result (text.new.items
        ≡ text.old.items ++ marks_by looks.now port newer.now row.now) }
{
    push_mark(text, mark_by(looks.first, port, newer, row))?;
    push_mark(text, mark_by(looks.second, port, newer, row))
}

/// What is looked for among the rows of an event: of one without a line nothing.
pub fn looks_for(line: Option<u32>, rule: u8, letter: Letter) -> Looks
    ensures { result ≡ looks_for line rule letter }
{
    match line {
        None => Looks {
            first: None,
            second: None,
        },
        Some(_) => looks_of(rule, letter),
    }
}
