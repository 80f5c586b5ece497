// The events by which another one breaks a rule, as far as a chart tells.
ghost use Rattle.std.specs.Prelude.{◌≡◌, ◌≤◌, ◌++◌, ◌+◌, OnOk, codes};
ghost use Rattle.ace_chart.specs.Reasons.{grants, is_issue, issues, reason_of, reason_mark, reason_text, reason_words};

use crate::places::{width, y_of};
use crate::rows::Row;
use ace_event::Event;
use ace_io::NoMemory;
use ace_model::Transaction;
use ace_svg::{Point, push_line, push_words};

/// Why an event is marked, above one that breaks a rule.
#[derive(Clone, Copy, Debug, PartialEq, Eq)]
pub enum Reason {
    /// It issues the transaction that the one that breaks a rule belongs to.
    Issue,
    /// It issues the transaction that is granted then.
    GrantedIssue,
    /// It grants that transaction.
    Grant,
}

/// The event is the one that issues the transaction.
fn is_issue(row: &Row, transaction: &Transaction) -> bool
    ensures { result ≡ is_issue row.now transaction.now }
{
    row.number != 0 && row.number - 1 == transaction.place as u64
}

/// The event issues the transaction, if there is one.
fn issues(row: &Row, transaction: &Option<Transaction>) -> bool
    ensures { result ≡ issues row.now transaction.now }
{
    match transaction {
        Some(transaction) => is_issue(row, transaction),
        None => false,
    }
}

/// The event grants the transaction, if there is one.
fn grants(row: &Row, transaction: &Option<Transaction>) -> bool
    ensures { result ≡ grants row.now transaction.now }
{
    match (&row.event, &row.serves, transaction) {
        (Event::G { .. }, Some(served), Some(transaction)) => served.place == transaction.place,
        _ => false,
    }
}

/// Why the event is marked above this one, which breaks a rule.
pub(crate) fn reason_of(stop: &Row, row: &Row) -> Option<Reason>
    ensures { result ≡ reason_of stop.now row.now }
{
    if issues(row, &stop.serves) {
        Some(Reason::Issue)
    } else if issues(row, &stop.look.granted) {
        Some(Reason::GrantedIssue)
    } else if grants(row, &stop.look.granted) {
        Some(Reason::Grant)
    } else {
        None
    }
}

/// What is told of it.
fn reason_words(reason: Reason) -> &'static [u8]
    ensures { result.now ≡ reason_words reason }
{
    match reason {
        Reason::Issue => b"its transaction",
        Reason::GrantedIssue => b"who has the line",
        Reason::Grant => b"the grant",
    }
}

/// Adds a triangle at each side of a row, and why at the right.
#[tactic(auto, unfolding(crate::specs::Reasons::reason_mark))]
fn push_reason_mark(text: &mut Vec<u8>, ports: u8, row: u64, reason: Reason) -> Result<(), NoMemory>
    requires { row ≤ 1000000 }
    ensures { OnOk result (text.new.items ≡ text.old.items ++ reason_mark ports row reason) }
{
    let y = y_of(row);
    let right = width(ports);
    push_line(text, b"reason", Point { x: 100, y }, Point { x: 112, y })?;
    let from = Point { x: right - 16, y };
    let to = Point { x: right - 28, y };
    push_line(text, b"reason", from, to)?;
    let place = Point {
        x: right - 32,
        y: y + 4,
    };
    push_words(text, b"reason", place, reason_words(reason))
}

/// Adds what marks the event of a row, if it is marked.
#[tactic(auto, unfolding(crate::specs::Reasons::reason_text))]
pub(crate) fn push_reason(
    text: &mut Vec<u8>,
    ports: u8,
    row: u64,
    stop: &Option<Row>,
    drawn: &Row,
) -> Result<(), NoMemory>
    requires { row ≤ 1000000 }
    ensures { OnOk result (text.new.items
        ≡ text.old.items ++ reason_text ports row stop.now drawn.now) }
{
    let Some(stop) = stop else {
        return Ok(());
    };
    match reason_of(stop, drawn) {
        Some(reason) => push_reason_mark(text, ports, row, reason),
        None => Ok(()),
    }
}
