// The rows that are kept of a line.
ghost use Rattle.std.specs.Prelude.{◌≡◌, ◌+◌, ◌<◌, ◌∷◌, List, OnOk, take};
ghost use Rattle.ace_journal.specs.Rows.{behind, continues, earlier_than, extended, is_alike, is_alone, is_kept, joins, put_row};

use ace_event::Event;
use ace_event_words::{Deed, Kind};
use ace_io::NoMemory;
use std::collections::VecDeque;

/// How many rows are kept of a line.
pub const MOST_ROWS: usize = 16;

/// An event, or transfers one after another: the numbers of the first and the last, from 1, and
/// what they do.
#[derive(Clone, Copy)]
pub struct Row {
    pub first: u64,
    pub last: u64,
    /// How many events of its line came before the first of it, of those that are kept: 0 of a row
    /// that no journal has heard.
    pub before: u64,
    pub deed: Deed,
}

/// The last rows of a line, the newest first.
#[derive(Drop)]
pub struct Rows {
    pub(crate) kept: VecDeque<Row>,
    /// How many events of the line were heard, of those that are kept.
    pub(crate) heard: u64,
}

/// The codes are those of the same kind, on one channel.
fn is_alike(kind: &Option<Kind>, other: &Option<Kind>) -> bool
    ensures { result ≡ is_alike kind.now other.now }
{
    match (kind, other) {
        (Some(kind), Some(other)) => {
            kind.snoop == other.snoop && kind.dom == other.dom && kind.bar == other.bar
        }
        _ => false,
    }
}

/// Both are transfers of one port, which are told as one.
fn continues(newest: &Deed, next: &Deed) -> bool
    ensures { result ≡ continues newest.now next.now }
{
    match (newest, next) {
        (
            Deed::R { port, kind, resp },
            Deed::R {
                port: of_port,
                kind: of_kind,
                resp: of_resp,
            },
        ) => port == of_port && is_alike(kind, of_kind) && resp == of_resp,
        (
            Deed::W { port, kind },
            Deed::W {
                port: of_port,
                kind: of_kind,
            },
        ) => port == of_port && is_alike(kind, of_kind),
        (Deed::Cd { port }, Deed::Cd { port: of_port }) => port == of_port,
        _ => false,
    }
}

/// The event is kept: each but loads that aren't exclusive, and ends of operations.
pub(crate) fn is_kept(event: &Event) -> bool
    ensures { result ≡ is_kept event.now }
{
    match *event {
        Event::L { x, .. } => x,
        Event::Op { .. } => false,
        _ => true,
    }
}

/// The event ends an operation, or goes on with a transaction that there isn't.
pub(crate) fn is_alone(deed: &Deed) -> bool
    ensures { result ≡ is_alone deed.now }
{
    match deed {
        Deed::R { kind, .. }
        | Deed::Rk { kind, .. }
        | Deed::W { kind, .. }
        | Deed::B { kind, .. }
        | Deed::Wk { kind, .. }
        | Deed::G { kind, .. }
        | Deed::M { kind, .. } => kind.is_none(),
        Deed::Op { .. } => true,
        _ => false,
    }
}

/// The newest row takes the next one in.
fn joins(rows: &Rows, next: &Row) -> bool
    ensures { result ≡ joins rows.now.kept.items next.now }
{
    match rows.kept.front() {
        Some(newest) => continues(&newest.deed, &next.deed),
        None => false,
    }
}

/// The newest row ends at the event of this number.
fn extend(rows: &mut Rows, last: u64)
    ensures kept { rows.new.kept.items ≡ extended last rows.old.kept.items }
    ensures heard { rows.new.heard ≡ rows.old.heard }
{
    if let Some(newest) = rows.kept.front_mut() {
        newest.last = last;
    }
}

/// Adds the next row, and lets go what is older than the last fifteen before it.
fn add(rows: &mut Rows, next: Row) -> Result<(), NoMemory>
    ensures kept { OnOk result (rows.new.kept.items ≡ next ∷ take 15 rows.old.kept.items) }
    ensures heard { rows.new.heard ≡ rows.old.heard }
{
    rows.kept.truncate(MOST_ROWS - 1);
    match rows.kept.push_front(next) {
        Ok(()) => Ok(()),
        Err(_) => Err(NoMemory),
    }
}

/// Puts the next row to the last sixteen rows of a list, behind the events that were heard.
///
/// # Errors
///
/// `NoMemory` where there is none for it.
pub(crate) fn put(rows: &mut Rows, next: Row) -> Result<(), NoMemory>
    ensures kept { OnOk result ((all : List Row) → rows.old.kept.items ≡ take 16 all
        → rows.new.kept.items ≡ take 16 (put_row (behind rows.old.heard next) all)) }
    ensures heard { OnOk result (rows.old.heard < next.first
        → rows.new.heard ≡ rows.old.heard + 1) }
{
    let before = rows.heard;
    rows.heard = before.wrapping_add(1);
    if joins(rows, &next) {
        extend(rows, next.last);
        Ok(())
    } else {
        add(rows, Row { before, ..next })
    }
}

/// How many events that are kept came before the oldest of these rows, of which the newest is
/// first.
pub fn earlier_than(rows: &[Row]) -> u64
    ensures { result ≡ earlier_than rows.now }
{
    match rows.get(rows.len().saturating_sub(1)) {
        Some(row) => row.before,
        None => 0,
    }
}
