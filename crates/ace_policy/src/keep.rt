ghost use Rattle.std.specs.Prelude.{◌≡◌, ◌<◌, Some, length};
ghost use Rattle.ace_tables.specs.Answers.{snoop_rows};
ghost use Rattle.ace_tables.specs.Picks.{is_like, kept_row, keep_row};
ghost use Rattle.ace_policy.specs.Policies.{keep_rows};
ghost use Rattle.ace_policy.specs.Permitted.{keep_permitted};

use crate::Policy;
use ace_codes::{LineState, SnoopKind, transfers_data};
use ace_tables::{Row, RowList, snoop_rows};

/// Keeps a line as long as it can: the first next state that has a row in the order UD, SD, UC, SC,
/// I, DataTransfer 1 only where it must be, and WasUnique 1 where it may be.
#[derive(Clone, Copy, Debug)]
pub struct Keep;

/// Whether the next state and DataTransfer are those of the first row.
fn is_like(first: Row, row: Row) -> bool
    ensures { result ≡ is_like first row }
{
    first.next == row.next && transfers_data(first.resp) == transfers_data(row.resp)
}

/// The last row whose next state and DataTransfer are those of the first.
#[tactic(auto, using(crate::proofs::KeptRow::kept_steps))]
fn kept_row(rows: &RowList) -> Row
    requires { 0 < length rows.now }
    ensures { kept_row rows.now ≡ Some result }
{
    let first = rows.row(0);
    let mut kept = first;
    for i in 1..rows.count() {
        let row = rows.row(i);
        if is_like(first, row) {
            kept = row;
        }
    }
    kept
}

impl Policy for Keep {
    ghost rows = { λ _. keep_rows };

    ghost permitted = { λ _. keep_permitted };

    #[tactic(auto, using(crate::specs::Permitted::picked_steps))]
    fn pick(&mut self, snoop: SnoopKind, held: LineState, update: bool) -> Row
        requires { 0 < length (snoop_rows snoop held update) }
        ensures row { keep_row snoop held update ≡ Some result }
    {
        kept_row(&snoop_rows(snoop, held, update))
    }
}
