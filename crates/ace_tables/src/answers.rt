// How a snoop may be answered.
ghost use Rattle.std.specs.Prelude.{◌≡◌, ◌+◌, ◌≤◌, ◌++◌, ◌||◌, ◌∷◌, [], length};
ghost use Rattle.ace_codes.specs.declared.state.LineState.TheVariants.{I as Invalid};
ghost use Rattle.ace_tables.specs.States.{is_among, is_invalid};
ghost use Rattle.ace_tables.specs.Answers.{states_after_sharing, states_after, fits_transfer, must_pass_dirty, fits_answer, fits_update, is_snoop_row, rows_to, snoop_rows};

use crate::rows::{Row, RowList};
use crate::states::{is_among, is_dirty, is_invalid, is_unique};
use ace_codes::LineState::{I, SC, SD, UC, UD};
use ace_codes::{
    LineState, SnoopKind, has_error, is_shared, passes_dirty, transfers_data, was_unique,
};

/// The responses that there are without the Error bit, in the order of a list of rows.
const RESPONSES: [u8; 16] = [0, 4, 8, 12, 16, 20, 24, 28, 1, 5, 9, 13, 17, 21, 25, 29];

/// The states in which ReadShared, ReadClean and ReadNotSharedDirty may leave a port that holds the
/// line.
fn states_after_sharing(held: LineState) -> &'static [LineState]
    ensures { result.now ≡ states_after_sharing held }
{
    match held {
        UC | SC => &[SC, I],
        UD | SD => &[SD, SC, I],
        I => &[],
    }
}

/// The states in which a line snoop may leave a port that holds the line.
fn states_after(kind: SnoopKind, held: LineState) -> &'static [LineState]
    ensures { result.now ≡ states_after kind held }
{
    match (kind, held) {
        (SnoopKind::ReadOnce | SnoopKind::CleanShared, UC) => &[UC, SC, I],
        (SnoopKind::ReadOnce, UD) => &[UD, SD, SC, I],
        (SnoopKind::ReadOnce | SnoopKind::CleanShared, SC) => &[SC, I],
        (SnoopKind::ReadOnce, SD) => &[SD, SC, I],
        (SnoopKind::CleanShared, UD) => &[UC, SC, I],
        (SnoopKind::CleanShared, SD) => &[SC, I],
        (SnoopKind::ReadShared | SnoopKind::ReadClean | SnoopKind::ReadNotSharedDirty, _) => {
            states_after_sharing(held)
        }
        (SnoopKind::ReadUnique | SnoopKind::CleanInvalid | SnoopKind::MakeInvalid, _) => &[I],
        _ => &[],
    }
}

/// Whether DataTransfer may be this.
fn fits_transfer(kind: SnoopKind, held: LineState, transfer: bool) -> bool
    ensures { result ≡ fits_transfer kind held transfer }
{
    match kind {
        SnoopKind::MakeInvalid => !transfer,
        _ => !is_dirty(held) || transfer,
    }
}

/// What PassDirty has to be.
fn must_pass_dirty(kind: SnoopKind, held: LineState, next: LineState) -> bool
    ensures { result ≡ must_pass_dirty kind held next }
{
    match kind {
        SnoopKind::MakeInvalid => false,
        _ => is_dirty(held) && !is_dirty(next),
    }
}

/// Whether the response fits the answer by which a state other than I becomes the next one.
fn fits_answer(kind: SnoopKind, held: LineState, next: LineState, resp: u8) -> bool
    ensures { result ≡ fits_answer kind held next resp }
{
    resp < 32
        && !has_error(resp)
        && fits_transfer(kind, held, transfers_data(resp))
        && passes_dirty(resp) == must_pass_dirty(kind, held, next)
        && is_shared(resp) == !is_invalid(next)
        && (!was_unique(resp) || is_unique(held))
}

/// Whether the answer may be given while a memory update of the line is outstanding.
fn fits_update(kind: SnoopKind, next: LineState, resp: u8) -> bool
    ensures { result ≡ fits_update kind next resp }
{
    let is_read = matches!(
        kind,
        SnoopKind::ReadOnce
            | SnoopKind::ReadShared
            | SnoopKind::ReadClean
            | SnoopKind::ReadNotSharedDirty
    );
    is_read && !passes_dirty(resp) && !is_invalid(next)
}

/// Whether a port may answer the snoop with this response and be in the next state: where it holds
/// the first state, and has a memory update of the line outstanding or not (Arm IHI 0022E, C5 and
/// C3.7).
pub fn is_snoop_row(
    kind: SnoopKind,
    held: LineState,
    update: bool,
    resp: u8,
    next: LineState,
) -> bool
    ensures { result ≡ is_snoop_row kind held update resp next }
{
    let is_dvm = matches!(kind, SnoopKind::DvmComplete | SnoopKind::DvmMessage);
    if is_dvm || is_invalid(held) {
        return resp == 0 && is_invalid(next);
    }
    is_among(next, states_after(kind, held))
        && fits_answer(kind, held, next, resp)
        && (!update || fits_update(kind, next, resp))
}

/// Whether there may be rows with this next state: it is I, or one in which the snoop may leave a
/// port that holds the line.
fn may_leave(kind: SnoopKind, held: LineState, next: LineState) -> bool
    ensures { result ≡ (is_invalid next || is_among next (states_after kind held)) }
{
    is_invalid(next) || is_among(next, states_after(kind, held))
}

/// Puts the rows with this next state at the end of the list.
#[tactic(auto, using(crate::proofs::RowsAmong::row_steps), unfolding(crate::specs::Answers::rows_to))]
fn push_rows(rows: &mut RowList, kind: SnoopKind, held: LineState, update: bool, next: LineState)
    requires { length rows.old + length (rows_to kind held update next) ≤ 12 }
    ensures { rows.new ≡ rows.old ++ rows_to kind held update next }
{
    if !may_leave(kind, held, next) {
        return;
    }
    for resp in RESPONSES {
        if is_snoop_row(kind, held, update, resp, next) {
            rows.push(Row { resp, next });
        }
    }
}

/// The one row of a port that doesn't hold the line.
fn plain_rows() -> RowList
    ensures { result ≡ record { resp = 0; next = Invalid } ∷ [] }
{
    let mut rows = RowList::empty();
    rows.push(Row { resp: 0, next: I });
    rows
}

/// The rows of a snoop: how a port may answer it that holds the line in this state, and has a
/// memory update of the line outstanding or not. The next states stand in the order UD, SD, UC, SC,
/// I; for one of them DataTransfer 0 stands before 1, and then WasUnique 0 before 1. There are at
/// most 12 (Arm IHI 0022E, C5 and C3.7).
#[tactic(auto, using(crate::proofs::MostRows::bounds), unfolding(crate::specs::Answers::snoop_rows))]
pub fn snoop_rows(snoop: SnoopKind, held: LineState, update: bool) -> RowList
    ensures { result ≡ snoop_rows snoop held update }
{
    if is_invalid(held) {
        return plain_rows();
    }
    let mut rows = RowList::empty();
    push_rows(&mut rows, snoop, held, update, UD);
    push_rows(&mut rows, snoop, held, update, SD);
    push_rows(&mut rows, snoop, held, update, UC);
    push_rows(&mut rows, snoop, held, update, SC);
    push_rows(&mut rows, snoop, held, update, I);
    rows
}
