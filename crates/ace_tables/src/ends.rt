// The states in which a transaction may end.
ghost use Rattle.std.specs.Prelude.{◌≡◌, Bool, IsTrue};
ghost use Rattle.ace_tables.specs.EndStates.{is_fetch, is_unheld, end_states_of_read, end_states_of_write};

use crate::states::StateSet;
use ace_codes::LineState::{I, SC, SD, UC, UD};
use ace_codes::{ArKind, AwKind, LineState};

/// The end states of a read by which a port fetches a line to keep.
fn end_of_fetch(kind: ArKind, held: LineState, shared: bool, pass: bool) -> &'static [LineState]
    requires { IsTrue (is_fetch kind) }
    ensures { (failed : Bool) → result.now ≡ end_states_of_read kind held shared pass failed }
{
    match (kind, held, shared, pass) {
        (_, I, false, false) => &[UC, SC, I],
        (ArKind::ReadClean | ArKind::ReadNotSharedDirty | ArKind::ReadShared, I, true, false) => &[
            SC, I,
        ],
        (ArKind::ReadNotSharedDirty | ArKind::ReadShared | ArKind::ReadUnique, I, false, true) => &[
            UD, SD,
        ],
        (ArKind::ReadShared, I, true, true) => &[SD],
        _ => &[],
    }
}

/// The end states of a CleanUnique.
fn end_of_clean_unique(
    held: LineState,
    shared: bool,
    pass: bool,
    failed: bool,
) -> &'static [LineState]
    ensures { result.now ≡ end_states_of_read ArKind.CleanUnique held shared pass failed }
{
    match (held, shared, pass, failed) {
        (I, false, false, _) => &[I],
        (SC, false, false, false) => &[UC, SC, I],
        (SD, false, false, false) => &[UD, SD],
        (SC, false, false, true) => &[SC, I],
        (SD, false, false, true) => &[SD],
        _ => &[],
    }
}

/// The end states of a CleanShared.
fn end_of_clean_shared(held: LineState, shared: bool, pass: bool) -> &'static [LineState]
    ensures { (failed : Bool) → result.now
        ≡ end_states_of_read ArKind.CleanShared held shared pass failed }
{
    match (held, shared, pass) {
        (I, _, false) => &[I],
        (UC | SC, false, false) => &[UC, SC, I],
        (UC | SC, true, false) => &[SC, I],
        _ => &[],
    }
}

/// The end states of a MakeUnique.
fn end_of_make_unique(held: LineState, shared: bool, pass: bool) -> &'static [LineState]
    ensures { (failed : Bool) → result.now
        ≡ end_states_of_read ArKind.MakeUnique held shared pass failed }
{
    match (held, shared, pass) {
        (I | SC | SD, false, false) => &[UD],
        _ => &[],
    }
}

/// The end states of a ReadOnce.
fn end_of_read_once(held: LineState, pass: bool) -> &'static [LineState]
    ensures { (shared failed : Bool) → result.now
        ≡ end_states_of_read ArKind.ReadOnce held shared pass failed }
{
    match (held, pass) {
        (I, false) => &[I],
        _ => &[],
    }
}

/// The end states of a read that brings no line into a cache.
fn end_of_unheld(kind: ArKind, held: LineState, shared: bool, pass: bool) -> &'static [LineState]
    requires { IsTrue (is_unheld kind) }
    ensures { (failed : Bool) → result.now ≡ end_states_of_read kind held shared pass failed }
{
    match (kind, held, shared, pass) {
        (_, I, false, false) => &[I],
        _ => &[],
    }
}

/// The states in which a port may hold the line after a read of this kind, where it holds `held` at
/// its end. `shared` and `pass` are IsShared and PassDirty of the response, and `failed` says that
/// the read was an exclusive store that failed (Arm IHI 0022E, C4).
pub fn end_read(kind: ArKind, held: LineState, shared: bool, pass: bool, failed: bool) -> StateSet
    ensures { result ≡ end_states_of_read kind held shared pass failed }
{
    StateSet::of(match kind {
        ArKind::ReadClean | ArKind::ReadNotSharedDirty | ArKind::ReadShared | ArKind::ReadUnique =>
            { end_of_fetch(kind, held, shared, pass) }
        ArKind::CleanUnique => end_of_clean_unique(held, shared, pass, failed),
        ArKind::CleanShared => end_of_clean_shared(held, shared, pass),
        ArKind::MakeUnique => end_of_make_unique(held, shared, pass),
        ArKind::ReadOnce => end_of_read_once(held, pass),
        ArKind::ReadNoSnoop
        | ArKind::CleanInvalid
        | ArKind::MakeInvalid
        | ArKind::Barrier
        | ArKind::DvmComplete
        | ArKind::DvmMessage => end_of_unheld(kind, held, shared, pass),
    })
}

/// The states in which a port may hold the line after a write of this kind, where it holds `held`
/// at its end (Arm IHI 0022E, C4).
pub fn end_write(kind: AwKind, held: LineState) -> StateSet
    ensures { result ≡ end_states_of_write kind held }
{
    match (kind, held) {
        (AwKind::WriteClean, UD) => StateSet::of(&[UC, SC, I]),
        (AwKind::WriteClean, SD) => StateSet::of(&[SC, I]),
        (AwKind::WriteClean, _) => StateSet::of(&[]),
        _ => StateSet::of(&[I]),
    }
}
