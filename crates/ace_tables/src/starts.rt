// The states from which a transaction may start.
ghost use Rattle.std.specs.Prelude.{◌≡◌};
ghost use Rattle.ace_tables.specs.StartStates.{starts_read, starts_write};

use ace_codes::{ArKind, AwKind, LineState};

/// Whether a port that holds the line in this state may issue a read of this kind (Arm IHI 0022E,
/// C4). Barriers and DVM name no line, and have no such state.
pub fn start_read_ok(kind: ArKind, held: LineState) -> bool
    ensures { result ≡ starts_read kind held }
{
    match kind {
        ArKind::CleanUnique => matches!(held, LineState::SC | LineState::SD),
        ArKind::MakeUnique => matches!(held, LineState::I | LineState::SC | LineState::SD),
        ArKind::CleanShared => matches!(held, LineState::I | LineState::SC | LineState::UC),
        ArKind::DvmComplete | ArKind::DvmMessage | ArKind::Barrier => false,
        _ => matches!(held, LineState::I),
    }
}

/// Whether a port that holds the line in this state may issue a write of this kind (Arm IHI 0022E,
/// C4). A barrier names no line, and has no such state.
pub fn start_write_ok(kind: AwKind, held: LineState) -> bool
    ensures { result ≡ starts_write kind held }
{
    match kind {
        AwKind::WriteBack | AwKind::WriteClean => matches!(held, LineState::UD | LineState::SD),
        AwKind::WriteEvict => matches!(held, LineState::UC),
        AwKind::Evict => matches!(held, LineState::UC | LineState::SC),
        AwKind::Barrier => false,
        AwKind::WriteNoSnoop | AwKind::WriteUnique | AwKind::WriteLineUnique => {
            matches!(held, LineState::I)
        }
    }
}
