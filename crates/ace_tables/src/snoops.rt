// The snoop that a transaction causes.
ghost use Rattle.std.specs.Prelude.{◌≡◌};
ghost use Rattle.ace_tables.specs.SnoopKinds.{snoop_of_read, snoop_of_write};

use ace_codes::{ArKind, AwKind, SnoopKind};

/// The snoop that a read causes. None exactly where it causes no snoop of a line (Arm IHI 0022E,
/// C5.1).
pub fn snoop_of_read(kind: ArKind) -> Option<SnoopKind>
    ensures { result ≡ snoop_of_read kind }
{
    match kind {
        ArKind::ReadOnce => Some(SnoopKind::ReadOnce),
        ArKind::ReadShared => Some(SnoopKind::ReadShared),
        ArKind::ReadClean => Some(SnoopKind::ReadClean),
        ArKind::ReadNotSharedDirty => Some(SnoopKind::ReadNotSharedDirty),
        ArKind::ReadUnique => Some(SnoopKind::ReadUnique),
        ArKind::CleanShared => Some(SnoopKind::CleanShared),
        ArKind::CleanInvalid | ArKind::CleanUnique => Some(SnoopKind::CleanInvalid),
        ArKind::MakeUnique | ArKind::MakeInvalid => Some(SnoopKind::MakeInvalid),
        ArKind::ReadNoSnoop | ArKind::DvmComplete | ArKind::DvmMessage | ArKind::Barrier => None,
    }
}

/// The snoop that a write causes. None exactly where it causes no snoop of a line (Arm IHI 0022E,
/// C5.1).
pub fn snoop_of_write(kind: AwKind) -> Option<SnoopKind>
    ensures { result ≡ snoop_of_write kind }
{
    match kind {
        AwKind::WriteUnique => Some(SnoopKind::CleanInvalid),
        AwKind::WriteLineUnique => Some(SnoopKind::MakeInvalid),
        _ => None,
    }
}
