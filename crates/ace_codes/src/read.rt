// The codes of the address channels.
ghost use Rattle.std.specs.Prelude.{◌≡◌};
ghost use Rattle.ace_codes.specs.Places.{domain_of, bar_of};
ghost use Rattle.ace_codes.specs.Reads.{ar_kind_of, ar_code};
ghost use Rattle.ace_codes.specs.Snoops.{ac_kind_of, ac_code};
ghost use Rattle.ace_codes.specs.Writes.{aw_kind_of, aw_code};

use crate::channel::{Bar, Domain};
use crate::kind::{ArKind, AwKind, SnoopKind};

/// The domain with this AxDOMAIN. None exactly where the number is above 3.
pub fn read_domain(code: u8) -> Option<Domain>
    ensures { result ≡ domain_of code }
{
    match code {
        0 => Some(Domain::NonShareable),
        1 => Some(Domain::Inner),
        2 => Some(Domain::Outer),
        3 => Some(Domain::System),
        _ => None,
    }
}

/// How a transaction with this AxBAR stands to barriers. None exactly where the number is above 3.
pub fn read_bar(code: u8) -> Option<Bar>
    ensures { result ≡ bar_of code }
{
    match code {
        0 => Some(Bar::Normal),
        1 => Some(Bar::Memory),
        2 => Some(Bar::Ignoring),
        3 => Some(Bar::Synchronisation),
        _ => None,
    }
}

/// The normal reads of domains 1 and 2, by ARSNOOP.
const SHAREABLE_READS: [Option<ArKind>; 16] = [
    Some(ArKind::ReadOnce),
    Some(ArKind::ReadShared),
    Some(ArKind::ReadClean),
    Some(ArKind::ReadNotSharedDirty),
    None,
    None,
    None,
    Some(ArKind::ReadUnique),
    Some(ArKind::CleanShared),
    Some(ArKind::CleanInvalid),
    None,
    Some(ArKind::CleanUnique),
    Some(ArKind::MakeUnique),
    Some(ArKind::MakeInvalid),
    Some(ArKind::DvmComplete),
    Some(ArKind::DvmMessage),
];

/// The normal reads of domains 0 and 3, by ARSNOOP.
const UNSHARED_READS: [Option<ArKind>; 16] = [
    Some(ArKind::ReadNoSnoop),
    None,
    None,
    None,
    None,
    None,
    None,
    None,
    None,
    None,
    None,
    None,
    None,
    None,
    None,
    None,
];

/// The halves of barriers on the read address channel, by ARSNOOP.
const READ_BARRIERS: [Option<ArKind>; 16] = [
    Some(ArKind::Barrier),
    None,
    None,
    None,
    None,
    None,
    None,
    None,
    None,
    None,
    None,
    None,
    None,
    None,
    None,
    None,
];

/// The kinds of the read address channel, by ARBAR and ARDOMAIN, then by ARSNOOP.
static READS: [[Option<ArKind>; 16]; 16] = [
    UNSHARED_READS,
    SHAREABLE_READS,
    SHAREABLE_READS,
    UNSHARED_READS,
    READ_BARRIERS,
    READ_BARRIERS,
    READ_BARRIERS,
    READ_BARRIERS,
    UNSHARED_READS,
    SHAREABLE_READS,
    SHAREABLE_READS,
    UNSHARED_READS,
    READ_BARRIERS,
    READ_BARRIERS,
    READ_BARRIERS,
    READ_BARRIERS,
];

/// The normal writes of domains 1 and 2, by AWSNOOP.
const SHAREABLE_WRITES: [Option<AwKind>; 8] = [
    Some(AwKind::WriteUnique),
    Some(AwKind::WriteLineUnique),
    Some(AwKind::WriteClean),
    Some(AwKind::WriteBack),
    Some(AwKind::Evict),
    Some(AwKind::WriteEvict),
    None,
    None,
];

/// The normal writes of domains 0 and 3, by AWSNOOP.
const UNSHARED_WRITES: [Option<AwKind>; 8] = [
    Some(AwKind::WriteNoSnoop),
    None,
    None,
    None,
    None,
    None,
    None,
    None,
];

/// The halves of barriers on the write address channel, by AWSNOOP.
const WRITE_BARRIERS: [Option<AwKind>; 8] = [
    Some(AwKind::Barrier),
    None,
    None,
    None,
    None,
    None,
    None,
    None,
];

/// The kinds of the write address channel, by AWBAR and AWDOMAIN, then by AWSNOOP.
static WRITES: [[Option<AwKind>; 8]; 16] = [
    UNSHARED_WRITES,
    SHAREABLE_WRITES,
    SHAREABLE_WRITES,
    UNSHARED_WRITES,
    WRITE_BARRIERS,
    WRITE_BARRIERS,
    WRITE_BARRIERS,
    WRITE_BARRIERS,
    UNSHARED_WRITES,
    SHAREABLE_WRITES,
    SHAREABLE_WRITES,
    UNSHARED_WRITES,
    WRITE_BARRIERS,
    WRITE_BARRIERS,
    WRITE_BARRIERS,
    WRITE_BARRIERS,
];

/// The kinds of snoops, by ACSNOOP.
static SNOOPS: [Option<SnoopKind>; 16] = [
    Some(SnoopKind::ReadOnce),
    Some(SnoopKind::ReadShared),
    Some(SnoopKind::ReadClean),
    Some(SnoopKind::ReadNotSharedDirty),
    None,
    None,
    None,
    Some(SnoopKind::ReadUnique),
    Some(SnoopKind::CleanShared),
    Some(SnoopKind::CleanInvalid),
    None,
    None,
    None,
    Some(SnoopKind::MakeInvalid),
    Some(SnoopKind::DvmComplete),
    Some(SnoopKind::DvmMessage),
];

/// The kind of a transaction on the read address channel, by its ARSNOOP, ARDOMAIN and ARBAR. None
/// exactly where no kind stands at these numbers (Arm IHI 0022E, C3.1.3).
#[tactic(auto, unfolding(crate::specs::Reads::ar_kind_of))]
pub fn read_ar(snoop: u8, domain: u8, bar: u8) -> Option<ArKind>
    ensures { result ≡ ar_kind_of snoop domain bar }
{
    if snoop > 15 || domain > 3 || bar > 3 {
        return None;
    }
    READS[usize::from(bar * 4 + domain)][usize::from(snoop)]
}

/// The kind of a transaction on the write address channel, by its AWSNOOP, AWDOMAIN and AWBAR. None
/// exactly where no kind stands at these numbers (Arm IHI 0022E, C3.1.3).
#[tactic(auto, unfolding(crate::specs::Writes::aw_kind_of))]
pub fn read_aw(snoop: u8, domain: u8, bar: u8) -> Option<AwKind>
    ensures { result ≡ aw_kind_of snoop domain bar }
{
    if snoop > 7 || domain > 3 || bar > 3 {
        return None;
    }
    WRITES[usize::from(bar * 4 + domain)][usize::from(snoop)]
}

/// The kind of a snoop, by its ACSNOOP. None exactly where no kind has this code (Arm IHI 0022E,
/// C3.6.1).
#[tactic(auto, unfolding(crate::specs::Snoops::ac_kind_of))]
pub fn read_ac(snoop: u8) -> Option<SnoopKind>
    ensures { result ≡ ac_kind_of snoop }
{
    if snoop > 15 {
        return None;
    }
    SNOOPS[usize::from(snoop)]
}

/// The ARSNOOP of a kind, 0 to 15.
pub fn ar_code(kind: ArKind) -> u8
    ensures { result ≡ ar_code kind }
{
    match kind {
        ArKind::ReadNoSnoop | ArKind::ReadOnce | ArKind::Barrier => 0,
        ArKind::ReadShared => 1,
        ArKind::ReadClean => 2,
        ArKind::ReadNotSharedDirty => 3,
        ArKind::ReadUnique => 7,
        ArKind::CleanShared => 8,
        ArKind::CleanInvalid => 9,
        ArKind::CleanUnique => 11,
        ArKind::MakeUnique => 12,
        ArKind::MakeInvalid => 13,
        ArKind::DvmComplete => 14,
        ArKind::DvmMessage => 15,
    }
}

/// The AWSNOOP of a kind, 0 to 5.
pub fn aw_code(kind: AwKind) -> u8
    ensures { result ≡ aw_code kind }
{
    match kind {
        AwKind::WriteNoSnoop | AwKind::WriteUnique | AwKind::Barrier => 0,
        AwKind::WriteLineUnique => 1,
        AwKind::WriteClean => 2,
        AwKind::WriteBack => 3,
        AwKind::Evict => 4,
        AwKind::WriteEvict => 5,
    }
}

/// The ACSNOOP of a kind, 0 to 15.
pub fn ac_code(kind: SnoopKind) -> u8
    ensures { result ≡ ac_code kind }
{
    match kind {
        SnoopKind::ReadOnce => 0,
        SnoopKind::ReadShared => 1,
        SnoopKind::ReadClean => 2,
        SnoopKind::ReadNotSharedDirty => 3,
        SnoopKind::ReadUnique => 7,
        SnoopKind::CleanShared => 8,
        SnoopKind::CleanInvalid => 9,
        SnoopKind::MakeInvalid => 13,
        SnoopKind::DvmComplete => 14,
        SnoopKind::DvmMessage => 15,
    }
}
