//! What the operations of an ACE-Lite port ask for.

ghost use Rattle.std.specs.Prelude.{◌≡◌, Some};
ghost use Rattle.ace_master.specs.declared.lite_requests.LiteRequest.TheVariants.{Read, Write};
ghost use Rattle.ace_master.specs.LiteRequests.{lite_request};

use ace_codes::{ArKind, AwKind};
use ace_model::Op;

/// What an operation of an ACE-Lite port asks for.
#[derive(Clone, Copy, Debug, PartialEq, Eq)]
pub enum LiteRequest {
    /// A read of the line.
    Read { kind: ArKind, addr: u32 },
    /// A write of the line.
    Write { kind: AwKind, addr: u32 },
    /// Both halves of a barrier with this AxBAR.
    Barrier { bar: u8 },
}

fn read(kind: ArKind, addr: u32) -> Option<LiteRequest>
    ensures { result ≡ Some (Read kind addr) }
{
    Some(LiteRequest::Read { kind, addr })
}

fn write(kind: AwKind, addr: u32) -> Option<LiteRequest>
    ensures { result ≡ Some (Write kind addr) }
{
    Some(LiteRequest::Write { kind, addr })
}

/// What the operation asks for, if it is one for an ACE-Lite port.
pub fn lite_request(op: Op) -> Option<LiteRequest>
    ensures { result ≡ lite_request op }
{
    match op {
        Op::Ro { addr } => read(ArKind::ReadOnce, addr),
        Op::Cs { addr } => read(ArKind::CleanShared, addr),
        Op::Ci { addr } => read(ArKind::CleanInvalid, addr),
        Op::Mi { addr } => read(ArKind::MakeInvalid, addr),
        Op::Rn { addr } => read(ArKind::ReadNoSnoop, addr),
        Op::Wu { addr, .. } => write(AwKind::WriteUnique, addr),
        Op::Wlu { addr, .. } => write(AwKind::WriteLineUnique, addr),
        Op::Wn { addr, .. } => write(AwKind::WriteNoSnoop, addr),
        Op::Mb => Some(LiteRequest::Barrier { bar: 1 }),
        Op::Sb => Some(LiteRequest::Barrier { bar: 3 }),
        _ => None,
    }
}
