//! What the master of an ACE port asks for next, for an operation that can't end yet.

ghost use Rattle.std.specs.Prelude.{◌≡◌};
ghost use Rattle.std.specs.Prelude.{false};
ghost use Rattle.ace_runs.specs.Requests.{Reads, Writes, cleans_first, gives_up_first, owns, request_of};
ghost use Rattle.ace_master_state.specs.AceRequests.{asks};

use ace_codes::{ArKind, AwKind, LineState};
use ace_model::Op;
use ace_tables::{is_dirty, is_invalid};

/// What a master asks for.
#[derive(Clone, Copy, Debug, PartialEq, Eq)]
pub enum Request {
    /// A read of the kind on the line.
    Reads { kind: ArKind, addr: u32, lock: bool },
    /// The same, of a line that the port doesn't hold: a way is wanted for it first.
    Misses { kind: ArKind, addr: u32, lock: bool },
    /// A write of the kind on the line.
    Writes { kind: AwKind, addr: u32 },
    /// To give up the clean line.
    Drops { addr: u32 },
    /// Both halves of a barrier.
    Barriers { bar: u8 },
    /// Both parts of a DVM message.
    Messages { word: u32, second: u32 },
}

fn reads(kind: ArKind, addr: u32) -> Request
    ensures { asks result ≡ Reads kind addr false }
{
    Request::Reads {
        kind,
        addr,
        lock: false,
    }
}

fn writes(kind: AwKind, addr: u32) -> Request
    ensures { asks result ≡ Writes kind addr }
{
    Request::Writes { kind, addr }
}

/// A port gives a line up before it goes past its cache: a dirty line is written back.
fn gives_up_first(addr: u32, st: LineState, next: Request) -> Request
    ensures { asks result ≡ gives_up_first addr st (asks next) }
{
    if is_invalid(st) {
        next
    } else if is_dirty(st) {
        Request::Writes {
            kind: AwKind::WriteBack,
            addr,
        }
    } else {
        Request::Drops { addr }
    }
}

/// A dirty line is written to memory first.
fn cleans_first(addr: u32, st: LineState, next: Request) -> Request
    ensures { asks result ≡ cleans_first addr st (asks next) }
{
    if is_dirty(st) {
        Request::Writes {
            kind: AwKind::WriteClean,
            addr,
        }
    } else {
        next
    }
}

/// To own the line: by the first kind where the port doesn't hold it, by the second where it does.
fn owns(miss: ArKind, hit: ArKind, addr: u32, st: LineState) -> Request
    ensures { asks result ≡ owns miss hit addr st }
{
    if is_invalid(st) {
        Request::Misses {
            kind: miss,
            addr,
            lock: false,
        }
    } else {
        reads(hit, addr)
    }
}

/// What an operation asks for that can't end, by the port's state of its line.
pub fn request_of(op: Op, st: LineState) -> Request
    ensures { asks result ≡ request_of op st }
{
    match op {
        Op::Ld { addr, .. } => Request::Misses {
            kind: ArKind::ReadShared,
            addr,
            lock: false,
        },
        Op::Ldx { addr, .. } => Request::Misses {
            kind: ArKind::ReadShared,
            addr,
            lock: true,
        },
        Op::St { addr, .. } => owns(ArKind::ReadUnique, ArKind::CleanUnique, addr, st),
        Op::Stx { addr, .. } => Request::Reads {
            kind: ArKind::CleanUnique,
            addr,
            lock: true,
        },
        Op::Fill { addr, .. } => owns(ArKind::MakeUnique, ArKind::MakeUnique, addr, st),
        Op::Pf { addr, kind } => Request::Misses {
            kind,
            addr,
            lock: false,
        },
        Op::Wb { addr } => writes(AwKind::WriteBack, addr),
        Op::Wc { addr } => writes(AwKind::WriteClean, addr),
        Op::Ev { addr } => writes(AwKind::Evict, addr),
        Op::We { addr } => writes(AwKind::WriteEvict, addr),
        Op::Ro { addr } => gives_up_first(addr, st, reads(ArKind::ReadOnce, addr)),
        Op::Ci { addr } => gives_up_first(addr, st, reads(ArKind::CleanInvalid, addr)),
        Op::Mi { addr } => gives_up_first(addr, st, reads(ArKind::MakeInvalid, addr)),
        Op::Wu { addr, .. } => gives_up_first(addr, st, writes(AwKind::WriteUnique, addr)),
        Op::Wlu { addr, .. } => gives_up_first(addr, st, writes(AwKind::WriteLineUnique, addr)),
        Op::Cs { addr } => cleans_first(addr, st, reads(ArKind::CleanShared, addr)),
        Op::Rn { addr } => reads(ArKind::ReadNoSnoop, addr),
        Op::Wn { addr, .. } => writes(AwKind::WriteNoSnoop, addr),
        Op::Mb => Request::Barriers { bar: 1 },
        Op::Sb => Request::Barriers { bar: 3 },
        Op::Dvm { word } | Op::Sync { word } => reads(ArKind::DvmMessage, word),
        Op::Dvm2 { word, second } => Request::Messages { word, second },
    }
}
