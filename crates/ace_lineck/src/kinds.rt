//! The kinds of transactions, and what they have in common: which take a grant, and what they cause
//! and take under it.

ghost use Rattle.std.specs.Prelude.{◌≡◌};
ghost use Rattle.ace_model.specs.Copies.{is_line_read_transaction};
ghost use Rattle.ace_model.specs.Kinds.{is_no_snoop_read, is_no_snoop_write, is_make_unique, reads_a_line, is_line_read, is_granted_write, takes_passed_data};
ghost use Rattle.ace_model.specs.SnoopRules.{has_snoop_code};
ghost use Rattle.ace_model.specs.Trace.{is_some_and};
ghost use Rattle.ace_model.specs.Transactions.{read_kind, takes_grant, snoop_of};

use ace_codes::{ArKind, AwKind, SnoopKind, ac_code};
use ace_model::Transaction;
use ace_model::kinds::{read_kind, write_kind};
use ace_tables::{snoop_of_read, snoop_of_write};

#[inline(always)]
pub fn is_no_snoop_read(kind: ArKind) -> bool
    ensures { result ≡ is_no_snoop_read kind }
{
    matches!(kind, ArKind::ReadNoSnoop)
}

#[inline(always)]
pub fn is_no_snoop_write(kind: AwKind) -> bool
    ensures { result ≡ is_no_snoop_write kind }
{
    matches!(kind, AwKind::WriteNoSnoop)
}

#[inline(always)]
pub fn reads_a_line(kind: ArKind) -> bool
    ensures { result ≡ reads_a_line kind }
{
    matches!(
        kind,
        ArKind::ReadNoSnoop
            | ArKind::ReadOnce
            | ArKind::ReadShared
            | ArKind::ReadClean
            | ArKind::ReadNotSharedDirty
            | ArKind::ReadUnique
    )
}

/// A read of a line, of four beats.
#[inline(always)]
pub fn is_line_read_transaction(x: &Transaction) -> bool
    ensures { result ≡ is_line_read_transaction x.now }
{
    read_kind(x).is_some_and(reads_a_line)
}

#[inline(always)]
pub fn is_make_unique_kind(kind: ArKind) -> bool
    ensures { result ≡ is_make_unique kind }
{
    matches!(kind, ArKind::MakeUnique)
}

/// A MakeUnique.
#[inline(always)]
pub fn is_make_unique(x: &Transaction) -> bool
    ensures { result ≡ is_some_and (read_kind x.now) is_make_unique }
{
    read_kind(x).is_some_and(is_make_unique_kind)
}

#[inline(always)]
fn is_line_read(kind: ArKind) -> bool
    ensures { result ≡ is_line_read kind }
{
    !matches!(
        kind,
        ArKind::Barrier | ArKind::DvmComplete | ArKind::DvmMessage
    )
}

#[inline(always)]
fn is_granted_write(kind: AwKind) -> bool
    ensures { result ≡ is_granted_write kind }
{
    matches!(
        kind,
        AwKind::WriteNoSnoop | AwKind::WriteUnique | AwKind::WriteLineUnique
    )
}

/// It is of a kind that is granted its line.
#[inline(always)]
pub fn takes_grant(x: &Transaction) -> bool
    ensures { result ≡ takes_grant x.now }
{
    read_kind(x).is_some_and(is_line_read) || write_kind(x).is_some_and(is_granted_write)
}

/// The line snoop that the transaction causes.
#[inline(always)]
pub fn snoop_of(x: &Transaction) -> Option<SnoopKind>
    ensures { result ≡ snoop_of x.now }
{
    match (read_kind(x), write_kind(x)) {
        (Some(kind), _) => snoop_of_read(kind),
        (None, Some(kind)) => snoop_of_write(kind),
        (None, None) => None,
    }
}

/// The snoop of the transaction has this code.
#[inline(always)]
pub fn has_snoop_code(x: &Transaction, snoop: u8) -> bool
    ensures { result ≡ has_snoop_code x.now snoop }
{
    match snoop_of(x) {
        None => false,
        Some(kind) => ac_code(kind) == snoop,
    }
}

/// A read of this kind may take the dirty data that a snooped port passes on.
#[inline(always)]
pub fn is_taker(kind: ArKind) -> bool
    ensures { result ≡ takes_passed_data kind }
{
    matches!(
        kind,
        ArKind::ReadShared | ArKind::ReadNotSharedDirty | ArKind::ReadUnique
    )
}
