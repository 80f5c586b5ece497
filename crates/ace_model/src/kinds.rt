//! The kinds of transactions and snoops, and what they have in common.

ghost use Rattle.std.specs.Prelude.{◌≡◌};
ghost use Rattle.ace_model.specs.Kinds.{beats_of, has_write_data, is_evict, is_line_read, is_line_snoop};
ghost use Rattle.ace_model.specs.Kinds.{is_line_write, is_lite_read, is_lite_write, is_make_unique};
ghost use Rattle.ace_model.specs.Kinds.{is_read_barrier, is_unique_write, is_update, is_write_barrier};
ghost use Rattle.ace_model.specs.Kinds.{may_be_exclusive};
ghost use Rattle.ace_model.specs.Transactions.{has_name, is_ace, is_exclusive_store, is_line, is_on};
ghost use Rattle.ace_model.specs.Transactions.{read_kind, write_kind};
ghost use Rattle.ace_model.specs.Barriers.{is_barrier_half};
ghost use Rattle.ace_model.specs.AddressRules.{gives_up};
ghost use Rattle.ace_model.specs.Progress.{evicts, updates_memory};
ghost use Rattle.ace_model.specs.Snoops.{snoops_a_line};

use crate::transactions::Transaction;
use ace_codes::{ArKind, AwKind, SnoopKind, read_ac, read_ar, read_aw};
use ace_event::{Channel, Header, PortKind, kind_of};

/// The port is an ACE port of the header.
pub fn is_ace(header: &Header, port: u8) -> bool
    ensures { result ≡ is_ace header.now port }
{
    matches!(kind_of(header, port), Some(PortKind::Ace))
}

/// The transaction is the port's, on the channel and under the identifier.
pub fn has_name(transaction: &Transaction, port: u8, chan: Channel, id: u8) -> bool
    ensures { result ≡ has_name transaction.now port chan id }
{
    transaction.port == port && transaction.chan == chan && transaction.id == id
}

/// The kind of a transaction, if it is a read.
#[inline(always)]
pub fn read_kind(transaction: &Transaction) -> Option<ArKind>
    ensures { result ≡ read_kind transaction.now }
{
    match transaction.chan {
        Channel::Read => read_ar(transaction.snoop, transaction.dom, transaction.bar),
        Channel::Write => None,
    }
}

/// The kind of a transaction, if it is a write.
#[inline(always)]
pub fn write_kind(transaction: &Transaction) -> Option<AwKind>
    ensures { result ≡ write_kind transaction.now }
{
    match transaction.chan {
        Channel::Read => None,
        Channel::Write => read_aw(transaction.snoop, transaction.dom, transaction.bar),
    }
}

/// A line transaction: neither a barrier nor DVM.
pub fn is_line(transaction: &Transaction) -> bool
    ensures { result ≡ is_line transaction.now }
{
    read_kind(transaction).is_some_and(is_line_read)
        || write_kind(transaction).is_some_and(is_line_write)
}

/// A line transaction on this line.
pub fn is_on(transaction: &Transaction, line: u32) -> bool
    ensures { result ≡ is_on transaction.now line }
{
    transaction.addr == line && is_line(transaction)
}

/// An exclusive store: a CleanUnique with lock 1 (Arm IHI 0022E, C9).
#[inline(always)]
pub fn is_exclusive_store(x: &Transaction) -> bool
    ensures { result ≡ is_exclusive_store x.now }
{
    x.lock && matches!(read_kind(x), Some(ArKind::CleanUnique))
}

/// Half of a barrier.
#[tactic(auto, using(crate::proofs::BarrierBars::no_half))]
pub fn is_barrier_half(transaction: &Transaction) -> bool
    ensures { result ≡ is_barrier_half transaction.now }
{
    // Few transactions have one of the bars of barriers, so most need no look at the rest.
    match transaction.bar {
        1 | 3 => read_kind(transaction).is_some_and(is_read_barrier)
            || write_kind(transaction).is_some_and(is_write_barrier),
        _ => false,
    }
}

pub fn is_line_read(kind: ArKind) -> bool
    ensures { result ≡ is_line_read kind }
{
    !matches!(
        kind,
        ArKind::Barrier | ArKind::DvmComplete | ArKind::DvmMessage
    )
}

pub fn is_line_write(kind: AwKind) -> bool
    ensures { result ≡ is_line_write kind }
{
    !matches!(kind, AwKind::Barrier)
}

fn is_read_barrier(kind: ArKind) -> bool
    ensures { result ≡ is_read_barrier kind }
{
    matches!(kind, ArKind::Barrier)
}

fn is_write_barrier(kind: AwKind) -> bool
    ensures { result ≡ is_write_barrier kind }
{
    matches!(kind, AwKind::Barrier)
}

/// How many R transfers a read has.
pub fn beats_of(kind: ArKind) -> u8
    ensures { result ≡ beats_of kind }
{
    match kind {
        ArKind::ReadNoSnoop
        | ArKind::ReadOnce
        | ArKind::ReadShared
        | ArKind::ReadClean
        | ArKind::ReadNotSharedDirty
        | ArKind::ReadUnique => 4,
        _ => 1,
    }
}

/// A memory update.
pub fn is_update(kind: AwKind) -> bool
    ensures { result ≡ is_update kind }
{
    matches!(
        kind,
        AwKind::WriteBack | AwKind::WriteClean | AwKind::WriteEvict
    )
}

pub fn is_evict(kind: AwKind) -> bool
    ensures { result ≡ is_evict kind }
{
    matches!(kind, AwKind::Evict)
}

/// A write of this kind has data: all but Evicts and barriers have.
pub fn has_write_data(kind: AwKind) -> bool
    ensures { result ≡ has_write_data kind }
{
    !matches!(kind, AwKind::Evict | AwKind::Barrier)
}

/// The transaction is a memory update.
pub fn updates_memory(transaction: &Transaction) -> bool
    ensures { result ≡ updates_memory transaction.now }
{
    write_kind(transaction).is_some_and(is_update)
}

/// The transaction is an Evict.
pub fn evicts(transaction: &Transaction) -> bool
    ensures { result ≡ evicts transaction.now }
{
    write_kind(transaction).is_some_and(is_evict)
}

/// A memory update or an Evict.
pub fn gives_up(kind: AwKind) -> bool
    ensures { result ≡ gives_up kind }
{
    is_update(kind) || is_evict(kind)
}

/// A write of a shared line that bypasses the caches of its port.
pub fn is_unique_write(kind: AwKind) -> bool
    ensures { result ≡ is_unique_write kind }
{
    matches!(kind, AwKind::WriteUnique | AwKind::WriteLineUnique)
}

/// What an ACE-Lite port may issue.
pub fn is_lite_read(kind: ArKind) -> bool
    ensures { result ≡ is_lite_read kind }
{
    matches!(
        kind,
        ArKind::ReadNoSnoop
            | ArKind::ReadOnce
            | ArKind::CleanShared
            | ArKind::CleanInvalid
            | ArKind::MakeInvalid
            | ArKind::Barrier
    )
}

pub fn is_lite_write(kind: AwKind) -> bool
    ensures { result ≡ is_lite_write kind }
{
    matches!(
        kind,
        AwKind::WriteNoSnoop | AwKind::WriteUnique | AwKind::WriteLineUnique | AwKind::Barrier
    )
}

/// A read that may be exclusive.
pub fn may_be_exclusive(kind: ArKind) -> bool
    ensures { result ≡ may_be_exclusive kind }
{
    matches!(
        kind,
        ArKind::ReadShared | ArKind::ReadClean | ArKind::CleanUnique
    )
}

pub fn is_make_unique(kind: ArKind) -> bool
    ensures { result ≡ is_make_unique kind }
{
    matches!(kind, ArKind::MakeUnique)
}

pub fn is_line_snoop(kind: SnoopKind) -> bool
    ensures { result ≡ is_line_snoop kind }
{
    !matches!(kind, SnoopKind::DvmComplete | SnoopKind::DvmMessage)
}

/// The code is that of a line snoop.
pub fn snoops_a_line(snoop: u8) -> bool
    ensures { result ≡ snoops_a_line snoop }
{
    read_ac(snoop).is_some_and(is_line_snoop)
}
