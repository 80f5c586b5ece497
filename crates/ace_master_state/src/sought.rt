//! What is looked for among the transactions that a port has issued for its next operation.

ghost use Rattle.std.specs.Prelude.{◌≡◌, ℕ};
ghost use Rattle.std.specs.List.{list_any};
ghost use Rattle.ace_codes.specs.Places.{is_barrier, is_in, is_normal, is_shareable, is_unshared};
ghost use Rattle.ace_codes.specs.Reads.{read_place};
ghost use Rattle.ace_codes.specs.Writes.{write_place};
ghost use Rattle.ace_model.specs.Plans.{Plan};
ghost use Rattle.ace_model.specs.Trace.{Trace};
ghost use Rattle.ace_model.specs.Transactions.{is_outstanding};
ghost use Rattle.ace_runs.specs.Segments.{is_read_of, is_write_of, segment};
ghost use Rattle.ace_master_state.specs.Kept.{KeptStands};
ghost use Rattle.ace_master_state.specs.Sought.{is_sought};

use crate::Kept;
use crate::acts::is_act_transaction;
use ace_codes::{ArKind, AwKind, ar_code, aw_code};
use ace_event::Channel;
use ace_model::Transaction;
use ace_model::kinds::{is_on, updates_memory};

/// What is looked for.
#[derive(Clone, Copy, Debug, PartialEq, Eq)]
pub enum Sought {
    /// An act that is outstanding.
    OpenAct,
    /// A memory update that is outstanding.
    OpenUpdate,
    /// A read of the kind on the line that is no longer outstanding.
    EndedRead { kind: ArKind, addr: u32 },
    /// A read of the line.
    Read { addr: u32 },
    /// A write of the kind on the line.
    Write { kind: AwKind, addr: u32 },
}

fn is_normal(bar: u8) -> bool
    ensures { result ≡ is_normal bar }
{
    bar == 0 || bar == 2
}

fn is_barrier(bar: u8) -> bool
    ensures { result ≡ is_barrier bar }
{
    bar == 1 || bar == 3
}

fn is_unshared(domain: u8) -> bool
    ensures { result ≡ is_unshared domain }
{
    domain == 0 || domain == 3
}

fn is_shareable(domain: u8) -> bool
    ensures { result ≡ is_shareable domain }
{
    domain == 1 || domain == 2
}

/// A read of the kind stands with this bar in this domain.
fn is_read_in(kind: ArKind, domain: u8, bar: u8) -> bool
    ensures { result ≡ is_in (read_place kind) domain bar }
{
    match kind {
        ArKind::Barrier => is_barrier(bar) && (is_unshared(domain) || is_shareable(domain)),
        ArKind::ReadNoSnoop => is_normal(bar) && is_unshared(domain),
        _ => is_normal(bar) && is_shareable(domain),
    }
}

/// A write of the kind stands with this bar in this domain.
fn is_write_in(kind: AwKind, domain: u8, bar: u8) -> bool
    ensures { result ≡ is_in (write_place kind) domain bar }
{
    match kind {
        AwKind::Barrier => is_barrier(bar) && (is_unshared(domain) || is_shareable(domain)),
        AwKind::WriteNoSnoop => is_normal(bar) && is_unshared(domain),
        _ => is_normal(bar) && is_shareable(domain),
    }
}

/// The transaction is a read of the kind on the line.
fn is_read_of(kind: ArKind, addr: u32, x: &Transaction) -> bool
    ensures { result ≡ is_read_of kind addr x.now }
{
    x.chan == Channel::Read
        && is_read_in(kind, x.dom, x.bar)
        && x.snoop == ar_code(kind)
        && x.addr == addr
}

/// The transaction is a write of the kind on the line.
fn is_write_of(kind: AwKind, addr: u32, x: &Transaction) -> bool
    ensures { result ≡ is_write_of kind addr x.now }
{
    x.chan == Channel::Write
        && is_write_in(kind, x.dom, x.bar)
        && x.snoop == aw_code(kind)
        && x.addr == addr
}

impl Kept {
    /// The port's transaction is outstanding.
    fn is_outstanding(&self, x: &Transaction) -> bool
        ensures { (plan : Plan) (past : Trace) (p : ℕ) → KeptStands plan past p self.now
            → x.now.port ≡ p → result ≡ is_outstanding plan.header past x.now }
    {
        match self.port.named(x.chan, x.id) {
            Some(y) => y.transaction.place == x.place,
            None => false,
        }
    }

    /// The port's transaction is what is looked for.
    fn is_sought(&self, sought: Sought, x: &Transaction) -> bool
        ensures { (plan : Plan) (past : Trace) (p : ℕ) → KeptStands plan past p self.now
            → x.now.port ≡ p → result ≡ is_sought plan.header past sought x.now }
    {
        match sought {
            Sought::OpenAct => is_act_transaction(x) && self.is_outstanding(x),
            Sought::OpenUpdate => updates_memory(x) && self.is_outstanding(x),
            Sought::EndedRead { kind, addr } => is_read_of(kind, addr, x)
                && !self.is_outstanding(x),
            Sought::Read { addr } => x.chan == Channel::Read && is_on(x, addr),
            Sought::Write { kind, addr } => is_write_of(kind, addr, x),
        }
    }

    /// The port has issued such a transaction for its next operation.
    pub fn has(&self, sought: Sought) -> bool
        ensures { (plan : Plan) (past : Trace) (p : ℕ) → KeptStands plan past p self.now
            → result ≡ list_any (is_sought plan.header past sought) (segment past p) }
    {
        let mut found = false;
        for x in self.segment.issued() {
            if self.is_sought(sought, x) {
                found = true;
            }
        }
        found
    }
}
