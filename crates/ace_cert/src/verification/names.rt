//! The transactions that ports issued last under their identifiers.

ghost use Rattle.std.specs.Prelude.{◌≡◌, ◌<◌, ℕ, OnOk};
ghost use Rattle.std.specs.Ordering.{nat_cmp};
ghost use Rattle.std.specs.BTreeMap.{get};
ghost use Rattle.ace_model.specs.Transactions.{issued};
ghost use Rattle.ace_cert.specs.Walk.{read_after, under, write_after};

use super::tables::{look_up, put};
use ace_event::{Channel, Event};
use ace_io::NoMemory;
use ace_model::Transaction;
use std::collections::BTreeMap;

/// A read, how many transfers it has had, and the number of its first G.
#[derive(Clone, Copy)]
pub struct Reading {
    pub transaction: Transaction,
    pub transfers: u32,
    pub granted: Option<u32>,
}

/// A write, and how many writes with data its port had issued before it.
#[derive(Clone, Copy)]
pub struct Writing {
    pub transaction: Transaction,
    pub earlier: u32,
}

/// The key of the port's identifier.
pub(super) fn under(port: u8, id: u8) -> u64
    ensures { result ≡ under port id }
{
    u64::from(port) * 256 + u64::from(id)
}

/// The transaction that the event issues, where so many events came before it.
pub(super) fn issued(place: usize, event: &Event) -> Option<Transaction>
    ensures { result ≡ issued place event.now }
{
    match *event {
        Event::Ar {
            port,
            id,
            addr,
            snoop,
            dom,
            bar,
            lock,
        } => Some(Transaction {
            place,
            port,
            chan: Channel::Read,
            id,
            addr,
            snoop,
            dom,
            bar,
            lock,
        }),
        Event::Aw {
            port,
            id,
            addr,
            snoop,
            dom,
            bar,
        } => Some(Transaction {
            place,
            port,
            chan: Channel::Write,
            id,
            addr,
            snoop,
            dom,
            bar,
            lock: false,
        }),
        _ => None,
    }
}

/// Hears the event as one of reads, with so many events before it.
pub(super) fn hear_reads(
    reads: &mut BTreeMap<u64, Reading>,
    place: usize,
    event: &Event,
) -> Result<(), NoMemory>
    requires { place < 1048576 }
    ensures { OnOk result ((k : ℕ) → get nat_cmp reads.new k
        ≡ read_after place event.now k (get nat_cmp reads.old k)) }
{
    match *event {
        Event::Ar { port, id, .. } => match issued(place, event) {
            Some(transaction) => {
                let read = Reading {
                    transaction,
                    transfers: 0,
                    granted: None,
                };
                put(reads, under(port, id), read)
            }
            None => Ok(()),
        },
        Event::R { port, id, .. } => match look_up(reads, under(port, id)) {
            Some(read) => {
                let transfers = read.transfers.saturating_add(1);
                put(reads, under(port, id), Reading { transfers, ..read })
            }
            None => Ok(()),
        },
        Event::G {
            port,
            chan: Channel::Read,
            id,
        } => match look_up(reads, under(port, id)) {
            Some(read) => {
                let granted = Some(read.granted.unwrap_or(place as u32 + 1));
                put(reads, under(port, id), Reading { granted, ..read })
            }
            None => Ok(()),
        },
        _ => Ok(()),
    }
}

/// Hears the event as one of writes, with so many events before it, where its port has issued so
/// many writes with data.
pub(super) fn hear_writes(
    writes: &mut BTreeMap<u64, Writing>,
    place: usize,
    earlier: u32,
    event: &Event,
) -> Result<(), NoMemory>
    ensures { OnOk result ((k : ℕ) → get nat_cmp writes.new k
        ≡ write_after place earlier event.now k (get nat_cmp writes.old k)) }
{
    match *event {
        Event::Aw { port, id, .. } => match issued(place, event) {
            Some(transaction) => {
                let write = Writing {
                    transaction,
                    earlier,
                };
                put(writes, under(port, id), write)
            }
            None => Ok(()),
        },
        _ => Ok(()),
    }
}
