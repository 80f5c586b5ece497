//! The DVM messages that the ports issue.

ghost use Rattle.std.specs.Prelude.{◌≡◌, Some};
ghost use Rattle.ace_sysck.specs.Messages.{is_new_sync, part_issued, part_completed, told_complete, awaits_complete, is_in_order, is_at};
ghost use Rattle.ace_model.specs.Messages.{waits_after};
ghost use Rattle.ace_model.specs.declared.transactions.Transaction.{Transaction};

use crate::entries::{entry_or, set_entry};
use crate::words::{has_second, is_message_word, is_sync_word};
use ace_model::Transaction;
use std::alloc::{AllocError, Global};

/// What is kept of the messages that one port issues (Arm IHI 0022E, C12).
#[derive(Clone, Copy, Debug, PartialEq, Eq)]
pub struct PortMessages {
    /// Its last part, where it is a first part that a second follows.
    pub first: Option<Transaction>,
    /// Its last Sync.
    pub sync: Option<Transaction>,
    /// That Sync is complete. It says nothing where there is none.
    pub sync_done: bool,
    /// An AC DVM Complete has come since that Sync.
    pub sync_completed: bool,
}

/// Of a port that has issued none.
const SILENT: PortMessages = PortMessages {
    first: None,
    sync: None,
    sync_done: false,
    sync_completed: false,
};

/// For each port of the header, what is kept of the messages that it issues.
#[derive(Drop)]
pub struct Messages {
    ports: Vec<PortMessages>,
}

/// The part is a Sync, after what the port has issued.
pub fn is_new_sync(kept: &PortMessages, x: &Transaction) -> bool
    ensures { result ≡ is_new_sync kept.now x.now }
{
    is_sync_word(x.addr) && kept.first.is_none()
}

/// The first part that waits for its second once this part is issued.
fn waits_after(first: Option<Transaction>, x: Transaction) -> Option<Transaction>
    ensures { result ≡ waits_after first (Some x) }
{
    match first {
        Some(_) => None,
        None => { if has_second(x.addr) { Some(x) } else { None } }
    }
}

/// What is kept once the port has issued the part.
fn part_issued(kept: PortMessages, x: Transaction) -> PortMessages
    ensures { result ≡ part_issued kept x }
{
    if is_new_sync(&kept, &x) {
        PortMessages {
            first: waits_after(kept.first, x),
            sync: Some(x),
            sync_done: false,
            sync_completed: false,
        }
    } else {
        PortMessages {
            first: waits_after(kept.first, x),
            ..kept
        }
    }
}

/// It is the transaction at the place.
pub fn is_at(x: Option<Transaction>, place: usize) -> bool
    ensures { result ≡ is_at x place }
{
    match x {
        None => false,
        Some(y) => place == y.place,
    }
}

/// The port may issue a part with these fields.
fn is_in_order(kept: &PortMessages, addr: u32, dom: u8, bar: u8) -> bool
    ensures { (x : Transaction) → x.addr ≡ addr → x.dom ≡ dom → x.bar ≡ bar
        → result ≡ is_in_order kept.now x }
{
    match kept.first {
        Some(first) => dom == first.dom && bar == first.bar,
        None => {
            is_message_word(addr)
                && (!(is_sync_word(addr) && kept.sync.is_some()) || kept.sync_completed)
        }
    }
}

impl Messages {
    ghost use Rattle.std.specs.Prelude.{◌≡◌, ◌<◌, [], IfOk, slice_set, slice_index_or, Some};
    ghost use Rattle.ace_event.specs.declared.header.Header.{Header};
    ghost use Rattle.ace_model.specs.AddressRules.{is_part_in_order};
    ghost use Rattle.ace_model.specs.Messages.{first_waiting};
    ghost use Rattle.ace_portck.specs.Targets.{Recording, after};
    ghost use Rattle.ace_sysck.specs.Messages.{MessagesStand, silent, PortMessagesStand};

    /// What is kept after the empty trace, of so many ports.
    #[tactic(auto, using(crate::proofs::MessageSteps::messages_fresh))]
    pub fn new(alloc: Global, ports: u8) -> Result<Messages, AllocError>
        ensures { IfOk result (λ s. (h : Header) → h.ports ≡ ports
            → MessagesStand (record { header = h; past = [] }) s) }
    {
        let ports = vec![in alloc; SILENT; usize::from(ports)]?;
        Ok(Messages { ports })
    }

    /// What is kept of the messages of the port.
    pub fn of(&self, port: u8) -> PortMessages
        ensures kept { result ≡ slice_index_or self.now.ports.items port silent }
        ensures stands { (r : Recording) → MessagesStand r self.now
            → PortMessagesStand r.past port result }
    {
        entry_or(&self.ports, port, SILENT)
    }

    /// The port's transaction at the place is complete. It is looked at only where the port has
    /// issued a Sync.
    pub(crate) fn complete(&mut self, port: u8, place: usize)
        ensures { self.new.ports.items ≡ slice_set self.old.ports.items port
            (part_completed (slice_index_or self.old.ports.items port silent) place) }
    {
        let p = port as usize;
        if p < self.ports.len() {
            if is_at(self.ports[p].sync, place) {
                self.ports[p].sync_done = true;
            }
        }
    }

    /// The port has a Sync that is complete and has had no AC DVM Complete.
    #[inline(always)]
    pub(crate) fn awaits_complete(&self, port: u8) -> bool
        ensures { result ≡ awaits_complete (slice_index_or self.now.ports.items port silent) }
    {
        let kept = self.of(port);
        kept.sync.is_some() && kept.sync_done && !kept.sync_completed
    }

    /// The port's last Sync has had its AC DVM Complete.
    #[inline(always)]
    pub(crate) fn tell_complete(&mut self, port: u8)
        ensures { self.new.ports.items ≡ slice_set self.old.ports.items port
            (told_complete (slice_index_or self.old.ports.items port silent)) }
    {
        let p = port as usize;
        if p < self.ports.len() {
            self.ports[p].sync_completed = true;
        }
    }

    /// Of K9, where the port, one of the header, issues a part of a message with these fields: it
    /// follows the part that the port issued before it.
    #[inline(always)]
    pub(crate) fn lets_begin(&self, port: u8, addr: u32, dom: u8, bar: u8) -> bool
        ensures { (r : Recording) (x : Transaction) → MessagesStand r self.now
            → port < r.header.ports → x.addr ≡ addr → x.dom ≡ dom → x.bar ≡ bar
            → x.port ≡ port → result ≡ is_part_in_order r.past x (first_waiting r.past x.port) }
    {
        match self.ports.get(usize::from(port)) {
            None => false,
            Some(kept) => is_in_order(kept, addr, dom, bar),
        }
    }

    /// A port issues the part.
    #[inline(always)]
    pub(crate) fn issue(&mut self, x: Transaction)
        ensures { self.new.ports.items ≡ slice_set self.old.ports.items x.port
            (part_issued (slice_index_or self.old.ports.items x.port silent) x) }
    {
        let kept = part_issued(self.of(x.port), x);
        set_entry(&mut self.ports, x.port, kept);
    }
}
