//! The Syncs that reach the ports, and the DVM Completes of the ports.

ghost use Rattle.std.specs.Prelude.{◌≡◌, nat_le, slice_index_or};
ghost use Rattle.ace_sysck.specs.Syncs.{next_count, reached_by, one_answered, one_completed};

use crate::entries::{entry_or, set_entry};
use crate::inboxes::Inboxes;
use crate::messages::{PortMessages, is_new_sync};
use ace_event::Header;
use ace_model::Transaction;
use ace_model::kinds::is_ace;
use std::alloc::{AllocError, Global};

/// What is kept of the Syncs of other ports that reach one port (Arm IHI 0022E, C12).
#[derive(Clone, Copy, Debug, PartialEq, Eq)]
pub struct PortSyncs {
    /// How many Syncs are for the port.
    pub reached: usize,
    /// How many of them it has answered.
    pub answered: usize,
    /// How many DVM Completes it has issued.
    pub completes: usize,
    /// For each port, which of the Syncs for this port its last Sync is, from 1.
    pub numbers: [usize; 32],
}

/// Of a port that none has reached.
const UNTOLD: PortSyncs = PortSyncs {
    reached: 0,
    answered: 0,
    completes: 0,
    numbers: [0; 32],
};

/// For each port of the header, what is kept of the Syncs that reach it.
#[derive(Drop)]
pub struct Syncs {
    ports: Vec<PortSyncs>,
}

/// One more, up to the greatest number.
fn next_count(n: usize) -> usize
    ensures { result ≡ next_count n }
{
    n.saturating_add(1)
}

/// What is kept of a port once a Sync of the sender is for it; it isn't, where this is the sender.
fn reached_by(kept: PortSyncs, sender: u8, own: bool) -> PortSyncs
    ensures { result ≡ reached_by kept sender own }
{
    let number = next_count(kept.reached);
    let mut numbers = kept.numbers;
    let p = sender as usize;
    if p < 32 {
        numbers[p] = number;
    }
    PortSyncs {
        reached: if own { kept.reached } else { number },
        numbers,
        ..kept
    }
}

fn one_completed(kept: PortSyncs) -> PortSyncs
    ensures { result ≡ one_completed kept }
{
    PortSyncs {
        completes: next_count(kept.completes),
        ..kept
    }
}

/// The port of which this is kept has issued its DVM Complete for the last Sync of the sender.
#[inline(always)]
fn has_come_to(kept: &PortSyncs, sender: u8) -> bool
    ensures { result ≡ nat_le (slice_index_or kept.now.numbers sender 0) kept.now.completes }
{
    let p = sender as usize;
    let number = if p < 32 { kept.numbers[p] } else { 0 };
    number <= kept.completes
}

impl Syncs {
    ghost use Rattle.std.specs.Prelude.{◌≡◌, ℕ, [], ◌==◌, true, Some, IfOk, slice_set, slice_index_or, nat_le, nat_lt};
    ghost use Rattle.ace_codes.specs.declared.state.LineState.{LineState};
    ghost use Rattle.ace_event.specs.declared.event.Event.{Event};
    ghost use Rattle.ace_event.specs.declared.event.Event.TheVariants.{Cr};
    ghost use Rattle.ace_event.specs.declared.header.Header.{Header};
    ghost use Rattle.ace_portck.specs.Target.{Target};
    ghost use Rattle.ace_portck.specs.Targets.{Recording, after};
    ghost use Rattle.ace_model.specs.Messages.{is_message_part};
    ghost use Rattle.ace_sysck.specs.Events.{begun_in};
    ghost use Rattle.ace_sysck.specs.Inboxes.{InboxesStand, answers_message};
    ghost use Rattle.ace_sysck.specs.Messages.{PortMessagesStand};
    ghost use Rattle.ace_sysck.specs.Steps.{IsStep};
    ghost use Rattle.ace_sysck.specs.Syncs.{SyncsStand, ReachesAll, completes_all, one_completed, untold};

    /// What is kept after the empty trace, of so many ports.
    #[tactic(auto, using(crate::proofs::SyncSteps::syncs_fresh))]
    pub fn new(alloc: Global, ports: u8) -> Result<Syncs, AllocError>
        ensures { IfOk result (λ s. (h : Header) → h.ports ≡ ports
            → SyncsStand (record { header = h; past = [] }) s) }
    {
        let ports = vec![in alloc; UNTOLD; usize::from(ports)]?;
        Ok(Syncs { ports })
    }

    /// The port has answered more Syncs than it has issued DVM Completes.
    pub(crate) fn owes_completion(&self, port: u8) -> bool
        ensures { result ≡ nat_lt (slice_index_or self.now.ports.items port untold).completes
            (slice_index_or self.now.ports.items port untold).answered }
    {
        let kept = entry_or(&self.ports, port, UNTOLD);
        kept.completes < kept.answered
    }

    /// The port has issued a DVM Complete.
    pub(crate) fn complete(&mut self, port: u8)
        ensures { self.new.ports.items ≡ slice_set self.old.ports.items port
            (one_completed (slice_index_or self.old.ports.items port untold)) }
    {
        let more = one_completed(entry_or(&self.ports, port, UNTOLD));
        set_entry(&mut self.ports, port, more);
    }

    /// Every other ACE port has issued its DVM Complete for the port's last Sync.
    pub fn completes_all(&self, header: &Header, port: u8) -> bool
        ensures { result ≡ completes_all header.now self.now port }
    {
        let mut all = true;
        for q in 0..header.ports {
            if all {
                all = !(is_ace(header, q) && q != port) || self.has_completed(q, port);
            }
        }
        all
    }

    /// The port has issued its DVM Complete for the last Sync of the sender.
    #[inline(always)]
    fn has_completed(&self, q: u8, sender: u8) -> bool
        ensures { result ≡ nat_le (slice_index_or
            (slice_index_or self.now.ports.items q untold).numbers sender 0)
            (slice_index_or self.now.ports.items q untold).completes }
    {
        let q = q as usize;
        if q < self.ports.len() {
            has_come_to(&self.ports[q], sender)
        } else {
            has_come_to(&UNTOLD, sender)
        }
    }

    /// The sender has issued a Sync.
    fn reach_all(&mut self, sender: u8)
        ensures { ReachesAll sender self.old self.new }
    {
        for q in 0..self.ports.len() {
            let kept = reached_by(self.ports[q], sender, q == sender as usize);
            self.ports[q] = kept;
        }
    }

    /// The port has answered one more Sync.
    #[inline(always)]
    fn count_answer(&mut self, port: u8)
        ensures { self.new.ports.items ≡ slice_set self.old.ports.items port
            (one_answered (slice_index_or self.old.ports.items port untold)) }
    {
        let p = port as usize;
        if p < self.ports.len() {
            let kept = &mut self.ports[p];
            kept.answered = next_count(kept.answered);
        }
    }

    /// The port answers an AC DVM Message. The inboxes are those before it.
    #[inline(always)]
    #[tactic(auto, using(crate::proofs::SyncSteps::syncs_answered))]
    pub fn answer(&mut self, port: u8, inboxes: &Inboxes)
        ensures { (r : Recording) (resp : ℕ) (st : LineState) (t : Target)
            → IsStep r (Cr port resp st) t → answers_message t ≡ true
            → InboxesStand r inboxes.now → SyncsStand r self.old
            → SyncsStand (after r (Cr port resp st)) self.new }
    {
        if inboxes.answers_sync(port) {
            self.count_answer(port);
        }
    }

    /// A port issues the part. `kept` is what is kept of the messages of the port before it.
    #[inline(always)]
    #[tactic(auto, using(crate::proofs::SyncSteps::syncs_begun))]
    pub(crate) fn issue(&mut self, kept: &PortMessages, x: &Transaction)
        ensures { (r : Recording) (e : Event) (t : Target) → IsStep r e t
            → begun_in e t ≡ Some x.now → is_message_part x.now ≡ true
            → PortMessagesStand r.past x.now.port kept.now → SyncsStand r self.old
            → SyncsStand (after r e) self.new }
    {
        if is_new_sync(kept, x) {
            self.reach_all(x.port);
        }
    }
}
