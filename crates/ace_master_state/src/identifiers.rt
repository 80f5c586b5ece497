//! The identifiers that the outstanding transactions of a port have.

ghost use Rattle.std.specs.Prelude.{◌≡◌, ◌<◌, ◌∷◌, ◌==◌, ◌&&◌, ◌||◌, ℕ, [], None, is_none, true, false, not};
ghost use Rattle.ace_event.specs.declared.event.Channel.TheVariants.{Read, Write};
ghost use Rattle.ace_event.specs.declared.header.Header.{Header};
ghost use Rattle.ace_model.specs.Accepted.{IsAccepted};
ghost use Rattle.ace_model.specs.Trace.{Trace, is_some_and};
ghost use Rattle.ace_model.specs.Transactions.{ended, is_ace};
ghost use Rattle.ace_portck.specs.OnePort.{OnePortStands};
ghost use Rattle.ace_runs.specs.Requests.{free_on, free_on_both, identifiers, is_free, least_below};
ghost use Rattle.ace_runs.specs.Segments.{is_at_port};
ghost use Rattle.ace_master_state.specs.Identifiers.{AreTaken, IdentifiersStand, has};

use crate::identifier_set::IdentifierSet;
use ace_event::{Channel, Event};
use ace_portck::{OnePort, Progress};

/// The identifiers that the outstanding transactions of a port have on each channel.
#[derive(Clone, Copy)]
pub struct Identifiers {
    reads: IdentifierSet,
    writes: IdentifierSet,
}

/// The identifier of the transaction, if there is one, is none of these.
fn free(set: &mut IdentifierSet, ended: Option<Progress>)
    ensures { (i : ℕ) → i < 16
        → has set.new i ≡ (has set.old i && not (is_some_and ended (λ x. x.transaction.id == i))) }
{
    if let Some(x) = ended {
        set.remove(x.transaction.id);
    }
}

impl Identifiers {
    /// Those of a port of the empty trace: none.
    pub fn none() -> Identifiers
        ensures { (h : Header) (p : ℕ) → IdentifiersStand h [] p result }
    {
        Identifiers {
            reads: IdentifierSet::none(),
            writes: IdentifierSet::none(),
        }
    }

    /// Those on the channel.
    fn on(&self, chan: Channel) -> IdentifierSet
        ensures { (h : Header) (past : Trace) (p : ℕ) → IdentifiersStand h past p self.now
            → AreTaken h past p chan result }
    {
        match chan {
            Channel::Read => self.reads,
            Channel::Write => self.writes,
        }
    }

    /// The least identifier that is free on the channel.
    pub fn free_on(&self, chan: Channel) -> Option<u8>
        ensures { (h : Header) (past : Trace) (p : ℕ) → IdentifiersStand h past p self.now
            → result ≡ free_on h past p chan }
    {
        self.on(chan).least_other()
    }

    /// The least other identifier that is free on the channel.
    pub fn free_on_beside(&self, chan: Channel, taken: u8) -> Option<u8>
        ensures { (h : Header) (past : Trace) (p : ℕ) → IdentifiersStand h past p self.now
            → result ≡ least_below identifiers (λ i. not (taken == i) && is_free h past p chan i) }
    {
        let mut used = self.on(chan);
        used.add(taken);
        used.least_other()
    }

    /// The least identifier that is free on both channels.
    pub fn free_on_both(&self) -> Option<u8>
        ensures { (h : Header) (past : Trace) (p : ℕ) → IdentifiersStand h past p self.now
            → result ≡ free_on_both h past p }
    {
        self.reads.or(self.writes).least_other()
    }

    /// No identifier is free on one of the channels.
    pub fn is_used_up(&self) -> bool
        ensures { (h : Header) (past : Trace) (p : ℕ) → IdentifiersStand h past p self.now
            → result ≡ (is_none (free_on h past p Read) || is_none (free_on h past p Write)) }
    {
        self.free_on(Channel::Read).is_none() || self.free_on(Channel::Write).is_none()
    }

    /// Hears the next event of the trace, one of the port, which ends no transaction.
    fn begin(&mut self, event: &Event)
        ensures { (h : Header) (past : Trace) (p : ℕ) → is_at_port p event.now ≡ true
            → ended h past event.now ≡ None
            → IdentifiersStand h past p self.old
            → IdentifiersStand h (event.now ∷ past) p self.new }
    {
        match *event {
            Event::Ar { id, .. } => self.reads.add(id),
            Event::Aw { id, .. } => self.writes.add(id),
            _ => {}
        }
    }

    /// Hears the next event of the trace, which is one of the port, an ACE port. `port` is what is
    /// kept of it before the event.
    pub fn hear(&mut self, port: &OnePort, event: &Event)
        ensures { (h : Header) (past : Trace) (p : ℕ) → OnePortStands port.now h past p
            → is_ace h p ≡ true → is_at_port p event.now ≡ true
            → IdentifiersStand h past p self.old
            → IdentifiersStand h (event.now ∷ past) p self.new }
    {
        match *event {
            Event::Rk { .. } => free(&mut self.reads, port.acknowledged(Channel::Read)),
            Event::Wk { .. } => free(&mut self.writes, port.acknowledged(Channel::Write)),
            _ => self.begin(event),
        }
    }

    /// Hears the next event of the trace, which is one of the port, an ACE-Lite port.
    pub fn hear_lite(&mut self, event: &Event)
        ensures { (h : Header) (past : Trace) (p : ℕ) → IsAccepted h (event.now ∷ past)
            → is_ace h p ≡ false → is_at_port p event.now ≡ true
            → IdentifiersStand h past p self.old
            → IdentifiersStand h (event.now ∷ past) p self.new }
    {
        match *event {
            Event::R { id, last, .. } if last => self.reads.remove(id),
            Event::B { id, .. } => self.writes.remove(id),
            _ => self.begin(event),
        }
    }
}
