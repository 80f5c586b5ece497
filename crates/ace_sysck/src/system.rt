//! The rules that look at the system as a whole, over what is kept of it.

ghost use Rattle.std.specs.Prelude.{◌≡◌, Some};

use crate::barriers::{Barrier, Barriers, OpenPair};
use crate::inboxes::{Inboxes, Message};
use crate::messages::{Messages, PortMessages, is_at};
use crate::monitors::Monitors;
use crate::registrations::Registrations;
use crate::results::Results;
use crate::rules::is_okay;
use crate::syncs::Syncs;
use ace_event::Header;
use ace_io::NoMemory;
use ace_model::Transaction;
use std::alloc::Global;

/// The checker of the rules on barriers, DVM messages and exclusive transactions: what is kept of
/// each after a trace.
#[derive(Drop)]
pub struct SysCheck {
    pub(crate) header: Header,
    pub(crate) barriers: Barriers,
    pub(crate) monitors: Monitors,
    pub(crate) results: Results,
    pub(crate) registrations: Registrations,
    pub(crate) messages: Messages,
    pub(crate) inboxes: Inboxes,
    pub(crate) syncs: Syncs,
}

impl SysCheck {
    ghost use Rattle.std.specs.Prelude.{◌≡◌, [], ℕ, true, Some, IfOk};
    ghost use Rattle.std.specs.Option.{option_map};
    ghost use Rattle.ace_event.specs.Ports.{IsHeader};
    ghost use Rattle.ace_event.specs.declared.event.Channel.TheVariants.{Read};
    ghost use Rattle.ace_model.specs.declared.transactions.Transaction.{Transaction};
    ghost use Rattle.ace_model.specs.Exclusives.{has_failed, is_registered};
    ghost use Rattle.ace_model.specs.Messages.{is_message_part, is_other_ace};
    ghost use Rattle.ace_model.specs.Monitors.{is_monitored};
    ghost use Rattle.ace_model.specs.ReadRules.{is_exclusive_okay};
    ghost use Rattle.ace_model.specs.Transactions.{is_ace, outstanding};
    ghost use Rattle.ace_portck.specs.Targets.{Recording, after};
    ghost use Rattle.ace_sysck.specs.Barriers.{BarrierStands, TellsOpenPair};
    ghost use Rattle.ace_sysck.specs.declared.inboxes.Message.{Message as Next};
    ghost use Rattle.ace_sysck.specs.Inboxes.{next_message, was_forwarded};
    ghost use Rattle.ace_sysck.specs.Messages.{PortMessagesStand};
    ghost use Rattle.ace_sysck.specs.Registrations.{RegistrationsStand};
    ghost use Rattle.ace_sysck.specs.Stands.{Stands, IsRoomy};

    /// The checker of the empty trace under the header. There is no memory for it where there is
    /// none for its ports.
    pub fn new(alloc: Global, header: Header) -> Result<SysCheck, NoMemory>
        ensures { IfOk result
            (λ s. IsHeader header → Stands s (record { header = header; past = [] })) }
    {
        SysCheck::starting(alloc, header, Registrations::new(alloc))
    }

    /// The same, with room for so many lines: as long as no more are known, there is room for any
    /// event.
    pub fn with_room(alloc: Global, header: Header, lines: usize) -> Result<SysCheck, NoMemory>
        ensures stands { IfOk result
            (λ s. IsHeader header → Stands s (record { header = header; past = [] })) }
        ensures room { IfOk result (IsRoomy lines []) }
    {
        let Ok(registrations) = Registrations::with_room(alloc, lines) else {
            return Err(NoMemory);
        };
        SysCheck::starting(alloc, header, registrations)
    }

    /// The checker of the empty trace, with these registrations of it.
    fn starting(
        alloc: Global,
        header: Header,
        registrations: Registrations,
    ) -> Result<SysCheck, NoMemory>
        ensures stands { RegistrationsStand (record { header = header; past = [] }) registrations
            → IfOk result
            (λ s. IsHeader header → Stands s (record { header = header; past = [] })) }
        ensures registrations { IfOk result (λ s. s.registrations ≡ registrations) }
    {
        let Ok(barriers) = Barriers::new(alloc, header.ports) else {
            return Err(NoMemory);
        };
        let Ok(monitors) = Monitors::new(alloc, header.ports) else {
            return Err(NoMemory);
        };
        let Ok(results) = Results::new(alloc, header.ports) else {
            return Err(NoMemory);
        };
        let Ok(messages) = Messages::new(alloc, header.ports) else {
            return Err(NoMemory);
        };
        let Ok(inboxes) = Inboxes::new(alloc, &header) else {
            return Err(NoMemory);
        };
        let Ok(syncs) = Syncs::new(alloc, header.ports) else {
            return Err(NoMemory);
        };
        Ok(SysCheck {
            header,
            barriers,
            monitors,
            results,
            registrations,
            messages,
            inboxes,
            syncs,
        })
    }

    /// What the port has of its newest barrier, while that isn't complete.
    pub fn barrier(&self, port: u8) -> Barrier
        ensures { (r : Recording) → Stands self.now r → BarrierStands r.past port result }
    {
        self.barriers.barrier_of(port)
    }

    /// What is kept of the DVM messages that the port issues.
    pub fn messages_of(&self, port: u8) -> PortMessages
        ensures { (r : Recording) → Stands self.now r → PortMessagesStand r.past port result }
    {
        self.messages.of(port)
    }

    /// The barrier pair of the port that isn't complete, if there is one.
    pub fn open_pair(&self, port: u8) -> Option<OpenPair>
        ensures { (r : Recording) → Stands self.now r → TellsOpenPair r.past port result }
    {
        self.barriers.open_pair(port)
    }

    /// The DVM message that is forwarded to the port next, which is an ACE port, from its next part
    /// on.
    pub fn next_message(&self, port: u8) -> Option<Message>
        ensures { (r : Recording) → Stands self.now r → is_ace r.header port ≡ true
            → result ≡ next_message r.past port }
    {
        self.inboxes.next_message(port)
    }

    /// The port that sends that message.
    pub fn next_sender(&self, port: u8) -> Option<u8>
        ensures { (r : Recording) → Stands self.now r → is_ace r.header port ≡ true
            → result ≡ option_map (λ (m : Next). m.first.port) (next_message r.past port) }
    {
        self.inboxes.next_sender(port)
    }

    /// Whether the part of a DVM message, which is outstanding, was forwarded to this other ACE
    /// port (Arm IHI 0022E, C12).
    pub fn was_forwarded(&self, part: &Transaction, port: u8) -> bool
        ensures { (r : Recording) (own id : ℕ) → Stands self.now r
            → outstanding r.header r.past own Read id ≡ Some part.now
            → is_message_part part.now ≡ true → is_other_ace r.header part.now.port port ≡ true
            → result ≡ was_forwarded r.past part.now port }
    {
        let waiting = is_at(self.messages.of(part.port).first, part.place);
        let behind = self.inboxes.awaits_snoop(port, part.place);
        !(waiting || behind)
    }

    /// Whether the port's outstanding read under the identifier is an exclusive store that failed.
    pub fn failed(&self, port: u8, id: u8) -> bool
        ensures { (r : Recording) (x : Transaction) → Stands self.now r
            → outstanding r.header r.past port Read id ≡ Some x → result ≡ has_failed r.past x }
    {
        match self.results.passed(port, id) {
            None => false,
            Some(passed) => !passed,
        }
    }

    /// Whether the read is an exclusive load, or an exclusive store that passed: its response is
    /// EXOKAY.
    pub fn is_okay(&self, read: &Transaction) -> bool
        ensures { (r : Recording) → Stands self.now r → result ≡ is_exclusive_okay r.past read.now }
    {
        is_okay(read, self.results.passed(read.port, read.id))
    }

    /// Whether the port is registered for the line at the monitor of the interconnect.
    pub fn is_registered(&self, port: u8, line: u32) -> bool
        ensures { (r : Recording) → Stands self.now r → result ≡ is_registered r.past port line }
    {
        self.registrations.is_registered(port, line)
    }

    /// Whether the port's own monitor is set for the line.
    pub fn is_monitored(&self, port: u8, line: u32) -> bool
        ensures { (r : Recording) → Stands self.now r
            → result ≡ is_monitored r.header r.past port line }
    {
        self.monitors.lets_store(port, line, true)
    }
}
