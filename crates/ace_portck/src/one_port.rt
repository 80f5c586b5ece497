//! What is kept of one port of a trace, for what looks at that port alone.

ghost use Rattle.std.specs.Prelude.{◌≡◌, ℕ, [], ◌∷◌, not, map, length, option_map, IfOk, true};
ghost use Rattle.ace_event.specs.declared.header.Header.{Header};
ghost use Rattle.ace_event.specs.declared.event.Channel.TheVariants.{Read, Write};
ghost use Rattle.ace_model.specs.AddressRules.{gives_up, has_write};
ghost use Rattle.ace_model.specs.Kinds.{is_unique_write};
ghost use Rattle.ace_model.specs.OrderRules.{retired};
ghost use Rattle.ace_model.specs.Snoops.{answered};
ghost use Rattle.ace_model.specs.Trace.{Trace};
ghost use Rattle.ace_model.specs.Transactions.{acknowledged, has_outstanding_on, is_ace, outstanding};
ghost use Rattle.ace_model.specs.Writes.{next_write, next_write_beat};
ghost use Rattle.std.specs.List.{AllByRecursion};
ghost use Rattle.ace_portck.specs.Heard.{IsHeard};
ghost use Rattle.ace_portck.specs.OnePort.{IsRoomy, MayHear, OnePortStands, port_of};
ghost use Rattle.ace_portck.specs.Pending.{HasByteId, pending_of};
ghost use Rattle.ace_portck.specs.Port.{HasRoom, PortStands};
ghost use Rattle.ace_portck.specs.Snoops.{IsRoomy as RoomsFor};
ghost use Rattle.ace_portck.specs.Targets.{own_of, progress_of};

use crate::port::PortRecord;
use crate::ports::has_byte_id;
use crate::rules::is_at;
use crate::target::Progress;
use ace_event::{Channel, Event, Header};
use ace_io::NoMemory;
use ace_model::{Snoop, Transaction};
use std::alloc::Global;

/// What is kept of one port of a trace. Of the events of other ports it keeps how many came.
#[derive(Drop)]
pub struct OnePort {
    header: Header,
    port: u8,
    /// How many events came, at any port.
    count: usize,
    kept: PortRecord,
}

/// What is kept of the port hears an event of it. It stands apart from the look whether an event is
/// one of the port, since most events are of other ports.
#[inline(never)]
fn hear_own(kept: &mut PortRecord, header: &Header, port: u8, place: usize, event: &Event)
    ensures stands { (past : Trace) → IsHeard header.now past place event.now port
        → AllByRecursion HasByteId (event.now ∷ past)
        → PortStands header.now past port kept.old → HasRoom kept.old event.now
        → PortStands header.now (event.now ∷ past) port kept.new }
    ensures room { (snoops : ℕ) → RoomsFor snoops kept.old.snoops
        → RoomsFor snoops kept.new.snoops }
{
    kept.hear(header, port, place, event);
}

impl OnePort {
    /// The port of the empty trace under this header, with room for so many snoops under way.
    ///
    /// # Errors
    ///
    /// `NoMemory` where there is none for the port and its snoops.
    pub fn new(alloc: Global, header: Header, port: u8, snoops: usize) -> Result<OnePort, NoMemory>
        ensures stands { IfOk result (λ s. OnePortStands s header [] port) }
        ensures room { IfOk result (IsRoomy snoops) }
        ensures port { IfOk result (λ s. port_of s ≡ port) }
    {
        let kept = PortRecord::new(alloc, snoops)?;
        Ok(OnePort {
            header,
            port,
            count: 0,
            kept,
        })
    }

    pub fn header(&self) -> Header
        ensures { (h : Header) (past : Trace) (p : ℕ) → OnePortStands self.now h past p
            → result ≡ h }
    {
        self.header
    }

    pub fn port(&self) -> u8
        ensures { result ≡ port_of self.now }
    {
        self.port
    }

    /// How many events came, at any port: the place of the next.
    pub fn count(&self) -> usize
        ensures { (h : Header) (past : Trace) (p : ℕ) → OnePortStands self.now h past p
            → result ≡ length past }
    {
        self.count
    }

    /// The outstanding reads, in the order of issue, and how far each has come.
    pub fn reads(&self) -> &[Progress]
        ensures { (h : Header) (past : Trace) (p : ℕ) → OnePortStands self.now h past p
            → result.now ≡ map (progress_of h past) (pending_of h past p Read) }
    {
        self.kept.transactions.reads()
    }

    /// The outstanding writes, in the order of issue, and how far each has come.
    pub fn writes(&self) -> &[Progress]
        ensures { (h : Header) (past : Trace) (p : ℕ) → OnePortStands self.now h past p
            → result.now ≡ map (progress_of h past) (pending_of h past p Write) }
    {
        self.kept.transactions.writes()
    }

    /// The outstanding transaction under the identifier.
    pub fn named(&self, chan: Channel, id: u8) -> Option<Progress>
        ensures { (h : Header) (past : Trace) (p : ℕ) → OnePortStands self.now h past p
            → result ≡ option_map (progress_of h past) (outstanding h past p chan id) }
    {
        self.kept.transactions.outstanding(chan, id).copied()
    }

    /// The outstanding transaction on the line.
    pub fn own(&self, line: u32) -> Option<Progress>
        ensures { (h : Header) (past : Trace) (p : ℕ) → OnePortStands self.now h past p
            → result ≡ option_map (progress_of h past) (own_of h past p line) }
    {
        self.kept.transactions.own_on(line).copied()
    }

    /// No transaction on the line is outstanding.
    pub fn is_line_free(&self, line: u32) -> bool
        ensures { (h : Header) (past : Trace) (p : ℕ) → OnePortStands self.now h past p
            → result ≡ not (has_outstanding_on h past p line) }
    {
        self.kept.transactions.is_line_free(line)
    }

    /// A WriteUnique or WriteLineUnique is outstanding.
    pub fn has_unique_write(&self) -> bool
        ensures { (h : Header) (past : Trace) (p : ℕ) → OnePortStands self.now h past p
            → result ≡ has_write h past p is_unique_write }
    {
        self.kept.transactions.has_unique_write()
    }

    /// A memory update or an Evict is outstanding.
    pub fn has_giving_up(&self) -> bool
        ensures { (h : Header) (past : Trace) (p : ℕ) → OnePortStands self.now h past p
            → result ≡ has_write h past p gives_up }
    {
        self.kept.transactions.has_giving_up()
    }

    /// The transaction that the next RK or WK belongs to, at an ACE port.
    pub fn acknowledged(&self, chan: Channel) -> Option<Progress>
        ensures { (h : Header) (past : Trace) (p : ℕ) → OnePortStands self.now h past p
            → is_ace h p ≡ true
            → result ≡ option_map (progress_of h past) (acknowledged past p chan) }
    {
        self.kept.transactions.next_acknowledged(chan).copied()
    }

    /// The write that the next W belongs to.
    pub fn next_write(&self) -> Option<Transaction>
        ensures { (h : Header) (past : Trace) (p : ℕ) → OnePortStands self.now h past p
            → result ≡ next_write past p }
    {
        self.kept.bursts.next_write()
    }

    /// Which beat of its burst the next W is, from 0.
    pub fn next_write_beat(&self) -> u8
        ensures { (h : Header) (past : Trace) (p : ℕ) → OnePortStands self.now h past p
            → result ≡ next_write_beat past p }
    {
        self.kept.bursts.beat()
    }

    /// The snoop that the next CR answers.
    pub fn answered(&self) -> Option<Snoop>
        ensures { (h : Header) (past : Trace) (p : ℕ) → OnePortStands self.now h past p
            → result ≡ answered past p }
    {
        self.kept.snoops.unanswered().copied()
    }

    /// How many operations retired.
    pub fn retired(&self) -> u32
        ensures { (h : Header) (past : Trace) (p : ℕ) → OnePortStands self.now h past p
            → result ≡ retired past p }
    {
        self.kept.retired.next()
    }

    /// Hears the next event of the trace, which keeps the rules. It takes no memory.
    #[inline(always)]
    pub fn hear(&mut self, event: &Event)
        ensures stands { (h : Header) (past : Trace) (p : ℕ) → MayHear self.old h past p event.now
            → OnePortStands self.new h (event.now ∷ past) p }
        ensures room { (snoops : ℕ) → IsRoomy snoops self.old → IsRoomy snoops self.new }
        ensures port { port_of self.new ≡ port_of self.old }
    {
        has_byte_id(event);
        let place = self.count;
        self.count = place.wrapping_add(1);
        if is_at(event, self.port) {
            hear_own(&mut self.kept, &self.header, self.port, place, event);
        }
    }
}
