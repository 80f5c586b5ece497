//! What is kept of a port.

ghost use Rattle.std.specs.Prelude.{◌≡◌};
ghost use Rattle.ace_model.specs.Trace.{Trace};
ghost use Rattle.ace_event.specs.declared.header.Header.{Header};

use crate::retired::RetiredCount;
use crate::snoops::SnoopQueues;
use crate::target::Progress;
use crate::transactions::Transactions;
use crate::write_data::WriteBursts;
use ace_event::{Channel, Event, Header};
use ace_io::NoMemory;
use ace_model::kinds::is_ace;
use std::alloc::Global;

/// What is kept of a port.
#[derive(Drop)]
pub struct PortRecord {
    pub transactions: Transactions,
    pub snoops: SnoopQueues,
    pub bursts: WriteBursts,
    pub retired: RetiredCount,
}

impl PortRecord {
    ghost use Rattle.std.specs.Prelude.{ℕ, [], ◌∷◌, None, option_map, if◌then◌else◌};
    ghost use Rattle.std.specs.Prelude.{IfOk, IsOk, OnOk, OnErr};
    ghost use Rattle.std.specs.List.{AllByRecursion};
    ghost use Rattle.std.specs.Option.{option_copied};
    ghost use Rattle.ace_event.specs.declared.event.Event.TheVariants.{Ac};
    ghost use Rattle.ace_model.specs.Transactions.{acknowledged, is_ace};
    ghost use Rattle.ace_portck.specs.Heard.{IsHeard};
    ghost use Rattle.ace_portck.specs.Pending.{HasByteId};
    ghost use Rattle.ace_portck.specs.Port.{PortStands, HasRoom};
    ghost use Rattle.ace_portck.specs.Snoops.{HasRoomForOne, IsRoomy};
    ghost use Rattle.ace_portck.specs.Targets.{progress_of};
    ghost use Rattle.ace_portck.specs.Unfinished.{RisesAt};

    /// What is kept of a port without events, with room for so many snoops.
    pub fn new(alloc: Global, snoops: usize) -> Result<PortRecord, NoMemory>
        ensures stands { IfOk result (λ s. (h : Header) → (p : ℕ) → PortStands h [] p s) }
        ensures room { IfOk result (λ s. IsRoomy snoops s.snoops) }
    {
        let transactions = Transactions::new(alloc)?;
        let bursts = WriteBursts::new(alloc)?;
        let Ok(queues) = SnoopQueues::with_room(alloc, snoops) else {
            return Err(NoMemory);
        };
        Ok(PortRecord {
            transactions,
            snoops: queues,
            bursts,
            retired: RetiredCount::new(),
        })
    }

    /// The transaction that the next RK or WK of the port belongs to, where it is an ACE port.
    #[inline(always)]
    pub fn next_acknowledged(&self, header: &Header, port: u8, chan: Channel) -> Option<&Progress>
        ensures { (past : Trace) → PortStands header.now past port self.now
            → option_copied result ≡ option_map (progress_of header.now past)
            (if is_ace header.now port then acknowledged past port chan else None) }
    {
        if is_ace(header, port) {
            self.transactions.next_acknowledged(chan)
        } else {
            None
        }
    }

    /// Makes room for one more snoop. Memory runs out only where the port has more of them under
    /// way than ever before.
    #[inline(always)]
    pub fn make_snoop_room(&mut self) -> Result<(), NoMemory>
        ensures stands { (h : Header) (past : Trace) (p : ℕ) → PortStands h past p self.old
            → PortStands h past p self.new }
        ensures room { OnOk result (HasRoomForOne self.new.snoops) }
        ensures cause { OnErr result ((h : Header) (past : Trace) (p addr snoop : ℕ)
            → PortStands h past p self.old → RisesAt past (Ac p addr snoop)) }
        ensures roomy { (snoops : ℕ) → IsRoomy snoops self.old.snoops
            → IsRoomy snoops self.new.snoops }
        ensures succeeds { HasRoomForOne self.old.snoops → IsOk result }
    {
        match self.snoops.make_room() {
            Ok(()) => Ok(()),
            Err(_) => Err(NoMemory),
        }
    }

    /// Hears an event of the port that keeps the rules, with `place` events before it. It takes no
    /// memory.
    #[inline(always)]
    pub fn hear(&mut self, header: &Header, port: u8, place: usize, event: &Event)
        ensures stands { (past : Trace) → IsHeard header.now past place event.now port
            → AllByRecursion HasByteId (event.now ∷ past)
            → PortStands header.now past port self.old → HasRoom self.old event.now
            → PortStands header.now (event.now ∷ past) port self.new }
        ensures room { (snoops : ℕ) → IsRoomy snoops self.old.snoops
            → IsRoomy snoops self.new.snoops }
    {
        self.transactions.hear(header, port, place, event);
        self.snoops.hear(event, place);
        self.bursts.hear(event, place);
        self.retired.hear(event);
    }
}
