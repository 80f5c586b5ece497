//! The rules that look at one port, over all ports.

ghost use Rattle.std.specs.Prelude.{◌≡◌, ◌<◌, ℕ, [], ◌∷◌, None, Some, length, map, option_map, slice_get, IfOk, IsOk, OnOk, OnErr};
ghost use Rattle.std.specs.List.{All, AllByRecursion};
ghost use Rattle.ace_event.specs.declared.event.Event.TheVariants.{Ac};
ghost use Rattle.ace_event.specs.declared.header.Header.{Header};
ghost use Rattle.ace_model.specs.Trace.{Trace, port_of};
ghost use Rattle.ace_portck.specs.Heard.{IsHeard};
ghost use Rattle.ace_portck.specs.Pending.{HasByteId};
ghost use Rattle.ace_portck.specs.Port.{HasRoom};
ghost use Rattle.ace_portck.specs.Snoops.{HasRoomForOne};
ghost use Rattle.ace_portck.specs.Stands.{AreRoomy, IsFresh, PortsStand, record_at};
ghost use Rattle.ace_portck.specs.Unfinished.{RisesAt};
ghost use Rattle.ace_portck.specs.declared.port.PortRecord.{PortRecord};

use crate::opening::OpeningMemory;
use crate::port::PortRecord;
use crate::target::Progress;
use ace_event::{Channel, Event, Header};
use ace_io::NoMemory;
use ace_model::port_of;
use std::alloc::Global;

/// What is kept of the ports of a trace, to tell what an event belongs to, and which rules about
/// one port it breaks.
#[derive(Drop)]
pub struct PortCheck {
    pub(crate) header: Header,
    /// How many events came.
    pub(crate) count: usize,
    pub(crate) opening: OpeningMemory,
    /// The ports of the header, in order.
    pub(crate) ports: Vec<PortRecord>,
    /// Any other port: no event of it is accepted.
    pub(crate) outside: PortRecord,
}

/// The records of so many ports without events, each with room for so many snoops.
fn fresh_ports(alloc: Global, count: u8, snoops: usize) -> Result<Vec<PortRecord>, NoMemory>
    ensures len { IfOk result (λ v. length v.items ≡ count) }
    ensures fresh { IfOk result (λ v. All IsFresh v.items) }
    ensures room { IfOk result (λ v. AreRoomy snoops v.items) }
{
    let mut ports = Vec::new(alloc);
    for _port in 0..count {
        let kept = PortRecord::new(alloc, snoops)?;
        if ports.push(kept).is_err() {
            return Err(NoMemory);
        }
    }
    Ok(ports)
}

/// The identifiers of a program are bytes.
fn id_fits(id: u8)
    ensures { id < 256 }
{}

/// The identifier of the event is a byte.
pub fn has_byte_id(event: &Event)
    ensures { HasByteId event.now }
{
    match *event {
        Event::Ar { id, .. } => id_fits(id),
        Event::Aw { id, .. } => id_fits(id),
        Event::R { id, .. } => id_fits(id),
        Event::B { id, .. } => id_fits(id),
        _ => {}
    }
}

/// The record of the port.
#[inline(always)]
fn record_of<'a>(ports: &'a [PortRecord], outside: &'a PortRecord, port: u8) -> &'a PortRecord
    ensures { result.now ≡ record_at ports.now outside.now port }
{
    match ports.get(usize::from(port)) {
        Some(kept) => kept,
        None => outside,
    }
}

/// Makes room for one more snoop in the record of the port, if there is such a port.
#[inline(always)]
fn make_room(ports: &mut Vec<PortRecord>, port: u8) -> Result<(), NoMemory>
    ensures len { length ports.new.items ≡ length ports.old.items }
    ensures stands { (h : Header) (past : Trace) (outside : PortRecord)
        → PortsStand h past ports.old.items outside → PortsStand h past ports.new.items outside }
    ensures room { OnOk result ((k : PortRecord) → slice_get ports.new.items port ≡ Some k
        → HasRoomForOne k.snoops) }
    ensures cause { OnErr result ((h : Header) (past : Trace) (outside : PortRecord)
        (addr snoop : ℕ) → PortsStand h past ports.old.items outside
        → RisesAt past (Ac port addr snoop)) }
    ensures roomy { (snoops : ℕ) → AreRoomy snoops ports.old.items
        → AreRoomy snoops ports.new.items }
    ensures succeeds { ((k : PortRecord) → slice_get ports.old.items port ≡ Some k
        → HasRoomForOne k.snoops) → IsOk result }
{
    match ports.get_mut(usize::from(port)) {
        Some(kept) => kept.make_snoop_room(),
        None => Ok(()),
    }
}

/// The record of the port hears the event, which is one of the port.
#[inline(always)]
fn hear_at(ports: &mut Vec<PortRecord>, header: &Header, port: u8, place: usize, event: &Event)
    ensures len { length ports.new.items ≡ length ports.old.items }
    ensures room { (snoops : ℕ) → AreRoomy snoops ports.old.items
        → AreRoomy snoops ports.new.items }
    ensures stands { (past : Trace) (outside : PortRecord)
        → IsHeard header.now past place event.now port
        → AllByRecursion HasByteId (event.now ∷ past) → port < length ports.old.items
        → ((k : PortRecord) → slice_get ports.old.items port ≡ Some k → HasRoom k event.now)
        → PortsStand header.now past ports.old.items outside
        → PortsStand header.now (event.now ∷ past) ports.new.items outside }
{
    if let Some(kept) = ports.get_mut(usize::from(port)) {
        kept.hear(header, port, place, event);
    }
}

impl PortCheck {
    ghost use Rattle.ace_event.specs.Ports.{IsHeader};
    ghost use Rattle.std.specs.Option.{option_copied};
    ghost use Rattle.ace_model.specs.Transactions.{outstanding};
    ghost use Rattle.ace_portck.specs.Stands.{Stands, HasRoom as HasRoomFor, IsRoomy, MayApply};
    ghost use Rattle.ace_portck.specs.Targets.{Recording, after, progress_of};
    ghost use Rattle.ace_portck.specs.Opening.{OpeningStands};
    ghost use Rattle.ace_portck.specs.Pending.{pending_of};
    ghost use Rattle.ace_portck.specs.Port.{PortStands};
    ghost use Rattle.ace_event.specs.declared.event.Channel.TheVariants.{Read, Write};

    /// The checker of the empty trace under this header.
    ///
    /// # Errors
    ///
    /// `NoMemory` where there is none for the ports.
    pub fn new(alloc: Global, header: Header) -> Result<PortCheck, NoMemory>
        ensures { IfOk result (λ s. IsHeader header
            → Stands s (record { header = header; past = [] })) }
    {
        PortCheck::with_room(alloc, header, 0)
    }

    /// The same, with room for so many snoops under way at each port. As long as no port has more,
    /// `hear` needs no `make_snoop_room`.
    ///
    /// # Errors
    ///
    /// `NoMemory` where there is none for the ports and their snoops.
    pub fn with_room(alloc: Global, header: Header, snoops: usize) -> Result<PortCheck, NoMemory>
        ensures stands { IfOk result (λ s. IsHeader header
            → Stands s (record { header = header; past = [] })) }
        ensures room { IfOk result (IsRoomy snoops) }
    {
        let ports = fresh_ports(alloc, header.ports, snoops)?;
        let outside = PortRecord::new(alloc, 0)?;
        Ok(PortCheck {
            header,
            count: 0,
            opening: OpeningMemory::new(),
            ports,
            outside,
        })
    }

    /// What is kept of the port.
    #[inline(always)]
    pub(crate) fn kept(&self, port: u8) -> &PortRecord
        ensures { (r : Recording) → Stands self.now r
            → PortStands r.header r.past port result.now }
    {
        record_of(&self.ports, &self.outside, port)
    }

    /// The outstanding transaction of the port on the channel under the identifier, where it
    /// stands.
    #[inline(always)]
    pub fn outstanding(&self, port: u8, chan: Channel, id: u8) -> Option<&Progress>
        ensures { (r : Recording) → Stands self.now r
            → option_copied result
            ≡ option_map (progress_of r.header r.past) (outstanding r.header r.past port chan id) }
    {
        self.kept(port).transactions.outstanding(chan, id)
    }

    /// The header of the trace.
    pub fn header(&self) -> &Header
        ensures { (r : Recording) → Stands self.now r → result.now ≡ r.header }
    {
        &self.header
    }

    /// How far the trace has opened memory.
    pub fn opening(&self) -> OpeningMemory
        ensures { (r : Recording) → Stands self.now r → OpeningStands r.past result }
    {
        self.opening
    }

    /// How many events came: the place of a transaction that the next one issues.
    #[inline(always)]
    pub fn place(&self) -> usize
        ensures { (r : Recording) → Stands self.now r → result ≡ length r.past }
    {
        self.count
    }

    /// The outstanding reads of the port, in the order of issue, and how far each has come.
    pub fn reads(&self, port: u8) -> &[Progress]
        ensures { (r : Recording) → Stands self.now r
            → result.now
            ≡ map (progress_of r.header r.past) (pending_of r.header r.past port Read) }
    {
        self.kept(port).transactions.reads()
    }

    /// The outstanding writes of the port, in the order of issue, and how far each has come.
    pub fn writes(&self, port: u8) -> &[Progress]
        ensures { (r : Recording) → Stands self.now r
            → result.now
            ≡ map (progress_of r.header r.past) (pending_of r.header r.past port Write) }
    {
        self.kept(port).transactions.writes()
    }

    /// Makes room for the snoop of an AC of the port, so that `hear` takes no memory. Nothing is
    /// needed for an event of any other kind.
    ///
    /// # Errors
    ///
    /// `NoMemory` only where the port has more snoops under way with this one than at any point
    /// before.
    #[inline(always)]
    pub fn make_snoop_room(&mut self, port: u8) -> Result<(), NoMemory>
        ensures stands { (r : Recording) → Stands self.old r → Stands self.new r }
        ensures room { OnOk result ((addr snoop : ℕ) → HasRoomFor self.new (Ac port addr snoop)) }
        ensures cause { OnErr result ((r : Recording) (addr snoop : ℕ) → Stands self.old r
            → RisesAt r.past (Ac port addr snoop)) }
        ensures roomy { (snoops : ℕ) → IsRoomy snoops self.old → IsRoomy snoops self.new }
        ensures succeeds { (addr snoop : ℕ) → HasRoomFor self.old (Ac port addr snoop)
            → IsOk result }
    {
        make_room(&mut self.ports, port)
    }

    /// Hears the next event of the trace, which keeps the rules.
    #[inline(always)]
    pub fn hear(&mut self, event: &Event)
        ensures stands { (r : Recording) → MayApply self.old r event.now
            → Stands self.new (after r event.now) }
        ensures room { (snoops : ℕ) → IsRoomy snoops self.old → IsRoomy snoops self.new }
    {
        has_byte_id(event);
        let place = self.count;
        self.count = place.wrapping_add(1);
        self.opening.hear(event);
        if let Some(port) = port_of(event) {
            hear_at(&mut self.ports, &self.header, port, place, event);
        }
    }
}
