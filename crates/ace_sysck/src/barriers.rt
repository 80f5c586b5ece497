//! The barriers of the ports.

ghost use Rattle.std.specs.Prelude.{◌≡◌, max};
ghost use Rattle.ace_model.specs.AddressRules.{is_like_half};
ghost use Rattle.ace_sysck.specs.Barriers.{begins_after, joined, answered, open_of, is_awaited_by, comes_far_enough, may_answer_after, is_past};

use crate::entries::{entry_or, set_entry};
use ace_event::Channel;
use ace_model::Transaction;
use std::alloc::{AllocError, Global};

/// A barrier pair that isn't complete: its halves, and whether they have had their R and B.
#[derive(Clone, Copy, Debug, PartialEq, Eq)]
pub struct OpenPair {
    pub read: Transaction,
    pub write: Transaction,
    pub read_answered: bool,
    pub write_answered: bool,
}

/// What a port has of its newest barrier, while that isn't complete: every earlier one is (Arm IHI
/// 0022E, C8).
#[derive(Clone, Copy, Debug, PartialEq, Eq)]
pub enum Barrier {
    /// Every barrier half of the port is of a complete pair.
    Idle,
    /// A half on the read channel has no partner yet.
    ReadHalf(Transaction),
    /// A half on the write channel has no partner yet.
    WriteHalf(Transaction),
    /// A pair isn't complete.
    Open(OpenPair),
}

/// For each port of the header, its newest barrier.
#[derive(Drop)]
pub struct Barriers {
    ports: Vec<Barrier>,
}

/// Both halves of a barrier have the same bar and domain.
fn is_like_half(x: &Transaction, y: &Transaction) -> bool
    ensures { result ≡ is_like_half x.now y.now }
{
    x.bar == y.bar && x.dom == y.dom
}

/// A port with this barrier may issue the half.
fn begins_after(barrier: &Barrier, x: &Transaction) -> bool
    ensures { result ≡ begins_after barrier.now x.now }
{
    match (barrier, x.chan) {
        (Barrier::Idle, _) => true,
        (Barrier::ReadHalf(y), Channel::Write) => is_like_half(x, y),
        (Barrier::WriteHalf(y), Channel::Read) => is_like_half(x, y),
        _ => false,
    }
}

/// The barrier of the port once it has issued the half.
fn joined(barrier: Barrier, x: Transaction) -> Barrier
    ensures { result ≡ joined barrier x }
{
    match (barrier, x.chan) {
        (Barrier::Idle, Channel::Read) => Barrier::ReadHalf(x),
        (Barrier::Idle, Channel::Write) => Barrier::WriteHalf(x),
        (Barrier::ReadHalf(read), Channel::Write) => Barrier::Open(OpenPair {
            read,
            write: x,
            read_answered: false,
            write_answered: false,
        }),
        (Barrier::WriteHalf(write), Channel::Read) => Barrier::Open(OpenPair {
            read: x,
            write,
            read_answered: false,
            write_answered: false,
        }),
        _ => barrier,
    }
}

/// The barrier of the port once the transaction at the place is complete.
fn answered(barrier: Barrier, place: usize) -> Barrier
    ensures { result ≡ answered barrier place }
{
    match barrier {
        Barrier::Open(pair) => {
            let read_answered = place == pair.read.place || pair.read_answered;
            let write_answered = place == pair.write.place || pair.write_answered;
            if read_answered && write_answered {
                Barrier::Idle
            } else {
                Barrier::Open(OpenPair {
                    read_answered,
                    write_answered,
                    ..pair
                })
            }
        }
        _ => barrier,
    }
}

/// The pair that isn't complete, if it is one.
fn open_of(barrier: Barrier) -> Option<OpenPair>
    ensures { result ≡ open_of barrier }
{
    match barrier {
        Barrier::Open(pair) => Some(pair),
        _ => None,
    }
}

/// How many events came before the later half.
fn place_of(pair: &OpenPair) -> usize
    ensures { result ≡ max pair.now.read.place pair.now.write.place }
{
    if pair.read.place < pair.write.place {
        pair.write.place
    } else {
        pair.read.place
    }
}

/// No transaction from this place on is awaited.
fn is_awaited_by(place: usize, awaited: Option<usize>) -> bool
    ensures { result ≡ is_awaited_by place awaited }
{
    match awaited {
        None => true,
        Some(first) => place <= first,
    }
}

/// What is before the pair has come far enough: to its order point, or for a synchronisation
/// barrier to its end.
fn comes_far_enough(pair: &OpenPair, unordered: Option<usize>, incomplete: Option<usize>) -> bool
    ensures { result ≡ comes_far_enough pair.now unordered incomplete }
{
    let first = if pair.read.bar == 3 {
        incomplete
    } else {
        unordered
    };
    is_awaited_by(place_of(pair), first)
}

/// The half may be answered: it is of a complete pair, or of one before which everything has come
/// far enough.
fn may_answer_after(
    barrier: &Barrier,
    unordered: Option<usize>,
    incomplete: Option<usize>,
    x: &Transaction,
) -> bool
    ensures { result ≡ may_answer_after barrier.now unordered incomplete x.now }
{
    match barrier {
        Barrier::Idle => true,
        Barrier::ReadHalf(y) => x.place != y.place,
        Barrier::WriteHalf(y) => x.place != y.place,
        Barrier::Open(pair) => {
            (x.place != pair.read.place && x.place != pair.write.place)
                || comes_far_enough(pair, unordered, incomplete)
        }
    }
}

/// No pair that isn't complete is before the transaction, where barriers order it.
fn is_past(barrier: &Barrier, x: &Transaction) -> bool
    ensures { result ≡ is_past barrier.now x.now }
{
    match barrier {
        Barrier::Open(pair) => x.bar != 0 || x.place <= place_of(pair),
        _ => true,
    }
}

impl Barriers {
    ghost use Rattle.std.specs.Prelude.{◌≡◌, [], true, IfOk, slice_set, slice_index_or, Some};
    ghost use Rattle.ace_event.specs.declared.header.Header.{Header};
    ghost use Rattle.ace_model.specs.Transactions.{issued};
    ghost use Rattle.ace_model.specs.OrderRules.{is_past_barriers};
    ghost use Rattle.ace_model.specs.AddressRules.{begins_barrier};
    ghost use Rattle.ace_model.specs.Barriers.{is_barrier_half};
    ghost use Rattle.ace_portck.specs.Targets.{Recording};
    ghost use Rattle.ace_sysck.specs.Barriers.{BarriersStand, TellsOpenPair, MayBegin};
    ghost use Rattle.ace_sysck.specs.declared.barriers.Barrier.TheVariants.{Idle};

    /// The barriers of the empty trace, of so many ports.
    #[tactic(auto, using(crate::proofs::BarrierSteps::barriers_fresh))]
    pub fn new(alloc: Global, ports: u8) -> Result<Barriers, AllocError>
        ensures { IfOk result (λ s. (h : Header) → h.ports ≡ ports
            → BarriersStand (record { header = h; past = [] }) s) }
    {
        let ports = vec![in alloc; Barrier::Idle; usize::from(ports)]?;
        Ok(Barriers { ports })
    }

    /// The newest barrier of the port.
    pub(crate) fn barrier_of(&self, port: u8) -> Barrier
        ensures { result ≡ slice_index_or self.now.ports.items port Idle }
    {
        entry_or(&self.ports, port, Barrier::Idle)
    }

    /// The pair of the port that isn't complete, if there is one.
    pub fn open_pair(&self, port: u8) -> Option<OpenPair>
        ensures { (r : Recording) → BarriersStand r self.now → TellsOpenPair r.past port result }
    {
        open_of(self.barrier_of(port))
    }

    /// The port's transaction at the place is complete. Only an open pair is moved by that.
    pub(crate) fn answer(&mut self, port: u8, place: usize)
        ensures { self.new.ports.items ≡ slice_set self.old.ports.items port
            (answered (slice_index_or self.old.ports.items port Idle) place) }
    {
        let p = port as usize;
        if p < self.ports.len() {
            if let Barrier::Open(pair) = self.ports[p] {
                self.ports[p] = answered(Barrier::Open(pair), place);
            }
        }
    }

    /// Of K9, where the event issues the barrier half: it has address 0, every earlier pair of the
    /// port is complete, and its own other half, if it was issued, is alike.
    #[tactic(auto, using(crate::proofs::BarrierRules::begins_is))]
    pub fn lets_begin(&self, x: &Transaction) -> bool
        ensures { (r : Recording) → MayBegin r self.now x.now → is_barrier_half x.now ≡ true
            → result ≡ begins_barrier r.past x.now }
    {
        x.addr == 0 && begins_after(&self.barrier_of(x.port), x)
    }

    /// The transaction may be answered, as far as the barriers of its port tell. `unordered` is the
    /// place of the port's first transaction without its order point, and `incomplete` that of the
    /// first that isn't complete.
    pub(crate) fn may_answer(
        &self,
        x: &Transaction,
        unordered: Option<usize>,
        incomplete: Option<usize>,
    ) -> bool
        ensures { result ≡ may_answer_after
            (slice_index_or self.now.ports.items x.now.port Idle) unordered incomplete x.now }
    {
        match self.ports.get(usize::from(x.port)) {
            None => true,
            Some(barrier) => may_answer_after(barrier, unordered, incomplete, x),
        }
    }

    /// K35, of the transaction that a G grants: where its bar is 0, every barrier pair of the port
    /// before it is complete.
    #[inline(always)]
    #[tactic(auto, using(crate::proofs::BarrierRules::past_is))]
    pub fn lets_past(&self, x: &Transaction) -> bool
        ensures { (r : Recording) → BarriersStand r self.now
            → result ≡ is_past_barriers r.past x.now }
    {
        match self.ports.get(usize::from(x.port)) {
            None => true,
            Some(barrier) => is_past(barrier, x),
        }
    }

    /// The port issues the barrier half.
    pub fn begin(&mut self, x: &Transaction)
        ensures { self.new.ports.items ≡ slice_set self.old.ports.items x.now.port
            (joined (slice_index_or self.old.ports.items x.now.port Idle) x.now) }
    {
        let barrier = joined(self.barrier_of(x.port), *x);
        set_entry(&mut self.ports, x.port, barrier);
    }
}
