//! The outstanding transactions of a port.

ghost use Rattle.std.specs.Prelude.{◌≡◌, ◌∷◌, find, map, option_map};
ghost use Rattle.std.specs.List.{list_any};
ghost use Rattle.std.specs.Option.{option_copied};
ghost use Rattle.ace_model.specs.AddressRules.{gives_up};
ghost use Rattle.ace_model.specs.Kinds.{is_unique_write};
ghost use Rattle.ace_model.specs.Shares.{lesser};
ghost use Rattle.ace_model.specs.Transactions.{is_on, write_kind};
ghost use Rattle.std.specs.List.{AllByRecursion};
ghost use Rattle.ace_model.specs.Trace.{Trace, is_some_and};
ghost use Rattle.ace_portck.specs.Heard.{IsHeard};
ghost use Rattle.ace_portck.specs.Pending.{HasByteId, PendingStands, moved_channel};
ghost use Rattle.ace_portck.specs.Transactions.{is_ordered_by, has_order_point, is_unordered, is_incomplete};

use crate::pending::Pending;
use crate::target::Progress;
use ace_codes::AwKind;
use ace_event::{Channel, Event, Header};
use ace_io::NoMemory;
use ace_model::kinds::{
    evicts, gives_up, is_line, is_on, is_unique_write, updates_memory, write_kind,
};
use std::alloc::Global;

/// The outstanding transactions of a port.
#[derive(Drop)]
pub struct Transactions {
    reads: Pending,
    writes: Pending,
}

/// The first transaction of the list that is on the line.
fn find_on(list: &[Progress], line: u32) -> Option<&Progress>
    ensures { option_copied result ≡ find (λ x. is_on x.transaction line) list.now }
{
    list.iter().find(|x| is_on(&x.transaction, line))
}

/// The list has a WriteUnique or WriteLineUnique.
fn has_unique_write(list: &[Progress]) -> bool
    ensures { result
        ≡ list_any (λ x. is_some_and (write_kind x.transaction) is_unique_write) list.now }
{
    list.iter().any(|x| write_kind(&x.transaction).is_some_and(is_unique_write))
}

/// The list has a memory update or an Evict.
fn has_giving_up(list: &[Progress]) -> bool
    ensures { result ≡ list_any (λ x. is_some_and (write_kind x.transaction) gives_up) list.now }
{
    list.iter()
        .any(|x| write_kind(&x.transaction).is_some_and(gives_up))
}

/// A line transaction with bar 0: one that barriers order.
fn is_ordered_by(x: &Progress) -> bool
    ensures { result ≡ is_ordered_by x.now }
{
    is_line(&x.transaction) && x.transaction.bar == 0
}

/// It has had its order point: its M if it is a memory update, else its G; an Evict has none to
/// wait for.
fn has_order_point(x: &Progress) -> bool
    ensures { result ≡ has_order_point x.now }
{
    evicts(&x.transaction)
        || if updates_memory(&x.transaction) {
            x.written
        } else {
            x.granted
        }
}

fn is_unordered(x: &Progress) -> bool
    ensures { result ≡ is_unordered x.now }
{
    is_ordered_by(x) && !has_order_point(x)
}

fn is_incomplete(x: &Progress) -> bool
    ensures { result ≡ is_incomplete x.now }
{
    is_ordered_by(x) && !x.complete
}

/// The place of the transaction.
fn place_of(x: Option<Progress>) -> Option<usize>
    ensures { result ≡ option_map (λ v. v.transaction.place) x }
{
    x.map(|v| v.transaction.place)
}

/// The first of the list that barriers order, without its order point.
fn find_unordered(list: &[Progress]) -> Option<Progress>
    ensures { result ≡ find (λ x. is_unordered x) list.now }
{
    list.iter().copied().find(|x| is_unordered(x))
}

/// The first of the list that barriers order and that isn't complete.
fn find_incomplete(list: &[Progress]) -> Option<Progress>
    ensures { result ≡ find (λ x. is_incomplete x) list.now }
{
    list.iter().copied().find(|x| is_incomplete(x))
}

/// The lesser place, where there is one.
fn lesser(a: Option<usize>, b: Option<usize>) -> Option<usize>
    ensures { result ≡ lesser a b }
{
    match (a, b) {
        (None, _) => b,
        (_, None) => a,
        (Some(j), Some(k)) => Some(if k < j { k } else { j }),
    }
}

/// The channel on which the event may change something of the outstanding transactions of its port.
#[inline(always)]
fn moved_channel(event: &Event) -> Option<Channel>
    ensures { result ≡ moved_channel event.now }
{
    match *event {
        Event::Ar { .. } | Event::R { .. } | Event::Rk { .. } | Event::D { .. } => {
            Some(Channel::Read)
        }
        Event::Aw { .. } | Event::B { .. } | Event::Wk { .. } => Some(Channel::Write),
        Event::G { chan, .. } | Event::M { chan, .. } => Some(chan),
        _ => None,
    }
}

impl Transactions {
    ghost use Rattle.std.specs.Prelude.{ℕ, true, not, [], IfOk, is_none};
    ghost use Rattle.ace_event.specs.declared.header.Header.{Header};
    ghost use Rattle.ace_model.specs.AddressRules.{has_write, keeps_apart};
    ghost use Rattle.ace_model.specs.Transactions.{is_ace, outstanding, has_outstanding_on, acknowledged, next_complete};
    ghost use Rattle.ace_portck.specs.Targets.{progress_of, own_of, first_unordered, first_incomplete};
    ghost use Rattle.ace_event.specs.declared.event.Channel.TheVariants.{Read, Write};
    ghost use Rattle.ace_portck.specs.Pending.{pending_of};
    ghost use Rattle.ace_portck.specs.Transactions.{TransactionsStand};

    /// Those of a port without events: none.
    pub fn new(alloc: Global) -> Result<Transactions, NoMemory>
        ensures { IfOk result (λ s. (h : Header) → (p : ℕ) → TransactionsStand h [] p s) }
    {
        let reads = Pending::new(alloc)?;
        let writes = Pending::new(alloc)?;
        Ok(Transactions { reads, writes })
    }

    /// Those of the channel.
    #[inline(always)]
    fn channel(&self, chan: Channel) -> &Pending
        ensures { (h : Header) (past : Trace) (p : ℕ) → TransactionsStand h past p self.now
            → PendingStands h past p chan result.now }
    {
        match chan {
            Channel::Read => &self.reads,
            Channel::Write => &self.writes,
        }
    }

    /// The outstanding transaction under the identifier, where it stands.
    #[inline(always)]
    pub fn outstanding(&self, chan: Channel, id: u8) -> Option<&Progress>
        ensures { (h : Header) (past : Trace) (p : ℕ) → TransactionsStand h past p self.now
            → option_copied result
            ≡ option_map (progress_of h past) (outstanding h past p chan id) }
    {
        self.channel(chan).outstanding(id)
    }

    /// The identifier of the complete transaction that the next RK or WK of the port belongs to,
    /// which is an ACE port.
    #[inline(always)]
    pub fn next_complete(&self, chan: Channel) -> Option<u8>
        ensures { (h : Header) (past : Trace) (p : ℕ) → TransactionsStand h past p self.now
            → is_ace h p ≡ true
            → result ≡ next_complete past p chan }
    {
        self.channel(chan).next_complete()
    }

    /// The outstanding reads, in the order of issue.
    pub fn reads(&self) -> &[Progress]
        ensures { (h : Header) (past : Trace) (p : ℕ) → TransactionsStand h past p self.now
            → result.now ≡ map (progress_of h past) (pending_of h past p Read) }
    {
        self.reads.list()
    }

    /// The outstanding writes, in the order of issue.
    pub fn writes(&self) -> &[Progress]
        ensures { (h : Header) (past : Trace) (p : ℕ) → TransactionsStand h past p self.now
            → result.now ≡ map (progress_of h past) (pending_of h past p Write) }
    {
        self.writes.list()
    }

    /// The transaction that the next RK or WK of the port belongs to, which is an ACE port, where
    /// it stands.
    #[inline(always)]
    pub fn next_acknowledged(&self, chan: Channel) -> Option<&Progress>
        ensures { (h : Header) (past : Trace) (p : ℕ) → TransactionsStand h past p self.now
            → is_ace h p ≡ true
            → option_copied result ≡ option_map (progress_of h past) (acknowledged past p chan) }
    {
        match self.next_complete(chan) {
            None => None,
            Some(id) => self.outstanding(chan, id),
        }
    }

    /// The outstanding transaction on the line, where it stands.
    #[inline(always)]
    pub fn own_on(&self, line: u32) -> Option<&Progress>
        ensures { (h : Header) (past : Trace) (p : ℕ) → TransactionsStand h past p self.now
            → option_copied result ≡ option_map (progress_of h past) (own_of h past p line) }
    {
        match find_on(self.reads.list(), line) {
            Some(x) => Some(x),
            None => find_on(self.writes.list(), line),
        }
    }

    /// The place of the oldest line transaction with bar 0 without its order point.
    pub fn first_unordered(&self) -> Option<usize>
        ensures { (h : Header) (past : Trace) (p : ℕ) → TransactionsStand h past p self.now
            → result ≡ first_unordered past p }
    {
        lesser(
            place_of(find_unordered(self.reads.list())),
            place_of(find_unordered(self.writes.list())),
        )
    }

    /// The place of the oldest line transaction with bar 0 that isn't complete.
    pub fn first_incomplete(&self) -> Option<usize>
        ensures { (h : Header) (past : Trace) (p : ℕ) → TransactionsStand h past p self.now
            → result ≡ first_incomplete past p }
    {
        lesser(
            place_of(find_incomplete(self.reads.list())),
            place_of(find_incomplete(self.writes.list())),
        )
    }

    /// K4, of a new transaction on the channel under the identifier: none is outstanding there.
    #[inline(always)]
    pub fn is_name_free(&self, chan: Channel, id: u8) -> bool
        ensures { (h : Header) (past : Trace) (p : ℕ) → TransactionsStand h past p self.now
            → result ≡ is_none (outstanding h past p chan id) }
    {
        self.outstanding(chan, id).is_none()
    }

    /// None on the line is outstanding.
    #[inline(always)]
    pub fn is_line_free(&self, line: u32) -> bool
        ensures { (h : Header) (past : Trace) (p : ℕ) → TransactionsStand h past p self.now
            → result ≡ not (has_outstanding_on h past p line) }
    {
        self.own_on(line).is_none()
    }

    /// A WriteUnique or WriteLineUnique is outstanding.
    pub fn has_unique_write(&self) -> bool
        ensures { (h : Header) (past : Trace) (p : ℕ) → TransactionsStand h past p self.now
            → result ≡ has_write h past p is_unique_write }
    {
        has_unique_write(self.writes.list())
    }

    /// A memory update or an Evict is outstanding.
    pub fn has_giving_up(&self) -> bool
        ensures { (h : Header) (past : Trace) (p : ℕ) → TransactionsStand h past p self.now
            → result ≡ has_write h past p gives_up }
    {
        has_giving_up(self.writes.list())
    }

    /// K10, of a new write of the kind: memory updates and Evict keep apart from WriteUnique and
    /// WriteLineUnique.
    #[inline(always)]
    pub fn keeps_kind_apart(&self, kind: AwKind) -> bool
        ensures { (h : Header) (past : Trace) (p : ℕ) → TransactionsStand h past p self.now
            → result ≡ keeps_apart h past p kind }
    {
        (!gives_up(kind) || !self.has_unique_write())
            && (!is_unique_write(kind) || !self.has_giving_up())
    }

    /// Hears an event of the port that keeps the rules, with `place` events before it. It takes no
    /// memory.
    #[inline(always)]
    pub fn hear(&mut self, header: &Header, port: u8, place: usize, event: &Event)
        ensures { (past : Trace) → IsHeard header.now past place event.now port
            → AllByRecursion HasByteId (event.now ∷ past)
            → TransactionsStand header.now past port self.old
            → TransactionsStand header.now (event.now ∷ past) port self.new }
    {
        match moved_channel(event) {
            None => {}
            Some(chan) => match chan {
                Channel::Read => self.reads.hear(header, port, Channel::Read, place, event),
                Channel::Write => self.writes.hear(header, port, Channel::Write, place, event),
            },
        }
    }
}
