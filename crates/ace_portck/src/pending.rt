//! The outstanding transactions of a port on one channel.

ghost use Rattle.std.specs.Prelude.{◌≡◌, ◌==◌, ◌<◌, ◌≤◌, ℕ, true, None, Some, find, length, map, vec_capacity, option_map};
ghost use Rattle.std.specs.Option.{option_copied};
ghost use Rattle.std.specs.VecDeque.{deque_capacity};
ghost use Rattle.ace_model.specs.Trace.{more, port_of};
ghost use Rattle.ace_model.specs.Transactions.{issued, is_make_unique_on};
ghost use Rattle.ace_portck.specs.Pending.{transferred, renewed, advanced, named_by, change_first, is_store, AreApart, is_acknowledge, completed_by, on_channel, without_id};
ghost use Rattle.ace_portck.specs.Targets.{begun};

use crate::target::Progress;
use ace_event::{Channel, Event, Header};
use ace_io::NoMemory;
use ace_model::Transaction;
use ace_model::kinds::{is_ace, is_make_unique, read_kind};
use std::alloc::Global;
use std::collections::VecDeque;

/// How many identifiers there are.
const IDS: usize = 256;

/// The outstanding transactions of a port on one channel. It has room for one under each
/// identifier.
#[derive(Drop)]
pub struct Pending {
    /// The transactions, in the order of issue.
    list: Vec<Progress>,
    /// At an ACE port, the identifiers of the complete ones, which wait for their RK or WK, in the
    /// order of completion.
    waiting: VecDeque<u8>,
}

/// A transaction that has just been issued.
pub fn begun(transaction: Transaction) -> Progress
    ensures { result ≡ begun transaction }
{
    Progress {
        transaction,
        transfers: 0,
        response: 0,
        complete: false,
        granted: false,
        written: false,
        stored: false,
    }
}

/// The transaction that the event issues, where so many events came before it.
#[inline(always)]
pub fn issued(place: usize, event: &Event) -> Option<Transaction>
    ensures { result ≡ issued place event.now }
{
    match *event {
        Event::Ar {
            port,
            id,
            addr,
            snoop,
            dom,
            bar,
            lock,
        } => Some(Transaction {
            place,
            port,
            chan: Channel::Read,
            id,
            addr,
            snoop,
            dom,
            bar,
            lock,
        }),
        Event::Aw {
            port,
            id,
            addr,
            snoop,
            dom,
            bar,
        } => Some(Transaction {
            place,
            port,
            chan: Channel::Write,
            id,
            addr,
            snoop,
            dom,
            bar,
            lock: false,
        }),
        _ => None,
    }
}

/// The transaction is a MakeUnique of the line.
fn is_make_unique_on(transaction: &Transaction, line: u32) -> bool
    ensures { result ≡ is_make_unique_on transaction.now line }
{
    read_kind(transaction).is_some_and(is_make_unique) && transaction.addr == line
}

/// The read has had one more transfer. Only what changes is written.
#[inline(always)]
fn transfer(x: &mut Progress, resp: u8, last: bool)
    ensures { x.new ≡ transferred resp last x.old }
{
    if x.transfers == 0 {
        x.response = resp;
    }
    x.transfers = x.transfers.wrapping_add(1);
    if last {
        x.complete = true;
    }
}

/// Advances a transaction by an event that names it.
#[inline(always)]
fn advance(x: &mut Progress, event: &Event)
    ensures { x.new ≡ advanced event.now x.old }
{
    match *event {
        Event::R { resp, last, .. } => transfer(x, resp, last),
        Event::B { .. } => x.complete = true,
        Event::G { .. } => x.granted = true,
        Event::M { .. } => x.written = true,
        _ => {}
    }
}

/// The identifier by which the event names a transaction on the channel.
#[inline(always)]
fn named_by(event: &Event, chan: Channel) -> Option<u8>
    ensures { result ≡ named_by event.now chan }
{
    match *event {
        Event::R { id, .. } if chan == Channel::Read => Some(id),
        Event::B { id, .. } if chan == Channel::Write => Some(id),
        Event::G { chan: own, id, .. } | Event::M { chan: own, id, .. } if chan == own => Some(id),
        _ => None,
    }
}

/// Advances the first transaction of the list under the identifier.
#[inline(always)]
fn advance_first(list: &mut [Progress], id: u8, event: &Event)
    ensures { list.new ≡ change_first (advanced event.now) id list.old }
{
    for x in list.iter_mut() {
        if x.transaction.id == id {
            advance(x, event);
            return;
        }
    }
}

/// The complete MakeUnique of the line, if this is one, has had its D.
#[inline(always)]
fn store(x: &mut Progress, event: &Event)
    ensures { is_store event.now ≡ true → x.new ≡ renewed event.now x.old }
{
    if let Event::D { port, addr, .. } = *event {
        if x.complete && x.transaction.port == port && is_make_unique_on(&x.transaction, addr) {
            x.stored = true;
        }
    }
}

/// Brings the complete MakeUniques of a D's line up to date.
#[inline(always)]
fn store_all(list: &mut [Progress], event: &Event)
    ensures { is_store event.now ≡ true → list.new ≡ map (renewed event.now) list.old }
{
    for x in list.iter_mut() {
        store(x, event);
    }
}

/// The event is a D.
#[inline(always)]
fn is_store(event: &Event) -> bool
    ensures { result ≡ is_store event.now }
{
    matches!(*event, Event::D { .. })
}

/// Brings the transactions of a port on the channel up to date. An event names one of them at most:
/// only a D asks each.
#[inline(always)]
#[tactic(auto, using(crate::proofs::Named::none_named, crate::proofs::Named::first_named))]
fn renew(list: &mut [Progress], chan: Channel, event: &Event)
    ensures { (p : ℕ) → port_of event.now ≡ Some p → AreApart p chan list.old
        → list.new ≡ map (renewed event.now) list.old }
{
    if is_store(event) {
        store_all(list, event);
    } else if let Some(id) = named_by(event, chan) {
        advance_first(list, id, event);
    }
}

/// The same, of a list with its room.
#[inline(always)]
fn renew_all(list: &mut Vec<Progress>, chan: Channel, event: &Event)
    ensures items { (p : ℕ) → port_of event.now ≡ Some p → AreApart p chan list.old.items
        → list.new.items ≡ map (renewed event.now) list.old.items }
    ensures capacity { vec_capacity list.new ≡ vec_capacity list.old }
{
    renew(list, chan, event);
}

/// The first transaction of the list under the identifier.
fn find_id(list: &[Progress], id: u8) -> Option<&Progress>
    ensures { option_copied result ≡ find (λ x. x.transaction.id == id) list.now }
{
    list.iter().find(|x| x.transaction.id == id)
}

/// Takes the transaction under the identifier out of the list, if there is one.
#[inline(always)]
fn take_out(list: &mut Vec<Progress>, ended: Option<u8>)
    ensures items { list.new.items ≡ without_id ended list.old.items }
    ensures capacity { vec_capacity list.new ≡ vec_capacity list.old }
{
    match ended {
        None => {}
        Some(id) => list.retain(|x| x.transaction.id != id),
    }
}

/// Puts a new transaction behind the others, if there is one. Where there is room, it takes no
/// memory.
#[inline(always)]
fn put_in(list: &mut Vec<Progress>, new: Option<Transaction>)
    ensures items { length list.old.items < vec_capacity list.old
        → list.new.items ≡ more list.old.items (option_map begun new) }
    ensures none { new ≡ None → list.new.items ≡ list.old.items }
    ensures capacity { vec_capacity list.old ≤ vec_capacity list.new }
{
    if let Some(transaction) = new {
        let _full = list.push(begun(transaction));
    }
}

/// The identifier of the transaction on the channel that an event of the port completes: its last
/// R, or its B.
#[inline(always)]
fn completed_by(event: &Event, chan: Channel) -> Option<u8>
    ensures { result ≡ completed_by event.now chan }
{
    match *event {
        Event::R { id, last, .. } if last && chan == Channel::Read => Some(id),
        Event::B { id, .. } if chan == Channel::Write => Some(id),
        _ => None,
    }
}

/// The transaction, where it is on the channel.
#[inline(always)]
fn on_channel(chan: Channel, transaction: Option<Transaction>) -> Option<Transaction>
    ensures { result ≡ on_channel chan transaction }
{
    match transaction {
        Some(x) if x.chan == chan => Some(x),
        _ => None,
    }
}

/// The event is an RK, or a WK for the write channel.
#[inline(always)]
fn is_acknowledge(event: &Event, chan: Channel) -> bool
    ensures { result ≡ is_acknowledge event.now chan }
{
    match *event {
        Event::Rk { .. } => chan == Channel::Read,
        Event::Wk { .. } => chan == Channel::Write,
        _ => false,
    }
}

impl Pending {
    ghost use Rattle.std.specs.Prelude.{[], ◌∷◌, slice_get, IfOk};
    ghost use Rattle.ace_event.specs.declared.event.Channel.{Channel};
    ghost use Rattle.ace_event.specs.declared.header.Header.{Header};
    ghost use Rattle.std.specs.List.{AllByRecursion};
    ghost use Rattle.ace_model.specs.Trace.{Trace};
    ghost use Rattle.ace_model.specs.Transactions.{is_ace, outstanding, next_complete};
    ghost use Rattle.ace_portck.specs.Heard.{IsHeard};
    ghost use Rattle.ace_portck.specs.Pending.{HasByteId, PendingStands, ending_of, waiting_after};
    ghost use Rattle.ace_portck.specs.Targets.{progress_of};

    /// The outstanding transactions of a port without events: none.
    pub fn new(alloc: Global) -> Result<Pending, NoMemory>
        ensures { IfOk result (λ s. (h : Header) → (p : ℕ) → (c : Channel)
            → PendingStands h [] p c s) }
    {
        let list = Vec::with_capacity(alloc, IDS).map_err(|_| NoMemory)?;
        let waiting = VecDeque::with_capacity(alloc, IDS).map_err(|_| NoMemory)?;
        Ok(Pending { list, waiting })
    }

    /// The outstanding transactions, in the order of issue.
    pub fn list(&self) -> &[Progress]
        ensures { result.now ≡ self.now.list.items }
    {
        self.list.as_slice()
    }

    /// The outstanding transaction under the identifier, where it stands.
    #[inline(always)]
    pub fn outstanding(&self, id: u8) -> Option<&Progress>
        ensures { (h : Header) (past : Trace) (p : ℕ) (c : Channel)
            → PendingStands h past p c self.now
            → option_copied result ≡ option_map (progress_of h past) (outstanding h past p c id) }
    {
        find_id(&self.list, id)
    }

    /// The identifier of the complete transaction that the port's next RK or WK belongs to, at an
    /// ACE port.
    #[inline(always)]
    pub fn next_complete(&self) -> Option<u8>
        ensures items { result ≡ slice_get self.now.waiting.items 0 }
        ensures next { (h : Header) (past : Trace) (p : ℕ) (c : Channel)
            → PendingStands h past p c self.now → is_ace h p ≡ true
            → result ≡ next_complete past p c }
    {
        self.waiting.front().copied()
    }

    /// What is complete after an event of the port waits for its acknowledge at an ACE port, and
    /// ends at an ACE-Lite port; an RK or WK ends the one that waits first. Only these events ask
    /// which kind of port it is.
    #[inline(always)]
    #[tactic(auto, using(crate::proofs::Ending::all_stay))]
    fn settle(&mut self, header: &Header, port: u8, chan: Channel, event: &Event)
        ensures list { self.new.list.items
            ≡ without_id (ending_of self.old.waiting.items (is_ace header.now port) chan event.now)
            self.old.list.items }
        ensures room { vec_capacity self.new.list ≡ vec_capacity self.old.list }
        ensures waiting { length self.old.waiting.items < deque_capacity self.old.waiting
            → self.new.waiting.items
            ≡ waiting_after self.old.waiting.items (is_ace header.now port) chan event.now }
        ensures idle { completed_by event.now chan ≡ None
            → self.new.waiting.items
            ≡ waiting_after self.old.waiting.items (is_ace header.now port) chan event.now }
        ensures capacity { deque_capacity self.old.waiting ≤ deque_capacity self.new.waiting }
    {
        if is_acknowledge(event, chan) {
            let ended = self.waiting.pop_front();
            take_out(&mut self.list, ended);
        } else if let Some(id) = completed_by(event, chan) {
            if is_ace(header, port) {
                let _full = self.waiting.push_back(id);
            } else {
                take_out(&mut self.list, Some(id));
            }
        }
    }

    /// Hears an event of the port that keeps the rules, with `place` events before it. It takes no
    /// memory.
    #[inline(always)]
    pub fn hear(&mut self, header: &Header, port: u8, chan: Channel, place: usize, event: &Event)
        ensures { (past : Trace) → IsHeard header.now past place event.now port
            → AllByRecursion HasByteId (event.now ∷ past)
            → PendingStands header.now past port chan self.old
            → PendingStands header.now (event.now ∷ past) port chan self.new }
    {
        renew_all(&mut self.list, chan, event);
        self.settle(header, port, chan, event);
        put_in(&mut self.list, on_channel(chan, issued(place, event)));
    }
}
