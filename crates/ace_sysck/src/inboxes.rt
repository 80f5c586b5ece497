//! The parts of DVM messages that are forwarded to the ports.

ghost use Rattle.std.specs.Prelude.{◌≡◌, ◌<◌, ◌+◌, [], length, drop, slice_get, IfOk};
ghost use Rattle.std.specs.Option.{option_map, option_to_list};
ghost use Rattle.ace_sysck.specs.declared.inboxes.Message.{Message};
ghost use Rattle.ace_sysck.specs.Inboxes.{IsEmptyInbox, parts_sent, sent_list, Receives, forwards_in, has_place, own_transaction, next_message_in};

use crate::messages::PortMessages;
use crate::words::{has_second, is_sync_word};
use ace_codes::SnoopKind;
use ace_event::Header;
use ace_model::Transaction;
use ace_model::kinds::is_ace;
use std::alloc::{AllocError, Global};
use std::collections::VecDeque;

/// A part of a message (Arm IHI 0022E, C12).
#[derive(Clone, Copy, Debug, PartialEq, Eq)]
pub struct Part {
    pub transaction: Transaction,
    /// It is a second part.
    pub second: bool,
    /// It is a Sync.
    pub sync: bool,
}

/// The parts of the messages of other ports that a port has not answered, in the order in which
/// they are forwarded to it.
#[derive(Drop)]
pub struct Inbox {
    pub parts: VecDeque<Part>,
    /// How many of them were forwarded.
    pub forwarded: usize,
}

/// For each port of the header, its inbox. Nothing is forwarded to an ACE-Lite port: its inbox has
/// no room.
#[derive(Drop)]
pub struct Inboxes {
    ports: Vec<Inbox>,
}

/// The one or two parts of a message that is issued, if one is.
#[derive(Clone, Copy, Debug, PartialEq, Eq)]
pub struct Sent {
    pub first: Option<Part>,
    pub last: Option<Part>,
}

/// A DVM message: its first part, and its second, where it has two.
#[derive(Clone, Copy, Debug, PartialEq, Eq)]
pub struct Message {
    pub first: Transaction,
    pub second: Option<Transaction>,
}

/// The message that the port issues with this part.
fn parts_sent(kept: &PortMessages, x: Transaction) -> Sent
    ensures { sent_list result ≡ parts_sent kept.now x }
{
    match kept.first {
        Some(first) => Sent {
            first: Some(Part {
                transaction: first,
                second: false,
                sync: is_sync_word(first.addr),
            }),
            last: Some(Part {
                transaction: x,
                second: true,
                sync: false,
            }),
        },
        None => Sent {
            first: None,
            last: if has_second(x.addr) {
                None
            } else {
                Some(Part {
                    transaction: x,
                    second: false,
                    sync: is_sync_word(x.addr),
                })
            },
        },
    }
}

/// The empty inbox of the port: that of an ACE port has room for a part under each identifier of
/// each port, that of an ACE-Lite port has none.
fn empty_inbox(alloc: Global, header: &Header, port: u8) -> Result<Inbox, AllocError>
    ensures { IfOk result (IsEmptyInbox header.now port) }
{
    let parts = if is_ace(header, port) {
        VecDeque::with_capacity(alloc, usize::from(header.ports) * 256)?
    } else {
        VecDeque::new(alloc)
    };
    Ok(Inbox {
        parts,
        forwarded: 0,
    })
}

/// Puts the part at the end, where there is room. It takes no memory.
fn push(inbox: &mut Inbox, part: Option<Part>)
    ensures { Receives (option_to_list part) inbox.old inbox.new }
{
    if let Some(x) = part {
        if inbox.parts.len() < inbox.parts.capacity() {
            inbox.parts.push_back_reserved(x);
        }
    }
}

/// Puts the parts of the message at the end, where there is room.
fn receive(inbox: &mut Inbox, sent: &Sent)
    ensures { Receives (sent_list sent.now) inbox.old inbox.new }
{
    push(inbox, sent.first);
    push(inbox, sent.last);
}

/// One of the parts is at the place.
fn has_place(parts: &VecDeque<Part>, place: usize) -> bool
    ensures { result ≡ has_place parts.now.items place }
{
    for k in 0..parts.len() {
        if let Some(part) = parts.get(k) {
            if part.transaction.place == place {
                return true;
            }
        }
    }
    false
}

/// One of the parts from this number on is at the place.
fn has_place_from(parts: &VecDeque<Part>, start: usize, place: usize) -> bool
    ensures { result ≡ has_place (drop start parts.now.items) place }
{
    for k in start..parts.len() {
        if let Some(part) = parts.get(k) {
            if part.transaction.place == place {
                return true;
            }
        }
    }
    false
}

/// The part after this one of those that are there.
fn part_after(parts: &VecDeque<Part>, k: usize) -> Option<Transaction>
    requires { k < length parts.now.items }
    ensures { result ≡ option_map own_transaction (slice_get parts.now.items (k + 1)) }
{
    match parts.get(k + 1) {
        None => None,
        Some(part) => Some(part.transaction),
    }
}

/// The message that begins with the part that is forwarded next.
fn next_message_in(inbox: &Inbox) -> Option<Message>
    ensures { result ≡ next_message_in inbox.now.parts.items inbox.now.forwarded }
{
    match inbox.parts.get(inbox.forwarded) {
        None => None,
        Some(part) => {
            let first = part.transaction;
            let second = if has_second(first.addr) {
                part_after(&inbox.parts, inbox.forwarded)
            } else {
                None
            };
            Some(Message { first, second })
        }
    }
}

/// The port that sends the part that is forwarded next.
fn next_sender_in(inbox: &Inbox) -> Option<u8>
    ensures { result ≡ option_map (λ (m : Message). m.first.port)
        (next_message_in inbox.now.parts.items inbox.now.forwarded) }
{
    match inbox.parts.get(inbox.forwarded) {
        None => None,
        Some(part) => Some(part.transaction.port),
    }
}

/// An AC of the kind forwards the next part, and no other AC comes before a second part.
#[inline(always)]
fn forwards_in(inbox: &Inbox, addr: u32, kind: SnoopKind) -> bool
    ensures { result ≡ forwards_in (slice_get inbox.now.parts.items inbox.now.forwarded) addr kind }
{
    let is_message = matches!(kind, SnoopKind::DvmMessage);
    match inbox.parts.get(inbox.forwarded) {
        None => !is_message,
        Some(part) => {
            !(is_message || part.second) || (is_message && part.transaction.addr == addr)
        }
    }
}

impl Inboxes {
    ghost use Rattle.std.specs.Prelude.{◌≡◌, ◌*◌, [], IfOk, slice_get, length, true};
    ghost use Rattle.std.specs.Option.{option_map};
    ghost use Rattle.ace_event.specs.declared.header.Header.{Header};
    ghost use Rattle.ace_model.specs.Transactions.{is_ace};
    ghost use Rattle.std.specs.Prelude.{not, ◌||◌};
    ghost use Rattle.ace_model.specs.Trace.{implies, is_some_and};
    ghost use Rattle.std.specs.List.{list_all};
    ghost use Rattle.ace_model.specs.Grants.{ports_below};
    ghost use Rattle.ace_model.specs.Messages.{is_other_ace};
    ghost use Rattle.ace_portck.specs.Targets.{Recording, after};
    ghost use Rattle.ace_sysck.specs.declared.inboxes.Message.{Message};
    ghost use Rattle.ace_sysck.specs.Inboxes.{InboxesStand, SendsAll, SendsOne, ForwardsTo, AnswersFirst, first_is_sync, sent_list, awaits, awaits_snoop, message_of, next_in, next_message};

    /// The inboxes of the empty trace under the header.
    pub fn new(alloc: Global, header: &Header) -> Result<Inboxes, AllocError>
        ensures { IfOk result (InboxesStand (record { header = header.now; past = [] })) }
    {
        let mut all = Vec::new(alloc);
        for port in 0..header.ports {
            match all.push(empty_inbox(alloc, header, port)?) {
                Ok(()) => {}
                Err(_) => return Err(AllocError),
            }
        }
        Ok(Inboxes { ports: all })
    }

    /// The message that the inbox of the port has next.
    fn message_of(&self, port: u8) -> Option<Message>
        ensures { result ≡ message_of (slice_get self.now.ports.items port) }
    {
        match self.ports.get(port as usize) {
            None => None,
            Some(inbox) => next_message_in(inbox),
        }
    }

    /// The message that is forwarded to the port next, which is an ACE port, from its next part on.
    #[tactic(auto, using(crate::proofs::Forwarding::InboxRules::next_messages))]
    pub fn next_message(&self, port: u8) -> Option<Message>
        ensures { (r : Recording) → InboxesStand r self.now → is_ace r.header port ≡ true
            → result ≡ next_message r.past port }
    {
        self.message_of(port)
    }

    /// The port that sends the message that the inbox of the port has next.
    fn sender_of(&self, port: u8) -> Option<u8>
        ensures { result ≡ option_map (λ (m : Message). m.first.port)
            (message_of (slice_get self.now.ports.items port)) }
    {
        match self.ports.get(port as usize) {
            None => None,
            Some(inbox) => next_sender_in(inbox),
        }
    }

    /// The port that sends the message that is forwarded to this port next, which is an ACE port.
    pub(crate) fn next_sender(&self, port: u8) -> Option<u8>
        ensures { (r : Recording) → InboxesStand r self.now → is_ace r.header port ≡ true
            → result ≡ option_map (λ (m : Message). m.first.port) (next_message r.past port) }
    {
        self.sender_of(port)
    }

    /// The part at the place is one that the port has not answered.
    pub fn awaits(&self, port: u8, place: usize) -> bool
        ensures { result ≡ awaits self.now port place }
    {
        match self.ports.get(port as usize) {
            None => false,
            Some(inbox) => has_place(&inbox.parts, place),
        }
    }

    /// The part at the place is one that was not forwarded to the port.
    pub fn awaits_snoop(&self, port: u8, place: usize) -> bool
        ensures { result ≡ awaits_snoop self.now port place }
    {
        match self.ports.get(port as usize) {
            None => false,
            Some(inbox) => has_place_from(&inbox.parts, inbox.forwarded, place),
        }
    }

    /// An AC of the kind forwards the next part to the port, and no other AC of the port comes
    /// before a second part.
    #[inline(always)]
    pub(crate) fn forwards(&self, port: u8, addr: u32, kind: SnoopKind) -> bool
        ensures { result ≡ forwards_in (next_in (slice_get self.now.ports.items port)) addr kind }
    {
        match self.ports.get(port as usize) {
            None => !matches!(kind, SnoopKind::DvmMessage),
            Some(inbox) => forwards_in(inbox, addr, kind),
        }
    }

    /// The port is another ACE port, and hasn't answered the part, which may wait for its second.
    fn lacks(&self, header: &Header, x: &Transaction, waiting: bool, port: u8) -> bool
        ensures { result ≡ not (implies (is_other_ace header.now x.now.port port)
            (not (waiting || awaits self.now port x.now.place))) }
    {
        is_ace(header, port) && port != x.port && (waiting || self.awaits(port, x.place))
    }

    /// Every other ACE port has answered the part, which doesn't wait for its second. No port is
    /// asked after the first that hasn't.
    pub fn is_answered_by_all(&self, header: &Header, x: &Transaction, waiting: bool) -> bool
        ensures { result ≡ list_all (λ q. implies (is_other_ace header.now x.now.port q)
            (not (waiting || awaits self.now q x.now.place))) (ports_below header.now.ports) }
    {
        for port in 0..header.ports {
            if self.lacks(header, x, waiting, port) {
                return false;
            }
        }
        true
    }

    /// Sends the parts to each port but the sender.
    fn send(&mut self, sender: u8, sent: &Sent)
        ensures size { length self.new.ports.items ≡ length self.old.ports.items }
        ensures all { SendsAll sender (sent_list sent.now) self.old self.new }
    {
        for q in 0..self.ports.len() {
            self.send_one(q, sender, sent);
        }
    }

    /// The port of a part issues it: where that ends a message, its parts are sent to each other
    /// port. `kept` is what is kept of the messages of the port before it.
    #[inline(always)]
    pub(crate) fn send_with(&mut self, kept: &PortMessages, x: Transaction)
        ensures size { length self.new.ports.items ≡ length self.old.ports.items }
        ensures all { SendsAll x.port (parts_sent kept.now x) self.old self.new }
    {
        let sent = parts_sent(kept, x);
        self.send(x.port, &sent);
    }

    /// Sends the parts to the port, unless it is the sender.
    fn send_one(&mut self, q: usize, sender: u8, sent: &Sent)
        ensures { SendsOne q sender (sent_list sent.now) self.old self.new }
    {
        if q == sender as usize {
            return;
        }
        if q < self.ports.len() {
            receive(&mut self.ports[q], sent);
        }
    }

    /// An AC DVM Message forwards the next part to the port.
    #[inline(always)]
    pub(crate) fn forward(&mut self, port: u8)
        ensures { ForwardsTo port self.old self.new }
    {
        let p = port as usize;
        if p < self.ports.len() {
            let inbox = &mut self.ports[p];
            if inbox.forwarded < inbox.parts.len() {
                inbox.forwarded += 1;
            }
        }
    }

    /// The port answers the first of its parts.
    #[inline(always)]
    pub fn answer(&mut self, port: u8)
        ensures { AnswersFirst port self.old self.new }
    {
        let p = port as usize;
        if p < self.ports.len() {
            let inbox = &mut self.ports[p];
            let _first = inbox.parts.pop_front();
            inbox.forwarded = inbox.forwarded.saturating_sub(1);
        }
    }

    /// The port's next CR answers a part that is a Sync: its first part is one.
    pub fn answers_sync(&self, port: u8) -> bool
        ensures { result ≡ is_some_and (slice_get self.now.ports.items port) first_is_sync }
    {
        match self.ports.get(port as usize) {
            None => false,
            Some(inbox) => match inbox.parts.front() {
                None => false,
                Some(part) => part.sync,
            },
        }
    }
}
