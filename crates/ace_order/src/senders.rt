//! Which port sends the DVM message that each port gets next.

ghost use Rattle.std.specs.Prelude.{◌≡◌, ◌≢◌, ◌<◌, ◌∷◌, ℕ, Some, true, false, length, slice_set};
ghost use Rattle.ace_model.specs.Messages.{is_message_part};
ghost use Rattle.ace_model.specs.Snoops.{snoop_at};
ghost use Rattle.ace_model.specs.Trace.{Trace, is_some_and};
ghost use Rattle.ace_model.specs.Transactions.{issued};
ghost use Rattle.ace_sysck.specs.Stands as sysck;
ghost use Rattle.ace_order.specs.Senders.{AreSenders, IsSender, forwards_part, sender_of};

use ace_codes::{ArKind, SnoopKind, read_ac, read_ar};
use ace_event::{Event, Header};
use ace_model::kinds::is_ace;
use ace_sysck::SysCheck;

/// No port has this number.
const NONE: u8 = 16;

/// Of each port which port sends the DVM message that it gets next.
#[derive(Drop)]
pub struct NextSenders {
    ports: [u8; 16],
}

/// The event issues a part of a DVM message.
#[inline(always)]
fn issues_part(event: &Event) -> bool
    ensures { result ≡ false → (n : ℕ) → is_some_and (issued n event.now) is_message_part ≡ false }
{
    match *event {
        Event::Ar {
            snoop,
            dom,
            bar,
            ..
        } => matches!(read_ar(snoop, dom, bar), Some(ArKind::DvmMessage)),
        _ => false,
    }
}

/// The port to which the event forwards a part of a DVM message, if it forwards one.
#[inline(always)]
fn receiver(event: &Event) -> Option<u8>
    ensures { (n q : ℕ) → is_some_and (snoop_at n event.now q) forwards_part ≡ true
        → result ≡ Some q }
{
    match *event {
        Event::Ac { port, snoop, .. } => match read_ac(snoop) {
            Some(SnoopKind::DvmMessage) => Some(port),
            _ => None,
        },
        _ => None,
    }
}

impl NextSenders {
    /// No port gets a message.
    pub fn none() -> NextSenders {
        NextSenders { ports: [NONE; 16] }
    }

    /// The port sends one of these messages.
    pub fn has(&self, port: u8) -> bool
        ensures { result ≡ false → (q : ℕ) → q < 16 → sender_of self.now q ≢ port }
    {
        self.ports.iter().any(|sender| *sender == port)
    }

    /// Sets which port sends the message that the port gets next.
    fn set(&mut self, port: u8, sender: u8)
        ensures { self.new.ports ≡ slice_set self.old.ports port sender }
    {
        let p = port as usize;
        if p < self.ports.len() {
            self.ports[p] = sender;
        }
    }

    /// Finds which port sends the message that the port gets next.
    fn find(&mut self, port: u8, header: &Header, system: &SysCheck)
        ensures own { (past : Trace)
            → sysck.Stands system.now (record { header = header.now; past = past })
            → IsSender header.now past self.new port }
        ensures others { (q : ℕ) → q ≢ port → sender_of self.new q ≡ sender_of self.old q }
    {
        if is_ace(header, port) {
            match system.next_sender(port) {
                Some(sender) => self.set(port, sender),
                None => self.set(port, NONE),
            }
        }
    }

    /// Finds it of each port.
    fn find_all(&mut self, header: &Header, system: &SysCheck)
        ensures { (past : Trace)
            → sysck.Stands system.now (record { header = header.now; past = past })
            → AreSenders header.now past self.new }
    {
        for q in 0..16 {
            self.find(q, header, system);
        }
    }

    /// Hears the event, which the other has heard.
    #[inline(always)]
    pub fn hear(&mut self, event: &Event, header: &Header, system: &SysCheck)
        ensures { (past : Trace)
            → sysck.Stands system.now (record { header = header.now; past = event.now ∷ past })
            → AreSenders header.now past self.old
            → AreSenders header.now (event.now ∷ past) self.new }
    {
        if issues_part(event) {
            self.find_all(header, system);
        } else if let Some(port) = receiver(event) {
            self.find(port, header, system);
        }
    }
}
