//! Ports of which no DVM transaction is outstanding.

ghost use Rattle.std.specs.Prelude.{◌≡◌, ◌||◌, ◌&&◌, ◌==◌, ◌∷◌, ℕ, true, false, slice_set};
ghost use Rattle.ace_event.specs.declared.header.Header.{Header};
ghost use Rattle.ace_model.specs.Accepted.{IsAccepted};
ghost use Rattle.ace_model.specs.Kinds.{is_dvm_complete, is_dvm_message};
ghost use Rattle.ace_model.specs.Trace.{Trace, is_some_and};
ghost use Rattle.ace_model.specs.Transactions.{issued};
ghost use Rattle.ace_portck.specs.Stands as portck;
ghost use Rattle.ace_order.specs.Quiet.{has_dvm, is_dvm, is_quiet};

use crate::events::has_dvm;
use ace_codes::{ArKind, read_ar};
use ace_event::Event;
use ace_portck::PortCheck;

/// Of each port whether it was found to have no part of a DVM message and no DVM Complete
/// outstanding, since when it issued none.
#[derive(Drop)]
pub struct QuietPorts {
    ports: [bool; 16],
}

/// It is the kind of a part of a message, or of a DVM Complete.
#[inline(always)]
fn is_dvm_kind(kind: Option<ArKind>) -> bool
    ensures { result ≡ (is_some_and kind is_dvm_message || is_some_and kind is_dvm_complete) }
{
    matches!(kind, Some(ArKind::DvmMessage | ArKind::DvmComplete))
}

/// The port that issues a part of a message, or a DVM Complete, by the event.
#[inline(always)]
fn sender(event: &Event) -> Option<u8>
    ensures { (n p : ℕ) → is_some_and (issued n event.now) (λ x. (x.port == p) && is_dvm x) ≡ true
        → result ≡ Some p }
{
    match *event {
        Event::Ar {
            port,
            snoop,
            dom,
            bar,
            ..
        } => if is_dvm_kind(read_ar(snoop, dom, bar)) {
            Some(port)
        } else {
            None
        },
        _ => None,
    }
}

impl QuietPorts {
    ghost use Rattle.std.specs.Prelude.{Some};

    /// Each port.
    pub fn all() -> QuietPorts {
        QuietPorts { ports: [true; 16] }
    }

    /// The port is one of them.
    #[inline(always)]
    pub fn has(&self, port: u8) -> bool
        ensures { result ≡ is_quiet self.now port }
    {
        let p = port as usize;
        if p < self.ports.len() {
            self.ports[p]
        } else {
            false
        }
    }

    /// Sets whether the port is one of them.
    fn set(&mut self, port: u8, quiet: bool)
        ensures { self.new.ports ≡ slice_set self.old.ports port quiet }
    {
        let p = port as usize;
        if p < self.ports.len() {
            self.ports[p] = quiet;
        }
    }

    /// The port is looked at, where it isn't one of them: a read of it has ended.
    #[inline(always)]
    fn look(&mut self, port: u8, ports: &PortCheck)
        ensures { (h : Header) (past : Trace)
            → portck.Stands ports.now (record { header = h; past = past })
            → ((p : ℕ) → is_quiet self.old p ≡ true → has_dvm h past p ≡ false)
            → (p : ℕ) → is_quiet self.new p ≡ true → has_dvm h past p ≡ false }
    {
        if !self.has(port) {
            let quiet = !has_dvm(ports.reads(port));
            self.set(port, quiet);
        }
    }

    /// Hears the event, which the other has heard.
    #[inline(always)]
    pub fn hear(&mut self, event: &Event, ports: &PortCheck)
        ensures { (h : Header) (past : Trace) → IsAccepted h (event.now ∷ past)
            → portck.Stands ports.now (record { header = h; past = event.now ∷ past })
            → ((p : ℕ) → is_quiet self.old p ≡ true → has_dvm h past p ≡ false)
            → (p : ℕ) → is_quiet self.new p ≡ true → has_dvm h (event.now ∷ past) p ≡ false }
    {
        if let Some(port) = sender(event) {
            self.set(port, false);
        }
        if let Event::Rk { port, .. } = *event {
            self.look(port, ports);
        }
    }
}
