//! Whether a port's last Sync is complete.

ghost use Rattle.std.specs.Prelude.{◌≡◌, ◌<◌, ◌-◌, ◌^◌, ◌+◌, ◌||◌, ◌∷◌, ℕ, [], if◌then◌else◌, option_map};
ghost use Rattle.ace_model.specs.declared.transactions.Transaction.{Transaction};
ghost use Rattle.ace_model.specs.Messages.{is_message_part};
ghost use Rattle.ace_model.specs.Plans.{Plan};
ghost use Rattle.ace_model.specs.Trace.{Trace, option_filter};
ghost use Rattle.ace_model.specs.Transactions.{issued};
ghost use Rattle.ace_runs.specs.Retiring.{has_answered_completion, tells_completion};
ghost use Rattle.ace_engine.specs.Engines.{IsLegal};
ghost use Rattle.ace_portck.specs.OnePort.{OnePortStands};
ghost use Rattle.ace_master_state.specs.Syncs.{SyncsStand, is_completion, stays_complete, waits_with};

use crate::completions::{has_second, is_sync_word, unless};
use ace_codes::{ArKind, SnoopKind, read_ac};
use ace_event::Event;
use ace_model::Snoop;
use ace_model::kinds::read_kind;
use ace_portck::{OnePort, is_at, issued};

/// Whether the last Sync of a port has had its AC DVM Complete, and whether the port has answered
/// it (Arm IHI 0022E, C12).
#[derive(Clone, Copy, Debug, PartialEq, Eq)]
pub struct Syncs {
    port: u8,
    /// The port's last part of a message is a first part that a second follows.
    awaits_second: bool,
    /// The last Sync has had its AC DVM Complete.
    completed: bool,
    /// How many AC DVM Completes the port hasn't answered.
    unanswered: usize,
}

/// The word of the part of a message that the event issues.
fn word_issued(event: &Event) -> Option<u32>
    ensures { (n : ℕ) → result ≡ option_map (λ (x : Transaction). x.addr)
        (option_filter is_message_part (issued n event.now)) }
{
    let x = issued(0, event)?;
    match read_kind(&x) {
        Some(ArKind::DvmMessage) => Some(x.addr),
        _ => None,
    }
}

/// The snoop says that the port's Sync is complete.
fn tells_completion(snoop: &Snoop) -> bool
    ensures { result ≡ tells_completion snoop.now }
{
    matches!(read_ac(snoop.snoop), Some(SnoopKind::DvmComplete))
}

impl Syncs {
    /// Of a port of the empty trace, which has no Sync.
    pub fn new(port: u8) -> Syncs
        ensures { SyncsStand [] port result }
    {
        Syncs {
            port,
            awaits_second: false,
            completed: false,
            unanswered: 0,
        }
    }

    /// The last Sync has had its AC DVM Complete, and the port has answered it.
    pub fn has_answered_completion(&self) -> bool
        ensures { (past : Trace) (p : ℕ) → SyncsStand past p self.now
            → result ≡ has_answered_completion past p }
    {
        self.completed && self.unanswered == 0
    }

    /// The port has this AC.
    fn complete(&mut self, addr: u32, snoop: u8)
        ensures completed { self.new.completed ≡ (is_completion snoop || self.old.completed) }
        ensures unanswered { self.old.unanswered < 2 ^ 64 - 1
            → self.new.unanswered ≡ self.old.unanswered + (if is_completion snoop then 1 else 0) }
        ensures second { self.new.awaits_second ≡ self.old.awaits_second }
        ensures port { self.new.port ≡ self.old.port }
    {
        let place = 0;
        if tells_completion(&Snoop { place, addr, snoop }) {
            self.completed = true;
            self.unanswered = self.unanswered.wrapping_add(1);
        }
    }

    /// The port answers the snoop.
    fn answer(&mut self, snoop: &Snoop)
        ensures unanswered { (n : ℕ) → self.old.unanswered
            ≡ (if tells_completion snoop.now then 1 else 0) + n → self.new.unanswered ≡ n }
        ensures completed { self.new.completed ≡ self.old.completed }
        ensures second { self.new.awaits_second ≡ self.old.awaits_second }
        ensures port { self.new.port ≡ self.old.port }
    {
        if tells_completion(snoop) {
            self.unanswered = self.unanswered.wrapping_sub(1);
        }
    }

    /// The port issues a part of a message with this word, or none.
    fn issue(&mut self, word: Option<u32>)
        ensures second { self.new.awaits_second ≡ waits_with self.old.awaits_second word }
        ensures completed { self.new.completed
            ≡ stays_complete self.old.awaits_second self.old.completed word }
        ensures unanswered { self.new.unanswered ≡ self.old.unanswered }
        ensures port { self.new.port ≡ self.old.port }
    {
        if let Some(word) = word {
            let is_sync = unless(self.awaits_second, is_sync_word(word));
            self.completed = unless(is_sync, self.completed);
            self.awaits_second = unless(self.awaits_second, has_second(word));
        }
    }

    /// Hears the next event of the trace. `port` is what is kept of the port before it.
    pub fn hear(&mut self, port: &OnePort, event: &Event)
        ensures { (plan : Plan) (past : Trace) (p : ℕ) → OnePortStands port.now plan.header past p
            → IsLegal plan (event.now ∷ past) → SyncsStand past p self.old
            → SyncsStand (event.now ∷ past) p self.new }
    {
        if !is_at(event, self.port) {
            return;
        }
        match *event {
            Event::Ac { addr, snoop, .. } => self.complete(addr, snoop),
            Event::Cr { .. } => {
                if let Some(snoop) = port.answered() {
                    self.answer(&snoop);
                }
            }
            _ => self.issue(word_issued(event)),
        }
    }
}
