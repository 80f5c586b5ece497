//! The DVM Completes that a port owes: one for each Sync that it has answered.

ghost use Rattle.std.specs.Prelude.{◌≡◌, ◌∷◌, ℕ, [], Some, if◌then◌else◌, not, ◌&&◌};
ghost use Rattle.ace_codes.specs.Snoops.{ac_kind_of};
ghost use Rattle.ace_codes.specs.declared.state.LineState.{LineState};
ghost use Rattle.ace_event.specs.declared.event.Event.TheVariants.{Cr};
ghost use Rattle.ace_model.specs.Kinds.{is_message_snoop};
ghost use Rattle.ace_model.specs.Messages.{answered_parts, has_second, is_dvm_completion, is_sync_word};
ghost use Rattle.ace_model.specs.Plans.{Plan};
ghost use Rattle.ace_model.specs.Snoops.{answered};
ghost use Rattle.ace_model.specs.Trace.{Trace, is_some_and, port_of};
ghost use Rattle.ace_model.specs.Transactions.{issued};
ghost use Rattle.ace_runs.specs.Follows.{owes_completion};
ghost use Rattle.ace_engine.specs.Engines.{IsLegal};
ghost use Rattle.ace_portck.specs.OnePort.{OnePortStands};
ghost use Rattle.ace_master_state.specs.Completions.{CompletionsStand};

use ace_codes::{ArKind, SnoopKind, read_ac};
use ace_event::Event;
use ace_model::Snoop;
use ace_model::kinds::read_kind;
use ace_portck::{OnePort, is_at, issued};

/// How many Syncs of other ports a port has answered, and how many DVM Completes it has issued (Arm
/// IHI 0022E, C12).
#[derive(Clone, Copy, Debug, PartialEq, Eq)]
pub struct Completions {
    port: u8,
    answered: usize,
    issued: usize,
    /// The next part of a message that the port answers is a second one.
    awaits_second: bool,
}

/// The snoop forwards a part of a message.
fn is_message(snoop: &Snoop) -> bool
    ensures { result ≡ is_some_and (ac_kind_of snoop.now.snoop) is_message_snoop }
{
    matches!(read_ac(snoop.snoop), Some(SnoopKind::DvmMessage))
}

/// The word is that of a Sync.
pub(crate) fn is_sync_word(word: u32) -> bool
    ensures { result ≡ is_sync_word word }
{
    word / 4096 % 8 == 4
}

/// A second part follows a first part with this word.
pub(crate) fn has_second(word: u32) -> bool
    ensures { result ≡ has_second word }
{
    word % 2 == 1
}

/// The event issues a DVM Complete.
fn completes(event: &Event) -> bool
    ensures { (n : ℕ) → result ≡ is_some_and (issued n event.now) is_dvm_completion }
{
    match issued(0, event) {
        None => false,
        Some(x) => matches!(read_kind(&x), Some(ArKind::DvmComplete)),
    }
}

/// Whether the second holds where the first doesn't.
pub(crate) fn unless(first: bool, second: bool) -> bool
    ensures { result ≡ (not first && second) }
{
    !first && second
}

fn one(yes: bool) -> usize
    ensures { result ≡ (if yes then 1 else 0) }
{
    if yes { 1 } else { 0 }
}

impl Completions {
    /// Those of a port of the empty trace.
    pub fn new(port: u8) -> Completions
        ensures { CompletionsStand [] port result }
    {
        Completions {
            port,
            answered: 0,
            issued: 0,
            awaits_second: false,
        }
    }

    /// The port has answered more Syncs than it has issued DVM Completes.
    pub fn owes(&self) -> bool
        ensures { (past : Trace) (p : ℕ) → CompletionsStand past p self.now
            → result ≡ owes_completion past p }
    {
        self.issued < self.answered
    }

    /// The port issues a transaction.
    fn issue(&mut self, event: &Event)
        ensures { (plan : Plan) (past : Trace) (p : ℕ) → IsLegal plan (event.now ∷ past)
            → port_of event.now ≡ Some p → answered_parts (event.now ∷ past) p
            ≡ answered_parts past p
            → CompletionsStand past p self.old → CompletionsStand (event.now ∷ past) p self.new }
    {
        self.issued = self.issued.wrapping_add(one(completes(event)));
    }

    /// The port answers the snoop.
    fn answer(&mut self, snoop: &Snoop)
        ensures { (plan : Plan) (past : Trace) (p resp : ℕ) (st : LineState)
            → IsLegal plan (Cr p resp st ∷ past) → answered past p ≡ Some snoop.now
            → CompletionsStand past p self.old → CompletionsStand (Cr p resp st ∷ past) p self.new }
    {
        if !is_message(snoop) {
            return;
        }
        let is_sync = unless(self.awaits_second, is_sync_word(snoop.addr));
        self.answered = self.answered.wrapping_add(one(is_sync));
        self.awaits_second = unless(self.awaits_second, has_second(snoop.addr));
    }

    /// Hears the next event of the trace. `port` is what is kept of the port before it.
    pub fn hear(&mut self, port: &OnePort, event: &Event)
        ensures { (plan : Plan) (past : Trace) (p : ℕ) → OnePortStands port.now plan.header past p
            → IsLegal plan (event.now ∷ past) → CompletionsStand past p self.old
            → CompletionsStand (event.now ∷ past) p self.new }
    {
        if !is_at(event, self.port) {
            return;
        }
        match *event {
            Event::Cr { .. } => {
                if let Some(snoop) = port.answered() {
                    self.answer(&snoop);
                }
            }
            _ => self.issue(event),
        }
    }
}
