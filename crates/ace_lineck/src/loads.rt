//! The least rule of those that look at one line that an L breaks.

ghost use Rattle.std.specs.Prelude.{◌≡◌, ◌==◌, ℕ, Bool, not, Some, None, if◌then◌else◌};
ghost use Rattle.ace_event.specs.declared.event.Event.TheVariants.{L};
ghost use Rattle.ace_model.specs.Copies.{word_of};
ghost use Rattle.ace_tables.specs.States.{is_invalid};
ghost use Rattle.ace_lineck.specs.Holders.{holder_at};
ghost use Rattle.ace_lineck.specs.States.{state_at};

use crate::LineCheck;
use crate::record::LineRecord;
use ace_portck::unless;
use ace_tables::is_invalid;

/// The word is that of the port's copy.
#[inline(always)]
pub(crate) fn is_word_copied(kept: &LineRecord, port: u8, beat: u8, word: u128) -> bool
    ensures { result ≡ (word == word_of (holder_at kept.now.holders.items port).copy beat) }
{
    word == kept.copied_word(port, beat)
}

/// The least of K30 and K31 that an L breaks, by what is kept of its line.
#[inline(always)]
fn rule_of_load(kept: &LineRecord, port: u8, w: u8, word: u128) -> Option<u8>
    ensures { result ≡ (if not (is_invalid (state_at kept.now.states port))
        then (if word == word_of (holder_at kept.now.holders.items port).copy w then None
        else Some 31)
        else Some 30) }
{
    if is_invalid(kept.state(port)) {
        return Some(30);
    }
    unless(is_word_copied(kept, port, w, word), Some(31))
}

impl LineCheck {
    ghost use Rattle.std.specs.Prelude.{true};
    ghost use Rattle.ace_model.specs.Accepted.{least_of};
    ghost use Rattle.ace_model.specs.AddressRules.{k1};
    ghost use Rattle.ace_model.specs.Shares.{line_rules};
    ghost use Rattle.ace_portck.specs.Targets.{Recording};
    ghost use Rattle.ace_lineck.specs.Stands.{Stands};

    /// The least rule of the share that an L breaks: K30, that its port holds the line, or K31,
    /// that the word is that of the port's copy (Arm IHI 0022E, C4).
    #[inline(always)]
    pub fn rule_of_l(&self, port: u8, addr: u32, w: u8, word: u128) -> Option<u8>
        ensures { (r : Recording) (x : Bool) → Stands self.now r
            → k1 r.header r.past (L port addr w x word) ≡ true
            → result ≡ least_of line_rules r.header r.past (L port addr w x word) }
    {
        rule_of_load(self.record(self.place(Some(addr))), port, w, word)
    }
}
