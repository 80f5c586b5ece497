//! The least rule of those that look at one line that a W breaks.

use crate::LineCheck;
use crate::loads::is_word_copied;
use ace_model::Transaction;
use ace_model::kinds::updates_memory;
use ace_portck::unless;

impl LineCheck {
    ghost use Rattle.std.specs.Prelude.{◌≡◌, ℕ, Bool, true, Some};
    ghost use Rattle.ace_event.specs.declared.event.Event.TheVariants.{W};
    ghost use Rattle.ace_model.specs.Accepted.{least_of};
    ghost use Rattle.ace_model.specs.AddressRules.{k1};
    ghost use Rattle.ace_model.specs.Shares.{line_rules};
    ghost use Rattle.ace_model.specs.Writes.{next_write, next_write_beat};
    ghost use Rattle.ace_portck.specs.Targets.{Recording};
    ghost use Rattle.ace_lineck.specs.Stands.{Stands};

    /// The least rule of the share that a W breaks, which is this beat of the write: of K11, that a
    /// memory update sends the word of its port's copy (Arm IHI 0022E, C4). The line of any other
    /// write isn't looked at.
    #[inline(always)]
    pub fn rule_of_w(&self, write: &Transaction, beat: u8, word: u128) -> Option<u8>
        ensures { (r : Recording) (p strb : ℕ) (last : Bool) → Stands self.now r
            → k1 r.header r.past (W p strb last word) ≡ true
            → next_write r.past p ≡ Some write.now → beat ≡ next_write_beat r.past p
            → result ≡ least_of line_rules r.header r.past (W p strb last word) }
    {
        if !updates_memory(write) {
            return None;
        }
        let kept = self.record(self.place(Some(write.addr)));
        unless(is_word_copied(kept, write.port, beat, word), Some(11))
    }
}
