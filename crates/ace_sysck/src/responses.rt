//! The responses: the rules of the share that an R or B may break, by the transaction that it
//! answers, and what the completion of a transaction leaves.

use crate::SysCheck;
use crate::messages::is_at;
use crate::rules::has_low_bits;
use ace_model::Transaction;
use ace_portck::unless;

impl SysCheck {
    ghost use Rattle.std.specs.Prelude.{◌≡◌, ◌<◌, ◌-◌, ◌^◌, ℕ, Bool, true, false, None, Some, length};
    ghost use Rattle.ace_event.specs.declared.event.Channel.{Channel};
    ghost use Rattle.ace_event.specs.declared.event.Channel.TheVariants.{Read, Write};
    ghost use Rattle.ace_event.specs.declared.event.Event.TheVariants.{R, B};
    ghost use Rattle.ace_model.specs.Accepted.{least_broken, least_of};
    ghost use Rattle.ace_model.specs.Barriers.{is_barrier_half};
    ghost use Rattle.ace_model.specs.Messages.{is_message_part};
    ghost use Rattle.ace_model.specs.OrderRules.{is_answered_by_all, may_answer_half};
    ghost use Rattle.ace_model.specs.Shares.{system_rules};
    ghost use Rattle.ace_model.specs.Trace.{Trace};
    ghost use Rattle.ace_model.specs.Transactions.{outstanding};
    ghost use Rattle.ace_portck.specs.Targets.{Recording, after, first_incomplete, first_unordered};
    ghost use Rattle.ace_sysck.specs.Stands.{Stands, IsRoomy};

    /// K34: the half of a barrier may be answered, since both halves were issued and what is before
    /// them has come far enough. `unordered` is the place of its port's first line transaction with
    /// bar 0 without its order point, and `incomplete` that of the first that isn't complete (Arm
    /// IHI 0022E, C8).
    #[inline(always)]
    fn may_answer(
        &self,
        half: &Transaction,
        unordered: Option<usize>,
        incomplete: Option<usize>,
    ) -> bool
        ensures { (r : Recording) (port id : ℕ) (chan : Channel) → Stands self.now r
            → outstanding r.header r.past port chan id ≡ Some half.now
            → is_barrier_half half.now ≡ true
            → unordered ≡ first_unordered r.past half.now.port
            → incomplete ≡ first_incomplete r.past half.now.port
            → result ≡ may_answer_half r.past half.now }
    {
        self.barriers.may_answer(half, unordered, incomplete)
    }

    /// K37: every other ACE port has answered the part of a DVM message, which is outstanding (Arm
    /// IHI 0022E, C12).
    #[inline(always)]
    fn is_answered(&self, part: &Transaction) -> bool
        ensures { (r : Recording) (port id : ℕ) → Stands self.now r
            → outstanding r.header r.past port Read id ≡ Some part.now
            → is_message_part part.now ≡ true
            → result ≡ is_answered_by_all r.header r.past part.now }
    {
        let waiting = is_at(self.messages.of(part.port).first, part.place);
        self.inboxes.is_answered_by_all(&self.header, part, waiting)
    }

    /// The least rule of the share that an R of the outstanding read breaks, which is neither half
    /// of a barrier nor part of a DVM message: K21, where the low two bits of its response aren't
    /// EXOKAY for an exclusive load or an exclusive store that passed, or else OKAY (Arm IHI 0022E,
    /// C9).
    #[inline(always)]
    pub fn rule_of_r(&self, x: &Transaction, resp: u8) -> Option<u8>
        ensures { (r : Recording) (port id : ℕ) (last : Bool) (word : ℕ) → Stands self.now r
            → outstanding r.header r.past port Read id ≡ Some x.now → is_barrier_half x.now ≡ false
            → is_message_part x.now ≡ false
            → result ≡ least_of system_rules r.header r.past (R port id resp last word) }
    {
        unless(has_low_bits(&self.results, x, resp), Some(21))
    }

    /// The same, of the half of a barrier: K21 or K34. `unordered` is the place of its port's first
    /// line transaction with bar 0 without its order point, and `incomplete` that of the first that
    /// isn't complete.
    #[inline(always)]
    #[tactic(auto, using(crate::proofs::ByKind::Responses::half_other))]
    pub fn rule_of_half_r(
        &self,
        half: &Transaction,
        resp: u8,
        unordered: Option<usize>,
        incomplete: Option<usize>,
    ) -> Option<u8>
        ensures { (r : Recording) (port id : ℕ) (last : Bool) (word : ℕ) → Stands self.now r
            → outstanding r.header r.past port Read id ≡ Some half.now
            → is_barrier_half half.now ≡ true
            → unordered ≡ first_unordered r.past half.now.port
            → incomplete ≡ first_incomplete r.past half.now.port
            → result ≡ least_of system_rules r.header r.past (R port id resp last word) }
    {
        if !has_low_bits(&self.results, half, resp) {
            return Some(21);
        }
        unless(self.may_answer(half, unordered, incomplete), Some(34))
    }

    /// The same, of the part of a DVM message: K21 or K37.
    #[inline(always)]
    #[tactic(auto, using(crate::proofs::ByKind::Responses::part_no_half))]
    pub fn rule_of_message_r(&self, part: &Transaction, resp: u8) -> Option<u8>
        ensures { (r : Recording) (port id : ℕ) (last : Bool) (word : ℕ) → Stands self.now r
            → outstanding r.header r.past port Read id ≡ Some part.now
            → is_message_part part.now ≡ true
            → result ≡ least_of system_rules r.header r.past (R port id resp last word) }
    {
        if !has_low_bits(&self.results, part, resp) {
            return Some(21);
        }
        unless(self.is_answered(part), Some(37))
    }

    /// The least rule of the share that a B of the half of a barrier breaks: K34. The two places
    /// are those of its port.
    #[inline(always)]
    pub fn rule_of_half_b(
        &self,
        half: &Transaction,
        unordered: Option<usize>,
        incomplete: Option<usize>,
    ) -> Option<u8>
        ensures { (r : Recording) (port id resp : ℕ) → Stands self.now r
            → outstanding r.header r.past port Write id ≡ Some half.now
            → is_barrier_half half.now ≡ true
            → unordered ≡ first_unordered r.past half.now.port
            → incomplete ≡ first_incomplete r.past half.now.port
            → result ≡ least_of system_rules r.header r.past (B port id resp) }
    {
        unless(self.may_answer(half, unordered, incomplete), Some(34))
    }

    /// Takes the last R, or the B, of the transaction, which breaks no rule: it may complete a
    /// barrier, or the port's last Sync.
    #[inline(always)]
    pub fn complete_transaction(&mut self, x: &Transaction)
        ensures beat { (r : Recording) (port id resp word : ℕ) → Stands self.old r
            → outstanding r.header r.past port Read id ≡ Some x.now
            → least_broken r.header r.past (R port id resp true word) ≡ None
            → length r.past < 2 ^ 64 - 1
            → Stands self.new (after r (R port id resp true word)) }
        ensures response { (r : Recording) (port id resp : ℕ) → Stands self.old r
            → outstanding r.header r.past port Write id ≡ Some x.now
            → least_broken r.header r.past (B port id resp) ≡ None → length r.past < 2 ^ 64 - 1
            → Stands self.new (after r (B port id resp)) }
        ensures roomy { (n : ℕ) (past : Trace) → IsRoomy n past self.old → IsRoomy n past self.new }
    {
        self.barriers.answer(x.port, x.place);
        self.messages.complete(x.port, x.place);
    }
}
