//! An AR or AW that issues half of a barrier: the rule of the share that it may break, and what it
//! moves (Arm IHI 0022E, C8).

use crate::SysCheck;
use ace_event::Channel;
use ace_model::Transaction;
use ace_portck::unless;

impl SysCheck {
    ghost use Rattle.std.specs.Prelude.{◌≡◌, ◌<◌, ◌-◌, ◌^◌, ℕ, true, None, Some, length};
    ghost use Rattle.ace_event.specs.declared.event.Event.{Event};
    ghost use Rattle.ace_model.specs.Accepted.{least_broken, least_of};
    ghost use Rattle.ace_model.specs.Barriers.{is_barrier_half};
    ghost use Rattle.ace_model.specs.Shares.{system_rules};
    ghost use Rattle.ace_model.specs.Trace.{Trace};
    ghost use Rattle.ace_model.specs.Transactions.{issued};
    ghost use Rattle.ace_portck.specs.BarrierAddresses.{IssuesHalf};
    ghost use Rattle.ace_portck.specs.Targets.{Recording, after};
    ghost use Rattle.ace_sysck.specs.Stands.{Stands, IsRoomy};

    /// The least rule of the share that an AR or AW breaks that issues the half of a barrier: K9,
    /// where the address isn't 0, an earlier barrier of the port isn't complete, or the other half
    /// was issued and isn't alike.
    #[tactic(auto, using(crate::proofs::ByKind::BarrierAddresses::half_rule))]
    pub fn rule_of_half(&self, half: &Transaction) -> Option<u8>
        ensures { (r : Recording) (e : Event) → Stands self.now r
            → issued (length r.past) e ≡ Some half.now
            → is_barrier_half half.now ≡ true → result ≡ least_of system_rules r.header r.past e }
    {
        unless(self.barriers.lets_begin(half), Some(9))
    }

    /// Takes an AR or AW that issues the half of a barrier and breaks no rule. A half on the read
    /// channel is the last read of its name.
    #[tactic(auto, using(crate::proofs::ByKind::BarrierAddresses::half_leaves))]
    pub fn begin_barrier(&mut self, half: &Transaction)
        ensures stands { (r : Recording) (e : Event) → Stands self.old r
            → IssuesHalf r.past e half.now
            → least_broken r.header r.past e ≡ None → length r.past < 2 ^ 64 - 1
            → Stands self.new (after r e) }
        ensures roomy { (n : ℕ) (past : Trace) → IsRoomy n past self.old → IsRoomy n past self.new }
    {
        let Transaction { port, chan, id, .. } = *half;
        self.barriers.begin(half);
        match chan {
            Channel::Read => self.results.begin(port, id),
            Channel::Write => {}
        }
    }
}
