//! A G: the least rule of the share that it breaks, and what it leaves of what is kept of its line.

ghost use Rattle.std.specs.Prelude.{◌≡◌, Some};
ghost use Rattle.ace_lineck.specs.Grants.{fresh_grant};

use crate::LineCheck;
use crate::grant::fresh;
use crate::grant_rules::both;
use crate::kinds::takes_grant;
use crate::record::LineRecord;
use ace_model::Transaction;
use ace_portck::unless;

/// The line is granted to the transaction: nothing has come under its grant, and the rest is as it
/// was.
#[inline(always)]
fn grant_to(kept: &mut LineRecord, x: &Transaction)
    ensures { kept.new ≡ record kept.old { grant = Some (fresh_grant x.now) } }
{
    kept.grant = Some(fresh(*x));
}

impl LineCheck {
    ghost use Rattle.std.specs.Prelude.{◌≡◌, ◌<◌, ◌-◌, ◌^◌, ℕ, Some, None, length};
    ghost use Rattle.ace_event.specs.declared.event.Channel.{Channel};
    ghost use Rattle.ace_event.specs.declared.event.Event.TheVariants.{G};
    ghost use Rattle.ace_model.specs.Accepted.{least_broken, least_of};
    ghost use Rattle.ace_model.specs.Shares.{line_rules};
    ghost use Rattle.ace_model.specs.Trace.{Trace};
    ghost use Rattle.ace_model.specs.Transactions.{outstanding};
    ghost use Rattle.ace_portck.specs.Targets.{Recording, after};
    ghost use Rattle.ace_lineck.specs.Stands.{Stands, IsRoomy, place_on};

    /// The least rule of the share that a G of the outstanding transaction breaks: K12, that its
    /// kind is granted its line, and that no transaction on the line is granted (our choice, for
    /// what Arm IHI 0022E, C6, asks of an interconnect). `place` is that of its line.
    #[inline(always)]
    pub fn rule_of_g(&self, x: &Transaction, place: Option<usize>) -> Option<u8>
        ensures { (r : Recording) (p : ℕ) (c : Channel) (i : ℕ) → Stands self.now r
            → outstanding r.header r.past p c i ≡ Some x.now
            → place ≡ place_on self.now (Some x.now.addr)
            → result ≡ least_of line_rules r.header r.past (G p c i) }
    {
        unless(
            both(takes_grant(x), self.record(place).grant.is_none()),
            Some(12),
        )
    }

    /// The same, of a G that names no outstanding transaction, which breaks K12.
    pub fn rule_of_no_g(&self) -> u8
        ensures { (r : Recording) (p : ℕ) (c : Channel) (i : ℕ)
            → outstanding r.header r.past p c i ≡ None
            → Some result ≡ least_of line_rules r.header r.past (G p c i) }
    {
        12
    }

    /// Takes a G of the outstanding transaction that breaks no rule. `place` is that of its line.
    #[inline(always)]
    pub fn hear_grant(&mut self, x: &Transaction, place: Option<usize>)
        ensures stands { (r : Recording) (p : ℕ) (c : Channel) (i : ℕ) → Stands self.old r
            → outstanding r.header r.past p c i ≡ Some x.now
            → place ≡ place_on self.old (Some x.now.addr)
            → least_broken r.header r.past (G p c i) ≡ None → length r.past < 2 ^ 64 - 1
            → Stands self.new (after r (G p c i)) }
        ensures roomy { (n : ℕ) (past : Trace) → IsRoomy n past self.old → IsRoomy n past self.new }
    {
        let Some(place) = place else {
            return;
        };
        let Some(kept) = self.lines.get_index_mut(place) else {
            return;
        };
        grant_to(kept, x);
    }
}
