//! Line snoops, by what is kept of the grant of their line: the least rule of the share that one
//! breaks, and what it leaves.

ghost use Rattle.std.specs.Prelude.{◌≡◌, ◌∷◌, ℕ, List};
ghost use Rattle.ace_event.specs.declared.event.Event.TheVariants.{Ac};
ghost use Rattle.ace_event.specs.declared.header.Header.{Header};
ghost use Rattle.ace_event.specs.declared.line.Line.{Line};
ghost use Rattle.ace_model.specs.Trace.{Trace};
ghost use Rattle.ace_portck.specs.Target.{Target};
ghost use Rattle.ace_lineck.specs.declared.record.Holder.{Holder};
ghost use Rattle.ace_lineck.specs.Grants.{GrantStands, IsGrantStep};

use crate::LineCheck;
use crate::grant::Grant;
use crate::grant_rules::{both, may_be_snooped};
use crate::stages::{Stage, set_stage};
use ace_portck::unless;

/// The port is snooped under the grant.
#[inline(always)]
fn hear_snoop(grant: &mut Option<Grant>, port: u8)
    ensures { (h : Header) (past : Trace) (l addr snoop : ℕ) (t : Target)
        (xs : List Holder) (memory : Line)
        → IsGrantStep h past l (Ac port addr snoop) t grant.old xs memory
        → GrantStands h (Ac port addr snoop ∷ past) l grant.new }
{
    match grant {
        None => {}
        Some(g) => set_stage(&mut g.stages, port, Stage::Unanswered),
    }
}

impl LineCheck {
    ghost use Rattle.std.specs.Prelude.{Some};
    ghost use Rattle.ace_model.specs.Accepted.{least_of};
    ghost use Rattle.ace_model.specs.Grants.{granted};
    ghost use Rattle.ace_model.specs.Lines.{has_failed_on};
    ghost use Rattle.ace_model.specs.Shares.{line_rules};
    ghost use Rattle.ace_model.specs.Trace.{is_some_and};
    ghost use Rattle.ace_portck.specs.Targets.{Recording, after};
    ghost use Rattle.ace_lineck.specs.Stands.{Stands, IsRoomy, place_on};
    ghost use Rattle.ace_lineck.specs.Snoops.{MaySnoop, HearsSnoop};

    /// The transaction that is granted on the line, if there is one, has lock 1. `place` is that of
    /// its line.
    #[inline(always)]
    pub fn is_granted_exclusively(&self, place: Option<usize>) -> bool
        ensures { (r : Recording) (line : ℕ) → Stands self.now r
            → place ≡ place_on self.now (Some line)
            → result ≡ is_some_and (granted r.header r.past line) (λ x. x.lock) }
    {
        self.record(place).is_granted_exclusively()
    }

    /// The least rule of the share that a snoop of the line breaks: K13 (Arm IHI 0022E, C6).
    /// `place` is that of the line, `owes` says whether the port has a write of the line with B and
    /// without WK, and `failed` whether the granted transaction of the line is an exclusive store
    /// that failed. No rule of the share looks at an AC of DVM.
    #[inline(always)]
    pub fn rule_of_ac(
        &self,
        place: Option<usize>,
        port: u8,
        snoop: u8,
        owes: bool,
        failed: bool,
    ) -> Option<u8>
        ensures { (r : Recording) (addr : ℕ) → MaySnoop self.now r port addr snoop place owes
            → failed ≡ has_failed_on r.header r.past addr
            → result ≡ least_of line_rules r.header r.past (Ac port addr snoop) }
    {
        let may = may_be_snooped(&self.record(place).grant, failed, port, snoop);
        unless(both(!owes, may), Some(13))
    }

    /// Takes a line snoop of the port that breaks no rule. `place` is that of its line.
    #[inline(always)]
    pub fn hear_snoop(&mut self, place: Option<usize>, port: u8)
        ensures stands { (r : Recording) (addr snoop : ℕ)
            → HearsSnoop self.old r port addr snoop place
            → Stands self.new (after r (Ac port addr snoop)) }
        ensures roomy { (n : ℕ) (past : Trace) → IsRoomy n past self.old → IsRoomy n past self.new }
    {
        let Some(place) = place else {
            return;
        };
        let Some(kept) = self.lines.get_index_mut(place) else {
            return;
        };
        hear_snoop(&mut kept.grant, port);
    }
}
