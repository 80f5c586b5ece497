//! ACs: the rules of the share that they may break, and what ACs of DVM move of what is kept of DVM
//! messages (Arm IHI 0022E, C12).

ghost use Rattle.std.specs.Prelude.{◌≡◌};
ghost use Rattle.ace_model.specs.Kinds.{is_complete_snoop};

use crate::SysCheck;
use crate::rules::may_complete;
use ace_codes::SnoopKind;
use ace_portck::unless;

#[inline(always)]
fn is_complete(kind: SnoopKind) -> bool
    ensures { result ≡ is_complete_snoop kind }
{
    matches!(kind, SnoopKind::DvmComplete)
}

impl SysCheck {
    ghost use Rattle.std.specs.Prelude.{◌<◌, ◌-◌, ◌^◌, ℕ, true, None, Some, length};
    ghost use Rattle.ace_codes.specs.Snoops.{ac_kind_of};
    ghost use Rattle.ace_event.specs.declared.event.Event.TheVariants.{Ac};
    ghost use Rattle.ace_model.specs.Accepted.{least_broken, least_of};
    ghost use Rattle.ace_model.specs.AddressRules.{k1};
    ghost use Rattle.ace_model.specs.OrderRules.{k39};
    ghost use Rattle.ace_model.specs.Shares.{system_rules};
    ghost use Rattle.ace_model.specs.Trace.{Trace};
    ghost use Rattle.ace_portck.specs.Targets.{Recording, after};
    ghost use Rattle.ace_sysck.specs.Stands.{Stands, IsRoomy};

    /// K39, of an AC of the kind: an AC DVM Complete comes once the port's last Sync may have it.
    #[inline(always)]
    #[tactic(auto, using(crate::proofs::ByKind::MessageSnoops::completes))]
    fn lets_complete(&self, port: u8, addr: u32, kind: SnoopKind) -> bool
        ensures { (r : Recording) (snoop : ℕ) → Stands self.now r
            → k1 r.header r.past (Ac port addr snoop) ≡ true
            → ac_kind_of snoop ≡ Some kind → result ≡ k39 r.header r.past (Ac port addr snoop) }
    {
        !is_complete(kind) || may_complete(&self.header, &self.messages, &self.syncs, port, addr)
    }

    /// The least rule of the share that an AC of the kind breaks: K36, where an AC DVM Message
    /// doesn't forward the next part to the port, or another AC comes before a second part; or K39,
    /// where an AC DVM Complete comes before the port's last Sync may have it.
    #[inline(always)]
    #[tactic(auto, using(crate::proofs::ByKind::MessageSnoops::forwards))]
    pub fn rule_of_ac(&self, port: u8, addr: u32, kind: SnoopKind) -> Option<u8>
        ensures { (r : Recording) (snoop : ℕ) → Stands self.now r
            → k1 r.header r.past (Ac port addr snoop) ≡ true
            → ac_kind_of snoop ≡ Some kind
            → result ≡ least_of system_rules r.header r.past (Ac port addr snoop) }
    {
        if !self.inboxes.forwards(port, addr, kind) {
            return Some(36);
        }
        unless(self.lets_complete(port, addr, kind), Some(39))
    }

    /// Takes an AC of the kind that breaks no rule: an AC DVM Message forwards a part to the port,
    /// and with an AC DVM Complete the port's last Sync has had it.
    #[inline(always)]
    pub fn hear_message_snoop(&mut self, port: u8, kind: SnoopKind)
        ensures stands { (r : Recording) (addr snoop : ℕ) → Stands self.old r
            → ac_kind_of snoop ≡ Some kind
            → least_broken r.header r.past (Ac port addr snoop) ≡ None → length r.past < 2 ^ 64 - 1
            → Stands self.new (after r (Ac port addr snoop)) }
        ensures roomy { (n : ℕ) (past : Trace) → IsRoomy n past self.old → IsRoomy n past self.new }
    {
        match kind {
            SnoopKind::DvmMessage => self.inboxes.forward(port),
            SnoopKind::DvmComplete => self.messages.tell_complete(port),
            _ => {}
        }
    }
}
