//! An AR of a DVM Message or a DVM Complete: the rules of the share that it may break, and what it
//! moves (Arm IHI 0022E, C12).

use crate::SysCheck;
use ace_model::Transaction;
use ace_portck::unless;

impl SysCheck {
    ghost use Rattle.std.specs.Prelude.{◌≡◌, ◌<◌, ◌-◌, ◌^◌, ℕ, Bool, true, None, Some, length};
    ghost use Rattle.ace_codes.specs.Reads.{ar_kind_of};
    ghost use Rattle.ace_codes.specs.declared.kind.ArKind.TheVariants.{DvmMessage, DvmComplete};
    ghost use Rattle.ace_event.specs.declared.event.Event.{Event};
    ghost use Rattle.ace_event.specs.declared.event.Event.TheVariants.{Ar};
    ghost use Rattle.ace_model.specs.Accepted.{least_broken, least_of};
    ghost use Rattle.ace_model.specs.AddressRules.{k1};
    ghost use Rattle.ace_model.specs.Messages.{is_message_part};
    ghost use Rattle.ace_model.specs.Shares.{system_rules};
    ghost use Rattle.ace_model.specs.Trace.{Trace};
    ghost use Rattle.ace_model.specs.Transactions.{issued};
    ghost use Rattle.ace_portck.specs.DvmReads.{is_completion};
    ghost use Rattle.ace_portck.specs.Targets.{Recording, after};
    ghost use Rattle.ace_sysck.specs.Stands.{Stands, IsRoomy};

    /// The least rule of the share that an AR of a DVM Message breaks: K9, where it may not follow
    /// what the port has issued of messages.
    #[inline(always)]
    pub fn rule_of_message_ar(&self, port: u8, addr: u32, dom: u8, bar: u8) -> Option<u8>
        ensures { (r : Recording) (id snoop : ℕ) (lock : Bool) → Stands self.now r
            → ar_kind_of snoop dom bar ≡ Some DvmMessage
            → k1 r.header r.past (Ar port id addr snoop dom bar lock) ≡ true
            → result ≡ least_of system_rules r.header r.past (Ar port id addr snoop dom bar lock) }
    {
        unless(self.messages.lets_begin(port, addr, dom, bar), Some(9))
    }

    /// Takes an AR of a DVM Message that breaks no rule. Where it ends a message, the inbox of
    /// every other port has room for that.
    pub fn begin_message(&mut self, part: &Transaction)
        ensures stands { (r : Recording) (e : Event) → Stands self.old r
            → issued (length r.past) e ≡ Some part.now
            → is_message_part part.now ≡ true
            → least_broken r.header r.past e ≡ None → length r.past < 2 ^ 64 - 1
            → Stands self.new (after r e) }
        ensures roomy { (n : ℕ) (past : Trace) → IsRoomy n past self.old → IsRoomy n past self.new }
    {
        let kept = self.messages.of(part.port);
        self.results.begin(part.port, part.id);
        self.syncs.issue(&kept, part);
        self.inboxes.send_with(&kept, *part);
        self.messages.issue(*part);
    }

    /// The least rule of the share that an AR of a DVM Complete breaks: K9, where the address isn't
    /// 0, or K38, where the port has answered no more Syncs than it has issued DVM Completes.
    #[inline(always)]
    pub fn rule_of_completion_ar(&self, port: u8, addr: u32) -> Option<u8>
        ensures { (r : Recording) (id snoop dom bar : ℕ) (lock : Bool) → Stands self.now r
            → ar_kind_of snoop dom bar ≡ Some DvmComplete
            → k1 r.header r.past (Ar port id addr snoop dom bar lock) ≡ true
            → result ≡ least_of system_rules r.header r.past (Ar port id addr snoop dom bar lock) }
    {
        if addr != 0 {
            return Some(9);
        }
        unless(self.syncs.owes_completion(port), Some(38))
    }

    /// Takes an AR of a DVM Complete with lock 0 that breaks no rule.
    #[inline(always)]
    #[tactic(auto, using(crate::proofs::ByKind::MessageAddresses::completion_stands))]
    pub fn begin_completion(&mut self, port: u8, id: u8)
        ensures stands { (r : Recording) (addr snoop dom bar : ℕ) (lock : Bool) → Stands self.old r
            → is_completion snoop dom bar lock ≡ true
            → least_broken r.header r.past (Ar port id addr snoop dom bar lock) ≡ None
            → length r.past < 2 ^ 64 - 1
            → Stands self.new (after r (Ar port id addr snoop dom bar lock)) }
        ensures roomy { (n : ℕ) (past : Trace) → IsRoomy n past self.old → IsRoomy n past self.new }
    {
        self.results.begin(port, id);
        self.syncs.complete(port);
    }
}
