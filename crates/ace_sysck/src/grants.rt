//! The G of a transaction that is known: the rule of the share that it may break, and what it
//! moves.

use crate::SysCheck;
use ace_io::NoMemory;
use ace_model::Transaction;
use ace_model::kinds::is_exclusive_store;
use ace_portck::unless;

impl SysCheck {
    ghost use Rattle.std.specs.Prelude.{◌≡◌, ◌≤◌, ◌<◌, ◌-◌, ◌^◌, ℕ, true, false, None, Some, IsSome, IsOk, OnOk, OnErr, length, nat_eq};
    ghost use Rattle.indexmap.specs.IndexMap.{get};
    ghost use Rattle.ace_event.specs.declared.event.Channel.{Channel};
    ghost use Rattle.ace_event.specs.declared.event.Event.TheVariants.{G};
    ghost use Rattle.ace_model.specs.Accepted.{least_broken, least_of};
    ghost use Rattle.ace_model.specs.Lines.{is_known, known_lines};
    ghost use Rattle.ace_model.specs.Shares.{system_rules};
    ghost use Rattle.ace_model.specs.Trace.{Trace};
    ghost use Rattle.ace_model.specs.Transactions.{outstanding};
    ghost use Rattle.ace_portck.specs.Targets.{Recording, after};
    ghost use Rattle.ace_sysck.specs.Registrations.{was_locked};
    ghost use Rattle.ace_sysck.specs.Stands.{Stands, IsRoomy, HasLockRoom};

    /// The least rule of the share that a G of the outstanding transaction breaks: K35, where its
    /// bar is 0 and a barrier pair of the port before it isn't complete (Arm IHI 0022E, C8).
    #[inline(always)]
    pub fn rule_of_g(&self, x: &Transaction) -> Option<u8>
        ensures { (r : Recording) (p : ℕ) (c : Channel) (i : ℕ) → Stands self.now r
            → outstanding r.header r.past p c i ≡ Some x.now
            → result ≡ least_of system_rules r.header r.past (G p c i) }
    {
        unless(self.barriers.lets_past(x), Some(35))
    }

    /// Makes room for what a G of the transaction leaves. There is no memory for it only where that
    /// has lock 1, and no transaction with lock 1 was granted its line before.
    #[tactic(auto, using(crate::proofs::RegistrationSteps::never_locked))]
    pub fn make_lock_room(&mut self, x: &Transaction) -> Result<(), NoMemory>
        ensures stands { (r : Recording) → Stands self.old r → Stands self.new r }
        ensures room { OnOk result (HasLockRoom self.new x.now) }
        ensures locked { OnErr result (x.now.lock ≡ true) }
        ensures cause { OnErr result ((r : Recording) → Stands self.old r
            → was_locked r.past x.now.addr ≡ false) }
        ensures roomy { (n : ℕ) (past : Trace) → is_known past x.now.addr ≡ true
            → IsRoomy n past self.old → IsRoomy n past self.new }
        ensures succeeds { (n : ℕ) (past : Trace) → is_known past x.now.addr ≡ true
            → IsRoomy n past self.old → length (known_lines past) ≤ n → IsOk result }
    {
        if !x.lock {
            return Ok(());
        }
        match self.registrations.make_room(x.addr) {
            Ok(()) => Ok(()),
            Err(_) => Err(NoMemory),
        }
    }

    /// Takes a G of the outstanding transaction that breaks no rule, if there is room for it; says
    /// whether it is taken. With lock 0 it moves nothing. If it isn't taken, nothing has changed.
    #[inline(always)]
    pub fn hear_grant(&mut self, x: &Transaction) -> bool
        ensures stands { (r : Recording) (p : ℕ) (c : Channel) (i : ℕ) → Stands self.old r
            → outstanding r.header r.past p c i ≡ Some x.now
            → least_broken r.header r.past (G p c i) ≡ None
            → length r.past < 2 ^ 64 - 1 → result ≡ true → Stands self.new (after r (G p c i)) }
        ensures stays { result ≡ false → self.new ≡ self.old }
        ensures takes { HasLockRoom self.old x.now → result ≡ true }
        ensures roomy { (n : ℕ) (past : Trace) → IsRoomy n past self.old → IsRoomy n past self.new }
    {
        if !x.lock {
            return true;
        }
        self.hear_exclusive(x)
    }

    /// The same, with lock 1: the port is registered for the line, and of an exclusive store it is
    /// kept whether it passes (Arm IHI 0022E, C9).
    #[inline(never)]
    fn hear_exclusive(&mut self, x: &Transaction) -> bool
        ensures stands { (r : Recording) (p : ℕ) (c : Channel) (i : ℕ) → Stands self.old r
            → outstanding r.header r.past p c i ≡ Some x.now → x.now.lock ≡ true
            → least_broken r.header r.past (G p c i) ≡ None → length r.past < 2 ^ 64 - 1
            → result ≡ true → Stands self.new (after r (G p c i)) }
        ensures stays { result ≡ false → self.new ≡ self.old }
        ensures takes { IsSome (get nat_eq self.old.registrations.lines x.now.addr)
            → result ≡ true }
        ensures roomy { (n : ℕ) (past : Trace) → IsRoomy n past self.old → IsRoomy n past self.new }
    {
        let passes = self.registrations.is_registered(x.port, x.addr);
        if !self.registrations.register(x) {
            return false;
        }
        if is_exclusive_store(x) {
            self.results.set(x.port, x.id, Some(passes));
        }
        true
    }
}
