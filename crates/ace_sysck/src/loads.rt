//! An L moves the monitor of its port, if it is exclusive, and nothing else of the system.

use crate::SysCheck;

impl SysCheck {
    ghost use Rattle.std.specs.Prelude.{◌≡◌, ◌<◌, ◌-◌, ◌^◌, ℕ, None, length};
    ghost use Rattle.ace_event.specs.declared.event.Event.TheVariants.{L};
    ghost use Rattle.ace_model.specs.Accepted.{least_broken};
    ghost use Rattle.ace_model.specs.Trace.{Trace};
    ghost use Rattle.ace_portck.specs.Targets.{Recording, after};
    ghost use Rattle.ace_sysck.specs.Stands.{Stands, IsRoomy};

    /// Takes an L that breaks no rule.
    #[inline(always)]
    pub fn load(&mut self, port: u8, addr: u32, x: bool)
        ensures stands { (r : Recording) (w word : ℕ) → Stands self.old r
            → least_broken r.header r.past (L port addr w x word) ≡ None
            → length r.past < 2 ^ 64 - 1
            → Stands self.new (after r (L port addr w x word)) }
        ensures roomy { (n : ℕ) (past : Trace) → IsRoomy n past self.old → IsRoomy n past self.new }
    {
        self.monitors.load(port, addr, x);
    }
}
