//! An S moves the monitor of its port, if it leaves it in I, and nothing else of the system.

use crate::SysCheck;
use ace_codes::LineState;

impl SysCheck {
    ghost use Rattle.std.specs.Prelude.{◌≡◌, ◌<◌, ◌-◌, ◌^◌, ℕ, None, length};
    ghost use Rattle.ace_event.specs.declared.event.Event.TheVariants.{S};
    ghost use Rattle.ace_model.specs.Accepted.{least_broken};
    ghost use Rattle.ace_model.specs.Trace.{Trace};
    ghost use Rattle.ace_portck.specs.Targets.{Recording, after};
    ghost use Rattle.ace_sysck.specs.Stands.{Stands, IsRoomy};

    /// Takes an S that breaks no rule: where it leaves its port without the line, the port's
    /// monitor is no longer set for the line (Arm IHI 0022E, C9).
    #[inline(always)]
    pub fn change(&mut self, port: u8, addr: u32, st: LineState)
        ensures stands { (r : Recording) → Stands self.old r
            → least_broken r.header r.past (S port addr st) ≡ None
            → length r.past < 2 ^ 64 - 1
            → Stands self.new (after r (S port addr st)) }
        ensures roomy { (n : ℕ) (past : Trace) → IsRoomy n past self.old → IsRoomy n past self.new }
    {
        self.monitors.leave(port, Some(addr), st);
    }
}
