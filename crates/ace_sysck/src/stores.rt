//! A D: the rule of the share that it may break, and what it moves: the monitor of its port, if it
//! is exclusive.

use crate::SysCheck;
use ace_portck::unless;

impl SysCheck {
    ghost use Rattle.std.specs.Prelude.{◌≡◌, ◌<◌, ◌-◌, ◌^◌, ℕ, None, length};
    ghost use Rattle.ace_event.specs.declared.event.Event.TheVariants.{D};
    ghost use Rattle.ace_event.specs.declared.line.Line.{Line};
    ghost use Rattle.ace_model.specs.Accepted.{least_broken, least_of};
    ghost use Rattle.ace_model.specs.Shares.{system_rules};
    ghost use Rattle.ace_model.specs.Trace.{Trace};
    ghost use Rattle.ace_portck.specs.Targets.{Recording, after};
    ghost use Rattle.ace_sysck.specs.Stands.{Stands, IsRoomy};

    /// The least rule of the share that a D breaks: K33, where it is exclusive and the monitor of
    /// its port isn't set for the line (Arm IHI 0022E, C9).
    #[inline(always)]
    pub fn rule_of_d(&self, port: u8, addr: u32, x: bool) -> Option<u8>
        ensures { (r : Recording) (strobe : ℕ) (line : Line) → Stands self.now r
            → result ≡ least_of system_rules r.header r.past (D port addr strobe x line) }
    {
        unless(self.monitors.lets_store(port, addr, x), Some(33))
    }

    /// Takes a D that breaks no rule.
    #[inline(always)]
    pub fn store(&mut self, port: u8, x: bool)
        ensures stands { (r : Recording) (addr strobe : ℕ) (line : Line) → Stands self.old r
            → least_broken r.header r.past (D port addr strobe x line) ≡ None
            → length r.past < 2 ^ 64 - 1
            → Stands self.new (after r (D port addr strobe x line)) }
        ensures roomy { (n : ℕ) (past : Trace) → IsRoomy n past self.old → IsRoomy n past self.new }
    {
        self.monitors.store(port, x);
    }
}
