//! An RK or WK, which breaks no rule of the share, and what it moves: the monitor of its port.

use crate::SysCheck;
use ace_codes::LineState;

impl SysCheck {
    ghost use Rattle.std.specs.Prelude.{◌≡◌, ◌<◌, ◌-◌, ◌^◌, ℕ, None, length};
    ghost use Rattle.ace_event.specs.declared.event.Channel.{Channel};
    ghost use Rattle.ace_model.specs.Accepted.{least_broken};
    ghost use Rattle.ace_model.specs.Trace.{Trace};
    ghost use Rattle.ace_portck.specs.Acknowledges.{acknowledge};
    ghost use Rattle.ace_portck.specs.Targets.{Recording, after, line_in};
    ghost use Rattle.ace_sysck.specs.Stands.{Stands, IsRoomy};

    /// Takes an RK or WK that breaks no rule: a monitor that is set for its line no longer is,
    /// where the port is left in I (Arm IHI 0022E, C9).
    #[inline(always)]
    #[tactic(auto, using(crate::proofs::ByKind::Acknowledges::acknowledged_stands))]
    pub fn acknowledge(&mut self, port: u8, line: Option<u32>, st: LineState)
        ensures stands { (r : Recording) (c : Channel) → Stands self.old r
            → line ≡ line_in r.header r.past (acknowledge c port st)
            → least_broken r.header r.past (acknowledge c port st) ≡ None
            → length r.past < 2 ^ 64 - 1 → Stands self.new (after r (acknowledge c port st)) }
        ensures roomy { (n : ℕ) (past : Trace) → IsRoomy n past self.old → IsRoomy n past self.new }
    {
        self.monitors.leave(port, line, st);
    }
}
