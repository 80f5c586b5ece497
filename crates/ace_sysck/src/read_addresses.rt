//! An AR of a line read: it breaks no rule of the share, and what it moves.

use crate::SysCheck;

impl SysCheck {
    ghost use Rattle.std.specs.Prelude.{◌≡◌, ◌<◌, ◌-◌, ◌^◌, ℕ, Bool, true, Some, None, length};
    ghost use Rattle.ace_codes.specs.Reads.{ar_kind_of};
    ghost use Rattle.ace_codes.specs.declared.kind.ArKind.{ArKind};
    ghost use Rattle.ace_event.specs.declared.event.Event.TheVariants.{Ar};
    ghost use Rattle.ace_model.specs.Accepted.{least_broken};
    ghost use Rattle.ace_model.specs.Kinds.{is_line_read};
    ghost use Rattle.ace_model.specs.Trace.{Trace};
    ghost use Rattle.ace_portck.specs.Targets.{Recording, after};
    ghost use Rattle.ace_sysck.specs.Stands.{Stands, IsRoomy};

    /// Takes an AR of a line read that breaks no rule, whatever its lock is: the last exclusive
    /// store of its name, if there was one, is no longer the last read of that name, and an
    /// exclusive store has no result before its G (Arm IHI 0022E, C9). It is part of no barrier and
    /// of no DVM message.
    #[inline(always)]
    pub fn begin_line_read(&mut self, port: u8, id: u8)
        ensures stands { (r : Recording) (addr snoop dom bar : ℕ) (lock : Bool) (k : ArKind)
            → Stands self.old r
            → ar_kind_of snoop dom bar ≡ Some k → is_line_read k ≡ true
            → least_broken r.header r.past (Ar port id addr snoop dom bar lock) ≡ None
            → length r.past < 2 ^ 64 - 1
            → Stands self.new (after r (Ar port id addr snoop dom bar lock)) }
        ensures roomy { (n : ℕ) (past : Trace) → IsRoomy n past self.old → IsRoomy n past self.new }
    {
        self.results.begin(port, id);
    }
}
