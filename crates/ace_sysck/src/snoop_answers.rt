//! A CR: it moves the monitor of its port and, where it answers a part of a DVM message, what is
//! kept of the messages that are forwarded.

ghost use Rattle.std.specs.Prelude.{◌≡◌};
ghost use Rattle.ace_model.specs.Kinds.{is_message_snoop};

use crate::SysCheck;
use ace_codes::{LineState, SnoopKind};

#[inline(always)]
fn is_message(kind: SnoopKind) -> bool
    ensures { result ≡ is_message_snoop kind }
{
    matches!(kind, SnoopKind::DvmMessage)
}

impl SysCheck {
    ghost use Rattle.std.specs.Prelude.{◌<◌, ◌-◌, ◌^◌, ℕ, None, Some, length};
    ghost use Rattle.ace_event.specs.declared.event.Event.TheVariants.{Cr};
    ghost use Rattle.ace_model.specs.Trace.{Trace};
    ghost use Rattle.ace_model.specs.declared.snoops.Snoop.{Snoop};
    ghost use Rattle.ace_model.specs.Accepted.{least_broken};
    ghost use Rattle.ace_portck.specs.SnoopAnswers.{IsAnswered};
    ghost use Rattle.ace_portck.specs.Targets.{Recording, after, line_of_snoop};
    ghost use Rattle.ace_sysck.specs.Stands.{Stands, IsRoomy};

    /// Takes a CR that answers a snoop of the kind, of this line if it is a line snoop, and breaks
    /// no rule.
    #[inline(always)]
    pub fn hear_snoop_answer(&mut self, port: u8, kind: SnoopKind, line: Option<u32>, st: LineState)
        ensures stands { (r : Recording) (x : Snoop) (resp : ℕ) → Stands self.old r
            → IsAnswered r.past port x kind → line ≡ line_of_snoop (Some x)
            → least_broken r.header r.past (Cr port resp st) ≡ None
            → length r.past < 2 ^ 64 - 1
            → Stands self.new (after r (Cr port resp st)) }
        ensures roomy { (n : ℕ) (past : Trace) → IsRoomy n past self.old → IsRoomy n past self.new }
    {
        self.monitors.leave(port, line, st);
        if is_message(kind) {
            self.syncs.answer(port, &self.inboxes);
            self.inboxes.answer(port);
        }
    }
}
