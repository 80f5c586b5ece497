//! A MEM: what it leaves of what is kept of its line.

ghost use Rattle.std.specs.Prelude.{◌≡◌};

use crate::LineCheck;
use crate::record::LineRecord;
use ace_event::Line;

/// Memory has this of the line.
#[inline(always)]
fn set_memory(kept: &mut LineRecord, line: &Line)
    ensures { kept.new ≡ record kept.old { memory = line.now } }
{
    kept.memory = *line;
}

impl LineCheck {
    ghost use Rattle.std.specs.Prelude.{◌<◌, ◌-◌, ◌^◌, ℕ, None, Some, length};
    ghost use Rattle.ace_event.specs.declared.event.Event.TheVariants.{Mem};
    ghost use Rattle.ace_model.specs.Accepted.{least_broken};
    ghost use Rattle.ace_model.specs.Trace.{Trace};
    ghost use Rattle.ace_portck.specs.Targets.{Recording, after};
    ghost use Rattle.ace_lineck.specs.Stands.{Stands, HasRecord, IsRoomy, place_on};

    /// Takes a MEM that breaks no rule: memory has this of its line. `place` is that of the line,
    /// which has a record.
    pub fn hear_mem(&mut self, place: Option<usize>, line: &Line)
        ensures stands { (r : Recording) (addr : ℕ) → Stands self.old r
            → place ≡ place_on self.old (Some addr) → HasRecord self.old (Some addr)
            → least_broken r.header r.past (Mem addr line.now) ≡ None
            → length r.past < 2 ^ 64 - 1 → Stands self.new (after r (Mem addr line.now)) }
        ensures roomy { (n : ℕ) (past : Trace) → IsRoomy n past self.old → IsRoomy n past self.new }
    {
        let Some(place) = place else {
            return;
        };
        let Some(kept) = self.lines.get_index_mut(place) else {
            return;
        };
        set_memory(kept, line);
    }
}
