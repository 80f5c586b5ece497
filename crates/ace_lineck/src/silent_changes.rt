//! An S: the least rule of those that look at one line that it breaks, and what it leaves of what
//! is kept of its line.

ghost use Rattle.std.specs.Prelude.{◌≡◌, ◌&&◌, not};
ghost use Rattle.ace_tables.specs.SilentTransitions.{is_silent_move};

use crate::LineCheck;
use crate::states::set_state;
use ace_codes::LineState;
use ace_portck::unless;
use ace_tables::silent_ok;

/// A silent transition from the held state to the next, which drops no memory update of the port.
#[inline(always)]
fn may_move(held: LineState, next: LineState, drops: bool) -> bool
    ensures { result ≡ (is_silent_move held next && not drops) }
{
    silent_ok(held, next) && !drops
}

impl LineCheck {
    ghost use Rattle.std.specs.Prelude.{◌<◌, ◌-◌, ◌^◌, ℕ, None, Some, length};
    ghost use Rattle.ace_event.specs.declared.event.Event.TheVariants.{S};
    ghost use Rattle.ace_tables.specs.States.{is_invalid};
    ghost use Rattle.ace_model.specs.Accepted.{least_broken, least_of};
    ghost use Rattle.ace_model.specs.Progress.{has_update};
    ghost use Rattle.ace_model.specs.Shares.{line_rules};
    ghost use Rattle.ace_model.specs.Trace.{Trace};
    ghost use Rattle.ace_portck.specs.Targets.{Recording, after};
    ghost use Rattle.ace_lineck.specs.Stands.{Stands, IsRoomy, place_on};

    /// The least rule of the share that an S breaks: K29, that its port may move silently from the
    /// state that it has the line in, and drops no update (Arm IHI 0022E, C4). `place` is that of
    /// its line. `drops` says whether it leaves its port without the line, while a memory update of
    /// the port on the line is outstanding.
    #[inline(always)]
    pub fn rule_of_s(
        &self,
        port: u8,
        st: LineState,
        place: Option<usize>,
        drops: bool,
    ) -> Option<u8>
        ensures { (r : Recording) (addr : ℕ) → Stands self.now r
            → place ≡ place_on self.now (Some addr)
            → drops ≡ (is_invalid st && has_update r.header r.past port addr)
            → result ≡ least_of line_rules r.header r.past (S port addr st) }
    {
        unless(
            may_move(self.record(place).state(port), st, drops),
            Some(29),
        )
    }

    /// Takes an S that breaks no rule: its port has the line in the new state. `place` is that of
    /// its line.
    #[inline(always)]
    pub fn hear_change(&mut self, port: u8, st: LineState, place: Option<usize>)
        ensures stands { (r : Recording) (addr : ℕ) → Stands self.old r
            → place ≡ place_on self.old (Some addr)
            → least_broken r.header r.past (S port addr st) ≡ None
            → length r.past < 2 ^ 64 - 1
            → Stands self.new (after r (S port addr st)) }
        ensures roomy { (n : ℕ) (past : Trace)
            → IsRoomy n past self.old → IsRoomy n past self.new }
    {
        let Some(place) = place else {
            return;
        };
        let Some(kept) = self.lines.get_index_mut(place) else {
            return;
        };
        set_state(&mut kept.states, port, st);
    }
}
