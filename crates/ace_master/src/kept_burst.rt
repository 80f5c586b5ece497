//! What is kept of an ACE port hears the bursts of its master.

ghost use Rattle.std.specs.Prelude.{◌≡◌, ◌≤◌, ◌<◌, ◌+◌, ◌++◌, ◌∷◌, ℕ, [], true, false, length};
ghost use Rattle.ace_event.specs.declared.event.Event.{Event};
ghost use Rattle.ace_model.specs.Plans.{Plan, has_right_fields};
ghost use Rattle.ace_model.specs.Trace.{Trace};
ghost use Rattle.ace_runs.specs.Bursts.{onto};
ghost use Rattle.ace_runs.specs.Closing.{closing_of};
ghost use Rattle.ace_runs.specs.Steps.{most_events};
ghost use Rattle.ace_engine.specs.Engines.{IsLegal};
ghost use Rattle.ace_master.specs.AceEvents.{HaveLowIds};
ghost use Rattle.ace_master_state.specs.Cached.{HasLowId};
ghost use Rattle.ace_master_state.specs.Kept.{KeptStands};
ghost use Rattle.ace_master_state.specs.Retiring.{IsToldOf};

use ace_engine::Burst;
use ace_event::Event;
use ace_master_state::{Closing, Kept};
use ace_model::Op;

/// Hears the events of the burst, which come next.
pub fn hear_all(kept: &mut Kept, burst: &Burst)
    ensures stands { (plan : Plan) (past : Trace) (p : ℕ) → KeptStands plan past p kept.old
        → IsLegal plan (onto burst.now past) → HaveLowIds burst.now
        → KeptStands plan (onto burst.now past) p kept.new }
    ensures most { length burst.now ≤ most_events }
{
    for i in 0..burst.len() {
        kept.hear(&burst.get(i));
    }
}

/// Hears the event, which comes next, and puts it at the end of the burst.
fn put(kept: &mut Kept, event: Event, out: &mut Burst)
    requires { length out.old < most_events }
    ensures stands { (plan : Plan) (past : Trace) (p : ℕ) → KeptStands plan past p kept.old
        → IsLegal plan (event ∷ past) → HasLowId event
        → KeptStands plan (event ∷ past) p kept.new }
    ensures burst { out.new ≡ out.old ++ event ∷ [] }
{
    kept.hear(&event);
    out.push(event);
}

/// Hears what ends the port's next operation, if anything does, and puts it at the end of the
/// burst. `refused` says whether the interconnect refused an exclusive store of the operation.
pub fn close(kept: &mut Kept, op: Op, refused: bool, out: &mut Burst)
    requires { length out.old + 2 ≤ most_events }
    ensures stands { (plan : Plan) (past : Trace) (p : ℕ) → KeptStands plan past p kept.old
        → has_right_fields op ≡ true → IsToldOf past p op refused
        → IsLegal plan (onto (closing_of plan.header past p op) past)
        → KeptStands plan (onto (closing_of plan.header past p op) past) p kept.new }
    ensures burst { (plan : Plan) (past : Trace) (p : ℕ) → KeptStands plan past p kept.old
        → has_right_fields op ≡ true → IsToldOf past p op refused
        → out.new ≡ out.old ++ closing_of plan.header past p op }
{
    match kept.closing_of(op, refused) {
        Closing::Nothing => {}
        Closing::Retires(retires) => put(kept, retires, out),
        Closing::Accesses(access, retires) => {
            put(kept, access, out);
            put(kept, retires, out);
        }
    }
}
