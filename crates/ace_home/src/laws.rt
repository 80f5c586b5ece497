//! Laws of runs in which only ports of sets are snooped. These functions do no work: what they
//! promise is the law.

ghost use Rattle.std.specs.Prelude.{◌≡◌, ◌<◌, ℕ, List};
ghost use Rattle.ace_event.specs.declared.event.Event.{Event};
ghost use Rattle.ace_model.specs.Plans.{IsRight, Plan};
ghost use Rattle.ace_model.specs.Trace.{Trace};
ghost use Rattle.ace_runs.specs.Follows.{Done, FollowsSoFar};
ghost use Rattle.ace_runs.specs.Steps.{AreSteps, IsStep, is_enabled};
ghost use Rattle.ace_home.specs.Among.{EnabledAmong, HasHolders, IsStepAmong, PortSets, all_ports, is_enabled_among};

/// A run in which only ports of sets are snooped that have each holder never gets stuck: where it
/// follows a right plan so far and isn't done, a port of the header is enabled.
pub fn run_goes_on_among()
    ensures { (among : PortSets) (plan : Plan) (past : Trace) → IsRight plan → AreSteps plan past
        → FollowsSoFar plan past → HasHolders among plan.header past → (Done plan past → ⊥)
        → (p : ℕ) × (p < plan.header.ports) × EnabledAmong among plan past p }
{}

/// A step in which only ports of sets are snooped is a step, so a run of such steps is a run. Over
/// the sets of all ports a port is enabled exactly where it is enabled.
pub fn step_among_is_a_step()
    ensures step { (among : PortSets) (plan : Plan) (past : Trace) (p : ℕ) (burst : List Event)
        → IsStepAmong among plan past p burst → IsStep plan past p burst }
    ensures enabled { (plan : Plan) (past : Trace) (p : ℕ)
        → is_enabled_among all_ports plan past p ≡ is_enabled plan past p }
{}
