//! Laws of whole runs. These functions do no work: what they promise is the law.

ghost use Rattle.std.specs.Prelude.{◌≡◌, ℕ, true, false};
ghost use Rattle.ace_model.specs.Plans.{IsRight, Plan};
ghost use Rattle.ace_model.specs.Trace.{Trace};
ghost use Rattle.ace_runs.specs.Steps.{AreSteps, is_enabled_by};
ghost use Rattle.ace_engine.specs.Engines.{EngineKind, IsLegal, is_master, numbers_of};
ghost use Rattle.ace_whole_runs.specs.HasStep.{HasStep};
ghost use Rattle.ace_whole_runs.specs.Runs.{AreStepsAmong, HaveHolders, IsRunOf, SetsAt};

/// Where a step of the interconnect may begin in a legal run, all of it can come: there is a burst
/// that is a step, and with it the run stays legal.
pub fn interconnect_has_a_step()
    ensures { (plan : Plan) (past : Trace) (p : ℕ) (kind : EngineKind)
        → is_master kind ≡ false → AreSteps plan past → IsLegal plan past
        → is_enabled_by (numbers_of kind) plan past p ≡ true
        → HasStep (numbers_of kind) plan past p }
{}

/// Each right plan has a run: a trace that is accepted, follows the whole plan, is a list of steps,
/// and has at most 256 events for each operation.
pub fn each_right_plan_has_a_run()
    ensures { (plan : Plan) → IsRight plan → (past : Trace) × IsRunOf plan past }
{}

/// The same where for each line only the ports of a set are snooped, if at every point of an
/// accepted trace the set has each port that holds the line: each right plan has a run whose steps
/// snoop no other port.
pub fn each_right_plan_has_a_run_among()
    ensures { (sets : SetsAt) (plan : Plan) → IsRight plan → HaveHolders sets plan
        → (past : Trace) × IsRunOf plan past × AreStepsAmong sets plan past }
{}
