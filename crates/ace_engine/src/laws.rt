//! Laws of the traces for which engines stand. These functions do no work: what they promise is the
//! law.

ghost use Rattle.std.specs.Prelude.{◌≡◌, ◌≢◌, ℕ, true, false, List};
ghost use Rattle.ace_event.specs.declared.event.Event.{Event};
ghost use Rattle.ace_model.specs.declared.plans.PlanOp.{PlanOp};
ghost use Rattle.ace_model.specs.Plans.{Plan, IsRight, longer};
ghost use Rattle.ace_model.specs.Trace.{Trace};
ghost use Rattle.ace_runs.specs.Bursts.{onto};
ghost use Rattle.ace_runs.specs.Steps.{is_enabled_by, is_step_by};
ghost use Rattle.ace_engine.specs.Engines.{EngineKind, IsLegal, Master, is_given_by};

/// What an engine may stand for was so at each of its points.
pub fn legal_at_each_point()
    ensures { (plan : Plan) (burst : List Event) (past : Trace) → IsLegal plan (onto burst past)
        → IsLegal plan past }
{}

/// With one more operation at the end of the plan an engine may stand for the same trace.
pub fn legal_for_a_longer_plan()
    ensures { (plan : Plan) (past : Trace) (operation : PlanOp) → IsLegal plan past
        → IsRight (longer plan operation)
        → IsLegal (longer plan operation) past }
{}

/// A port for which there is a step of some numbers is enabled by one of them.
pub fn step_by_is_enabled_by()
    ensures { (numbers : List ℕ) (plan : Plan) (past : Trace) (p : ℕ) (burst : List Event)
        → is_step_by numbers plan past p burst ≡ true → is_enabled_by numbers plan past p ≡ true }
{}

/// No event is one that steps of engines of two kinds give, or of masters of two ports.
pub fn events_have_one_engine()
    ensures kinds { (past : Trace) (kind other : EngineKind) (p q : ℕ) (e : Event) → kind ≢ other
        → is_given_by kind past p e ≡ true → is_given_by other past q e ≡ false }
    ensures masters { (past : Trace) (p q : ℕ) (e : Event) → p ≢ q
        → is_given_by Master past p e ≡ true → is_given_by Master past q e ≡ false }
{}
