//! The interface of the engines.

ghost use Rattle.std.specs.Prelude.{◌≡◌, ◌<◌, ℕ, Bool, true, false, [], ◌∷◌, IsTrue};
ghost use Rattle.ace_model.specs.declared.plans.PlanOp.{PlanOp};
ghost use Rattle.ace_model.specs.Plans.{Plan, IsRight, longer};
ghost use Rattle.ace_model.specs.Trace.{Trace};
ghost use Rattle.ace_runs.specs.Bursts.{onto};
ghost use Rattle.ace_runs.specs.Steps.{is_enabled_by, is_step_by};
ghost use Rattle.ace_engine.specs.Engines.{EngineKind, IsLegal, numbers_of, is_given_by, is_their_operation};

use crate::Burst;
use ace_event::Event;

/// An engine: it takes steps of some ports, in a run that has other engines too. It was made for a
/// plan. What it promises, it promises for every plan and every trace for which it stands.
pub trait Engine {
    /// Which steps it takes.
    ghost kind: { EngineKind };

    /// It takes steps of this port.
    ghost serves: { Self → ℕ → Bool };

    /// It stands for the plan and the trace.
    ghost stands: { Self → Plan → Trace → Type 0 };

    /// It stands only for a right plan, and a trace that is accepted, follows the plan so far and
    /// is lean.
    ghost legal: { (engine : Self) (plan : Plan) (past : Trace) → stands engine plan past
        → IsLegal plan past };

    /// With one more operation at the end of the plan it stands for the same trace, unless the
    /// operation is its own port's and it is a master.
    ghost grows: { (engine : Self) (plan : Plan) (past : Trace) (operation : PlanOp)
        → stands engine plan past
        → IsRight (longer plan operation) → is_their_operation kind (serves engine) operation
        ≡ false
        → stands engine (longer plan operation) past };

    /// Puts a step of the port in `out`, which is empty. Where none of its steps is enabled for the
    /// port, it answers false, and nothing has changed.
    fn turn(&mut self, port: u8, out: &mut Burst) -> bool
        requires stands { (plan : Plan) × (past : Trace) × stands self.old plan past
            × (port < plan.header.ports) }
        requires serves { serves self.old port ≡ true }
        requires out { out.old ≡ [] }
        ensures serves { (p : ℕ) → serves self.new p ≡ serves self.old p }
        ensures step { IsTrue result → (plan : Plan) (past : Trace) → stands self.old plan past
            → is_step_by (numbers_of kind) plan past port out.new ≡ true }
        ensures stands { IsTrue result → (plan : Plan) (past : Trace) → stands self.old plan past
            → stands self.new plan (onto out.new past) }
        ensures none { result ≡ false → (plan : Plan) (past : Trace) → stands self.old plan past
            → is_enabled_by (numbers_of kind) plan past port ≡ false }
        ensures unchanged { result ≡ false → (self.new ≡ self.old) × (out.new ≡ []) };

    /// Hears the next event of the trace, which is none that its own steps give.
    fn hear(&mut self, event: &Event)
        ensures serves { (p : ℕ) → serves self.new p ≡ serves self.old p }
        ensures stands { (plan : Plan) (past : Trace) → stands self.old plan past
            → IsLegal plan (event.now ∷ past)
            → ((p : ℕ) → serves self.old p ≡ true → is_given_by kind past p event.now ≡ false)
            → stands self.new plan (event.now ∷ past) };
}
