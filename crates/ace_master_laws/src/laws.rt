//! Laws of the steps of masters. These functions do no work: what they promise is the law.

ghost use Rattle.std.specs.Prelude.{◌≡◌, ◌≤◌, ℕ, true, false, length, List, [], ◌∷◌, Some};
ghost use Rattle.ace_event.specs.declared.event.Channel.{Channel};
ghost use Rattle.ace_event.specs.declared.event.Event.{Event};
ghost use Rattle.ace_model.specs.declared.transactions.Transaction.{Transaction};
ghost use Rattle.ace_model.specs.Accepted.{IsAccepted};
ghost use Rattle.ace_model.specs.Plans.{Plan};
ghost use Rattle.ace_model.specs.Trace.{Trace};
ghost use Rattle.ace_model.specs.Transactions.{is_ace};
ghost use Rattle.ace_runs.specs.Bursts.{onto};
ghost use Rattle.ace_runs.specs.Follows.{FollowsSoFar};
ghost use Rattle.ace_runs.specs.HeldLines.{held_lines};
ghost use Rattle.ace_runs.specs.MasterSteps.{acknowledge_of, due};
ghost use Rattle.ace_runs.specs.Operations.{next_operation};
ghost use Rattle.ace_runs.specs.Steps.{is_step_by};
ghost use Rattle.ace_engine.specs.Engines.{IsLegal, Master, is_given_by};
ghost use Rattle.ace_master_laws.specs.Chosen.{AreChosen};
ghost use Rattle.ace_master_laws.specs.Orderly.{IsOrderly};

/// In a trace that follows a plan so far a port holds no more lines than there are ways.
pub fn no_more_lines_than_ways()
    ensures { (plan : Plan) (past : Trace) (p : ℕ) → FollowsSoFar plan past
        → length (held_lines plan.header past p) ≤ plan.ways }
{}

/// Before the first event a port keeps what it is to keep.
pub fn orderly_at_first()
    ensures { (plan : Plan) (p : ℕ) → IsOrderly plan [] p }
{}

/// An event that isn't one of the master of an ACE port leaves what the port keeps.
pub fn orderly_while_heard()
    ensures { (plan : Plan) (past : Trace) (p : ℕ) (e : Event) → is_ace plan.header p ≡ true
        → IsAccepted plan.header (e ∷ past)
        → is_given_by Master past p e ≡ false → IsOrderly plan past p
        → IsOrderly plan (e ∷ past) p }
{}

/// A step of the master of an ACE port, with answers that the policy picks and data of the
/// operations, keeps a legal trace legal, and what the port keeps.
pub fn step_of_a_master()
    ensures legal { (plan : Plan) (past : Trace) (p : ℕ) (burst : List Event)
        → is_ace plan.header p ≡ true → IsLegal plan past → IsOrderly plan past p
        → is_step_by (1 ∷ 2 ∷ 4 ∷ 14 ∷ []) plan past p burst ≡ true → AreChosen plan past burst
        → IsLegal plan (onto burst past) }
    ensures orderly { (plan : Plan) (past : Trace) (p : ℕ) (burst : List Event)
        → is_ace plan.header p ≡ true → IsLegal plan past → IsOrderly plan past p
        → is_step_by (1 ∷ 2 ∷ 4 ∷ 14 ∷ []) plan past p burst ≡ true → AreChosen plan past burst
        → IsOrderly plan (onto burst past) p }
{}

/// The acknowledge that is due to an ACE port is a step of it: there is a state in which the
/// transaction may end, and no event of the burst breaks a rule.
pub fn acknowledge_is_a_step()
    ensures { (plan : Plan) (past : Trace) (p : ℕ) (c : Channel) (x : Transaction)
        → is_ace plan.header p ≡ true → IsLegal plan past → IsOrderly plan past p
        → due plan.header past p c ≡ Some x
        → is_step_by (4 ∷ []) plan past p
        (acknowledge_of (next_operation plan past p) plan.header past x) ≡ true }
{}
