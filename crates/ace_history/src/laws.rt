//! Laws of histories. These functions do no work: what they promise is the law.

ghost use Rattle.std.specs.Prelude.{◌≡◌, ◌≤◌, ℕ, true, List, ◌∷◌, ◌++◌};
ghost use Rattle.std.specs.List.{AllByRecursion};
ghost use Rattle.ace_event.specs.declared.event.Event.{Event};
ghost use Rattle.ace_event.specs.declared.event.Outcome.TheVariants.{Ok};
ghost use Rattle.ace_event.specs.Range.{FitsFields};
ghost use Rattle.ace_model.specs.Copies.{word_of, zero_line};
ghost use Rattle.ace_history.specs.declared.entry.Entry.{Entry};
ghost use Rattle.ace_model.specs.declared.plans.Op.TheVariants.{Stx};
ghost use Rattle.ace_model.specs.declared.plans.PlanOp.{PlanOp};
ghost use Rattle.ace_model.specs.Accepted.{IsAccepted};
ghost use Rattle.ace_model.specs.Plans.{Plan, IsRightAfter, longer};
ghost use Rattle.ace_model.specs.Trace.{Trace};
ghost use Rattle.ace_runs.specs.Bursts.{onto};
ghost use Rattle.ace_runs.specs.Follows.{Done, FollowsSoFar};
ghost use Rattle.ace_runs.specs.Steps.{AreSteps};
ghost use Rattle.ace_history.specs.Ends.{CanEnd};
ghost use Rattle.ace_history.specs.Histories.{IsLegalHistory, history_of};
ghost use Rattle.ace_history.specs.Reserved.{IsLoadedBefore};
ghost use Rattle.ace_history.specs.Settled.{CallMade, IsSettled, is_call};
ghost use Rattle.ace_history.specs.Stored.{FitsStore, line_after, word_after};

/// Where a run is settled and one more call is put at the end of its plan, then once the run is
/// done again the history has one entry more, which is of that call and has the word that those
/// before it leave; and the run is settled.
pub fn a_call_makes_one_entry()
    ensures { (plan : Plan) (o : PlanOp) (past : Trace) (events : List Event)
        → IsSettled plan past → FollowsSoFar plan past
        → is_call o.op ≡ true → IsRightAfter plan.header plan.operations o
        → plan.header.version ≡ 1 → IsAccepted plan.header (onto events past)
        → FollowsSoFar (longer plan o) (onto events past)
        → Done (longer plan o) (onto events past)
        → AllByRecursion FitsFields (onto events past)
        → CallMade plan o past (onto events past) }
{}

/// The history of a settled run that is done is legal.
pub fn a_settled_history_is_legal()
    ensures { (plan : Plan) (past : Trace) → IsSettled plan past
        → IsAccepted plan.header past → FollowsSoFar plan past → Done plan past
        → AreSteps plan past → IsLegalHistory plan (history_of plan past) }
{}

/// Word k of a line after the entries is that of the last store to it, or 0.
pub fn a_word_is_that_of_its_last_store()
    ensures { (history : List Entry) (a k : ℕ) → k ≤ 3
        → AllByRecursion (λ (e : Entry). FitsStore e.op) history
        → word_of (line_after a zero_line history) k ≡ word_after a k 0 history }
{}

/// An exclusive store of a legal history is exclusive: where a `stx` is `ok`, a `ldx` of its port
/// on its line is before it, and between them no other port stores to the line.
pub fn an_exclusive_store_is_exclusive()
    ensures { (plan : Plan) (history before rest : List Entry) (e : Entry) (a w word : ℕ)
        → IsLegalHistory plan history → history ≡ before ++ e ∷ rest
        → e.op ≡ Stx a w word → e.res ≡ Ok → IsLoadedBefore before e.port a }
{}

/// Each call of a legal history ends with an outcome of its operation: a load or a store is done,
/// an exclusive store that isn't done failed, and a WriteBack that isn't done had nothing to write
/// back.
pub fn each_call_ends_as_its_operation_can()
    ensures { (plan : Plan) (history : List Entry) → IsLegalHistory plan history
        → AllByRecursion (λ (e : Entry). CanEnd e.op e.res) history }
{}
