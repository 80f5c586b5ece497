//! Laws of what a master keeps to answer snoops and to send write data. These functions do no work:
//! what they promise is the law.

ghost use Rattle.std.specs.Prelude.{◌≡◌, ◌++◌, ◌∷◌, ℕ, Bool, false, true, [], List, Option, Some};
ghost use Rattle.ace_codes.specs.declared.kind.SnoopKind.{SnoopKind};
ghost use Rattle.ace_codes.specs.declared.state.LineState.{LineState};
ghost use Rattle.ace_event.specs.declared.event.Event.{Event};
ghost use Rattle.ace_tables.specs.declared.rows.Row.{Row};
ghost use Rattle.ace_model.specs.declared.plans.PolicyWord.TheVariants.{Keep, Eager, Mixed};
ghost use Rattle.ace_model.specs.declared.transactions.Transaction.{Transaction};
ghost use Rattle.ace_model.specs.Plans.{Plan};
ghost use Rattle.ace_model.specs.Trace.{Trace};
ghost use Rattle.ace_model.specs.Values.{stores_data};
ghost use Rattle.ace_model.specs.Writes.{beats, data_writes};
ghost use Rattle.ace_runs.specs.Bursts.{onto};
ghost use Rattle.ace_runs.specs.MasterSteps.{may_send};
ghost use Rattle.ace_engine.specs.Engines.{Master, is_given_by};
ghost use Rattle.ace_policy.specs.Policies.{eager_rows, keep_rows};
ghost use Rattle.ace_portck.specs.declared.target.WriteData.{WriteData};
ghost use Rattle.ace_master.specs.Answering.{AreDataSent, IsByWord, is_answer_of};
ghost use Rattle.ace_master.specs.Sending.{IsForData, IsSent, UnsentStands};

/// A port that has sent the data of its answers has done so until it answers again, which no other
/// engine does.
pub fn data_stay_sent()
    ensures first { (p : ℕ) → AreDataSent [] p }
    ensures stays { (past : Trace) (p : ℕ) (e : Event) → is_answer_of p e ≡ false
        → AreDataSent past p → AreDataSent (e ∷ past) p }
    ensures others { (past : Trace) (p : ℕ) (e : Event) → is_given_by Master past p e ≡ false
        → is_answer_of p e ≡ false }
{}

/// The burst that a master hasn't sent: none at first, after a burst none, and after a write with
/// data that of this. What leaves the port's write data leaves it.
pub fn unsent_burst_is_kept()
    ensures first { (plan : Plan) (p : ℕ) (unsent : Option WriteData)
        → UnsentStands plan [] p unsent }
    ensures stays { (plan : Plan) (past : Trace) (p : ℕ) (e : Event) (unsent : Option WriteData)
        → data_writes (e ∷ past) p ≡ data_writes past p
        → beats (e ∷ past) p ≡ beats past p → UnsentStands plan past p unsent
        → UnsentStands plan (e ∷ past) p unsent }
    ensures sent { (plan : Plan) (past : Trace) (p : ℕ) (burst : List Event)
        (before unsent : Option WriteData) → IsSent plan past p burst
        → UnsentStands plan past p before → UnsentStands plan (onto burst past) p unsent }
    ensures issued { (plan : Plan) (past : Trace) (p : ℕ) (e : Event)
        (x : Transaction) (before unsent : Option WriteData)
        → data_writes (e ∷ past) p ≡ data_writes past p ++ x ∷ []
        → beats (e ∷ past) p ≡ beats past p → may_send plan.header past p ≡ false
        → UnsentStands plan past p before → (stores_data x ≡ true
        → (d : WriteData) × (unsent ≡ Some d) × IsForData plan (e ∷ past) x d)
        → UnsentStands plan (e ∷ past) p unsent }
{}

/// The policies pick what the words of a plan allow.
pub fn policies_go_by_their_words()
    ensures keep { IsByWord Keep keep_rows }
    ensures eager { IsByWord Eager eager_rows }
    ensures mixed { (n : ℕ) (rows : SnoopKind → LineState → Bool → List Row)
        → IsByWord (Mixed n) rows }
{}
