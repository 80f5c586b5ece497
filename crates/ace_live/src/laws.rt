//! What follows from the rule, and from the promise of a call. These functions do no work: what
//! they promise is the law.

ghost use Rattle.std.specs.Prelude.{◌≡◌, ℕ, ◌<◌, List, [], ◌∷◌, ◌++◌, Option};
ghost use Rattle.atomic_table.specs.Table.{State};
ghost use Rattle.ace_history.specs.declared.entry.Entry.{Entry};
ghost use Rattle.ace_live.specs.declared.rule.View.{View};
ghost use Rattle.ace_live.specs.declared.setting.Setting.{Setting};
ghost use Rattle.ace_live.specs.Entries.{of_port};
ghost use Rattle.ace_live.specs.Rule.{Keeps, SomeHasSeen};
ghost use Rattle.ace_live.specs.Running.{Running};
ghost use Rattle.ace_live.specs.Views.{NoneBy};

/// Between any two steps some seat has seen all of the served history.
#[tactic(auto, using(crate::proofs::Implied::someone))]
pub fn some_view_has_seen_all()
    ensures { (key : Setting) (s : State (Option Running) View) (r : Keeps key s)
        → 0 < key.ports → SomeHasSeen r.history s.views }
{}

/// The history after a call has of the call's port the entries that the seat had seen, and then
/// that of this call: each call of a port once, in their order.
#[tactic(auto, using(crate::proofs::Implied::port_calls))]
pub fn calls_of_the_port()
    ensures { (p : ℕ) (seen others : List Entry) (e : Entry) → NoneBy (p ∷ []) others → e.port ≡ p
        → of_port p (seen ++ (others ++ e ∷ [])) ≡ of_port p seen ++ e ∷ [] }
{}
