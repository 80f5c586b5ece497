//! Facts about the names of lines, as contracts of functions that do nothing.

ghost use Rattle.std.specs.Prelude.{◌≡◌, ◌<◌, ◌-◌, ◌^◌, ◌∷◌, ℕ, Some, true, length};
ghost use Rattle.ace_event.specs.declared.event.Event.{Event};
ghost use Rattle.ace_model.specs.Trace.{Trace};
ghost use Rattle.ace_check.specs.Run.{goes_over_within};
ghost use Rattle.ace_c.specs.Names.{lines_used, name_in, named, named_next};

/// Two lines with one name are one.
#[tactic(auto, using(crate::proofs::Naming::one_to_one))]
pub fn names_are_one_to_one()
    ensures { (past : Trace) (a b k : ℕ) → name_in (lines_used past) a ≡ Some k
        → name_in (lines_used past) b ≡ Some k → a ≡ b }
{}

/// A line keeps its name as the trace grows.
#[tactic(auto, using(crate::proofs::Naming::names_stay))]
pub fn names_stay()
    ensures { (past : Trace) (e : Event) (l k : ℕ) → name_in (lines_used past) l ≡ Some k
        → name_in (lines_used (e ∷ past)) l ≡ Some k }
{}

/// A trace under its names grows by the next event under its name.
#[tactic(auto, using(crate::proofs::Naming::named_grows))]
pub fn named_traces_grow()
    ensures { (past : Trace) (e : Event) → named (e ∷ past) ≡ named_next past e ∷ named past }
{}

/// No event of a trace that a handle hears names more lines than the limit that 0 stands for.
#[tactic(auto, using(crate::proofs::Naming::no_limit))]
pub fn no_limit()
    ensures { (past : Trace) (e : Event) → length past < 2 ^ 64 - 1
        → goes_over_within (2 ^ 64 - 1) past e ≡ true → ⊥ }
{}
