//! Facts about the definitions, as contracts of functions that do nothing.

ghost use Rattle.std.specs.Prelude.{◌≡◌, ℕ, List};
ghost use Rattle.ace_verdict.specs.declared.limits.Limits.{Limits};
ghost use Rattle.ace_verdict.specs.declared.verdict.Verdict.{Verdict};
ghost use Rattle.ace_verdict.specs.declared.verdict.Verdict.TheVariants.{Accepted};
ghost use Rattle.ace_verdict.specs.Verdict.{IsDueVerdict, IsVerdictWithin, ReadsSoundWithin};

/// Within any limits one verdict is due to any bytes. Where it is that of an accepted trace, the
/// trace has all that acceptance promises.
pub fn one_verdict_is_due()
    ensures some { (limits : Limits) (bytes : List ℕ)
        → (verdict : Verdict) × IsDueVerdict verdict × IsVerdictWithin limits bytes verdict }
    ensures one { (limits : Limits) (bytes : List ℕ) (verdict other : Verdict)
        → IsDueVerdict verdict → IsDueVerdict other
        → IsVerdictWithin limits bytes verdict → IsVerdictWithin limits bytes other
        → verdict ≡ other }
    ensures sound { (limits : Limits) (bytes : List ℕ) (events : ℕ)
        → IsVerdictWithin limits bytes (Accepted events)
        → ReadsSoundWithin limits.events bytes }
{}
