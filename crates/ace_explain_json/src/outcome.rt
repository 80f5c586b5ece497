// How the check of a trace came out.
ghost use Rattle.std.specs.Prelude.{◌≡◌};
ghost use Rattle.ace_explain_json.specs.Outcomes.{outcome_of_verdict};

use ace_batch::Outcome;
use ace_verdict::Verdict;

/// How the check of a trace came out, by its verdict.
pub fn outcome_of_verdict(verdict: Verdict) -> Outcome
    ensures { result ≡ outcome_of_verdict verdict }
{
    match verdict {
        Verdict::Accepted { .. } => Outcome::Accepted,
        Verdict::Refused { .. } => Outcome::Refused,
        Verdict::Malformed { .. } => Outcome::Malformed,
        Verdict::ReadFault => Outcome::Unreadable,
        Verdict::LimitEvents | Verdict::LimitLines => Outcome::Limited,
        Verdict::NoMemory => Outcome::NoMemory,
    }
}
