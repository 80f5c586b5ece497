// What there is to say of a trace.
ghost use Rattle.std.specs.Prelude.{◌≡◌};
ghost use Rattle.ace_explanation.specs.Explanations.{outstanding_in, verdict_of};

use crate::refusal::Refusal;
use ace_malformed::BadLine;
use ace_verdict::Verdict;

/// What there is to say of a trace.
#[derive(Clone, Copy)]
pub enum Explanation {
    /// An event breaks a rule.
    Refused { refusal: Refusal },
    /// A line is malformed.
    Malformed { bad: BadLine },
    /// Each event is accepted; so many transactions are outstanding at the end.
    Accepted { events: u64, outstanding: u64 },
    /// Another verdict, which says all.
    Other { verdict: Verdict },
}

impl Explanation {
    /// The verdict on the trace.
    pub fn verdict(self) -> Verdict
        ensures { result ≡ verdict_of self }
    {
        match self {
            Explanation::Refused { refusal } => Verdict::Refused {
                index: refusal.index,
                rule: refusal.rule,
            },
            Explanation::Malformed { bad } => Verdict::Malformed {
                line: bad.number,
                reason: bad.reason,
            },
            Explanation::Accepted { events, .. } => Verdict::Accepted { events },
            Explanation::Other { verdict } => verdict,
        }
    }

    /// How many transactions are outstanding at the end of an accepted trace; else 0.
    pub fn outstanding(self) -> u64
        ensures { result ≡ outstanding_in self }
    {
        match self {
            Explanation::Accepted { outstanding, .. } => outstanding,
            _ => 0,
        }
    }
}
