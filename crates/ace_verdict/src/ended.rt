use crate::verdict::Verdict;

/// The verdict on the text of a trace, and what is open at its end.
#[derive(Clone, Copy)]
pub struct Ended {
    pub verdict: Verdict,
    /// How many transactions are outstanding at the end of an accepted trace; else 0.
    pub outstanding: u64,
}
