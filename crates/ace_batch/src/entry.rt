use crate::outcome::Outcome;

/// What is told of one trace.
#[derive(Drop)]
pub struct Entry {
    /// The path by which it is named.
    pub path: String,
    /// How its check came out.
    pub outcome: Outcome,
    /// How many events were judged: all of a trace whose events are accepted, and of a refused one
    /// those up to the first that breaks a rule.
    pub events: u64,
    /// How many transactions are outstanding at the end of an accepted trace.
    pub outstanding: Option<u64>,
    /// The line that is refused or malformed.
    pub line: Option<u64>,
    /// What traces that fail alike have in common: the broken clause, as K12d, the reason, as F5,
    /// or a few words; of an accepted trace nothing.
    pub signature: Vec<u8>,
    /// What is wrong, or that it is accepted.
    pub message: Vec<u8>,
    /// All that is told of it.
    pub text: Vec<u8>,
}
