use ace_clauses::Letter;

/// What a page tells of: a rule, or one clause of it.
#[derive(Clone, Copy)]
pub struct Page {
    pub rule: u8,
    pub letter: Option<Letter>,
}
