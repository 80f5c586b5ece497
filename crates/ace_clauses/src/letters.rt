/// The place of a clause among those of its rule, in the order in which they are asked.
#[derive(Clone, Copy)]
pub enum Letter {
    A,
    B,
    C,
    D,
    E,
    F,
    G,
    H,
    I,
}

/// A clause of a rule: the rule's number, from 1 to 40, and the letter.
#[derive(Clone, Copy)]
pub struct ClauseName {
    pub rule: u8,
    pub letter: Letter,
}
