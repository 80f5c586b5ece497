/// The first event of a trace that breaks a rule: its number, from 1, and the least rule that it
/// breaks.
#[derive(Clone, Copy, Debug, PartialEq, Eq)]
pub struct Break {
    pub index: u64,
    pub rule: u8,
}
