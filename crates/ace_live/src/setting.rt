// What a live system is opened with.

use ace_model::PolicyWord;

/// How many ACE ports a live system has, how many lines each cache holds, how snoops are answered,
/// and how many calls there is room for.
#[derive(Clone, Copy, Debug, PartialEq, Eq)]
pub struct Setting {
    pub ports: u8,
    pub ways: u8,
    pub policy: PolicyWord,
    pub room: u16,
}
