//! Where to look first when a trace breaks a rule: how designs break it in practice, and what is
//! often wrong in a recorder instead.
#![tactic(auto)]

mod designs;
mod recorders;
#[cfg(test)]
mod tests;

pub use designs::in_a_design;
pub use recorders::in_a_recorder;
