//! Tests of what a chart draws, and of its text. They stand in a crate of their own, so that what
//! they test is proved once.
#![tactic(auto)]

#[cfg(test)]
mod drawn;
#[cfg(test)]
mod traces;
