//! Tests of the verdict on a text, and of accounts of what was followed. They stand in a crate of
//! their own, so that what they test is proved once.
#![tactic(auto)]

#[cfg(test)]
mod accounts;
#[cfg(test)]
mod verdicts;
