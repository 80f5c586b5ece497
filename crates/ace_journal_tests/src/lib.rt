//! Tests of what led to an event. They stand in a crate of their own, so that what they test is
//! proved once.
#![tactic(auto)]

#[cfg(test)]
mod told;
