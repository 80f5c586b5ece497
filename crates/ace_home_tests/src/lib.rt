//! Tests of the engine of lines. They stand in a crate of their own, so that what they test is
//! proved once.
#![tactic(auto)]

#[cfg(test)]
mod acknowledge;
#[cfg(test)]
mod home;
