//! Tests of what is told of a trace. They stand in a crate of their own, so that what they test is
//! proved once.
#![tactic(auto)]

#[cfg(test)]
mod json;
#[cfg(test)]
mod malformed;
#[cfg(test)]
mod texts;
