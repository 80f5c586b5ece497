//! Tests of the top call of `acetool`. They stand in a crate of their own, so that what they
//! test is proved once.
#![tactic(auto)]

#[cfg(test)]
mod calls;
#[cfg(test)]
mod charts;
#[cfg(test)]
mod shelf;
