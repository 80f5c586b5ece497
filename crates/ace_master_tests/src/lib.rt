//! Tests of the masters of ports. They stand in a crate of their own, so that what they test is
//! proved once.
#![tactic(auto)]

#[cfg(test)]
mod ace;
#[cfg(test)]
mod acknowledging;
#[cfg(test)]
mod answers;
#[cfg(test)]
mod bursts;
#[cfg(test)]
mod going_on;
#[cfg(test)]
mod lite;
#[cfg(test)]
mod operations;
