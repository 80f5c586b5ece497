//! Tests of the reader and the writer of traces. They stand in a crate of their own, so that what
//! they test is proved once.
#![tactic(auto)]

#[cfg(test)]
mod handed;
#[cfg(test)]
mod limits;
#[cfg(test)]
mod pieces;
#[cfg(test)]
mod records;
#[cfg(test)]
mod refusals;
#[cfg(test)]
mod writer;
