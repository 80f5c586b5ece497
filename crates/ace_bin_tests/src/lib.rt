//! Tests of the reader and the writer of binary traces.
#![tactic(auto)]

#[cfg(test)]
mod traces;
