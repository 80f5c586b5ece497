//! Tests of side files. They stand in a crate of their own, so that what they test is proved once.
#![tactic(auto)]

#[cfg(test)]
mod facts;
#[cfg(test)]
mod side_files;
