//! Worked rows of the sets of a snoop filter, and tests of the filter. They stand in a crate of
//! their own, so that what they test is proved once.
#![tactic(auto, unfolding(ace_codes::specs::Reads::ar_kind_of, ace_codes::specs::Snoops::ac_kind_of, ace_codes::specs::Writes::aw_kind_of))]

#[cfg(test)]
mod drain;
#[cfg(test)]
mod filter;
pub mod rows;
