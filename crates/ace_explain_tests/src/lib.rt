//! Tests of the clauses that are told. They stand in a crate of their own, so that what they test
//! is proved once.
#![tactic(auto)]

#[cfg(test)]
mod address_rows;
#[cfg(test)]
mod cache_rows;
#[cfg(test)]
mod order_rows;
#[cfg(test)]
mod read_rows;
#[cfg(test)]
mod rows;
#[cfg(test)]
mod snoop_rows;
#[cfg(test)]
mod told;
#[cfg(test)]
mod write_rows;
