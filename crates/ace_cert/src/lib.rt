//! Order certificates: what names the stores of each line in their order and a place for each read,
//! so that it can be confirmed without any rule that all reads of a trace follow one order of the
//! stores.
#![tactic(auto)]

mod cert;
pub mod laws;
mod lists;
pub mod rows;
#[cfg(test)]
mod tests;
mod verification;

pub use cert::{Cert, LineOrder, ReadPlace};
pub use lists::{EventList, LineList, PlaceList};
pub use verification::verify;
