//! Makes the order certificate of an accepted trace. The maker is told the events one by one, and
//! keeps none of them.
#![tactic(auto)]

mod changes;
pub mod laws;
mod lines;
mod maker;
mod reads;
#[cfg(test)]
mod tests;
mod track;
mod verified;
mod whole;

pub use maker::Maker;
pub use verified::{a_made_certificate_is_right, verified_reads_follow};
pub use whole::make;
