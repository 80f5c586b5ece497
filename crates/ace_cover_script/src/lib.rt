//! Scripts that are made from a number to reach points of coverage, and the call that writes one.
#![tactic(auto)]

mod call;
mod operations;
mod places;
mod plan;
mod shape;
mod wish;

pub use call::generate;
pub use plan::cover_plan;
