//! The cache of a master: a few lines, the most recently used first.
#![tactic(auto)]

pub mod laws;
mod line_cache;
mod way;
mod ways;

pub use line_cache::LineCache;
pub use way::Way;
