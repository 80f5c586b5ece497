//! Where what is kept of lines stands: a map by lines in which a look-up takes a few steps, however
//! the lines are chosen.
#![tactic(auto)]

mod map;
mod places;
mod walk;

pub use map::LineMap;
pub use places::Places;
