//! Lists of paths.
#![tactic(auto)]

mod list;

pub use list::paths_of;
