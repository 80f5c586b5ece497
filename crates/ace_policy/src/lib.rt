//! How a master picks its answer to a snoop among the permitted ones.
#![tactic(auto)]

mod chosen;
mod eager;
mod keep;
mod listed;
mod mixed;
mod policy;

pub use chosen::Chosen;
pub use eager::Eager;
pub use keep::Keep;
pub use listed::Listed;
pub use mixed::Mixed;
pub use policy::Policy;
