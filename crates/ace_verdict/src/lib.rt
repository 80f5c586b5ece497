//! The verdict on the text of a trace: the reader, the checker and what hears an account, from the
//! bytes of a source to the answer.
#![tactic(auto)]

mod check;
mod ended;
mod follow;
pub mod laws;
mod limits;
mod verdict;

pub use check::{ended_within, follow_trace, verdict_on, verdict_within};
pub use ended::Ended;
pub use follow::{Follower, put_account};
pub use limits::Limits;
pub use verdict::Verdict;
