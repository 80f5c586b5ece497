//! What the master of an ACE port keeps of the trace of a run: the lines that it holds, its
//! monitor, what it has done for its next operation, the identifiers that it uses and the DVM
//! Completes that it owes; and what its operations ask for.
#![tactic(auto)]

mod ace_requests;
mod acts;
mod arriving;
mod cached;
mod change;
mod closing;
mod completions;
mod identifier_set;
mod identifiers;
mod kept;
mod monitor;
mod retiring;
mod segment;
mod sought;
mod syncs;

pub use ace_requests::{Request, request_of};
pub use cached::Cached;
pub use closing::{Closing, gives_access};
pub use completions::Completions;
pub use identifiers::Identifiers;
pub use kept::Kept;
pub use monitor::Monitor;
pub use segment::Segment;
pub use syncs::Syncs;
