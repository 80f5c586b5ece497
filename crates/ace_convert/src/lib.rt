//! Traces from one form to another, event by event as they are read: the work of the commands that
//! write a trace of a trace.
#![tactic(auto)]

mod conversion;
mod copy;
mod end;
pub mod laws;
mod next;

pub use conversion::Conversion;
pub use copy::convert;
pub use end::TraceEnd;
