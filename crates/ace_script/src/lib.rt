//! Scripts: their text, read as a plan and written, and the plans that are made from a number.
#![tactic(auto)]

mod error;
mod fields;
mod generate;
mod header;
pub mod laws;
mod lines;
mod operation;
mod plan;
mod put;
mod read;
mod reason;

pub use ace_model::{Op, PlanOp, PlanView, PolicyWord};
pub use error::PlanErr;
pub use plan::Plan;
pub use reason::Reason;
