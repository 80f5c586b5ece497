//! The masters of the ports: each does the operations that the plan has for its port.
#![tactic(auto)]

mod ace;
mod ace_port;
mod ace_steps;
mod acknowledging;
mod answering;
mod asking;
mod bursts;
mod going_on;
mod issues;
mod kept_burst;
mod kept_port;
pub mod laws;
mod lite;
mod lite_requests;
mod master;
mod operations;
mod port_operations;
mod pushing;
mod sending;

pub use ace::AceMaster;
pub use ace_port::AcePort;
pub use answering::answer;
pub use asking::Asking;
pub use bursts::{burst_of, completion_burst};
pub use lite::LiteMaster;
pub use master::Master;
pub use port_operations::PortOperations;
pub use sending::send;
