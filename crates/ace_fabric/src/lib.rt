//! The engines of a run that share one trace: a system of masters and an interconnect, for any
//! engines.
#![tactic(auto)]

mod fabric;
mod growing;
mod hearing;
mod idle;
mod left;
mod masters;
mod moving;
mod port_master;
mod system;

pub use fabric::{Fabric, Turn};
pub use masters::ScriptMaster;
pub use port_master::PortMaster;
pub use system::System;
