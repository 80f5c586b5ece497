//! Tests of the shares of the checker, of the checker over them, and of the report. They stand in a
//! crate of their own, so that what they test is proved once.
#![tactic(auto)]

#[cfg(test)]
mod barrier_cases;
#[cfg(test)]
mod cases;
#[cfg(test)]
mod checker;
#[cfg(test)]
mod kinds;
#[cfg(test)]
mod line_cases;
#[cfg(test)]
mod lines;
#[cfg(test)]
mod one_port;
#[cfg(test)]
mod ports;
#[cfg(test)]
mod record_cases;
#[cfg(test)]
mod report;
#[cfg(test)]
mod system;
