//! Tests of the results of many traces. They stand in a crate of their own, so that what they test
//! is proved once.
#![tactic(auto)]

#[cfg(test)]
mod entries;
#[cfg(test)]
mod lists;
#[cfg(test)]
mod looked;
#[cfg(test)]
mod parts;
#[cfg(test)]
mod texts;
