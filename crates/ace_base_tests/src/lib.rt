//! Tests of the crates at the bottom: the words of the channels and the tables, events, sources and
//! sinks, maps by lines, line caches and policies. They stand in a crate of their own, so that what
//! they test is proved once.
#![tactic(auto)]

#[cfg(test)]
mod caches;
#[cfg(test)]
mod codes;
#[cfg(test)]
mod events;
#[cfg(test)]
mod outside;
#[cfg(test)]
mod patience;
#[cfg(test)]
mod places;
#[cfg(test)]
mod policies;
#[cfg(test)]
mod tables;
