//! Tests of live ports: calls from threads, and calls of one state against an array of words. They
//! stand in a crate of their own, so that what they test is proved once.
#![tactic(auto)]

#[cfg(test)]
mod arrays;
#[cfg(test)]
mod callers;
