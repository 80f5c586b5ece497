//! A certificate, and what it has of each line and each read. Events have numbers, from 1 on.

use crate::lists::{EventList, LineList, PlaceList};

/// The stores to a line, in order.
#[derive(Drop)]
pub struct LineOrder {
    /// The address of the line.
    pub addr: u32,
    /// The numbers of the events that store to it.
    pub stores: EventList,
}

/// A read, and the point of the trace at which it takes its place among the stores of its line.
#[derive(Clone, Copy, Debug, PartialEq, Eq)]
pub struct ReadPlace {
    /// The number of the load, or of the AR of the read of a line.
    pub event: u32,
    /// How many events come before that point.
    pub place: u32,
}

/// A certificate of a trace: the stores of each line that a transaction names, in order of address,
/// and the place of each read, in the order of their events.
#[derive(Drop)]
pub struct Cert {
    pub lines: LineList,
    pub reads: PlaceList,
}
