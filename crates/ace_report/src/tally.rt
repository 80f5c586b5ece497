//! What is counted.

use ace_event::Line;

/// What a port did.
#[derive(Clone, Copy, Debug, PartialEq, Eq)]
pub struct PortTally {
    /// Its L events.
    pub loads: u64,
    /// Its D events.
    pub stores: u64,
    /// Its AR events.
    pub reads: u64,
    /// Its AW events.
    pub writes: u64,
}

/// What was stored to a line.
#[derive(Clone, Copy, Debug, PartialEq, Eq)]
pub struct LineTally {
    /// The stores to it.
    pub stores: u64,
    /// Its value: what memory was opened with, changed by these stores.
    pub value: Line,
}

/// A load.
#[derive(Clone, Copy, Debug, PartialEq, Eq)]
pub struct Load {
    /// The number of its event, from 1.
    pub event: u64,
    pub port: u8,
    pub addr: u32,
    /// The stores to its line before it.
    pub stores: u64,
}
