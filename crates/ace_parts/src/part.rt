use ace_batch::{Entry, Shard};

/// The results of a part of a list of traces, all of which were looked at.
#[derive(Drop)]
pub struct Part {
    /// Which part.
    pub shard: Shard,
    /// The results of its traces, in their order.
    pub entries: Vec<Entry>,
}

/// Why a text isn't the results of a part.
#[derive(Clone, Copy, Debug, PartialEq, Eq)]
pub enum PartErr {
    /// It ends before they do.
    Cut,
    /// This line, counted from 1, is the first that can be none of them.
    Wrong { line: u64 },
    /// So many traces of the part were not looked at.
    Left { count: u64 },
    /// There was no memory for them.
    NoMemory,
}
