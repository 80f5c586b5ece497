/// The state of a line in a master's cache (Arm IHI 0022E, C1.2.3).
#[derive(Clone, Copy, Debug, PartialEq, Eq)]
pub enum LineState {
    /// Invalid: the cache does not hold the line.
    I,
    /// UniqueClean: no other cache holds the line, and memory has its value.
    UC,
    /// UniqueDirty: no other cache holds the line, and this one has to write it to memory.
    UD,
    /// SharedClean: other caches may hold the line, and this one need not write it.
    SC,
    /// SharedDirty: other caches may hold the line, and this one has to write it to memory.
    SD,
}
