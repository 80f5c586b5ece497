/// The shareability domain of a transaction (Arm IHI 0022E, C1.6 and C3.1.2, AxDOMAIN).
#[derive(Clone, Copy, Debug, PartialEq, Eq)]
pub enum Domain {
    /// No other master may hold the line.
    NonShareable,
    /// The masters of the inner domain may hold the line.
    Inner,
    /// The masters of the outer domain may hold the line.
    Outer,
    /// Every master sees the access, and no cache holds the line.
    System,
}

/// How a transaction stands to barriers (Arm IHI 0022E, C3.1.3 and C8.1, AxBAR).
#[derive(Clone, Copy, Debug, PartialEq, Eq)]
pub enum Bar {
    /// A normal access, which barriers order.
    Normal,
    /// A memory barrier.
    Memory,
    /// A normal access that ignores barriers.
    Ignoring,
    /// A synchronisation barrier.
    Synchronisation,
}
