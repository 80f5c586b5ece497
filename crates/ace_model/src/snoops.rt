/// A snoop of a port: what its AC event says, and how many events came before that one.
#[derive(Clone, Copy, Debug, PartialEq, Eq)]
pub struct Snoop {
    pub place: usize,
    pub addr: u32,
    pub snoop: u8,
}

/// An answer of a port to a snoop: how many events came before its CR event, its CRRESP, and how
/// many answers with data the port had given before.
#[derive(Clone, Copy, Debug, PartialEq, Eq)]
pub struct Answer {
    pub place: usize,
    pub resp: u8,
    pub bursts: usize,
}
