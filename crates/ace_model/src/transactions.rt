use ace_event::Channel;

/// A transaction: what its address event says, and how many events came before that one. A write
/// has no `lock`.
#[derive(Clone, Copy, Debug, PartialEq, Eq)]
pub struct Transaction {
    pub place: usize,
    pub port: u8,
    pub chan: Channel,
    pub id: u8,
    pub addr: u32,
    pub snoop: u8,
    pub dom: u8,
    pub bar: u8,
    pub lock: bool,
}
