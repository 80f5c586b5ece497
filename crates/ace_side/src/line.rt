use crate::ShortText;

/// A hexadecimal number as it is written: how many digits it has, and its value.
#[derive(Clone, Copy, Debug, PartialEq, Eq)]
pub struct Digits {
    /// How many digits, leading zeros among them.
    pub count: u8,
    pub value: u64,
}

/// A line of a side file.
#[derive(Drop)]
pub enum SideLine {
    /// The unit of the times.
    TimeUnit { word: ShortText },
    /// The name of a port.
    Port { port: u8, name: ShortText },
    /// The line with this address in the trace is that with this real address.
    Addr { addr: u32, real: Digits },
    /// From this event on the time is this one.
    Time { event: u64, time: u64 },
    /// The transaction of this event had this identifier in the design.
    Id { event: u64, id: Digits },
    /// A remark at this event.
    Note { event: u64, text: ShortText },
    /// This upper part of the words of DVM messages stands for this real one.
    Word { word: u32, real: Digits },
    /// The trace has so many events, and the recorder ended by itself.
    End { count: u64 },
    /// The recorder refused to go on after so many events.
    Broken { count: u64 },
    /// The recorder was told to stop after so many events.
    Cut { count: u64 },
}

/// How a side file ends, by its last line.
#[derive(Clone, Copy, Debug, PartialEq, Eq)]
pub enum SideEnd {
    /// The trace has so many events, and the recorder ended by itself.
    End(u64),
    /// The recorder refused to go on after so many events.
    Broken(u64),
    /// The recorder was told to stop after so many events.
    Cut(u64),
}
