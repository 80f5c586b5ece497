/// A word that comes with an event.
#[derive(Clone, Copy)]
pub struct SentWord {
    /// Which word of the line it comes as, from 0.
    pub number: u8,
    /// The word itself.
    pub word: u128,
}

/// What has a word of a line.
#[derive(Clone, Copy)]
pub enum Holder {
    /// Memory, since the event of this number: 0 where it was never written.
    Memory { since: u64 },
    /// The copy of the port, and whether the port holds the line now. The copy of a port that
    /// doesn't is what it had when it held the line.
    Copy { port: u8, held: bool },
}

/// Where a word that came stands: the first that has it.
#[derive(Clone, Copy)]
pub enum Origin {
    /// As the same word of the line.
    Same {
        holder: Holder,
    },
    /// It is 0, and neither memory nor a port that holds the line has it there.
    Zeros,
    /// As the word of this number of the line, from 0.
    OtherWord {
        number: u8,
        holder: Holder,
    },
    /// As the word of this number of another line: the one with the least address.
    OtherLine {
        line: u32,
        number: u8,
        holder: Holder,
    },
    /// Nowhere: neither memory nor a port has it as a word of any line.
    Nowhere,
}
