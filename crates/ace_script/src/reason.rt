ghost use Rattle.std.specs.Prelude.{◌≡◌};
ghost use Rattle.ace_script.specs.Fields.{number_of_reason};

/// Why a line of a script is malformed. A line has the least reason that applies. Header lines have
/// `P1` and `P7` alone, the other lines all but `P7`.
#[derive(Clone, Copy, Debug, PartialEq, Eq)]
pub enum Reason {
    /// The line has no line feed: the input ends before it, or the first 256 bytes hold none.
    P1,
    /// The second field isn't an operation word, or is missing.
    P2,
    /// The number of fields is wrong. An empty field counts, also one after a space at the end of
    /// the line.
    P3,
    /// A field of digits has another length.
    P4,
    /// A field has another character than a lower-case hexadecimal digit, or it is another letter
    /// than `pf` may have.
    P5,
    /// A number is out of its range: the port isn't in the header, the address isn't a multiple of
    /// 64, the number of a word is above 3, or the word of a DVM message isn't one for this
    /// operation.
    P6,
    /// A header line is another one than it may be.
    P7,
    /// The operation isn't for that kind of port, or an earlier one named its line in the other
    /// class, with or without snoops.
    P8,
}

impl Reason {
    /// The number of the reason, from 1 to 8.
    pub fn number(self) -> u8
        ensures { result ≡ number_of_reason self }
    {
        match self {
            Reason::P1 => 1,
            Reason::P2 => 2,
            Reason::P3 => 3,
            Reason::P4 => 4,
            Reason::P5 => 5,
            Reason::P6 => 6,
            Reason::P7 => 7,
            Reason::P8 => 8,
        }
    }
}
