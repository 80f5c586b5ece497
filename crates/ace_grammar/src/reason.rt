// Why a line is outside the grammar.
ghost use Rattle.std.specs.Prelude.{◌≡◌};
ghost use Rattle.ace_grammar.specs.Reasons.{number_of_reason};

/// Why a line of a trace is malformed. A line has the least reason that applies. Header lines have
/// `F1` and `F7` alone, the other lines `F1` to `F6`.
#[derive(Clone, Copy, Debug, PartialEq, Eq)]
pub enum Reason {
    /// The line has no line feed: the input ends before it, or the first 256 bytes hold none.
    F1,
    /// The text before the first space isn't a record word.
    F2,
    /// The number of fields is wrong. An empty field counts, also one after a space at the end of
    /// the line.
    F3,
    /// A field of digits has another length.
    F4,
    /// A field has another character than a lower-case hexadecimal digit, or it is another word
    /// than it may be.
    F5,
    /// A number is out of its range.
    F6,
    /// A header line is another one than it may be.
    F7,
}

impl Reason {
    /// The number of the reason, from 1 to 7.
    pub fn number(self) -> u8
        ensures { result ≡ number_of_reason self }
    {
        match self {
            Reason::F1 => 1,
            Reason::F2 => 2,
            Reason::F3 => 3,
            Reason::F4 => 4,
            Reason::F5 => 5,
            Reason::F6 => 6,
            Reason::F7 => 7,
        }
    }
}
