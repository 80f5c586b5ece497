ghost use Rattle.std.specs.Prelude.{◌≡◌};
ghost use Rattle.ace_side.specs.Reasons.{number_of_reason};

/// Why a line of a side file is malformed. A line has the least reason that applies.
#[derive(Clone, Copy, Debug, PartialEq, Eq)]
pub enum Reason {
    /// The line has no line feed: the input ends before it, or the first 256 bytes hold none. Of
    /// the first line: it is missing, or another one than `ACE SIDE 1`.
    S1,
    /// The first field is no word of a line.
    S2,
    /// The number of fields is wrong. An empty field counts, also one behind a space at the end of
    /// the line.
    S3,
    /// A field has another form than it has to have.
    S4,
    /// The line can't stand behind those before it: an event or a time falls, or it is a second
    /// one of what stands once.
    S5,
    /// A line stands behind END, BROKEN or CUT.
    S6,
}

impl Reason {
    /// The number of the reason, from 1 to 6.
    pub fn number(self) -> u8
        ensures { result ≡ number_of_reason self }
    {
        match self {
            Reason::S1 => 1,
            Reason::S2 => 2,
            Reason::S3 => 3,
            Reason::S4 => 4,
            Reason::S5 => 5,
            Reason::S6 => 6,
        }
    }
}
