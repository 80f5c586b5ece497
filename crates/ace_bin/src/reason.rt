// Why a header or a record is malformed.
ghost use Rattle.std.specs.Prelude.{◌≡◌};
ghost use Rattle.ace_bin.specs.Reading.{number_of_reason};

/// Why a header or a record of a binary trace is malformed. It has the least reason that applies.
#[derive(Clone, Copy, Debug, PartialEq, Eq)]
pub enum BinReason {
    /// The input ends within the header, or within a record whose tag is known.
    Z1,
    /// The header isn't right.
    Z2,
    /// The tag isn't one of the version.
    Z3,
    /// A field is out of its range.
    Z4,
}

impl BinReason {
    /// The number of the reason, from 1 to 4.
    pub fn number(self) -> u8
        ensures { result ≡ number_of_reason self }
    {
        match self {
            BinReason::Z1 => 1,
            BinReason::Z2 => 2,
            BinReason::Z3 => 3,
            BinReason::Z4 => 4,
        }
    }
}
