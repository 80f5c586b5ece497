// The fields of the records.
ghost use Rattle.std.specs.Prelude.{◌≡◌};
ghost use Rattle.ace_malformed.specs.Fields.{field_name, shape_of};

use ace_grammar::Shape;

/// A field of a record.
#[derive(Clone, Copy)]
pub enum Field {
    /// The port.
    Port,
    /// ARID, AWID, RID or BID.
    Id,
    /// An address.
    Address,
    /// ARSNOOP or ACSNOOP.
    Snoop,
    /// AWSNOOP.
    WriteSnoop,
    /// ARDOMAIN or AWDOMAIN.
    Domain,
    /// ARBAR or AWBAR.
    Barrier,
    /// ARLOCK.
    Lock,
    /// RRESP.
    ReadResponse,
    /// BRESP.
    WriteResponse,
    /// CRRESP.
    SnoopResponse,
    /// RLAST, WLAST or CDLAST.
    Last,
    /// Whether a load or a store is exclusive.
    Exclusive,
    /// Which word of a line.
    Place,
    /// The 16 bytes of a word.
    Word,
    /// The 64 bytes of a line.
    Line,
    /// The strobes of a word.
    WordStrobes,
    /// The strobes of a line.
    LineStrobes,
    /// The number of an operation.
    Operation,
    /// The channel of a transaction.
    Channel,
    /// The state of a line.
    State,
    /// How an operation retired.
    Outcome,
}

impl Field {
    /// What the field is called.
    pub fn name(self) -> &'static [u8]
        ensures { result.now ≡ field_name self }
    {
        match self {
            Field::Port => b"p",
            Field::Id => b"id",
            Field::Address => b"addr",
            Field::Snoop | Field::WriteSnoop => b"snoop",
            Field::Domain => b"dom",
            Field::Barrier => b"bar",
            Field::Lock => b"lock",
            Field::ReadResponse | Field::WriteResponse | Field::SnoopResponse => b"resp",
            Field::Last => b"last",
            Field::Exclusive => b"x",
            Field::Place => b"w",
            Field::Word => b"word",
            Field::Line => b"line",
            Field::WordStrobes => b"strb",
            Field::LineStrobes => b"strobe",
            Field::Operation => b"k",
            Field::Channel => b"c",
            Field::State => b"st",
            Field::Outcome => b"res",
        }
    }

    /// What it may be.
    pub fn shape(self) -> Shape
        ensures { result ≡ shape_of self }
    {
        match self {
            Field::Port => Shape::Port,
            Field::Id | Field::Snoop | Field::ReadResponse => Shape::Digits { count: 1 },
            Field::Address => Shape::Digits { count: 8 },
            Field::WriteSnoop => Shape::AtMost { most: 7 },
            Field::Domain | Field::Barrier | Field::WriteResponse | Field::Place => {
                Shape::AtMost { most: 3 }
            }
            Field::Lock | Field::Last | Field::Exclusive => Shape::AtMost { most: 1 },
            Field::SnoopResponse => Shape::SnoopResponse,
            Field::Word => Shape::Digits { count: 32 },
            Field::Line => Shape::Digits { count: 128 },
            Field::WordStrobes | Field::Operation => Shape::Digits { count: 4 },
            Field::LineStrobes => Shape::Digits { count: 16 },
            Field::Channel => Shape::ChannelWord,
            Field::State => Shape::StateWord,
            Field::Outcome => Shape::OutcomeWord,
        }
    }
}
