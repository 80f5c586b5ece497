// What is made of a trace.
ghost use Rattle.std.specs.Prelude.{◌≡◌};
ghost use Rattle.ace_convert.specs.Spelling.{header_written};

use ace_event::Header;

/// What is made of a trace.
#[derive(Clone, Copy, Debug, PartialEq, Eq)]
pub enum Conversion {
    /// The text of the trace that a text is.
    Show,
    /// The same in version 2.
    Migrate,
    /// The binary trace of the trace that a text is.
    Pack,
    /// The text of the trace that a binary trace is.
    Unpack,
}

impl Conversion {
    /// The header that is written: this one, or the same ports in version 2.
    pub fn header_written(self, header: Header) -> Header
        ensures { result ≡ header_written self header }
    {
        match self {
            Conversion::Show | Conversion::Pack | Conversion::Unpack => header,
            Conversion::Migrate => Header {
                version: 2,
                ports: header.ports,
                ace: header.ace,
            },
        }
    }
}
