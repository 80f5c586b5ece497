// How the check of a trace came out.
ghost use Rattle.std.specs.Prelude.{◌≡◌};
ghost use Rattle.ace_batch.specs.Outcomes.{has_name, is_failure, status_of, verdict_of, word_of};

/// How the check of a trace came out.
#[derive(Clone, Copy)]
pub enum Outcome {
    /// Each event is accepted, and the recording is whole.
    Accepted,
    /// An event breaks a rule.
    Refused,
    /// A line of the trace, or of its side file, is malformed.
    Malformed,
    /// Each event is accepted, and the recording is broken off.
    Unfinished,
    /// It has more than was asked for.
    Limited,
    /// It could not be opened or read.
    Unreadable,
    /// There was no memory for it.
    NoMemory,
}

impl Outcome {
    /// The status of a trace that came out so.
    pub fn status(self) -> u8
        ensures { result ≡ status_of self }
    {
        match self {
            Outcome::Accepted => 0,
            Outcome::Refused => 1,
            Outcome::Malformed => 3,
            Outcome::Unfinished => 8,
            Outcome::Limited => 6,
            Outcome::Unreadable => 4,
            Outcome::NoMemory => 7,
        }
    }

    /// The word at the head of its line, in six columns.
    pub(crate) fn word(self) -> &'static [u8]
        ensures { result.now ≡ word_of self }
    {
        match self {
            Outcome::Accepted => b"ok    ",
            Outcome::Refused => b"FAIL  ",
            Outcome::Malformed => b"BAD   ",
            Outcome::Unfinished => b"CUT   ",
            Outcome::Limited => b"LIMIT ",
            Outcome::Unreadable | Outcome::NoMemory => b"ERROR ",
        }
    }

    /// What it is called in a list of results.
    pub fn verdict(self) -> &'static [u8]
        ensures { result.now ≡ verdict_of self }
    {
        match self {
            Outcome::Accepted => b"accepted",
            Outcome::Refused => b"refused",
            Outcome::Malformed => b"malformed",
            Outcome::Unfinished => b"unfinished",
            Outcome::Limited => b"limit",
            Outcome::Unreadable => b"unreadable",
            Outcome::NoMemory => b"memory",
        }
    }

    /// Its signature is the name of a clause or of a reason, which stands before the message.
    pub(crate) fn has_name(self) -> bool
        ensures { result ≡ has_name self }
    {
        match self {
            Outcome::Refused | Outcome::Malformed => true,
            _ => false,
        }
    }

    /// The trace, as it was recorded, fails the check: it isn't that something hindered the check.
    pub(crate) fn is_failure(self) -> bool
        ensures { result ≡ is_failure self }
    {
        match self {
            Outcome::Refused | Outcome::Malformed | Outcome::Unfinished => true,
            _ => false,
        }
    }
}
