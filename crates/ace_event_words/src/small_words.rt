// Words for parts of events.
ghost use Rattle.std.specs.Prelude.{◌≡◌};
ghost use Rattle.ace_event.specs.Text.{outcome_text};
ghost use Rattle.ace_event_words.specs.SmallWords.{bit_word, resp_word};

use ace_codes::low_bits;
use ace_event::Outcome;

/// How an operation retired.
pub fn outcome_word(outcome: Outcome) -> &'static [u8]
    ensures { result.now ≡ outcome_text outcome }
{
    match outcome {
        Outcome::Ok => b"ok",
        Outcome::Skip => b"skip",
        Outcome::Fail => b"fail",
    }
}

/// The word, where the bit is 1.
pub fn bit_word(bit: bool, word: &'static [u8]) -> &'static [u8]
    ensures { result.now ≡ bit_word bit word.now }
{
    if bit { word } else { b"" }
}

/// What the low bits of a response say, behind a comma and a space.
pub(crate) fn resp_word(resp: u8) -> &'static [u8]
    ensures { result.now ≡ resp_word resp }
{
    match low_bits(resp) {
        0 => b", OKAY",
        1 => b", EXOKAY",
        2 => b", SLVERR",
        _ => b", DECERR",
    }
}
