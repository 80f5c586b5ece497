// Bytes of a line as they are shown.
ghost use Rattle.std.specs.Prelude.{◌≡◌, ◌++◌, OnOk};
ghost use Rattle.ace_malformed.specs.Sentences.{digits_text, digits_word, names_text, quoted, shown, shown_byte};

use crate::field::Field;
use crate::pushing::{push, push_number};
use ace_io::NoMemory;

/// A byte as it is shown: itself where it is a character of ASCII that takes a column, or else `?`.
fn shown_byte(byte: u8) -> u8
    ensures { result ≡ shown_byte byte }
{
    if byte >= b' ' && byte <= b'~' {
        byte
    } else {
        b'?'
    }
}

/// Adds the bytes as they are shown.
#[tactic(auto, unfolding(crate::specs::Sentences::shown))]
pub(crate) fn push_shown(text: &mut Vec<u8>, bytes: &[u8]) -> Result<(), NoMemory>
    ensures { OnOk result (text.new.items ≡ text.old.items ++ shown bytes.now) }
{
    match bytes {
        [] => Ok(()),
        [byte, rest @ ..] => {
            push(text, &[shown_byte(*byte)])?;
            push_shown(text, rest)
        }
    }
}

/// Adds the bytes between quotes.
#[tactic(auto, unfolding(crate::specs::Sentences::quoted))]
pub(crate) fn push_quoted(text: &mut Vec<u8>, bytes: &[u8]) -> Result<(), NoMemory>
    ensures { OnOk result (text.new.items ≡ text.old.items ++ quoted bytes.now) }
{
    push(text, b"'")?;
    push_shown(text, bytes)?;
    push(text, b"'")
}

/// The word behind a number of digits.
fn digits_word(count: usize) -> &'static [u8]
    ensures { result.now ≡ digits_word count }
{
    if count == 1 { b" digit" } else { b" digits" }
}

/// Adds how many digits.
#[tactic(auto, unfolding(crate::specs::Sentences::digits_text))]
pub(crate) fn push_digits(text: &mut Vec<u8>, count: usize) -> Result<(), NoMemory>
    ensures { OnOk result (text.new.items ≡ text.old.items ++ digits_text count) }
{
    push_number(text, count as u64)?;
    push(text, digits_word(count))
}

/// Adds what the fields are called.
#[tactic(auto, unfolding(crate::specs::Sentences::names_text))]
pub(crate) fn push_names(text: &mut Vec<u8>, fields: &[Field]) -> Result<(), NoMemory>
    ensures { OnOk result (text.new.items ≡ text.old.items ++ names_text fields.now) }
{
    match fields {
        [] => Ok(()),
        [field, rest @ ..] => {
            push(text, b" ")?;
            push(text, field.name())?;
            push_names(text, rest)
        }
    }
}
