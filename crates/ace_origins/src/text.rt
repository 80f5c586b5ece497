// The words that tell where a word stands.
ghost use Rattle.std.specs.Prelude.{◌≡◌, ◌++◌, OnOk};
ghost use Rattle.ace_origins.specs.Texts.{copy_words, has_words, never_written, holder_part, holder_words, line_name, nowhere_words, origin_words, since_words, word_name, zeros_words};

use crate::origins::{Holder, Origin};
use ace_io::NoMemory;
use ace_malformed::{push, push_number};
use ace_writer::TextBuf;

/// What is said of memory that was never written.
#[tactic(auto, unfolding(crate::specs::Texts::never_written))]
fn never_written() -> &'static [u8]
    ensures { result.now ≡ never_written }
{
    b", which was never written"
}

/// Adds since when memory has it.
#[tactic(auto, unfolding(crate::specs::Texts::since_words))]
fn push_since(text: &mut Vec<u8>, number: u64) -> Result<(), NoMemory>
    ensures { OnOk result (text.new.items ≡ text.old.items ++ since_words number) }
{
    if number == 0 {
        return push(text, never_written());
    }
    push(text, b" since event ")?;
    push_number(text, number)
}

/// What is said of a port that has it in its copy.
#[tactic(auto, unfolding(crate::specs::Texts::has_words))]
fn has_words(held: bool) -> &'static [u8]
    ensures { result.now ≡ has_words held }
{
    if held {
        b" has"
    } else {
        b" had when it held the line"
    }
}

/// Adds whose copy it is.
#[tactic(auto, unfolding(crate::specs::Texts::copy_words))]
fn push_copy(text: &mut Vec<u8>, port: u8, held: bool) -> Result<(), NoMemory>
    ensures { OnOk result (text.new.items ≡ text.old.items ++ copy_words port held) }
{
    push(text, b"port ")?;
    push_number(text, u64::from(port))?;
    push(text, has_words(held))
}

/// Adds what has it.
#[tactic(auto, unfolding(crate::specs::Texts::holder_words))]
fn push_holder(text: &mut Vec<u8>, holder: Holder) -> Result<(), NoMemory>
    ensures { OnOk result (text.new.items ≡ text.old.items ++ holder_words holder) }
{
    match holder {
        Holder::Memory { since } => {
            push(text, b"memory has")?;
            push_since(text, since)
        }
        Holder::Copy { port, held } => push_copy(text, port, held),
    }
}

/// Adds which word it is.
#[tactic(auto, unfolding(crate::specs::Texts::word_name))]
fn push_word_name(text: &mut Vec<u8>, number: u8) -> Result<(), NoMemory>
    ensures { OnOk result (text.new.items ≡ text.old.items ++ word_name number) }
{
    push(text, b"word ")?;
    push_number(text, u64::from(number))?;
    push(text, b" of ")
}

/// Adds on which other line.
#[tactic(auto, unfolding(crate::specs::Texts::line_name))]
fn push_line_name(text: &mut Vec<u8>, line: u32) -> Result<(), NoMemory>
    ensures { OnOk result (text.new.items ≡ text.old.items ++ line_name line) }
{
    let mut digits = TextBuf::empty();
    digits.push_digits(8, u128::from(line));
    push(text, b"another line, ")?;
    push(text, digits.bytes())
}

/// Adds what has it, behind where it stands.
#[tactic(auto, unfolding(crate::specs::Texts::holder_part))]
fn push_holder_part(text: &mut Vec<u8>, holder: Holder) -> Result<(), NoMemory>
    ensures { OnOk result (text.new.items ≡ text.old.items ++ holder_part holder) }
{
    push(text, b", which ")?;
    push_holder(text, holder)
}

/// What is said of zeros that don't stand there.
#[tactic(auto, unfolding(crate::specs::Texts::zeros_words))]
fn zeros_words() -> &'static [u8]
    ensures { result.now ≡ zeros_words }
{
    b"it is 0, as in a line that was never written"
}

/// What is said where it stands nowhere.
#[tactic(auto, unfolding(crate::specs::Texts::nowhere_words))]
fn nowhere_words() -> &'static [u8]
    ensures { result.now ≡ nowhere_words }
{
    b"no line has this word now"
}

/// Adds where the word that came stands.
///
/// # Errors
///
/// `NoMemory` where there is none for the longer text.
#[tactic(auto, unfolding(crate::specs::Texts::origin_words))]
pub fn push_origin(text: &mut Vec<u8>, origin: Origin) -> Result<(), NoMemory>
    ensures { OnOk result (text.new.items ≡ text.old.items ++ origin_words origin) }
{
    match origin {
        Origin::Same { holder } => {
            push(text, b"it is what ")?;
            push_holder(text, holder)
        }
        Origin::Zeros => push(text, zeros_words()),
        Origin::OtherWord { number, holder } => {
            push(text, b"it is ")?;
            push_word_name(text, number)?;
            push(text, b"the line")?;
            push_holder_part(text, holder)
        }
        Origin::OtherLine {
            line,
            number,
            holder,
        } => {
            push(text, b"it is ")?;
            push_word_name(text, number)?;
            push_line_name(text, line)?;
            push_holder_part(text, holder)
        }
        Origin::Nowhere => push(text, nowhere_words()),
    }
}
