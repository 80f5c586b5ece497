// Data, folded: what repeats is told once.
ghost use Rattle.std.specs.Prelude.{◌≡◌, ◌≢◌, ◌++◌, OnOk, drop, length, take};
ghost use Rattle.ace_event_words.specs.Folding.{data_digits, ends, folded, folded_text, in_eights, repeats, times_text, with_data};

use ace_event::Event;
use ace_io::NoMemory;
use ace_malformed::{push, push_number};

/// The digits before a place.
fn front(digits: &[u8], end: usize) -> &[u8]
    ensures { result.now ≡ take end digits.now }
{
    &digits[..end.min(digits.len())]
}

/// The digits from a place on.
fn behind(digits: &[u8], start: usize) -> &[u8]
    ensures { result.now ≡ drop start digits.now }
{
    &digits[start.min(digits.len())..]
}

/// Each so many digits are those before them.
fn repeats(size: usize, digits: &[u8]) -> bool
    ensures { result ≡ repeats size digits.now }
{
    behind(digits, size) == front(digits, digits.len().saturating_sub(size))
}

/// Adds these digits, and how often they stand there.
#[tactic(auto, unfolding(crate::specs::Folding::times_text))]
fn push_times(text: &mut Vec<u8>, size: usize, digits: &[u8]) -> Result<(), NoMemory>
    requires some { size ≢ 0 }
    ensures { OnOk result (text.new.items ≡ text.old.items ++ times_text size digits.now) }
{
    push(text, front(digits, size))?;
    push(text, b" x ")?;
    push_number(text, (digits.len() / size) as u64)
}

/// Adds the digits of a word, eight at a time.
#[tactic(auto, unfolding(crate::specs::Folding::in_eights))]
fn push_eights(text: &mut Vec<u8>, digits: &[u8]) -> Result<(), NoMemory>
    ensures { OnOk result (text.new.items ≡ text.old.items ++ in_eights digits.now) }
{
    push(text, front(digits, 8))?;
    push(text, b" ")?;
    push(text, front(behind(digits, 8), 8))?;
    push(text, b" ")?;
    push(text, front(behind(digits, 16), 8))?;
    push(text, b" ")?;
    push(text, behind(digits, 24))
}

/// Adds the first eight bytes of a line, and its last four.
#[tactic(auto, unfolding(crate::specs::Folding::ends))]
fn push_ends(text: &mut Vec<u8>, digits: &[u8]) -> Result<(), NoMemory>
    ensures { OnOk result (text.new.items ≡ text.old.items ++ ends digits.now) }
{
    push(text, front(digits, 16))?;
    push(text, b"..")?;
    push(text, behind(digits, digits.len().saturating_sub(8)))
}

/// Adds the digits of a word or a line, folded.
///
/// # Errors
///
/// `NoMemory` where there is none for the longer text.
#[tactic(auto, unfolding(crate::specs::Folding::folded))]
pub fn push_folded(text: &mut Vec<u8>, digits: &[u8]) -> Result<(), NoMemory>
    ensures { OnOk result (text.new.items ≡ text.old.items ++ folded digits.now) }
{
    if repeats(2, digits) {
        push_times(text, 2, digits)
    } else if repeats(8, digits) {
        push_times(text, 8, digits)
    } else if digits.len() == 32 {
        push_eights(text, digits)
    } else {
        push_ends(text, digits)
    }
}

/// How many digits the data of the event have.
fn data_digits(event: &Event) -> usize
    ensures { result ≡ data_digits event.now }
{
    match event {
        Event::R { .. } | Event::W { .. } | Event::Cd { .. } | Event::L { .. } => 32,
        Event::M { .. } | Event::D { .. } | Event::Mem { .. } => 128,
        _ => 0,
    }
}

/// Adds a text that ends with so many digits of data, with these folded.
#[tactic(auto, unfolding(crate::specs::Folding::with_data))]
fn push_with_data(text: &mut Vec<u8>, digits: usize, event_text: &[u8]) -> Result<(), NoMemory>
    ensures { OnOk result (text.new.items ≡ text.old.items ++ with_data digits event_text.now) }
{
    let start = event_text.len().saturating_sub(digits);
    push(text, front(event_text, start))?;
    push(text, b"{")?;
    push_folded(text, behind(event_text, start))?;
    push(text, b"}")
}

/// Adds the text of the event, with its data folded.
///
/// # Errors
///
/// `NoMemory` where there is none for the longer text.
pub fn push_folded_event(
    text: &mut Vec<u8>,
    event: &Event,
    event_text: &[u8],
) -> Result<(), NoMemory>
    ensures { OnOk result (text.new.items
        ≡ text.old.items ++ folded_text event.now event_text.now) }
{
    let digits = data_digits(event);
    if digits == 0 {
        push(text, event_text)
    } else {
        push_with_data(text, digits, event_text)
    }
}
