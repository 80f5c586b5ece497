// The words for what there is of a line.
ghost use Rattle.std.specs.Prelude.{◌≡◌, ◌≤◌, ◌++◌, OnOk, drop, length};
ghost use Rattle.ace_model.specs.Transactions.{read_kind, write_kind};
ghost use Rattle.ace_before.specs.Words.{called, kind_words, number_part, short_line, since_part, snoop_words, written_part};

use crate::before::SnoopBefore;
use ace_event::Line;
use ace_event_words::push_folded;
use ace_io::NoMemory;
use ace_malformed::{push, push_number};
use ace_model::Transaction;
use ace_model::kinds::{read_kind, write_kind};
use ace_words::{read_word, write_word};
use ace_writer::TextBuf;
use itoa::Buffer;

/// The digits behind so many.
fn behind(digits: &[u8], start: usize) -> &[u8]
    requires { start ≤ length digits.now }
    ensures { result.now ≡ drop start digits.now }
{
    &digits[start..]
}

/// Adds the data of a line, folded.
#[tactic(auto, unfolding(crate::specs::Words::short_line))]
pub(crate) fn push_short_line(text: &mut Vec<u8>, line: &Line) -> Result<(), NoMemory>
    ensures { OnOk result (text.new.items ≡ text.old.items ++ short_line line.now) }
{
    let mut digits = TextBuf::empty();
    digits.push_line(line);
    push_folded(text, behind(digits.bytes(), 1))
}

/// Adds the number of an event that has so many events before it.
#[tactic(auto, unfolding(crate::specs::Words::number_part))]
fn push_number_part(text: &mut Vec<u8>, place: usize) -> Result<(), NoMemory>
    ensures { OnOk result (text.new.items ≡ text.old.items ++ number_part place) }
{
    let mut digits = Buffer::new();
    push(text, b" (event ")?;
    push(text, digits.format(place as u128 + 1).as_bytes())?;
    push(text, b")")
}

/// Adds since which event something is so.
#[tactic(auto, unfolding(crate::specs::Words::since_part))]
pub(crate) fn push_since(text: &mut Vec<u8>, number: u64) -> Result<(), NoMemory>
    ensures { OnOk result (text.new.items ≡ text.old.items ++ since_part number) }
{
    if number == 0 {
        return Ok(());
    }
    push(text, b" since event ")?;
    push_number(text, number)
}

/// Adds the event that wrote memory.
#[tactic(auto, unfolding(crate::specs::Words::written_part))]
pub(crate) fn push_written(text: &mut Vec<u8>, number: u64) -> Result<(), NoMemory>
    ensures { OnOk result (text.new.items ≡ text.old.items ++ written_part number) }
{
    if number == 0 {
        return push(text, b" (never written)");
    }
    push(text, b" (event ")?;
    push_number(text, number)?;
    push(text, b")")
}

/// The kind of the transaction.
fn kind_words(x: &Transaction) -> &'static [u8]
    ensures { result.now ≡ kind_words (read_kind x.now) (write_kind x.now) }
{
    match (read_kind(x), write_kind(x)) {
        (Some(kind), _) => read_word(kind),
        (None, Some(kind)) => write_word(kind),
        (None, None) => b"",
    }
}

/// Adds what the transaction is called, with the number of its AR or AW.
#[tactic(auto, unfolding(crate::specs::Words::called))]
pub(crate) fn push_called(text: &mut Vec<u8>, x: &Transaction) -> Result<(), NoMemory>
    ensures { OnOk result (text.new.items ≡ text.old.items ++ called x.now) }
{
    if x.lock {
        push(text, b"exclusive ")?;
    }
    push(text, kind_words(x))?;
    push_number_part(text, x.place)
}

/// What the snoop of a port has come to.
pub(crate) fn snoop_words(snoop: SnoopBefore) -> &'static [u8]
    ensures { result.now ≡ snoop_words snoop }
{
    match snoop {
        SnoopBefore::Unsnooped => b"",
        SnoopBefore::Unanswered => b"; its snoop is unanswered",
        SnoopBefore::Short => b"; its snoop data are not whole",
        SnoopBefore::Answered => b"; its snoop is answered",
    }
}
