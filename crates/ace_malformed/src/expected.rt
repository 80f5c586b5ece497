// What may stand where a line is malformed.
ghost use Rattle.std.specs.Prelude.{◌≡◌, ◌++◌, OnOk};
ghost use Rattle.std.specs.Option.{option_map};
ghost use Rattle.ace_malformed.specs.Fields.{fields_of};
ghost use Rattle.ace_malformed.specs.Sentences.{characters_expected, count_expected, digits_of, end_expected, expected, expected_by, found_expected, header_expected, range_expected, record_expected, record_words, word_of};
ghost use Rattle.ace_malformed.specs.Wrong.{found_of};

use crate::bad_line::BadLine;
use crate::field_reason::port_digits;
use crate::fields::fields_of;
use crate::place::ends_in_return;
use crate::pushing::{push, push_number};
use crate::shown::{push_digits, push_names};
use crate::wrong::{is_recorder, word_of};
use crate::wrong_field::{WrongField, wrong_in};
use ace_grammar::{Reason, Shape};
use ace_io::NoMemory;

/// What may stand where a line has no line feed.
fn end_expected(line: &[u8], number: u64) -> &'static [u8]
    ensures { result.now ≡ end_expected number line.now }
{
    match line.len() {
        0 => b"a header line",
        256 => b"a line feed within 256 bytes",
        _ => b"a line feed",
    }
}

/// The record words of a version.
fn record_words(version: u8) -> &'static [u8]
    ensures { result.now ≡ record_words version }
{
    if version == 1 {
        b"one of AR R RK AW W B WK AC CR CD G M S L D OP"
    } else {
        b"one of AR R RK AW W B WK AC CR CD G M S L D OP MEM"
    }
}

/// Adds which record words may stand there; nothing where a recorder has stopped.
#[tactic(auto, unfolding(crate::specs::Sentences::record_expected))]
fn push_records(text: &mut Vec<u8>, line: &[u8], version: u8) -> Result<(), NoMemory>
    ensures { OnOk result (text.new.items ≡ text.old.items ++ record_expected version line.now) }
{
    if is_recorder(line) {
        return Ok(());
    }
    push(text, record_words(version))
}

/// Adds the record word of the line, and what its fields are called.
fn push_fields(text: &mut Vec<u8>, line: &[u8], version: u8) -> Result<(), NoMemory>
    ensures { OnOk result (text.new.items ≡ text.old.items
        ++ count_expected line.now (fields_of version (word_of line.now))) }
{
    let word = word_of(line);
    match fields_of(word, version) {
        Some(fields) => {
            push(text, word)?;
            push_names(text, fields)
        }
        None => Ok(()),
    }
}

/// How many digits a field has.
fn digits_of(shape: Shape, version: u8) -> usize
    ensures { result ≡ digits_of version shape }
{
    match shape {
        Shape::Port => port_digits(version),
        Shape::Digits { count } => count,
        Shape::SnoopResponse => 2,
        _ => 1,
    }
}

/// Which characters or words may stand in a field.
fn characters_expected(shape: Shape) -> &'static [u8]
    ensures { result.now ≡ characters_expected shape }
{
    match shape {
        Shape::ChannelWord => b"one of R W",
        Shape::StateWord => b"one of I UC UD SC SD",
        Shape::OutcomeWord => b"one of ok skip fail",
        _ => b"digits 0 to 9 and a to f",
    }
}

/// Adds the most of a number.
fn push_most(text: &mut Vec<u8>, shape: Shape) -> Result<(), NoMemory>
    ensures { OnOk result (text.new.items ≡ text.old.items ++ range_expected shape) }
{
    match shape {
        Shape::AtMost { most } => {
            push(text, b"at most ")?;
            push_number(text, u64::from(most))
        }
        _ => push(text, b"at most 1f"),
    }
}

/// Adds what may stand in the field.
fn push_found(
    text: &mut Vec<u8>,
    wrong: Option<WrongField<'_>>,
    reason: Reason,
    version: u8,
) -> Result<(), NoMemory>
    ensures { OnOk result (text.new.items ≡ text.old.items
        ++ found_expected version reason (option_map found_of wrong.entry)) }
{
    match wrong {
        Some(wrong) => {
            let shape = wrong.field.shape();
            match reason {
                Reason::F4 => push_digits(text, digits_of(shape, version)),
                Reason::F5 => push(text, characters_expected(shape)),
                _ => push_most(text, shape),
            }
        }
        None => Ok(()),
    }
}

/// What may stand where a header line is another one.
fn header_expected(version: u8, number: u64) -> &'static [u8]
    ensures { result.now ≡ header_expected version number }
{
    if number == 1 {
        b"ACE 1 or ACE 2"
    } else if version == 1 {
        b"PORTS and a letter A or L for each port, at most 8 of a kind"
    } else {
        b"PORTS and a letter A or L for each port, at most 16 of a kind"
    }
}

/// Adds what may stand there by the reason of the line.
fn push_by(text: &mut Vec<u8>, bad: &BadLine) -> Result<(), NoMemory>
    ensures { OnOk result (text.new.items ≡ text.old.items
        ++ expected_by bad.now bad.now.reason) }
{
    let line = bad.line.bytes();
    match bad.reason {
        Reason::F1 => push(text, end_expected(line, bad.number)),
        Reason::F2 => push_records(text, line, bad.version),
        Reason::F3 => push_fields(text, line, bad.version),
        Reason::F4 | Reason::F5 | Reason::F6 => {
            let wrong = wrong_in(line, bad.version, bad.reason);
            push_found(text, wrong, bad.reason, bad.version)
        }
        Reason::F7 => push(text, header_expected(bad.version, bad.number)),
    }
}

/// Adds what may stand where the line is wrong, if that can be said.
#[tactic(auto, unfolding(crate::specs::Sentences::expected))]
pub(crate) fn push_expected(text: &mut Vec<u8>, bad: &BadLine) -> Result<(), NoMemory>
    ensures { OnOk result (text.new.items ≡ text.old.items ++ expected bad.now) }
{
    if ends_in_return(bad.line.bytes()) {
        push(text, b"a line feed alone")
    } else {
        push_by(text, bad)
    }
}
