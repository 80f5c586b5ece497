// What is wrong in a malformed line.
ghost use Rattle.std.specs.Prelude.{◌≡◌, ◌≤◌, ◌==◌, ◌++◌, OnOk, drop, length, take, true};
ghost use Rattle.std.specs.List.{count_by};
ghost use Rattle.std.specs.Option.{is_some, option_map};
ghost use Rattle.ace_malformed.specs.Fields.{fields_of};
ghost use Rattle.ace_malformed.specs.Sentences.{character_sentence, count_sentence, empty_part, field_part, fields_due, fields_here, found_sentence, header_sentence, is_recorder, length_sentence, letters_sentence, no_end, no_record, other_character, other_digit, other_word, range_sentence, recorder_stopped, sentence_by, stopped_words, word_of, word_part, wrong_sentence};
ghost use Rattle.ace_malformed.specs.Wrong.{first_empty, found_of, words_of};

use crate::bad_line::BadLine;
use crate::field::Field;
use crate::fields::fields_of;
use crate::place::{digits_before, ends_in_return, is_word, letters_before};
use crate::pushing::{push, push_number};
use crate::shown::{push_digits, push_quoted, push_shown};
use crate::wrong_field::{WrongField, cut_field, first_empty, wrong_in};
use ace_grammar::Reason;
use ace_io::NoMemory;

/// Why a line has no line feed.
fn no_end(line: &[u8]) -> &'static [u8]
    ensures { result.now ≡ no_end line.now }
{
    match line.len() {
        0 => b"the input ends before this line",
        256 => b"no line feed stands among 256 bytes",
        _ => b"the last line has no line feed: the recording was cut off here",
    }
}

/// The record word of a line.
#[tactic(auto, unfolding(crate::specs::Sentences::word_of))]
pub(crate) fn word_of(line: &[u8]) -> &[u8]
    ensures { result.now ≡ word_of line.now }
{
    let (word, _) = cut_field(line);
    word
}

/// The first bytes, as many as that or all.
pub(crate) fn front(bytes: &[u8], count: usize) -> &[u8]
    ensures { result.now ≡ take count bytes.now }
{
    &bytes[..bytes.len().min(count)]
}

/// The byte behind so many, if there is one.
fn byte_behind(bytes: &[u8], count: usize) -> &[u8]
    requires { count ≤ length bytes.now }
    ensures { result.now ≡ take 1 (drop count bytes.now) }
{
    front(&bytes[count..], 1)
}

/// Whether a recorder wrote the line, as it stopped.
#[tactic(auto, unfolding(crate::specs::Sentences::is_recorder))]
pub(crate) fn is_recorder(line: &[u8]) -> bool
    ensures value { result ≡ is_recorder line.now }
    ensures bound { result ≡ true → 14 ≤ length line.now }
{
    line.starts_with(b"ace_recorder: ")
}

/// What stands before the last word of a recorder.
#[tactic(auto, unfolding(crate::specs::Sentences::stopped_words))]
fn stopped_words() -> &'static [u8]
    ensures { result.now ≡ stopped_words }
{
    b"the recorder stopped here:"
}

/// Adds why the recorder stopped.
#[tactic(auto, unfolding(crate::specs::Sentences::recorder_stopped))]
fn push_stopped(text: &mut Vec<u8>, line: &[u8]) -> Result<(), NoMemory>
    requires { 14 ≤ length line.now }
    ensures { OnOk result (text.new.items ≡ text.old.items ++ recorder_stopped line.now) }
{
    push(text, stopped_words())?;
    push_shown(text, &line[13..])
}

/// Adds what is wrong with a line that begins with no record word.
#[tactic(auto, unfolding(crate::specs::Sentences::no_record))]
fn push_no_record(text: &mut Vec<u8>, line: &[u8]) -> Result<(), NoMemory>
    ensures { OnOk result (text.new.items ≡ text.old.items ++ no_record line.now) }
{
    if is_recorder(line) {
        return push_stopped(text, line);
    }
    let word = word_of(line);
    if word == b"MEM".as_slice() {
        return push(text, b"'MEM' is no record of version 1");
    }
    push_quoted(text, front(word, 12))?;
    push(text, b" is no record")
}

/// How many spaces the line has: how many fields stand behind its record word.
fn spaces(line: &[u8]) -> usize
    ensures { result ≡ count_by (λ byte. byte == 32) line.now }
{
    line.iter().filter(|byte| **byte == b' ').count()
}

/// Whether a field of the line is empty.
fn has_empty(line: &[u8]) -> bool
    requires { length line.now ≤ 256 }
    ensures { result ≡ is_some (first_empty 0 (drop 1 (words_of line.now))) }
{
    let (_, rest) = cut_field(line);
    first_empty(rest, 0).is_some()
}

/// What is added where a field is empty.
fn empty_part(is_empty: bool) -> &'static [u8]
    ensures { result.now ≡ empty_part is_empty }
{
    if is_empty { b": a space too many" } else { b"" }
}

/// Adds the record word of the line.
#[tactic(auto, unfolding(crate::specs::Sentences::word_part))]
fn push_record(text: &mut Vec<u8>, line: &[u8]) -> Result<(), NoMemory>
    ensures { OnOk result (text.new.items ≡ text.old.items ++ word_part line.now) }
{
    push(text, word_of(line))?;
    push(text, b" has ")
}

/// Adds how many fields a record has.
#[tactic(auto, unfolding(crate::specs::Sentences::fields_due))]
fn push_due(text: &mut Vec<u8>, count: usize) -> Result<(), NoMemory>
    ensures { OnOk result (text.new.items ≡ text.old.items ++ fields_due count) }
{
    push_number(text, count as u64)?;
    push(text, b" fields, and here are ")
}

/// Adds how many fields the line has.
#[tactic(auto, unfolding(crate::specs::Sentences::fields_here))]
fn push_here(text: &mut Vec<u8>, line: &[u8]) -> Result<(), NoMemory>
    requires { length line.now ≤ 256 }
    ensures { OnOk result (text.new.items ≡ text.old.items ++ fields_here line.now) }
{
    push_number(text, spaces(line) as u64)?;
    push(text, empty_part(has_empty(line)))
}

/// Adds what is wrong with a line with a wrong number of fields.
fn push_count(text: &mut Vec<u8>, line: &[u8], version: u8) -> Result<(), NoMemory>
    requires { length line.now ≤ 256 }
    ensures { OnOk result (text.new.items ≡ text.old.items
        ++ count_sentence line.now (fields_of version (word_of line.now))) }
{
    match fields_of(word_of(line), version) {
        Some(fields) => {
            push_record(text, line)?;
            push_due(text, fields.len())?;
            push_here(text, line)
        }
        None => Ok(()),
    }
}

/// Adds what a field is called.
#[tactic(auto, unfolding(crate::specs::Sentences::field_part))]
fn push_field(text: &mut Vec<u8>, field: Field) -> Result<(), NoMemory>
    ensures { OnOk result (text.new.items ≡ text.old.items ++ field_part field) }
{
    push(text, b"field ")?;
    push(text, field.name())
}

/// Adds what is wrong with a field of another length.
#[tactic(auto, unfolding(crate::specs::Sentences::length_sentence))]
fn push_length(text: &mut Vec<u8>, wrong: &WrongField<'_>) -> Result<(), NoMemory>
    ensures { OnOk result (text.new.items ≡ text.old.items
        ++ length_sentence (found_of wrong.now)) }
{
    push_field(text, wrong.field)?;
    push(text, b" has ")?;
    push_digits(text, wrong.text.len())
}

/// Adds that the field is another word.
#[tactic(auto, unfolding(crate::specs::Sentences::other_word))]
fn push_word(text: &mut Vec<u8>, field: &[u8]) -> Result<(), NoMemory>
    ensures { OnOk result (text.new.items ≡ text.old.items ++ other_word field.now) }
{
    push_quoted(text, field)?;
    push(text, b" isn't one of its words")
}

/// Adds which byte of the field is no digit.
#[tactic(auto, unfolding(crate::specs::Sentences::other_digit))]
fn push_digit(text: &mut Vec<u8>, field: &[u8]) -> Result<(), NoMemory>
    ensures { OnOk result (text.new.items ≡ text.old.items ++ other_digit field.now) }
{
    push_quoted(text, byte_behind(field, digits_before(field)))?;
    push(text, b" is no lower-case hexadecimal digit")
}

/// Adds which word or byte of the field is another one.
#[tactic(auto, unfolding(crate::specs::Sentences::other_character))]
fn push_other(text: &mut Vec<u8>, wrong: &WrongField<'_>) -> Result<(), NoMemory>
    ensures { OnOk result (text.new.items ≡ text.old.items
        ++ other_character wrong.now.field wrong.now.text.now) }
{
    if is_word(wrong.field) {
        push_word(text, wrong.text)
    } else {
        push_digit(text, wrong.text)
    }
}

/// Adds what is wrong with a field with another character.
#[tactic(auto, unfolding(crate::specs::Sentences::character_sentence))]
fn push_character(text: &mut Vec<u8>, wrong: &WrongField<'_>) -> Result<(), NoMemory>
    ensures { OnOk result (text.new.items ≡ text.old.items
        ++ character_sentence (found_of wrong.now)) }
{
    push_field(text, wrong.field)?;
    push(text, b": ")?;
    push_other(text, wrong)
}

/// Adds what is wrong with a field of a number that is out of its range.
#[tactic(auto, unfolding(crate::specs::Sentences::range_sentence))]
fn push_range(text: &mut Vec<u8>, wrong: &WrongField<'_>) -> Result<(), NoMemory>
    ensures { OnOk result (text.new.items ≡ text.old.items
        ++ range_sentence (found_of wrong.now)) }
{
    push_field(text, wrong.field)?;
    push(text, b" is ")?;
    push_shown(text, wrong.text)
}

/// Adds what is wrong with a field.
fn push_found(
    text: &mut Vec<u8>,
    wrong: Option<WrongField<'_>>,
    reason: Reason,
) -> Result<(), NoMemory>
    ensures { OnOk result (text.new.items ≡ text.old.items
        ++ found_sentence reason (option_map found_of wrong.entry)) }
{
    match wrong {
        Some(wrong) => match reason {
            Reason::F4 => push_length(text, &wrong),
            Reason::F5 => push_character(text, &wrong),
            _ => push_range(text, &wrong),
        },
        None => Ok(()),
    }
}

/// Adds what is wrong with the letters of ports.
#[tactic(auto, unfolding(crate::specs::Sentences::letters_sentence))]
fn push_letters(text: &mut Vec<u8>, letters: &[u8]) -> Result<(), NoMemory>
    ensures { OnOk result (text.new.items ≡ text.old.items ++ letters_sentence letters.now) }
{
    let before = letters_before(letters);
    if letters.is_empty() {
        push(text, b"no port has a letter")
    } else if before == letters.len() {
        push(text, b"too many ports of a kind")
    } else {
        push_quoted(text, byte_behind(letters, before))?;
        push(text, b" is no kind of port")
    }
}

/// Adds what is wrong with a header line.
#[tactic(auto, unfolding(crate::specs::Sentences::header_sentence))]
fn push_header(text: &mut Vec<u8>, line: &[u8], number: u64) -> Result<(), NoMemory>
    ensures { OnOk result (text.new.items ≡ text.old.items ++ header_sentence number line.now) }
{
    if number == 1 {
        push_quoted(text, front(line, 12))?;
        return push(text, b" names no version");
    }
    if line.starts_with(b"PORTS ") {
        return push_letters(text, &line[6..]);
    }
    push_quoted(text, front(line, 12))?;
    push(text, b" names no ports")
}

/// Adds what is wrong by the reason of the line.
fn push_by(text: &mut Vec<u8>, bad: &BadLine) -> Result<(), NoMemory>
    ensures { OnOk result (text.new.items ≡ text.old.items
        ++ sentence_by bad.now bad.now.reason) }
{
    let line = bad.line.bytes();
    match bad.reason {
        Reason::F1 => push(text, no_end(line)),
        Reason::F2 => push_no_record(text, line),
        Reason::F3 => push_count(text, line, bad.version),
        Reason::F4 | Reason::F5 | Reason::F6 => {
            push_found(text, wrong_in(line, bad.version, bad.reason), bad.reason)
        }
        Reason::F7 => push_header(text, line, bad.number),
    }
}

/// Adds what is wrong in the line.
///
/// # Errors
///
/// `NoMemory` where there is none for it.
#[tactic(auto, unfolding(crate::specs::Sentences::wrong_sentence))]
pub fn push_wrong(text: &mut Vec<u8>, bad: &BadLine) -> Result<(), NoMemory>
    ensures { OnOk result (text.new.items ≡ text.old.items ++ wrong_sentence bad.now) }
{
    if ends_in_return(bad.line.bytes()) {
        push(text, b"a carriage return: the file has DOS line ends")
    } else {
        push_by(text, bad)
    }
}
