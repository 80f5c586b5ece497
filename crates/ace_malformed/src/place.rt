// Where in a malformed line something is wrong.
ghost use Rattle.std.specs.Prelude.{◌≡◌, ◌≤◌, ◌+◌, IfSome, length};
ghost use Rattle.std.specs.Option.{option_map};
ghost use Rattle.ace_grammar.specs.Reasons.{is_digit};
ghost use Rattle.ace_malformed.specs.Fields.{shape_of};
ghost use Rattle.ace_malformed.specs.Places.{begins_with, character_column, column_by, column_of, count_column, digits_before, ends_in_return, found_column, header_column, is_word, letter_column, letters_before};
ghost use Rattle.ace_malformed.specs.Wrong.{found_of};

use crate::bad_line::BadLine;
use crate::field::Field;
use crate::field_reason::is_digit;
use crate::fields::fields_of;
use crate::wrong_field::{WrongField, column_behind, cut_field, first_empty, wrong_in};
use ace_grammar::{Reason, Shape};

/// Whether the last byte is a carriage return.
pub(crate) fn ends_in_return(line: &[u8]) -> bool
    ensures { result ≡ ends_in_return line.now }
{
    line.ends_with(b"\r")
}

/// Whether a field has to be one of some words.
pub(crate) fn is_word(field: Field) -> bool
    ensures { result ≡ is_word (shape_of field) }
{
    matches!(
        field.shape(),
        Shape::ChannelWord | Shape::StateWord | Shape::OutcomeWord
    )
}

/// How many digits stand before the first byte that is none.
#[tactic(auto, unfolding(crate::specs::Places::digits_before))]
pub(crate) fn digits_before(text: &[u8]) -> usize
    ensures value { result ≡ digits_before text.now }
    ensures bound { result ≤ length text.now }
{
    match text {
        [byte, rest @ ..] if is_digit(*byte) => digits_before(rest) + 1,
        _ => 0,
    }
}

/// How many letters of ports stand before the first byte that is none.
#[tactic(auto, unfolding(crate::specs::Places::letters_before))]
pub(crate) fn letters_before(letters: &[u8]) -> usize
    ensures value { result ≡ letters_before letters.now }
    ensures bound { result ≤ length letters.now }
{
    match letters {
        [b'A' | b'L', rest @ ..] => letters_before(rest) + 1,
        _ => 0,
    }
}

/// Where a field with another character than it may have has that, or else where it begins.
fn character_column(wrong: &WrongField<'_>) -> usize
    requires { wrong.now.column + length wrong.now.text.now ≤ 999 }
    ensures value { result ≡ character_column (found_of wrong.now) }
    ensures bound { result ≤ 999 }
{
    if is_word(wrong.field) {
        wrong.column
    } else {
        wrong.column + digits_before(wrong.text)
    }
}

/// Where the field is wrong for the reason.
fn found_column(wrong: Option<WrongField<'_>>, reason: Reason) -> usize
    requires { IfSome wrong (λ w. w.column + length w.text.now ≤ 999) }
    ensures value { result ≡ found_column reason (option_map found_of wrong.entry) }
    ensures bound { result ≤ 999 }
{
    match wrong {
        Some(wrong) => match reason {
            Reason::F5 => character_column(&wrong),
            _ => wrong.column,
        },
        None => 1,
    }
}

/// Where a line with a wrong number of fields is wrong: at an empty one, or the first that is too
/// many, or the end.
fn count_column(line: &[u8], version: u8) -> usize
    requires { length line.now ≤ 256 }
    ensures value { result ≡ count_column version line.now }
    ensures bound { result ≤ 999 }
{
    let (word, rest) = cut_field(line);
    let Some(fields) = fields_of(word, version) else {
        return 1;
    };
    let column = word.len() + 2;
    match first_empty(rest, column) {
        Some(empty) => empty,
        None => column_behind(fields, rest, column).min(line.len() + 1),
    }
}

/// Where a second header line is wrong: at the first letter that is none of a port, or at the first
/// letter, or where it begins.
fn header_column(line: &[u8]) -> usize
    requires { length line.now ≤ 256 }
    ensures value { result ≡ header_column line.now }
    ensures bound { result ≤ 999 }
{
    if !line.starts_with(b"PORTS ") {
        return 1;
    }
    let letters = &line[6..];
    let before = letters_before(letters);
    if before == letters.len() {
        7
    } else {
        7 + before
    }
}

/// Where a line is wrong by its reason.
fn column_by(line: &[u8], version: u8, reason: Reason) -> usize
    requires { length line.now ≤ 256 }
    ensures value { result ≡ column_by version line.now reason }
    ensures bound { result ≤ 999 }
{
    match reason {
        Reason::F1 => line.len() + 1,
        Reason::F2 => 1,
        Reason::F3 => count_column(line, version),
        Reason::F4 | Reason::F5 | Reason::F6 => {
            found_column(wrong_in(line, version, reason), reason)
        }
        Reason::F7 => header_column(line),
    }
}

/// Where the line is wrong: a column, which counts bytes from 1.
#[tactic(auto, unfolding(crate::specs::Places::column_of))]
pub fn column_of(bad: &BadLine) -> usize
    ensures value { result ≡ column_of bad.now }
    ensures bound { result ≤ 999 }
{
    let line = bad.line.bytes();
    if ends_in_return(line) {
        line.len()
    } else {
        column_by(line, bad.version, bad.reason)
    }
}
