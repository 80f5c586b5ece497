// The reason of a field.
ghost use Rattle.std.specs.Prelude.{◌≡◌, ◌≤◌, ◌<◌, length};
ghost use Rattle.std.specs.List.{list_all};
ghost use Rattle.std.specs.Option.{is_some};
ghost use Rattle.ace_event.specs.Text.{port_digits};
ghost use Rattle.ace_grammar.specs.Fields.{outcome_of, state_of};
ghost use Rattle.ace_grammar.specs.Reasons.{digits_reason, field_reason, is_digit, limited_reason, word_reason};
ghost use Rattle.ace_malformed.specs.Fields.{shape_of};
ghost use Rattle.ace_malformed.specs.Wrong.{is_reason};

use crate::field::Field;
use ace_grammar::{Reason, Shape, number_of};

/// Whether the byte is a lower-case hexadecimal digit.
pub(crate) fn is_digit(byte: u8) -> bool
    ensures { result ≡ is_digit byte }
{
    matches!(byte, b'0'..=b'9' | b'a'..=b'f')
}

/// Whether every byte is a digit.
fn are_digits(text: &[u8]) -> bool
    ensures { result ≡ list_all is_digit text.now }
{
    text.iter().all(|byte| is_digit(*byte))
}

fn digits_reason(text: &[u8], count: usize) -> Option<Reason>
    ensures { result ≡ digits_reason count text.now }
{
    if text.len() != count {
        Some(Reason::F4)
    } else if are_digits(text) {
        None
    } else {
        Some(Reason::F5)
    }
}

fn limited_reason(text: &[u8], count: usize, most: u128) -> Option<Reason>
    requires { count ≤ 32 }
    ensures { result ≡ limited_reason count most text.now }
{
    if text.len() != count {
        return Some(Reason::F4);
    }
    match number_of(text) {
        None => Some(Reason::F5),
        Some(number) if number <= most => None,
        Some(_) => Some(Reason::F6),
    }
}

fn word_reason(is_known: bool) -> Option<Reason>
    ensures { result ≡ word_reason is_known }
{
    if is_known { None } else { Some(Reason::F5) }
}

/// Whether it is a state.
fn is_state(text: &[u8]) -> bool
    ensures { result ≡ is_some (state_of text.now) }
{
    text == b"I".as_slice()
        || text == b"UC".as_slice()
        || text == b"UD".as_slice()
        || text == b"SC".as_slice()
        || text == b"SD".as_slice()
}

/// Whether it tells how an operation retired.
fn is_outcome(text: &[u8]) -> bool
    ensures { result ≡ is_some (outcome_of text.now) }
{
    text == b"ok".as_slice() || text == b"skip".as_slice() || text == b"fail".as_slice()
}

/// How many digits a port has.
pub(crate) fn port_digits(version: u8) -> usize
    ensures { result ≡ port_digits version }
{
    if version == 1 { 1 } else { 2 }
}

/// The least reason of a field that applies, in a trace of a version.
fn field_reason(shape: Shape, text: &[u8], version: u8) -> Option<Reason>
    ensures { result ≡ field_reason version shape text.now }
{
    match shape {
        Shape::Port => digits_reason(text, port_digits(version)),
        Shape::Digits { count } => digits_reason(text, count),
        Shape::AtMost { most } => limited_reason(text, 1, u128::from(most)),
        Shape::SnoopResponse => limited_reason(text, 2, 0x1f),
        Shape::ChannelWord => word_reason(text == b"R".as_slice() || text == b"W".as_slice()),
        Shape::StateWord => word_reason(is_state(text)),
        Shape::OutcomeWord => word_reason(is_outcome(text)),
    }
}

/// Whether this is the reason of the field.
pub(crate) fn is_wrong(field: Field, text: &[u8], version: u8, reason: Reason) -> bool
    ensures { result ≡ is_reason reason (field_reason version (shape_of field) text.now) }
{
    match field_reason(field.shape(), text, version) {
        Some(other) => other.number() == reason.number(),
        None => false,
    }
}
