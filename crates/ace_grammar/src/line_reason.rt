// The reason of a malformed line, field by field.
ghost use Rattle.std.specs.Prelude.{◌≡◌, ℕ, [], ◌==◌, ◌∷◌, ◌≤◌, ◌<◌, ◌≢◌, length, take, slice_index, All, MatchOption};
ghost use Rattle.std.specs.Option.{option_map};
ghost use Rattle.std.specs.List.{slice_split, list_all};
ghost use Rattle.ace_grammar.specs.Reasons.{least, is_digit, digits_reason, limited_reason, word_reason, field_reason, fields_reason, line_reason};
ghost use Rattle.ace_event.specs.Text.{port_digits};
ghost use Rattle.ace_grammar.specs.Parts.{parts};

use crate::Reason;
use crate::fields::{digit_of, number_of, outcome_of, state_of};
use crate::shapes::{Shape, shapes_of};

/// The lesser of two reasons.
fn least(one: Option<Reason>, other: Option<Reason>) -> Option<Reason>
    ensures { result ≡ least one other }
{
    match (one, other) {
        (Some(a), Some(b)) => Some(if a.number() <= b.number() { a } else { b }),
        (Some(a), None) => Some(a),
        (None, b) => b,
    }
}

/// Whether every byte is a digit.
fn are_digits(field: &[u8]) -> bool
    ensures { result ≡ list_all is_digit field.now }
{
    field.iter().all(|byte| digit_of(*byte).is_some())
}

fn digits_reason(field: &[u8], count: usize) -> Option<Reason>
    ensures { result ≡ digits_reason count field.now }
{
    if field.len() != count {
        Some(Reason::F4)
    } else if are_digits(field) {
        None
    } else {
        Some(Reason::F5)
    }
}

fn limited_reason(field: &[u8], count: usize, most: u128) -> Option<Reason>
    requires { count ≤ 32 }
    ensures { result ≡ limited_reason count most field.now }
{
    if field.len() != count {
        return Some(Reason::F4);
    }
    match number_of(field) {
        None => Some(Reason::F5),
        Some(number) if number <= most => None,
        Some(_) => Some(Reason::F6),
    }
}

fn word_reason(is_known: bool) -> Option<Reason>
    ensures { result ≡ word_reason is_known }
{
    if is_known { None } else { Some(Reason::F5) }
}

/// How many digits a port has.
fn port_digits(version: u8) -> usize
    ensures { result ≡ port_digits version }
{
    if version == 1 { 1 } else { 2 }
}

fn field_reason(shape: Shape, field: &[u8], version: u8) -> Option<Reason>
    ensures { result ≡ field_reason version shape field.now }
{
    match shape {
        Shape::Port => digits_reason(field, port_digits(version)),
        Shape::Digits { count } => digits_reason(field, count),
        Shape::AtMost { most } => limited_reason(field, 1, u128::from(most)),
        Shape::SnoopResponse => limited_reason(field, 2, 0x1f),
        Shape::ChannelWord => word_reason(field == b"R".as_slice() || field == b"W".as_slice()),
        Shape::StateWord => word_reason(state_of(field).is_some()),
        Shape::OutcomeWord => word_reason(outcome_of(field).is_some()),
    }
}

/// Where the first space is.
fn find_space(bytes: &[u8]) -> Option<usize>
    ensures { MatchOption result (All (λ byte. byte ≢ 32) bytes.now)
        (λ at. (at < length bytes.now) × All (λ byte. byte ≢ 32) (take at bytes.now)
        × (slice_index bytes.now at ≡ 32)) }
{
    bytes.iter().position(|byte| *byte == b' ')
}

/// The first field of what is left of a line, and what is behind its space, if it has one.
pub fn cut_field(bytes: &[u8]) -> (&[u8], Option<&[u8]>)
    ensures { slice_split (λ byte. byte == 32) bytes.now ≡ result.0.now
        ∷ parts (option_map (λ rest. rest.now) result.1) }
{
    match find_space(bytes) {
        Some(at) => (&bytes[..at], Some(&bytes[at + 1..])),
        None => (bytes, None),
    }
}

/// The reason of the rest of a line, where it has no more fields, in a trace of any version.
#[tactic(auto, unfolding(crate::specs::Reasons::fields_reason))]
fn end_reason(rest: Option<&[u8]>) -> Option<Reason>
    ensures { (version : ℕ) → result ≡ fields_reason version [] (parts
        (option_map (λ bytes. bytes.now) rest.entry)) }
{
    match rest {
        None => None,
        Some(_) => Some(Reason::F3),
    }
}

/// The reason of the rest of a line, by the shapes of the fields that are left.
#[tactic(auto, unfolding(crate::specs::Reasons::fields_reason))]
fn fields_reason(shapes: &[Shape], rest: Option<&[u8]>, version: u8) -> Option<Reason>
    ensures { result ≡ fields_reason version shapes.now
        (parts (option_map (λ bytes. bytes.now) rest.entry)) }
{
    match shapes {
        [] => end_reason(rest),
        [shape, shapes @ ..] => match rest {
            None => Some(Reason::F3),
            Some(bytes) => {
                let (field, rest) = cut_field(bytes);
                least(
                    field_reason(*shape, field, version),
                    fields_reason(shapes, rest, version),
                )
            }
        },
    }
}

/// The least reason of the line, without its line feed, that applies in a trace of a version.
pub fn line_reason(line: &[u8], version: u8) -> Option<Reason>
    ensures { result ≡ line_reason version (slice_split (λ byte. byte == 32) line.now) }
{
    let (word, rest) = cut_field(line);
    match shapes_of(word, version) {
        Some(shapes) => fields_reason(shapes, rest, version),
        None => Some(Reason::F2),
    }
}
