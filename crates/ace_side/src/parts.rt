// What stands behind the word of a line, part by part.
ghost use Rattle.std.specs.Prelude.{◌≡◌, ◌≢◌, ◌<◌, ◌≤◌, [], ◌∷◌, length, MatchOption, IfSome};
ghost use Rattle.std.specs.Option.{option_map};
ghost use Rattle.ace_grammar.specs.Parts.{parts};
ghost use Rattle.ace_side.specs.Parts.{cut};

use ace_grammar::cut_field;

/// The first field of some bytes, and what is behind its space, if it has one.
pub fn first_field(bytes: &[u8]) -> (&[u8], Option<&[u8]>)
    ensures fields { cut bytes.now ≡ result.0.now ∷ parts (option_map (λ rest. rest.now) result.1) }
    ensures first { length result.0.now ≤ length bytes.now }
    ensures rest { IfSome result.1 (λ rest. length rest.now < length bytes.now) }
{
    cut_field(bytes)
}

/// The one field that is left, where there is exactly one.
pub fn only_field(rest: Option<&[u8]>) -> Option<&[u8]>
    ensures { MatchOption result (length (parts (option_map (λ bytes. bytes.now) rest.entry)) ≢ 1)
        (λ field. parts (option_map (λ bytes. bytes.now) rest.entry) ≡ field.now ∷ []) }
{
    let (field, more) = first_field(rest?);
    match more {
        None => Some(field),
        Some(_) => None,
    }
}

/// The first field that is left, and what is behind it, where there are two or more.
pub fn field_and_text(rest: Option<&[u8]>) -> Option<(&[u8], &[u8])>
    ensures fields { MatchOption result (length (parts (option_map
        (λ bytes. bytes.now) rest.entry)) < 2)
        (λ x. parts (option_map (λ bytes. bytes.now) rest.entry) ≡ x.0.now ∷ cut x.1.now) }
    ensures count { IfSome result (λ _. 2 ≤ length (parts (option_map
        (λ bytes. bytes.now) rest.entry))) }
    ensures short { IfSome rest.entry (λ bytes. length bytes.now < 256)
        → IfSome result (λ x. length x.1.now < 256) }
{
    let (field, more) = first_field(rest?);
    match more {
        None => None,
        Some(text) => Some((field, text)),
    }
}

/// The two fields that are left, where there are exactly two.
pub fn two_fields(rest: Option<&[u8]>) -> Option<(&[u8], &[u8])>
    ensures { MatchOption result (length (parts (option_map (λ bytes. bytes.now) rest.entry)) ≢ 2)
        (λ x. parts (option_map (λ bytes. bytes.now) rest.entry) ≡ x.0.now ∷ x.1.now ∷ []) }
{
    let (first, text) = field_and_text(rest)?;
    match only_field(Some(text)) {
        Some(second) => Some((first, second)),
        None => None,
    }
}
