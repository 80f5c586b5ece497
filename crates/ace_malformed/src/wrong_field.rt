// The field of a line that is wrong, and where it begins.
ghost use Rattle.std.specs.Prelude.{◌≡◌, ◌∷◌, ◌==◌, ◌+◌, ◌≤◌, ◌<◌, ◌≢◌, ℕ, All, MatchOption, IfSome, length, min, slice_index, take};
ghost use Rattle.std.specs.List.{slice_split};
ghost use Rattle.std.specs.Option.{option_map};
ghost use Rattle.ace_grammar.specs.Parts.{parts};
ghost use Rattle.ace_malformed.specs.Wrong.{column_behind, first_empty, first_wrong, found_of, wrong_in};

use crate::field::Field;
use crate::field_reason::is_wrong;
use crate::fields::fields_of;
use ace_grammar::Reason;

/// A field of a line that is wrong.
#[derive(Clone, Copy)]
pub(crate) struct WrongField<'a> {
    /// The column where it begins, from 1.
    pub column: usize,
    /// Which field it is.
    pub field: Field,
    /// What stands there.
    pub text: &'a [u8],
}

/// Where the first space is.
fn find_space(bytes: &[u8]) -> Option<usize>
    ensures { MatchOption result (All (λ byte. byte ≢ 32) bytes.now) (λ at. (at < length bytes.now)
        × All (λ byte. byte ≢ 32) (take at bytes.now) × (slice_index bytes.now at ≡ 32)) }
{
    bytes.iter().position(|byte| *byte == b' ')
}

/// The first field of what is left of a line, and what is behind its space, if it has one.
pub(crate) fn cut_field(bytes: &[u8]) -> (&[u8], Option<&[u8]>)
    ensures fields { slice_split (λ byte. byte == 32) bytes.now
        ≡ result.0.now ∷ parts (option_map (λ rest. rest.now) result.1) }
    ensures lengths { IfSome result.1
        (λ rest. length result.0.now + length rest.now + 1 ≡ length bytes.now) }
    ensures bound { length result.0.now ≤ length bytes.now }
{
    match find_space(bytes) {
        Some(at) => (&bytes[..at], Some(&bytes[at + 1..])),
        None => (bytes, None),
    }
}

/// The first of these fields of which this is the reason, in what is left of a line, which begins
/// at a column.
#[tactic(auto, unfolding(crate::specs::Wrong::first_wrong))]
fn first_wrong<'a>(
    fields: &[Field],
    rest: Option<&'a [u8]>,
    version: u8,
    reason: Reason,
    column: usize,
) -> Option<WrongField<'a>>
    requires { IfSome rest (λ bytes. column + length bytes.now ≤ 999) }
    ensures value { option_map found_of result ≡ first_wrong version reason column fields.now
        (parts (option_map (λ bytes. bytes.now) rest.entry)) }
    ensures bound { IfSome result (λ wrong. wrong.column + length wrong.text.now ≤ 999) }
{
    match fields {
        [] => None,
        [field, fields @ ..] => match rest {
            None => None,
            Some(bytes) => {
                let (text, rest) = cut_field(bytes);
                if is_wrong(*field, text, version, reason) {
                    return Some(WrongField {
                        column,
                        field: *field,
                        text,
                    });
                }
                first_wrong(fields, rest, version, reason, column + text.len() + 1)
            }
        },
    }
}

/// The first field of a line of which this is the reason.
pub(crate) fn wrong_in<'a>(line: &'a [u8], version: u8, reason: Reason) -> Option<WrongField<'a>>
    requires { length line.now ≤ 256 }
    ensures value { option_map found_of result ≡ wrong_in version reason line.entry.now }
    ensures bound { IfSome result (λ wrong. wrong.column + length wrong.text.now ≤ 999) }
{
    let (word, rest) = cut_field(line);
    match fields_of(word, version) {
        Some(fields) => first_wrong(fields, rest, version, reason, word.len() + 2),
        None => None,
    }
}

/// The column of the first field that is empty, in what is left of a line, which begins at a
/// column.
#[tactic(auto, unfolding(crate::specs::Wrong::first_empty))]
pub(crate) fn first_empty(rest: Option<&[u8]>, column: usize) -> Option<usize>
    requires { IfSome rest (λ bytes. column + length bytes.now ≤ 999) }
    ensures value { result
        ≡ first_empty column (parts (option_map (λ bytes. bytes.now) rest.entry)) }
    ensures bound { IfSome result (λ empty. empty ≤ 999) }
{
    match rest {
        None => None,
        Some(bytes) => {
            let (text, rest) = cut_field(bytes);
            if text.is_empty() {
                return Some(column);
            }
            first_empty(rest, column + text.len() + 1)
        }
    }
}

/// The column behind so many fields, in what is left of a line, which begins at a column.
#[tactic(auto, unfolding(crate::specs::Wrong::column_behind))]
pub(crate) fn column_behind(fields: &[Field], rest: Option<&[u8]>, column: usize) -> usize
    requires { IfSome rest (λ bytes. column + length bytes.now ≤ 999) }
    ensures { result ≡ column_behind column fields.now
        (parts (option_map (λ bytes. bytes.now) rest.entry)) }
{
    match fields {
        [] => column,
        [_, fields @ ..] => match rest {
            None => column,
            Some(bytes) => {
                let (text, rest) = cut_field(bytes);
                column_behind(fields, rest, column + text.len() + 1)
            }
        },
    }
}
