// The fields of a line: each is read as a value, or it is none.
ghost use Rattle.std.specs.Prelude.{◌≡◌, ◌≢◌, ◌<◌, ◌≤◌, ◌^◌, ◌%◌, ◌-◌, ◌⊎◌, ℕ, decimal, true, length, MatchOption, IsTrue, ◌↔◌};
ghost use Rattle.std.specs.List.{list_all};
ghost use Rattle.ace_event.specs.Text.{hex_text};
ghost use Rattle.ace_side.specs.declared.line.Digits.{Digits};
ghost use Rattle.ace_side.specs.Text.{digits_text};
ghost use Rattle.ace_side.specs.Grammar.{is_printable, is_visible, is_unit, is_name, is_note, AreDigits, IsReal};

use crate::{Digits, ShortText};
use ace_grammar::number_of;
use itoa::Buffer;

/// The decimal number that this text is, with neither a sign nor leading zeros.
fn plain_number(text: &str) -> Option<u64>
    ensures { MatchOption result ((n : ℕ) → n < 2 ^ 64
        → decimal n ≢ text.now) (λ n. decimal n ≡ text.now) }
{
    match text.parse::<u64>() {
        Ok(n) => {
            if Buffer::new().format(n) == text {
                Some(n)
            } else {
                None
            }
        }
        Err(_) => None,
    }
}

/// The same, of bytes.
pub fn number(field: &[u8]) -> Option<u64>
    ensures { MatchOption result ((n : ℕ) → n < 2 ^ 64
        → decimal n ≢ field.now) (λ n. decimal n ≡ field.now) }
{
    match str::from_utf8(field) {
        Ok(text) => plain_number(text),
        Err(_) => None,
    }
}

/// A number of 1 to so many hexadecimal digits.
pub fn digits(field: &[u8], most: u8) -> Option<Digits>
    requires { most ≤ 16 }
    ensures { MatchOption result ((d : Digits) → AreDigits most d → digits_text d ≢ field.now)
        (λ d. AreDigits most d × (digits_text d ≡ field.now)) }
{
    let count = field.len();
    if count == 0 || count > usize::from(most) {
        return None;
    }
    match number_of(field) {
        Some(value) => Some(Digits {
            count: count as u8,
            value: value as u64,
        }),
        None => None,
    }
}

/// A number of so many hexadecimal digits.
fn fixed(field: &[u8], count: u8) -> Option<u64>
    requires some { 1 ≤ count }
    requires few { count ≤ 16 }
    ensures { MatchOption result ((n : ℕ) → n < 16 ^ count → hex_text count n ≢ field.now)
        (λ n. (n < 16 ^ count) × (hex_text count n ≡ field.now)) }
{
    match digits(field, count) {
        Some(d) if d.count == count => Some(d.value),
        _ => None,
    }
}

/// The number of a port.
pub fn port(field: &[u8]) -> Option<u8>
    ensures { MatchOption result ((n : ℕ) → n < 256
        → hex_text 2 n ≢ field.now) (λ n. hex_text 2 n ≡ field.now) }
{
    match fixed(field, 2) {
        Some(port) => Some(port as u8),
        None => None,
    }
}

/// A word of eight digits.
pub fn word(field: &[u8]) -> Option<u32>
    ensures { MatchOption result ((n : ℕ) → n < 2 ^ 32
        → hex_text 8 n ≢ field.now) (λ n. hex_text 8 n ≡ field.now) }
{
    match fixed(field, 8) {
        Some(word) => Some(word as u32),
        None => None,
    }
}

/// The address of a line.
pub fn address(field: &[u8]) -> Option<u32>
    ensures { MatchOption result ((n : ℕ) → n < 2 ^ 32 → n % 64 ≡ 0 → hex_text 8 n ≢ field.now)
        (λ n. (n % 64 ≡ 0) × (hex_text 8 n ≡ field.now)) }
{
    match word(field) {
        Some(address) if address % 64 == 0 => Some(address),
        _ => None,
    }
}

/// Whether a number has no leading zeros.
fn is_plain(d: Digits) -> bool
    requires { AreDigits 16 d }
    ensures { IsTrue result ↔ ((d.count ≡ 1) ⊎ (16 ^ (d.count - 1) ≤ d.value)) }
{
    d.count == 1 || 16u64.pow(u32::from(d.count - 1)) <= d.value
}

/// A real address of a line.
pub fn real(field: &[u8]) -> Option<Digits>
    ensures { MatchOption result ((d : Digits) → IsReal d → digits_text d ≢ field.now)
        (λ d. IsReal d × (digits_text d ≡ field.now)) }
{
    match digits(field, 16) {
        Some(d) if d.value % 64 == 0 && is_plain(d) => Some(d),
        _ => None,
    }
}

fn are_visible(bytes: &[u8]) -> bool
    ensures { result ≡ list_all is_visible bytes.now }
{
    bytes.iter().all(|byte| 33 <= *byte && *byte <= 126)
}

fn are_printable(bytes: &[u8]) -> bool
    ensures { result ≡ list_all is_printable bytes.now }
{
    bytes.iter().all(|byte| 32 <= *byte && *byte <= 126)
}

/// Whether this is a unit of times.
fn is_unit(word: &[u8]) -> bool
    ensures { result ≡ is_unit word.now }
{
    1 <= word.len() && word.len() <= 16 && are_visible(word)
}

/// Whether this is the name of a port.
fn is_name(name: &[u8]) -> bool
    ensures { result ≡ is_name name.now }
{
    let count = name.len();
    1 <= count && count <= 64 && are_printable(name) && name[0] != b' ' && name[count - 1] != b' '
}

/// The unit of times.
pub fn unit(field: &[u8]) -> Option<ShortText>
    ensures { MatchOption result (is_unit field.now ≢ true) (λ t. (is_unit field.now ≡ true)
        × (t ≡ field.now)) }
{
    if is_unit(field) {
        Some(ShortText::of(field))
    } else {
        None
    }
}

/// The name of a port.
pub fn name(text: &[u8]) -> Option<ShortText>
    ensures { MatchOption result (is_name text.now ≢ true) (λ t. (is_name text.now ≡ true)
        × (t ≡ text.now)) }
{
    if is_name(text) {
        Some(ShortText::of(text))
    } else {
        None
    }
}

/// The text of a note.
pub fn note(text: &[u8]) -> Option<ShortText>
    requires { length text.now < 256 }
    ensures { MatchOption result (is_note text.now ≢ true) (λ t. (is_note text.now ≡ true)
        × (t ≡ text.now)) }
{
    if are_printable(text) {
        Some(ShortText::of(text))
    } else {
        None
    }
}
