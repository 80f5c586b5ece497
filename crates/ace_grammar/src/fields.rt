// Fields, from the front of a line. Each comes with the space before it.
ghost use Rattle.std.specs.Prelude.{◌≡◌, ◌≤◌, ◌^◌, ◌<◌, ◌-◌, length, IfSome, IsTrue};
ghost use Rattle.std.specs.Option.{option_map};
ghost use Rattle.ace_grammar.specs.Lanes.{HaveEntries, IsEntry, are_entries, entries_onto};
ghost use Rattle.ace_grammar.specs.Fields.{digit_of, digits_onto, space_at, digits_at, number_at, port_at, flag_at, letter_at, channel_at, state_of, state_at, outcome_of, outcome_at, line_at, ended};

use ace_codes::LineState;
use ace_event::{Channel, Line, Outcome};
use std::simd::prelude::*;

/// The value of a lower-case hexadecimal digit.
#[inline(always)]
pub fn digit_of(byte: u8) -> Option<u8>
    ensures value { result ≡ digit_of byte }
    ensures below { IfSome result (λ digit. digit < 16) }
{
    // No branch tells decimal digits from letters, since neither is the likelier.
    let decimal = byte.wrapping_sub(b'0');
    let letter = byte.wrapping_sub(b'a').saturating_add(10);
    let digit = if decimal < 10 { decimal } else { letter };
    (digit < 16).then_some(digit)
}

/// The number that these digits write, of which there are at most 32.
#[inline(always)]
pub fn number_of(digits: &[u8]) -> Option<u128>
    requires { length digits.now ≤ 32 }
    ensures { result ≡ digits_onto 0 digits.now }
{
    let mut number = 0;
    for byte in digits {
        number = number * 16 + u128::from(digit_of(*byte)?);
    }
    Some(number)
}

/// The value of each digit, and 255 for each byte that is none.
static DIGITS: [u8; 256] = [
    255, 255, 255, 255, 255, 255, 255, 255, 255, 255, 255, 255, 255, 255, 255, 255, 255, 255, 255,
    255, 255, 255, 255, 255, 255, 255, 255, 255, 255, 255, 255, 255, 255, 255, 255, 255, 255, 255,
    255, 255, 255, 255, 255, 255, 255, 255, 255, 255, 0, 1, 2, 3, 4, 5, 6, 7, 8, 9, 255, 255, 255,
    255, 255, 255, 255, 255, 255, 255, 255, 255, 255, 255, 255, 255, 255, 255, 255, 255, 255, 255,
    255, 255, 255, 255, 255, 255, 255, 255, 255, 255, 255, 255, 255, 255, 255, 255, 255, 10, 11,
    12, 13, 14, 15, 255, 255, 255, 255, 255, 255, 255, 255, 255, 255, 255, 255, 255, 255, 255, 255,
    255, 255, 255, 255, 255, 255, 255, 255, 255, 255, 255, 255, 255, 255, 255, 255, 255, 255, 255,
    255, 255, 255, 255, 255, 255, 255, 255, 255, 255, 255, 255, 255, 255, 255, 255, 255, 255, 255,
    255, 255, 255, 255, 255, 255, 255, 255, 255, 255, 255, 255, 255, 255, 255, 255, 255, 255, 255,
    255, 255, 255, 255, 255, 255, 255, 255, 255, 255, 255, 255, 255, 255, 255, 255, 255, 255, 255,
    255, 255, 255, 255, 255, 255, 255, 255, 255, 255, 255, 255, 255, 255, 255, 255, 255, 255, 255,
    255, 255, 255, 255, 255, 255, 255, 255, 255, 255, 255, 255, 255, 255, 255, 255, 255, 255, 255,
    255, 255, 255, 255, 255, 255, 255, 255, 255, 255, 255, 255, 255, 255, 255, 255, 255, 255, 255,
    255, 255, 255, 255,
];

/// The value of a digit, or 255.
#[inline(always)]
fn look_up(byte: u8) -> u8
    ensures { IsEntry byte result }
{
    DIGITS[byte as usize]
}

/// The value of each of 16 digits, and for each byte that is none a number that is not below 16.
#[inline(always)]
fn entries_of(digits: &[u8]) -> u8x16
    requires { length digits.now ≡ 16 }
    ensures { HaveEntries digits.now result }
{
    let bytes = u8x16::from_slice(digits);
    let decimal = bytes - u8x16::splat(b'0');
    let letter = bytes - u8x16::splat(b'a');
    let other = letter
        .simd_lt(u8x16::splat(6))
        .select(letter + u8x16::splat(10), u8x16::splat(255));
    decimal.simd_lt(u8x16::splat(10)).select(decimal, other)
}

/// Whether all of them are digits.
#[inline(always)]
fn are_entries(entries: u8x16) -> bool
    requires { length entries ≡ 16 }
    ensures { result ≡ are_entries entries }
{
    entries.simd_ge(u8x16::splat(16)).to_bitmask() == 0
}

/// The number of 16 digits.
#[inline(always)]
fn pack(entries: u8x16) -> u64
    requires len { length entries ≡ 16 }
    requires digits { IsTrue (are_entries entries) }
    ensures { result ≡ entries_onto 0 entries }
{
    let high: u8x8 = entries.swizzle([0, 2, 4, 6, 8, 10, 12, 14]);
    let low: u8x8 = entries.swizzle([1, 3, 5, 7, 9, 11, 13, 15]);
    let pairs = high * u8x8::splat(16) + low;
    u64::from_be_bytes(pairs.to_array())
}

/// The number that 16 digits write.
#[inline(always)]
fn number_of_16(digits: &[u8]) -> Option<u64>
    requires { length digits.now ≡ 16 }
    ensures { result ≡ digits_onto 0 digits.now }
{
    let entries = entries_of(digits);
    if are_entries(entries) {
        Some(pack(entries))
    } else {
        None
    }
}

/// The value of each of eight digits, and for each byte that is none a number that is not below 16.
#[inline(always)]
fn eight_entries_of(digits: &[u8]) -> u8x8
    requires { length digits.now ≡ 8 }
    ensures { HaveEntries digits.now result }
{
    let bytes = u8x8::from_slice(digits);
    let decimal = bytes - u8x8::splat(b'0');
    let letter = bytes - u8x8::splat(b'a');
    let other = letter
        .simd_lt(u8x8::splat(6))
        .select(letter + u8x8::splat(10), u8x8::splat(255));
    decimal.simd_lt(u8x8::splat(10)).select(decimal, other)
}

/// Whether all of them are digits.
#[inline(always)]
fn are_eight_entries(entries: u8x8) -> bool
    requires { length entries ≡ 8 }
    ensures { result ≡ are_entries entries }
{
    entries.simd_ge(u8x8::splat(16)).to_bitmask() == 0
}

/// The number of eight digits.
#[inline(always)]
fn pack_eight(entries: u8x8) -> u32
    requires len { length entries ≡ 8 }
    requires digits { IsTrue (are_entries entries) }
    ensures { result ≡ entries_onto 0 entries }
{
    let high: u8x4 = entries.swizzle([0, 2, 4, 6]);
    let low: u8x4 = entries.swizzle([1, 3, 5, 7]);
    let pairs = high * u8x4::splat(16) + low;
    u32::from_be_bytes(pairs.to_array())
}

/// The number that eight digits write.
#[inline(always)]
fn number_of_8(digits: &[u8]) -> Option<u64>
    requires { length digits.now ≡ 8 }
    ensures { result ≡ digits_onto 0 digits.now }
{
    let entries = eight_entries_of(digits);
    if are_eight_entries(entries) {
        Some(u64::from(pack_eight(entries)))
    } else {
        None
    }
}

/// The number that these digits write, of which there are at most 16, one by one.
#[inline(always)]
fn number_one_by_one(digits: &[u8]) -> Option<u64>
    requires { length digits.now ≤ 16 }
    ensures { result ≡ digits_onto 0 digits.now }
{
    let mut number: u64 = 0;
    let mut seen = 0;
    for byte in digits {
        let digit = look_up(*byte);
        seen |= digit;
        number = number.wrapping_mul(16).wrapping_add(u64::from(digit));
    }
    (seen < 16).then_some(number)
}

/// The number that one digit writes, the quicker for one below 10.
#[inline(always)]
fn number_of_1(digits: &[u8]) -> Option<u64>
    requires { length digits.now ≡ 1 }
    ensures { result ≡ digits_onto 0 digits.now }
{
    match digit_of(digits[0]) {
        Some(digit) => Some(u64::from(digit)),
        None => None,
    }
}

/// The number that these digits write, of which there are at most 16. How many there are, and the
/// most that the number may be, say which way is quicker: both are known where this is compiled.
#[inline(always)]
fn short_number_of(digits: &[u8], most: u64) -> Option<u64>
    requires { length digits.now ≤ 16 }
    ensures { result ≡ digits_onto 0 digits.now }
{
    match digits.len() {
        1 if most < 10 => number_of_1(digits),
        8 => number_of_8(digits),
        16 => number_of_16(digits),
        _ => number_one_by_one(digits),
    }
}

#[tactic(auto, unfolding(crate::specs::Fields::space_at))]
#[inline(always)]
fn take_space(bytes: &[u8]) -> Option<&[u8]>
    ensures { option_map (λ rest. rest.now) result ≡ space_at bytes.now }
{
    match bytes {
        [b' ', rest @ ..] => Some(rest),
        _ => None,
    }
}

#[tactic(auto, unfolding(crate::specs::Fields::digits_at))]
#[inline(always)]
fn take_digits(bytes: &[u8], count: usize, most: u64) -> Option<(u64, &[u8])>
    requires { count ≤ 16 }
    ensures value { option_map (λ x. (x.0, x.1.now)) result ≡ digits_at count most bytes.now }
    ensures bound { IfSome result (λ x. x.0 ≤ most) }
{
    if bytes.len() < count {
        return None;
    }
    let (digits, rest) = bytes.split_at(count);
    let number = short_number_of(digits, most)?;
    if number > most {
        return None;
    }
    Some((number, rest))
}

/// A number of so many digits, which is at most `most`.
#[tactic(auto, unfolding(crate::specs::Fields::number_at))]
#[inline(always)]
pub fn take_number(bytes: &[u8], count: usize, most: u64) -> Option<(u64, &[u8])>
    requires { count ≤ 16 }
    ensures value { option_map (λ x. (x.0, x.1.now)) result ≡ number_at count most bytes.now }
    ensures bound { IfSome result (λ x. x.0 ≤ most) }
{
    take_digits(take_space(bytes)?, count, most)
}

/// A port: one digit in version 1, and two in version 2.
#[tactic(auto, unfolding(crate::specs::Fields::port_at))]
#[inline(always)]
pub fn take_port(bytes: &[u8], version: u8) -> Option<(u8, &[u8])>
    ensures { option_map (λ x. (x.0, x.1.now)) result ≡ port_at version bytes.now }
{
    if version == 1 {
        let (port, rest) = take_number(bytes, 1, 15)?;
        Some((port as u8, rest))
    } else {
        let (port, rest) = take_number(bytes, 2, 0xff)?;
        Some((port as u8, rest))
    }
}

/// A number of 16 digits, which has no space before it.
#[inline(always)]
fn take_half(bytes: &[u8]) -> Option<(u64, &[u8])>
    ensures { option_map (λ x. (x.0, x.1.now)) result ≡ digits_at 16 (2 ^ 64 - 1) bytes.now }
{
    if bytes.len() < 16 {
        return None;
    }
    let (digits, rest) = bytes.split_at(16);
    let number = number_of_16(digits)?;
    Some((number, rest))
}

/// A number of 32 digits, which has no space before it.
#[inline(always)]
fn take_word_digits(bytes: &[u8]) -> Option<(u128, &[u8])>
    ensures { option_map (λ x. (x.0, x.1.now)) result ≡ digits_at 32 (2 ^ 128 - 1) bytes.now }
{
    let (high, rest) = take_half(bytes)?;
    let (low, rest) = take_half(rest)?;
    Some((u128::from(high) * (1 << 64) + u128::from(low), rest))
}

/// A number of 32 digits.
#[tactic(auto, unfolding(crate::specs::Fields::number_at))]
#[inline(always)]
pub fn take_word(bytes: &[u8]) -> Option<(u128, &[u8])>
    ensures value { option_map (λ x. (x.0, x.1.now)) result ≡ number_at 32 (2 ^ 128 - 1) bytes.now }
{
    take_word_digits(take_space(bytes)?)
}

/// A flag: `0` or `1`.
#[tactic(auto, unfolding(crate::specs::Fields::flag_at))]
#[inline(always)]
pub fn take_flag(bytes: &[u8]) -> Option<(bool, &[u8])>
    ensures { option_map (λ x. (x.0, x.1.now)) result ≡ flag_at bytes.now }
{
    let (bit, rest) = take_number(bytes, 1, 1)?;
    Some((bit == 1, rest))
}

#[tactic(auto, unfolding(crate::specs::Fields::letter_at))]
fn take_letter(bytes: &[u8]) -> Option<(Channel, &[u8])>
    ensures { option_map (λ x. (x.0, x.1.now)) result ≡ letter_at bytes.now }
{
    match bytes {
        [b'R', rest @ ..] => Some((Channel::Read, rest)),
        [b'W', rest @ ..] => Some((Channel::Write, rest)),
        _ => None,
    }
}

/// A channel: `R` or `W`.
#[tactic(auto, unfolding(crate::specs::Fields::channel_at))]
pub fn take_channel(bytes: &[u8]) -> Option<(Channel, &[u8])>
    ensures { option_map (λ x. (x.0, x.1.now)) result ≡ channel_at bytes.now }
{
    take_letter(take_space(bytes)?)
}

#[inline(always)]
pub fn state_of(bytes: &[u8]) -> Option<LineState>
    ensures { result ≡ state_of bytes.now }
{
    match bytes {
        [b'I'] => Some(LineState::I),
        [b'U', b'C'] => Some(LineState::UC),
        [b'U', b'D'] => Some(LineState::UD),
        [b'S', b'C'] => Some(LineState::SC),
        [b'S', b'D'] => Some(LineState::SD),
        _ => None,
    }
}

/// A state, which is the last field of its line.
#[tactic(auto, unfolding(crate::specs::Fields::state_at))]
#[inline(always)]
pub fn take_state(bytes: &[u8]) -> Option<LineState>
    ensures { result ≡ state_at bytes.now }
{
    state_of(take_space(bytes)?)
}

pub fn outcome_of(bytes: &[u8]) -> Option<Outcome>
    ensures { result ≡ outcome_of bytes.now }
{
    match bytes {
        [b'o', b'k'] => Some(Outcome::Ok),
        [b's', b'k', b'i', b'p'] => Some(Outcome::Skip),
        [b'f', b'a', b'i', b'l'] => Some(Outcome::Fail),
        _ => None,
    }
}

/// How an operation retired, which is the last field of its line.
#[tactic(auto, unfolding(crate::specs::Fields::outcome_at))]
pub fn take_outcome(bytes: &[u8]) -> Option<Outcome>
    ensures { result ≡ outcome_at bytes.now }
{
    outcome_of(take_space(bytes)?)
}

/// The value, where no bytes are left.
fn at_end<A: Drop>(value: A, bytes: &[u8]) -> Option<A>
    ensures { result ≡ ended value bytes.now }
{
    match bytes {
        [] => Some(value),
        _ => None,
    }
}

/// The four words of a cache line, which is the last field of its line.
#[tactic(auto, unfolding(crate::specs::Fields::line_at))]
pub fn take_line(bytes: &[u8]) -> Option<Line>
    ensures { result ≡ line_at bytes.now }
{
    let (a, rest) = take_word(bytes)?;
    let (b, rest) = take_word_digits(rest)?;
    let (c, rest) = take_word_digits(rest)?;
    let (d, rest) = take_word_digits(rest)?;
    let line = Line {
        words: [a, b, c, d],
    };
    at_end(line, rest)
}
