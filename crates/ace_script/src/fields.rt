// The fields of a line: each is read as a value, or has a reason.
ghost use Rattle.std.specs.Prelude.{◌≡◌, ◌≤◌, ◌<◌, ◌+◌, ◌^◌, length, IfOk, is_some};
ghost use Rattle.ace_model.specs.Messages.{operation_of, is_sync_word, is_message_word, has_second};
ghost use Rattle.ace_model.specs.Plans.{is_lone_word, is_whole_sync_word, is_first_word};
ghost use Rattle.ace_script.specs.Fields.{lesser, both, number_of, port_of, address_of, place_of, word_of, strobe_of, lone_word_of, sync_word_of, first_word_of, second_word_of, word_behind, line_of, fetch_of};

use crate::Reason;
use ace_codes::ArKind;
use ace_event::{Header, Line};
use ace_grammar::number_of;

/// The lesser of two reasons.
fn lesser(one: Reason, other: Reason) -> Reason
    ensures { result ≡ lesser one other }
{
    if one.number() <= other.number() {
        one
    } else {
        other
    }
}

/// Two values, or the least reason why there aren't both.
pub fn both<A: Drop, B: Drop>(
    one: Result<A, Reason>,
    other: Result<B, Reason>,
) -> Result<(A, B), Reason>
    ensures { result ≡ both one other }
{
    match (one, other) {
        (Ok(a), Ok(b)) => Ok((a, b)),
        (Ok(_), Err(why)) => Err(why),
        (Err(why), Ok(_)) => Err(why),
        (Err(why), Err(other)) => Err(lesser(why, other)),
    }
}

/// The number of a field of so many digits.
#[tactic(auto, using(crate::proofs::FieldsExact::digits_below), unfolding(crate::specs::Fields::number_of))]
pub fn number(field: &[u8], count: usize) -> Result<u128, Reason>
    requires { count ≤ 32 }
    ensures value { result ≡ number_of count field.now }
    ensures bound { IfOk result (λ n. n < 16 ^ count) }
{
    if field.len() != count {
        return Err(Reason::P4);
    }
    match number_of(field) {
        Some(number) => Ok(number),
        None => Err(Reason::P5),
    }
}

/// A port of the header.
pub fn port(field: &[u8], header: &Header) -> Result<u8, Reason>
    ensures { result ≡ port_of header.now field.now }
{
    match number(field, 1) {
        Ok(port) if port < u128::from(header.ports) => Ok(port as u8),
        Ok(_) => Err(Reason::P6),
        Err(why) => Err(why),
    }
}

/// The address of a line.
pub fn address(field: &[u8]) -> Result<u32, Reason>
    ensures { result ≡ address_of field.now }
{
    match number(field, 8) {
        Ok(address) if address % 64 == 0 => Ok(address as u32),
        Ok(_) => Err(Reason::P6),
        Err(why) => Err(why),
    }
}

/// The number of a word of a line.
pub fn place(field: &[u8]) -> Result<u8, Reason>
    ensures { result ≡ place_of field.now }
{
    match number(field, 1) {
        Ok(place) if place <= 3 => Ok(place as u8),
        Ok(_) => Err(Reason::P6),
        Err(why) => Err(why),
    }
}

/// A word of sixteen bytes.
pub fn word(field: &[u8]) -> Result<u128, Reason>
    ensures { result ≡ word_of field.now }
{
    number(field, 32)
}

/// The strobe of a line.
pub fn strobe(field: &[u8]) -> Result<u64, Reason>
    ensures { result ≡ strobe_of field.now }
{
    match number(field, 16) {
        Ok(strobe) => Ok(strobe as u64),
        Err(why) => Err(why),
    }
}

/// The word of sixteen bytes that stands behind so many digits, where all are digits.
fn word_behind(field: &[u8], count: usize) -> Option<u128>
    requires { count + 32 ≤ length field.now }
    ensures { result ≡ word_behind count field.now }
{
    number_of(&field[count..count + 32])
}

/// A cache line: 128 digits, 32 for each word.
#[tactic(auto, unfolding(crate::specs::Fields::line_of))]
pub fn line(field: &[u8]) -> Result<Line, Reason>
    ensures { result ≡ line_of field.now }
{
    if field.len() != 128 {
        return Err(Reason::P4);
    }
    let first = word_behind(field, 0);
    let second = word_behind(field, 32);
    let third = word_behind(field, 64);
    let fourth = word_behind(field, 96);
    match (first, second, third, fourth) {
        (Some(a), Some(b), Some(c), Some(d)) => Ok(Line {
            words: [a, b, c, d],
        }),
        _ => Err(Reason::P5),
    }
}

/// The kind of a read ahead, by its letter.
#[tactic(auto, unfolding(crate::specs::Fields::fetch_of))]
pub fn fetch(field: &[u8]) -> Result<ArKind, Reason>
    ensures { result ≡ fetch_of field.now }
{
    if field == b"s".as_slice() {
        Ok(ArKind::ReadShared)
    } else if field == b"c".as_slice() {
        Ok(ArKind::ReadClean)
    } else if field == b"n".as_slice() {
        Ok(ArKind::ReadNotSharedDirty)
    } else if field == b"u".as_slice() {
        Ok(ArKind::ReadUnique)
    } else {
        Err(Reason::P5)
    }
}

/// Whether bits 14 to 12 of a DVM word name one of the operations of a message.
fn names_operation(word: u128) -> bool
    ensures { result ≡ is_some (operation_of word) }
{
    let code = word / 4096 % 8;
    code <= 4 || code == 6
}

/// Whether a DVM word is that of a Sync.
fn is_sync(word: u128) -> bool
    ensures { result ≡ is_sync_word word }
{
    word / 4096 % 8 == 4
}

/// Whether a second part follows a first part with this word.
fn has_second(word: u128) -> bool
    ensures { result ≡ has_second word }
{
    word % 2 == 1
}

/// Whether a first part of a DVM message can have this word.
fn is_message(word: u128) -> bool
    ensures { result ≡ is_message_word word }
{
    let sync = is_sync(word);
    names_operation(word) && (word / 32768 % 2 == 1) == sync && !(sync && has_second(word))
}

/// The word of a DVM message of one part that is no Sync.
pub fn lone_word(field: &[u8]) -> Result<u32, Reason>
    ensures { result ≡ lone_word_of field.now }
{
    match number(field, 8) {
        Ok(word) if is_message(word) && !is_sync(word) && !has_second(word) => Ok(word as u32),
        Ok(_) => Err(Reason::P6),
        Err(why) => Err(why),
    }
}

/// The word of a DVM Sync.
pub fn sync_word(field: &[u8]) -> Result<u32, Reason>
    ensures { result ≡ sync_word_of field.now }
{
    match number(field, 8) {
        Ok(word) if is_message(word) && is_sync(word) => Ok(word as u32),
        Ok(_) => Err(Reason::P6),
        Err(why) => Err(why),
    }
}

/// The word of the first part of a DVM message of two parts.
pub fn first_word(field: &[u8]) -> Result<u32, Reason>
    ensures { result ≡ first_word_of field.now }
{
    match number(field, 8) {
        Ok(word) if is_message(word) && has_second(word) => Ok(word as u32),
        Ok(_) => Err(Reason::P6),
        Err(why) => Err(why),
    }
}

/// The word of the second part, which is carried unread.
pub fn second_word(field: &[u8]) -> Result<u32, Reason>
    ensures { result ≡ second_word_of field.now }
{
    match number(field, 8) {
        Ok(word) => Ok(word as u32),
        Err(why) => Err(why),
    }
}
