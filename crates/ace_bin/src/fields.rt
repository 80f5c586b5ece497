// The fields behind a tag, each by its place.
ghost use Rattle.std.specs.Prelude.{◌≡◌, ◌<◌, ◌≤◌, ◌+◌, ◌^◌, ◌∷◌, [], length, nat_le, nat_lt, false, OnOk, IfOk, IfErr};
ghost use Rattle.ace_event.specs.Range.{IsPort, IsLine};
ghost use Rattle.ace_event.specs.Text.{port_digits};
ghost use Rattle.ace_bin.specs.declared.reason.BinReason.TheVariants.{Z1, Z4};
ghost use Rattle.ace_bin.specs.Fields.{number_at};
ghost use Rattle.ace_bin.specs.Records.{flag_number, channel_number, state_number, outcome_number};

use crate::BinReason;
use ace_codes::LineState;
use ace_event::{Channel, Line, Outcome};

/// Whether there are so many bytes.
#[inline(always)]
pub fn enough(bytes: &[u8], count: usize) -> Result<(), BinReason>
    ensures ok { OnOk result (count ≤ length bytes.now) }
    ensures err { IfErr result (λ reason. (reason ≡ Z1) × (length bytes.now < count)) }
{
    if bytes.len() < count {
        return Err(BinReason::Z1);
    }
    Ok(())
}

/// The number of one byte.
#[inline(always)]
pub fn one_at(bytes: &[u8], place: usize) -> u8
    requires { place + 1 ≤ length bytes.now }
    ensures { result ≡ number_at 1 place bytes.now }
{
    bytes[place]
}

/// The number of two bytes.
#[inline(always)]
pub fn two_at(bytes: &[u8], place: usize) -> u16
    requires { place + 2 ≤ length bytes.now }
    ensures value { result ≡ number_at 2 place bytes.now }
    ensures range { result < 2 ^ 16 }
{
    let Some(two) = bytes[place..].first_chunk::<2>() else {
        unreachable!();
    };
    u16::from_be_bytes(*two)
}

/// The number of four bytes.
#[inline(always)]
pub fn four_at(bytes: &[u8], place: usize) -> u32
    requires { place + 4 ≤ length bytes.now }
    ensures value { result ≡ number_at 4 place bytes.now }
    ensures range { result < 2 ^ 32 }
{
    let Some(four) = bytes[place..].first_chunk::<4>() else {
        unreachable!();
    };
    u32::from_be_bytes(*four)
}

/// The number of eight bytes.
#[inline(always)]
pub fn eight_at(bytes: &[u8], place: usize) -> u64
    requires { place + 8 ≤ length bytes.now }
    ensures value { result ≡ number_at 8 place bytes.now }
    ensures range { result < 2 ^ 64 }
{
    let Some(eight) = bytes[place..].first_chunk::<8>() else {
        unreachable!();
    };
    u64::from_be_bytes(*eight)
}

/// The word of sixteen bytes.
#[inline(always)]
pub fn word_at(bytes: &[u8], place: usize) -> u128
    requires { place + 16 ≤ length bytes.now }
    ensures value { result ≡ number_at 16 place bytes.now }
    ensures range { result < 2 ^ 128 }
{
    let Some(sixteen) = bytes[place..].first_chunk::<16>() else {
        unreachable!();
    };
    u128::from_be_bytes(*sixteen)
}

/// The line of 64 bytes.
#[inline(always)]
pub fn line_at(bytes: &[u8], place: usize) -> Line
    requires { place + 64 ≤ length bytes.now }
    ensures numbers { result.words
        ≡ number_at 16 place bytes.now ∷ number_at 16 (place + 16) bytes.now
        ∷ number_at 16 (place + 32) bytes.now ∷ number_at 16 (place + 48) bytes.now ∷ [] }
    ensures range { IsLine result }
{
    Line {
        words: [
            word_at(bytes, place),
            word_at(bytes, place + 16),
            word_at(bytes, place + 32),
            word_at(bytes, place + 48),
        ],
    }
}

/// A number of one byte that may not be above the most.
#[inline(always)]
pub fn most_at(bytes: &[u8], place: usize, most: u8) -> Result<u8, BinReason>
    requires { place + 1 ≤ length bytes.now }
    ensures ok { IfOk result (λ n. (n ≡ number_at 1 place bytes.now) × (n ≤ most)) }
    ensures err { IfErr result
        (λ reason. (reason ≡ Z4) × (nat_le (number_at 1 place bytes.now) most ≡ false)) }
{
    let n = one_at(bytes, place);
    if n > most {
        return Err(BinReason::Z4);
    }
    Ok(n)
}

/// A port, in a trace of a version.
#[inline(always)]
pub fn port_at(bytes: &[u8], place: usize, version: u8) -> Result<u8, BinReason>
    requires { place + 1 ≤ length bytes.now }
    ensures ok { IfOk result (λ port. (port ≡ number_at 1 place bytes.now) × IsPort version port) }
    ensures err { IfErr result
        (λ reason. (reason ≡ Z4)
        × (nat_lt (number_at 1 place bytes.now) (16 ^ port_digits version) ≡ false)) }
{
    let port = one_at(bytes, place);
    if version == 1 && port >= 16 {
        return Err(BinReason::Z4);
    }
    Ok(port)
}

/// A flag.
#[inline(always)]
pub fn flag_at(bytes: &[u8], place: usize) -> Result<bool, BinReason>
    requires { place + 1 ≤ length bytes.now }
    ensures ok { IfOk result (λ flag. flag_number flag ≡ number_at 1 place bytes.now) }
    ensures err { IfErr result
        (λ reason. (reason ≡ Z4) × (nat_le (number_at 1 place bytes.now) 1 ≡ false)) }
{
    match one_at(bytes, place) {
        0 => Ok(false),
        1 => Ok(true),
        _ => Err(BinReason::Z4),
    }
}

/// A channel.
#[inline(always)]
pub fn channel_at(bytes: &[u8], place: usize) -> Result<Channel, BinReason>
    requires { place + 1 ≤ length bytes.now }
    ensures ok { IfOk result (λ channel. channel_number channel ≡ number_at 1 place bytes.now) }
    ensures err { IfErr result
        (λ reason. (reason ≡ Z4) × (nat_le (number_at 1 place bytes.now) 1 ≡ false)) }
{
    match one_at(bytes, place) {
        0 => Ok(Channel::Read),
        1 => Ok(Channel::Write),
        _ => Err(BinReason::Z4),
    }
}

/// A state.
#[inline(always)]
pub fn state_at(bytes: &[u8], place: usize) -> Result<LineState, BinReason>
    requires { place + 1 ≤ length bytes.now }
    ensures ok { IfOk result (λ state. state_number state ≡ number_at 1 place bytes.now) }
    ensures err { IfErr result
        (λ reason. (reason ≡ Z4) × (nat_le (number_at 1 place bytes.now) 4 ≡ false)) }
{
    match one_at(bytes, place) {
        0 => Ok(LineState::I),
        1 => Ok(LineState::UC),
        2 => Ok(LineState::UD),
        3 => Ok(LineState::SC),
        4 => Ok(LineState::SD),
        _ => Err(BinReason::Z4),
    }
}

/// An outcome.
#[inline(always)]
pub fn outcome_at(bytes: &[u8], place: usize) -> Result<Outcome, BinReason>
    requires { place + 1 ≤ length bytes.now }
    ensures ok { IfOk result (λ outcome. outcome_number outcome ≡ number_at 1 place bytes.now) }
    ensures err { IfErr result
        (λ reason. (reason ≡ Z4) × (nat_le (number_at 1 place bytes.now) 2 ≡ false)) }
{
    match one_at(bytes, place) {
        0 => Ok(Outcome::Ok),
        1 => Ok(Outcome::Skip),
        2 => Ok(Outcome::Fail),
        _ => Err(BinReason::Z4),
    }
}
