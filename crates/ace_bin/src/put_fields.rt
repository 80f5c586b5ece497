// The fields of a record, put at their places.
ghost use Rattle.std.specs.Prelude.{◌≡◌, ◌≤◌, ◌+◌, ◌++◌, ◌∷◌, [], length, take};
ghost use Rattle.ace_bin.specs.Fields.{number_bytes};
ghost use Rattle.ace_bin.specs.Records.{flag_number, channel_number, state_number, outcome_number};

use ace_codes::LineState;
use ace_event::{Channel, Outcome};

/// The number of values of half a word.
const HALF_WORD: u128 = 1 << 64;

/// The tag, which stands first.
#[inline(always)]
pub fn put_tag(into: &mut [u8], tag: u8)
    requires { 1 ≤ length into.old }
    ensures { take 1 into.new ≡ tag ∷ [] }
{
    put_byte(into, 0, tag);
}

/// A byte.
#[inline(always)]
pub fn put_byte(into: &mut [u8], place: usize, byte: u8)
    requires { place + 1 ≤ length into.old }
    ensures { take (place + 1) into.new ≡ take place into.old ++ byte ∷ [] }
{
    into[place] = byte;
}

/// A piece of so many bytes.
#[inline(always)]
pub fn put_piece(into: &mut [u8], place: usize, count: usize, piece: &[u8])
    requires room { place + count ≤ length into.old }
    requires piece { length piece.now ≡ count }
    ensures { take (place + count) into.new ≡ take place into.old ++ piece.now }
{
    into[place..place + count].copy_from_slice(piece);
}

/// A number of one byte.
#[tactic(auto, unfolding(crate::specs::Fields::number_bytes))]
#[inline(always)]
pub fn put_one(into: &mut [u8], place: usize, n: u8)
    requires { place + 1 ≤ length into.old }
    ensures { take (place + 1) into.new ≡ take place into.old ++ number_bytes 1 n }
{
    put_byte(into, place, n);
}

/// A number of two bytes.
#[tactic(auto, unfolding(crate::specs::Fields::number_bytes))]
#[inline(always)]
pub fn put_two(into: &mut [u8], place: usize, n: u16)
    requires { place + 2 ≤ length into.old }
    ensures { take (place + 2) into.new ≡ take place into.old ++ number_bytes 2 n }
{
    put_piece(into, place, 2, &n.to_be_bytes());
}

/// A number of four bytes.
#[tactic(auto, unfolding(crate::specs::Fields::number_bytes))]
#[inline(always)]
pub fn put_four(into: &mut [u8], place: usize, n: u32)
    requires { place + 4 ≤ length into.old }
    ensures { take (place + 4) into.new ≡ take place into.old ++ number_bytes 4 n }
{
    put_piece(into, place, 4, &n.to_be_bytes());
}

/// A number of eight bytes.
#[tactic(auto, unfolding(crate::specs::Fields::number_bytes))]
#[inline(always)]
pub fn put_eight(into: &mut [u8], place: usize, n: u64)
    requires { place + 8 ≤ length into.old }
    ensures { take (place + 8) into.new ≡ take place into.old ++ number_bytes 8 n }
{
    put_piece(into, place, 8, &n.to_be_bytes());
}

/// The sixteen bytes of a word, by halves, which are put with one store each.
#[tactic(auto, using(crate::proofs::WordHalves::word_put))]
#[inline(always)]
pub fn put_word(into: &mut [u8], place: usize, word: u128)
    requires { place + 16 ≤ length into.old }
    ensures { take (place + 16) into.new ≡ take place into.old ++ number_bytes 16 word }
{
    let first = (word / HALF_WORD) as u64;
    let second = (word % HALF_WORD) as u64;
    put_eight(into, place, first);
    put_eight(into, place + 8, second);
}

/// The byte of a flag.
#[inline(always)]
pub fn put_flag(into: &mut [u8], place: usize, flag: bool)
    requires { place + 1 ≤ length into.old }
    ensures { take (place + 1) into.new ≡ take place into.old ++ number_bytes 1 (flag_number flag) }
{
    put_one(into, place, if flag { 1 } else { 0 });
}

/// The byte of a channel.
#[inline(always)]
pub fn put_channel(into: &mut [u8], place: usize, channel: Channel)
    requires { place + 1 ≤ length into.old }
    ensures { take (place + 1) into.new
        ≡ take place into.old ++ number_bytes 1 (channel_number channel) }
{
    put_one(
        into,
        place,
        match channel {
            Channel::Read => 0,
            Channel::Write => 1,
        },
    );
}

/// The byte of a state.
#[inline(always)]
pub fn put_state(into: &mut [u8], place: usize, state: LineState)
    requires { place + 1 ≤ length into.old }
    ensures { take (place + 1) into.new
        ≡ take place into.old ++ number_bytes 1 (state_number state) }
{
    put_one(
        into,
        place,
        match state {
            LineState::I => 0,
            LineState::UC => 1,
            LineState::UD => 2,
            LineState::SC => 3,
            LineState::SD => 4,
        },
    );
}

/// The byte of an outcome.
#[inline(always)]
pub fn put_outcome(into: &mut [u8], place: usize, outcome: Outcome)
    requires { place + 1 ≤ length into.old }
    ensures { take (place + 1) into.new
        ≡ take place into.old ++ number_bytes 1 (outcome_number outcome) }
{
    put_one(
        into,
        place,
        match outcome {
            Outcome::Ok => 0,
            Outcome::Skip => 1,
            Outcome::Fail => 2,
        },
    );
}
