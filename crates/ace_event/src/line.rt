// The bytes of a cache line.
ghost use Rattle.std.specs.Prelude.{◌≡◌, ℕ, ◌%◌, ◌^◌, ◌<◌};
ghost use Rattle.std.specs.Int.{w128, to_le_bytes};
ghost use Rattle.std.specs.Simd.Lanes.{number_l};
ghost use Rattle.ace_event.specs.Bytes.{byte_of, stored_byte, merged_word, merged};

use std::simd::prelude::*;

/// The 64 bytes of a cache line, four words in order of address. The most significant byte of a
/// word has its lowest address, so byte n of the line is byte n mod 16 of word n div 16, counted
/// from the most significant.
#[derive(Clone, Copy, Debug, PartialEq, Eq)]
pub struct Line {
    pub words: [u128; 4],
}

/// The bytes of a word as lanes, from the least significant on.
#[inline(always)]
fn lanes_of(word: u128) -> u8x16
    ensures { result ≡ to_le_bytes w128 word }
{
    let low = (word & 0xffff_ffff_ffff_ffff) as u64;
    let high = (word >> 64) as u64;
    u64x2::from_array([low, high]).to_le_bytes()
}

/// The word of such lanes.
#[inline(always)]
fn word_of(lanes: u8x16) -> u128
    ensures { result ≡ number_l 256 lanes % 2 ^ 128 }
{
    let halves = u64x2::from_le_bytes(lanes).to_array();
    u128::from(halves[1]) << 64 | u128::from(halves[0])
}

/// Word k after the store. Lane i is byte 15 - i of the word in order of address, and `bits` has
/// the bit of that byte in its half of the strobe of the word.
#[inline(always)]
fn merge_word(line: &Line, strobe: u64, bytes: &Line, k: usize) -> u128
    requires { k < 4 }
    ensures { result ≡ merged_word line.now strobe bytes.now k }
{
    let of_word = (strobe >> (16 * k) & 0xffff) as u16;
    let halves = u16x1::from_array([of_word]).to_le_bytes();
    let strobes: u8x16 = halves.swizzle([1, 1, 1, 1, 1, 1, 1, 1, 0, 0, 0, 0, 0, 0, 0, 0]);
    let bits = u8x16::from_array([128, 64, 32, 16, 8, 4, 2, 1, 128, 64, 32, 16, 8, 4, 2, 1]);
    let stored = (strobes & bits).simd_eq(bits);
    word_of(stored.select(lanes_of(bytes.words[k]), lanes_of(line.words[k])))
}

/// The line after a store: byte n, from 0 to 63, is that of `bytes` where bit n of the strobe is 1,
/// and else it stays as `line` has it.
pub fn merge(line: Line, strobe: u64, bytes: Line) -> Line
    ensures value { result ≡ merged line strobe bytes }
    ensures by_byte { (n : ℕ) → n < 64 → byte_of result n ≡ stored_byte line strobe bytes n }
{
    Line {
        words: [
            merge_word(&line, strobe, &bytes, 0),
            merge_word(&line, strobe, &bytes, 1),
            merge_word(&line, strobe, &bytes, 2),
            merge_word(&line, strobe, &bytes, 3),
        ],
    }
}
