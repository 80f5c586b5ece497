// The fields of a line, each behind a space.
ghost use Rattle.std.specs.Prelude.{◌≡◌, ◌<◌, ◌≤◌, ◌+◌, ◌*◌, ◌^◌, ◌++◌, ◌∷◌, [], length};
ghost use Rattle.std.specs.Char.{digit_char};
ghost use Rattle.ace_event.specs.Text.{hex_text, flag_text, state_text, channel_text, outcome_text, line_digits, port_text};
ghost use Rattle.ace_event.specs.Range.{IsPort};

use crate::text_buf::TextBuf;
use ace_codes::LineState;
use ace_event::{Channel, Line, Outcome};
use std::simd::prelude::*;

/// The lower-case hexadecimal digit of a number.
pub(crate) fn digit(n: u8) -> u8
    requires { n < 16 }
    ensures { result ≡ digit_char n }
{
    if n < 10 { b'0' + n } else { b'a' + (n - 10) }
}

/// The 16 digits of a number.
#[inline(always)]
fn hex_16(n: u64) -> [u8; 16]
    ensures { result ≡ hex_text 16 n }
{
    let bytes = u8x8::from_array(n.to_be_bytes());
    let high = bytes >> u8x8::splat(4);
    let low = bytes & u8x8::splat(15);
    let values: u8x16 = high.shuffle(low, [0, 8, 1, 9, 2, 10, 3, 11, 4, 12, 5, 13, 6, 14, 7, 15]);
    let above_zero = values
        .simd_lt(u8x16::splat(10))
        .select(u8x16::splat(b'0'), u8x16::splat(b'a' - 10));
    (values + above_zero).to_array()
}

impl TextBuf {
    /// So many digits of the number, the most significant first.
    #[inline(always)]
    pub fn push_digits(&mut self, count: u32, n: u128)
        requires count { count ≤ 32 }
        requires room { length self.old + count ≤ 4096 }
        ensures value { self.new ≡ self.old ++ hex_text count n }
        ensures len { length self.new ≡ length self.old + count }
    {
        let low = hex_16((n & 0xffff_ffff_ffff_ffff) as u64);
        if count <= 16 {
            self.append(&low[16 - count as usize..]);
        } else {
            self.append(&hex_16((n >> 64) as u64)[32 - count as usize..]);
            self.append(&low);
        }
    }

    /// A space and so many digits of a number.
    #[inline(always)]
    pub fn push_number(&mut self, count: u32, n: u128)
        requires count { count ≤ 32 }
        requires room { length self.old + 1 + count ≤ 4096 }
        ensures value { self.new ≡ self.old ++ 32 ∷ hex_text count n }
        ensures len { length self.new ≡ length self.old + 1 + count }
    {
        self.push(b' ');
        self.push_digits(count, n);
    }

    /// A space and a number of one digit.
    #[tactic(auto, using(crate::proofs::Digits::one_digit))]
    #[inline(always)]
    pub fn push_digit(&mut self, n: u8)
        requires digit { n < 16 }
        requires room { length self.old + 2 ≤ 4096 }
        ensures value { self.new ≡ self.old ++ 32 ∷ hex_text 1 n }
        ensures len { length self.new ≡ length self.old + 2 }
    {
        self.push(b' ');
        self.push(digit(n));
    }

    /// A space and a port, in a trace of the version.
    #[inline(always)]
    pub(crate) fn push_port(&mut self, version: u8, port: u8)
        requires port { IsPort version port }
        requires room { length self.old + 3 ≤ 4096 }
        ensures value { self.new ≡ self.old ++ 32 ∷ port_text version port }
        ensures len { length self.new ≤ length self.old + 3 }
    {
        if version == 1 {
            self.push_digit(port);
        } else {
            self.push_number(2, u128::from(port));
        }
    }

    /// A space and `0` or `1`.
    #[inline(always)]
    pub(crate) fn push_flag(&mut self, flag: bool)
        requires room { length self.old + 2 ≤ 4096 }
        ensures value { self.new ≡ self.old ++ 32 ∷ flag_text flag }
        ensures len { length self.new ≡ length self.old + 2 }
    {
        self.append(if flag { b" 1" } else { b" 0" });
    }

    /// A space and the name of a state.
    #[inline(always)]
    pub(crate) fn push_state(&mut self, state: LineState)
        requires room { length self.old + 3 ≤ 4096 }
        ensures value { self.new ≡ self.old ++ 32 ∷ state_text state }
        ensures len { length self.new ≤ length self.old + 3 }
    {
        let text: &[u8] = match state {
            LineState::I => b" I",
            LineState::UC => b" UC",
            LineState::UD => b" UD",
            LineState::SC => b" SC",
            LineState::SD => b" SD",
        };
        self.append(text);
    }

    /// A space and the letter of a channel.
    #[inline(always)]
    pub(crate) fn push_channel(&mut self, channel: Channel)
        requires room { length self.old + 2 ≤ 4096 }
        ensures value { self.new ≡ self.old ++ 32 ∷ channel_text channel }
        ensures len { length self.new ≡ length self.old + 2 }
    {
        self.append(match channel {
            Channel::Read => b" R",
            Channel::Write => b" W",
        });
    }

    /// A space and the name of an outcome.
    pub(crate) fn push_outcome(&mut self, outcome: Outcome)
        requires room { length self.old + 5 ≤ 4096 }
        ensures value { self.new ≡ self.old ++ 32 ∷ outcome_text outcome }
        ensures len { length self.new ≤ length self.old + 5 }
    {
        let text: &[u8] = match outcome {
            Outcome::Ok => b" ok",
            Outcome::Skip => b" skip",
            Outcome::Fail => b" fail",
        };
        self.append(text);
    }

    /// A space and the digits of a line.
    pub fn push_line(&mut self, line: &Line)
        requires room { length self.old + 129 ≤ 4096 }
        ensures value { self.new ≡ self.old ++ 32 ∷ line_digits line.now }
        ensures len { length self.new ≡ length self.old + 129 }
    {
        self.push(b' ');
        for word in &line.words {
            self.push_digits(32, *word);
        }
    }
}
