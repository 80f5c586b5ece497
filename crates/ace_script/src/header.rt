// The header lines of a script.
ghost use Rattle.std.specs.Prelude.{◌≡◌, ◌≢◌, ◌↔◌, ◌<◌, ◌≤◌, ◌^◌, ℕ, MatchOption, IsTrue};
ghost use Rattle.ace_event.specs.Text.{hex_text};
ghost use Rattle.ace_model.specs.declared.plans.PolicyWord.TheVariants.{Mixed};
ghost use Rattle.ace_script.specs.Grammar.{PolicyFits};
ghost use Rattle.ace_script.specs.Reading.{IsCacheLine, IsPolicyLine};
ghost use Rattle.ace_script.specs.Text.{cache_text, policy_text};

use crate::fields::number;
use ace_model::PolicyWord;
use itoa::Buffer;

/// Whether the line is this text.
pub fn is_text(line: &[u8], text: &[u8]) -> bool
    ensures { IsTrue result ↔ (line.now ≡ text.now) }
{
    line == text
}

/// Whether this is the third header line, for caches of so many lines.
fn is_cache_line(line: &[u8], ways: u8) -> bool
    ensures { IsTrue result ↔ (cache_text ways ≡ line.now) }
{
    let mut digits = Buffer::new();
    match line.strip_prefix(b"CACHE ".as_slice()) {
        Some(number) => number == digits.format(ways).as_bytes(),
        None => false,
    }
}

/// The number of lines of a cache, of which this is the third header line, without its line feed.
pub fn parse_cache(line: &[u8]) -> Option<u8>
    ensures { MatchOption result (¬ IsCacheLine line.now) (λ ways. (1 ≤ ways)
        × (ways ≤ 32) × (cache_text ways ≡ line.now)) }
{
    for ways in 1..33 {
        if is_cache_line(line, ways) {
            return Some(ways);
        }
    }
    None
}

/// The number of sixteen digits.
#[tactic(auto, using(crate::proofs::PolicyLines::sixteen_digits))]
fn sixteen_digits(digits: &[u8]) -> Option<u64>
    ensures { MatchOption result ((n : ℕ) → n < 2 ^ 64 → hex_text 16 n ≢ digits.now)
        (λ n. hex_text 16 n ≡ digits.now) }
{
    match number(digits, 16) {
        Ok(n) => Some(n as u64),
        Err(_) => None,
    }
}

/// The number of a mixed policy, of which this is the fourth header line.
fn parse_mixed(line: &[u8]) -> Option<u64>
    ensures { MatchOption result ((n : ℕ) → n < 2 ^ 64 → policy_text (Mixed n) ≢ line.now)
        (λ n. policy_text (Mixed n) ≡ line.now) }
{
    let digits = line.strip_prefix(b"POLICY mixed ".as_slice())?;
    sixteen_digits(digits)
}

/// How snoops are answered, of which this is the fourth header line, without its line feed.
pub fn parse_policy(line: &[u8]) -> Option<PolicyWord>
    ensures { MatchOption result (¬ IsPolicyLine line.now)
        (λ policy. PolicyFits policy × (policy_text policy ≡ line.now)) }
{
    if is_text(line, b"POLICY keep") {
        return Some(PolicyWord::Keep);
    }
    if is_text(line, b"POLICY eager") {
        return Some(PolicyWord::Eager);
    }
    match parse_mixed(line) {
        Some(n) => Some(PolicyWord::Mixed(n)),
        None => None,
    }
}
