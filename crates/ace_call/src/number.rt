// A number that is a word.
ghost use Rattle.std.specs.Prelude.{◌≡◌, ◌↔◌, ℕ, decimal, IsTrue, MatchOption};
ghost use Rattle.ace_call.specs.Number.{IsNumber};

use itoa::Buffer;

/// Whether the word is this number, in decimal.
fn is_decimal(word: &str, number: u64) -> bool
    ensures { IsTrue result ↔ (word.now ≡ decimal number) }
{
    let mut digits = Buffer::new();
    word == digits.format(number)
}

/// The number that the word is, if it is one.
#[tactic(auto, using(crate::proofs::Numbers::numbers))]
pub fn number_of(word: &str) -> Option<u64>
    ensures { MatchOption result ((n : ℕ) → ¬ IsNumber word.now n) (IsNumber word.now) }
{
    match word.parse::<u64>() {
        Ok(number) => {
            if is_decimal(word, number) {
                Some(number)
            } else {
                None
            }
        }
        Err(_) => None,
    }
}
