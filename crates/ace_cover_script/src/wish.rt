// What the words behind `gen` ask.
ghost use Rattle.std.specs.Prelude.{◌≡◌, ◌∷◌, [], map, string_bytes, MatchOption};
ghost use Rattle.ace_cover_script.specs.Generates.{Asks};
ghost use Rattle.ace_cover_script.specs.Texts.{gen_help};

use ace_call::number_of;

/// What `gen` is asked for.
#[derive(Clone, Copy)]
pub enum Wish {
    /// How it is used.
    Help,
    /// The script that is made from the number to reach points of coverage.
    Script { number: u64 },
}

/// How `gen` is used.
pub(crate) fn gen_help() -> &'static str
    ensures { result.now ≡ gen_help }
{
    "usage: acetool gen --cover N

Writes the script that is made from the number N, from 0 to 18446744073709551615, to reach points of
coverage: all operations, on few lines, at 1 to 8 ports of each kind, with any policy and caches of
1 to 32 lines. `ace run` runs it.

status: 0 it was written, 7 no memory; 5 an output failed; 2 these words are wrong
"
}

/// What one word asks.
#[tactic(auto, using(crate::proofs::Wishes::one))]
fn one_word(word: &str) -> Option<Wish>
    ensures { MatchOption result ((wish : Wish) → ¬ Asks (word.now ∷ []) wish)
        (Asks (word.now ∷ [])) }
{
    match word {
        "--help" => Some(Wish::Help),
        _ => None,
    }
}

/// What two words ask.
#[tactic(auto, using(crate::proofs::Wishes::two))]
fn two_words(option: &str, word: &str) -> Option<Wish>
    ensures { MatchOption result ((wish : Wish) → ¬ Asks (option.now ∷ word.now ∷ []) wish)
        (Asks (option.now ∷ word.now ∷ [])) }
{
    match (option, number_of(word)) {
        ("--cover", Some(number)) => Some(Wish::Script { number }),
        _ => None,
    }
}

/// What the words ask of which this is the first, and these are the others.
fn wish_behind(first: &str, rest: &[String]) -> Option<Wish>
    ensures { MatchOption result
        ((wish : Wish) → ¬ Asks (first.now ∷ map string_bytes rest.now) wish)
        (Asks (first.now ∷ map string_bytes rest.now)) }
{
    match rest.split_first() {
        Some((word, more)) => {
            if more.is_empty() {
                two_words(first, word.as_str())
            } else {
                None
            }
        }
        None => one_word(first),
    }
}

/// What the words ask, if they ask anything.
#[tactic(auto, using(crate::proofs::Wishes::none))]
pub(crate) fn wish_of(words: &[String]) -> Option<Wish>
    ensures { MatchOption result ((wish : Wish) → ¬ Asks (map string_bytes words.now) wish)
        (Asks (map string_bytes words.now)) }
{
    match words.split_first() {
        Some((first, rest)) => wish_behind(first.as_str(), rest),
        None => None,
    }
}
