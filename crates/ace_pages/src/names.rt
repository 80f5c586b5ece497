// Pages by the words that name them.
ghost use Rattle.std.specs.Prelude.{◌≡◌, bytes_eq};
ghost use Rattle.ace_pages.specs.Named.{letter_among, page_named, page_of_rule};
ghost use Rattle.ace_pages.specs.Pages.{is_clause, letter_text, letters, page_name};

use crate::page::Page;
use ace_clauses::{ClauseName, Letter};
use ace_words::kept_where;
use arrayvec::ArrayString;
use itoa::Buffer;

/// The letters, in their order.
pub(crate) const LETTERS: [Letter; 9] = [
    Letter::A,
    Letter::B,
    Letter::C,
    Letter::D,
    Letter::E,
    Letter::F,
    Letter::G,
    Letter::H,
    Letter::I,
];

/// The letter as it stands in the name of a clause.
pub(crate) fn letter_text(letter: Letter) -> &'static str
    ensures { result.now ≡ letter_text letter }
{
    match letter {
        Letter::A => "a",
        Letter::B => "b",
        Letter::C => "c",
        Letter::D => "d",
        Letter::E => "e",
        Letter::F => "f",
        Letter::G => "g",
        Letter::H => "h",
        Letter::I => "i",
    }
}

/// There is such a clause.
#[tactic(auto, unfolding(crate::specs::Pages::is_clause))]
pub(crate) fn is_clause(rule: u8, letter: Letter) -> bool
    ensures { result ≡ is_clause rule letter }
{
    !kept_where(ClauseName { rule, letter }).is_empty()
}

/// What the rule is called, or the clause of it if one is named.
#[tactic(auto, using(crate::proofs::Lengths::short), unfolding(crate::specs::Pages::page_name))]
pub fn page_name(rule: u8, letter: Option<Letter>) -> ArrayString<8>
    ensures { result.bytes ≡ page_name rule letter }
{
    let mut name = ArrayString::new();
    let mut digits = Buffer::new();
    name.push_str("K");
    name.push_str(digits.format(rule));
    if let Some(letter) = letter {
        name.push_str(letter_text(letter));
    }
    name
}

/// The word is the name of the rule, or of the clause of it if one is named.
fn is_name(word: &str, rule: u8, letter: Option<Letter>) -> bool
    ensures { result ≡ bytes_eq word.now (page_name rule letter) }
{
    let name = page_name(rule, letter);
    word == name.as_str()
}

/// The clause of the rule that has the word for its name.
#[tactic(auto, using(crate::proofs::Steps::letter_step), unfolding(crate::specs::Named::letter_among))]
fn letter_of(word: &str, rule: u8) -> Option<Letter>
    ensures { result ≡ letter_among word.now rule letters }
{
    for letter in LETTERS {
        if is_clause(rule, letter) && is_name(word, rule, Some(letter)) {
            return Some(letter);
        }
    }
    None
}

/// The page of the rule, or of a clause of it, that has the word for its name.
#[tactic(auto, unfolding(crate::specs::Named::page_of_rule))]
fn page_of_rule(word: &str, rule: u8) -> Option<Page>
    ensures { result ≡ page_of_rule word.now rule }
{
    if is_name(word, rule, None) {
        return Some(Page { rule, letter: None });
    }
    match letter_of(word, rule) {
        Some(letter) => Some(Page {
            rule,
            letter: Some(letter),
        }),
        None => None,
    }
}

/// The page that has the word for its name, as `K12` or `K12d`, if there is one.
#[tactic(auto, using(crate::proofs::Steps::page_steps))]
pub fn page_of(word: &str) -> Option<Page>
    ensures { result ≡ page_named word.now }
{
    for rule in 1..41 {
        if let Some(page) = page_of_rule(word, rule) {
            return Some(page);
        }
    }
    None
}
