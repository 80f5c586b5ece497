// The options of `cover`.
ghost use Rattle.std.specs.Prelude.{◌≡◌, ◌≤◌, ℕ, bytes_eq, option_map, MatchOption};
ghost use Rattle.std.specs.Map.{lookup};
ghost use Rattle.ace_call.specs.Number.{IsNumber};
ghost use Rattle.ace_tool.specs.CoverOptions.{IsLeast, cover_flags, cover_valued, none_of_cover, with_cover_flag, with_cover_value};
ghost use Rattle.ace_tool.specs.CoverTold.{if_cover_given};

use crate::options::keep_once;
use ace_call::number_of;
use ace_cover::Listing;
use std::marker::Model;

/// An option of `cover` that stands alone.
#[derive(Clone, Copy)]
pub(crate) enum CoverFlag {
    /// Every point that was never hit is to be named.
    All,
    /// Every point is to be named with its count.
    Hits,
    /// JSON is to be told.
    Json,
    /// The files are counts.
    Merge,
}

/// An option of `cover` that has a value.
#[derive(Clone, Copy)]
pub(crate) enum CoverValued {
    /// The file that lists files.
    List,
    /// How many of a hundred points are to be hit.
    Least,
}

/// The option that this word is, if it is one that stands alone.
pub(crate) fn cover_flag_of(word: &str) -> Option<CoverFlag>
    ensures { result ≡ lookup (bytes_eq word.now) cover_flags }
{
    match word {
        "--all" => Some(CoverFlag::All),
        "--hits" => Some(CoverFlag::Hits),
        "--json" => Some(CoverFlag::Json),
        "--merge" => Some(CoverFlag::Merge),
        _ => None,
    }
}

/// The option of this name, if it is one that has a value.
pub(crate) fn cover_valued_of(name: &str) -> Option<CoverValued>
    ensures { result ≡ lookup (bytes_eq name.now) cover_valued }
{
    match name {
        "--list" => Some(CoverValued::List),
        "--min" => Some(CoverValued::Least),
        _ => None,
    }
}

/// The options that were given, with their values as they stand.
#[derive(Drop)]
pub(crate) struct CoverOptions<'a> {
    pub(crate) list: Option<&'a str>,
    pub(crate) least: Option<&'a str>,
    pub(crate) merge: bool,
    pub(crate) listing: Listing,
    pub(crate) json: bool,
}

impl<'a> Model for CoverOptions<'a> {
    ghost use Rattle.ace_tool.specs.CoverOptions.{CoverGiven};
    ghost use Rattle.std.specs.Prelude.{option_map};

    ghost Value = { CoverGiven };

    ghost view = { λ o. record {
      list = option_map (λ word. word.now) o.list;
      least = option_map (λ word. word.now) o.least;
      merge = o.merge;
      listing = o.listing;
      json = o.json;
    } };
}

impl<'a> CoverOptions<'a> {
    /// None was given.
    pub(crate) fn none() -> CoverOptions<'a>
        ensures { result ≡ none_of_cover }
    {
        CoverOptions {
            list: None,
            least: None,
            merge: false,
            listing: Listing::Few,
            json: false,
        }
    }

    /// One more that stands alone.
    pub(crate) fn add_flag(&mut self, flag: CoverFlag)
        ensures { self.new ≡ with_cover_flag flag self.old }
    {
        match flag {
            CoverFlag::All => self.listing = Listing::All,
            CoverFlag::Hits => self.listing = Listing::Counts,
            CoverFlag::Json => self.json = true,
            CoverFlag::Merge => self.merge = true,
        }
    }

    /// One more with a value; whether it has none yet.
    pub(crate) fn add_value(&mut self, option: CoverValued, value: &'a str) -> bool
        ensures { with_cover_value option value.entry.now self.old
            ≡ if_cover_given result self.new }
    {
        match option {
            CoverValued::List => keep_once(&mut self.list, value),
            CoverValued::Least => keep_once(&mut self.least, value),
        }
    }
}

/// How many of a hundred points the word of an option says, if it is right; without one none has
/// to be hit.
#[tactic(auto, using(crate::proofs::CoverWordSteps::percentages))]
pub(crate) fn least_of(word: Option<&str>) -> Option<u8>
    ensures { MatchOption result
        ((least : ℕ) → ¬ IsLeast (option_map (λ w. w.now) word.entry) least)
        (IsLeast (option_map (λ w. w.now) word.entry)) }
{
    match word {
        Some(word) => percentage_of(word),
        None => Some(0),
    }
}

/// The percentage that the word says, if it is one.
#[tactic(auto, using(crate::proofs::CoverWordSteps::percentages))]
fn percentage_of(word: &str) -> Option<u8>
    ensures { MatchOption result ((n : ℕ) → ¬ (IsNumber word.now n × (n ≤ 100)))
        (λ n. IsNumber word.now n × (n ≤ 100)) }
{
    match number_of(word) {
        Some(number) => {
            if number <= 100 {
                Some(number as u8)
            } else {
                None
            }
        }
        None => None,
    }
}
