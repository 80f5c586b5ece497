// The options of `check`.
ghost use Rattle.std.specs.Prelude.{◌≡◌, ◌≤◌, ℕ, Some, bytes_eq, is_none, is_some, option_map, IfSome, IsTrue, MatchOption};
ghost use Rattle.std.specs.Map.{lookup};
ghost use Rattle.ace_tool.specs.Asked.{AreOptions, IsLimit, Options, may_have, side_said};
ghost use Rattle.ace_tool.specs.Options.{flags, none_given, valued, with_flag, with_value};
ghost use Rattle.ace_tool.specs.Told.{if_given, options_of, side_of};

use crate::check_options::{CheckOptions, EndRules, SideChoice};
use crate::check_words::is_input;
use ace_call::number_of;
use ace_grammar::MOST_COUNTED;
use ace_verdict::Limits;
use std::marker::Model;

/// An option that stands alone.
#[derive(Clone, Copy)]
pub(crate) enum Flag {
    /// No side file is read.
    NoSide,
    /// A trace without a side file is unfinished.
    RequireEnd,
    /// A recording that was cut on demand is whole.
    AllowCut,
    /// A trace that ends with transactions outstanding is unfinished.
    Drained,
}

/// An option that has a value.
#[derive(Clone, Copy)]
pub(crate) enum Valued {
    /// The most events of a trace.
    MostEvents,
    /// The most lines that a trace may name.
    MostLines,
    /// The side file of the trace.
    Side,
}

impl<'a> SideChoice<'a> {
    /// Whether so many traces may be named.
    pub(crate) fn may_have(self, count: usize) -> bool
        ensures { result ≡ may_have (side_of self.entry) count }
    {
        match self {
            SideChoice::Named { .. } => count <= 1,
            SideChoice::Beside | SideChoice::Nowhere => true,
        }
    }
}

/// The option that this word is, if it is one that stands alone.
pub(crate) fn flag_of(word: &str) -> Option<Flag>
    ensures { result ≡ lookup (bytes_eq word.now) flags }
{
    match word {
        "--no-side" => Some(Flag::NoSide),
        "--require-end" => Some(Flag::RequireEnd),
        "--allow-cut" => Some(Flag::AllowCut),
        "--drained" => Some(Flag::Drained),
        _ => None,
    }
}

/// The option of this name, if it is one that has a value.
pub(crate) fn valued_of(name: &str) -> Option<Valued>
    ensures { result ≡ lookup (bytes_eq name.now) valued }
{
    match name {
        "--most-events" => Some(Valued::MostEvents),
        "--most-lines" => Some(Valued::MostLines),
        "--side" => Some(Valued::Side),
        _ => None,
    }
}

/// The options that were given, with their values as they stand.
#[derive(Drop)]
pub(crate) struct GivenOptions<'a> {
    most_events: Option<&'a str>,
    most_lines: Option<&'a str>,
    side: Option<&'a str>,
    no_side: bool,
    ends: EndRules,
}

impl<'a> Model for GivenOptions<'a> {
    ghost use Rattle.ace_tool.specs.Options.{Given};
    ghost use Rattle.std.specs.Prelude.{option_map};

    ghost Value = { Given };

    ghost view = { λ g. record {
      most_events = option_map (λ word. word.now) g.most_events;
      most_lines = option_map (λ word. word.now) g.most_lines;
      side = option_map (λ word. word.now) g.side;
      no_side = g.no_side;
      ends = g.ends;
    } };
}

/// Keeps the value if none was kept, and says whether none was.
pub(crate) fn keep_once<'a>(kept: &mut Option<&'a str>, value: &'a str) -> bool
    ensures none { result ≡ is_none kept.old }
    ensures one { IsTrue result → option_map (λ word. word.now) kept.new ≡ Some value.entry.now }
{
    if kept.is_some() {
        return false;
    }
    *kept = Some(value);
    true
}

/// The limit that the word of an option says, up to the most, if it is right.
pub(crate) fn limit_of(word: Option<&str>, most: u64) -> Option<u64>
    ensures value { MatchOption result
        ((limit : ℕ) → ¬ IsLimit most (option_map (λ w. w.now) word.entry) limit)
        (IsLimit most (option_map (λ w. w.now) word.entry)) }
    ensures bound { IfSome result (λ limit. limit ≤ most) }
{
    match word {
        Some(word) => match number_of(word) {
            Some(number) => Some(number.min(most)),
            None => None,
        },
        None => Some(most),
    }
}

/// What the words of `--side` and `--no-side` say, if they are right.
pub(crate) fn side_choice<'a>(side: Option<&'a str>, no_side: bool) -> Option<SideChoice<'a>>
    ensures { option_map side_of result ≡ side_said (option_map (λ w. w.now) side.entry) no_side }
{
    match (side, no_side) {
        (None, true) => Some(SideChoice::Nowhere),
        (None, false) => Some(SideChoice::Beside),
        (Some(_), true) => None,
        (Some(name), false) => {
            if is_input(name) {
                None
            } else {
                Some(SideChoice::Named { name })
            }
        }
    }
}

impl<'a> GivenOptions<'a> {
    /// None was given.
    pub(crate) fn none() -> GivenOptions<'a>
        ensures { result ≡ none_given }
    {
        GivenOptions {
            most_events: None,
            most_lines: None,
            side: None,
            no_side: false,
            ends: EndRules {
                require_end: false,
                allow_cut: false,
                drained: false,
            },
        }
    }

    /// One more that stands alone.
    pub(crate) fn add_flag(&mut self, flag: Flag)
        ensures { self.new ≡ with_flag flag self.old }
    {
        match flag {
            Flag::NoSide => self.no_side = true,
            Flag::RequireEnd => self.ends.require_end = true,
            Flag::AllowCut => self.ends.allow_cut = true,
            Flag::Drained => self.ends.drained = true,
        }
    }

    /// One more with a value; whether it has none yet.
    pub(crate) fn add_value(&mut self, option: Valued, value: &'a str) -> bool
        ensures { with_value option value.entry.now self.old ≡ if_given result self.new }
    {
        match option {
            Valued::MostEvents => keep_once(&mut self.most_events, value),
            Valued::MostLines => keep_once(&mut self.most_lines, value),
            Valued::Side => keep_once(&mut self.side, value),
        }
    }

    /// Whether a side file was named.
    pub(crate) fn has_side(&self) -> bool
        ensures { result ≡ is_some self.now.side }
    {
        self.side.is_some()
    }

    /// What they say, if their values are right.
    pub(crate) fn options(&self) -> Option<CheckOptions<'a>>
        ensures { MatchOption result ((options : Options) → ¬ AreOptions self.now options)
            (λ o. AreOptions self.now (options_of o)) }
    {
        let events = limit_of(self.most_events, MOST_COUNTED)?;
        let lines = limit_of(self.most_lines, u64::MAX)?;
        let side = side_choice(self.side, self.no_side)?;
        Some(CheckOptions {
            limits: Limits {
                events,
                lines: lines as usize,
            },
            side,
            ends: self.ends,
        })
    }
}
