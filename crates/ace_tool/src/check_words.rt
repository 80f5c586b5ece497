// The words behind `check`, taken one after another.
ghost use Rattle.std.specs.Prelude.{◌≡◌, ◌≤◌, ◌||◌, ℕ, List, Some, None, true, is_some, length, map, string_bytes, IfOk, IfSome, MatchOption};
ghost use Rattle.ace_tool.specs.Asked.{AreOptions, CheckAsked, IsChecked, Options, has_hyphen, is_input, may_have, nothing, with_all, with_more, with_option, with_trace, with_value_of, with_valued, with_word};
ghost use Rattle.ace_tool.specs.BatchAsked.{AreOfFiles};
ghost use Rattle.ace_tool.specs.ExplainAsked.{IsOfOne};
ghost use Rattle.ace_tool.specs.Told.{check_of, if_right, options_of, side_of};

use crate::check_call::{CheckCall, some_traces};
use crate::check_options::CheckOptions;
use crate::options::{GivenOptions, Valued, flag_of, valued_of};
use ace_io::NoMemory;
use std::alloc::Global;
use std::marker::Model;

/// What the words so far ask. A word that is wrong ends it: what it holds then says nothing.
#[derive(Drop)]
pub(crate) struct CheckWords<'a> {
    traces: Vec<&'a str>,
    has_input: bool,
    names_only: bool,
    waiting: Option<Valued>,
    given: GivenOptions<'a>,
}

impl<'a> Model for CheckWords<'a> {
    ghost use Rattle.std.specs.Prelude.{map};
    ghost use Rattle.ace_tool.specs.Asked.{Asked};

    ghost Value = { Asked };

    ghost view = { λ w. record {
      traces = map (λ name. name.now) w.traces.items;
      has_input = w.has_input;
      names_only = w.names_only;
      waiting = w.waiting;
      given = w.given;
    } };
}

/// Whether the word is the name of standard input.
pub(crate) fn is_input(word: &str) -> bool
    ensures { result ≡ is_input word.now }
{
    word == "-"
}

/// Whether the word begins with `-`.
pub(crate) fn has_hyphen(word: &str) -> bool
    ensures { result ≡ has_hyphen word.now }
{
    match word.as_bytes().first() {
        Some(first) => *first == b'-',
        None => false,
    }
}

impl<'a> CheckWords<'a> {
    /// No word has come.
    pub(crate) fn new(alloc: Global) -> CheckWords<'a>
        ensures { result ≡ nothing }
    {
        CheckWords {
            traces: Vec::new(alloc),
            has_input: false,
            names_only: false,
            waiting: None,
            given: GivenOptions::none(),
        }
    }

    /// Takes the name of a trace, and says whether it is right there.
    fn take_trace(&mut self, name: &'a str) -> Result<bool, NoMemory>
        ensures { IfOk result (λ right. with_trace self.old name.entry.now
            ≡ if_right right self.new) }
    {
        let input = is_input(name);
        if self.has_input && input {
            return Ok(false);
        }
        if self.traces.push(name).is_err() {
            return Err(NoMemory);
        }
        self.has_input = self.has_input || input;
        Ok(true)
    }

    /// Takes the value of an option, and says whether it is right there.
    fn take_value(&mut self, option: Option<Valued>, value: &'a str) -> bool
        ensures { with_value_of option value.entry.now self.old ≡ if_right result self.new }
    {
        match option {
            Some(option) => self.given.add_value(option, value),
            None => false,
        }
    }

    /// Takes an option that has a value, and says whether it is right there.
    fn take_valued(&mut self, word: &'a str) -> bool
        ensures { with_valued word.entry.now self.old ≡ if_right result self.new }
    {
        match word.split_once('=') {
            Some((name, value)) => self.take_value(valued_of(name), value),
            None => {
                self.waiting = valued_of(word);
                self.waiting.is_some()
            }
        }
    }

    /// Takes an option, and says whether it is right there.
    fn take_option(&mut self, word: &'a str) -> bool
        ensures { with_option word.entry.now self.old ≡ if_right result self.new }
    {
        match flag_of(word) {
            Some(flag) => {
                self.given.add_flag(flag);
                true
            }
            None => self.take_valued(word),
        }
    }

    /// Takes the next word, which is no value, and says whether it is right there.
    fn take_word(&mut self, word: &'a str) -> Result<bool, NoMemory>
        ensures { IfOk result (λ right. with_word word.entry.now self.old
            ≡ if_right right self.new) }
    {
        if self.names_only {
            self.take_trace(word)
        } else if word == "--" {
            self.names_only = true;
            Ok(true)
        } else if has_hyphen(word) && !is_input(word) {
            Ok(self.take_option(word))
        } else {
            self.take_trace(word)
        }
    }

    /// Takes the next word, and says whether it is right there.
    pub(crate) fn take(&mut self, word: &'a str) -> Result<bool, NoMemory>
        ensures { IfOk result (λ right. with_more word.entry.now self.old
            ≡ if_right right self.new) }
    {
        match self.waiting {
            Some(option) => {
                self.waiting = None;
                Ok(self.take_value(Some(option), word))
            }
            None => self.take_word(word),
        }
    }

    /// What the words ask, if all of them are right.
    #[tactic(auto, using(crate::proofs::Words::wrongs))]
    pub(crate) fn read(
        alloc: Global,
        words: &'a [String],
    ) -> Result<Option<CheckWords<'a>>, NoMemory>
        ensures { IfOk result
            (λ asked. with_all (Some nothing) (map string_bytes words.entry.now) ≡ asked) }
    {
        let mut asked = CheckWords::new(alloc);
        for word in words {
            if !asked.take(word.as_str())? {
                return Ok(None);
            }
        }
        Ok(Some(asked))
    }

    /// How traces are to be checked, if the options are right.
    fn options(&self) -> Option<CheckOptions<'a>>
        ensures { MatchOption result ((check : CheckAsked) → ¬ IsChecked self.now check)
            (λ o. (self.now.waiting ≡ None) × AreOptions self.now.given (options_of o)
            × (may_have (side_of o.side) (length self.now.traces) ≡ true)) }
    {
        if self.waiting.is_some() {
            return None;
        }
        match self.given.options() {
            Some(options) if options.side.may_have(self.traces.len()) => Some(options),
            _ => None,
        }
    }

    /// Whether the next word is taken as it is: it is a name behind `--`, or the value of an
    /// option.
    pub(crate) fn takes_any(&self) -> bool
        ensures { result ≡ (self.now.names_only || is_some self.now.waiting) }
    {
        self.names_only || self.waiting.is_some()
    }

    /// The name of the one trace, standard input where none is named, and how it is to be checked,
    /// if the words are right.
    pub(crate) fn one(self) -> Option<(&'a str, CheckOptions<'a>)>
        ensures { MatchOption result
            ((trace : List ℕ) (options : Options) → ¬ IsOfOne self.entry trace options)
            (λ o. IsOfOne self.entry o.0.now (options_of o.1)) }
    {
        if self.waiting.is_some() {
            return None;
        }
        let trace = match self.traces.as_slice() {
            [] => "-",
            [name] => name,
            _ => return None,
        };
        match self.given.options() {
            Some(options) => Some((trace, options)),
            None => None,
        }
    }

    /// The names of files, and how they are to be checked, if the words are right: standard input
    /// isn't one of them, and they name no side file.
    pub(crate) fn files(self) -> Option<(Vec<&'a str>, CheckOptions<'a>)>
        ensures { MatchOption result
            ((options : Options) → ¬ AreOfFiles self.entry options)
            (λ f. AreOfFiles self.entry (options_of f.1)
            × (map (λ name. name.now) f.0.items ≡ self.entry.traces)) }
    {
        if self.waiting.is_some() || self.has_input || self.given.has_side() {
            return None;
        }
        match self.given.options() {
            Some(options) => Some((self.traces, options)),
            None => None,
        }
    }

    /// What the words ask `check` to do, if they are right.
    pub(crate) fn finish(self) -> Result<Option<CheckCall<'a>>, NoMemory>
        ensures { IfOk result (λ call. MatchOption call
            ((check : CheckAsked) → ¬ IsChecked self.entry check)
            (λ c. IsChecked self.entry (check_of c))) }
    {
        match self.options() {
            Some(options) => match some_traces(self.traces) {
                Ok(traces) => Ok(Some(CheckCall { traces, options })),
                Err(NoMemory) => Err(NoMemory),
            },
            None => Ok(None),
        }
    }
}
