// The words behind `cover`, taken one after another.
ghost use Rattle.std.specs.Prelude.{◌≡◌, ◌==◌, ◌&&◌, ◌||◌, Some, map, string_bytes, IfOk, MatchOption};
ghost use Rattle.ace_tool.specs.CoverAsked.{AsksCover, CoverSoFar, IsCover, is_listed, nothing_of_cover, with_cover, with_cover_all, with_cover_flag_by, with_cover_name, with_cover_value_of, with_cover_valued, with_cover_waiting, with_cover_whole, with_cover_word};
ghost use Rattle.ace_tool.specs.CoverTold.{cover_of, if_cover};
ghost use Rattle.ace_tool.specs.Covering.{CoverAsked};

use crate::check_words::{has_hyphen, is_input};
use crate::cover_options::{
    CoverFlag, CoverOptions, CoverValued, cover_flag_of, cover_valued_of, least_of,
};
use ace_cover::Listing;
use ace_io::NoMemory;
use std::alloc::Global;
use std::marker::Model;

/// What `cover` is asked to do.
#[derive(Drop)]
pub struct CoverCall<'a> {
    /// The names of the files.
    pub names: Vec<&'a str>,
    /// The file that lists more of them.
    pub list: Option<&'a str>,
    /// They are counts that are to be added, and not traces.
    pub merge: bool,
    /// Which points are to be named.
    pub listing: Listing,
    /// The counts are to be told as JSON.
    pub json: bool,
    /// How many of a hundred points are to be hit.
    pub least: u8,
}

/// What the words so far ask. A word that is wrong ends it: what it holds then says nothing.
#[derive(Drop)]
pub(crate) struct CoverWords<'a> {
    names: Vec<&'a str>,
    has_input: bool,
    waiting: Option<CoverValued>,
    names_only: bool,
    options: CoverOptions<'a>,
}

impl<'a> Model for CoverWords<'a> {
    ghost use Rattle.std.specs.Prelude.{map};
    ghost use Rattle.ace_tool.specs.CoverAsked.{CoverSoFar};

    ghost Value = { CoverSoFar };

    ghost view = { λ w. record {
      names = map (λ name. name.now) w.names.items;
      has_input = w.has_input;
      waiting = w.waiting;
      names_only = w.names_only;
      given = w.options;
    } };
}

impl<'a> CoverWords<'a> {
    /// No word has come.
    fn new(alloc: Global) -> CoverWords<'a>
        ensures { result ≡ nothing_of_cover }
    {
        CoverWords {
            names: Vec::new(alloc),
            has_input: false,
            waiting: None,
            names_only: false,
            options: CoverOptions::none(),
        }
    }

    /// Takes a name, and says whether it is right there: standard input is named once at most.
    fn take_name(&mut self, name: &'a str) -> Result<bool, NoMemory>
        ensures { IfOk result (λ right. with_cover_name name.entry.now self.old
            ≡ if_cover right self.new) }
    {
        let input = is_input(name);
        if self.has_input && input {
            return Ok(false);
        }
        if self.names.push(name).is_err() {
            return Err(NoMemory);
        }
        self.has_input = self.has_input || input;
        Ok(true)
    }

    /// Takes the value of an option, and says whether it is right there.
    fn take_value(&mut self, option: CoverValued, value: &'a str) -> bool
        ensures { with_cover_value_of option value.entry.now self.old
            ≡ if_cover result self.new }
    {
        self.options.add_value(option, value)
    }

    /// Takes an option that has its value behind `=`, and says whether it is one.
    fn take_whole(&mut self, option: Option<CoverValued>, value: &'a str) -> bool
        ensures { with_cover_whole option value.entry.now self.old ≡ if_cover result self.new }
    {
        match option {
            Some(option) => self.take_value(option, value),
            None => false,
        }
    }

    /// Takes an option whose value is the next word, and says whether it is one.
    fn wait_for(&mut self, option: Option<CoverValued>) -> bool
        ensures { with_cover_waiting option self.old ≡ if_cover result self.new }
    {
        match option {
            Some(option) => {
                self.waiting = Some(option);
                true
            }
            None => false,
        }
    }

    /// Takes an option that has a value, and says whether it is one.
    fn take_valued(&mut self, word: &'a str) -> bool
        ensures { with_cover_valued word.entry.now self.old ≡ if_cover result self.new }
    {
        match word.split_once('=') {
            Some((name, value)) => self.take_whole(cover_valued_of(name), value),
            None => self.wait_for(cover_valued_of(word)),
        }
    }

    /// Takes an option, and says whether it is one.
    fn take_option(&mut self, flag: Option<CoverFlag>, word: &'a str) -> bool
        ensures { with_cover_flag_by flag word.entry.now self.old ≡ if_cover result self.new }
    {
        match flag {
            Some(flag) => {
                self.options.add_flag(flag);
                true
            }
            None => self.take_valued(word),
        }
    }

    /// Takes the next word, which is no value of an option, and says whether it is right there.
    fn take_word(&mut self, word: &'a str) -> Result<bool, NoMemory>
        ensures { IfOk result (λ right. with_cover_word word.entry.now self.old
            ≡ if_cover right self.new) }
    {
        if self.names_only {
            self.take_name(word)
        } else if word == "--" {
            self.names_only = true;
            Ok(true)
        } else if has_hyphen(word) && !is_input(word) {
            Ok(self.take_option(cover_flag_of(word), word))
        } else {
            self.take_name(word)
        }
    }

    /// Takes the next word, and says whether it is right there.
    fn take(&mut self, word: &'a str) -> Result<bool, NoMemory>
        ensures { IfOk result (λ right. with_cover word.entry.now self.old
            ≡ if_cover right self.new) }
    {
        match self.waiting {
            Some(option) => {
                self.waiting = None;
                Ok(self.take_value(option, word))
            }
            None => self.take_word(word),
        }
    }

    /// What the words ask, if all of them are right.
    #[tactic(auto, using(crate::proofs::CoverWordSteps::wrongs))]
    fn read(alloc: Global, words: &'a [String]) -> Result<Option<CoverWords<'a>>, NoMemory>
        ensures { IfOk result (λ asked. with_cover_all (Some nothing_of_cover)
            (map string_bytes words.entry.now) ≡ asked) }
    {
        let mut asked = CoverWords::new(alloc);
        for word in words {
            if !asked.take(word.as_str())? {
                return Ok(None);
            }
        }
        Ok(Some(asked))
    }

    /// Standard input is asked for twice, or as counts.
    fn wants_too_much(&self) -> bool
        ensures { result ≡ (self.now.has_input
            && (is_listed self.now.given.list || self.now.given.merge)) }
    {
        let listed = match self.options.list {
            Some(name) => is_input(name),
            None => false,
        };
        self.has_input && (listed || self.options.merge)
    }

    /// What the words ask `cover` to do, if they are right.
    #[tactic(auto, using(crate::proofs::CoverWordSteps::refusals))]
    fn finish(self) -> Option<CoverCall<'a>>
        ensures { MatchOption result ((asked : CoverAsked) → ¬ IsCover self.entry asked)
            (λ c. IsCover self.entry (cover_of c)) }
    {
        if self.wants_too_much() {
            return None;
        }
        let CoverWords {
            names,
            waiting,
            options,
            ..
        } = self;
        let CoverOptions {
            list,
            least,
            merge,
            listing,
            json,
        } = options;
        if waiting.is_some() || (names.is_empty() && list.is_none()) {
            return None;
        }
        let least = least_of(least)?;
        Some(CoverCall {
            names,
            list,
            merge,
            listing,
            json,
            least,
        })
    }
}

/// What the words behind `cover` ask it to do, if they are right.
///
/// # Errors
///
/// `NoMemory` where there is none for the names.
#[tactic(auto, using(crate::proofs::CoverWordSteps::calls))]
pub(crate) fn cover_call<'a>(
    alloc: Global,
    words: &'a [String],
) -> Result<Option<CoverCall<'a>>, NoMemory>
    ensures { IfOk result (λ call. MatchOption call
        ((asked : CoverAsked) → ¬ AsksCover (map string_bytes words.entry.now) asked)
        (λ c. AsksCover (map string_bytes words.entry.now) (cover_of c))) }
{
    match CoverWords::read(alloc, words) {
        Ok(Some(asked)) => Ok(asked.finish()),
        Ok(None) => Ok(None),
        Err(NoMemory) => Err(NoMemory),
    }
}
