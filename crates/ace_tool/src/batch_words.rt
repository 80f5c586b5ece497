// The words behind `batch`, taken one after another.
ghost use Rattle.std.specs.Prelude.{◌≡◌, ◌==◌, Some, map, string_bytes, IfOk, MatchOption};
ghost use Rattle.std.specs.List.{after_first};
ghost use Rattle.ace_tool.specs.BatchAsked.{AsksBatch, BatchAsked, IsBatch, has_some, nothing_of_batch, with_any_word, with_batch, with_batch_all, with_check_word, with_extra_of, with_flag_by, with_name_by, with_valued_word, with_whole_by};
ghost use Rattle.ace_tool.specs.BatchTold.{batch_of, if_batch};

use crate::batch_options::{
    BatchExtras, BatchFlag, BatchValued, ExtraOptions, batch_flag_of, batch_valued_of,
};
use crate::check_options::CheckOptions;
use crate::check_words::CheckWords;
use ace_io::NoMemory;
use std::alloc::Global;
use std::marker::Model;

/// What `batch` is asked to do.
#[derive(Drop)]
pub struct BatchCall<'a> {
    /// The names of the traces, in their order.
    pub traces: Vec<&'a str>,
    /// How they are to be checked.
    pub options: CheckOptions<'a>,
    /// The options that `check` doesn't have.
    pub extras: ExtraOptions<'a>,
}

/// What the words so far ask. A word that is wrong ends it: what it holds then says nothing.
#[derive(Drop)]
pub(crate) struct BatchWords<'a> {
    check: CheckWords<'a>,
    waiting: Option<BatchValued>,
    extras: BatchExtras<'a>,
}

impl<'a> Model for BatchWords<'a> {
    ghost use Rattle.ace_tool.specs.BatchAsked.{BatchSoFar};

    ghost Value = { BatchSoFar };

    ghost view = { λ w. record {
      check = w.check;
      waiting = w.waiting;
      extras = w.extras;
    } };
}

impl<'a> BatchWords<'a> {
    /// No word has come.
    fn new(alloc: Global) -> BatchWords<'a>
        ensures { result ≡ nothing_of_batch }
    {
        BatchWords {
            check: CheckWords::new(alloc),
            waiting: None,
            extras: BatchExtras::none(),
        }
    }

    /// Takes a word as `check` does, and says whether it is right there.
    fn take_check_word(&mut self, word: &'a str) -> Result<bool, NoMemory>
        ensures { IfOk result (λ right. with_check_word word.entry.now self.old
            ≡ if_batch right self.new) }
    {
        self.check.take(word)
    }

    /// Takes the value of an option, and says whether it is right there.
    fn take_value(&mut self, option: BatchValued, value: &'a str) -> bool
        ensures { with_extra_of option value.entry.now self.old ≡ if_batch result self.new }
    {
        self.extras.add_value(option, value)
    }

    /// Takes a word that has its value behind `=`, if it is an option of `batch`, or else as
    /// `check` does, and says whether it is right there.
    fn take_whole(
        &mut self,
        option: Option<BatchValued>,
        value: &'a str,
        word: &'a str,
    ) -> Result<bool, NoMemory>
        requires { value.now ≡ after_first (λ b. b == 61) word.now }
        ensures { IfOk result (λ right. with_whole_by option word.entry.now self.old
            ≡ if_batch right self.new) }
    {
        match option {
            Some(option) => Ok(self.take_value(option, value)),
            None => self.take_check_word(word),
        }
    }

    /// Takes a word whose value is the next one, if it is an option of `batch`, or else as `check`
    /// does, and says whether it is right there.
    fn take_name(&mut self, option: Option<BatchValued>, word: &'a str) -> Result<bool, NoMemory>
        ensures { IfOk result (λ right. with_name_by option word.entry.now self.old
            ≡ if_batch right self.new) }
    {
        match option {
            Some(option) => {
                self.waiting = Some(option);
                Ok(true)
            }
            None => self.take_check_word(word),
        }
    }

    /// Takes an option that has a value, or else a word as `check` does, and says whether it is
    /// right there.
    fn take_valued(&mut self, word: &'a str) -> Result<bool, NoMemory>
        ensures { IfOk result (λ right. with_valued_word word.entry.now self.old
            ≡ if_batch right self.new) }
    {
        match word.split_once('=') {
            Some((name, value)) => self.take_whole(batch_valued_of(name), value, word),
            None => self.take_name(batch_valued_of(word), word),
        }
    }

    /// Takes an option that stands alone, if it is one of `batch`, or else another word, and says
    /// whether it is right there.
    fn take_flag(&mut self, flag: Option<BatchFlag>, word: &'a str) -> Result<bool, NoMemory>
        ensures { IfOk result (λ right. with_flag_by flag word.entry.now self.old
            ≡ if_batch right self.new) }
    {
        match flag {
            Some(flag) => {
                self.extras.add_flag(flag);
                Ok(true)
            }
            None => self.take_valued(word),
        }
    }

    /// Takes the next word, which is no value of an option of `batch`, and says whether it is right
    /// there.
    fn take_word(&mut self, word: &'a str) -> Result<bool, NoMemory>
        ensures { IfOk result (λ right. with_any_word word.entry.now self.old
            ≡ if_batch right self.new) }
    {
        if self.check.takes_any() {
            self.take_check_word(word)
        } else {
            self.take_flag(batch_flag_of(word), word)
        }
    }

    /// Takes the next word, and says whether it is right there.
    fn take(&mut self, word: &'a str) -> Result<bool, NoMemory>
        ensures { IfOk result (λ right. with_batch word.entry.now self.old
            ≡ if_batch right self.new) }
    {
        match self.waiting {
            Some(option) => {
                self.waiting = None;
                Ok(self.take_value(option, word))
            }
            None => self.take_word(word),
        }
    }

    /// What the words ask, if all of them are right.
    #[tactic(auto, using(crate::proofs::BatchWordSteps::wrongs))]
    fn read(alloc: Global, words: &'a [String]) -> Result<Option<BatchWords<'a>>, NoMemory>
        ensures { IfOk result (λ asked. with_batch_all (Some nothing_of_batch)
            (map string_bytes words.entry.now) ≡ asked) }
    {
        let mut asked = BatchWords::new(alloc);
        for word in words {
            if !asked.take(word.as_str())? {
                return Ok(None);
            }
        }
        Ok(Some(asked))
    }

    /// What the words ask `batch` to do, if they are right.
    #[tactic(auto, using(crate::proofs::BatchWordSteps::refusals))]
    fn finish(self) -> Option<BatchCall<'a>>
        ensures { MatchOption result ((batch : BatchAsked) → ¬ IsBatch self.entry batch)
            (λ c. IsBatch self.entry (batch_of c)) }
    {
        if self.waiting.is_some() {
            return None;
        }
        let extras = self.extras.finish()?;
        let (traces, options) = self.check.files()?;
        if traces.is_empty() && extras.list.is_none() {
            return None;
        }
        Some(BatchCall {
            traces,
            options,
            extras,
        })
    }
}

/// What the words behind `batch` ask it to do, if they are right.
#[tactic(auto, using(crate::proofs::BatchWordSteps::batches))]
pub(crate) fn batch_call<'a>(
    alloc: Global,
    words: &'a [String],
) -> Result<Option<BatchCall<'a>>, NoMemory>
    ensures { IfOk result (λ call. MatchOption call
        ((batch : BatchAsked) → ¬ AsksBatch (map string_bytes words.entry.now) batch)
        (λ c. AsksBatch (map string_bytes words.entry.now) (batch_of c))) }
{
    match BatchWords::read(alloc, words) {
        Ok(Some(asked)) => Ok(asked.finish()),
        Ok(None) => Ok(None),
        Err(NoMemory) => Err(NoMemory),
    }
}
