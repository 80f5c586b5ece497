// The words behind `explain`, taken one after another.
ghost use Rattle.std.specs.Prelude.{◌≡◌, Some, map, string_bytes, IfOk, MatchOption};
ghost use Rattle.ace_tool.specs.ExplainAsked.{AsksExplain, ExplainAsked, IsExplain, as_checked, explain_with, explain_with_all, nothing_to_explain, with_form};
ghost use Rattle.ace_tool.specs.Told.{explain_of, if_taken};

use crate::check_options::CheckOptions;
use crate::check_words::CheckWords;
use ace_io::NoMemory;
use std::alloc::Global;
use std::marker::Model;

/// In which form it is told of a trace.
#[derive(Clone, Copy)]
pub enum Form {
    /// In all its lines.
    Whole,
    /// In its first line alone.
    Short,
    /// As a JSON object.
    Json,
}

/// What `explain` is asked to do.
#[derive(Clone, Copy)]
pub struct ExplainCall<'a> {
    /// The name of the trace.
    pub trace: &'a str,
    /// In which form it is told of.
    pub form: Form,
    /// How it is to be checked.
    pub options: CheckOptions<'a>,
}

/// What the words so far ask. A word that is wrong ends it: what it holds then says nothing.
#[derive(Drop)]
struct ExplainWords<'a> {
    check: CheckWords<'a>,
    form: Form,
}

impl<'a> Model for ExplainWords<'a> {
    ghost use Rattle.ace_tool.specs.ExplainAsked.{ExplainSoFar};

    ghost Value = { ExplainSoFar };

    ghost view = { λ w. record {
      check = w.check;
      form = w.form;
    } };
}

impl<'a> ExplainWords<'a> {
    /// No word has come.
    fn new(alloc: Global) -> ExplainWords<'a>
        ensures { result ≡ nothing_to_explain }
    {
        ExplainWords {
            check: CheckWords::new(alloc),
            form: Form::Whole,
        }
    }

    /// Takes the form, and says whether it is right there.
    fn take_form(&mut self, form: Form) -> bool
        ensures { with_form form self.old ≡ if_taken result self.new }
    {
        match (self.form, form) {
            (Form::Whole, _) | (Form::Short, Form::Short) | (Form::Json, Form::Json) => {
                self.form = form;
                true
            }
            _ => false,
        }
    }

    /// Takes a word as `check` does, and says whether it is right there.
    fn take_as_check(&mut self, word: &'a str) -> Result<bool, NoMemory>
        ensures { IfOk result (λ right. as_checked word.entry.now self.old
            ≡ if_taken right self.new) }
    {
        self.check.take(word)
    }

    /// Takes the next word, and says whether it is right there.
    fn take(&mut self, word: &'a str) -> Result<bool, NoMemory>
        ensures { IfOk result (λ right. explain_with word.entry.now self.old
            ≡ if_taken right self.new) }
    {
        if self.check.takes_any() {
            self.take_as_check(word)
        } else if word == "--short" {
            Ok(self.take_form(Form::Short))
        } else if word == "--json" {
            Ok(self.take_form(Form::Json))
        } else {
            self.take_as_check(word)
        }
    }

    /// What the words ask, if all of them are right.
    #[tactic(auto, using(crate::proofs::ExplainWords::wrongs))]
    fn read(alloc: Global, words: &'a [String]) -> Result<Option<ExplainWords<'a>>, NoMemory>
        ensures { IfOk result (λ asked. explain_with_all (Some nothing_to_explain)
            (map string_bytes words.entry.now) ≡ asked) }
    {
        let mut asked = ExplainWords::new(alloc);
        for word in words {
            if !asked.take(word.as_str())? {
                return Ok(None);
            }
        }
        Ok(Some(asked))
    }

    /// What the words ask `explain` to do, if they are right.
    #[tactic(auto, using(crate::proofs::ExplainWords::refusals))]
    fn finish(self) -> Option<ExplainCall<'a>>
        ensures { MatchOption result ((explain : ExplainAsked) → ¬ IsExplain self.entry explain)
            (λ c. IsExplain self.entry (explain_of c)) }
    {
        let (trace, options) = self.check.one()?;
        Some(ExplainCall {
            trace,
            form: self.form,
            options,
        })
    }
}

/// What the words behind `explain` ask it to do, if they are right.
///
/// # Errors
///
/// `NoMemory` where there is none for what they ask.
#[tactic(auto, using(crate::proofs::ExplainWords::calls))]
pub(crate) fn explain_call<'a>(
    alloc: Global,
    words: &'a [String],
) -> Result<Option<ExplainCall<'a>>, NoMemory>
    ensures { IfOk result (λ call. MatchOption call
        ((explain : ExplainAsked) → ¬ AsksExplain (map string_bytes words.entry.now) explain)
        (λ c. AsksExplain (map string_bytes words.entry.now) (explain_of c))) }
{
    match ExplainWords::read(alloc, words) {
        Ok(Some(asked)) => Ok(asked.finish()),
        Ok(None) => Ok(None),
        Err(NoMemory) => Err(NoMemory),
    }
}
