// The words behind `chart`, taken one after another.
ghost use Rattle.std.specs.Prelude.{◌≡◌, Some, map, string_bytes, MatchOption};
ghost use Rattle.ace_tool.specs.ChartAsked.{AsksChart, ChartAsked, IsChartAsked, nothing_to_draw, with_drawn, with_drawn_all, with_drawn_hyphen, with_drawn_name, with_drawn_value, with_drawn_valued, with_drawn_word};
ghost use Rattle.ace_tool.specs.ChartTold.{chart_of};
ghost use Rattle.ace_tool.specs.Told.{if_taken};

use crate::chart_call::ChartCall;
use crate::chart_options::{ChartOptions, ChartValued, chart_valued_of};
use crate::check_words::{has_hyphen, is_input};
use std::marker::Model;

/// What the words so far ask. A word that is wrong ends it: what it holds then says nothing.
#[derive(Drop)]
struct ChartWords<'a> {
    trace: Option<&'a str>,
    names_only: bool,
    waiting: Option<ChartValued>,
    given: ChartOptions<'a>,
}

impl<'a> Model for ChartWords<'a> {
    ghost use Rattle.std.specs.Prelude.{option_map};
    ghost use Rattle.ace_tool.specs.ChartAsked.{ChartSoFar};

    ghost Value = { ChartSoFar };

    ghost view = { λ w. record {
      trace = option_map (λ name. name.now) w.trace;
      names_only = w.names_only;
      waiting = w.waiting;
      given = w.given;
    } };
}

impl<'a> ChartWords<'a> {
    /// No word has come.
    fn new() -> ChartWords<'a>
        ensures { result ≡ nothing_to_draw }
    {
        ChartWords {
            trace: None,
            names_only: false,
            waiting: None,
            given: ChartOptions::none(),
        }
    }

    /// Takes the name of the trace, and says whether it is right there.
    fn take_name(&mut self, name: &'a str) -> bool
        ensures { with_drawn_name name.entry.now self.old ≡ if_taken result self.new }
    {
        if self.trace.is_some() {
            return false;
        }
        self.trace = Some(name);
        true
    }

    /// Takes the value of an option, and says whether it is right there.
    fn take_value(&mut self, option: Option<ChartValued>, value: &'a str) -> bool
        ensures { with_drawn_value option value.entry.now self.old ≡ if_taken result self.new }
    {
        match option {
            Some(option) => self.given.add_value(option, value),
            None => false,
        }
    }

    /// Takes an option that has a value, and says whether it is right there.
    fn take_valued(&mut self, word: &'a str) -> bool
        ensures { with_drawn_valued word.entry.now self.old ≡ if_taken result self.new }
    {
        match word.split_once('=') {
            Some((name, value)) => self.take_value(chart_valued_of(name), value),
            None => {
                self.waiting = chart_valued_of(word);
                self.waiting.is_some()
            }
        }
    }

    /// Takes an option, and says whether it is right there.
    fn take_option(&mut self, word: &'a str) -> bool
        ensures { with_drawn_hyphen word.entry.now self.old ≡ if_taken result self.new }
    {
        if word == "--no-side" {
            self.given.add_no_side();
            true
        } else {
            self.take_valued(word)
        }
    }

    /// Takes the next word, which is no value, and says whether it is right there.
    fn take_word(&mut self, word: &'a str) -> bool
        ensures { with_drawn_word word.entry.now self.old ≡ if_taken result self.new }
    {
        if self.names_only {
            self.take_name(word)
        } else if word == "--" {
            self.names_only = true;
            true
        } else if has_hyphen(word) && !is_input(word) {
            self.take_option(word)
        } else {
            self.take_name(word)
        }
    }

    /// Takes the next word, and says whether it is right there.
    fn take(&mut self, word: &'a str) -> bool
        ensures { with_drawn word.entry.now self.old ≡ if_taken result self.new }
    {
        match self.waiting {
            Some(option) => {
                self.waiting = None;
                self.take_value(Some(option), word)
            }
            None => self.take_word(word),
        }
    }

    /// What the words ask, if all of them are right.
    #[tactic(auto, using(crate::proofs::ChartWordSteps::wrongs))]
    fn read(words: &'a [String]) -> Option<ChartWords<'a>>
        ensures { with_drawn_all (Some nothing_to_draw) (map string_bytes words.entry.now)
            ≡ result }
    {
        let mut asked = ChartWords::new();
        for word in words {
            if !asked.take(word.as_str()) {
                return None;
            }
        }
        Some(asked)
    }

    /// What is asked, where no more words come, if the values of the options are right.
    #[tactic(auto, using(crate::proofs::ChartWordSteps::refusals))]
    fn finish(self) -> Option<ChartCall<'a>>
        ensures { MatchOption result ((chart : ChartAsked) → ¬ IsChartAsked self.entry chart)
            (λ c. IsChartAsked self.entry (chart_of c)) }
    {
        if self.waiting.is_some() {
            return None;
        }
        let line = self.given.line()?;
        let rows = self.given.rows()?;
        let selection = self.given.selection()?;
        let side = self.given.side()?;
        Some(ChartCall {
            trace: self.trace.unwrap_or("-"),
            out: self.given.out(),
            line,
            rows,
            selection,
            title: self.given.title(),
            side,
        })
    }
}

/// What the words behind `chart` ask it to do, if they are right.
#[tactic(auto, using(crate::proofs::ChartWordSteps::charts))]
pub(crate) fn chart_call<'a>(words: &'a [String]) -> Option<ChartCall<'a>>
    ensures { MatchOption result
        ((chart : ChartAsked) → ¬ AsksChart (map string_bytes words.entry.now) chart)
        (λ c. AsksChart (map string_bytes words.entry.now) (chart_of c)) }
{
    match ChartWords::read(words) {
        Some(asked) => asked.finish(),
        None => None,
    }
}
