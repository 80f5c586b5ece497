// The options of `chart`.
ghost use Rattle.std.specs.Prelude.{◌≡◌, ◌≤◌, ℕ, true, bytes_eq, option_map, IfSome, MatchOption};
ghost use Rattle.std.specs.Map.{lookup};
ghost use Rattle.ace_tool.specs.ChartOptions.{AreRows, chart_valued, line_at, line_of_digits, line_of_word, line_said, no_chart_options, with_chart_value};
ghost use Rattle.ace_chart_rows.specs.declared.selection.Selection.{Selection as Selected};
ghost use Rattle.ace_tool.specs.ChartSelected.{Selects};
ghost use Rattle.ace_tool.specs.Asked.{side_said};
ghost use Rattle.ace_tool.specs.Told.{if_taken, side_of};

use crate::chart_selected::{ports_said, span_said};
use crate::check_options::SideChoice;
use crate::options::{keep_once, limit_of, side_choice};
use ace_chart_rows::Selection;
use ace_drawing::LineChoice;
use ace_grammar::number_of;
use std::marker::Model;

/// An option of `chart` that has a value.
#[derive(Clone, Copy)]
pub(crate) enum ChartValued {
    /// The file for the picture.
    Out,
    /// The line that is drawn.
    Line,
    /// The most rows.
    Rows,
    /// The numbers of the first and the last event.
    Events,
    /// The number of an event in the middle.
    Around,
    /// The ports.
    Port,
    /// What the picture is called.
    Title,
    /// The side file.
    Side,
}

/// The most rows where none are asked for.
const ROWS: usize = 400;

/// The option of this name, if it is one.
pub(crate) fn chart_valued_of(name: &str) -> Option<ChartValued>
    ensures { result ≡ lookup (bytes_eq name.now) chart_valued }
{
    match name {
        "-o" => Some(ChartValued::Out),
        "--line" => Some(ChartValued::Line),
        "--rows" => Some(ChartValued::Rows),
        "--events" => Some(ChartValued::Events),
        "--around" => Some(ChartValued::Around),
        "--port" => Some(ChartValued::Port),
        "--title" => Some(ChartValued::Title),
        "--side" => Some(ChartValued::Side),
        _ => None,
    }
}

/// The options that were given, with their values as they stand.
#[derive(Drop)]
pub(crate) struct ChartOptions<'a> {
    out: Option<&'a str>,
    line: Option<&'a str>,
    rows: Option<&'a str>,
    events: Option<&'a str>,
    around: Option<&'a str>,
    port: Option<&'a str>,
    title: Option<&'a str>,
    side: Option<&'a str>,
    no_side: bool,
}

impl<'a> Model for ChartOptions<'a> {
    ghost use Rattle.ace_tool.specs.ChartOptions.{ChartGiven};
    ghost use Rattle.std.specs.Prelude.{option_map};

    ghost Value = { ChartGiven };

    ghost view = { λ o. record {
      out = option_map (λ word. word.now) o.out;
      line = option_map (λ word. word.now) o.line;
      rows = option_map (λ word. word.now) o.rows;
      events = option_map (λ word. word.now) o.events;
      around = option_map (λ word. word.now) o.around;
      port = option_map (λ word. word.now) o.port;
      title = option_map (λ word. word.now) o.title;
      side = option_map (λ word. word.now) o.side;
      no_side = o.no_side;
    } };
}

/// The line that holds the address.
fn line_at(address: u128) -> Option<LineChoice>
    ensures { result ≡ line_at address }
{
    if address < 0x1_0000_0000 {
        let address = address as u32;
        Some(LineChoice::Line {
            addr: address - address % 64,
        })
    } else {
        None
    }
}

/// The line that holds the address that the word is in hexadecimal digits.
fn line_of_digits(word: &str) -> Option<LineChoice>
    ensures { result ≡ line_of_digits word.now }
{
    if word.is_empty() || word.len() > 8 {
        return None;
    }
    match number_of(word.as_bytes()) {
        Some(address) => line_at(address),
        None => None,
    }
}

/// The line that the word of an option says, if it is right; without one it is chosen.
fn line_said(word: Option<&str>) -> Option<LineChoice>
    ensures { result ≡ line_said (option_map (λ w. w.now) word.entry) }
{
    match word {
        Some(word) => {
            if word == "all" {
                Some(LineChoice::All)
            } else {
                line_of_digits(word)
            }
        }
        None => Some(LineChoice::Chosen),
    }
}

/// How many rows the word of an option says, if it is right.
fn rows_of(word: Option<&str>) -> Option<usize>
    ensures value { MatchOption result
        ((rows : ℕ) → ¬ AreRows (option_map (λ w. w.now) word.entry) rows)
        (AreRows (option_map (λ w. w.now) word.entry)) }
    ensures few { IfSome result (λ rows. rows ≤ 1000000) }
{
    match word {
        Some(word) => match limit_of(Some(word), 1_000_000) {
            Some(rows) => Some(rows as usize),
            None => None,
        },
        None => Some(ROWS),
    }
}

impl<'a> ChartOptions<'a> {
    /// None was given.
    pub(crate) fn none() -> ChartOptions<'a>
        ensures { result ≡ no_chart_options }
    {
        ChartOptions {
            out: None,
            line: None,
            rows: None,
            events: None,
            around: None,
            port: None,
            title: None,
            side: None,
            no_side: false,
        }
    }

    /// One more; whether it has none yet.
    pub(crate) fn add_value(&mut self, option: ChartValued, value: &'a str) -> bool
        ensures { with_chart_value option value.entry.now self.old ≡ if_taken result self.new }
    {
        match option {
            ChartValued::Out => keep_once(&mut self.out, value),
            ChartValued::Line => keep_once(&mut self.line, value),
            ChartValued::Rows => keep_once(&mut self.rows, value),
            ChartValued::Events => keep_once(&mut self.events, value),
            ChartValued::Around => keep_once(&mut self.around, value),
            ChartValued::Port => keep_once(&mut self.port, value),
            ChartValued::Title => keep_once(&mut self.title, value),
            ChartValued::Side => keep_once(&mut self.side, value),
        }
    }

    /// `--no-side`, which can be given again.
    pub(crate) fn add_no_side(&mut self)
        ensures { self.new ≡ record self.old { no_side = true } }
    {
        self.no_side = true;
    }

    /// The file for the picture.
    pub(crate) fn out(&self) -> Option<&'a str>
        ensures { option_map (λ name. name.now) result ≡ self.now.out }
    {
        self.out
    }

    /// The line that is drawn, if its word is right.
    pub(crate) fn line(&self) -> Option<LineChoice>
        ensures { result ≡ line_said self.now.line }
    {
        line_said(self.line)
    }

    /// The most rows, if their word is right.
    pub(crate) fn rows(&self) -> Option<usize>
        ensures value { MatchOption result ((rows : ℕ) → ¬ AreRows self.now.rows rows)
            (AreRows self.now.rows) }
        ensures few { IfSome result (λ rows. rows ≤ 1000000) }
    {
        rows_of(self.rows)
    }

    /// Which events are drawn, if the words that say it are right.
    #[tactic(auto, using(crate::proofs::ChartSelections::selections))]
    pub(crate) fn selection(&self) -> Option<Selection>
        ensures { MatchOption result ((s : Selected) → ¬ Selects self.now s) (Selects self.now) }
    {
        let (first, last) = span_said(self.events, self.around)?;
        let ports = ports_said(self.port)?;
        Some(Selection { first, last, ports })
    }

    /// Where the side file is, if the words that say it are right.
    pub(crate) fn side(&self) -> Option<SideChoice<'a>>
        ensures { option_map side_of result ≡ side_said self.now.side self.now.no_side }
    {
        side_choice(self.side, self.no_side)
    }

    /// What the picture is called.
    pub(crate) fn title(&self) -> Option<&'a str>
        ensures { option_map (λ title. title.now) result ≡ self.now.title }
    {
        self.title
    }
}
