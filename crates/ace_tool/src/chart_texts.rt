// The texts of `chart`.
ghost use Rattle.std.specs.Prelude.{◌≡◌, ◌++◌, option_map, IfOk, OnErr, OnOk};
ghost use Rattle.std.specs.Io.KnownBytes.{Appends};
ghost use Rattle.std.specs.Option.{option_copied};
ghost use Rattle.ace_chart.specs.Charts.{IsDrawable};
ghost use Rattle.ace_convert.specs.Output.{AppendsPart};
ghost use Rattle.ace_explanation.specs.Refusals.{kept_part, kept_sentence, title, wrong_part};
ghost use Rattle.ace_io.specs.Faults.{HasCause};
ghost use Rattle.ace_tool.specs.ChartTexts.{chart_help, expected_below, expected_of, got_below, got_of, heading_of, kept_below, kept_words, packed_to_draw, picture_text, rows_line, wrong_below, wrong_words};

use crate::explain::{give_five, told_name};
use crate::line::shown_name;
use crate::packing::{Packing, advice_of};
use crate::result_parts::wrong_sentence;
use ace_chart::{Below, Chart, chart_text};
use ace_clauses::{ClauseName, Letter};
use ace_expected::{Expectation, expected_text, got_text};
use ace_explanation::{Explanation, Refusal, verdict_text};
use ace_io::{Failed, NoMemory, Sink};
use ace_malformed::push;
use ace_pages::page_name;
use ace_side_facts::SideFacts;
use ace_words::{kept_where, rule_title};
use itoa::Buffer;
use std::alloc::Global;

/// How `chart` is used.
pub(crate) fn chart_help() -> &'static str
    ensures { result.now ≡ chart_help }
{
    "usage: acetool chart [OPTION].. [--] [FILE]

Draws a sequence chart of one line of the trace, as SVG: the ports, the interconnect and memory, the
messages between them in their order, and beside them which port has the line in which state. Of a
refused trace it is the line of the refused event, up to that event, with what is wrong below it; of
another the first line.

  -o FILE          the picture is written into FILE; else it is told
  --line ADDRESS   the line of this address, in hexadecimal digits; `all` draws each event
  --events A..B    of these the events from number A to number B alone
  --around N       as --events from 20 before event N to 20 behind it
  --port P,..      of these the events of these ports alone
  --rows N         N rows at most before a refused event; else 400
  --title TEXT     the picture is called so, and not as the file
  --side FILE      the side file, which tells the times of events and the names of ports; else
                   FILE.side where there is one
  --no-side        none is read

status: 0 it was drawn, 3 it or its side file is malformed, 4 unreadable, 6 it would have more rows,
7 no memory; 5 an output failed; 2 these words are wrong
"
}

/// The title of the rule.
#[tactic(auto, unfolding(ace_explanation::specs::Refusals::title))]
fn title(rule: u8) -> &'static [u8]
    ensures { result.now ≡ title rule }
{
    rule_title(rule)
}

/// Where the clause is kept.
#[tactic(auto, unfolding(ace_explanation::specs::Refusals::kept_sentence))]
fn kept_sentence(rule: u8, letter: Letter) -> &'static [u8]
    ensures { result.now ≡ kept_sentence rule letter }
{
    kept_where(ClauseName { rule, letter })
}

/// Adds what is wrong where the clause is broken.
#[tactic(auto, unfolding(ace_explanation::specs::Refusals::wrong_part))]
fn push_wrong(text: &mut Vec<u8>, rule: u8, letter: Letter) -> Result<(), NoMemory>
    ensures { OnOk result (text.new.items ≡ text.old.items ++ wrong_part rule letter) }
{
    push(text, b": ")?;
    push(text, wrong_sentence(rule, letter))
}

/// Adds where the clause is kept.
#[tactic(auto, unfolding(ace_explanation::specs::Refusals::kept_part))]
fn push_kept(text: &mut Vec<u8>, rule: u8, letter: Letter) -> Result<(), NoMemory>
    ensures { OnOk result (text.new.items ≡ text.old.items ++ kept_part rule letter) }
{
    push(text, b": ")?;
    push(text, kept_sentence(rule, letter))
}

/// Adds what is wrong, behind the name of the clause that is broken.
#[tactic(auto, unfolding(crate::specs::ChartTexts::wrong_words))]
fn push_wrong_words(text: &mut Vec<u8>, refusal: &Refusal) -> Result<(), NoMemory>
    ensures { OnOk result (text.new.items ≡ text.old.items ++ wrong_words refusal.now) }
{
    let name = page_name(refusal.rule, Some(refusal.letter));
    push(text, name.as_bytes())?;
    push_wrong(text, refusal.rule, refusal.letter)
}

/// Adds where that clause is kept, behind the title of its rule.
#[tactic(auto, unfolding(crate::specs::ChartTexts::kept_words))]
fn push_kept_words(text: &mut Vec<u8>, refusal: &Refusal) -> Result<(), NoMemory>
    ensures { OnOk result (text.new.items ≡ text.old.items ++ kept_words refusal.now) }
{
    push(text, title(refusal.rule))?;
    push_kept(text, refusal.rule, refusal.letter)
}

/// What is wrong, of a refused trace.
fn wrong_below(alloc: Global, explanation: &Explanation) -> Result<Vec<u8>, NoMemory>
    ensures { IfOk result (λ text. text.items ≡ wrong_below explanation.now) }
{
    let mut text = Vec::new(alloc);
    if let Explanation::Refused { refusal } = explanation {
        push_wrong_words(&mut text, refusal)?;
    }
    Ok(text)
}

/// Where the broken clause is kept, of a refused trace.
fn kept_below(alloc: Global, explanation: &Explanation) -> Result<Vec<u8>, NoMemory>
    ensures { IfOk result (λ text. text.items ≡ kept_below explanation.now) }
{
    let mut text = Vec::new(alloc);
    if let Explanation::Refused { refusal } = explanation {
        push_kept_words(&mut text, refusal)?;
    }
    Ok(text)
}

/// What a clause expects, if it expects a value.
fn expected_of(alloc: Global, x: &Option<Expectation>) -> Result<Vec<u8>, NoMemory>
    ensures { IfOk result (λ text. text.items ≡ expected_of x.now) }
{
    match x {
        Some(x) => expected_text(alloc, x),
        None => Ok(Vec::new(alloc)),
    }
}

/// What it got.
fn got_of(alloc: Global, x: &Option<Expectation>) -> Result<Vec<u8>, NoMemory>
    ensures { IfOk result (λ text. text.items ≡ got_of x.now) }
{
    match x {
        Some(x) => got_text(alloc, x),
        None => Ok(Vec::new(alloc)),
    }
}

/// What the broken clause expects, of a refused trace.
fn expected_below(alloc: Global, explanation: &Explanation) -> Result<Vec<u8>, NoMemory>
    ensures { IfOk result (λ text. text.items ≡ expected_below explanation.now) }
{
    match explanation {
        Explanation::Refused { refusal } => expected_of(alloc, &refusal.expected),
        _ => Ok(Vec::new(alloc)),
    }
}

/// What it got.
fn got_below(alloc: Global, explanation: &Explanation) -> Result<Vec<u8>, NoMemory>
    ensures { IfOk result (λ text. text.items ≡ got_below explanation.now) }
{
    match explanation {
        Explanation::Refused { refusal } => got_of(alloc, &refusal.expected),
        _ => Ok(Vec::new(alloc)),
    }
}

/// What a picture is called: by the title that is asked for, or else by the name of the trace.
fn heading_of<'a>(name: &'a str, title: Option<&'a str>) -> &'a str
    ensures { result.now ≡ heading_of name.entry.now (option_map (λ t. t.now) title.entry) }
{
    match title {
        Some(title) => title,
        None => told_name(name),
    }
}

/// The picture of the trace of this name, with what its side file tells.
///
/// # Errors
///
/// `NoMemory` where there is none for the text.
pub(crate) fn picture_text(
    alloc: Global,
    name: &str,
    heading: Option<&str>,
    chart: &Chart,
    explanation: &Explanation,
    side: Option<&SideFacts>,
) -> Result<Vec<u8>, NoMemory>
    requires { IsDrawable chart.now }
    ensures { IfOk result (λ text. text.items
        ≡ picture_text name.now (option_map (λ t. t.now) heading.entry) chart.now
        explanation.now (option_copied side.entry)) }
{
    let verdict = verdict_text(explanation.verdict());
    let wrong = wrong_below(alloc, explanation)?;
    let kept = kept_below(alloc, explanation)?;
    let expected = expected_below(alloc, explanation)?;
    let got = got_below(alloc, explanation)?;
    let below = Below {
        wrong: wrong.as_slice(),
        kept: kept.as_slice(),
        expected: expected.as_slice(),
        got: got.as_slice(),
    };
    let name = heading_of(name, heading);
    let name = name.as_bytes();
    chart_text(alloc, chart, name, verdict.as_bytes(), &below, side)
}

/// Tells that the chart would have more rows than so many.
pub(crate) fn tell_rows<K: Sink>(notes: &mut K, name: &str, rows: usize) -> Result<(), Failed>
    ensures whole { OnOk result (Appends (K.held notes.old) (K.held notes.new)
        (rows_line name.now rows)) }
    ensures part { OnErr result (AppendsPart (K.held notes.old) (K.held notes.new)
        (rows_line name.now rows)) }
    ensures cause { HasCause (K.faults notes.old) (K.faults notes.new) result }
{
    let mut digits = Buffer::new();
    give_five(
        notes,
        told_name(name),
        ": more than ",
        digits.format(rows),
        " rows: choose by --line, --events or --port, or more rows by --rows",
        "\n",
    )
}

/// Tells that the file of this name is compressed.
pub(crate) fn tell_packed_to_draw<K: Sink>(
    notes: &mut K,
    name: &str,
    packing: Packing,
) -> Result<(), Failed>
    ensures whole { OnOk result (Appends (K.held notes.old) (K.held notes.new)
        (packed_to_draw name.now packing)) }
    ensures part { OnErr result (AppendsPart (K.held notes.old) (K.held notes.new)
        (packed_to_draw name.now packing)) }
    ensures cause { HasCause (K.faults notes.old) (K.faults notes.new) result }
{
    give_five(
        notes,
        told_name(name),
        ": ",
        advice_of(packing),
        shown_name(name),
        " | acetool chart -\n",
    )
}
