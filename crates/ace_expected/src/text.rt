// The two lines that tell what a clause expects, and what it got.
ghost use Rattle.std.specs.Prelude.{◌≡◌, ◌≤◌, ◌++◌, [], IfOk, OnOk, drop, length};
ghost use Rattle.ace_event.specs.Text.{hex_text, line_digits, state_text};
ghost use Rattle.ace_expected.specs.Texts.{add_rows, add_state, digits_of, expected_line, expected_text, got_line, got_text, joined, lines_text, row_text, separator, states_text};
ghost use Rattle.ace_tables.specs.Answers.{snoop_rows};

use crate::tables::allows;
use crate::wanted::{Expectation, StateTable, Width};
use ace_codes::{LineState, SnoopKind};
use ace_event::Line;
use ace_io::NoMemory;
use ace_malformed::push;
use ace_tables::{Row, RowList, snoop_rows};
use ace_words::state_word;
use ace_writer::TextBuf;
use std::alloc::Global;

/// What stands before one more alternative.
fn separator(so_far: &[u8]) -> &'static [u8]
    ensures { result.now ≡ separator so_far.now }
{
    if so_far.is_empty() { b"" } else { b" or " }
}

/// Adds one more alternative.
#[tactic(auto, unfolding(crate::specs::Texts::joined))]
fn push_joined(words: &mut Vec<u8>, word: &[u8]) -> Result<(), NoMemory>
    ensures { OnOk result (words.new.items ≡ joined words.old.items word.now) }
{
    let between = separator(words.as_slice());
    push(words, between)?;
    push(words, word)
}

/// Adds the state, if the table allows it.
#[tactic(auto, unfolding(crate::specs::Texts::add_state))]
fn push_state(words: &mut Vec<u8>, table: StateTable, state: LineState) -> Result<(), NoMemory>
    ensures { OnOk result (words.new.items ≡ add_state table words.old.items state) }
{
    if allows(table, state) {
        push_joined(words, state_word(state))
    } else {
        Ok(())
    }
}

/// The states that the table allows, for an empty text.
#[tactic(auto, unfolding(crate::specs::Texts::states_text))]
fn states_text(alloc: Global, table: StateTable) -> Result<Vec<u8>, NoMemory>
    ensures { IfOk result (λ words. words.items ≡ states_text table) }
{
    let mut words = Vec::new(alloc);
    push_state(&mut words, table, LineState::UD)?;
    push_state(&mut words, table, LineState::SD)?;
    push_state(&mut words, table, LineState::UC)?;
    push_state(&mut words, table, LineState::SC)?;
    push_state(&mut words, table, LineState::I)?;
    Ok(words)
}

/// Adds a number with so many digits.
fn push_hex(text: &mut Vec<u8>, digits: u32, number: u128) -> Result<(), NoMemory>
    requires { digits ≤ 32 }
    ensures { OnOk result (text.new.items ≡ text.old.items ++ hex_text digits number) }
{
    let mut written = TextBuf::empty();
    written.push_digits(digits, number);
    push(text, written.bytes())
}

/// Adds an answer to a snoop.
#[tactic(auto, unfolding(crate::specs::Texts::row_text))]
fn push_row(text: &mut Vec<u8>, row: &Row) -> Result<(), NoMemory>
    ensures { OnOk result (text.new.items ≡ text.old.items ++ row_text row.now) }
{
    push_hex(text, 2, u128::from(row.resp))?;
    push(text, b" ")?;
    push(text, state_word(row.next))
}

/// Adds one more answer to a snoop as an alternative.
#[tactic(auto, unfolding(crate::specs::Texts::joined))]
fn push_answer(words: &mut Vec<u8>, row: &Row) -> Result<(), NoMemory>
    ensures { OnOk result (words.new.items ≡ joined words.old.items (row_text row.now)) }
{
    let between = separator(words.as_slice());
    push(words, between)?;
    push_row(words, row)
}

/// The answers of the list.
fn rows_text(alloc: Global, rows: &RowList) -> Result<Vec<u8>, NoMemory>
    ensures { IfOk result (λ words. words.items ≡ add_rows [] rows.now) }
{
    let mut words = Vec::new(alloc);
    let count = rows.count();
    for i in 0..count {
        push_answer(&mut words, &rows.row(i))?;
    }
    Ok(words)
}

/// The answers to a snoop of the kind.
fn answers_text(
    alloc: Global,
    kind: SnoopKind,
    held: LineState,
    update: bool,
) -> Result<Vec<u8>, NoMemory>
    ensures { IfOk result (λ words. words.items ≡ add_rows [] (snoop_rows kind held update)) }
{
    let rows = snoop_rows(kind, held, update);
    rows_text(alloc, &rows)
}

/// How many digits a field has.
fn digits_of(width: Width) -> u32
    ensures value { result ≡ digits_of width }
    ensures few { result ≤ 32 }
{
    match width {
        Width::Digit => 1,
        Width::Strobe => 4,
        Width::Word => 32,
    }
}

/// A number.
fn number_text(alloc: Global, width: Width, number: u128) -> Result<Vec<u8>, NoMemory>
    ensures { IfOk result (λ words. words.items ≡ hex_text (digits_of width) number) }
{
    let mut words = Vec::new(alloc);
    push_hex(&mut words, digits_of(width), number)?;
    Ok(words)
}

/// What stands behind the first byte.
fn behind_space(bytes: &[u8]) -> &[u8]
    requires { 1 ≤ length bytes.now }
    ensures { result.now ≡ drop 1 bytes.now }
{
    &bytes[1..]
}

/// The data of a line.
fn data_text(alloc: Global, line: &Line) -> Result<Vec<u8>, NoMemory>
    ensures { IfOk result (λ words. words.items ≡ line_digits line.now) }
{
    let mut digits = TextBuf::empty();
    digits.push_line(line);
    let mut words = Vec::new(alloc);
    push(&mut words, behind_space(digits.bytes()))?;
    Ok(words)
}

/// A state.
fn state_text(alloc: Global, state: LineState) -> Result<Vec<u8>, NoMemory>
    ensures { IfOk result (λ words. words.items ≡ state_text state) }
{
    let mut words = Vec::new(alloc);
    push(&mut words, state_word(state))?;
    Ok(words)
}

/// An answer to a snoop.
fn row_text(alloc: Global, row: &Row) -> Result<Vec<u8>, NoMemory>
    ensures { IfOk result (λ words. words.items ≡ row_text row.now) }
{
    let mut words = Vec::new(alloc);
    push_row(&mut words, row)?;
    Ok(words)
}

/// What is expected: nothing where no value is right, or none can be told.
///
/// # Errors
///
/// `NoMemory` where there is none for the text.
pub fn expected_text(alloc: Global, x: &Expectation) -> Result<Vec<u8>, NoMemory>
    ensures { IfOk result (λ words. words.items ≡ expected_text x.now) }
{
    match *x {
        Expectation::State { table, .. } => states_text(alloc, table),
        Expectation::Answer {
            kind,
            held,
            update,
            ..
        } => answers_text(alloc, kind, held, update),
        Expectation::Number {
            width,
            expected,
            ..
        } => number_text(alloc, width, expected),
        Expectation::Sent { .. } => Ok(Vec::new(alloc)),
        Expectation::Data { expected, .. } => data_text(alloc, &expected),
    }
}

/// What was got.
///
/// # Errors
///
/// `NoMemory` where there is none for the text.
pub fn got_text(alloc: Global, x: &Expectation) -> Result<Vec<u8>, NoMemory>
    ensures { IfOk result (λ words. words.items ≡ got_text x.now) }
{
    match *x {
        Expectation::State { got, .. } => state_text(alloc, got),
        Expectation::Answer { resp, next, .. } => row_text(alloc, &Row { resp, next }),
        Expectation::Number { width, got, .. } => number_text(alloc, width, got),
        Expectation::Sent { got } => number_text(alloc, Width::Word, got),
        Expectation::Data { got, .. } => data_text(alloc, &got),
    }
}

/// Adds the line of what is expected, if anything is told of that.
#[tactic(auto, unfolding(crate::specs::Texts::expected_line))]
fn push_expected(text: &mut Vec<u8>, words: &[u8]) -> Result<(), NoMemory>
    ensures { OnOk result (text.new.items ≡ text.old.items ++ expected_line words.now) }
{
    if words.is_empty() {
        return Ok(());
    }
    push(text, b"  expected  ")?;
    push(text, words)?;
    push(text, b"\n")
}

/// Adds the line of what was got.
#[tactic(auto, unfolding(crate::specs::Texts::got_line))]
fn push_got(text: &mut Vec<u8>, words: &[u8]) -> Result<(), NoMemory>
    ensures { OnOk result (text.new.items ≡ text.old.items ++ got_line words.now) }
{
    push(text, b"  got       ")?;
    push(text, words)?;
    push(text, b"\n")
}

/// Adds both lines; that of what was got alone where nothing is told of what is expected.
///
/// # Errors
///
/// `NoMemory` where there is none for the longer text.
#[tactic(auto, unfolding(crate::specs::Texts::lines_text))]
pub fn push_expectation(alloc: Global, text: &mut Vec<u8>, x: &Expectation) -> Result<(), NoMemory>
    ensures { OnOk result (text.new.items ≡ text.old.items ++ lines_text x.now) }
{
    let expected = expected_text(alloc, x)?;
    let got = got_text(alloc, x)?;
    push_expected(text, expected.as_slice())?;
    push_got(text, got.as_slice())
}
