// The values that a line has had, and which of them an event tells of.
ghost use Rattle.std.specs.Prelude.{◌≡◌, ◌∷◌, [], ℕ, Option, IfOk, OnOk};
ghost use Rattle.ace_chart_rows.specs.Values.{has, known, newest_of, newest_with, told_by_memory, told_by_read, told_by_transfer, told_by_write, told_in, told_on, values_of, values_with, version_of};
ghost use Rattle.ace_check.specs.Run.{StandsWithin};
ghost use Rattle.ace_event.specs.declared.header.Header.{Header};
ghost use Rattle.ace_model.specs.Copies.{same_line, word_of};
ghost use Rattle.ace_model.specs.Trace.{Trace, is_some_and};
ghost use Rattle.ace_model.specs.Values.{discards_data, stores_data};
ghost use Rattle.ace_model.specs.declared.breaks.Break.{Break};

use crate::selection::is_asked;
use crate::told::{memory_now, next_transfers};
use ace_belongs::{next_line, next_serves};
use ace_chart::Version;
use ace_check::Checker;
use ace_codes::{ArKind, AwKind};
use ace_event::{Event, Line, merge};
use ace_event_words::Transfers;
use ace_io::NoMemory;
use ace_model::Transaction;
use ace_model::kinds::{read_kind, write_kind};
use std::alloc::Global;
use std::collections::VecDeque;

/// What an event tells of the value of its line.
#[derive(Clone, Copy)]
pub(crate) enum Told {
    /// Nothing.
    Nothing,
    /// The line opens with this.
    Opens { line: Line },
    /// The line is this from the event on, by a store.
    Stores { line: Line },
    /// One of its words, by its place from 0 to 3.
    Word { place: u8, word: u128 },
    /// The whole of it.
    Whole { line: Line },
}

/// What a line has been, the newest value first.
#[derive(Drop)]
pub(crate) struct Values {
    pub(crate) kept: VecDeque<Line>,
}

/// The newest of the values.
pub(crate) fn newest_of(values: &Values) -> Line
    ensures { result ≡ newest_of values.now.kept.items }
{
    match values.kept.front() {
        Some(value) => *value,
        None => Line { words: [0; 4] },
    }
}

/// The write stores to its line without a cache: WriteUnique, WriteLineUnique, WriteNoSnoop.
fn stores_data(serves: &Option<Transaction>) -> bool
    ensures { result ≡ is_some_and serves.now stores_data }
{
    match serves {
        Some(x) => matches!(
            write_kind(x),
            Some(AwKind::WriteUnique | AwKind::WriteLineUnique | AwKind::WriteNoSnoop)
        ),
        None => false,
    }
}

/// The transaction gives up what is newer than memory: MakeInvalid.
fn discards_data(serves: &Option<Transaction>) -> bool
    ensures { result ≡ is_some_and serves.now discards_data }
{
    match serves {
        Some(x) => matches!(read_kind(x), Some(ArKind::MakeInvalid)),
        None => false,
    }
}

/// What a transfer tells of the line.
fn told_by_transfer(transfers: Transfers, word: u128) -> Told
    ensures { result ≡ told_by_transfer transfers word }
{
    match transfers {
        Transfers::Nth { number, .. } => Told::Word {
            place: number.saturating_sub(1),
            word,
        },
        Transfers::One | Transfers::Several => Told::Nothing,
    }
}

/// What a transfer of a read tells, where memory has this.
fn told_by_read(
    serves: &Option<Transaction>,
    transfers: Transfers,
    memory: Line,
    word: u128,
) -> Told
    ensures { result ≡ told_by_read serves.now transfers memory word }
{
    if discards_data(serves) {
        Told::Stores { line: memory }
    } else {
        told_by_transfer(transfers, word)
    }
}

/// What a transfer of a write tells.
fn told_by_write(serves: &Option<Transaction>, transfers: Transfers, word: u128) -> Told
    ensures { result ≡ told_by_write serves.now transfers word }
{
    if stores_data(serves) {
        Told::Nothing
    } else {
        told_by_transfer(transfers, word)
    }
}

/// What a write of memory tells.
fn told_by_memory(serves: &Option<Transaction>, line: Line) -> Told
    ensures { result ≡ told_by_memory serves.now line }
{
    if stores_data(serves) {
        Told::Stores { line }
    } else {
        Told::Whole { line }
    }
}

/// What the next event of the trace that the checker stands for tells of the value of its line,
/// which had these values.
fn told_in(checker: &Checker, of: u32, values: &Values, event: &Event) -> Told
    ensures { (most : ℕ) (h : Header) (past : Trace) (b : Option Break)
        → StandsWithin most checker.now h past b
        → result ≡ told_in h past of values.now.kept.items event.now }
{
    match *event {
        Event::Mem { line, .. } => Told::Opens { line },
        Event::D { strobe, line, .. } => Told::Stores {
            line: merge(newest_of(values), strobe, line),
        },
        Event::M { line, .. } => told_by_memory(&next_serves(checker, event), line),
        Event::R { word, .. } => {
            let transfers = next_transfers(checker, event);
            let memory = memory_now(checker, of);
            told_by_read(&next_serves(checker, event), transfers, memory, word)
        }
        Event::W { word, .. } => {
            let transfers = next_transfers(checker, event);
            told_by_write(&next_serves(checker, event), transfers, word)
        }
        Event::Cd { word, .. } => told_by_transfer(next_transfers(checker, event), word),
        Event::L { w, word, .. } => Told::Word { place: w, word },
        _ => Told::Nothing,
    }
}

/// The same, where the event is of the line that is asked for, if one is.
pub(crate) fn told_on(checker: &Checker, line: Option<u32>, values: &Values, event: &Event) -> Told
    ensures { (most : ℕ) (h : Header) (past : Trace) (b : Option Break)
        → StandsWithin most checker.now h past b
        → result ≡ told_on h past line values.now.kept.items event.now }
{
    let Some(of) = line else {
        return Told::Nothing;
    };
    if is_asked(line, next_line(checker, event)) {
        told_in(checker, of, values, event)
    } else {
        Told::Nothing
    }
}

/// Word k of the line, from 0; 0 where k is above 3.
fn word_of(line: &Line, k: u8) -> u128
    ensures { result ≡ word_of line.now k }
{
    match line.words.get(usize::from(k)) {
        None => 0,
        Some(word) => *word,
    }
}

/// Both lines have the same words.
pub(crate) fn same_line(line: &Line, other: &Line) -> bool
    ensures { result ≡ same_line line.now other.now }
{
    let [a0, a1, a2, a3] = line.words;
    let [b0, b1, b2, b3] = other.words;
    a0 == b0 && a1 == b1 && a2 == b2 && a3 == b3
}

/// The value has what is told of it.
fn has(told: &Told, value: &Line) -> bool
    ensures { result ≡ has told.now value.now }
{
    match told {
        Told::Word { place, word } => word_of(value, *place) == *word,
        Told::Whole { line } => same_line(line, value),
        _ => false,
    }
}

/// How many stores there were before the newest value that has what is told.
fn newest_with(values: &Values, told: &Told) -> Option<u64>
    ensures { result ≡ newest_with (has told.now) values.now.kept.items }
{
    let count = values.kept.len();
    for place in 0..count {
        if has(told, &values.kept[place]) {
            return Some((count - 1 - place) as u64);
        }
    }
    None
}

/// The value of this number, if it is known.
fn known(stores: Option<u64>) -> Version
    ensures { result ≡ known stores }
{
    match stores {
        Some(stores) => Version::Known { stores },
        None => Version::Unknown,
    }
}

/// Which of the values of a line it is that an event tells of.
pub(crate) fn version_of(values: &Values, told: &Told) -> Option<Version>
    ensures { result ≡ version_of values.now.kept.items told.now }
{
    match told {
        Told::Nothing => None,
        Told::Opens { .. } => Some(Version::Known { stores: 0 }),
        Told::Stores { .. } => Some(Version::Known {
            stores: values.kept.len() as u64,
        }),
        Told::Word { .. } | Told::Whole { .. } => Some(known(newest_with(values, told))),
    }
}

/// Adds a value, as the newest.
fn put(values: &mut Values, line: Line) -> Result<(), NoMemory>
    ensures { OnOk result (values.new.kept.items ≡ line ∷ values.old.kept.items) }
{
    match values.kept.push_front(line) {
        Ok(()) => Ok(()),
        Err(_) => Err(NoMemory),
    }
}

/// Keeps the value that an event makes, if it makes one.
pub(crate) fn keep(values: &mut Values, told: &Told) -> Result<(), NoMemory>
    ensures { OnOk result (values.new.kept.items
        ≡ values_with values.old.kept.items told.now) }
{
    match told {
        Told::Opens { line } => {
            values.kept.truncate(0);
            put(values, *line)
        }
        Told::Stores { line } => put(values, *line),
        _ => Ok(()),
    }
}

/// The values before the first event.
pub(crate) fn opening(alloc: Global, line: Option<u32>) -> Result<Values, NoMemory>
    ensures { IfOk result (λ values. (h : Header) → values.kept.items ≡ values_of h [] line) }
{
    let mut values = Values {
        kept: VecDeque::new(alloc),
    };
    if line.is_some() {
        put(&mut values, Line { words: [0; 4] })?;
    }
    Ok(values)
}
