// The labels of events: the record of each, and what tells it from others.
ghost use Rattle.std.specs.Prelude.{◌≡◌, ◌++◌, ◌==◌, if◌then◌else◌, [], IfOk, OnOk, codes, decimal};
ghost use Rattle.ace_event.specs.Text.{outcome_text, state_text};
ghost use Rattle.ace_event_words.specs.SmallWords.{bit_word};
ghost use Rattle.ace_words.specs.Kinds.{port_words};
ghost use Rattle.ace_event_words.specs.KindWords.{read_words, served_words, snoop_words, write_words};
ghost use Rattle.ace_chart.specs.Labels.{answer_words, burst_text, burst_words, event_label, label, label_of, low_word, named, of_port, owner_words, resp_words, transfer_words, version_text, version_words, with_lock, with_state};

use crate::rows::{Burst, Row, Version};
use ace_codes::{
    LineState, has_error, is_shared, low_bits, passes_dirty, transfers_data, was_unique,
};
use ace_event::Event;
use ace_event_words::{bit_word, outcome_word, read_words, served_words, snoop_words, write_words};
use ace_io::NoMemory;
use ace_model::Transaction;
use ace_svg::{push, push_number};
use ace_words::state_word;
use std::alloc::Global;

/// What the low bits of a response say, behind a space; nothing where they are OKAY.
fn low_word(resp: u8) -> &'static [u8]
    ensures { result.now ≡ low_word resp }
{
    match low_bits(resp) {
        0 => b"",
        1 => b" EXOKAY",
        2 => b" SLVERR",
        _ => b" DECERR",
    }
}

/// Adds a record and what it is about.
#[tactic(auto, unfolding(crate::specs::Labels::named))]
fn push_named(text: &mut Vec<u8>, record: &[u8], words: &[u8]) -> Result<(), NoMemory>
    ensures { OnOk result (text.new.items ≡ text.old.items ++ named record.now words.now) }
{
    push(text, record)?;
    push(text, b" ")?;
    push(text, words)
}

/// Adds a record, what it is about, and whether it is exclusive.
#[tactic(auto, unfolding(crate::specs::Labels::with_lock))]
fn push_with_lock(
    text: &mut Vec<u8>,
    record: &[u8],
    words: &[u8],
    lock: bool,
) -> Result<(), NoMemory>
    ensures { OnOk result (text.new.items
        ≡ text.old.items ++ with_lock record.now words.now lock) }
{
    push_named(text, record, words)?;
    push(text, bit_word(lock, b" exclusive"))
}

/// Adds a record, what it is about, and the state in which it leaves the line.
#[tactic(auto, unfolding(crate::specs::Labels::with_state))]
fn push_with_state(
    text: &mut Vec<u8>,
    record: &[u8],
    words: &[u8],
    state: LineState,
) -> Result<(), NoMemory>
    ensures { OnOk result (text.new.items
        ≡ text.old.items ++ with_state record.now words.now state) }
{
    push_named(text, record, words)?;
    push(text, b" ")?;
    push(text, state_word(state))
}

/// Adds a record, the port of its transaction, and what that is.
#[tactic(auto, unfolding(crate::specs::Labels::of_port))]
fn push_of_port(text: &mut Vec<u8>, record: &[u8], port: u8, words: &[u8]) -> Result<(), NoMemory>
    ensures { OnOk result (text.new.items ≡ text.old.items ++ of_port record.now port words.now) }
{
    push(text, record)?;
    push(text, b" p")?;
    push_number(text, u64::from(port))?;
    push(text, b" ")?;
    push(text, words)
}

/// Adds the number of the last transfer, if it isn't the first.
fn push_last(text: &mut Vec<u8>, first: u8, last: u8) -> Result<(), NoMemory>
    ensures { OnOk result (text.new.items ≡ text.old.items
        ++ (if first == last then [] else codes "-" ++ decimal last)) }
{
    if first == last {
        return Ok(());
    }
    push(text, b"-")?;
    push_number(text, u64::from(last))
}

/// Adds which transfers of a burst they are.
#[tactic(auto, unfolding(crate::specs::Labels::burst_text))]
fn push_burst_text(text: &mut Vec<u8>, burst: &Burst) -> Result<(), NoMemory>
    ensures { OnOk result (text.new.items ≡ text.old.items ++ burst_text burst.now) }
{
    push(text, b" ")?;
    push_number(text, u64::from(burst.first))?;
    push_last(text, burst.first, burst.last)?;
    push(text, b"/")?;
    push_number(text, u64::from(burst.beats))
}

/// The same, if they are some.
fn push_burst(text: &mut Vec<u8>, burst: &Option<Burst>) -> Result<(), NoMemory>
    ensures { OnOk result (text.new.items ≡ text.old.items ++ burst_words burst.now) }
{
    match burst {
        Some(burst) => push_burst_text(text, burst),
        None => Ok(()),
    }
}

/// Adds which value of the line it is.
#[tactic(auto, unfolding(crate::specs::Labels::version_text))]
fn push_version_text(text: &mut Vec<u8>, version: &Version) -> Result<(), NoMemory>
    ensures { OnOk result (text.new.items ≡ text.old.items ++ version_text version.now) }
{
    match version {
        Version::Known { stores } => {
            push(text, b" v")?;
            push_number(text, *stores)
        }
        Version::Unknown => push(text, b" v?"),
    }
}

/// The same, if it is told.
fn push_version(text: &mut Vec<u8>, version: &Option<Version>) -> Result<(), NoMemory>
    ensures { OnOk result (text.new.items ≡ text.old.items ++ version_words version.now) }
{
    match version {
        Some(version) => push_version_text(text, version),
        None => Ok(()),
    }
}

/// Adds what transfers belong to, which is left out where the line is told by its value.
fn push_owner(
    text: &mut Vec<u8>,
    burst: &Option<Burst>,
    version: &Option<Version>,
    words: &[u8],
) -> Result<(), NoMemory>
    ensures { OnOk result (text.new.items
        ≡ text.old.items ++ owner_words burst.now version.now words.now) }
{
    match (burst, version) {
        (Some(_), Some(_)) => Ok(()),
        _ => {
            push(text, b" ")?;
            push(text, words)
        }
    }
}

/// Adds transfers of a transaction that is called so.
#[tactic(auto, unfolding(crate::specs::Labels::transfer_words))]
fn push_transfer(
    text: &mut Vec<u8>,
    record: &[u8],
    burst: &Option<Burst>,
    version: &Option<Version>,
    words: &[u8],
) -> Result<(), NoMemory>
    ensures { OnOk result (text.new.items ≡ text.old.items
        ++ transfer_words record.now burst.now version.now words.now) }
{
    push(text, record)?;
    push_owner(text, burst, version, words)?;
    push_burst(text, burst)?;
    push_version(text, version)
}

/// Adds what the response of a read says.
#[tactic(auto, unfolding(crate::specs::Labels::resp_words))]
fn push_response(text: &mut Vec<u8>, resp: u8) -> Result<(), NoMemory>
    ensures { OnOk result (text.new.items ≡ text.old.items ++ resp_words resp) }
{
    push(text, low_word(resp))?;
    push(text, bit_word(passes_dirty(resp), b" PassDirty"))?;
    push(text, bit_word(is_shared(resp), b" IsShared"))
}

/// Adds an answer to a snoop.
#[tactic(auto, unfolding(crate::specs::Labels::answer_words))]
fn push_answer(text: &mut Vec<u8>, resp: u8, state: LineState) -> Result<(), NoMemory>
    ensures { OnOk result (text.new.items ≡ text.old.items ++ answer_words resp state) }
{
    push_named(text, b"CR", state_word(state))?;
    push(text, bit_word(transfers_data(resp), b" data"))?;
    push(text, bit_word(has_error(resp), b" error"))?;
    push(text, bit_word(passes_dirty(resp), b" PassDirty"))?;
    push(text, bit_word(is_shared(resp), b" IsShared"))?;
    push(text, bit_word(was_unique(resp), b" WasUnique"))
}

/// Adds what tells an event that belongs to the transaction, if it belongs to one; nothing of a
/// transfer.
fn push_event(
    text: &mut Vec<u8>,
    serves: &Option<Transaction>,
    event: &Event,
) -> Result<(), NoMemory>
    ensures { OnOk result (text.new.items ≡ text.old.items ++ event_label serves.now event.now) }
{
    let words = served_words(serves);
    match *event {
        Event::Ar {
            snoop,
            dom,
            bar,
            lock,
            ..
        } => push_with_lock(text, b"AR", read_words(snoop, dom, bar), lock),
        Event::R { .. } | Event::W { .. } | Event::Cd { .. } => Ok(()),
        Event::Rk { st, .. } => push_with_state(text, b"RK", words, st),
        Event::Aw {
            snoop,
            dom,
            bar,
            ..
        } => push_named(text, b"AW", write_words(snoop, dom, bar)),
        Event::B { resp, .. } => {
            push_named(text, b"B", words)?;
            push(text, low_word(resp))
        }
        Event::Wk { st, .. } => push_with_state(text, b"WK", words, st),
        Event::Ac { snoop, .. } => push_named(text, b"AC", snoop_words(snoop)),
        Event::Cr { resp, st, .. } => push_answer(text, resp, st),
        Event::G { port, .. } => push_of_port(text, b"G", port, words),
        Event::M { port, .. } => push_of_port(text, b"M", port, words),
        Event::S { st, .. } => push_named(text, b"S", state_word(st)),
        Event::L { w, x, .. } => {
            push(text, b"L word ")?;
            push_number(text, u64::from(w))?;
            push(text, bit_word(x, b" exclusive"))
        }
        Event::D { x, .. } => push_with_lock(text, b"D", b"store", x),
        Event::Op { k, res, .. } => {
            push(text, b"OP ")?;
            push_number(text, u64::from(k))?;
            push(text, b" ")?;
            push(text, outcome_word(res))
        }
        Event::Mem { .. } => push(text, b"MEM"),
    }
}

/// Adds the label of a row.
fn push_label(text: &mut Vec<u8>, row: &Row) -> Result<(), NoMemory>
    ensures { OnOk result (text.new.items ≡ text.old.items
        ++ label_of row.now.burst row.now.version row.now.serves row.now.event) }
{
    let words = served_words(&row.serves);
    match row.event {
        Event::R { resp, .. } => {
            push_transfer(text, b"R", &row.burst, &row.version, words)?;
            push_response(text, resp)
        }
        Event::W { .. } => push_transfer(text, b"W", &row.burst, &row.version, words),
        Event::Cd { .. } => {
            push(text, b"CD")?;
            push_burst(text, &row.burst)?;
            push_version(text, &row.version)
        }
        _ => {
            push_event(text, &row.serves, &row.event)?;
            push_version(text, &row.version)
        }
    }
}

/// The label of a row.
///
/// # Errors
///
/// `NoMemory` where there is none for the words.
pub(crate) fn label(alloc: Global, row: &Row) -> Result<Vec<u8>, NoMemory>
    ensures { IfOk result (λ words. words.items ≡ label row.now) }
{
    let mut words = Vec::new(alloc);
    push_label(&mut words, row)?;
    Ok(words)
}
