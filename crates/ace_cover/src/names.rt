// What points are called.
ghost use Rattle.std.specs.Prelude.{◌≡◌, ◌++◌, codes, decimal, OnOk};
ghost use Rattle.ace_cover.specs.Names.{answer_text, bar_word, dirty_word, failed_word, from_text, move_text, name_of, passed_word, port_word, read_end_name, shared_word, transaction_name};
ghost use Rattle.ace_event.specs.Text.{hex_text, state_text};

use crate::push::{push, push_number, push_three, push_two};
use crate::situations::situation_name;
use ace_codes::{ArKind, LineState};
use ace_io::NoMemory;
use ace_points::Point;
use ace_words::{read_word, snoop_word, state_word, write_word};
use ace_writer::TextBuf;

fn port_word(ace: bool) -> &'static [u8]
    ensures { result.now ≡ port_word ace }
{
    if ace { b"ACE " } else { b"ACE-Lite " }
}

fn passed_word(passes: bool) -> &'static [u8]
    ensures { result.now ≡ passed_word passes }
{
    if passes { b"passed" } else { b"failed" }
}

fn bar_word(bar: u8) -> &'static [u8]
    ensures { result.now ≡ bar_word bar }
{
    if bar == 1 {
        b"memory"
    } else {
        b"synchronisation"
    }
}

fn failed_word(failed: bool) -> &'static [u8]
    ensures { result.now ≡ failed_word failed }
{
    if failed { b" failed" } else { b"" }
}

fn shared_word(shared: bool) -> &'static [u8]
    ensures { result.now ≡ shared_word shared }
{
    if shared {
        b", IsShared 1"
    } else {
        b", IsShared 0"
    }
}

fn dirty_word(dirty: bool) -> &'static [u8]
    ensures { result.now ≡ dirty_word dirty }
{
    if dirty {
        b", PassDirty 1"
    } else {
        b", PassDirty 0"
    }
}

/// Adds a change of state.
fn push_move(text: &mut Vec<u8>, from: LineState, to: LineState) -> Result<(), NoMemory>
    ensures { OnOk result (text.new.items ≡ text.old.items ++ move_text from to) }
{
    push_three(text, state_word(from), b" -> ", state_word(to))
}

/// Adds what comes from a state.
fn push_from(text: &mut Vec<u8>, what: &[u8], held: LineState) -> Result<(), NoMemory>
    ensures { OnOk result (text.new.items ≡ text.old.items ++ from_text what.now held) }
{
    push_three(text, what, b" from ", state_word(held))
}

/// Adds the state in which something ends.
fn push_end(text: &mut Vec<u8>, end: LineState) -> Result<(), NoMemory>
    ensures { OnOk result (text.new.items
        ≡ text.old.items ++ (codes " -> " ++ state_text end)) }
{
    push_two(text, b" -> ", state_word(end))
}

/// Adds two hexadecimal digits.
fn push_hex(text: &mut Vec<u8>, number: u8) -> Result<(), NoMemory>
    ensures { OnOk result (text.new.items ≡ text.old.items ++ hex_text 2 number) }
{
    let mut digits = TextBuf::empty();
    digits.push_digits(2, u128::from(number));
    push(text, digits.bytes())
}

/// Adds what an answer says.
fn push_answer(text: &mut Vec<u8>, resp: u8, next: LineState) -> Result<(), NoMemory>
    ensures { OnOk result (text.new.items ≡ text.old.items ++ answer_text resp next) }
{
    push(text, b": ")?;
    push_hex(text, resp)?;
    push_two(text, b" ", state_word(next))
}

/// Adds a number behind a word.
fn push_numbered(text: &mut Vec<u8>, word: &[u8], number: u8) -> Result<(), NoMemory>
    ensures { OnOk result (text.new.items ≡ text.old.items ++ (word.now ++ decimal number)) }
{
    push(text, word)?;
    push_number(text, u64::from(number))
}

/// Adds a kind of transaction, or what is special of one.
fn push_transaction(text: &mut Vec<u8>, point: &Point) -> Result<(), NoMemory>
    ensures { OnOk result (text.new.items ≡ text.old.items ++ transaction_name point.now) }
{
    match *point {
        Point::Read { ace, kind } => push_two(text, port_word(ace), read_word(kind)),
        Point::Write { ace, kind } => push_two(text, port_word(ace), write_word(kind)),
        Point::Exclusive { kind } => push_two(text, b"ACE exclusive ", read_word(kind)),
        Point::ExclusiveStore { passes } => {
            push_two(text, b"ACE exclusive CleanUnique ", passed_word(passes))
        }
        Point::Barrier { ace, bar } => {
            push_three(text, port_word(ace), b"Barrier ", bar_word(bar))
        }
        Point::SecondPart => push(text, b"ACE DVM Message of two parts"),
        Point::Sync => push(text, b"ACE DVM Sync"),
        Point::Bar { bar } => push_numbered(text, b"AxBAR ", bar),
        Point::Domain { domain } => push_numbered(text, b"AxDOMAIN ", domain),
        _ => Ok(()),
    }
}

/// Adds what the end of a read is called.
fn push_read_end(
    text: &mut Vec<u8>,
    kind: ArKind,
    failed: bool,
    held: LineState,
    bits: (bool, bool),
    end: LineState,
) -> Result<(), NoMemory>
    ensures { OnOk result (text.new.items
        ≡ text.old.items ++ read_end_name kind failed held bits.0 bits.1 end) }
{
    push_two(text, read_word(kind), failed_word(failed))?;
    push_two(text, b" from ", state_word(held))?;
    push_two(text, shared_word(bits.0), dirty_word(bits.1))?;
    push_end(text, end)
}

/// Adds what the point is called in its group.
///
/// # Errors
///
/// `NoMemory` where there is none for the longer text.
pub fn push_name(text: &mut Vec<u8>, point: &Point) -> Result<(), NoMemory>
    ensures { OnOk result (text.new.items ≡ text.old.items ++ name_of point.now) }
{
    match *point {
        Point::ReadStart { kind, held } => push_from(text, read_word(kind), held),
        Point::WriteStart { kind, held } => push_from(text, write_word(kind), held),
        Point::ReadEnd {
            kind,
            failed,
            held,
            shared,
            dirty,
            end,
        } => push_read_end(text, kind, failed, held, (shared, dirty), end),
        Point::WriteEnd { kind, held, end } => {
            push_from(text, write_word(kind), held)?;
            push_end(text, end)
        }
        Point::Answer {
            kind,
            held,
            resp,
            next,
        }
        | Point::AnswerWithUpdate {
            kind,
            held,
            resp,
            next,
        } => {
            push_from(text, snoop_word(kind), held)?;
            push_answer(text, resp, next)
        }
        Point::Silent { from, to } => push_move(text, from, to),
        Point::Rule { rule } => push_numbered(text, b"K", rule),
        Point::Met { situation } => push(text, situation_name(situation)),
        _ => push_transaction(text, point),
    }
}
