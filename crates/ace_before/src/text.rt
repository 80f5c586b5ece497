// The text that tells what there is of a line before an event.
ghost use Rattle.std.specs.Prelude.{◌≡◌, ◌++◌, ◌==◌, OnOk};
ghost use Rattle.std.specs.List.{list_all};
ghost use Rattle.ace_event.specs.Text.{hex_text};
ghost use Rattle.ace_before.specs.Rows.{is_idle};
ghost use Rattle.ace_before.specs.Texts.{before_start, before_words, head_line, is_untouched, is_zero, line_text, rows, untouched_end, untouched_line, untouched_start};

use crate::before::{LineBefore, PortBefore};
use crate::line_rows::{push_grant, push_memory, push_passed};
use crate::port_rows::{is_idle, push_ports};
use ace_event::{Header, Line};
use ace_io::NoMemory;
use ace_malformed::{push, push_number};
use ace_side_facts::SideFacts;
use ace_writer::TextBuf;
use std::alloc::Global;

/// The line has no byte but zeros.
fn is_zero(line: &Line) -> bool
    ensures { result ≡ is_zero line.now }
{
    line.words.iter().all(|word| *word == 0)
}

/// None of the ports has anything to do with the line.
fn is_each_idle(ports: &[PortBefore]) -> bool
    ensures { result ≡ list_all is_idle ports.now }
{
    ports.iter().all(|x| is_idle(x))
}

/// No port has anything to do with the line, none is granted it, and memory has zeros.
#[tactic(auto, unfolding(crate::specs::Texts::is_untouched))]
fn is_untouched(before: &LineBefore) -> bool
    ensures { result ≡ is_untouched before.now }
{
    is_each_idle(&before.ports) && before.granted.is_none() && is_zero(&before.memory)
}

/// Adds the address of a line.
fn push_address(text: &mut Vec<u8>, line: u32) -> Result<(), NoMemory>
    ensures { OnOk result (text.new.items ≡ text.old.items ++ hex_text 8 line) }
{
    let mut digits = TextBuf::empty();
    digits.push_digits(8, u128::from(line));
    push(text, digits.bytes())
}

/// What stands before the number of the event.
#[tactic(auto, unfolding(crate::specs::Texts::before_start))]
fn before_start() -> &'static [u8]
    ensures { result.now ≡ before_start }
{
    b"  Before event "
}

/// Adds what is told before which event.
#[tactic(auto, unfolding(crate::specs::Texts::before_words))]
fn push_before(text: &mut Vec<u8>, index: u64) -> Result<(), NoMemory>
    ensures { OnOk result (text.new.items ≡ text.old.items ++ before_words index) }
{
    push(text, before_start())?;
    push_number(text, index)
}

/// What is told before the address of a line to which nothing has come.
#[tactic(auto, unfolding(crate::specs::Texts::untouched_start))]
fn untouched_start() -> &'static [u8]
    ensures { result.now ≡ untouched_start }
{
    b" no port holds line "
}

/// What is told behind it.
#[tactic(auto, unfolding(crate::specs::Texts::untouched_end))]
fn untouched_end() -> &'static [u8]
    ensures { result.now ≡ untouched_end }
{
    b"; it has no grant, and memory has zeros there.\n"
}

/// Adds what is told of such a line.
#[tactic(auto, unfolding(crate::specs::Texts::untouched_line))]
fn push_untouched(text: &mut Vec<u8>, index: u64, line: u32) -> Result<(), NoMemory>
    ensures { OnOk result (text.new.items ≡ text.old.items ++ untouched_line index line) }
{
    push_before(text, index)?;
    push(text, untouched_start())?;
    push_address(text, line)?;
    push(text, untouched_end())
}

/// Adds the head of the rows.
#[tactic(auto, unfolding(crate::specs::Texts::head_line))]
fn push_head(text: &mut Vec<u8>, index: u64, line: u32) -> Result<(), NoMemory>
    ensures { OnOk result (text.new.items ≡ text.old.items ++ head_line index line) }
{
    push_before(text, index)?;
    push(text, b", line ")?;
    push_address(text, line)?;
    push(text, b"\n")
}

/// Adds the rows.
#[tactic(auto, unfolding(crate::specs::Texts::rows))]
fn push_rows(
    alloc: Global,
    text: &mut Vec<u8>,
    facts: &SideFacts,
    header: &Header,
    before: &LineBefore,
) -> Result<(), NoMemory>
    ensures { OnOk result (text.new.items
        ≡ text.old.items ++ rows facts.now header.now before.now) }
{
    push_ports(alloc, text, facts, header, 0, &before.ports)?;
    push_memory(text, before)?;
    push_passed(text, &before.passed)?;
    push_grant(text, before)
}

/// Adds what is told of the line before the event of this number, in a trace with this header, with
/// the names of ports that are known.
///
/// # Errors
///
/// `NoMemory` where there is none for the longer text.
#[tactic(auto, unfolding(crate::specs::Texts::line_text))]
pub fn push_line_before(
    alloc: Global,
    text: &mut Vec<u8>,
    facts: &SideFacts,
    index: u64,
    header: &Header,
    before: &LineBefore,
) -> Result<(), NoMemory>
    ensures { OnOk result (text.new.items
        ≡ text.old.items ++ line_text facts.now index header.now before.now) }
{
    if is_untouched(before) {
        push_untouched(text, index, before.line)
    } else {
        push_head(text, index, before.line)?;
        push_rows(alloc, text, facts, header, before)
    }
}
