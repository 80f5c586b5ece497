// The rows of the ports.
ghost use Rattle.std.specs.Prelude.{◌≡◌, ◌+◌, ◌≤◌, ◌++◌, OnOk, length};
ghost use Rattle.ace_before.specs.Rows.{copy_part, is_idle, is_unsnooped, outstanding_words, own_part, head_of, port_label, port_name, port_row, port_rows, state_part};

use crate::before::{PortBefore, SnoopBefore};
use crate::words::{push_called, push_short_line, push_since, snoop_words};
use ace_codes::LineState;
use ace_event::{Header, Line};
use ace_io::NoMemory;
use ace_malformed::{push, push_number};
use ace_model::kinds::is_ace;
use ace_portck::Progress;
use ace_side_facts::SideFacts;
use ace_tables::is_invalid;
use ace_words::state_word;
use std::alloc::Global;

/// How wide the heads of rows are.
const COLUMNS: usize = 13;

/// The port wasn't snooped.
pub(crate) fn is_unsnooped(snoop: SnoopBefore) -> bool
    ensures { result ≡ is_unsnooped snoop }
{
    matches!(snoop, SnoopBefore::Unsnooped)
}

/// The port doesn't hold the line, and has nothing to do with it.
pub(crate) fn is_idle(x: &PortBefore) -> bool
    ensures { result ≡ is_idle x.now }
{
    is_invalid(x.state) && x.own.is_none() && is_unsnooped(x.snoop)
}

/// Adds what a port that holds the line has of its data.
#[tactic(auto, unfolding(crate::specs::Rows::copy_part))]
fn push_copy(text: &mut Vec<u8>, state: LineState, copy: &Line) -> Result<(), NoMemory>
    ensures { OnOk result (text.new.items ≡ text.old.items ++ copy_part state copy.now) }
{
    if is_invalid(state) {
        return Ok(());
    }
    push(text, b"; ")?;
    push_short_line(text, copy)
}

/// Adds the state of an ACE port, since when, and its data.
#[tactic(auto, unfolding(crate::specs::Rows::state_part))]
fn push_state(text: &mut Vec<u8>, ace: bool, x: &PortBefore) -> Result<(), NoMemory>
    ensures { OnOk result (text.new.items ≡ text.old.items ++ state_part ace x.now) }
{
    if ace {
        push(text, state_word(x.state))?;
        push_since(text, x.since)?;
        push_copy(text, x.state, &x.copy)
    } else {
        push(text, b"ACE-Lite")
    }
}

/// What stands before an outstanding transaction.
#[tactic(auto, unfolding(crate::specs::Rows::outstanding_words))]
fn outstanding_words() -> &'static [u8]
    ensures { result.now ≡ outstanding_words }
{
    b"; outstanding: "
}

/// Adds what is outstanding of the port on the line.
#[tactic(auto, unfolding(crate::specs::Rows::own_part))]
fn push_own(text: &mut Vec<u8>, own: &Option<Progress>) -> Result<(), NoMemory>
    ensures { OnOk result (text.new.items ≡ text.old.items ++ own_part own.now) }
{
    match own {
        None => Ok(()),
        Some(x) => {
            push(text, outstanding_words())?;
            push_called(text, &x.transaction)
        }
    }
}

/// Adds what a port is called: its number, and its name if it has one.
#[tactic(auto, unfolding(crate::specs::Rows::port_label))]
fn push_label(text: &mut Vec<u8>, facts: &SideFacts, port: u8) -> Result<(), NoMemory>
    ensures { OnOk result (text.new.items ≡ text.old.items ++ port_label facts.now port) }
{
    push(text, b"port ")?;
    push_number(text, u64::from(port))?;
    match facts.name(port) {
        None => Ok(()),
        Some(name) => {
            push(text, b" ")?;
            push(text, name)
        }
    }
}

/// Adds the label as the head of a row.
#[tactic(auto, unfolding(crate::specs::Rows::head_of))]
fn push_head(text: &mut Vec<u8>, label: &[u8]) -> Result<(), NoMemory>
    ensures { OnOk result (text.new.items ≡ text.old.items ++ head_of label.now) }
{
    let spaces = [b' '; COLUMNS];
    push(text, b"    ")?;
    push(text, label)?;
    push(text, &spaces[..COLUMNS.saturating_sub(label.len()).max(2)])
}

/// Adds the head of the row of a port.
#[tactic(auto, unfolding(crate::specs::Rows::port_name))]
fn push_name(alloc: Global, text: &mut Vec<u8>, facts: &SideFacts, port: u8) -> Result<(), NoMemory>
    ensures { OnOk result (text.new.items ≡ text.old.items ++ port_name facts.now port) }
{
    let mut label = Vec::new(alloc);
    push_label(&mut label, facts, port)?;
    push_head(text, label.as_slice())
}

/// Adds the row of a port.
#[tactic(auto, unfolding(crate::specs::Rows::port_row))]
fn push_port(
    alloc: Global,
    text: &mut Vec<u8>,
    facts: &SideFacts,
    header: &Header,
    port: u8,
    x: &PortBefore,
) -> Result<(), NoMemory>
    ensures { OnOk result (text.new.items
        ≡ text.old.items ++ port_row facts.now header.now port x.now) }
{
    if is_idle(x) {
        return Ok(());
    }
    push_name(alloc, text, facts, port)?;
    push_state(text, is_ace(header, port), x)?;
    push_own(text, &x.own)?;
    push(text, snoop_words(x.snoop))?;
    push(text, b"\n")
}

/// Adds the rows of the ports from one on.
#[tactic(auto, unfolding(crate::specs::Rows::port_rows))]
pub(crate) fn push_ports(
    alloc: Global,
    text: &mut Vec<u8>,
    facts: &SideFacts,
    header: &Header,
    port: u8,
    ports: &[PortBefore],
) -> Result<(), NoMemory>
    requires { port + length ports.now ≤ 255 }
    ensures { OnOk result (text.new.items
        ≡ text.old.items ++ port_rows facts.now header.now port ports.now) }
{
    match ports {
        [] => Ok(()),
        [x, rest @ ..] => {
            push_port(alloc, text, facts, header, port, x)?;
            push_ports(alloc, text, facts, header, port + 1, rest)
        }
    }
}
