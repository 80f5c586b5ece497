// What there was of a line before an event.
ghost use Rattle.std.specs.Prelude.{◌≡◌, ◌+◌, ◌≤◌, ◌++◌, OnOk, length};
ghost use Rattle.ace_explain_json.specs.Events.{before_json, grant_json, line_json, ports_json, state_json, states_json};

use crate::members::push_quoted;
use ace_before::{LineBefore, PortBefore, push_grant_text};
use ace_codes::LineState;
use ace_event::Header;
use ace_io::NoMemory;
use ace_malformed::{push, push_number};
use ace_model::kinds::is_ace;
use ace_words::state_word;
use std::alloc::Global;

/// Adds the state in which a port has the line, behind a comma but for the first one.
#[tactic(auto, unfolding(crate::specs::Events::state_json))]
fn push_state(text: &mut Vec<u8>, first: bool, port: u8, state: LineState) -> Result<(), NoMemory>
    ensures { OnOk result (text.new.items ≡ text.old.items ++ state_json first port state) }
{
    if first {
        push(text, b"\"")?;
    } else {
        push(text, b",\"")?;
    }
    push_number(text, u64::from(port))?;
    push(text, b"\":\"")?;
    push(text, state_word(state))?;
    push(text, b"\"")
}

/// Adds the states of the ACE ports from one on.
#[tactic(auto, unfolding(crate::specs::Events::states_json))]
fn push_states(
    text: &mut Vec<u8>,
    header: &Header,
    first: bool,
    port: u8,
    ports: &[PortBefore],
) -> Result<(), NoMemory>
    requires { port + length ports.now ≤ 255 }
    ensures { OnOk result (text.new.items
        ≡ text.old.items ++ states_json header.now first port ports.now) }
{
    match ports {
        [] => Ok(()),
        [x, rest @ ..] => {
            if is_ace(header, port) {
                push_state(text, first, port, x.state)?;
                push_states(text, header, false, port + 1, rest)
            } else {
                push_states(text, header, first, port + 1, rest)
            }
        }
    }
}

/// Adds what is told of the grant, or that there is none.
#[tactic(auto, unfolding(crate::specs::Events::grant_json))]
fn push_grant(alloc: Global, text: &mut Vec<u8>, before: &LineBefore) -> Result<(), NoMemory>
    ensures { OnOk result (text.new.items ≡ text.old.items ++ grant_json before.now) }
{
    match before.granted {
        None => push(text, b"null"),
        Some(_) => {
            let mut words = Vec::new(alloc);
            push_grant_text(&mut words, before)?;
            push_quoted(text, words.as_slice())
        }
    }
}

/// Adds the states of the ports.
#[tactic(auto, unfolding(crate::specs::Events::ports_json))]
fn push_ports(text: &mut Vec<u8>, header: &Header, before: &LineBefore) -> Result<(), NoMemory>
    ensures { OnOk result (text.new.items ≡ text.old.items ++ ports_json header.now before.now) }
{
    push(text, b",\"states\":{")?;
    push_states(text, header, true, 0, &before.ports)
}

/// Adds the states of the ports, and the grant.
#[tactic(auto, unfolding(crate::specs::Events::line_json))]
fn push_line(
    alloc: Global,
    text: &mut Vec<u8>,
    header: &Header,
    before: &LineBefore,
) -> Result<(), NoMemory>
    ensures { OnOk result (text.new.items ≡ text.old.items ++ line_json header.now before.now) }
{
    push_ports(text, header, before)?;
    push(text, b"},\"grant\":")?;
    push_grant(alloc, text, before)
}

/// Adds what there was of the line of the event, if it is about a line.
#[tactic(auto, unfolding(crate::specs::Events::before_json))]
pub(crate) fn push_before(
    alloc: Global,
    text: &mut Vec<u8>,
    header: &Header,
    before: &Option<LineBefore>,
) -> Result<(), NoMemory>
    ensures { OnOk result (text.new.items
        ≡ text.old.items ++ before_json header.now before.now) }
{
    match before {
        None => push(text, b",\"states\":null,\"grant\":null"),
        Some(before) => push_line(alloc, text, header, before),
    }
}
