// The rows of memory and of the grant.
ghost use Rattle.std.specs.Prelude.{◌≡◌, ◌≤◌, ◌++◌, OnOk, length, not};
ghost use Rattle.std.specs.List.{count_by, list_any};
ghost use Rattle.ace_before.specs.Rows.{answer_part, answered_count, grant_name, grant_row, grant_since, grant_start, grant_text, grant_words, granted_part, is_answered, is_behind, memory_name, memory_row, memory_words, passed_name, passed_row, read_part, snooped_count, snoops_part, step_part, transfers_part, wait_part, write_part};
ghost use Rattle.ace_model.specs.DirtyPlace.{may_lose_data};
ghost use Rattle.ace_model.specs.Trace.{is_some_and};
ghost use Rattle.ace_model.specs.Transactions.{read_kind};
ghost use Rattle.ace_portck.specs.declared.target.Progress.{Progress as Pending};
ghost use Rattle.ace_before.specs.declared.before.PortBefore.{PortBefore as AtPort};
ghost use Rattle.ace_tables.specs.States.{is_dirty};

use crate::before::{LineBefore, PortBefore, SnoopBefore};
use crate::port_rows::is_unsnooped;
use crate::words::{push_called, push_short_line, push_written};
use ace_codes::{ArKind, AwKind};
use ace_event::{Channel, Line};
use ace_io::NoMemory;
use ace_lineck::snoop_of;
use ace_malformed::{push, push_number};
use ace_model::kinds::{beats_of, read_kind, write_kind};
use ace_portck::Progress;
use ace_tables::is_dirty;

/// The granted transaction replaces the whole line, or gives up what is newer than memory.
fn may_lose_data(granted: &Option<Progress>) -> bool
    ensures { result ≡ is_some_and granted.now (λ (x : Pending). may_lose_data x.transaction) }
{
    match granted {
        Some(x) => {
            matches!(
                read_kind(&x.transaction),
                Some(ArKind::MakeUnique | ArKind::MakeInvalid)
            ) || matches!(write_kind(&x.transaction), Some(AwKind::WriteLineUnique))
        }
        None => false,
    }
}

/// Some port has the line dirty.
fn is_some_dirty(ports: &[PortBefore]) -> bool
    ensures { result ≡ list_any (λ (x : AtPort). is_dirty x.state) ports.now }
{
    ports.iter().any(|x| is_dirty(x.state))
}

/// Data newer than memory may be elsewhere.
#[tactic(auto, unfolding(crate::specs::Rows::is_behind))]
fn is_behind(before: &LineBefore) -> bool
    ensures { result ≡ is_behind before.now }
{
    is_some_dirty(&before.ports) || before.passed.is_some() || may_lose_data(&before.granted)
}

/// What is told of memory behind its data.
#[tactic(auto, unfolding(crate::specs::Rows::memory_words))]
fn memory_words(behind: bool) -> &'static [u8]
    ensures { result.now ≡ memory_words behind }
{
    if behind {
        b"; newer data may be elsewhere"
    } else {
        b"; current"
    }
}

/// The name of the row of memory.
#[tactic(auto, unfolding(crate::specs::Rows::memory_name))]
fn memory_name() -> &'static [u8]
    ensures { result.now ≡ memory_name }
{
    b"    memory       "
}

/// Adds the row of memory.
#[tactic(auto, unfolding(crate::specs::Rows::memory_row))]
pub(crate) fn push_memory(text: &mut Vec<u8>, before: &LineBefore) -> Result<(), NoMemory>
    ensures { OnOk result (text.new.items ≡ text.old.items ++ memory_row before.now) }
{
    push(text, memory_name())?;
    push_short_line(text, &before.memory)?;
    push_written(text, before.written)?;
    push(text, memory_words(is_behind(before)))?;
    push(text, b"\n")
}

/// The name of the row of passed data.
#[tactic(auto, unfolding(crate::specs::Rows::passed_name))]
fn passed_name() -> &'static [u8]
    ensures { result.now ≡ passed_name }
{
    b"    passed       "
}

/// Adds the row of passed data.
#[tactic(auto, unfolding(crate::specs::Rows::passed_row))]
pub(crate) fn push_passed(text: &mut Vec<u8>, passed: &Option<Line>) -> Result<(), NoMemory>
    ensures { OnOk result (text.new.items ≡ text.old.items ++ passed_row passed.now) }
{
    match passed {
        None => Ok(()),
        Some(line) => {
            push(text, passed_name())?;
            push_short_line(text, line)?;
            push(text, b"\n")
        }
    }
}

/// The snoop of a port is answered.
fn is_answered(snoop: SnoopBefore) -> bool
    ensures { result ≡ is_answered snoop }
{
    matches!(snoop, SnoopBefore::Short | SnoopBefore::Answered)
}

/// How many of the ports were snooped.
fn snooped_count(ports: &[PortBefore]) -> usize
    ensures count { result ≡ snooped_count ports.now }
    ensures few { result ≤ length ports.now }
{
    match ports {
        [] => 0,
        [x, rest @ ..] => usize::from(!is_unsnooped(x.snoop)) + snooped_count(rest),
    }
}

/// How many of them answered.
fn answered_count(ports: &[PortBefore]) -> usize
    ensures count { result ≡ answered_count ports.now }
    ensures few { result ≤ length ports.now }
{
    match ports {
        [] => 0,
        [x, rest @ ..] => usize::from(is_answered(x.snoop)) + answered_count(rest),
    }
}

/// Adds what is told of the snoops of a transaction.
#[tactic(auto, unfolding(crate::specs::Rows::snoops_part))]
fn push_snoops(
    text: &mut Vec<u8>,
    snooped: usize,
    answered: usize,
    snoops: bool,
) -> Result<(), NoMemory>
    ensures { OnOk result (text.new.items
        ≡ text.old.items ++ snoops_part snooped answered snoops) }
{
    if snooped == 0 {
        return if snoops {
            push(text, b"; no snoop sent")
        } else {
            Ok(())
        };
    }
    push(text, b"; ")?;
    push_number(text, answered as u64)?;
    push(text, b" of ")?;
    push_number(text, snooped as u64)?;
    push(text, b" snoops answered")
}

/// Adds how many transfers a read has had.
#[tactic(auto, unfolding(crate::specs::Rows::transfers_part))]
fn push_transfers(text: &mut Vec<u8>, transfers: u8, beats: u8) -> Result<(), NoMemory>
    ensures { OnOk result (text.new.items ≡ text.old.items ++ transfers_part transfers beats) }
{
    push(text, b"; ")?;
    push_number(text, u64::from(transfers))?;
    push(text, b" of ")?;
    push_number(text, u64::from(beats))?;
    push(text, b" transfers")
}

/// Whether a transaction is answered.
#[tactic(auto, unfolding(crate::specs::Rows::answer_part))]
fn answer_words(complete: bool) -> &'static [u8]
    ensures { result.now ≡ answer_part complete }
{
    if complete {
        b"; answered"
    } else {
        b"; not answered"
    }
}

/// Adds how far a read of the kind has come.
#[tactic(auto, unfolding(crate::specs::Rows::read_part))]
fn push_read(text: &mut Vec<u8>, kind: ArKind, x: &Progress) -> Result<(), NoMemory>
    ensures { OnOk result (text.new.items ≡ text.old.items ++ read_part kind x.now) }
{
    let beats = beats_of(kind);
    if beats == 1 {
        push(text, answer_words(x.complete))
    } else {
        push_transfers(text, x.transfers, beats)
    }
}

/// Whether memory is written for a write.
#[tactic(auto, unfolding(crate::specs::Rows::write_part))]
fn write_words(written: bool) -> &'static [u8]
    ensures { result.now ≡ write_part written }
{
    if written {
        b"; memory is written"
    } else {
        b"; memory is not written"
    }
}

/// Adds how far the transaction has come.
fn push_step(text: &mut Vec<u8>, x: &Progress) -> Result<(), NoMemory>
    ensures { OnOk result (text.new.items
        ≡ text.old.items ++ step_part (read_kind x.now.transaction) x.now) }
{
    match read_kind(&x.transaction) {
        Some(kind) => push_read(text, kind, x),
        None => push(text, write_words(x.written)),
    }
}

/// What a complete transaction waits for.
#[tactic(auto, unfolding(crate::specs::Rows::wait_part))]
fn wait_words(x: &Progress) -> &'static [u8]
    ensures { result.now ≡ wait_part x.now }
{
    if !x.complete {
        return b"";
    }
    match x.transaction.chan {
        Channel::Read => b"; waits for its RK",
        Channel::Write => b"; waits for its WK",
    }
}

/// Adds what is told of the granted transaction.
#[tactic(auto, unfolding(crate::specs::Rows::granted_part))]
fn push_granted(text: &mut Vec<u8>, ports: &[PortBefore], x: &Progress) -> Result<(), NoMemory>
    ensures { OnOk result (text.new.items ≡ text.old.items ++ granted_part ports.now x.now) }
{
    push(text, b"port ")?;
    push_number(text, u64::from(x.transaction.port))?;
    push(text, b" ")?;
    push_called(text, &x.transaction)?;
    let snoops = snoop_of(&x.transaction).is_some();
    push_snoops(text, snooped_count(ports), answered_count(ports), snoops)?;
    push_step(text, x)?;
    push(text, wait_words(x))
}

/// What stands before the number of the grant.
#[tactic(auto, unfolding(crate::specs::Rows::grant_since))]
fn grant_since() -> &'static [u8]
    ensures { result.now ≡ grant_since }
{
    b"since event "
}

/// Adds which event is the grant.
#[tactic(auto, unfolding(crate::specs::Rows::grant_start))]
fn push_grant_start(text: &mut Vec<u8>, number: u64) -> Result<(), NoMemory>
    ensures { OnOk result (text.new.items ≡ text.old.items ++ grant_start number) }
{
    push(text, grant_since())?;
    push_number(text, number)?;
    push(text, b": ")
}

/// Adds what is told of the grant.
fn push_grant_words(
    text: &mut Vec<u8>,
    ports: &[PortBefore],
    number: u64,
    granted: &Option<Progress>,
) -> Result<(), NoMemory>
    ensures { OnOk result (text.new.items
        ≡ text.old.items ++ grant_words ports.now number granted.now) }
{
    match granted {
        None => push(text, b"none"),
        Some(x) => {
            push_grant_start(text, number)?;
            push_granted(text, ports, x)
        }
    }
}

/// Adds what is told of the grant of the line.
///
/// # Errors
///
/// `NoMemory` where there is none for the longer text.
#[tactic(auto, unfolding(crate::specs::Rows::grant_text))]
pub fn push_grant_text(text: &mut Vec<u8>, before: &LineBefore) -> Result<(), NoMemory>
    ensures { OnOk result (text.new.items ≡ text.old.items ++ grant_text before.now) }
{
    push_grant_words(text, &before.ports, before.grant, &before.granted)
}

/// The name of the row of the grant.
#[tactic(auto, unfolding(crate::specs::Rows::grant_name))]
fn grant_name() -> &'static [u8]
    ensures { result.now ≡ grant_name }
{
    b"    grant        "
}

/// Adds the row of the grant.
#[tactic(auto, unfolding(crate::specs::Rows::grant_row))]
pub(crate) fn push_grant(text: &mut Vec<u8>, before: &LineBefore) -> Result<(), NoMemory>
    ensures { OnOk result (text.new.items ≡ text.old.items ++ grant_row before.now) }
{
    push(text, grant_name())?;
    push_grant_text(text, before)?;
    push(text, b"\n")
}
