// The sentences that tell what events do.
ghost use Rattle.std.specs.Prelude.{◌≡◌, ◌++◌, OnOk};
ghost use Rattle.ace_event_words.specs.Sentences.{acknowledges_words, answered_words, answers_to, answers_words, asked_words, asks_words, bit_words, brings_no_line, deed_words, gets_words, is_dataless, its_words, kind_words, line_bits, loads_words, nth_words, port_does, received_words, record_column, retires_words, sends_snooped_words, sends_words, served_words, snoop_data, snooped_words, state_words, stores_words, transfers_words};

use crate::deed::{Deed, Kind};
use crate::kind_words::{read_words, snoop_words, write_words};
use crate::phrase::{Phrase, phrase_words};
use crate::small_words::{outcome_word, resp_word};
use crate::transfers::Transfers;
use ace_codes::{
    ArKind, LineState, has_error, is_shared, passes_dirty, read_ar, transfers_data, was_unique,
};
use ace_event::{Channel, Outcome};
use ace_io::NoMemory;
use ace_malformed::{push, push_number};
use ace_model::kinds::beats_of;
use ace_words::state_word;

/// The record of the event, in three columns, with a space behind.
pub fn record_column(deed: &Deed) -> &'static [u8]
    ensures { result.now ≡ record_column deed.now }
{
    match deed {
        Deed::Ar { .. } => b"AR  ",
        Deed::R { .. } => b"R   ",
        Deed::Rk { .. } => b"RK  ",
        Deed::Aw { .. } => b"AW  ",
        Deed::W { .. } => b"W   ",
        Deed::B { .. } => b"B   ",
        Deed::Wk { .. } => b"WK  ",
        Deed::Ac { .. } => b"AC  ",
        Deed::Cr { .. } => b"CR  ",
        Deed::Cd { .. } => b"CD  ",
        Deed::G { .. } => b"G   ",
        Deed::M { .. } => b"M   ",
        Deed::S { .. } => b"S   ",
        Deed::L { .. } => b"L   ",
        Deed::D { .. } => b"D   ",
        Deed::Op { .. } => b"OP  ",
        Deed::Mem => b"MEM ",
    }
}

/// What a transaction is called.
fn kind_words(kind: &Kind) -> &'static [u8]
    ensures { result.now ≡ kind_words kind.now }
{
    match kind.chan {
        Channel::Read => read_words(kind.snoop, kind.dom, kind.bar),
        Channel::Write => write_words(kind.snoop, kind.dom, kind.bar),
    }
}

/// Adds the port, and what it does.
#[tactic(auto, unfolding(crate::specs::Sentences::port_does))]
fn push_does(text: &mut Vec<u8>, port: u8, phrase: Phrase) -> Result<(), NoMemory>
    ensures { OnOk result (text.new.items ≡ text.old.items ++ port_does port phrase) }
{
    push(text, b"port ")?;
    push_number(text, u64::from(port))?;
    push(text, phrase_words(phrase))
}

/// Adds the phrase, where the bit is 1.
#[tactic(auto, unfolding(crate::specs::Sentences::bit_words))]
fn push_bit(text: &mut Vec<u8>, bit: bool, phrase: Phrase) -> Result<(), NoMemory>
    ensures { OnOk result (text.new.items ≡ text.old.items ++ bit_words bit phrase) }
{
    if bit {
        push(text, phrase_words(phrase))?;
    }
    Ok(())
}

/// Adds the transaction of the port that the event belongs to, or what stands for it where there
/// is none.
#[tactic(auto, unfolding(crate::specs::Sentences::its_words))]
fn push_its(text: &mut Vec<u8>, other: &[u8], kind: &Option<Kind>) -> Result<(), NoMemory>
    ensures { OnOk result (text.new.items ≡ text.old.items ++ its_words other.now kind.now) }
{
    match kind {
        Some(kind) => {
            push(text, b"its ")?;
            push(text, kind_words(kind))
        }
        None => push(text, other),
    }
}

/// Adds the transaction that the port asks for, with its identifier.
#[tactic(auto, unfolding(crate::specs::Sentences::asked_words))]
fn push_asked(text: &mut Vec<u8>, port: u8, kind: &Kind, id: u8) -> Result<(), NoMemory>
    ensures { OnOk result (text.new.items ≡ text.old.items ++ asked_words port kind.now id) }
{
    push_does(text, port, Phrase::AsksFor)?;
    push(text, kind_words(kind))?;
    push(text, phrase_words(Phrase::Identifier))?;
    push_number(text, u64::from(id))
}

/// The same, and whether it is exclusive.
#[tactic(auto, unfolding(crate::specs::Sentences::asks_words))]
fn push_asks(text: &mut Vec<u8>, port: u8, kind: &Kind, id: u8, lock: bool) -> Result<(), NoMemory>
    ensures { OnOk result (text.new.items ≡ text.old.items ++ asks_words port kind.now id lock) }
{
    push_asked(text, port, kind, id)?;
    push_bit(text, lock, Phrase::Exclusive)
}

/// Adds which transfer of how many.
#[tactic(auto, unfolding(crate::specs::Sentences::nth_words))]
fn push_nth(text: &mut Vec<u8>, number: u8, beats: u8) -> Result<(), NoMemory>
    ensures { OnOk result (text.new.items ≡ text.old.items ++ nth_words number beats) }
{
    push(text, b"transfer ")?;
    push_number(text, u64::from(number))?;
    push(text, b" of ")?;
    push_number(text, u64::from(beats))?;
    push(text, b" of ")
}

/// Adds so many transfers.
fn push_transfers(text: &mut Vec<u8>, transfers: Transfers) -> Result<(), NoMemory>
    ensures { OnOk result (text.new.items ≡ text.old.items ++ transfers_words transfers) }
{
    match transfers {
        Transfers::One => push(text, b"a transfer of "),
        Transfers::Several => push(text, b"transfers of "),
        Transfers::Nth { number, beats } => push_nth(text, number, beats),
    }
}

/// As many answers.
fn answers_to(transfers: Transfers) -> &'static [u8]
    ensures { result.now ≡ answers_to transfers }
{
    match transfers {
        Transfers::Several => b"answers to ",
        _ => b"the answer to ",
    }
}

/// A read of this kind brings no line: its one transfer is the answer to it.
fn is_dataless(kind: Option<ArKind>) -> bool
    ensures { result ≡ is_dataless kind }
{
    match kind {
        None => false,
        Some(kind) => beats_of(kind) == 1,
    }
}

/// The transaction is one of such a kind.
fn brings_no_line(kind: &Option<Kind>) -> bool
    ensures { result ≡ brings_no_line kind.now }
{
    match kind {
        None => false,
        Some(kind) => is_dataless(read_ar(kind.snoop, kind.dom, kind.bar)),
    }
}

/// Adds what the port gets of the read.
fn push_received(
    text: &mut Vec<u8>,
    transfers: Transfers,
    kind: &Option<Kind>,
) -> Result<(), NoMemory>
    ensures { OnOk result (text.new.items
        ≡ text.old.items ++ received_words transfers kind.now) }
{
    if brings_no_line(kind) {
        push(text, answers_to(transfers))
    } else {
        push_transfers(text, transfers)
    }
}

/// Adds what a response says of the line.
#[tactic(auto, unfolding(crate::specs::Sentences::line_bits))]
fn push_line_bits(text: &mut Vec<u8>, resp: u8) -> Result<(), NoMemory>
    ensures { OnOk result (text.new.items ≡ text.old.items ++ line_bits resp) }
{
    push_bit(text, passes_dirty(resp), Phrase::PassDirty)?;
    push_bit(text, is_shared(resp), Phrase::IsShared)
}

/// Adds a read transfer.
#[tactic(auto, unfolding(crate::specs::Sentences::gets_words))]
fn push_gets(
    text: &mut Vec<u8>,
    transfers: Transfers,
    port: u8,
    kind: &Option<Kind>,
    resp: u8,
) -> Result<(), NoMemory>
    ensures { OnOk result (text.new.items
        ≡ text.old.items ++ gets_words transfers port kind.now resp) }
{
    push_does(text, port, Phrase::Gets)?;
    push_received(text, transfers, kind)?;
    push_its(text, b"a read", kind)?;
    push(text, resp_word(resp))?;
    push_line_bits(text, resp)
}

/// Adds a write transfer.
#[tactic(auto, unfolding(crate::specs::Sentences::sends_words))]
fn push_sends(
    text: &mut Vec<u8>,
    transfers: Transfers,
    port: u8,
    kind: &Option<Kind>,
) -> Result<(), NoMemory>
    ensures { OnOk result (text.new.items ≡ text.old.items ++ sends_words transfers port kind.now) }
{
    push_does(text, port, Phrase::Sends)?;
    push_transfers(text, transfers)?;
    push_its(text, b"a write", kind)
}

#[tactic(auto, unfolding(crate::specs::Sentences::snoop_data))]
fn snoop_data() -> &'static [u8]
    ensures { result.now ≡ snoop_data }
{
    b"its snoop data"
}

/// Adds a transfer of snoop data.
#[tactic(auto, unfolding(crate::specs::Sentences::sends_snooped_words))]
fn push_sends_snooped(text: &mut Vec<u8>, transfers: Transfers, port: u8) -> Result<(), NoMemory>
    ensures { OnOk result (text.new.items ≡ text.old.items ++ sends_snooped_words transfers port) }
{
    push_does(text, port, Phrase::Sends)?;
    push_transfers(text, transfers)?;
    push(text, snoop_data())
}

/// Adds a write response.
#[tactic(auto, unfolding(crate::specs::Sentences::answered_words))]
fn push_answered(
    text: &mut Vec<u8>,
    port: u8,
    kind: &Option<Kind>,
    resp: u8,
) -> Result<(), NoMemory>
    ensures { OnOk result (text.new.items ≡ text.old.items ++ answered_words port kind.now resp) }
{
    push_does(text, port, Phrase::GetsTheAnswerTo)?;
    push_its(text, b"a write", kind)?;
    push(text, resp_word(resp))
}

/// Adds the port, what it does, and a state of the line.
#[tactic(auto, unfolding(crate::specs::Sentences::state_words))]
fn push_state(text: &mut Vec<u8>, port: u8, phrase: Phrase, st: LineState) -> Result<(), NoMemory>
    ensures { OnOk result (text.new.items ≡ text.old.items ++ state_words port phrase st) }
{
    push_does(text, port, phrase)?;
    push(text, state_word(st))
}

/// Adds an acknowledge of a read or a write.
#[tactic(auto, unfolding(crate::specs::Sentences::acknowledges_words))]
fn push_acknowledges(
    text: &mut Vec<u8>,
    port: u8,
    other: &[u8],
    kind: &Option<Kind>,
    st: LineState,
) -> Result<(), NoMemory>
    ensures { OnOk result (text.new.items
        ≡ text.old.items ++ acknowledges_words port other.now kind.now st) }
{
    push_does(text, port, Phrase::Acknowledges)?;
    push_its(text, other, kind)?;
    push(text, phrase_words(Phrase::InState))?;
    push(text, state_word(st))
}

/// Adds a snoop.
#[tactic(auto, unfolding(crate::specs::Sentences::snooped_words))]
fn push_snooped(text: &mut Vec<u8>, port: u8, snoop: u8) -> Result<(), NoMemory>
    ensures { OnOk result (text.new.items ≡ text.old.items ++ snooped_words port snoop) }
{
    push_does(text, port, Phrase::IsSnooped)?;
    push(text, snoop_words(snoop))
}

/// Adds the answer to a snoop.
#[tactic(auto, unfolding(crate::specs::Sentences::answers_words))]
fn push_answers(text: &mut Vec<u8>, port: u8, resp: u8, st: LineState) -> Result<(), NoMemory>
    ensures { OnOk result (text.new.items ≡ text.old.items ++ answers_words port resp st) }
{
    push_state(text, port, Phrase::AnswersTheSnoop, st)?;
    push_bit(text, transfers_data(resp), Phrase::Data)?;
    push_bit(text, has_error(resp), Phrase::Error)?;
    push_line_bits(text, resp)?;
    push_bit(text, was_unique(resp), Phrase::WasUnique)
}

/// Adds the port, what it does, and the transaction for which it does so.
#[tactic(auto, unfolding(crate::specs::Sentences::served_words))]
fn push_served(
    text: &mut Vec<u8>,
    port: u8,
    phrase: Phrase,
    kind: &Option<Kind>,
) -> Result<(), NoMemory>
    ensures { OnOk result (text.new.items ≡ text.old.items ++ served_words port phrase kind.now) }
{
    push_does(text, port, phrase)?;
    push_its(text, b"a transaction", kind)
}

/// Adds a load.
#[tactic(auto, unfolding(crate::specs::Sentences::loads_words))]
fn push_loads(text: &mut Vec<u8>, port: u8, w: u8, x: bool) -> Result<(), NoMemory>
    ensures { OnOk result (text.new.items ≡ text.old.items ++ loads_words port w x) }
{
    push_does(text, port, Phrase::Loads)?;
    push_number(text, u64::from(w))?;
    push_bit(text, x, Phrase::Exclusive)
}

/// Adds a store.
#[tactic(auto, unfolding(crate::specs::Sentences::stores_words))]
fn push_stores(text: &mut Vec<u8>, port: u8, x: bool) -> Result<(), NoMemory>
    ensures { OnOk result (text.new.items ≡ text.old.items ++ stores_words port x) }
{
    push_does(text, port, Phrase::Stores)?;
    push_bit(text, x, Phrase::Exclusive)
}

/// Adds the end of an operation.
#[tactic(auto, unfolding(crate::specs::Sentences::retires_words))]
fn push_retires(text: &mut Vec<u8>, port: u8, k: u16, res: Outcome) -> Result<(), NoMemory>
    ensures { OnOk result (text.new.items ≡ text.old.items ++ retires_words port k res) }
{
    push_does(text, port, Phrase::Retires)?;
    push_number(text, u64::from(k))?;
    push(text, b": ")?;
    push(text, outcome_word(res))
}

/// Adds a sentence of what the event does, which has so many transfers where it has any, or several
/// like it one after another.
///
/// # Errors
///
/// `NoMemory` where there is none for the longer text.
pub fn push_deed(text: &mut Vec<u8>, transfers: Transfers, deed: &Deed) -> Result<(), NoMemory>
    ensures { OnOk result (text.new.items ≡ text.old.items ++ deed_words transfers deed.now) }
{
    match *deed {
        Deed::Ar {
            port,
            kind,
            id,
            lock,
        } => push_asks(text, port, &kind, id, lock),
        Deed::R { port, kind, resp } => push_gets(text, transfers, port, &kind, resp),
        Deed::Rk { port, kind, st } => push_acknowledges(text, port, b"a read", &kind, st),
        Deed::Aw { port, kind, id } => push_asks(text, port, &kind, id, false),
        Deed::W { port, kind } => push_sends(text, transfers, port, &kind),
        Deed::B { port, kind, resp } => push_answered(text, port, &kind, resp),
        Deed::Wk { port, kind, st } => push_acknowledges(text, port, b"a write", &kind, st),
        Deed::Ac { port, snoop } => push_snooped(text, port, snoop),
        Deed::Cr { port, resp, st } => push_answers(text, port, resp, st),
        Deed::Cd { port } => push_sends_snooped(text, transfers, port),
        Deed::G { port, kind } => push_served(text, port, Phrase::IsGrantedTheLine, &kind),
        Deed::M { port, kind } => push_served(text, port, Phrase::HasMemoryWritten, &kind),
        Deed::S { port, st } => push_state(text, port, Phrase::MovesTheLine, st),
        Deed::L { port, w, x } => push_loads(text, port, w, x),
        Deed::D { port, x } => push_stores(text, port, x),
        Deed::Op { port, k, res } => push_retires(text, port, k, res),
        Deed::Mem => push(text, b"memory opens with the line"),
    }
}
