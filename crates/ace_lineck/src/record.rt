//! What is kept of a line.

ghost use Rattle.std.specs.Prelude.{◌≡◌, ℕ, option_map};
ghost use Rattle.ace_model.specs.Copies.{word_of};
ghost use Rattle.ace_model.specs.Trace.{is_some_and};
ghost use Rattle.ace_lineck.specs.Holders.{holder_at, HasNothing};
ghost use Rattle.ace_lineck.specs.Records.{IsFresh, name_of};
ghost use Rattle.ace_lineck.specs.States.{state_at};
ghost use Rattle.ace_lineck.specs.Uses.{is_unknown};

use crate::grant::Grant;
use crate::states::state_at;
use ace_codes::LineState;
use ace_event::{Channel, Line};
use std::alloc::Global;

/// How the transactions of a line use it.
#[derive(Clone, Copy, Debug, PartialEq, Eq)]
pub enum Use {
    /// No transaction has named the line.
    Unknown,
    /// Its transactions are those of lines that caches may hold.
    Shareable,
    /// Its transactions are NoSnoop.
    NoSnoop,
}

/// What is kept of the data that a port has of a line.
#[derive(Clone, Copy, Debug, PartialEq, Eq)]
pub struct Holder {
    /// The port's copy of the line.
    pub copy: Line,
    /// The copy at the port's last answer with DataTransfer to a snoop of the line, which its CD
    /// events send.
    pub sent: Line,
}

/// What is kept of a line. What most events look at stands first, so that few lines of a
/// processor's cache hold it.
#[derive(Drop)]
pub struct LineRecord {
    /// What each port of the header has of the line's data, by its number. A port that isn't there
    /// has had nothing of it.
    pub holders: Vec<Holder>,
    pub used: Use,
    /// The state in which each port has the line, by the port's number.
    pub states: [LineState; 32],
    pub grant: Option<Grant>,
    pub memory: Line,
}

const ZERO_LINE: Line = Line { words: [0; 4] };

impl Holder {
    /// Of a port that has had nothing of the line.
    pub const NOTHING: Holder = Holder {
        copy: ZERO_LINE,
        sent: ZERO_LINE,
    };
}

/// What is kept of a line at first, where the ports have had nothing of it.
pub fn first_record(holders: Vec<Holder>) -> LineRecord
    ensures { (ports : ℕ) → HasNothing ports holders.items → IsFresh ports result }
{
    LineRecord {
        used: Use::Unknown,
        states: [LineState::I; 32],
        grant: None,
        memory: ZERO_LINE,
        holders,
    }
}

/// What is kept of a line for no port at all.
pub fn empty_record(alloc: Global) -> LineRecord
    ensures { IsFresh 0 result }
{
    first_record(Vec::new(alloc))
}

/// Word k of the line, from 0; 0 where k is above 3.
#[inline(always)]
fn word_of(line: &Line, k: u8) -> u128
    ensures { result ≡ word_of line.now k }
{
    match line.words.get(usize::from(k)) {
        None => 0,
        Some(word) => *word,
    }
}

impl LineRecord {
    /// No transaction has named the line.
    #[inline(always)]
    pub fn is_unknown(&self) -> bool
        ensures { result ≡ is_unknown self.now.used }
    {
        matches!(self.used, Use::Unknown)
    }

    /// The name of the granted transaction: its port, channel and identifier.
    #[inline(always)]
    pub fn granted_name(&self) -> Option<(u8, Channel, u8)>
        ensures { result ≡ option_map (λ g. name_of g.transaction) self.now.grant }
    {
        match &self.grant {
            None => None,
            Some(g) => {
                let x = &g.transaction;
                Some((x.port, x.chan, x.id))
            }
        }
    }

    /// The granted transaction, if there is one, has lock 1.
    #[inline(always)]
    pub fn is_granted_exclusively(&self) -> bool
        ensures { result ≡ is_some_and self.now.grant (λ g. g.transaction.lock) }
    {
        match &self.grant {
            None => false,
            Some(g) => g.transaction.lock,
        }
    }

    /// The state in which the port has the line.
    #[inline(always)]
    pub fn state(&self, port: u8) -> LineState
        ensures { result ≡ state_at self.now.states port }
    {
        state_at(&self.states, port)
    }

    /// The port's copy.
    pub fn copy(&self, port: u8) -> Line
        ensures { result ≡ (holder_at self.now.holders.items port).copy }
    {
        match self.holders.get(usize::from(port)) {
            None => ZERO_LINE,
            Some(holder) => holder.copy,
        }
    }

    /// Word k of the port's copy.
    #[inline(always)]
    pub fn copied_word(&self, port: u8, k: u8) -> u128
        ensures { result ≡ word_of (holder_at self.now.holders.items port).copy k }
    {
        match self.holders.get(usize::from(port)) {
            None => 0,
            Some(holder) => word_of(&holder.copy, k),
        }
    }

    /// Word k of the port's copy at its last answer with DataTransfer to a snoop of the line.
    #[inline(always)]
    pub fn sent_word(&self, port: u8, k: u8) -> u128
        ensures { result ≡ word_of (holder_at self.now.holders.items port).sent k }
    {
        match self.holders.get(usize::from(port)) {
            None => 0,
            Some(holder) => word_of(&holder.sent, k),
        }
    }
}
