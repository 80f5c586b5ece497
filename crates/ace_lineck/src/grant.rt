//! What is kept of the grant of a line, and what events leave of it.

ghost use Rattle.std.specs.Prelude.{◌≡◌, ◌&&◌, ◌||◌, not, true, Some, if◌then◌else◌};
ghost use Rattle.ace_codes.specs.Responses.{is_shared, passes_dirty, transfers_data};
ghost use Rattle.ace_model.specs.Trace.{newer};
ghost use Rattle.ace_model.specs.Transactions.{is_read};
ghost use Rattle.ace_lineck.specs.declared.stages.Stage.TheVariants.{Sending, Done};
ghost use Rattle.ace_lineck.specs.Grants.{IsMoved, fresh_grant};

use crate::stages::{Stage, set_stage};
use ace_codes::{is_shared, passes_dirty, transfers_data};
use ace_event::{Channel, Line};
use ace_model::Transaction;

/// The dirty line that a port passed on under a grant: the port, and its copy at that answer.
#[derive(Clone, Copy, Debug, PartialEq, Eq)]
pub struct Passed {
    pub port: u8,
    pub line: Line,
}

/// The transaction that is granted on a line, and what came under its grant.
#[derive(Clone, Copy, Debug, PartialEq, Eq)]
pub struct Grant {
    pub transaction: Transaction,
    /// It has had its first R or, if it is a write, its M.
    pub begun: bool,
    /// It has had its M.
    pub written: bool,
    /// Of each port, how far its snoop has come.
    pub stages: [Stage; 32],
    /// An answer had IsShared.
    pub shared: bool,
    /// The port that answered with PassDirty.
    pub passed: Option<Passed>,
    /// The reply of a read: the copy of the first port that sent data or, from the first beat on,
    /// memory as it was then.
    pub reply: Option<Line>,
}

/// A grant under which nothing has come.
pub fn fresh(x: Transaction) -> Grant
    ensures { result ≡ fresh_grant x }
{
    Grant {
        transaction: x,
        begun: false,
        written: false,
        stages: [Stage::Unsnooped; 32],
        shared: false,
        passed: None,
        reply: None,
    }
}

/// How far a port has come with its answer.
#[inline(always)]
fn answered_stage(resp: u8) -> Stage
    ensures { result ≡ (if transfers_data resp then Sending else Done) }
{
    if transfers_data(resp) {
        Stage::Sending
    } else {
        Stage::Done
    }
}

impl Grant {
    /// The reply is this line, if it wasn't settled before.
    #[inline(always)]
    fn settle(&mut self, line: &Line)
        ensures { self.new ≡ record self.old { reply = newer self.old.reply (Some line.now) } }
    {
        if self.reply.is_none() {
            self.reply = Some(*line);
        }
    }

    /// A port answers a snoop of the line.
    #[inline(always)]
    pub fn hear_answer(&mut self, port: u8, resp: u8, copy: &Line)
        ensures stages { IsMoved self.old.stages self.new.stages port
            (if transfers_data resp then Sending else Done) }
        ensures rest { self.new ≡ record self.old {
          stages = self.new.stages;
          shared = is_shared resp || self.old.shared;
          passed = (if passes_dirty resp
              then Some (record { port = port; line = copy.now }) else self.old.passed);
          reply = (if transfers_data resp
              then newer self.old.reply (Some copy.now) else self.old.reply);
        } }
    {
        set_stage(&mut self.stages, port, answered_stage(resp));
        self.shared = is_shared(resp) || self.shared;
        if passes_dirty(resp) {
            self.passed = Some(Passed { port, line: *copy });
        }
        if transfers_data(resp) {
            self.settle(copy);
        }
    }

    /// The granted read has a transfer.
    #[inline(always)]
    pub fn hear_beat(&mut self, memory: &Line)
        ensures { self.new ≡ record self.old {
          begun = true;
          reply = newer self.old.reply (Some memory.now);
        } }
    {
        self.begun = true;
        self.settle(memory);
    }

    /// A transaction of the line has its M.
    #[inline(always)]
    pub fn hear_write(&mut self, own: bool)
        ensures { self.new ≡ record self.old {
          written = self.old.written || own;
          begun = self.old.begun || (own && not (is_read self.old.transaction.chan));
        } }
    {
        self.written = self.written || own;
        self.begun = self.begun || (own && matches!(self.transaction.chan, Channel::Write));
    }
}
