//! What is kept of a port.

ghost use Rattle.std.specs.Prelude.{◌≡◌, ◌≤◌, ◌∷◌, ℕ, [], None, IfOk, if◌then◌else◌, length, option_map};
ghost use Rattle.ace_tables.specs.States.{is_invalid};
ghost use Rattle.ace_codes.specs.declared.state.LineState.{LineState};
ghost use Rattle.ace_event.specs.declared.event.Event.TheVariants.{Ac, B, Cr, G, Wk};
ghost use Rattle.ace_event.specs.declared.header.Header.{Header};
ghost use Rattle.ace_model.specs.Lines.{known_lines};
ghost use Rattle.ace_model.specs.Trace.{Trace};
ghost use Rattle.ace_filter.specs.Change.{IsChange};
ghost use Rattle.ace_filter.specs.declared.port.Change.TheVariants.{Drops, Takes};
ghost use Rattle.ace_filter.specs.Port.{HasRoom, IsHeard, PortStands};

use crate::lines::{dropped_line, line_under, set_line, snooped_line, taken_line};
use crate::queue::LineQueue;
use ace_codes::LineState;
use ace_event::{Channel, Event};
use ace_tables::is_invalid;
use std::alloc::{AllocError, Global};

/// What an event changes of the lines that its port may hold.
#[derive(Clone, Copy, Debug, PartialEq, Eq)]
pub enum Change {
    /// It may hold this line from now on.
    Takes(u32),
    /// It doesn't hold this line.
    Drops(u32),
}

/// What is kept of a port: of each transaction and snoop under way, the line that the port may get
/// or lose by it.
#[derive(Drop)]
pub struct PortWatch {
    /// By identifier, the line that the last read takes.
    reads: [Option<u32>; 256],
    /// By identifier, the line that the last write gives up.
    writes: [Option<u32>; 256],
    /// The complete writes that wait for their WK.
    complete: LineQueue,
    /// The snoops that wait for their CR.
    snoops: LineQueue,
}

/// The line is taken, if there is one.
fn take_of(line: Option<u32>) -> Option<Change>
    ensures { result ≡ option_map Takes line }
{
    match line {
        Some(line) => Some(Change::Takes(line)),
        None => None,
    }
}

/// The line is dropped, if there is one.
fn drop_of(line: Option<u32>) -> Option<Change>
    ensures { result ≡ option_map Drops line }
{
    match line {
        Some(line) => Some(Change::Drops(line)),
        None => None,
    }
}

/// The line, where the state is I.
fn if_invalid(st: LineState, line: Option<u32>) -> Option<u32>
    ensures { result ≡ (if is_invalid st then line else None) }
{
    if is_invalid(st) { line } else { None }
}

impl PortWatch {
    /// A port without events. Of snoops, and of complete writes, there is room for those of so many
    /// lines.
    pub fn with_room(alloc: Global, lines: usize) -> Result<PortWatch, AllocError>
        ensures stands { IfOk result (λ s. (p : ℕ) → PortStands [] p s) }
        ensures room { IfOk result (HasRoom lines) }
    {
        let complete = LineQueue::with_room(alloc, lines)?;
        let snoops = LineQueue::with_room(alloc, lines)?;
        Ok(PortWatch {
            reads: [None; 256],
            writes: [None; 256],
            complete,
            snoops,
        })
    }

    /// Hears an event of the port that keeps the rules. What it changes of the lines that the port
    /// may hold. It takes no memory.
    pub fn hear(&mut self, event: &Event) -> Option<Change>
        ensures stands { (h : Header) (past : Trace) (p lines : ℕ) → IsHeard h past event.now p
            → length (known_lines past) ≤ lines → HasRoom lines self.old
            → PortStands past p self.old → PortStands (event.now ∷ past) p self.new }
        ensures change { (h : Header) (past : Trace) (p : ℕ) → IsHeard h past event.now p
            → PortStands past p self.old → IsChange past event.now p result }
        ensures room { (lines : ℕ) → HasRoom lines self.old → HasRoom lines self.new }
    {
        match *event {
            Event::Ar {
                id,
                addr,
                snoop,
                dom,
                bar,
                ..
            } => {
                set_line(&mut self.reads, id, taken_line(addr, snoop, dom, bar));
                None
            }
            Event::Aw {
                id,
                addr,
                snoop,
                dom,
                bar,
                ..
            } => {
                set_line(&mut self.writes, id, dropped_line(addr, snoop, dom, bar));
                None
            }
            Event::G { chan, id, .. } => self.grant(chan, id),
            Event::B { id, .. } => {
                self.complete(id);
                None
            }
            Event::Wk { .. } => self.acknowledge(),
            Event::Ac { addr, snoop, .. } => {
                self.ask(addr, snoop);
                None
            }
            Event::Cr { st, .. } => self.answer(st),
            _ => None,
        }
    }

    /// The G of a transaction: the line that it takes, if it is a read that takes one.
    fn grant(&self, chan: Channel, id: u8) -> Option<Change>
        ensures { (h : Header) (past : Trace) (p : ℕ) → IsHeard h past (G p chan id) p
            → PortStands past p self.now → IsChange past (G p chan id) p result }
    {
        match chan {
            Channel::Read => take_of(line_under(&self.reads, id)),
            Channel::Write => None,
        }
    }

    /// The B of a write, which waits for its WK from now on.
    fn complete(&mut self, id: u8)
        ensures stands { (h : Header) (past : Trace) (p resp lines : ℕ)
            → IsHeard h past (B p id resp) p → length (known_lines past) ≤ lines
            → HasRoom lines self.old → PortStands past p self.old
            → PortStands (B p id resp ∷ past) p self.new }
        ensures room { (lines : ℕ) → HasRoom lines self.old → HasRoom lines self.new }
    {
        self.complete.begin(line_under(&self.writes, id));
    }

    /// The WK of the oldest complete write: the line that the port gives up by it, if it does.
    fn acknowledge(&mut self) -> Option<Change>
        ensures stands { (h : Header) (past : Trace) (p : ℕ) (st : LineState)
            → IsHeard h past (Wk p st) p → PortStands past p self.old
            → PortStands (Wk p st ∷ past) p self.new }
        ensures change { (h : Header) (past : Trace) (p : ℕ) (st : LineState)
            → IsHeard h past (Wk p st) p → PortStands past p self.old
            → IsChange past (Wk p st) p result }
        ensures room { (lines : ℕ) → HasRoom lines self.old → HasRoom lines self.new }
    {
        drop_of(self.complete.end())
    }

    /// The AC of a snoop, which waits for its CR from now on.
    fn ask(&mut self, addr: u32, snoop: u8)
        ensures stands { (h : Header) (past : Trace) (p lines : ℕ)
            → IsHeard h past (Ac p addr snoop) p → length (known_lines past) ≤ lines
            → HasRoom lines self.old → PortStands past p self.old
            → PortStands (Ac p addr snoop ∷ past) p self.new }
        ensures room { (lines : ℕ) → HasRoom lines self.old → HasRoom lines self.new }
    {
        self.snoops.begin(snooped_line(addr, snoop));
    }

    /// The CR to the oldest unanswered snoop: the line that the port gives up by it, if it does.
    fn answer(&mut self, st: LineState) -> Option<Change>
        ensures stands { (h : Header) (past : Trace) (p resp : ℕ)
            → IsHeard h past (Cr p resp st) p → PortStands past p self.old
            → PortStands (Cr p resp st ∷ past) p self.new }
        ensures change { (h : Header) (past : Trace) (p resp : ℕ)
            → IsHeard h past (Cr p resp st) p → PortStands past p self.old
            → IsChange past (Cr p resp st) p result }
        ensures room { (lines : ℕ) → HasRoom lines self.old → HasRoom lines self.new }
    {
        let line = self.snoops.end();
        drop_of(if_invalid(st, line))
    }
}
