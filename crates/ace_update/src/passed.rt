//! The lines whose granted transactions have passed data.

ghost use Rattle.std.specs.Prelude.{◌≡◌, ◌==◌, ◌<◌, ◌≤◌, ◌∷◌, ℕ, [], IfOk, length, vec_capacity};
ghost use Rattle.ace_event.specs.declared.header.Header.{Header};
ghost use Rattle.ace_model.specs.Accepted.{IsAccepted};
ghost use Rattle.ace_model.specs.Trace.{Trace};
ghost use Rattle.std.specs.Option.{option_copied};
ghost use Rattle.ace_portck.specs.Stands.{Stands as Tell};
ghost use Rattle.ace_portck.specs.Targets.{line_of, line_of_snoop, target_of};
ghost use Rattle.ace_update.specs.Passed.{PassedStand, adds, is_among, most_lines, removes, with_line, without_line};

use ace_codes::passes_dirty;
use ace_event::{Channel, Event};
use ace_io::NoMemory;
use ace_model::Snoop;
use ace_model::kinds::{is_line, snoops_a_line};
use ace_portck::{PortCheck, Progress};
use std::alloc::Global;

/// One more than a plan can have granted lines.
const MOST: usize = 12289;

/// The lines whose granted transactions have passed data, each once.
#[derive(Drop)]
pub struct PassedLines {
    lines: Vec<u32>,
}

/// The line of a transaction, if it has one.
fn line_of(x: Option<&Progress>) -> Option<u32>
    ensures { result ≡ line_of (option_copied x.entry) }
{
    match x {
        Some(x) if is_line(&x.transaction) => Some(x.transaction.addr),
        _ => None,
    }
}

/// The line of a snoop, if it has one.
fn line_of_snoop(snoop: Option<&Snoop>) -> Option<u32>
    ensures { result ≡ line_of_snoop (option_copied snoop.entry) }
{
    match snoop {
        Some(snoop) if snoops_a_line(snoop.snoop) => Some(snoop.addr),
        _ => None,
    }
}

/// The line whose granted transaction has passed data from the event on. The ports are those before
/// it.
fn adds(event: &Event, ports: &PortCheck) -> Option<u32>
    ensures { (h : Header) (past : Trace) → Tell ports.now (record { header = h; past = past })
        → result ≡ adds event.now (target_of h past event.now) }
{
    match *event {
        Event::Cr { port, resp, .. } if passes_dirty(resp) => line_of_snoop(ports.answered(port)),
        _ => None,
    }
}

/// The line whose granted transaction has none from the event on: they are written to memory, or it
/// ends. An update writes its line only where there are none.
fn removes(event: &Event, ports: &PortCheck) -> Option<u32>
    ensures { (h : Header) (past : Trace) → Tell ports.now (record { header = h; past = past })
        → result ≡ removes event.now (target_of h past event.now) }
{
    match *event {
        Event::M { port, chan, id, .. } => line_of(ports.outstanding(port, chan, id)),
        Event::Rk { port, .. } => line_of(ports.acknowledged(port, Channel::Read)),
        _ => None,
    }
}

impl PassedLines {
    /// None, with room for the granted lines of a plan.
    pub fn new(alloc: Global) -> Result<PassedLines, NoMemory>
        ensures { IfOk result (λ s. (h : Header) → PassedStand h [] s) }
    {
        match Vec::with_capacity(alloc, MOST) {
            Ok(lines) => Ok(PassedLines { lines }),
            Err(_) => Err(NoMemory),
        }
    }

    /// The line is one of them.
    pub fn has(&self, line: u32) -> bool
        ensures { result ≡ is_among line self.now.lines.items }
    {
        self.lines.iter().any(|other| *other == line)
    }

    fn remove(&mut self, line: Option<u32>)
        ensures items { self.new.lines.items ≡ without_line line self.old.lines.items }
        ensures room { vec_capacity self.old.lines ≤ vec_capacity self.new.lines }
    {
        if let Some(line) = line {
            self.lines.retain(|other| *other != line);
        }
    }

    fn add(&mut self, line: Option<u32>)
        ensures items { length self.old.lines.items < vec_capacity self.old.lines
            → self.new.lines.items ≡ with_line line self.old.lines.items }
        ensures room { vec_capacity self.old.lines ≤ vec_capacity self.new.lines }
    {
        if let Some(line) = line {
            if !self.has(line) {
                let _full = self.lines.push(line);
            }
        }
    }

    /// Hears the next event of a trace, which keeps the rules. The ports are those before it. There
    /// has to be room for one more line.
    pub fn hear(&mut self, event: &Event, ports: &PortCheck)
        ensures { (h : Header) (past : Trace) → IsAccepted h (event.now ∷ past)
            → Tell ports.now (record { header = h; past = past })
            → length self.old.lines.items < most_lines → PassedStand h past self.old
            → PassedStand h (event.now ∷ past) self.new }
    {
        self.remove(removes(event, ports));
        self.add(adds(event, ports));
    }
}
