// What is kept of the lines before a line, and which may stand behind them.
use crate::{Digits, SideEnd, SideLine};
use ace_io::NoMemory;
use indexmap::IndexSet;
use std::alloc::Global;

/// What is kept of the lines so far: it grows with the ports and addresses that they name.
#[derive(Drop)]
pub struct Order {
    /// Whether there is a unit.
    has_unit: bool,
    /// The last event that a line is about, or 0.
    event: u64,
    /// The event and the time of the last time.
    time: Option<(u64, u64)>,
    /// The event of the last identifier.
    id: Option<u64>,
    ports: IndexSet<u8>,
    addrs: IndexSet<u32>,
    reals: IndexSet<u64>,
    ending: Option<SideEnd>,
}

impl Order {
    ghost use Rattle.std.specs.Prelude.{◌≡◌, ◌≤◌, ℕ, List, true, [], OnOk};
    ghost use Rattle.ace_side.specs.declared.line.SideLine.TheVariants.{TimeUnit, Port, Addr, Time, Id, Note};
    ghost use Rattle.ace_side.specs.Order.{line_of_end};
    ghost use Rattle.ace_side.specs.Kept.{is_after, is_later, permits, ending_of, Stands, KeepsOne};

    /// What is kept of no lines.
    pub fn new(alloc: Global) -> Order
        ensures { Stands [] result }
    {
        Order {
            has_unit: false,
            event: 0,
            time: None,
            id: None,
            ports: IndexSet::new(alloc),
            addrs: IndexSet::new(alloc),
            reals: IndexSet::new(alloc),
            ending: None,
        }
    }

    /// How the lines so far end, if they do.
    pub fn ending(&self) -> Option<SideEnd>
        ensures { result ≡ ending_of self.now }
    {
        self.ending
    }

    /// Whether a time of this event may stand behind them, as far as the times go.
    fn permits_time(&self, event: u64, time: u64) -> bool
        ensures { result ≡ is_after self.now.time event time }
    {
        match self.time {
            Some((last, earlier)) => last < event && earlier <= time,
            None => true,
        }
    }

    /// Whether an identifier of this event may stand behind them, as far as the identifiers go.
    fn permits_id(&self, event: u64) -> bool
        ensures { result ≡ is_later self.now.id event }
    {
        match self.id {
            Some(last) => last < event,
            None => true,
        }
    }

    /// Whether the line may stand behind them.
    pub fn permits(&self, line: &SideLine) -> bool
        ensures { result ≡ permits self.now line.now }
    {
        match line {
            SideLine::TimeUnit { .. } => !self.has_unit && self.time.is_none(),
            SideLine::Port { port, .. } => !self.ports.contains(port),
            SideLine::Addr { addr, real } => {
                !self.addrs.contains(addr) && !self.reals.contains(&real.value)
            }
            SideLine::Time { event, time } => {
                self.event <= *event && self.permits_time(*event, *time)
            }
            SideLine::Id { event, .. } => self.event <= *event && self.permits_id(*event),
            SideLine::Note { event, .. } => self.event <= *event,
            _ => true,
        }
    }

    fn note_unit(&mut self)
        ensures { (word : List ℕ) → KeepsOne (TimeUnit word) self.old self.new }
    {
        self.has_unit = true;
    }

    fn note_port(&mut self, port: u8) -> Result<(), NoMemory>
        ensures { OnOk result ((name : List ℕ) → KeepsOne (Port port name) self.old self.new) }
    {
        match self.ports.insert(port) {
            Ok(_) => Ok(()),
            Err(_) => Err(NoMemory),
        }
    }

    fn note_addr(&mut self, addr: u32, real: Digits) -> Result<(), NoMemory>
        ensures { OnOk result (KeepsOne (Addr addr real) self.old self.new) }
    {
        if self.addrs.insert(addr).is_err() {
            return Err(NoMemory);
        }
        match self.reals.insert(real.value) {
            Ok(_) => Ok(()),
            Err(_) => Err(NoMemory),
        }
    }

    fn note_time(&mut self, event: u64, time: u64)
        requires { permits self.old (Time event time) ≡ true }
        ensures { KeepsOne (Time event time) self.old self.new }
    {
        self.event = event;
        self.time = Some((event, time));
    }

    fn note_id(&mut self, event: u64, _id: Digits)
        requires { permits self.old (Id event _id) ≡ true }
        ensures { KeepsOne (Id event _id) self.old self.new }
    {
        self.event = event;
        self.id = Some(event);
    }

    fn note_remark(&mut self, event: u64)
        requires { self.old.event ≤ event }
        ensures { (text : List ℕ) → KeepsOne (Note event text) self.old self.new }
    {
        self.event = event;
    }

    fn note_end(&mut self, end: SideEnd)
        ensures { KeepsOne (line_of_end end) self.old self.new }
    {
        if self.ending.is_none() {
            self.ending = Some(end);
        }
    }

    /// Keeps what is to be kept of a line that may stand behind them.
    pub fn note(&mut self, line: &SideLine) -> Result<(), NoMemory>
        requires { permits self.old line.now ≡ true }
        ensures { OnOk result (KeepsOne line.now self.old self.new) }
    {
        match line {
            SideLine::Port { port, .. } => return self.note_port(*port),
            SideLine::Addr { addr, real } => return self.note_addr(*addr, *real),
            SideLine::TimeUnit { .. } => self.note_unit(),
            SideLine::Time { event, time } => self.note_time(*event, *time),
            SideLine::Id { event, id } => self.note_id(*event, *id),
            SideLine::Note { event, .. } => self.note_remark(*event),
            SideLine::Word { .. } => {}
            SideLine::End { count } => self.note_end(SideEnd::End(*count)),
            SideLine::Broken { count } => self.note_end(SideEnd::Broken(*count)),
            SideLine::Cut { count } => self.note_end(SideEnd::Cut(*count)),
        }
        Ok(())
    }
}
