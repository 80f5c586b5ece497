// Which answers to snoops the masters of a run pick, by the words of a generator.

use crate::chosen::start_chosen;
use ace_check::{Checker, Step};
use ace_codes::{ArKind, LineState, SnoopKind, read_ac, read_ar};
use ace_event::Event;
use ace_fabric::System;
use ace_script::Plan;
use ace_tables::snoop_rows;
use rand_core::utils::NextWord;
use rand_pcg::Lcg64Xsh32;
use std::alloc::Global;
use std::test::Fail;

/// A transaction that isn't acknowledged: its identifier, its line if it has one, and whether it
/// updates memory.
#[derive(Clone, Copy, Debug, PartialEq, Eq)]
struct Open {
    id: u8,
    line: Option<u32>,
    updates: bool,
}

/// What is outstanding on a channel, and what is complete, in the order in which that came.
#[derive(Drop)]
struct Pending {
    open: Vec<Open>,
    whole: Vec<Open>,
}

/// What the trace says of a port: the states of its lines, what is outstanding and what is complete
/// on each channel, the snoops that it hasn't answered, and how many line snoops it has answered.
#[derive(Drop)]
struct Port {
    number: u8,
    states: Vec<(u32, LineState)>,
    reads: Pending,
    writes: Pending,
    snoops: Vec<(u32, u8)>,
    answers: usize,
}

/// Takes the first that has the identifier.
fn take(open: &mut Vec<Open>, id: u8) -> Option<Open> {
    let place = open.iter().position(|x| x.id == id)?;
    Some(open.remove(place))
}

/// Takes the first.
fn take_first<T>(list: &mut Vec<T>) -> Option<T> {
    if list.is_empty() {
        return None;
    }
    Some(list.remove(0))
}

impl Pending {
    fn new(alloc: Global) -> Pending {
        Pending {
            open: Vec::new(alloc),
            whole: Vec::new(alloc),
        }
    }

    /// A transaction has its response: it is complete.
    fn complete(&mut self, id: u8) -> Result<(), Fail> {
        if let Some(x) = take(&mut self.open, id) {
            self.whole.push(x)?;
        }
        Ok(())
    }
}

/// The line of a read, if it has one.
fn line_read(addr: u32, snoop: u8, dom: u8, bar: u8) -> Option<u32> {
    match read_ar(snoop, dom, bar) {
        Some(ArKind::DvmComplete | ArKind::DvmMessage | ArKind::Barrier) | None => None,
        Some(_) => Some(addr),
    }
}

impl Port {
    fn new(alloc: Global, number: u8) -> Port {
        Port {
            number,
            states: Vec::new(alloc),
            reads: Pending::new(alloc),
            writes: Pending::new(alloc),
            snoops: Vec::new(alloc),
            answers: 0,
        }
    }

    /// The state in which it holds the line.
    fn state(&self, line: u32) -> LineState {
        match self.states.iter().find(|(of, _)| *of == line) {
            Some((_, state)) => *state,
            None => LineState::I,
        }
    }

    /// It holds the line in this state from now on.
    fn set_state(&mut self, line: u32, state: LineState) -> Result<(), Fail> {
        if let Some(place) = self.states.iter().position(|(of, _)| *of == line) {
            self.states.remove(place);
        }
        self.states.push((line, state))?;
        Ok(())
    }

    /// Whether a memory update of the line is outstanding.
    fn has_update(&self, line: u32) -> bool {
        self.writes
            .open
            .iter()
            .any(|x| x.updates && x.line == Some(line))
            || self
                .writes
                .whole
                .iter()
                .any(|x| x.updates && x.line == Some(line))
    }

    /// Ends a complete transaction in this state.
    fn acknowledge(&mut self, ended: Option<Open>, state: LineState) -> Result<(), Fail> {
        if let Some(
            Open {
                line: Some(line),
                ..
            },
        ) = ended
        {
            self.set_state(line, state)?;
        }
        Ok(())
    }

    /// Answers the oldest snoop: whether that is the row at the next of the words, if it is a snoop
    /// of a line.
    fn answer(&mut self, resp: u8, state: LineState, words: &[u32]) -> Result<bool, Fail> {
        let Some((line, code)) = take_first(&mut self.snoops) else {
            return Ok(false);
        };
        let Some(kind) = read_ac(code) else {
            return Ok(false);
        };
        if kind == SnoopKind::DvmComplete || kind == SnoopKind::DvmMessage {
            return Ok(true);
        }
        let rows = snoop_rows(kind, self.state(line), self.has_update(line));
        let word = words.iter().cycle().nth(self.answers).copied().unwrap_or(0);
        self.answers = self.answers.wrapping_add(1);
        self.set_state(line, state)?;
        if rows.count() == 0 {
            return Ok(false);
        }
        let row = rows.row((word % u32::from(rows.count())) as u8);
        Ok(row.resp == resp && row.next == state)
    }

    /// Hears an event: whether an answer of it is as the words say.
    fn hear(&mut self, event: &Event, words: &[u32]) -> Result<bool, Fail> {
        match event {
            Event::Ar {
                id,
                addr,
                snoop,
                dom,
                bar,
                ..
            } => {
                let line = line_read(*addr, *snoop, *dom, *bar);
                self.reads.open.push(Open {
                    id: *id,
                    line,
                    updates: false,
                })?;
            }
            Event::Aw {
                id,
                addr,
                snoop,
                bar,
                ..
            } => {
                let line = if *bar == 0 { Some(*addr) } else { None };
                let updates = *snoop == 2 || *snoop == 3 || *snoop == 5;
                self.writes.open.push(Open {
                    id: *id,
                    line,
                    updates,
                })?;
            }
            Event::R { id, last: true, .. } => self.reads.complete(*id)?,
            Event::B { id, .. } => self.writes.complete(*id)?,
            Event::Rk { st, .. } => {
                let ended = take_first(&mut self.reads.whole);
                self.acknowledge(ended, *st)?;
            }
            Event::Wk { st, .. } => {
                let ended = take_first(&mut self.writes.whole);
                self.acknowledge(ended, *st)?;
            }
            Event::Ac { addr, snoop, .. } => self.snoops.push((*addr, *snoop))?,
            Event::Cr { resp, st, .. } => return self.answer(*resp, *st, words),
            Event::S { addr, st, .. } => self.set_state(*addr, *st)?,
            Event::D { addr, .. } => self.set_state(*addr, LineState::UD)?,
            _ => {}
        }
        Ok(true)
    }
}

/// The port that the event names.
fn port_of(event: &Event) -> u8 {
    match event {
        Event::Ar { port, .. } | Event::R { port, .. } | Event::Rk { port, .. } => *port,
        Event::Aw { port, .. } | Event::W { port, .. } | Event::B { port, .. } => *port,
        Event::Wk { port, .. } | Event::Ac { port, .. } | Event::Cr { port, .. } => *port,
        Event::Cd { port, .. } | Event::G { port, .. } | Event::M { port, .. } => *port,
        Event::S { port, .. } | Event::L { port, .. } | Event::D { port, .. } => *port,
        Event::Op { port, .. } => *port,
        Event::Mem { .. } => 255,
    }
}

/// Whether each answer of an ACE port to a line snoop is the row at the next of the words, which
/// begin again when they end.
fn goes_by(alloc: Global, trace: &[Event], words: &[u32]) -> Result<bool, Fail> {
    let mut ports = Vec::new(alloc);
    for number in 0..4u8 {
        ports.push(Port::new(alloc, number))?;
    }
    for event in trace {
        for port in ports.iter_mut() {
            if port.number == port_of(event) && !port.hear(event, words)? {
                return Ok(false);
            }
        }
    }
    Ok(true)
}

/// Whether the checker finds each event fine.
fn finds_fine(checker: &mut Checker, events: &[Event]) -> Result<bool, Fail> {
    for event in events {
        if checker.feed(event)? != Step::Fine {
            return Ok(false);
        }
    }
    Ok(true)
}

/// Whether each event of the run is fine.
fn is_fine(alloc: Global, system: &System) -> Result<bool, Fail> {
    let mut checker = Checker::new(alloc, system.plan().view().header())?;
    let fine = finds_fine(&mut checker, system.trace());
    drop(checker);
    fine
}

/// The next so many words.
fn next_words(alloc: Global, generator: &mut Lcg64Xsh32, count: u32) -> Result<Vec<u32>, Fail> {
    let mut words = Vec::new(alloc);
    for _ in 0..count {
        words.push(generator.next_word())?;
    }
    Ok(words)
}

/// The run of the plan of n.
fn drained(alloc: Global, n: u64) -> Result<System, Fail> {
    let plan = Plan::generate(alloc, n)?;
    let started = System::start(alloc, &plan);
    drop(plan);
    let mut system = started?;
    system.drain();
    Ok(system)
}

/// Whether the masters of the plan of n, each with a generator of its own, answer by the words of
/// that of n.
fn is_as_drawn(alloc: Global, n: u64) -> Result<bool, Fail> {
    let words = next_words(alloc, &mut Lcg64Xsh32::new(n, 1), 65536)?;
    let system = drained(alloc, n)?;
    let same = goes_by(alloc, system.trace(), &words);
    drop(system);
    same
}

/// The masters of a plan with `POLICY mixed` each draw from a generator of their own.
#[test]
fn mixed_rows(rt: HostRuntime) -> Result<(), Fail> {
    assert!(rt; is_as_drawn(rt.alloc(), 42)?);
    Ok(())
}

/// The low bytes of the next so many words.
fn low_bytes(alloc: Global, generator: &mut Lcg64Xsh32, count: u32) -> Result<Vec<u8>, Fail> {
    let mut bytes = Vec::new(alloc);
    for _ in 0..count {
        bytes.push((generator.next_word() & 255) as u8)?;
    }
    Ok(bytes)
}

/// The run of the plan of n with these answers and turns, if the plan lets the caller choose.
fn chosen_run(alloc: Global, n: u64, picks: &[u8], turns: &[u8]) -> Result<Option<System>, Fail> {
    let plan = Plan::generate(alloc, n)?;
    let started = start_chosen(alloc, &plan, picks);
    drop(plan);
    let mut run = started?;
    if let Some(system) = &mut run {
        system.drain_by(turns);
    }
    Ok(run)
}

/// Whether the answers are those at these numbers.
fn goes_by_picks(alloc: Global, trace: &[Event], picks: &[u8]) -> Result<bool, Fail> {
    let mut words = Vec::new(alloc);
    for pick in picks {
        words.push(u32::from(*pick))?;
    }
    goes_by(alloc, trace, &words)
}

/// Whether the run is accepted, and its answers are those at these numbers.
fn is_picked_run(alloc: Global, system: &System, picks: &[u8]) -> Result<bool, Fail> {
    Ok(is_fine(alloc, system)? && goes_by_picks(alloc, system.trace(), picks)?)
}

/// Whether the run with these answers and turns is accepted, and has these answers.
fn is_as_picked(alloc: Global, n: u64, picks: &[u8], turns: &[u8]) -> Result<bool, Fail> {
    let run = chosen_run(alloc, n, picks, turns)?;
    let same = match &run {
        Some(system) => is_picked_run(alloc, system, picks),
        None => Ok(false),
    };
    drop(run);
    same
}

/// Whether a run of the plan of n with chosen answers and turns is accepted, and has these answers.
fn is_as_chosen(alloc: Global, n: u64) -> Result<bool, Fail> {
    let mut generator = Lcg64Xsh32::new(n, 3);
    let picks = low_bytes(alloc, &mut generator, 256)?;
    let turns = low_bytes(alloc, &mut generator, 4096)?;
    is_as_picked(alloc, n, &picks, &turns)
}

/// The masters take their answers, and the ports their turns, as the caller chooses.
#[test]
fn schedules(rt: HostRuntime) -> Result<(), Fail> {
    for n in 0..64 {
        assert!(rt; is_as_chosen(rt.alloc(), n)?, "{n}");
    }
    Ok(())
}
