// The names of the lines that events use.
ghost use Rattle.std.specs.Prelude.{◌≡◌, ◌≤◌, ◌<◌, ◌-◌, ◌^◌, ◌∷◌, ℕ, List, [], IfSome, All, Some, None, Err, IfOk, length, true, is_some};
ghost use Rattle.ace_event.specs.declared.event.Event.{Event};
ghost use Rattle.ace_model.specs.AddressRules.{line_address};
ghost use Rattle.ace_c.specs.Names.{line_used, most_names, name_in, named_event, with_address, with_line};
ghost use Rattle.ace_c.specs.Naming.{IsRecent, NamesStand};
ghost use Rattle.ace_c.specs.declared.names.Recent.{Recent};
ghost use Rattle.ace_c.specs.Range.{InRange};

use ace_codes::{read_ar, read_aw};
use ace_event::Event;
use ace_model::kinds::{is_line_read, is_line_write, snoops_a_line};
use std::alloc::Global;
use std::collections::BTreeMap;

/// How many names there are: those of the lines below address 2^32.
const MOST_NAMES: usize = 0x400_0000;

/// Why a line has no name.
#[derive(Clone, Copy)]
pub enum Nameless {
    /// All names are taken.
    AllTaken,
    /// There is no memory for one more.
    NoMemory,
}

/// The address of the event is that of a line.
#[inline(always)]
pub(crate) fn uses_line(event: &Event) -> bool
    ensures { result ≡ is_some (line_address event.now) }
{
    match *event {
        Event::Ar {
            snoop,
            dom,
            bar,
            ..
        } => read_ar(snoop, dom, bar).is_some_and(is_line_read),
        Event::Aw {
            snoop,
            dom,
            bar,
            ..
        } => read_aw(snoop, dom, bar).is_some_and(is_line_write),
        Event::Ac { snoop, .. } => snoops_a_line(snoop),
        Event::S { .. } | Event::L { .. } | Event::D { .. } | Event::Mem { .. } => true,
        _ => false,
    }
}

/// The event with this address, where it has one.
#[inline(always)]
fn with_address(event: Event, to: u32) -> Event
    ensures { result ≡ with_address event to }
{
    let mut event = event;
    match &mut event {
        Event::Ar { addr, .. } => *addr = to,
        Event::Aw { addr, .. } => *addr = to,
        Event::Ac { addr, .. } => *addr = to,
        Event::S { addr, .. } => *addr = to,
        Event::L { addr, .. } => *addr = to,
        Event::D { addr, .. } => *addr = to,
        Event::Mem { addr, .. } => *addr = to,
        _ => {}
    }
    event
}

/// The address, where it has four bytes.
#[inline(always)]
fn short(addr: u64) -> u32
    ensures { addr < 2 ^ 32 → result ≡ addr }
{
    u32::try_from(addr).unwrap_or(0)
}

/// How many names are remembered.
const RECENT: usize = 1024;

/// A line with its name, or no line: a number that is no name.
#[derive(Clone, Copy)]
pub struct Recent {
    line: u64,
    name: u32,
}

/// Where the name of the line is remembered, if it is.
#[inline(always)]
fn place_of(line: u64) -> usize
    ensures { result < 1024 }
{
    (line as usize) % RECENT
}

/// Nothing is remembered.
fn nothing_recent() -> [Recent; RECENT]
    ensures { (lines : List ℕ) → All (IsRecent lines) result }
{
    [Recent {
        line: 0,
        name: u32::MAX,
    }; RECENT]
}

/// The lines that have names, and which. For each place the line that was asked for last is
/// remembered, as a look-up of all lines takes longer.
#[derive(Drop)]
pub struct Names {
    places: BTreeMap<u64, u32>,
    recent: [Recent; RECENT],
}

impl Names {
    /// No line has a name.
    pub(crate) fn new(alloc: Global) -> Names
        ensures { NamesStand result [] }
    {
        Names {
            places: BTreeMap::new(alloc),
            recent: nothing_recent(),
        }
    }

    /// The event that a program gave with this address, with the name of its line. A line that has
    /// no name gets one.
    #[inline(always)]
    pub(crate) fn named(&mut self, event: Event, addr: u64) -> Result<Event, Nameless>
        ensures named { (version : ℕ) (lines : List ℕ) → NamesStand self.old lines
            → InRange version (with_address event addr) → IfOk result (λ named.
            (named ≡ named_event (with_line (line_used (with_address event addr)) lines)
            (with_address event addr))
            × NamesStand self.new (with_line (line_used (with_address event addr)) lines)) }
        ensures all_taken { (lines : List ℕ) → NamesStand self.old lines
            → result ≡ Err Nameless.AllTaken
            → (l : ℕ) × (line_used (with_address event addr) ≡ Some l)
            × (name_in lines l ≡ None) × (most_names ≤ length lines) }
        ensures no_memory { (lines : List ℕ) → NamesStand self.old lines
            → result ≡ Err Nameless.NoMemory
            → (l : ℕ) × (line_used (with_address event addr) ≡ Some l)
            × (name_in lines l ≡ None) }
    {
        if !uses_line(&event) {
            return Ok(with_address(event, short(addr)));
        }
        let name = self.name(addr / 64)?;
        let place = (addr % 64) as u32;
        Ok(with_address(event, name.wrapping_mul(64).wrapping_add(place)))
    }

    /// The name of the line, which gets one where it has none.
    #[inline(always)]
    fn name(&mut self, line: u64) -> Result<u32, Nameless>
        ensures named { (lines : List ℕ) → NamesStand self.old lines → IfOk result (λ k.
            (name_in (with_line (Some line) lines) line ≡ Some k) × (k < most_names)
            × NamesStand self.new (with_line (Some line) lines)) }
        ensures all_taken { (lines : List ℕ) → NamesStand self.old lines
            → result ≡ Err Nameless.AllTaken
            → (name_in lines line ≡ None) × (most_names ≤ length lines) }
        ensures no_memory { (lines : List ℕ) → NamesStand self.old lines
            → result ≡ Err Nameless.NoMemory → name_in lines line ≡ None }
    {
        match self.recall(line) {
            Some(name) => Ok(name),
            None => self.search(line),
        }
    }

    /// The name of the line, if it is remembered.
    #[inline(always)]
    fn recall(&self, line: u64) -> Option<u32>
        ensures { (lines : List ℕ) → NamesStand self.now lines
            → IfSome result (λ k. (name_in lines line ≡ Some k) × (k < most_names)) }
    {
        let kept = self.recent[place_of(line)];
        if kept.line == line && kept.name < MOST_NAMES as u32 {
            Some(kept.name)
        } else {
            None
        }
    }

    /// Remembers the name of the line.
    #[inline(always)]
    fn remember(&mut self, line: u64, name: u32)
        ensures { (lines : List ℕ) → NamesStand self.old lines → name_in lines line ≡ Some name
            → NamesStand self.new lines }
    {
        self.recent[place_of(line)] = Recent { line, name };
    }

    /// The same of a line whose name isn't remembered.
    #[inline(never)]
    fn search(&mut self, line: u64) -> Result<u32, Nameless>
        ensures named { (lines : List ℕ) → NamesStand self.old lines → IfOk result (λ k.
            (name_in (with_line (Some line) lines) line ≡ Some k) × (k < most_names)
            × NamesStand self.new (with_line (Some line) lines)) }
        ensures all_taken { (lines : List ℕ) → NamesStand self.old lines
            → result ≡ Err Nameless.AllTaken
            → (name_in lines line ≡ None) × (most_names ≤ length lines) }
        ensures no_memory { (lines : List ℕ) → NamesStand self.old lines
            → result ≡ Err Nameless.NoMemory → name_in lines line ≡ None }
    {
        let Some(name) = self.places.get(&line).copied() else {
            return self.name_new(line);
        };
        self.remember(line, name);
        Ok(name)
    }

    /// A name for a line that has none.
    #[cold]
    #[inline(never)]
    fn name_new(&mut self, line: u64) -> Result<u32, Nameless>
        ensures named { (lines : List ℕ) → NamesStand self.old lines
            → name_in lines line ≡ None → IfOk result (λ k.
            (k ≡ length lines) × (k < most_names) × NamesStand self.new (line ∷ lines)) }
        ensures all_taken { (lines : List ℕ) → NamesStand self.old lines
            → result ≡ Err Nameless.AllTaken → most_names ≤ length lines }
    {
        let count = self.places.len();
        if count >= MOST_NAMES {
            return Err(Nameless::AllTaken);
        }
        let name = count as u32;
        match self.places.insert(line, name) {
            Ok(_) => Ok(name),
            Err(_) => Err(Nameless::NoMemory),
        }
    }
}
