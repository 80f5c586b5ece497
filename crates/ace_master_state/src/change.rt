//! What an event of a port does to the lines that it holds.

ghost use Rattle.std.specs.Prelude.{◌≡◌, ℕ, Option, Some, option_map, true};
ghost use Rattle.ace_event.specs.declared.header.Header.{Header};
ghost use Rattle.ace_model.specs.Trace.{Trace, port_of};
ghost use Rattle.ace_model.specs.Transactions.{is_ace};
ghost use Rattle.ace_cache.specs.Ways.{way_of};
ghost use Rattle.ace_portck.specs.OnePort.{OnePortStands};
ghost use Rattle.ace_portck.specs.Targets.{progress_of};
ghost use Rattle.ace_model.specs.declared.transactions.Transaction.{Transaction};
ghost use Rattle.ace_master_state.specs.declared.change.Change.TheVariants.{Becomes, Begins, Ends, Stores};
ghost use Rattle.ace_master_state.specs.Change.{HasPlace, becomes, begins, change_of, changed, ends};

use crate::arriving::Arriving;
use ace_cache::LineCache;
use ace_codes::LineState;
use ace_event::{Channel, Event, Line};
use ace_model::kinds::{is_line, snoops_a_line};
use ace_model::{Snoop, Transaction};
use ace_portck::{OnePort, Progress, issued};
use ace_tables::is_invalid;

/// What an event of a port does to the lines that it holds.
#[derive(Clone, Copy, Debug, PartialEq, Eq)]
pub enum Change {
    /// Nothing.
    Nothing,
    /// A transaction on the line is under way from now on.
    Begins {
        addr: u32,
    },
    /// It is no longer, and the port holds the line in this state: where it didn't hold it before,
    /// with these bytes.
    Ends {
        addr: u32,
        st: LineState,
        bytes: Line,
    },
    /// The port holds the line in this state, where it held it before.
    Becomes {
        addr: u32,
        st: LineState,
    },
    /// The port stores into the line, which may leave its state as it is.
    Stores {
        addr: u32,
        strobe: u64,
        bytes: Line,
        st: Option<LineState>,
    },
}

/// A transaction begins.
fn begins(begun: Option<Transaction>) -> Change
    ensures { result ≡ begins begun }
{
    match begun {
        Some(x) if is_line(&x) => Change::Begins { addr: x.addr },
        _ => Change::Nothing,
    }
}

/// A transaction ends, and leaves its line in this state.
fn ends(ended: Option<Progress>, st: LineState, arriving: &Arriving) -> Change
    ensures { (h : Header) (past : Trace) (x : Option Transaction)
        → ended ≡ option_map (progress_of h past) x → result ≡ ends x st arriving.now }
{
    let Some(x) = ended else {
        return Change::Nothing;
    };
    if !is_line(&x.transaction) {
        return Change::Nothing;
    }
    Change::Ends {
        addr: x.transaction.addr,
        st,
        bytes: arriving.get(x.transaction.id),
    }
}

/// A snoop is answered, and leaves its line in this state.
fn becomes(answered: Option<Snoop>, st: LineState) -> Change
    ensures { result ≡ becomes answered st }
{
    match answered {
        Some(s) if snoops_a_line(s.snoop) => Change::Becomes { addr: s.addr, st },
        _ => Change::Nothing,
    }
}

/// What an event of the port, an ACE port, does to the lines that it holds.
pub fn change_of(port: &OnePort, arriving: &Arriving, event: &Event) -> Change
    ensures { (h : Header) (past : Trace) (p : ℕ) → OnePortStands port.now h past p
        → is_ace h p ≡ true → port_of event.now ≡ Some p
        → result ≡ change_of h past arriving.now event.now }
{
    match *event {
        Event::Ar { .. } | Event::Aw { .. } => begins(issued(port.count(), event)),
        Event::Rk { st, .. } => ends(port.acknowledged(Channel::Read), st, arriving),
        Event::Wk { st, .. } => ends(port.acknowledged(Channel::Write), st, arriving),
        Event::Cr { st, .. } => becomes(port.answered(), st),
        Event::S { addr, st, .. } => Change::Becomes { addr, st },
        Event::D {
            addr,
            strobe,
            line,
            ..
        } => Change::Stores {
            addr,
            strobe,
            bytes: line,
            st: if port.is_line_free(addr) {
                Some(LineState::UD)
            } else {
                None
            },
        },
        _ => Change::Nothing,
    }
}

/// A transaction on the line is under way.
fn begin(cache: &mut LineCache, addr: u32)
    ensures ways { cache.new.ways ≡ cache.old.ways }
    ensures changed { (l : ℕ) → way_of cache.new.held l
        ≡ changed (Begins addr) l (way_of cache.old.held l) }
{
    if let Some(way) = cache.find(addr) {
        cache.set(addr, way.st, true);
    }
}

/// The line is in this state, and no transaction on it is under way.
fn end(cache: &mut LineCache, addr: u32, st: LineState, bytes: Line)
    ensures ways { cache.new.ways ≡ cache.old.ways }
    ensures changed { HasPlace cache.old (Ends addr st bytes) → (l : ℕ)
        → way_of cache.new.held l ≡ changed (Ends addr st bytes) l (way_of cache.old.held l) }
{
    let held = cache.find(addr).is_some();
    if is_invalid(st) {
        if held {
            cache.drop_line(addr);
        }
    } else if held {
        cache.set(addr, st, false);
    } else if cache.has_room() {
        cache.fill(addr, bytes, st, false);
    }
}

/// The line is in this state, where it is held.
fn keep(cache: &mut LineCache, addr: u32, st: LineState)
    ensures ways { cache.new.ways ≡ cache.old.ways }
    ensures changed { (l : ℕ) → way_of cache.new.held l
        ≡ changed (Becomes addr st) l (way_of cache.old.held l) }
{
    if let Some(way) = cache.find(addr) {
        if is_invalid(st) {
            cache.drop_line(addr);
        } else {
            cache.set(addr, st, way.busy);
        }
    }
}

/// The port stores into the line, where it is held.
fn store(cache: &mut LineCache, addr: u32, strobe: u64, bytes: Line, st: Option<LineState>)
    ensures ways { cache.new.ways ≡ cache.old.ways }
    ensures changed { (l : ℕ) → way_of cache.new.held l
        ≡ changed (Stores addr strobe bytes st) l (way_of cache.old.held l) }
{
    if let Some(way) = cache.find(addr) {
        cache.store(addr, strobe, bytes);
        cache.set(addr, st.unwrap_or(way.st), way.busy);
    }
}

/// Makes the change.
pub fn make(cache: &mut LineCache, change: &Change)
    ensures ways { cache.new.ways ≡ cache.old.ways }
    ensures changed { HasPlace cache.old change.now → (l : ℕ)
        → way_of cache.new.held l ≡ changed change.now l (way_of cache.old.held l) }
{
    match *change {
        Change::Nothing => {}
        Change::Begins { addr } => begin(cache, addr),
        Change::Ends { addr, st, bytes } => end(cache, addr, st, bytes),
        Change::Becomes { addr, st } => keep(cache, addr, st),
        Change::Stores {
            addr,
            strobe,
            bytes,
            st,
        } => store(cache, addr, strobe, bytes, st),
    }
}
