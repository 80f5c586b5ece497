//! What a case of a short trace says, and the words in which cases are written.

use ace_codes::LineState::UC;
use ace_event::Channel::Read;
use ace_event::Event;

/// The ports of a case.
#[derive(Clone, Copy)]
pub enum Ports {
    TwoAce,
    ThreeAce,
    /// Port 0 is an ACE port, port 1 an ACE-Lite port.
    AceAndLite,
}

/// A trace, and its first break: the number of the event, from 1, and the least rule that it
/// breaks.
pub struct Case {
    pub ports: Ports,
    /// The events with which it begins.
    pub front: &'static [Event],
    pub events: &'static [Event],
    pub breaks: Option<(u64, u8)>,
}

macro_rules! alone {
    ($ports:expr, [$($event:expr),*], $breaks:expr) => {
        Case { ports: $ports, front: &[], events: &[$($event),*], breaks: $breaks }
    };
}

pub(crate) use alone;

/// After port 0 got line 64.
macro_rules! after_get {
    ($ports:expr, [$($event:expr),*], $breaks:expr) => {
        Case { ports: $ports, front: GET, events: &[$($event),*], breaks: $breaks }
    };
}

pub(crate) use after_get;

macro_rules! ar {
    ($port:expr, $id:expr, $addr:expr, $snoop:expr, $dom:expr, $bar:expr, $lock:expr) => {
        Event::Ar { port: $port, id: $id, addr: $addr, snoop: $snoop, dom: $dom, bar: $bar, lock: $lock }
    };
}

pub(crate) use ar;

macro_rules! aw {
    ($port:expr, $id:expr, $addr:expr, $snoop:expr, $dom:expr, $bar:expr) => {
        Event::Aw { port: $port, id: $id, addr: $addr, snoop: $snoop, dom: $dom, bar: $bar }
    };
}

pub(crate) use aw;

/// The AR of a ReadUnique.
macro_rules! read {
    ($port:expr, $id:expr, $addr:expr) => { ar!($port, $id, $addr, 7, 1, 0, false) };
}

pub(crate) use read;

macro_rules! r {
    ($port:expr, $id:expr, $resp:expr, $last:expr) => {
        Event::R { port: $port, id: $id, resp: $resp, last: $last, word: 0 }
    };
}

pub(crate) use r;

macro_rules! rk {
    ($port:expr, $st:expr) => { Event::Rk { port: $port, st: $st } };
}

pub(crate) use rk;

macro_rules! ac {
    ($port:expr, $addr:expr, $snoop:expr)
    => { Event::Ac { port: $port, addr: $addr, snoop: $snoop } };
}

pub(crate) use ac;

macro_rules! cr {
    ($port:expr, $resp:expr, $st:expr) => { Event::Cr { port: $port, resp: $resp, st: $st } };
}

pub(crate) use cr;

macro_rules! g {
    ($port:expr, $chan:expr, $id:expr) => { Event::G { port: $port, chan: $chan, id: $id } };
}

pub(crate) use g;

macro_rules! b {
    ($port:expr, $id:expr, $resp:expr) => { Event::B { port: $port, id: $id, resp: $resp } };
}

pub(crate) use b;

/// Port 0 gets line 64 in UniqueClean while no other port holds it.
pub const GET: &[Event] = &[
    read!(0, 0, 64),
    g!(0, Read, 0),
    r!(0, 0, 0, false),
    r!(0, 0, 0, false),
    r!(0, 0, 0, false),
    r!(0, 0, 0, true),
    rk!(0, UC),
];
