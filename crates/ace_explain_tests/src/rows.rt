//! What a row of a table of clauses says, and the words in which rows are written.

use ace_clauses::Letter;
use ace_event::Event;

/// A trace whose last event is its first break: the least rule that it breaks, and the letter of
/// the clause.
pub struct Row {
    pub version: u8,
    /// The second line of its header.
    pub ports: &'static str,
    pub rule: u8,
    pub letter: Letter,
    pub events: &'static [Event],
}

/// A row: the version, the letters of its ports, the rule and the letter, and the events.
macro_rules! row {
    (($version:expr, $ports:expr), ($rule:expr, $letter:ident), [$($event:expr),*]) => {
        Row {
            version: $version,
            ports: $ports,
            rule: $rule,
            letter: Letter::$letter,
            events: &[$($event),*],
        }
    };
}

pub(crate) use row;

macro_rules! ar {
    ($port:expr, $id:expr, $addr:expr, $snoop:expr, $dom:expr, $bar:expr, $lock:expr) => {
        Event::Ar { port: $port, id: $id, addr: $addr, snoop: $snoop, dom: $dom, bar: $bar, lock: $lock }
    };
}

pub(crate) use ar;

macro_rules! r {
    ($port:expr, $id:expr, $resp:expr, $last:expr, $word:expr) => {
        Event::R { port: $port, id: $id, resp: $resp, last: $last, word: $word }
    };
}

pub(crate) use r;

macro_rules! rk {
    ($port:expr, $st:expr) => {
        Event::Rk { port: $port, st: $st }
    };
}

pub(crate) use rk;

macro_rules! aw {
    ($port:expr, $id:expr, $addr:expr, $snoop:expr, $dom:expr, $bar:expr) => {
        Event::Aw { port: $port, id: $id, addr: $addr, snoop: $snoop, dom: $dom, bar: $bar }
    };
}

pub(crate) use aw;

macro_rules! w {
    ($port:expr, $strb:expr, $last:expr, $word:expr) => {
        Event::W { port: $port, strb: $strb, last: $last, word: $word }
    };
}

pub(crate) use w;

macro_rules! b {
    ($port:expr, $id:expr, $resp:expr) => {
        Event::B { port: $port, id: $id, resp: $resp }
    };
}

pub(crate) use b;

macro_rules! wk {
    ($port:expr, $st:expr) => {
        Event::Wk { port: $port, st: $st }
    };
}

pub(crate) use wk;

macro_rules! ac {
    ($port:expr, $addr:expr, $snoop:expr) => {
        Event::Ac { port: $port, addr: $addr, snoop: $snoop }
    };
}

pub(crate) use ac;

macro_rules! cr {
    ($port:expr, $resp:expr, $st:expr) => {
        Event::Cr { port: $port, resp: $resp, st: $st }
    };
}

pub(crate) use cr;

macro_rules! cd {
    ($port:expr, $last:expr, $word:expr) => {
        Event::Cd { port: $port, last: $last, word: $word }
    };
}

pub(crate) use cd;

macro_rules! g {
    ($port:expr, $chan:expr, $id:expr) => {
        Event::G { port: $port, chan: $chan, id: $id }
    };
}

pub(crate) use g;

macro_rules! m {
    ($port:expr, $chan:expr, $id:expr, $line:expr) => {
        Event::M { port: $port, chan: $chan, id: $id, line: $line }
    };
}

pub(crate) use m;

macro_rules! s {
    ($port:expr, $addr:expr, $st:expr) => {
        Event::S { port: $port, addr: $addr, st: $st }
    };
}

pub(crate) use s;

macro_rules! l {
    ($port:expr, $addr:expr, $w:expr, $x:expr, $word:expr) => {
        Event::L { port: $port, addr: $addr, w: $w, x: $x, word: $word }
    };
}

pub(crate) use l;

macro_rules! d {
    ($port:expr, $addr:expr, $strobe:expr, $x:expr, $line:expr) => {
        Event::D { port: $port, addr: $addr, strobe: $strobe, x: $x, line: $line }
    };
}

pub(crate) use d;

macro_rules! op {
    ($port:expr, $k:expr, $res:expr) => {
        Event::Op { port: $port, k: $k, res: $res }
    };
}

pub(crate) use op;

macro_rules! mem {
    ($addr:expr, $line:expr) => {
        Event::Mem { addr: $addr, line: $line }
    };
}

pub(crate) use mem;
