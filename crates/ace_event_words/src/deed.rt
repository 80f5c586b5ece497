// What an event does, without its data.
ghost use Rattle.std.specs.Prelude.{◌≡◌};
ghost use Rattle.ace_event_words.specs.Deeds.{deed_of, kind_of, kind_under};

use ace_codes::LineState;
use ace_event::{Channel, Event, Outcome};
use ace_model::Transaction;

/// What tells of which kind a transaction is: its channel, and the codes of its address.
#[derive(Clone, Copy)]
pub struct Kind {
    pub chan: Channel,
    pub snoop: u8,
    pub dom: u8,
    pub bar: u8,
}

/// An event without its addresses and its data, and the kind of the transaction that it belongs to.
#[derive(Clone, Copy)]
pub enum Deed {
    Ar {
        port: u8,
        kind: Kind,
        id: u8,
        lock: bool,
    },
    R {
        port: u8,
        kind: Option<Kind>,
        resp: u8,
    },
    Rk {
        port: u8,
        kind: Option<Kind>,
        st: LineState,
    },
    Aw {
        port: u8,
        kind: Kind,
        id: u8,
    },
    W {
        port: u8,
        kind: Option<Kind>,
    },
    B {
        port: u8,
        kind: Option<Kind>,
        resp: u8,
    },
    Wk {
        port: u8,
        kind: Option<Kind>,
        st: LineState,
    },
    Ac {
        port: u8,
        snoop: u8,
    },
    Cr {
        port: u8,
        resp: u8,
        st: LineState,
    },
    Cd {
        port: u8,
    },
    G {
        port: u8,
        kind: Option<Kind>,
    },
    M {
        port: u8,
        kind: Option<Kind>,
    },
    S {
        port: u8,
        st: LineState,
    },
    L {
        port: u8,
        w: u8,
        x: bool,
    },
    D {
        port: u8,
        x: bool,
    },
    Op {
        port: u8,
        k: u16,
        res: Outcome,
    },
    Mem,
}

/// The kind of a transaction, if there is one.
fn kind_under(serves: &Option<Transaction>) -> Option<Kind>
    ensures { result ≡ kind_under serves.now }
{
    match serves {
        Some(it) => Some(Kind {
            chan: it.chan,
            snoop: it.snoop,
            dom: it.dom,
            bar: it.bar,
        }),
        None => None,
    }
}

/// What the event does, which belongs to this transaction, if it belongs to one.
pub fn deed_of(serves: &Option<Transaction>, event: &Event) -> Deed
    ensures { result ≡ deed_of serves.now event.now }
{
    let kind = kind_under(serves);
    match *event {
        Event::Ar {
            port,
            id,
            snoop,
            dom,
            bar,
            lock,
            ..
        } => {
            let kind = Kind {
                chan: Channel::Read,
                snoop,
                dom,
                bar,
            };
            Deed::Ar {
                port,
                kind,
                id,
                lock,
            }
        }
        Event::R { port, resp, .. } => Deed::R { port, kind, resp },
        Event::Rk { port, st } => Deed::Rk { port, kind, st },
        Event::Aw {
            port,
            id,
            snoop,
            dom,
            bar,
            ..
        } => {
            let kind = Kind {
                chan: Channel::Write,
                snoop,
                dom,
                bar,
            };
            Deed::Aw { port, kind, id }
        }
        Event::W { port, .. } => Deed::W { port, kind },
        Event::B { port, resp, .. } => Deed::B { port, kind, resp },
        Event::Wk { port, st } => Deed::Wk { port, kind, st },
        Event::Ac { port, snoop, .. } => Deed::Ac { port, snoop },
        Event::Cr { port, resp, st } => Deed::Cr { port, resp, st },
        Event::Cd { port, .. } => Deed::Cd { port },
        Event::G { port, .. } => Deed::G { port, kind },
        Event::M { port, .. } => Deed::M { port, kind },
        Event::S { port, st, .. } => Deed::S { port, st },
        Event::L { port, w, x, .. } => Deed::L { port, w, x },
        Event::D { port, x, .. } => Deed::D { port, x },
        Event::Op { port, k, res } => Deed::Op { port, k, res },
        Event::Mem { .. } => Deed::Mem,
    }
}
