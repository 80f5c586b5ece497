// The records of events, and the header, put at the front of some bytes: a function for each
// record, which says how many bytes it has.
ghost use Rattle.std.specs.Prelude.{◌≡◌, ◌≤◌, length, take};
ghost use Rattle.ace_event.specs.declared.event.Event.TheVariants.{Ar, R, Rk, Aw, W, B, Wk, Ac, Cr, Cd, G, M, S, L, D, Op, Mem};
ghost use Rattle.ace_bin.specs.Binary.{header_bytes};
ghost use Rattle.ace_bin.specs.Records.{event_bytes};

use crate::put_fields::{
    put_byte, put_channel, put_eight, put_flag, put_four, put_one, put_outcome, put_piece,
    put_state, put_tag, put_two, put_word,
};
use ace_codes::LineState;
use ace_event::{Channel, Event, Header, Line, Outcome};

/// The ten bytes of a header.
pub fn put_header(into: &mut [u8], header: &Header) -> usize
    requires { 79 ≤ length into.old }
    ensures header { take result into.new ≡ header_bytes header.now }
    ensures size { result ≡ 10 }
{
    put_piece(into, 0, 4, b"ACEB");
    put_byte(into, 4, header.version);
    put_byte(into, 5, header.ports);
    put_four(into, 6, header.ace);
    10
}

/// The record of a read address.
#[inline(always)]
fn put_ar(
    into: &mut [u8],
    port: u8,
    id: u8,
    addr: u32,
    snoop: u8,
    dom: u8,
    bar: u8,
    lock: bool,
) -> usize
    requires { 79 ≤ length into.old }
    ensures record { take result into.new ≡ event_bytes (Ar port id addr snoop dom bar lock) }
    ensures size { result ≤ 79 }
{
    put_tag(into, 0x01);
    put_one(into, 1, port);
    put_one(into, 2, id);
    put_four(into, 3, addr);
    put_one(into, 7, snoop);
    put_one(into, 8, dom);
    put_one(into, 9, bar);
    put_flag(into, 10, lock);
    11
}

/// The record of a read transfer.
#[inline(always)]
fn put_r(into: &mut [u8], port: u8, id: u8, resp: u8, last: bool, word: u128) -> usize
    requires { 79 ≤ length into.old }
    ensures record { take result into.new ≡ event_bytes (R port id resp last word) }
    ensures size { result ≤ 79 }
{
    put_tag(into, 0x02);
    put_one(into, 1, port);
    put_one(into, 2, id);
    put_one(into, 3, resp);
    put_flag(into, 4, last);
    put_word(into, 5, word);
    21
}

/// The record of a read acknowledge.
#[inline(always)]
fn put_rk(into: &mut [u8], port: u8, st: LineState) -> usize
    requires { 79 ≤ length into.old }
    ensures record { take result into.new ≡ event_bytes (Rk port st) }
    ensures size { result ≤ 79 }
{
    put_tag(into, 0x03);
    put_one(into, 1, port);
    put_state(into, 2, st);
    3
}

/// The record of a write address.
#[inline(always)]
fn put_aw(into: &mut [u8], port: u8, id: u8, addr: u32, snoop: u8, dom: u8, bar: u8) -> usize
    requires { 79 ≤ length into.old }
    ensures record { take result into.new ≡ event_bytes (Aw port id addr snoop dom bar) }
    ensures size { result ≤ 79 }
{
    put_tag(into, 0x04);
    put_one(into, 1, port);
    put_one(into, 2, id);
    put_four(into, 3, addr);
    put_one(into, 7, snoop);
    put_one(into, 8, dom);
    put_one(into, 9, bar);
    10
}

/// The record of a write transfer.
#[inline(always)]
fn put_w(into: &mut [u8], port: u8, strb: u16, last: bool, word: u128) -> usize
    requires { 79 ≤ length into.old }
    ensures record { take result into.new ≡ event_bytes (W port strb last word) }
    ensures size { result ≤ 79 }
{
    put_tag(into, 0x05);
    put_one(into, 1, port);
    put_two(into, 2, strb);
    put_flag(into, 4, last);
    put_word(into, 5, word);
    21
}

/// The record of a write response.
#[inline(always)]
fn put_b(into: &mut [u8], port: u8, id: u8, resp: u8) -> usize
    requires { 79 ≤ length into.old }
    ensures record { take result into.new ≡ event_bytes (B port id resp) }
    ensures size { result ≤ 79 }
{
    put_tag(into, 0x06);
    put_one(into, 1, port);
    put_one(into, 2, id);
    put_one(into, 3, resp);
    4
}

/// The record of a write acknowledge.
#[inline(always)]
fn put_wk(into: &mut [u8], port: u8, st: LineState) -> usize
    requires { 79 ≤ length into.old }
    ensures record { take result into.new ≡ event_bytes (Wk port st) }
    ensures size { result ≤ 79 }
{
    put_tag(into, 0x07);
    put_one(into, 1, port);
    put_state(into, 2, st);
    3
}

/// The record of a snoop address.
#[inline(always)]
fn put_ac(into: &mut [u8], port: u8, addr: u32, snoop: u8) -> usize
    requires { 79 ≤ length into.old }
    ensures record { take result into.new ≡ event_bytes (Ac port addr snoop) }
    ensures size { result ≤ 79 }
{
    put_tag(into, 0x08);
    put_one(into, 1, port);
    put_four(into, 2, addr);
    put_one(into, 6, snoop);
    7
}

/// The record of a snoop response.
#[inline(always)]
fn put_cr(into: &mut [u8], port: u8, resp: u8, st: LineState) -> usize
    requires { 79 ≤ length into.old }
    ensures record { take result into.new ≡ event_bytes (Cr port resp st) }
    ensures size { result ≤ 79 }
{
    put_tag(into, 0x09);
    put_one(into, 1, port);
    put_one(into, 2, resp);
    put_state(into, 3, st);
    4
}

/// The record of a snoop data transfer.
#[inline(always)]
fn put_cd(into: &mut [u8], port: u8, last: bool, word: u128) -> usize
    requires { 79 ≤ length into.old }
    ensures record { take result into.new ≡ event_bytes (Cd port last word) }
    ensures size { result ≤ 79 }
{
    put_tag(into, 0x0a);
    put_one(into, 1, port);
    put_flag(into, 2, last);
    put_word(into, 3, word);
    19
}

/// The record of a grant.
#[inline(always)]
fn put_g(into: &mut [u8], port: u8, chan: Channel, id: u8) -> usize
    requires { 79 ≤ length into.old }
    ensures record { take result into.new ≡ event_bytes (G port chan id) }
    ensures size { result ≤ 79 }
{
    put_tag(into, 0x0b);
    put_one(into, 1, port);
    put_channel(into, 2, chan);
    put_one(into, 3, id);
    4
}

/// The record of a memory write.
#[inline(always)]
fn put_m(into: &mut [u8], port: u8, chan: Channel, id: u8, line: &Line) -> usize
    requires { 79 ≤ length into.old }
    ensures record { take result into.new ≡ event_bytes (M port chan id line.now) }
    ensures size { result ≤ 79 }
{
    let [first, second, third, fourth] = line.words;
    put_tag(into, 0x0c);
    put_one(into, 1, port);
    put_channel(into, 2, chan);
    put_one(into, 3, id);
    put_word(into, 4, first);
    put_word(into, 20, second);
    put_word(into, 36, third);
    put_word(into, 52, fourth);
    68
}

/// The record of a silent transition.
#[inline(always)]
fn put_s(into: &mut [u8], port: u8, addr: u32, st: LineState) -> usize
    requires { 79 ≤ length into.old }
    ensures record { take result into.new ≡ event_bytes (S port addr st) }
    ensures size { result ≤ 79 }
{
    put_tag(into, 0x0d);
    put_one(into, 1, port);
    put_four(into, 2, addr);
    put_state(into, 6, st);
    7
}

/// The record of a load.
#[inline(always)]
fn put_l(into: &mut [u8], port: u8, addr: u32, w: u8, x: bool, word: u128) -> usize
    requires { 79 ≤ length into.old }
    ensures record { take result into.new ≡ event_bytes (L port addr w x word) }
    ensures size { result ≤ 79 }
{
    put_tag(into, 0x0e);
    put_one(into, 1, port);
    put_four(into, 2, addr);
    put_one(into, 6, w);
    put_flag(into, 7, x);
    put_word(into, 8, word);
    24
}

/// The record of a store.
#[inline(always)]
fn put_d(into: &mut [u8], port: u8, addr: u32, strobe: u64, x: bool, line: &Line) -> usize
    requires { 79 ≤ length into.old }
    ensures record { take result into.new ≡ event_bytes (D port addr strobe x line.now) }
    ensures size { result ≤ 79 }
{
    let [first, second, third, fourth] = line.words;
    put_tag(into, 0x0f);
    put_one(into, 1, port);
    put_four(into, 2, addr);
    put_eight(into, 6, strobe);
    put_flag(into, 14, x);
    put_word(into, 15, first);
    put_word(into, 31, second);
    put_word(into, 47, third);
    put_word(into, 63, fourth);
    79
}

/// The record of a retired operation.
#[inline(always)]
fn put_op(into: &mut [u8], port: u8, k: u16, res: Outcome) -> usize
    requires { 79 ≤ length into.old }
    ensures record { take result into.new ≡ event_bytes (Op port k res) }
    ensures size { result ≤ 79 }
{
    put_tag(into, 0x10);
    put_one(into, 1, port);
    put_two(into, 2, k);
    put_outcome(into, 4, res);
    5
}

/// The record of the opening memory of a line.
#[inline(always)]
fn put_mem(into: &mut [u8], addr: u32, line: &Line) -> usize
    requires { 79 ≤ length into.old }
    ensures record { take result into.new ≡ event_bytes (Mem addr line.now) }
    ensures size { result ≤ 79 }
{
    let [first, second, third, fourth] = line.words;
    put_tag(into, 0x11);
    put_four(into, 1, addr);
    put_word(into, 5, first);
    put_word(into, 21, second);
    put_word(into, 37, third);
    put_word(into, 53, fourth);
    69
}

/// The record of an event.
#[inline(always)]
pub fn put_event(into: &mut [u8], event: &Event) -> usize
    requires { 79 ≤ length into.old }
    ensures record { take result into.new ≡ event_bytes event.now }
    ensures size { result ≤ 79 }
{
    match event {
        Event::Ar {
            port,
            id,
            addr,
            snoop,
            dom,
            bar,
            lock,
        } => put_ar(into, *port, *id, *addr, *snoop, *dom, *bar, *lock),
        Event::R {
            port,
            id,
            resp,
            last,
            word,
        } => put_r(into, *port, *id, *resp, *last, *word),
        Event::Rk { port, st } => put_rk(into, *port, *st),
        Event::Aw {
            port,
            id,
            addr,
            snoop,
            dom,
            bar,
        } => put_aw(into, *port, *id, *addr, *snoop, *dom, *bar),
        Event::W {
            port,
            strb,
            last,
            word,
        } => put_w(into, *port, *strb, *last, *word),
        Event::B { port, id, resp } => put_b(into, *port, *id, *resp),
        Event::Wk { port, st } => put_wk(into, *port, *st),
        Event::Ac { port, addr, snoop } => put_ac(into, *port, *addr, *snoop),
        Event::Cr { port, resp, st } => put_cr(into, *port, *resp, *st),
        Event::Cd { port, last, word } => put_cd(into, *port, *last, *word),
        Event::G { port, chan, id } => put_g(into, *port, *chan, *id),
        Event::M {
            port,
            chan,
            id,
            line,
        } => put_m(into, *port, *chan, *id, line),
        Event::S { port, addr, st } => put_s(into, *port, *addr, *st),
        Event::L {
            port,
            addr,
            w,
            x,
            word,
        } => put_l(into, *port, *addr, *w, *x, *word),
        Event::D {
            port,
            addr,
            strobe,
            x,
            line,
        } => put_d(into, *port, *addr, *strobe, *x, line),
        Event::Op { port, k, res } => put_op(into, *port, *k, *res),
        Event::Mem { addr, line } => put_mem(into, *addr, line),
    }
}
