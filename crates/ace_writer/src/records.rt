// The lines of events, without their line feeds: a function for each record.
ghost use Rattle.std.specs.Prelude.{◌≡◌, ◌≤◌, ◌+◌, ◌++◌, length};
ghost use Rattle.ace_event.specs.declared.event.Event.TheVariants.{Ar, R, Rk, Aw, W, B, Wk, Ac, Cr, Cd, G, M, S, L, D, Op, Mem};
ghost use Rattle.ace_event.specs.Range.{InRange};
ghost use Rattle.ace_event.specs.Text.{event_text};

use crate::text_buf::TextBuf;
use ace_codes::LineState;
use ace_event::{Channel, Event, Line, Outcome};

impl TextBuf {
    /// The line of an event, in a trace of the version.
    pub(crate) fn push_event(&mut self, version: u8, event: &Event)
        requires range { InRange version event.now }
        requires room { length self.old + 161 ≤ 4096 }
        ensures value { self.new ≡ self.old ++ event_text version event.now }
        ensures len { length self.new ≤ length self.old + 161 }
    {
        match event {
            Event::Ar {
                port,
                id,
                addr,
                snoop,
                dom,
                bar,
                lock,
            } => self.push_ar(version, *port, *id, *addr, *snoop, *dom, *bar, *lock),
            Event::R {
                port,
                id,
                resp,
                last,
                word,
            } => self.push_r(version, *port, *id, *resp, *last, *word),
            Event::Rk { port, st } => self.push_rk(version, *port, *st),
            Event::Aw {
                port,
                id,
                addr,
                snoop,
                dom,
                bar,
            } => self.push_aw(version, *port, *id, *addr, *snoop, *dom, *bar),
            Event::W {
                port,
                strb,
                last,
                word,
            } => self.push_w(version, *port, *strb, *last, *word),
            Event::B { port, id, resp } => self.push_b(version, *port, *id, *resp),
            Event::Wk { port, st } => self.push_wk(version, *port, *st),
            Event::Ac { port, addr, snoop } => self.push_ac(version, *port, *addr, *snoop),
            Event::Cr { port, resp, st } => self.push_cr(version, *port, *resp, *st),
            Event::Cd { port, last, word } => self.push_cd(version, *port, *last, *word),
            Event::G { port, chan, id } => self.push_g(version, *port, *chan, *id),
            Event::M {
                port,
                chan,
                id,
                line,
            } => self.push_m(version, *port, *chan, *id, line),
            Event::S { port, addr, st } => self.push_s(version, *port, *addr, *st),
            Event::L {
                port,
                addr,
                w,
                x,
                word,
            } => self.push_l(version, *port, *addr, *w, *x, *word),
            Event::D {
                port,
                addr,
                strobe,
                x,
                line,
            } => self.push_d(version, *port, *addr, *strobe, *x, line),
            Event::Op { port, k, res } => self.push_op(version, *port, *k, *res),
            Event::Mem { addr, line } => self.push_mem(*addr, line),
        }
    }

    /// The line of a read address.
    fn push_ar(
        &mut self,
        version: u8,
        port: u8,
        id: u8,
        addr: u32,
        snoop: u8,
        dom: u8,
        bar: u8,
        lock: bool,
    )
        requires range { InRange version (Ar port id addr snoop dom bar lock) }
        requires room { length self.old + 161 ≤ 4096 }
        ensures value { self.new ≡ self.old
            ++ event_text version (Ar port id addr snoop dom bar lock) }
        ensures len { length self.new ≤ length self.old + 161 }
    {
        self.append(b"AR");
        self.push_port(version, port);
        self.push_digit(id);
        self.push_number(8, u128::from(addr));
        self.push_digit(snoop);
        self.push_digit(dom);
        self.push_digit(bar);
        self.push_flag(lock);
    }

    /// The line of a read transfer.
    fn push_r(&mut self, version: u8, port: u8, id: u8, resp: u8, last: bool, word: u128)
        requires range { InRange version (R port id resp last word) }
        requires room { length self.old + 161 ≤ 4096 }
        ensures value { self.new ≡ self.old ++ event_text version (R port id resp last word) }
        ensures len { length self.new ≤ length self.old + 161 }
    {
        self.append(b"R");
        self.push_port(version, port);
        self.push_digit(id);
        self.push_digit(resp);
        self.push_flag(last);
        self.push_number(32, word);
    }

    /// The line of a read acknowledge.
    fn push_rk(&mut self, version: u8, port: u8, st: LineState)
        requires range { InRange version (Rk port st) }
        requires room { length self.old + 161 ≤ 4096 }
        ensures value { self.new ≡ self.old ++ event_text version (Rk port st) }
        ensures len { length self.new ≤ length self.old + 161 }
    {
        self.append(b"RK");
        self.push_port(version, port);
        self.push_state(st);
    }

    /// The line of a write address.
    fn push_aw(&mut self, version: u8, port: u8, id: u8, addr: u32, snoop: u8, dom: u8, bar: u8)
        requires range { InRange version (Aw port id addr snoop dom bar) }
        requires room { length self.old + 161 ≤ 4096 }
        ensures value { self.new ≡ self.old ++ event_text version (Aw port id addr snoop dom bar) }
        ensures len { length self.new ≤ length self.old + 161 }
    {
        self.append(b"AW");
        self.push_port(version, port);
        self.push_digit(id);
        self.push_number(8, u128::from(addr));
        self.push_digit(snoop);
        self.push_digit(dom);
        self.push_digit(bar);
    }

    /// The line of a write transfer.
    fn push_w(&mut self, version: u8, port: u8, strb: u16, last: bool, word: u128)
        requires range { InRange version (W port strb last word) }
        requires room { length self.old + 161 ≤ 4096 }
        ensures value { self.new ≡ self.old ++ event_text version (W port strb last word) }
        ensures len { length self.new ≤ length self.old + 161 }
    {
        self.append(b"W");
        self.push_port(version, port);
        self.push_number(4, u128::from(strb));
        self.push_flag(last);
        self.push_number(32, word);
    }

    /// The line of a write response.
    fn push_b(&mut self, version: u8, port: u8, id: u8, resp: u8)
        requires range { InRange version (B port id resp) }
        requires room { length self.old + 161 ≤ 4096 }
        ensures value { self.new ≡ self.old ++ event_text version (B port id resp) }
        ensures len { length self.new ≤ length self.old + 161 }
    {
        self.append(b"B");
        self.push_port(version, port);
        self.push_digit(id);
        self.push_digit(resp);
    }

    /// The line of a write acknowledge.
    fn push_wk(&mut self, version: u8, port: u8, st: LineState)
        requires range { InRange version (Wk port st) }
        requires room { length self.old + 161 ≤ 4096 }
        ensures value { self.new ≡ self.old ++ event_text version (Wk port st) }
        ensures len { length self.new ≤ length self.old + 161 }
    {
        self.append(b"WK");
        self.push_port(version, port);
        self.push_state(st);
    }

    /// The line of a snoop address.
    fn push_ac(&mut self, version: u8, port: u8, addr: u32, snoop: u8)
        requires range { InRange version (Ac port addr snoop) }
        requires room { length self.old + 161 ≤ 4096 }
        ensures value { self.new ≡ self.old ++ event_text version (Ac port addr snoop) }
        ensures len { length self.new ≤ length self.old + 161 }
    {
        self.append(b"AC");
        self.push_port(version, port);
        self.push_number(8, u128::from(addr));
        self.push_digit(snoop);
    }

    /// The line of a snoop response.
    fn push_cr(&mut self, version: u8, port: u8, resp: u8, st: LineState)
        requires range { InRange version (Cr port resp st) }
        requires room { length self.old + 161 ≤ 4096 }
        ensures value { self.new ≡ self.old ++ event_text version (Cr port resp st) }
        ensures len { length self.new ≤ length self.old + 161 }
    {
        self.append(b"CR");
        self.push_port(version, port);
        self.push_number(2, u128::from(resp));
        self.push_state(st);
    }

    /// The line of a snoop data transfer.
    fn push_cd(&mut self, version: u8, port: u8, last: bool, word: u128)
        requires range { InRange version (Cd port last word) }
        requires room { length self.old + 161 ≤ 4096 }
        ensures value { self.new ≡ self.old ++ event_text version (Cd port last word) }
        ensures len { length self.new ≤ length self.old + 161 }
    {
        self.append(b"CD");
        self.push_port(version, port);
        self.push_flag(last);
        self.push_number(32, word);
    }

    /// The line of a grant.
    fn push_g(&mut self, version: u8, port: u8, chan: Channel, id: u8)
        requires range { InRange version (G port chan id) }
        requires room { length self.old + 161 ≤ 4096 }
        ensures value { self.new ≡ self.old ++ event_text version (G port chan id) }
        ensures len { length self.new ≤ length self.old + 161 }
    {
        self.append(b"G");
        self.push_port(version, port);
        self.push_channel(chan);
        self.push_digit(id);
    }

    /// The line of a memory write.
    fn push_m(&mut self, version: u8, port: u8, chan: Channel, id: u8, line: &Line)
        requires range { InRange version (M port chan id line.now) }
        requires room { length self.old + 161 ≤ 4096 }
        ensures value { self.new ≡ self.old ++ event_text version (M port chan id line.now) }
        ensures len { length self.new ≤ length self.old + 161 }
    {
        self.append(b"M");
        self.push_port(version, port);
        self.push_channel(chan);
        self.push_digit(id);
        self.push_line(line);
    }

    /// The line of a silent transition.
    fn push_s(&mut self, version: u8, port: u8, addr: u32, st: LineState)
        requires range { InRange version (S port addr st) }
        requires room { length self.old + 161 ≤ 4096 }
        ensures value { self.new ≡ self.old ++ event_text version (S port addr st) }
        ensures len { length self.new ≤ length self.old + 161 }
    {
        self.append(b"S");
        self.push_port(version, port);
        self.push_number(8, u128::from(addr));
        self.push_state(st);
    }

    /// The line of a load.
    fn push_l(&mut self, version: u8, port: u8, addr: u32, w: u8, x: bool, word: u128)
        requires range { InRange version (L port addr w x word) }
        requires room { length self.old + 161 ≤ 4096 }
        ensures value { self.new ≡ self.old ++ event_text version (L port addr w x word) }
        ensures len { length self.new ≤ length self.old + 161 }
    {
        self.append(b"L");
        self.push_port(version, port);
        self.push_number(8, u128::from(addr));
        self.push_digit(w);
        self.push_flag(x);
        self.push_number(32, word);
    }

    /// The line of a store.
    fn push_d(&mut self, version: u8, port: u8, addr: u32, strobe: u64, x: bool, line: &Line)
        requires range { InRange version (D port addr strobe x line.now) }
        requires room { length self.old + 161 ≤ 4096 }
        ensures value { self.new ≡ self.old ++ event_text version (D port addr strobe x line.now) }
        ensures len { length self.new ≤ length self.old + 161 }
    {
        self.append(b"D");
        self.push_port(version, port);
        self.push_number(8, u128::from(addr));
        self.push_number(16, u128::from(strobe));
        self.push_flag(x);
        self.push_line(line);
    }

    /// The line of a retired operation.
    fn push_op(&mut self, version: u8, port: u8, k: u16, res: Outcome)
        requires range { InRange version (Op port k res) }
        requires room { length self.old + 161 ≤ 4096 }
        ensures value { self.new ≡ self.old ++ event_text version (Op port k res) }
        ensures len { length self.new ≤ length self.old + 161 }
    {
        self.append(b"OP");
        self.push_port(version, port);
        self.push_number(4, u128::from(k));
        self.push_outcome(res);
    }

    /// The line of an opening memory, which has no port.
    fn push_mem(&mut self, addr: u32, line: &Line)
        requires room { length self.old + 161 ≤ 4096 }
        ensures value { self.new ≡ self.old ++ event_text 2 (Mem addr line.now) }
        ensures len { length self.new ≤ length self.old + 161 }
    {
        self.append(b"MEM");
        self.push_number(8, u128::from(addr));
        self.push_line(line);
    }
}
