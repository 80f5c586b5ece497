//! The shares hear an event: the least rule that it breaks; or else, where there is room for it,
//! what it leaves.

ghost use Rattle.ace_check.specs.Heard.{IsHeard};

use crate::heard::Heard;
use crate::shares::Shares;
use ace_event::Event;

impl Shares {
    /// Hears an event of any kind.
    #[inline(always)]
    pub(crate) fn hear_event(&mut self, event: &Event) -> Heard
        ensures { IsHeard self.old event.now self.new result }
    {
        match *event {
            Event::Ar {
                port,
                id,
                addr,
                snoop,
                dom,
                bar,
                lock,
            } => self.hear_ar(port, id, addr, snoop, dom, bar, lock),
            Event::R {
                port,
                id,
                resp,
                last,
                word,
            } => self.hear_r(port, id, resp, last, word),
            Event::Rk { port, st } => self.hear_rk(port, st),
            Event::Aw {
                port,
                id,
                addr,
                snoop,
                dom,
                bar,
            } => self.hear_aw(port, id, addr, snoop, dom, bar),
            Event::W {
                port,
                strb,
                last,
                word,
            } => self.hear_w(port, strb, last, word),
            Event::B { port, id, resp } => self.hear_b(port, id, resp),
            Event::Wk { port, st } => self.hear_wk(port, st),
            Event::Ac { port, addr, snoop } => self.hear_ac(port, addr, snoop),
            Event::Cr { port, resp, st } => self.hear_cr(port, resp, st),
            Event::Cd { port, last, word } => self.hear_cd(port, last, word),
            Event::G { port, chan, id } => self.hear_g(port, chan, id),
            Event::M {
                port,
                chan,
                id,
                line,
            } => self.hear_m(port, chan, id, &line),
            Event::L {
                port,
                addr,
                w,
                x,
                word,
            } => self.hear_l(port, addr, w, x, word),
            Event::D {
                port,
                addr,
                strobe,
                x,
                line,
            } => self.hear_d(port, addr, strobe, x, &line),
            Event::S { port, addr, st } => self.hear_s(port, addr, st),
            Event::Op { port, k, res } => self.hear_op(port, k, res),
            Event::Mem { addr, line } => self.hear_mem(addr, &line),
        }
    }
}
