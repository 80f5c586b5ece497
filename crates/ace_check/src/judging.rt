//! The least rule that an event breaks.

ghost use Rattle.std.specs.Prelude.{◌≡◌, is_none};
ghost use Rattle.ace_event.specs.declared.header.Header.{Header};
ghost use Rattle.ace_model.specs.Accepted.{least_broken};
ghost use Rattle.ace_model.specs.Trace.{Trace};
ghost use Rattle.ace_check.specs.Shares.{SharesTell, SharesStand};

use crate::acknowledges::{judged_rk, judged_wk};
use crate::grants::judged_g;
use crate::memory_writes::judged_m;
use crate::shares::Shares;
use crate::write_responses::judged_b;
use ace_event::Event;

impl Shares {
    /// The event breaks no rule as the next of the trace.
    pub fn keeps(&self, event: &Event) -> bool
        ensures { (h : Header) (past : Trace) → SharesStand self.now h past
            → result ≡ is_none (least_broken h past event.now) }
    {
        self.rule_of(event).is_none()
    }

    /// The least rule that an event of any kind breaks.
    fn rule_of(&self, event: &Event) -> Option<u8>
        ensures { (h : Header) (past : Trace) → SharesTell self.now h past
            → result ≡ least_broken h past event.now }
    {
        match *event {
            Event::Ar {
                port,
                id,
                addr,
                snoop,
                dom,
                bar,
                lock,
            } => self.rule_of_ar(port, id, addr, snoop, dom, bar, lock),
            Event::R {
                port,
                id,
                resp,
                last,
                word,
            } => self.rule_of_r(port, id, resp, last, word),
            Event::Rk { port, st } => {
                judged_rk(&self.ports, &self.lines, &self.system, port, st).err()
            }
            Event::Aw {
                port,
                id,
                addr,
                snoop,
                dom,
                bar,
            } => self.rule_of_aw(port, id, addr, snoop, dom, bar),
            Event::W {
                port,
                strb,
                last,
                word,
            } => self.rule_of_w(port, strb, last, word),
            Event::B { port, id, resp } => {
                judged_b(&self.ports, &self.lines, &self.system, port, id, resp).err()
            }
            Event::Wk { port, st } => judged_wk(&self.ports, &self.lines, port, st).err(),
            Event::Ac { port, addr, snoop } => self.judged_ac(port, addr, snoop).err(),
            Event::Cr { port, resp, st } => self.judged_cr(port, resp, st).err(),
            Event::Cd { port, last, word } => self.judged_cd(port, last, word).err(),
            Event::G { port, chan, id } => {
                judged_g(&self.ports, &self.lines, &self.system, port, chan, id).err()
            }
            Event::M {
                port,
                chan,
                id,
                line,
            } => judged_m(&self.ports, &self.lines, port, chan, id, &line).err(),
            Event::L {
                port,
                addr,
                w,
                word,
                ..
            } => self.rule_of_l(port, addr, w, word),
            Event::D {
                port,
                addr,
                strobe,
                x,
                ..
            } => self.rule_of_d(port, addr, strobe, x),
            Event::S { port, addr, st } => self.rule_of_s(port, addr, st),
            Event::Op { port, k, .. } => self.rule_of_op(port, k),
            Event::Mem { addr, .. } => self.rule_of_mem(addr),
        }
    }
}
