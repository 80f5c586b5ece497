// Each record, from the fields behind its record word. The event is put in a place of its own,
// which stays as it was where the fields are none.
ghost use Rattle.std.specs.Prelude.{◌≡◌, None};
ghost use Rattle.std.specs.Option.{option_map};
ghost use Rattle.ace_grammar.specs.Fields.{ended};
ghost use Rattle.ace_grammar.specs.Records.{ar_event, ar_fields, r_event, r_fields, rk_event, rk_fields, aw_event, aw_fields, w_event, w_fields, b_event, b_fields, wk_event, wk_fields, ac_event, ac_fields, cr_event, cr_fields, cd_event, cd_fields, g_event, g_fields, m_event, m_fields, s_event, s_fields, l_event, l_fields, d_event, d_fields, op_event, op_fields, mem_event, mem_fields};

use crate::fields::{
    take_channel, take_flag, take_line, take_number, take_outcome, take_port, take_state, take_word,
};
use ace_event::Event;

/// Puts the event in its place, where no bytes are left.
#[inline(always)]
fn put_at_end(read: Event, bytes: &[u8], event: &mut Event) -> Option<()>
    ensures event { option_map (λ _. event.new) result ≡ ended read bytes.now }
    ensures stays { result ≡ None → event.new ≡ event.old }
{
    match bytes {
        [] => {
            *event = read;
            Some(())
        }
        _ => None,
    }
}

/// The record `AR`.
#[tactic(auto, unfolding(crate::specs::Records::ar_fields))]
#[inline(always)]
pub fn read_ar(bytes: &[u8], version: u8, event: &mut Event) -> Option<()>
    ensures event { option_map (λ _. event.new) result
        ≡ option_map ar_event (ar_fields version bytes.now) }
    ensures stays { result ≡ None → event.new ≡ event.old }
{
    let (port, rest) = take_port(bytes, version)?;
    let (id, rest) = take_number(rest, 1, 15)?;
    let (addr, rest) = take_number(rest, 8, 0xffff_ffff)?;
    let (snoop, rest) = take_number(rest, 1, 15)?;
    let (dom, rest) = take_number(rest, 1, 3)?;
    let (bar, rest) = take_number(rest, 1, 3)?;
    let (lock, rest) = take_flag(rest)?;
    let read = Event::Ar {
        port,
        id: id as u8,
        addr: addr as u32,
        snoop: snoop as u8,
        dom: dom as u8,
        bar: bar as u8,
        lock,
    };
    put_at_end(read, rest, event)
}

/// The record `R`.
#[tactic(auto, unfolding(crate::specs::Records::r_fields))]
#[inline(always)]
pub fn read_r(bytes: &[u8], version: u8, event: &mut Event) -> Option<()>
    ensures event { option_map (λ _. event.new) result
        ≡ option_map r_event (r_fields version bytes.now) }
    ensures stays { result ≡ None → event.new ≡ event.old }
{
    let (port, rest) = take_port(bytes, version)?;
    let (id, rest) = take_number(rest, 1, 15)?;
    let (resp, rest) = take_number(rest, 1, 15)?;
    let (last, rest) = take_flag(rest)?;
    let (word, rest) = take_word(rest)?;
    let read = Event::R {
        port,
        id: id as u8,
        resp: resp as u8,
        last,
        word,
    };
    put_at_end(read, rest, event)
}

/// The record `RK`.
#[tactic(auto, unfolding(crate::specs::Records::rk_fields))]
#[inline(always)]
pub fn read_rk(bytes: &[u8], version: u8, event: &mut Event) -> Option<()>
    ensures event { option_map (λ _. event.new) result
        ≡ option_map rk_event (rk_fields version bytes.now) }
    ensures stays { result ≡ None → event.new ≡ event.old }
{
    let (port, rest) = take_port(bytes, version)?;
    let st = take_state(rest)?;
    *event = Event::Rk { port, st };
    Some(())
}

/// The record `AW`.
#[tactic(auto, unfolding(crate::specs::Records::aw_fields))]
#[inline(always)]
pub fn read_aw(bytes: &[u8], version: u8, event: &mut Event) -> Option<()>
    ensures event { option_map (λ _. event.new) result
        ≡ option_map aw_event (aw_fields version bytes.now) }
    ensures stays { result ≡ None → event.new ≡ event.old }
{
    let (port, rest) = take_port(bytes, version)?;
    let (id, rest) = take_number(rest, 1, 15)?;
    let (addr, rest) = take_number(rest, 8, 0xffff_ffff)?;
    let (snoop, rest) = take_number(rest, 1, 7)?;
    let (dom, rest) = take_number(rest, 1, 3)?;
    let (bar, rest) = take_number(rest, 1, 3)?;
    let read = Event::Aw {
        port,
        id: id as u8,
        addr: addr as u32,
        snoop: snoop as u8,
        dom: dom as u8,
        bar: bar as u8,
    };
    put_at_end(read, rest, event)
}

/// The record `W`.
#[tactic(auto, unfolding(crate::specs::Records::w_fields))]
#[inline(always)]
pub fn read_w(bytes: &[u8], version: u8, event: &mut Event) -> Option<()>
    ensures event { option_map (λ _. event.new) result
        ≡ option_map w_event (w_fields version bytes.now) }
    ensures stays { result ≡ None → event.new ≡ event.old }
{
    let (port, rest) = take_port(bytes, version)?;
    let (strb, rest) = take_number(rest, 4, 0xffff)?;
    let (last, rest) = take_flag(rest)?;
    let (word, rest) = take_word(rest)?;
    let read = Event::W {
        port,
        strb: strb as u16,
        last,
        word,
    };
    put_at_end(read, rest, event)
}

/// The record `B`.
#[tactic(auto, unfolding(crate::specs::Records::b_fields))]
#[inline(always)]
pub fn read_b(bytes: &[u8], version: u8, event: &mut Event) -> Option<()>
    ensures event { option_map (λ _. event.new) result
        ≡ option_map b_event (b_fields version bytes.now) }
    ensures stays { result ≡ None → event.new ≡ event.old }
{
    let (port, rest) = take_port(bytes, version)?;
    let (id, rest) = take_number(rest, 1, 15)?;
    let (resp, rest) = take_number(rest, 1, 3)?;
    let read = Event::B {
        port,
        id: id as u8,
        resp: resp as u8,
    };
    put_at_end(read, rest, event)
}

/// The record `WK`.
#[tactic(auto, unfolding(crate::specs::Records::wk_fields))]
#[inline(always)]
pub fn read_wk(bytes: &[u8], version: u8, event: &mut Event) -> Option<()>
    ensures event { option_map (λ _. event.new) result
        ≡ option_map wk_event (wk_fields version bytes.now) }
    ensures stays { result ≡ None → event.new ≡ event.old }
{
    let (port, rest) = take_port(bytes, version)?;
    let st = take_state(rest)?;
    *event = Event::Wk { port, st };
    Some(())
}

/// The record `AC`.
#[tactic(auto, unfolding(crate::specs::Records::ac_fields))]
#[inline(always)]
pub fn read_ac(bytes: &[u8], version: u8, event: &mut Event) -> Option<()>
    ensures event { option_map (λ _. event.new) result
        ≡ option_map ac_event (ac_fields version bytes.now) }
    ensures stays { result ≡ None → event.new ≡ event.old }
{
    let (port, rest) = take_port(bytes, version)?;
    let (addr, rest) = take_number(rest, 8, 0xffff_ffff)?;
    let (snoop, rest) = take_number(rest, 1, 15)?;
    let read = Event::Ac {
        port,
        addr: addr as u32,
        snoop: snoop as u8,
    };
    put_at_end(read, rest, event)
}

/// The record `CR`.
#[tactic(auto, unfolding(crate::specs::Records::cr_fields))]
#[inline(always)]
pub fn read_cr(bytes: &[u8], version: u8, event: &mut Event) -> Option<()>
    ensures event { option_map (λ _. event.new) result
        ≡ option_map cr_event (cr_fields version bytes.now) }
    ensures stays { result ≡ None → event.new ≡ event.old }
{
    let (port, rest) = take_port(bytes, version)?;
    let (resp, rest) = take_number(rest, 2, 0x1f)?;
    let st = take_state(rest)?;
    *event = Event::Cr {
        port,
        resp: resp as u8,
        st,
    };
    Some(())
}

/// The record `CD`.
#[tactic(auto, unfolding(crate::specs::Records::cd_fields))]
#[inline(always)]
pub fn read_cd(bytes: &[u8], version: u8, event: &mut Event) -> Option<()>
    ensures event { option_map (λ _. event.new) result
        ≡ option_map cd_event (cd_fields version bytes.now) }
    ensures stays { result ≡ None → event.new ≡ event.old }
{
    let (port, rest) = take_port(bytes, version)?;
    let (last, rest) = take_flag(rest)?;
    let (word, rest) = take_word(rest)?;
    let read = Event::Cd { port, last, word };
    put_at_end(read, rest, event)
}

/// The record `G`.
#[tactic(auto, unfolding(crate::specs::Records::g_fields))]
#[inline(always)]
pub fn read_g(bytes: &[u8], version: u8, event: &mut Event) -> Option<()>
    ensures event { option_map (λ _. event.new) result
        ≡ option_map g_event (g_fields version bytes.now) }
    ensures stays { result ≡ None → event.new ≡ event.old }
{
    let (port, rest) = take_port(bytes, version)?;
    let (chan, rest) = take_channel(rest)?;
    let (id, rest) = take_number(rest, 1, 15)?;
    let read = Event::G {
        port,
        chan,
        id: id as u8,
    };
    put_at_end(read, rest, event)
}

/// The record `M`.
#[tactic(auto, unfolding(crate::specs::Records::m_fields))]
#[inline(always)]
pub fn read_m(bytes: &[u8], version: u8, event: &mut Event) -> Option<()>
    ensures event { option_map (λ _. event.new) result
        ≡ option_map m_event (m_fields version bytes.now) }
    ensures stays { result ≡ None → event.new ≡ event.old }
{
    let (port, rest) = take_port(bytes, version)?;
    let (chan, rest) = take_channel(rest)?;
    let (id, rest) = take_number(rest, 1, 15)?;
    let line = take_line(rest)?;
    *event = Event::M {
        port,
        chan,
        id: id as u8,
        line,
    };
    Some(())
}

/// The record `S`.
#[tactic(auto, unfolding(crate::specs::Records::s_fields))]
#[inline(always)]
pub fn read_s(bytes: &[u8], version: u8, event: &mut Event) -> Option<()>
    ensures event { option_map (λ _. event.new) result
        ≡ option_map s_event (s_fields version bytes.now) }
    ensures stays { result ≡ None → event.new ≡ event.old }
{
    let (port, rest) = take_port(bytes, version)?;
    let (addr, rest) = take_number(rest, 8, 0xffff_ffff)?;
    let st = take_state(rest)?;
    *event = Event::S {
        port,
        addr: addr as u32,
        st,
    };
    Some(())
}

/// The record `L`.
#[tactic(auto, unfolding(crate::specs::Records::l_fields))]
#[inline(always)]
pub fn read_l(bytes: &[u8], version: u8, event: &mut Event) -> Option<()>
    ensures event { option_map (λ _. event.new) result
        ≡ option_map l_event (l_fields version bytes.now) }
    ensures stays { result ≡ None → event.new ≡ event.old }
{
    let (port, rest) = take_port(bytes, version)?;
    let (addr, rest) = take_number(rest, 8, 0xffff_ffff)?;
    let (w, rest) = take_number(rest, 1, 3)?;
    let (x, rest) = take_flag(rest)?;
    let (word, rest) = take_word(rest)?;
    let read = Event::L {
        port,
        addr: addr as u32,
        w: w as u8,
        x,
        word,
    };
    put_at_end(read, rest, event)
}

/// The record `D`.
#[tactic(auto, unfolding(crate::specs::Records::d_fields))]
#[inline(always)]
pub fn read_d(bytes: &[u8], version: u8, event: &mut Event) -> Option<()>
    ensures event { option_map (λ _. event.new) result
        ≡ option_map d_event (d_fields version bytes.now) }
    ensures stays { result ≡ None → event.new ≡ event.old }
{
    let (port, rest) = take_port(bytes, version)?;
    let (addr, rest) = take_number(rest, 8, 0xffff_ffff)?;
    let (strobe, rest) = take_number(rest, 16, 0xffff_ffff_ffff_ffff)?;
    let (x, rest) = take_flag(rest)?;
    let line = take_line(rest)?;
    *event = Event::D {
        port,
        addr: addr as u32,
        strobe: strobe as u64,
        x,
        line,
    };
    Some(())
}

/// The record `OP`.
#[tactic(auto, unfolding(crate::specs::Records::op_fields))]
#[inline(always)]
pub fn read_op(bytes: &[u8], version: u8, event: &mut Event) -> Option<()>
    ensures event { option_map (λ _. event.new) result
        ≡ option_map op_event (op_fields version bytes.now) }
    ensures stays { result ≡ None → event.new ≡ event.old }
{
    let (port, rest) = take_port(bytes, version)?;
    let (k, rest) = take_number(rest, 4, 0xffff)?;
    let res = take_outcome(rest)?;
    *event = Event::Op {
        port,
        k: k as u16,
        res,
    };
    Some(())
}

/// The record `MEM`.
#[tactic(auto, unfolding(crate::specs::Records::mem_fields))]
pub fn read_mem(bytes: &[u8], event: &mut Event) -> Option<()>
    ensures event { option_map (λ _. event.new) result
        ≡ option_map mem_event (mem_fields bytes.now) }
    ensures stays { result ≡ None → event.new ≡ event.old }
{
    let (addr, rest) = take_number(bytes, 8, 0xffff_ffff)?;
    let line = take_line(rest)?;
    *event = Event::Mem {
        addr: addr as u32,
        line,
    };
    Some(())
}
