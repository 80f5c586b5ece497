// The event whose line stands at the front of some bytes. In version 1 a record has one length, or
// one for each state or outcome that ends it: where a line feed stands behind so many bytes, the
// fields are read where they stand, and no line feed is looked for. The event is handed to a taker
// there, where its kind is known.
ghost use Rattle.std.specs.Prelude.{◌≡◌, ◌<◌, ◌≤◌, true, false, None, IfSome, List, length, take, drop, slice_index};
ghost use Rattle.ace_event.specs.declared.event.Event.{Event};
ghost use Rattle.ace_grammar.specs.Front.{IsInFront, StoodInFront};
ghost use Rattle.std.specs.Option.{option_map};
ghost use Rattle.ace_grammar.specs.Records.{a_at, b_event, b_fields, c_at, d_event, d_fields, event_at, g_event, g_fields, l_event, l_fields, m_at, o_at, r_at, s_event, s_fields, w_at};

use crate::NO_EVENT;
use crate::records::{
    read_ac, read_ar, read_aw, read_b, read_cd, read_cr, read_d, read_g, read_l, read_m, read_op,
    read_r, read_rk, read_s, read_w, read_wk,
};
use crate::taker::Taker;
use ace_event::Event;

/// The first so many bytes, where a line feed stands behind them.
#[inline(always)]
fn ended_after(bytes: &[u8], count: usize) -> Option<&[u8]>
    ensures { IfSome result (λ line. (line.now ≡ take count bytes.now) × (count < length bytes.now)
        × (slice_index bytes.now count ≡ 10)) }
{
    if count < bytes.len() && bytes[count] == b'\n' {
        Some(&bytes[..count])
    } else {
        None
    }
}

/// The same, of one of two lengths.
#[inline(always)]
fn ended_after_either(bytes: &[u8], short: usize, long: usize) -> Option<&[u8]>
    ensures { IfSome result (λ line. (line.now ≡ take (length line.now) bytes.now)
        × (length line.now < length bytes.now) × (slice_index bytes.now (length line.now) ≡ 10)) }
{
    match ended_after(bytes, short) {
        Some(line) => Some(line),
        None => ended_after(bytes, long),
    }
}

/// Goes on where an event was taken.
#[inline(always)]
fn only_if(taken: bool) -> Option<()>
    ensures some { IfSome result (λ _. taken ≡ true) }
    ensures none { result ≡ None → taken ≡ false }
{
    if taken { Some(()) } else { None }
}

/// Those whose words begin with A, behind that letter: how many bytes the line has there, where the
/// taker has taken its event.
#[tactic(auto, unfolding(crate::specs::Records::a_at))]
fn a_in_front<T: Taker>(bytes: &[u8], taker: &mut T) -> Option<usize>
    ensures taken { IfSome result (λ count. (event : Event)
        × IsInFront (a_at 1) bytes.now event count
        × T.took taker.old event taker.new) }
    ensures stays { result ≡ None → taker.new ≡ taker.old }
{
    match bytes {
        [b'C', rest @ ..] => {
            let mut read = NO_EVENT;
            read_ac(ended_after(rest, 13)?, 1, &mut read)?;
            only_if(taker.takes(&read))?;
            Some(14)
        }
        [b'R', rest @ ..] => {
            let mut read = NO_EVENT;
            read_ar(ended_after(rest, 21)?, 1, &mut read)?;
            only_if(taker.takes(&read))?;
            Some(22)
        }
        [b'W', rest @ ..] => {
            let mut read = NO_EVENT;
            read_aw(ended_after(rest, 19)?, 1, &mut read)?;
            only_if(taker.takes(&read))?;
            Some(20)
        }
        _ => None,
    }
}

/// Those with C.
#[tactic(auto, unfolding(crate::specs::Records::c_at))]
fn c_in_front<T: Taker>(bytes: &[u8], taker: &mut T) -> Option<usize>
    ensures taken { IfSome result (λ count. (event : Event)
        × IsInFront (c_at 1) bytes.now event count
        × T.took taker.old event taker.new) }
    ensures stays { result ≡ None → taker.new ≡ taker.old }
{
    match bytes {
        [b'D', rest @ ..] => {
            let mut read = NO_EVENT;
            read_cd(ended_after(rest, 37)?, 1, &mut read)?;
            only_if(taker.takes(&read))?;
            Some(38)
        }
        [b'R', rest @ ..] => {
            let line = ended_after_either(rest, 7, 8)?;
            let count = line.len();
            let mut read = NO_EVENT;
            read_cr(line, 1, &mut read)?;
            only_if(taker.takes(&read))?;
            Some(count + 1)
        }
        _ => None,
    }
}

/// Those with O.
#[tactic(auto, unfolding(crate::specs::Records::o_at))]
fn o_in_front<T: Taker>(bytes: &[u8], taker: &mut T) -> Option<usize>
    ensures taken { IfSome result (λ count. (event : Event)
        × IsInFront (o_at 1) bytes.now event count
        × T.took taker.old event taker.new) }
    ensures stays { result ≡ None → taker.new ≡ taker.old }
{
    match bytes {
        [b'P', rest @ ..] => {
            let line = ended_after_either(rest, 10, 12)?;
            let count = line.len();
            let mut read = NO_EVENT;
            read_op(line, 1, &mut read)?;
            only_if(taker.takes(&read))?;
            Some(count + 1)
        }
        _ => None,
    }
}

/// Those with R.
#[tactic(auto, unfolding(crate::specs::Records::r_at))]
fn r_in_front<T: Taker>(bytes: &[u8], taker: &mut T) -> Option<usize>
    ensures taken { IfSome result (λ count. (event : Event)
        × IsInFront (r_at 1) bytes.now event count
        × T.took taker.old event taker.new) }
    ensures stays { result ≡ None → taker.new ≡ taker.old }
{
    match bytes {
        [b'K', rest @ ..] => {
            let line = ended_after_either(rest, 4, 5)?;
            let count = line.len();
            let mut read = NO_EVENT;
            read_rk(line, 1, &mut read)?;
            only_if(taker.takes(&read))?;
            Some(count + 1)
        }
        _ => {
            let mut read = NO_EVENT;
            read_r(ended_after(bytes, 41)?, 1, &mut read)?;
            only_if(taker.takes(&read))?;
            Some(41)
        }
    }
}

/// Those with W.
#[tactic(auto, unfolding(crate::specs::Records::w_at))]
fn w_in_front<T: Taker>(bytes: &[u8], taker: &mut T) -> Option<usize>
    ensures taken { IfSome result (λ count. (event : Event)
        × IsInFront (w_at 1) bytes.now event count
        × T.took taker.old event taker.new) }
    ensures stays { result ≡ None → taker.new ≡ taker.old }
{
    match bytes {
        [b'K', rest @ ..] => {
            let line = ended_after_either(rest, 4, 5)?;
            let count = line.len();
            let mut read = NO_EVENT;
            read_wk(line, 1, &mut read)?;
            only_if(taker.takes(&read))?;
            Some(count + 1)
        }
        _ => {
            let mut read = NO_EVENT;
            read_w(ended_after(bytes, 42)?, 1, &mut read)?;
            only_if(taker.takes(&read))?;
            Some(42)
        }
    }
}

/// That with B.
fn b_in_front<T: Taker>(bytes: &[u8], taker: &mut T) -> Option<usize>
    ensures taken { IfSome result (λ count. (event : Event)
        × IsInFront (λ line. option_map b_event (b_fields 1 line)) bytes.now event count
        × T.took taker.old event taker.new) }
    ensures stays { result ≡ None → taker.new ≡ taker.old }
{
    let mut read = NO_EVENT;
    read_b(ended_after(bytes, 6)?, 1, &mut read)?;
    only_if(taker.takes(&read))?;
    Some(6)
}

/// That with D.
fn d_in_front<T: Taker>(bytes: &[u8], taker: &mut T) -> Option<usize>
    ensures taken { IfSome result (λ count. (event : Event)
        × IsInFront (λ line. option_map d_event (d_fields 1 line)) bytes.now event count
        × T.took taker.old event taker.new) }
    ensures stays { result ≡ None → taker.new ≡ taker.old }
{
    let mut read = NO_EVENT;
    read_d(ended_after(bytes, 159)?, 1, &mut read)?;
    only_if(taker.takes(&read))?;
    Some(159)
}

/// That with G.
fn g_in_front<T: Taker>(bytes: &[u8], taker: &mut T) -> Option<usize>
    ensures taken { IfSome result (λ count. (event : Event)
        × IsInFront (λ line. option_map g_event (g_fields 1 line)) bytes.now event count
        × T.took taker.old event taker.new) }
    ensures stays { result ≡ None → taker.new ≡ taker.old }
{
    let mut read = NO_EVENT;
    read_g(ended_after(bytes, 6)?, 1, &mut read)?;
    only_if(taker.takes(&read))?;
    Some(6)
}

/// That with L.
fn l_in_front<T: Taker>(bytes: &[u8], taker: &mut T) -> Option<usize>
    ensures taken { IfSome result (λ count. (event : Event)
        × IsInFront (λ line. option_map l_event (l_fields 1 line)) bytes.now event count
        × T.took taker.old event taker.new) }
    ensures stays { result ≡ None → taker.new ≡ taker.old }
{
    let mut read = NO_EVENT;
    read_l(ended_after(bytes, 48)?, 1, &mut read)?;
    only_if(taker.takes(&read))?;
    Some(48)
}

/// That with S.
fn s_in_front<T: Taker>(bytes: &[u8], taker: &mut T) -> Option<usize>
    ensures taken { IfSome result (λ count. (event : Event)
        × IsInFront (λ line. option_map s_event (s_fields 1 line)) bytes.now event count
        × T.took taker.old event taker.new) }
    ensures stays { result ≡ None → taker.new ≡ taker.old }
{
    let line = ended_after_either(bytes, 13, 14)?;
    let count = line.len();
    let mut read = NO_EVENT;
    read_s(line, 1, &mut read)?;
    only_if(taker.takes(&read))?;
    Some(count)
}

/// That with M; version 1 has no MEM.
#[tactic(auto, unfolding(crate::specs::Records::m_at))]
fn m_in_front<T: Taker>(bytes: &[u8], taker: &mut T) -> Option<usize>
    ensures taken { IfSome result (λ count. (event : Event)
        × IsInFront (m_at 1) bytes.now event count
        × T.took taker.old event taker.new) }
    ensures stays { result ≡ None → taker.new ≡ taker.old }
{
    match bytes {
        [b'E', ..] => None,
        _ => {
            let mut read = NO_EVENT;
            read_m(ended_after(bytes, 135)?, 1, &mut read)?;
            only_if(taker.takes(&read))?;
            Some(135)
        }
    }
}

/// Reads the event whose line stands at the front of the bytes of a trace of version 1, lets the
/// taker have it, and says how many bytes the line has without its line feed. None where that isn't
/// the line of an event, or isn't there whole, or the taker doesn't take the event.
#[inline(always)]
pub fn event_in_front<T: Taker>(bytes: &[u8], taker: &mut T) -> Option<usize>
    ensures taken { IfSome result (λ count. (event : Event)
        × IsInFront (event_at 1) bytes.now event count
        × T.took taker.old event taker.new) }
    ensures stays { result ≡ None → taker.new ≡ taker.old }
{
    match bytes {
        [b'A', rest @ ..] => Some(a_in_front(rest, taker)? + 1),
        [b'B', rest @ ..] => Some(b_in_front(rest, taker)? + 1),
        [b'C', rest @ ..] => Some(c_in_front(rest, taker)? + 1),
        [b'D', rest @ ..] => Some(d_in_front(rest, taker)? + 1),
        [b'G', rest @ ..] => Some(g_in_front(rest, taker)? + 1),
        [b'L', rest @ ..] => Some(l_in_front(rest, taker)? + 1),
        [b'M', rest @ ..] => Some(m_in_front(rest, taker)? + 1),
        [b'O', rest @ ..] => Some(o_in_front(rest, taker)? + 1),
        [b'R', rest @ ..] => Some(r_in_front(rest, taker)? + 1),
        [b'S', rest @ ..] => Some(s_in_front(rest, taker)? + 1),
        [b'W', rest @ ..] => Some(w_in_front(rest, taker)? + 1),
        _ => None,
    }
}

/// How much of some bytes was handed over: so many bytes, the lines of so many events.
#[derive(Clone, Copy, Debug, PartialEq, Eq)]
pub struct Handed {
    pub bytes: usize,
    pub events: u64,
}

/// Lets the taker have the events whose lines stand one after another at the front of the bytes of
/// a trace of version 1, at most so many, up to the first that `event_in_front` doesn't hand over.
/// What is left of the bytes is kept at hand, so that nothing is looked up again from event to
/// event.
#[inline(always)]
pub fn events_in_front<T: Taker>(bytes: &[u8], most: u64, taker: &mut T) -> Handed
    ensures within { result.bytes ≤ length bytes.now }
    ensures few { result.events ≤ most }
    ensures handed { (events : List Event) × (length events ≡ result.events)
        × StoodInFront T.took bytes.now (drop result.bytes bytes.now) events taker.old taker.new }
{
    let mut rest = bytes;
    let mut room = most;
    'events: while room > 0 {
        let Some(count) = event_in_front(rest, taker) else {
            break;
        };
        rest = &rest[count + 1..];
        room -= 1;
    }
    Handed {
        bytes: bytes.len() - rest.len(),
        events: most - room,
    }
}
