// The event of a line, by its record word.
ghost use Rattle.std.specs.Prelude.{◌≡◌, IfOk, IfErr, OnOk, OnErr, None};
ghost use Rattle.std.specs.Option.{option_map};
ghost use Rattle.ace_grammar.specs.Records.{a_at, c_at, e_at, m_at, o_at, r_at, w_at, event_at};
ghost use Rattle.ace_event.specs.Text.{event_text};
ghost use Rattle.ace_grammar.specs.Reading.{IsReadable};
ghost use Rattle.ace_grammar.specs.Reasons.{HasReason};

use crate::Reason;
use crate::line_reason::line_reason;
use crate::records::{
    read_ac, read_ar, read_aw, read_b, read_cd, read_cr, read_d, read_g, read_l, read_m, read_mem,
    read_op, read_r, read_rk, read_s, read_w, read_wk,
};
use ace_codes::LineState;
use ace_event::Event;

/// The records whose words begin with A, behind that letter.
#[tactic(auto, unfolding(crate::specs::Records::a_at))]
fn read_a(bytes: &[u8], version: u8, event: &mut Event) -> Option<()>
    ensures event { option_map (λ _. event.new) result ≡ a_at version bytes.now }
    ensures stays { result ≡ None → event.new ≡ event.old }
{
    match bytes {
        [b'C', rest @ ..] => read_ac(rest, version, event),
        [b'R', rest @ ..] => read_ar(rest, version, event),
        [b'W', rest @ ..] => read_aw(rest, version, event),
        _ => None,
    }
}

/// Those with C.
#[tactic(auto, unfolding(crate::specs::Records::c_at))]
fn read_c(bytes: &[u8], version: u8, event: &mut Event) -> Option<()>
    ensures event { option_map (λ _. event.new) result ≡ c_at version bytes.now }
    ensures stays { result ≡ None → event.new ≡ event.old }
{
    match bytes {
        [b'D', rest @ ..] => read_cd(rest, version, event),
        [b'R', rest @ ..] => read_cr(rest, version, event),
        _ => None,
    }
}

/// MEM, which version 1 doesn't have, behind its E.
#[tactic(auto, unfolding(crate::specs::Records::e_at))]
fn read_e(bytes: &[u8], version: u8, event: &mut Event) -> Option<()>
    ensures event { option_map (λ _. event.new) result ≡ e_at version bytes.now }
    ensures stays { result ≡ None → event.new ≡ event.old }
{
    if version == 1 {
        return None;
    }
    match bytes {
        [b'M', rest @ ..] => read_mem(rest, event),
        _ => None,
    }
}

/// Those with M.
#[tactic(auto, unfolding(crate::specs::Records::m_at))]
fn read_m_or_mem(bytes: &[u8], version: u8, event: &mut Event) -> Option<()>
    ensures event { option_map (λ _. event.new) result ≡ m_at version bytes.now }
    ensures stays { result ≡ None → event.new ≡ event.old }
{
    match bytes {
        [b'E', rest @ ..] => read_e(rest, version, event),
        _ => read_m(bytes, version, event),
    }
}

/// Those with O.
#[tactic(auto, unfolding(crate::specs::Records::o_at))]
fn read_o(bytes: &[u8], version: u8, event: &mut Event) -> Option<()>
    ensures event { option_map (λ _. event.new) result ≡ o_at version bytes.now }
    ensures stays { result ≡ None → event.new ≡ event.old }
{
    match bytes {
        [b'P', rest @ ..] => read_op(rest, version, event),
        _ => None,
    }
}

/// Those with R.
#[tactic(auto, unfolding(crate::specs::Records::r_at))]
fn read_r_or_rk(bytes: &[u8], version: u8, event: &mut Event) -> Option<()>
    ensures event { option_map (λ _. event.new) result ≡ r_at version bytes.now }
    ensures stays { result ≡ None → event.new ≡ event.old }
{
    match bytes {
        [b'K', rest @ ..] => read_rk(rest, version, event),
        _ => read_r(bytes, version, event),
    }
}

/// Those with W.
#[tactic(auto, unfolding(crate::specs::Records::w_at))]
fn read_w_or_wk(bytes: &[u8], version: u8, event: &mut Event) -> Option<()>
    ensures event { option_map (λ _. event.new) result ≡ w_at version bytes.now }
    ensures stays { result ≡ None → event.new ≡ event.old }
{
    match bytes {
        [b'K', rest @ ..] => read_wk(rest, version, event),
        _ => read_w(bytes, version, event),
    }
}

/// The event of a line, in a trace of a version.
#[tactic(auto, unfolding(crate::specs::Records::event_at))]
#[inline(never)]
fn read_line(line: &[u8], version: u8, event: &mut Event) -> Option<()>
    ensures event { option_map (λ _. event.new) result ≡ event_at version line.now }
    ensures stays { result ≡ None → event.new ≡ event.old }
{
    match line {
        [b'A', rest @ ..] => read_a(rest, version, event),
        [b'B', rest @ ..] => read_b(rest, version, event),
        [b'C', rest @ ..] => read_c(rest, version, event),
        [b'D', rest @ ..] => read_d(rest, version, event),
        [b'G', rest @ ..] => read_g(rest, version, event),
        [b'L', rest @ ..] => read_l(rest, version, event),
        [b'M', rest @ ..] => read_m_or_mem(rest, version, event),
        [b'O', rest @ ..] => read_o(rest, version, event),
        [b'R', rest @ ..] => read_r_or_rk(rest, version, event),
        [b'S', rest @ ..] => read_s(rest, version, event),
        [b'W', rest @ ..] => read_w_or_wk(rest, version, event),
        _ => None,
    }
}

/// The reason of a line that isn't read as an event.
#[cold]
#[inline(never)]
fn reason_of(line: &[u8], version: u8) -> Reason
    requires { event_at version line.now ≡ None }
    ensures { HasReason version line.now result }
{
    match line_reason(line, version) {
        Some(reason) => reason,
        None => unreachable!(),
    }
}

/// Some event, to stand in the place of those that are read until one is.
pub const NO_EVENT: Event = Event::Rk {
    port: 0,
    st: LineState::I,
};

/// Reads the event whose line this is in a trace of a version, without its line feed, into its
/// place. Where it is the line of no event in range, the place stays, and the error is the least
/// reason of `F2` to `F6` that applies.
pub fn read_into(line: &[u8], version: u8, event: &mut Event) -> Result<(), Reason>
    ensures event { OnOk result (IsReadable version event.new
        × (event_text version event.new ≡ line.now)) }
    ensures reason { IfErr result (HasReason version line.now) }
    ensures stays { OnErr result (event.new ≡ event.old) }
{
    match read_line(line, version, event) {
        Some(()) => Ok(()),
        None => Err(reason_of(line, version)),
    }
}

/// The event whose line this is in a trace of a version, without its line feed. Where it is the
/// line of no event in range, the error is the least reason of `F2` to `F6` that applies.
pub fn parse_event(line: &[u8], version: u8) -> Result<Event, Reason>
    ensures event { IfOk result (λ event. IsReadable version event
        × (event_text version event ≡ line.now)) }
    ensures reason { IfErr result (HasReason version line.now) }
{
    let mut event = NO_EVENT;
    match read_into(line, version, &mut event) {
        Ok(()) => Ok(event),
        Err(reason) => Err(reason),
    }
}
