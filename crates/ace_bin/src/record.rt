// The record at the front of some bytes, by its tag.
ghost use Rattle.std.specs.Prelude.{◌≡◌, ◌≢◌, ◌<◌, ◌≤◌, length, false, Err, IsTrue, OnErr};
ghost use Rattle.ace_bin.specs.declared.reason.BinReason.TheVariants.{Z3};
ghost use Rattle.ace_bin.specs.Errors.{IsReadAs, IsRecord};
ghost use Rattle.ace_bin.specs.Records.{is_tag};

use crate::BinReason;
use crate::records::{
    read_ac, read_ar, read_aw, read_b, read_cd, read_cr, read_d, read_g, read_l, read_m, read_mem,
    read_op, read_r, read_rk, read_s, read_w, read_wk,
};
use ace_codes::LineState;
use ace_event::Event;

/// Some event, to stand in the place of those that are read until one is.
pub const NO_EVENT: Event = Event::Rk {
    port: 0,
    st: LineState::I,
};

/// Whether a trace of the version has records with this tag.
#[inline(always)]
fn is_tag(version: u8, tag: u8) -> bool
    ensures value { result ≡ is_tag version tag }
    ensures some { IsTrue result → 1 ≤ tag }
    ensures few { IsTrue result → tag ≤ 17 }
    ensures mem { IsTrue result → tag ≡ 17 → version ≢ 1 }
{
    let last = if version == 1 { 0x10 } else { 0x11 };
    1 <= tag && tag <= last
}

/// The record of the opening memory of a line, which version 1 doesn't have, and what has a tag
/// behind that.
#[inline(always)]
fn read_last(tag: u8, bytes: &[u8], version: u8, event: &mut Event) -> Result<usize, BinReason>
    requires { 17 ≤ tag }
    ensures known { IsTrue (is_tag version tag)
        → IsReadAs version tag bytes.now event.new result }
    ensures none { is_tag version tag ≡ false → result ≡ Err Z3 }
    ensures stays { OnErr result (event.new ≡ event.old) }
{
    if is_tag(version, tag) {
        return read_mem(bytes, event);
    }
    Err(BinReason::Z3)
}

/// The records of the interconnect, and of what a port does on its own.
#[inline(always)]
fn read_third(tag: u8, bytes: &[u8], version: u8, event: &mut Event) -> Result<usize, BinReason>
    requires { 11 ≤ tag }
    ensures event { tag ≤ 16 → IsReadAs version tag bytes.now event.new result }
    ensures last { 17 ≤ tag → IsTrue (is_tag version tag)
        → IsReadAs version tag bytes.now event.new result }
    ensures none { 17 ≤ tag → is_tag version tag ≡ false → result ≡ Err Z3 }
    ensures stays { OnErr result (event.new ≡ event.old) }
{
    match tag {
        0x0b => read_g(bytes, version, event),
        0x0c => read_m(bytes, version, event),
        0x0d => read_s(bytes, version, event),
        0x0e => read_l(bytes, version, event),
        0x0f => read_d(bytes, version, event),
        0x10 => read_op(bytes, version, event),
        _ => read_last(tag, bytes, version, event),
    }
}

/// Those, the last ones of the write channels, and those of the snoop channels.
#[inline(always)]
fn read_second(tag: u8, bytes: &[u8], version: u8, event: &mut Event) -> Result<usize, BinReason>
    requires { 6 ≤ tag }
    ensures event { tag ≤ 16 → IsReadAs version tag bytes.now event.new result }
    ensures last { 17 ≤ tag → IsTrue (is_tag version tag)
        → IsReadAs version tag bytes.now event.new result }
    ensures none { 17 ≤ tag → is_tag version tag ≡ false → result ≡ Err Z3 }
    ensures stays { OnErr result (event.new ≡ event.old) }
{
    match tag {
        0x06 => read_b(bytes, version, event),
        0x07 => read_wk(bytes, version, event),
        0x08 => read_ac(bytes, version, event),
        0x09 => read_cr(bytes, version, event),
        0x0a => read_cd(bytes, version, event),
        _ => read_third(tag, bytes, version, event),
    }
}

/// All of them. Each of these functions hands on the tags that it doesn't know, so that they are
/// compiled as one choice among all tags.
#[inline(always)]
fn read_fields(tag: u8, bytes: &[u8], version: u8, event: &mut Event) -> Result<usize, BinReason>
    ensures event { 1 ≤ tag → tag ≤ 16 → IsReadAs version tag bytes.now event.new result }
    ensures last { 17 ≤ tag → IsTrue (is_tag version tag)
        → IsReadAs version tag bytes.now event.new result }
    ensures zero { tag ≡ 0 → result ≡ Err Z3 }
    ensures none { 17 ≤ tag → is_tag version tag ≡ false → result ≡ Err Z3 }
    ensures stays { OnErr result (event.new ≡ event.old) }
{
    match tag {
        0x00 => Err(BinReason::Z3),
        0x01 => read_ar(bytes, version, event),
        0x02 => read_r(bytes, version, event),
        0x03 => read_rk(bytes, version, event),
        0x04 => read_aw(bytes, version, event),
        0x05 => read_w(bytes, version, event),
        _ => read_second(tag, bytes, version, event),
    }
}

/// Reads the record at the front of the bytes of a trace of a version into its place, and says how
/// many bytes it has. Where there is none, the place stays, and the error is the least reason that
/// applies.
#[inline(always)]
pub fn read_record(bytes: &[u8], version: u8, event: &mut Event) -> Result<usize, BinReason>
    requires { 0 < length bytes.now }
    ensures event { IsRecord version bytes.now event.new result }
    ensures stays { OnErr result (event.new ≡ event.old) }
{
    let [tag, fields @ ..] = bytes else {
        unreachable!();
    };
    match read_fields(*tag, fields, version, event) {
        Ok(size) => Ok(size + 1),
        Err(reason) => Err(reason),
    }
}
