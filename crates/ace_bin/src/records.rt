// Each record, from the bytes behind its tag. The event is put in a place of its own, which stays
// as it was where there is none.
ghost use Rattle.std.specs.Prelude.{◌≡◌, ◌≢◌, ℕ, OnErr};
ghost use Rattle.ace_bin.specs.Errors.{IsReadAs};

use crate::BinReason;
use crate::fields::{
    channel_at, eight_at, enough, flag_at, four_at, line_at, most_at, outcome_at, port_at,
    state_at, two_at, word_at,
};
use ace_event::Event;

/// The record of a read address.
#[tactic(auto, using(crate::proofs::RecordBytes::reasons))]
#[inline(always)]
pub fn read_ar(bytes: &[u8], version: u8, event: &mut Event) -> Result<usize, BinReason>
    ensures event { IsReadAs version 0x01 bytes.now event.new result }
    ensures stays { OnErr result (event.new ≡ event.old) }
{
    enough(bytes, 10)?;
    let port = port_at(bytes, 0, version)?;
    let id = most_at(bytes, 1, 15)?;
    let addr = four_at(bytes, 2);
    let snoop = most_at(bytes, 6, 15)?;
    let dom = most_at(bytes, 7, 3)?;
    let bar = most_at(bytes, 8, 3)?;
    let lock = flag_at(bytes, 9)?;
    *event = Event::Ar {
        port,
        id,
        addr,
        snoop,
        dom,
        bar,
        lock,
    };
    Ok(10)
}

/// The record of a read transfer.
#[tactic(auto, using(crate::proofs::RecordBytes::reasons))]
#[inline(always)]
pub fn read_r(bytes: &[u8], version: u8, event: &mut Event) -> Result<usize, BinReason>
    ensures event { IsReadAs version 0x02 bytes.now event.new result }
    ensures stays { OnErr result (event.new ≡ event.old) }
{
    enough(bytes, 20)?;
    let port = port_at(bytes, 0, version)?;
    let id = most_at(bytes, 1, 15)?;
    let resp = most_at(bytes, 2, 15)?;
    let last = flag_at(bytes, 3)?;
    let word = word_at(bytes, 4);
    *event = Event::R {
        port,
        id,
        resp,
        last,
        word,
    };
    Ok(20)
}

/// The record of a read acknowledge.
#[tactic(auto, using(crate::proofs::RecordBytes::reasons))]
#[inline(always)]
pub fn read_rk(bytes: &[u8], version: u8, event: &mut Event) -> Result<usize, BinReason>
    ensures event { IsReadAs version 0x03 bytes.now event.new result }
    ensures stays { OnErr result (event.new ≡ event.old) }
{
    enough(bytes, 2)?;
    let port = port_at(bytes, 0, version)?;
    let st = state_at(bytes, 1)?;
    *event = Event::Rk { port, st };
    Ok(2)
}

/// The record of a write address.
#[tactic(auto, using(crate::proofs::RecordBytes::reasons))]
#[inline(always)]
pub fn read_aw(bytes: &[u8], version: u8, event: &mut Event) -> Result<usize, BinReason>
    ensures event { IsReadAs version 0x04 bytes.now event.new result }
    ensures stays { OnErr result (event.new ≡ event.old) }
{
    enough(bytes, 9)?;
    let port = port_at(bytes, 0, version)?;
    let id = most_at(bytes, 1, 15)?;
    let addr = four_at(bytes, 2);
    let snoop = most_at(bytes, 6, 7)?;
    let dom = most_at(bytes, 7, 3)?;
    let bar = most_at(bytes, 8, 3)?;
    *event = Event::Aw {
        port,
        id,
        addr,
        snoop,
        dom,
        bar,
    };
    Ok(9)
}

/// The record of a write transfer.
#[tactic(auto, using(crate::proofs::RecordBytes::reasons))]
#[inline(always)]
pub fn read_w(bytes: &[u8], version: u8, event: &mut Event) -> Result<usize, BinReason>
    ensures event { IsReadAs version 0x05 bytes.now event.new result }
    ensures stays { OnErr result (event.new ≡ event.old) }
{
    enough(bytes, 20)?;
    let port = port_at(bytes, 0, version)?;
    let strb = two_at(bytes, 1);
    let last = flag_at(bytes, 3)?;
    let word = word_at(bytes, 4);
    *event = Event::W {
        port,
        strb,
        last,
        word,
    };
    Ok(20)
}

/// The record of a write response.
#[tactic(auto, using(crate::proofs::RecordBytes::reasons))]
#[inline(always)]
pub fn read_b(bytes: &[u8], version: u8, event: &mut Event) -> Result<usize, BinReason>
    ensures event { IsReadAs version 0x06 bytes.now event.new result }
    ensures stays { OnErr result (event.new ≡ event.old) }
{
    enough(bytes, 3)?;
    let port = port_at(bytes, 0, version)?;
    let id = most_at(bytes, 1, 15)?;
    let resp = most_at(bytes, 2, 3)?;
    *event = Event::B { port, id, resp };
    Ok(3)
}

/// The record of a write acknowledge.
#[tactic(auto, using(crate::proofs::RecordBytes::reasons))]
#[inline(always)]
pub fn read_wk(bytes: &[u8], version: u8, event: &mut Event) -> Result<usize, BinReason>
    ensures event { IsReadAs version 0x07 bytes.now event.new result }
    ensures stays { OnErr result (event.new ≡ event.old) }
{
    enough(bytes, 2)?;
    let port = port_at(bytes, 0, version)?;
    let st = state_at(bytes, 1)?;
    *event = Event::Wk { port, st };
    Ok(2)
}

/// The record of a snoop address.
#[tactic(auto, using(crate::proofs::RecordBytes::reasons))]
#[inline(always)]
pub fn read_ac(bytes: &[u8], version: u8, event: &mut Event) -> Result<usize, BinReason>
    ensures event { IsReadAs version 0x08 bytes.now event.new result }
    ensures stays { OnErr result (event.new ≡ event.old) }
{
    enough(bytes, 6)?;
    let port = port_at(bytes, 0, version)?;
    let addr = four_at(bytes, 1);
    let snoop = most_at(bytes, 5, 15)?;
    *event = Event::Ac { port, addr, snoop };
    Ok(6)
}

/// The record of a snoop response.
#[tactic(auto, using(crate::proofs::RecordBytes::reasons))]
#[inline(always)]
pub fn read_cr(bytes: &[u8], version: u8, event: &mut Event) -> Result<usize, BinReason>
    ensures event { IsReadAs version 0x09 bytes.now event.new result }
    ensures stays { OnErr result (event.new ≡ event.old) }
{
    enough(bytes, 3)?;
    let port = port_at(bytes, 0, version)?;
    let resp = most_at(bytes, 1, 0x1f)?;
    let st = state_at(bytes, 2)?;
    *event = Event::Cr { port, resp, st };
    Ok(3)
}

/// The record of a snoop data transfer.
#[tactic(auto, using(crate::proofs::RecordBytes::reasons))]
#[inline(always)]
pub fn read_cd(bytes: &[u8], version: u8, event: &mut Event) -> Result<usize, BinReason>
    ensures event { IsReadAs version 0x0a bytes.now event.new result }
    ensures stays { OnErr result (event.new ≡ event.old) }
{
    enough(bytes, 18)?;
    let port = port_at(bytes, 0, version)?;
    let last = flag_at(bytes, 1)?;
    let word = word_at(bytes, 2);
    *event = Event::Cd { port, last, word };
    Ok(18)
}

/// The record of a grant.
#[tactic(auto, using(crate::proofs::RecordBytes::reasons))]
#[inline(always)]
pub fn read_g(bytes: &[u8], version: u8, event: &mut Event) -> Result<usize, BinReason>
    ensures event { IsReadAs version 0x0b bytes.now event.new result }
    ensures stays { OnErr result (event.new ≡ event.old) }
{
    enough(bytes, 3)?;
    let port = port_at(bytes, 0, version)?;
    let chan = channel_at(bytes, 1)?;
    let id = most_at(bytes, 2, 15)?;
    *event = Event::G { port, chan, id };
    Ok(3)
}

/// The record of a memory write.
#[tactic(auto, using(crate::proofs::RecordBytes::reasons))]
#[inline(always)]
pub fn read_m(bytes: &[u8], version: u8, event: &mut Event) -> Result<usize, BinReason>
    ensures event { IsReadAs version 0x0c bytes.now event.new result }
    ensures stays { OnErr result (event.new ≡ event.old) }
{
    enough(bytes, 67)?;
    let port = port_at(bytes, 0, version)?;
    let chan = channel_at(bytes, 1)?;
    let id = most_at(bytes, 2, 15)?;
    let line = line_at(bytes, 3);
    *event = Event::M {
        port,
        chan,
        id,
        line,
    };
    Ok(67)
}

/// The record of a silent transition.
#[tactic(auto, using(crate::proofs::RecordBytes::reasons))]
#[inline(always)]
pub fn read_s(bytes: &[u8], version: u8, event: &mut Event) -> Result<usize, BinReason>
    ensures event { IsReadAs version 0x0d bytes.now event.new result }
    ensures stays { OnErr result (event.new ≡ event.old) }
{
    enough(bytes, 6)?;
    let port = port_at(bytes, 0, version)?;
    let addr = four_at(bytes, 1);
    let st = state_at(bytes, 5)?;
    *event = Event::S { port, addr, st };
    Ok(6)
}

/// The record of a load.
#[tactic(auto, using(crate::proofs::RecordBytes::reasons))]
#[inline(always)]
pub fn read_l(bytes: &[u8], version: u8, event: &mut Event) -> Result<usize, BinReason>
    ensures event { IsReadAs version 0x0e bytes.now event.new result }
    ensures stays { OnErr result (event.new ≡ event.old) }
{
    enough(bytes, 23)?;
    let port = port_at(bytes, 0, version)?;
    let addr = four_at(bytes, 1);
    let w = most_at(bytes, 5, 3)?;
    let x = flag_at(bytes, 6)?;
    let word = word_at(bytes, 7);
    *event = Event::L {
        port,
        addr,
        w,
        x,
        word,
    };
    Ok(23)
}

/// The record of a store.
#[tactic(auto, using(crate::proofs::RecordBytes::reasons))]
#[inline(always)]
pub fn read_d(bytes: &[u8], version: u8, event: &mut Event) -> Result<usize, BinReason>
    ensures event { IsReadAs version 0x0f bytes.now event.new result }
    ensures stays { OnErr result (event.new ≡ event.old) }
{
    enough(bytes, 78)?;
    let port = port_at(bytes, 0, version)?;
    let addr = four_at(bytes, 1);
    let strobe = eight_at(bytes, 5);
    let x = flag_at(bytes, 13)?;
    let line = line_at(bytes, 14);
    *event = Event::D {
        port,
        addr,
        strobe,
        x,
        line,
    };
    Ok(78)
}

/// The record of a retired operation.
#[tactic(auto, using(crate::proofs::RecordBytes::reasons))]
#[inline(always)]
pub fn read_op(bytes: &[u8], version: u8, event: &mut Event) -> Result<usize, BinReason>
    ensures event { IsReadAs version 0x10 bytes.now event.new result }
    ensures stays { OnErr result (event.new ≡ event.old) }
{
    enough(bytes, 4)?;
    let port = port_at(bytes, 0, version)?;
    let k = two_at(bytes, 1);
    let res = outcome_at(bytes, 3)?;
    *event = Event::Op { port, k, res };
    Ok(4)
}

/// The record of the opening memory of a line.
#[tactic(auto, using(crate::proofs::RecordBytes::reasons))]
#[inline(always)]
pub fn read_mem(bytes: &[u8], event: &mut Event) -> Result<usize, BinReason>
    ensures event { (version : ℕ) → version ≢ 1 → IsReadAs version 0x11 bytes.now event.new result }
    ensures stays { OnErr result (event.new ≡ event.old) }
{
    enough(bytes, 68)?;
    let addr = four_at(bytes, 0);
    let line = line_at(bytes, 4);
    *event = Event::Mem { addr, line };
    Ok(68)
}
