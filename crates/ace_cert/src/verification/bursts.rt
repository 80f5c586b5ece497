//! The beats of write data that ports have sent.

ghost use Rattle.std.specs.Prelude.{◌≡◌, ◌≤◌, ℕ, ◌<◌, OnOk};
ghost use Rattle.std.specs.Ordering.{nat_cmp};
ghost use Rattle.std.specs.BTreeMap.{get};
ghost use Rattle.ace_cert.specs.Walk.{beat_after, beat_in, burst_in, counts_after, counts_in, has_room, nth_of};

use super::names::issued;
use super::tables::{look_up, put};
use ace_event::{Event, Line};
use ace_io::NoMemory;
use ace_model::kinds::{has_write_data, write_kind};
use std::collections::BTreeMap;

/// How many writes with data a port has issued, and how many beats of them it has sent.
#[derive(Clone, Copy)]
pub struct Counts {
    pub writes: u32,
    pub beats: u32,
}

/// A beat of write data.
#[derive(Clone, Copy)]
pub struct SentBeat {
    pub strobe: u16,
    pub word: u128,
}

/// Bytes that are stored to a line: those whose bits of the strobe are 1.
#[derive(Clone, Copy)]
pub struct Bytes {
    pub strobe: u64,
    pub line: Line,
}

/// The key of the k-th of a list, from 0 on.
pub(super) fn nth_of(list: u32, k: u32) -> u64
    ensures { result ≡ nth_of list k }
{
    u64::from(list) * 4294967296 + u64::from(k)
}

/// The counts of the port.
pub(super) fn counts_in(counts: &BTreeMap<u64, Counts>, port: u8) -> Counts
    ensures { result ≡ counts_in counts.now port }
{
    let none = Counts {
        writes: 0,
        beats: 0,
    };
    look_up(counts, u64::from(port)).unwrap_or(none)
}

/// There is a write for the port's next beat.
fn has_room(counts: Counts) -> bool
    ensures { result ≡ has_room counts }
{
    u64::from(counts.beats) < 4 * u64::from(counts.writes)
}

/// Counts the event.
pub(super) fn hear_counts(counts: &mut BTreeMap<u64, Counts>, event: &Event) -> Result<(), NoMemory>
    ensures { OnOk result ((p : ℕ) → counts_in counts.new p
        ≡ counts_after event.now p (counts_in counts.old p)) }
{
    match *event {
        Event::Aw { port, .. } => match issued(0, event) {
            Some(write) if write_kind(&write).is_some_and(has_write_data) => {
                let own = counts_in(counts, port);
                let writes = own.writes.saturating_add(1);
                put(counts, u64::from(port), Counts { writes, ..own })
            }
            _ => Ok(()),
        },
        Event::W { port, .. } => {
            let own = counts_in(counts, port);
            if has_room(own) {
                let beats = own.beats.saturating_add(1);
                return put(counts, u64::from(port), Counts { beats, ..own });
            }
            Ok(())
        }
        _ => Ok(()),
    }
}

/// Keeps the beat, where the event is one that its port has a write for.
pub(super) fn hear_beats(
    beats: &mut BTreeMap<u64, SentBeat>,
    counts: &BTreeMap<u64, Counts>,
    event: &Event,
) -> Result<(), NoMemory>
    ensures { OnOk result ((k : ℕ) → get nat_cmp beats.new k
        ≡ beat_after counts.now event.now k (get nat_cmp beats.old k)) }
{
    match *event {
        Event::W {
            port,
            strb,
            word,
            ..
        } => {
            let own = counts_in(counts, port);
            if has_room(own) {
                let beat = SentBeat { strobe: strb, word };
                return put(beats, nth_of(u32::from(port), own.beats), beat);
            }
            Ok(())
        }
        _ => Ok(()),
    }
}

/// The port's beat with so many before it, or nothing.
fn beat_in(beats: &BTreeMap<u64, SentBeat>, port: u8, k: u32) -> SentBeat
    ensures { result ≡ beat_in beats.now port k }
{
    let none = SentBeat { strobe: 0, word: 0 };
    look_up(beats, nth_of(u32::from(port), k)).unwrap_or(none)
}

/// The port's four beats with so many before them.
pub(super) fn burst_in(beats: &BTreeMap<u64, SentBeat>, port: u8, first: u32) -> Bytes
    requires { first ≤ 4294967292 }
    ensures { result ≡ burst_in beats.now port first }
{
    let a = beat_in(beats, port, first);
    let b = beat_in(beats, port, first + 1);
    let c = beat_in(beats, port, first + 2);
    let d = beat_in(beats, port, first + 3);
    Bytes {
        strobe: u64::from(a.strobe)
            + 65536 * u64::from(b.strobe)
            + 4294967296 * u64::from(c.strobe)
            + 281474976710656 * u64::from(d.strobe),
        line: Line {
            words: [a.word, b.word, c.word, d.word],
        },
    }
}
