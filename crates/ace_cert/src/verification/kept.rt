//! What a walk through a trace keeps of it, and what it tells of the events so far.

ghost use Rattle.std.specs.Prelude.{◌≡◌, ◌<◌};
ghost use Rattle.ace_model.specs.Trace.{Trace};
ghost use Rattle.ace_cert.specs.Walk.{AreReadsKept, AreWritesKept, reading_of, writing_of};

use super::bursts::{Counts, SentBeat};
use super::lines::Lines;
use super::names::{Reading, Writing, under};
use super::places::Placed;
use super::tables::look_up;
use std::collections::BTreeMap;

/// The last reads and writes by port and identifier, the write data of ports, the lines, and the
/// places of reads by their numbers.
#[derive(Drop)]
pub struct Kept {
    pub reads: BTreeMap<u64, Reading>,
    pub writes: BTreeMap<u64, Writing>,
    pub counts: BTreeMap<u64, Counts>,
    pub beats: BTreeMap<u64, SentBeat>,
    pub lines: Lines,
    pub places: BTreeMap<u64, Placed>,
}

/// The port's last read under the identifier.
pub(super) fn reading_of(kept: &Kept, port: u8, id: u8) -> Option<Reading>
    ensures { (past : Trace) → AreReadsKept past kept.now.reads → result ≡ reading_of past port id }
{
    look_up(&kept.reads, under(port, id))
}

/// The port's last write under the identifier.
pub(super) fn writing_of(kept: &Kept, port: u8, id: u8) -> Option<Writing>
    ensures { (past : Trace) → AreWritesKept past kept.now.writes
        → result ≡ writing_of past port id }
{
    look_up(&kept.writes, under(port, id))
}
