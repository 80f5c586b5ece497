// What side files tell of events, ports and lines.
use ace_io::{HonestSource, NoMemory};
use ace_side::{SideEnd, SideErr};
use ace_side_facts::{Query, SideFacts, read_facts};
use std::alloc::Global;
use std::test::Fail;

const FILE: &[u8] =
    b"ACE SIDE 1\nUNIT ns\nPORT 00 cpu0.l2\nADDR 00000040 8001234040\nADDR 00000080 1c0\nNOTE 1 first\nT 2 10\nNOTE 4 other\nNOTE 4 another\nT 5 12\nPORT 0a dma\nEND 9\n";

/// What the file tells of some events, not in their order, of remarks at two of them, and of two
/// lines.
fn facts(alloc: Global) -> Result<SideFacts, SideErr> {
    let query = Query {
        events: &[9, 4, 1, 5, 2, 4],
        notes: &[4, 5],
        lines: &[64, 192],
    };
    read_facts(alloc, &mut HonestSource::new(FILE), &query)
}

/// Whether these are the times of the events, in their order.
fn has_times(facts: &SideFacts) -> bool {
    facts.events() == [1, 2, 4, 4, 5, 9].as_slice()
        && facts.times() == [None, Some(10), Some(10), Some(10), Some(12), Some(12)].as_slice()
        && facts.time(1).is_none()
        && facts.time(4) == Some(10)
        && facts.time(9) == Some(12)
        && facts.time(3).is_none()
}

/// Whether these are the names, the remarks, the unit and the end.
fn has_labels(facts: &SideFacts) -> bool {
    facts.unit() == Some(b"ns".as_slice())
        && facts.name(0) == Some(b"cpu0.l2".as_slice())
        && facts.name(10) == Some(b"dma".as_slice())
        && facts.name(1).is_none()
        && facts.note(4) == Some(b"other".as_slice())
        && facts.note(5).is_none()
        && facts.note(1).is_none()
        && facts.ending() == Some(SideEnd::End(9))
        && facts.fault().is_none()
}

/// Whether the line has this address in the design.
fn has_real(facts: &SideFacts, line: u32, value: u64) -> bool {
    match facts.real(line) {
        Some(real) => real.value == value,
        None => value == 0,
    }
}

#[test]
fn a_file_tells_of_what_is_asked(rt: HostRuntime) -> Result<(), Fail> {
    let facts = facts(rt.alloc())?;
    let times = has_times(&facts);
    let labels = has_labels(&facts);
    let reals = has_real(&facts, 64, 0x8001234040)
        && has_real(&facts, 128, 0)
        && has_real(&facts, 192, 0);
    drop(facts);
    assert!(rt; times && labels && reals);
    Ok(())
}

#[test]
fn nothing_is_told_but_why(rt: HostRuntime) -> Result<(), Fail> {
    let words = Vec::from_slice(rt.alloc(), b"why").map_err(|_| NoMemory)?;
    let silent = SideFacts::silent(rt.alloc(), words);
    let told = silent.fault() == Some(b"why".as_slice()) && silent.time(1).is_none();
    drop(silent);
    assert!(rt; told);
    Ok(())
}
