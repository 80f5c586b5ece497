//! Runs of a script in which the ports share no line.

use ace_event::Event;
use ace_fabric::System;
use ace_filter::{Filter, drain_filtered};
use ace_io::HonestSource;
use ace_script::Plan;
use std::alloc::Global;
use std::test::Fail;

/// Two ports load, each a line of its own.
const SCRIPT: &[u8] =
    b"ACE SCRIPT 1\nPORTS AAA\nCACHE 1\nPOLICY keep\n0 ld 00000040 0\n1 ld 00000080 0\n";

/// For how many lines the filter has room: no plan has more operations.
const LINES: u32 = 4096;

/// The run of the script, drained.
fn drained(alloc: Global) -> Result<System, Fail> {
    let plan = Plan::read(alloc, &mut HonestSource::new(SCRIPT))?;
    let mut system = System::start(alloc, &plan)?;
    drop(plan);
    system.drain();
    Ok(system)
}

/// The run of the script, drained by a filter.
fn filtered(alloc: Global) -> Result<System, Fail> {
    let plan = Plan::read(alloc, &mut HonestSource::new(SCRIPT))?;
    let mut filter = Filter::new(alloc, LINES)?;
    let mut system = System::start(alloc, &plan)?;
    drop(plan);
    system.keeps();
    drain_filtered(&mut system, &mut filter);
    drop(filter);
    Ok(system)
}

/// How many snoops the run has, if it is done.
fn snoops(run: Result<System, Fail>) -> Result<Option<usize>, Fail> {
    let system = run?;
    let mut count = 0usize;
    for event in system.trace() {
        if matches!(event, Event::Ac { .. }) {
            count = count.saturating_add(1);
        }
    }
    let done = system.done();
    drop(system);
    Ok(if done { Some(count) } else { None })
}

/// Nobody holds a line that a port loads, so a filter leaves no port to snoop. Without one each
/// load snoops both other ports.
#[test]
fn a_filter_saves_snoops(rt: HostRuntime) -> Result<(), Fail> {
    let with = snoops(filtered(rt.alloc()))?;
    let without = snoops(drained(rt.alloc()))?;
    assert_eq!(rt; (with, without), (Some(0), Some(4)));
    Ok(())
}
