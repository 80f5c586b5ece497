//! Operations of a port, and the events of a burst, for tests that make what is kept of a port.

use ace_engine::Burst;
use ace_event::{Event, Header};
use ace_master::PortOperations;
use ace_model::{Op, PlanOp, PlanView, PolicyWord};
use std::alloc::Global;
use std::test::Fail;

const HEADER: Header = Header {
    version: 1,
    ports: 2,
    ace: 0b11,
};

/// The operations of port 0 of a plan that has these.
pub fn operations(alloc: Global, header: Header, of: &[Op]) -> Result<PortOperations, Fail> {
    let mut plan = PlanView::new(alloc, header, 1, PolicyWord::Keep);
    for op in of {
        if plan.count() < 4096 && plan.room() == 0 {
            plan.add(PlanOp { port: 0, op: *op })?;
        }
    }
    Ok(PortOperations::new(alloc, &plan, 0)?)
}

/// The burst has just these events.
pub fn has_events(burst: &Burst, events: &[Event]) -> bool {
    if usize::from(burst.len()) != events.len() {
        return false;
    }
    for i in 0..burst.len() {
        if burst.get(i) != events[usize::from(i)] {
            return false;
        }
    }
    true
}

/// The operations of the port are these, and no others.
fn are_operations(operations: &PortOperations, of: &[Op]) -> bool {
    for (k, op) in of.iter().enumerate() {
        if operations.get(k) != Some(*op) {
            return false;
        }
    }
    operations.get(of.len()) == None
}

/// A port has its own operations alone.
#[test]
fn has_its_own(rt: HostRuntime) -> Result<(), Fail> {
    let both = operations(rt.alloc(), HEADER, &[Op::Mb, Op::Sb])?;
    let holds = are_operations(&both, &[Op::Mb, Op::Sb]);
    drop(both);
    assert!(rt; holds);
    Ok(())
}

/// A port has no operation of another.
#[test]
fn has_none_of_another(rt: HostRuntime) -> Result<(), Fail> {
    let mut plan = PlanView::new(rt.alloc(), HEADER, 1, PolicyWord::Keep);
    plan.add(PlanOp {
        port: 0,
        op: Op::Mb,
    })?;
    let none = PortOperations::new(rt.alloc(), &plan, 1)?;
    let holds = are_operations(&none, &[]);
    drop(none);
    assert!(rt; holds);
    Ok(())
}
