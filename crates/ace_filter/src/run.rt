//! The run of a whole plan through a snoop filter.

ghost use Rattle.std.specs.Prelude.{◌≡◌, [], true, reverse, IfOk};
ghost use Rattle.ace_runs.specs.Follows.{Done};
ghost use Rattle.ace_fabric.specs.System.{plan_of};
ghost use Rattle.ace_filter.specs.Drain.{are_kept_snoops};

use crate::{Filter, drain_filtered};
use ace_fabric::System;
use ace_io::NoMemory;
use ace_script::Plan;
use std::alloc::Global;

/// The run of the plan, without threads, in which only the ports that a snoop filter has for a line
/// are snooped for it: at each point those that may hold the line.
///
/// # Errors
///
/// `NoMemory` where there is none for the filter or for the run.
pub fn run_filtered(alloc: Global, plan: &Plan) -> Result<System, NoMemory>
    ensures done { IfOk result (λ s. Done s.plan s.past) }
    ensures plan { IfOk result (λ s. plan_of s ≡ plan.now) }
    ensures kept { IfOk result
        (λ s. are_kept_snoops s.plan.header [] (reverse s.past) ≡ true) }
{
    // A plan names at most one line in each of its operations.
    let mut filter = Filter::new(alloc, u32::from(plan.view().count()))?;
    let Ok(mut system) = System::start(alloc, plan) else {
        drop(filter);
        return Err(NoMemory);
    };
    system.keeps();
    drain_filtered(&mut system, &mut filter);
    drop(filter);
    Ok(system)
}
