// A plan is made from a number to reach points of coverage.
ghost use Rattle.std.specs.Prelude.{◌≡◌, IfOk};
ghost use Rattle.ace_cover_script.specs.Covering.{covering, covering_of};
ghost use Rattle.ace_cover_script.specs.Shapes.{IsShape};

use crate::operations::drawn_operation;
use crate::shape::{Shape, header_of, policy_of, shape_of};
use ace_io::NoMemory;
use ace_script::Plan;
use rand_core::utils::NextWord;
use rand_pcg::Lcg64Xsh32;
use std::alloc::Global;

/// How many operations such a plan has.
const COVERING_COUNT: u16 = 1024;

/// The plan of this shape, whose operations the generator gives.
fn plan_of(alloc: Global, n: u64, shape: Shape, words: Lcg64Xsh32) -> Result<Plan, NoMemory>
    requires { IsShape shape }
    ensures { IfOk result (λ plan. plan ≡ record { plan = covering_of n shape words; room = 0 }) }
{
    let header = header_of(shape);
    let mut plan = Plan::blank(alloc, header, shape.ways, policy_of(n), COVERING_COUNT)?;
    let mut words = words;
    let mut left = COVERING_COUNT;
    while left > 0 {
        left -= 1;
        let x = words.next_word();
        let y = words.next_word();
        let operation = drawn_operation(shape, x, y);
        plan.push(operation.port, operation.op);
    }
    Ok(plan)
}

/// The plan that is made from n to reach points of coverage, of 1,024 operations: two words of a
/// PCG generator that starts from n say how large its run is, and two more give each operation.
///
/// # Errors
///
/// `NoMemory` where there is none for the plan.
pub fn cover_plan(alloc: Global, n: u64) -> Result<Plan, NoMemory>
    ensures { IfOk result (λ plan. plan ≡ record { plan = covering n; room = 0 }) }
{
    let mut words = Lcg64Xsh32::new(n, 1);
    let x = words.next_word();
    let y = words.next_word();
    plan_of(alloc, n, shape_of(x, y), words)
}
