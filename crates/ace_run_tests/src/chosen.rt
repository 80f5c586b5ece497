// The start of a run with chosen answers.

use ace_fabric::System;
use ace_model::PolicyWord;
use ace_script::Plan;
use std::alloc::Global;
use std::test::Fail;

/// The run of the plan with these answers, where the plan lets the caller choose them and there is
/// one.
pub fn start_chosen(alloc: Global, plan: &Plan, picks: &[u8]) -> Result<Option<System>, Fail> {
    if picks.is_empty() {
        return Ok(None);
    }
    match plan.view().policy() {
        PolicyWord::Mixed(_) => Ok(Some(System::start_listed(alloc, plan, picks)?)),
        _ => Ok(None),
    }
}
