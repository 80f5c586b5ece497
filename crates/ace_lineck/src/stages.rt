//! How far the snoops under a grant have come.

ghost use Rattle.std.specs.Prelude.{◌≡◌};
ghost use Rattle.ace_lineck.specs.Grants.{stage_at, IsMoved};

/// How far the snoop of a port under the grant of a line has come.
#[derive(Clone, Copy, Debug, PartialEq, Eq)]
pub enum Stage {
    /// The port wasn't snooped.
    Unsnooped,
    /// Its snoop is unanswered.
    Unanswered,
    /// It answered with data, and the four beats aren't there yet.
    Sending,
    /// It answered, and its data are whole, if it sends any.
    Done,
}

/// What is kept of the port: a port that isn't there wasn't snooped.
#[inline(always)]
pub fn stage_at(stages: &[Stage; 32], port: u8) -> Stage
    ensures { result ≡ stage_at stages.now port }
{
    match stages.get(usize::from(port)) {
        Some(stage) => *stage,
        None => Stage::Unsnooped,
    }
}

/// The port has come to this stage. A port that isn't there has none.
#[inline(always)]
pub fn set_stage(stages: &mut [Stage; 32], port: u8, stage: Stage)
    ensures { IsMoved stages.old stages.new port stage }
{
    if usize::from(port) < 32 {
        stages[usize::from(port)] = stage;
    }
}
