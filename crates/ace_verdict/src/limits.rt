// How much a trace may have.
ghost use Rattle.std.specs.Prelude.{◌≡◌};
ghost use Rattle.ace_verdict.specs.Limits.{trace_limits};

use ace_model::MOST_LINES;

/// The most events of a trace, and the most lines that its transactions may name.
#[derive(Clone, Copy)]
pub struct Limits {
    pub events: u64,
    pub lines: usize,
}

impl Limits {
    /// Those of a trace, where no others are asked for: 1,048,576 events and 4,096 lines.
    pub fn of_a_trace() -> Limits
        ensures { result ≡ trace_limits }
    {
        Limits {
            events: 1_048_576,
            lines: MOST_LINES,
        }
    }
}
