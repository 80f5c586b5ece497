// What tells the results of traces.
ghost use Rattle.std.specs.Prelude.{List, ℕ, IfOk};
ghost use Rattle.ace_tool.specs.Held.{Held};
ghost use Rattle.ace_tool.specs.Results.{IsResult};
ghost use Rattle.ace_tool.specs.Told.{options_of};

use crate::check_options::CheckOptions;
use ace_batch::Entry;
use ace_io::NoMemory;
use std::alloc::Global;

/// What tells the result of the trace of a path, in any thread.
pub trait Checks {
    /// What is told of the file of this name.
    ghost knows: { Self → List ℕ → Held };

    /// What `check` and `explain` tell of the trace in the file of this path, where it is to be
    /// checked so.
    ///
    /// # Errors
    ///
    /// `NoMemory` where there is none for what is told.
    fn result_of(
        &self,
        alloc: Global,
        path: &str,
        options: &CheckOptions<'_>,
    ) -> Result<Entry, NoMemory>
        ensures { IfOk result (IsResult (options_of options.now) (knows self.now) path.now) };
}
