// What `check` is asked to do.
ghost use Rattle.std.specs.Prelude.{◌≡◌, map, IfOk};
ghost use Rattle.ace_tool.specs.Asked.{some_traces};

use crate::check_options::CheckOptions;
use ace_io::NoMemory;

/// What `check` is asked to do.
#[derive(Drop)]
pub struct CheckCall<'a> {
    /// The names of the traces, in their order; `-` is standard input.
    pub traces: Vec<&'a str>,
    /// How they are to be checked.
    pub options: CheckOptions<'a>,
}

/// The names of the traces: where none is named, standard input is read.
pub(crate) fn some_traces<'a>(mut traces: Vec<&'a str>) -> Result<Vec<&'a str>, NoMemory>
    ensures { IfOk result (λ r. map (λ name. name.now) r.items ≡ some_traces (map
        (λ name. name.now) traces.entry.items)) }
{
    if traces.is_empty() && traces.push("-").is_err() {
        return Err(NoMemory);
    }
    Ok(traces)
}
