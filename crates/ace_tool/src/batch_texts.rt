// The texts of `batch`.
ghost use Rattle.std.specs.Prelude.{◌≡◌};
ghost use Rattle.ace_tool.specs.BatchTexts.{batch_help, list_note};

use crate::folder::OpenErr;
use crate::list_file::ListErr;

/// How `batch` is used.
pub(crate) fn batch_help() -> &'static str
    ensures { result.now ≡ batch_help }
{
    "usage: acetool batch [OPTION].. [--] FILE..
       acetool batch --merge FILE..

Checks each trace as `acetool check` does, tells a line for each in their order, and a summary with
the failures grouped by the broken clause or the reason, the most frequent first. With --merge it
puts the JSON of all parts of a list together, and tells the summary of the whole.

  --list FILE      more traces, a path a line; `-` is standard input
  --jobs N         threads that share the work; else as many as there are processors
  --shard K/N      of all of these the traces K, K + N, K + 2N, .. alone
  --failed         no lines for accepted traces
  --fail-fast      ends with the first trace, in their order, that isn't accepted
  --junit FILE     the results as JUnit XML as well
  --json FILE      the results as JSON, an object a line, as well
  --most-events N  a trace may have N events at most
  --most-lines N   a trace may name N lines at most
  --no-side        no side files are read
  --require-end    a trace without a side file is unfinished
  --allow-cut      a recording that was cut on demand is whole
  --drained        a trace that ends with transactions outstanding is unfinished

status: 0 each trace was accepted, and none is unfinished; else the first that came of 1 refused,
3 malformed, 8 unfinished, 6 a limit, 4 unreadable, 7 no memory; 5 an output failed; 2 these words
are wrong, or there is no trace
"
}

/// What is noted where the list of traces can't be had.
pub(crate) fn list_note(error: ListErr) -> &'static str
    ensures { result.now ≡ list_note error }
{
    match error {
        ListErr::Shut {
            error: OpenErr::NotThere,
        } => "the list of traces: No such file or directory\n",
        ListErr::Shut {
            error: OpenErr::NotAllowed,
        } => "the list of traces: Permission denied\n",
        ListErr::Shut { .. } => "the list of traces: cannot be opened\n",
        ListErr::ReadFault => "the list of traces: read fault\n",
        ListErr::NoText => "the list of traces: not UTF-8\n",
        ListErr::NoMemory => "out of memory\n",
    }
}
