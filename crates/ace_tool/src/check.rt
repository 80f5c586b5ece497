// Checks traces, one after another.
ghost use Rattle.std.specs.Prelude.{◌≡◌, ◌≢◌, IfOk, OnErr};
ghost use Rattle.ace_io.specs.Faults.{HasCause};
ghost use Rattle.ace_tool.specs.Checked.{IsNext, accepted_of};
ghost use Rattle.ace_tool.specs.Outcome.{ChecksAll, ChecksSome};
ghost use Rattle.ace_tool.specs.Told.{asked_of, check_of, options_of};

use crate::check_call::CheckCall;
use crate::check_options::CheckOptions;
use crate::folder::Folder;
use crate::gap::judge;
use crate::line::give_line;
use crate::read_trace::read_named;
use crate::report::{Accepted, Report};
use crate::seen::Seen;
use crate::side::find_side;
use ace_io::{Failed, Sink, Source};
use ace_verdict::Verdict;
use std::alloc::Global;

/// The accepted trace of which this is told.
pub(crate) fn accepted_of(report: &Report) -> Option<Accepted>
    ensures { result ≡ accepted_of report.now }
{
    match report {
        Report::Told {
            verdict: Verdict::Accepted { events },
            outstanding,
        } => Some(Accepted {
            events: *events,
            outstanding: *outstanding,
        }),
        _ => None,
    }
}

/// What is to be told of the trace of this name, by its side file too.
fn check_trace<F: Folder, I: Source>(
    alloc: Global,
    files: &F,
    input: &mut I,
    name: &str,
    options: &CheckOptions<'_>,
) -> Report
    ensures { IsNext (options_of options.now) (F.holds files.now) name.now (I.left input.old)
        result (I.left input.new) }
{
    let told = read_named(alloc, files, input, name, options.limits);
    match accepted_of(&told) {
        Some(accepted) => judge(
            options.ends,
            accepted,
            find_side(alloc, files, options.side, name),
        ),
        None => told,
    }
}

/// Checks the traces of these names, gives a line for each, and returns the status of all of them.
///
/// # Errors
///
/// `Failed` where the output failed: no more traces are read then.
#[tactic(auto, using(crate::proofs::Checking::checking))]
fn check_each<F: Folder, I: Source, K: Sink>(
    alloc: Global,
    files: &F,
    input: &mut I,
    out: &mut K,
    names: &[&str],
    options: &CheckOptions<'_>,
) -> Result<u8, Failed>
    ensures all { IfOk result (ChecksAll (F.holds files.now) (asked_of options.now names.now)
        (I.left input.old) (I.left input.new) (K.held out.old) (K.held out.new)) }
    ensures some { OnErr result (ChecksSome (F.holds files.now) (asked_of options.now names.now)
        (I.left input.old) (I.left input.new) (K.held out.old) (K.held out.new)) }
    ensures no_write_fault { IfOk result (λ status. status ≢ 5) }
    ensures cause { HasCause (K.faults out.old) (K.faults out.new) result }
{
    let mut seen = Seen::new();
    for name in names {
        let report = check_trace(alloc, files, input, name, options);
        match give_line(out, options.side, name, &report) {
            Ok(()) => seen.add(&report),
            Err(failed) => return Err(failed),
        }
    }
    Ok(seen.status())
}

/// Checks traces as it is asked, gives a line for each, and returns the status of all of them.
///
/// # Errors
///
/// `Failed` where the output failed: no more traces are read then.
pub(crate) fn check_traces<F: Folder, I: Source, K: Sink>(
    alloc: Global,
    files: &F,
    input: &mut I,
    out: &mut K,
    call: &CheckCall<'_>,
) -> Result<u8, Failed>
    ensures all { IfOk result (ChecksAll (F.holds files.now) (check_of call.now)
        (I.left input.old) (I.left input.new) (K.held out.old) (K.held out.new)) }
    ensures some { OnErr result (ChecksSome (F.holds files.now) (check_of call.now)
        (I.left input.old) (I.left input.new) (K.held out.old) (K.held out.new)) }
    ensures no_write_fault { IfOk result (λ status. status ≢ 5) }
    ensures cause { HasCause (K.faults out.old) (K.faults out.new) result }
{
    check_each(
        alloc,
        files,
        input,
        out,
        call.traces.as_slice(),
        &call.options,
    )
}
