// The results of many traces.
ghost use Rattle.std.specs.Prelude.{◌<◌, IfOk};
ghost use Rattle.std.specs.List.{AllZip};
ghost use Rattle.ace_batch.specs.Looked.{AreLookedAt};
ghost use Rattle.ace_tool.specs.Results.{IsResult};
ghost use Rattle.ace_tool.specs.Told.{options_of};

use crate::check_options::CheckOptions;
use crate::checks::Checks;
use ace_batch::{Entry, add_looked_at};
use ace_io::NoMemory;
use rayon::prelude::*;
use std::alloc::{AllocError, Global};
use std::thread::Threads;

/// How many traces each job has in a piece of a list, where the call may end with one of them: those
/// of the piece behind that one are examined in vain.
const TURNS: usize = 4;

/// How many traces are examined at once, of so many and in so many jobs.
fn piece_of(traces: usize, jobs: usize, fail_fast: bool) -> usize
    requires { 0 < jobs }
    ensures { 0 < result }
{
    if fail_fast {
        jobs.saturating_mul(TURNS)
    } else {
        traces.max(1)
    }
}

/// How many traces a thread takes at least, where so many are shared out among so many jobs.
fn share_of(traces: usize, jobs: usize) -> usize
    requires { 0 < jobs }
{
    traces.div_ceil(jobs).max(1)
}

/// The results of the traces of these paths, in pieces of so many at least.
fn results_in_pieces<X: Checks + Sync>(
    rt: &(impl Threads + Sync),
    alloc: Global,
    checks: &X,
    options: &CheckOptions<'_>,
    paths: &[&str],
    least: usize,
) -> Result<Result<Vec<Entry>, NoMemory>, AllocError>
    ensures { IfOk result (λ told. IfOk told (λ entries.
        AllZip (λ path e. IsResult (options_of options.now) (X.knows checks.now) path.now e)
        paths.now entries.items)) }
{
    paths
        .par_iter()
        .with_min_len(least)
        .map(
            |path: &&str| -> Result<Entry, NoMemory>
                ensures { IfOk result (IsResult (options_of options.entry.now)
                    (X.knows checks.entry.now) path.now.now) }
            { checks.result_of(alloc, path, options) },
        )
        .collect(rt, alloc)
}

/// The results of the traces of these paths, in their order, in as many threads as there
/// are jobs.
fn piece_results<X: Checks + Sync>(
    rt: &(impl Threads + Sync),
    alloc: Global,
    checks: &X,
    options: &CheckOptions<'_>,
    paths: &[&str],
    jobs: usize,
) -> Result<Vec<Entry>, NoMemory>
    requires { 0 < jobs }
    ensures { IfOk result (λ entries.
        AllZip (λ path e. IsResult (options_of options.now) (X.knows checks.now) path.now e)
        paths.now entries.items) }
{
    let least = share_of(paths.len(), jobs);
    match results_in_pieces(rt, alloc, checks, options, paths, least) {
        Ok(told) => told,
        Err(_) => Err(NoMemory),
    }
}

/// The results of the traces of these paths that are looked at, in their order, in as many threads
/// as there are jobs: of all; or where the call is to end with the first that isn't accepted, of
/// those up to that one, whatever the number of jobs.
///
/// # Errors
///
/// `NoMemory` where there is none for what is told.
pub(crate) fn all_results<X: Checks + Sync>(
    rt: &(impl Threads + Sync),
    alloc: Global,
    checks: &X,
    options: &CheckOptions<'_>,
    paths: &[&str],
    jobs: usize,
    fail_fast: bool,
) -> Result<Vec<Entry>, NoMemory>
    requires { 0 < jobs }
    ensures { IfOk result (λ entries. AreLookedAt fail_fast
        (λ path e. IsResult (options_of options.now) (X.knows checks.now) path.now e)
        paths.now entries.items) }
{
    let piece = piece_of(paths.len(), jobs, fail_fast);
    let mut entries = Vec::new(alloc);
    let mut start = 0;
    while start < paths.len() {
        let end = start.saturating_add(piece).min(paths.len());
        let more = piece_results(rt, alloc, checks, options, &paths[start..end], jobs)?;
        if add_looked_at(&mut entries, more, fail_fast)? {
            return Ok(entries);
        }
        start = end;
    }
    Ok(entries)
}
