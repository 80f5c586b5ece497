// Checks many traces.
ghost use Rattle.std.specs.Prelude.{◌≡◌, ◌≢◌, ◌<◌, ◌⊎◌, ◌++◌, ◌-◌, length, map, option_map, string_bytes, IfOk, OnErr, OnOk};
ghost use Rattle.ace_batch.specs.Json.{results_json};
ghost use Rattle.ace_batch.specs.Junit.{junit_text};
ghost use Rattle.ace_batch.specs.Looked.{AreLookedAt};
ghost use Rattle.ace_batch.specs.Shards.{part_of};
ghost use Rattle.ace_batch.specs.Summaries.{told_text};
ghost use Rattle.ace_paths.specs.Lists.{paths_of, texts_of};
ghost use Rattle.ace_io.specs.Faults.{HasCause, Rose};
ghost use Rattle.ace_tool.specs.Batch.{AreResults, Batches, DoesBatch, TellsTexts, WritesBoth, WritesIf};
ghost use Rattle.ace_tool.specs.BatchTold.{batch_of};
ghost use Rattle.ace_tool.specs.ListTexts.{IsTextOfList, KeepsInput};
ghost use Rattle.ace_tool.specs.Results.{IsResult};

use crate::batch_texts::{batch_help, list_note};
use crate::batch_words::{BatchCall, batch_call};
use crate::checks::Checks;
use crate::conclude::note;
use crate::folder::Folder;
use crate::list_file::{ListErr, read_list};
use crate::many::all_results;
use crate::request::is_help;
use crate::shelf::Shelf;
use ace_batch::{Entry, push_junit, push_results, status_of_all, told_text};
use ace_call::{break_off, give_text};
use ace_io::{Failed, NoMemory, Sink, Source};
use ace_paths::paths_of;
use rayon::current_num_threads;
use std::alloc::Global;
use std::thread::Threads;

/// What is told of a batch, and what goes into files.
#[derive(Drop)]
struct Texts {
    told: Vec<u8>,
    json: Vec<u8>,
    junit: Vec<u8>,
}

/// The results of the traces that are looked at, in their order, and how many others are asked for.
#[derive(Drop)]
struct Looked {
    entries: Vec<Entry>,
    left: usize,
}

/// The text of the list, if one is asked for.
pub(crate) fn list_text<F: Folder, I: Source>(
    alloc: Global,
    files: &F,
    input: &mut I,
    list: Option<&str>,
) -> Result<String, ListErr>
    ensures text { IfOk result (λ text. IsTextOfList (F.holds files.now)
        (option_map (λ n. n.now) list.entry) (I.left input.old) (string_bytes text)) }
    ensures kept { KeepsInput (option_map (λ n. n.now) list.entry) (I.left input.old)
        (I.left input.new) }
{
    match list {
        Some(name) => read_list(alloc, files, input, name),
        None => Ok(String::new(alloc)),
    }
}

/// The traces that are named, and then those that the text lists.
pub(crate) fn all_paths<'a>(
    alloc: Global,
    named: &[&'a str],
    list: &'a str,
) -> Result<Vec<&'a str>, NoMemory>
    ensures { IfOk result (λ paths. texts_of paths.items
        ≡ texts_of named.now ++ paths_of list.entry.now) }
{
    let listed = paths_of(alloc, list)?;
    let mut paths = Vec::new(alloc);
    if paths.extend_from_slice(named).is_err()
        || paths.extend_from_slice(listed.as_slice()).is_err()
    {
        return Err(NoMemory);
    }
    Ok(paths)
}

/// In how many threads the traces are examined.
fn jobs_of(rt: &impl Threads, jobs: Option<u64>) -> usize
    ensures { 0 < result }
{
    match jobs {
        Some(jobs) => (jobs as usize).max(1),
        None => current_num_threads(rt).max(1),
    }
}

/// The results of those traces of the list, and of those that are named, that are looked at.
#[tactic(auto, using(crate::proofs::BatchDone::results_by_texts))]
fn results_of<X: Checks + Sync>(
    rt: &(impl Threads + Sync),
    alloc: Global,
    checks: &X,
    call: &BatchCall<'_>,
    list: &str,
) -> Result<Looked, NoMemory>
    ensures right { IfOk result (λ looked. AreLookedAt call.now.extras.fail_fast
        (λ path e. IsResult (batch_of call.now).options (X.knows checks.now) path e)
        (part_of call.now.extras.shard.part call.now.extras.shard.parts
        (texts_of call.now.traces.items ++ paths_of list.now)) looked.entries.items) }
    ensures others { IfOk result (λ looked. looked.left
        ≡ length (part_of call.now.extras.shard.part call.now.extras.shard.parts
        (texts_of call.now.traces.items ++ paths_of list.now)) - length looked.entries.items) }
{
    let all = all_paths(alloc, call.traces.as_slice(), list)?;
    let paths = call.extras.shard.of(alloc, all.as_slice())?;
    let jobs = jobs_of(rt, call.extras.jobs);
    let fail_fast = call.extras.fail_fast;
    let options = &call.options;
    match all_results(
        rt,
        alloc,
        checks,
        options,
        paths.as_slice(),
        jobs,
        fail_fast,
    ) {
        Ok(entries) => {
            let left = paths.len().saturating_sub(entries.len());
            Ok(Looked { entries, left })
        }
        Err(NoMemory) => Err(NoMemory),
    }
}

/// The results of the traces that are asked for and are looked at.
#[tactic(auto, using(crate::proofs::BatchDone::are_results))]
fn run_batch<F: Folder, X: Checks + Sync, I: Source>(
    rt: &(impl Threads + Sync),
    alloc: Global,
    files: &F,
    checks: &X,
    input: &mut I,
    call: &BatchCall<'_>,
) -> Result<Looked, ListErr>
    ensures { IfOk result (λ looked. AreResults (batch_of call.now) (F.holds files.now)
        (X.knows checks.now) (I.left input.old) looked.entries.items looked.left) }
{
    let list = list_text(alloc, files, input, call.extras.list)?;
    match results_of(rt, alloc, checks, call, list.as_str()) {
        Ok(looked) => Ok(looked),
        Err(NoMemory) => Err(ListErr::NoMemory),
    }
}

/// What is told of these results.
fn texts_of(alloc: Global, call: &BatchCall<'_>, looked: &Looked) -> Result<Texts, NoMemory>
    ensures told { IfOk result (λ t. t.told.items
        ≡ told_text call.now.extras.failed looked.now.left looked.now.entries.items) }
    ensures json { IfOk result (λ t. t.json.items
        ≡ results_json call.now.extras.shard.part call.now.extras.shard.parts
        looked.now.left looked.now.entries.items) }
    ensures junit { IfOk result (λ t. t.junit.items ≡ junit_text looked.now.entries.items) }
{
    let entries = looked.entries.as_slice();
    let told = told_text(alloc, call.extras.failed, looked.left, entries)?;
    let mut json = Vec::new(alloc);
    push_results(&mut json, &call.extras.shard, looked.left, entries)?;
    let mut junit = Vec::new(alloc);
    push_junit(alloc, &mut junit, entries)?;
    Ok(Texts { told, json, junit })
}

/// Writes the file with this text, if one is asked for.
fn put_if<W: Shelf>(shelf: &mut W, name: Option<&str>, text: &[u8]) -> Result<(), Failed>
    ensures whole { OnOk result (WritesIf (option_map (λ n. n.now) name.entry) text.now
        (W.written shelf.old) (W.written shelf.new)) }
    ensures cause { HasCause (W.faults shelf.old) (W.faults shelf.new) result }
{
    match name {
        Some(name) => shelf.put(name, text),
        None => Ok(()),
    }
}

/// Writes the files that are asked for.
#[tactic(auto, using(crate::proofs::BatchDone::writes_both))]
fn put_both<W: Shelf>(shelf: &mut W, call: &BatchCall<'_>, texts: &Texts) -> Result<(), Failed>
    ensures whole { OnOk result (WritesBoth (batch_of call.now) texts.now.json.items
        texts.now.junit.items (W.written shelf.old) (W.written shelf.new)) }
    ensures cause { HasCause (W.faults shelf.old) (W.faults shelf.new) result }
{
    match put_if(shelf, call.extras.json, texts.json.as_slice()) {
        Ok(()) => match put_if(shelf, call.extras.junit, texts.junit.as_slice()) {
            Ok(()) => Ok(()),
            Err(failed) => Err(failed),
        },
        Err(failed) => Err(failed),
    }
}

/// Tells the texts, and writes the files that are asked for.
fn tell_texts<W: Shelf, K: Sink>(
    shelf: &mut W,
    out: &mut K,
    call: &BatchCall<'_>,
    texts: &Texts,
) -> Result<(), Failed>
    ensures whole { OnOk result (TellsTexts (batch_of call.now) texts.now.told.items
        texts.now.json.items texts.now.junit.items (K.held out.old) (K.held out.new)
        (W.written shelf.old) (W.written shelf.new)) }
    ensures cause { OnErr result (Rose (K.faults out.old) (K.faults out.new)
        ⊎ Rose (W.faults shelf.old) (W.faults shelf.new)) }
{
    match give_text(out, texts.told.as_slice()) {
        Ok(()) => put_both(shelf, call, texts),
        Err(failed) => Err(failed),
    }
}

/// Does what the words behind `batch` ask, and returns the status.
#[tactic(auto, using(crate::proofs::BatchDone::is_done))]
fn do_batch<F: Folder, X: Checks + Sync, W: Shelf, I: Source, K: Sink, E: Sink>(
    rt: &(impl Threads + Sync),
    alloc: Global,
    call: &BatchCall<'_>,
    files: &F,
    checks: &X,
    shelf: &mut W,
    input: &mut I,
    out: &mut K,
    notes: &mut E,
) -> u8
    ensures done { result ≢ 5 → DoesBatch (F.holds files.now) (X.knows checks.now)
        (batch_of call.now)
        (I.left input.old) (K.held out.old) (K.held out.new) (E.held notes.old) (E.held notes.new)
        (W.written shelf.old) (W.written shelf.new) result }
    ensures fault { result ≡ 5 → Rose (K.faults out.old) (K.faults out.new)
        ⊎ Rose (E.faults notes.old) (E.faults notes.new)
        ⊎ Rose (W.faults shelf.old) (W.faults shelf.new) }
{
    let looked = match run_batch(rt, alloc, files, checks, input, call) {
        Ok(looked) => looked,
        Err(ListErr::NoMemory) => return note(notes, "out of memory\n", 7),
        Err(error) => return note(notes, list_note(error), 4),
    };
    match texts_of(alloc, call, &looked) {
        Ok(texts) => match tell_texts(shelf, out, call, &texts) {
            Ok(()) => status_of_all(looked.entries.as_slice()),
            Err(_) => break_off(notes),
        },
        Err(NoMemory) => note(notes, "out of memory\n", 7),
    }
}

/// Does what the words behind `batch` ask, and returns the status.
#[tactic(auto, using(crate::proofs::BatchDone::no_memory_for_words))]
pub fn batch<F: Folder, X: Checks + Sync, W: Shelf, I: Source, K: Sink, E: Sink>(
    rt: &(impl Threads + Sync),
    alloc: Global,
    words: &[String],
    files: &F,
    checks: &X,
    shelf: &mut W,
    input: &mut I,
    out: &mut K,
    notes: &mut E,
) -> u8
    // Where no output failed, what the words ask was done, or they ask nothing and the usage was
    // told.
    ensures answer { result ≢ 5 → Batches (F.holds files.now) (X.knows checks.now)
        (map string_bytes words.now)
        (I.left input.old) (K.held out.old) (K.held out.new) (E.held notes.old) (E.held notes.new)
        (W.written shelf.old) (W.written shelf.new) result }

    // A write fault is answered only where an output failed.
    ensures write_fault { result ≡ 5 → Rose (K.faults out.old) (K.faults out.new)
        ⊎ Rose (E.faults notes.old) (E.faults notes.new)
        ⊎ Rose (W.faults shelf.old) (W.faults shelf.new) }
{
    if is_help(words) {
        return match give_text(out, batch_help().as_bytes()) {
            Ok(()) => 0,
            Err(_) => break_off(notes),
        };
    }
    match batch_call(alloc, words) {
        Ok(Some(call)) => do_batch(rt, alloc, &call, files, checks, shelf, input, out, notes),
        Ok(None) => note(notes, batch_help(), 2),
        Err(NoMemory) => note(notes, "out of memory\n", 7),
    }
}
