// Puts the results of the parts of a list together.
ghost use Rattle.std.specs.Prelude.{◌≡◌, ◌≢◌, ◌⊎◌, List, ℕ, map, string_bytes, IfOk};
ghost use Rattle.std.specs.Io.KnownBytes.{Appends};
ghost use Rattle.std.specs.List.{AllZip};
ghost use Rattle.ace_batch.specs.Summaries.{summary_text};
ghost use Rattle.ace_io.specs.Faults.{Rose};
ghost use Rattle.ace_parts.specs.Merging.{ArePartsOf, texts_of};
ghost use Rattle.ace_tool.specs.Held.{told_of};
ghost use Rattle.ace_tool.specs.ListTexts.{IsWhole};
ghost use Rattle.ace_tool.specs.Merging.{AreTexts, IsFault, Merges, TellsSummary, are_names};

use crate::batch_texts::batch_help;
use crate::check_words::has_hyphen;
use crate::conclude::note;
use crate::folder::Folder;
use crate::list_file::{ListErr, read_file};
use crate::merge_fault::{MergeFault, fault_line, status_of_fault};
use ace_batch::{Entry, push_summary, status_of_all};
use ace_call::{break_off, give_text};
use ace_io::{NoMemory, Sink};
use ace_parts::{MergeErr, merge as merge_parts};
use std::alloc::Global;

/// The words are names of files.
#[tactic(auto, using(crate::proofs::MergeSteps::naming))]
fn are_names(words: &[String]) -> bool
    ensures { result ≡ are_names (map string_bytes words.now) }
{
    for word in words {
        if has_hyphen(word.as_str()) {
            return false;
        }
    }
    !words.is_empty()
}

/// The texts of the files of these names.
fn read_files<F: Folder>(
    alloc: Global,
    files: &F,
    words: &[String],
) -> Result<Vec<String>, MergeFault>
    ensures { IfOk result (λ texts. AllZip (λ name text.
        IsWhole (told_of (F.holds files.now (string_bytes name))) (string_bytes text))
        words.now texts.items) }
{
    let mut texts = Vec::new(alloc);
    for place in 0..words.len() {
        match read_file(alloc, files, words[place].as_str()) {
            Ok(text) => {
                if texts.push(text).is_err() {
                    return Err(MergeFault::File {
                        place,
                        error: ListErr::NoMemory,
                    });
                }
            }
            Err(error) => return Err(MergeFault::File { place, error }),
        }
    }
    Ok(texts)
}

/// The texts as bytes.
#[tactic(auto, using(crate::proofs::MergeSteps::bytes_push))]
fn bytes_of<'a>(alloc: Global, texts: &'a [String]) -> Result<Vec<&'a [u8]>, NoMemory>
    ensures { IfOk result (λ bytes. texts_of bytes.items ≡ map string_bytes texts.entry.now) }
{
    let mut all = Vec::new(alloc);
    for text in texts {
        if all.push(text.as_bytes()).is_err() {
            return Err(NoMemory);
        }
    }
    Ok(all)
}

/// The results of the list of whose parts these texts are the results.
fn merge_texts(alloc: Global, texts: &[String]) -> Result<Vec<Entry>, MergeErr>
    ensures { IfOk result (λ entries. ArePartsOf (map string_bytes texts.now) entries.items) }
{
    match bytes_of(alloc, texts) {
        Ok(bytes) => merge_parts(alloc, bytes.as_slice()),
        Err(NoMemory) => Err(MergeErr::NoMemory),
    }
}

/// The results in the files of these names, put together.
fn merge_files<F: Folder>(
    alloc: Global,
    files: &F,
    words: &[String],
) -> Result<Vec<Entry>, MergeFault>
    ensures { IfOk result (λ entries. (texts : List (List ℕ))
        × AreTexts (F.holds files.now) (map string_bytes words.now) texts
        × ArePartsOf texts entries.items) }
{
    let texts = read_files(alloc, files, words)?;
    match merge_texts(alloc, texts.as_slice()) {
        Ok(entries) => Ok(entries),
        Err(error) => Err(MergeFault::Parts { error }),
    }
}

/// The summary of these results.
fn summary_of(alloc: Global, entries: &[Entry]) -> Result<Vec<u8>, NoMemory>
    ensures { IfOk result (λ text. text.items ≡ summary_text 0 entries.now) }
{
    let mut text = Vec::new(alloc);
    push_summary(alloc, &mut text, 0, entries)?;
    Ok(text)
}

/// Notes why results in files of these names can't be put together, and returns the status.
fn note_fault<E: Sink>(alloc: Global, notes: &mut E, words: &[String], fault: MergeFault) -> u8
    ensures noted { result ≢ 5 → IsFault result
        × ((told : List ℕ) × Appends (E.held notes.old) (E.held notes.new) told) }
    ensures fault { result ≡ 5 → Rose (E.faults notes.old) (E.faults notes.new) }
{
    match fault_line(alloc, words, fault) {
        Ok(line) => note(notes, line.as_str(), status_of_fault(fault)),
        Err(NoMemory) => note(notes, "out of memory\n", 7),
    }
}

/// Tells the summary of these results, and returns the status of all of them.
fn tell_summary<K: Sink, E: Sink>(
    alloc: Global,
    out: &mut K,
    notes: &mut E,
    entries: &[Entry],
) -> u8
    ensures told { result ≢ 5 → TellsSummary entries.now (K.held out.old) (K.held out.new)
        (E.held notes.old) (E.held notes.new) result }
    ensures fault { result ≡ 5 → Rose (K.faults out.old) (K.faults out.new)
        ⊎ Rose (E.faults notes.old) (E.faults notes.new) }
{
    match summary_of(alloc, entries) {
        Ok(text) => match give_text(out, text.as_slice()) {
            Ok(()) => status_of_all(entries),
            Err(_) => break_off(notes),
        },
        Err(NoMemory) => note(notes, "out of memory\n", 7),
    }
}

/// Does what the words behind `batch --merge` ask, which are names of files: puts the results of
/// the parts of a list in these files together, tells their summary, and returns their status.
#[tactic(auto, using(crate::proofs::MergeSteps::done))]
pub fn merge<F: Folder, K: Sink, E: Sink>(
    alloc: Global,
    words: &[String],
    files: &F,
    out: &mut K,
    notes: &mut E,
) -> u8
    // Where no output failed, they were put together, or it was noted why not.
    ensures answer { result ≢ 5 → Merges (F.holds files.now) (map string_bytes words.now)
        (K.held out.old) (K.held out.new) (E.held notes.old) (E.held notes.new) result }

    // A write fault is answered only where an output failed.
    ensures write_fault { result ≡ 5 → Rose (K.faults out.old) (K.faults out.new)
        ⊎ Rose (E.faults notes.old) (E.faults notes.new) }
{
    if !are_names(words) {
        return note(notes, batch_help(), 2);
    }
    match merge_files(alloc, files, words) {
        Ok(entries) => tell_summary(alloc, out, notes, entries.as_slice()),
        Err(fault) => note_fault(alloc, notes, words, fault),
    }
}
