// Counts that are added.
ghost use Rattle.std.specs.Prelude.{◌≡◌, ◌≢◌, ℕ, List, IfOk, OnOk};
ghost use Rattle.std.specs.Io.KnownBytes.{Appends};
ghost use Rattle.ace_cover.specs.Json.{cover_json};
ghost use Rattle.ace_io.specs.Faults.{HasCause, Rose};
ghost use Rattle.ace_points.specs.Points.{all_points};
ghost use Rattle.ace_cover.specs.Tallies.{no_tally};
ghost use Rattle.ace_paths.specs.Lists.{texts_of};
ghost use Rattle.ace_tool.specs.Covering.{AddsCounts, IsFault, IsTally, fault_line, status_of_fault};
ghost use Rattle.ace_tool.specs.Held.{told_of};
ghost use Rattle.ace_tool.specs.ListTexts.{IsWhole};

use crate::explain::give_five;
use crate::folder::{Folder, OpenErr};
use crate::list_file::{ListErr, take_all};
use crate::report::open_text;
use ace_call::break_off;
use ace_cover::Totals;
use ace_io::{Failed, Sink};
use ace_parts::{CountsErr, read_counts};
use itoa::Buffer;
use std::alloc::Global;

/// Why the counts in a file can't be had.
#[derive(Clone, Copy)]
pub enum CountsFault {
    /// It could not be opened.
    Shut { error: OpenErr },
    /// Reading it failed.
    ReadFault,
    /// This line, counted from 1, isn't as `cover` writes it.
    Wrong { line: u64 },
    /// There was no memory.
    NoMemory,
}

/// The bytes of the file of this name.
fn bytes_of<F: Folder>(alloc: Global, files: &F, name: &str) -> Result<Vec<u8>, CountsFault>
    ensures { IfOk result (λ bytes. IsWhole (told_of (F.holds files.now name.now)) bytes.items) }
{
    match files.open(name) {
        Ok(mut file) => match take_all(alloc, &mut file) {
            Ok(bytes) => Ok(bytes),
            Err(ListErr::NoMemory) => Err(CountsFault::NoMemory),
            Err(_) => Err(CountsFault::ReadFault),
        },
        Err(error) => Err(CountsFault::Shut { error }),
    }
}

/// The counts that the bytes tell.
fn read(alloc: Global, bytes: &[u8]) -> Result<Totals, CountsFault>
    ensures { IfOk result (λ totals. bytes.now ≡ cover_json totals) }
{
    match read_counts(alloc, bytes) {
        Ok(totals) => Ok(totals),
        Err(CountsErr::Wrong { line }) => Err(CountsFault::Wrong { line }),
        Err(CountsErr::NoMemory) => Err(CountsFault::NoMemory),
    }
}

/// The counts that the file of this name tells.
#[tactic(auto, using(crate::proofs::CountsReading::reading))]
fn counts_in<F: Folder>(alloc: Global, files: &F, name: &str) -> Result<Totals, CountsFault>
    ensures { IfOk result (IsTally (F.holds files.now) name.now) }
{
    let bytes = bytes_of(alloc, files, name)?;
    read(alloc, bytes.as_slice())
}

/// A file whose counts can't be had, and why.
#[derive(Clone, Copy)]
pub(crate) struct Uncounted<'a> {
    name: &'a str,
    fault: CountsFault,
}

/// Adds the counts that the files of these names tell to those of no trace.
///
/// # Errors
///
/// The first file whose counts can't be had.
#[tactic(auto, using(crate::proofs::CountsAdding::adding))]
pub(crate) fn add_counts<'a, F: Folder>(
    alloc: Global,
    files: &F,
    names: &[&'a str],
    totals: &mut Totals,
) -> Result<(), Uncounted<'a>>
    requires { totals.old ≡ no_tally all_points }
    ensures { OnOk result (AddsCounts (F.holds files.now) (texts_of names.now) totals.new) }
{
    for name in names {
        match counts_in(alloc, files, name) {
            Ok(counts) => totals.add_all(&counts),
            Err(fault) => return Err(Uncounted { name, fault }),
        }
    }
    Ok(())
}

/// The status where counts can't be had.
fn status_of_fault(fault: CountsFault) -> u8
    ensures value { result ≡ status_of_fault fault }
    ensures fault { IsFault result }
    ensures no_write_fault { result ≢ 5 }
{
    match fault {
        CountsFault::Shut { .. } | CountsFault::ReadFault => 4,
        CountsFault::Wrong { .. } => 3,
        CountsFault::NoMemory => 7,
    }
}

/// Tells why the counts in the file of this name can't be had.
fn tell_fault<E: Sink>(notes: &mut E, name: &str, fault: CountsFault) -> Result<(), Failed>
    ensures whole { OnOk result (Appends (E.held notes.old) (E.held notes.new)
        (fault_line name.now fault)) }
    ensures cause { HasCause (E.faults notes.old) (E.faults notes.new) result }
{
    let mut digits = Buffer::new();
    match fault {
        CountsFault::Shut { error } => give_five(notes, name, ": ", open_text(error), "", "\n"),
        CountsFault::ReadFault => give_five(notes, name, ": ", "read fault", "", "\n"),
        CountsFault::Wrong { line } => {
            let wrong = ": not as `acetool cover` writes it";
            give_five(notes, name, ":", digits.format(line), wrong, "\n")
        }
        CountsFault::NoMemory => give_five(notes, name, ": ", "out of memory", "", "\n"),
    }
}

/// Notes why counts can't be had, and returns the status.
pub(crate) fn note_uncounted<E: Sink>(notes: &mut E, uncounted: Uncounted<'_>) -> u8
    ensures noted { result ≢ 5 → IsFault result
        × ((told : List ℕ) × Appends (E.held notes.old) (E.held notes.new) told) }
    ensures fault { result ≡ 5 → Rose (E.faults notes.old) (E.faults notes.new) }
{
    match tell_fault(notes, uncounted.name, uncounted.fault) {
        Ok(()) => status_of_fault(uncounted.fault),
        Err(_) => break_off(notes),
    }
}
