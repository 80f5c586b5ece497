// The side file of a trace: where it is, and what is found there.
ghost use Rattle.std.specs.Prelude.{◌≡◌, ◌≢◌, ◌++◌, ℕ, List, [], Option, true, false, codes, string_bytes, IfOk, IfSome};
ghost use Rattle.ace_side.specs.Grammar.{Fits, is_note};
ghost use Rattle.ace_side.specs.Reader.{HasRead, source_of, stage_of};
ghost use Rattle.ace_side.specs.declared.stage.Stage.TheVariants.{Reading};
ghost use Rattle.ace_tool.specs.Asked.{is_input};
ghost use Rattle.ace_tool.specs.Note.{note_behind, text_of};
ghost use Rattle.ace_tool.specs.Sides.{IsFound, IsFoundAt, IsFoundIn, fault_of, place_of};
ghost use Rattle.ace_tool.specs.Told.{side_of};
ghost use Rattle.ace_tool.specs.declared.side.SideFound.TheVariants.{Absent};

use crate::check_options::SideChoice;
use crate::check_words::is_input;
use crate::folder::{Folder, OpenErr};
use ace_io::{NoMemory, Source};
use ace_side::{Reason, ShortText, SideEnd, SideErr, SideLine, SideReader};
use arrayvec::ArrayString;
use std::alloc::Global;

/// Why a side file tells nothing.
#[derive(Clone, Copy)]
pub enum SideFault {
    /// This line is the first that is malformed, for this reason.
    Malformed { line: u64, reason: Reason },
    /// The input failed.
    ReadFault,
    /// There was no memory.
    NoMemory,
    /// It could not be opened.
    Shut { error: OpenErr },
}

/// What is found where the side file of a trace is.
#[derive(Clone, Copy)]
pub enum SideFound {
    /// No side file.
    Absent,
    /// One that ends so, if it does; this is its last note.
    Ends {
        end: Option<SideEnd>,
        note: Option<ArrayString<256>>,
    },
    /// One that tells nothing.
    Faulty {
        fault: SideFault,
    },
}

/// Why a side file tells nothing that can't be read on.
pub(crate) fn fault_of(error: SideErr) -> SideFault
    ensures { result ≡ fault_of error }
{
    match error {
        SideErr::Malformed { line, reason } => SideFault::Malformed { line, reason },
        SideErr::ReadFault => SideFault::ReadFault,
        SideErr::NoMemory => SideFault::NoMemory,
    }
}

/// The text of a note.
#[tactic(auto, using(crate::proofs::Notes::notes))]
fn note_text(text: &ShortText) -> ArrayString<256>
    ensures { is_note text.now ≡ true → result.bytes ≡ text.now }
{
    let Ok(text) = str::from_utf8(text.bytes()) else {
        return ArrayString::new();
    };
    match ArrayString::from(text) {
        Ok(kept) => kept,
        Err(_) => ArrayString::new(),
    }
}

/// The last note, with one more line.
fn note_behind(before: Option<ArrayString<256>>, line: SideLine) -> Option<ArrayString<256>>
    ensures { Fits line → text_of result ≡ note_behind (text_of before) line }
{
    match line {
        SideLine::Note { text, .. } => Some(note_text(&text)),
        _ => before,
    }
}

/// Reads the lines of a side file to its end. More than can be counted want more memory than
/// there is.
#[tactic(auto, using(crate::proofs::SideLines::lines))]
fn read_lines<S: Source>(reader: &mut SideReader<S>) -> SideFound
    requires { stage_of reader.old ≡ Reading }
    ensures found { (first : Option (List ℕ)) → HasRead S.left first [] reader.old
        → IfSome first (λ bytes. IsFoundIn bytes result) }
    ensures is_there { result ≢ Absent }
{
    let mut note = None;
    'lines: for _ in 0..u64::MAX {
        let end = reader.ending();
        match reader.next() {
            Ok(Some(line)) => note = note_behind(note, line),
            Ok(None) => return SideFound::Ends { end, note },
            Err(error) => {
                return SideFound::Faulty {
                    fault: fault_of(error),
                };
            }
        }
    }
    SideFound::Faulty {
        fault: SideFault::NoMemory,
    }
}

/// What is found in the side file that the source gives.
fn read_side<S: Source>(alloc: Global, source: &mut S) -> SideFound
    ensures found { IfSome (S.left source.old) (λ bytes. IsFoundIn bytes result) }
    ensures is_there { result ≢ Absent }
{
    match SideReader::start(alloc, source) {
        Ok(mut reader) => {
            let found = read_lines(&mut reader);
            drop(reader);
            found
        }
        Err(failed) => SideFound::Faulty {
            fault: fault_of(failed.error),
        },
    }
}

/// What is found in the file of this name.
#[tactic(auto, using(crate::proofs::SideLines::places))]
fn open_side<F: Folder>(alloc: Global, files: &F, name: &str, has_to_be: bool) -> SideFound
    ensures { IsFoundAt (F.holds files.now name.now) has_to_be result }
{
    match files.open(name) {
        Ok(mut file) => read_side(alloc, &mut file),
        Err(error) => {
            if !has_to_be && error.is_absence() {
                SideFound::Absent
            } else {
                SideFound::Faulty {
                    fault: SideFault::Shut { error },
                }
            }
        }
    }
}

/// The name of the side file that is beside the trace of this name.
pub(crate) fn name_beside(alloc: Global, name: &str) -> Result<String, NoMemory>
    ensures { IfOk result (λ file. string_bytes file ≡ name.now ++ codes ".side") }
{
    let Ok(mut file) = String::from_str(alloc, name) else {
        return Err(NoMemory);
    };
    if file.push_str(".side").is_err() {
        return Err(NoMemory);
    }
    Ok(file)
}

/// What is found beside the trace of this name.
fn find_beside<F: Folder>(alloc: Global, files: &F, name: &str) -> SideFound
    ensures { IsFoundAt (F.holds files.now (name.now ++ codes ".side")) false result }
{
    match name_beside(alloc, name) {
        Ok(file) => open_side(alloc, files, file.as_str(), false),
        Err(NoMemory) => SideFound::Faulty {
            fault: SideFault::NoMemory,
        },
    }
}

/// What is found where the side file of the trace of this name is.
pub(crate) fn find_side<F: Folder>(
    alloc: Global,
    files: &F,
    side: SideChoice<'_>,
    name: &str,
) -> SideFound
    ensures { IsFound (F.holds files.now) (place_of (side_of side.entry) name.now) result }
{
    match side {
        SideChoice::Named { name } => open_side(alloc, files, name, true),
        SideChoice::Beside if !is_input(name) => find_beside(alloc, files, name),
        SideChoice::Beside | SideChoice::Nowhere => SideFound::Absent,
    }
}
