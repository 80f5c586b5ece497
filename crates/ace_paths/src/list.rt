// A list of paths.
ghost use Rattle.std.specs.Prelude.{◌≡◌, ◌==◌, IfOk};
ghost use Rattle.std.specs.List.{slice_split};
ghost use Rattle.ace_paths.specs.Lists.{paths_of, texts_of};

use ace_io::NoMemory;
use std::alloc::{AllocError, Global};

/// The lines of the text, without their line feeds.
fn lines_of<'a>(alloc: Global, text: &'a str) -> Result<Vec<&'a str>, AllocError>
    ensures { IfOk result (λ lines. texts_of lines.items
        ≡ slice_split (λ byte. byte == 10) text.entry.now) }
{
    text.split('\n').collect(alloc)
}

/// The paths that a text lists, a path a line; empty lines are none.
///
/// # Errors
///
/// `NoMemory` where there is none for them.
#[tactic(auto, using(crate::proofs::Listing::listing))]
pub fn paths_of<'a>(alloc: Global, text: &'a str) -> Result<Vec<&'a str>, NoMemory>
    ensures { IfOk result (λ paths. texts_of paths.items ≡ paths_of text.entry.now) }
{
    let Ok(lines) = lines_of(alloc, text) else {
        return Err(NoMemory);
    };
    let mut paths = Vec::new(alloc);
    for line in lines.as_slice() {
        if !line.is_empty() && paths.push(*line).is_err() {
            return Err(NoMemory);
        }
    }
    Ok(paths)
}
