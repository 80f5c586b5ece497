// What there is to tell of a trace that is to be explained.
ghost use Rattle.std.specs.Prelude.{◌≡◌, ◌≤◌};
ghost use Rattle.ace_grammar.specs.Reading.{most_counted};
ghost use Rattle.ace_tool.specs.Asked.{is_input};
ghost use Rattle.ace_tool.specs.Explaining.{IsFound, MayBeTold, no_limits};
ghost use Rattle.ace_tool.specs.Held.{told_of};

use crate::check_words::is_input;
use crate::examined::{find_file, find_within};
use crate::folder::{Folder, OpenErr};
use crate::packing::Packing;
use ace_explanation::Explanation;
use ace_grammar::MOST_COUNTED;
use ace_io::Source;
use ace_verdict::Limits;
use std::alloc::Global;

/// What there is to tell of a trace.
#[derive(Clone, Copy)]
pub enum Finding {
    /// Its explanation.
    Explained { explanation: Explanation },
    /// Its file could not be opened.
    Shut { error: OpenErr },
    /// Its file is compressed.
    Compressed { packing: Packing },
}

/// As much as can be counted.
pub(crate) fn no_limits() -> Limits
    ensures { result ≡ no_limits }
{
    Limits {
        events: MOST_COUNTED,
        lines: usize::MAX,
    }
}

/// What there is to tell of the trace of this name, within the limits.
pub(crate) fn find_named<F: Folder, I: Source>(
    alloc: Global,
    files: &F,
    input: &mut I,
    name: &str,
    limits: Limits,
) -> Finding
    requires { limits.events ≤ most_counted }
    ensures found { IsFound limits (is_input name.now) (told_of (F.holds files.now name.now))
        (I.left input.old) result (I.left input.new) }
    ensures line { MayBeTold result }
{
    if is_input(name) {
        find_within(alloc, input, limits)
    } else {
        find_file(alloc, files, name, limits)
    }
}
