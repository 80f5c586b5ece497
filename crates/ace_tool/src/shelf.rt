// Files that are written by their names.
ghost use Rattle.std.specs.Prelude.{List, Option, ℕ, OnErr, OnOk};
ghost use Rattle.ace_io.specs.Faults.{HasCause};
ghost use Rattle.ace_tool.specs.Shelf.{Writes, WritesNone};

use ace_io::Failed;

/// Where files are written by their names.
pub trait Shelf {
    /// The files that were written whole, the newest first, each by its name and its bytes; where
    /// they are told.
    ghost written: { Self → Option (List (List ℕ × List ℕ)) };

    /// How often it has failed. The count never falls, and may stop at 18446744073709551615.
    ghost faults: { Self → ℕ };

    /// Writes the file of this name, which then holds this text alone.
    ///
    /// # Errors
    ///
    /// `Failed` only where the count of faults rose in this call, or stood at its last value
    /// before: the file could not be written whole.
    fn put(&mut self, name: &str, text: &[u8]) -> Result<(), Failed>
        ensures whole { OnOk result (Writes (written self.old)
            (written self.new) name.now text.now) }
        ensures none { OnErr result (WritesNone (written self.old) (written self.new)) }
        ensures cause { HasCause (faults self.old) (faults self.new) result };
}
