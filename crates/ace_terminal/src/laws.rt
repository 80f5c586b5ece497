//! Facts about the definitions, as contracts of functions that do nothing.

ghost use Rattle.std.specs.Prelude.{◌≡◌, ℕ, List};
ghost use Rattle.ace_terminal.specs.Painted.{painted};
ghost use Rattle.ace_terminal.specs.Unpainted.{HasNoEscape, unpainted};

/// Colours add nothing that is read, and take nothing away: of a text without ESC the painted text
/// without the sequences of colours is the text.
pub fn painted_is_read_as_the_text()
    ensures { (text : List ℕ) → HasNoEscape text → unpainted (painted text) ≡ text }
{}
