// Laws of the cutting of bytes into lines.
ghost use Rattle.std.specs.Prelude.{◌≡◌, ◌<◌, ◌∷◌, ◌++◌, Some, List, Option, ℕ, length};
ghost use Rattle.ace_io.specs.Line.{HasNoLf, CutsLine};
ghost use Rattle.ace_io.specs.declared.line_buf.LineEnd.{LineEnd};
ghost use Rattle.ace_io.specs.declared.line_buf.LineEnd.TheVariants.{Whole};

/// Bytes that are told are cut in one way: two first lines of the same bytes are one line, end
/// alike, and leave the same bytes.
pub fn one_cutting()
    ensures { (bytes line1 line2 : List ℕ) (end1 end2 : LineEnd) (rest1 rest2 : Option (List ℕ))
        → HasNoLf line1 → CutsLine (Some bytes) line1 end1 rest1
        → HasNoLf line2 → CutsLine (Some bytes) line2 end2 rest2
        → (line1 ≡ line2) × (end1 ≡ end2) × (rest1 ≡ rest2) }
{}

/// A line of fewer than 256 bytes before its line feed is cut whole, whatever comes after it.
pub fn whole_line_cut()
    ensures { (line rest cut : List ℕ) (end : LineEnd) (left : Option (List ℕ))
        → HasNoLf line → length line < 256
        → HasNoLf cut → CutsLine (Some (line ++ 10 ∷ rest)) cut end left
        → (cut ≡ line) × (end ≡ Whole) × (left ≡ Some rest) }
{}
