//! Facts about the definitions, as contracts of functions that do nothing.

ghost use Rattle.std.specs.Prelude.{◌≡◌, ℕ, List, Option};
ghost use Rattle.ace_grammar.specs.Lines.{BeginsWith};
ghost use Rattle.ace_convert.specs.declared.conversion.Conversion.{Conversion};
ghost use Rattle.ace_convert.specs.declared.conversion.Conversion.TheVariants.{Pack, Unpack};
ghost use Rattle.ace_convert.specs.declared.end.TraceEnd.{TraceEnd};
ghost use Rattle.ace_convert.specs.declared.end.TraceEnd.TheVariants.{Whole, ReadFault};
ghost use Rattle.ace_convert.specs.Converted.{CanBeRead, IsConverted, ConvertsFront};
ghost use Rattle.ace_convert.specs.Ends.{IsDueEnd};
ghost use Rattle.ace_convert.specs.Spelling.{form_read};

/// Of bytes one text is made in a conversion, and their reading ends in one way.
pub fn one_conversion()
    ensures some { (conversion : Conversion) (bytes : List ℕ) (left : Option (List ℕ))
        → CanBeRead (form_read conversion) bytes
        → (end : TraceEnd) × (text : List ℕ) × IsDueEnd end
        × IsConverted conversion bytes left end text }
    ensures one { (conversion : Conversion) (bytes : List ℕ) (left last : Option (List ℕ))
        (end other : TraceEnd) (text more : List ℕ) → IsDueEnd end → IsDueEnd other
        → IsConverted conversion bytes left end text
        → IsConverted conversion bytes last other more → (end ≡ other) × (text ≡ more) }
{}

/// What was given of it where the output or the input failed is a front of it.
pub fn a_front_was_given()
    ensures written { (conversion : Conversion) (bytes : List ℕ) (last : Option (List ℕ))
        (due : TraceEnd) (text whole : List ℕ) → CanBeRead (form_read conversion) bytes
        → IsDueEnd due → IsConverted conversion bytes last due whole
        → ConvertsFront conversion bytes text → BeginsWith whole text }
    ensures failed { (conversion : Conversion) (bytes : List ℕ) (left last : Option (List ℕ))
        (due : TraceEnd) (text whole : List ℕ) → CanBeRead (form_read conversion) bytes
        → IsDueEnd due → IsConverted conversion bytes last due whole
        → IsConverted conversion bytes left ReadFault text → BeginsWith whole text }
{}

/// A whole text that was packed is the text of what it was packed to.
pub fn there_and_back()
    ensures { (bytes packed text : List ℕ) (left last : Option (List ℕ)) (end : TraceEnd)
        → IsDueEnd end → IsConverted Pack bytes left Whole packed
        → IsConverted Unpack packed last end text → (end ≡ Whole) × (text ≡ bytes) }
{}
