//! Facts about the definitions, as contracts of functions that do nothing.

ghost use Rattle.std.specs.Prelude.{◌≡◌, ℕ, List, Option, Some};
ghost use Rattle.ace_grammar.specs.Lines.{BeginsWith};
ghost use Rattle.ace_top.specs.declared.answer.Answer.{Answer};
ghost use Rattle.ace_convert.specs.declared.conversion.Conversion.{Conversion};
ghost use Rattle.ace_convert.specs.declared.conversion.Conversion.TheVariants.{Pack, Unpack};
ghost use Rattle.ace_convert.specs.Converted.{ConvertsFront};
ghost use Rattle.ace_top.specs.declared.answer.Answer.TheVariants.{Shown};
ghost use Rattle.ace_top.specs.declared.words.Command.{Command};
ghost use Rattle.ace_top.specs.declared.words.Command.TheVariants.{Convert};
ghost use Rattle.ace_top.specs.Answer.{CanBeInput, FitsAnswer, IsAnswer, IsDue, IsSettled};
ghost use Rattle.ace_top.specs.Texts.{status_of};

/// To each input an answer of a command is due: where a whole script is run too, as each right plan
/// has a run. It is one, with one text for the standard output; of a command that runs a script so
/// where the input isn't a whole one, else answers of one status. So a status of `ace` but those
/// of faults and of want of memory comes exactly where the answer that is due has it.
pub fn one_answer_is_due()
    ensures some { (command : Command) (bytes : List ℕ) (left : Option (List ℕ))
        → CanBeInput command bytes
        → (answer : Answer) × (text : List ℕ) × IsDue answer × FitsAnswer command answer text
        × IsAnswer command (Some bytes) left answer text }
    ensures one { (command : Command) (bytes : List ℕ) (left last : Option (List ℕ))
        (answer other : Answer) (text more : List ℕ)
        → IsSettled command bytes → IsDue answer → IsDue other
        → FitsAnswer command answer text → FitsAnswer command other more
        → IsAnswer command (Some bytes) left answer text
        → IsAnswer command (Some bytes) last other more → (answer ≡ other) × (text ≡ more) }
    ensures status { (command : Command) (bytes : List ℕ) (left last : Option (List ℕ))
        (answer other : Answer) (text more : List ℕ)
        → IsDue answer → IsDue other
        → FitsAnswer command answer text → FitsAnswer command other more
        → IsAnswer command (Some bytes) left answer text
        → IsAnswer command (Some bytes) last other more → status_of answer ≡ status_of other }
{}

/// What an answer of a command that runs no script, or none that is whole, puts on the standard
/// output is a front of what is due, whichever answer it is: so also where the input failed, or
/// there was no memory. The same holds of the part of a trace that was written when the standard
/// output failed.
pub fn a_front_was_given()
    ensures answered { (command : Command) (bytes : List ℕ) (left last : Option (List ℕ))
        (answer due : Answer) (text whole : List ℕ)
        → IsSettled command bytes → IsDue due
        → FitsAnswer command answer text → FitsAnswer command due whole
        → IsAnswer command (Some bytes) left answer text
        → IsAnswer command (Some bytes) last due whole → BeginsWith whole text }
    ensures written { (conversion : Conversion) (bytes : List ℕ) (last : Option (List ℕ))
        (due : Answer) (text whole : List ℕ)
        → IsSettled (Convert conversion) bytes
        → IsDue due → IsAnswer (Convert conversion) (Some bytes) last due whole
        → ConvertsFront conversion bytes text → BeginsWith whole text }
{}

/// Where `pack` of some bytes ends with status 0, they are a whole text, and what is due to what it
/// wrote is by `unpack` that text.
pub fn a_packed_trace_is_unpacked()
    ensures { (bytes packed text : List ℕ) (left last : Option (List ℕ)) (first answer : Answer)
        → IsAnswer (Convert Pack) (Some bytes) left first packed → status_of first ≡ 0
        → IsDue answer → IsAnswer (Convert Unpack) (Some packed) last answer text
        → (answer ≡ Shown) × (text ≡ bytes) }
{}
