// Laws of the fields of records.
ghost use Rattle.std.specs.Prelude.{◌≡◌, ℕ, List, Some, map};
ghost use Rattle.std.specs.Option.{option_map};
ghost use Rattle.ace_grammar.specs.Reasons.{line_reason};
ghost use Rattle.ace_grammar.specs.Shapes.{shapes_of};
ghost use Rattle.ace_grammar.specs.declared.reason.Reason.{Reason as Why};
ghost use Rattle.ace_malformed.specs.Fields.{fields_of, shape_of};
ghost use Rattle.ace_malformed.specs.Wrong.{Found, IsOfField, words_of, wrong_in};

/// The fields that are told of a record are those of the grammar: the same words are records of a
/// version, and their fields have the shapes that the grammar gives them.
pub fn fields_have_their_shapes()
    ensures { (version : ℕ) (word : List ℕ)
        → option_map (map shape_of) (fields_of version word) ≡ shapes_of version word }
{}

/// Where the least reason of a line is one that a field can have, some field of it has that reason.
pub fn a_wrong_field_is_found()
    ensures { (version : ℕ) (line : List ℕ) (reason : Why) → IsOfField reason
        → line_reason version (words_of line) ≡ Some reason
        → (found : Found) × (wrong_in version reason line ≡ Some found) }
{}
