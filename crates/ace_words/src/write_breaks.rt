// What is wrong where the clauses of rules 24 to 28 are broken.
ghost use Rattle.std.specs.Prelude.{◌≡◌};
ghost use Rattle.ace_words.specs.WriteBreaks.{k24_broken, k25_broken, k26_broken, k27_broken, k28_broken};

use ace_clauses::Letter;

/// What is wrong where a clause of rule 24 is broken: memory is written for something.
pub fn k24_broken(letter: Letter) -> &'static [u8]
    ensures { result.now ≡ k24_broken letter }
{
    match letter {
        Letter::A => b"memory is written for no transaction that has data",
        Letter::B =>
            b"memory is written for a read that was passed no dirty line, or once more for one that was",
        Letter::C => b"the dirty line that was passed is not whole",
        Letter::D => b"memory is written after the first transfer of the read",
        Letter::E => b"the data of the write are not whole",
        Letter::F => b"memory is written for a write that is not granted",
        Letter::G => b"memory is written too early: the snoops of the write are not done",
        Letter::H => b"memory was written for this write before",
        Letter::I => b"the update overtakes a dirty line that was passed to a transaction",
    }
}

/// What is wrong where a clause of rule 25 is broken: memory gets the right line.
/// Empty where there is no such clause.
pub fn k25_broken(letter: Letter) -> &'static [u8]
    ensures { result.now ≡ k25_broken letter }
{
    match letter {
        Letter::A => b"memory gets another line than the one that was passed",
        Letter::B => b"memory gets another line than the burst of the write",
        Letter::C =>
            b"memory gets another line than the burst in the passed line, or else in what memory has",
        Letter::D => b"memory gets another line than the burst in what memory has",
        _ => b"",
    }
}

/// What is wrong where a clause of rule 26 is broken: a response has a write.
/// Empty where there is no such clause.
pub fn k26_broken(letter: Letter) -> &'static [u8]
    ensures { result.now ≡ k26_broken letter }
{
    match letter {
        Letter::A => b"the port has no write with this identifier that waits for its response",
        Letter::B => b"the response of a write is EXOKAY",
        Letter::C => b"the write is answered before memory was written for it",
        _ => b"",
    }
}

/// What is wrong where a clause of rule 27 is broken: a write acknowledge has a write.
/// Empty where there is no such clause.
pub fn k27_broken(letter: Letter) -> &'static [u8]
    ensures { result.now ≡ k27_broken letter }
{
    match letter {
        Letter::A => b"the port acknowledges, and no write of it is complete",
        _ => b"",
    }
}

/// What is wrong where a clause of rule 28 is broken: a write ends in an end state.
/// Empty where there is no such clause.
pub fn k28_broken(letter: Letter) -> &'static [u8]
    ensures { result.now ≡ k28_broken letter }
{
    match letter {
        Letter::A => b"the write doesn't end in this state",
        Letter::B => b"a barrier leaves a line behind",
        _ => b"",
    }
}
