// Where the clauses of rules 24 to 28 are kept.
ghost use Rattle.std.specs.Prelude.{◌≡◌};
ghost use Rattle.ace_words.specs.WriteSentences.{k24_kept, k25_kept, k26_kept, k27_kept, k28_kept};

use ace_clauses::Letter;

/// Where the clauses of rule 24 are kept: memory is written for something. Empty where there is no
/// such clause.
pub fn k24_kept(letter: Letter) -> &'static [u8]
    ensures { result.now ≡ k24_kept letter }
{
    match letter {
        Letter::A => b"the M names an outstanding transaction with data",
        Letter::B =>
            b"a read for which memory is written was passed a dirty line, which memory has not got yet",
        Letter::C => b"the passed line is whole",
        Letter::D => b"the read has had no transfer",
        Letter::E => b"the data of the write are whole",
        Letter::F => b"the write is granted",
        Letter::G => b"the snoops of the write are done",
        Letter::H => b"the write has had no M",
        Letter::I => b"an update waits while the granted transaction of its line has passed data",
    }
}

/// Where the clauses of rule 25 are kept: memory gets the right line. Empty where there is no such
/// clause.
pub fn k25_kept(letter: Letter) -> &'static [u8]
    ensures { result.now ≡ k25_kept letter }
{
    match letter {
        Letter::A => b"for a read memory gets the passed line",
        Letter::B => b"for an update or WriteLineUnique memory gets its burst",
        Letter::C =>
            b"for a WriteUnique memory gets its burst in the passed line, or else in what memory has",
        Letter::D => b"for a WriteNoSnoop memory gets its burst in what memory has",
        _ => b"",
    }
}

/// Where the clauses of rule 26 are kept: a response has a write. Empty where there is no such
/// clause.
pub fn k26_kept(letter: Letter) -> &'static [u8]
    ensures { result.now ≡ k26_kept letter }
{
    match letter {
        Letter::A => b"the B names an outstanding write without B",
        Letter::B => b"its response is OKAY",
        Letter::C => b"memory was written for it",
        _ => b"",
    }
}

/// Where the clauses of rule 27 are kept: a write acknowledge has a write. Empty where there is no
/// such clause.
pub fn k27_kept(letter: Letter) -> &'static [u8]
    ensures { result.now ≡ k27_kept letter }
{
    match letter {
        Letter::A => b"the port has a complete write without WK",
        _ => b"",
    }
}

/// Where the clauses of rule 28 are kept: a write ends in an end state. Empty where there is no
/// such clause.
pub fn k28_kept(letter: Letter) -> &'static [u8]
    ensures { result.now ≡ k28_kept letter }
{
    match letter {
        Letter::A => b"the state is an end state of the write",
        Letter::B => b"a barrier ends in I",
        _ => b"",
    }
}
