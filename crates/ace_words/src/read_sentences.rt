// Where the clauses of rules 18 to 23 are kept.
ghost use Rattle.std.specs.Prelude.{◌≡◌};
ghost use Rattle.ace_words.specs.ReadSentences.{k18_kept, k19_kept, k20_kept, k21_kept, k22_kept, k23_kept};

use ace_clauses::Letter;

/// Where the clauses of rule 18 are kept: a transfer is due. Empty where there is no such clause.
pub fn k18_kept(letter: Letter) -> &'static [u8]
    ensures { result.now ≡ k18_kept letter }
{
    match letter {
        Letter::A => b"the R names an outstanding read",
        Letter::B => b"the read has transfers left",
        Letter::C => b"RLAST is 1 exactly on the last transfer",
        Letter::D => b"a line read is granted",
        Letter::E => b"at the first transfer each snoop is answered",
        Letter::F => b"the announced snoop data are whole",
        Letter::G => b"at the first transfer each other holder was snooped",
        Letter::H =>
            b"passed data are taken by a ReadShared, ReadNotSharedDirty or ReadUnique, or were written to memory",
        Letter::I => b"PassDirty is 1 where data were passed",
    }
}

/// Where the clauses of rule 19 are kept: PassDirty and IsShared are right. Empty where there is no
/// such clause.
pub fn k19_kept(letter: Letter) -> &'static [u8]
    ensures { result.now ≡ k19_kept letter }
{
    match letter {
        Letter::A => b"PassDirty is 0 where no data were passed",
        Letter::B => b"IsShared is 0 for kinds that keep no shared line",
        Letter::C => b"a ReadNotSharedDirty has not both bits",
        Letter::D => b"an ACE-Lite port has neither bit",
        Letter::E => b"IsShared is 1 where an answer has it",
        Letter::F => b"each transfer has the bits of the first",
        _ => b"",
    }
}

/// Where the clauses of rule 20 are kept: the data are those of the reply. Empty where there is no
/// such clause.
pub fn k20_kept(letter: Letter) -> &'static [u8]
    ensures { result.now ≡ k20_kept letter }
{
    match letter {
        Letter::A => b"a dataless transfer has the word 0",
        Letter::B =>
            b"a transfer has the word of the reply: the first snoop answer with data, else memory before the first transfer",
        _ => b"",
    }
}

/// Where the clauses of rule 21 are kept: EXOKAY where it is true. Empty where there is no such
/// clause.
pub fn k21_kept(letter: Letter) -> &'static [u8]
    ensures { result.now ≡ k21_kept letter }
{
    match letter {
        Letter::A => b"EXOKAY for an exclusive load and an exclusive store that passed",
        Letter::B => b"OKAY for an exclusive store that failed",
        Letter::C => b"OKAY where the transaction is not exclusive",
        _ => b"",
    }
}

/// Where the clauses of rule 22 are kept: a read acknowledge has a read. Empty where there is no
/// such clause.
pub fn k22_kept(letter: Letter) -> &'static [u8]
    ensures { result.now ≡ k22_kept letter }
{
    match letter {
        Letter::A => b"the port has a complete read without RK",
        _ => b"",
    }
}

/// Where the clauses of rule 23 are kept: a read ends in an end state. Empty where there is no such
/// clause.
pub fn k23_kept(letter: Letter) -> &'static [u8]
    ensures { result.now ≡ k23_kept letter }
{
    match letter {
        Letter::A => b"the state is an end state of the read",
        Letter::B => b"a MakeUnique has had its store",
        Letter::C => b"a barrier or DVM transaction ends in I",
        _ => b"",
    }
}
