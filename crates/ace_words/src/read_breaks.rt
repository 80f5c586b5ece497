// What is wrong where the clauses of rules 18 to 23 are broken.
ghost use Rattle.std.specs.Prelude.{◌≡◌};
ghost use Rattle.ace_words.specs.ReadBreaks.{k18_broken, k19_broken, k20_broken, k21_broken, k22_broken, k23_broken};

use ace_clauses::Letter;

/// What is wrong where a clause of rule 18 is broken: a transfer is due.
pub fn k18_broken(letter: Letter) -> &'static [u8]
    ensures { result.now ≡ k18_broken letter }
{
    match letter {
        Letter::A => b"the port has no read with this identifier outstanding",
        Letter::B => b"the read has had all its transfers",
        Letter::C => b"RLAST is wrong: it is 1 exactly on the last transfer",
        Letter::D => b"the read has not been granted",
        Letter::E => b"the first transfer comes too early: a snooped port has not answered",
        Letter::F => b"the first transfer comes too early: announced snoop data are not whole",
        Letter::G =>
            b"the first transfer comes too early: a port holds the line and was not snooped",
        Letter::H => b"the read takes no dirty line: memory has to be written first",
        Letter::I => b"PassDirty is 0, and a dirty line was passed",
    }
}

/// What is wrong where a clause of rule 19 is broken: PassDirty and IsShared are right.
/// Empty where there is no such clause.
pub fn k19_broken(letter: Letter) -> &'static [u8]
    ensures { result.now ≡ k19_broken letter }
{
    match letter {
        Letter::A => b"PassDirty is 1, and no dirty line was passed",
        Letter::B => b"IsShared is 1, and the transaction keeps no shared line",
        Letter::C => b"a ReadNotSharedDirty is given the line shared and dirty",
        Letter::D => b"an ACE-Lite port is given PassDirty or IsShared",
        Letter::E => b"IsShared is 0, and a snooped port keeps the line",
        Letter::F => b"the transfer has other bits than the first",
        _ => b"",
    }
}

/// What is wrong where a clause of rule 20 is broken: the data are those of the reply.
/// Empty where there is no such clause.
pub fn k20_broken(letter: Letter) -> &'static [u8]
    ensures { result.now ≡ k20_broken letter }
{
    match letter {
        Letter::A => b"the transaction brings no data, and this transfer has some",
        Letter::B => b"the transfer has another word than the reply",
        _ => b"",
    }
}

/// What is wrong where a clause of rule 21 is broken: EXOKAY where it is true.
/// Empty where there is no such clause.
pub fn k21_broken(letter: Letter) -> &'static [u8]
    ensures { result.now ≡ k21_broken letter }
{
    match letter {
        Letter::A =>
            b"OKAY in the answer to an exclusive load, or to an exclusive store that passed",
        Letter::B => b"EXOKAY, and the exclusive store failed",
        Letter::C => b"EXOKAY in the answer to a transaction that isn't exclusive",
        _ => b"",
    }
}

/// What is wrong where a clause of rule 22 is broken: a read acknowledge has a read.
/// Empty where there is no such clause.
pub fn k22_broken(letter: Letter) -> &'static [u8]
    ensures { result.now ≡ k22_broken letter }
{
    match letter {
        Letter::A => b"the port acknowledges, and no read of it is complete",
        _ => b"",
    }
}

/// What is wrong where a clause of rule 23 is broken: a read ends in an end state.
/// Empty where there is no such clause.
pub fn k23_broken(letter: Letter) -> &'static [u8]
    ensures { result.now ≡ k23_broken letter }
{
    match letter {
        Letter::A => b"the read doesn't end in this state",
        Letter::B => b"the MakeUnique ends without the store that it was made for",
        Letter::C => b"a barrier or DVM transaction leaves a line behind",
        _ => b"",
    }
}
