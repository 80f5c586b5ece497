// What is wrong where the clauses of rules 11 to 17 are broken.
ghost use Rattle.std.specs.Prelude.{◌≡◌};
ghost use Rattle.ace_words.specs.SnoopBreaks.{k11_broken, k12_broken, k13_broken, k14_broken, k15_broken, k16_broken, k17_broken};

use ace_clauses::Letter;

/// What is wrong where a clause of rule 11 is broken: write data have a write.
/// Empty where there is no such clause.
pub fn k11_broken(letter: Letter) -> &'static [u8]
    ensures { result.now ≡ k11_broken letter }
{
    match letter {
        Letter::A => b"the port has no write that lacks data",
        Letter::B => b"WLAST is wrong: it is 1 exactly on the fourth word",
        Letter::C => b"the write writes all bytes, and this word leaves some out",
        Letter::D => b"the word isn't what the port has in its cache",
        _ => b"",
    }
}

/// What is wrong where a clause of rule 12 is broken: one grant for a line.
/// Empty where there is no such clause.
pub fn k12_broken(letter: Letter) -> &'static [u8]
    ensures { result.now ≡ k12_broken letter }
{
    match letter {
        Letter::A => b"the identifier names no outstanding transaction of the port",
        Letter::B => b"a transaction of this kind has no grant",
        Letter::C => b"the transaction has had its grant before",
        Letter::D => b"the line is still granted to another transaction",
        _ => b"",
    }
}

/// What is wrong where a clause of rule 13 is broken: a snoop has a reason.
/// Empty where there is no such clause.
pub fn k13_broken(letter: Letter) -> &'static [u8]
    ensures { result.now ≡ k13_broken letter }
{
    match letter {
        Letter::A => b"a snoop for no transaction: nothing is granted on the line",
        Letter::B => b"a port is snooped for its own transaction",
        Letter::C => b"the granted transaction is not snooped so",
        Letter::D => b"the exclusive store failed: it snoops nobody",
        Letter::E => b"a snoop after the first transfer, or after memory was written",
        Letter::F => b"the port was snooped for this transaction before",
        Letter::G =>
            b"the snoop overtakes the end of a write of the port: its B has come and its WK hasn't",
        _ => b"",
    }
}

/// What is wrong where a clause of rule 14 is broken: an answer has a snoop.
/// Empty where there is no such clause.
pub fn k14_broken(letter: Letter) -> &'static [u8]
    ensures { result.now ≡ k14_broken letter }
{
    match letter {
        Letter::A => b"the port has no snoop that waits for an answer",
        _ => b"",
    }
}

/// What is wrong where a clause of rule 15 is broken: an answer fits the state.
/// Empty where there is no such clause.
pub fn k15_broken(letter: Letter) -> &'static [u8]
    ensures { result.now ≡ k15_broken letter }
{
    match letter {
        Letter::A => b"the snoop may not leave the line in this state",
        Letter::B => b"the port doesn't hold the line, and answers as if it did",
        Letter::C => b"a DVM snoop is answered with 00 and I",
        Letter::D => b"the bits of CRRESP don't fit the states before and after",
        _ => b"",
    }
}

/// What is wrong where a clause of rule 16 is broken: an answer respects an update.
/// Empty where there is no such clause.
pub fn k16_broken(letter: Letter) -> &'static [u8]
    ensures { result.now ≡ k16_broken letter }
{
    match letter {
        Letter::A => b"the snoop has to wait for the memory update that the port has outstanding",
        Letter::B =>
            b"the port passes the dirty line on that its memory update is taking to memory",
        Letter::C => b"the port gives the line up while its memory update is outstanding",
        _ => b"",
    }
}

/// What is wrong where a clause of rule 17 is broken: snoop data are those of the answer.
/// Empty where there is no such clause.
pub fn k17_broken(letter: Letter) -> &'static [u8]
    ensures { result.now ≡ k17_broken letter }
{
    match letter {
        Letter::A => b"the port owes no snoop data",
        Letter::B => b"CDLAST is wrong: it is 1 exactly on the fourth word",
        Letter::C => b"the word isn't what the port had when it answered",
        _ => b"",
    }
}
