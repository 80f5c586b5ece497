// Where the clauses of rules 11 to 17 are kept.
ghost use Rattle.std.specs.Prelude.{◌≡◌};
ghost use Rattle.ace_words.specs.SnoopSentences.{k11_kept, k12_kept, k13_kept, k14_kept, k15_kept, k16_kept, k17_kept};

use ace_clauses::Letter;

/// Where the clauses of rule 11 are kept: write data have a write. Empty where there is no such
/// clause.
pub fn k11_kept(letter: Letter) -> &'static [u8]
    ensures { result.now ≡ k11_kept letter }
{
    match letter {
        Letter::A => b"the port has a write whose data are not whole",
        Letter::B => b"WLAST is 1 exactly on the fourth word",
        Letter::C => b"a WriteLineUnique or memory update has all strobes",
        Letter::D => b"a memory update sends the port's copy",
        _ => b"",
    }
}

/// Where the clauses of rule 12 are kept: one grant for a line. Empty where there is no such
/// clause.
pub fn k12_kept(letter: Letter) -> &'static [u8]
    ensures { result.now ≡ k12_kept letter }
{
    match letter {
        Letter::A => b"the G names an outstanding transaction",
        Letter::B => b"its kind is one that is granted",
        Letter::C => b"it has had no G",
        Letter::D => b"no transaction on its line is granted",
        _ => b"",
    }
}

/// Where the clauses of rule 13 are kept: a snoop has a reason. Empty where there is no such
/// clause.
pub fn k13_kept(letter: Letter) -> &'static [u8]
    ensures { result.now ≡ k13_kept letter }
{
    match letter {
        Letter::A => b"the line has a granted transaction",
        Letter::B => b"it is of another port than the snooped",
        Letter::C => b"the snoop is the one that its kind causes",
        Letter::D => b"it is no exclusive store that failed",
        Letter::E => b"it has had no R, a write no M",
        Letter::F => b"the port was not snooped under this grant",
        Letter::G => b"the port has no write of the line between B and WK",
        _ => b"",
    }
}

/// Where the clauses of rule 14 are kept: an answer has a snoop. Empty where there is no such
/// clause.
pub fn k14_kept(letter: Letter) -> &'static [u8]
    ensures { result.now ≡ k14_kept letter }
{
    match letter {
        Letter::A => b"the port has a snoop that is not answered",
        _ => b"",
    }
}

/// Where the clauses of rule 15 are kept: an answer fits the state. Empty where there is no such
/// clause.
pub fn k15_kept(letter: Letter) -> &'static [u8]
    ensures { result.now ≡ k15_kept letter }
{
    match letter {
        Letter::A => b"the new state is one that this snoop may leave",
        Letter::B => b"a port without the line answers 00 and stays I",
        Letter::C => b"a DVM snoop is answered with 00 and I",
        Letter::D => b"the bits of CRRESP fit the states before and after",
        _ => b"",
    }
}

/// Where the clauses of rule 16 are kept: an answer respects an update. Empty where there is no
/// such clause.
pub fn k16_kept(letter: Letter) -> &'static [u8]
    ensures { result.now ≡ k16_kept letter }
{
    match letter {
        Letter::A =>
            b"a ReadUnique, CleanShared, CleanInvalid or MakeInvalid snoop waits for the update",
        Letter::B => b"PassDirty is 0 while the update is outstanding",
        Letter::C => b"the port keeps the line while the update is outstanding",
        _ => b"",
    }
}

/// Where the clauses of rule 17 are kept: snoop data are those of the answer. Empty where there is
/// no such clause.
pub fn k17_kept(letter: Letter) -> &'static [u8]
    ensures { result.now ≡ k17_kept letter }
{
    match letter {
        Letter::A => b"the port has an answer with DataTransfer whose data are not whole",
        Letter::B => b"CDLAST is 1 exactly on the fourth word",
        Letter::C => b"the word is that of the port's copy at its answer",
        _ => b"",
    }
}
