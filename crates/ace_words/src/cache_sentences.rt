// Where the clauses of rules 29 to 33 are kept.
ghost use Rattle.std.specs.Prelude.{◌≡◌};
ghost use Rattle.ace_words.specs.CacheSentences.{k29_kept, k30_kept, k31_kept, k32_kept, k33_kept};

use ace_clauses::Letter;

/// Where the clauses of rule 29 are kept: a silent transition is one. Empty where there is no such
/// clause.
pub fn k29_kept(letter: Letter) -> &'static [u8]
    ensures { result.now ≡ k29_kept letter }
{
    match letter {
        Letter::A => b"the move is UC -> SC, UC -> I, SC -> I or UD -> SD",
        Letter::B => b"no move to I while a memory update of the line is outstanding",
        _ => b"",
    }
}

/// Where the clauses of rule 30 are kept: a load hits. Empty where there is no such clause.
pub fn k30_kept(letter: Letter) -> &'static [u8]
    ensures { result.now ≡ k30_kept letter }
{
    match letter {
        Letter::A => b"the port holds the line",
        _ => b"",
    }
}

/// Where the clauses of rule 31 are kept: a load gives what is there. Empty where there is no such
/// clause.
pub fn k31_kept(letter: Letter) -> &'static [u8]
    ensures { result.now ≡ k31_kept letter }
{
    match letter {
        Letter::A => b"the word is that of the port's copy",
        _ => b"",
    }
}

/// Where the clauses of rule 32 are kept: a store has the line alone. Empty where there is no such
/// clause.
pub fn k32_kept(letter: Letter) -> &'static [u8]
    ensures { result.now ≡ k32_kept letter }
{
    match letter {
        Letter::A => b"the line is in UC or UD",
        Letter::B => b"no transaction of the port on the line is outstanding",
        Letter::C => b"a MakeUnique has one store",
        Letter::D => b"the store of a MakeUnique is not exclusive",
        Letter::E => b"the store of a MakeUnique writes the whole line",
        _ => b"",
    }
}

/// Where the clauses of rule 33 are kept: an exclusive store has a monitor. Empty where there is no
/// such clause.
pub fn k33_kept(letter: Letter) -> &'static [u8]
    ensures { result.now ≡ k33_kept letter }
{
    match letter {
        Letter::A => b"the port has made an exclusive load",
        Letter::B => b"its last exclusive load was of this line",
        Letter::C => b"it has made no exclusive store since",
        Letter::D => b"it has held the line ever since",
        _ => b"",
    }
}
