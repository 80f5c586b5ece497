// What is wrong where the clauses of rules 29 to 33 are broken.
ghost use Rattle.std.specs.Prelude.{◌≡◌};
ghost use Rattle.ace_words.specs.CacheBreaks.{k29_broken, k30_broken, k31_broken, k32_broken, k33_broken};

use ace_clauses::Letter;

/// What is wrong where a clause of rule 29 is broken: a silent transition is one.
/// Empty where there is no such clause.
pub fn k29_broken(letter: Letter) -> &'static [u8]
    ensures { result.now ≡ k29_broken letter }
{
    match letter {
        Letter::A => b"this is no silent transition",
        Letter::B => b"the port drops the line while its memory update of it is outstanding",
        _ => b"",
    }
}

/// What is wrong where a clause of rule 30 is broken: a load hits.
/// Empty where there is no such clause.
pub fn k30_broken(letter: Letter) -> &'static [u8]
    ensures { result.now ≡ k30_broken letter }
{
    match letter {
        Letter::A => b"the port loads from a line that it doesn't hold",
        _ => b"",
    }
}

/// What is wrong where a clause of rule 31 is broken: a load gives what is there.
/// Empty where there is no such clause.
pub fn k31_broken(letter: Letter) -> &'static [u8]
    ensures { result.now ≡ k31_broken letter }
{
    match letter {
        Letter::A => b"the load gives another word than the port has in its cache",
        _ => b"",
    }
}

/// What is wrong where a clause of rule 32 is broken: a store has the line alone.
/// Empty where there is no such clause.
pub fn k32_broken(letter: Letter) -> &'static [u8]
    ensures { result.now ≡ k32_broken letter }
{
    match letter {
        Letter::A => b"the port stores to a line that it doesn't hold alone",
        Letter::B => b"the port stores while a transaction of it on the line is outstanding",
        Letter::C => b"a second store before the RK of the MakeUnique",
        Letter::D => b"the store of a MakeUnique is exclusive",
        Letter::E => b"the store of a MakeUnique writes a part of the line",
        _ => b"",
    }
}

/// What is wrong where a clause of rule 33 is broken: an exclusive store has a monitor.
/// Empty where there is no such clause.
pub fn k33_broken(letter: Letter) -> &'static [u8]
    ensures { result.now ≡ k33_broken letter }
{
    match letter {
        Letter::A => b"the port has made no exclusive load",
        Letter::B => b"the last exclusive load of the port was of another line",
        Letter::C => b"one exclusive load serves two exclusive stores",
        Letter::D => b"the port lost the line between its exclusive load and this store",
        _ => b"",
    }
}
