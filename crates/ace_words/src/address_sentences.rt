// Where the clauses of rules 1 to 10 are kept.
ghost use Rattle.std.specs.Prelude.{◌≡◌};
ghost use Rattle.ace_words.specs.AddressSentences.{k1_kept, k2_kept, k3_kept, k4_kept, k5_kept, k6_kept, k7_kept, k8_kept, k9_kept, k10_kept};

use ace_clauses::Letter;

/// Where the clauses of rule 1 are kept: the port has this record. Empty where there is no such
/// clause.
pub fn k1_kept(letter: Letter) -> &'static [u8]
    ensures { result.now ≡ k1_kept letter }
{
    match letter {
        Letter::A => b"the port is one of the header",
        Letter::B => b"RK, WK, AC, CR, CD, S, L and D are of an ACE port",
        _ => b"",
    }
}

/// Where the clauses of rule 2 are kept: the codes mean something. Empty where there is no such
/// clause.
pub fn k2_kept(letter: Letter) -> &'static [u8]
    ensures { result.now ≡ k2_kept letter }
{
    match letter {
        Letter::A => b"snoop, domain and bar together have a kind",
        Letter::B => b"the port may issue that kind",
        Letter::C => b"the low two bits of a response are 0 or 1",
        Letter::D => b"the Error bit of a CR is 0",
        _ => b"",
    }
}

/// Where the clauses of rule 3 are kept: the address is that of a line. Empty where there is no
/// such clause.
pub fn k3_kept(letter: Letter) -> &'static [u8]
    ensures { result.now ≡ k3_kept letter }
{
    match letter {
        Letter::A => b"the address of a line is a multiple of 64",
        Letter::B => b"MEM stands in a trace of version 2",
        Letter::C => b"MEM stands after no other event",
        Letter::D => b"MEM records have ascending addresses",
        Letter::E => b"there are at most 4,096 MEM records",
        _ => b"",
    }
}

/// Where the clauses of rule 4 are kept: an identifier is free. Empty where there is no such
/// clause.
pub fn k4_kept(letter: Letter) -> &'static [u8]
    ensures { result.now ≡ k4_kept letter }
{
    match letter {
        Letter::A => b"no transaction of this port, channel and identifier is outstanding",
        _ => b"",
    }
}

/// Where the clauses of rule 5 are kept: one transaction of a port on a line. Empty where there is
/// no such clause.
pub fn k5_kept(letter: Letter) -> &'static [u8]
    ensures { result.now ≡ k5_kept letter }
{
    match letter {
        Letter::A => b"no transaction of this port on this line is outstanding",
        _ => b"",
    }
}

/// Where the clauses of rule 6 are kept: it starts from a start state. Empty where there is no such
/// clause.
pub fn k6_kept(letter: Letter) -> &'static [u8]
    ensures { result.now ≡ k6_kept letter }
{
    match letter {
        Letter::A => b"the port's state of the line is a start state of the kind",
        _ => b"",
    }
}

/// Where the clauses of rule 7 are kept: what may be exclusive. Empty where there is no such
/// clause.
pub fn k7_kept(letter: Letter) -> &'static [u8]
    ensures { result.now ≡ k7_kept letter }
{
    match letter {
        Letter::A => b"only ReadShared, ReadClean and CleanUnique are exclusive",
        Letter::B => b"only an ACE port issues an exclusive transaction",
        _ => b"",
    }
}

/// Where the clauses of rule 8 are kept: a line is shareable or not. Empty where there is no such
/// clause.
pub fn k8_kept(letter: Letter) -> &'static [u8]
    ensures { result.now ≡ k8_kept letter }
{
    match letter {
        Letter::A => b"all transactions of a line are NoSnoop, or none is",
        _ => b"",
    }
}

/// Where the clauses of rule 9 are kept: barriers and messages are well formed. Empty where there
/// is no such clause.
pub fn k9_kept(letter: Letter) -> &'static [u8]
    ensures { result.now ≡ k9_kept letter }
{
    match letter {
        Letter::A => b"a barrier has address 0",
        Letter::B => b"each earlier barrier pair was issued whole",
        Letter::C => b"each earlier barrier pair is answered",
        Letter::D => b"the halves of a pair have one bar and domain",
        Letter::E => b"the word of a first part is an operation",
        Letter::F => b"a Sync comes after the completion of the port's last Sync",
        Letter::G => b"a second part has the domain and bar of its first",
        Letter::H => b"a DVM Complete has address 0",
        _ => b"",
    }
}

/// Where the clauses of rule 10 are kept: updates and streaming writes keep apart. Empty where
/// there is no such clause.
pub fn k10_kept(letter: Letter) -> &'static [u8]
    ensures { result.now ≡ k10_kept letter }
{
    match letter {
        Letter::A =>
            b"a memory update or Evict is issued with no WriteUnique or WriteLineUnique of the port outstanding",
        Letter::B =>
            b"a WriteUnique or WriteLineUnique is issued with no memory update or Evict of the port outstanding",
        _ => b"",
    }
}
