// What is wrong where the clauses of rules 1 to 10 are broken.
ghost use Rattle.std.specs.Prelude.{◌≡◌};
ghost use Rattle.ace_words.specs.AddressBreaks.{k1_broken, k2_broken, k3_broken, k4_broken, k5_broken, k6_broken, k7_broken, k8_broken, k9_broken, k10_broken};

use ace_clauses::Letter;

/// What is wrong where a clause of rule 1 is broken: the port has this record.
/// Empty where there is no such clause.
pub fn k1_broken(letter: Letter) -> &'static [u8]
    ensures { result.now ≡ k1_broken letter }
{
    match letter {
        Letter::A => b"there is no such port",
        Letter::B =>
            b"an ACE-Lite port has no cache: it is never snooped, acknowledges nothing and holds no lines",
        _ => b"",
    }
}

/// What is wrong where a clause of rule 2 is broken: the codes mean something.
/// Empty where there is no such clause.
pub fn k2_broken(letter: Letter) -> &'static [u8]
    ensures { result.now ≡ k2_broken letter }
{
    match letter {
        Letter::A => b"these codes are no transaction and no snoop",
        Letter::B => b"an ACE-Lite port issues no such transaction",
        Letter::C => b"the response is an error",
        Letter::D => b"the Error bit of CRRESP is set",
        _ => b"",
    }
}

/// What is wrong where a clause of rule 3 is broken: the address is that of a line.
/// Empty where there is no such clause.
pub fn k3_broken(letter: Letter) -> &'static [u8]
    ensures { result.now ≡ k3_broken letter }
{
    match letter {
        Letter::A => b"the address is that of no line: it is no multiple of 64",
        Letter::B => b"MEM is a record of version 2",
        Letter::C => b"a MEM after another event: memory opens before anything happens",
        Letter::D => b"the MEM records are not in order of address",
        Letter::E => b"more than 4,096 MEM records",
        _ => b"",
    }
}

/// What is wrong where a clause of rule 4 is broken: an identifier is free.
/// Empty where there is no such clause.
pub fn k4_broken(letter: Letter) -> &'static [u8]
    ensures { result.now ≡ k4_broken letter }
{
    match letter {
        Letter::A => b"the identifier is in use: a transaction with it is outstanding",
        _ => b"",
    }
}

/// What is wrong where a clause of rule 5 is broken: one transaction of a port on a line.
/// Empty where there is no such clause.
pub fn k5_broken(letter: Letter) -> &'static [u8]
    ensures { result.now ≡ k5_broken letter }
{
    match letter {
        Letter::A => b"the port has a transaction of this line outstanding",
        _ => b"",
    }
}

/// What is wrong where a clause of rule 6 is broken: it starts from a start state.
/// Empty where there is no such clause.
pub fn k6_broken(letter: Letter) -> &'static [u8]
    ensures { result.now ≡ k6_broken letter }
{
    match letter {
        Letter::A =>
            b"the transaction doesn't start from the state in which the port holds the line",
        _ => b"",
    }
}

/// What is wrong where a clause of rule 7 is broken: what may be exclusive.
/// Empty where there is no such clause.
pub fn k7_broken(letter: Letter) -> &'static [u8]
    ensures { result.now ≡ k7_broken letter }
{
    match letter {
        Letter::A => b"a transaction of this kind can't be exclusive",
        Letter::B => b"an ACE-Lite port issues no exclusive transaction",
        _ => b"",
    }
}

/// What is wrong where a clause of rule 8 is broken: a line is shareable or not.
/// Empty where there is no such clause.
pub fn k8_broken(letter: Letter) -> &'static [u8]
    ensures { result.now ≡ k8_broken letter }
{
    match letter {
        Letter::A => b"the line is used both past the caches and as a shareable one",
        _ => b"",
    }
}

/// What is wrong where a clause of rule 9 is broken: barriers and messages are well formed.
/// Empty where there is no such clause.
pub fn k9_broken(letter: Letter) -> &'static [u8]
    ensures { result.now ≡ k9_broken letter }
{
    match letter {
        Letter::A => b"a barrier has an address",
        Letter::B => b"an earlier barrier lacks its other half",
        Letter::C => b"an earlier barrier is not answered",
        Letter::D => b"the two halves of the barrier have another bar or domain",
        Letter::E => b"the word of the message is no operation",
        Letter::F => b"the last Sync of the port has not been completed",
        Letter::G => b"the second part of the message has another domain or bar than the first",
        Letter::H => b"a DVM Complete has an address",
        _ => b"",
    }
}

/// What is wrong where a clause of rule 10 is broken: updates and streaming writes keep apart.
/// Empty where there is no such clause.
pub fn k10_broken(letter: Letter) -> &'static [u8]
    ensures { result.now ≡ k10_broken letter }
{
    match letter {
        Letter::A => b"the port has a WriteUnique or WriteLineUnique outstanding",
        Letter::B => b"the port has a memory update or an Evict outstanding",
        _ => b"",
    }
}
