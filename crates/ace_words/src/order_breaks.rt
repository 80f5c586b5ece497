// What is wrong where the clauses of rules 34 to 40 are broken.
ghost use Rattle.std.specs.Prelude.{◌≡◌};
ghost use Rattle.ace_words.specs.OrderBreaks.{k34_broken, k35_broken, k36_broken, k37_broken, k38_broken, k39_broken, k40_broken};

use ace_clauses::Letter;

/// What is wrong where a clause of rule 34 is broken: a barrier is answered in time.
/// Empty where there is no such clause.
pub fn k34_broken(letter: Letter) -> &'static [u8]
    ensures { result.now ≡ k34_broken letter }
{
    match letter {
        Letter::A => b"the barrier is answered before both halves of it were issued",
        Letter::B =>
            b"the memory barrier is answered before an earlier transaction of the port has its order point",
        Letter::C =>
            b"the synchronisation barrier is answered before an earlier transaction of the port is complete",
        _ => b"",
    }
}

/// What is wrong where a clause of rule 35 is broken: a barrier holds back.
/// Empty where there is no such clause.
pub fn k35_broken(letter: Letter) -> &'static [u8]
    ensures { result.now ≡ k35_broken letter }
{
    match letter {
        Letter::A => b"the transaction passes an earlier barrier of the port that is not answered",
        _ => b"",
    }
}

/// What is wrong where a clause of rule 36 is broken: messages arrive in order.
/// Empty where there is no such clause.
pub fn k36_broken(letter: Letter) -> &'static [u8]
    ensures { result.now ≡ k36_broken letter }
{
    match letter {
        Letter::A => b"something comes between the two parts of a message",
        Letter::B => b"the port is given a message that no other port has sent",
        Letter::C => b"the message overtakes one that was issued before it",
        _ => b"",
    }
}

/// What is wrong where a clause of rule 37 is broken: a message is answered by all.
/// Empty where there is no such clause.
pub fn k37_broken(letter: Letter) -> &'static [u8]
    ensures { result.now ≡ k37_broken letter }
{
    match letter {
        Letter::A => b"the message is answered though a port was not given it",
        Letter::B => b"the message is answered though a port has not answered it",
        _ => b"",
    }
}

/// What is wrong where a clause of rule 38 is broken: a completion has a Sync.
/// Empty where there is no such clause.
pub fn k38_broken(letter: Letter) -> &'static [u8]
    ensures { result.now ≡ k38_broken letter }
{
    match letter {
        Letter::A => b"the port completes a Sync that it was not given",
        _ => b"",
    }
}

/// What is wrong where a clause of rule 39 is broken: a Sync is completed by all.
/// Empty where there is no such clause.
pub fn k39_broken(letter: Letter) -> &'static [u8]
    ensures { result.now ≡ k39_broken letter }
{
    match letter {
        Letter::A => b"an AC DVM Complete has an address",
        Letter::B => b"the port has sent no Sync",
        Letter::C => b"the Sync of the port has not been answered",
        Letter::D => b"the Sync of the port was completed before",
        Letter::E => b"another port has not said that it has done the Sync",
        _ => b"",
    }
}

/// What is wrong where a clause of rule 40 is broken: operations retire in order.
/// Empty where there is no such clause.
pub fn k40_broken(letter: Letter) -> &'static [u8]
    ensures { result.now ≡ k40_broken letter }
{
    match letter {
        Letter::A => b"another operation of the port is due",
        _ => b"",
    }
}
