// Where the clauses of rules 34 to 40 are kept.
ghost use Rattle.std.specs.Prelude.{◌≡◌};
ghost use Rattle.ace_words.specs.OrderSentences.{k34_kept, k35_kept, k36_kept, k37_kept, k38_kept, k39_kept, k40_kept};

use ace_clauses::Letter;

/// Where the clauses of rule 34 are kept: a barrier is answered in time. Empty where there is no
/// such clause.
pub fn k34_kept(letter: Letter) -> &'static [u8]
    ensures { result.now ≡ k34_kept letter }
{
    match letter {
        Letter::A => b"both halves of the barrier were issued",
        Letter::B => b"a memory barrier: each earlier transaction of the port has its order point",
        Letter::C => b"a synchronisation barrier: each earlier transaction of the port is complete",
        _ => b"",
    }
}

/// Where the clauses of rule 35 are kept: a barrier holds back. Empty where there is no such
/// clause.
pub fn k35_kept(letter: Letter) -> &'static [u8]
    ensures { result.now ≡ k35_kept letter }
{
    match letter {
        Letter::A => b"each barrier of the port before the transaction is answered",
        _ => b"",
    }
}

/// Where the clauses of rule 36 are kept: messages arrive in order. Empty where there is no such
/// clause.
pub fn k36_kept(letter: Letter) -> &'static [u8]
    ensures { result.now ≡ k36_kept letter }
{
    match letter {
        Letter::A => b"the second part of a message follows the first",
        Letter::B => b"some message of another port waits for this port",
        Letter::C => b"the message that was issued first comes first",
        _ => b"",
    }
}

/// Where the clauses of rule 37 are kept: a message is answered by all. Empty where there is no
/// such clause.
pub fn k37_kept(letter: Letter) -> &'static [u8]
    ensures { result.now ≡ k37_kept letter }
{
    match letter {
        Letter::A => b"the message was forwarded to each other ACE port",
        Letter::B => b"each of them has answered it",
        _ => b"",
    }
}

/// Where the clauses of rule 38 are kept: a completion has a Sync. Empty where there is no such
/// clause.
pub fn k38_kept(letter: Letter) -> &'static [u8]
    ensures { result.now ≡ k38_kept letter }
{
    match letter {
        Letter::A => b"the port has answered more Syncs than it has completed",
        _ => b"",
    }
}

/// Where the clauses of rule 39 are kept: a Sync is completed by all. Empty where there is no such
/// clause.
pub fn k39_kept(letter: Letter) -> &'static [u8]
    ensures { result.now ≡ k39_kept letter }
{
    match letter {
        Letter::A => b"an AC DVM Complete has address 0",
        Letter::B => b"the port has sent a Sync",
        Letter::C => b"its Sync is answered",
        Letter::D => b"its Sync is not completed yet",
        Letter::E => b"each other ACE port has issued its DVM Complete for it",
        _ => b"",
    }
}

/// Where the clauses of rule 40 are kept: operations retire in order. Empty where there is no such
/// clause.
pub fn k40_kept(letter: Letter) -> &'static [u8]
    ensures { result.now ≡ k40_kept letter }
{
    match letter {
        Letter::A => b"the number is that of the earlier operations of the port",
        _ => b"",
    }
}
