// Counts of calls and of faults, which stop at the last number of 64 bits, and lists of calls.
ghost use Rattle.std.specs.Prelude.{◌≡◌, ◌==◌};
ghost use Rattle.std.specs.List.{list_any};
ghost use Rattle.ace_io.specs.Faults.{raised};

/// One more, or the last number again.
pub(crate) fn count_on(count: u64) -> u64
    ensures { result ≡ raised count }
{
    count.saturating_add(1)
}

/// Whether the list names the call of this number.
pub(crate) fn names_call(list: &[u32], call: u64) -> bool
    ensures { result ≡ list_any (λ listed. listed == call) list.now }
{
    list.iter().any(|listed| u64::from(*listed) == call)
}
