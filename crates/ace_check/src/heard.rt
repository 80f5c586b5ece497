//! What is found of an event, and what comes of it when it is heard.

ghost use Rattle.std.specs.Prelude.{◌≡◌};
ghost use Rattle.ace_check.specs.Found.{found_unless};

/// What comes of an event that is heard.
#[derive(Clone, Copy)]
pub enum Heard {
    /// It breaks no rule, and the shares tell of the trace with it.
    Fine,
    /// The least rule that it breaks.
    Broken(u8),
    /// It breaks no rule, and its transaction names one line too many.
    TooManyLines,
    /// It breaks no rule, and there is no memory for what it leaves.
    NoMemory,
}

/// What is found of an event, or else the rule that it breaks.
#[inline(always)]
pub(crate) fn found_unless<T>(found: T, rule: Option<u8>) -> Result<T, u8>
where
    T: Copy,
    ensures { result ≡ found_unless found rule }
{
    match rule {
        None => Ok(found),
        Some(rule) => Err(rule),
    }
}
