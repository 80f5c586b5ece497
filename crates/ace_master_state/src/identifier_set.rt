//! A set of the sixteen identifiers of a channel.

ghost use Rattle.std.specs.Prelude.{◌≡◌, ◌<◌, ◌==◌, ◌&&◌, ◌||◌, ℕ, false, not};
ghost use Rattle.ace_runs.specs.Requests.{identifiers, least_below};
ghost use Rattle.ace_master_state.specs.Identifiers.{has};

/// How many identifiers there are.
const COUNT: u8 = 16;

/// Some of the identifiers 0 to 15: bit i of the word says whether identifier i is one of them. So
/// a look at the word finds the least of the others, or that there is none.
#[derive(Clone, Copy)]
pub struct IdentifierSet {
    word: u16,
}

impl IdentifierSet {
    /// No identifier.
    pub fn none() -> IdentifierSet
        ensures { (i : ℕ) → has result i ≡ false }
    {
        IdentifierSet { word: 0 }
    }

    /// The identifier, one of the sixteen, is one of them.
    pub fn add(&mut self, id: u8)
        ensures { (i : ℕ) → i < 16 → has self.new i ≡ (has self.old i || (id == i)) }
    {
        if id < COUNT {
            self.word |= 1 << id;
        }
    }

    /// The identifier is none of them.
    pub fn remove(&mut self, id: u8)
        ensures { (i : ℕ) → i < 16 → has self.new i ≡ (has self.old i && not (id == i)) }
    {
        if id < COUNT {
            self.word &= !(1 << id);
        }
    }

    /// Those and the others.
    pub fn or(self, other: IdentifierSet) -> IdentifierSet
        ensures { (i : ℕ) → has result i ≡ (has self i || has other i) }
    {
        IdentifierSet {
            word: self.word | other.word,
        }
    }

    /// The least identifier that is none of them.
    pub fn least_other(self) -> Option<u8>
        ensures { result ≡ least_below identifiers (λ i. not (has self i)) }
    {
        if self.word == u16::MAX {
            None
        } else {
            Some(self.word.trailing_ones() as u8)
        }
    }
}
