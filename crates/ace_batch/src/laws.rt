//! Facts about the definitions, as contracts of functions that do nothing.

ghost use Rattle.std.specs.Prelude.{ℕ, ◌<◌};
ghost use Rattle.ace_batch.specs.Shards.{IsInOnePart};

/// Each element of a list is in one of its parts, and in no other.
#[tactic(auto, using(crate::proofs::Parts::in_one_part))]
pub fn parts_give_the_list()
    ensures { (parts place : ℕ) → 0 < parts → IsInOnePart parts place }
{}
