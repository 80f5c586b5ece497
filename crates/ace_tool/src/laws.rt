//! Facts about the definitions, as contracts of functions that do nothing.

ghost use Rattle.std.specs.Prelude.{◌≡◌, ℕ, List, Option};
ghost use Rattle.ace_batch.specs.Counts.{status_of_all as status_of_batch};
ghost use Rattle.ace_batch.specs.declared.entry.Entry.{Entry};
ghost use Rattle.ace_tool.specs.Asked.{Options};
ghost use Rattle.ace_tool.specs.Batch.{AreResults};
ghost use Rattle.ace_tool.specs.BatchAsked.{BatchAsked};
ghost use Rattle.ace_tool.specs.Checked.{AreRight, AreSound, Checked, statuses_of};
ghost use Rattle.ace_tool.specs.Held.{Held};
ghost use Rattle.ace_tool.specs.Requests.{Asks, Wish};
ghost use Rattle.ace_tool.specs.Reports.{status_of_all};

use ace_verdict::laws::one_verdict_is_due;

/// Where the status of many traces is 0, each is whole, also by its side file, and has all that
/// acceptance promises.
pub fn accepted_traces_are_sound()
    ensures { (options : Options) (holds : List ℕ → Held) (input left : Option (List ℕ))
        (checked : List Checked)
        → AreRight options holds input checked left → status_of_all (statuses_of checked) ≡ 0
        → AreSound options holds input checked }
{
    one_verdict_is_due();
}

/// Where the status of a batch is 0, none of the traces that are asked for is left: each was looked
/// at, also where the call is to end with the first that isn't accepted.
pub fn zero_leaves_none()
    ensures { (asked : BatchAsked) (holds knows : List ℕ → Held) (input : Option (List ℕ))
        (entries : List Entry) (left : ℕ) → AreResults asked holds knows input entries left
        → status_of_batch entries ≡ 0 → left ≡ 0 }
{}

/// Words of the command line ask one thing at most.
pub fn words_ask_one_thing()
    ensures { (words : List (List ℕ)) (wish other : Wish) → Asks words wish → Asks words other
        → wish ≡ other }
{}
