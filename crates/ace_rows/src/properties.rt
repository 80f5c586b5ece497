//! Runs that go wrong, and the property that each of them lacks: none of the eight holds of every
//! trace.

ghost use Rattle.std.specs.Prelude.{reverse};
ghost use Rattle.ace_model.specs.Unique.{Unique, OneDirty};
ghost use Rattle.ace_model.specs.DirtyPlace.{DirtyPlace};
ghost use Rattle.ace_model.specs.ReadsFollow.{ReadsFollow};
ghost use Rattle.ace_model.specs.Coherent.{Coherent};
ghost use Rattle.ace_model.specs.ExclusiveHolds.{ExclusiveHolds};
ghost use Rattle.ace_model.specs.BarrierHolds.{BarrierHolds};
ghost use Rattle.ace_model.specs.DvmHolds.{DvmHolds};
ghost use Rattle.ace_rows.specs.Shorthands.{two_ace};
ghost use Rattle.ace_rows.specs.Broken.{both_unique, both_dirty, loses_a_store, loads_old_data, stores_between, overtakes_a_barrier, completes_unheard, answers_a_stray_message};

/// Each run lacks a property.
pub fn broken_runs_lack_a_property()
    ensures unique { ¬ Unique two_ace (reverse both_unique) }
    ensures one_dirty { ¬ OneDirty two_ace (reverse both_dirty) }
    ensures dirty_place { ¬ DirtyPlace two_ace (reverse loses_a_store) }
    ensures reads_follow { ¬ ReadsFollow (reverse loads_old_data) }
    ensures coherent { ¬ Coherent two_ace (reverse loads_old_data) }
    ensures exclusive_holds { ¬ ExclusiveHolds (reverse stores_between) }
    ensures barrier_holds { ¬ BarrierHolds (reverse overtakes_a_barrier) }
    ensures dvm_holds { ¬ DvmHolds two_ace (reverse completes_unheard) }
    ensures dvm_holds_of_a_stray { ¬ DvmHolds two_ace (reverse answers_a_stray_message) }
{}
