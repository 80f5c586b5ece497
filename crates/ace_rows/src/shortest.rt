//! For each rule a shortest trace that breaks it.

ghost use Rattle.std.specs.Prelude.{◌≡◌, Some};
ghost use Rattle.ace_model.specs.Accepted.{first_break};
ghost use Rattle.ace_rows.specs.Shorthands.{one_ace, one_lite, two_ace, two_lite};
ghost use Rattle.ace_rows.specs.Shortest.{breaks_k1, breaks_k2, breaks_k3, breaks_k4, breaks_k5, breaks_k6, breaks_k7, breaks_k8, breaks_k9, breaks_k10, breaks_k11, breaks_k12, breaks_k13, breaks_k14, breaks_k15, breaks_k16, breaks_k17, breaks_k18, breaks_k19, breaks_k20, breaks_k21, breaks_k22, breaks_k23, breaks_k24, breaks_k25, breaks_k26, breaks_k27, breaks_k28, breaks_k29, breaks_k30, breaks_k31, breaks_k32, breaks_k33, breaks_k34, breaks_k35, breaks_k36, breaks_k37, breaks_k38, breaks_k39, breaks_k40};

/// Each trace is accepted but for its last event, whose least broken rule is the one that it is
/// named for.
pub fn each_rule_is_broken()
    ensures k1 { first_break one_lite breaks_k1 ≡ Some (record { index = 1; rule = 1 }) }
    ensures k2 { first_break one_ace breaks_k2 ≡ Some (record { index = 1; rule = 2 }) }
    ensures k3 { first_break one_ace breaks_k3 ≡ Some (record { index = 1; rule = 3 }) }
    ensures k4 { first_break one_ace breaks_k4 ≡ Some (record { index = 2; rule = 4 }) }
    ensures k5 { first_break one_ace breaks_k5 ≡ Some (record { index = 2; rule = 5 }) }
    ensures k6 { first_break one_ace breaks_k6 ≡ Some (record { index = 1; rule = 6 }) }
    ensures k7 { first_break one_ace breaks_k7 ≡ Some (record { index = 1; rule = 7 }) }
    ensures k8 { first_break two_lite breaks_k8 ≡ Some (record { index = 2; rule = 8 }) }
    ensures k9 { first_break one_ace breaks_k9 ≡ Some (record { index = 1; rule = 9 }) }
    ensures k10 { first_break one_ace breaks_k10 ≡ Some (record { index = 7; rule = 10 }) }
    ensures k11 { first_break one_ace breaks_k11 ≡ Some (record { index = 1; rule = 11 }) }
    ensures k12 { first_break one_ace breaks_k12 ≡ Some (record { index = 1; rule = 12 }) }
    ensures k13 { first_break one_ace breaks_k13 ≡ Some (record { index = 1; rule = 13 }) }
    ensures k14 { first_break one_ace breaks_k14 ≡ Some (record { index = 1; rule = 14 }) }
    ensures k15 { first_break two_ace breaks_k15 ≡ Some (record { index = 3; rule = 15 }) }
    ensures k16 { first_break two_ace breaks_k16 ≡ Some (record { index = 10; rule = 16 }) }
    ensures k17 { first_break one_ace breaks_k17 ≡ Some (record { index = 1; rule = 17 }) }
    ensures k18 { first_break one_ace breaks_k18 ≡ Some (record { index = 1; rule = 18 }) }
    ensures k19 { first_break one_ace breaks_k19 ≡ Some (record { index = 2; rule = 19 }) }
    ensures k20 { first_break one_ace breaks_k20 ≡ Some (record { index = 2; rule = 20 }) }
    ensures k21 { first_break one_ace breaks_k21 ≡ Some (record { index = 2; rule = 21 }) }
    ensures k22 { first_break one_ace breaks_k22 ≡ Some (record { index = 1; rule = 22 }) }
    ensures k23 { first_break one_ace breaks_k23 ≡ Some (record { index = 3; rule = 23 }) }
    ensures k24 { first_break one_ace breaks_k24 ≡ Some (record { index = 1; rule = 24 }) }
    ensures k25 { first_break one_lite breaks_k25 ≡ Some (record { index = 7; rule = 25 }) }
    ensures k26 { first_break one_ace breaks_k26 ≡ Some (record { index = 1; rule = 26 }) }
    ensures k27 { first_break one_ace breaks_k27 ≡ Some (record { index = 1; rule = 27 }) }
    ensures k28 { first_break one_ace breaks_k28 ≡ Some (record { index = 4; rule = 28 }) }
    ensures k29 { first_break one_ace breaks_k29 ≡ Some (record { index = 1; rule = 29 }) }
    ensures k30 { first_break one_ace breaks_k30 ≡ Some (record { index = 1; rule = 30 }) }
    ensures k31 { first_break one_ace breaks_k31 ≡ Some (record { index = 6; rule = 31 }) }
    ensures k32 { first_break one_ace breaks_k32 ≡ Some (record { index = 1; rule = 32 }) }
    ensures k33 { first_break one_ace breaks_k33 ≡ Some (record { index = 6; rule = 33 }) }
    ensures k34 { first_break one_ace breaks_k34 ≡ Some (record { index = 2; rule = 34 }) }
    ensures k35 { first_break one_ace breaks_k35 ≡ Some (record { index = 4; rule = 35 }) }
    ensures k36 { first_break one_ace breaks_k36 ≡ Some (record { index = 1; rule = 36 }) }
    ensures k37 { first_break two_ace breaks_k37 ≡ Some (record { index = 2; rule = 37 }) }
    ensures k38 { first_break one_ace breaks_k38 ≡ Some (record { index = 1; rule = 38 }) }
    ensures k39 { first_break one_ace breaks_k39 ≡ Some (record { index = 1; rule = 39 }) }
    ensures k40 { first_break one_ace breaks_k40 ≡ Some (record { index = 1; rule = 40 }) }
{}
