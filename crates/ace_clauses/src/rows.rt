//! Worked rows: for each clause but K3e, which takes 4,097 events, a short trace whose last event
//! breaks it. These functions do no work: their contracts are what the definitions compute.

ghost use Rattle.std.specs.Prelude.{◌≡◌, Some};
ghost use Rattle.ace_clauses.specs.declared.letters.Letter.TheVariants as letter;
ghost use Rattle.ace_clauses.specs.Rows.{broken_clause, header_of};
ghost use Rattle.ace_clauses.specs.AddressRows.{breaks_k1a, breaks_k1b, breaks_k2a, breaks_k2b, breaks_k2c, breaks_k2d, breaks_k3a, breaks_k3b, breaks_k3c, breaks_k3d, breaks_k4a, breaks_k5a, breaks_k6a, breaks_k7a, breaks_k7b, breaks_k8a, breaks_k9a, breaks_k9b, breaks_k9c, breaks_k9d, breaks_k9e, breaks_k9f, breaks_k9g, breaks_k9h, breaks_k10a, breaks_k10b};
ghost use Rattle.ace_clauses.specs.SnoopRows.{breaks_k11a, breaks_k11b, breaks_k11c, breaks_k11d, breaks_k12a, breaks_k12b, breaks_k12c, breaks_k12d, breaks_k13a, breaks_k13b, breaks_k13c, breaks_k13d, breaks_k13e, breaks_k13f, breaks_k13g, breaks_k14a, breaks_k15a, breaks_k15b, breaks_k15c, breaks_k15d, breaks_k16a, breaks_k16b, breaks_k16c, breaks_k17a, breaks_k17b, breaks_k17c};
ghost use Rattle.ace_clauses.specs.ReadRows.{breaks_k18a, breaks_k18b, breaks_k18c, breaks_k18d, breaks_k18e, breaks_k18f, breaks_k18g, breaks_k18h, breaks_k18i, breaks_k19a, breaks_k19b, breaks_k19c, breaks_k19d, breaks_k19e, breaks_k19f, breaks_k20a, breaks_k20b, breaks_k21a, breaks_k21b, breaks_k21c, breaks_k22a, breaks_k23a, breaks_k23b, breaks_k23c};
ghost use Rattle.ace_clauses.specs.WriteRows.{breaks_k24a, breaks_k24b, breaks_k24c, breaks_k24d, breaks_k24e, breaks_k24f, breaks_k24g, breaks_k24h, breaks_k24i, breaks_k25a, breaks_k25b, breaks_k25c, breaks_k25d, breaks_k26a, breaks_k26b, breaks_k26c, breaks_k27a, breaks_k28a, breaks_k28b};
ghost use Rattle.ace_clauses.specs.CacheRows.{breaks_k29a, breaks_k29b, breaks_k30a, breaks_k31a, breaks_k32a, breaks_k32b, breaks_k32c, breaks_k32d, breaks_k32e, breaks_k33a, breaks_k33b, breaks_k33c, breaks_k33d};
ghost use Rattle.ace_clauses.specs.OrderRows.{breaks_k34a, breaks_k34b, breaks_k34c, breaks_k35a, breaks_k36a, breaks_k36b, breaks_k36c, breaks_k37a, breaks_k37b, breaks_k38a, breaks_k39a, breaks_k39b, breaks_k39c, breaks_k39d, breaks_k39e, breaks_k40a};

/// The clauses of the rules of AR and AW, K1 to K10.
pub fn address_clauses_are_broken()
    ensures k1a { broken_clause (header_of 1 2 0b11) breaks_k1a
        ≡ Some (record { index = 1; rule = 1; letter = Some letter.A }) }
    ensures k1b { broken_clause (header_of 1 4 0b101) breaks_k1b
        ≡ Some (record { index = 1; rule = 1; letter = Some letter.B }) }
    ensures k2a { broken_clause (header_of 1 2 0b11) breaks_k2a
        ≡ Some (record { index = 1; rule = 2; letter = Some letter.A }) }
    ensures k2b { broken_clause (header_of 1 5 0b11110) breaks_k2b
        ≡ Some (record { index = 1; rule = 2; letter = Some letter.B }) }
    ensures k2c { broken_clause (header_of 1 2 0b11) breaks_k2c
        ≡ Some (record { index = 1; rule = 2; letter = Some letter.C }) }
    ensures k2d { broken_clause (header_of 2 2 0b11) breaks_k2d
        ≡ Some (record { index = 1; rule = 2; letter = Some letter.D }) }
    ensures k3a { broken_clause (header_of 1 2 0b11) breaks_k3a
        ≡ Some (record { index = 1; rule = 3; letter = Some letter.A }) }
    ensures k3b { broken_clause (header_of 1 1 0b1) breaks_k3b
        ≡ Some (record { index = 1; rule = 3; letter = Some letter.B }) }
    ensures k3c { broken_clause (header_of 2 1 0b1) breaks_k3c
        ≡ Some (record { index = 2; rule = 3; letter = Some letter.C }) }
    ensures k3d { broken_clause (header_of 2 2 0b11) breaks_k3d
        ≡ Some (record { index = 2; rule = 3; letter = Some letter.D }) }
    ensures k4a { broken_clause (header_of 1 1 0b0) breaks_k4a
        ≡ Some (record { index = 2; rule = 4; letter = Some letter.A }) }
    ensures k5a { broken_clause (header_of 1 1 0b0) breaks_k5a
        ≡ Some (record { index = 2; rule = 5; letter = Some letter.A }) }
    ensures k6a { broken_clause (header_of 1 2 0b11) breaks_k6a
        ≡ Some (record { index = 8; rule = 6; letter = Some letter.A }) }
    ensures k7a { broken_clause (header_of 1 5 0b11010) breaks_k7a
        ≡ Some (record { index = 1; rule = 7; letter = Some letter.A }) }
    ensures k7b { broken_clause (header_of 1 3 0b110) breaks_k7b
        ≡ Some (record { index = 1; rule = 7; letter = Some letter.B }) }
    ensures k8a { broken_clause (header_of 2 3 0b111) breaks_k8a
        ≡ Some (record { index = 2; rule = 8; letter = Some letter.A }) }
    ensures k9a { broken_clause (header_of 2 2 0b11) breaks_k9a
        ≡ Some (record { index = 1; rule = 9; letter = Some letter.A }) }
    ensures k9b { broken_clause (header_of 1 1 0b1) breaks_k9b
        ≡ Some (record { index = 2; rule = 9; letter = Some letter.B }) }
    ensures k9c { broken_clause (header_of 1 2 0b10) breaks_k9c
        ≡ Some (record { index = 3; rule = 9; letter = Some letter.C }) }
    ensures k9d { broken_clause (header_of 1 1 0b1) breaks_k9d
        ≡ Some (record { index = 2; rule = 9; letter = Some letter.D }) }
    ensures k9e { broken_clause (header_of 1 2 0b11) breaks_k9e
        ≡ Some (record { index = 1; rule = 9; letter = Some letter.E }) }
    ensures k9f { broken_clause (header_of 1 4 0b111) breaks_k9f
        ≡ Some (record { index = 2; rule = 9; letter = Some letter.F }) }
    ensures k9g { broken_clause (header_of 1 2 0b11) breaks_k9g
        ≡ Some (record { index = 2; rule = 9; letter = Some letter.G }) }
    ensures k9h { broken_clause (header_of 1 3 0b111) breaks_k9h
        ≡ Some (record { index = 1; rule = 9; letter = Some letter.H }) }
    ensures k10a { broken_clause (header_of 1 1 0b1) breaks_k10a
        ≡ Some (record { index = 7; rule = 10; letter = Some letter.A }) }
    ensures k10b { broken_clause (header_of 1 1 0b1) breaks_k10b
        ≡ Some (record { index = 7; rule = 10; letter = Some letter.B }) }
{}

/// The clauses of the rules of write data, grants and snoops, K11 to K17.
pub fn snoop_clauses_are_broken()
    ensures k11a { broken_clause (header_of 1 2 0b11) breaks_k11a
        ≡ Some (record { index = 1; rule = 11; letter = Some letter.A }) }
    ensures k11b { broken_clause (header_of 1 2 0b11) breaks_k11b
        ≡ Some (record { index = 2; rule = 11; letter = Some letter.B }) }
    ensures k11c { broken_clause (header_of 2 4 0b110) breaks_k11c
        ≡ Some (record { index = 2; rule = 11; letter = Some letter.C }) }
    ensures k11d { broken_clause (header_of 1 1 0b1) breaks_k11d
        ≡ Some (record { index = 10; rule = 11; letter = Some letter.D }) }
    ensures k12a { broken_clause (header_of 1 1 0b0) breaks_k12a
        ≡ Some (record { index = 1; rule = 12; letter = Some letter.A }) }
    ensures k12b { broken_clause (header_of 1 4 0b111) breaks_k12b
        ≡ Some (record { index = 2; rule = 12; letter = Some letter.B }) }
    ensures k12c { broken_clause (header_of 1 1 0b0) breaks_k12c
        ≡ Some (record { index = 3; rule = 12; letter = Some letter.C }) }
    ensures k12d { broken_clause (header_of 1 2 0b11) breaks_k12d
        ≡ Some (record { index = 4; rule = 12; letter = Some letter.D }) }
    ensures k13a { broken_clause (header_of 1 2 0b11) breaks_k13a
        ≡ Some (record { index = 1; rule = 13; letter = Some letter.A }) }
    ensures k13b { broken_clause (header_of 1 2 0b11) breaks_k13b
        ≡ Some (record { index = 3; rule = 13; letter = Some letter.B }) }
    ensures k13c { broken_clause (header_of 1 3 0b111) breaks_k13c
        ≡ Some (record { index = 3; rule = 13; letter = Some letter.C }) }
    ensures k13d { broken_clause (header_of 1 2 0b11) breaks_k13d
        ≡ Some (record { index = 10; rule = 13; letter = Some letter.D }) }
    ensures k13e { broken_clause (header_of 1 2 0b11) breaks_k13e
        ≡ Some (record { index = 4; rule = 13; letter = Some letter.E }) }
    ensures k13f { broken_clause (header_of 1 5 0b11001) breaks_k13f
        ≡ Some (record { index = 4; rule = 13; letter = Some letter.F }) }
    ensures k13g { broken_clause (header_of 1 2 0b11) breaks_k13g
        ≡ Some (record { index = 12; rule = 13; letter = Some letter.G }) }
    ensures k14a { broken_clause (header_of 1 3 0b111) breaks_k14a
        ≡ Some (record { index = 1; rule = 14; letter = Some letter.A }) }
    ensures k15a { broken_clause (header_of 1 2 0b10) breaks_k15a
        ≡ Some (record { index = 11; rule = 15; letter = Some letter.A }) }
    ensures k15b { broken_clause (header_of 1 3 0b11) breaks_k15b
        ≡ Some (record { index = 4; rule = 15; letter = Some letter.B }) }
    ensures k15c { broken_clause (header_of 1 3 0b110) breaks_k15c
        ≡ Some (record { index = 3; rule = 15; letter = Some letter.C }) }
    ensures k15d { broken_clause (header_of 1 2 0b11) breaks_k15d
        ≡ Some (record { index = 12; rule = 15; letter = Some letter.D }) }
    ensures k16a { broken_clause (header_of 1 2 0b11) breaks_k16a
        ≡ Some (record { index = 10; rule = 16; letter = Some letter.A }) }
    ensures k16b { broken_clause (header_of 1 3 0b111) breaks_k16b
        ≡ Some (record { index = 10; rule = 16; letter = Some letter.B }) }
    ensures k16c { broken_clause (header_of 1 2 0b11) breaks_k16c
        ≡ Some (record { index = 12; rule = 16; letter = Some letter.C }) }
    ensures k17a { broken_clause (header_of 1 4 0b11) breaks_k17a
        ≡ Some (record { index = 1; rule = 17; letter = Some letter.A }) }
    ensures k17b { broken_clause (header_of 1 2 0b11) breaks_k17b
        ≡ Some (record { index = 13; rule = 17; letter = Some letter.B }) }
    ensures k17c { broken_clause (header_of 1 3 0b11) breaks_k17c
        ≡ Some (record { index = 10; rule = 17; letter = Some letter.C }) }
{}

/// The clauses of the rules of R and RK, K18 to K23.
pub fn read_clauses_are_broken()
    ensures k18a { broken_clause (header_of 1 1 0b1) breaks_k18a
        ≡ Some (record { index = 1; rule = 18; letter = Some letter.A }) }
    ensures k18b { broken_clause (header_of 2 3 0b111) breaks_k18b
        ≡ Some (record { index = 4; rule = 18; letter = Some letter.B }) }
    ensures k18c { broken_clause (header_of 1 1 0b1) breaks_k18c
        ≡ Some (record { index = 2; rule = 18; letter = Some letter.C }) }
    ensures k18d { broken_clause (header_of 1 3 0b111) breaks_k18d
        ≡ Some (record { index = 2; rule = 18; letter = Some letter.D }) }
    ensures k18e { broken_clause (header_of 1 5 0b10011) breaks_k18e
        ≡ Some (record { index = 4; rule = 18; letter = Some letter.E }) }
    ensures k18f { broken_clause (header_of 1 2 0b11) breaks_k18f
        ≡ Some (record { index = 10; rule = 18; letter = Some letter.F }) }
    ensures k18g { broken_clause (header_of 1 2 0b11) breaks_k18g
        ≡ Some (record { index = 10; rule = 18; letter = Some letter.G }) }
    ensures k18h { broken_clause (header_of 1 2 0b11) breaks_k18h
        ≡ Some (record { index = 14; rule = 18; letter = Some letter.H }) }
    ensures k18i { broken_clause (header_of 1 2 0b11) breaks_k18i
        ≡ Some (record { index = 14; rule = 18; letter = Some letter.I }) }
    ensures k19a { broken_clause (header_of 2 1 0b0) breaks_k19a
        ≡ Some (record { index = 3; rule = 19; letter = Some letter.A }) }
    ensures k19b { broken_clause (header_of 1 2 0b11) breaks_k19b
        ≡ Some (record { index = 6; rule = 19; letter = Some letter.B }) }
    ensures k19c { broken_clause (header_of 1 2 0b11) breaks_k19c
        ≡ Some (record { index = 14; rule = 19; letter = Some letter.C }) }
    ensures k19d { broken_clause (header_of 1 1 0b0) breaks_k19d
        ≡ Some (record { index = 6; rule = 19; letter = Some letter.D }) }
    ensures k19e { broken_clause (header_of 1 2 0b11) breaks_k19e
        ≡ Some (record { index = 12; rule = 19; letter = Some letter.E }) }
    ensures k19f { broken_clause (header_of 1 3 0b111) breaks_k19f
        ≡ Some (record { index = 4; rule = 19; letter = Some letter.F }) }
    ensures k20a { broken_clause (header_of 1 2 0b11) breaks_k20a
        ≡ Some (record { index = 3; rule = 20; letter = Some letter.A }) }
    ensures k20b { broken_clause (header_of 2 1 0b0) breaks_k20b
        ≡ Some (record { index = 3; rule = 20; letter = Some letter.B }) }
    ensures k21a { broken_clause (header_of 1 2 0b11) breaks_k21a
        ≡ Some (record { index = 3; rule = 21; letter = Some letter.A }) }
    ensures k21b { broken_clause (header_of 1 1 0b1) breaks_k21b
        ≡ Some (record { index = 10; rule = 21; letter = Some letter.B }) }
    ensures k21c { broken_clause (header_of 1 5 0b11111) breaks_k21c
        ≡ Some (record { index = 3; rule = 21; letter = Some letter.C }) }
    ensures k22a { broken_clause (header_of 1 1 0b1) breaks_k22a
        ≡ Some (record { index = 1; rule = 22; letter = Some letter.A }) }
    ensures k23a { broken_clause (header_of 1 1 0b1) breaks_k23a
        ≡ Some (record { index = 4; rule = 23; letter = Some letter.A }) }
    ensures k23b { broken_clause (header_of 1 1 0b1) breaks_k23b
        ≡ Some (record { index = 4; rule = 23; letter = Some letter.B }) }
    ensures k23c { broken_clause (header_of 1 2 0b11) breaks_k23c
        ≡ Some (record { index = 6; rule = 23; letter = Some letter.C }) }
{}

/// The clauses of the rules of M, B and WK, K24 to K28.
pub fn write_clauses_are_broken()
    ensures k24a { broken_clause (header_of 1 4 0b1110) breaks_k24a
        ≡ Some (record { index = 1; rule = 24; letter = Some letter.A }) }
    ensures k24b { broken_clause (header_of 1 2 0b11) breaks_k24b
        ≡ Some (record { index = 2; rule = 24; letter = Some letter.B }) }
    ensures k24c { broken_clause (header_of 1 2 0b11) breaks_k24c
        ≡ Some (record { index = 13; rule = 24; letter = Some letter.C }) }
    ensures k24d { broken_clause (header_of 1 2 0b11) breaks_k24d
        ≡ Some (record { index = 15; rule = 24; letter = Some letter.D }) }
    ensures k24e { broken_clause (header_of 1 2 0b11) breaks_k24e
        ≡ Some (record { index = 2; rule = 24; letter = Some letter.E }) }
    ensures k24f { broken_clause (header_of 1 5 0b11111) breaks_k24f
        ≡ Some (record { index = 6; rule = 24; letter = Some letter.F }) }
    ensures k24g { broken_clause (header_of 1 3 0b110) breaks_k24g
        ≡ Some (record { index = 8; rule = 24; letter = Some letter.G }) }
    ensures k24h { broken_clause (header_of 1 1 0b1) breaks_k24h
        ≡ Some (record { index = 13; rule = 24; letter = Some letter.H }) }
    ensures k24i { broken_clause (header_of 1 2 0b11) breaks_k24i
        ≡ Some (record { index = 18; rule = 24; letter = Some letter.I }) }
    ensures k25a { broken_clause (header_of 1 2 0b11) breaks_k25a
        ≡ Some (record { index = 14; rule = 25; letter = Some letter.A }) }
    ensures k25b { broken_clause (header_of 1 4 0b1101) breaks_k25b
        ≡ Some (record { index = 7; rule = 25; letter = Some letter.B }) }
    ensures k25c { broken_clause (header_of 1 2 0b11) breaks_k25c
        ≡ Some (record { index = 7; rule = 25; letter = Some letter.C }) }
    ensures k25d { broken_clause (header_of 1 3 0b11) breaks_k25d
        ≡ Some (record { index = 7; rule = 25; letter = Some letter.D }) }
    ensures k26a { broken_clause (header_of 1 2 0b1) breaks_k26a
        ≡ Some (record { index = 1; rule = 26; letter = Some letter.A }) }
    ensures k26b { broken_clause (header_of 1 3 0b111) breaks_k26b
        ≡ Some (record { index = 2; rule = 26; letter = Some letter.B }) }
    ensures k26c { broken_clause (header_of 1 2 0b11) breaks_k26c
        ≡ Some (record { index = 2; rule = 26; letter = Some letter.C }) }
    ensures k27a { broken_clause (header_of 1 3 0b11) breaks_k27a
        ≡ Some (record { index = 1; rule = 27; letter = Some letter.A }) }
    ensures k28a { broken_clause (header_of 1 2 0b11) breaks_k28a
        ≡ Some (record { index = 10; rule = 28; letter = Some letter.A }) }
    ensures k28b { broken_clause (header_of 1 2 0b11) breaks_k28b
        ≡ Some (record { index = 4; rule = 28; letter = Some letter.B }) }
{}

/// The clauses of the rules of the lines that a master holds, K29 to K33.
pub fn cache_clauses_are_broken()
    ensures k29a { broken_clause (header_of 1 5 0b111) breaks_k29a
        ≡ Some (record { index = 1; rule = 29; letter = Some letter.A }) }
    ensures k29b { broken_clause (header_of 1 1 0b1) breaks_k29b
        ≡ Some (record { index = 9; rule = 29; letter = Some letter.B }) }
    ensures k30a { broken_clause (header_of 1 2 0b11) breaks_k30a
        ≡ Some (record { index = 1; rule = 30; letter = Some letter.A }) }
    ensures k31a { broken_clause (header_of 1 2 0b11) breaks_k31a
        ≡ Some (record { index = 8; rule = 31; letter = Some letter.A }) }
    ensures k32a { broken_clause (header_of 1 1 0b1) breaks_k32a
        ≡ Some (record { index = 1; rule = 32; letter = Some letter.A }) }
    ensures k32b { broken_clause (header_of 1 1 0b1) breaks_k32b
        ≡ Some (record { index = 10; rule = 32; letter = Some letter.B }) }
    ensures k32c { broken_clause (header_of 1 1 0b1) breaks_k32c
        ≡ Some (record { index = 5; rule = 32; letter = Some letter.C }) }
    ensures k32d { broken_clause (header_of 2 5 0b1101) breaks_k32d
        ≡ Some (record { index = 4; rule = 32; letter = Some letter.D }) }
    ensures k32e { broken_clause (header_of 1 1 0b1) breaks_k32e
        ≡ Some (record { index = 4; rule = 32; letter = Some letter.E }) }
    ensures k33a { broken_clause (header_of 1 3 0b111) breaks_k33a
        ≡ Some (record { index = 6; rule = 33; letter = Some letter.A }) }
    ensures k33b { broken_clause (header_of 1 1 0b1) breaks_k33b
        ≡ Some (record { index = 12; rule = 33; letter = Some letter.B }) }
    ensures k33c { broken_clause (header_of 1 2 0b11) breaks_k33c
        ≡ Some (record { index = 14; rule = 33; letter = Some letter.C }) }
    ensures k33d { broken_clause (header_of 1 1 0b1) breaks_k33d
        ≡ Some (record { index = 15; rule = 33; letter = Some letter.D }) }
{}

/// The clauses of the rules of barriers, DVM messages and operations, K34 to K40.
pub fn order_clauses_are_broken()
    ensures k34a { broken_clause (header_of 1 2 0b11) breaks_k34a
        ≡ Some (record { index = 2; rule = 34; letter = Some letter.A }) }
    ensures k34b { broken_clause (header_of 1 1 0b0) breaks_k34b
        ≡ Some (record { index = 4; rule = 34; letter = Some letter.B }) }
    ensures k34c { broken_clause (header_of 1 1 0b0) breaks_k34c
        ≡ Some (record { index = 4; rule = 34; letter = Some letter.C }) }
    ensures k35a { broken_clause (header_of 1 1 0b0) breaks_k35a
        ≡ Some (record { index = 4; rule = 35; letter = Some letter.A }) }
    ensures k36a { broken_clause (header_of 1 2 0b11) breaks_k36a
        ≡ Some (record { index = 6; rule = 36; letter = Some letter.A }) }
    ensures k36b { broken_clause (header_of 1 2 0b11) breaks_k36b
        ≡ Some (record { index = 1; rule = 36; letter = Some letter.B }) }
    ensures k36c { broken_clause (header_of 2 28 0b11111111111111) breaks_k36c
        ≡ Some (record { index = 2; rule = 36; letter = Some letter.C }) }
    ensures k37a { broken_clause (header_of 2 2 0b11) breaks_k37a
        ≡ Some (record { index = 3; rule = 37; letter = Some letter.A }) }
    ensures k37b { broken_clause (header_of 1 2 0b11) breaks_k37b
        ≡ Some (record { index = 3; rule = 37; letter = Some letter.B }) }
    ensures k38a { broken_clause (header_of 1 3 0b111) breaks_k38a
        ≡ Some (record { index = 1; rule = 38; letter = Some letter.A }) }
    ensures k39a { broken_clause (header_of 2 3 0b101) breaks_k39a
        ≡ Some (record { index = 1; rule = 39; letter = Some letter.A }) }
    ensures k39b { broken_clause (header_of 1 5 0b111) breaks_k39b
        ≡ Some (record { index = 1; rule = 39; letter = Some letter.B }) }
    ensures k39c { broken_clause (header_of 1 1 0b1) breaks_k39c
        ≡ Some (record { index = 2; rule = 39; letter = Some letter.C }) }
    ensures k39d { broken_clause (header_of 1 2 0b11) breaks_k39d
        ≡ Some (record { index = 7; rule = 39; letter = Some letter.D }) }
    ensures k39e { broken_clause (header_of 1 3 0b111) breaks_k39e
        ≡ Some (record { index = 7; rule = 39; letter = Some letter.E }) }
    ensures k40a { broken_clause (header_of 1 1 0b1) breaks_k40a
        ≡ Some (record { index = 1; rule = 40; letter = Some letter.A }) }
{}
