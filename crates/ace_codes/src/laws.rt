//! Facts about the tables of codes, as contracts of functions that do nothing.

ghost use Rattle.std.specs.Prelude.{◌≡◌, ℕ, IsTrue, Some};
ghost use Rattle.ace_codes.specs.declared.kind.ArKind.{ArKind};
ghost use Rattle.ace_codes.specs.declared.kind.AwKind.{AwKind};
ghost use Rattle.ace_codes.specs.declared.kind.SnoopKind.{SnoopKind};
ghost use Rattle.ace_codes.specs.Places.{is_in};
ghost use Rattle.ace_codes.specs.Reads.{ar_kind_of, ar_code, read_place};
ghost use Rattle.ace_codes.specs.Snoops.{ac_kind_of, ac_code};
ghost use Rattle.ace_codes.specs.Writes.{aw_kind_of, aw_code, write_place};

/// The code of a kind, read in a domain and with a bar where the kind stands, gives the kind back.
pub fn codes_read_back()
    ensures reads { (kind : ArKind) (domain bar : ℕ) → IsTrue (is_in (read_place kind) domain bar)
        → ar_kind_of (ar_code kind) domain bar ≡ Some kind }
    ensures writes { (kind : AwKind) (domain bar : ℕ) → IsTrue (is_in (write_place kind) domain bar)
        → aw_kind_of (aw_code kind) domain bar ≡ Some kind }
    ensures snoops { (kind : SnoopKind) → ac_kind_of (ac_code kind) ≡ Some kind }
{}
