//! A worked run and its certificate. This function does no work: its contract is what the
//! definitions say of them.

ghost use Rattle.std.specs.Prelude.{reverse};
ghost use Rattle.ace_cert.specs.Certificates.{IsCertificate};
ghost use Rattle.ace_cert.specs.Worked.{loads_and_stores, placed_late, without_load, without_store, worked_cert};

/// The run has its certificate, and three others are none of it: a read is placed too late, a store
/// or a load is left out.
pub fn a_run_has_its_certificate()
    ensures certificate { IsCertificate (reverse loads_and_stores) worked_cert }
    ensures late { ¬ IsCertificate (reverse loads_and_stores) placed_late }
    ensures no_store { ¬ IsCertificate (reverse loads_and_stores) without_store }
    ensures no_load { ¬ IsCertificate (reverse loads_and_stores) without_load }
{}
