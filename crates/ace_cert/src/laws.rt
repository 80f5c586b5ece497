//! What a certificate confirms, and how it is tested. These functions do no work: what they promise
//! is the law.

ghost use Rattle.std.specs.Prelude.{◌↔◌};
ghost use Rattle.ace_model.specs.Trace.{Trace};
ghost use Rattle.ace_model.specs.ReadsFollow.{ReadsFollow};
ghost use Rattle.ace_cert.specs.declared.cert.Cert.{Cert};
ghost use Rattle.ace_cert.specs.Certificates.{IsCertificate};
ghost use Rattle.ace_cert.specs.Checks.{IsChecked};

/// All reads of a trace that has a certificate follow one order of the stores.
pub fn a_certificate_orders_reads()
    ensures { (past : Trace) (cert : Cert) → IsCertificate past cert → ReadsFollow past }
{}

/// A certificate is one exactly where it passes the tests of its lines, of its reads, and of each
/// event after those before it.
pub fn tests_are_exact()
    ensures { (past : Trace) (cert : Cert) → IsChecked past cert ↔ IsCertificate past cert }
{}
