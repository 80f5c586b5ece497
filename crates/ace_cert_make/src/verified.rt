//! What a certificate is worth: the promises of `make` and `verify` taken together.

ghost use Rattle.std.specs.Prelude.{◌≡◌, ◌≤◌, IfOk, length, reverse, true};
ghost use Rattle.ace_event.specs.Ports.{IsHeader};
ghost use Rattle.ace_model.specs.Accepted.{IsAccepted};
ghost use Rattle.ace_model.specs.ReadsFollow.{ReadsFollow};

use crate::whole::make;
use ace_cert::laws::a_certificate_orders_reads;
use ace_cert::{Cert, verify};
use ace_event::{Event, Header};
use ace_io::NoMemory;
use std::alloc::Global;

/// Whether `verify` finds the certificate right. Where it does, all reads of the trace follow one
/// order of the stores, whatever rules the trace breaks.
///
/// # Errors
///
/// `NoMemory`.
pub fn verified_reads_follow(
    alloc: Global,
    header: &Header,
    trace: &[Event],
    cert: &Cert,
) -> Result<bool, NoMemory>
    requires { length trace.now ≤ 1048576 }
    ensures { IfOk result (λ right. right ≡ true → ReadsFollow (reverse trace.now)) }
{
    a_certificate_orders_reads();
    verify(alloc, header, trace, cert)
}

/// Whether `verify` finds right what `make` makes of the accepted trace: it does.
///
/// # Errors
///
/// `NoMemory`.
pub fn a_made_certificate_is_right(
    alloc: Global,
    header: &Header,
    trace: &[Event],
) -> Result<bool, NoMemory>
    requires header { IsHeader header.now }
    requires accepted { IsAccepted header.now (reverse trace.now) }
    requires few { length trace.now ≤ 1048576 }
    ensures { IfOk result (λ right. right ≡ true) }
{
    let cert = match make(alloc, header, trace) {
        Ok(cert) => cert,
        Err(none) => return Err(none),
    };
    let right = verify(alloc, header, trace, &cert);
    drop(cert);
    right
}
