//! The kinds of reads of DVM.

ghost use Rattle.std.specs.Prelude.{◌≡◌};
ghost use Rattle.ace_model.specs.Messages.{is_message_part, is_dvm_completion};

use ace_codes::ArKind;
use ace_model::Transaction;
use ace_model::kinds::read_kind;

/// A part of a DVM message (Arm IHI 0022E, C12). Few transactions have its code, so most need no
/// look at the rest.
#[inline(always)]
#[tactic(auto, using(crate::proofs::MessageCodes::no_part))]
pub fn is_message_part(x: &Transaction) -> bool
    ensures { result ≡ is_message_part x.now }
{
    match x.snoop {
        15 => matches!(read_kind(x), Some(ArKind::DvmMessage)),
        _ => false,
    }
}

/// A DVM Complete of a port.
#[inline(always)]
#[tactic(auto, using(crate::proofs::MessageCodes::no_completion))]
pub fn is_dvm_completion(x: &Transaction) -> bool
    ensures { result ≡ is_dvm_completion x.now }
{
    match x.snoop {
        14 => matches!(read_kind(x), Some(ArKind::DvmComplete)),
        _ => false,
    }
}
