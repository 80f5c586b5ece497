//! What the engine puts.

ghost use Rattle.std.specs.Prelude.{◌≡◌, ◌<◌, ◌⊎◌, ℕ, true, false, Some, None, ◌∷◌, []};
ghost use Rattle.std.specs.List.{list_any};
ghost use Rattle.ace_event.specs.declared.event.Event.TheVariants.{B};
ghost use Rattle.ace_model.specs.Messages.{is_message_part};
ghost use Rattle.ace_runs.specs.OrderSteps.{plain_transfer, sync_completion};
ghost use Rattle.ace_order.specs.Messages.{forwarding};
ghost use Rattle.ace_order.specs.Quiet.{is_dvm};

use ace_codes::{ArKind, SnoopKind, ac_code};
use ace_event::Event;
use ace_model::Transaction;
use ace_model::kinds::read_kind;
use ace_portck::Progress;

/// A part of a DVM message, or a DVM Complete.
#[inline(always)]
#[tactic(auto, using(crate::proofs::DvmCodes::no_dvm))]
pub fn is_dvm(read: &Transaction) -> bool
    ensures { result ≡ is_dvm read.now }
{
    // No other kind has an ARSNOOP above 13, so most reads need no look at the rest.
    read.snoop > 13
        && matches!(
            read_kind(read),
            Some(ArKind::DvmMessage | ArKind::DvmComplete)
        )
}

/// A part of a DVM message.
#[inline(always)]
#[tactic(auto, using(crate::proofs::DvmCodes::no_part))]
pub fn is_message_part(read: &Transaction) -> bool
    ensures { result ≡ is_message_part read.now }
{
    read.snoop > 13 && matches!(read_kind(read), Some(ArKind::DvmMessage))
}

/// One of the reads is a part of a DVM message, or a DVM Complete.
pub fn has_dvm(reads: &[Progress]) -> bool
    ensures { result ≡ list_any (λ x. is_dvm x.transaction) reads.now }
{
    reads.iter().any(|x| is_dvm(&x.transaction))
}

/// The read is a part of a DVM message, and comes after the one at the place, if there is one.
#[inline(always)]
pub fn is_behind(read: &Progress, first: Option<usize>) -> bool
    ensures { result ≡ true → (n : ℕ) × (first ≡ Some n) × (n < read.now.transaction.place)
        × (is_message_part read.now.transaction ≡ true) }
{
    match first {
        None => false,
        Some(place) => place < read.transaction.place && is_message_part(&read.transaction),
    }
}

/// The place of the first part of a DVM message without R, with one more read: `first` is that of
/// those before it.
#[inline(always)]
pub fn first_unanswered(first: Option<usize>, read: &Progress) -> Option<usize>
    ensures { (n : ℕ) → result ≡ Some n → (first ≡ Some n)
        ⊎ ((n ≡ read.now.transaction.place) × (first ≡ None)
        × (is_message_part read.now.transaction ≡ true) × (read.now.complete ≡ false)) }
{
    match first {
        Some(place) => Some(place),
        None => if is_message_part(&read.transaction) && !read.complete {
            Some(read.transaction.place)
        } else {
            None
        },
    }
}

/// The one transfer of a read without a line.
pub fn plain_transfer(read: &Transaction) -> Event
    ensures { result ≡ plain_transfer read.now }
{
    Event::R {
        port: read.port,
        id: read.id,
        resp: 0,
        last: true,
        word: 0,
    }
}

/// The response of the half of a barrier on the write channel.
pub fn response(write: &Transaction) -> Event
    ensures { result ≡ B write.now.port write.now.id 0 }
{
    Event::B {
        port: write.port,
        id: write.id,
        resp: 0,
    }
}

/// The AC that forwards the part of a message to the port.
pub fn forwarding(port: u8, part: &Transaction) -> Event
    ensures { result ≡ forwarding port part.now }
{
    Event::Ac {
        port,
        addr: part.addr,
        snoop: ac_code(SnoopKind::DvmMessage),
    }
}

/// The AC that completes the port's Sync.
pub fn sync_completion(port: u8) -> Event
    ensures { result ∷ [] ≡ sync_completion port }
{
    Event::Ac {
        port,
        addr: 0,
        snoop: ac_code(SnoopKind::DvmComplete),
    }
}
