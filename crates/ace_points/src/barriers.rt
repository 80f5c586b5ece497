// The barrier of a port that isn't complete.
ghost use Rattle.std.specs.Prelude.{◌≡◌, Bool, max};
ghost use Rattle.ace_model.specs.Barriers.{Pair};
ghost use Rattle.ace_model.specs.Trace.{is_some_and};
ghost use Rattle.ace_points.specs.Asked.{answers_early, has_incomplete, is_before_barrier, is_behind, is_second_half, joins, some_open_pair};
ghost use Rattle.ace_points.specs.Situations.{is_ignored};
ghost use Rattle.ace_portck.specs.Stands.{Stands as PortsTell};
ghost use Rattle.ace_portck.specs.Targets.{Recording};
ghost use Rattle.ace_sysck.specs.Barriers.{open_of, pair_in};
ghost use Rattle.ace_sysck.specs.Stands.{Stands as SystemTells};

use ace_event::Channel;
use ace_model::Transaction;
use ace_model::kinds::is_barrier_half;
use ace_portck::PortCheck;
use ace_sysck::{Barrier, OpenPair, SysCheck};

/// The next half on the channel is the other half of the barrier.
fn joins(barrier: &Barrier, chan: Channel) -> bool
    ensures { result ≡ joins barrier.now chan }
{
    match (barrier, chan) {
        (Barrier::ReadHalf(_), Channel::Write) | (Barrier::WriteHalf(_), Channel::Read) => true,
        _ => false,
    }
}

/// The transaction is a barrier half whose other half is there.
#[tactic(auto, using(crate::proofs::Pairs::joins_is))]
pub(crate) fn is_second_half(system: &SysCheck, x: &Transaction) -> bool
    ensures { (r : Recording) → SystemTells system.now r
        → result ≡ is_second_half r.past x.now }
{
    is_barrier_half(x) && joins(&system.barrier(x.port), x.chan)
}

/// How many events came before the later half.
fn place_of(pair: &OpenPair) -> usize
    ensures { result ≡ max pair.now.read.place pair.now.write.place }
{
    if pair.read.place < pair.write.place {
        pair.write.place
    } else {
        pair.read.place
    }
}

/// Its pair, while that isn't complete.
fn opened(barrier: Barrier) -> Option<OpenPair>
    ensures { result ≡ open_of barrier }
{
    match barrier {
        Barrier::Open(pair) => Some(pair),
        _ => None,
    }
}

/// The pair of the port that isn't complete.
fn open_pair(system: &SysCheck, port: u8) -> Option<OpenPair>
    ensures { (r : Recording) (test : Pair → Bool) → SystemTells system.now r
        → some_open_pair r.past port test ≡ is_some_and result (λ b. test (pair_in b)) }
{
    opened(system.barrier(port))
}

/// Barriers order the transaction, and this one is behind it.
fn is_behind(pair: &OpenPair, x: &Transaction) -> bool
    ensures { result ≡ is_behind x.now (pair_in pair.now) }
{
    x.bar == 0 && x.place <= place_of(pair)
}

/// A barrier behind the transaction, which barriers order, isn't complete.
pub(crate) fn is_before_barrier(system: &SysCheck, x: &Transaction) -> bool
    ensures { (r : Recording) → SystemTells system.now r
        → result ≡ is_before_barrier r.past x.now }
{
    match open_pair(system, x.port) {
        Some(pair) => is_behind(&pair, x),
        None => false,
    }
}

/// The transaction is a half of the pair, before which a transaction isn't complete.
fn has_incomplete(ports: &PortCheck, x: &Transaction, pair: &OpenPair) -> bool
    ensures { (r : Recording) → PortsTell ports.now r
        → result ≡ has_incomplete r.past x.now (pair_in pair.now) }
{
    let is_half = x.place == pair.read.place || x.place == pair.write.place;
    match ports.first_incomplete(x.port) {
        Some(place) => is_half && place < place_of(pair),
        None => false,
    }
}

/// The transaction is a half of a barrier before which a transaction isn't complete.
pub(crate) fn answers_early(ports: &PortCheck, system: &SysCheck, x: &Transaction) -> bool
    ensures { (r : Recording) → PortsTell ports.now r → SystemTells system.now r
        → result ≡ answers_early r.past x.now }
{
    match open_pair(system, x.port) {
        Some(pair) => has_incomplete(ports, x, &pair),
        None => false,
    }
}

/// The transaction ignores the pair, which is before it.
fn is_ignored(pair: &OpenPair, x: &Transaction) -> bool
    ensures { result ≡ is_ignored x.now (pair_in pair.now) }
{
    x.bar == 2 && place_of(pair) < x.place
}

/// A barrier before the transaction, which ignores it, isn't complete.
pub(crate) fn ignores_barrier(system: &SysCheck, x: &Transaction) -> bool
    ensures { (r : Recording) → SystemTells system.now r
        → result ≡ some_open_pair r.past x.now.port (is_ignored x.now) }
{
    match open_pair(system, x.port) {
        Some(pair) => is_ignored(&pair, x),
        None => false,
    }
}
