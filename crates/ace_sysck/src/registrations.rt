//! The monitor of the interconnect.

ghost use Rattle.std.specs.Prelude.{◌≡◌, ◌<◌, ◌==◌, ◌||◌, ℕ};
ghost use Rattle.std.specs.Int.{bit_at};
ghost use Rattle.ace_sysck.specs.Registrations.{kept_bits};

use ace_model::Transaction;
use ace_model::kinds::is_exclusive_store;
use ace_places::LineMap;
use std::alloc::{AllocError, Global};

/// For each line that was granted to a transaction with lock 1, the ports that are registered for
/// it: bit p is 1 exactly where port p is (Arm IHI 0022E, C9).
#[derive(Drop)]
pub struct Registrations {
    lines: LineMap<u32>,
}

/// The bits with that of the port set. No header has a port from 32 on.
#[tactic(auto, using(crate::proofs::RegistrationSteps::bit_set))]
fn with_port(bits: u32, port: u8) -> u32
    ensures { port < 32 → (p : ℕ) → (bit_at result p == 1) ≡ ((port == p) || (bit_at bits p == 1)) }
{
    if port < 32 { bits | 1 << port } else { bits }
}

#[tactic(auto, using(crate::proofs::RegistrationSteps::bit_unset))]
fn has_port(bits: u32, port: u8) -> bool
    ensures { result ≡ (bit_at bits port == 1) }
{
    port < 32 && bits >> port & 1 == 1
}

/// The ports whose registrations the G of the transaction doesn't end: none where it is an
/// exclusive store that passes.
fn kept_bits(x: &Transaction, bits: u32) -> u32
    ensures { result ≡ kept_bits x.now bits }
{
    if is_exclusive_store(x) && has_port(bits, x.port) {
        0
    } else {
        bits
    }
}

impl Registrations {
    ghost use Rattle.std.specs.Prelude.{◌≡◌, ◌≤◌, [], true, false, None, Some, IfOk, IsOk, IsSome, OnOk, OnErr, is_some, length, nat_eq};
    ghost use Rattle.indexmap.specs.IndexMap.{get};
    ghost use Rattle.ace_event.specs.declared.event.Event.{Event};
    ghost use Rattle.ace_event.specs.declared.header.Header.{Header};
    ghost use Rattle.ace_model.specs.Exclusives.{is_registered};
    ghost use Rattle.ace_model.specs.Lines.{is_known, known_lines};
    ghost use Rattle.ace_model.specs.Trace.{Trace};
    ghost use Rattle.ace_portck.specs.Target.{Target};
    ghost use Rattle.ace_portck.specs.LineMaps.{HasRoomForLines};
    ghost use Rattle.ace_portck.specs.Targets.{Recording, after};
    ghost use Rattle.ace_sysck.specs.Registrations.{RegistrationsStand, locked_in, registered_bits};
    ghost use Rattle.ace_sysck.specs.Steps.{IsStep};

    /// The registrations of the empty trace.
    pub fn new(alloc: Global) -> Registrations
        ensures { (h : Header) → RegistrationsStand (record { header = h; past = [] }) result }
    {
        Registrations {
            lines: LineMap::new(alloc),
        }
    }

    /// The same, with room for so many lines.
    pub fn with_room(alloc: Global, lines: usize) -> Result<Registrations, AllocError>
        ensures stands { IfOk result (λ s. (h : Header)
            → RegistrationsStand (record { header = h; past = [] }) s) }
        ensures room { IfOk result (λ s. HasRoomForLines lines [] s.lines) }
    {
        let lines = LineMap::with_capacity(alloc, lines)?;
        Ok(Registrations { lines })
    }

    fn bits_of(&self, line: u32) -> u32
        ensures { result ≡ registered_bits self.now line }
    {
        match self.lines.get(line) {
            None => 0,
            Some(bits) => *bits,
        }
    }

    /// Whether the port is registered for the line.
    pub fn is_registered(&self, port: u8, line: u32) -> bool
        ensures { (r : Recording) → RegistrationsStand r self.now
            → result ≡ is_registered r.past port line }
    {
        has_port(self.bits_of(line), port)
    }

    /// Makes room for the line. There is no memory only where it has no place yet.
    pub(crate) fn make_room(&mut self, line: u32) -> Result<(), AllocError>
        ensures stands { (r : Recording) → RegistrationsStand r self.old
            → RegistrationsStand r self.new }
        ensures room { OnOk result (IsSome (get nat_eq self.new.lines line)) }
        ensures cause { OnErr result (get nat_eq self.old.lines line ≡ None) }
        ensures roomy { (n : ℕ) (past : Trace) → is_known past line ≡ true
            → HasRoomForLines n past self.old.lines
            → HasRoomForLines n past self.new.lines }
        ensures succeeds { (n : ℕ) (past : Trace) → is_known past line ≡ true
            → HasRoomForLines n past self.old.lines
            → length (known_lines past) ≤ n → IsOk result }
    {
        if !self.lines.contains_key(line) {
            self.lines.add(line, 0)?;
        }
        Ok(())
    }

    /// Registers the port of the transaction with lock 1, which is granted its line, if the line
    /// has a place; says whether it has. If it has none, nothing has changed.
    pub fn register(&mut self, x: &Transaction) -> bool
        ensures stands { (r : Recording) (e : Event) (t : Target) → IsStep r e t
            → locked_in e t ≡ Some x.now → RegistrationsStand r self.old → result ≡ true
            → RegistrationsStand (after r e) self.new }
        ensures found { result ≡ is_some (get nat_eq self.old.lines x.now.addr) }
        ensures stays { result ≡ false → self.new ≡ self.old }
        ensures roomy { (n : ℕ) (past : Trace) → HasRoomForLines n past self.old.lines
            → HasRoomForLines n past self.new.lines }
    {
        let kept = kept_bits(x, self.bits_of(x.addr));
        match self.lines.get_mut(x.addr) {
            None => false,
            Some(line) => {
                *line = with_port(kept, x.port);
                true
            }
        }
    }
}
