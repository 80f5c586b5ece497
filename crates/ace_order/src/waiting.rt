//! Barriers that have to wait.

ghost use Rattle.std.specs.Prelude.{◌≡◌, ◌||◌, ◌∷◌, ℕ, true, false, Some, nat_lt, slice_set};
ghost use Rattle.ace_event.specs.declared.header.Header.{Header};
ghost use Rattle.ace_model.specs.Trace.{Trace, is_some_and};
ghost use Rattle.ace_portck.specs.Stands as portck;
ghost use Rattle.ace_portck.specs.Targets.{Recording};
ghost use Rattle.ace_sysck.specs.Stands as sysck;
ghost use Rattle.ace_order.specs.Waiting.{HasToWait, is_waiting, may_end_wait};

use ace_event::Event;
use ace_portck::PortCheck;
use ace_sysck::{OpenPair, SysCheck};

/// Of each port whether its barrier was found to have to wait, when the last event came that may
/// begin or end a wait of the port.
#[derive(Drop)]
pub struct Waiting {
    ports: [bool; 16],
}

/// The port whose barrier may begin or end to wait with the event.
#[inline(always)]
fn moved_port(event: &Event) -> Option<u8>
    ensures { (p : ℕ) → may_end_wait event.now p ≡ true → result ≡ Some p }
{
    match *event {
        Event::Ar { port, bar, .. } => if bar == 0 { None } else { Some(port) },
        Event::Aw { port, bar, .. } => if bar == 0 { None } else { Some(port) },
        Event::R { port, .. } => Some(port),
        Event::B { port, .. } => Some(port),
        Event::G { port, .. } => Some(port),
        Event::M { port, .. } => Some(port),
        _ => None,
    }
}

/// The transaction at the place, if there is one, is before the pair.
fn is_before(first: Option<usize>, pair: &OpenPair) -> bool
    ensures { result ≡ is_some_and first (λ n. nat_lt n pair.now.read.place
        || nat_lt n pair.now.write.place) }
{
    match first {
        None => false,
        Some(place) => place < pair.read.place || place < pair.write.place,
    }
}

/// What is before the pair of the port that isn't complete hasn't come far enough, if there is such
/// a pair.
fn has_to_wait(port: u8, ports: &PortCheck, system: &SysCheck) -> bool
    ensures { result ≡ true → (r : Recording) → portck.Stands ports.now r
        → sysck.Stands system.now r → HasToWait r.past port }
{
    let Some(pair) = system.open_pair(port) else {
        return false;
    };
    if pair.read.bar == 3 {
        is_before(ports.first_incomplete(port), &pair)
    } else {
        is_before(ports.first_unordered(port), &pair)
    }
}

impl Waiting {
    /// No barrier waits.
    pub fn none() -> Waiting
        ensures { (p : ℕ) → is_waiting result p ≡ false }
    {
        Waiting { ports: [false; 16] }
    }

    /// The port's barrier has to wait.
    #[inline(always)]
    pub fn has(&self, port: u8) -> bool
        ensures { result ≡ is_waiting self.now port }
    {
        let p = port as usize;
        if p < self.ports.len() {
            self.ports[p]
        } else {
            false
        }
    }

    /// Sets whether the port's barrier has to wait.
    fn set(&mut self, port: u8, waits: bool)
        ensures { self.new.ports ≡ slice_set self.old.ports port waits }
    {
        let p = port as usize;
        if p < self.ports.len() {
            self.ports[p] = waits;
        }
    }

    /// Hears the event, which the others have heard.
    #[inline(always)]
    pub fn hear(&mut self, event: &Event, ports: &PortCheck, system: &SysCheck)
        ensures { (h : Header) (past : Trace)
            → portck.Stands ports.now (record { header = h; past = event.now ∷ past })
            → sysck.Stands system.now (record { header = h; past = event.now ∷ past })
            → ((p : ℕ) → is_waiting self.old p ≡ true → HasToWait past p)
            → (p : ℕ) → is_waiting self.new p ≡ true → HasToWait (event.now ∷ past) p }
    {
        if let Some(port) = moved_port(event) {
            let waits = has_to_wait(port, ports, system);
            self.set(port, waits);
        }
    }
}
