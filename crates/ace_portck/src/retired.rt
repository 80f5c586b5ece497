//! The operations of one port that retired.

ghost use Rattle.std.specs.Prelude.{◌≡◌, ◌∷◌, ℕ, []};
ghost use Rattle.ace_event.specs.declared.header.Header.{Header};
ghost use Rattle.ace_model.specs.OrderRules.{retired};
ghost use Rattle.ace_model.specs.Trace.{Trace};
ghost use Rattle.ace_portck.specs.Heard.{IsHeard};
ghost use Rattle.ace_portck.specs.Retired.{RetiredStand};

use ace_event::Event;

/// How many operations of one port retired.
#[derive(Clone, Copy, Debug, PartialEq, Eq)]
pub struct RetiredCount {
    /// The number of the port's next OP. It can be one more than the greatest number that an OP can
    /// have.
    next: u32,
}

impl RetiredCount {
    /// The count of a port without events.
    pub fn new() -> RetiredCount
        ensures { (p : ℕ) → RetiredStand [] p result }
    {
        RetiredCount { next: 0 }
    }

    /// How many retired.
    pub fn next(&self) -> u32
        ensures { (past : Trace) (p : ℕ) → RetiredStand past p self.now → result ≡ retired past p }
    {
        self.next
    }

    /// Hears an event of the port that keeps the rules.
    #[inline(always)]
    pub fn hear(&mut self, event: &Event)
        ensures { (h : Header) (past : Trace) (place p : ℕ) → IsHeard h past place event.now p
            → RetiredStand past p self.old
            → RetiredStand (event.now ∷ past) p self.new }
    {
        if let Event::Op { k, .. } = *event {
            self.next = u32::from(k) + 1;
        }
    }
}
