//! The steps that serve a line.

use ace_event::Event;

/// A step for a transaction, with the first event of its burst, which breaks no rule. Which ports
/// are snooped is asked when they are.
#[derive(Clone, Copy, Debug, PartialEq, Eq)]
pub enum Service {
    /// Its G.
    Grant(Event),
    /// The AC of each port that may be snooped for it.
    Snoops,
    /// The M of passed data that the read can't take.
    Passed(Event),
    /// The next R of the read.
    Transfer(Event),
    /// The M of the write, with its B after it.
    Write(Event),
}

impl Service {
    ghost use Rattle.std.specs.Prelude.{◌≡◌};
    ghost use Rattle.ace_home.specs.Services.{first_of, number_of, responds};

    /// The number of the step.
    pub fn number(&self) -> u8
        ensures { result ≡ number_of self.now }
    {
        match self {
            Service::Grant(_) => 5,
            Service::Snoops => 6,
            Service::Passed(_) => 7,
            Service::Transfer(_) => 8,
            Service::Write(_) => 9,
        }
    }

    /// The first event of the burst.
    pub fn first(&self) -> Option<Event>
        ensures { result ≡ first_of self.now }
    {
        match *self {
            Service::Snoops => None,
            Service::Grant(event)
            | Service::Passed(event)
            | Service::Transfer(event)
            | Service::Write(event) => Some(event),
        }
    }

    /// A response comes after the first event.
    pub fn responds(&self) -> bool
        ensures { result ≡ responds self.now }
    {
        matches!(self, Service::Write(_))
    }
}
