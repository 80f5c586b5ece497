//! The ports whose last turn put no step.

ghost use Rattle.std.specs.Prelude.{◌≡◌, ◌&&◌, ◌==◌, ℕ, nat_lt, if◌then◌else◌, true, false};
ghost use Rattle.ace_fabric.specs.Idle.{is_idle};

/// Of how many ports it is kept: a right plan has no more.
const PORTS: usize = 16;

/// The ports of which a turn put no step, since when no event came. None of them is enabled, so
/// nothing need be asked for a turn of one.
#[derive(Clone, Copy)]
pub struct IdlePorts {
    ports: [bool; PORTS],
}

impl IdlePorts {
    /// No port.
    pub fn none() -> IdlePorts
        ensures { (p : ℕ) → is_idle result p ≡ false }
    {
        IdlePorts {
            ports: [false; PORTS],
        }
    }

    /// The port is one of them.
    pub fn has(&self, port: u8) -> bool
        ensures { result ≡ is_idle self.now port }
    {
        match self.ports.get(usize::from(port)) {
            Some(idle) => *idle,
            None => false,
        }
    }

    /// The port, of the 16 of which it is kept, is one more of them.
    pub fn add(&mut self, port: u8)
        ensures { (p : ℕ) → is_idle self.new p
            ≡ (if (p == port) && nat_lt p 16 then true else is_idle self.old p) }
    {
        if usize::from(port) < PORTS {
            self.ports[usize::from(port)] = true;
        }
    }
}
