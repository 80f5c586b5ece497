//! What became of the exclusive stores.

use std::alloc::{AllocError, Global};

/// For each port and identifier: whether the exclusive store that the port issued last under it
/// passed at its G. None where there is none, or it had no G. It has 256 places for each port of
/// the header.
#[derive(Drop)]
pub struct Results {
    passed: Vec<Option<bool>>,
}

impl Results {
    ghost use Rattle.std.specs.Prelude.{◌≡◌, [], IfOk, slice_set, Option, None};
    ghost use Rattle.ace_event.specs.declared.header.Header.{Header};
    ghost use Rattle.ace_model.specs.Exclusives.{passed_at_grant};
    ghost use Rattle.ace_portck.specs.Targets.{Recording};
    ghost use Rattle.ace_sysck.specs.Results.{ResultsStand, slot_of};

    /// The results of the empty trace, of so many ports.
    #[tactic(auto, using(crate::proofs::ResultSteps::results_fresh))]
    pub fn new(alloc: Global, ports: u8) -> Result<Results, AllocError>
        ensures { IfOk result (λ s. (h : Header) → h.ports ≡ ports
            → ResultsStand (record { header = h; past = [] }) s) }
    {
        let passed = vec![in alloc; None; usize::from(ports) * 256]?;
        Ok(Results { passed })
    }

    /// Whether the exclusive store that the port issued last under the identifier passed at its G.
    #[inline(always)]
    pub fn passed(&self, port: u8, id: u8) -> Option<bool>
        ensures { (r : Recording) → ResultsStand r self.now
            → result ≡ passed_at_grant r.past port id }
    {
        let slot = port as usize * 256 + id as usize;
        if slot < self.passed.len() {
            self.passed[slot]
        } else {
            None
        }
    }

    pub fn set(&mut self, port: u8, id: u8, passed: Option<bool>)
        ensures { self.new.passed.items ≡ slice_set self.old.passed.items (slot_of port id) passed }
    {
        let slot = port as usize * 256 + id as usize;
        if slot < self.passed.len() {
            self.passed[slot] = passed;
        }
    }

    /// The port issues a read under the identifier.
    #[inline(always)]
    pub fn begin(&mut self, port: u8, id: u8)
        ensures { self.new.passed.items ≡ slice_set self.old.passed.items (slot_of port id) None }
    {
        self.set(port, id, None);
    }
}
