//! The operations of one port.

ghost use Rattle.std.specs.Prelude.{◌≡◌, ◌<◌, ◌++◌, ◌∷◌, [], IfOk, length, slice_get};
ghost use Rattle.ace_model.specs.Plans.{most_operations};
ghost use Rattle.ace_runs.specs.Operations.{operations_of};

use ace_io::NoMemory;
use ace_model::{Op, PlanView};
use std::alloc::Global;
use std::marker::Model;

/// The most operations of a plan.
const MOST: usize = 4096;

/// The operations of a port, in order, with memory for as many as a plan can have.
#[derive(Drop)]
pub struct PortOperations {
    list: Vec<Op>,
}

impl Model for PortOperations {
    ghost use Rattle.std.specs.Prelude.{◌≤◌, vec_capacity};
    ghost use Rattle.ace_master.specs.PortOperations.{Operations};

    ghost Value = { Operations };

    ghost view = { λ s. record { items = s.list.items } };

    ghost invariant = { λ s. 4096 ≤ vec_capacity s.list };
}

impl PortOperations {
    /// The port's operations of the plan.
    ///
    /// # Errors
    ///
    /// `NoMemory` where there is none for as many as a plan can have.
    pub fn new(alloc: Global, plan: &PlanView, port: u8) -> Result<PortOperations, NoMemory>
        ensures { IfOk result (λ operations. operations.items ≡ operations_of plan.now.plan port) }
    {
        let mut list = Vec::with_capacity(alloc, MOST).map_err(|_| NoMemory)?;
        for planned in plan.operations() {
            if planned.port == port {
                list.push(planned.op).map_err(|_| NoMemory)?;
            }
        }
        Ok(PortOperations { list })
    }

    /// The operation with this number, from 0.
    pub fn get(&self, number: usize) -> Option<Op>
        ensures { result ≡ slice_get self.now.items number }
    {
        if number < self.list.len() {
            Some(self.list[number])
        } else {
            None
        }
    }

    /// Puts the operation at the end. It takes no memory.
    pub fn push(&mut self, op: Op)
        requires { length self.old.items < most_operations }
        ensures { self.new.items ≡ self.old.items ++ op ∷ [] }
    {
        self.list.push_reserved(op);
    }
}
