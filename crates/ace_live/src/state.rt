// A system between two calls of its ports.

ghost use Rattle.std.specs.Prelude.{◌≡◌, ◌<◌, ◌≤◌, ◌+◌, ◌++◌, true, [], ◌∷◌, length, IfOk};
ghost use Rattle.ace_event.specs.Ports.{IsHeader};
ghost use Rattle.ace_history.specs.Histories.{IsLegalHistory, plan_with};
ghost use Rattle.ace_history.specs.Settled.{is_call};
ghost use Rattle.ace_model.specs.Plans.{is_in_range, most_operations};
ghost use Rattle.ace_runs.specs.Follows.{Done};
ghost use Rattle.ace_live.specs.Entries.{IsEntryOf};
ghost use Rattle.ace_live.specs.Running.{Running, blank, header_of, running};

use ace_event::Header;
use ace_fabric::System;
use ace_history::{Entry, last_entry, rest_fits};
use ace_io::NoMemory;
use ace_model::{Op, PolicyWord};
use ace_script::Plan;
use std::alloc::Global;
use std::marker::Model;

/// A system of ACE ports whose calls so far are done, and the history of these calls.
#[derive(Drop)]
pub struct LiveState {
    system: System,
}

impl Model for LiveState {
    ghost use Rattle.ace_live.specs.Running.{IsLive, Running, running};

    ghost Value = { Running };

    ghost view = { λ s. running s.system };

    ghost invariant = { λ s. IsLive s.system };
}

/// The header of version 1 with so many ACE ports.
fn ace_ports(ports: u8) -> Header
    requires { ports ≤ 8 }
    ensures { result ≡ header_of ports }
{
    Header {
        version: 1,
        ports,
        ace: (1u32 << ports) - 1,
    }
}

/// The same, which is a header of a script.
fn header_of(ports: u8) -> Header
    requires some { 1 ≤ ports }
    requires most { ports ≤ 8 }
    ensures value { result ≡ header_of ports }
    ensures right { IsHeader result }
{
    ace_ports(ports)
}

impl LiveState {
    /// A system of so many ACE ports, with room for so many calls.
    ///
    /// # Errors
    ///
    /// `NoMemory` where there is none for them.
    pub fn new(
        alloc: Global,
        ports: u8,
        ways: u8,
        policy: PolicyWord,
        room: u16,
    ) -> Result<LiveState, NoMemory>
        requires some_port { 1 ≤ ports }
        requires most_ports { ports ≤ 8 }
        requires some_way { 1 ≤ ways }
        requires most_ways { ways ≤ 32 }
        requires some_room { 1 ≤ room }
        requires most_room { room ≤ most_operations }
        ensures { IfOk result (λ s. s ≡ record {
          setting = record { ports = ports; ways = ways; policy = policy; room = room };
          history = [];
        }) }
    {
        let plan = Plan::blank(alloc, header_of(ports), ways, policy, room)?;
        let started = System::start(alloc, &plan);
        drop(plan);
        let system = started?;
        Ok(LiveState { system })
    }

    /// How many calls were made. The history of them is legal.
    pub fn used(&self) -> u16
        ensures value { result ≡ length self.now.history }
        ensures legal { IsLegalHistory (blank self.now.setting) self.now.history }
    {
        self.system.keeps();
        self.system.plan().view().count()
    }

    /// How many more can be made.
    pub fn room(&self) -> u16
        ensures { length self.now.history + result ≡ self.now.setting.room }
    {
        self.system.plan().room()
    }

    /// The port does the operation, a load, a store or a WriteBack. The answer is the one entry by
    /// which the history is longer. It takes no memory.
    pub fn call(&mut self, port: u8, op: Op) -> Entry
        requires port { port < self.old.setting.ports }
        requires room { length self.old.history < self.old.setting.room }
        requires call { is_call op ≡ true }
        requires range { is_in_range op ≡ true }
        ensures value { self.new ≡ record self.old { history = self.old.history ++ result ∷ [] } }
        ensures call { IsEntryOf port op result }
        ensures legal { IsLegalHistory (blank self.new.setting) self.new.history }
    {
        self.system.keeps();
        let before = self.system.trace().len();
        self.system.push(port, op);
        self.system.drain();
        self.system.keeps();
        rest_fits(self.system.trace(), before);
        last_entry(self.system.trace(), port, op)
    }

    /// The system, which is done, with the same history: that of the plan with these calls. The
    /// history is legal.
    pub fn end(self) -> System
        ensures value { running result ≡ self }
        ensures plan { result.plan ≡ plan_with (blank self.setting) self.history }
        ensures done { Done result.plan result.past }
        ensures legal { IsLegalHistory (blank self.setting) self.history }
    {
        self.system.keeps();
        self.system
    }
}
