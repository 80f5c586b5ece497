// Plans: what the masters of a run are to do.

use ace_codes::ArKind;
use ace_event::{Header, Line};
use ace_io::NoMemory;
use std::alloc::Global;
use std::marker::Model;

/// An operation of a script. `addr` is the address of a line, a multiple of 64; `w` is the number
/// of a word of it, from 0 to 3; bit n of a strobe belongs to byte n of the line. The words of the
/// DVM operations are DVM messages (Arm IHI 0022E, C12.3).
#[derive(Clone, Copy, Debug, PartialEq, Eq)]
pub enum Op {
    /// A load of a word.
    Ld { addr: u32, w: u8 },
    /// An exclusive load of a word.
    Ldx { addr: u32, w: u8 },
    /// A store of a word.
    St { addr: u32, w: u8, word: u128 },
    /// An exclusive store of a word.
    Stx { addr: u32, w: u8, word: u128 },
    /// A store of a whole line.
    Fill { addr: u32, line: Line },
    /// A read of a line ahead, by ReadShared, ReadClean, ReadNotSharedDirty or ReadUnique.
    Pf { addr: u32, kind: ArKind },
    /// A WriteBack.
    Wb { addr: u32 },
    /// A WriteClean.
    Wc { addr: u32 },
    /// An Evict.
    Ev { addr: u32 },
    /// A WriteEvict.
    We { addr: u32 },
    /// A ReadOnce.
    Ro { addr: u32 },
    /// A CleanShared.
    Cs { addr: u32 },
    /// A CleanInvalid.
    Ci { addr: u32 },
    /// A MakeInvalid.
    Mi { addr: u32 },
    /// A ReadNoSnoop.
    Rn { addr: u32 },
    /// A WriteUnique.
    Wu { addr: u32, strobe: u64, line: Line },
    /// A WriteLineUnique.
    Wlu { addr: u32, line: Line },
    /// A WriteNoSnoop.
    Wn { addr: u32, strobe: u64, line: Line },
    /// A memory barrier.
    Mb,
    /// A synchronisation barrier.
    Sb,
    /// A DVM message of one part, no Sync.
    Dvm { word: u32 },
    /// A DVM Sync.
    Sync { word: u32 },
    /// A DVM message of two parts, with the words of the first and the second.
    Dvm2 { word: u32, second: u32 },
}

impl Op {
    ghost use Rattle.std.specs.Prelude.{◌≡◌};
    ghost use Rattle.ace_model.specs.Plans.{line_named, wants_no_snoop, is_lite_operation};

    /// The address of the line that the operation names, where it names one.
    pub fn line(self) -> Option<u32>
        ensures { result ≡ line_named self }
    {
        match self {
            Op::Ld { addr, .. } | Op::Ldx { addr, .. } => Some(addr),
            Op::St { addr, .. } | Op::Stx { addr, .. } | Op::Fill { addr, .. } => Some(addr),
            Op::Pf { addr, .. } | Op::Wb { addr } | Op::Wc { addr } => Some(addr),
            Op::Ev { addr } | Op::We { addr } | Op::Ro { addr } | Op::Cs { addr } => Some(addr),
            Op::Ci { addr } | Op::Mi { addr } | Op::Rn { addr } => Some(addr),
            Op::Wu { addr, .. } | Op::Wlu { addr, .. } | Op::Wn { addr, .. } => Some(addr),
            Op::Mb | Op::Sb | Op::Dvm { .. } | Op::Sync { .. } | Op::Dvm2 { .. } => None,
        }
    }

    /// Whether it accesses its line without a snoop.
    pub fn wants_no_snoop(self) -> bool
        ensures { result ≡ wants_no_snoop self }
    {
        matches!(self, Op::Rn { .. } | Op::Wn { .. })
    }

    /// Whether an ACE-Lite port can be asked to do it.
    pub fn is_for_lite(self) -> bool
        ensures { result ≡ is_lite_operation self }
    {
        match self {
            Op::Ro { .. } | Op::Cs { .. } | Op::Ci { .. } | Op::Mi { .. } | Op::Rn { .. } => true,
            Op::Wu { .. } | Op::Wlu { .. } | Op::Wn { .. } | Op::Mb | Op::Sb => true,
            _ => false,
        }
    }
}

/// An operation, and the port that does it.
#[derive(Clone, Copy, Debug, PartialEq, Eq)]
pub struct PlanOp {
    pub port: u8,
    pub op: Op,
}

/// How the masters of a run answer snoops. `Mixed` has the number from which each draws its
/// answers.
#[derive(Clone, Copy, Debug, PartialEq, Eq)]
pub enum PolicyWord {
    Keep,
    Eager,
    Mixed(u64),
}

/// A plan: a header, the number of lines that each cache holds, how snoops are answered, and a list
/// of at most 4,096 operations. Beside them it has a room: so many more operations can be pushed,
/// for which there is memory.
#[derive(Drop)]
pub struct PlanView {
    header: Header,
    ways: u8,
    policy: PolicyWord,
    operations: Vec<PlanOp>,
    room: u16,
}

impl Model for PlanView {
    ghost use Rattle.std.specs.Prelude.{◌<◌, ◌≤◌, ◌+◌, length, vec_capacity};
    ghost use Rattle.ace_model.specs.Plans.{PlanWithRoom};

    ghost Value = { PlanWithRoom };

    ghost view = { λ p. record {
      plan = record {
        header = p.header;
        ways = p.ways;
        policy = p.policy;
        operations = p.operations.items;
      };
      room = p.room;
    } };

    ghost invariant = { λ p. (length p.operations.items + p.room ≤ 4096)
        × (0 < p.room → length p.operations.items + p.room ≤ vec_capacity p.operations) };
}

impl PlanView {
    ghost use Rattle.std.specs.Prelude.{◌≡◌, ◌≢◌, ◌<◌, ◌≤◌, ◌+◌, ◌-◌, [], Some, length, slice_get, OnOk, OnErr, IfOk};
    ghost use Rattle.ace_model.specs.Plans.{longer, most_operations};

    /// A plan without operations, and without room. It takes no memory.
    pub fn new(alloc: Global, header: Header, ways: u8, policy: PolicyWord) -> PlanView
        ensures { result ≡ record {
          plan = record {
            header = header;
            ways = ways;
            policy = policy;
            operations = [];
          };
          room = 0;
        } }
    {
        PlanView {
            header,
            ways,
            policy,
            operations: Vec::new(alloc),
            room: 0,
        }
    }

    /// A plan without operations, with room for 1 to 4,096.
    ///
    /// # Errors
    ///
    /// `NoMemory` where there is none for that many operations.
    pub fn with_room(
        alloc: Global,
        header: Header,
        ways: u8,
        policy: PolicyWord,
        room: u16,
    ) -> Result<PlanView, NoMemory>
        requires some { 1 ≤ room }
        requires most { room ≤ most_operations }
        ensures { IfOk result (λ view. view ≡ record {
          plan = record {
            header = header;
            ways = ways;
            policy = policy;
            operations = [];
          };
          room = room;
        }) }
    {
        let operations = Vec::with_capacity(alloc, usize::from(room)).map_err(|_| NoMemory)?;
        Ok(PlanView {
            header,
            ways,
            policy,
            operations,
            room,
        })
    }

    pub fn header(&self) -> Header
        ensures { result ≡ self.now.plan.header }
    {
        self.header
    }

    /// The number of lines that each cache holds.
    pub fn ways(&self) -> u8
        ensures { result ≡ self.now.plan.ways }
    {
        self.ways
    }

    pub fn policy(&self) -> PolicyWord
        ensures { result ≡ self.now.plan.policy }
    {
        self.policy
    }

    /// How many operations it has. With the room they are at most 4,096.
    pub fn count(&self) -> u16
        ensures value { result ≡ length self.now.plan.operations }
        ensures bound { length self.now.plan.operations + self.now.room ≤ most_operations }
    {
        self.operations.len() as u16
    }

    /// How many operations can be pushed.
    pub fn room(&self) -> u16
        ensures value { result ≡ self.now.room }
        ensures bound { length self.now.plan.operations + self.now.room ≤ most_operations }
    {
        self.room
    }

    /// The operation with this number, from 0.
    pub fn get(&self, i: u16) -> PlanOp
        requires { i < length self.now.plan.operations }
        ensures { slice_get self.now.plan.operations i ≡ Some result }
    {
        self.operations[usize::from(i)]
    }

    /// The operations, in order.
    pub fn operations(&self) -> &[PlanOp]
        ensures { result.now ≡ self.now.plan.operations }
    {
        &self.operations
    }

    /// Puts the operation at the end of a plan that has no room.
    ///
    /// # Errors
    ///
    /// `NoMemory` where there is none for one more operation. The plan is unchanged then.
    pub fn add(&mut self, op: PlanOp) -> Result<(), NoMemory>
        requires few { length self.old.plan.operations < most_operations }
        requires no_room { self.old.room ≡ 0 }
        ensures ok { OnOk result (self.new ≡ record self.old { plan = longer self.old.plan op }) }
        ensures err { OnErr result (self.new ≡ self.old) }
    {
        match self.operations.push(op) {
            Ok(()) => Ok(()),
            Err(_) => Err(NoMemory),
        }
    }

    /// Puts the operation at the end, and takes one from the room. It takes no memory.
    pub fn push(&mut self, op: PlanOp)
        requires { self.old.room ≢ 0 }
        ensures value { self.new ≡ record {
          plan = longer self.old.plan op;
          room = self.old.room - 1;
        } }
        ensures few { length self.old.plan.operations < most_operations }
    {
        self.operations.push_reserved(op);
        self.room -= 1;
    }
}
