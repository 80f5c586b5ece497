//! What a port has done for its next operation.

ghost use Rattle.std.specs.Prelude.{◌≡◌, ◌∷◌, ◌<◌, ◌≤◌, ℕ, [], IfOk, Some, length, vec_capacity};
ghost use Rattle.ace_model.specs.Plans.{Plan};
ghost use Rattle.ace_model.specs.declared.transactions.Transaction.{Transaction};
ghost use Rattle.ace_model.specs.Trace.{Trace, more, option_filter};
ghost use Rattle.ace_runs.specs.Counts.{is_retirement};
ghost use Rattle.ace_runs.specs.Segments.{acts_made, is_for_operation, segment};
ghost use Rattle.ace_engine.specs.Engines.{IsLegal};
ghost use Rattle.ace_master_state.specs.Segment.{SegmentStands};

use crate::acts::is_act;
use ace_codes::ArKind;
use ace_event::Event;
use ace_io::NoMemory;
use ace_model::Transaction;
use ace_model::kinds::read_kind;
use ace_portck::{is_at, issued};
use std::alloc::Global;

/// The most transactions that a port issues for an operation.
const MOST: usize = 3;

/// The transactions that a port has issued for its next operation, in order, and how many acts it
/// has made for it.
#[derive(Drop)]
pub struct Segment {
    port: u8,
    issued: Vec<Transaction>,
    acts: u8,
}

/// The port issued it for an operation: it is no DVM Complete.
fn is_for_operation(transaction: &Transaction, port: u8) -> bool
    ensures { result ≡ is_for_operation port transaction.now }
{
    let kind = read_kind(transaction);
    transaction.port == port && !kind.is_some_and(|k| matches!(k, ArKind::DvmComplete))
}

/// The event is an OP.
fn is_retirement(event: &Event) -> bool
    ensures { result ≡ is_retirement event.now }
{
    matches!(event, Event::Op { .. })
}

impl Segment {
    /// The port of the empty trace.
    ///
    /// # Errors
    ///
    /// `NoMemory` where there is none for three transactions.
    pub fn new(alloc: Global, port: u8) -> Result<Segment, NoMemory>
        ensures { IfOk result (λ s. SegmentStands [] port s) }
    {
        match Vec::with_capacity(alloc, MOST) {
            Ok(issued) => Ok(Segment {
                port,
                issued,
                acts: 0,
            }),
            Err(_) => Err(NoMemory),
        }
    }

    /// The transactions that the port has issued for its next operation, in order.
    pub fn issued(&self) -> &[Transaction]
        ensures { (past : Trace) (p : ℕ) → SegmentStands past p self.now
            → result.now ≡ segment past p }
    {
        &self.issued
    }

    /// How many acts it has made for it.
    pub fn acts(&self) -> u8
        ensures { (past : Trace) (p : ℕ) → SegmentStands past p self.now
            → result ≡ acts_made past p }
    {
        self.acts
    }

    /// Adds the transaction, if it is one for an operation of the port.
    fn add(&mut self, begun: Option<Transaction>)
        ensures issued { ((x : Transaction) → option_filter (is_for_operation self.old.port) begun
            ≡ Some x → length self.old.issued.items < vec_capacity self.old.issued)
            → self.new.issued.items ≡ more self.old.issued.items
            (option_filter (is_for_operation self.old.port) begun) }
        ensures room { vec_capacity self.old.issued ≤ vec_capacity self.new.issued }
        ensures port { self.new.port ≡ self.old.port }
        ensures acts { self.new.acts ≡ self.old.acts }
    {
        if let Some(transaction) = begun {
            if is_for_operation(&transaction, self.port) {
                let _full = self.issued.push(transaction);
            }
        }
    }

    /// Hears the next event of the trace, which has this place.
    pub fn hear(&mut self, event: &Event, place: usize)
        ensures { (plan : Plan) (past : Trace) (p : ℕ) → IsLegal plan (event.now ∷ past)
            → place ≡ length past → SegmentStands past p self.old
            → SegmentStands (event.now ∷ past) p self.new }
    {
        if !is_at(event, self.port) {
            return;
        }
        if is_retirement(event) {
            self.issued.clear();
            self.acts = 0;
            return;
        }
        self.add(issued(place, event));
        if is_act(event) {
            self.acts = self.acts.wrapping_add(1);
        }
    }
}
