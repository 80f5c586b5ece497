//! What there is to tell of a line and a port, for who explains why an event can't be: the port's
//! state and copy, the granted transaction, and how far the port's snoop under its grant has come.

ghost use Rattle.std.specs.Prelude.{◌≡◌, option_map};
ghost use Rattle.ace_model.specs.Trace.{is_some_and};
ghost use Rattle.ace_lineck.specs.Grants.{stage_under};

use crate::LineCheck;
use crate::grant::Grant;
use crate::grant_rules::is_unsnooped;
use crate::stages::{Stage, stage_at};
use ace_codes::LineState;
use ace_event::Line;
use ace_model::Transaction;

/// The granted transaction.
fn transaction_of(grant: &Option<Grant>) -> Option<Transaction>
    ensures { result ≡ option_map (λ g. g.transaction) grant.now }
{
    match grant {
        None => None,
        Some(g) => Some(g.transaction),
    }
}

/// There is a granted transaction, and it has begun.
fn is_begun_under(grant: &Option<Grant>) -> bool
    ensures { result ≡ is_some_and grant.now (λ g. g.begun) }
{
    match grant {
        None => false,
        Some(g) => g.begun,
    }
}

/// How far the snoop of the port has come.
fn stage_under(grant: &Option<Grant>, port: u8) -> Stage
    ensures { result ≡ stage_under grant.now port }
{
    match grant {
        None => Stage::Unsnooped,
        Some(g) => stage_at(&g.stages, port),
    }
}

impl LineCheck {
    ghost use Rattle.std.specs.Prelude.{◌≡◌, ℕ, Some};
    ghost use Rattle.ace_model.specs.declared.transactions.Transaction.{Transaction as Issued};
    ghost use Rattle.ace_model.specs.Copies.{copy_of};
    ghost use Rattle.ace_model.specs.Grants.{granted, is_begun, owes_answer, owes_data, was_snooped};
    ghost use Rattle.ace_model.specs.States.{state_of};
    ghost use Rattle.ace_portck.specs.Targets.{Recording};
    ghost use Rattle.ace_lineck.specs.Grants.{stage_of};
    ghost use Rattle.ace_lineck.specs.Stands.{Stands, place_on};

    /// The state in which the port has the line.
    pub fn state(&self, place: Option<usize>, port: u8) -> LineState
        ensures { (r : Recording) (line : ℕ) → Stands self.now r
            → place ≡ place_on self.now (Some line) → result ≡ state_of r.header r.past port line }
    {
        self.record(place).state(port)
    }

    /// The port's copy of the line.
    pub fn copy(&self, place: Option<usize>, port: u8) -> Line
        ensures { (r : Recording) (line : ℕ) → Stands self.now r
            → place ≡ place_on self.now (Some line) → result ≡ copy_of r.past port line }
    {
        self.record(place).copy(port)
    }

    /// The transaction that is granted on the line.
    pub fn granted_transaction(&self, place: Option<usize>) -> Option<Transaction>
        ensures { (r : Recording) (line : ℕ) → Stands self.now r
            → place ≡ place_on self.now (Some line) → result ≡ granted r.header r.past line }
    {
        transaction_of(&self.record(place).grant)
    }

    /// A transaction is granted on the line, and has had its first R or, if it is a write, its M.
    pub fn is_begun(&self, place: Option<usize>) -> bool
        ensures { (r : Recording) (line : ℕ) → Stands self.now r
            → place ≡ place_on self.now (Some line)
            → result ≡ is_some_and (granted r.header r.past line) (is_begun r.past) }
    {
        is_begun_under(&self.record(place).grant)
    }

    /// How far the snoop of the port under the grant of the line has come.
    fn stage(&self, place: Option<usize>, port: u8) -> Stage
        ensures { (r : Recording) (line : ℕ) (x : Issued) → Stands self.now r
            → place ≡ place_on self.now (Some line) → granted r.header r.past line ≡ Some x
            → result ≡ stage_of r.past port line }
    {
        stage_under(&self.record(place).grant, port)
    }

    /// Whether the port was snooped under the grant of the line.
    pub fn was_snooped(&self, place: Option<usize>, port: u8) -> bool
        ensures { (r : Recording) (line : ℕ) (x : Issued) → Stands self.now r
            → place ≡ place_on self.now (Some line) → granted r.header r.past line ≡ Some x
            → result ≡ was_snooped r.past port line }
    {
        !is_unsnooped(self.stage(place, port))
    }

    /// Whether the port's snoop under the grant of the line is unanswered.
    pub fn owes_answer(&self, place: Option<usize>, port: u8) -> bool
        ensures { (r : Recording) (line : ℕ) (x : Issued) → Stands self.now r
            → place ≡ place_on self.now (Some line) → granted r.header r.past line ≡ Some x
            → result ≡ owes_answer r.past port line }
    {
        matches!(self.stage(place, port), Stage::Unanswered)
    }

    /// Whether the port's answer under the grant of the line announced data that aren't whole.
    pub fn owes_data(&self, place: Option<usize>, port: u8) -> bool
        ensures { (r : Recording) (line : ℕ) (x : Issued) → Stands self.now r
            → place ≡ place_on self.now (Some line) → granted r.header r.past line ≡ Some x
            → result ≡ owes_data r.past port line }
    {
        matches!(self.stage(place, port), Stage::Sending)
    }
}
