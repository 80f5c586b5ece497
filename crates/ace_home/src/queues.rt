//! Who waits for a line.

ghost use Rattle.std.specs.Prelude.{◌≡◌, ◌<◌, ℕ, true, false, None, Some, map, slice_get};
ghost use Rattle.ace_model.specs.declared.transactions.Transaction.{Transaction as Issued};
ghost use Rattle.ace_model.specs.Grants.{granted};
ghost use Rattle.ace_model.specs.Plans.{Plan};
ghost use Rattle.ace_model.specs.Trace.{Trace};
ghost use Rattle.ace_runs.specs.LineSteps.{is_first_to_wait};
ghost use Rattle.ace_portck.specs.Pending.{pending_of};
ghost use Rattle.ace_portck.specs.Targets.{progress_of};
ghost use Rattle.ace_home.specs.Home.{HomeStands, IsOf, goes_before, grant_of};

use crate::home::Home;
use ace_event::{Channel, Event};
use ace_model::Transaction;
use ace_model::kinds::is_on;
use ace_portck::Progress;

/// The G of the transaction.
pub fn grant_of(x: &Transaction) -> Event
    ensures { result ≡ grant_of x.now }
{
    Event::G {
        port: x.port,
        chan: x.chan,
        id: x.id,
    }
}

impl Home {
    /// The outstanding transactions of the port on the channel, in the order of issue.
    pub(crate) fn queue(&self, port: u8, chan: Channel) -> &[Progress]
        ensures { (plan : Plan) (past : Trace) → HomeStands self.now plan past
            → result.now ≡ map (progress_of plan.header past)
            (pending_of plan.header past port chan) }
    {
        match chan {
            Channel::Read => self.shares.ports().reads(port),
            Channel::Write => self.shares.ports().writes(port),
        }
    }

    /// It may be granted the line of the other one, and is older.
    fn goes_before(&self, y: &Transaction, x: &Transaction) -> bool
        ensures { (plan : Plan) (past : Trace) → HomeStands self.now plan past
            → result ≡ goes_before plan.header past y.now x.now }
    {
        if !is_on(y, x.addr) {
            return false;
        }
        if y.place >= x.place {
            return false;
        }
        self.shares.keeps(&grant_of(y))
    }

    /// An outstanding transaction of the port on the channel goes before it.
    fn has_older(&self, port: u8, chan: Channel, x: &Transaction) -> bool
        ensures found { result ≡ true → (plan : Plan) (past : Trace) → HomeStands self.now plan past
            → (y : Issued) × IsOf plan.header past port y
            × (goes_before plan.header past y x.now ≡ true) }
        ensures none { result ≡ false → (plan : Plan) (past : Trace) (k : ℕ) (y : Issued)
            → HomeStands self.now plan past
            → slice_get (pending_of plan.header past port chan) k ≡ Some y
            → goes_before plan.header past y x.now ≡ false }
    {
        let queue = self.queue(port, chan);
        for i in 0..queue.len() {
            if self.goes_before(&queue[i].transaction, x) {
                return true;
            }
        }
        false
    }

    /// An outstanding transaction of the port goes before it. Only a port that may name the line is
    /// asked for one.
    #[inline(always)]
    fn has_older_at(&self, port: u8, x: &Transaction) -> bool
        ensures found { result ≡ true → (plan : Plan) (past : Trace) → HomeStands self.now plan past
            → (y : Issued) × IsOf plan.header past port y
            × (goes_before plan.header past y x.now ≡ true) }
        ensures none { result ≡ false → (plan : Plan) (past : Trace) (y : Issued)
            → HomeStands self.now plan past → IsOf plan.header past port y
            → goes_before plan.header past y x.now ≡ false }
    {
        if !self.users.of(x.addr).has(port) {
            return false;
        }
        if self.has_older(port, Channel::Read, x) {
            return true;
        }
        self.has_older(port, Channel::Write, x)
    }

    /// No older transaction waits for the line, which isn't granted, but for those that barriers
    /// hold.
    pub(crate) fn is_first_to_wait(&self, x: &Transaction) -> bool
        ensures { (plan : Plan) (past : Trace) → HomeStands self.now plan past
            → granted plan.header past x.now.addr ≡ None
            → result ≡ is_first_to_wait plan.header past x.now }
    {
        for port in 0..self.header.ports {
            if self.has_older_at(port, x) {
                return false;
            }
        }
        true
    }
}
