//! Which of the steps for the transactions of a port comes first.

ghost use Rattle.std.specs.Prelude.{◌≡◌, true, false, Some};
ghost use Rattle.ace_home.specs.Turns.{goes_first, sooner};

use crate::service::Service;
use ace_model::Transaction;

/// An outstanding transaction, with a step for it.
#[derive(Clone, Copy, Debug, PartialEq, Eq)]
pub struct Due {
    pub transaction: Transaction,
    pub service: Service,
}

impl Due {
    /// Its step has the lesser number, or has the same number and the older transaction.
    fn goes_first(&self, other: &Due) -> bool
        ensures { result ≡ goes_first self.now other.now }
    {
        let own = self.service.number();
        let others = other.service.number();
        if own == others {
            return self.transaction.place < other.transaction.place;
        }
        own < others
    }
}

/// There is a first one, and it goes before the other.
fn stays(first: &Option<Due>, next: &Due) -> bool
    ensures yes { result ≡ true → sooner first.now (Some next.now) ≡ first.now }
    ensures no { result ≡ false → sooner first.now (Some next.now) ≡ Some next.now }
{
    match first {
        Some(first) => first.goes_first(next),
        None => false,
    }
}

/// The other one takes the place of the first, unless that goes before it.
pub fn put_sooner(first: &mut Option<Due>, next: Due)
    ensures { first.new ≡ sooner first.old (Some next) }
{
    if !stays(first, &next) {
        *first = Some(next);
    }
}
