//! What the clauses of several rules ask of a line: whether a transaction has its grant and passed
//! data, and whether the snoops under the grant are answered, whole, and of each holder.

ghost use Rattle.std.specs.Prelude.{◌≡◌, ◌||◌, ℕ, Some, is_none, not};
ghost use Rattle.std.specs.List.{list_all};
ghost use Rattle.ace_event.specs.declared.event.Channel.{Channel as Which};
ghost use Rattle.ace_model.specs.declared.transactions.Transaction.{Transaction as Issued};
ghost use Rattle.ace_model.specs.Exclusives.{has_failed};
ghost use Rattle.ace_model.specs.Grants.{granted, has_passed_data, is_granted, owes_answer, owes_data, ports_below};
ghost use Rattle.ace_model.specs.States.{are_snoops_done};
ghost use Rattle.ace_model.specs.Transactions.{outstanding, snoop_of};
ghost use Rattle.ace_portck.specs.Targets.{Recording};
ghost use Rattle.ace_lineck.specs.Stands.{Stands as LinesTell, place_on};
ghost use Rattle.ace_clauses.specs.ReadClauses.{are_holders_snooped, are_snoop_data_whole, are_snoops_answered, needs_no_snoop};

use ace_event::Header;
use ace_lineck::{LineCheck, snoop_of};
use ace_model::Transaction;
use ace_model::kinds::is_ace;
use ace_tables::is_invalid;

/// The transaction has the grant of its line.
pub(crate) fn is_granted(lines: &LineCheck, x: &Transaction) -> bool
    ensures { (r : Recording) → LinesTell lines.now r
        → result ≡ is_granted r.header r.past x.now }
{
    match lines.granted_transaction(lines.place(Some(x.addr))) {
        None => false,
        Some(y) => y.place == x.place,
    }
}

/// The outstanding transaction has passed data.
pub(crate) fn has_passed(lines: &LineCheck, x: &Transaction) -> bool
    ensures { (r : Recording) (p : ℕ) (c : Which) (i : ℕ) → LinesTell lines.now r
        → outstanding r.header r.past p c i ≡ Some x.now
        → result ≡ has_passed_data r.header r.past x.now }
{
    is_granted(lines, x) && lines.has_passed_data(lines.place(Some(x.addr)))
}

/// No port below this number owes an answer to its snoop under the grant of the line.
fn is_each_answered(lines: &LineCheck, place: Option<usize>, ports: u8) -> bool
    ensures { (r : Recording) (line : ℕ) (x : Issued) → LinesTell lines.now r
        → place ≡ place_on lines.now (Some line) → granted r.header r.past line ≡ Some x
        → result ≡ list_all (λ q. not (owes_answer r.past q line)) (ports_below ports) }
{
    let mut all = true;
    for port in 0..ports {
        all = !lines.owes_answer(place, port) && all;
    }
    all
}

/// No port below this number owes data that it announced under the grant of the line.
fn is_each_whole(lines: &LineCheck, place: Option<usize>, ports: u8) -> bool
    ensures { (r : Recording) (line : ℕ) (x : Issued) → LinesTell lines.now r
        → place ≡ place_on lines.now (Some line) → granted r.header r.past line ≡ Some x
        → result ≡ list_all (λ q. not (owes_data r.past q line)) (ports_below ports) }
{
    let mut all = true;
    for port in 0..ports {
        all = !lines.owes_data(place, port) && all;
    }
    all
}

/// The port is that of the granted transaction, or doesn't hold the line, or was snooped.
fn needs_no_snoop(lines: &LineCheck, header: &Header, x: &Transaction, port: u8) -> bool
    ensures { (r : Recording) → LinesTell lines.now r → header.now ≡ r.header
        → granted r.header r.past x.now.addr ≡ Some x.now
        → result ≡ needs_no_snoop r.header r.past x.now port }
{
    let place = lines.place(Some(x.addr));
    port == x.port
        || !is_ace(header, port)
        || is_invalid(lines.state(place, port))
        || lines.was_snooped(place, port)
}

/// No port needs a snoop under the grant of the transaction.
fn is_each_snooped(lines: &LineCheck, header: &Header, x: &Transaction) -> bool
    ensures { (r : Recording) → LinesTell lines.now r → header.now ≡ r.header
        → granted r.header r.past x.now.addr ≡ Some x.now
        → result ≡ list_all (needs_no_snoop r.header r.past x.now) (ports_below r.header.ports) }
{
    let mut all = true;
    for port in 0..header.ports {
        all = needs_no_snoop(lines, header, x, port) && all;
    }
    all
}

/// The transaction causes no snoops, or it is an exclusive store that failed.
fn is_without_snoops(x: &Transaction, failed: bool) -> bool
    ensures { (r : Recording) → failed ≡ has_failed r.past x.now
        → result ≡ (is_none (snoop_of x.now) || has_failed r.past x.now) }
{
    snoop_of(x).is_none() || failed
}

/// Each snoop under the grant of the transaction is answered. `failed` says whether it is an
/// exclusive store that failed.
pub(crate) fn are_snoops_answered(
    lines: &LineCheck,
    header: &Header,
    x: &Transaction,
    failed: bool,
) -> bool
    ensures { (r : Recording) → LinesTell lines.now r → header.now ≡ r.header
        → granted r.header r.past x.now.addr ≡ Some x.now → failed ≡ has_failed r.past x.now
        → result ≡ are_snoops_answered r.header r.past x.now }
{
    is_without_snoops(x, failed) || is_each_answered(lines, lines.place(Some(x.addr)), header.ports)
}

/// The data that answers under the grant of the transaction announce are whole.
pub(crate) fn are_snoop_data_whole(
    lines: &LineCheck,
    header: &Header,
    x: &Transaction,
    failed: bool,
) -> bool
    ensures { (r : Recording) → LinesTell lines.now r → header.now ≡ r.header
        → granted r.header r.past x.now.addr ≡ Some x.now → failed ≡ has_failed r.past x.now
        → result ≡ are_snoop_data_whole r.header r.past x.now }
{
    is_without_snoops(x, failed) || is_each_whole(lines, lines.place(Some(x.addr)), header.ports)
}

/// Each other ACE port that holds the line was snooped under the grant of the transaction.
pub(crate) fn are_holders_snooped(
    lines: &LineCheck,
    header: &Header,
    x: &Transaction,
    failed: bool,
) -> bool
    ensures { (r : Recording) → LinesTell lines.now r → header.now ≡ r.header
        → granted r.header r.past x.now.addr ≡ Some x.now → failed ≡ has_failed r.past x.now
        → result ≡ are_holders_snooped r.header r.past x.now }
{
    is_without_snoops(x, failed) || is_each_snooped(lines, header, x)
}

/// The snoops of the granted transaction are done.
pub(crate) fn are_snoops_done(
    lines: &LineCheck,
    header: &Header,
    x: &Transaction,
    failed: bool,
) -> bool
    ensures { (r : Recording) → LinesTell lines.now r → header.now ≡ r.header
        → granted r.header r.past x.now.addr ≡ Some x.now → failed ≡ has_failed r.past x.now
        → result ≡ are_snoops_done r.header r.past x.now }
{
    if !are_snoops_answered(lines, header, x, failed) {
        return false;
    }
    if !are_snoop_data_whole(lines, header, x, failed) {
        return false;
    }
    are_holders_snooped(lines, header, x, failed)
}
