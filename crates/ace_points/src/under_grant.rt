// What came under the grant of a transaction.
ghost use Rattle.std.specs.Prelude.{◌≡◌, IfSome, Some};
ghost use Rattle.ace_lineck.specs.Stands.{Stands as LinesTell};
ghost use Rattle.ace_model.specs.Grants.{granted};
ghost use Rattle.ace_points.specs.Asked.{gets_word, has_snooped, is_told, under_grant};
ghost use Rattle.ace_points.specs.Situations.{gets_passed};
ghost use Rattle.ace_portck.specs.Targets.{Recording};

use crate::line_words::has_word;
use crate::other_ports::some_snooped;
use ace_event::Header;
use ace_lineck::{LineCheck, is_line_read_transaction};
use ace_model::Transaction;
use ace_portck::Progress;

/// The transaction that is granted on the line, where it is this one.
fn under_grant(lines: &LineCheck, x: &Transaction) -> Option<Transaction>
    ensures is { (r : Recording) → LinesTell lines.now r
        → result ≡ under_grant r.header r.past x.now }
    ensures granted { (r : Recording) → LinesTell lines.now r
        → IfSome result (λ y. granted r.header r.past x.now.addr ≡ Some y) }
{
    match lines.granted_transaction(lines.place(Some(x.addr))) {
        Some(y) if y.place == x.place => Some(y),
        _ => None,
    }
}

/// A port was snooped under the grant of the transaction.
pub(crate) fn has_snooped(lines: &LineCheck, header: &Header, x: &Transaction) -> bool
    ensures { (r : Recording) → LinesTell lines.now r → header.now ≡ r.header
        → result ≡ has_snooped r.header r.past x.now }
{
    match under_grant(lines, x) {
        Some(_) => some_snooped(lines, lines.place(Some(x.addr)), header.ports),
        None => false,
    }
}

/// The transaction has passed data, or an answer under its grant has IsShared.
pub(crate) fn is_told(lines: &LineCheck, x: &Transaction) -> bool
    ensures { (r : Recording) → LinesTell lines.now r → result ≡ is_told r.header r.past x.now }
{
    let place = lines.place(Some(x.addr));
    match under_grant(lines, x) {
        Some(_) => lines.has_passed_data(place) || lines.has_sharer(place),
        None => false,
    }
}

/// The reply of the read has another word than 0 next.
pub(crate) fn gets_word(lines: &LineCheck, x: &Progress) -> bool
    ensures { (r : Recording) → LinesTell lines.now r → result ≡ gets_word r.header r.past x.now }
{
    let place = lines.place(Some(x.transaction.addr));
    match under_grant(lines, &x.transaction) {
        Some(y) => { is_line_read_transaction(&y) && has_word(&lines.reply(place), x.transfers) }
        None => false,
    }
}

/// The read that has passed data gets its first transfer.
pub(crate) fn gets_passed(lines: &LineCheck, x: &Progress) -> bool
    ensures { (r : Recording) → LinesTell lines.now r
        → result ≡ gets_passed r.header r.past x.now }
{
    let place = lines.place(Some(x.transaction.addr));
    match under_grant(lines, &x.transaction) {
        Some(_) => x.transfers == 0 && lines.has_passed_data(place),
        None => false,
    }
}
