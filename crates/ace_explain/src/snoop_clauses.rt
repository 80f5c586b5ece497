//! The clauses of the rules of write data, grants and snoops, K11 to K14 and K17. K14 has one
//! clause.

ghost use Rattle.std.specs.Prelude.{◌≡◌, ◌==◌, ℕ, Some, true};
ghost use Rattle.ace_event.specs.declared.event.Event.TheVariants.{W, G, Ac, Cd};
ghost use Rattle.ace_event.specs.declared.header.Header.{Header};
ghost use Rattle.ace_tables.specs.Answers.{same_test};
ghost use Rattle.ace_model.specs.Exclusives.{has_failed};
ghost use Rattle.ace_model.specs.Grants.{granted, is_begun};
ghost use Rattle.ace_model.specs.Snoops.{snoops_a_line};
ghost use Rattle.ace_model.specs.Trace.{Trace};
ghost use Rattle.ace_portck.specs.Stands.{Stands as PortsTell};
ghost use Rattle.ace_portck.specs.Targets.{Recording, progress_of};
ghost use Rattle.ace_lineck.specs.Stands.{Stands as LinesTell, place_on};
ghost use Rattle.ace_check.specs.Shares.{SharesTell};
ghost use Rattle.ace_explain.specs.Names.{Names};

use ace_check::Shares;
use ace_clauses::Letter;
use ace_event::{Channel, Event};
use ace_lineck::{LineCheck, has_snoop_code, takes_grant};
use ace_model::kinds::snoops_a_line;
use ace_portck::{PortCheck, Progress};

/// The beat of a burst of four, from 0, is the last exactly where it says so.
fn is_counted(last: bool, beat: u8) -> bool
    ensures { result ≡ same_test last (beat == 3) }
{
    last == (beat == 3)
}

/// K11, of a W.
fn clause_of_w(ports: &PortCheck, port: u8, strb: u16, last: bool) -> Letter
    ensures { (r : Recording) (word : ℕ) → PortsTell ports.now r
        → Names r (W port strb last word) 11 result }
{
    if ports.next_write(port).is_none() {
        return Letter::A;
    }
    if !is_counted(last, ports.next_write_beat(port)) {
        return Letter::B;
    }
    if strb == 0xffff { Letter::D } else { Letter::C }
}

/// K11: a W has no write, is the last where it isn't or the other way round, lacks a strobe, or
/// isn't what the port has.
pub(crate) fn clause_of_k11(ports: &PortCheck, event: &Event) -> Letter
    ensures { (r : Recording) → PortsTell ports.now r → Names r event.now 11 result }
{
    match *event {
        Event::W {
            port,
            strb,
            last,
            ..
        } => clause_of_w(ports, port, strb, last),
        _ => Letter::A,
    }
}

/// K12, of a G.
fn clause_of_g(ports: &PortCheck, port: u8, chan: Channel, id: u8) -> Letter
    ensures { (r : Recording) → PortsTell ports.now r → Names r (G port chan id) 12 result }
{
    let Some(x) = ports.outstanding(port, chan, id) else {
        return Letter::A;
    };
    if !takes_grant(&x.transaction) {
        return Letter::B;
    }
    if x.granted { Letter::C } else { Letter::D }
}

/// K12: a G names no outstanding transaction, or one of a kind that is never granted, one that has
/// its grant, or one whose line is granted to another.
pub(crate) fn clause_of_k12(ports: &PortCheck, event: &Event) -> Letter
    ensures { (r : Recording) → PortsTell ports.now r → Names r event.now 12 result }
{
    match *event {
        Event::G { port, chan, id } => clause_of_g(ports, port, chan, id),
        _ => Letter::A,
    }
}

/// The transaction has had its first R or, if it is a write, its M.
fn has_begun(x: &Progress) -> bool
    ensures { (h : Header) (past : Trace) → x.now ≡ progress_of h past x.now.transaction
        → result ≡ is_begun past x.now.transaction }
{
    match x.transaction.chan {
        Channel::Read => x.transfers != 0,
        Channel::Write => x.written,
    }
}

/// K13, of a line snoop under the grant of this outstanding transaction. `place` is that of the
/// record of its line, and `failed` says whether it is an exclusive store that failed.
fn clause_under_grant(
    lines: &LineCheck,
    place: Option<usize>,
    port: u8,
    snoop: u8,
    x: &Progress,
    failed: bool,
) -> Letter
    ensures { (r : Recording) (addr : ℕ) → LinesTell lines.now r
        → place ≡ place_on lines.now (Some addr) → snoops_a_line snoop ≡ true
        → granted r.header r.past addr ≡ Some x.now.transaction
        → x.now ≡ progress_of r.header r.past x.now.transaction
        → failed ≡ has_failed r.past x.now.transaction
        → Names r (Ac port addr snoop) 13 result }
{
    if x.transaction.port == port {
        return Letter::B;
    }
    if !has_snoop_code(&x.transaction, snoop) {
        return Letter::C;
    }
    if failed {
        return Letter::D;
    }
    if has_begun(x) {
        return Letter::E;
    }
    if lines.was_snooped(place, port) {
        Letter::F
    } else {
        Letter::G
    }
}

/// K13, of a line snoop: nothing is granted on its line, or what is granted doesn't cause it.
fn clause_of_snoop(shares: &Shares, port: u8, addr: u32, snoop: u8) -> Letter
    ensures { (h : Header) (past : Trace) → SharesTell shares.now h past
        → snoops_a_line snoop ≡ true
        → Names (record { header = h; past = past }) (Ac port addr snoop) 13 result }
{
    let lines = shares.lines();
    let place = lines.place(Some(addr));
    let Some((owner, chan, id)) = lines.granted(place) else {
        return Letter::A;
    };
    let Some(x) = shares.ports().outstanding(owner, chan, id) else {
        return Letter::A;
    };
    let failed = shares.has_failed_at(place);
    clause_under_grant(lines, place, port, snoop, x, failed)
}

/// K13: a line snoop has no transaction for which it is, or it isn't one that this causes, or it
/// comes too late, a second time, or before the end of a write.
pub(crate) fn clause_of_k13(shares: &Shares, event: &Event) -> Letter
    ensures { (h : Header) (past : Trace) → SharesTell shares.now h past
        → Names (record { header = h; past = past }) event.now 13 result }
{
    let Event::Ac { port, addr, snoop } = *event else {
        return Letter::A;
    };
    if snoops_a_line(snoop) {
        clause_of_snoop(shares, port, addr, snoop)
    } else {
        Letter::A
    }
}

/// K17, of a CD.
fn clause_of_cd(ports: &PortCheck, port: u8, last: bool) -> Letter
    ensures { (r : Recording) (word : ℕ) → PortsTell ports.now r
        → Names r (Cd port last word) 17 result }
{
    match ports.sending(port) {
        None => Letter::A,
        Some(_) => {
            if is_counted(last, ports.next_sent_beat(port)) {
                Letter::C
            } else {
                Letter::B
            }
        }
    }
}

/// K17: a CD has no answer, is the last where it isn't or the other way round, or isn't what the
/// port had.
pub(crate) fn clause_of_k17(ports: &PortCheck, event: &Event) -> Letter
    ensures { (r : Recording) → PortsTell ports.now r → Names r event.now 17 result }
{
    match *event {
        Event::Cd { port, last, .. } => clause_of_cd(ports, port, last),
        _ => Letter::A,
    }
}
