//! Lines whose granted transactions have to wait for answers to snoops, or until a port may be
//! snooped. It is looked up in what is kept of the line and the ports, whenever it is asked.

ghost use Rattle.std.specs.Prelude.{◌≡◌, ◌&&◌, ◌||◌, ℕ, false, not, true, Some};
ghost use Rattle.std.specs.List.{list_any};
ghost use Rattle.ace_event.specs.declared.header.Header.{Header as Headers};
ghost use Rattle.ace_model.specs.Grants.{granted, ports_below};
ghost use Rattle.ace_model.specs.Trace.{Trace};
ghost use Rattle.ace_check.specs.Shares.{SharesStand};
ghost use Rattle.ace_lineck.specs.Stands.{place_on};
ghost use Rattle.ace_lineck.specs.Waiting.{has_unsnooped, is_answering, is_unsnooped_beside};
ghost use Rattle.ace_home.specs.HeldUp.{IsHeldUp, has_unsnooped_holder, is_left, is_stuck, is_unsnooped_holder};

use crate::home::Home;
use ace_event::Channel;
use ace_lineck::snoop_of;
use ace_model::Transaction;
use ace_model::kinds::is_ace;
use ace_tables::is_invalid;

/// It is an ACE port, not its own one, and wasn't snooped.
#[inline(always)]
fn is_another(ace: bool, own: bool, snooped: bool) -> bool
    ensures { result ≡ (ace && not own && not snooped) }
{
    ace && !own && !snooped
}

impl Home {
    /// The granted transaction of the line at the place is a read with passed data that it can't
    /// take.
    fn is_stuck(&self, place: Option<usize>) -> bool
        ensures { result ≡ false → (h : Headers) (past : Trace) (l : ℕ)
            → SharesStand self.now.shares h past
            → place ≡ place_on self.now.shares.lines (Some l) → is_stuck h past l ≡ false }
    {
        let lines = self.shares.lines();
        if !lines.has_passed_data(place) {
            return false;
        }
        match lines.granted_transaction(place) {
            None => false,
            Some(x) => match x.chan {
                Channel::Read => !lines.can_take_passed_data(place, &x),
                Channel::Write => false,
            },
        }
    }

    /// The port is another ACE port than that of the granted transaction of the line at the place,
    /// and wasn't snooped for it.
    #[inline(always)]
    fn is_unsnooped(&self, place: Option<usize>, x: &Transaction, port: u8) -> bool
        ensures { (h : Headers) (past : Trace) (l : ℕ) → SharesStand self.now.shares h past
            → place ≡ place_on self.now.shares.lines (Some l) → granted h past l ≡ Some x.now
            → result ≡ is_unsnooped_beside h past l x.now port }
    {
        let ace = is_ace(self.shares.ports().header(), port);
        let own = port == x.port;
        let snooped = self.shares.lines().was_snooped(place, port);
        is_another(ace, own, snooped)
    }

    /// The port may be snooped for it yet: it has no write of the line with B and without WK.
    #[inline(always)]
    fn is_left(&self, place: Option<usize>, line: u32, x: &Transaction, port: u8) -> bool
        ensures { (h : Headers) (past : Trace) → SharesStand self.now.shares h past
            → place ≡ place_on self.now.shares.lines (Some line) → granted h past line ≡ Some x.now
            → result ≡ is_left h past line x.now port }
    {
        if !self.is_unsnooped(place, x, port) {
            return false;
        }
        !self.shares.ports().owes_wack(port, line)
    }

    /// The port holds the line, and wasn't snooped for it.
    #[inline(always)]
    fn is_unsnooped_holder(&self, place: Option<usize>, x: &Transaction, port: u8) -> bool
        ensures { (h : Headers) (past : Trace) (l : ℕ) → SharesStand self.now.shares h past
            → place ≡ place_on self.now.shares.lines (Some l) → granted h past l ≡ Some x.now
            → result ≡ is_unsnooped_holder h past l x.now port }
    {
        if !self.is_unsnooped(place, x, port) {
            return false;
        }
        !is_invalid(self.shares.lines().state(place, port))
    }

    /// Some port may be snooped for it yet.
    fn has_left(&self, place: Option<usize>, line: u32, x: &Transaction) -> bool
        ensures { result ≡ false → (h : Headers) (past : Trace) → SharesStand self.now.shares h past
            → place ≡ place_on self.now.shares.lines (Some line) → granted h past line ≡ Some x.now
            → list_any (is_left h past line x.now) (ports_below h.ports) ≡ false }
    {
        let header = self.shares.ports().header();
        for port in 0..header.ports {
            if self.is_left(place, line, x, port) {
                return true;
            }
        }
        false
    }

    /// Some port holds the line, and wasn't snooped for it.
    fn has_unsnooped_holder(&self, place: Option<usize>, x: &Transaction) -> bool
        ensures { result ≡ true → (h : Headers) (past : Trace) (l : ℕ)
            → SharesStand self.now.shares h past
            → place ≡ place_on self.now.shares.lines (Some l) → granted h past l ≡ Some x.now
            → list_any (is_unsnooped_holder h past l x.now) (ports_below h.ports) ≡ true }
    {
        let header = self.shares.ports().header();
        for port in 0..header.ports {
            if self.is_unsnooped_holder(place, x, port) {
                return true;
            }
        }
        false
    }

    /// It causes snoops, and they aren't done.
    #[inline(always)]
    fn is_undone(&self, place: Option<usize>, x: &Transaction) -> bool
        ensures { result ≡ true → (h : Headers) (past : Trace) (l : ℕ)
            → SharesStand self.now.shares h past
            → place ≡ place_on self.now.shares.lines (Some l) → granted h past l ≡ Some x.now
            → (is_answering h past l || has_unsnooped_holder h past l) ≡ true }
    {
        let Some(_kind) = snoop_of(x) else {
            return false;
        };
        if self.shares.lines().is_answering(place) {
            return true;
        }
        self.has_unsnooped_holder(place, x)
    }

    /// The ports that weren't snooped for the granted transaction of the line at the place may not
    /// be before the WK of a write of the line. It has to wait for one of them, or for an answer,
    /// and has no passed data that it can't take.
    #[inline(never)]
    fn awaits_acknowledge(&self, place: Option<usize>, line: u32) -> bool
        ensures { result ≡ true → (h : Headers) (past : Trace) → SharesStand self.now.shares h past
            → place ≡ place_on self.now.shares.lines (Some line) → IsHeldUp h past line }
    {
        let Some(x) = self.shares.lines().granted_transaction(place) else {
            return false;
        };
        if self.has_left(place, line, &x) {
            return false;
        }
        if !self.is_undone(place, &x) {
            return false;
        }
        !self.is_stuck(place)
    }

    /// Where each port was snooped for the granted transaction of the line at the place: it has to
    /// wait for an answer, and has no passed data that it can't take.
    #[inline(always)]
    pub(crate) fn awaits_answer(&self, place: Option<usize>) -> bool
        ensures { result ≡ true → (h : Headers) (past : Trace) (l : ℕ)
            → SharesStand self.now.shares h past
            → place ≡ place_on self.now.shares.lines (Some l) → has_unsnooped h past l ≡ false
            → IsHeldUp h past l }
    {
        if !self.shares.lines().is_answering(place) {
            return false;
        }
        !self.is_stuck(place)
    }

    /// No port is left to snoop for the granted transaction of the line; it has to wait for an
    /// answer, or until a port may be snooped; and it has no passed data that it can't take.
    pub(crate) fn is_line_held_up(&self, line: u32) -> bool
        ensures { result ≡ true → (h : Headers) (past : Trace)
            → SharesStand self.now.shares h past → IsHeldUp h past line }
    {
        let lines = self.shares.lines();
        let place = lines.place(Some(line));
        if lines.has_unsnooped(place) {
            self.awaits_acknowledge(place, line)
        } else {
            self.awaits_answer(place)
        }
    }
}
