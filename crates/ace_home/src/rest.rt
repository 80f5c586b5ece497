//! Which ports may rest, as events come: one is roused by what may move something of its
//! transactions, and looked at again where it may rest from then on.

ghost use Rattle.std.specs.Prelude.{◌≡◌, ◌<◌, ◌∷◌, ◌==◌, ℕ, true, false};
ghost use Rattle.std.specs.Prelude.{None, Some, is_some, option_map, slice_get};
ghost use Rattle.ace_event.specs.declared.header.Header.{Header as Headers};
ghost use Rattle.ace_model.specs.declared.transactions.Transaction.{Transaction as Issued};
ghost use Rattle.ace_model.specs.Exclusives.{has_failed};
ghost use Rattle.ace_model.specs.Grants.{granted};
ghost use Rattle.ace_model.specs.Plans.{Plan};
ghost use Rattle.ace_model.specs.Trace.{Trace, is_some_and};
ghost use Rattle.ace_model.specs.Transactions.{issued};
ghost use Rattle.ace_portck.specs.declared.target.Progress.{Progress as Progresses};
ghost use Rattle.ace_portck.specs.Pending.{pending_of};
ghost use Rattle.ace_check.specs.Shares.{SharesStand};
ghost use Rattle.ace_home.specs.HeldUp.{IsHeldUp};
ghost use Rattle.ace_home.specs.Home.{HomeStands, IsOf, Tells};
ghost use Rattle.ace_home.specs.Resting.{HasToWait, IsUnbegun};
ghost use Rattle.ace_home.specs.Resting.{has_port, may_end, may_name, moves_own};

use crate::home::Home;
use crate::line_users::LineUsers;
use crate::port_set::PortSet;
use ace_event::{Channel, Event, Header};
use ace_lineck::takes_grant;
use ace_model::kinds::is_ace;
use ace_portck::Progress;

/// The port of a transaction that begins, is granted or moves on with the event.
#[inline(always)]
fn moved_port(event: &Event) -> Option<u8>
    ensures { (p : ℕ) → moves_own event.now p ≡ is_some_and result (λ q. q == p) }
{
    match *event {
        Event::Ar { port, .. } => Some(port),
        Event::Aw { port, .. } => Some(port),
        Event::R { port, .. } => Some(port),
        Event::G { port, .. } => Some(port),
        _ => None,
    }
}

/// A transaction may end with the event.
#[inline(always)]
fn may_end(header: &Header, event: &Event) -> bool
    ensures { result ≡ may_end header.now event.now }
{
    match *event {
        Event::Rk { .. } => true,
        Event::Wk { .. } => true,
        Event::R { port, last, .. } => last && !is_ace(header, port),
        Event::B { port, .. } => !is_ace(header, port),
        _ => false,
    }
}

/// The port whose transaction moves with the event rests no more, nor does one that may name its
/// line, where a transaction may end. `line` is that of the event.
#[inline(always)]
pub fn rouse(
    resting: &mut PortSet,
    users: &LineUsers,
    header: &Header,
    event: &Event,
    line: Option<u32>,
)
    ensures own { (p : ℕ) → has_port resting.new p ≡ true
        → (has_port resting.old p ≡ true) × (moves_own event.now p ≡ false) }
    ensures beside { (p l : ℕ) → has_port resting.new p ≡ true
        → may_end header.now event.now ≡ true → line ≡ Some l → may_name users.now l p ≡ false }
{
    if let Some(port) = moved_port(event) {
        resting.remove(port);
    }
    if !may_end(header, event) {
        return;
    }
    if let Some(line) = line {
        *resting = resting.apart(users.of(line));
    }
}

/// The port of a transaction that begins with the event is beside its line.
#[inline(always)]
pub fn add_user(users: &mut LineUsers, event: &Event)
    ensures more { (l p : ℕ) → may_name users.old l p ≡ true → may_name users.new l p ≡ true }
    ensures own { (n : ℕ) (x : Issued) → issued n event.now ≡ Some x → x.port < 32
        → may_name users.new x.addr x.port ≡ true }
{
    match *event {
        Event::Ar { port, addr, .. } => users.add(port, addr),
        Event::Aw { port, addr, .. } => users.add(port, addr),
        _ => {}
    }
}

/// The port is beside the lines of these transactions.
fn add_lines(users: &mut LineUsers, port: u8, queue: &[Progress])
    ensures own { port < 32 → (k : ℕ) (y : Progresses) → slice_get queue.now k ≡ Some y
        → may_name users.new y.transaction.addr port ≡ true }
    ensures more { (l p : ℕ) → may_name users.old l p ≡ true → may_name users.new l p ≡ true }
{
    for i in 0..queue.len() {
        users.add(port, queue[i].transaction.addr);
    }
}

impl Home {
    /// The port of the transaction that is granted on the line, if there is one.
    fn holder(&self, line: u32) -> Option<u8>
        ensures { (h : Headers) (past : Trace) → SharesStand self.now.shares h past
            → result ≡ option_map (λ y. y.port) (granted h past line) }
    {
        let lines = self.shares.lines();
        match lines.granted(lines.place(Some(line))) {
            None => None,
            Some(name) => Some(name.0),
        }
    }

    /// The port of the transaction that is granted on the line, if there is such a line, rests no
    /// more, unless the line is held up.
    #[inline(always)]
    pub(crate) fn rouse_holder(&mut self, line: Option<u32>)
        ensures less { (p : ℕ) → has_port self.new.resting p ≡ true
            → has_port self.old.resting p ≡ true }
        ensures holder { (h : Headers) (past : Trace) (l : ℕ) (y : Issued)
            → SharesStand self.old.shares h past → line ≡ Some l
            → granted h past l ≡ Some y → has_port self.new.resting y.port ≡ true
            → IsHeldUp h past l }
        ensures rest { self.new ≡ record self.old { resting = self.new.resting } }
    {
        let Some(line) = line else {
            return;
        };
        let Some(port) = self.holder(line) else {
            return;
        };
        if self.resting.has(port) && !self.is_line_held_up(line) {
            self.resting.remove(port);
        }
    }

    /// The line is granted.
    #[inline(always)]
    fn is_taken(&self, line: u32) -> bool
        ensures { (plan : Plan) (past : Trace) → HomeStands self.now plan past
            → result ≡ is_some (granted plan.header past line) }
    {
        let lines = self.shares.lines();
        lines.granted(lines.place(Some(line))).is_some()
    }

    /// It is an exclusive store that failed.
    fn has_failed(&self, x: &Progress) -> bool
        ensures { (plan : Plan) (past : Trace) (p : ℕ) → Tells self.now plan past p x.now
            → result ≡ has_failed past x.now.transaction }
    {
        if !x.transaction.lock {
            return false;
        }
        match x.transaction.chan {
            Channel::Read => {
                let system = self.shares.system();
                system.failed(x.transaction.port, x.transaction.id)
            }
            Channel::Write => false,
        }
    }

    /// It hasn't begun, and its line is held up.
    #[inline(always)]
    fn is_unbegun(&self, x: &Progress) -> bool
        ensures { result ≡ true → x.now.granted ≡ true → (plan : Plan) (past : Trace) (p : ℕ)
            → Tells self.now plan past p x.now → IsUnbegun plan.header past x.now.transaction }
    {
        if x.transfers != 0 {
            return false;
        }
        if !self.is_line_held_up(x.transaction.addr) {
            return false;
        }
        !self.has_failed(x)
    }

    /// The home can do nothing for the outstanding transaction before an event comes.
    #[inline(always)]
    fn has_to_wait(&self, x: &Progress) -> bool
        ensures { result ≡ true → (plan : Plan) (past : Trace) (p : ℕ)
            → Tells self.now plan past p x.now
            → HasToWait plan.header past x.now.transaction }
    {
        if x.granted {
            return self.is_unbegun(x);
        }
        if !takes_grant(&x.transaction) {
            return true;
        }
        if self.is_taken(x.transaction.addr) {
            return true;
        }
        !self.is_first_to_wait(&x.transaction)
    }

    /// It can do nothing for any of the port on the channel. The last one is asked first, as it is
    /// the first to have a step most often.
    fn all_wait(&self, port: u8, chan: Channel) -> bool
        ensures { result ≡ true → (plan : Plan) (past : Trace) (k : ℕ) (y : Issued)
            → HomeStands self.now plan past
            → slice_get (pending_of plan.header past port chan) k ≡ Some y
            → HasToWait plan.header past y }
    {
        let queue = self.queue(port, chan);
        for i in 0..queue.len() {
            if !self.has_to_wait(&queue[queue.len() - 1 - i]) {
                return false;
            }
        }
        true
    }

    /// It can do nothing for any of the port.
    fn may_rest(&self, port: u8) -> bool
        ensures { result ≡ true → (plan : Plan) (past : Trace) (x : Issued)
            → HomeStands self.now plan past → IsOf plan.header past port x
            → HasToWait plan.header past x }
    {
        self.all_wait(port, Channel::Read) && self.all_wait(port, Channel::Write)
    }

    /// The port is at rest, if it may be.
    fn look(&mut self, port: u8)
        ensures { (plan : Plan) (past : Trace) → HomeStands self.old plan past
            → HomeStands self.new plan past }
    {
        if self.may_rest(port) {
            self.resting.add(port);
        }
    }

    /// The port is beside the line no more, unless one of its transactions names such a line.
    fn forget(&mut self, port: u8, line: u32)
        ensures { (plan : Plan) (past : Trace) → HomeStands self.old plan past
            → HomeStands self.new plan past }
    {
        if port >= 32 {
            return;
        }
        let ports = self.shares.ports();
        self.users.remove(port, line);
        add_lines(&mut self.users, port, ports.reads(port));
        add_lines(&mut self.users, port, ports.writes(port));
    }

    /// Each of the ports is at rest, if it may be.
    fn look_each(&mut self, ports: PortSet)
        ensures { (plan : Plan) (past : Trace) → HomeStands self.old plan past
            → HomeStands self.new plan past }
    {
        for port in 0..self.header.ports {
            if ports.has(port) {
                self.look(port);
            }
        }
    }

    /// The same of the ports beside the line, if there is one, that aren't at rest, but for this
    /// one.
    #[inline(always)]
    fn look_beside(&mut self, port: u8, line: Option<u32>)
        ensures { (plan : Plan) (past : Trace) → HomeStands self.old plan past
            → HomeStands self.new plan past }
    {
        let Some(line) = line else {
            return;
        };
        let mut awake = self.users.of(line).apart(self.resting);
        awake.remove(port);
        if !awake.is_empty() {
            self.look_each(awake);
        }
    }

    /// The same of this port, of which a transaction has ended, and of those that are beside its
    /// line, if there is one.
    fn look_at_end(&mut self, port: u8, line: Option<u32>)
        ensures { (plan : Plan) (past : Trace) → HomeStands self.old plan past
            → HomeStands self.new plan past }
    {
        if let Some(line) = line {
            self.forget(port, line);
        }
        self.look(port);
        self.look_beside(port, line);
    }

    /// The same of the port of the transaction that is granted on the line, where it is held up.
    #[inline(always)]
    pub(crate) fn look_at_holder(&mut self, line: Option<u32>)
        ensures { (plan : Plan) (past : Trace) → HomeStands self.old plan past
            → HomeStands self.new plan past }
    {
        let Some(line) = line else {
            return;
        };
        if !self.is_line_held_up(line) {
            return;
        }
        if let Some(port) = self.holder(line) {
            self.look(port);
        }
    }

    /// The same where each port was snooped for it.
    #[inline(always)]
    fn look_at_snooped(&mut self, line: u32)
        ensures { (plan : Plan) (past : Trace) → HomeStands self.old plan past
            → HomeStands self.new plan past }
    {
        let lines = self.shares.lines();
        let place = lines.place(Some(line));
        if lines.has_unsnooped(place) || !self.awaits_answer(place) {
            return;
        }
        if let Some(port) = self.holder(line) {
            self.look(port);
        }
    }

    /// The same where some port wasn't snooped for it. Such a look is for the end of a burst of
    /// snoops, and not for each of them.
    #[inline(always)]
    pub(crate) fn look_at_unsnooped(&mut self, line: Option<u32>)
        ensures { (plan : Plan) (past : Trace) → HomeStands self.old plan past
            → HomeStands self.new plan past }
    {
        let lines = self.shares.lines();
        if lines.has_unsnooped(lines.place(line)) {
            self.look_at_holder(line);
        }
    }

    /// The same of the port of a transaction that was granted the line, where each other ACE port
    /// may have a write of it with B and without WK.
    #[inline(always)]
    fn look_at_granted(&mut self, port: u8, line: Option<u32>)
        ensures { (plan : Plan) (past : Trace) → HomeStands self.old plan past
            → HomeStands self.new plan past }
    {
        let Some(line) = line else {
            return;
        };
        let mut others = PortSet::ace(&self.header).apart(self.users.of(line));
        others.remove(port);
        if others.is_empty() {
            self.look_at_holder(Some(line));
        }
    }

    /// The same of ports that may be at rest after the response of a write of the port: of the
    /// holder of its line, which may have to wait for the acknowledge, or, where there is none, of
    /// those of which something may move as the write has ended.
    #[inline(always)]
    fn look_at_response(&mut self, port: u8, line: Option<u32>)
        ensures { (plan : Plan) (past : Trace) → HomeStands self.old plan past
            → HomeStands self.new plan past }
    {
        if is_ace(&self.header, port) {
            self.look_at_unsnooped(line);
        } else {
            self.look_at_end(port, line);
        }
    }

    /// The same of ports that may be at rest after the event: of one of which a transaction has
    /// begun or ended, of those that wait for a line that was granted or is free, and of one whose
    /// transaction was granted or has had its last snoop, may not snoop a port any more, or has
    /// written what it can't take.
    #[inline(always)]
    pub(crate) fn look_after(&mut self, event: &Event, line: Option<u32>)
        ensures { (plan : Plan) (past : Trace) → HomeStands self.old plan past
            → HomeStands self.new plan past }
    {
        match *event {
            Event::Ar { port, .. } | Event::Aw { port, .. } => self.look(port),
            Event::Rk { port, .. } | Event::Wk { port, .. } => self.look_at_end(port, line),
            Event::R {
                port,
                last: true,
                ..
            } => if !is_ace(&self.header, port) {
                self.look_at_end(port, line);
            },
            Event::B { port, .. } => self.look_at_response(port, line),
            Event::G { port, .. } => {
                self.look_beside(port, line);
                self.look_at_granted(port, line);
            }
            Event::Ac { addr, .. } => self.look_at_snooped(addr),
            Event::M {
                chan: Channel::Read,
                ..
            } => self.look_at_holder(line),
            _ => {}
        }
    }
}
