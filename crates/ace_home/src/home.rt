//! The engine.

ghost use Rattle.std.specs.Prelude.{◌≡◌, ◌<◌, ◌∷◌, ◌++◌, ℕ, [], Some, Option, IfOk, length};
ghost use Rattle.ace_codes.specs.declared.kind.SnoopKind.{SnoopKind as Snoops};
ghost use Rattle.ace_model.specs.Copies.{memory_of};
ghost use Rattle.ace_model.specs.Transactions.{snoop_of};
ghost use Rattle.ace_model.specs.Plans.{IsRight, Plan};
ghost use Rattle.ace_model.specs.Trace.{Trace};
ghost use Rattle.ace_engine.specs.Engines.{IsLegal};
ghost use Rattle.ace_home.specs.Among.{PortSets};
ghost use Rattle.ace_home.specs.Home.{HomeStands, IsOf, IsServed, Tells};
ghost use Rattle.ace_home.specs.Services.{IsLeastFor, IsReply};
ghost use Rattle.ace_home.specs.Turns.{AreSnoops, IsBefore, IsDue, IsFirstOf, IsServing, IsUpTo, due_by, sooner};
ghost use Rattle.ace_home.specs.declared.service.Service.{Service as Step};

use crate::candidates::snoop_for;
use crate::due::{Due, put_sooner};
use crate::least::goes_behind;
use crate::line_engine::LineEngine;
use crate::line_users::LineUsers;
use crate::moved::moved_line;
use crate::port_set::PortSet;
use crate::rest::{add_user, rouse};
use crate::service::Service;
use ace_check::Shares;
use ace_engine::{Burst, Engine};
use ace_event::{Channel, Event, Header, Line};
use ace_io::NoMemory;
use ace_lineck::snoop_of;
use ace_model::{AllPorts, Among, PlanView, Transaction};
use ace_portck::Progress;
use std::alloc::Global;

/// The engine that serves lines. It asks of the first event of each burst whether it breaks a rule,
/// and gives the burst where it breaks none.
#[derive(Drop)]
pub struct Home {
    pub(crate) shares: Shares,
    pub(crate) header: Header,
    /// Who may name each line.
    pub(crate) users: LineUsers,
    /// Ports for which it can do nothing before an event comes that moves something of theirs.
    pub(crate) resting: PortSet,
}

impl Home {
    /// The engine for a plan and the empty trace. It takes all the memory that it will need,
    /// whatever the length of the plan is.
    ///
    /// # Errors
    ///
    /// `NoMemory` where there is none.
    #[tactic(auto, using(crate::proofs::AtRest::at_start))]
    pub fn new(alloc: Global, plan: &PlanView) -> Result<Home, NoMemory>
        requires { IsRight plan.now.plan }
        ensures { IfOk result (λ s. HomeStands s plan.now.plan []) }
    {
        let header = plan.header();
        let Ok(shares) = Shares::new(alloc, header) else {
            return Err(NoMemory);
        };
        Ok(Home {
            shares,
            header,
            users: LineUsers::none(),
            resting: PortSet::all(),
        })
    }

    /// What memory has of the line; a line that was never written has zeros.
    pub fn memory(&self, line: u32) -> Line
        ensures { (plan : Plan) (past : Trace) → HomeStands self.now plan past
            → result ≡ memory_of past line }
    {
        self.shares.lines().memory(line)
    }

    /// The next event of a granted transaction, which is snooped. `place` is that of its line.
    fn reply(&self, place: Option<usize>, x: &Progress) -> Option<Service>
        ensures { (among : PortSets) (plan : Plan) (past : Trace) (p : ℕ)
            → IsServed self.now plan past p place x.now
            → IsReply among plan.header past x.now.transaction result }
    {
        match x.transaction.chan {
            Channel::Read => self.answer(place, x),
            Channel::Write => match self.write(place, x) {
                None => None,
                Some(event) => Some(Service::Write(event)),
            },
        }
    }

    /// The step of least number for an outstanding transaction. What isn't granted waits for its G.
    #[inline(never)]
    fn service<F: Among>(&self, x: &Progress, among: &F) -> Option<Service>
        ensures { (plan : Plan) (past : Trace) (p : ℕ) → Tells self.now plan past p x.now
            → IsLeastFor (F.has among.now) plan.header past x.now.transaction result }
    {
        if !x.granted {
            return match self.grant(x) {
                None => None,
                Some(event) => Some(Service::Grant(event)),
            };
        }
        let place = self.shares.lines().place(Some(x.transaction.addr));
        if self.has_snoop(place, x, among) {
            return Some(Service::Snoops);
        }
        self.reply(place, x)
    }

    /// The step for the outstanding transaction, if there is one, goes in the place of the first
    /// where it goes before it.
    fn put_first_with<F: Among>(&self, first: &mut Option<Due>, x: &Progress, among: &F)
        ensures { (plan : Plan) (past : Trace) (p : ℕ) → Tells self.now plan past p x.now
            → (s : Option Step)
            × IsLeastFor (F.has among.now) plan.header past x.now.transaction s
            × (first.new ≡ sooner first.old (due_by x.now.transaction s)) }
    {
        match self.service(x, among) {
            None => {}
            Some(service) => {
                let next = Due {
                    transaction: x.transaction,
                    service,
                };
                put_sooner(first, next);
            }
        }
    }

    /// The same of the outstanding transactions of the port on the channel, where the first is that
    /// of those on the channels before it.
    fn put_due<F: Among>(&self, port: u8, chan: Channel, among: &F, first: &mut Option<Due>)
        ensures { (plan : Plan) (past : Trace) → HomeStands self.now plan past
            → IsFirstOf (F.has among.now) plan.header past port
            (IsBefore plan.header past port chan) first.old
            → IsFirstOf (F.has among.now) plan.header past port
            (IsUpTo plan.header past port chan) first.new }
    {
        let queue = self.queue(port, chan);
        for i in 0..queue.len() {
            if !goes_behind(first, &queue[i].transaction, self.least(&queue[i])) {
                self.put_first_with(first, &queue[i], among);
            }
        }
    }

    /// The first step for the outstanding transactions of the port.
    fn next<F: Among>(&self, port: u8, among: &F) -> Option<Due>
        ensures { (plan : Plan) (past : Trace) → HomeStands self.now plan past
            → IsFirstOf (F.has among.now) plan.header past port
            (IsOf plan.header past port) result }
    {
        let mut first = None;
        self.put_due(port, Channel::Read, among, &mut first);
        self.put_due(port, Channel::Write, among, &mut first);
        first
    }

    /// Hears the next event of the trace.
    pub fn note(&mut self, event: &Event)
        ensures { (plan : Plan) (past : Trace) → HomeStands self.old plan past
            → IsLegal plan (event.now ∷ past)
            → HomeStands self.new plan (event.now ∷ past) }
    {
        let line = moved_line(event, self.shares.ports());
        rouse(&mut self.resting, &self.users, &self.header, event, line);
        add_user(&mut self.users, event);
        self.shares.hear(event);
        self.rouse_holder(line);
        self.look_after(event, line);
    }

    /// Hears the event, and puts it in the burst, if that isn't full.
    fn put(&mut self, event: Event, out: &mut Burst)
        ensures stands { (plan : Plan) (past : Trace) → HomeStands self.old plan past
            → IsLegal plan (event ∷ past) → HomeStands self.new plan (event ∷ past) }
        ensures burst { length out.old < 16 → out.new ≡ out.old ++ event ∷ [] }
    {
        self.note(&event);
        if out.len() < 16 {
            out.push(event);
        }
    }

    /// Puts the AC of each port of the set that may be snooped for the granted transaction.
    fn put_snoops<F: Among>(&mut self, x: &Transaction, among: &F, out: &mut Burst)
        requires { out.old ≡ [] }
        ensures { (plan : Plan) (past : Trace) (kind : Snoops) → HomeStands self.old plan past
            → snoop_of x.now ≡ Some kind
            → AreSnoops (F.has among.now) self.new plan past x.now kind plan.header.ports out.new }
    {
        let Some(kind) = snoop_of(x) else {
            return;
        };
        let ports = among.may(x.addr);
        for port in 0..self.header.ports {
            if self.may_snoop_of(ports, x, kind, port) {
                self.put(snoop_for(x, kind, port), out);
            }
        }
        self.look_at_unsnooped(Some(x.addr));
    }

    /// Puts the burst of the step.
    fn serve<F: Among>(&mut self, due: &Due, among: &F, out: &mut Burst)
        requires { out.old ≡ [] }
        ensures { (plan : Plan) (past : Trace) (p : ℕ) → HomeStands self.old plan past
            → IsDue (F.has among.now) plan.header past p due.now
            → IsServing (F.has among.now) self.new plan past p due.now out.new }
    {
        let x = &due.transaction;
        let Some(first) = due.service.first() else {
            self.put_snoops(x, among, out);
            return;
        };
        self.put(first, out);
        if due.service.responds() {
            let response = Event::B {
                port: x.port,
                id: x.id,
                resp: 0,
            };
            self.put(response, out);
        }
    }
}

impl LineEngine for Home {
    ghost use Rattle.std.specs.Prelude.{◌≡◌, ◌<◌, [], true, false, IsTrue};
    ghost use Rattle.ace_runs.specs.Bursts.{onto};
    ghost use Rattle.ace_engine.specs.Engines.{Home as OfLines, numbers_of};
    ghost use Rattle.ace_home.specs.Among.{HasHolders, is_enabled_by_among, is_step_by_among};
    ghost use Rattle.ace_home.specs.Home.{HomeStands};
    ghost use Rattle.ace_home.specs.Turns.{IsLeastStepAmong};

    /// Puts the step of least number that is enabled for the port where only ports of the sets are
    /// snooped, and of those of one number that for the oldest transaction. A transaction that is
    /// snooped has all its snoops at once.
    fn turn_among<F: Among>(&mut self, port: u8, among: &F, out: &mut Burst) -> bool
        requires stands { (plan : Plan) × (past : Trace) × HomeStands self.old plan past
            × (port < plan.header.ports) × HasHolders (F.has among.now) plan.header past }
        requires out { out.old ≡ [] }
        ensures step { IsTrue result → (plan : Plan) (past : Trace) → HomeStands self.old plan past
            → is_step_by_among (F.has among.now) (numbers_of OfLines) plan past port out.new
            ≡ true }
        ensures stands { IsTrue result → (plan : Plan) (past : Trace)
            → HomeStands self.old plan past → HomeStands self.new plan (onto out.new past) }
        ensures none { result ≡ false → (plan : Plan) (past : Trace) → HomeStands self.old plan past
            → is_enabled_by_among (F.has among.now) (numbers_of OfLines) plan past port ≡ false }
        ensures unchanged { result ≡ false → (self.new ≡ self.old) × (out.new ≡ []) }
        ensures least { IsTrue result → (plan : Plan) (past : Trace) → HomeStands self.old plan past
            → IsLeastStepAmong (F.has among.now) plan past port out.new }
    {
        if self.resting.has(port) {
            return false;
        }
        let Some(due) = self.next(port, among) else {
            return false;
        };
        self.serve(&due, among, out);
        true
    }
}

impl Engine for Home {
    ghost use Rattle.std.specs.Prelude.{◌≡◌, ◌<◌, [], true, false, IsTrue};
    ghost use Rattle.ace_runs.specs.Bursts.{onto};
    ghost use Rattle.ace_runs.specs.Steps.{is_enabled_by, is_step_by};
    ghost use Rattle.ace_engine.specs.Engines.{Home as OfLines, numbers_of};
    ghost use Rattle.ace_home.specs.EngineLaws.{grows, legal};
    ghost use Rattle.ace_home.specs.Home.{HomeStands};
    ghost use Rattle.ace_home.specs.Turns.{IsLeastStep};

    ghost kind = { OfLines };

    ghost serves = { λ _ _. true };

    ghost stands = { HomeStands };

    ghost legal = { legal };

    ghost grows = { grows };

    /// Puts the step of least number that is enabled for the port, and of those of one number that
    /// for the oldest transaction. A transaction that is snooped has all its snoops at once.
    fn turn(&mut self, port: u8, out: &mut Burst) -> bool
        requires stands { (plan : Plan) × (past : Trace) × HomeStands self.old plan past
            × (port < plan.header.ports) }
        requires out { out.old ≡ [] }
        ensures step { IsTrue result → (plan : Plan) (past : Trace) → HomeStands self.old plan past
            → is_step_by (numbers_of OfLines) plan past port out.new ≡ true }
        ensures stands { IsTrue result → (plan : Plan) (past : Trace)
            → HomeStands self.old plan past → HomeStands self.new plan (onto out.new past) }
        ensures none { result ≡ false → (plan : Plan) (past : Trace) → HomeStands self.old plan past
            → is_enabled_by (numbers_of OfLines) plan past port ≡ false }
        ensures unchanged { result ≡ false → (self.new ≡ self.old) × (out.new ≡ []) }
        ensures least { IsTrue result → (plan : Plan) (past : Trace) → HomeStands self.old plan past
            → IsLeastStep plan past port out.new }
    {
        self.turn_among(port, &AllPorts, out)
    }

    fn hear(&mut self, event: &Event) {
        self.note(event);
    }
}
