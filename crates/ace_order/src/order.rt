//! The engine of barriers and DVM.

ghost use Rattle.std.specs.Prelude.{◌≡◌, ◌<◌, ◌≤◌, ◌∷◌, ◌++◌, ℕ, true, false, [], List, Some, None, IfOk, length, is_none, slice_get};
ghost use Rattle.std.specs.Option.{option_map};
ghost use Rattle.ace_event.specs.declared.event.Channel.TheVariants.{Read};
ghost use Rattle.ace_model.specs.declared.transactions.Transaction.{Transaction};
ghost use Rattle.ace_model.specs.Accepted.{least_of};
ghost use Rattle.ace_model.specs.Barriers.{is_barrier_half};
ghost use Rattle.ace_model.specs.Plans.{IsRight, Plan};
ghost use Rattle.ace_model.specs.Shares.{system_rules};
ghost use Rattle.ace_model.specs.Trace.{Trace};
ghost use Rattle.ace_model.specs.Transactions.{outstanding};
ghost use Rattle.ace_runs.specs.Bursts.{may_begin, may_serve, onto};
ghost use Rattle.ace_runs.specs.OrderSteps.{barrier_burst, dvm_burst, may_forward, may_give_completion, plain_transfer};
ghost use Rattle.ace_engine.specs.Engines.{IsLegal};
ghost use Rattle.ace_portck.specs.Pending.{pending_of};
ghost use Rattle.ace_portck.specs.Targets.{progress_of};
ghost use Rattle.ace_sysck.specs.declared.barriers.OpenPair.{OpenPair};
ghost use Rattle.ace_sysck.specs.declared.inboxes.Message.{Message};
ghost use Rattle.ace_sysck.specs.Barriers.{pair_in};
ghost use Rattle.ace_order.specs.Messages.{forwards_to, is_next_for, next_for};
ghost use Rattle.ace_order.specs.Order.{IsAnswerable, IsCurrent, IsForwardable, IsRespondable, IsTurn, OrderStands};

use crate::events::{
    first_unanswered, forwarding, is_behind, is_dvm, is_message_part, plain_transfer, response,
    sync_completion,
};
use crate::quiet::QuietPorts;
use crate::senders::NextSenders;
use crate::waiting::Waiting;
use ace_codes::SnoopKind;
use ace_engine::{Burst, Engine};
use ace_event::{Event, Header};
use ace_io::NoMemory;
use ace_model::kinds::is_ace;
use ace_model::{MOST_LINES, MOST_SNOOPS, PlanView, Transaction};
use ace_portck::{PortCheck, Progress};
use ace_sysck::{Message, OpenPair, SysCheck};
use std::alloc::Global;

/// The engine of barriers and DVM. It answers both halves of a barrier at once, when what is before
/// the barrier has come far enough; it forwards each DVM message as a whole, to all ports for which
/// it is the next; it responds to a part of a message once every port has answered it, and to a DVM
/// Complete; and it completes a Sync once every port has sent its DVM Complete. A barrier that was
/// found to have to wait isn't asked for again before an event comes that may end the wait, and a
/// port isn't asked for its messages as long as no DVM transaction of it is outstanding, or for
/// which it forwards as long as it sends none that some port gets next.
#[derive(Drop)]
pub struct Order {
    header: Header,
    ports: PortCheck,
    system: SysCheck,
    waiting: Waiting,
    quiet: QuietPorts,
    senders: NextSenders,
}

impl Order {
    /// The engine for a plan and the empty trace. It takes all the memory that it will need,
    /// whatever the length of the plan is.
    ///
    /// # Errors
    ///
    /// `NoMemory` where there is none.
    pub fn new(alloc: Global, plan: &PlanView) -> Result<Order, NoMemory>
        requires { IsRight plan.now.plan }
        ensures { IfOk result (λ s. OrderStands s plan.now.plan []) }
    {
        let header = plan.header();
        let Ok(ports) = PortCheck::with_room(alloc, header, MOST_SNOOPS) else {
            return Err(NoMemory);
        };
        let Ok(system) = SysCheck::with_room(alloc, header, MOST_LINES) else {
            return Err(NoMemory);
        };
        Ok(Order {
            header,
            ports,
            system,
            waiting: Waiting::none(),
            quiet: QuietPorts::all(),
            senders: NextSenders::none(),
        })
    }

    /// Hears the next event of the trace.
    fn note(&mut self, event: &Event)
        ensures { (plan : Plan) (past : Trace) → IsCurrent self.old plan past
            → IsLegal plan (event.now ∷ past) → IsCurrent self.new plan (event.now ∷ past) }
    {
        self.system.hear(&self.ports, event);
        self.ports.hear(event);
        self.waiting.hear(event, &self.ports, &self.system);
        self.quiet.hear(event, &self.ports);
        self.senders.hear(event, &self.header, &self.system);
    }

    /// Hears the event, and puts it in the burst, if that isn't full.
    fn put(&mut self, event: Event, out: &mut Burst)
        ensures current { (plan : Plan) (past : Trace) → IsCurrent self.old plan past
            → IsLegal plan (event ∷ past) → IsCurrent self.new plan (event ∷ past) }
        ensures burst { length out.old < 16 → out.new ≡ out.old ++ event ∷ [] }
    {
        self.note(&event);
        if out.len() < 16 {
            out.push(event);
        }
    }

    /// The half of a barrier, which is outstanding, may have its R.
    fn lets_answer(&self, half: &Transaction) -> bool
        ensures { (plan : Plan) (past : Trace) → IsCurrent self.now plan past
            → outstanding plan.header past half.now.port Read half.now.id ≡ Some half.now
            → is_barrier_half half.now ≡ true
            → result ≡ is_none (least_of system_rules plan.header past (plain_transfer half.now)) }
    {
        let unordered = self.ports.first_unordered(half.port);
        let incomplete = self.ports.first_incomplete(half.port);
        self.system
            .rule_of_half_r(half, 0, unordered, incomplete)
            .is_none()
    }

    /// The part of a message, or DVM Complete, which is outstanding, may have its R.
    fn lets_respond(&self, read: &Transaction) -> bool
        ensures { (plan : Plan) (past : Trace) → IsCurrent self.now plan past
            → outstanding plan.header past read.now.port Read read.now.id ≡ Some read.now
            → is_barrier_half read.now ≡ false
            → result ≡ is_none (least_of system_rules plan.header past (plain_transfer read.now)) }
    {
        if is_message_part(read) {
            self.system.rule_of_message_r(read, 0).is_none()
        } else {
            self.system.rule_of_r(read, 0).is_none()
        }
    }

    /// The barrier pair of the port that may have its R and B.
    fn answerable(&self, port: u8) -> Option<OpenPair>
        ensures some { (b : OpenPair) → result ≡ Some b → (plan : Plan) (past : Trace)
            → OrderStands self.now plan past
            → IsAnswerable plan.header past port (pair_in b) }
        ensures none { result ≡ None → (plan : Plan) (past : Trace) → OrderStands self.now plan past
            → may_serve barrier_burst plan.header past port ≡ false }
    {
        if self.waiting.has(port) {
            return None;
        }
        let Some(pair) = self.system.open_pair(port) else {
            return None;
        };
        if self.lets_answer(&pair.read) {
            Some(pair)
        } else {
            None
        }
    }

    /// Puts the R and the B of a barrier pair that may have them.
    fn answer(&mut self, pair: &OpenPair, out: &mut Burst)
        requires { out.old ≡ [] }
        ensures { (plan : Plan) (past : Trace) (p : ℕ) → OrderStands self.old plan past
            → IsAnswerable plan.header past p (pair_in pair.now)
            → IsTurn self.new plan past p out.new }
    {
        self.put(plain_transfer(&pair.read), out);
        self.put(response(&pair.write), out);
    }

    /// The DVM message that the port gets next.
    fn next_message(&self, port: u8) -> Option<Message>
        ensures { (plan : Plan) (past : Trace) → IsCurrent self.now plan past
            → result ≡ next_for plan.header past port }
    {
        if is_ace(&self.header, port) {
            self.system.next_message(port)
        } else {
            None
        }
    }

    /// The port that sends the DVM message that this port gets next.
    fn next_sender(&self, port: u8) -> Option<u8>
        ensures { (plan : Plan) (past : Trace) → IsCurrent self.now plan past
            → result ≡ option_map (λ (m : Message). m.first.port) (next_for plan.header past port) }
    {
        if is_ace(&self.header, port) {
            self.system.next_sender(port)
        } else {
            None
        }
    }

    /// The message is the one that the port gets next.
    fn is_next(&self, port: u8, message: &Message) -> bool
        ensures { (plan : Plan) (past : Trace) → IsCurrent self.now plan past
            → result ≡ is_next_for plan.header past message.now port }
    {
        match self.next_message(port) {
            None => false,
            Some(next) => next.first.place == message.first.place,
        }
    }

    /// A message of the port that is the next for some port.
    fn forwardable(&self, port: u8) -> Option<Message>
        ensures some { (m : Message) → result ≡ Some m → (plan : Plan) (past : Trace)
            → OrderStands self.now plan past → IsForwardable plan.header past port m }
        ensures none { result ≡ None → (plan : Plan) (past : Trace) → OrderStands self.now plan past
            → may_forward plan.header past port ≡ false }
    {
        if self.quiet.has(port) {
            return None;
        }
        if !self.senders.has(port) {
            return None;
        }
        for q in 0..self.header.ports {
            if let Some(sender) = self.next_sender(q) {
                if sender == port {
                    return self.next_message(q);
                }
            }
        }
        None
    }

    /// Puts the parts of the message for the port.
    fn forward_to(&mut self, port: u8, message: &Message, out: &mut Burst)
        ensures current { (plan : Plan) (past : Trace) → IsCurrent self.old plan past
            → IsLegal plan (onto (forwards_to port message.now) past)
            → IsCurrent self.new plan (onto (forwards_to port message.now) past) }
        ensures burst { length out.old ≤ 14 → out.new ≡ out.old ++ forwards_to port message.now }
    {
        self.put(forwarding(port, &message.first), out);
        if let Some(second) = message.second {
            self.put(forwarding(port, &second), out);
        }
    }

    /// Puts the parts of the message for each port that gets it next.
    fn forward(&mut self, message: &Message, out: &mut Burst)
        requires { out.old ≡ [] }
        ensures { (plan : Plan) (past : Trace) (p : ℕ) → OrderStands self.old plan past
            → IsForwardable plan.header past p message.now
            → IsTurn self.new plan past p out.new }
    {
        for q in 0..self.header.ports {
            if self.is_next(q, message) {
                self.forward_to(q, message, out);
            }
        }
    }

    /// An outstanding read is a part of a message or a DVM Complete, and may have its R.
    fn may_respond(&self, x: &Progress) -> bool
        ensures { (plan : Plan) (past : Trace) (p : ℕ) (k : ℕ) (y : Transaction)
            → OrderStands self.now plan past
            → slice_get (pending_of plan.header past p Read) k ≡ Some y
            → x.now ≡ progress_of plan.header past y
            → result ≡ may_begin plan.header past (dvm_burst plan.header past y) }
    {
        let read = &x.transaction;
        is_dvm(read) && !x.complete && self.lets_respond(read)
    }

    /// The first part of a message or DVM Complete of the port that may have its R. Each port
    /// answers the parts of one sender in order, so of those only the first without R is asked.
    fn respondable(&self, port: u8) -> Option<Transaction>
        ensures some { (x : Transaction) → result ≡ Some x → (plan : Plan) (past : Trace)
            → OrderStands self.now plan past → IsRespondable plan.header past port x }
        ensures none { result ≡ None → (plan : Plan) (past : Trace) → OrderStands self.now plan past
            → may_serve dvm_burst plan.header past port ≡ false }
    {
        if self.quiet.has(port) {
            return None;
        }
        let reads = self.ports.reads(port);
        let mut unanswered = None;
        for i in 0..reads.len() {
            let read = &reads[i];
            if !is_behind(read, unanswered) && self.may_respond(read) {
                return Some(read.transaction);
            }
            unanswered = first_unanswered(unanswered, read);
        }
        None
    }

    /// Puts the R of a part of a message or DVM Complete that may have it.
    fn respond(&mut self, read: &Transaction, out: &mut Burst)
        requires { out.old ≡ [] }
        ensures { (plan : Plan) (past : Trace) (p : ℕ) → OrderStands self.old plan past
            → IsRespondable plan.header past p read.now
            → IsTurn self.new plan past p out.new }
    {
        self.put(plain_transfer(read), out);
    }

    /// The port's Sync may be completed.
    fn may_complete(&self, port: u8) -> bool
        ensures { (plan : Plan) (past : Trace) → OrderStands self.now plan past
            → result ≡ may_give_completion plan.header past port }
    {
        is_ace(&self.header, port)
            && self
                .system
                .rule_of_ac(port, 0, SnoopKind::DvmComplete)
                .is_none()
    }

    /// Puts the AC that completes the port's Sync, where it may have it.
    fn complete(&mut self, port: u8, out: &mut Burst)
        requires { out.old ≡ [] }
        ensures { (plan : Plan) (past : Trace) → OrderStands self.old plan past
            → may_give_completion plan.header past port ≡ true
            → IsTurn self.new plan past port out.new }
    {
        self.put(sync_completion(port), out);
    }
}

impl Engine for Order {
    ghost use Rattle.std.specs.Prelude.{true};
    ghost use Rattle.ace_engine.specs.Engines.{Order as OfOrder};
    ghost use Rattle.ace_order.specs.EngineLaws.{grows, legal};
    ghost use Rattle.ace_order.specs.Order.{OrderStands};

    ghost kind = { OfOrder };

    ghost serves = { λ _ _. true };

    ghost stands = { OrderStands };

    ghost legal = { legal };

    ghost grows = { grows };

    fn turn(&mut self, port: u8, out: &mut Burst) -> bool {
        if let Some(pair) = self.answerable(port) {
            self.answer(&pair, out);
        } else if let Some(message) = self.forwardable(port) {
            self.forward(&message, out);
        } else if let Some(read) = self.respondable(port) {
            self.respond(&read, out);
        } else if self.may_complete(port) {
            self.complete(port, out);
        } else {
            return false;
        }
        true
    }

    fn hear(&mut self, event: &Event) {
        self.note(event);
    }
}
