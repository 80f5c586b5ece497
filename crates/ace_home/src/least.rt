//! A look that costs little: a number below which no step may be taken for a transaction. Most of
//! those that are outstanding wait, so that few need be asked for their step.

ghost use Rattle.std.specs.Prelude.{◌≡◌, ℕ, true, false, Some};
ghost use Rattle.ace_event.specs.declared.event.Channel.TheVariants.{Read as Reads, Write as Writes};
ghost use Rattle.ace_event.specs.declared.header.Header.{Header as Headers};
ghost use Rattle.ace_model.specs.Plans.{Plan};
ghost use Rattle.ace_model.specs.Trace.{Trace};
ghost use Rattle.ace_portck.specs.declared.target.Progress.{Progress as Progresses};
ghost use Rattle.ace_lineck.specs.Stands.{place_on};
ghost use Rattle.ace_home.specs.Among.{PortSets, has_snoop_among};
ghost use Rattle.ace_home.specs.Home.{IsOf, IsServed, Tells};
ghost use Rattle.ace_home.specs.Services.{TakesNoneBelow, all_steps};
ghost use Rattle.ace_home.specs.Turns.{IsBehind};

use crate::candidates::is_held_up;
use crate::due::Due;
use crate::home::Home;
use ace_event::Channel;
use ace_model::Transaction;
use ace_portck::Progress;

/// Above the numbers of the home's steps.
const ALL_STEPS: u8 = 10;

/// No step for the transaction goes before the first one: none with a number below `least` may be
/// taken for it.
#[inline(always)]
pub fn goes_behind(first: &Option<Due>, x: &Transaction, least: u8) -> bool
    ensures { result ≡ true → (among : PortSets) (h : Headers) (past : Trace)
        → TakesNoneBelow among least h past x.now → IsBehind among h past x.now first.now }
{
    match first {
        None => least >= ALL_STEPS,
        Some(first) => {
            let number = first.service.number();
            number < least || (number == least && first.transaction.place < x.place)
        }
    }
}

impl Home {
    /// A number below which no step may be taken for the outstanding transaction.
    #[inline(always)]
    pub(crate) fn least(&self, x: &Progress) -> u8
        ensures { (among : PortSets) (plan : Plan) (past : Trace) (p : ℕ)
            → Tells self.now plan past p x.now
            → TakesNoneBelow among result plan.header past x.now.transaction }
    {
        let place = self.shares.lines().place(Some(x.transaction.addr));
        if x.granted {
            self.least_granted(place, x)
        } else {
            self.least_waiting(place)
        }
    }

    /// The same of one that waits for its line, of which `place` is the place: it can't be granted
    /// as long as another is.
    #[inline(always)]
    fn least_waiting(&self, place: Option<usize>) -> u8
        ensures { (among : PortSets) (plan : Plan) (past : Trace) (p : ℕ) (x : Progresses)
            → Tells self.now plan past p x → x.granted ≡ false
            → place ≡ place_on self.now.shares.lines (Some x.transaction.addr)
            → TakesNoneBelow among result plan.header past x.transaction }
    {
        if self.shares.lines().granted(place).is_some() {
            ALL_STEPS
        } else {
            5
        }
    }

    /// The same of a granted one.
    #[inline(always)]
    fn least_granted(&self, place: Option<usize>, x: &Progress) -> u8
        ensures { (among : PortSets) (plan : Plan) (past : Trace) (p : ℕ)
            → IsServed self.now plan past p place x.now
            → TakesNoneBelow among result plan.header past x.now.transaction }
    {
        if self.may_still_snoop(place) {
            return 6;
        }
        match x.transaction.chan {
            Channel::Read => self.least_of_read(place, x),
            Channel::Write => self.least_of_write(place, x),
        }
    }

    /// The same of a granted read, for which no port may be snooped. As long as it is held up, it
    /// waits, unless it has passed data.
    #[inline(always)]
    fn least_of_read(&self, place: Option<usize>, x: &Progress) -> u8
        ensures { (among : PortSets) (plan : Plan) (past : Trace) (p : ℕ)
            → IsServed self.now plan past p place x.now → x.now.transaction.chan ≡ Reads
            → has_snoop_among among plan.header past x.now.transaction ≡ false
            → TakesNoneBelow among result plan.header past x.now.transaction }
    {
        let lines = self.shares.lines();
        if is_held_up(lines, place, x) && !lines.has_passed_data(place) {
            ALL_STEPS
        } else {
            7
        }
    }

    /// The same of a granted write.
    #[inline(always)]
    fn least_of_write(&self, place: Option<usize>, x: &Progress) -> u8
        ensures { (among : PortSets) (plan : Plan) (past : Trace) (p : ℕ)
            → IsServed self.now plan past p place x.now → x.now.transaction.chan ≡ Writes
            → has_snoop_among among plan.header past x.now.transaction ≡ false
            → TakesNoneBelow among result plan.header past x.now.transaction }
    {
        if is_held_up(self.shares.lines(), place, x) {
            ALL_STEPS
        } else {
            9
        }
    }
}
