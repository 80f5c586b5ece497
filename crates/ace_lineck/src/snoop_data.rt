//! A CD: the least rule of the share that it breaks, and what it leaves of the grant of its line.

ghost use Rattle.std.specs.Prelude.{◌≡◌, ◌==◌, ◌∷◌, ℕ, Bool, List};
ghost use Rattle.ace_event.specs.declared.event.Event.TheVariants.{Cd};
ghost use Rattle.ace_event.specs.declared.header.Header.{Header};
ghost use Rattle.ace_event.specs.declared.line.Line.{Line};
ghost use Rattle.ace_model.specs.Copies.{word_of};
ghost use Rattle.ace_model.specs.Trace.{Trace};
ghost use Rattle.ace_portck.specs.Target.{Target};
ghost use Rattle.ace_lineck.specs.declared.record.Holder.{Holder};
ghost use Rattle.ace_lineck.specs.Grants.{GrantStands, IsGrantStep};
ghost use Rattle.ace_lineck.specs.Holders.{holder_at};

use crate::LineCheck;
use crate::grant::Grant;
use crate::record::LineRecord;
use crate::stages::{Stage, set_stage};
use ace_portck::unless;

/// The word is that of the copy of the port at its answer.
#[inline(always)]
fn is_word_sent(kept: &LineRecord, port: u8, beat: u8, word: u128) -> bool
    ensures { result ≡ (word == word_of (holder_at kept.now.holders.items port).sent beat) }
{
    word == kept.sent_word(port, beat)
}

/// The beat of this number, from 0, is the fourth of its burst.
#[inline(always)]
fn is_fourth(beat: u8) -> bool
    ensures { result ≡ (beat == 3) }
{
    beat == 3
}

/// The data of the port under the grant are whole.
#[inline(always)]
fn complete_data(grant: &mut Option<Grant>, port: u8)
    ensures { (h : Header) (past : Trace) (l : ℕ) (last : Bool) (word : ℕ) (t : Target)
        (xs : List Holder) (memory : Line)
        → IsGrantStep h past l (Cd port last word) t grant.old xs memory → t.beat ≡ 3
        → GrantStands h (Cd port last word ∷ past) l grant.new }
{
    match grant {
        None => {}
        Some(g) => set_stage(&mut g.stages, port, Stage::Done),
    }
}

impl LineCheck {
    ghost use Rattle.std.specs.Prelude.{◌<◌, ◌-◌, ◌^◌, true, Some, None, length};
    ghost use Rattle.ace_model.specs.declared.snoops.Snoop.{Snoop};
    ghost use Rattle.ace_model.specs.Accepted.{least_broken, least_of};
    ghost use Rattle.ace_model.specs.AddressRules.{k1};
    ghost use Rattle.ace_model.specs.Replies.{next_sent_beat};
    ghost use Rattle.ace_model.specs.Shares.{line_rules};
    ghost use Rattle.ace_portck.specs.Targets.{Recording, after, sending};
    ghost use Rattle.ace_lineck.specs.Stands.{Stands, IsRoomy, place_on};

    /// The least rule of the share that a CD breaks which is this beat of the data for a snoop: of
    /// K17, that its word is that of the port's copy at its answer (Arm IHI 0022E, C3.8). `place`
    /// is that of the line of the snoop.
    #[inline(always)]
    pub fn rule_of_cd(&self, place: Option<usize>, port: u8, beat: u8, word: u128) -> Option<u8>
        ensures { (r : Recording) (s : Snoop) (last : Bool)
            → Stands self.now r → k1 r.header r.past (Cd port last word) ≡ true
            → sending r.past port ≡ Some s → beat ≡ next_sent_beat r.past port
            → place ≡ place_on self.now (Some s.addr)
            → result ≡ least_of line_rules r.header r.past (Cd port last word) }
    {
        unless(is_word_sent(self.record(place), port, beat, word), Some(17))
    }

    /// Takes a CD that breaks no rule and is this beat of the data for a snoop: the fourth makes
    /// them whole. `place` is that of the line of the snoop.
    #[inline(always)]
    pub fn hear_sent(&mut self, place: Option<usize>, port: u8, beat: u8)
        ensures stands { (r : Recording) (s : Snoop) (last : Bool) (word : ℕ)
            → Stands self.old r → sending r.past port ≡ Some s
            → beat ≡ next_sent_beat r.past port → place ≡ place_on self.old (Some s.addr)
            → least_broken r.header r.past (Cd port last word) ≡ None
            → length r.past < 2 ^ 64 - 1 → Stands self.new (after r (Cd port last word)) }
        ensures roomy { (n : ℕ) (past : Trace) → IsRoomy n past self.old → IsRoomy n past self.new }
    {
        if is_fourth(beat) {
            self.hear_fourth(place, port);
        }
    }

    /// The same, of the fourth.
    #[inline(always)]
    fn hear_fourth(&mut self, place: Option<usize>, port: u8)
        ensures stands { (r : Recording) (s : Snoop) (last : Bool) (word : ℕ)
            → Stands self.old r → sending r.past port ≡ Some s
            → next_sent_beat r.past port ≡ 3 → place ≡ place_on self.old (Some s.addr)
            → least_broken r.header r.past (Cd port last word) ≡ None
            → length r.past < 2 ^ 64 - 1 → Stands self.new (after r (Cd port last word)) }
        ensures roomy { (n : ℕ) (past : Trace) → IsRoomy n past self.old → IsRoomy n past self.new }
    {
        let Some(place) = place else {
            return;
        };
        let Some(kept) = self.lines.get_index_mut(place) else {
            return;
        };
        complete_data(&mut kept.grant, port);
    }
}
