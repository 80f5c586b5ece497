//! A D: the least rule of those that look at one line that it breaks, and what it leaves of what is
//! kept of its line.

ghost use Rattle.std.specs.Prelude.{◌≡◌, ◌==◌, ◌&&◌, not, ℕ, Bool, ◌∷◌, None, length};
ghost use Rattle.ace_event.specs.Bytes.{merged};
ghost use Rattle.ace_event.specs.declared.event.Event.TheVariants.{D};
ghost use Rattle.ace_event.specs.declared.header.Header.{Header};
ghost use Rattle.ace_event.specs.declared.line.Line.{Line};
ghost use Rattle.ace_model.specs.Trace.{Trace, is_some_and};
ghost use Rattle.ace_model.specs.Values.{full_line};
ghost use Rattle.ace_portck.specs.Target.{Target};
ghost use Rattle.ace_lineck.specs.Holders.{HoldersStand, IsHoldersStep, awaits_store};
ghost use Rattle.ace_lineck.specs.States.{IsStatesStep, StatesStand};

use crate::LineCheck;
use crate::kinds::is_make_unique;
use crate::record::Holder;
use crate::states::set_state;
use ace_codes::LineState;
use ace_event::{Line, merge};
use ace_portck::{Progress, unless};
use ace_tables::is_unique;

/// The store is the one of the MakeUnique, which is complete and has had none: a store of the whole
/// line with x 0.
#[inline(always)]
fn is_own_store(own: &Progress, strobe: u64, x: bool) -> bool
    ensures { result
        ≡ ((awaits_store own.now && not own.now.stored) && not x && (strobe == full_line)) }
{
    is_make_unique(&own.transaction) && own.complete && !own.stored && !x && strobe == u64::MAX
}

/// The states in which the ports have the line, after the D: it is unique and dirty at its port,
/// unless it is the store of a MakeUnique.
#[inline(always)]
fn dirty(states: &mut [LineState; 32], port: u8, own: bool)
    ensures { (h : Header) (past : Trace) (l addr strobe : ℕ) (x : Bool) (line : Line) (t : Target)
        → IsStatesStep h past l (D port addr strobe x line) t states.old
        → own ≡ is_some_and t.own awaits_store
        → StatesStand h (D port addr strobe x line ∷ past) l states.new }
{
    if !own {
        set_state(states, port, LineState::UD);
    }
}

/// What a store leaves of what is kept of the data of its port.
#[inline(always)]
fn store_into(holder: &mut Holder, strobe: u64, line: &Line)
    ensures { holder.new ≡ record holder.old { copy = merged holder.old.copy strobe line.now } }
{
    holder.copy = merge(holder.copy, strobe, *line);
}

/// The same of the port of the D.
#[inline(always)]
fn store_at(holders: &mut Vec<Holder>, port: u8, strobe: u64, line: &Line)
    ensures stand { (h : Header) (past : Trace) (l addr : ℕ) (x : Bool) (t : Target)
        → IsHoldersStep h past l (D port addr strobe x line.now) t None holders.old.items
        → HoldersStand (D port addr strobe x line.now ∷ past) l holders.new.items }
    ensures room { length holders.new.items ≡ length holders.old.items }
{
    let port = port as usize;
    if port < holders.len() {
        store_into(&mut holders[port], strobe, line);
    }
}

impl LineCheck {
    ghost use Rattle.std.specs.Prelude.{◌<◌, ◌-◌, ◌^◌, true, Some, is_some};
    ghost use Rattle.std.specs.Option.{option_copied};
    ghost use Rattle.ace_model.specs.Accepted.{least_broken, least_of};
    ghost use Rattle.ace_model.specs.AddressRules.{k1};
    ghost use Rattle.ace_model.specs.Shares.{line_rules};
    ghost use Rattle.ace_portck.specs.Targets.{Recording, after, own_on};
    ghost use Rattle.ace_lineck.specs.Stands.{Stands, IsRoomy, place_on};

    /// The least rule of the share that a D breaks: K32, that its port holds the line alone and has
    /// no transaction on it, or that the D is the store of the port's MakeUnique (Arm IHI 0022E,
    /// C4). `own` is the port's outstanding transaction on the line, and `place` that of the line.
    #[inline(always)]
    pub fn rule_of_d(
        &self,
        port: u8,
        strobe: u64,
        x: bool,
        own: Option<&Progress>,
        place: Option<usize>,
    ) -> Option<u8>
        ensures least { (r : Recording) (addr : ℕ) (line : Line) → Stands self.now r
            → place ≡ place_on self.now (Some addr)
            → k1 r.header r.past (D port addr strobe x line) ≡ true
            → option_copied own.entry ≡ own_on r.header r.past port (Some addr)
            → result ≡ least_of line_rules r.header r.past (D port addr strobe x line) }
        ensures own { result ≡ None
            → is_some own.entry ≡ is_some_and (option_copied own.entry) awaits_store }
    {
        match own {
            None => unless(is_unique(self.record(place).state(port)), Some(32)),
            Some(begun) => unless(is_own_store(begun, strobe, x), Some(32)),
        }
    }

    /// Takes a D that breaks no rule. `own` says whether it is the store of its port's MakeUnique,
    /// and `place` is that of its line.
    #[inline(always)]
    pub fn hear_store(
        &mut self,
        port: u8,
        strobe: u64,
        line: &Line,
        own: bool,
        place: Option<usize>,
    )
        ensures stands { (r : Recording) (addr : ℕ) (x : Bool) → Stands self.old r
            → place ≡ place_on self.old (Some addr)
            → own ≡ is_some_and (own_on r.header r.past port (Some addr)) awaits_store
            → least_broken r.header r.past (D port addr strobe x line.now) ≡ None
            → length r.past < 2 ^ 64 - 1
            → Stands self.new (after r (D port addr strobe x line.now)) }
        ensures roomy { (n : ℕ) (past : Trace)
            → IsRoomy n past self.old → IsRoomy n past self.new }
    {
        let Some(place) = place else {
            return;
        };
        let Some(kept) = self.lines.get_index_mut(place) else {
            return;
        };
        dirty(&mut kept.states, port, own);
        store_at(&mut kept.holders, port, strobe, line);
    }
}
