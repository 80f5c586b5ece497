// What holds between any two steps of the callers, and what each kind of step tells.

ghost use Rattle.ace_live.specs.Rule.{Keeps};
ghost use Rattle.ace_live.specs.Steps.{claimed, looked, served};
ghost use Rattle.ace_live.specs.Steps.{first_left, first_right, longer, spent};
ghost use Rattle.ace_live.specs.Views.{opening_view};

use crate::{LiveState, Setting};
use ace_history::Entry;
use atomic_table::{Join, Play, Split, TableRule};
use std::collections::LinkedList;

/// How far a seat is in a call.
pub enum Stage {
    Idle,
    /// It has this ticket.
    Waits(u64),
    /// The turn is that of its ticket.
    Holds(u64),
}

/// What a seat knows. It is spoken of only: no value of it is made.
pub struct View {
    pub ports: LinkedList<u8>,
    pub stage: Stage,
    pub seen: LinkedList<Entry>,
    pub setting: Setting,
    /// What seats had seen that it was joined with.
    pub heard: LinkedList<LinkedList<Entry>>,
}

/// The rule of the table that a Live stands on.
pub struct LiveRule;

impl TableRule<Option<LiveState>, View, Setting> for LiveRule {
    ghost holds = { Keeps };

    ghost first = { opening_view };
}

/// Claims a turn, on the word of tickets.
pub(crate) struct Claim;

impl Play<Option<LiveState>, View> for Claim {
    ghost then = { claimed };
}

/// Loads the turn.
pub(crate) struct Look;

impl Play<Option<LiveState>, View> for Look {
    ghost then = { looked };
}

/// Serves: the next turn comes, and the slot goes back.
pub(crate) struct Serve;

impl Play<Option<LiveState>, View> for Serve {
    ghost then = { served };
}

/// Gives up the first port.
pub(crate) struct FirstPort;

impl Split<View> for FirstPort {
    ghost left = { first_left };

    ghost right = { first_right };
}

/// Takes in another seat, with the longer of the two histories.
pub(crate) struct Longer;

impl Join<View> for Longer {
    ghost both = { longer };

    ghost spent = { spent };
}
