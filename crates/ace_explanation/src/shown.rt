// The events that are shown of a refusal.
ghost use Rattle.std.specs.Prelude.{◌≡◌, ◌++◌, ◌∷◌, [], map, IfOk, OnOk};
ghost use Rattle.ace_explanation.specs.Refusals.{shown_events};
ghost use Rattle.ace_journal.specs.declared.rows.Row.{Row as Shown};

use crate::refusal::Refusal;
use ace_io::NoMemory;
use ace_journal::Row;
use std::alloc::Global;

/// Adds an event.
fn add(events: &mut Vec<u64>, event: u64) -> Result<(), NoMemory>
    ensures { OnOk result (events.new.items ≡ events.old.items ++ event ∷ []) }
{
    match events.push(event) {
        Ok(()) => Ok(()),
        Err(_) => Err(NoMemory),
    }
}

/// Adds the last events of the rows.
#[tactic(auto, using(crate::proofs::LastEvents::last_step))]
fn add_last(events: &mut Vec<u64>, rows: &[Row]) -> Result<(), NoMemory>
    ensures { OnOk result (events.new.items
        ≡ events.old.items ++ map (λ (row : Shown). row.last) rows.now) }
{
    for row in rows {
        add(events, row.last)?;
    }
    Ok(())
}

/// The events of which a time is told: the last ones of the rows of what led to the event, and the
/// event itself.
///
/// # Errors
///
/// `NoMemory` where there is none for the list.
pub fn shown_events(alloc: Global, refusal: &Refusal) -> Result<Vec<u64>, NoMemory>
    ensures { IfOk result (λ events. events.items ≡ shown_events refusal.now) }
{
    let led = &refusal.led;
    let mut events = Vec::new(alloc);
    add_last(&mut events, &led.rows[..led.count])?;
    add(&mut events, led.own.last)?;
    add(&mut events, refusal.index)?;
    Ok(events)
}
