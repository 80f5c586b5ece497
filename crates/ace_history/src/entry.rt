// The entries of a history, and how they are read off the events.
ghost use Rattle.std.specs.Prelude.{◌≡◌, ◌≤◌, length, reverse, take};
ghost use Rattle.std.specs.List.{AllByRecursion};
ghost use Rattle.ace_event.specs.Range.{FitsFields};
ghost use Rattle.ace_history.specs.Histories.{word_loaded};
ghost use Rattle.ace_history.specs.Newest.{last_entry, outcome_told, word_told};

use ace_event::laws::every_event_fits;
use ace_event::{Event, Outcome};
use ace_model::Op;

/// What a call did: the port and the operation of the call, its outcome, and the word that it
/// loaded, 0 where it is no load.
#[derive(Clone, Copy, Debug, PartialEq, Eq)]
pub struct Entry {
    pub port: u8,
    pub op: Op,
    pub res: Outcome,
    pub word: u128,
}

/// What the newest event tells of the word that the port has loaded since its last OP.
fn word_told(event: &Event, port: u8) -> Option<u128>
    ensures { result ≡ word_told event.now port }
{
    match *event {
        Event::Op { port: own, .. } => { if port == own { Some(0) } else { None } }
        Event::L {
            port: own,
            word,
            ..
        } => { if port == own { Some(word) } else { None } }
        _ => None,
    }
}

/// The outcome of the event, where it is an OP of the port.
fn outcome_told(event: &Event, port: u8) -> Option<Outcome>
    ensures { result ≡ outcome_told event.now port }
{
    match *event {
        Event::Op { port: own, res, .. } => { if port == own { Some(res) } else { None } }
        _ => None,
    }
}

/// The word that the port has loaded since its last OP, 0 where it has loaded none.
fn word_loaded(events: &[Event], port: u8) -> u128
    ensures { result ≡ word_loaded (reverse events.now) port }
{
    for i in 0..events.len() {
        if let Some(word) = word_told(&events[events.len() - 1 - i], port) {
            return word;
        }
    }
    0
}

/// The entry of the port's last OP, where it was that of the operation.
pub fn last_entry(events: &[Event], port: u8, op: Op) -> Entry
    ensures { result ≡ last_entry (record { port = port; op = op }) (reverse events.now) }
{
    for i in 0..events.len() {
        let place = events.len() - 1 - i;
        if let Some(res) = outcome_told(&events[place], port) {
            let word = word_loaded(&events[..place], port);
            return Entry {
                port,
                op,
                res,
                word,
            };
        }
    }
    Entry {
        port,
        op,
        res: Outcome::Ok,
        word: 0,
    }
}

/// The fields of the events fit, where those of the first so many do. It does no work.
pub fn rest_fits(events: &[Event], before: usize)
    requires within { before ≤ length events.now }
    requires first { AllByRecursion FitsFields (reverse (take before events.now)) }
    ensures { AllByRecursion FitsFields (reverse events.now) }
{
    for i in before..events.len() {
        every_event_fits(events[i]);
    }
}
