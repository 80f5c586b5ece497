// Which events of a line `chart` draws, by the words of its options.
ghost use Rattle.std.specs.Prelude.{◌≡◌, ◌≤◌, ℕ, List, Bool, true, Option, option_map, slice_set, MatchOption};
ghost use Rattle.std.specs.List.{slice_split};
ghost use Rattle.ace_tool.specs.ChartSelected.{AreEnds, ArePorts, IsAround, IsPointed, IsPort, IsRange, IsSpan, NamePorts, is_comma};

use crate::options::limit_of;
use ace_call::number_of;

/// How many events are drawn before and behind the one around which they are.
const AROUND: u64 = 20;

/// The number behind the point that the word begins with, if it is one.
fn behind_point(word: &str) -> Option<u64>
    ensures { MatchOption result ((n : ℕ) → ¬ IsPointed word.now n) (IsPointed word.now) }
{
    match word.split_once('.') {
        Some((front, number)) => {
            if front.is_empty() {
                number_of(number)
            } else {
                None
            }
        }
        None => None,
    }
}

/// The numbers, if the first isn't greater.
fn in_order(first: u64, last: u64) -> Option<(u64, u64)>
    ensures { MatchOption result (¬ (first ≤ last))
        (λ r. (r.0 ≡ first) × (r.1 ≡ last) × (first ≤ last)) }
{
    if first <= last {
        Some((first, last))
    } else {
        None
    }
}

/// The numbers of the first and the last event between which two points stand, if they are right.
fn range_of(front: &str, back: &str) -> Option<(u64, u64)>
    ensures { MatchOption result ((first last : ℕ) → ¬ AreEnds front.now back.now first last)
        (λ r. AreEnds front.now back.now r.0 r.1) }
{
    let Some(first) = number_of(front) else {
        return None;
    };
    match behind_point(back) {
        Some(last) => in_order(first, last),
        None => None,
    }
}

/// The numbers of the first and the last event that the word says, if it is right.
fn range_said(word: &str) -> Option<(u64, u64)>
    ensures { MatchOption result ((first last : ℕ) → ¬ IsRange word.now first last)
        (λ r. IsRange word.now r.0 r.1) }
{
    match word.split_once('.') {
        Some((front, back)) => range_of(front, back),
        None => None,
    }
}

/// The numbers of the first and the last event around the one that the word says, if it is right.
fn around_said(word: &str) -> Option<(u64, u64)>
    ensures { MatchOption result ((first last : ℕ) → ¬ IsAround word.now first last)
        (λ r. IsAround word.now r.0 r.1) }
{
    match limit_of(Some(word), u64::MAX - AROUND) {
        Some(number) => Some((number.saturating_sub(AROUND), number + AROUND)),
        None => None,
    }
}

/// The numbers of the first and the last event that the words say, if they are right; without them
/// it is each event.
pub(crate) fn span_said(events: Option<&str>, around: Option<&str>) -> Option<(u64, u64)>
    ensures { MatchOption result
        ((first last : ℕ) → ¬ IsSpan (option_map (λ w. w.now) events.entry)
        (option_map (λ w. w.now) around.entry) first last)
        (λ r. IsSpan (option_map (λ w. w.now) events.entry)
        (option_map (λ w. w.now) around.entry) r.0 r.1) }
{
    match (around, events) {
        (None, None) => Some((1, u64::MAX)),
        (None, Some(word)) => range_said(word),
        (Some(word), None) => around_said(word),
        (Some(_), Some(_)) => None,
    }
}

/// The port whose number the word is, if it is one.
#[tactic(auto, using(crate::proofs::ChartSelections::ports))]
fn port_said(word: &str) -> Option<usize>
    ensures { MatchOption result ((p : ℕ) → ¬ IsPort word.now p) (IsPort word.now) }
{
    match number_of(word) {
        Some(port) => { if port < 32 { Some(port as usize) } else { None } }
        None => None,
    }
}

/// The ports so far and the one whose number the word is, if it is one.
fn with_port(word: &str, so_far: [bool; 32]) -> Option<[bool; 32]>
    ensures { MatchOption result ((p : ℕ) → ¬ IsPort word.now p)
        (λ ports. (p : ℕ) × IsPort word.now p × (ports ≡ slice_set so_far p true)) }
{
    match port_said(word) {
        Some(port) => {
            let mut ports = so_far;
            ports[port] = true;
            Some(ports)
        }
        None => None,
    }
}

/// The ports so far and those that the word names, with commas between, if it is right.
fn ports_with(word: &str, so_far: [bool; 32]) -> Option<[bool; 32]>
    ensures { MatchOption result
        ((ports : List Bool) → ¬ NamePorts (slice_split is_comma word.now) so_far ports)
        (NamePorts (slice_split is_comma word.now) so_far) }
{
    match word.split_once(',') {
        Some((first, others)) => match with_port(first, so_far) {
            Some(ports) => ports_with(others, ports),
            None => None,
        },
        None => with_port(word, so_far),
    }
}

/// The ports that the word names, if it is right; without one none are chosen.
pub(crate) fn ports_said(word: Option<&str>) -> Option<Option<[bool; 32]>>
    ensures { MatchOption result
        ((ports : Option (List Bool)) → ¬ ArePorts (option_map (λ w. w.now) word.entry) ports)
        (ArePorts (option_map (λ w. w.now) word.entry)) }
{
    match word {
        Some(word) => match ports_with(word, [false; 32]) {
            Some(ports) => Some(Some(ports)),
            None => None,
        },
        None => Some(None),
    }
}
