// The search for a word in what the checker keeps.
ghost use Rattle.std.specs.Prelude.{◌≡◌, ◌+◌, ◌<◌, ℕ, true, false, IfNone, IfSome, List, Some, slice_get};
ghost use Rattle.ace_belongs.specs.Belongs.{event_line};
ghost use Rattle.ace_journal.specs.Journals.{JournalStands, lines_of};
ghost use Rattle.ace_lineck.specs.Stands.{Stands as LinesTell, place_on};
ghost use Rattle.ace_portck.specs.Stands.{Stands as PortsTell};
ghost use Rattle.ace_portck.specs.Targets.{Recording};
ghost use Rattle.ace_since.specs.Kept.{SinceStands};
ghost use Rattle.ace_origins.specs.Found.{IsLeast};
ghost use Rattle.ace_origins.specs.Origins.{is_held, IsFirstWord, IsHolder, IsInCopy, IsNotOn, IsNotThere, IsOrigin, IsOriginOf};

use crate::origins::{Holder, Origin, SentWord};
use crate::words::wrong_word;
use ace_clauses::Letter;
use ace_codes::LineState;
use ace_event::Event;
use ace_expected::word_of;
use ace_journal::Journal;
use ace_lineck::LineCheck;
use ace_portck::PortCheck;
use ace_since::Since;

/// A word of a line that stands there, and what has it.
#[derive(Clone, Copy)]
struct Found {
    line: u32,
    number: u8,
    holder: Holder,
}

/// The port holds the line whose record stands at the place.
fn is_held(lines: &LineCheck, place: Option<usize>, port: u8) -> bool
    ensures { (r : Recording) (line : ℕ) → LinesTell lines.now r
        → place ≡ place_on lines.now (Some line)
        → result ≡ is_held r.header r.past port line }
{
    !matches!(lines.state(place, port), LineState::I)
}

/// The port's copy of the line whose record stands at the place has the word there.
fn is_in_copy(lines: &LineCheck, place: Option<usize>, port: u8, number: u8, word: u128) -> bool
    ensures has { (r : Recording) (line : ℕ) → LinesTell lines.now r
        → place ≡ place_on lines.now (Some line)
        → result ≡ true → IsInCopy r.header r.past line number word port }
    ensures lacks { (r : Recording) (line : ℕ) → LinesTell lines.now r
        → place ≡ place_on lines.now (Some line)
        → result ≡ false → IsInCopy r.header r.past line number word port → ⊥ }
{
    if word_of(&lines.copy(place, port), number) != word {
        return false;
    }
    word != 0 || is_held(lines, place, port)
}

/// The first port whose copy has the word there.
fn first_copy(lines: &LineCheck, line: u32, number: u8, word: u128) -> Option<u8>
    ensures found { (r : Recording) → LinesTell lines.now r
        → IfSome result (IsInCopy r.header r.past line number word) }
    ensures first { (r : Recording) → LinesTell lines.now r
        → IfSome result (λ p. (q : ℕ) → q < p → IsInCopy r.header r.past line number word q → ⊥) }
    ensures none { (r : Recording) → LinesTell lines.now r
        → IfNone result ((p : ℕ) → p < 32 → IsInCopy r.header r.past line number word p → ⊥) }
{
    let place = lines.place(Some(line));
    for port in 0..32u8 {
        if is_in_copy(lines, place, port, number, word) {
            return Some(port);
        }
    }
    None
}

/// The first of memory and of the ports that has the word there.
fn holder(lines: &LineCheck, since: &Since, line: u32, number: u8, word: u128) -> Option<Holder>
    ensures found { (r : Recording) → LinesTell lines.now r
        → SinceStands r.header r.past since.now
        → IfSome result (IsHolder r.header r.past line number word) }
    ensures none { (r : Recording) → LinesTell lines.now r
        → IfNone result (IsNotThere r.header r.past line number word) }
{
    if word_of(&lines.memory(line), number) == word {
        return Some(Holder::Memory {
            since: since.of_memory(line),
        });
    }
    match first_copy(lines, line, number, word) {
        None => None,
        Some(port) => Some(Holder::Copy {
            port,
            held: is_held(lines, lines.place(Some(line)), port),
        }),
    }
}

/// The first word of the line that is it.
fn first_word(lines: &LineCheck, since: &Since, line: u32, word: u128) -> Option<Found>
    ensures found { (r : Recording) → LinesTell lines.now r
        → SinceStands r.header r.past since.now
        → IfSome result (λ x. IsFirstWord r.header r.past line word x.number x.holder) }
    ensures line { IfSome result (λ x. x.line ≡ line) }
    ensures none { (r : Recording) → LinesTell lines.now r
        → IfNone result (IsNotOn r.header r.past line word) }
{
    for number in 0..4u8 {
        if let Some(holder) = holder(lines, since, line, number, word) {
            return Some(Found {
                line,
                number,
                holder,
            });
        }
    }
    None
}

/// Of the place that was found so far and of the first word of a line that with the lesser address.
fn lesser_of(lines: &LineCheck, since: &Since, line: u32, word: u128, found: Found) -> Found
    ensures { (r : Recording) → LinesTell lines.now r → SinceStands r.header r.past since.now
        → (all : List ℕ) (n : ℕ) → slice_get all n ≡ Some line
        → IsLeast r.header r.past word all n (Some found)
        → IsLeast r.header r.past word all (n + 1) (Some result) }
{
    if found.line <= line {
        return found;
    }
    match first_word(lines, since, line, word) {
        None => found,
        Some(lesser) => lesser,
    }
}

/// The same, where a place may have been found.
fn lesser(
    lines: &LineCheck,
    since: &Since,
    line: u32,
    word: u128,
    least: Option<Found>,
) -> Option<Found>
    ensures { (r : Recording) → LinesTell lines.now r → SinceStands r.header r.past since.now
        → (all : List ℕ) (n : ℕ) → slice_get all n ≡ Some line
        → IsLeast r.header r.past word all n least
        → IsLeast r.header r.past word all (n + 1) result }
{
    match least {
        None => first_word(lines, since, line, word),
        Some(found) => Some(lesser_of(lines, since, line, word, found)),
    }
}

/// The same of the line at this place of the journal.
fn lesser_at(
    lines: &LineCheck,
    since: &Since,
    journal: &Journal,
    place: usize,
    word: u128,
    least: Option<Found>,
) -> Option<Found>
    ensures { (r : Recording) → LinesTell lines.now r → SinceStands r.header r.past since.now
        → IsLeast r.header r.past word (lines_of journal.now) place least
        → IsLeast r.header r.past word (lines_of journal.now) (place + 1) result }
{
    match journal.line_at(place) {
        None => least,
        Some(line) => lesser(lines, since, line, word, least),
    }
}

/// The first word at the line of the least address that has it, of all lines.
fn any_line(lines: &LineCheck, since: &Since, journal: &Journal, word: u128) -> Option<Found>
    ensures found { (r : Recording) → LinesTell lines.now r → SinceStands r.header r.past since.now
        → JournalStands r.header r.past journal.now → (word ≡ 0 → ⊥)
        → IfSome result (λ x. IsFirstWord r.header r.past x.line word x.number x.holder
        × ((q : ℕ) → q < x.line → IsNotOn r.header r.past q word)) }
    ensures none { (r : Recording) → LinesTell lines.now r → SinceStands r.header r.past since.now
        → JournalStands r.header r.past journal.now → (word ≡ 0 → ⊥)
        → IfNone result ((q : ℕ) → IsNotOn r.header r.past q word) }
{
    let mut least = None;
    for place in 0..journal.lines() {
        least = lesser_at(lines, since, journal, place, word, least);
    }
    least
}

/// Where a word stands elsewhere than as the word of its number of the line.
fn elsewhere(lines: &LineCheck, since: &Since, journal: &Journal, line: u32, word: u128) -> Origin
    ensures { (r : Recording) (k : ℕ) → LinesTell lines.now r
        → SinceStands r.header r.past since.now → JournalStands r.header r.past journal.now
        → IsNotThere r.header r.past line k word
        → IsOrigin r.header r.past line k word result }
{
    if word == 0 {
        return Origin::Zeros;
    }
    if let Some(found) = first_word(lines, since, line, word) {
        return Origin::OtherWord {
            number: found.number,
            holder: found.holder,
        };
    }
    match any_line(lines, since, journal, word) {
        None => Origin::Nowhere,
        Some(found) => Origin::OtherLine {
            line: found.line,
            number: found.number,
            holder: found.holder,
        },
    }
}

/// Where the word that came on the line stands.
fn origin_on(
    lines: &LineCheck,
    since: &Since,
    journal: &Journal,
    line: u32,
    sent: &SentWord,
) -> Origin
    ensures { (r : Recording) → LinesTell lines.now r → SinceStands r.header r.past since.now
        → JournalStands r.header r.past journal.now
        → IsOrigin r.header r.past line sent.now.number sent.now.word result }
{
    match holder(lines, since, line, sent.number, sent.word) {
        Some(holder) => Origin::Same { holder },
        None => elsewhere(lines, since, journal, line, sent.word),
    }
}

/// Where the word stands that the event, which belongs to this line, if it belongs to one, brings
/// instead of the one that the clause of the rule expects; nothing where the clause expects none.
///
/// It looks at each line that is kept, and is meant for the event that breaks a rule.
pub fn origin(
    ports: &PortCheck,
    lines: &LineCheck,
    since: &Since,
    journal: &Journal,
    line: Option<u32>,
    event: &Event,
    rule: u8,
    letter: Letter,
) -> Option<Origin>
    ensures { (r : Recording) → PortsTell ports.now r → LinesTell lines.now r
        → SinceStands r.header r.past since.now → JournalStands r.header r.past journal.now
        → line ≡ event_line r.header r.past event.now
        → IsOriginOf r.header r.past event.now rule letter result }
{
    match (line, wrong_word(ports, event, rule, letter)) {
        (Some(line), Some(sent)) => Some(origin_on(lines, since, journal, line, &sent)),
        _ => None,
    }
}
