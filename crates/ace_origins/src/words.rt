// The word that an event brings, and whether a clause asks which word it is.
ghost use Rattle.std.specs.Prelude.{◌≡◌, option_map};
ghost use Rattle.std.specs.Option.{option_copied};
ghost use Rattle.ace_portck.specs.Stands.{Stands as PortsTell};
ghost use Rattle.ace_portck.specs.Targets.{Recording};
ghost use Rattle.ace_origins.specs.Words.{asks_word, is_b, is_c, is_d, next_of, word_in, wrong_word};

use crate::origins::SentWord;
use ace_clauses::Letter;
use ace_event::{Channel, Event};
use ace_portck::{PortCheck, Progress};

fn is_b(letter: Letter) -> bool
    ensures { result ≡ is_b letter }
{
    matches!(letter, Letter::B)
}

fn is_c(letter: Letter) -> bool
    ensures { result ≡ is_c letter }
{
    matches!(letter, Letter::C)
}

fn is_d(letter: Letter) -> bool
    ensures { result ≡ is_d letter }
{
    matches!(letter, Letter::D)
}

/// The clause of the rule is broken where another word comes than it expects.
fn asks_word(rule: u8, letter: Letter) -> bool
    ensures { result ≡ asks_word rule letter }
{
    rule == 11 && is_d(letter)
        || rule == 17 && is_c(letter)
        || rule == 20 && is_b(letter)
        || rule == 31
}

/// The word that comes with the next transfer of the read.
fn next_of(read: Option<&Progress>, word: u128) -> Option<SentWord>
    ensures { result ≡ option_map (next_of word) (option_copied read.entry) }
{
    match read {
        None => None,
        Some(x) => Some(SentWord {
            number: x.transfers,
            word,
        }),
    }
}

/// The word that the event brings, of its line.
fn word_in(ports: &PortCheck, event: &Event) -> Option<SentWord>
    ensures { (r : Recording) → PortsTell ports.now r
        → result ≡ word_in r.header r.past event.now }
{
    match *event {
        Event::R { port, id, word, .. } => next_of(
            ports.outstanding(port, Channel::Read, id),
            word,
        ),
        Event::W { port, word, .. } => Some(SentWord {
            number: ports.next_write_beat(port),
            word,
        }),
        Event::Cd { port, word, .. } => Some(SentWord {
            number: ports.next_sent_beat(port),
            word,
        }),
        Event::L { w, word, .. } => Some(SentWord { number: w, word }),
        _ => None,
    }
}

/// The word that came instead of another, where the clause asks for one.
pub(crate) fn wrong_word(
    ports: &PortCheck,
    event: &Event,
    rule: u8,
    letter: Letter,
) -> Option<SentWord>
    ensures { (r : Recording) → PortsTell ports.now r
        → result ≡ wrong_word r.header r.past event.now rule letter }
{
    if asks_word(rule, letter) {
        word_in(ports, event)
    } else {
        None
    }
}
