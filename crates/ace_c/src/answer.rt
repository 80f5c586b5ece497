// What a call answers.
ghost use Rattle.std.specs.Prelude.{◌≡◌};
ghost use Rattle.ace_c.specs.Answers.{status_of, rule_of, fine, answer_of, not_open};

/// Why a session takes no more events.
#[derive(Clone, Copy, Debug, PartialEq, Eq)]
pub enum Ending {
    /// The event breaks this rule, and no rule of a lesser number; none before it breaks one.
    Refused { rule: u8 },
    /// The record is no event, or a field of it is out of its range.
    OutOfRange,
    /// The event breaks no rule, and its transaction names the 4,097th line.
    TooManyLines,
    /// There was no memory for the event.
    NoMemory,
    /// No more events can be counted.
    TooManyEvents,
}

/// The answer about all events that were fed. `event` is of status 0 how many they are, and else
/// the number of the event that ended it, from 1; `rule` is of status 1 the rule that it breaks,
/// and else 0.
#[repr(C)]
#[derive(Clone, Copy, Debug, PartialEq, Eq)]
pub struct AceAnswer {
    pub event: u64,
    pub status: u8,
    pub rule: u8,
}

/// The status of a session that was ended so.
pub(crate) fn status_of(ending: Ending) -> u8
    ensures { result ≡ status_of ending }
{
    match ending {
        Ending::Refused { .. } => 1,
        Ending::OutOfRange => 2,
        Ending::TooManyLines => 3,
        Ending::NoMemory => 4,
        Ending::TooManyEvents => 5,
    }
}

/// The rule that an ending names, or 0.
fn rule_of(ending: Ending) -> u8
    ensures { result ≡ rule_of ending }
{
    match ending {
        Ending::Refused { rule } => rule,
        _ => 0,
    }
}

/// The answer of a session that was ended so by the event with this number.
pub(crate) fn answer_of(ending: Ending, event: u64) -> AceAnswer
    ensures { result ≡ answer_of ending event }
{
    AceAnswer {
        event,
        status: status_of(ending),
        rule: rule_of(ending),
    }
}

/// The answer of a session that goes on after so many events.
pub(crate) fn fine(events: u64) -> AceAnswer
    ensures { result ≡ fine events }
{
    AceAnswer {
        event: events,
        status: 0,
        rule: 0,
    }
}

/// The answer of a closed handle.
pub(crate) fn not_open() -> AceAnswer
    ensures { result ≡ not_open }
{
    AceAnswer {
        event: 0,
        status: 6,
        rule: 0,
    }
}
