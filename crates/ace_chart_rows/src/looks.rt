// What there is of a line at a point of a trace.
ghost use Rattle.std.specs.Prelude.{◌≡◌, ℕ, Some};
ghost use Rattle.ace_chart_rows.specs.Looks.{look_of, look_on, states_of};
ghost use Rattle.ace_chart_rows.specs.Values.{values_of};
ghost use Rattle.ace_lineck.specs.Stands.{Stands, place_on};
ghost use Rattle.ace_portck.specs.Targets.{Recording};

use crate::values::{Values, newest_of, same_line};
use ace_chart::Look;
use ace_codes::LineState;
use ace_lineck::LineCheck;

/// The state in which each port has the line whose record stands at the place.
fn states_at(lines: &LineCheck, place: Option<usize>) -> [LineState; 32]
    ensures { (r : Recording) (line : ℕ) → Stands lines.now r
        → place ≡ place_on lines.now (Some line)
        → result ≡ states_of r.header r.past line }
{
    let mut states = [LineState::I; 32];
    for port in 0..32u8 {
        states[usize::from(port)] = lines.state(place, port);
    }
    states
}

/// What there is of a line that had these values.
fn look_of(lines: &LineCheck, values: &Values, line: u32) -> Look
    ensures { (r : Recording) → Stands lines.now r
        → values.now.kept.items ≡ values_of r.header r.past (Some line)
        → result ≡ look_of r.header r.past line }
{
    let place = lines.place(Some(line));
    Look {
        states: states_at(lines, place),
        granted: lines.granted_transaction(place),
        behind: !same_line(&lines.memory(line), &newest_of(values)),
    }
}

/// What there is of the line that is asked for, which had these values; nothing where none is.
pub(crate) fn look_on(lines: &LineCheck, values: &Values, line: Option<u32>) -> Look
    ensures { (r : Recording) → Stands lines.now r
        → values.now.kept.items ≡ values_of r.header r.past line
        → result ≡ look_on r.header r.past line }
{
    match line {
        Some(line) => look_of(lines, values, line),
        None => Look {
            states: [LineState::I; 32],
            granted: None,
            behind: false,
        },
    }
}
