// What is drawn of the bytes of a trace.
ghost use Rattle.std.specs.Prelude.{◌≡◌, ◌≤◌, IfOk, IfSome};
ghost use Rattle.ace_chart.specs.Charts.{IsDrawable};
ghost use Rattle.ace_drawing.specs.Drawings.{IsChartIn, IsDrawing, MayBeDrawn, drawn_events};
ghost use Rattle.ace_explanation.specs.Explanations.{HasAnyLine, IsExplanationWithin};
ghost use Rattle.ace_grammar.specs.Reading.{most_counted};

use crate::front::front_of;
use crate::line_choice::{LineChoice, line_of};
use ace_chart::Chart;
use ace_chart_rows::{ChartErr, Selection, chart_of};
use ace_explanation::{Explanation, explanation_within};
use ace_io::{NoMemory, StdSource};
use ace_verdict::{Limits, Verdict};
use std::alloc::Global;

/// What is drawn of a trace.
#[derive(Drop)]
pub enum Drawing {
    /// Its chart, and what there is to say of it.
    Drawn {
        chart: Chart,
        explanation: Explanation,
    },
    /// It isn't accepted or refused, and so nothing is drawn.
    Undrawn {
        explanation: Explanation,
    },
    /// Its chart would have more rows than it may have.
    TooManyRows,
}

/// How many events of a trace with this verdict are drawn at most, if it is drawn.
fn drawn_events(verdict: Verdict) -> Option<u64>
    ensures { result ≡ drawn_events verdict }
{
    match verdict {
        Verdict::Accepted { events } => Some(events),
        Verdict::Refused { index, .. } => Some(index),
        _ => None,
    }
}

/// What there is to say of the trace in these bytes, which may have so much.
fn explanation_of(alloc: Global, bytes: &[u8], limits: Limits) -> Explanation
    requires counted { limits.events ≤ most_counted }
    ensures right { IsExplanationWithin limits bytes.now result }
    ensures line { HasAnyLine result }
{
    let mut source = StdSource::new(bytes);
    explanation_within(alloc, &mut source, limits)
}

/// The chart of so many events at the front of the trace in these bytes: of the selected ones of
/// the chosen line.
fn chart_in(
    alloc: Global,
    bytes: &[u8],
    count: u64,
    choice: LineChoice,
    selection: &Selection,
    most: usize,
) -> Result<Chart, ChartErr>
    requires { most ≤ 1000000 }
    ensures chart { IfOk result (IsChartIn bytes.now count choice selection.now) }
    ensures drawable { IfOk result IsDrawable }
{
    let Ok(front) = front_of(alloc, bytes, count) else {
        return Err(ChartErr::NoMemory);
    };
    match line_of(alloc, choice, front.header, front.events.as_slice()) {
        Ok(line) => {
            let events = front.events.as_slice();
            chart_of(alloc, front.header, events, line, selection, most)
        }
        Err(NoMemory) => Err(ChartErr::NoMemory),
    }
}

/// What is drawn of the trace in these bytes, which may have so much: the selected events of the
/// chosen line, in so many rows at most before an event that breaks a rule.
pub fn drawing_of(
    alloc: Global,
    bytes: &[u8],
    limits: Limits,
    choice: LineChoice,
    selection: &Selection,
    most: usize,
) -> Drawing
    requires counted { limits.events ≤ most_counted }
    requires most { most ≤ 1000000 }
    ensures right { IsDrawing limits bytes.now choice selection.now result }
    ensures fits { MayBeDrawn result }
{
    let explanation = explanation_of(alloc, bytes, limits);
    let Some(count) = drawn_events(explanation.verdict()) else {
        return Drawing::Undrawn { explanation };
    };
    match chart_in(alloc, bytes, count, choice, selection, most) {
        Ok(chart) => Drawing::Drawn { chart, explanation },
        Err(ChartErr::TooManyRows) => Drawing::TooManyRows,
        Err(ChartErr::NoMemory) => Drawing::Undrawn {
            explanation: Explanation::Other {
                verdict: Verdict::NoMemory,
            },
        },
    }
}
