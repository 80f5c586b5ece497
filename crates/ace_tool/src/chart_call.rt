// What `chart` is asked to do.
ghost use Rattle.std.specs.Prelude.{◌≤◌};

use crate::check_options::SideChoice;
use ace_chart_rows::Selection;
use ace_drawing::LineChoice;

/// What `chart` is asked to do.
#[derive(Clone, Copy)]
pub struct ChartCall<'a> {
    /// The name of the trace.
    pub trace: &'a str,
    /// The file for the picture; else it is told.
    pub out: Option<&'a str>,
    /// The line that is drawn.
    pub line: LineChoice,
    /// The most rows before an event that breaks a rule.
    pub rows: usize,
    /// Which events of the line are drawn.
    pub selection: Selection,
    /// What the picture is called; else by the name of the trace.
    pub title: Option<&'a str>,
    /// Where the side file is.
    pub side: SideChoice<'a>,
    ghost few: { rows ≤ 1000000 },
}
