// Which events of a line are drawn.
ghost use Rattle.std.specs.Prelude.{◌≡◌};
ghost use Rattle.ace_chart_rows.specs.Selected.{is_asked, is_chosen, is_of_ports, is_selected, part_of, whole_trace};

use ace_event::Event;
use ace_model::port_of;

/// Which events of a trace are drawn, of those of its line.
#[derive(Clone, Copy)]
pub struct Selection {
    /// The number of the first, from 1.
    pub first: u64,
    /// The number of the last.
    pub last: u64,
    /// For each port, by its number, whether its events are drawn; all events are where None.
    pub ports: Option<[bool; 32]>,
}

/// What becomes of an event.
#[derive(Clone, Copy)]
pub(crate) enum Part {
    /// It is drawn.
    Drawn,
    /// It is left out.
    LeftOut,
    /// It is of another line.
    Elsewhere,
}

impl Selection {
    /// Each event is drawn.
    pub fn whole() -> Selection
        ensures { result ≡ whole_trace }
    {
        Selection {
            first: 1,
            last: u64::MAX,
            ports: None,
        }
    }
}

/// The line of an event is asked for.
pub(crate) fn is_asked(line: Option<u32>, of_event: Option<u32>) -> bool
    ensures { result ≡ is_asked line of_event }
{
    match (line, of_event) {
        (None, _) => true,
        (Some(_), None) => false,
        (Some(line), Some(of_event)) => of_event == line,
    }
}

/// The port is among those that are chosen.
fn is_chosen(ports: &[bool; 32], port: u8) -> bool
    ensures { result ≡ is_chosen ports.now port }
{
    match ports.get(usize::from(port)) {
        Some(chosen) => *chosen,
        None => false,
    }
}

/// The event is one of the ports that are chosen.
fn is_of_ports(selection: &Selection, event: &Event) -> bool
    ensures { result ≡ is_of_ports selection.now.ports event.now }
{
    match (&selection.ports, port_of(event)) {
        (None, _) => true,
        (Some(_), None) => false,
        (Some(ports), Some(port)) => is_chosen(ports, port),
    }
}

/// The event of this number is drawn, if its line is.
fn is_selected(selection: &Selection, number: u64, event: &Event) -> bool
    ensures { result ≡ is_selected selection.now number event.now }
{
    selection.first <= number && number <= selection.last && is_of_ports(selection, event)
}

/// What becomes of the event of this number, whose line may be asked for.
pub(crate) fn part_of(selection: &Selection, asked: bool, number: u64, event: &Event) -> Part
    ensures { result ≡ part_of selection.now asked number event.now }
{
    if !asked {
        Part::Elsewhere
    } else if is_selected(selection, number, event) {
        Part::Drawn
    } else {
        Part::LeftOut
    }
}
