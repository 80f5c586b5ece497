// Where things are drawn: units to the right of the left edge, and below the upper one.
ghost use Rattle.std.specs.Prelude.{◌≡◌, ◌≤◌};
ghost use Rattle.ace_chart.specs.Places.{far_x, height, lane_x, left_ports, near_x, width, x_of, y_of};

/// The most rows of a chart.
pub const MOST_ROWS: usize = 1_000_000;

/// A lifeline: what events happen at, or go between.
#[derive(Clone, Copy, Debug, PartialEq, Eq)]
pub enum Lifeline {
    /// A port, by its number.
    Port(u8),
    Interconnect,
    Memory,
}

/// How many ports stand left of the interconnect.
fn left_ports(ports: u8) -> u64
    ensures { result ≡ left_ports ports }
{
    (u64::from(ports) + 1) / 2
}

/// Where the lifeline is, of a trace of so many ports: in the middle of its column.
pub(crate) fn x_of(ports: u8, at: Lifeline) -> u64
    ensures { result ≡ x_of ports at }
{
    let left = left_ports(ports);
    let column = match at {
        Lifeline::Port(port) => {
            if u64::from(port) < left {
                u64::from(port)
            } else if port < ports {
                u64::from(port) + 1
            } else {
                left
            }
        }
        Lifeline::Interconnect => left,
        Lifeline::Memory => u64::from(ports) + 1,
    };
    150 + 200 * column
}

/// Where the event of this row is, from row 0 on.
pub(crate) fn y_of(row: u64) -> u64
    requires { row ≤ 1000001 }
    ensures { result ≡ y_of row }
{
    130 + 24 * row
}

/// The end of an arrow at the lifeline, on the side of the interconnect.
pub(crate) fn near_x(x: u64, middle: u64) -> u64
    requires { (150 ≤ x) × (x ≤ 60000) }
    ensures { result ≡ near_x x middle }
{
    if x < middle { x + 12 } else { x - 12 }
}

/// Its end at the interconnect, on the side of the lifeline.
pub(crate) fn far_x(x: u64, middle: u64) -> u64
    requires { (150 ≤ middle) × (middle ≤ 60000) }
    ensures { result ≡ far_x x middle }
{
    if x < middle { middle - 13 } else { middle + 13 }
}

/// The middle of the lane beside the lifeline, on the side of the interconnect.
pub(crate) fn lane_x(x: u64, middle: u64) -> u64
    requires { (150 ≤ x) × (x ≤ 60000) }
    ensures { result ≡ lane_x x middle }
{
    if x < middle { x + 100 } else { x - 100 }
}

/// How wide the picture is, with room for what is told below it where there are few ports.
pub(crate) fn width(ports: u8) -> u64
    ensures { result ≡ width ports }
{
    (x_of(ports, Lifeline::Memory) + 120).max(880)
}

/// How high it is.
pub(crate) fn height(rows: u64) -> u64
    requires { rows ≤ 1000001 }
    ensures { result ≡ height rows }
{
    y_of(rows) + 180
}
