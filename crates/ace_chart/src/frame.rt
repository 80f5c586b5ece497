// What stands around a chart: its size, its page, its heading and what is said below it.
ghost use Rattle.std.specs.Prelude.{◌≡◌, ◌≤◌, ◌++◌, ◌+◌, OnOk, codes};
ghost use Rattle.ace_chart.specs.Charts.{foot, heading, opening, opening_start, page, value_line, values, view_box, wrong_lines};
ghost use Rattle.ace_chart.specs.Places.{height, width};

use crate::legend::push_legend;
use crate::places::{height, width, y_of};
use crate::styles::push_styles;
use ace_io::NoMemory;
use ace_svg::{Point, Size, push, push_number, push_rectangle, push_words};

/// The beginning of a picture, up to its size.
#[tactic(auto, unfolding(crate::specs::Charts::opening_start))]
fn opening_start() -> &'static [u8]
    ensures { result.now ≡ opening_start }
{
    b"<svg xmlns=\"http://www.w3.org/2000/svg\" viewBox=\"0 0 "
}

/// Adds the beginning of the picture, up to its size.
#[tactic(auto, unfolding(crate::specs::Charts::view_box))]
fn push_view_box(text: &mut Vec<u8>, size: Size) -> Result<(), NoMemory>
    ensures { OnOk result (text.new.items ≡ text.old.items ++ view_box size) }
{
    push(text, opening_start())?;
    push_number(text, size.width)?;
    push(text, b" ")?;
    push_number(text, size.height)
}

/// Adds the beginning of the picture, with its size.
#[tactic(auto, unfolding(crate::specs::Charts::opening))]
fn push_opening(text: &mut Vec<u8>, size: Size) -> Result<(), NoMemory>
    ensures { OnOk result (text.new.items ≡ text.old.items ++ opening size) }
{
    push_view_box(text, size)?;
    push(text, b"\" width=\"")?;
    push_number(text, size.width)?;
    push(text, b"\" height=\"")?;
    push_number(text, size.height)?;
    push(text, b"\">\n")
}

/// Adds the beginning of the picture of so many ports and rows, which is so much wider.
#[tactic(auto, unfolding(crate::specs::Charts::page))]
pub(crate) fn push_page(
    text: &mut Vec<u8>,
    ports: u8,
    rows: u64,
    wider: u64,
) -> Result<(), NoMemory>
    requires rows { rows ≤ 1000001 }
    requires wider { wider ≤ 84 }
    ensures { OnOk result (text.new.items ≡ text.old.items ++ page ports rows wider) }
{
    let size = Size {
        width: width(ports) + wider,
        height: height(rows),
    };
    push_opening(text, size)?;
    push_styles(text)?;
    push_rectangle(text, b"page", Point { x: 0, y: 0 }, size)
}

/// Adds the heading: the name of the trace, and the verdict on it.
#[tactic(auto, unfolding(crate::specs::Charts::heading))]
pub(crate) fn push_heading(text: &mut Vec<u8>, name: &[u8], verdict: &[u8]) -> Result<(), NoMemory>
    ensures { OnOk result (text.new.items ≡ text.old.items ++ heading name.now verdict.now) }
{
    push_words(text, b"heading", Point { x: 16, y: 28 }, name)?;
    push_words(text, b"verdict", Point { x: 16, y: 50 }, verdict)
}

/// What is told below a chart of a refused trace; of another all of it is empty.
#[derive(Clone, Copy)]
pub struct Below<'a> {
    /// What is wrong.
    pub wrong: &'a [u8],
    /// Where the broken rule is kept.
    pub kept: &'a [u8],
    /// What the rule expects; empty where it expects no value.
    pub expected: &'a [u8],
    /// What it got.
    pub got: &'a [u8],
}

/// Adds a value under its name.
#[tactic(auto, unfolding(crate::specs::Charts::value_line))]
fn push_value(text: &mut Vec<u8>, y: u64, name: &[u8], value: &[u8]) -> Result<(), NoMemory>
    ensures { OnOk result (text.new.items ≡ text.old.items ++ value_line y name.now value.now) }
{
    push_words(text, b"value", Point { x: 16, y }, name)?;
    push_words(text, b"value", Point { x: 84, y }, value)
}

/// Adds what is expected and what was got, if a value is expected.
#[tactic(auto, unfolding(crate::specs::Charts::values))]
fn push_values(text: &mut Vec<u8>, y: u64, expected: &[u8], got: &[u8]) -> Result<(), NoMemory>
    requires { y ≤ 100000000 }
    ensures { OnOk result (text.new.items ≡ text.old.items ++ values y expected.now got.now) }
{
    if expected.is_empty() {
        return Ok(());
    }
    push_value(text, y, b"expected", expected)?;
    push_value(text, y + 16, b"got", got)
}

/// Adds what is wrong, and where the rule is kept.
#[tactic(auto, unfolding(crate::specs::Charts::wrong_lines))]
fn push_wrong(text: &mut Vec<u8>, y: u64, wrong: &[u8], kept: &[u8]) -> Result<(), NoMemory>
    requires { y ≤ 100000000 }
    ensures { OnOk result (text.new.items ≡ text.old.items ++ wrong_lines y wrong.now kept.now) }
{
    push_words(text, b"wrong", Point { x: 16, y }, wrong)?;
    push_words(text, b"verdict", Point { x: 16, y: y + 20 }, kept)
}

/// Adds what is below the chart of so many rows: what is told there, and the legend.
#[tactic(auto, unfolding(crate::specs::Charts::foot))]
pub(crate) fn push_foot(text: &mut Vec<u8>, rows: u64, below: &Below<'_>) -> Result<(), NoMemory>
    requires { rows ≤ 1000001 }
    ensures { OnOk result (text.new.items ≡ text.old.items
        ++ foot rows below.now.wrong.now below.now.kept.now below.now.expected.now
        below.now.got.now) }
{
    let y = y_of(rows);
    push_wrong(text, y + 36, below.wrong, below.kept)?;
    push_values(text, y + 76, below.expected, below.got)?;
    push_legend(text, y + 126)
}
