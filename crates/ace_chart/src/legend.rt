// What the colours, dashes and widths of a chart mean.
ghost use Rattle.std.specs.Prelude.{◌≡◌, ◌≤◌, ◌++◌, ◌+◌, OnOk, codes};
ghost use Rattle.ace_chart.specs.Legend.{address_legend, answer_legend, bar_legend, bar_sample, legend, message_sample, snoop_legend, state_legend};

use ace_io::NoMemory;
use ace_svg::{Point, Size, push_line, push_rectangle, push_words};

/// Adds an arrow of a class with words.
#[tactic(auto, unfolding(crate::specs::Legend::message_sample))]
fn push_message(
    text: &mut Vec<u8>,
    class: &[u8],
    x: u64,
    y: u64,
    words: &[u8],
) -> Result<(), NoMemory>
    requires { (x ≤ 600) × (y ≤ 30000000) }
    ensures { OnOk result (text.new.items
        ≡ text.old.items ++ message_sample class.now x y words.now) }
{
    push_line(text, class, Point { x, y }, Point { x: x + 26, y })?;
    push_words(
        text,
        b"sample",
        Point {
            x: x + 32,
            y: y + 4,
        },
        words,
    )
}

/// Adds a part of a bar of a class with words.
#[tactic(auto, unfolding(crate::specs::Legend::bar_sample))]
fn push_bar(
    text: &mut Vec<u8>,
    class: &[u8],
    x: u64,
    y: u64,
    width: u64,
    words: &[u8],
) -> Result<(), NoMemory>
    requires { (x ≤ 600) × (8 ≤ y) × (y ≤ 30000000) }
    ensures { OnOk result (text.new.items
        ≡ text.old.items ++ bar_sample class.now x y width words.now) }
{
    let size = Size { width, height: 14 };
    push_rectangle(text, class, Point { x, y: y - 7 }, size)?;
    push_words(
        text,
        b"sample",
        Point {
            x: x + 26,
            y: y + 4,
        },
        words,
    )
}

/// Adds what the arrows of addresses and data mean.
#[tactic(auto, unfolding(crate::specs::Legend::address_legend))]
fn push_addresses(text: &mut Vec<u8>, y: u64) -> Result<(), NoMemory>
    requires { y ≤ 30000000 }
    ensures { OnOk result (text.new.items ≡ text.old.items ++ address_legend y) }
{
    push_message(text, b"address", 16, y, b"address AR AW")?;
    push_message(text, b"data", 144, y, b"data R W CD")
}

/// Adds what those of snoops mean.
#[tactic(auto, unfolding(crate::specs::Legend::snoop_legend))]
fn push_snoops(text: &mut Vec<u8>, y: u64) -> Result<(), NoMemory>
    requires { y ≤ 30000000 }
    ensures { OnOk result (text.new.items ≡ text.old.items ++ snoop_legend y) }
{
    push_message(text, b"snoop", 256, y, b"snoop AC CR")
}

/// Adds what the other arrows mean.
#[tactic(auto, unfolding(crate::specs::Legend::answer_legend))]
fn push_answers(text: &mut Vec<u8>, y: u64) -> Result<(), NoMemory>
    requires { y ≤ 30000000 }
    ensures { OnOk result (text.new.items ≡ text.old.items ++ answer_legend y) }
{
    push_message(text, b"response", 372, y, b"response B RK WK")?;
    push_message(text, b"memory", 512, y, b"memory M")
}

/// Adds what the bars of states mean.
#[tactic(auto, unfolding(crate::specs::Legend::state_legend))]
fn push_states(text: &mut Vec<u8>, y: u64) -> Result<(), NoMemory>
    requires { (8 ≤ y) × (y ≤ 30000000) }
    ensures { OnOk result (text.new.items ≡ text.old.items ++ state_legend y) }
{
    push_bar(text, b"UC", 16, y, 18, b"UC")?;
    push_bar(text, b"UD", 80, y, 18, b"UD")?;
    push_bar(text, b"SC", 148, y, 10, b"SC")?;
    push_bar(text, b"SD", 208, y, 10, b"SD")
}

/// Adds what the other bars mean.
#[tactic(auto, unfolding(crate::specs::Legend::bar_legend))]
fn push_bars(text: &mut Vec<u8>, y: u64) -> Result<(), NoMemory>
    requires { (8 ≤ y) × (y ≤ 30000000) }
    ensures { OnOk result (text.new.items ≡ text.old.items ++ bar_legend y) }
{
    push_bar(text, b"grant", 268, y, 18, b"grant")?;
    push_bar(text, b"current", 344, y, 8, b"memory current")?;
    push_bar(text, b"behind", 472, y, 8, b"memory behind")
}

/// Adds the legend.
#[tactic(auto, unfolding(crate::specs::Legend::legend))]
pub(crate) fn push_legend(text: &mut Vec<u8>, y: u64) -> Result<(), NoMemory>
    requires { (8 ≤ y) × (y ≤ 29999900) }
    ensures { OnOk result (text.new.items ≡ text.old.items ++ legend y) }
{
    push_addresses(text, y)?;
    push_snoops(text, y)?;
    push_answers(text, y)?;
    push_states(text, y + 24)?;
    push_bars(text, y + 24)
}
