// The lifelines of a chart, with their heads.
ghost use Rattle.std.specs.Prelude.{◌≡◌, ◌≤◌, ◌++◌, ◌+◌, OnOk, codes};
ghost use Rattle.ace_chart.specs.Lifelines.{kind_word, lifeline, lifelines, port_head, port_lifelines};
ghost use Rattle.ace_words.specs.Kinds.{port_words};
ghost use Rattle.std.specs.Option.{option_copied};
ghost use Rattle.ace_chart.specs.Side.{below_port, name_of};

use crate::places::{Lifeline, x_of};
use crate::side::below_port;
use ace_event::Header;
use ace_io::NoMemory;
use ace_model::kinds::is_ace;
use ace_side_facts::SideFacts;
use ace_svg::{Point, Size, push_line, push_rectangle, push_words};
use ace_words::push_port;
use ace_writer::TextBuf;

/// What is behind a port.
fn kind_word(header: &Header, port: u8) -> &'static [u8]
    ensures { result.now ≡ kind_word header.now port }
{
    if is_ace(header, port) {
        b"ACE"
    } else {
        b"ACE-Lite"
    }
}

/// Adds a head with a name and what is below it, and the lifeline down to the bottom.
#[tactic(auto, unfolding(crate::specs::Lifelines::lifeline))]
fn push_lifeline(
    text: &mut Vec<u8>,
    x: u64,
    bottom: u64,
    name: &[u8],
    kind: &[u8],
) -> Result<(), NoMemory>
    requires { (150 ≤ x) × (x ≤ 60000) }
    ensures { OnOk result (text.new.items
        ≡ text.old.items ++ lifeline x bottom name.now kind.now) }
{
    push_line(
        text,
        b"lifeline",
        Point { x, y: 106 },
        Point { x, y: bottom },
    )?;
    let size = Size {
        width: 104,
        height: 34,
    };
    push_rectangle(text, b"head", Point { x: x - 52, y: 72 }, size)?;
    push_words(text, b"name", Point { x, y: 87 }, name)?;
    push_words(text, b"kind", Point { x, y: 100 }, kind)
}

/// Adds the lifeline of a port.
#[tactic(auto, unfolding(crate::specs::Lifelines::port_head))]
fn push_port_lifeline(
    text: &mut Vec<u8>,
    header: &Header,
    side: Option<&SideFacts>,
    bottom: u64,
    port: u8,
) -> Result<(), NoMemory>
    ensures { OnOk result (text.new.items
        ≡ text.old.items ++ port_head header.now (option_copied side.entry) bottom port) }
{
    let mut name = TextBuf::empty();
    push_port(&mut name, port);
    let x = x_of(header.ports, Lifeline::Port(port));
    let below = below_port(side, port, kind_word(header, port));
    push_lifeline(text, x, bottom, name.bytes(), below)
}

/// Adds the lifelines of all ports.
fn push_ports(
    text: &mut Vec<u8>,
    header: &Header,
    side: Option<&SideFacts>,
    bottom: u64,
) -> Result<(), NoMemory>
    ensures { OnOk result (text.new.items ≡ text.old.items
        ++ port_lifelines header.now (option_copied side.entry) bottom 0 header.now.ports) }
{
    for port in 0..header.ports {
        push_port_lifeline(text, header, side, bottom, port)?;
    }
    Ok(())
}

/// Adds all lifelines, down to the bottom.
#[tactic(auto, unfolding(crate::specs::Lifelines::lifelines))]
pub(crate) fn push_lifelines(
    text: &mut Vec<u8>,
    header: &Header,
    side: Option<&SideFacts>,
    bottom: u64,
) -> Result<(), NoMemory>
    ensures { OnOk result (text.new.items
        ≡ text.old.items ++ lifelines header.now (option_copied side.entry) bottom) }
{
    push_ports(text, header, side, bottom)?;
    let middle = x_of(header.ports, Lifeline::Interconnect);
    push_lifeline(text, middle, bottom, b"interconnect", b"")?;
    let right = x_of(header.ports, Lifeline::Memory);
    push_lifeline(text, right, bottom, b"memory", b"")
}
