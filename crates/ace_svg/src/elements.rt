// The elements of a picture.
ghost use Rattle.std.specs.Prelude.{◌≡◌, ◌++◌, OnOk};
ghost use Rattle.ace_svg.specs.Elements.{attribute, corner, element, line_element, rectangle, title, title_end, title_start, words_element};

use crate::escaping::push_escaped;
use crate::geometry::{Point, Size};
use crate::pushing::{push, push_number};
use ace_io::NoMemory;

/// Adds the beginning of an element of a class.
#[tactic(auto, unfolding(crate::specs::Elements::element))]
fn push_element(text: &mut Vec<u8>, name: &[u8], class: &[u8]) -> Result<(), NoMemory>
    ensures { OnOk result (text.new.items ≡ text.old.items ++ element name.now class.now) }
{
    push(text, b"<")?;
    push(text, name)?;
    push(text, b" class=\"")?;
    push(text, class)?;
    push(text, b"\"")
}

/// Adds an attribute.
#[tactic(auto, unfolding(crate::specs::Elements::attribute))]
fn push_attribute(text: &mut Vec<u8>, name: &[u8], number: u64) -> Result<(), NoMemory>
    ensures { OnOk result (text.new.items ≡ text.old.items ++ attribute name.now number) }
{
    push(text, b" ")?;
    push(text, name)?;
    push(text, b"=\"")?;
    push_number(text, number)?;
    push(text, b"\"")
}

/// Adds where an element is.
#[tactic(auto, unfolding(crate::specs::Elements::corner))]
fn push_corner(text: &mut Vec<u8>, at: Point) -> Result<(), NoMemory>
    ensures { OnOk result (text.new.items ≡ text.old.items ++ corner at) }
{
    push_attribute(text, b"x", at.x)?;
    push_attribute(text, b"y", at.y)
}

/// Adds a line from one point to another.
///
/// # Errors
///
/// `NoMemory` where there is none for the longer text.
#[tactic(auto, unfolding(crate::specs::Elements::line_element))]
pub fn push_line(text: &mut Vec<u8>, class: &[u8], from: Point, to: Point) -> Result<(), NoMemory>
    ensures { OnOk result (text.new.items ≡ text.old.items ++ line_element class.now from to) }
{
    push_element(text, b"line", class)?;
    push_attribute(text, b"x1", from.x)?;
    push_attribute(text, b"y1", from.y)?;
    push_attribute(text, b"x2", to.x)?;
    push_attribute(text, b"y2", to.y)?;
    push(text, b"/>\n")
}

/// Adds a rectangle, by its upper left corner.
///
/// # Errors
///
/// `NoMemory` where there is none for the longer text.
#[tactic(auto, unfolding(crate::specs::Elements::rectangle))]
pub fn push_rectangle(
    text: &mut Vec<u8>,
    class: &[u8],
    at: Point,
    size: Size,
) -> Result<(), NoMemory>
    ensures { OnOk result (text.new.items ≡ text.old.items ++ rectangle class.now at size) }
{
    push_element(text, b"rect", class)?;
    push_corner(text, at)?;
    push_attribute(text, b"width", size.width)?;
    push_attribute(text, b"height", size.height)?;
    push(text, b"/>\n")
}

/// Adds words at a point of their base line: their class says whether they begin, end or have their
/// middle there.
///
/// # Errors
///
/// `NoMemory` where there is none for the longer text.
#[tactic(auto, unfolding(crate::specs::Elements::words_element))]
pub fn push_words(text: &mut Vec<u8>, class: &[u8], at: Point, words: &[u8]) -> Result<(), NoMemory>
    ensures { OnOk result (text.new.items
        ≡ text.old.items ++ words_element class.now at words.now) }
{
    push_element(text, b"text", class)?;
    push_corner(text, at)?;
    push(text, b">")?;
    push_escaped(text, words)?;
    push(text, b"</text>\n")
}

/// The beginning of a title.
#[tactic(auto, unfolding(crate::specs::Elements::title_start))]
pub fn title_start() -> &'static [u8]
    ensures { result.now ≡ title_start }
{
    b"<title>"
}

/// The end of a title.
#[tactic(auto, unfolding(crate::specs::Elements::title_end))]
pub fn title_end() -> &'static [u8]
    ensures { result.now ≡ title_end }
{
    b"</title>\n"
}

/// Adds a title, which is shown where a pointer rests on the element that it stands in.
///
/// # Errors
///
/// `NoMemory` where there is none for the longer text.
#[tactic(auto, unfolding(crate::specs::Elements::title))]
pub fn push_title(text: &mut Vec<u8>, words: &[u8]) -> Result<(), NoMemory>
    ensures { OnOk result (text.new.items ≡ text.old.items ++ title words.now) }
{
    push(text, title_start())?;
    push_escaped(text, words)?;
    push(text, title_end())
}
