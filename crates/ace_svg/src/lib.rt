//! The elements of SVG pictures, as text: lines, rectangles, words, titles that are shown where a
//! pointer rests, and groups of these.
#![tactic(auto)]

mod elements;
mod escaping;
mod geometry;
mod pushing;
#[cfg(test)]
mod tests;

pub use elements::{push_line, push_rectangle, push_title, push_words, title_end, title_start};
pub use geometry::{Point, Size};
pub use pushing::{push, push_number};
