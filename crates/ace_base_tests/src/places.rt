// Lines that share their number and all but one of their digits, lines that begin at no multiple of
// 64, and the order of values.

use ace_places::LineMap;
use std::alloc::{AllocError, Global};
use std::test::Fail;

/// Lines that are hard to tell apart: of one number, with one digit that differs, and at bytes
/// beside one another.
const HARD: [u32; 10] = [
    0x0000_0040,
    0x0001_0040,
    0x0010_0040,
    0x0100_0040,
    0x1000_0040,
    0xf000_0040,
    0x0000_0041,
    0x0000_0044,
    0x0000_0060,
    0xf000_007f,
];

/// A map with these lines, each with its place as its value.
fn map_of(alloc: Global, lines: &[u32]) -> Result<LineMap<usize>, AllocError> {
    let mut map = LineMap::new(alloc);
    for (place, line) in lines.iter().enumerate() {
        map.add(*line, place)?;
    }
    Ok(map)
}

/// Each of the lines has its place as its value.
fn finds_all(map: &LineMap<usize>, lines: &[u32]) -> bool {
    lines.iter().enumerate().all(|(place, line)| map.get_index_of(*line) == Some(place)
        && map.get(*line) == Some(&place))
}

#[test]
fn finds_lines_that_are_hard_to_tell_apart(rt: HostRuntime) -> Result<(), Fail> {
    let map = map_of(rt.alloc(), &HARD)?;
    let holds = map.len() == HARD.len()
        && finds_all(&map, &HARD)
        && map.line_at(4) == Some(0x1000_0040)
        && !map.contains_key(0x2000_0040)
        && map.get(0x42).is_none()
        && map.line_at(10).is_none();
    drop(map);
    assert!(rt; holds);
    Ok(())
}

#[test]
fn keeps_the_first_value_of_a_line(rt: HostRuntime) -> Result<(), Fail> {
    let mut map = LineMap::with_capacity(rt.alloc(), 1)?;
    map.add(64, 7_u32)?;
    map.add(64, 8)?;
    let kept = map.len() == 1 && map.get(64) == Some(&7);
    if let Some(value) = map.get_mut(64) {
        *value += 2;
    }
    if let Some(value) = map.get_index_mut(0) {
        *value += 1;
    }
    let written = map.get_index(0) == Some(&10);
    drop(map);
    assert!(rt; kept && written);
    Ok(())
}
