// Lists of traces, and their parts.
use ace_batch::Shard;
use ace_io::NoMemory;
use ace_paths::paths_of;
use std::alloc::Global;

/// The text lists these paths.
fn lists(alloc: Global, text: &str, wanted: &[&str]) -> bool {
    match paths_of(alloc, text) {
        Ok(paths) => paths.as_slice() == wanted,
        Err(NoMemory) => false,
    }
}

#[test]
fn a_line_is_a_path(rt: HostRuntime) {
    let alloc = rt.alloc();
    assert!(rt; lists(alloc, "", &[]) && lists(alloc, "\n\n", &[]));
    assert!(rt; lists(alloc, "a", &["a"]) && lists(alloc, "a\n", &["a"]));
    assert!(rt; lists(alloc, "#a b\n\n-c\r\nd", &["#a b", "-c\r", "d"]));
}

const LETTERS: [&str; 7] = ["a", "b", "c", "d", "e", "f", "g"];

/// These are the letters in the part.
fn has(alloc: Global, part: usize, parts: usize, wanted: &[&str]) -> bool {
    if parts == 0 {
        return false;
    }
    match (Shard { part, parts }).of(alloc, &LETTERS) {
        Ok(some) => some.as_slice() == wanted,
        Err(NoMemory) => false,
    }
}

#[test]
fn parts_take_turns(rt: HostRuntime) {
    let alloc = rt.alloc();
    assert!(rt; has(alloc, 1, 1, &LETTERS) && has(alloc, 1, 3, &["a", "d", "g"]));
    assert!(rt; has(alloc, 2, 3, &["b", "e"]) && has(alloc, 3, 3, &["c", "f"]));
    assert!(rt; has(alloc, 8, 9, &[]) && has(alloc, 7, 9, &["g"]));
}
