// Results of parts of a list, put together.
ghost use Rattle.std.specs.Prelude.{◌<◌};

use crate::entries::results;
use ace_batch::{Shard, push_part_results, told_text};
use ace_io::NoMemory;
use ace_parts::{MergeErr, PartErr, merge, read_part};
use std::alloc::Global;

const PATHS: [&str; 5] = ["late", "good", "a/b/\u{fffe}\n", "load", "open"];

/// The results of this part of the traces.
fn part_of(alloc: Global, part: usize, parts: usize) -> Result<Vec<u8>, NoMemory>
    requires { 0 < parts }
{
    let entries = results(alloc, &PATHS)?;
    let mut text = Vec::new(alloc);
    push_part_results(&mut text, &Shard { part, parts }, entries.as_slice())?;
    Ok(text)
}

/// What is told of all of them.
fn told(alloc: Global) -> Result<Vec<u8>, NoMemory> {
    let entries = results(alloc, &PATHS)?;
    told_text(alloc, false, 0, entries.as_slice())
}

/// What is told of the results in two parts.
fn told_of_two(alloc: Global, first: &[u8], second: &[u8]) -> Result<Vec<u8>, MergeErr> {
    let entries = merge(alloc, &[first, second])?;
    match told_text(alloc, false, 0, entries.as_slice()) {
        Ok(text) => Ok(text),
        Err(NoMemory) => Err(MergeErr::NoMemory),
    }
}

/// What is told of these two parts of so many.
fn merged(alloc: Global, one: usize, two: usize, parts: usize) -> Result<Vec<u8>, MergeErr>
    requires { 0 < parts }
{
    let Ok(first) = part_of(alloc, one, parts) else {
        return Err(MergeErr::NoMemory);
    };
    let Ok(second) = part_of(alloc, two, parts) else {
        return Err(MergeErr::NoMemory);
    };
    told_of_two(alloc, first.as_slice(), second.as_slice())
}

/// The same is told of these two parts as of the whole.
fn fits(alloc: Global, one: usize, two: usize) -> bool {
    match (merged(alloc, one, two, 2), told(alloc)) {
        (Ok(text), Ok(whole)) => text.as_slice() == whole.as_slice(),
        _ => false,
    }
}

/// These two parts of so many aren't put together, for this reason.
fn fails(alloc: Global, one: usize, two: usize, parts: usize, why: MergeErr) -> bool {
    if parts == 0 {
        return false;
    }
    match merged(alloc, one, two, parts) {
        Ok(_) => false,
        Err(error) => error == why,
    }
}

#[test]
fn parts_are_put_together(rt: HostRuntime) {
    let alloc = rt.alloc();
    assert!(rt; fits(alloc, 1, 2) && fits(alloc, 2, 1));
    assert!(rt; fails(alloc, 1, 1, 2, MergeErr::Missing { part: 2 }));
    assert!(rt; fails(alloc, 1, 2, 3, MergeErr::OtherParts { place: 0, parts: 3 }));
}

/// The text isn't the results of a part, for this reason.
fn is_none(alloc: Global, text: &str, why: PartErr) -> bool {
    match read_part(alloc, text.as_bytes()) {
        Ok(_) => false,
        Err(error) => error == why,
    }
}

#[test]
fn other_texts_are_no_results(rt: HostRuntime) {
    let alloc = rt.alloc();
    assert!(rt; is_none(alloc, "", PartErr::Cut) && is_none(alloc, "{\"format\"", PartErr::Cut));
    assert!(rt; is_none(alloc, "ACE 1\n", PartErr::Wrong { line: 1 }));
    assert!(rt;
        is_none(
            alloc,
            "{\"format\":\"ace batch 1\",\"shard\":\"1/1\",\"traces\":00}\n{\"end\":0}\n",
            PartErr::Wrong { line: 1 }
        )
    );
    assert!(rt;
        is_none(
            alloc,
            "{\"format\":\"ace batch 1\",\"shard\":\"1/1\",\"traces\":1}\n{\"end\":1}\n",
            PartErr::Wrong { line: 2 }
        )
    );
    assert!(rt;
        is_none(
            alloc,
            "{\"format\":\"ace batch 1\",\"shard\":\"1/1\",\"traces\":0}\n{\"left\":37}\n{\"end\":0}\n",
            PartErr::Left { count: 37 }
        )
    );
}
