// Scripts written out by hand, whole and in pieces, and the plans of the crate's calls.
ghost use Rattle.std.specs.Prelude.{◌<◌, All, length};

use ace_event::Header;
use ace_io::{HonestSource, MemSink, MemSource, NoMemory, Source};
use ace_script::{Op, Plan, PlanErr, PolicyWord, Reason};
use ace_writer::WriteErr;
use std::alloc::Global;
use std::test::Fail;

const HEADER: &[u8] = b"ACE SCRIPT 1\nPORTS AL\nCACHE 1\nPOLICY keep\n";

/// The plan of a header and these lines, or why there is none.
fn read_behind(alloc: Global, header: &[u8], lines: &[u8]) -> Result<Plan, PlanErr> {
    let mut text = match Vec::from_slice(alloc, header) {
        Ok(text) => text,
        Err(_) => return Err(PlanErr::NoMemory),
    };
    if text.extend_from_slice(lines).is_err() {
        return Err(PlanErr::NoMemory);
    }
    Plan::read(alloc, &mut HonestSource::new(&text))
}

/// Whether a plan could not be read since this line is malformed so.
fn is_malformed(read: Result<Plan, PlanErr>, line: u64, reason: Reason) -> bool {
    match read {
        Err(error) => error == PlanErr::Malformed { line, reason },
        Ok(_) => false,
    }
}

/// How many of the texts, which bars part, are malformed so behind a header, up to the first that
/// isn't.
fn refused(alloc: Global, texts: &[u8], line: u64, reason: Reason) -> usize {
    texts
        .split(|byte| *byte == b'|')
        .take_while(|lines| is_malformed(read_behind(alloc, HEADER, lines), line, reason))
        .count()
}

/// How many of the texts, which bars part, are malformed so with nothing before them, up to the
/// first that isn't.
fn headless(alloc: Global, texts: &[u8], line: u64, reason: Reason) -> usize {
    texts
        .split(|byte| *byte == b'|')
        .take_while(|text| is_malformed(read_behind(alloc, b"", text), line, reason))
        .count()
}

const NO_OPERATION: &[u8] = b"\n|0\n|0 xx\n|0 LD 00000040 0\n| 0 mb\n";

const FIELDS: &[u8] = b"0 ld 00000040\n|0 mb \n|0 ld  00000040 0\n|0 ldx 00000040 4 0\n";

const LENGTHS: &[u8] = b"0 ld 0000040 0\n|00 mb\n| mb\n";

const CHARACTERS: &[u8] = b"0 ld 0000004A 0\n|g mb\n|0 pf 00000040 x\n|0 pf 00000040 \n";

const VALUES: &[u8] =
    b"2 ld 00000040 0\n|0 ld 00000041 0\n|0 ld 00000040 4\n|0 dvm 00001001\n|0 sync 00004000\n|0 dvm2 00001000 00000000\n";

const WRITES_BACK: &[u8] = b"0 rn 00000040\n1 rn 00000040\n0 wb 00000040\n";

#[test]
fn tells_each_reason(rt: HostRuntime) {
    let cases: [(&[u8], u64, Reason, usize); 9] = [
        (b"0 mb", 5, Reason::P1, 1),
        (NO_OPERATION, 5, Reason::P2, 5),
        (FIELDS, 5, Reason::P3, 4),
        (LENGTHS, 5, Reason::P4, 3),
        (CHARACTERS, 5, Reason::P5, 4),
        (VALUES, 5, Reason::P6, 6),
        (b"1 ld 00000040 0\n", 5, Reason::P8, 1),
        (b"0 ld 00000040 0\n0 rn 00000040\n", 6, Reason::P8, 1),
        (WRITES_BACK, 7, Reason::P8, 1),
    ];
    for (texts, line, reason, count) in cases {
        assert_eq!(rt; refused(rt.alloc(), texts, line, reason), count);
    }
}

const CACHES: &[u8] =
    b"ACE SCRIPT 1\nPORTS A\nCACHE 0\n|ACE SCRIPT 1\nPORTS A\nCACHE 01\n|ACE SCRIPT 1\nPORTS A\nCACHE 33\n";

const WRONG_SEED: &[u8] = b"ACE SCRIPT 1\nPORTS A\nCACHE 32\nPOLICY mixed 00000000000000A0\n";

const CUT_POLICY: &[u8] = b"ACE SCRIPT 1\nPORTS A\nCACHE 32\nPOLICY keep";

#[test]
fn refuses_headers(rt: HostRuntime) {
    let cases: [(&[u8], u64, Reason, usize); 7] = [
        (b"|ACE SCRIPT 1", 1, Reason::P1, 2),
        (b"ACE SCRIPT 2\n", 1, Reason::P7, 1),
        (b"ACE SCRIPT 1\n", 2, Reason::P1, 1),
        (b"ACE SCRIPT 1\nPORTS AAAAAAAAA\n", 2, Reason::P7, 1),
        (CACHES, 3, Reason::P7, 3),
        (WRONG_SEED, 4, Reason::P7, 1),
        (CUT_POLICY, 4, Reason::P1, 1),
    ];
    for (texts, line, reason, count) in cases {
        assert_eq!(rt; headless(rt.alloc(), texts, line, reason), count);
    }
}

/// A script of so many operations, and these bytes behind it.
fn barriers(alloc: Global, count: usize, behind: &[u8]) -> Result<Result<u16, PlanErr>, Fail> {
    let mut lines = Vec::new(alloc);
    for _ in 0..count {
        lines.extend_from_slice(b"0 mb\n")?;
    }
    lines.extend_from_slice(behind)?;
    Ok(match read_behind(alloc, HEADER, &lines) {
        Ok(plan) => Ok(plan.view().count()),
        Err(error) => Err(error),
    })
}

/// A script ends at 4,096 operations, whatever stands behind them.
#[test]
fn counts_operations(rt: HostRuntime) -> Result<(), Fail> {
    let last = PlanErr::Malformed {
        line: 4100,
        reason: Reason::P2,
    };
    let cases: [(usize, &[u8], Result<u16, PlanErr>); 5] = [
        (0, b"", Ok(0)),
        (4096, b"", Ok(4096)),
        (4097, b"", Err(PlanErr::TooManyOps)),
        (4096, b"x", Err(PlanErr::TooManyOps)),
        (4095, b"x\n", Err(last)),
    ];
    for (count, behind, wanted) in cases {
        assert!(rt; barriers(rt.alloc(), count, behind)? == wanted);
    }
    Ok(())
}

/// A line of so many bytes with its line feed, behind a header.
fn long_line(alloc: Global, count: usize) -> Result<Option<PlanErr>, Fail> {
    let mut lines = Vec::new(alloc);
    for _ in 1..count {
        lines.push(b'x').map_err(|_| NoMemory)?;
    }
    lines.push(b'\n').map_err(|_| NoMemory)?;
    Ok(read_behind(alloc, HEADER, &lines).err())
}

/// A line has at most 256 bytes with its line feed.
#[test]
fn limits_lines(rt: HostRuntime) -> Result<(), Fail> {
    let alloc = rt.alloc();
    let within = PlanErr::Malformed {
        line: 5,
        reason: Reason::P2,
    };
    let beyond = PlanErr::Malformed {
        line: 5,
        reason: Reason::P1,
    };
    assert_eq!(rt; long_line(alloc, 256)?, Some(within));
    assert_eq!(rt; long_line(alloc, 257)?, Some(beyond));
    Ok(())
}

const EACH: &[u8] =
    b"ACE SCRIPT 1\nPORTS AAL\nCACHE 32\nPOLICY mixed fedcba9876543210\n0 ld 00001000 0\n1 ldx 00001000 3\n0 st 00001000 1 000102030405060708090a0b0c0d0e0f\n1 stx 00001000 2 f0000000000000000000000000000000\n0 fill 00001040 000102030405060708090a0b0c0d0e0f101112131415161718191a1b1c1d1e1f202122232425262728292a2b2c2d2e2f303132333435363738393a3b3c3d3e3f\n0 pf 00001080 s\n0 pf 00001080 c\n1 pf 00001080 n\n1 pf 00001080 u\n0 wb 00001000\n0 wc 00001000\n0 ev 00001000\n0 we 00001000\n2 ro 00001000\n2 cs 00001000\n2 ci 00001000\n2 mi 00001000\n2 rn ffffffc0\n2 wu 00001000 00000000ffff0000 000102030405060708090a0b0c0d0e0f101112131415161718191a1b1c1d1e1f202122232425262728292a2b2c2d2e2f303132333435363738393a3b3c3d3e3f\n2 wlu 00001000 000102030405060708090a0b0c0d0e0f101112131415161718191a1b1c1d1e1f202122232425262728292a2b2c2d2e2f303132333435363738393a3b3c3d3e3f\n0 wn ffffffc0 8000000000000001 000102030405060708090a0b0c0d0e0f101112131415161718191a1b1c1d1e1f202122232425262728292a2b2c2d2e2f303132333435363738393a3b3c3d3e3f\n2 mb\n0 sb\n0 dvm 00001000\n1 sync ffffcffe\n1 dvm2 00006001 12345678\n";

/// Whether the plan is written as this text.
fn has_text(alloc: Global, plan: &Plan, text: &[u8]) -> bool {
    match MemSink::new(alloc, text.len(), &[]) {
        Ok(mut sink) => plan.put(&mut sink) == Ok(()) && sink.bytes() == text,
        Err(_) => false,
    }
}

/// Reads the script of each operation from a source, and says whether it was read and is written
/// again.
fn reads_each<S: Source>(alloc: Global, source: &mut S) -> bool {
    match Plan::read(alloc, source) {
        Ok(plan) => has_text(alloc, &plan, EACH),
        Err(_) => false,
    }
}

/// The same from a source that gives it in pieces.
fn reads_each_in(alloc: Global, sizes: &[usize]) -> bool
    requires some { 0 < length sizes.now }
    requires positive { All (λ piece. 0 < piece) sizes.now }
{
    match MemSource::new(alloc, EACH, sizes, &[]) {
        Ok(mut source) => reads_each(alloc, &mut source),
        Err(_) => false,
    }
}

#[test]
fn reads_and_writes_each_operation(rt: HostRuntime) {
    let alloc = rt.alloc();
    assert!(rt; reads_each(alloc, &mut HonestSource::new(EACH)));
    assert!(rt; reads_each_in(alloc, &[1]));
    assert!(rt; reads_each_in(alloc, &[7, 1, 300]));
}

/// Why there is no plan where this take of 100 bytes fails.
fn fault_at(alloc: Global, failing: u32) -> Result<Option<PlanErr>, NoMemory> {
    let mut source = MemSource::new(alloc, EACH, &[100], &[failing])?;
    Ok(Plan::read(alloc, &mut source).err())
}

/// Each take of a source that gives 100 bytes at once fails in turn, up to the one that finds the
/// end.
#[test]
fn tells_read_faults(rt: HostRuntime) -> Result<(), Fail> {
    let alloc = rt.alloc();
    let takes = (EACH.len() / 100 + 2) as u32;
    for failing in 0..takes {
        assert_eq!(rt; fault_at(alloc, failing)?, Some(PlanErr::ReadFault));
    }
    assert_eq!(rt; fault_at(alloc, takes)?, None);
    Ok(())
}

/// The beginning of the text of a generated plan, and whether that is the whole.
fn front_of(alloc: Global, n: u64, room: usize) -> Result<(bool, Vec<u8>), Fail> {
    let plan = Plan::generate(alloc, n)?;
    let mut sink = MemSink::new(alloc, room, &[])?;
    let whole = plan.put(&mut sink) == Ok(());
    Ok((whole, Vec::from_slice(alloc, sink.bytes())?))
}

const FRONT: &[u8] =
    b"ACE SCRIPT 1\nPORTS AAAL\nCACHE 4\nPOLICY mixed 000000000000002a\n1 cs 00001180\n0 mb\n0 ld 00001140 3\n";

/// Whether the text of the plan of 42 is whole, how many lines it has, and whether it has its
/// front.
fn whole_text(alloc: Global) -> Result<(bool, usize, bool), Fail> {
    let (whole, text) = front_of(alloc, 42, 100_000)?;
    let lines = text.iter().filter(|byte| **byte == b'\n').count();
    Ok((whole, lines, text.starts_with(FRONT)))
}

/// Whether a sink with room for 5,000 bytes has the whole text, how many bytes it has, and whether
/// the text begins with them.
fn cut_text(alloc: Global) -> Result<(bool, usize, bool), Fail> {
    let (_, text) = front_of(alloc, 42, 100_000)?;
    let (whole, part) = front_of(alloc, 42, 5000)?;
    Ok((whole, part.len(), text.starts_with(&part)))
}

/// Whether the plans of two numbers are the same.
fn are_same(alloc: Global, n: u64, m: u64) -> Result<bool, NoMemory> {
    let one = Plan::generate(alloc, n)?;
    let other = Plan::generate(alloc, m)?;
    Ok(one.same(&other))
}

/// The plans of numbers, and what a sink without room has of their text.
#[test]
fn generates_plans(rt: HostRuntime) -> Result<(), Fail> {
    let alloc = rt.alloc();
    assert_eq!(rt; whole_text(alloc)?, (true, 516, true));
    assert_eq!(rt; cut_text(alloc)?, (false, 5000, true));
    assert!(rt; !are_same(alloc, 1, 2)?);
    Ok(())
}

const PORTS: Header = Header {
    version: 1,
    ports: 2,
    ace: 1,
};

/// How many operations a plan has, and how many can be pushed.
fn counts(plan: &Plan) -> (u16, u16) {
    (plan.view().count(), plan.room())
}

/// A plan that an operation was pushed to, with room for one more.
fn grown(alloc: Global) -> Result<Plan, NoMemory> {
    let mut plan = Plan::blank(alloc, PORTS, 3, PolicyWord::Eager, 2)?;
    plan.push(0, Op::Mb);
    Ok(plan)
}

/// The counts of a plan with room for two operations, and whether its copy stays the same when an
/// operation is pushed to it.
fn copy_stays(alloc: Global) -> Result<((u16, u16), bool), NoMemory> {
    let mut plan = Plan::blank(alloc, PORTS, 3, PolicyWord::Eager, 2)?;
    let before = counts(&plan);
    let fresh = plan.copy(alloc)?;
    plan.push(0, Op::Mb);
    Ok((before, plan.same(&fresh)))
}

/// The counts of a plan, and whether its copy is the same.
fn counts_and_copy(alloc: Global, plan: &Plan) -> Result<((u16, u16), bool), NoMemory> {
    let copy = plan.copy(alloc)?;
    Ok((counts(plan), plan.same(&copy)))
}

/// What `counts_and_copy` says of a plan that grew.
fn grown_and_copy(alloc: Global) -> Result<((u16, u16), bool), NoMemory> {
    let plan = grown(alloc)?;
    counts_and_copy(alloc, &plan)
}

/// A plan that operations are pushed to, and its copy.
#[test]
fn grows(rt: HostRuntime) -> Result<(), Fail> {
    let alloc = rt.alloc();
    assert_eq!(rt; copy_stays(alloc)?, ((0, 2), false));
    assert_eq!(rt; grown_and_copy(alloc)?, ((1, 1), true));
    Ok(())
}

const GROWN: &[u8] = b"ACE SCRIPT 1\nPORTS AL\nCACHE 3\nPOLICY eager\n0 mb\n";

/// The policy of the plan that grew, and whether it is written.
fn is_written(alloc: Global) -> Result<(PolicyWord, bool), NoMemory> {
    let plan = grown(alloc)?;
    Ok((plan.policy(), has_text(alloc, &plan, GROWN)))
}

/// How the plan that grew is put into a sink whose first give fails.
fn put_at_fault(alloc: Global) -> Result<Result<(), WriteErr>, NoMemory> {
    let mut failing = MemSink::new(alloc, 100, &[0])?;
    let plan = grown(alloc)?;
    Ok(plan.put(&mut failing))
}

#[test]
fn writes_what_grew(rt: HostRuntime) -> Result<(), Fail> {
    let alloc = rt.alloc();
    assert!(rt; is_written(alloc)? == (PolicyWord::Eager, true));
    assert_eq!(rt; put_at_fault(alloc)?, Err(WriteErr::WriteFault));
    Ok(())
}

/// Whether the plan that is read from the text of one that grew is the same as that one, which has
/// more room.
fn read_is_same(alloc: Global) -> Result<bool, Fail> {
    let read = Plan::read(alloc, &mut HonestSource::new(GROWN))?;
    let plan = grown(alloc)?;
    Ok(read.same(&plan))
}

/// What `counts_and_copy` says of the plan that is read.
fn read_and_copy(alloc: Global) -> Result<((u16, u16), bool), Fail> {
    let read = Plan::read(alloc, &mut HonestSource::new(GROWN))?;
    Ok(counts_and_copy(alloc, &read)?)
}

#[test]
fn reads_what_grew(rt: HostRuntime) -> Result<(), Fail> {
    let alloc = rt.alloc();
    assert!(rt; !read_is_same(alloc)?);
    assert_eq!(rt; read_and_copy(alloc)?, ((1, 0), true));
    Ok(())
}
