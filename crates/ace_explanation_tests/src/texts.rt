// What is told of traces.
use ace_explanation::{explanation_within, tell};
use ace_io::{MemSink, MemSource};
use ace_side_facts::SideFacts;
use ace_verdict::{Limits, Verdict};
use std::alloc::Global;
use std::test::Fail;

/// A trace, whether the first line alone is asked for, and what is told of it.
pub type Row = (&'static str, bool, &'static str);

/// A second grant of a line.
const GRANTED_TWICE: &str =
    "ACE 1\nPORTS AA\nAR 0 0 00000040 7 1 0 0\nAR 1 0 00000040 7 1 0 0\nG 0 R 0\nG 1 R 0\n";

/// A line whose bytes are all different, and a write-back of a port that doesn't hold it.
const NOT_HELD: &str =
    "ACE 2\nPORTS A\nMEM 00000040 000102030405060708090a0b0c0d0e0f101112131415161718191a1b1c1d1e1f202122232425262728292a2b2c2d2e2f303132333435363738393a3b3c3d3e3f\nAW 00 0 00000040 3 1 0\n";

/// A dirty line that is passed with a snoop, and an end of its read as if it were clean.
const PASSED: &str =
    "ACE 1\nPORTS AA\nAR 1 0 00000040 c 1 0 0\nG 1 R 0\nAC 0 00000040 d\nCR 0 00 I\nR 1 0 0 1 00000000000000000000000000000000\nD 1 00000040 ffffffffffffffff 0 11111111111111111111111111111111111111111111111111111111111111111111111111111111111111111111111111111111111111111111111111111111\nRK 1 UD\nAR 0 1 00000040 7 1 0 0\nG 0 R 1\nAC 1 00000040 7\nCR 1 05 I\nCD 1 0 11111111111111111111111111111111\nR 0 1 4 0 11111111111111111111111111111111\n";

/// A load that gives another word of the line.
const OTHER_WORD: &str =
    "ACE 1\nPORTS A\nAR 0 0 00000040 7 1 0 0\nG 0 R 0\nR 0 0 0 0 00000000000000000000000000000000\nR 0 0 0 0 00000000000000000000000000000000\nR 0 0 0 0 00000000000000000000000000000000\nR 0 0 0 1 00000000000000000000000000000000\nRK 0 UC\nD 0 00000040 ffffffffffffffff 0 11111111111111111111111111111111222222222222222222222222222222222222222222222222222222222222222222222222222222222222222222222222\nL 0 00000040 2 0 11111111111111111111111111111111\n";

const ROWS: [Row; 10] = [
    ("ACE 1\nPORTS A\n", false, "x.trace: accepted 0\n"),
    (
        "ACE 1\nPORTS AA\nAR 0 0 00000040 7 1 0 0\n",
        false,
        "x.trace: accepted 1\n  note: 1 transaction is outstanding at the end\n",
    ),
    (
        GRANTED_TWICE,
        false,
        "x.trace:6: refused event 4: K12: the line is still granted to another transaction\n\n  G 1 R 0\n  port 1 is granted the line for its ReadUnique, line 00000040\n\n  K12d  one grant for a line: no transaction on its line is granted\n\n  Before event 4, line 00000040\n    port 0       I; outstanding: ReadUnique (event 1)\n    port 1       I; outstanding: ReadUnique (event 2)\n    memory       00 x 64 (never written); current\n    grant        since event 3: port 0 ReadUnique (event 1); no snoop sent; 0 of 4 transfers\n\n  What led here, line 00000040\n            1  AR  port 0 asks for ReadUnique, identifier 0\n            2  AR  port 1 asks for ReadUnique, identifier 0\n            3  G   port 0 is granted the line for its ReadUnique   <- the grant\n  >         4  G   port 1 is granted the line for its ReadUnique\n\n  in a design    The line is set free at the last transfer and not at RACK. The next transaction\n                 snoops the requester while the data of the first are still on their way to it,\n                 finds nothing, and there are two owners.\n  in a recorder  look first at an RK behind the next G\n",
    ),
    (
        "ACE 1\nPORTS A\nS 0 00000040 UC\n",
        false,
        "x.trace:3: refused event 1: K29: this is no silent transition\n\n  S 0 00000040 UC\n  port 0 moves the line by itself to UC, line 00000040\n\n  K29a  a silent transition is one: the move is UC -> SC, UC -> I, SC -> I or UD -> SD\n  got       UC\n\n  Before event 1 no port holds line 00000040; it has no grant, and memory has zeros there.\n\n  in a design    A cache makes room by dropping a way whose dirty bit has not been written yet, and\n                 a store is lost. Or it turns a shared line unique by itself, as the tag of the\n                 last owner was left in place.\n  in a recorder  look first at the states: read before they changed, or one event late\n",
    ),
    (
        NOT_HELD,
        false,
        "x.trace:4: refused event 2: K6: the transaction doesn't start from the state in which the port holds the line\n\n  AW 00 0 00000040 3 1 0\n  port 0 asks for WriteBack, identifier 0, line 00000040\n\n  K6a  it starts from a start state: the port's state of the line is a start state of the kind\n  expected  UD or SD\n  got       I\n\n  Before event 2, line 00000040\n    memory       0001020304050607..3c3d3e3f (event 1); current\n    grant        none\n\n  What led here, line 00000040\n            1  MEM memory opens with the line\n  >         2  AW  port 0 asks for WriteBack, identifier 0\n\n  in a design    An eviction looks at the tag, waits for the AW channel, and does not look again:\n                 meanwhile a snoop has taken the line, and the WriteBack puts old data over those\n                 of the new owner.\n  in a recorder  look first at the states: read before they changed, or one event late\n",
    ),
    (
        PASSED,
        false,
        "x.trace:15: refused event 13: K18: the first transfer comes too early: announced snoop data are not whole\n\n  R 0 1 4 0 {11 x 16}\n  port 0 gets transfer 1 of 4 of its ReadUnique, OKAY, PassDirty, line 00000040\n\n  K18f  a transfer is due: the announced snoop data are whole\n\n  Before event 13, line 00000040\n    port 0       I; outstanding: ReadUnique (event 8)\n    port 1       I since event 11; its snoop data are not whole\n    memory       00 x 64 (never written); newer data may be elsewhere\n    passed       11 x 64\n    grant        since event 9: port 0 ReadUnique (event 8); 1 of 1 snoops answered; 0 of 4 transfers\n\n  What led here, line 00000040\n            1  AR  port 1 asks for MakeUnique, identifier 0\n            2  G   port 1 is granted the line for its MakeUnique\n            3  AC  port 0 is snooped: MakeInvalid\n            4  CR  port 0 answers the snoop, state I\n            5  R   port 1 gets the answer to its MakeUnique, OKAY\n            6  D   port 1 stores\n            7  RK  port 1 acknowledges its MakeUnique, state UD\n            8  AR  port 0 asks for ReadUnique, identifier 1\n            9  G   port 0 is granted the line for its ReadUnique   <- the grant\n           10  AC  port 1 is snooped: ReadUnique\n           11  CR  port 1 answers the snoop, state I, data, PassDirty\n           12  CD  port 1 sends a transfer of its snoop data\n  >        13  R   port 0 gets transfer 1 of 4 of its ReadUnique, OKAY, PassDirty\n\n  in a design    Memory is read ahead of the snoops to save time, and the early data are sent\n                 before the last cache has answered. Or a cache passes a dirty line on for a\n                 ReadClean, and the interconnect, which should have written it to memory, drops it.\n  in a recorder  look first at a G that is missing, or behind the AC\n",
    ),
    (
        OTHER_WORD,
        false,
        "x.trace:11: refused event 9: K31: the load gives another word than the port has in its cache\n\n  L 0 00000040 2 0 {11 x 16}\n  port 0 loads word 2, line 00000040\n\n  K31a  a load gives what is there: the word is that of the port's copy\n  expected  22222222222222222222222222222222\n  got       11111111111111111111111111111111\n  note      it is word 0 of the line, which port 0 has\n\n  Before event 9, line 00000040\n    port 0       UD since event 8; 1111111111111111..22222222\n    memory       00 x 64 (never written); newer data may be elsewhere\n    grant        none\n\n  What led here, line 00000040\n            1  AR  port 0 asks for ReadUnique, identifier 0\n            2  G   port 0 is granted the line for its ReadUnique\n          3-6  R   port 0 gets transfers of its ReadUnique, OKAY\n            7  RK  port 0 acknowledges its ReadUnique, state UC\n            8  D   port 0 stores   <- its last store\n  >         9  L   port 0 loads word 2\n\n  in a design    A store waits in the store buffer and is not forwarded to a younger load; or a\n                 late fill writes over it.\n  in a recorder  look first at loads out of a buffer before their RK\n",
    ),
    (
        GRANTED_TWICE,
        true,
        "x.trace:6: refused event 4: K12: the line is still granted to another transaction\n",
    ),
    (
        "ACE 2\nPORTS AL\nRK 01 UC\nB\n",
        false,
        "x.trace:3: refused event 1: K1: an ACE-Lite port has no cache: it is never snooped, acknowledges nothing and holds no lines\n\n  RK 01 UC\n  port 1 acknowledges a read, state UC\n\n  K1b  the port has this record: RK, WK, AC, CR, CD, S, L and D are of an ACE port\n\n  in a design    A snoop filter keeps one presence bit for each port with a cache, and its index is\n                 taken for the number of the port: an I/O master is snooped, which can never\n                 answer. Or a monitor is bound to the wrong interface.\n",
    ),
    (
        "ACE 2\nPORTS AL\nRK 1f UC\n",
        true,
        "x.trace:3: refused event 1: K1: there is no such port\n",
    ),
];

/// What is told of a trace of which this take fails, where there is room for so many bytes: the
/// verdict if all was told, and whether the text is this.
pub fn is_told(
    alloc: Global,
    trace: &str,
    failing: u32,
    room: usize,
    short: bool,
    wanted: &str,
) -> Result<(Option<Verdict>, bool), Fail> {
    let mut source = MemSource::new(alloc, trace.as_bytes(), &[64], &[failing])?;
    let mut sink = MemSink::new(alloc, room, &[])?;
    let explanation = explanation_within(alloc, &mut source, Limits::of_a_trace());
    let facts = SideFacts::none(alloc);
    let told = tell(alloc, &mut sink, "x.trace", short, &facts, explanation).ok();
    drop(facts);
    drop(source);
    let holds = sink.bytes() == wanted.as_bytes();
    drop(sink);
    Ok((told, holds))
}

#[test]
fn traces_have_their_texts(rt: HostRuntime) -> Result<(), Fail> {
    for (trace, short, wanted) in ROWS {
        let (told, holds) = is_told(rt.alloc(), trace, 99, 9999, short, wanted)?;
        assert!(rt; told.is_some() && holds, "{wanted}");
    }
    Ok(())
}

#[test]
fn a_read_fault_is_told(rt: HostRuntime) -> Result<(), Fail> {
    let told = is_told(
        rt.alloc(),
        GRANTED_TWICE,
        1,
        999,
        false,
        "x.trace: read fault\n",
    )?;
    assert!(rt; told == (Some(Verdict::ReadFault), true));
    Ok(())
}

#[test]
fn a_front_is_told_where_the_output_fails(rt: HostRuntime) -> Result<(), Fail> {
    let told = is_told(
        rt.alloc(),
        GRANTED_TWICE,
        99,
        30,
        false,
        "x.trace:6: refused event 4: K1",
    )?;
    assert!(rt; told == (None, true));
    Ok(())
}
