// What is told of malformed lines.
use crate::texts::{Row, is_told};
use std::test::Fail;

const ROWS: [Row; 17] = [
    (
        "ACE 1\nPORTS AA\nAR 0 0 00000040 7 1 0 0\nG 0 R",
        false,
        "x.trace:4:6: malformed line 4: F1: the last line has no line feed: the recording was cut off here\n\n  G 0 R\n       ^\n  expected  a line feed\n  Event 1 was read, and breaks no rule.\n",
    ),
    (
        "ACE 1\nPORTS A\nxxxxxxxxxxxxxxxxxxxxxxxxxxxxxxxxxxxxxxxxxxxxxxxxxxxxxxxxxxxxxxxxxxxxxxxxxxxxxxxxxxxxxxxxxxxxxxxxxxxxxxxxxxxxxxxxxxxxxxxxxxxxxxxxxxxxxxxxxxxxxxxxxxxxxxxxxxxxxxxxxxxxxxxxxxxxxxxxxxxxxxxxxxxxxxxxxxxxxxxxxxxxxxxxxxxxxxxxxxxxxxxxxxxxxxxxxxxxxxxxxxxxxxxxxxxxxxxx\n",
        false,
        "x.trace:3:257: malformed line 3: F1: no line feed stands among 256 bytes\n\n  xxxxxxxxxxxxxxxxxxxxxxxxxxxxxxxxxxxxxxxxxxxxxxxxxx\n                                                    ^\n  expected  a line feed within 256 bytes\n  No event was read.\n",
    ),
    (
        "ACE 1\nPORTS A\nace_recorder: X or Z in a field of AR\n",
        false,
        "x.trace:3:1: malformed line 3: F2: the recorder stopped here: X or Z in a field of AR\n\n  ace_recorder: X or Z in a field of AR\n  ^\n  No event was read.\n",
    ),
    (
        "ACE 1\nPORTS A\nMEM 00000040 00\n",
        false,
        "x.trace:3:1: malformed line 3: F2: 'MEM' is no record of version 1\n\n  MEM 00000040 00\n  ^\n  expected  one of AR R RK AW W B WK AC CR CD G M S L D OP\n  No event was read.\n",
    ),
    (
        "ACE 1\nPORTS A\n\n",
        false,
        "x.trace:3:1: malformed line 3: F2: '' is no record\n\n  \n  ^\n  expected  one of AR R RK AW W B WK AC CR CD G M S L D OP\n  No event was read.\n",
    ),
    (
        "ACE 1\nPORTS A\nAR 0 0 00000040 7 1 0\n",
        false,
        "x.trace:3:22: malformed line 3: F3: AR has 7 fields, and here are 6\n\n  AR 0 0 00000040 7 1 0\n                       ^\n  expected  AR p id addr snoop dom bar lock\n  No event was read.\n",
    ),
    (
        "ACE 1\nPORTS A\nRK  0 UC\n",
        false,
        "x.trace:3:4: malformed line 3: F3: RK has 2 fields, and here are 3: a space too many\n\n  RK  0 UC\n     ^\n  expected  RK p st\n  No event was read.\n",
    ),
    (
        "ACE 1\nPORTS A\nRK 00 UC\n",
        false,
        "x.trace:3:4: malformed line 3: F4: field p has 2 digits\n\n  RK 00 UC\n     ^\n  expected  1 digit\n  No event was read.\n",
    ),
    (
        "ACE 1\nPORTS A\nG z X 0\n",
        false,
        "x.trace:3:3: malformed line 3: F5: field p: 'z' is no lower-case hexadecimal digit\n\n  G z X 0\n    ^\n  expected  digits 0 to 9 and a to f\n  No event was read.\n",
    ),
    (
        "ACE 1\nPORTS A\nRK 0 uc\n",
        false,
        "x.trace:3:6: malformed line 3: F5: field st: 'uc' isn't one of its words\n\n  RK 0 uc\n       ^\n  expected  one of I UC UD SC SD\n  No event was read.\n",
    ),
    (
        "ACE 1\nPORTS A\nAR 0 0 00000040 7 1 0 2\n",
        false,
        "x.trace:3:23: malformed line 3: F6: field lock is 2\n\n  AR 0 0 00000040 7 1 0 2\n                        ^\n  expected  at most 1\n  No event was read.\n",
    ),
    (
        "ACE 1\nPORTS A\nOP 0 0000 ok\r\n",
        false,
        "x.trace:3:13: malformed line 3: F5: a carriage return: the file has DOS line ends\n\n  OP 0 0000 ok?\n              ^\n  expected  a line feed alone\n  No event was read.\n",
    ),
    (
        "ACE 1\nPORTS AAB\n",
        false,
        "x.trace:2:9: malformed line 2: F7: 'B' is no kind of port\n\n  PORTS AAB\n          ^\n  expected  PORTS and a letter A or L for each port, at most 8 of a kind\n",
    ),
    (
        "ACE 2\nPORTS LLLLLLLLLLLLLLLLL\n",
        false,
        "x.trace:2:7: malformed line 2: F7: too many ports of a kind\n\n  PORTS LLLLLLLLLLLLLLLLL\n        ^\n  expected  PORTS and a letter A or L for each port, at most 16 of a kind\n",
    ),
    (
        "ACE 1\n",
        false,
        "x.trace:2:1: malformed line 2: F1: the input ends before this line\n\n  \n  ^\n  expected  a header line\n",
    ),
    (
        "ACE 1\nPORTS A\nAR 0 0 00000040 7 1 0\n",
        true,
        "x.trace:3:22: malformed line 3: F3: AR has 7 fields, and here are 6\n",
    ),
    (
        "ACE 1\nPORTS A\nOP 0 0000 ok\nOP 0 0001 ok\nOP 0 0002 ok\nOP 0\n",
        false,
        "x.trace:6:5: malformed line 6: F3: OP has 3 fields, and here are 1\n\n  OP 0\n      ^\n  expected  OP p k res\n  Events 1 to 3 were read, and break no rule.\n",
    ),
];

#[test]
fn malformed_lines_have_their_texts(rt: HostRuntime) -> Result<(), Fail> {
    for (trace, short, wanted) in ROWS {
        let (told, holds) = is_told(rt.alloc(), trace, 99, 999, short, wanted)?;
        assert!(rt; told.is_some() && holds, "{wanted}");
    }
    Ok(())
}
