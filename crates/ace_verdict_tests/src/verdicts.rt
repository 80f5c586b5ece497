// Verdicts, within the limits of a trace and within others.
ghost use Rattle.std.specs.Prelude.{◌≤◌};
ghost use Rattle.ace_grammar.specs.Reading.{most_counted};

use ace_grammar::{MOST_COUNTED, Reason};
use ace_io::MemSource;
use ace_verdict::{Limits, Verdict, verdict_on, verdict_within};
use std::alloc::Global;
use std::test::Fail;

/// An ACE-Lite port reads two lines, one after the other, in 12 events.
const TWO_LINES: &str = "ACE 1\nPORTS L\n\
    AR 0 0 00000040 0 1 0 0\nG 0 R 0\n\
    R 0 0 0 0 00000000000000000000000000000000\nR 0 0 0 0 00000000000000000000000000000000\n\
    R 0 0 0 0 00000000000000000000000000000000\nR 0 0 0 1 00000000000000000000000000000000\n\
    AR 0 0 00000080 0 1 0 0\nG 0 R 0\n\
    R 0 0 0 0 00000000000000000000000000000000\nR 0 0 0 0 00000000000000000000000000000000\n\
    R 0 0 0 0 00000000000000000000000000000000\nR 0 0 0 1 00000000000000000000000000000000\n";

/// Port 0 and then port 1 are granted the same line.
const TWO_GRANTS: &str = "ACE 1\nPORTS AA\n\
    AR 0 0 00000040 7 1 0 0\nG 0 R 0\nAR 1 0 00000040 7 1 0 0\nG 1 R 0\n";

/// The verdict on a text of which a source gives 64 bytes at once, and where it fails at the takes
/// of the list.
fn verdict(alloc: Global, text: &str, fails: &[u32]) -> Result<Verdict, Fail> {
    let mut source = MemSource::new(alloc, text.as_bytes(), &[64], fails)?;
    let verdict = verdict_on(alloc, &mut source);
    drop(source);
    Ok(verdict)
}

/// The same within other limits, where it doesn't fail.
fn verdict_of(alloc: Global, text: &str, events: u64, lines: usize) -> Result<Verdict, Fail>
    requires counted { events ≤ most_counted }
{
    let mut source = MemSource::new(alloc, text.as_bytes(), &[64], &[])?;
    let verdict = verdict_within(alloc, &mut source, Limits { events, lines });
    drop(source);
    Ok(verdict)
}

#[test]
fn verdicts_on_texts(rt: HostRuntime) -> Result<(), Fail> {
    for (text, wanted) in [
        (TWO_LINES, Verdict::Accepted { events: 12 }),
        (TWO_GRANTS, Verdict::Refused { index: 4, rule: 12 }),
        ("ACE 1\nPORTS AA\n", Verdict::Accepted { events: 0 }),
        (
            "ACE 1\nPORTS AA\nXX 0\n",
            Verdict::Malformed {
                line: 3,
                reason: Reason::F2,
            },
        ),
    ] {
        assert!(rt; verdict(rt.alloc(), text, &[])? == wanted, "{text}");
    }
    assert!(rt; verdict(rt.alloc(), TWO_LINES, &[2])? == Verdict::ReadFault);
    Ok(())
}

#[test]
fn verdicts_within_limits(rt: HostRuntime) -> Result<(), Fail> {
    for (text, events, lines, wanted) in [
        (TWO_LINES, 12, 2, Verdict::Accepted { events: 12 }),
        (TWO_LINES, 11, 2, Verdict::LimitEvents),
        (TWO_LINES, 12, 1, Verdict::LimitLines),
        (TWO_LINES, 6, 1, Verdict::LimitEvents),
        (TWO_LINES, 7, 1, Verdict::LimitLines),
        (TWO_LINES, 0, 0, Verdict::LimitEvents),
        (TWO_GRANTS, 3, 1, Verdict::LimitEvents),
        (TWO_GRANTS, 4, 1, Verdict::Refused { index: 4, rule: 12 }),
    ] {
        assert!(rt;
            verdict_of(rt.alloc(), text, events, lines)? == wanted,
            "{events} events, {lines} lines: {text}"
        );
    }
    let unlimited = verdict_of(rt.alloc(), TWO_LINES, MOST_COUNTED, 0xffff_ffff_ffff_ffff)?;
    assert!(rt; unlimited == Verdict::Accepted { events: 12 });
    Ok(())
}
