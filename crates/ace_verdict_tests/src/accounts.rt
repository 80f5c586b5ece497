// Accounts of traces that were followed.

use ace_account::Account;
use ace_io::{MemSink, MemSource};
use ace_verdict::{Verdict, follow_trace, put_account};
use std::alloc::Global;
use std::test::Fail;

/// An opening memory, and an ACE-Lite port reads its line.
const OPENED: &str = "ACE 2\nPORTS L\n\
    MEM 00000040 aaaaaaaaaaaaaaaaaaaaaaaaaaaaaaaaaaaaaaaaaaaaaaaaaaaaaaaaaaaaaaaaaaaaaaaaaaaaaaaaaaaaaaaaaaaaaaaaaaaaaaaaaaaaaaaaaaaaaaaaaaaaaaaa\n\
    AR 00 0 00000040 0 1 0 0\nG 00 R 0\n\
    R 00 0 0 0 aaaaaaaaaaaaaaaaaaaaaaaaaaaaaaaa\nR 00 0 0 0 aaaaaaaaaaaaaaaaaaaaaaaaaaaaaaaa\n\
    R 00 0 0 0 aaaaaaaaaaaaaaaaaaaaaaaaaaaaaaaa\nR 00 0 0 1 aaaaaaaaaaaaaaaaaaaaaaaaaaaaaaaa\n";

const OPENED_REPORT: &str = "port 0 loads 0 stores 0 reads 1 writes 0\n\
    line 00000040 stores 0 value aaaaaaaaaaaaaaaaaaaaaaaaaaaaaaaaaaaaaaaaaaaaaaaaaaaaaaaaaaaaaaaaaaaaaaaaaaaaaaaaaaaaaaaaaaaaaaaaaaaaaaaaaaaaaaaaaaaaaaaaaaaaaaaa\n";

const OPENED_ORDER: &str = "place 2 3\n";

/// Whether the account of the text is this one.
fn is_account(
    alloc: Global,
    text: &str,
    asked: Option<Account>,
    wanted: &str,
) -> Result<bool, Fail> {
    let mut source = MemSource::new(alloc, text.as_bytes(), &[64], &[])?;
    let mut sink = MemSink::new(alloc, 999, &[])?;
    let put = match follow_trace(alloc, &mut source, asked) {
        Ok(follower) => put_account(follower, &mut sink).is_ok(),
        Err(_) => false,
    };
    drop(source);
    let holds = put && sink.bytes() == wanted.as_bytes();
    drop(sink);
    Ok(holds)
}

#[test]
fn accounts_of_an_accepted_trace(rt: HostRuntime) -> Result<(), Fail> {
    for (asked, wanted) in [
        (Some(Account::Report), OPENED_REPORT),
        (Some(Account::Order), OPENED_ORDER),
        (None, ""),
    ] {
        assert!(rt; is_account(rt.alloc(), OPENED, asked, wanted)?, "{wanted}");
    }
    Ok(())
}

#[test]
fn no_account_of_a_refused_trace(rt: HostRuntime) -> Result<(), Fail> {
    let alloc = rt.alloc();
    let text = "ACE 2\nPORTS AL\nRK 1f UC\n";
    let mut source = MemSource::new(alloc, text.as_bytes(), &[64], &[])?;
    let verdict = match follow_trace(alloc, &mut source, Some(Account::Report)) {
        Ok(follower) => {
            drop(follower);
            None
        }
        Err(verdict) => Some(verdict),
    };
    drop(source);
    assert!(rt; verdict == Some(Verdict::Refused { index: 1, rule: 1 }));
    Ok(())
}
